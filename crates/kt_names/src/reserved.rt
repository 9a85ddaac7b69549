//! The list of names with which each set of sources begins.
ghost use Rattle.std.specs.Prelude.{◌≡◌, ◌<◌, [], IfOk, get_or};
ghost use Rattle.kt_grammar.specs.Reserved.{HasReserved, reserved};

use kc_text::{Memory, Names, Text};
use std::alloc::Global;

/// How many words there are.
const COUNT: usize = 26;

/// The word with a number.
fn word(number: usize) -> &'static str
    requires { number < COUNT }
    ensures { result.now ≡ get_or reserved number [] }
{
    match number {
        0 => "catch",
        1 => "finally",
        2 => "out",
        3 => "get",
        4 => "set",
        5 => "init",
        6 => "constructor",
        7 => "import",
        8 => "public",
        9 => "internal",
        10 => "private",
        11 => "final",
        12 => "open",
        13 => "abstract",
        14 => "sealed",
        15 => "data",
        16 => "enum",
        17 => "override",
        18 => "operator",
        19 => "infix",
        20 => "inline",
        21 => "const",
        22 => "vararg",
        23 => "noinline",
        24 => "crossinline",
        _ => "reified",
    }
}

/// The text of a word.
fn word_text(alloc: Global, number: usize) -> Result<Text, Memory>
    requires { number < COUNT }
    ensures { IfOk result (λ units. units ≡ get_or reserved number []) }
{
    Text::from_str(alloc, word(number))
}

/// The list of names that has these words as its first, each with its number. The names of all sources of a set are added to it.
///
/// # Errors
///
/// Out of memory.
pub fn reserved_names(alloc: Global) -> Result<Names, Memory>
    ensures { IfOk result HasReserved }
{
    let mut names = Names::new(alloc);
    for number in 0..COUNT {
        names.add(word_text(alloc, number)?)?;
    }
    Ok(names)
}
