//! Entries of the constant pool that code names.

ghost use Rattle.std.specs.Prelude.{◌≡◌, ◌+◌, ◌<◌, ◌≤◌, Some, false, length, IfOk, OnOk};
ghost use Rattle.kc_text.specs.Fail.{IfFound};
ghost use Rattle.class_file.specs.Indexing.{places_of};
ghost use Rattle.class_file.specs.Pools.{entry_at, Extends, text_in, name_in, named_in, constant_in, Number, Literal};
ghost use Rattle.class_file.specs.Lots.{NamesNative};
ghost use Rattle.stack_code.specs.Code.{native_of};
ghost use Rattle.stack_code.specs.Emission.{NamesTypes};

use class_file::pool::{Entry, Pool};
use kc_text::{Fail, Memory, Text};
use std::alloc::Global;

/// What is to be written doesn't fit into a class file: the constants, the code's length, the number of its operands or of its locals,
/// or the distance of a jump (JVM Specification SE 8, 4.7.3, 4.11 and 6.5).
#[derive(Clone, Copy, Debug, PartialEq, Eq)]
pub struct TooLarge;

/// The natives that code calls.
#[derive(Clone, Copy)]
pub enum Helper {
    /// Writes the text's UTF-8 to the standard output.
    ConsoleWrite,
    /// The second text behind the first.
    TextsConcat,
    /// The number in decimal.
    TextsOfInt,
    /// `true` or `false`.
    TextsOfBoolean,
}

// The index of an entry, which goes to the pool if it isn't there.
#[tactic(auto, using(crate::proofs::Emitting::grown_once))]
fn add(pool: &mut Pool, entry: Entry) -> Result<u16, Fail<TooLarge>>
    ensures at { IfOk result (λ i. entry_at pool.new i ≡ Some entry) }
    ensures kept { Extends pool.old pool.new }
    ensures grown { OnOk result (length pool.new ≤ length pool.old + places_of entry) }
    ensures full { IfFound result (λ _. 65535 < length pool.old + places_of entry) }
{
    match pool.index(entry) {
        Ok(index) => Ok(index),
        Err(Fail::Found(_)) => Err(Fail::Found(TooLarge)),
        Err(Fail::Memory) => Err(Fail::Memory),
    }
}

// The text of some ASCII bytes.
pub(crate) fn ascii(alloc: Global, bytes: &[u8]) -> Result<Text, Memory>
    ensures { IfOk result (λ t. t ≡ bytes.now) }
{
    let mut text = Text::new(alloc);
    for byte in bytes {
        text.push(u16::from(*byte))?;
    }
    Ok(text)
}

#[tactic(auto, using(crate::proofs::Emitting::extends_on, crate::proofs::Emitting::extends_none))]
fn text(alloc: Global, pool: &mut Pool, bytes: &[u8]) -> Result<u16, Fail<TooLarge>>
    ensures at { IfOk result (λ i. text_in (entry_at pool.new i) ≡ Some bytes.now) }
    ensures kept { Extends pool.old pool.new }
    ensures grown { OnOk result (length pool.new ≤ length pool.old + 1) }
    ensures full { IfFound result (λ _. 65535 < length pool.old + 1) }
{
    let text = ascii(alloc, bytes)?;
    add(pool, Entry::Utf8(text))
}

#[tactic(auto, using(crate::proofs::Emitting::extends_on, crate::proofs::Emitting::extends_none))]
fn class(alloc: Global, pool: &mut Pool, name: &[u8]) -> Result<u16, Fail<TooLarge>>
    ensures at { IfOk result (λ i. name_in pool.new (entry_at pool.new i) ≡ Some name.now) }
    ensures kept { Extends pool.old pool.new }
    ensures grown { OnOk result (length pool.new ≤ length pool.old + 2) }
    ensures full { IfFound result (λ _. 65535 < length pool.old + 2) }
{
    let name = text(alloc, pool, name)?;
    add(pool, Entry::Class(name))
}

#[tactic(auto, using(crate::proofs::Emitting::extends_on, crate::proofs::Emitting::extends_none, crate::proofs::Emitting::text_kept))]
fn name_and_type(
    alloc: Global,
    pool: &mut Pool,
    name: &[u8],
    descriptor: &[u8],
) -> Result<u16, Fail<TooLarge>>
    ensures at { IfOk result (λ i. NamesTypes pool.new i name.now descriptor.now) }
    ensures kept { Extends pool.old pool.new }
    ensures grown { OnOk result (length pool.new ≤ length pool.old + 3) }
    ensures full { IfFound result (λ _. 65535 < length pool.old + 3) }
{
    let name = text(alloc, pool, name)?;
    let descriptor = text(alloc, pool, descriptor)?;
    add(pool, Entry::NameAndType(name, descriptor))
}

// A method of a class that is no interface.
#[tactic(auto, using(crate::proofs::Emitting::extends_on, crate::proofs::Emitting::extends_none, crate::proofs::Emitting::named_method))]
fn method(
    alloc: Global,
    pool: &mut Pool,
    owner: &[u8],
    name: &[u8],
    descriptor: &[u8],
) -> Result<u16, Fail<TooLarge>>
    ensures at { IfOk result (λ i. named_in pool.new (entry_at pool.new i) ≡ Some (record { is_interface = false; member = record { owner = owner.now; name = name.now; descriptor = descriptor.now } })) }
    ensures kept { Extends pool.old pool.new }
    ensures grown { OnOk result (length pool.new ≤ length pool.old + 6) }
    ensures full { IfFound result (λ _. 65535 < length pool.old + 6) }
{
    let owner = class(alloc, pool, owner)?;
    let member = name_and_type(alloc, pool, name, descriptor)?;
    let method = add(pool, Entry::MethodRef(owner, member))?;
    Ok(method)
}

/// The index of a native, as a method of its class.
pub fn native(alloc: Global, pool: &mut Pool, helper: Helper) -> Result<u16, Fail<TooLarge>>
    ensures at { IfOk result (λ i. NamesNative (named_in pool.new (entry_at pool.new i)) (native_of helper)) }
    ensures kept { Extends pool.old pool.new }
    ensures grown { OnOk result (length pool.new ≤ length pool.old + 6) }
    ensures full { IfFound result (λ _. 65535 < length pool.old + 6) }
{
    match helper {
        Helper::TextsOfInt => method(
            alloc,
            pool,
            b"kprof/rt/Texts",
            b"ofInt",
            b"(I)Ljava/lang/String;",
        ),
        Helper::TextsOfBoolean => method(
            alloc,
            pool,
            b"kprof/rt/Texts",
            b"ofBoolean",
            b"(Z)Ljava/lang/String;",
        ),
        Helper::TextsConcat => method(
            alloc,
            pool,
            b"kprof/rt/Texts",
            b"concat",
            b"(Ljava/lang/String;Ljava/lang/String;)Ljava/lang/String;",
        ),
        Helper::ConsoleWrite => method(
            alloc,
            pool,
            b"kprof/rt/Console",
            b"write",
            b"(Ljava/lang/String;)V",
        ),
    }
}

/// The index of a number.
pub fn number(pool: &mut Pool, n: i32) -> Result<u16, Fail<TooLarge>>
    ensures at { IfOk result (λ i. constant_in pool.new (entry_at pool.new i) ≡ Some (Number n)) }
    ensures kept { Extends pool.old pool.new }
    ensures grown { OnOk result (length pool.new ≤ length pool.old + 1) }
    ensures full { IfFound result (λ _. 65535 < length pool.old + 1) }
{
    add(pool, Entry::Integer(n))
}

/// The index of a text as a constant.
#[tactic(auto, using(crate::proofs::Emitting::extends_on, crate::proofs::Emitting::extends_none, crate::proofs::Emitting::text_kept))]
pub fn literal(pool: &mut Pool, text: Text) -> Result<u16, Fail<TooLarge>>
    ensures at { IfOk result (λ i. constant_in pool.new (entry_at pool.new i) ≡ Some (Literal text)) }
    ensures kept { Extends pool.old pool.new }
    ensures grown { OnOk result (length pool.new ≤ length pool.old + 2) }
    ensures full { IfFound result (λ _. 65535 < length pool.old + 2) }
{
    let text = add(pool, Entry::Utf8(text))?;
    add(pool, Entry::Str(text))
}
