//! The name of the class that holds a source file's functions.
ghost use Rattle.std.specs.Prelude.{◌≡◌, ℕ, ◌+◌, ◌≤◌, List, [], ◌∷◌, ◌++◌, length, drop, codes, IfOk, OnOk};
ghost use Rattle.kc_cli.specs.ClassName.{capitalized, class_name_of, last_part_of};
ghost use Rattle.kc_cli.specs.SourceFile.{HasParts, IsSourceFile};

use kc_text::{Memory, Text};
use std::alloc::Global;

/// The binary name of the class of a source file without a package: its base name with the first
/// letter in upper case, and `Kt`. Folders do not count.
pub fn class_name(alloc: Global, file: &str) -> Result<Text, Memory>
    requires { IsSourceFile file.now }
    ensures named { IfOk result (λ text. text ≡ class_name_of file.now) }
    ensures parts { IfOk result (λ text. (folders : List (List ℕ)) (base : List ℕ) →
        HasParts file.now folders base → text ≡ capitalized base ++ codes "Kt") }
{
    let last = last_part(file.as_bytes());
    let mut name = Text::new(alloc);
    push_capitalized(&mut name, &last[..last.len() - 3])?;
    push_bytes(&mut name, b"Kt")?;
    Ok(name)
}

/// What stands behind the last `/`.
fn last_part(file: &[u8]) -> &[u8]
    ensures { result.now ≡ last_part_of file.now }
{
    let mut start = file.len();
    while start > 0 && file[start - 1] != b'/' {
        start -= 1;
    }
    &file[start..]
}

/// Adds a unit for each byte, and the first in upper case.
fn push_capitalized(text: &mut Text, bytes: &[u8]) -> Result<(), Memory>
    ensures { OnOk result (text.new ≡ text.old ++ capitalized bytes.now) }
{
    if let Some((first, rest)) = bytes.split_first() {
        text.push(u16::from(first.to_ascii_uppercase()))?;
        push_bytes(text, rest)?;
    }
    Ok(())
}

/// Adds a unit for each byte.
fn push_bytes(text: &mut Text, bytes: &[u8]) -> Result<(), Memory>
    ensures { OnOk result (text.new ≡ text.old ++ bytes.now) }
{
    for byte in bytes {
        text.push(u16::from(*byte))?;
    }
    Ok(())
}
