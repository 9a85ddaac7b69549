//! Texts from UTF-8 and to it.
ghost use Rattle.std.specs.Prelude.{◌≡◌, ◌++◌, ◌<◌, ◌≤◌, List, ℕ, ◌∷◌, length, drop, OnOk, IfOk, IsTrue};
ghost use Rattle.std.specs.Char.{is_ascii};
ghost use Rattle.std.specs.List.{list_all};
ghost use Rattle.kc_text.specs.Fail.{IfFound};
ghost use Rattle.kc_text.specs.Unicode.{encode_utf16, characters_of, utf8_of, IsReading, IsTranscoded, IsUtf8, IsValidUpTo};

use crate::{BadUtf8, Fail, Memory, Text};
use std::alloc::{AllocError, Global};

impl Text {
    /// The text whose UTF-8 the bytes are. A byte order mark is a character like any other.
    pub fn from_utf8(alloc: Global, bytes: &[u8]) -> Result<Text, Fail<BadUtf8>>
        ensures ok { IfOk result (λ text. IsTranscoded bytes.now text) }
        ensures only { IfOk result (λ text. (units : List ℕ) → IsTranscoded bytes.now units → units ≡ text) }
        ensures refused { IfFound result (λ _. ¬ (IsUtf8 bytes.now)) }
        ensures at { IfFound result (λ bad. IsValidUpTo bytes.now bad.at) }
    {
        match str::from_utf8(bytes) {
            Ok(text) => Ok(Text::from_str(alloc, text)?),
            Err(error) => Err(Fail::Found(BadUtf8 {
                at: error.valid_up_to(),
            })),
        }
    }

    /// The text of the same characters.
    pub fn from_str(alloc: Global, text: &str) -> Result<Text, Memory>
        ensures ok { IfOk result (λ units. IsTranscoded text.now units) }
        ensures ascii { IsTrue (list_all is_ascii text.now) → IfOk result (λ units. units ≡ text.now) }
    {
        let mut units = Vec::with_capacity(alloc, text.len())?;
        for character in text.chars() {
            push_character(&mut units, character)?;
        }
        let text = Text::from_units(alloc, units)?;
        Ok(text)
    }

    /// The UTF-8 of the text's characters, with `?` for each surrogate without its partner.
    pub fn to_utf8(&self, alloc: Global) -> Result<Vec<u8>, Memory>
        ensures bytes { IfOk result (λ bytes. bytes.items ≡ utf8_of self.now) }
        ensures read { OnOk result (IsReading self.now (characters_of self.now)) }
        ensures utf8 { IfOk result (λ bytes. IsUtf8 bytes.items) }
        ensures back { IfOk result (λ bytes. (source : List ℕ) → IsTranscoded source self.now → bytes.items ≡ source) }
    {
        let bytes = utf8_from_units(alloc, self.units())?;
        Ok(bytes)
    }
}

fn push_character(units: &mut Vec<u16>, character: char) -> Result<(), AllocError>
    ensures { OnOk result (units.new.items ≡ units.old.items ++ encode_utf16 character) }
{
    let mut pair = [0u16; 2];
    units.extend_from_slice(character.encode_utf16(&mut pair))
}

fn utf8_from_units(alloc: Global, units: &[u16]) -> Result<Vec<u8>, AllocError>
    ensures bytes { IfOk result (λ bytes. bytes.items ≡ utf8_of units.now) }
    ensures read { OnOk result (IsReading units.now (characters_of units.now)) }
{
    let mut bytes = String::with_capacity(alloc, units.len())?;
    let mut at = 0;
    while at < units.len() {
        let (character, next) = character_at(units, at);
        bytes.push(character)?;
        at = next;
    }
    Ok(bytes.into_bytes())
}

/// The character whose units begin at this index, or `?` where a surrogate without its partner
/// stands, and the index behind it.
fn character_at(units: &[u16], at: usize) -> (char, usize)
    requires { at < length units.now }
    ensures onward { (at < result.1) × (result.1 ≤ length units.now) }
    ensures first { characters_of (drop at units.now) ≡ result.0 ∷ characters_of (drop result.1 units.now) }
{
    let high = units[at] as u32;
    if high < 0xD800 || 0xE000 <= high {
        return (char::from_u32(high).unwrap_or('?'), at + 1);
    }
    if 0xDC00 <= high || units.len() - at < 2 {
        return ('?', at + 1);
    }
    let low = units[at + 1] as u32;
    if low < 0xDC00 || 0xE000 <= low {
        return ('?', at + 1);
    }
    let code = 0x1_0000 + (high - 0xD800) * 0x400 + (low - 0xDC00);
    (char::from_u32(code).unwrap_or('?'), at + 2)
}
