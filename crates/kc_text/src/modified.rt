//! Texts from modified UTF-8 and to it, as class files hold them (JVM Specification SE 8, 4.4.7).
ghost use Rattle.std.specs.Prelude.{◌≡◌, ◌+◌, ◌++◌, ◌<◌, ◌≤◌, List, ℕ, ◌∷◌, OnOk, IfOk, IfSome, IfNone};
ghost use Rattle.kc_text.specs.Fail.{IfFound};
ghost use Rattle.kc_text.specs.Modified.{modified_of, modified_of_unit, AreUnits, IsModified, IsModifiedUpTo, StartsWithNoLowBits, StartsWithNoUnit};

use crate::{BadModified, Fail, Memory, Text};
use std::alloc::{AllocError, Global};

impl Text {
    /// The modified UTF-8 of the text: one to three bytes for each UTF-16 unit.
    pub fn to_modified(&self, alloc: Global) -> Result<Vec<u8>, Memory>
        ensures bytes { IfOk result (λ bytes. bytes.items ≡ modified_of self.now) }
        ensures modified { IfOk result (λ bytes. IsModified bytes.items) }
        ensures only { IfOk result (λ bytes. (units : List ℕ) → AreUnits units → modified_of units ≡ bytes.items → units ≡ self.now) }
    {
        let bytes = modified_from_units(alloc, self.units())?;
        Ok(bytes)
    }

    /// The text whose modified UTF-8 the bytes are.
    pub fn from_modified(alloc: Global, bytes: &[u8]) -> Result<Text, Fail<BadModified>>
        ensures ok { IfOk result (λ text. modified_of text ≡ bytes.now) }
        ensures only { IfOk result (λ text. (units : List ℕ) → AreUnits units → modified_of units ≡ bytes.now → units ≡ text) }
        ensures refused { IfFound result (λ _. ¬ (IsModified bytes.now)) }
        ensures at { IfFound result (λ bad. IsModifiedUpTo bytes.now bad.at) }
    {
        let mut units = Vec::with_capacity(alloc, bytes.len())?;
        let mut rest = bytes;
        while let Some((unit, next)) = first_unit(rest) {
            units.push(unit)?;
            rest = next;
        }
        if rest.is_empty() {
            let text = Text::from_units(alloc, units)?;
            return Ok(text);
        }
        Err(Fail::Found(BadModified {
            at: bytes.len() - rest.len(),
        }))
    }
}

fn modified_from_units(alloc: Global, units: &[u16]) -> Result<Vec<u8>, AllocError>
    ensures bytes { IfOk result (λ bytes. bytes.items ≡ modified_of units.now) }
    ensures fits { OnOk result (AreUnits units.now) }
{
    let mut bytes = Vec::with_capacity(alloc, units.len())?;
    for unit in units {
        push_unit(&mut bytes, *unit)?;
    }
    Ok(bytes)
}

fn push_unit(bytes: &mut Vec<u8>, unit: u16) -> Result<(), AllocError>
    ensures { OnOk result (bytes.new.items ≡ bytes.old.items ++ modified_of_unit unit) }
{
    if 0 < unit && unit < 0x80 {
        return bytes.extend_from_slice(&[unit as u8]);
    }
    let last = (0x80 + unit % 0x40) as u8;
    if unit < 0x800 {
        let first = (0xC0 + unit / 0x40) as u8;
        return bytes.extend_from_slice(&[first, last]);
    }
    let first = (0xE0 + unit / 0x1000) as u8;
    let second = (0x80 + unit / 0x40 % 0x40) as u8;
    bytes.extend_from_slice(&[first, second, last])
}

/// The unit whose bytes begin the bytes, and the bytes behind them.
fn first_unit(bytes: &[u8]) -> Option<(u16, &[u8])>
    ensures some { IfSome result (λ first. bytes.now ≡ modified_of_unit first.0 ++ first.1.now) }
    ensures none { IfNone result (StartsWithNoUnit bytes.now) }
{
    match bytes {
        [] => None,
        [first, rest @ ..] => {
            let first = *first;
            if first == 0 {
                return None;
            }
            if first < 0x80 {
                return Some((first as u16, rest));
            }
            if first < 0xC0 || 0xF0 <= first {
                return None;
            }
            if first < 0xE0 {
                return two_bytes(first, rest);
            }
            three_bytes(first, rest)
        }
    }
}

fn two_bytes(first: u8, rest: &[u8]) -> Option<(u16, &[u8])>
    requires low { 0xC0 ≤ first }
    requires high { first < 0xE0 }
    ensures some { IfSome result (λ found. first ∷ rest.now ≡ modified_of_unit found.0 ++ found.1.now) }
    ensures none { IfNone result (StartsWithNoUnit (first ∷ rest.now)) }
{
    let (low, rest) = low_bits(rest)?;
    let unit = (first - 0xC0) as u16 * 0x40 + low;
    if unit == 0 || 0x80 <= unit {
        return Some((unit, rest));
    }
    None
}

fn three_bytes(first: u8, rest: &[u8]) -> Option<(u16, &[u8])>
    requires low { 0xE0 ≤ first }
    requires high { first < 0xF0 }
    ensures some { IfSome result (λ found. first ∷ rest.now ≡ modified_of_unit found.0 ++ found.1.now) }
    ensures none { IfNone result (StartsWithNoUnit (first ∷ rest.now)) }
{
    let (middle, rest) = low_bits(rest)?;
    let (low, rest) = low_bits(rest)?;
    let unit = (first - 0xE0) as u16 * 0x1000 + middle * 0x40 + low;
    if 0x800 <= unit {
        return Some((unit, rest));
    }
    None
}

/// The low six bits of the byte that begins the bytes, where its high two bits are 10, and the
/// bytes behind it.
fn low_bits(bytes: &[u8]) -> Option<(u16, &[u8])>
    ensures some { IfSome result (λ found. bytes.now ≡ (0x80 + found.0) ∷ found.1.now) }
    ensures six { IfSome result (λ found. found.0 < 0x40) }
    ensures none { IfNone result (StartsWithNoLowBits bytes.now) }
{
    match bytes {
        [] => None,
        [first, rest @ ..] => {
            let first = *first;
            if first < 0x80 || 0xC0 <= first {
                return None;
            }
            Some(((first - 0x80) as u16, rest))
        }
    }
}
