//! Character and string literals (Kotlin Language Specification 1.9, "Character literals" and "String mode grammar").
ghost use Rattle.std.specs.Prelude.{◌≡◌, ◌≤◌, ◌<◌, ◌&&◌, ◌||◌, length, drop, IfOk, IfSome};
ghost use Rattle.kt_lexer.specs.Strings as spec;

use crate::characters::{is_line_end, text_from, unit_at};
use crate::numbers::digit_value;
use crate::words::name_length;
use kc_text::{Memory, Text};
use std::alloc::Global;

/// A unit, and how many units of a literal spell it.
#[derive(Clone, Copy)]
pub struct Element {
    pub unit: u16,
    pub length: usize,
}

/// The unit that a letter behind `\` stands for.
fn letter_escape(letter: u16) -> Option<u16>
    ensures { result ≡ spec.letter_escape letter }
{
    match letter {
        116 => Some(9),
        98 => Some(8),
        110 => Some(10),
        114 => Some(13),
        39 => Some(39),
        34 => Some(34),
        92 => Some(92),
        36 => Some(36),
        _ => None,
    }
}

fn is_hex(unit: u16) -> bool
    ensures { result ≡ spec.is_hex unit }
{
    digit_value(unit) < 16
}

/// Four hexadecimal digits.
fn are_hex(a: u16, b: u16, c: u16, d: u16) -> bool
    ensures { result ≡ (spec.is_hex a && spec.is_hex b && spec.is_hex c && spec.is_hex d) }
{
    is_hex(a) && is_hex(b) && is_hex(c) && is_hex(d)
}

fn unit_escape(a: u16, b: u16, c: u16, d: u16) -> Option<Element>
    ensures value { result ≡ spec.unit_escape a b c d }
    ensures short { IfSome result (λ e. e.length ≤ 6) }
{
    if !are_hex(a, b, c, d) {
        return None;
    }
    let unit = digit_value(a) as u32 * 4096
        + digit_value(b) as u32 * 256
        + digit_value(c) as u32 * 16
        + digit_value(d) as u32;
    Some(Element {
        unit: unit as u16,
        length: 6,
    })
}

/// The escape that begins with the `\` in front.
pub fn escape_of(text: &[u16]) -> Option<Element>
    ensures value { result ≡ spec.escape_of text.now }
    ensures short { IfSome result (λ e. e.length ≤ 6) }
{
    let letter = unit_at(text, 1);
    if letter == 117 {
        return unit_escape(
            unit_at(text, 2),
            unit_at(text, 3),
            unit_at(text, 4),
            unit_at(text, 5),
        );
    }
    match letter_escape(letter) {
        Some(unit) => Some(Element { unit, length: 2 }),
        None => None,
    }
}

/// How many units the name behind the first unit has: 0 where none stands there.
pub fn name_behind(text: &[u16]) -> usize
    ensures value { result ≡ spec.name_behind text.now }
    ensures within { 1 ≤ result → result < length text.now }
{
    if text.is_empty() {
        return 0;
    }
    name_length(text_from(text, 1))
}

/// A `$` in front begins `${` or a name.
fn begins_template(text: &[u16]) -> bool
    ensures { result ≡ spec.begins_template text.now }
{
    unit_at(text, 0) == 36 && (unit_at(text, 1) == 123 || 1 <= name_behind(text))
}

/// The unit of a string's text in front, where the text does not end there.
pub fn element_of(text: &[u16]) -> Option<Element>
    ensures { result ≡ spec.element_of text.now }
{
    if text.is_empty() {
        return None;
    }
    let unit = unit_at(text, 0);
    if is_line_end(unit) {
        return None;
    }
    if unit == 34 {
        return None;
    }
    if unit == 92 {
        return escape_of(text);
    }
    if begins_template(text) {
        return None;
    }
    Some(Element { unit, length: 1 })
}

/// How many units the longest text of a string in front has.
pub fn text_length(text: &[u16]) -> usize
    ensures value { result ≡ spec.text_length text.now }
    ensures within { result ≤ length text.now }
{
    let mut at = 0;
    while let Some(element) = element_of(text_from(text, at)) {
        at += element.length;
    }
    at
}

/// The units that the longest text of a string in front stands for.
pub fn text_units(alloc: Global, text: &[u16]) -> Result<Text, Memory>
    ensures { IfOk result (λ units. units ≡ spec.text_units text.now) }
{
    let mut units = Text::new(alloc);
    let mut at = 0;
    while let Some(element) = element_of(text_from(text, at)) {
        units.push(element.unit)?;
        at += element.length;
    }
    Ok(units)
}
