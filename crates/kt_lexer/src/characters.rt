//! Units and characters.
ghost use Rattle.std.specs.Prelude.{◌≡◌, ◌≤◌, ◌&&◌, ◌<◌, length, drop, IsTrue};
ghost use Rattle.kt_lexer.specs.Characters as spec;

use unicode::properties::GeneralCategory;

/// The unit at this index, or 0 behind the end.
pub fn unit_at(text: &[u16], index: usize) -> u16
    ensures value { result ≡ spec.unit_at text.now index }
    ensures present { 1 ≤ result → index < length text.now }
{
    match text.get(index) {
        Some(unit) => *unit,
        None => 0,
    }
}

/// The text begins with these ASCII units.
pub fn is_front(spelling: &[u8], text: &[u16]) -> bool
    ensures value { result ≡ spec.is_front spelling.now text.now }
    ensures fits { IsTrue result → length spelling.now ≤ length text.now }
{
    if text.len() < spelling.len() {
        return false;
    }
    for index in 0..spelling.len() {
        if spelling[index] as u16 != text[index] {
            return false;
        }
    }
    true
}

pub fn is_blank(unit: u16) -> bool
    ensures { result ≡ spec.is_blank unit }
{
    unit == 32 || unit == 9 || unit == 12
}

pub fn is_line_end(unit: u16) -> bool
    ensures { result ≡ spec.is_line_end unit }
{
    unit == 10 || unit == 13
}

pub fn is_digit(unit: u16) -> bool
    ensures { result ≡ spec.is_digit unit }
{
    48 <= unit && unit <= 57
}

fn is_ascii_letter(code: u32) -> bool
    ensures { result ≡ spec.is_ascii_letter code }
{
    (97 <= code && code <= 122) || (65 <= code && code <= 90)
}

fn is_ascii_digit(code: u32) -> bool
    ensures { result ≡ spec.is_digit code }
{
    48 <= code && code <= 57
}

fn is_letter(category: GeneralCategory) -> bool
    ensures { result ≡ spec.is_letter category }
{
    matches!(
        category,
        GeneralCategory::UppercaseLetter
            | GeneralCategory::LowercaseLetter
            | GeneralCategory::TitlecaseLetter
            | GeneralCategory::ModifierLetter
            | GeneralCategory::OtherLetter
            | GeneralCategory::LetterNumber
    )
}

fn is_decimal(category: GeneralCategory) -> bool
    ensures { result ≡ spec.is_decimal category }
{
    matches!(category, GeneralCategory::DecimalNumber)
}

fn starts(character: char) -> bool
    ensures { result ≡ spec.starts character }
{
    let code = character as u32;
    if 128 <= code {
        return is_letter(GeneralCategory::for_char(character));
    }
    is_ascii_letter(code) || code == 95
}

fn continues(character: char) -> bool
    ensures { result ≡ spec.continues character }
{
    let code = character as u32;
    if 128 <= code {
        let category = GeneralCategory::for_char(character);
        return is_letter(category) || is_decimal(category);
    }
    is_ascii_letter(code) || code == 95 || is_ascii_digit(code)
}

fn is_pair(first: u16, second: u16) -> bool
    ensures { result ≡ spec.is_pair first second }
{
    55296 <= first && first <= 56319 && 56320 <= second && second <= 57343
}

fn is_surrogate(unit: u16) -> bool
    ensures { result ≡ spec.is_surrogate unit }
{
    55296 <= unit && unit <= 57343
}

/// The character of these two units, or of the first alone, and how many units it has. A surrogate without its partner is none.
fn character_of(first: u16, second: u16) -> Option<(char, usize)>
    ensures { result ≡ spec.character_of first second }
{
    if is_pair(first, second) {
        let code = 65536 + (first as u32 - 55296) * 1024 + (second as u32 - 56320);
        return match char::from_u32(code) {
            Some(character) => Some((character, 2)),
            None => None,
        };
    }
    if is_surrogate(first) {
        return None;
    }
    match char::from_u32(first as u32) {
        Some(character) => Some((character, 1)),
        None => None,
    }
}

/// How many units the identifier character of these two has: 0 where they begin with none.
fn part_of(first: u16, second: u16) -> usize
    ensures { result ≡ spec.character_length spec.continues first second }
{
    match character_of(first, second) {
        Some((character, length)) => { if continues(character) { length } else { 0 } }
        None => 0,
    }
}

/// How many units the identifier character in front has: 0 where none stands there.
pub fn part_length(text: &[u16]) -> usize
    ensures { result ≡ spec.part_length text.now }
{
    part_of(unit_at(text, 0), unit_at(text, 1))
}

/// An identifier begins in front.
pub fn starts_word(text: &[u16]) -> bool
    ensures { result ≡ spec.starts_word text.now }
{
    match character_of(unit_at(text, 0), unit_at(text, 1)) {
        Some((character, _)) => starts(character),
        None => false,
    }
}

/// The text from an index on.
pub fn text_from(text: &[u16], at: usize) -> &[u16]
    requires { at ≤ length text.now }
    ensures { result.now ≡ drop at text.now }
{
    &text[at..]
}

/// How many units the longest run of identifier characters in front has.
pub fn word_length(text: &[u16]) -> usize
    ensures value { result ≡ spec.word_length text.now }
    ensures within { result ≤ length text.now }
{
    let mut at = 0;
    loop {
        let length = part_length(text_from(text, at));
        if length == 0 {
            return at;
        }
        at += length;
    }
}
