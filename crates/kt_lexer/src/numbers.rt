//! Numbers (Kotlin Language Specification 1.9, "Integer literals").
ghost use Rattle.std.specs.Prelude.{◌≡◌, ◌≤◌, ◌<◌, ◌&&◌, ◌||◌, length, true, MatchOption};
ghost use Rattle.std.specs.List.{list_all};
ghost use Rattle.kt_lexer.specs.Numbers as spec;

use crate::characters::{is_digit, is_front, unit_at};

/// What a run of identifier characters is that begins with a digit.
#[derive(Clone, Copy)]
pub enum Number {
    Value {
        value: u64,
        /// It ends in `L`.
        long: bool,
    },
    /// A number above what is taken.
    TooWide,
    /// No number.
    No,
}

/// The value of a digit, from 0 to 15; 16 of any other unit.
pub fn digit_value(unit: u16) -> u16
    ensures value { result ≡ spec.digit_value unit }
    ensures small { result ≤ 16 }
{
    if is_digit(unit) {
        return unit - 48;
    }
    if 97 <= unit && unit <= 102 {
        return unit - 87;
    }
    if 65 <= unit && unit <= 70 {
        return unit - 55;
    }
    16
}

fn is_digit_of(base: u16, unit: u16) -> bool
    ensures { result ≡ spec.is_digit_of base unit }
{
    digit_value(unit) < base
}

fn is_digit_or_separator(base: u16, unit: u16) -> bool
    ensures { result ≡ (spec.is_digit_of base unit || spec.is_separator unit) }
{
    is_digit_of(base, unit) || unit == 95
}

fn all_digits(base: u16, digits: &[u16]) -> bool
    ensures { result ≡ list_all (λ u. spec.is_digit_of base u || spec.is_separator u) digits.now }
{
    digits.iter().all(|unit| is_digit_or_separator(base, *unit))
}

/// The last unit, or 0 of no unit.
fn last_unit(word: &[u16]) -> u16
    ensures { result ≡ spec.last_unit word.now }
{
    unit_at(word, word.len().saturating_sub(1))
}

/// Digits with any number of `_` between them.
fn is_digits(base: u16, digits: &[u16]) -> bool
    ensures { result ≡ spec.is_digits base digits.now }
{
    is_digit_of(base, unit_at(digits, 0))
        && is_digit_of(base, last_unit(digits))
        && all_digits(base, digits)
}

/// What the digits are worth, where it is at most the limit.
fn digits_value(base: u16, digits: &[u16], most: u64) -> Option<u64>
    requires some { 1 ≤ base }
    requires small { base ≤ 16 }
    ensures { MatchOption result
        (most < spec.digits_value base digits.now)
        (λ value. (value ≡ spec.digits_value base digits.now) × (value ≤ most)) }
{
    let mut value: u64 = 0;
    for unit in digits {
        if *unit != 95 {
            let more = value as u128 * base as u128 + digit_value(*unit) as u128;
            if more > most as u128 {
                return None;
            }
            value = more as u64;
        }
    }
    Some(value)
}

fn is_long(word: &[u16]) -> bool
    ensures { result ≡ spec.is_long word.now }
{
    last_unit(word) == 76
}

fn without_suffix(word: &[u16]) -> &[u16]
    ensures { result.now ≡ spec.without_suffix word.now }
{
    if is_long(word) {
        &word[..word.len().saturating_sub(1)]
    } else {
        word
    }
}

fn base_of(word: &[u16]) -> u16
    ensures value { result ≡ spec.base_of word.now }
    ensures some { 1 ≤ result }
    ensures small { result ≤ 16 }
{
    if is_front(b"0x", word) {
        return 16;
    }
    if is_front(b"0b", word) {
        return 2;
    }
    10
}

fn digits_of(word: &[u16]) -> &[u16]
    ensures { result.now ≡ spec.digits_of word.now }
{
    if base_of(word) == 10 || word.len() < 2 {
        word
    } else {
        &word[2..]
    }
}

fn leads_with_zero(word: &[u16]) -> bool
    ensures { result ≡ spec.leads_with_zero word.now }
{
    unit_at(word, 0) == 48 && 2 <= word.len()
}

/// A number without its suffix.
fn is_number(word: &[u16]) -> bool
    ensures { result ≡ spec.is_number word.now }
{
    let base = base_of(word);
    is_digits(base, digits_of(word)) && !(base == 10 && leads_with_zero(word))
}

fn limit(base: u16, behind_minus: bool) -> u64
    ensures { result ≡ spec.limit base behind_minus }
{
    if base == 10 && behind_minus {
        9223372036854775808
    } else {
        9223372036854775807
    }
}

/// What a run of identifier characters is that begins with a digit.
pub fn number_of(behind_minus: bool, word: &[u16]) -> Number
    ensures { result ≡ spec.number_of behind_minus word.now }
{
    let body = without_suffix(word);
    if !is_number(body) {
        return Number::No;
    }
    let base = base_of(body);
    match digits_value(base, digits_of(body), limit(base, behind_minus)) {
        Some(value) => Number::Value {
            value,
            long: is_long(word),
        },
        None => Number::TooWide,
    }
}
