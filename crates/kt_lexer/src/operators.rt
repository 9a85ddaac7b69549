//! Operators.
ghost use Rattle.std.specs.Prelude.{◌≡◌};
ghost use Rattle.kt_lexer.specs.Operators as spec;

use crate::characters::is_front;
use crate::token::Operator;

fn of_three(text: &[u16]) -> Option<Operator>
    ensures { result ≡ spec.find_front text.now spec.of_three }
{
    if is_front(b"===", text) {
        return Some(Operator::Identical);
    }
    if is_front(b"!==", text) {
        return Some(Operator::NotIdentical);
    }
    if is_front(b"..<", text) {
        return Some(Operator::RangeUntil);
    }
    None
}

fn assignments(text: &[u16]) -> Option<Operator>
    ensures { result ≡ spec.find_front text.now spec.assignments }
{
    if is_front(b"==", text) {
        return Some(Operator::EqualEqual);
    }
    if is_front(b"!=", text) {
        return Some(Operator::NotEqual);
    }
    if is_front(b"<=", text) {
        return Some(Operator::LessEqual);
    }
    if is_front(b">=", text) {
        return Some(Operator::GreaterEqual);
    }
    if is_front(b"+=", text) {
        return Some(Operator::PlusAssign);
    }
    if is_front(b"-=", text) {
        return Some(Operator::MinusAssign);
    }
    if is_front(b"*=", text) {
        return Some(Operator::TimesAssign);
    }
    if is_front(b"/=", text) {
        return Some(Operator::DivideAssign);
    }
    if is_front(b"%=", text) {
        return Some(Operator::RemainderAssign);
    }
    None
}

fn other_pairs(text: &[u16]) -> Option<Operator>
    ensures { result ≡ spec.find_front text.now spec.other_pairs }
{
    if is_front(b"&&", text) {
        return Some(Operator::And);
    }
    if is_front(b"||", text) {
        return Some(Operator::Or);
    }
    if is_front(b"++", text) {
        return Some(Operator::Increment);
    }
    if is_front(b"--", text) {
        return Some(Operator::Decrement);
    }
    if is_front(b"!!", text) {
        return Some(Operator::NotNull);
    }
    if is_front(b"?.", text) {
        return Some(Operator::SafeDot);
    }
    if is_front(b"?:", text) {
        return Some(Operator::Elvis);
    }
    if is_front(b"->", text) {
        return Some(Operator::Arrow);
    }
    if is_front(b"..", text) {
        return Some(Operator::Range);
    }
    None
}

fn signs(text: &[u16]) -> Option<Operator>
    ensures { result ≡ spec.find_front text.now spec.signs }
{
    if is_front(b"+", text) {
        return Some(Operator::Plus);
    }
    if is_front(b"-", text) {
        return Some(Operator::Minus);
    }
    if is_front(b"*", text) {
        return Some(Operator::Times);
    }
    if is_front(b"/", text) {
        return Some(Operator::Divide);
    }
    if is_front(b"%", text) {
        return Some(Operator::Remainder);
    }
    if is_front(b"=", text) {
        return Some(Operator::Assign);
    }
    if is_front(b"<", text) {
        return Some(Operator::Less);
    }
    if is_front(b">", text) {
        return Some(Operator::Greater);
    }
    if is_front(b"!", text) {
        return Some(Operator::Not);
    }
    if is_front(b"?", text) {
        return Some(Operator::Question);
    }
    if is_front(b":", text) {
        return Some(Operator::Colon);
    }
    if is_front(b".", text) {
        return Some(Operator::Dot);
    }
    if is_front(b",", text) {
        return Some(Operator::Comma);
    }
    if is_front(b";", text) {
        return Some(Operator::Semicolon);
    }
    if is_front(b"@", text) {
        return Some(Operator::At);
    }
    None
}

fn brackets(text: &[u16]) -> Option<Operator>
    ensures { result ≡ spec.find_front text.now spec.brackets }
{
    if is_front(b"(", text) {
        return Some(Operator::OpenRound);
    }
    if is_front(b")", text) {
        return Some(Operator::CloseRound);
    }
    if is_front(b"[", text) {
        return Some(Operator::OpenSquare);
    }
    if is_front(b"]", text) {
        return Some(Operator::CloseSquare);
    }
    if is_front(b"{", text) {
        return Some(Operator::OpenBrace);
    }
    if is_front(b"}", text) {
        return Some(Operator::CloseBrace);
    }
    None
}

/// The longest operator in front, and its length.
pub fn operator_of(text: &[u16]) -> Option<(Operator, usize)>
    ensures { result ≡ spec.operator_of text.now }
{
    if let Some(operator) = of_three(text) {
        return Some((operator, 3));
    }
    if let Some(operator) = assignments(text) {
        return Some((operator, 2));
    }
    if let Some(operator) = other_pairs(text) {
        return Some((operator, 2));
    }
    if let Some(operator) = signs(text) {
        return Some((operator, 1));
    }
    match brackets(text) {
        Some(operator) => Some((operator, 1)),
        None => None,
    }
}
