//! What stands in front of a text (Kotlin Language Specification 1.9, "Lexical grammar").
ghost use Rattle.std.specs.Prelude.{◌≡◌, ◌≤◌, ◌<◌, ◌+◌, length, IfSome};
ghost use Rattle.kt_lexer.specs.Pieces as spec;

use crate::characters::{
    is_blank, is_digit, is_front, is_line_end, part_length, starts_word, text_from, unit_at,
    word_length,
};
use crate::comments::{close, line_length};
use crate::numbers::{Number, number_of};
use crate::operators::operator_of;
use crate::strings::{Element, escape_of, name_behind, text_length};
use crate::token::{Keyword, LexFault, Operator};
use crate::words::{keyword_of, word_of};
use kc_tree::Code;

/// A token without the names and the text in it.
#[derive(Clone, Copy)]
pub enum Shape {
    Word(Keyword),
    Name,
    Label,
    LabelUse,
    Number { value: u64, long: bool },
    CharLiteral(u16),
    StringOpen,
    StringText,
    StringName,
    HoleOpen,
    HoleClose,
    StringClose,
    Op(Operator),
}

/// What stands in front of a text. Lengths are in UTF-16 units.
#[derive(Clone, Copy)]
pub enum Piece {
    /// White space, or a comment.
    Gap(usize),
    /// One unit of a line's end.
    LineEnd,
    Token(Shape, usize),
    Bad(LexFault),
    /// The text's end, outside of strings.
    End,
}

/// A bracket, or what counts as one.
#[derive(Clone, Copy)]
pub enum Open {
    Round,
    Square,
    Brace,
    /// `${`
    Hole,
    /// A string's opening quote, at this unit.
    Quote(usize),
}

/// What the token before says of the next one.
#[derive(Clone, Copy)]
pub enum Lead {
    Minus,
    Dot,
    /// `break`, `continue` or `return`, and where it ends.
    Jump(usize),
    Other,
}

fn bad(at: usize, code: Code) -> Piece
    ensures { result ≡ spec.bad at code }
{
    Piece::Bad(LexFault { at, code })
}

/// What a word is, `next` being the unit behind it.
fn of_word(keyword: Option<Keyword>, length: usize, next: u16) -> Piece
    requires { length < 9223372036854775808 }
    ensures { result ≡ spec.of_word keyword length next }
{
    match keyword {
        Some(Keyword::As) => {
            if next == 63 {
                Piece::Token(Shape::Word(Keyword::AsSafe), length + 1)
            } else {
                Piece::Token(Shape::Word(Keyword::As), length)
            }
        }
        Some(keyword) => Piece::Token(Shape::Word(keyword), length),
        None => {
            if next == 64 {
                Piece::Token(Shape::Label, length + 1)
            } else {
                Piece::Token(Shape::Name, length)
            }
        }
    }
}

fn word_piece(text: &[u16]) -> Piece
    ensures { result ≡ spec.word_piece text.now }
{
    let length = word_length(text);
    of_word(keyword_of(word_of(text)), length, unit_at(text, length))
}

fn is_minus(before: Lead) -> bool
    ensures { result ≡ spec.is_minus before }
{
    matches!(before, Lead::Minus)
}

fn of_number(number: Number, length: usize, at: usize) -> Piece
    ensures { result ≡ spec.of_number number length at }
{
    match number {
        Number::No => bad(at, Code::BadNumber),
        Number::TooWide => bad(at, Code::LiteralTooWide),
        Number::Value { value, long } => Piece::Token(Shape::Number { value, long }, length),
    }
}

fn number_piece(before: Lead, at: usize, text: &[u16]) -> Piece
    ensures { result ≡ spec.number_piece before at text.now }
{
    let word = word_of(text);
    of_number(number_of(is_minus(before), word), word_length(text), at)
}

fn closed_character(is_closed: bool, unit: u16, length: usize, at: usize) -> Piece
    ensures { result ≡ spec.closed_character is_closed unit length at }
{
    if is_closed {
        Piece::Token(Shape::CharLiteral(unit), length)
    } else {
        bad(at, Code::BadCharLiteral)
    }
}

/// An escape behind the opening quote.
fn of_escape(escape: Option<Element>, at: usize, text: &[u16]) -> Piece
    requires fits { at + length text.now < 9223372036854775808 }
    requires short { IfSome escape (λ e. e.length ≤ 6) }
    ensures { result ≡ spec.of_escape escape at text.now }
{
    match escape {
        None => bad(at + 1, Code::BadEscape),
        Some(element) => closed_character(
            unit_at(text, element.length + 1) == 39,
            element.unit,
            element.length + 2,
            at,
        ),
    }
}

fn character_piece(at: usize, text: &[u16]) -> Piece
    requires { at + length text.now < 9223372036854775808 }
    ensures { result ≡ spec.character_piece at text.now }
{
    let unit = unit_at(text, 1);
    if unit == 92 {
        return of_escape(escape_of(text_from(text, 1)), at, text);
    }
    if unit == 39 || is_line_end(unit) {
        return bad(at, Code::BadCharLiteral);
    }
    closed_character(unit_at(text, 2) == 39, unit, 3, at)
}

/// The token before is `break`, `continue` or `return`, and ends here.
fn is_jump(before: Lead, at: usize) -> bool
    ensures { result ≡ spec.is_jump before at }
{
    match before {
        Lead::Jump(end) => end == at,
        _ => false,
    }
}

fn is_dot(before: Lead) -> bool
    ensures { result ≡ spec.is_dot before }
{
    matches!(before, Lead::Dot)
}

fn is_hole(inside: Option<Open>) -> bool
    ensures { result ≡ spec.is_hole inside }
{
    matches!(inside, Some(Open::Hole))
}

fn of_operator(operator: Option<(Operator, usize)>, before: Lead, at: usize) -> Piece
    ensures { result ≡ spec.of_operator operator before at }
{
    match operator {
        None => bad(at, Code::BadChar),
        Some((Operator::Times, length)) => {
            if is_dot(before) {
                Piece::Token(Shape::Op(Operator::TimesBehindDot), length)
            } else {
                Piece::Token(Shape::Op(Operator::Times), length)
            }
        }
        Some((operator, length)) => Piece::Token(Shape::Op(operator), length),
    }
}

/// `!in` or `!is`, with no identifier character behind.
fn is_negated(spelling: &[u8], text: &[u16]) -> bool
    requires { 3 ≤ length spelling.now }
    ensures { result ≡ spec.is_negated spelling.now text.now }
{
    is_front(spelling, text) && part_length(text_from(text, 3)) == 0
}

/// A label's use stands in front.
fn is_label_use(before: Lead, at: usize, text: &[u16]) -> bool
    ensures { result ≡ spec.is_label_use before at text.now }
{
    unit_at(text, 0) == 64 && is_jump(before, at) && 1 <= name_behind(text)
}

fn is_hole_end(inside: Option<Open>, text: &[u16]) -> bool
    ensures { result ≡ spec.is_hole_end inside text.now }
{
    unit_at(text, 0) == 125 && is_hole(inside)
}

fn operator_piece(inside: Option<Open>, before: Lead, at: usize, text: &[u16]) -> Piece
    ensures { result ≡ spec.operator_piece inside before at text.now }
{
    if is_label_use(before, at, text) {
        return Piece::Token(Shape::LabelUse, name_behind(text) + 1);
    }
    if is_negated(b"!in", text) {
        return Piece::Token(Shape::Word(Keyword::NotIn), 3);
    }
    if is_negated(b"!is", text) {
        return Piece::Token(Shape::Word(Keyword::NotIs), 3);
    }
    if is_hole_end(inside, text) {
        return Piece::Token(Shape::HoleClose, 1);
    }
    of_operator(operator_of(text), before, at)
}

fn comment_piece(at: usize, text: &[u16]) -> Piece
    requires { 2 ≤ length text.now }
    ensures { result ≡ spec.comment_piece at text.now }
{
    match close(text_from(text, 2)) {
        None => bad(at, Code::UnclosedComment),
        Some(length) => Piece::Gap(length + 2),
    }
}

/// The token in front of a text that begins with no white space and no comment, outside of strings.
fn token_piece(inside: Option<Open>, before: Lead, at: usize, text: &[u16]) -> Piece
    requires { at + length text.now < 9223372036854775808 }
    ensures { result ≡ spec.token_piece inside before at text.now }
{
    if starts_word(text) {
        return word_piece(text);
    }
    let unit = unit_at(text, 0);
    if is_digit(unit) {
        return number_piece(before, at, text);
    }
    if unit == 39 {
        return character_piece(at, text);
    }
    if unit == 34 {
        return Piece::Token(Shape::StringOpen, 1);
    }
    operator_piece(inside, before, at, text)
}

/// What stands in front outside of strings.
fn code_piece(inside: Option<Open>, before: Lead, at: usize, text: &[u16]) -> Piece
    requires { at + length text.now < 9223372036854775808 }
    ensures { result ≡ spec.code_piece inside before at text.now }
{
    if text.is_empty() {
        return Piece::End;
    }
    let unit = unit_at(text, 0);
    if is_blank(unit) {
        return Piece::Gap(1);
    }
    if is_line_end(unit) {
        return Piece::LineEnd;
    }
    if is_front(b"//", text) {
        return Piece::Gap(line_length(text));
    }
    if is_front(b"/*", text) {
        return comment_piece(at, text);
    }
    token_piece(inside, before, at, text)
}

/// A string's name stands in front.
fn is_string_name(text: &[u16]) -> bool
    ensures { result ≡ spec.is_string_name text.now }
{
    unit_at(text, 0) == 36 && 1 <= name_behind(text)
}

/// What stands in front within the string whose opening quote stands at `quote`.
fn string_piece(quote: usize, at: usize, text: &[u16]) -> Piece
    ensures { result ≡ spec.string_piece quote at text.now }
{
    if text.is_empty() {
        return bad(quote, Code::UnclosedString);
    }
    let unit = unit_at(text, 0);
    if is_line_end(unit) {
        return bad(quote, Code::UnclosedString);
    }
    if unit == 34 {
        return Piece::Token(Shape::StringClose, 1);
    }
    if is_front(b"${", text) {
        return Piece::Token(Shape::HoleOpen, 2);
    }
    if is_string_name(text) {
        return Piece::Token(Shape::StringName, name_behind(text) + 1);
    }
    let length = text_length(text);
    if length == 0 {
        return bad(at, Code::BadEscape);
    }
    Piece::Token(Shape::StringText, length)
}

/// What stands in front of a text that begins at unit `at`.
pub fn piece_of(inside: Option<Open>, before: Lead, at: usize, text: &[u16]) -> Piece
    requires { at + length text.now < 9223372036854775808 }
    ensures { result ≡ spec.piece_of inside before at text.now }
{
    match inside {
        Some(Open::Quote(quote)) => string_piece(quote, at, text),
        _ => code_piece(inside, before, at, text),
    }
}
