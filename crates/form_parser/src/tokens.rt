//! Tokens of the form (Kotlin Language Specification 1.9, "Lexical grammar").

ghost use Rattle.std.specs.Prelude.{◌≡◌, [], ◌<◌, ◌≤◌, length, drop, false, MatchOption};
ghost use Rattle.std.specs.List.{list_all};
ghost use Rattle.form_parser.specs.Cut as cut;
ghost use Rattle.form_parser.specs.Pieces.{PieceIs, ReadsWord, Scans};

use kc_text::Fail;
use sqlite_items::Items;
use std::alloc::Global;

/// A file is not of the form, or is more than the compiler builds so far.
#[derive(Clone, Copy, Debug, PartialEq, Eq)]
pub struct NotBuilt;

/// A stretch of the file: from `start` to `end` (excluded), in bytes, each of which is one UTF-16 unit.
#[derive(Clone, Copy)]
pub struct Place {
    pub start: usize,
    pub end: usize,
}

/// What a token is.
#[derive(Clone, Copy)]
pub enum TokenKind {
    Fun,
    Main,
    Println,
    Val,
    Var,
    If,
    Else,
    While,
    True,
    False,
    /// An identifier that is no keyword, nor `main` or `println`.
    Name,
    /// A decimal number, at most 2147483648.
    Number(u32),
    OpenRound,
    CloseRound,
    OpenBrace,
    CloseBrace,
    Semicolon,
    Assign,
    Plus,
    Minus,
    Times,
    Divide,
    Remainder,
    Equal,
    NotEqual,
    Less,
    LessEqual,
    Greater,
    GreaterEqual,
    And,
    Or,
    Not,
}

#[derive(Clone, Copy)]
pub struct Token {
    pub kind: TokenKind,
    /// A line ends between the token before, or the start of the text, and this one.
    pub marked: bool,
    pub place: Place,
}

/// What a unit of the text is part of.
#[derive(Clone, Copy)]
pub enum UnitClass {
    Blank,
    LineEnd,
    /// A letter, a digit or `_`.
    Word,
    /// An operator, a bracket, or nothing of the form.
    Sign,
}

/// An operator or a bracket, and how many units it has.
#[derive(Clone, Copy)]
pub struct Sign {
    pub kind: TokenKind,
    pub length: usize,
}

fn is_digit(unit: u8) -> bool
    ensures { result ≡ cut.is_digit unit }
{
    unit >= b'0' && unit <= b'9'
}

fn is_letter(unit: u8) -> bool
    ensures { result ≡ cut.is_letter unit }
{
    (unit >= b'a' && unit <= b'z') || (unit >= b'A' && unit <= b'Z') || unit == b'_'
}

fn is_word_unit(unit: u8) -> bool
    ensures { result ≡ cut.is_word_unit unit }
{
    is_letter(unit) || is_digit(unit)
}

/// The operator or bracket of one unit.
fn single_kind(unit: u8) -> Option<TokenKind>
    ensures { result ≡ cut.single_kind unit }
{
    match unit {
        b'(' => Some(TokenKind::OpenRound),
        b')' => Some(TokenKind::CloseRound),
        b'{' => Some(TokenKind::OpenBrace),
        b'}' => Some(TokenKind::CloseBrace),
        b';' => Some(TokenKind::Semicolon),
        b'=' => Some(TokenKind::Assign),
        b'+' => Some(TokenKind::Plus),
        b'-' => Some(TokenKind::Minus),
        b'*' => Some(TokenKind::Times),
        b'/' => Some(TokenKind::Divide),
        b'%' => Some(TokenKind::Remainder),
        b'<' => Some(TokenKind::Less),
        b'>' => Some(TokenKind::Greater),
        b'!' => Some(TokenKind::Not),
        _ => None,
    }
}

/// The operator of this unit with `=` behind it.
fn with_equals(unit: u8) -> Option<TokenKind>
    ensures { result ≡ cut.with_equals unit }
{
    match unit {
        b'=' => Some(TokenKind::Equal),
        b'!' => Some(TokenKind::NotEqual),
        b'<' => Some(TokenKind::LessEqual),
        b'>' => Some(TokenKind::GreaterEqual),
        _ => None,
    }
}

/// The operator of these two units.
fn double_kind(first: u8, second: u8) -> Option<TokenKind>
    ensures { result ≡ cut.double_kind first second }
{
    if second == b'=' {
        return with_equals(first);
    }
    if first == b'&' && second == b'&' {
        return Some(TokenKind::And);
    }
    if first == b'|' && second == b'|' {
        return Some(TokenKind::Or);
    }
    None
}

fn unit_class(unit: u8) -> UnitClass
    ensures { result ≡ cut.unit_class unit }
{
    if unit == b' ' || unit == b'\t' || unit == 12 {
        return UnitClass::Blank;
    }
    if unit == b'\n' || unit == b'\r' {
        return UnitClass::LineEnd;
    }
    if is_word_unit(unit) {
        return UnitClass::Word;
    }
    UnitClass::Sign
}

/// The two units begin an operator of the language that the form does not have, or a comment.
fn is_foreign(first: u8, second: u8) -> bool
    ensures { result ≡ cut.is_foreign first second }
{
    if first == b'*' || first == b'%' {
        return second == b'=';
    }
    if first == b'+' {
        return second == b'=' || second == b'+';
    }
    if first == b'-' {
        return second == b'=' || second == b'-' || second == b'>';
    }
    if first == b'/' {
        return second == b'=' || second == b'/' || second == b'*';
    }
    if first == b'!' {
        return second == b'!';
    }
    false
}

/// The operators `===` and `!==` stand here, which the form does not have.
fn is_identity(first: u8, second: u8, rest: &[u8]) -> bool
    ensures { result ≡ cut.is_identity first second rest.now }
{
    match rest {
        [third, ..] => { (first == b'=' || first == b'!') && second == b'=' && *third == b'=' }
        [] => false,
    }
}

fn sized(kind: Option<TokenKind>, length: usize) -> Option<Sign>
    ensures { result ≡ cut.sized kind length }
{
    match kind {
        Some(kind) => Some(Sign { kind, length }),
        None => None,
    }
}

/// The longest operator at the front of two units and more.
fn long_sign(first: u8, second: u8, rest: &[u8]) -> Option<Sign>
    ensures { result ≡ cut.long_sign first second rest.now }
{
    if is_foreign(first, second) || is_identity(first, second, rest) {
        return None;
    }
    match double_kind(first, second) {
        Some(kind) => Some(Sign { kind, length: 2 }),
        None => sized(single_kind(first), 1),
    }
}

/// The longest operator or bracket at the front.
fn longest_sign(first: u8, rest: &[u8]) -> Option<Sign>
    ensures { result ≡ cut.sign_of first rest.now }
{
    match rest.split_first() {
        Some((second, behind)) => long_sign(first, *second, behind),
        None => sized(single_kind(first), 1),
    }
}

/// How many units at the front belong to one word.
fn word_length(text: &[u8]) -> usize
    ensures { result ≡ length (cut.word_of text.now) }
{
    text.iter().take_while(|unit| is_word_unit(**unit)).count()
}

fn all_digits(word: &[u8]) -> bool
    ensures { result ≡ list_all cut.is_digit word.now }
{
    word.iter().all(|unit| is_digit(*unit))
}

/// The value of decimal digits, where it is at most 2147483648.
fn decimal(digits: &[u8]) -> Option<u32>
    ensures { MatchOption result
        (2147483648 < cut.decimal digits.now)
        (λ value. (value ≡ cut.decimal digits.now) × (value ≤ 2147483648)) }
{
    let mut value: u64 = 0;
    for digit in digits {
        value = value * 10 + digit.saturating_sub(b'0') as u64;
        if value > 2147483648 {
            return None;
        }
    }
    Some(value as u32)
}

fn leads_with_zero(word: &[u8]) -> bool
    ensures { result ≡ cut.leads_with_zero word.now }
{
    match word {
        [first, _, ..] => *first == b'0',
        _ => false,
    }
}

fn number_kind(word: &[u8]) -> Option<TokenKind>
    ensures { result ≡ cut.number_kind word.now }
{
    if leads_with_zero(word) || !all_digits(word) {
        return None;
    }
    match decimal(word) {
        Some(value) => Some(TokenKind::Number(value)),
        None => None,
    }
}

fn is_keyword(word: &[u8]) -> bool
    ensures { result ≡ cut.is_keyword word.now }
{
    word == b"as".as_slice()
        || word == b"break".as_slice()
        || word == b"class".as_slice()
        || word == b"continue".as_slice()
        || word == b"do".as_slice()
        || word == b"for".as_slice()
        || word == b"in".as_slice()
        || word == b"interface".as_slice()
        || word == b"is".as_slice()
        || word == b"null".as_slice()
        || word == b"object".as_slice()
        || word == b"package".as_slice()
        || word == b"return".as_slice()
        || word == b"super".as_slice()
        || word == b"this".as_slice()
        || word == b"throw".as_slice()
        || word == b"try".as_slice()
        || word == b"typealias".as_slice()
        || word == b"typeof".as_slice()
        || word == b"when".as_slice()
}

/// The word of the form that is spelled so.
fn reserved_kind(word: &[u8]) -> Option<TokenKind>
    ensures { result ≡ cut.reserved_kind word.now }
{
    if word == b"fun".as_slice() {
        return Some(TokenKind::Fun);
    }
    if word == b"main".as_slice() {
        return Some(TokenKind::Main);
    }
    if word == b"println".as_slice() {
        return Some(TokenKind::Println);
    }
    if word == b"val".as_slice() {
        return Some(TokenKind::Val);
    }
    if word == b"var".as_slice() {
        return Some(TokenKind::Var);
    }
    if word == b"if".as_slice() {
        return Some(TokenKind::If);
    }
    if word == b"else".as_slice() {
        return Some(TokenKind::Else);
    }
    if word == b"while".as_slice() {
        return Some(TokenKind::While);
    }
    if word == b"true".as_slice() {
        return Some(TokenKind::True);
    }
    if word == b"false".as_slice() {
        return Some(TokenKind::False);
    }
    None
}

fn name_kind(word: &[u8]) -> Option<TokenKind>
    ensures { result ≡ cut.name_kind word.now }
{
    if let Some(kind) = reserved_kind(word) {
        return Some(kind);
    }
    if is_keyword(word) {
        return None;
    }
    Some(TokenKind::Name)
}

fn word_kind(word: &[u8]) -> Option<TokenKind>
    ensures { result ≡ cut.word_kind word.now }
{
    match word {
        [first, ..] => {
            if is_digit(*first) {
                number_kind(word)
            } else {
                name_kind(word)
            }
        }
        [] => None,
    }
}

/// What stands at the front of a text.
pub enum Piece {
    Blank,
    LineEnd,
    Token { kind: TokenKind, length: usize },
    Nothing,
    End,
}

/// The word at the front of a text, as a token and how many units it has.
fn word(text: &[u8]) -> Option<(TokenKind, usize)>
    ensures { ReadsWord text.now result }
{
    let length = word_length(text);
    match word_kind(&text[..length]) {
        Some(kind) => Some((kind, length)),
        None => None,
    }
}

fn first_piece(text: &[u8]) -> Piece
    ensures { PieceIs result text.now }
{
    let Some((first, rest)) = text.split_first() else {
        return Piece::End;
    };
    match unit_class(*first) {
        UnitClass::Blank => Piece::Blank,
        UnitClass::LineEnd => Piece::LineEnd,
        UnitClass::Word => match word(text) {
            Some((kind, length)) => Piece::Token { kind, length },
            None => Piece::Nothing,
        },
        UnitClass::Sign => match longest_sign(*first, rest) {
            Some(Sign { kind, length }) => Piece::Token { kind, length },
            None => Piece::Nothing,
        },
    }
}

/// The text from a place on.
fn text_from(text: &[u8], at: usize) -> &[u8]
    requires { at ≤ length text.now }
    ensures { result.now ≡ drop at text.now }
{
    &text[at..]
}

/// The tokens of a text, in order. A text with a unit, a word or an operator that the form does not have is `NotBuilt`.
pub fn tokens_of(alloc: Global, text: &[u8]) -> Result<Items<Token>, Fail<NotBuilt>>
    ensures { Scans 0 false text.now [] result }
{
    let mut tokens = Items::new(alloc);
    let mut marked = false;
    let mut at = 0;
    'pieces: loop {
        match first_piece(text_from(text, at)) {
            Piece::Blank => at += 1,
            Piece::LineEnd => {
                marked = true;
                at += 1;
            }
            Piece::Token { kind, length } => {
                let end = at + length;
                let place = Place { start: at, end };
                tokens.push(Token {
                    kind,
                    marked,
                    place,
                })?;
                marked = false;
                at = end;
            }
            Piece::Nothing => return Err(Fail::Found(NotBuilt)),
            Piece::End => return Ok(tokens),
        }
    }
}
