//! Tests of the token at a place.
ghost use Rattle.std.specs.Prelude.{◌≡◌, ◌≤◌, ◌-◌, length, drop};
ghost use Rattle.grammars.specs.Grammar.{first, test};
ghost use Rattle.kt_grammar.specs.Lookahead.{out_type};
ghost use Rattle.kt_grammar.specs.Parsed.{Eats, EatsOut, Expects, ExpectsName, WordAt};
ghost use Rattle.kt_grammar.specs.Tokens as tokens_of;
ghost use Rattle.kt_grammar.specs.Tokens.{is_of, is_op, is_word, is_name, unmarked};
ghost use Rattle.kt_grammar.specs.TypesBuilt.{between};

use kc_text::Fail;
use kc_tree::{Span, Word};
use kt_lexer::{Keyword, Operator, Token, TokenKind};

/// The class of an operator.
pub fn operator_class(operator: Operator) -> u8
    ensures { result ≡ tokens_of.operator_class operator }
{
    match operator {
        Operator::Identical => 0,
        Operator::NotIdentical => 1,
        Operator::RangeUntil => 2,
        Operator::EqualEqual => 3,
        Operator::NotEqual => 4,
        Operator::LessEqual => 5,
        Operator::GreaterEqual => 6,
        Operator::And => 7,
        Operator::Or => 8,
        Operator::Increment => 9,
        Operator::Decrement => 10,
        Operator::PlusAssign => 11,
        Operator::MinusAssign => 12,
        Operator::TimesAssign => 13,
        Operator::DivideAssign => 14,
        Operator::RemainderAssign => 15,
        Operator::NotNull => 16,
        Operator::SafeDot => 17,
        Operator::Elvis => 18,
        Operator::Arrow => 19,
        Operator::Range => 20,
        Operator::Plus => 21,
        Operator::Minus => 22,
        Operator::Times => 23,
        Operator::TimesBehindDot => 24,
        Operator::Divide => 25,
        Operator::Remainder => 26,
        Operator::Assign => 27,
        Operator::Less => 28,
        Operator::Greater => 29,
        Operator::Not => 30,
        Operator::Question => 31,
        Operator::Colon => 32,
        Operator::Dot => 33,
        Operator::Comma => 34,
        Operator::Semicolon => 35,
        Operator::At => 36,
        Operator::OpenRound => 37,
        Operator::CloseRound => 38,
        Operator::OpenSquare => 39,
        Operator::CloseSquare => 40,
        Operator::OpenBrace => 41,
        Operator::CloseBrace => 42,
    }
}

/// The class of a keyword.
pub fn keyword_class(keyword: Keyword) -> u8
    ensures { result ≡ tokens_of.keyword_class keyword }
{
    match keyword {
        Keyword::As => 43,
        Keyword::AsSafe => 44,
        Keyword::Break => 45,
        Keyword::Class => 46,
        Keyword::Continue => 47,
        Keyword::Do => 48,
        Keyword::Else => 49,
        Keyword::False => 50,
        Keyword::For => 51,
        Keyword::Fun => 52,
        Keyword::If => 53,
        Keyword::In => 54,
        Keyword::NotIn => 55,
        Keyword::Interface => 56,
        Keyword::Is => 57,
        Keyword::NotIs => 58,
        Keyword::Null => 59,
        Keyword::Object => 60,
        Keyword::Package => 61,
        Keyword::Return => 62,
        Keyword::Super => 63,
        Keyword::This => 64,
        Keyword::Throw => 65,
        Keyword::True => 66,
        Keyword::Try => 67,
        Keyword::Typealias => 68,
        Keyword::Typeof => 69,
        Keyword::Val => 70,
        Keyword::Var => 71,
        Keyword::When => 72,
        Keyword::While => 73,
    }
}

/// The class of a name, by its number in the list of names.
pub fn name_class(name: usize) -> u8
    ensures { result ≡ tokens_of.name_class name }
{
    if name < 26 { 84 + name as u8 } else { 110 }
}

/// The class of a token.
pub fn class(kind: &TokenKind) -> u8
    ensures { result ≡ tokens_of.class_of kind.now }
{
    match kind {
        TokenKind::Op(operator) => operator_class(*operator),
        TokenKind::Word(keyword) => keyword_class(*keyword),
        TokenKind::Name(name) => name_class(*name),
        TokenKind::Label(_) => 74,
        TokenKind::LabelUse(_) => 75,
        TokenKind::Number { .. } => 76,
        TokenKind::CharLiteral(_) => 77,
        TokenKind::StringOpen => 78,
        TokenKind::StringText(_) => 79,
        TokenKind::StringName(_) => 80,
        TokenKind::HoleOpen => 81,
        TokenKind::HoleClose => 82,
        TokenKind::StringClose => 83,
    }
}

/// Whether the token is the operator.
pub fn is_op(token: &Token, operator: Operator) -> bool
    ensures { result ≡ tokens_of.is_op operator token.now }
{
    class(&token.kind) == operator_class(operator)
}

/// Whether the token is the keyword.
pub fn is_word(token: &Token, keyword: Keyword) -> bool
    ensures { result ≡ tokens_of.is_word keyword token.now }
{
    class(&token.kind) == keyword_class(keyword)
}

/// Whether a token of the class stands at the place.
pub fn is_at(tokens: &[Token], at: usize, wanted: u8) -> bool
    ensures { result ≡ test (is_of wanted) (first (drop at tokens.now)) }
{
    match tokens.get(at) {
        Some(token) => class(&token.kind) == wanted,
        None => false,
    }
}

/// The same of a token with no line's end before it that counts.
pub fn is_unmarked_at(tokens: &[Token], at: usize, wanted: u8) -> bool
    ensures { result ≡ test (unmarked (is_of wanted)) (first (drop at tokens.now)) }
{
    match tokens.get(at) {
        Some(token) => class(&token.kind) == wanted && !token.marked,
        None => false,
    }
}

/// The place behind a token of the class, where one stands at the place.
pub fn eat(tokens: &[Token], at: usize, wanted: u8) -> Option<usize>
    ensures { Eats (is_of wanted) tokens.now at result }
{
    if is_at(tokens, at, wanted) {
        Some(at + 1)
    } else {
        None
    }
}

/// The same of a token with no line's end before it that counts.
pub fn eat_unmarked(tokens: &[Token], at: usize, wanted: u8) -> Option<usize>
    ensures { Eats (unmarked (is_of wanted)) tokens.now at result }
{
    if is_unmarked_at(tokens, at, wanted) {
        Some(at + 1)
    } else {
        None
    }
}

/// Whether the operator stands at the place.
pub fn is_op_at(tokens: &[Token], at: usize, operator: Operator) -> bool
    ensures { result ≡ test (is_op operator) (first (drop at tokens.now)) }
{
    is_at(tokens, at, operator_class(operator))
}

/// The place behind the operator, where it stands at the place.
pub fn eat_op(tokens: &[Token], at: usize, operator: Operator) -> Option<usize>
    ensures { Eats (is_op operator) tokens.now at result }
{
    eat(tokens, at, operator_class(operator))
}

/// The place behind the keyword, where it stands at the place.
pub fn eat_word(tokens: &[Token], at: usize, keyword: Keyword) -> Option<usize>
    ensures { Eats (is_word keyword) tokens.now at result }
{
    eat(tokens, at, keyword_class(keyword))
}

/// Whether a name stands at the place.
pub fn is_name_at(tokens: &[Token], at: usize) -> bool
    ensures { result ≡ test is_name (first (drop at tokens.now)) }
{
    match tokens.get(at) {
        Some(token) => class(&token.kind) > 83,
        None => false,
    }
}

/// The place behind the name, where one stands at the place.
pub fn eat_name(tokens: &[Token], at: usize) -> Option<usize>
    ensures { Eats is_name tokens.now at result }
{
    match word_at(tokens, at) {
        Some(_) => Some(at + 1),
        None => None,
    }
}

/// The place behind the operator.
///
/// # Errors
///
/// `Found` with the place, where another token or none stands there.
pub fn expect_op(tokens: &[Token], at: usize, operator: Operator) -> Result<usize, Fail<usize>>
    requires { at ≤ length tokens.now }
    ensures { Expects operator tokens.now at result }
{
    match eat_op(tokens, at, operator) {
        Some(next) => Ok(next),
        None => Err(Fail::Found(at)),
    }
}

/// The name at the place.
pub fn word_at(tokens: &[Token], at: usize) -> Option<Word>
    ensures { WordAt (first (drop at tokens.now)) result }
{
    match tokens.get(at) {
        Some(token) => match token.kind {
            TokenKind::Name(name) => Some(Word {
                span: token.span,
                name,
            }),
            _ => None,
        },
        None => None,
    }
}

/// The name at the place, and the place behind it.
///
/// # Errors
///
/// `Found` with the place, where another token or none stands there.
pub fn expect_name(tokens: &[Token], at: usize) -> Result<(Word, usize), Fail<usize>>
    requires { at ≤ length tokens.now }
    ensures { ExpectsName tokens.now at result }
{
    match word_at(tokens, at) {
        Some(word) => Ok((word, at + 1)),
        None => Err(Fail::Found(at)),
    }
}

/// Whether a type begins at the place.
pub fn begins_type(tokens: &[Token], at: usize) -> bool
    ensures { result ≡ test tokens_of.begins_type (first (drop at tokens.now)) }
{
    match tokens.get(at) {
        Some(token) => {
            class(&token.kind) > 83 || class(&token.kind) == operator_class(Operator::OpenRound)
        }
        None => false,
    }
}

/// Whether a type argument begins at the place.
pub fn begins_type_argument(tokens: &[Token], at: usize) -> bool
    ensures { result ≡ test tokens_of.begins_type_argument (first (drop at tokens.now)) }
{
    begins_type(tokens, at)
        || is_op_at(tokens, at, Operator::Times)
        || is_at(tokens, at, keyword_class(Keyword::In))
}

/// The place behind `out`, where a type follows.
pub fn eat_out(tokens: &[Token], at: usize) -> Option<usize>
    ensures { EatsOut tokens.now at result }
{
    let next = eat(tokens, at, 86)?;
    if begins_type(tokens, next) {
        Some(next)
    } else {
        None
    }
}

/// From the start of the token at `at` to the end of the last one before `end`.
pub fn span_between(tokens: &[Token], at: usize, end: usize) -> Span
    ensures { result ≡ between (first (drop at tokens.now)) (first (drop (end - 1) tokens.now)) }
{
    match (tokens.get(at), tokens.get(end.saturating_sub(1))) {
        (Some(begin), Some(last)) => Span {
            file: begin.span.file,
            start: begin.span.start,
            end: last.span.end,
        },
        _ => Span {
            file: 0,
            start: 0,
            end: 0,
        },
    }
}
