//! The tokens that stand for operators (Kotlin Language Specification 1.9, "Operator precedence").
ghost use Rattle.std.specs.Prelude.{◌≡◌, ◌≤◌, Some, length, drop};
ghost use Rattle.grammars.specs.Grammar.{first, test};
ghost use Rattle.kt_grammar.specs.Signs as spec;
ghost use Rattle.kt_grammar.specs.Tokens as tokens_of;

use crate::cursor::Cursor;
use crate::tokens::{class, is_op, is_word};
use kc_text::Fail;
use kt_lexer::{Keyword, Operator, Token};

/// The operators that may stand between any number of operands, from those that bind weakest.
#[derive(Clone, Copy)]
pub enum Level {
    Or,
    And,
    Equality,
    Elvis,
    Range,
    Sum,
    Product,
}

/// What stands before or behind an operand.
#[derive(Clone, Copy)]
pub enum Sign {
    Between(Level),
    /// `<`, `>`, `<=`, `>=`
    Comparison,
    /// The name of a function.
    Name,
    /// `in`, `!in`
    In,
    /// `is`, `!is`
    Is,
    /// `as`, `as?`
    Cast,
    /// `-`, `+`, `!`, `++`, `--`
    Prefix,
    /// `=`, `+=`, `-=`, `*=`, `/=`, `%=`
    Assignment,
    /// A number, a character, `true`, `false`, `null` or `this`.
    Atom,
    /// `return`, `throw`, `break` or `continue`.
    Jump,
}

fn is_equality(token: &Token) -> bool
    ensures { result ≡ tokens_of.is_equality token.now }
{
    is_op(token, Operator::EqualEqual)
        || is_op(token, Operator::NotEqual)
        || is_op(token, Operator::Identical)
        || is_op(token, Operator::NotIdentical)
}

fn is_comparison(token: &Token) -> bool
    ensures { result ≡ tokens_of.is_comparison token.now }
{
    is_op(token, Operator::Less)
        || is_op(token, Operator::Greater)
        || is_op(token, Operator::LessEqual)
        || is_op(token, Operator::GreaterEqual)
}

fn is_range(token: &Token) -> bool
    ensures { result ≡ tokens_of.is_range token.now }
{
    is_op(token, Operator::Range) || is_op(token, Operator::RangeUntil)
}

fn is_sum(token: &Token) -> bool
    ensures { result ≡ tokens_of.is_sum token.now }
{
    is_op(token, Operator::Plus) || is_op(token, Operator::Minus)
}

fn is_product(token: &Token) -> bool
    ensures { result ≡ tokens_of.is_product token.now }
{
    is_op(token, Operator::Times)
        || is_op(token, Operator::Divide)
        || is_op(token, Operator::Remainder)
}

fn is_prefix(token: &Token) -> bool
    ensures { result ≡ tokens_of.is_prefix token.now }
{
    is_op(token, Operator::Minus)
        || is_op(token, Operator::Plus)
        || is_op(token, Operator::Not)
        || is_op(token, Operator::Increment)
        || is_op(token, Operator::Decrement)
}

fn is_assignment(token: &Token) -> bool
    ensures { result ≡ tokens_of.is_assignment token.now }
{
    is_op(token, Operator::Assign)
        || is_op(token, Operator::PlusAssign)
        || is_op(token, Operator::MinusAssign)
        || is_op(token, Operator::TimesAssign)
        || is_op(token, Operator::DivideAssign)
        || is_op(token, Operator::RemainderAssign)
}

fn is_atom(token: &Token) -> bool
    ensures { result ≡ tokens_of.is_atom token.now }
{
    class(&token.kind) == 76
        || class(&token.kind) == 77
        || is_word(token, Keyword::True)
        || is_word(token, Keyword::False)
        || is_word(token, Keyword::Null)
        || is_word(token, Keyword::This)
}

fn is_jump(token: &Token) -> bool
    ensures { result ≡ tokens_of.is_jump token.now }
{
    is_word(token, Keyword::Return)
        || is_word(token, Keyword::Break)
        || is_word(token, Keyword::Continue)
        || is_word(token, Keyword::Throw)
}

fn is_as(token: &Token) -> bool
    ensures { result ≡ tokens_of.is_as token.now }
{
    is_word(token, Keyword::As) || is_word(token, Keyword::AsSafe)
}

fn is_in(token: &Token) -> bool
    ensures { result ≡ tokens_of.is_in token.now }
{
    is_word(token, Keyword::In) || is_word(token, Keyword::NotIn)
}

fn is_is(token: &Token) -> bool
    ensures { result ≡ tokens_of.is_is token.now }
{
    is_word(token, Keyword::Is) || is_word(token, Keyword::NotIs)
}

/// Whether the token is an operator of the level, on the same line where the level needs that.
fn is_between(token: &Token, level: Level) -> bool
    ensures { result ≡ spec.is_between level token.now }
{
    match level {
        Level::Or => is_op(token, Operator::Or),
        Level::And => is_op(token, Operator::And),
        Level::Equality => is_equality(token) && !token.marked,
        Level::Elvis => is_op(token, Operator::Elvis),
        Level::Range => is_range(token) && !token.marked,
        Level::Sum => is_sum(token) && !token.marked,
        Level::Product => is_product(token) && !token.marked,
    }
}

fn is_sign(token: &Token, sign: Sign) -> bool
    ensures { result ≡ spec.is_sign sign token.now }
{
    match sign {
        Sign::Between(level) => is_between(token, level),
        Sign::Comparison => is_comparison(token) && !token.marked,
        Sign::Name => class(&token.kind) > 83 && !token.marked,
        Sign::In => is_in(token) && !token.marked,
        Sign::Is => is_is(token) && !token.marked,
        Sign::Cast => is_as(token) && !token.marked,
        Sign::Prefix => is_prefix(token),
        Sign::Assignment => is_assignment(token) && !token.marked,
        Sign::Atom => is_atom(token),
        Sign::Jump => is_jump(token),
    }
}

fn sign_of(token: &Token, sign: Sign) -> Option<&Token>
    ensures { spec.TokenAt (spec.is_sign sign) (Some token.now) result }
{
    if is_sign(token, sign) {
        Some(token)
    } else {
        None
    }
}

fn sign_at(tokens: &[Token], at: usize, sign: Sign) -> Option<&Token>
    ensures { spec.TokenAt (spec.is_sign sign) (first (drop at tokens.now)) result }
{
    match tokens.get(at) {
        Some(token) => sign_of(token, sign),
        None => None,
    }
}

/// The token at the place, where it is such a sign, and the place behind it.
pub fn eat_sign(tokens: &[Token], at: Cursor, sign: Sign) -> Option<(&Token, Cursor)>
    requires { at.at ≤ length tokens.now }
    ensures { spec.EatsToken (spec.is_sign sign) tokens.now at result }
{
    match sign_at(tokens, at.at, sign) {
        Some(token) => Some((token, at.to(at.at + 1))),
        None => None,
    }
}

/// The token at the place, and the place behind it.
///
/// # Errors
///
/// `Found` with the place, or the farthest one that a test has looked at, where no such sign stands there.
pub fn expect_sign(
    tokens: &[Token],
    at: Cursor,
    sign: Sign,
) -> Result<(&Token, Cursor), Fail<usize>>
    requires { at.at ≤ length tokens.now }
    ensures { spec.ExpectsToken (spec.is_sign sign) tokens.now at result }
{
    match eat_sign(tokens, at, sign) {
        Some(taken) => Ok(taken),
        None => Err(at.fault()),
    }
}

/// Whether `in`, `!in`, `is` or `!is` stands at the place, on the same line.
pub fn is_relation_at(tokens: &[Token], at: usize) -> bool
    ensures { result ≡ test spec.is_relation (first (drop at tokens.now)) }
{
    match tokens.get(at) {
        Some(token) => (is_in(token) || is_is(token)) && !token.marked,
        None => false,
    }
}
