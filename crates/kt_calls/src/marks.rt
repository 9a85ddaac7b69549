//! Tokens behind an operand and in strings, with what they hold.
ghost use Rattle.std.specs.Prelude.{◌≡◌, ◌≤◌, Some, length, drop};
ghost use Rattle.grammars.specs.Grammar.{first, test};
ghost use Rattle.kt_calls.specs.Marks as spec;
ghost use Rattle.kt_grammar.specs.Signs.{EatsToken, TokenAt};
ghost use Rattle.kt_grammar.specs.Tokens as tokens_of;
ghost use Rattle.kt_grammar.specs.Tokens.{unmarked};
ghost use Rattle.kt_grammar.specs.TypesBuilt.{between};

use kc_text::Fail;
use kc_tree::Span;
use kt_grammar::{Cursor, class, operator_class};
use kt_lexer::{Operator, Token};

/// What stands behind an operand or in a string.
#[derive(Clone, Copy)]
pub enum Mark {
    /// A label before a lambda.
    Label,
    /// `(`, on the same line.
    Round,
    /// `[`, on the same line.
    Square,
    /// `<`, on the same line.
    Less,
    /// `.`, `?.`
    Dot,
    /// `++`, `--`, `!!`, on the same line.
    Postfix,
    StringOpen,
    /// The beginning of a piece of a string.
    Piece,
    StringText,
    /// `$` and a name.
    StringName,
    /// `${`
    HoleOpen,
    /// The `}` of a `${`.
    HoleClose,
    StringClose,
}

fn is_op(token: &Token, operator: Operator) -> bool
    ensures { result ≡ tokens_of.is_op operator token.now }
{
    class(&token.kind) == operator_class(operator)
}

fn is_label(token: &Token) -> bool
    ensures { result ≡ tokens_of.is_label token.now }
{
    class(&token.kind) == 74
}

fn is_dot(token: &Token) -> bool
    ensures { result ≡ tokens_of.is_dot token.now }
{
    is_op(token, Operator::Dot) || is_op(token, Operator::SafeDot)
}

fn is_postfix(token: &Token) -> bool
    ensures { result ≡ tokens_of.is_postfix token.now }
{
    is_op(token, Operator::Increment)
        || is_op(token, Operator::Decrement)
        || is_op(token, Operator::NotNull)
}

/// Whether a piece of a string begins with the token.
fn is_piece(token: &Token) -> bool
    ensures { result ≡ tokens_of.is_piece token.now }
{
    let class = class(&token.kind);
    class == 79 || class == 80 || class == 81
}

fn is_mark(token: &Token, mark: Mark) -> bool
    ensures { result ≡ spec.is_mark mark token.now }
{
    match mark {
        Mark::Label => is_label(token),
        Mark::Round => is_op(token, Operator::OpenRound) && !token.marked,
        Mark::Square => is_op(token, Operator::OpenSquare) && !token.marked,
        Mark::Less => is_op(token, Operator::Less) && !token.marked,
        Mark::Dot => is_dot(token),
        Mark::Postfix => is_postfix(token) && !token.marked,
        Mark::StringOpen => class(&token.kind) == 78,
        Mark::Piece => is_piece(token),
        Mark::StringText => class(&token.kind) == 79,
        Mark::StringName => class(&token.kind) == 80,
        Mark::HoleOpen => class(&token.kind) == 81,
        Mark::HoleClose => class(&token.kind) == 82,
        Mark::StringClose => class(&token.kind) == 83,
    }
}

fn mark_of(token: &Token, mark: Mark) -> Option<&Token>
    ensures { TokenAt (spec.is_mark mark) (Some token.now) result }
{
    if is_mark(token, mark) {
        Some(token)
    } else {
        None
    }
}

fn mark_at(tokens: &[Token], at: usize, mark: Mark) -> Option<&Token>
    ensures { TokenAt (spec.is_mark mark) (first (drop at tokens.now)) result }
{
    match tokens.get(at) {
        Some(token) => mark_of(token, mark),
        None => None,
    }
}

/// Whether such a mark stands at the place.
pub fn is_mark_at(tokens: &[Token], at: usize, mark: Mark) -> bool
    ensures { result ≡ test (spec.is_mark mark) (first (drop at tokens.now)) }
{
    match tokens.get(at) {
        Some(token) => is_mark(token, mark),
        None => false,
    }
}

/// The token at the place, where it is such a mark, and the place behind it.
pub fn eat_mark(tokens: &[Token], at: Cursor, mark: Mark) -> Option<(&Token, Cursor)>
    requires { at.at ≤ length tokens.now }
    ensures { EatsToken (spec.is_mark mark) tokens.now at result }
{
    match mark_at(tokens, at.at, mark) {
        Some(token) => Some((token, at.to(at.at + 1))),
        None => None,
    }
}

/// The token at the place, and the place behind it.
///
/// # Errors
///
/// `Found` with the place, or the farthest one that a test has looked at, where no such mark stands there.
pub fn expect_mark(
    tokens: &[Token],
    at: Cursor,
    mark: Mark,
) -> Result<(&Token, Cursor), Fail<usize>>
    requires { at.at ≤ length tokens.now }
    ensures { spec.ExpectsMark (spec.is_mark mark) tokens.now at result }
{
    match eat_mark(tokens, at, mark) {
        Some(taken) => Ok(taken),
        None => Err(at.fault()),
    }
}

/// Whether a lambda begins with the token, or its label.
fn begins_trailing(token: &Token) -> bool
    ensures { result ≡ tokens_of.begins_trailing token.now }
{
    is_label(token) || is_op(token, Operator::OpenBrace)
}

/// Whether a lambda begins at the place, or its label, on the same line.
pub fn begins_trailing_at(tokens: &[Token], at: usize) -> bool
    ensures { result ≡ test (unmarked tokens_of.begins_trailing) (first (drop at tokens.now)) }
{
    match tokens.get(at) {
        Some(token) => begins_trailing(token) && !token.marked,
        None => false,
    }
}

/// Where the token at the place stands.
pub fn span_at(tokens: &[Token], at: usize) -> Span
    ensures { result ≡ between (first (drop at tokens.now)) (first (drop at tokens.now)) }
{
    match tokens.get(at) {
        Some(token) => token.span,
        None => Span {
            file: 0,
            start: 0,
            end: 0,
        },
    }
}
