//! Operators by how tightly they bind (Kotlin Language Specification 1.9, "Expressions").

ghost use Rattle.std.specs.Prelude.{◌≡◌};
ghost use Rattle.form_parser.specs.Grammar as grammar;

use crate::tokens::{Token, TokenKind};
use kc_core::tree::{BinaryOp, Order};

/// How tightly binary operators bind, the loosest first.
#[derive(Clone, Copy)]
pub enum Level {
    Or,
    And,
    Equality,
    Comparison,
    Additive,
    Multiplicative,
}

/// A binary operator.
#[derive(Clone, Copy)]
pub enum Operator {
    Or,
    And,
    /// `==`, or `!=` where it is false.
    Equality(bool),
    Compare(Order),
    Binary(BinaryOp),
}

/// A prefix operator.
#[derive(Clone, Copy)]
pub enum Prefix {
    Minus,
    Not,
}

fn or_of(kind: TokenKind) -> Option<Operator>
    ensures { result ≡ grammar.or_of kind }
{
    match kind {
        TokenKind::Or => Some(Operator::Or),
        _ => None,
    }
}

fn and_of(kind: TokenKind) -> Option<Operator>
    ensures { result ≡ grammar.and_of kind }
{
    match kind {
        TokenKind::And => Some(Operator::And),
        _ => None,
    }
}

fn equality_of(kind: TokenKind) -> Option<Operator>
    ensures { result ≡ grammar.equality_of kind }
{
    match kind {
        TokenKind::Equal => Some(Operator::Equality(true)),
        TokenKind::NotEqual => Some(Operator::Equality(false)),
        _ => None,
    }
}

fn comparison_of(kind: TokenKind) -> Option<Operator>
    ensures { result ≡ grammar.comparison_of kind }
{
    match kind {
        TokenKind::Less => Some(Operator::Compare(Order::Less)),
        TokenKind::LessEqual => Some(Operator::Compare(Order::LessEqual)),
        TokenKind::Greater => Some(Operator::Compare(Order::Greater)),
        TokenKind::GreaterEqual => Some(Operator::Compare(Order::GreaterEqual)),
        _ => None,
    }
}

fn additive_of(kind: TokenKind) -> Option<Operator>
    ensures { result ≡ grammar.additive_of kind }
{
    match kind {
        TokenKind::Plus => Some(Operator::Binary(BinaryOp::Plus)),
        TokenKind::Minus => Some(Operator::Binary(BinaryOp::Minus)),
        _ => None,
    }
}

fn multiplicative_of(kind: TokenKind) -> Option<Operator>
    ensures { result ≡ grammar.multiplicative_of kind }
{
    match kind {
        TokenKind::Times => Some(Operator::Binary(BinaryOp::Times)),
        TokenKind::Divide => Some(Operator::Binary(BinaryOp::Div)),
        TokenKind::Remainder => Some(Operator::Binary(BinaryOp::Rem)),
        _ => None,
    }
}

fn operator_of(level: Level, kind: TokenKind) -> Option<Operator>
    ensures { result ≡ grammar.operator_of level kind }
{
    match level {
        Level::Or => or_of(kind),
        Level::And => and_of(kind),
        Level::Equality => equality_of(kind),
        Level::Comparison => comparison_of(kind),
        Level::Additive => additive_of(kind),
        Level::Multiplicative => multiplicative_of(kind),
    }
}

fn may_begin_line(level: Level) -> bool
    ensures { result ≡ grammar.may_begin_line level }
{
    match level {
        Level::Or | Level::And => true,
        _ => false,
    }
}

/// The token as an operator of this level behind an operand. `inside` says that the innermost open bracket is a round one, where
/// lines don't count.
pub fn operator_at(level: Level, inside: bool, token: Token) -> Option<Operator>
    ensures { result ≡ grammar.operator_at level inside token }
{
    if token.marked && !(inside || may_begin_line(level)) {
        return None;
    }
    operator_of(level, token.kind)
}

/// The token as a prefix operator.
pub fn prefix_of(kind: TokenKind) -> Option<Prefix>
    ensures { result ≡ grammar.prefix_of kind }
{
    match kind {
        TokenKind::Minus => Some(Prefix::Minus),
        TokenKind::Not => Some(Prefix::Not),
        _ => None,
    }
}
