//! From tokens to expressions, by recursive descent: one function a row of the grammar. Calls nest at most a few times a token, and a
//! file of the form has at most 256 tokens.

ghost use Rattle.std.specs.Prelude.{◌≡◌, ◌<◌, ◌≤◌, ◌∷◌, length, Bool, IfOk, IfSome};
ghost use Rattle.form_parser.specs.Grammar as grammar;
ghost use Rattle.form_parser.specs.Parsed.{Answers, Tries, Stands, StandsUnmarked, TakesOperator, IsPrefix, IsLeast};

use crate::operators::{Level, Operator, Prefix, operator_at, prefix_of};
use crate::surface::{Expression, ExpressionKind};
use crate::tokens::{NotBuilt, Place, Token, TokenKind};
use kc_text::Fail;
use sqlite_items::Boxed;
use std::alloc::{AllocError, Global};

/// From the start of the first place to the end of the last one.
pub fn joined(first: Place, last: Place) -> Place
    ensures { result ≡ grammar.joined first last }
{
    Place {
        start: first.start,
        end: last.end,
    }
}

/// A token that rows of the grammar ask for.
#[derive(Clone, Copy)]
pub enum Expected {
    Fun,
    Main,
    Name,
    Assign,
    OpenRound,
    CloseRound,
    OpenBrace,
}

fn is_kind(expected: Expected, kind: TokenKind) -> bool
    ensures { result ≡ grammar.is_kind expected kind }
{
    match expected {
        Expected::Fun => match kind {
            TokenKind::Fun => true,
            _ => false,
        },
        Expected::Main => match kind {
            TokenKind::Main => true,
            _ => false,
        },
        Expected::Name => match kind {
            TokenKind::Name => true,
            _ => false,
        },
        Expected::Assign => match kind {
            TokenKind::Assign => true,
            _ => false,
        },
        Expected::OpenRound => match kind {
            TokenKind::OpenRound => true,
            _ => false,
        },
        Expected::CloseRound => match kind {
            TokenKind::CloseRound => true,
            _ => false,
        },
        Expected::OpenBrace => match kind {
            TokenKind::OpenBrace => true,
            _ => false,
        },
    }
}

/// The widest number, which is in the range of `Int` only with a sign.
fn is_widest(kind: TokenKind) -> bool
    ensures { result ≡ grammar.is_widest kind }
{
    match kind {
        TokenKind::Number(value) => value == 2147483648,
        _ => false,
    }
}

/// The token that is expected, if it stands first, and those behind it.
pub fn take(expected: Expected, tokens: &[Token]) -> Option<(Token, &[Token])>
    ensures takes { Tries (Stands (grammar.kind_of expected)) tokens.now result }
    ensures shorter { IfSome result (λ p. length p.1.now < length tokens.now) }
{
    let Some((first, rest)) = tokens.split_first() else {
        return None;
    };
    if is_kind(expected, first.kind) {
        return Some((*first, rest));
    }
    None
}

/// The same, where another token is a fault.
pub fn expect(expected: Expected, tokens: &[Token]) -> Result<(Token, &[Token]), Fail<NotBuilt>>
    ensures expects { Answers (Stands (grammar.kind_of expected)) tokens.now result }
    ensures shorter { IfOk result (λ p. length p.1.now < length tokens.now) }
{
    match take(expected, tokens) {
        Some(taken) => Ok(taken),
        None => Err(Fail::Found(NotBuilt)),
    }
}

/// The same, where a token on a new line is a fault too.
pub fn expect_unmarked(
    expected: Expected,
    tokens: &[Token],
) -> Result<(Token, &[Token]), Fail<NotBuilt>>
    ensures expects { Answers (StandsUnmarked (grammar.kind_of expected)) tokens.now result }
    ensures shorter { IfOk result (λ p. length p.1.now < length tokens.now) }
{
    let (token, rest) = expect(expected, tokens)?;
    if token.marked {
        return Err(Fail::Found(NotBuilt));
    }
    Ok((token, rest))
}

/// The operator of this level that stands first, and the tokens behind it.
fn take_operator(level: Level, inside: bool, tokens: &[Token]) -> Option<(Operator, &[Token])>
    ensures takes { TakesOperator level inside tokens.now result }
    ensures shorter { IfSome result (λ p. length p.1.now < length tokens.now) }
{
    let Some((first, rest)) = tokens.split_first() else {
        return None;
    };
    match operator_at(level, inside, *first) {
        Some(op) => Some((op, rest)),
        None => None,
    }
}

/// The prefix operator that stands first, with its token, and the tokens behind it.
fn take_prefix(tokens: &[Token]) -> Option<((Token, Prefix), &[Token])>
    ensures takes { Tries IsPrefix tokens.now result }
    ensures shorter { IfSome result (λ p. length p.1.now < length tokens.now) }
{
    let Some((first, rest)) = tokens.split_first() else {
        return None;
    };
    match prefix_of(first.kind) {
        Some(op) => Some(((*first, op), rest)),
        None => None,
    }
}

fn binary_kind(
    alloc: Global,
    op: Operator,
    left: Expression,
    right: Expression,
) -> Result<ExpressionKind, AllocError>
    ensures { IfOk result (λ kind. kind ≡ grammar.binary_kind op left right) }
{
    let left = Boxed::new(alloc, left)?;
    let right = Boxed::new(alloc, right)?;
    Ok(match op {
        Operator::Or => ExpressionKind::Or { left, right },
        Operator::And => ExpressionKind::And { left, right },
        Operator::Equality(equal) => ExpressionKind::Equality { equal, left, right },
        Operator::Compare(order) => ExpressionKind::Compare { order, left, right },
        Operator::Binary(op) => ExpressionKind::Binary { op, left, right },
    })
}

fn binary(
    alloc: Global,
    op: Operator,
    left: Expression,
    right: Expression,
) -> Result<Expression, AllocError>
    ensures { IfOk result (λ made. made ≡ grammar.binary op left right) }
{
    let place = joined(left.place, right.place);
    let kind = binary_kind(alloc, op, left, right)?;
    Ok(Expression { place, kind })
}

fn prefixed(
    alloc: Global,
    sign: Token,
    op: Prefix,
    value: Expression,
) -> Result<Expression, AllocError>
    ensures { IfOk result (λ made. made ≡ grammar.prefixed sign op value) }
{
    let place = joined(sign.place, value.place);
    let value = Boxed::new(alloc, value)?;
    let kind = match op {
        Prefix::Minus => ExpressionKind::Negation(value),
        Prefix::Not => ExpressionKind::Not(value),
    };
    Ok(Expression { place, kind })
}

/// The least `Int`, if the widest number stands first, behind a minus.
fn least(sign: Token, op: Prefix, tokens: &[Token]) -> Option<(Expression, &[Token])>
    ensures takes { Tries (IsLeast sign op) tokens.now result }
    ensures shorter { IfSome result (λ p. length p.1.now < length tokens.now) }
{
    if let Prefix::Not = op {
        return None;
    }
    let Some((first, rest)) = tokens.split_first() else {
        return None;
    };
    if !is_widest(first.kind) {
        return None;
    }
    let place = joined(sign.place, first.place);
    let kind = ExpressionKind::Number(-2147483648);
    Some((Expression { place, kind }, rest))
}

/// A token that is an expression by itself.
fn leaf(token: Token) -> Option<Expression>
    ensures { result ≡ grammar.leaf_of token }
{
    let place = token.place;
    let kind = match token.kind {
        TokenKind::Number(value) => {
            if value >= 2147483648 {
                return None;
            }
            ExpressionKind::Number(value as i32)
        }
        TokenKind::True => ExpressionKind::Truth(true),
        TokenKind::False => ExpressionKind::Truth(false),
        TokenKind::Name => ExpressionKind::Name(place),
        _ => return None,
    };
    Some(Expression { place, kind })
}

/// An expression (Kotlin Language Specification 1.9, "Expressions"), and the tokens behind it. `inside` says that the innermost open
/// bracket is a round one.
pub fn expression(
    alloc: Global,
    inside: bool,
    tokens: &[Token],
) -> Result<(Expression, &[Token]), Fail<NotBuilt>>
    ensures parses { Answers (grammar.Reads inside (grammar.chain Level.Or)) tokens.now result }
    ensures shorter { IfOk result (λ p. length p.1.now < length tokens.now) }
{
    chain(alloc, Level::Or, inside, tokens)
}

/// Operands of a level, joined by its operators.
#[cycle(expression)]
fn chain(
    alloc: Global,
    level: Level,
    inside: bool,
    tokens: &[Token],
) -> Result<(Expression, &[Token]), Fail<NotBuilt>>
    ensures parses { Answers (grammar.Reads inside (grammar.chain level)) tokens.now result }
    ensures shorter { IfOk result (λ p. length p.1.now < length tokens.now) }
{
    let (first, rest) = operand(alloc, level, inside, tokens)?;
    more(alloc, level, first, inside, rest)
}

#[cycle(expression)]
fn operand(
    alloc: Global,
    level: Level,
    inside: bool,
    tokens: &[Token],
) -> Result<(Expression, &[Token]), Fail<NotBuilt>>
    ensures parses { Answers (grammar.Reads inside (grammar.operand level)) tokens.now result }
    ensures shorter { IfOk result (λ p. length p.1.now < length tokens.now) }
{
    match level {
        Level::Or => chain(alloc, Level::And, inside, tokens),
        Level::And => chain(alloc, Level::Equality, inside, tokens),
        Level::Equality => chain(alloc, Level::Comparison, inside, tokens),
        Level::Comparison => chain(alloc, Level::Additive, inside, tokens),
        Level::Additive => chain(alloc, Level::Multiplicative, inside, tokens),
        Level::Multiplicative => prefix(alloc, inside, tokens),
    }
}

/// What joins the expression that was read.
#[cycle(expression)]
fn more(
    alloc: Global,
    level: Level,
    left: Expression,
    inside: bool,
    tokens: &[Token],
) -> Result<(Expression, &[Token]), Fail<NotBuilt>>
    ensures parses { Answers (grammar.Reads inside (grammar.more level left)) tokens.now result }
    ensures shorter { IfOk result (λ p. length p.1.now ≤ length tokens.now) }
{
    match take_operator(level, inside, tokens) {
        Some((op, rest)) => {
            let (right, end) = operand(alloc, level, inside, rest)?;
            let both = binary(alloc, op, left, right)?;
            behind(alloc, level, both, inside, end)
        }
        None => Ok((left, tokens)),
    }
}

/// What joins two operands. A comparison is joined to no other one.
#[cycle(expression)]
fn behind(
    alloc: Global,
    level: Level,
    both: Expression,
    inside: bool,
    tokens: &[Token],
) -> Result<(Expression, &[Token]), Fail<NotBuilt>>
    ensures parses { Answers (grammar.Reads inside (grammar.behind level both)) tokens.now result }
    ensures shorter { IfOk result (λ p. length p.1.now ≤ length tokens.now) }
{
    match level {
        Level::Comparison => Ok((both, tokens)),
        _ => more(alloc, level, both, inside, tokens),
    }
}

#[cycle(expression)]
fn prefix(
    alloc: Global,
    inside: bool,
    tokens: &[Token],
) -> Result<(Expression, &[Token]), Fail<NotBuilt>>
    ensures parses { Answers (grammar.Reads inside grammar.prefix) tokens.now result }
    ensures shorter { IfOk result (λ p. length p.1.now < length tokens.now) }
{
    let Some(((sign, op), rest)) = take_prefix(tokens) else {
        return primary(alloc, tokens);
    };
    if let Some(found) = least(sign, op, rest) {
        return Ok(found);
    }
    let (value, end) = prefix(alloc, inside, rest)?;
    Ok((prefixed(alloc, sign, op, value)?, end))
}

#[cycle(expression)]
fn primary(alloc: Global, tokens: &[Token]) -> Result<(Expression, &[Token]), Fail<NotBuilt>>
    ensures parses { (inside : Bool) → Answers (grammar.Reads inside grammar.primary) tokens.now result }
    ensures shorter { IfOk result (λ p. length p.1.now < length tokens.now) }
{
    let Some((first, rest)) = tokens.split_first() else {
        return Err(Fail::Found(NotBuilt));
    };
    if let TokenKind::OpenRound = first.kind {
        return brackets(alloc, *first, rest);
    }
    match leaf(*first) {
        Some(value) => Ok((value, rest)),
        None => Err(Fail::Found(NotBuilt)),
    }
}

#[cycle(expression)]
fn brackets<'t>(
    alloc: Global,
    bracket: Token,
    tokens: &'t [Token],
) -> Result<(Expression, &'t [Token]), Fail<NotBuilt>>
    requires { bracket.kind ≡ TokenKind.OpenRound }
    ensures parses { (inside : Bool) → Answers (grammar.Reads inside grammar.primary) (bracket ∷ tokens.now) result }
    ensures shorter { IfOk result (λ p. length p.1.now < length tokens.now) }
{
    let (inner, rest) = chain(alloc, Level::Or, true, tokens)?;
    let (close, end) = expect(Expected::CloseRound, rest)?;
    let Expression { place: _, kind } = inner;
    let place = joined(bracket.place, close.place);
    Ok((Expression { place, kind }, end))
}
