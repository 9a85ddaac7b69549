//! Operators whose right side is a type (Kotlin Language Specification 1.9, "Cast expressions" and "Type-checking expressions").
ghost use Rattle.std.specs.Prelude.{◌≤◌, length};
ghost use Rattle.grammars.specs.Grammar.{both, one, right, row};
ghost use Rattle.kt_grammar.specs.Built as built;
ghost use Rattle.kt_grammar.specs.Parsed.{Advances};
ghost use Rattle.kt_grammar.specs.Rows as rows;
ghost use Rattle.kt_grammar.specs.Tokens.{is_is, unmarked};
ghost use Rattle.kt_grammar.specs.TypesBuilt as types_built;

use crate::cursor::Cursor;
use crate::nodes::{cast, typed};
use crate::operands::operand_type;
use crate::signs::{Sign, eat_sign, expect_sign};
use crate::tokens::span_between;
use kc_text::Fail;
use kc_tree::Expr;
use kt_lexer::Token;
use std::alloc::Global;

/// An operand with the casts behind it.
///
/// # Errors
///
/// `Found` with the place of the first token with which no type behind a cast goes on, or the farthest one that a test has looked at.
pub fn cast_turns(
    alloc: Global,
    tokens: &[Token],
    left: Expr,
    at: Cursor,
) -> Result<(Expr, Cursor), Fail<usize>>
    requires { at.at ≤ length tokens.now }
    ensures { Advances rows.cast_turns (built.cast_turns_of left) tokens.now at result }
{
    let mut left = left;
    let mut at = at;
    while let Some((token, next)) = eat_sign(tokens, at, Sign::Cast) {
        let (ty, end) = operand_type(alloc, tokens, next)?;
        let written = span_between(tokens, next.at, end.at);
        left = cast(alloc, token, left, ty, written)?;
        at = end;
    }
    Ok((left, at))
}

/// An operand with `is` or `!is` and a type behind it.
///
/// # Errors
///
/// `Found` with the place of the first token with which none of these goes on, or the farthest one that a test has looked at.
pub fn typed_turn(
    alloc: Global,
    tokens: &[Token],
    left: Expr,
    at: Cursor,
) -> Result<(Expr, Cursor), Fail<usize>>
    requires { at.at ≤ length tokens.now }
    ensures { Advances (both (one (unmarked is_is)) (row rows.operand_type)) (λ x. built.named_turn_of left (right x)) tokens.now at result }
{
    let (token, next) = expect_sign(tokens, at, Sign::Is)?;
    type_check(alloc, tokens, token, left, next)
}

/// An operand and the token `is` or `!is` with the type at the place.
fn type_check(
    alloc: Global,
    tokens: &[Token],
    token: &Token,
    left: Expr,
    at: Cursor,
) -> Result<(Expr, Cursor), Fail<usize>>
    requires { at.at ≤ length tokens.now }
    ensures { Advances (row rows.operand_type) (λ x. built.typed left token.now (types_built.type_of x) (types_built.span_of x)) tokens.now at result }
{
    let (ty, end) = operand_type(alloc, tokens, at)?;
    let written = span_between(tokens, at.at, end.at);
    let whole = typed(alloc, token, left, ty, written)?;
    Ok((whole, end))
}
