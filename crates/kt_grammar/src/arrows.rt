//! Types that stand before an arrow: in a condition of a `when`, and of a lambda's parameter (Kotlin Language Specification 1.9, "When
//! expressions" and "Lambda literals"). A `->` behind brackets belongs to the type only where a further `->`, or a `,`, follows the result.
ghost use Rattle.std.specs.Prelude.{◌≤◌, length, drop};
ghost use Rattle.grammars.specs.Grammar.{first, next, row, both, choose, nothing, right};
ghost use Rattle.kt_lexer.specs.declared.token.Operator.TheVariants as operators;
ghost use Rattle.kt_grammar.specs.Lookahead as tests;
ghost use Rattle.kt_grammar.specs.Parsed.{Advances};
ghost use Rattle.kt_grammar.specs.Rows as rows;
ghost use Rattle.kt_grammar.specs.Rows.{op, behind_first_type, to_type};
ghost use Rattle.kt_grammar.specs.Tokens.{is_op};
ghost use Rattle.kt_grammar.specs.TypesBuilt as built;

use crate::cursor::{Cursor, behind, eat_op_on, expect_op_on};
use crate::lookahead::result_follows;
use crate::tokens::{is_op_at, span_between};
use crate::types::{function, more_types, named_type, nullables, type_at};
use kc_text::Fail;
use kc_tree::Type;
use kt_lexer::{Operator, Token};
use sqlite_items::Items;
use std::alloc::Global;

/// A type before an arrow, and the place behind it.
///
/// # Errors
///
/// `Found` with the place of the first token with which no such type goes on.
#[cycle(arrow_types)]
pub fn type_before_arrow(
    alloc: Global,
    tokens: &[Token],
    at: Cursor,
) -> Result<(Type, Cursor), Fail<usize>>
    requires { at.at ≤ length tokens.now }
    ensures { Advances (row rows.type_before_arrow) built.type_of tokens.now at result }
{
    let (core, end) = core_before_arrow(alloc, tokens, at)?;
    behind(end.looked, nullables(alloc, tokens, at.at, core, end.at))
}

#[cycle(arrow_types)]
fn core_before_arrow(
    alloc: Global,
    tokens: &[Token],
    at: Cursor,
) -> Result<(Type, Cursor), Fail<usize>>
    requires { at.at ≤ length tokens.now }
    ensures { Advances (choose (next (is_op operators.OpenRound)) (row rows.bracketed_before_arrow) (both (row rows.dotted) (choose (next (is_op operators.Less)) (row rows.type_arguments) nothing))) built.core_of tokens.now at result }
{
    if is_op_at(tokens, at.at, Operator::OpenRound) {
        return bracketed_before_arrow(alloc, tokens, at);
    }
    behind(at.looked, named_type(alloc, tokens, at.at))
}

#[cycle(arrow_types)]
fn bracketed_before_arrow(
    alloc: Global,
    tokens: &[Token],
    at: Cursor,
) -> Result<(Type, Cursor), Fail<usize>>
    requires { at.at ≤ length tokens.now }
    ensures { Advances (row rows.bracketed_before_arrow) built.in_brackets_of tokens.now at result }
{
    let next = expect_op_on(tokens, at, Operator::OpenRound)?;
    if is_op_at(tokens, next.at, Operator::CloseRound) {
        let (output, end) = result_before_arrow(alloc, tokens, next)?;
        let span = span_between(tokens, at.at, end.at);
        let none = Items::new(alloc);
        return Ok((function(alloc, span, none, output)?, end));
    }
    let (head, end) = behind(next.looked, type_at(alloc, tokens, next.at))?;
    behind_first(alloc, tokens, at.at, head, end)
}

/// What stands behind the first type in brackets that begin at `start`.
#[cycle(arrow_types)]
fn behind_first(
    alloc: Global,
    tokens: &[Token],
    start: usize,
    head: Type,
    at: Cursor,
) -> Result<(Type, Cursor), Fail<usize>>
    requires { at.at ≤ length tokens.now }
    ensures { Advances (behind_first_type tests.result_follows rows.type_before_arrow) (built.behind_first_of (first (drop start tokens.now)) head) tokens.now at result }
{
    let Some(next) = eat_op_on(tokens, at, Operator::Comma) else {
        return behind_only(alloc, tokens, start, head, at);
    };
    let (parameters, end) = behind(next.looked, more_types(alloc, tokens, head, next.at))?;
    let (output, end) = result_before_arrow(alloc, tokens, end)?;
    let span = span_between(tokens, start, end.at);
    Ok((function(alloc, span, parameters, output)?, end))
}

/// What stands behind the only type in brackets that begin at `start`.
#[cycle(arrow_types)]
fn behind_only(
    alloc: Global,
    tokens: &[Token],
    start: usize,
    head: Type,
    at: Cursor,
) -> Result<(Type, Cursor), Fail<usize>>
    requires { at.at ≤ length tokens.now }
    ensures { Advances (both (op operators.CloseRound) (choose tests.result_follows (to_type rows.type_before_arrow) nothing)) (λ c. built.behind_first_of (first (drop start tokens.now)) head (right c)) tokens.now at result }
{
    let close = expect_op_on(tokens, at, Operator::CloseRound)?;
    let look = result_follows(alloc, tokens, close.at)?;
    let mid = close.seen(look.end);
    if !look.holds {
        return Ok((head, mid));
    }
    let next = expect_op_on(tokens, mid, Operator::Arrow)?;
    let (output, end) = type_before_arrow(alloc, tokens, next)?;
    let span = span_between(tokens, start, end.at);
    let mut parameters = Items::new(alloc);
    parameters.push(head)?;
    Ok((function(alloc, span, parameters, output)?, end))
}

/// `) -> type`
#[cycle(arrow_types)]
fn result_before_arrow(
    alloc: Global,
    tokens: &[Token],
    at: Cursor,
) -> Result<(Type, Cursor), Fail<usize>>
    requires { at.at ≤ length tokens.now }
    ensures { Advances (both (op operators.CloseRound) (to_type rows.type_before_arrow)) built.result_of tokens.now at result }
{
    let close = expect_op_on(tokens, at, Operator::CloseRound)?;
    let next = expect_op_on(tokens, close, Operator::Arrow)?;
    type_before_arrow(alloc, tokens, next)
}
