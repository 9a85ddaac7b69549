//! What stands behind an operand: postfix operators, members, indexes and calls (Kotlin Language Specification 1.9, "Postfix operator
//! expressions").
ghost use Rattle.std.specs.Prelude.{◌≡◌, ◌≤◌, ◌++◌, ◌∷◌, [], length};
ghost use Rattle.grammars.specs.Grammar.{row};
ghost use Rattle.kt_bodies.specs.Looks.{Looked};
ghost use Rattle.kt_bodies.specs.Statements.{ReadsStatement};
ghost use Rattle.kt_calls.specs.Suffixes as spec;
ghost use Rattle.kt_grammar.specs.Built as built;
ghost use Rattle.kt_grammar.specs.Expressions.{ReadsExpression};
ghost use Rattle.kt_grammar.specs.Lookahead as tests;
ghost use Rattle.kt_grammar.specs.Parsed.{Advances};
ghost use Rattle.kt_grammar.specs.Rows as rows;
ghost use Rattle.kt_suffixes.specs.Suffixes.{IsTable};

use crate::calls::call;
use crate::marks::{Mark, expect_mark, is_mark_at, span_at};
use crate::nodes::{Ending, call_ending, ended, index_ending, member_ending, operator_ending};
use kc_text::Fail;
use kc_tree::{Expr, TypeArg};
use kt_bodies::{Bodies, expect_name_on};
use kt_grammar::{
    Cursor, Look, Operands, behind, eat_op_on, expect_op_on, span_between, type_arguments,
};
use kt_lexer::{Operator, Token};
use kt_suffixes::suffix_at;
use sqlite_items::Items;
use std::alloc::Global;

/// A postfix operator.
fn postfix_operator(tokens: &[Token], at: Cursor) -> Result<(Ending, Cursor), Fail<usize>>
    requires { at.at ≤ length tokens.now }
    ensures { Advances spec.postfix_operator spec.operator_of tokens.now at result }
{
    let (token, end) = expect_mark(tokens, at, Mark::Postfix)?;
    Ok((operator_ending(token), end))
}

/// A member behind `.` or `?.`.
fn member(tokens: &[Token], at: Cursor) -> Result<(Ending, Cursor), Fail<usize>>
    requires { at.at ≤ length tokens.now }
    ensures { Advances spec.member spec.member_of tokens.now at result }
{
    let (dot, next) = expect_mark(tokens, at, Mark::Dot)?;
    let (name, end) = expect_name_on(tokens, next)?;
    Ok((member_ending(dot, name), end))
}

/// The first index, alone in a list.
fn first_index<F: Fn(Global, &[Token], Cursor) -> Result<(Expr, Cursor), Fail<usize>>, G>(
    bodies: &Bodies<'_, F, G>,
    at: Cursor,
) -> Result<(Items<Expr>, Cursor), Fail<usize>>
    requires expressions { ReadsExpression bodies.now.tokens.now bodies.now.from (F.pre bodies.now.expression) (F.post bodies.now.expression) }
    requires behind { bodies.now.from ≤ at.at }
    requires within { at.at ≤ length bodies.now.tokens.now }
    ensures { Advances (row rows.expression) (λ x. built.expression_of x ∷ []) bodies.now.tokens.now at result }
{
    let (value, end) = bodies.expression_at(at)?;
    let mut all = Items::new(bodies.alloc);
    all.push(value)?;
    Ok((all, end))
}

/// Further indexes, which go to the list's end. A comma may stand behind the last.
fn more_indexes<F: Fn(Global, &[Token], Cursor) -> Result<(Expr, Cursor), Fail<usize>>, G>(
    bodies: &Bodies<'_, F, G>,
    before: Items<Expr>,
    at: Cursor,
) -> Result<(Items<Expr>, Cursor), Fail<usize>>
    requires expressions { ReadsExpression bodies.now.tokens.now bodies.now.from (F.pre bodies.now.expression) (F.post bodies.now.expression) }
    requires behind { bodies.now.from ≤ at.at }
    requires within { at.at ≤ length bodies.now.tokens.now }
    ensures { Advances spec.more_indexes (λ x. before ++ built.expressions_behind x) bodies.now.tokens.now at result }
{
    let Some(next) = eat_op_on(bodies.tokens, at, Operator::Comma) else {
        return Ok((before, at));
    };
    let operands = Operands {
        alloc: bodies.alloc,
        tokens: bodies.tokens,
        from: bodies.from,
        expression: &bodies.expression,
    };
    operands.expressions(before, next)
}

/// Indexes, and the bracket behind them.
fn indexes<F: Fn(Global, &[Token], Cursor) -> Result<(Expr, Cursor), Fail<usize>>, G>(
    bodies: &Bodies<'_, F, G>,
    at: Cursor,
) -> Result<(Items<Expr>, Cursor), Fail<usize>>
    requires expressions { ReadsExpression bodies.now.tokens.now bodies.now.from (F.pre bodies.now.expression) (F.post bodies.now.expression) }
    requires behind { bodies.now.from ≤ at.at }
    requires within { at.at ≤ length bodies.now.tokens.now }
    ensures { Advances spec.indexes spec.indexes_of bodies.now.tokens.now at result }
{
    let (first, mid) = first_index(bodies, at)?;
    let (all, last) = more_indexes(bodies, first, mid)?;
    let close = expect_op_on(bodies.tokens, last, Operator::CloseSquare)?;
    Ok((all, close))
}

/// Indexes in square brackets.
fn index<F: Fn(Global, &[Token], Cursor) -> Result<(Expr, Cursor), Fail<usize>>, G>(
    bodies: &Bodies<'_, F, G>,
    at: Cursor,
) -> Result<(Ending, Cursor), Fail<usize>>
    requires expressions { ReadsExpression bodies.now.tokens.now bodies.now.from (F.pre bodies.now.expression) (F.post bodies.now.expression) }
    requires behind { bodies.now.from ≤ at.at }
    requires within { at.at ≤ length bodies.now.tokens.now }
    ensures { Advances spec.index spec.index_of bodies.now.tokens.now at result }
{
    let (token, next) = expect_mark(bodies.tokens, at, Mark::Square)?;
    let (all, end) = indexes(bodies, next)?;
    let span = span_between(bodies.tokens, at.at, end.at);
    Ok((index_ending(span, token, all), end))
}

/// A call with the type arguments that are written.
fn called<
    F: Fn(Global, &[Token], Cursor) -> Result<(Expr, Cursor), Fail<usize>>,
    G: Fn(Global, &[Token], Cursor) -> Result<(Expr, Cursor), Fail<usize>>,
>(
    bodies: &Bodies<'_, F, G>,
    types: Items<TypeArg>,
    at: Cursor,
) -> Result<(Ending, Cursor), Fail<usize>>
    requires expressions { ReadsExpression bodies.now.tokens.now bodies.now.from (F.pre bodies.now.expression) (F.post bodies.now.expression) }
    requires statements { ReadsStatement bodies.now.tokens.now bodies.now.from (G.pre bodies.now.statement) (G.post bodies.now.statement) }
    requires behind { bodies.now.from ≤ at.at }
    requires within { at.at ≤ length bodies.now.tokens.now }
    ensures { Advances (row rows.call) (spec.called types) bodies.now.tokens.now at result }
{
    let (args, end) = call(bodies, at)?;
    let token = span_at(bodies.tokens, at.at);
    let span = span_between(bodies.tokens, at.at, end.at);
    Ok((call_ending(span, token, types, args), end))
}

/// Type arguments, and the call behind them.
fn typed_call<
    F: Fn(Global, &[Token], Cursor) -> Result<(Expr, Cursor), Fail<usize>>,
    G: Fn(Global, &[Token], Cursor) -> Result<(Expr, Cursor), Fail<usize>>,
>(bodies: &Bodies<'_, F, G>, at: Cursor) -> Result<(Ending, Cursor), Fail<usize>>
    requires expressions { ReadsExpression bodies.now.tokens.now bodies.now.from (F.pre bodies.now.expression) (F.post bodies.now.expression) }
    requires statements { ReadsStatement bodies.now.tokens.now bodies.now.from (G.pre bodies.now.statement) (G.post bodies.now.statement) }
    requires behind { bodies.now.from ≤ at.at }
    requires within { at.at ≤ length bodies.now.tokens.now }
    ensures { Advances spec.typed_call spec.typed_call_of bodies.now.tokens.now at result }
{
    let (types, mid) = behind(
        at.looked,
        type_arguments(bodies.alloc, bodies.tokens, at.at),
    )?;
    called(bodies, types, mid)
}

/// A call, with type arguments where `<` stands at the place.
fn any_call<
    F: Fn(Global, &[Token], Cursor) -> Result<(Expr, Cursor), Fail<usize>>,
    G: Fn(Global, &[Token], Cursor) -> Result<(Expr, Cursor), Fail<usize>>,
>(bodies: &Bodies<'_, F, G>, at: Cursor) -> Result<(Ending, Cursor), Fail<usize>>
    requires expressions { ReadsExpression bodies.now.tokens.now bodies.now.from (F.pre bodies.now.expression) (F.post bodies.now.expression) }
    requires statements { ReadsStatement bodies.now.tokens.now bodies.now.from (G.pre bodies.now.statement) (G.post bodies.now.statement) }
    requires behind { bodies.now.from ≤ at.at }
    requires within { at.at ≤ length bodies.now.tokens.now }
    ensures { Advances spec.any_call spec.any_call_of bodies.now.tokens.now at result }
{
    if is_mark_at(bodies.tokens, at.at, Mark::Less) {
        return typed_call(bodies, at);
    }
    called(bodies, Items::new(bodies.alloc), at)
}

/// Indexes or a call.
fn index_or_call<
    F: Fn(Global, &[Token], Cursor) -> Result<(Expr, Cursor), Fail<usize>>,
    G: Fn(Global, &[Token], Cursor) -> Result<(Expr, Cursor), Fail<usize>>,
>(bodies: &Bodies<'_, F, G>, at: Cursor) -> Result<(Ending, Cursor), Fail<usize>>
    requires expressions { ReadsExpression bodies.now.tokens.now bodies.now.from (F.pre bodies.now.expression) (F.post bodies.now.expression) }
    requires statements { ReadsStatement bodies.now.tokens.now bodies.now.from (G.pre bodies.now.statement) (G.post bodies.now.statement) }
    requires behind { bodies.now.from ≤ at.at }
    requires within { at.at ≤ length bodies.now.tokens.now }
    ensures { Advances spec.index_or_call spec.index_or_call_of bodies.now.tokens.now at result }
{
    if is_mark_at(bodies.tokens, at.at, Mark::Square) {
        return index(bodies, at);
    }
    any_call(bodies, at)
}

/// A member, indexes or a call.
fn member_or_more<
    F: Fn(Global, &[Token], Cursor) -> Result<(Expr, Cursor), Fail<usize>>,
    G: Fn(Global, &[Token], Cursor) -> Result<(Expr, Cursor), Fail<usize>>,
>(bodies: &Bodies<'_, F, G>, at: Cursor) -> Result<(Ending, Cursor), Fail<usize>>
    requires expressions { ReadsExpression bodies.now.tokens.now bodies.now.from (F.pre bodies.now.expression) (F.post bodies.now.expression) }
    requires statements { ReadsStatement bodies.now.tokens.now bodies.now.from (G.pre bodies.now.statement) (G.post bodies.now.statement) }
    requires behind { bodies.now.from ≤ at.at }
    requires within { at.at ≤ length bodies.now.tokens.now }
    ensures { Advances spec.member_or_more spec.member_or_more_of bodies.now.tokens.now at result }
{
    if is_mark_at(bodies.tokens, at.at, Mark::Dot) {
        return member(bodies.tokens, at);
    }
    index_or_call(bodies, at)
}

/// What stands behind an operand.
fn ending<
    F: Fn(Global, &[Token], Cursor) -> Result<(Expr, Cursor), Fail<usize>>,
    G: Fn(Global, &[Token], Cursor) -> Result<(Expr, Cursor), Fail<usize>>,
>(bodies: &Bodies<'_, F, G>, at: Cursor) -> Result<(Ending, Cursor), Fail<usize>>
    requires expressions { ReadsExpression bodies.now.tokens.now bodies.now.from (F.pre bodies.now.expression) (F.post bodies.now.expression) }
    requires statements { ReadsStatement bodies.now.tokens.now bodies.now.from (G.pre bodies.now.statement) (G.post bodies.now.statement) }
    requires behind { bodies.now.from ≤ at.at }
    requires within { at.at ≤ length bodies.now.tokens.now }
    ensures { Advances spec.suffix spec.ending_of bodies.now.tokens.now at result }
{
    if is_mark_at(bodies.tokens, at.at, Mark::Postfix) {
        return postfix_operator(bodies.tokens, at);
    }
    member_or_more(bodies, at)
}

/// An operand with what stands at the place behind it: a postfix operator, a member, indexes or a call.
///
/// # Errors
///
/// `Found` with the place of the first token with which none of these goes on, or the farthest one that a test has looked at.
pub fn suffix<
    F: Fn(Global, &[Token], Cursor) -> Result<(Expr, Cursor), Fail<usize>>,
    G: Fn(Global, &[Token], Cursor) -> Result<(Expr, Cursor), Fail<usize>>,
>(bodies: &Bodies<'_, F, G>, left: Expr, at: Cursor) -> Result<(Expr, Cursor), Fail<usize>>
    requires expressions { ReadsExpression bodies.now.tokens.now bodies.now.from (F.pre bodies.now.expression) (F.post bodies.now.expression) }
    requires statements { ReadsStatement bodies.now.tokens.now bodies.now.from (G.pre bodies.now.statement) (G.post bodies.now.statement) }
    requires behind { bodies.now.from ≤ at.at }
    requires within { at.at ≤ length bodies.now.tokens.now }
    ensures { Advances (row rows.suffix) (built.suffix_of left) bodies.now.tokens.now at result }
{
    let (found, end) = ending(bodies, at)?;
    let whole = ended(bodies.alloc, left, found)?;
    Ok((whole, end))
}

/// Whether a postfix operator, a member, indexes or a call follow an operand that ends before the place.
fn look_for_suffix(tokens: &[Token], looks: &[Look], at: Cursor) -> (bool, Cursor)
    requires looks { IsTable tokens.now looks.now }
    requires within { at.at ≤ length tokens.now }
    ensures { Looked tests.suffix_follows (row rows.suffix) tokens.now at result.1 result.0 }
{
    let look = suffix_at(tokens, looks, at.at);
    (look.holds, at.seen(look.end))
}

/// An operand with all postfix operators, members, indexes and calls behind it. The table tells at which places any of them follows.
///
/// # Errors
///
/// `Found` with the place of the first token with which none of these goes on, or the farthest one that a test has looked at.
pub fn suffixes<
    F: Fn(Global, &[Token], Cursor) -> Result<(Expr, Cursor), Fail<usize>>,
    G: Fn(Global, &[Token], Cursor) -> Result<(Expr, Cursor), Fail<usize>>,
>(
    bodies: &Bodies<'_, F, G>,
    looks: &[Look],
    left: Expr,
    at: Cursor,
) -> Result<(Expr, Cursor), Fail<usize>>
    requires expressions { ReadsExpression bodies.now.tokens.now bodies.now.from (F.pre bodies.now.expression) (F.post bodies.now.expression) }
    requires statements { ReadsStatement bodies.now.tokens.now bodies.now.from (G.pre bodies.now.statement) (G.post bodies.now.statement) }
    requires looks { IsTable bodies.now.tokens.now looks.now }
    requires behind { bodies.now.from ≤ at.at }
    requires within { at.at ≤ length bodies.now.tokens.now }
    ensures { Advances spec.suffixes (built.suffixes_of left) bodies.now.tokens.now at result }
{
    let mut left = left;
    let mut at = at;
    loop {
        let (holds, mid) = look_for_suffix(bodies.tokens, looks, at);
        if !holds {
            return Ok((left, mid));
        }
        let (whole, end) = suffix(bodies, left, mid)?;
        left = whole;
        at = end;
    }
}
