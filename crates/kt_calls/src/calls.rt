//! Calls: arguments in brackets, and a lambda behind them (Kotlin Language Specification 1.9, "Call and property access expressions").
ghost use Rattle.std.specs.Prelude.{◌≡◌, ◌≤◌, ◌++◌, ◌∷◌, [], length};
ghost use Rattle.grammars.specs.Grammar.{row};
ghost use Rattle.kt_bodies.specs.Statements.{ReadsStatement};
ghost use Rattle.kt_calls.specs.Calls as spec;
ghost use Rattle.kt_grammar.specs.Built as built;
ghost use Rattle.kt_grammar.specs.Expressions.{ReadsExpression};
ghost use Rattle.kt_grammar.specs.Parsed.{Advanced, Advances};
ghost use Rattle.kt_grammar.specs.Rows as rows;

use crate::marks::{Mark, begins_trailing_at, eat_mark, expect_mark, is_mark_at};
use crate::nodes::trailing_argument;
use kc_text::Fail;
use kc_tree::{Arg, Expr, Word};
use kt_bodies::Bodies;
use kt_grammar::{Cursor, Operands, expect_op_on, span_between, word_of};
use kt_lexer::{Operator, Token};
use sqlite_items::Items;
use std::alloc::Global;

/// A label, where one stands at the place.
fn label_before(tokens: &[Token], at: Cursor) -> (Option<Word>, Cursor)
    requires { at.at ≤ length tokens.now }
    ensures { Advanced spec.label_before built.label_of tokens.now at result.1 result.0 }
{
    match eat_mark(tokens, at, Mark::Label) {
        Some((token, next)) => (Some(word_of(token)), next),
        None => (None, at),
    }
}

/// A lambda behind a call, with its label, which goes to the list's end.
///
/// # Errors
///
/// `Found` with the place of the first token with which no lambda goes on, or the farthest one that a test has looked at.
pub fn trailing<F, G: Fn(Global, &[Token], Cursor) -> Result<(Expr, Cursor), Fail<usize>>>(
    bodies: &Bodies<'_, F, G>,
    before: Items<Arg>,
    at: Cursor,
) -> Result<(Items<Arg>, Cursor), Fail<usize>>
    requires statements { ReadsStatement bodies.now.tokens.now bodies.now.from (G.pre bodies.now.statement) (G.post bodies.now.statement) }
    requires behind { bodies.now.from ≤ at.at }
    requires within { at.at ≤ length bodies.now.tokens.now }
    ensures { Advances (row rows.trailing) (λ x. before ++ built.trailing_of x) bodies.now.tokens.now at result }
{
    let (label, mid) = label_before(bodies.tokens, at);
    let (value, end) = bodies.lambda(label, mid)?;
    let span = span_between(bodies.tokens, at.at, end.at);
    let mut all = before;
    all.push(trailing_argument(span, value))?;
    Ok((all, end))
}

/// A lambda on the same line, which goes to the list's end.
fn on_line<F, G: Fn(Global, &[Token], Cursor) -> Result<(Expr, Cursor), Fail<usize>>>(
    bodies: &Bodies<'_, F, G>,
    before: Items<Arg>,
    at: Cursor,
) -> Result<(Items<Arg>, Cursor), Fail<usize>>
    requires statements { ReadsStatement bodies.now.tokens.now bodies.now.from (G.pre bodies.now.statement) (G.post bodies.now.statement) }
    requires behind { bodies.now.from ≤ at.at }
    requires within { at.at ≤ length bodies.now.tokens.now }
    ensures { Advances rows.a_trailing (λ x. before ++ spec.on_line_of x) bodies.now.tokens.now at result }
{
    if !begins_trailing_at(bodies.tokens, at.at) {
        return Err(at.fault());
    }
    trailing(bodies, before, at)
}

/// A lambda on the same line, which goes to the list's end, where one stands at the place.
fn maybe_on_line<F, G: Fn(Global, &[Token], Cursor) -> Result<(Expr, Cursor), Fail<usize>>>(
    bodies: &Bodies<'_, F, G>,
    before: Items<Arg>,
    at: Cursor,
) -> Result<(Items<Arg>, Cursor), Fail<usize>>
    requires statements { ReadsStatement bodies.now.tokens.now bodies.now.from (G.pre bodies.now.statement) (G.post bodies.now.statement) }
    requires behind { bodies.now.from ≤ at.at }
    requires within { at.at ≤ length bodies.now.tokens.now }
    ensures { Advances spec.maybe_on_line (λ x. before ++ spec.maybe_on_line_of x) bodies.now.tokens.now at result }
{
    if !begins_trailing_at(bodies.tokens, at.at) {
        return Ok((before, at));
    }
    trailing(bodies, before, at)
}

/// The arguments of a call.
fn arguments<F: Fn(Global, &[Token], Cursor) -> Result<(Expr, Cursor), Fail<usize>>, G>(
    bodies: &Bodies<'_, F, G>,
    at: Cursor,
) -> Result<(Items<Arg>, Cursor), Fail<usize>>
    requires expressions { ReadsExpression bodies.now.tokens.now bodies.now.from (F.pre bodies.now.expression) (F.post bodies.now.expression) }
    requires behind { bodies.now.from ≤ at.at }
    requires within { at.at ≤ length bodies.now.tokens.now }
    ensures { Advances (row rows.arguments) built.arguments_of bodies.now.tokens.now at result }
{
    let operands = Operands {
        alloc: bodies.alloc,
        tokens: bodies.tokens,
        from: bodies.from,
        expression: &bodies.expression,
    };
    operands.arguments(Items::new(bodies.alloc), at)
}

/// Arguments in brackets.
fn in_brackets<F: Fn(Global, &[Token], Cursor) -> Result<(Expr, Cursor), Fail<usize>>, G>(
    bodies: &Bodies<'_, F, G>,
    at: Cursor,
) -> Result<(Items<Arg>, Cursor), Fail<usize>>
    requires expressions { ReadsExpression bodies.now.tokens.now bodies.now.from (F.pre bodies.now.expression) (F.post bodies.now.expression) }
    requires behind { bodies.now.from ≤ at.at }
    requires within { at.at ≤ length bodies.now.tokens.now }
    ensures { Advances spec.in_brackets spec.in_brackets_of bodies.now.tokens.now at result }
{
    let (_, next) = expect_mark(bodies.tokens, at, Mark::Round)?;
    let (all, end) = arguments(bodies, next)?;
    let close = expect_op_on(bodies.tokens, end, Operator::CloseRound)?;
    Ok((all, close))
}

/// Arguments in brackets, and a lambda on the same line where one stands behind them.
fn with_brackets<
    F: Fn(Global, &[Token], Cursor) -> Result<(Expr, Cursor), Fail<usize>>,
    G: Fn(Global, &[Token], Cursor) -> Result<(Expr, Cursor), Fail<usize>>,
>(bodies: &Bodies<'_, F, G>, at: Cursor) -> Result<(Items<Arg>, Cursor), Fail<usize>>
    requires expressions { ReadsExpression bodies.now.tokens.now bodies.now.from (F.pre bodies.now.expression) (F.post bodies.now.expression) }
    requires statements { ReadsStatement bodies.now.tokens.now bodies.now.from (G.pre bodies.now.statement) (G.post bodies.now.statement) }
    requires behind { bodies.now.from ≤ at.at }
    requires within { at.at ≤ length bodies.now.tokens.now }
    ensures { Advances spec.with_brackets spec.with_brackets_of bodies.now.tokens.now at result }
{
    let (all, end) = in_brackets(bodies, at)?;
    maybe_on_line(bodies, all, end)
}

/// The arguments of a call in brackets with a lambda behind them, or a lambda alone.
///
/// # Errors
///
/// `Found` with the place of the first token with which no call goes on, or the farthest one that a test has looked at.
pub fn call<
    F: Fn(Global, &[Token], Cursor) -> Result<(Expr, Cursor), Fail<usize>>,
    G: Fn(Global, &[Token], Cursor) -> Result<(Expr, Cursor), Fail<usize>>,
>(bodies: &Bodies<'_, F, G>, at: Cursor) -> Result<(Items<Arg>, Cursor), Fail<usize>>
    requires expressions { ReadsExpression bodies.now.tokens.now bodies.now.from (F.pre bodies.now.expression) (F.post bodies.now.expression) }
    requires statements { ReadsStatement bodies.now.tokens.now bodies.now.from (G.pre bodies.now.statement) (G.post bodies.now.statement) }
    requires behind { bodies.now.from ≤ at.at }
    requires within { at.at ≤ length bodies.now.tokens.now }
    ensures { Advances (row rows.call) built.call_of bodies.now.tokens.now at result }
{
    if is_mark_at(bodies.tokens, at.at, Mark::Round) {
        return with_brackets(bodies, at);
    }
    on_line(bodies, Items::new(bodies.alloc), at)
}
