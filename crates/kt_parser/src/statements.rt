//! Statements (Kotlin Language Specification 1.9, "Statements").
ghost use Rattle.std.specs.Prelude.{◌≤◌, length};
ghost use Rattle.grammars.specs.Grammar.{row};
ghost use Rattle.kt_bodies.specs.Statements.{ReadsStatement};
ghost use Rattle.kt_parser.specs.Statements as spec;
ghost use Rattle.kt_grammar.specs.Built as built;
ghost use Rattle.kt_grammar.specs.Expressions.{ReadsExpression};
ghost use Rattle.kt_grammar.specs.Parsed.{Advances};
ghost use Rattle.kt_grammar.specs.Rows as rows;
ghost use Rattle.kt_suffixes.specs.Suffixes.{IsTable};

use crate::nodes::assigned;
use crate::over::{expression_over, postfix, turns_over};
use kc_text::Fail;
use kc_tree::Expr;
use kt_bodies::{Bodies, begins_local, begins_loop};
use kt_control::{local, loop_};
use kt_grammar::{Cursor, Look, Sign, eat_sign};
use kt_lexer::Token;
use std::alloc::Global;

/// A place and its token `=`, `+=` or the like, with the value at a place.
fn assigned_to<F, G>(
    bodies: &Bodies<'_, F, G>,
    token: &Token,
    place: Expr,
    at: Cursor,
) -> Result<(Expr, Cursor), Fail<usize>>
where
    F: Fn(Global, &[Token], Cursor) -> Result<(Expr, Cursor), Fail<usize>>,
    G: Fn(Global, &[Token], Cursor) -> Result<(Expr, Cursor), Fail<usize>>,
    requires expressions { ReadsExpression bodies.now.tokens.now bodies.now.from (F.pre bodies.now.expression) (F.post bodies.now.expression) }
    requires statements { ReadsStatement bodies.now.tokens.now bodies.now.from (G.pre bodies.now.statement) (G.post bodies.now.statement) }
    requires behind { bodies.now.from ≤ at.at }
    requires within { at.at ≤ length bodies.now.tokens.now }
    ensures { Advances (row rows.expression) (λ x. spec.assigned place token.now (built.expression_of x)) bodies.now.tokens.now at result }
{
    let (value, end) = bodies.expression_at(at)?;
    let whole = assigned(bodies.alloc, token, place, value)?;
    Ok((whole, end))
}

/// What may follow the postfix expression that begins a statement.
fn placed<F, G>(
    bodies: &Bodies<'_, F, G>,
    looks: &[Look],
    left: Expr,
    at: Cursor,
) -> Result<(Expr, Cursor), Fail<usize>>
where
    F: Fn(Global, &[Token], Cursor) -> Result<(Expr, Cursor), Fail<usize>>,
    G: Fn(Global, &[Token], Cursor) -> Result<(Expr, Cursor), Fail<usize>>,
    requires expressions { ReadsExpression bodies.now.tokens.now bodies.now.from (F.pre bodies.now.expression) (F.post bodies.now.expression) }
    requires statements { ReadsStatement bodies.now.tokens.now bodies.now.from (G.pre bodies.now.statement) (G.post bodies.now.statement) }
    requires looks { IsTable bodies.now.tokens.now looks.now }
    requires behind { bodies.now.from ≤ at.at }
    requires within { at.at ≤ length bodies.now.tokens.now }
    ensures { Advances spec.placed (spec.placed_of left) bodies.now.tokens.now at result }
{
    match eat_sign(bodies.tokens, at, Sign::Assignment) {
        Some((token, next)) => assigned_to(bodies, token, left, next),
        None => turns_over(bodies, looks, left, at),
    }
}

/// A statement that begins with a postfix expression.
fn no_prefix<F, G>(
    bodies: &Bodies<'_, F, G>,
    looks: &[Look],
    at: Cursor,
) -> Result<(Expr, Cursor), Fail<usize>>
where
    F: Fn(Global, &[Token], Cursor) -> Result<(Expr, Cursor), Fail<usize>>,
    G: Fn(Global, &[Token], Cursor) -> Result<(Expr, Cursor), Fail<usize>>,
    requires expressions { ReadsExpression bodies.now.tokens.now bodies.now.from (F.pre bodies.now.expression) (F.post bodies.now.expression) }
    requires statements { ReadsStatement bodies.now.tokens.now bodies.now.from (G.pre bodies.now.statement) (G.post bodies.now.statement) }
    requires looks { IsTable bodies.now.tokens.now looks.now }
    requires behind { bodies.now.from ≤ at.at }
    requires within { at.at ≤ length bodies.now.tokens.now }
    ensures { Advances spec.no_prefix spec.no_prefix_of bodies.now.tokens.now at result }
{
    let (left, mid) = postfix(bodies, looks, at)?;
    placed(bodies, looks, left, mid)
}

/// An expression or an assignment.
fn no_loop<F, G>(
    bodies: &Bodies<'_, F, G>,
    looks: &[Look],
    at: Cursor,
) -> Result<(Expr, Cursor), Fail<usize>>
where
    F: Fn(Global, &[Token], Cursor) -> Result<(Expr, Cursor), Fail<usize>>,
    G: Fn(Global, &[Token], Cursor) -> Result<(Expr, Cursor), Fail<usize>>,
    requires expressions { ReadsExpression bodies.now.tokens.now bodies.now.from (F.pre bodies.now.expression) (F.post bodies.now.expression) }
    requires statements { ReadsStatement bodies.now.tokens.now bodies.now.from (G.pre bodies.now.statement) (G.post bodies.now.statement) }
    requires looks { IsTable bodies.now.tokens.now looks.now }
    requires behind { bodies.now.from ≤ at.at }
    requires within { at.at ≤ length bodies.now.tokens.now }
    ensures { Advances spec.no_loop spec.no_loop_of bodies.now.tokens.now at result }
{
    match eat_sign(bodies.tokens, at, Sign::Prefix) {
        Some(_) => expression_over(bodies, looks, at),
        None => no_prefix(bodies, looks, at),
    }
}

/// A statement that declares nothing.
fn no_local<F, G>(
    bodies: &Bodies<'_, F, G>,
    looks: &[Look],
    at: Cursor,
) -> Result<(Expr, Cursor), Fail<usize>>
where
    F: Fn(Global, &[Token], Cursor) -> Result<(Expr, Cursor), Fail<usize>>,
    G: Fn(Global, &[Token], Cursor) -> Result<(Expr, Cursor), Fail<usize>>,
    requires expressions { ReadsExpression bodies.now.tokens.now bodies.now.from (F.pre bodies.now.expression) (F.post bodies.now.expression) }
    requires statements { ReadsStatement bodies.now.tokens.now bodies.now.from (G.pre bodies.now.statement) (G.post bodies.now.statement) }
    requires looks { IsTable bodies.now.tokens.now looks.now }
    requires behind { bodies.now.from ≤ at.at }
    requires within { at.at ≤ length bodies.now.tokens.now }
    ensures { Advances spec.no_local spec.no_local_of bodies.now.tokens.now at result }
{
    if begins_loop(bodies.tokens, at.at) {
        return loop_(bodies, at);
    }
    no_loop(bodies, looks, at)
}

/// A statement.
pub fn statement_over<F, G>(
    bodies: &Bodies<'_, F, G>,
    looks: &[Look],
    at: Cursor,
) -> Result<(Expr, Cursor), Fail<usize>>
where
    F: Fn(Global, &[Token], Cursor) -> Result<(Expr, Cursor), Fail<usize>>,
    G: Fn(Global, &[Token], Cursor) -> Result<(Expr, Cursor), Fail<usize>>,
    requires expressions { ReadsExpression bodies.now.tokens.now bodies.now.from (F.pre bodies.now.expression) (F.post bodies.now.expression) }
    requires statements { ReadsStatement bodies.now.tokens.now bodies.now.from (G.pre bodies.now.statement) (G.post bodies.now.statement) }
    requires looks { IsTable bodies.now.tokens.now looks.now }
    requires behind { bodies.now.from ≤ at.at }
    requires within { at.at ≤ length bodies.now.tokens.now }
    ensures { Advances (row rows.statement) built.statement_of bodies.now.tokens.now at result }
{
    if begins_local(bodies.tokens, at.at) {
        return local(bodies, at);
    }
    no_local(bodies, looks, at)
}
