//! `if` (Kotlin Language Specification 1.9, "Conditional expressions").
ghost use Rattle.std.specs.Prelude.{◌≤◌, length};
ghost use Rattle.grammars.specs.Grammar.{row};
ghost use Rattle.kt_bodies.specs.Statements.{ReadsStatement};
ghost use Rattle.kt_control.specs.Conditionals as spec;
ghost use Rattle.kt_grammar.specs.Built as built;
ghost use Rattle.kt_grammar.specs.Expressions.{ReadsExpression};
ghost use Rattle.kt_grammar.specs.Parsed.{Advances};
ghost use Rattle.kt_grammar.specs.Rows as rows;

use crate::brackets::boxed_bracketed;
use crate::looks::look_for_else;
use crate::nodes::{across, conditional_node, last_place};
use kc_text::Fail;
use kc_tree::Expr;
use kt_bodies::{Bodies, Terminal, as_body, expect_on};
use kt_grammar::{Cursor, eat_op_on};
use kt_lexer::{Keyword, Operator, Token};
use sqlite_items::Boxed;
use std::alloc::Global;

/// The bodies of an `if`.
#[derive(Drop)]
pub struct Arms {
    pub held: Boxed<Expr>,
    /// The body of `else`.
    pub failed: Option<Boxed<Expr>>,
}

/// A statement that stands as a body.
pub fn body<F, G: Fn(Global, &[Token], Cursor) -> Result<(Expr, Cursor), Fail<usize>>>(
    bodies: &Bodies<'_, F, G>,
    at: Cursor,
) -> Result<(Boxed<Expr>, Cursor), Fail<usize>>
    requires statements { ReadsStatement bodies.now.tokens.now bodies.now.from (G.pre bodies.now.statement) (G.post bodies.now.statement) }
    requires behind { bodies.now.from ≤ at.at }
    requires within { at.at ≤ length bodies.now.tokens.now }
    ensures { Advances (row rows.statement) spec.body_of bodies.now.tokens.now at result }
{
    let (found, end) = bodies.statement_at(at)?;
    let kept = Boxed::new(bodies.alloc, as_body(found))?;
    Ok((kept, end))
}

/// The place behind a `;`, where one stands at the place.
fn behind_semicolon(tokens: &[Token], at: Cursor) -> Cursor
    requires { at.at ≤ length tokens.now }
    ensures { spec.Passed spec.semicolon tokens.now at result }
{
    match eat_op_on(tokens, at, Operator::Semicolon) {
        Some(next) => next,
        None => at,
    }
}

/// `else` with its body. A `;` may stand before it.
fn else_body<F, G: Fn(Global, &[Token], Cursor) -> Result<(Expr, Cursor), Fail<usize>>>(
    bodies: &Bodies<'_, F, G>,
    at: Cursor,
) -> Result<(Boxed<Expr>, Cursor), Fail<usize>>
    requires statements { ReadsStatement bodies.now.tokens.now bodies.now.from (G.pre bodies.now.statement) (G.post bodies.now.statement) }
    requires behind { bodies.now.from ≤ at.at }
    requires within { at.at ≤ length bodies.now.tokens.now }
    ensures { Advances spec.else_part spec.else_of bodies.now.tokens.now at result }
{
    let mid = behind_semicolon(bodies.tokens, at);
    let next = expect_on(bodies.tokens, mid, Terminal::Word(Keyword::Else))?;
    let (found, end) = body(bodies, next)?;
    Ok((found, end))
}

/// `else` with its body, where they stand at the place.
fn maybe_else<F, G: Fn(Global, &[Token], Cursor) -> Result<(Expr, Cursor), Fail<usize>>>(
    bodies: &Bodies<'_, F, G>,
    at: Cursor,
) -> Result<(Option<Boxed<Expr>>, Cursor), Fail<usize>>
    requires statements { ReadsStatement bodies.now.tokens.now bodies.now.from (G.pre bodies.now.statement) (G.post bodies.now.statement) }
    requires behind { bodies.now.from ≤ at.at }
    requires within { at.at ≤ length bodies.now.tokens.now }
    ensures { Advances spec.maybe_else spec.failed_of bodies.now.tokens.now at result }
{
    let (holds, mid) = look_for_else(bodies.tokens, at);
    if !holds {
        return Ok((None, mid));
    }
    let (found, end) = else_body(bodies, mid)?;
    Ok((Some(found), end))
}

/// All that stands behind the condition of an `if`.
fn behind_test<F, G: Fn(Global, &[Token], Cursor) -> Result<(Expr, Cursor), Fail<usize>>>(
    bodies: &Bodies<'_, F, G>,
    at: Cursor,
) -> Result<(Arms, Cursor), Fail<usize>>
    requires statements { ReadsStatement bodies.now.tokens.now bodies.now.from (G.pre bodies.now.statement) (G.post bodies.now.statement) }
    requires behind { bodies.now.from ≤ at.at }
    requires within { at.at ≤ length bodies.now.tokens.now }
    ensures { Advances spec.behind_test spec.arms_of bodies.now.tokens.now at result }
{
    let (held, mid) = body(bodies, at)?;
    let (failed, end) = maybe_else(bodies, mid)?;
    Ok((Arms { held, failed }, end))
}

/// An `if`, with its `else` where one follows. Each `else` belongs to the innermost `if` that can take it.
///
/// # Errors
///
/// `Found` with the place of the first token with which none goes on, or the farthest one that a test has looked at.
pub fn conditional<
    F: Fn(Global, &[Token], Cursor) -> Result<(Expr, Cursor), Fail<usize>>,
    G: Fn(Global, &[Token], Cursor) -> Result<(Expr, Cursor), Fail<usize>>,
>(bodies: &Bodies<'_, F, G>, at: Cursor) -> Result<(Expr, Cursor), Fail<usize>>
    requires expressions { ReadsExpression bodies.now.tokens.now bodies.now.from (F.pre bodies.now.expression) (F.post bodies.now.expression) }
    requires statements { ReadsStatement bodies.now.tokens.now bodies.now.from (G.pre bodies.now.statement) (G.post bodies.now.statement) }
    requires behind { bodies.now.from ≤ at.at }
    requires within { at.at ≤ length bodies.now.tokens.now }
    ensures { Advances (row rows.conditional) built.conditional_of bodies.now.tokens.now at result }
{
    let next = expect_on(bodies.tokens, at, Terminal::Word(Keyword::If))?;
    let (test, mid) = boxed_bracketed(bodies, next)?;
    let (found, end) = behind_test(bodies, mid)?;
    let span = across(bodies.tokens, at.at, last_place(&found));
    Ok((conditional_node(span, test, found), end))
}
