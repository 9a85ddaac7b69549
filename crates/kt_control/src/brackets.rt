//! Expressions in round brackets (Kotlin Language Specification 1.9, "Parenthesized expressions").
ghost use Rattle.std.specs.Prelude.{◌≤◌, length};
ghost use Rattle.grammars.specs.Grammar.{row};
ghost use Rattle.kt_control.specs.Conditionals as spec;
ghost use Rattle.kt_grammar.specs.Expressions.{ReadsExpression};
ghost use Rattle.kt_grammar.specs.Parsed.{Advances};
ghost use Rattle.kt_grammar.specs.Rows as rows;

use kc_text::Fail;
use kc_tree::Expr;
use kt_bodies::Bodies;
use kt_grammar::{Cursor, expect_op_on};
use kt_lexer::{Operator, Token};
use sqlite_items::Boxed;
use std::alloc::Global;

/// An expression in round brackets.
///
/// # Errors
///
/// `Found` with the place of the first token with which none goes on, or the farthest one that a test has looked at.
pub fn bracketed<F: Fn(Global, &[Token], Cursor) -> Result<(Expr, Cursor), Fail<usize>>, G>(
    bodies: &Bodies<'_, F, G>,
    at: Cursor,
) -> Result<(Expr, Cursor), Fail<usize>>
    requires expressions { ReadsExpression bodies.now.tokens.now bodies.now.from (F.pre bodies.now.expression) (F.post bodies.now.expression) }
    requires behind { bodies.now.from ≤ at.at }
    requires within { at.at ≤ length bodies.now.tokens.now }
    ensures { Advances (rows.in_brackets (row rows.expression)) spec.bracketed_of bodies.now.tokens.now at result }
{
    let next = expect_op_on(bodies.tokens, at, Operator::OpenRound)?;
    let (found, mid) = bodies.expression_at(next)?;
    let end = expect_op_on(bodies.tokens, mid, Operator::CloseRound)?;
    Ok((found, end))
}

/// The same, on the heap.
pub fn boxed_bracketed<F: Fn(Global, &[Token], Cursor) -> Result<(Expr, Cursor), Fail<usize>>, G>(
    bodies: &Bodies<'_, F, G>,
    at: Cursor,
) -> Result<(Boxed<Expr>, Cursor), Fail<usize>>
    requires expressions { ReadsExpression bodies.now.tokens.now bodies.now.from (F.pre bodies.now.expression) (F.post bodies.now.expression) }
    requires behind { bodies.now.from ≤ at.at }
    requires within { at.at ≤ length bodies.now.tokens.now }
    ensures { Advances (rows.in_brackets (row rows.expression)) spec.bracketed_of bodies.now.tokens.now at result }
{
    let (found, end) = bracketed(bodies, at)?;
    let kept = Boxed::new(bodies.alloc, found)?;
    Ok((kept, end))
}
