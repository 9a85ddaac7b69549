//! `when` with its subject (Kotlin Language Specification 1.9, "When expressions").
ghost use Rattle.std.specs.Prelude.{◌≤◌, length};
ghost use Rattle.grammars.specs.Grammar.{row};
ghost use Rattle.kt_bodies.specs.Statements.{ReadsStatement};
ghost use Rattle.kt_grammar.specs.Built as built;
ghost use Rattle.kt_grammar.specs.Expressions.{ReadsExpression};
ghost use Rattle.kt_grammar.specs.Parsed.{Advances};
ghost use Rattle.kt_grammar.specs.Rows as rows;
ghost use Rattle.kt_when.specs.Subjects as spec;

use crate::entries::branches;
use crate::nodes::when_of;
use kc_text::Fail;
use kc_tree::{Branch, Expr, LocalName};
use kt_bodies::{Bodies, Terminal, eat_on, expect_name_on, expect_on};
use kt_grammar::{Cursor, behind, colon_type, eat_op_on, expect_op_on, span_between};
use kt_lexer::{Keyword, Operator, Token};
use sqlite_items::{Boxed, Items};
use std::alloc::Global;

/// The subject of a `when`, or none.
#[derive(Drop)]
pub struct Subject {
    /// The variable that holds it.
    pub bound: Option<LocalName>,
    pub value: Option<Boxed<Expr>>,
}

/// A name, with its type if one is written.
fn typed_name(
    alloc: Global,
    tokens: &[Token],
    at: Cursor,
) -> Result<(LocalName, Cursor), Fail<usize>>
    requires { at.at ≤ length tokens.now }
    ensures { Advances (row rows.typed_name) spec.typed_name tokens.now at result }
{
    let (name, mid) = expect_name_on(tokens, at)?;
    let (ty, end) = behind(mid.looked, colon_type(alloc, tokens, mid.at))?;
    Ok((LocalName { name, ty }, end))
}

/// The variable that holds the subject, with `=`.
fn variable(alloc: Global, tokens: &[Token], at: Cursor) -> Result<(LocalName, Cursor), Fail<usize>>
    requires { at.at ≤ length tokens.now }
    ensures { Advances spec.variable spec.variable_of tokens.now at result }
{
    let (name, mid) = typed_name(alloc, tokens, at)?;
    let end = expect_op_on(tokens, mid, Operator::Assign)?;
    Ok((name, end))
}

/// `val` with the variable that holds the subject, or nothing.
fn bound(
    alloc: Global,
    tokens: &[Token],
    at: Cursor,
) -> Result<(Option<LocalName>, Cursor), Fail<usize>>
    requires { at.at ≤ length tokens.now }
    ensures { Advances spec.bound built.bound_of tokens.now at result }
{
    let Some(next) = eat_on(tokens, at, Terminal::Word(Keyword::Val)) else {
        return Ok((None, at));
    };
    let (name, end) = variable(alloc, tokens, next)?;
    Ok((Some(name), end))
}

/// An expression in an allocation of its own.
fn boxed<F: Fn(Global, &[Token], Cursor) -> Result<(Expr, Cursor), Fail<usize>>, G>(
    bodies: &Bodies<'_, F, G>,
    at: Cursor,
) -> Result<(Boxed<Expr>, Cursor), Fail<usize>>
    requires expressions { ReadsExpression bodies.now.tokens.now bodies.now.from (F.pre bodies.now.expression) (F.post bodies.now.expression) }
    requires behind { bodies.now.from ≤ at.at }
    requires within { at.at ≤ length bodies.now.tokens.now }
    ensures { Advances (row rows.expression) built.expression_of bodies.now.tokens.now at result }
{
    let (value, end) = bodies.expression_at(at)?;
    let value = Boxed::new(bodies.alloc, value)?;
    Ok((value, end))
}

/// What stands in the brackets of a `when`.
fn in_brackets<F: Fn(Global, &[Token], Cursor) -> Result<(Expr, Cursor), Fail<usize>>, G>(
    bodies: &Bodies<'_, F, G>,
    at: Cursor,
) -> Result<(Subject, Cursor), Fail<usize>>
    requires expressions { ReadsExpression bodies.now.tokens.now bodies.now.from (F.pre bodies.now.expression) (F.post bodies.now.expression) }
    requires behind { bodies.now.from ≤ at.at }
    requires within { at.at ≤ length bodies.now.tokens.now }
    ensures { Advances spec.in_brackets spec.in_brackets_of bodies.now.tokens.now at result }
{
    let (bound, mid) = bound(bodies.alloc, bodies.tokens, at)?;
    let (value, end) = boxed(bodies, mid)?;
    let subject = Subject {
        bound,
        value: Some(value),
    };
    Ok((subject, end))
}

/// The subject in brackets, or nothing.
fn subject_at<F: Fn(Global, &[Token], Cursor) -> Result<(Expr, Cursor), Fail<usize>>, G>(
    bodies: &Bodies<'_, F, G>,
    at: Cursor,
) -> Result<(Subject, Cursor), Fail<usize>>
    requires expressions { ReadsExpression bodies.now.tokens.now bodies.now.from (F.pre bodies.now.expression) (F.post bodies.now.expression) }
    requires behind { bodies.now.from ≤ at.at }
    requires within { at.at ≤ length bodies.now.tokens.now }
    ensures { Advances spec.subject spec.subject_of bodies.now.tokens.now at result }
{
    let Some(next) = eat_op_on(bodies.tokens, at, Operator::OpenRound) else {
        let none = Subject {
            bound: None,
            value: None,
        };
        return Ok((none, at));
    };
    let (found, mid) = in_brackets(bodies, next)?;
    let end = expect_op_on(bodies.tokens, mid, Operator::CloseRound)?;
    Ok((found, end))
}

/// The branches in their braces.
fn in_braces<
    F: Fn(Global, &[Token], Cursor) -> Result<(Expr, Cursor), Fail<usize>>,
    G: Fn(Global, &[Token], Cursor) -> Result<(Expr, Cursor), Fail<usize>>,
>(bodies: &Bodies<'_, F, G>, at: Cursor) -> Result<(Items<Branch>, Cursor), Fail<usize>>
    requires expressions { ReadsExpression bodies.now.tokens.now bodies.now.from (F.pre bodies.now.expression) (F.post bodies.now.expression) }
    requires statements { ReadsStatement bodies.now.tokens.now bodies.now.from (G.pre bodies.now.statement) (G.post bodies.now.statement) }
    requires behind { bodies.now.from ≤ at.at }
    requires within { at.at ≤ length bodies.now.tokens.now }
    ensures { Advances spec.in_braces spec.in_braces_of bodies.now.tokens.now at result }
{
    let next = expect_op_on(bodies.tokens, at, Operator::OpenBrace)?;
    let (all, mid) = branches(bodies, next)?;
    let end = expect_op_on(bodies.tokens, mid, Operator::CloseBrace)?;
    Ok((all, end))
}

/// A `when`.
///
/// # Errors
///
/// `Found` with the place of the first token with which none goes on, or the farthest one that a test has looked at.
pub fn when_<
    F: Fn(Global, &[Token], Cursor) -> Result<(Expr, Cursor), Fail<usize>>,
    G: Fn(Global, &[Token], Cursor) -> Result<(Expr, Cursor), Fail<usize>>,
>(bodies: &Bodies<'_, F, G>, at: Cursor) -> Result<(Expr, Cursor), Fail<usize>>
    requires expressions { ReadsExpression bodies.now.tokens.now bodies.now.from (F.pre bodies.now.expression) (F.post bodies.now.expression) }
    requires statements { ReadsStatement bodies.now.tokens.now bodies.now.from (G.pre bodies.now.statement) (G.post bodies.now.statement) }
    requires behind { bodies.now.from ≤ at.at }
    requires within { at.at ≤ length bodies.now.tokens.now }
    ensures { Advances (row rows.when_) built.when_of bodies.now.tokens.now at result }
{
    let next = expect_on(bodies.tokens, at, Terminal::Word(Keyword::When))?;
    let (subject, mid) = subject_at(bodies, next)?;
    let (branches, end) = in_braces(bodies, mid)?;
    let span = span_between(bodies.tokens, at.at, end.at);
    Ok((when_of(span, subject, branches), end))
}
