//! The branches of a `when` (Kotlin Language Specification 1.9, "When expressions").
ghost use Rattle.std.specs.Prelude.{◌≤◌, ◌++◌, ◌∷◌, [], length, drop};
ghost use Rattle.grammars.specs.Grammar.{row, first};
ghost use Rattle.kt_bodies.specs.Statements.{ReadsStatement, Follows};
ghost use Rattle.kt_grammar.specs.Built as built;
ghost use Rattle.kt_grammar.specs.Expressions.{ReadsExpression};
ghost use Rattle.kt_grammar.specs.Parsed.{Advances};
ghost use Rattle.kt_grammar.specs.Rows as rows;
ghost use Rattle.kt_when.specs.Branches as spec;

use crate::beginnings::{begins_branch, begins_further_branch};
use crate::heads::head;
use kc_text::Fail;
use kc_tree::{Branch, Cond, Expr};
use kt_bodies::{Bodies, as_body, behind_semicolons};
use kt_grammar::{Cursor, eat_op_on, expect_op_on, span_between};
use kt_lexer::{Operator, Token};
use sqlite_items::Items;
use std::alloc::Global;

/// Whether a branch follows one that ends before the place, and where it begins.
fn next_branch(tokens: &[Token], at: Cursor) -> (Cursor, bool)
    requires { at.at ≤ length tokens.now }
    ensures { Follows spec.begins_branch spec.begins_further_branch tokens.now at result.0 result.1 }
{
    let Some(next) = eat_op_on(tokens, at, Operator::Semicolon) else {
        return (at, begins_further_branch(tokens, at.at));
    };
    let end = behind_semicolons(tokens, next);
    (end, begins_branch(tokens, end.at))
}

/// The body of a branch that begins at `start` with the conditions. The branch goes to the list's end.
fn behind_arrow<F, G: Fn(Global, &[Token], Cursor) -> Result<(Expr, Cursor), Fail<usize>>>(
    bodies: &Bodies<'_, F, G>,
    before: Items<Branch>,
    start: usize,
    conds: Items<Cond>,
    at: Cursor,
) -> Result<(Items<Branch>, Cursor), Fail<usize>>
    requires statements { ReadsStatement bodies.now.tokens.now bodies.now.from (G.pre bodies.now.statement) (G.post bodies.now.statement) }
    requires behind { bodies.now.from ≤ at.at }
    requires within { at.at ≤ length bodies.now.tokens.now }
    ensures { Advances (row rows.statement) (λ x. before ++ spec.branch (first (drop start bodies.now.tokens.now)) conds x ∷ []) bodies.now.tokens.now at result }
{
    let (body, end) = bodies.statement_at(at)?;
    let body = as_body(body);
    let span = span_between(bodies.tokens, start, end.at);
    let mut all = before;
    all.push(Branch { span, conds, body })?;
    Ok((all, end))
}

/// The arrow and the body of such a branch, which goes to the list's end.
fn behind_head<F, G: Fn(Global, &[Token], Cursor) -> Result<(Expr, Cursor), Fail<usize>>>(
    bodies: &Bodies<'_, F, G>,
    before: Items<Branch>,
    start: usize,
    conds: Items<Cond>,
    at: Cursor,
) -> Result<(Items<Branch>, Cursor), Fail<usize>>
    requires statements { ReadsStatement bodies.now.tokens.now bodies.now.from (G.pre bodies.now.statement) (G.post bodies.now.statement) }
    requires behind { bodies.now.from ≤ at.at }
    requires within { at.at ≤ length bodies.now.tokens.now }
    ensures { Advances spec.arrow_and_body (λ x. before ++ spec.behind_head (first (drop start bodies.now.tokens.now)) conds x ∷ []) bodies.now.tokens.now at result }
{
    let next = expect_op_on(bodies.tokens, at, Operator::Arrow)?;
    behind_arrow(bodies, before, start, conds, next)
}

/// A branch, which goes to the list's end.
///
/// # Errors
///
/// `Found` with the place of the first token with which none goes on, or the farthest one that a test has looked at.
pub fn branch<
    F: Fn(Global, &[Token], Cursor) -> Result<(Expr, Cursor), Fail<usize>>,
    G: Fn(Global, &[Token], Cursor) -> Result<(Expr, Cursor), Fail<usize>>,
>(
    bodies: &Bodies<'_, F, G>,
    before: Items<Branch>,
    at: Cursor,
) -> Result<(Items<Branch>, Cursor), Fail<usize>>
    requires expressions { ReadsExpression bodies.now.tokens.now bodies.now.from (F.pre bodies.now.expression) (F.post bodies.now.expression) }
    requires statements { ReadsStatement bodies.now.tokens.now bodies.now.from (G.pre bodies.now.statement) (G.post bodies.now.statement) }
    requires behind { bodies.now.from ≤ at.at }
    requires within { at.at ≤ length bodies.now.tokens.now }
    ensures { Advances (row rows.branch) (λ x. before ++ built.branch_of x) bodies.now.tokens.now at result }
{
    let (conds, mid) = head(bodies, at)?;
    behind_head(bodies, before, at.at, conds, mid)
}

/// The branches behind one, which go to the list's end.
fn further_branches<
    F: Fn(Global, &[Token], Cursor) -> Result<(Expr, Cursor), Fail<usize>>,
    G: Fn(Global, &[Token], Cursor) -> Result<(Expr, Cursor), Fail<usize>>,
>(
    bodies: &Bodies<'_, F, G>,
    before: Items<Branch>,
    at: Cursor,
) -> Result<(Items<Branch>, Cursor), Fail<usize>>
    requires expressions { ReadsExpression bodies.now.tokens.now bodies.now.from (F.pre bodies.now.expression) (F.post bodies.now.expression) }
    requires statements { ReadsStatement bodies.now.tokens.now bodies.now.from (G.pre bodies.now.statement) (G.post bodies.now.statement) }
    requires behind { bodies.now.from ≤ at.at }
    requires within { at.at ≤ length bodies.now.tokens.now }
    ensures { Advances (row rows.after_branch) (λ x. before ++ built.branches_behind x) bodies.now.tokens.now at result }
{
    let mut all = before;
    let mut at = at;
    loop {
        let (next, goes_on) = next_branch(bodies.tokens, at);
        if !goes_on {
            return Ok((all, next));
        }
        let (found, end) = branch(bodies, all, next)?;
        all = found;
        at = end;
    }
}

/// Branches with a `;` or a line's end between them. There may be none, and `;` behind the last.
///
/// # Errors
///
/// `Found` with the place of the first token with which they do not go on, or the farthest one that a test has looked at.
pub fn branches<
    F: Fn(Global, &[Token], Cursor) -> Result<(Expr, Cursor), Fail<usize>>,
    G: Fn(Global, &[Token], Cursor) -> Result<(Expr, Cursor), Fail<usize>>,
>(bodies: &Bodies<'_, F, G>, at: Cursor) -> Result<(Items<Branch>, Cursor), Fail<usize>>
    requires expressions { ReadsExpression bodies.now.tokens.now bodies.now.from (F.pre bodies.now.expression) (F.post bodies.now.expression) }
    requires statements { ReadsStatement bodies.now.tokens.now bodies.now.from (G.pre bodies.now.statement) (G.post bodies.now.statement) }
    requires behind { bodies.now.from ≤ at.at }
    requires within { at.at ≤ length bodies.now.tokens.now }
    ensures { Advances (row rows.branches) built.branches_of bodies.now.tokens.now at result }
{
    let none = Items::new(bodies.alloc);
    if !begins_branch(bodies.tokens, at.at) {
        return Ok((none, at));
    }
    let (all, end) = branch(bodies, none, at)?;
    further_branches(bodies, all, end)
}
