//! What stands before the arrow of a branch (Kotlin Language Specification 1.9, "When expressions").
ghost use Rattle.std.specs.Prelude.{◌≤◌, ◌++◌, ◌∷◌, [], length};
ghost use Rattle.grammars.specs.Grammar.{row, node, right};
ghost use Rattle.kt_grammar.specs.Built as built;
ghost use Rattle.kt_grammar.specs.Expressions.{ReadsExpression};
ghost use Rattle.kt_grammar.specs.Parsed.{Advances};
ghost use Rattle.kt_grammar.specs.Rows as rows;
ghost use Rattle.kt_grammar.specs.TypesBuilt as types_built;
ghost use Rattle.kt_when.specs.Branches.{ReadsHead};
ghost use Rattle.kt_when.specs.Conditions as spec;

use crate::nodes::{contained, typed};
use crate::relations::{Relation, begins_condition, eat_relation};
use kc_text::Fail;
use kc_tree::{Cond, Expr};
use kt_bodies::{Bodies, Terminal, eat_on};
use kt_grammar::{Cursor, eat_op_on, span_between, type_before_arrow};
use kt_lexer::{Keyword, Operator, Token};
use sqlite_items::Items;
use std::alloc::Global;

/// What is behind the token `in` or `!in`. The condition goes to the list's end.
fn in_range<F: Fn(Global, &[Token], Cursor) -> Result<(Expr, Cursor), Fail<usize>>, G>(
    bodies: &Bodies<'_, F, G>,
    before: Items<Cond>,
    token: &Token,
    at: Cursor,
) -> Result<(Items<Cond>, Cursor), Fail<usize>>
    requires expressions { ReadsExpression bodies.now.tokens.now bodies.now.from (F.pre bodies.now.expression) (F.post bodies.now.expression) }
    requires behind { bodies.now.from ≤ at.at }
    requires within { at.at ≤ length bodies.now.tokens.now }
    ensures { Advances (row rows.expression) (λ x. before ++ spec.contained token.now (built.expression_of x) ∷ []) bodies.now.tokens.now at result }
{
    let (range, end) = bodies.expression_at(at)?;
    let mut all = before;
    all.push(contained(token, range))?;
    Ok((all, end))
}

/// What is behind the token `is` or `!is`. The condition goes to the list's end.
fn of_type(
    alloc: Global,
    tokens: &[Token],
    before: Items<Cond>,
    token: &Token,
    at: Cursor,
) -> Result<(Items<Cond>, Cursor), Fail<usize>>
    requires { at.at ≤ length tokens.now }
    ensures { Advances (row rows.type_before_arrow) (λ x. before ++ spec.typed token.now (types_built.type_of x) (types_built.span_of x) ∷ []) tokens.now at result }
{
    let (ty, end) = type_before_arrow(alloc, tokens, at)?;
    let span = span_between(tokens, at.at, end.at);
    let mut all = before;
    all.push(typed(token, ty, span))?;
    Ok((all, end))
}

/// A value as a condition, which goes to the list's end.
fn value<F: Fn(Global, &[Token], Cursor) -> Result<(Expr, Cursor), Fail<usize>>, G>(
    bodies: &Bodies<'_, F, G>,
    before: Items<Cond>,
    at: Cursor,
) -> Result<(Items<Cond>, Cursor), Fail<usize>>
    requires expressions { ReadsExpression bodies.now.tokens.now bodies.now.from (F.pre bodies.now.expression) (F.post bodies.now.expression) }
    requires behind { bodies.now.from ≤ at.at }
    requires within { at.at ≤ length bodies.now.tokens.now }
    ensures { Advances (row rows.expression) (λ x. before ++ spec.value (built.expression_of x) ∷ []) bodies.now.tokens.now at result }
{
    let (value, end) = bodies.expression_at(at)?;
    let mut all = before;
    all.push(Cond::Value(value))?;
    Ok((all, end))
}

/// A condition without `in`, which goes to the list's end.
fn without_in<F: Fn(Global, &[Token], Cursor) -> Result<(Expr, Cursor), Fail<usize>>, G>(
    bodies: &Bodies<'_, F, G>,
    before: Items<Cond>,
    at: Cursor,
) -> Result<(Items<Cond>, Cursor), Fail<usize>>
    requires expressions { ReadsExpression bodies.now.tokens.now bodies.now.from (F.pre bodies.now.expression) (F.post bodies.now.expression) }
    requires behind { bodies.now.from ≤ at.at }
    requires within { at.at ≤ length bodies.now.tokens.now }
    ensures { Advances spec.without_in (λ x. before ++ built.condition_of (node (right x))) bodies.now.tokens.now at result }
{
    match eat_relation(bodies.tokens, at, Relation::Is) {
        Some((token, next)) => of_type(bodies.alloc, bodies.tokens, before, token, next),
        None => value(bodies, before, at),
    }
}

/// A condition, which goes to the list's end: `in` with a value, `is` with a type, or a value.
///
/// # Errors
///
/// `Found` with the place of the first token with which none goes on, or the farthest one that a test has looked at.
pub fn condition<F: Fn(Global, &[Token], Cursor) -> Result<(Expr, Cursor), Fail<usize>>, G>(
    bodies: &Bodies<'_, F, G>,
    before: Items<Cond>,
    at: Cursor,
) -> Result<(Items<Cond>, Cursor), Fail<usize>>
    requires expressions { ReadsExpression bodies.now.tokens.now bodies.now.from (F.pre bodies.now.expression) (F.post bodies.now.expression) }
    requires behind { bodies.now.from ≤ at.at }
    requires within { at.at ≤ length bodies.now.tokens.now }
    ensures { Advances (row rows.condition) (λ x. before ++ built.condition_of x) bodies.now.tokens.now at result }
{
    match eat_relation(bodies.tokens, at, Relation::In) {
        Some((token, next)) => in_range(bodies, before, token, next),
        None => without_in(bodies, before, at),
    }
}

/// Conditions behind a first one, each behind a comma, which go to the list's end. A comma may stand behind the last.
fn further_conditions<F: Fn(Global, &[Token], Cursor) -> Result<(Expr, Cursor), Fail<usize>>, G>(
    bodies: &Bodies<'_, F, G>,
    before: Items<Cond>,
    at: Cursor,
) -> Result<(Items<Cond>, Cursor), Fail<usize>>
    requires expressions { ReadsExpression bodies.now.tokens.now bodies.now.from (F.pre bodies.now.expression) (F.post bodies.now.expression) }
    requires behind { bodies.now.from ≤ at.at }
    requires within { at.at ≤ length bodies.now.tokens.now }
    ensures { Advances (row rows.conditions) (λ x. before ++ built.conditions_of x) bodies.now.tokens.now at result }
{
    let mut all = before;
    let mut at = at;
    while let Some(next) = eat_op_on(bodies.tokens, at, Operator::Comma) {
        if !begins_condition(bodies.tokens, next.at) {
            return Ok((all, next));
        }
        let (found, end) = condition(bodies, all, next)?;
        all = found;
        at = end;
    }
    Ok((all, at))
}

/// Conditions with commas between them, one at least. A comma may stand behind the last.
///
/// # Errors
///
/// `Found` with the place of the first token with which they do not go on, or the farthest one that a test has looked at.
pub fn conditions<F: Fn(Global, &[Token], Cursor) -> Result<(Expr, Cursor), Fail<usize>>, G>(
    bodies: &Bodies<'_, F, G>,
    at: Cursor,
) -> Result<(Items<Cond>, Cursor), Fail<usize>>
    requires expressions { ReadsExpression bodies.now.tokens.now bodies.now.from (F.pre bodies.now.expression) (F.post bodies.now.expression) }
    requires behind { bodies.now.from ≤ at.at }
    requires within { at.at ≤ length bodies.now.tokens.now }
    ensures { spec.ReadsConditions bodies.now.tokens.now at result }
{
    let none = Items::new(bodies.alloc);
    let (one, mid) = condition(bodies, none, at)?;
    let (all, end) = further_conditions(bodies, one, mid)?;
    Ok((all, end))
}

/// What stands before the arrow of a branch: `else`, which is no condition, or conditions.
pub fn head<F: Fn(Global, &[Token], Cursor) -> Result<(Expr, Cursor), Fail<usize>>, G>(
    bodies: &Bodies<'_, F, G>,
    at: Cursor,
) -> Result<(Items<Cond>, Cursor), Fail<usize>>
    requires expressions { ReadsExpression bodies.now.tokens.now bodies.now.from (F.pre bodies.now.expression) (F.post bodies.now.expression) }
    requires behind { bodies.now.from ≤ at.at }
    requires within { at.at ≤ length bodies.now.tokens.now }
    ensures { ReadsHead bodies.now.tokens.now at result }
{
    let Some(next) = eat_on(bodies.tokens, at, Terminal::Word(Keyword::Else)) else {
        return conditions(bodies, at);
    };
    let none = Items::new(bodies.alloc);
    Ok((none, next))
}
