//! Declarations of local variables (Kotlin Language Specification 1.9, "Local property declaration").
ghost use Rattle.std.specs.Prelude.{◌≡◌, ◌≤◌, ◌++◌, IfOk, length};
ghost use Rattle.grammars.specs.Grammar.{row};
ghost use Rattle.kt_control.specs.Locals as spec;
ghost use Rattle.kt_grammar.specs.Built as built;
ghost use Rattle.kt_grammar.specs.Expressions.{ReadsExpression};
ghost use Rattle.kt_grammar.specs.Parsed.{Advances};
ghost use Rattle.kt_grammar.specs.Rows as rows;

use crate::nodes::{across, local_node, span_of};
use crate::words::expect_local;
use kc_text::Fail;
use kc_tree::{Expr, LocalName, Span, Type, Word};
use kt_bodies::{Bodies, expect_name_on};
use kt_grammar::{
    Cursor, behind, eat_op_on, expect_op_on, is_op_at, names, span_between, type_at, typed_name,
};
use kt_lexer::{Operator, Token};
use sqlite_items::{Boxed, Items};
use std::alloc::{AllocError, Global};

/// What stands behind `val` or `var`.
#[derive(Drop)]
pub struct Declared {
    pub names: Items<LocalName>,
    /// Whether the names stand in brackets.
    pub brackets: bool,
    pub value: Option<Boxed<Expr>>,
    /// Where the last part stands: the value, or the type where there is none.
    pub last: Span,
}

/// A list of one name.
pub fn only_name(
    alloc: Global,
    name: Word,
    ty: Option<Type>,
) -> Result<Items<LocalName>, AllocError>
    ensures { IfOk result (λ names. names ≡ spec.only_one name ty) }
{
    let mut all = Items::new(alloc);
    all.push(LocalName { name, ty })?;
    Ok(all)
}

/// `=` and a value.
fn value_at<F: Fn(Global, &[Token], Cursor) -> Result<(Expr, Cursor), Fail<usize>>, G>(
    bodies: &Bodies<'_, F, G>,
    at: Cursor,
) -> Result<(Boxed<Expr>, Cursor), Fail<usize>>
    requires expressions { ReadsExpression bodies.now.tokens.now bodies.now.from (F.pre bodies.now.expression) (F.post bodies.now.expression) }
    requires behind { bodies.now.from ≤ at.at }
    requires within { at.at ≤ length bodies.now.tokens.now }
    ensures { Advances rows.value spec.value_of bodies.now.tokens.now at result }
{
    let next = expect_op_on(bodies.tokens, at, Operator::Assign)?;
    let (found, end) = bodies.expression_at(next)?;
    let kept = Boxed::new(bodies.alloc, found)?;
    Ok((kept, end))
}

/// `=` and the value of the names.
fn with_value<F: Fn(Global, &[Token], Cursor) -> Result<(Expr, Cursor), Fail<usize>>, G>(
    bodies: &Bodies<'_, F, G>,
    names: Items<LocalName>,
    brackets: bool,
    at: Cursor,
) -> Result<(Declared, Cursor), Fail<usize>>
    requires expressions { ReadsExpression bodies.now.tokens.now bodies.now.from (F.pre bodies.now.expression) (F.post bodies.now.expression) }
    requires behind { bodies.now.from ≤ at.at }
    requires within { at.at ≤ length bodies.now.tokens.now }
    ensures { Advances rows.value (λ x. spec.valued names brackets (spec.value_of x)) bodies.now.tokens.now at result }
{
    let (value, end) = value_at(bodies, at)?;
    let last = span_of(&value);
    let declared = Declared {
        names,
        brackets,
        value: Some(value),
        last,
    };
    Ok((declared, end))
}

/// The names behind the first in brackets, which go to the list's end.
fn more_names(
    alloc: Global,
    tokens: &[Token],
    before: Items<LocalName>,
    at: Cursor,
) -> Result<(Items<LocalName>, Cursor), Fail<usize>>
    requires { at.at ≤ length tokens.now }
    ensures { Advances spec.more_names (λ x. before ++ built.names_behind x) tokens.now at result }
{
    let Some(next) = eat_op_on(tokens, at, Operator::Comma) else {
        return Ok((before, at));
    };
    let (all, end) = behind(next.looked, names(alloc, tokens, before, next.at))?;
    Ok((all, end))
}

/// Names with commas between them, one at least, each with its type if one is written.
fn named(
    alloc: Global,
    tokens: &[Token],
    at: Cursor,
) -> Result<(Items<LocalName>, Cursor), Fail<usize>>
    requires { at.at ≤ length tokens.now }
    ensures { Advances spec.named spec.named_of tokens.now at result }
{
    let none = Items::new(alloc);
    let (first, mid) = behind(at.looked, typed_name(alloc, tokens, none, at.at))?;
    let (all, end) = more_names(alloc, tokens, first, mid)?;
    Ok((all, end))
}

/// Such names in brackets.
fn listed(
    alloc: Global,
    tokens: &[Token],
    at: Cursor,
) -> Result<(Items<LocalName>, Cursor), Fail<usize>>
    requires { at.at ≤ length tokens.now }
    ensures { Advances spec.listed spec.listed_of tokens.now at result }
{
    let next = expect_op_on(tokens, at, Operator::OpenRound)?;
    let (all, mid) = named(alloc, tokens, next)?;
    let end = expect_op_on(tokens, mid, Operator::CloseRound)?;
    Ok((all, end))
}

/// Names in brackets with their value.
fn in_round<F: Fn(Global, &[Token], Cursor) -> Result<(Expr, Cursor), Fail<usize>>, G>(
    bodies: &Bodies<'_, F, G>,
    at: Cursor,
) -> Result<(Declared, Cursor), Fail<usize>>
    requires expressions { ReadsExpression bodies.now.tokens.now bodies.now.from (F.pre bodies.now.expression) (F.post bodies.now.expression) }
    requires behind { bodies.now.from ≤ at.at }
    requires within { at.at ≤ length bodies.now.tokens.now }
    ensures { Advances spec.in_round spec.in_round_of bodies.now.tokens.now at result }
{
    let (all, mid) = listed(bodies.alloc, bodies.tokens, at)?;
    with_value(bodies, all, true, mid)
}

/// What stands behind a name and its type, which stands at `place`: a value, or nothing.
fn type_end<F: Fn(Global, &[Token], Cursor) -> Result<(Expr, Cursor), Fail<usize>>, G>(
    bodies: &Bodies<'_, F, G>,
    name: Word,
    ty: Type,
    place: Span,
    at: Cursor,
) -> Result<(Declared, Cursor), Fail<usize>>
    requires expressions { ReadsExpression bodies.now.tokens.now bodies.now.from (F.pre bodies.now.expression) (F.post bodies.now.expression) }
    requires behind { bodies.now.from ≤ at.at }
    requires within { at.at ≤ length bodies.now.tokens.now }
    ensures { Advances spec.type_end (spec.type_end_of name ty place) bodies.now.tokens.now at result }
{
    let all = only_name(bodies.alloc, name, Some(ty))?;
    if is_op_at(bodies.tokens, at.at, Operator::Assign) {
        return with_value(bodies, all, false, at);
    }
    let declared = Declared {
        names: all,
        brackets: false,
        value: None,
        last: place,
    };
    Ok((declared, at))
}

/// `:`, the type of a name, and perhaps its value.
fn with_type<F: Fn(Global, &[Token], Cursor) -> Result<(Expr, Cursor), Fail<usize>>, G>(
    bodies: &Bodies<'_, F, G>,
    name: Word,
    at: Cursor,
) -> Result<(Declared, Cursor), Fail<usize>>
    requires expressions { ReadsExpression bodies.now.tokens.now bodies.now.from (F.pre bodies.now.expression) (F.post bodies.now.expression) }
    requires behind { bodies.now.from ≤ at.at }
    requires within { at.at ≤ length bodies.now.tokens.now }
    ensures { Advances spec.with_type (spec.with_type_of name) bodies.now.tokens.now at result }
{
    let next = expect_op_on(bodies.tokens, at, Operator::Colon)?;
    let (ty, mid) = behind(next.looked, type_at(bodies.alloc, bodies.tokens, next.at))?;
    let place = span_between(bodies.tokens, next.at, mid.at);
    type_end(bodies, name, ty, place, mid)
}

/// One name with its type, its value, or both.
fn one_name<F: Fn(Global, &[Token], Cursor) -> Result<(Expr, Cursor), Fail<usize>>, G>(
    bodies: &Bodies<'_, F, G>,
    at: Cursor,
) -> Result<(Declared, Cursor), Fail<usize>>
    requires expressions { ReadsExpression bodies.now.tokens.now bodies.now.from (F.pre bodies.now.expression) (F.post bodies.now.expression) }
    requires behind { bodies.now.from ≤ at.at }
    requires within { at.at ≤ length bodies.now.tokens.now }
    ensures { Advances spec.one_name spec.one_name_of bodies.now.tokens.now at result }
{
    let (name, mid) = expect_name_on(bodies.tokens, at)?;
    if is_op_at(bodies.tokens, mid.at, Operator::Colon) {
        return with_type(bodies, name, mid);
    }
    let all = only_name(bodies.alloc, name, None)?;
    with_value(bodies, all, false, mid)
}

/// All that stands behind `val` or `var`.
fn behind_word<F: Fn(Global, &[Token], Cursor) -> Result<(Expr, Cursor), Fail<usize>>, G>(
    bodies: &Bodies<'_, F, G>,
    at: Cursor,
) -> Result<(Declared, Cursor), Fail<usize>>
    requires expressions { ReadsExpression bodies.now.tokens.now bodies.now.from (F.pre bodies.now.expression) (F.post bodies.now.expression) }
    requires behind { bodies.now.from ≤ at.at }
    requires within { at.at ≤ length bodies.now.tokens.now }
    ensures { Advances spec.behind_word spec.declared_of bodies.now.tokens.now at result }
{
    if is_op_at(bodies.tokens, at.at, Operator::OpenRound) {
        return in_round(bodies, at);
    }
    one_name(bodies, at)
}

/// A declaration of local variables: names in brackets with their value, or one name with its type, its value, or both.
///
/// # Errors
///
/// `Found` with the place of the first token with which none goes on, or the farthest one that a test has looked at.
pub fn local<F: Fn(Global, &[Token], Cursor) -> Result<(Expr, Cursor), Fail<usize>>, G>(
    bodies: &Bodies<'_, F, G>,
    at: Cursor,
) -> Result<(Expr, Cursor), Fail<usize>>
    requires expressions { ReadsExpression bodies.now.tokens.now bodies.now.from (F.pre bodies.now.expression) (F.post bodies.now.expression) }
    requires behind { bodies.now.from ≤ at.at }
    requires within { at.at ≤ length bodies.now.tokens.now }
    ensures { Advances (row rows.local) built.local_of bodies.now.tokens.now at result }
{
    let next = expect_local(bodies.tokens, at)?;
    let (found, end) = behind_word(bodies, next)?;
    let span = across(bodies.tokens, at.at, found.last);
    Ok((local_node(bodies.tokens, at.at, span, found), end))
}
