//! Getters, with the setters behind them (Kotlin Language Specification 1.9, "Getters and setters").
ghost use Rattle.std.specs.Prelude.{◌≤◌, length, drop, Some};
ghost use Rattle.grammars.specs.Grammar.{row, first};
ghost use Rattle.kt_members.specs.Getters as spec;
ghost use Rattle.kt_grammar.specs.DeclarationsBuilt as built;
ghost use Rattle.kt_grammar.specs.Parsed.{Advances};
ghost use Rattle.kt_grammar.specs.Rows as rows;
ghost use Rattle.kt_suffixes.specs.Suffixes.{IsTable};

use crate::member_words::{MemberWord, expect_word};
use crate::setters::{setter_behind_block, setter_behind_value};
use kc_text::Fail;
use kc_tree::{FunBody, Getter, Setter, Type};
use kt_grammar::{Cursor, Look, behind, colon_type, expect_op_on, is_op_at, span_between};
use kt_lexer::{Operator, Token};
use kt_parser::{block_at, expression_at};
use std::alloc::Global;

/// A getter and perhaps a setter.
#[derive(Drop)]
pub struct AccessorPair {
    pub getter: Option<Getter>,
    pub setter: Option<Setter>,
}

/// What stands before the body of a getter: its word, brackets and perhaps its type.
fn getter_head(
    alloc: Global,
    tokens: &[Token],
    at: Cursor,
) -> Result<(Option<Type>, Cursor), Fail<usize>>
    requires { at.at ≤ length tokens.now }
    ensures { Advances (row rows.getter_head) spec.type_in_head tokens.now at result }
{
    let bracket = expect_word(tokens, at, MemberWord::Get)?;
    let close = expect_op_on(tokens, bracket, Operator::OpenRound)?;
    let end = expect_op_on(tokens, close, Operator::CloseRound)?;
    behind(end.looked, colon_type(alloc, tokens, end.at))
}

/// The body in braces of a getter that begins at `start`.
fn getter_in_braces(
    alloc: Global,
    tokens: &[Token],
    looks: &[Look],
    start: usize,
    ty: Option<Type>,
    at: Cursor,
) -> Result<(Getter, Cursor), Fail<usize>>
    requires looks { IsTable tokens.now looks.now }
    requires within { at.at ≤ length tokens.now }
    ensures { Advances (row rows.block) (spec.getter_in_braces (first (drop start tokens.now)) ty) tokens.now at result }
{
    let (statements, end) = block_at(alloc, tokens, looks, at)?;
    let span = span_between(tokens, start, end.at);
    let getter = Getter {
        span,
        ty,
        body: FunBody::Block(statements),
    };
    Ok((getter, end))
}

/// The value of a getter that begins at `start`.
fn getter_with_value(
    alloc: Global,
    tokens: &[Token],
    looks: &[Look],
    start: usize,
    ty: Option<Type>,
    at: Cursor,
) -> Result<(Getter, Cursor), Fail<usize>>
    requires looks { IsTable tokens.now looks.now }
    requires within { at.at ≤ length tokens.now }
    ensures { Advances rows.value (spec.getter_with_value (first (drop start tokens.now)) ty) tokens.now at result }
{
    let next = expect_op_on(tokens, at, Operator::Assign)?;
    let (value, end) = expression_at(alloc, tokens, looks, next)?;
    let span = span_between(tokens, start, end.at);
    let getter = Getter {
        span,
        ty,
        body: FunBody::Expr(value),
    };
    Ok((getter, end))
}

/// What may stand behind a getter in braces.
fn braces_and_setter(
    alloc: Global,
    tokens: &[Token],
    looks: &[Look],
    is_var: bool,
    getter: Getter,
    at: Cursor,
) -> Result<(AccessorPair, Cursor), Fail<usize>>
    requires looks { IsTable tokens.now looks.now }
    requires within { at.at ≤ length tokens.now }
    ensures { Advances (rows.setter_behind_block is_var) (λ x. record { getter = Some getter; setter = built.setter_behind_block_of x }) tokens.now at result }
{
    let (setter, end) = setter_behind_block(alloc, tokens, looks, is_var, at)?;
    let accessors = AccessorPair {
        getter: Some(getter),
        setter,
    };
    Ok((accessors, end))
}

/// What may stand behind a getter that is an expression.
fn value_and_setter(
    alloc: Global,
    tokens: &[Token],
    looks: &[Look],
    is_var: bool,
    getter: Getter,
    at: Cursor,
) -> Result<(AccessorPair, Cursor), Fail<usize>>
    requires looks { IsTable tokens.now looks.now }
    requires within { at.at ≤ length tokens.now }
    ensures { Advances (rows.setter_behind_value is_var) (λ x. record { getter = Some getter; setter = built.setter_behind_value_of x }) tokens.now at result }
{
    let (setter, end) = setter_behind_value(alloc, tokens, looks, is_var, at)?;
    let accessors = AccessorPair {
        getter: Some(getter),
        setter,
    };
    Ok((accessors, end))
}

/// All that stands behind the head of a getter that begins at `start`.
fn behind_head(
    alloc: Global,
    tokens: &[Token],
    looks: &[Look],
    is_var: bool,
    start: usize,
    ty: Option<Type>,
    at: Cursor,
) -> Result<(AccessorPair, Cursor), Fail<usize>>
    requires looks { IsTable tokens.now looks.now }
    requires within { at.at ≤ length tokens.now }
    ensures { Advances (spec.behind_head is_var) (spec.behind_head_of (first (drop start tokens.now)) ty) tokens.now at result }
{
    if is_op_at(tokens, at.at, Operator::OpenBrace) {
        let (getter, mid) = getter_in_braces(alloc, tokens, looks, start, ty, at)?;
        return braces_and_setter(alloc, tokens, looks, is_var, getter, mid);
    }
    let (getter, mid) = getter_with_value(alloc, tokens, looks, start, ty, at)?;
    value_and_setter(alloc, tokens, looks, is_var, getter, mid)
}

/// A getter and perhaps a setter, which a `var` has.
///
/// # Errors
///
/// `Found` with the place of the first token with which none go on, or the farthest one that a test has looked at. `Memory` where
/// memory is short.
pub fn accessors(
    alloc: Global,
    tokens: &[Token],
    looks: &[Look],
    is_var: bool,
    at: Cursor,
) -> Result<(AccessorPair, Cursor), Fail<usize>>
    requires looks { IsTable tokens.now looks.now }
    requires within { at.at ≤ length tokens.now }
    ensures { Advances (row (rows.accessors is_var)) spec.accessors_of tokens.now at result }
{
    let (ty, mid) = getter_head(alloc, tokens, at)?;
    behind_head(alloc, tokens, looks, is_var, at.at, ty, mid)
}
