//! Parameters of functions (Kotlin Language Specification 1.9, "Function declaration").
ghost use Rattle.std.specs.Prelude.{◌≡◌, ◌≤◌, ◌++◌, length};
ghost use Rattle.grammars.specs.Grammar.{row};
ghost use Rattle.kt_functions.specs.Parameters as spec;
ghost use Rattle.kt_grammar.specs.DeclarationsBuilt as built;
ghost use Rattle.kt_grammar.specs.Parsed.{Advances};
ghost use Rattle.kt_grammar.specs.Rows as rows;
ghost use Rattle.kt_suffixes.specs.Suffixes.{IsTable};

use crate::modifier_words::{begins_parameter, modifiers};
use crate::values::default_value;
use kc_text::Fail;
use kc_tree::{Expr, Mod, Param, Type, Word};
use kt_bodies::expect_name_on;
use kt_grammar::{Cursor, Look, behind, eat_op_on, expect_op_on, span_between, type_at};
use kt_lexer::{Operator, Token};
use sqlite_items::Items;
use std::alloc::Global;

/// A parameter without its modifiers.
#[derive(Drop)]
pub struct TypedName {
    pub name: Word,
    pub ty: Type,
    pub default: Option<Expr>,
}

/// What a parameter holds.
#[derive(Drop)]
pub struct ParamParts {
    pub mods: Items<Mod>,
    pub typed: TypedName,
}

/// A type, with a default value where one is written.
///
/// # Errors
///
/// `Found` with the place of the first token with which none goes on, or the farthest one that a test has looked at.
pub fn typed_value(
    alloc: Global,
    tokens: &[Token],
    looks: &[Look],
    at: Cursor,
) -> Result<((Type, Option<Expr>), Cursor), Fail<usize>>
    requires looks { IsTable tokens.now looks.now }
    requires within { at.at ≤ length tokens.now }
    ensures { Advances spec.typed_value spec.typed_value_of tokens.now at result }
{
    let (ty, mid) = behind(at.looked, type_at(alloc, tokens, at.at))?;
    let (value, end) = default_value(alloc, tokens, looks, mid)?;
    Ok(((ty, value), end))
}

/// A name with a type, and a default value where one is written.
fn typed(
    alloc: Global,
    tokens: &[Token],
    looks: &[Look],
    at: Cursor,
) -> Result<(TypedName, Cursor), Fail<usize>>
    requires looks { IsTable tokens.now looks.now }
    requires within { at.at ≤ length tokens.now }
    ensures { Advances spec.typed spec.typed_of tokens.now at result }
{
    let (name, mid) = expect_name_on(tokens, at)?;
    let next = expect_op_on(tokens, mid, Operator::Colon)?;
    let ((ty, default), end) = typed_value(alloc, tokens, looks, next)?;
    Ok((TypedName { name, ty, default }, end))
}

/// Modifiers, and a name with a type and perhaps a default value.
fn parts(
    alloc: Global,
    tokens: &[Token],
    looks: &[Look],
    at: Cursor,
) -> Result<(ParamParts, Cursor), Fail<usize>>
    requires looks { IsTable tokens.now looks.now }
    requires within { at.at ≤ length tokens.now }
    ensures { Advances spec.parts spec.parts_of tokens.now at result }
{
    let (mods, mid) = modifiers(alloc, tokens, at)?;
    let (typed, end) = typed(alloc, tokens, looks, mid)?;
    Ok((ParamParts { mods, typed }, end))
}

/// A parameter, which goes to the list's end.
fn function_parameter(
    alloc: Global,
    tokens: &[Token],
    looks: &[Look],
    before: Items<Param>,
    at: Cursor,
) -> Result<(Items<Param>, Cursor), Fail<usize>>
    requires looks { IsTable tokens.now looks.now }
    requires within { at.at ≤ length tokens.now }
    ensures { Advances (row rows.function_parameter) (λ x. before ++ built.function_parameter_of x) tokens.now at result }
{
    let (parts, end) = parts(alloc, tokens, looks, at)?;
    let span = span_between(tokens, at.at, end.at);
    let ParamParts { mods, typed } = parts;
    let TypedName { name, ty, default } = typed;
    let mut all = before;
    all.push(Param {
        span,
        mods,
        name,
        ty,
        default,
    })?;
    Ok((all, end))
}

/// Parameters with commas between them, which go to the list's end. There may be none, and a comma behind the last.
pub fn function_parameters(
    alloc: Global,
    tokens: &[Token],
    looks: &[Look],
    before: Items<Param>,
    at: Cursor,
) -> Result<(Items<Param>, Cursor), Fail<usize>>
    requires looks { IsTable tokens.now looks.now }
    requires within { at.at ≤ length tokens.now }
    ensures { Advances (row rows.function_parameters) (λ x. before ++ built.function_parameters_of x) tokens.now at result }
{
    let mut all = before;
    let mut at = at;
    while begins_parameter(tokens, at.at) {
        let (found, end) = function_parameter(alloc, tokens, looks, all, at)?;
        let Some(next) = eat_op_on(tokens, end, Operator::Comma) else {
            return Ok((found, end));
        };
        all = found;
        at = next;
    }
    Ok((all, at))
}

/// The parameters of a function in their brackets.
pub fn bracketed_parameters(
    alloc: Global,
    tokens: &[Token],
    looks: &[Look],
    at: Cursor,
) -> Result<(Items<Param>, Cursor), Fail<usize>>
    requires looks { IsTable tokens.now looks.now }
    requires within { at.at ≤ length tokens.now }
    ensures { Advances spec.bracketed spec.bracketed_of tokens.now at result }
{
    let next = expect_op_on(tokens, at, Operator::OpenRound)?;
    let none = Items::new(alloc);
    let (all, mid) = function_parameters(alloc, tokens, looks, none, next)?;
    let end = expect_op_on(tokens, mid, Operator::CloseRound)?;
    Ok((all, end))
}
