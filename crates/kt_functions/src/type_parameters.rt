//! Type parameters (Kotlin Language Specification 1.9, "Declarations with type parameters").
ghost use Rattle.std.specs.Prelude.{◌≡◌, ◌≤◌, ◌++◌, length};
ghost use Rattle.grammars.specs.Grammar.{row};
ghost use Rattle.kt_functions.specs.TypeParameters as spec;
ghost use Rattle.kt_grammar.specs.DeclarationsBuilt as built;
ghost use Rattle.kt_grammar.specs.Parsed.{Advances};
ghost use Rattle.kt_grammar.specs.Rows as rows;

use crate::modifier_words::{begins_parameter, modifiers};
use kc_text::Fail;
use kc_tree::{Mod, Type, TypeParam, Word};
use kt_bodies::expect_name_on;
use kt_grammar::{Cursor, behind, colon_type, eat_op_on, expect_op_on, span_between};
use kt_lexer::{Operator, Token};
use sqlite_items::Items;
use std::alloc::Global;

/// What a type parameter holds.
#[derive(Drop)]
pub struct TypeParts {
    pub mods: Items<Mod>,
    pub name: Word,
    pub bound: Option<Type>,
}

/// A name, with its bound where one is written.
fn named(
    alloc: Global,
    tokens: &[Token],
    at: Cursor,
) -> Result<((Word, Option<Type>), Cursor), Fail<usize>>
    requires { at.at ≤ length tokens.now }
    ensures { Advances spec.named spec.named_of tokens.now at result }
{
    let (name, mid) = expect_name_on(tokens, at)?;
    let (bound, end) = behind(mid.looked, colon_type(alloc, tokens, mid.at))?;
    Ok(((name, bound), end))
}

/// Modifiers, a name and perhaps a bound.
fn parts(alloc: Global, tokens: &[Token], at: Cursor) -> Result<(TypeParts, Cursor), Fail<usize>>
    requires { at.at ≤ length tokens.now }
    ensures { Advances spec.parts spec.parts_of tokens.now at result }
{
    let (mods, mid) = modifiers(alloc, tokens, at)?;
    let ((name, bound), end) = named(alloc, tokens, mid)?;
    Ok((TypeParts { mods, name, bound }, end))
}

/// A type parameter, which goes to the list's end.
fn type_parameter(
    alloc: Global,
    tokens: &[Token],
    before: Items<TypeParam>,
    at: Cursor,
) -> Result<(Items<TypeParam>, Cursor), Fail<usize>>
    requires { at.at ≤ length tokens.now }
    ensures { Advances (row rows.type_parameter) (λ x. before ++ built.type_parameter_of x) tokens.now at result }
{
    let (parts, end) = parts(alloc, tokens, at)?;
    let span = span_between(tokens, at.at, end.at);
    let TypeParts { mods, name, bound } = parts;
    let mut all = before;
    all.push(TypeParam {
        span,
        mods,
        name,
        bound,
    })?;
    Ok((all, end))
}

/// Type parameters behind a first one, each behind a comma, which go to the list's end. A comma may stand behind the last.
fn further(
    alloc: Global,
    tokens: &[Token],
    before: Items<TypeParam>,
    at: Cursor,
) -> Result<(Items<TypeParam>, Cursor), Fail<usize>>
    requires { at.at ≤ length tokens.now }
    ensures { Advances (row rows.more_type_parameters) (λ x. before ++ built.more_type_parameters_of x) tokens.now at result }
{
    let mut all = before;
    let mut at = at;
    while let Some(next) = eat_op_on(tokens, at, Operator::Comma) {
        if !begins_parameter(tokens, next.at) {
            return Ok((all, next));
        }
        let (found, end) = type_parameter(alloc, tokens, all, next)?;
        all = found;
        at = end;
    }
    Ok((all, at))
}

/// Type parameters with commas between them, one at least, and the `>` behind them.
fn to_greater(
    alloc: Global,
    tokens: &[Token],
    at: Cursor,
) -> Result<(Items<TypeParam>, Cursor), Fail<usize>>
    requires { at.at ≤ length tokens.now }
    ensures { Advances spec.to_greater spec.before_greater tokens.now at result }
{
    let none = Items::new(alloc);
    let (one, mid) = type_parameter(alloc, tokens, none, at)?;
    let (all, next) = further(alloc, tokens, one, mid)?;
    let end = expect_op_on(tokens, next, Operator::Greater)?;
    Ok((all, end))
}

/// The type parameters in `<` and `>`, where some are written.
///
/// # Errors
///
/// `Found` with the place of the first token with which none goes on, or the farthest one that a test has looked at.
pub fn parameters_of_type(
    alloc: Global,
    tokens: &[Token],
    at: Cursor,
) -> Result<(Items<TypeParam>, Cursor), Fail<usize>>
    requires { at.at ≤ length tokens.now }
    ensures { Advances rows.parameters_of_type built.parameters_of_type_of tokens.now at result }
{
    let Some(next) = eat_op_on(tokens, at, Operator::Less) else {
        return Ok((Items::new(alloc), at));
    };
    let (all, end) = to_greater(alloc, tokens, next)?;
    Ok((all, end))
}
