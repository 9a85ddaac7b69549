//! Names that are declared, with the types behind them.
ghost use Rattle.std.specs.Prelude.{◌≡◌, ◌≤◌, ◌++◌, length};
ghost use Rattle.grammars.specs.Grammar.{row};
ghost use Rattle.kt_grammar.specs.Built as built;
ghost use Rattle.kt_grammar.specs.Parsed.{Parses};
ghost use Rattle.kt_grammar.specs.Rows as rows;

use crate::tokens::{eat_op, expect_name, is_name_at};
use crate::types::type_at;
use kc_text::Fail;
use kc_tree::{LocalName, Type};
use kt_lexer::{Operator, Token};
use sqlite_items::Items;
use std::alloc::Global;

/// `:` and a type, or nothing.
pub fn colon_type(
    alloc: Global,
    tokens: &[Token],
    at: usize,
) -> Result<(Option<Type>, usize), Fail<usize>>
    requires { at ≤ length tokens.now }
    ensures { Parses rows.colon_type built.written_type tokens.now at result }
{
    let Some(next) = eat_op(tokens, at, Operator::Colon) else {
        return Ok((None, at));
    };
    let (ty, end) = type_at(alloc, tokens, next)?;
    Ok((Some(ty), end))
}

/// A name, which goes to the list's end, with its type if one is written.
pub fn typed_name(
    alloc: Global,
    tokens: &[Token],
    before: Items<LocalName>,
    at: usize,
) -> Result<(Items<LocalName>, usize), Fail<usize>>
    requires { at ≤ length tokens.now }
    ensures { Parses (row rows.typed_name) (λ x. before ++ built.typed_name_of x) tokens.now at result }
{
    let (name, end) = expect_name(tokens, at)?;
    let (ty, end) = colon_type(alloc, tokens, end)?;
    let mut all = before;
    all.push(LocalName { name, ty })?;
    Ok((all, end))
}

/// Names with commas between them, which go to the list's end, each with its type if one is written.
pub fn names(
    alloc: Global,
    tokens: &[Token],
    before: Items<LocalName>,
    at: usize,
) -> Result<(Items<LocalName>, usize), Fail<usize>>
    requires { at ≤ length tokens.now }
    ensures { Parses (row rows.names) (λ x. before ++ built.names_of x) tokens.now at result }
{
    let mut all = before;
    let mut at = at;
    while is_name_at(tokens, at) {
        let (found, end) = typed_name(alloc, tokens, all, at)?;
        let Some(next) = eat_op(tokens, end, Operator::Comma) else {
            return Ok((found, end));
        };
        all = found;
        at = next;
    }
    Ok((all, at))
}

/// Names without types, each behind a comma, which go to the list's end.
pub fn bare_names(
    tokens: &[Token],
    before: Items<LocalName>,
    at: usize,
) -> Result<(Items<LocalName>, usize), Fail<usize>>
    requires { at ≤ length tokens.now }
    ensures { Parses (row rows.bare_names) (λ x. before ++ built.bare_names_of x) tokens.now at result }
{
    let mut all = before;
    let mut at = at;
    while let Some(next) = eat_op(tokens, at, Operator::Comma) {
        if !is_name_at(tokens, next) {
            return Ok((all, next));
        }
        let (name, end) = expect_name(tokens, next)?;
        all.push(LocalName { name, ty: None })?;
        at = end;
    }
    Ok((all, at))
}
