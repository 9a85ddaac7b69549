//! The constants of enum classes (Kotlin Language Specification 1.9, "Enum class declaration").
ghost use Rattle.std.specs.Prelude.{◌≤◌, ◌++◌, length};
ghost use Rattle.grammars.specs.Grammar.{row};
ghost use Rattle.kt_grammar.specs.DeclarationsBuilt as built;
ghost use Rattle.kt_grammar.specs.Parsed.{Advances};
ghost use Rattle.kt_grammar.specs.Rows as rows;
ghost use Rattle.kt_suffixes.specs.Suffixes.{IsTable};

use crate::arguments::written_arguments;
use kc_text::Fail;
use kc_tree::Constant;
use kt_bodies::expect_name_on;
use kt_grammar::{Cursor, Look, eat_op_on, is_name_at, span_between};
use kt_lexer::{Operator, Token};
use sqlite_items::Items;
use std::alloc::Global;

/// A constant, which goes to the list's end.
fn constant(
    alloc: Global,
    tokens: &[Token],
    looks: &[Look],
    before: Items<Constant>,
    at: Cursor,
) -> Result<(Items<Constant>, Cursor), Fail<usize>>
    requires looks { IsTable tokens.now looks.now }
    requires within { at.at ≤ length tokens.now }
    ensures { Advances (row rows.constant) (λ x. before ++ built.constant_of x) tokens.now at result }
{
    let (name, mid) = expect_name_on(tokens, at)?;
    let (args, end) = written_arguments(alloc, tokens, looks, mid)?;
    let span = span_between(tokens, at.at, end.at);
    let mut all = before;
    all.push(Constant { span, name, args })?;
    Ok((all, end))
}

/// Constants with commas between them, which go to the list's end. There may be none, and a comma behind the last.
fn listed_constants(
    alloc: Global,
    tokens: &[Token],
    looks: &[Look],
    before: Items<Constant>,
    at: Cursor,
) -> Result<(Items<Constant>, Cursor), Fail<usize>>
    requires looks { IsTable tokens.now looks.now }
    requires within { at.at ≤ length tokens.now }
    ensures { Advances (row rows.constants) (λ x. before ++ built.constants_of x) tokens.now at result }
{
    let mut all = before;
    let mut at = at;
    while is_name_at(tokens, at.at) {
        let (found, end) = constant(alloc, tokens, looks, all, at)?;
        let Some(next) = eat_op_on(tokens, end, Operator::Comma) else {
            return Ok((found, end));
        };
        all = found;
        at = next;
    }
    Ok((all, at))
}

/// The constants of an enum class, with commas between them. There may be none, and a comma behind the last.
///
/// # Errors
///
/// `Found` with the place of the first token with which no constants go on, or the farthest one that a test has looked at.
/// `Memory` where memory is short, or expressions nest too deep.
pub fn constants(
    alloc: Global,
    tokens: &[Token],
    looks: &[Look],
    at: Cursor,
) -> Result<(Items<Constant>, Cursor), Fail<usize>>
    requires looks { IsTable tokens.now looks.now }
    requires within { at.at ≤ length tokens.now }
    ensures { Advances (row rows.constants) built.constants_of tokens.now at result }
{
    let none = Items::new(alloc);
    listed_constants(alloc, tokens, looks, none, at)
}
