//! Supertypes (Kotlin Language Specification 1.9, "Class declaration").
ghost use Rattle.std.specs.Prelude.{◌≤◌, ◌++◌, length};
ghost use Rattle.grammars.specs.Grammar.{row};
ghost use Rattle.kt_class_heads.specs.Supertypes as spec;
ghost use Rattle.kt_grammar.specs.DeclarationsBuilt as built;
ghost use Rattle.kt_grammar.specs.Parsed.{Advances};
ghost use Rattle.kt_grammar.specs.Rows as rows;
ghost use Rattle.kt_suffixes.specs.Suffixes.{IsTable};

use crate::arguments::written_arguments;
use crate::class_words::begins_supertype;
use kc_text::Fail;
use kc_tree::Super;
use kt_grammar::{Cursor, Look, behind, eat_op_on, span_between, type_at};
use kt_lexer::{Operator, Token};
use sqlite_items::Items;
use std::alloc::Global;

/// A supertype, which goes to the list's end.
fn supertype(
    alloc: Global,
    tokens: &[Token],
    looks: &[Look],
    before: Items<Super>,
    at: Cursor,
) -> Result<(Items<Super>, Cursor), Fail<usize>>
    requires looks { IsTable tokens.now looks.now }
    requires within { at.at ≤ length tokens.now }
    ensures { Advances (row rows.supertype) (λ x. before ++ built.supertype_of x) tokens.now at result }
{
    let (ty, mid) = behind(at.looked, type_at(alloc, tokens, at.at))?;
    let (args, end) = written_arguments(alloc, tokens, looks, mid)?;
    let span = span_between(tokens, at.at, end.at);
    let mut all = before;
    all.push(Super { span, ty, args })?;
    Ok((all, end))
}

/// Supertypes with commas between them, which go to the list's end. There may be none, and a comma behind the last.
fn further_supertypes(
    alloc: Global,
    tokens: &[Token],
    looks: &[Look],
    before: Items<Super>,
    at: Cursor,
) -> Result<(Items<Super>, Cursor), Fail<usize>>
    requires looks { IsTable tokens.now looks.now }
    requires within { at.at ≤ length tokens.now }
    ensures { Advances (row rows.supertypes) (λ x. before ++ built.supertypes_of x) tokens.now at result }
{
    let mut all = before;
    let mut at = at;
    while begins_supertype(tokens, at.at) {
        let (found, end) = supertype(alloc, tokens, looks, all, at)?;
        let Some(next) = eat_op_on(tokens, end, Operator::Comma) else {
            return Ok((found, end));
        };
        all = found;
        at = next;
    }
    Ok((all, at))
}

/// The supertypes behind the comma of the first one, where it has one. They go to the list's end.
fn behind_comma(
    alloc: Global,
    tokens: &[Token],
    looks: &[Look],
    before: Items<Super>,
    at: Cursor,
) -> Result<(Items<Super>, Cursor), Fail<usize>>
    requires looks { IsTable tokens.now looks.now }
    requires within { at.at ≤ length tokens.now }
    ensures { Advances spec.behind_comma (λ x. before ++ spec.behind_comma_of x) tokens.now at result }
{
    let Some(next) = eat_op_on(tokens, at, Operator::Comma) else {
        return Ok((before, at));
    };
    further_supertypes(alloc, tokens, looks, before, next)
}

/// Supertypes with commas between them, one at least.
fn some_supertypes(
    alloc: Global,
    tokens: &[Token],
    looks: &[Look],
    at: Cursor,
) -> Result<(Items<Super>, Cursor), Fail<usize>>
    requires looks { IsTable tokens.now looks.now }
    requires within { at.at ≤ length tokens.now }
    ensures { Advances spec.some_supertypes spec.some_supertypes_of tokens.now at result }
{
    let none = Items::new(alloc);
    let (head, mid) = supertype(alloc, tokens, looks, none, at)?;
    behind_comma(alloc, tokens, looks, head, mid)
}

/// `:` and the supertypes of a class, an interface or an object, or nothing.
///
/// # Errors
///
/// `Found` with the place of the first token with which no supertypes go on, or the farthest one that a test has looked at.
/// `Memory` where memory is short, or expressions nest too deep.
pub fn supers(
    alloc: Global,
    tokens: &[Token],
    looks: &[Look],
    at: Cursor,
) -> Result<(Items<Super>, Cursor), Fail<usize>>
    requires looks { IsTable tokens.now looks.now }
    requires within { at.at ≤ length tokens.now }
    ensures { Advances rows.supers built.supers_of tokens.now at result }
{
    let Some(next) = eat_op_on(tokens, at, Operator::Colon) else {
        return Ok((Items::new(alloc), at));
    };
    some_supertypes(alloc, tokens, looks, next)
}
