//! Bodies of classes (Kotlin Language Specification 1.9, "Classifier declaration" and "Enum class declaration").
ghost use Rattle.std.specs.Prelude.{◌≤◌, length};
ghost use Rattle.grammars.specs.Grammar.{row};
ghost use Rattle.kt_classes.specs.Bodies as spec;
ghost use Rattle.kt_functions.specs.Sites.{site_of};
ghost use Rattle.kt_grammar.specs.Parsed.{Advances};
ghost use Rattle.kt_grammar.specs.Rows as rows;
ghost use Rattle.kt_suffixes.specs.Suffixes.{IsTable};

use crate::nodes::{BodyForm, BodyParts, plain_parts};
use kc_text::Fail;
use kc_tree::Member;
use kt_class_heads::constants;
use kt_functions::Site;
use kt_grammar::{Cursor, Look, eat_op_on, expect_op_on, is_op_at};
use kt_lexer::{Operator, Token};
use kt_members::{class_body, members};
use sqlite_items::Items;
use std::alloc::Global;

/// What may stand behind the constants of an enum class: a `;` and members.
fn behind_constants(
    alloc: Global,
    tokens: &[Token],
    looks: &[Look],
    at: Cursor,
) -> Result<(Items<Member>, Cursor), Fail<usize>>
    requires looks { IsTable tokens.now looks.now }
    requires within { at.at ≤ length tokens.now }
    ensures { Advances spec.behind_constants spec.behind_constants_of tokens.now at result }
{
    let Some(next) = eat_op_on(tokens, at, Operator::Semicolon) else {
        return Ok((Items::new(alloc), at));
    };
    members(alloc, tokens, looks, Site::InClass, next)
}

/// What stands behind the constants of an enum class, and the brace behind it.
fn to_brace(
    alloc: Global,
    tokens: &[Token],
    looks: &[Look],
    at: Cursor,
) -> Result<(Items<Member>, Cursor), Fail<usize>>
    requires looks { IsTable tokens.now looks.now }
    requires within { at.at ≤ length tokens.now }
    ensures { Advances spec.to_brace spec.before_brace tokens.now at result }
{
    let (all, mid) = behind_constants(alloc, tokens, looks, at)?;
    let end = expect_op_on(tokens, mid, Operator::CloseBrace)?;
    Ok((all, end))
}

/// The constants of an enum class, and what stands behind them.
fn from_constants(
    alloc: Global,
    tokens: &[Token],
    looks: &[Look],
    at: Cursor,
) -> Result<(BodyParts, Cursor), Fail<usize>>
    requires looks { IsTable tokens.now looks.now }
    requires within { at.at ≤ length tokens.now }
    ensures { Advances spec.from_constants spec.from_constants_of tokens.now at result }
{
    let (constants, mid) = constants(alloc, tokens, looks, at)?;
    let (members, end) = to_brace(alloc, tokens, looks, mid)?;
    Ok((BodyParts { constants, members }, end))
}

/// The body of an enum class.
fn enum_body(
    alloc: Global,
    tokens: &[Token],
    looks: &[Look],
    at: Cursor,
) -> Result<(BodyParts, Cursor), Fail<usize>>
    requires looks { IsTable tokens.now looks.now }
    requires within { at.at ≤ length tokens.now }
    ensures { Advances (row rows.enum_body) spec.body_in tokens.now at result }
{
    let next = expect_op_on(tokens, at, Operator::OpenBrace)?;
    let (parts, end) = from_constants(alloc, tokens, looks, next)?;
    Ok((parts, end))
}

/// The body of a class or an interface that is no enum.
fn plain_body(
    alloc: Global,
    tokens: &[Token],
    looks: &[Look],
    site: Site,
    at: Cursor,
) -> Result<(BodyParts, Cursor), Fail<usize>>
    requires looks { IsTable tokens.now looks.now }
    requires within { at.at ≤ length tokens.now }
    ensures { Advances (row (rows.class_body (site_of site))) spec.body_in tokens.now at result }
{
    let (all, end) = class_body(alloc, tokens, looks, site, at)?;
    Ok((plain_parts(alloc, all), end))
}

/// A body of the form.
fn in_braces(
    alloc: Global,
    tokens: &[Token],
    looks: &[Look],
    form: BodyForm,
    at: Cursor,
) -> Result<(BodyParts, Cursor), Fail<usize>>
    requires looks { IsTable tokens.now looks.now }
    requires within { at.at ≤ length tokens.now }
    ensures { Advances (row (spec.body_row form)) spec.body_in tokens.now at result }
{
    match form {
        BodyForm::Enum => enum_body(alloc, tokens, looks, at),
        BodyForm::Class => plain_body(alloc, tokens, looks, Site::InClass, at),
        BodyForm::Interface => plain_body(alloc, tokens, looks, Site::InInterface, at),
    }
}

/// A body of the form, where one is written.
///
/// # Errors
///
/// `Found` with the place of the first token with which none goes on, or the farthest one that a test has looked at. `Memory`
/// where memory is short.
pub fn written_body(
    alloc: Global,
    tokens: &[Token],
    looks: &[Look],
    form: BodyForm,
    at: Cursor,
) -> Result<(BodyParts, Cursor), Fail<usize>>
    requires looks { IsTable tokens.now looks.now }
    requires within { at.at ≤ length tokens.now }
    ensures { Advances (rows.a_body (spec.body_row form)) spec.body_parts tokens.now at result }
{
    if !is_op_at(tokens, at.at, Operator::OpenBrace) {
        return Ok((plain_parts(alloc, Items::new(alloc)), at));
    }
    in_braces(alloc, tokens, looks, form, at)
}
