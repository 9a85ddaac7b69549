//! Classes (Kotlin Language Specification 1.9, "Class declaration").
ghost use Rattle.std.specs.Prelude.{◌≡◌, ◌≤◌, length};
ghost use Rattle.grammars.specs.Grammar.{row};
ghost use Rattle.kt_classes.specs.Bodies.{body_row};
ghost use Rattle.kt_classes.specs.Classes as spec;
ghost use Rattle.kt_grammar.specs.DeclarationsBuilt as built;
ghost use Rattle.kt_grammar.specs.Parsed.{Advances};
ghost use Rattle.kt_grammar.specs.Rows as rows;
ghost use Rattle.kt_suffixes.specs.Suffixes.{IsTable};

use crate::bodies::written_body;
use crate::nodes::{BodyForm, Constructed, Generic, Heritage, class_node};
use kc_text::Fail;
use kc_tree::Class;
use kt_bodies::{Terminal, expect_name_on, expect_on};
use kt_class_heads::{primary_constructor, supers};
use kt_functions::parameters_of_type;
use kt_grammar::{Cursor, Look};
use kt_lexer::{Keyword, Token};
use std::alloc::Global;

/// The form of a class's body.
fn class_form(is_enum: bool) -> BodyForm
    ensures { body_row result ≡ rows.body_of_class is_enum }
{
    if is_enum {
        return BodyForm::Enum;
    }
    BodyForm::Class
}

/// The supertypes, and a body of the form, each where they are written.
///
/// # Errors
///
/// `Found` with the place of the first token with which none goes on, or the farthest one that a test has looked at. `Memory`
/// where memory is short.
pub fn from_supers(
    alloc: Global,
    tokens: &[Token],
    looks: &[Look],
    form: BodyForm,
    at: Cursor,
) -> Result<(Heritage, Cursor), Fail<usize>>
    requires looks { IsTable tokens.now looks.now }
    requires within { at.at ≤ length tokens.now }
    ensures { Advances (spec.heritage (body_row form)) spec.heritage_of tokens.now at result }
{
    let (supers, mid) = supers(alloc, tokens, looks, at)?;
    let (body, end) = written_body(alloc, tokens, looks, form, mid)?;
    Ok((Heritage { supers, body }, end))
}

/// What a class has from its primary constructor on.
fn from_constructor(
    alloc: Global,
    tokens: &[Token],
    looks: &[Look],
    is_enum: bool,
    at: Cursor,
) -> Result<(Constructed, Cursor), Fail<usize>>
    requires looks { IsTable tokens.now looks.now }
    requires within { at.at ≤ length tokens.now }
    ensures { Advances (spec.constructed (rows.body_of_class is_enum)) spec.constructed_of tokens.now at result }
{
    let (primary, mid) = primary_constructor(alloc, tokens, looks, at)?;
    let (heritage, end) = from_supers(alloc, tokens, looks, class_form(is_enum), mid)?;
    Ok((Constructed { primary, heritage }, end))
}

/// What a class has from its type parameters on.
fn from_parameters(
    alloc: Global,
    tokens: &[Token],
    looks: &[Look],
    is_enum: bool,
    at: Cursor,
) -> Result<(Generic, Cursor), Fail<usize>>
    requires looks { IsTable tokens.now looks.now }
    requires within { at.at ≤ length tokens.now }
    ensures { Advances (spec.generic (rows.body_of_class is_enum)) spec.generic_of tokens.now at result }
{
    let (params, mid) = parameters_of_type(alloc, tokens, at)?;
    let (constructed, end) = from_constructor(alloc, tokens, looks, is_enum, mid)?;
    let parts = Generic {
        params,
        constructed,
    };
    Ok((parts, end))
}

/// A class. `is_enum` says that `enum` stands before it, so that its body begins with constants.
///
/// # Errors
///
/// `Found` with the place of the first token with which none goes on, or the farthest one that a test has looked at. `Memory`
/// where memory is short.
pub fn class_(
    alloc: Global,
    tokens: &[Token],
    looks: &[Look],
    is_enum: bool,
    at: Cursor,
) -> Result<(Class, Cursor), Fail<usize>>
    requires looks { IsTable tokens.now looks.now }
    requires within { at.at ≤ length tokens.now }
    ensures { Advances (row (rows.class_ is_enum)) built.class_of_node tokens.now at result }
{
    let next = expect_on(tokens, at, Terminal::Word(Keyword::Class))?;
    let (name, mid) = expect_name_on(tokens, next)?;
    let (parts, end) = from_parameters(alloc, tokens, looks, is_enum, mid)?;
    Ok((class_node(name, parts), end))
}
