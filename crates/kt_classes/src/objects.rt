//! Interfaces and objects (Kotlin Language Specification 1.9, "Interface declaration" and "Object declaration").
ghost use Rattle.std.specs.Prelude.{◌≤◌, length};
ghost use Rattle.grammars.specs.Grammar.{row};
ghost use Rattle.kt_classes.specs.Classes as spec;
ghost use Rattle.kt_grammar.specs.DeclarationsBuilt as built;
ghost use Rattle.kt_grammar.specs.Parsed.{Advances};
ghost use Rattle.kt_grammar.specs.Rows as rows;
ghost use Rattle.kt_suffixes.specs.Suffixes.{IsTable};

use crate::classes::from_supers;
use crate::nodes::{BodyForm, Inherited, interface_node, object_node};
use kc_text::Fail;
use kc_tree::Class;
use kt_bodies::{Terminal, expect_name_on, expect_on};
use kt_functions::parameters_of_type;
use kt_grammar::{Cursor, Look};
use kt_lexer::{Keyword, Token};
use std::alloc::Global;

/// What an interface has from its type parameters on.
fn from_parameters(
    alloc: Global,
    tokens: &[Token],
    looks: &[Look],
    at: Cursor,
) -> Result<(Inherited, Cursor), Fail<usize>>
    requires looks { IsTable tokens.now looks.now }
    requires within { at.at ≤ length tokens.now }
    ensures { Advances (spec.inherited (rows.class_body rows.in_interface)) spec.inherited_of tokens.now at result }
{
    let (params, mid) = parameters_of_type(alloc, tokens, at)?;
    let (heritage, end) = from_supers(alloc, tokens, looks, BodyForm::Interface, mid)?;
    Ok((Inherited { params, heritage }, end))
}

/// An interface.
///
/// # Errors
///
/// `Found` with the place of the first token with which none goes on, or the farthest one that a test has looked at. `Memory`
/// where memory is short.
pub fn interface_(
    alloc: Global,
    tokens: &[Token],
    looks: &[Look],
    at: Cursor,
) -> Result<(Class, Cursor), Fail<usize>>
    requires looks { IsTable tokens.now looks.now }
    requires within { at.at ≤ length tokens.now }
    ensures { Advances (row rows.interface_) built.interface_of tokens.now at result }
{
    let next = expect_on(tokens, at, Terminal::Word(Keyword::Interface))?;
    let (name, mid) = expect_name_on(tokens, next)?;
    let (parts, end) = from_parameters(alloc, tokens, looks, mid)?;
    Ok((interface_node(name, parts), end))
}

/// An object.
///
/// # Errors
///
/// As for an interface.
pub fn object_(
    alloc: Global,
    tokens: &[Token],
    looks: &[Look],
    at: Cursor,
) -> Result<(Class, Cursor), Fail<usize>>
    requires looks { IsTable tokens.now looks.now }
    requires within { at.at ≤ length tokens.now }
    ensures { Advances (row rows.object_) built.object_of tokens.now at result }
{
    let next = expect_on(tokens, at, Terminal::Word(Keyword::Object))?;
    let (name, mid) = expect_name_on(tokens, next)?;
    let (heritage, end) = from_supers(alloc, tokens, looks, BodyForm::Class, mid)?;
    Ok((object_node(alloc, name, heritage), end))
}
