//! Declarations, with their modifiers (Kotlin Language Specification 1.9, "Declarations").
ghost use Rattle.std.specs.Prelude.{◌≤◌, length, true, false, []};
ghost use Rattle.grammars.specs.Grammar.{row};
ghost use Rattle.kt_files.specs.Unmodified as spec;
ghost use Rattle.kt_grammar.specs.DeclarationsBuilt as built;
ghost use Rattle.kt_grammar.specs.Parsed.{Advances};
ghost use Rattle.kt_grammar.specs.Rows as rows;
ghost use Rattle.kt_suffixes.specs.Suffixes.{IsTable};

use crate::modifier_words::stood_by;
use crate::nodes::declaration_at;
use kc_text::Fail;
use kc_tree::{Decl, DeclKind, Mod};
use kt_classes::{class_, interface_, object_};
use kt_functions::{Site, function, is_word_at};
use kt_grammar::{Cursor, Look, span_between};
use kt_lexer::{Keyword, Token};
use kt_members::{eat_modifier, property};
use sqlite_items::Items;
use std::alloc::Global;

/// What a declaration is, with its modifiers.
#[derive(Drop)]
pub struct Modified {
    pub mods: Items<Mod>,
    pub kind: DeclKind,
}

/// A class as a declaration.
fn class_declaration(
    alloc: Global,
    tokens: &[Token],
    looks: &[Look],
    is_enum: bool,
    at: Cursor,
) -> Result<(DeclKind, Cursor), Fail<usize>>
    requires looks { IsTable tokens.now looks.now }
    requires within { at.at ≤ length tokens.now }
    ensures { Advances (row (rows.class_ is_enum)) spec.class_kind tokens.now at result }
{
    let (found, end) = class_(alloc, tokens, looks, is_enum, at)?;
    Ok((DeclKind::Class(found), end))
}

/// An interface as a declaration.
fn interface_declaration(
    alloc: Global,
    tokens: &[Token],
    looks: &[Look],
    at: Cursor,
) -> Result<(DeclKind, Cursor), Fail<usize>>
    requires looks { IsTable tokens.now looks.now }
    requires within { at.at ≤ length tokens.now }
    ensures { Advances (row rows.interface_) spec.interface_kind tokens.now at result }
{
    let (found, end) = interface_(alloc, tokens, looks, at)?;
    Ok((DeclKind::Class(found), end))
}

/// An object as a declaration.
fn object_declaration(
    alloc: Global,
    tokens: &[Token],
    looks: &[Look],
    at: Cursor,
) -> Result<(DeclKind, Cursor), Fail<usize>>
    requires looks { IsTable tokens.now looks.now }
    requires within { at.at ≤ length tokens.now }
    ensures { Advances (row rows.object_) spec.object_kind tokens.now at result }
{
    let (found, end) = object_(alloc, tokens, looks, at)?;
    Ok((DeclKind::Class(found), end))
}

/// A function as a declaration.
fn function_declaration(
    alloc: Global,
    tokens: &[Token],
    looks: &[Look],
    is_abstract: bool,
    at: Cursor,
) -> Result<(DeclKind, Cursor), Fail<usize>>
    requires looks { IsTable tokens.now looks.now }
    requires within { at.at ≤ length tokens.now }
    ensures { Advances (row (rows.function is_abstract rows.top_level)) spec.function_kind tokens.now at result }
{
    let (found, end) = function(alloc, tokens, looks, is_abstract, Site::TopLevel, at)?;
    Ok((DeclKind::Fun(found), end))
}

/// A property as a declaration.
fn property_declaration(
    alloc: Global,
    tokens: &[Token],
    looks: &[Look],
    at: Cursor,
) -> Result<(DeclKind, Cursor), Fail<usize>>
    requires looks { IsTable tokens.now looks.now }
    requires within { at.at ≤ length tokens.now }
    ensures { Advances (row (rows.property false rows.top_level)) spec.property_kind tokens.now at result }
{
    let (found, end) = property(alloc, tokens, looks, false, Site::TopLevel, at)?;
    Ok((DeclKind::Prop(found), end))
}

/// A function or a property that is not abstract.
fn concrete(
    alloc: Global,
    tokens: &[Token],
    looks: &[Look],
    at: Cursor,
) -> Result<(DeclKind, Cursor), Fail<usize>>
    requires looks { IsTable tokens.now looks.now }
    requires within { at.at ≤ length tokens.now }
    ensures { Advances (rows.function_or_property false) built.function_or_property_of tokens.now at result }
{
    if is_word_at(tokens, at.at, Keyword::Fun) {
        return function_declaration(alloc, tokens, looks, false, at);
    }
    property_declaration(alloc, tokens, looks, at)
}

/// A function or a property. Behind `abstract` no property stands at the top of a file.
fn function_or_property(
    alloc: Global,
    tokens: &[Token],
    looks: &[Look],
    is_abstract: bool,
    at: Cursor,
) -> Result<(DeclKind, Cursor), Fail<usize>>
    requires looks { IsTable tokens.now looks.now }
    requires within { at.at ≤ length tokens.now }
    ensures { Advances (rows.function_or_property is_abstract) built.function_or_property_of tokens.now at result }
{
    if is_abstract {
        return function_declaration(alloc, tokens, looks, true, at);
    }
    concrete(alloc, tokens, looks, at)
}

/// What stands behind the modifiers of a declaration that is neither a class nor an interface.
fn no_interface(
    alloc: Global,
    tokens: &[Token],
    looks: &[Look],
    is_abstract: bool,
    at: Cursor,
) -> Result<(DeclKind, Cursor), Fail<usize>>
    requires looks { IsTable tokens.now looks.now }
    requires within { at.at ≤ length tokens.now }
    ensures { Advances (spec.no_interface is_abstract) spec.no_interface_of tokens.now at result }
{
    if is_word_at(tokens, at.at, Keyword::Object) {
        return object_declaration(alloc, tokens, looks, at);
    }
    function_or_property(alloc, tokens, looks, is_abstract, at)
}

/// What stands behind the modifiers of a declaration that is no class.
fn no_class(
    alloc: Global,
    tokens: &[Token],
    looks: &[Look],
    is_abstract: bool,
    at: Cursor,
) -> Result<(DeclKind, Cursor), Fail<usize>>
    requires looks { IsTable tokens.now looks.now }
    requires within { at.at ≤ length tokens.now }
    ensures { Advances (spec.no_class is_abstract) spec.no_class_of tokens.now at result }
{
    if is_word_at(tokens, at.at, Keyword::Interface) {
        return interface_declaration(alloc, tokens, looks, at);
    }
    no_interface(alloc, tokens, looks, is_abstract, at)
}

/// What stands behind the modifiers of a declaration.
fn unmodified(
    alloc: Global,
    tokens: &[Token],
    looks: &[Look],
    is_abstract: bool,
    is_enum: bool,
    at: Cursor,
) -> Result<(DeclKind, Cursor), Fail<usize>>
    requires looks { IsTable tokens.now looks.now }
    requires within { at.at ≤ length tokens.now }
    ensures { Advances (spec.unmodified is_abstract is_enum) spec.unmodified_of tokens.now at result }
{
    if is_word_at(tokens, at.at, Keyword::Class) {
        return class_declaration(alloc, tokens, looks, is_enum, at);
    }
    no_class(alloc, tokens, looks, is_abstract, at)
}

/// A declaration behind its modifiers.
fn behind_modifiers(
    alloc: Global,
    tokens: &[Token],
    looks: &[Look],
    mods: Items<Mod>,
    is_abstract: bool,
    is_enum: bool,
    at: Cursor,
) -> Result<(Modified, Cursor), Fail<usize>>
    requires looks { IsTable tokens.now looks.now }
    requires within { at.at ≤ length tokens.now }
    ensures { Advances (spec.unmodified is_abstract is_enum) (spec.with_mods mods) tokens.now at result }
{
    let (kind, end) = unmodified(alloc, tokens, looks, is_abstract, is_enum, at)?;
    Ok((Modified { mods, kind }, end))
}

/// A declaration with its modifiers.
fn with_modifiers(
    alloc: Global,
    tokens: &[Token],
    looks: &[Look],
    at: Cursor,
) -> Result<(Modified, Cursor), Fail<usize>>
    requires looks { IsTable tokens.now looks.now }
    requires within { at.at ≤ length tokens.now }
    ensures { Advances (row (rows.declaration false false)) (spec.modified_behind []) tokens.now at result }
{
    let mut mods = Items::new(alloc);
    let mut is_abstract = false;
    let mut is_enum = false;
    let mut at = at;
    while let Some((found, next)) = eat_modifier(tokens, at) {
        is_abstract = stood_by(tokens, at.at, 97, is_abstract);
        is_enum = stood_by(tokens, at.at, 100, is_enum);
        mods.push(found)?;
        at = next;
    }
    behind_modifiers(alloc, tokens, looks, mods, is_abstract, is_enum, at)
}

/// A declaration at the top of a file, with its modifiers.
///
/// # Errors
///
/// `Found` with the place of the first token with which no declaration goes on, or the farthest one that a test has looked at.
/// `Memory` where memory is short.
pub fn declaration(
    alloc: Global,
    tokens: &[Token],
    looks: &[Look],
    at: Cursor,
) -> Result<(Decl, Cursor), Fail<usize>>
    requires looks { IsTable tokens.now looks.now }
    requires within { at.at ≤ length tokens.now }
    ensures { Advances (row (rows.declaration false false)) built.declaration_of tokens.now at result }
{
    let (found, end) = with_modifiers(alloc, tokens, looks, at)?;
    let span = span_between(tokens, at.at, end.at);
    Ok((declaration_at(span, found), end))
}
