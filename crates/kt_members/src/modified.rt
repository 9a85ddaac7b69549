//! Functions and properties as members, with their modifiers (Kotlin Language Specification 1.9, "Classifier declaration").
ghost use Rattle.std.specs.Prelude.{◌≤◌, length, false, []};
ghost use Rattle.grammars.specs.Grammar.{row};
ghost use Rattle.kt_members.specs.Members as spec;
ghost use Rattle.kt_functions.specs.Sites.{site_of};
ghost use Rattle.kt_grammar.specs.DeclarationsBuilt as built;
ghost use Rattle.kt_grammar.specs.Parsed.{Advances};
ghost use Rattle.kt_grammar.specs.Rows as rows;
ghost use Rattle.kt_suffixes.specs.Suffixes.{IsTable};

use crate::modifier_words::{eat_modifier, is_abstract_by};
use crate::nodes::modified_member_at;
use crate::properties::property;
use kc_text::Fail;
use kc_tree::{Member, MemberKind, Mod};
use kt_functions::{Site, function, is_word_at};
use kt_grammar::{Cursor, Look, span_between};
use kt_lexer::{Keyword, Token};
use sqlite_items::Items;
use std::alloc::Global;

/// What a member is, with its modifiers.
#[derive(Drop)]
pub struct Modified {
    pub mods: Items<Mod>,
    pub kind: MemberKind,
}

/// A function as a member.
fn function_member(
    alloc: Global,
    tokens: &[Token],
    looks: &[Look],
    is_abstract: bool,
    site: Site,
    at: Cursor,
) -> Result<(MemberKind, Cursor), Fail<usize>>
    requires looks { IsTable tokens.now looks.now }
    requires within { at.at ≤ length tokens.now }
    ensures { Advances (row (rows.function is_abstract (site_of site))) spec.function_kind tokens.now at result }
{
    let (found, end) = function(alloc, tokens, looks, is_abstract, site, at)?;
    Ok((MemberKind::Fun(found), end))
}

/// A property as a member.
fn property_member(
    alloc: Global,
    tokens: &[Token],
    looks: &[Look],
    is_abstract: bool,
    site: Site,
    at: Cursor,
) -> Result<(MemberKind, Cursor), Fail<usize>>
    requires looks { IsTable tokens.now looks.now }
    requires within { at.at ≤ length tokens.now }
    ensures { Advances (row (rows.property is_abstract (site_of site))) spec.property_kind tokens.now at result }
{
    let (found, end) = property(alloc, tokens, looks, is_abstract, site, at)?;
    Ok((MemberKind::Prop(found), end))
}

/// What stands behind the modifiers of a member.
fn unmodified(
    alloc: Global,
    tokens: &[Token],
    looks: &[Look],
    is_abstract: bool,
    site: Site,
    at: Cursor,
) -> Result<(MemberKind, Cursor), Fail<usize>>
    requires looks { IsTable tokens.now looks.now }
    requires within { at.at ≤ length tokens.now }
    ensures { Advances (spec.unmodified is_abstract (site_of site)) spec.unmodified_of tokens.now at result }
{
    if is_word_at(tokens, at.at, Keyword::Fun) {
        return function_member(alloc, tokens, looks, is_abstract, site, at);
    }
    property_member(alloc, tokens, looks, is_abstract, site, at)
}

/// A member behind its modifiers.
fn behind_modifiers(
    alloc: Global,
    tokens: &[Token],
    looks: &[Look],
    mods: Items<Mod>,
    is_abstract: bool,
    site: Site,
    at: Cursor,
) -> Result<(Modified, Cursor), Fail<usize>>
    requires looks { IsTable tokens.now looks.now }
    requires within { at.at ≤ length tokens.now }
    ensures { Advances (spec.unmodified is_abstract (site_of site)) (spec.with_mods mods) tokens.now at result }
{
    let (kind, end) = unmodified(alloc, tokens, looks, is_abstract, site, at)?;
    Ok((Modified { mods, kind }, end))
}

/// A member with its modifiers.
fn with_modifiers(
    alloc: Global,
    tokens: &[Token],
    looks: &[Look],
    site: Site,
    at: Cursor,
) -> Result<(Modified, Cursor), Fail<usize>>
    requires looks { IsTable tokens.now looks.now }
    requires within { at.at ≤ length tokens.now }
    ensures { Advances (row (rows.modified_member false (site_of site))) (spec.modified_behind []) tokens.now at result }
{
    let mut mods = Items::new(alloc);
    let mut is_abstract = false;
    let mut at = at;
    while let Some((found, next)) = eat_modifier(tokens, at) {
        is_abstract = is_abstract_by(tokens, at.at, is_abstract);
        mods.push(found)?;
        at = next;
    }
    behind_modifiers(alloc, tokens, looks, mods, is_abstract, site, at)
}

/// A function or a property as a member, with its modifiers.
pub fn modified_member(
    alloc: Global,
    tokens: &[Token],
    looks: &[Look],
    site: Site,
    at: Cursor,
) -> Result<(Member, Cursor), Fail<usize>>
    requires looks { IsTable tokens.now looks.now }
    requires within { at.at ≤ length tokens.now }
    ensures { Advances (row (rows.modified_member false (site_of site))) built.modified_of tokens.now at result }
{
    let (found, end) = with_modifiers(alloc, tokens, looks, site, at)?;
    let span = span_between(tokens, at.at, end.at);
    Ok((modified_member_at(span, found), end))
}
