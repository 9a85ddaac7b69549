//! Modifiers of members (Kotlin Language Specification 1.9, "Declarations"), and with which tokens members begin.
ghost use Rattle.std.specs.Prelude.{◌≡◌, drop, ◌||◌};
ghost use Rattle.grammars.specs.Grammar.{first, test};
ghost use Rattle.kt_members.specs.Members as members;
ghost use Rattle.kt_members.specs.Modifiers as spec;
ghost use Rattle.kt_functions.specs.Sites.{site_of};
ghost use Rattle.kt_grammar.specs.Beginnings.{of_kind};
ghost use Rattle.kt_grammar.specs.Rows as rows;
ghost use Rattle.kt_grammar.specs.Tokens as tokens_of;
ghost use Rattle.kt_grammar.specs.Tokens.{marked};

use kc_tree::Mod;
use kt_bodies::is_marked;
use kt_functions::{Site, is_modifier, modifier_of};
use kt_grammar::{Cursor, class, is_at};
use kt_lexer::{Keyword, Token, TokenKind};

fn modifier_at(tokens: &[Token], at: usize) -> Option<Mod>
    ensures { spec.ModifierAt (first (drop at tokens.now)) result }
{
    match tokens.get(at) {
        Some(token) => {
            if is_modifier(&token.kind) {
                Some(modifier_of(token))
            } else {
                None
            }
        }
        None => None,
    }
}

/// The modifier at the place, and the place behind it.
pub fn eat_modifier(tokens: &[Token], at: Cursor) -> Option<(Mod, Cursor)>
    ensures { spec.EatsModifier tokens.now at result }
{
    match modifier_at(tokens, at.at) {
        Some(found) => Some((found, at.to(at.at + 1))),
        None => None,
    }
}

/// Whether `abstract` stands at the place or stood before.
pub fn is_abstract_by(tokens: &[Token], at: usize, before: bool) -> bool
    ensures { result ≡ test tokens_of.is_abstract (first (drop at tokens.now)) || before }
{
    is_at(tokens, at, 97) || before
}

fn is_local(kind: &TokenKind) -> bool
    ensures { result ≡ tokens_of.is_local (of_kind kind.now) }
{
    match kind {
        TokenKind::Word(Keyword::Val) | TokenKind::Word(Keyword::Var) => true,
        _ => false,
    }
}

fn begins_modified(kind: &TokenKind) -> bool
    ensures { result ≡ members.begins_modified (of_kind kind.now) }
{
    is_modifier(kind) || (class(kind) == 52 || is_local(kind))
}

fn begins_init(site: Site, kind: &TokenKind) -> bool
    ensures { result ≡ members.begins_init (site_of site) (of_kind kind.now) }
{
    match site {
        Site::InInterface => false,
        Site::TopLevel => class(kind) == 89,
        Site::InClass => class(kind) == 89,
    }
}

fn begins(site: Site, kind: &TokenKind) -> bool
    ensures { result ≡ rows.begins_member (site_of site) (of_kind kind.now) }
{
    match site {
        Site::InInterface => begins_modified(kind),
        Site::TopLevel => class(kind) == 89 || begins_modified(kind),
        Site::InClass => class(kind) == 89 || begins_modified(kind),
    }
}

/// Whether an `init` block begins at the place.
pub fn is_init_at(tokens: &[Token], site: Site, at: usize) -> bool
    ensures { result ≡ test (members.begins_init (site_of site)) (first (drop at tokens.now)) }
{
    match tokens.get(at) {
        Some(token) => begins_init(site, &token.kind),
        None => false,
    }
}

/// Whether a member begins at the place.
pub fn begins_member(tokens: &[Token], site: Site, at: usize) -> bool
    ensures { result ≡ test (rows.begins_member (site_of site)) (first (drop at tokens.now)) }
{
    match tokens.get(at) {
        Some(token) => begins(site, &token.kind),
        None => false,
    }
}

/// Whether a member begins at the place, behind a line's end that counts.
pub fn begins_marked_member(tokens: &[Token], site: Site, at: usize) -> bool
    ensures { result ≡ test (marked (rows.begins_member (site_of site))) (first (drop at tokens.now)) }
{
    begins_member(tokens, site, at) && is_marked(tokens, at)
}
