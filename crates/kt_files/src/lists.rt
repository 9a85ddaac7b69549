//! The declarations of a file, one behind another (Kotlin Language Specification 1.9, "Declarations").
ghost use Rattle.std.specs.Prelude.{◌≡◌, ◌≤◌, ◌++◌, ◌∷◌, [], false, length};
ghost use Rattle.grammars.specs.Grammar.{row};
ghost use Rattle.kt_bodies.specs.Statements.{Follows};
ghost use Rattle.kt_grammar.specs.DeclarationsBuilt as built;
ghost use Rattle.kt_grammar.specs.Parsed.{Advances};
ghost use Rattle.kt_grammar.specs.Rows as rows;
ghost use Rattle.kt_grammar.specs.Tokens as tokens_of;
ghost use Rattle.kt_suffixes.specs.Suffixes.{IsTable};

use crate::modified::declaration;
use crate::modifier_words::{begins_declaration, begins_marked_declaration};
use kc_text::Fail;
use kc_tree::Decl;
use kt_bodies::behind_semicolons;
use kt_grammar::{Cursor, Look, eat_op_on};
use kt_lexer::{Operator, Token};
use sqlite_items::Items;
use std::alloc::Global;

/// Whether a declaration follows one that ends before the place, and where it begins.
fn next_declaration(tokens: &[Token], at: Cursor) -> (Cursor, bool)
    requires { at.at ≤ length tokens.now }
    ensures { Follows tokens_of.begins_declaration (tokens_of.marked tokens_of.begins_declaration) tokens.now at result.0 result.1 }
{
    let Some(next) = eat_op_on(tokens, at, Operator::Semicolon) else {
        return (at, begins_marked_declaration(tokens, at.at));
    };
    let end = behind_semicolons(tokens, next);
    (end, begins_declaration(tokens, end.at))
}

/// A declaration, which goes to the list's end.
fn one_more(
    alloc: Global,
    tokens: &[Token],
    looks: &[Look],
    before: Items<Decl>,
    at: Cursor,
) -> Result<(Items<Decl>, Cursor), Fail<usize>>
    requires looks { IsTable tokens.now looks.now }
    requires within { at.at ≤ length tokens.now }
    ensures { Advances (row (rows.declaration false false)) (λ x. before ++ built.declaration_of x ∷ []) tokens.now at result }
{
    let (found, end) = declaration(alloc, tokens, looks, at)?;
    let mut all = before;
    all.push(found)?;
    Ok((all, end))
}

/// The declarations behind one, which go to the list's end.
fn further(
    alloc: Global,
    tokens: &[Token],
    looks: &[Look],
    before: Items<Decl>,
    at: Cursor,
) -> Result<(Items<Decl>, Cursor), Fail<usize>>
    requires looks { IsTable tokens.now looks.now }
    requires within { at.at ≤ length tokens.now }
    ensures { Advances (row rows.after_declaration) (λ x. before ++ built.declarations_behind x) tokens.now at result }
{
    let mut all = before;
    let mut at = at;
    loop {
        let (next, goes_on) = next_declaration(tokens, at);
        if !goes_on {
            return Ok((all, next));
        }
        let (found, end) = one_more(alloc, tokens, looks, all, next)?;
        all = found;
        at = end;
    }
}

/// Declarations with a `;` or a line's end between them (Kotlin Language Specification 1.9, "Declarations"). There may be none, and
/// `;` behind the last.
///
/// # Errors
///
/// As for a declaration.
pub fn declarations(
    alloc: Global,
    tokens: &[Token],
    looks: &[Look],
    at: Cursor,
) -> Result<(Items<Decl>, Cursor), Fail<usize>>
    requires looks { IsTable tokens.now looks.now }
    requires within { at.at ≤ length tokens.now }
    ensures { Advances (row rows.declarations) built.declarations_of tokens.now at result }
{
    let none = Items::new(alloc);
    if !begins_declaration(tokens, at.at) {
        return Ok((none, at));
    }
    let (all, end) = one_more(alloc, tokens, looks, none, at)?;
    further(alloc, tokens, looks, all, end)
}
