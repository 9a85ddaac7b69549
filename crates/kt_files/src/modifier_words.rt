//! Modifiers of declarations (Kotlin Language Specification 1.9, "Declarations"), and with which tokens declarations begin.
ghost use Rattle.std.specs.Prelude.{◌≡◌, drop, ◌||◌};
ghost use Rattle.grammars.specs.Grammar.{first, test};
ghost use Rattle.kt_grammar.specs.Beginnings.{of_kind};
ghost use Rattle.kt_grammar.specs.Tokens as tokens_of;

use kt_bodies::is_marked;
use kt_functions::is_modifier;
use kt_grammar::{class, is_at};
use kt_lexer::{Token, TokenKind};

/// Whether a token of the class stands at the place, or one stood before.
pub fn stood_by(tokens: &[Token], at: usize, wanted: u8, before: bool) -> bool
    ensures { result ≡ test (tokens_of.is_of wanted) (first (drop at tokens.now)) || before }
{
    is_at(tokens, at, wanted) || before
}

fn begins(kind: &TokenKind) -> bool
    ensures { result ≡ tokens_of.begins_declaration (of_kind kind.now) }
{
    let class = class(kind);
    is_modifier(kind)
        || (class == 46
            || (class == 56 || (class == 60 || (class == 52 || (class == 70 || class == 71)))))
}

/// Whether a declaration begins at the place.
pub fn begins_declaration(tokens: &[Token], at: usize) -> bool
    ensures { result ≡ test tokens_of.begins_declaration (first (drop at tokens.now)) }
{
    match tokens.get(at) {
        Some(token) => begins(&token.kind),
        None => false,
    }
}

/// Whether a declaration begins at the place, behind a line's end that counts.
pub fn begins_marked_declaration(tokens: &[Token], at: usize) -> bool
    ensures { result ≡ test (tokens_of.marked tokens_of.begins_declaration) (first (drop at tokens.now)) }
{
    begins_declaration(tokens, at) && is_marked(tokens, at)
}
