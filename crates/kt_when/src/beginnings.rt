//! With which tokens branches begin (Kotlin Language Specification 1.9, "When expressions").
ghost use Rattle.std.specs.Prelude.{◌≡◌, drop};
ghost use Rattle.grammars.specs.Grammar.{first, test};
ghost use Rattle.kt_lexer.specs.declared.token.Keyword.TheVariants as keywords;
ghost use Rattle.kt_grammar.specs.Tokens as tokens_of;
ghost use Rattle.kt_when.specs.Branches as spec;

use crate::relations::begins_condition;
use kt_bodies::is_marked;
use kt_grammar::{is_at, keyword_class};
use kt_lexer::{Keyword, Token};

fn is_else_at(tokens: &[Token], at: usize) -> bool
    ensures { result ≡ test (tokens_of.is_word keywords.Else) (first (drop at tokens.now)) }
{
    is_at(tokens, at, keyword_class(Keyword::Else))
}

/// Whether a condition begins at the place, behind a line's end that counts.
fn begins_marked_condition(tokens: &[Token], at: usize) -> bool
    ensures { result ≡ test (tokens_of.marked tokens_of.begins_condition) (first (drop at tokens.now)) }
{
    begins_condition(tokens, at) && is_marked(tokens, at)
}

/// Whether a branch begins at the place.
pub fn begins_branch(tokens: &[Token], at: usize) -> bool
    ensures { result ≡ test spec.begins_branch (first (drop at tokens.now)) }
{
    is_else_at(tokens, at) || begins_condition(tokens, at)
}

/// Whether a branch begins at the place that no `;` parts from the branch before it: with `else`, or behind a line's end that counts.
pub fn begins_further_branch(tokens: &[Token], at: usize) -> bool
    ensures { result ≡ test spec.begins_further_branch (first (drop at tokens.now)) }
{
    is_else_at(tokens, at) || begins_marked_condition(tokens, at)
}
