//! The words of members, which are names to the lexer.
ghost use Rattle.std.specs.Prelude.{◌≡◌, ◌≤◌, length, drop};
ghost use Rattle.grammars.specs.Grammar.{first, test};
ghost use Rattle.kt_members.specs.MemberWords as spec;
ghost use Rattle.kt_grammar.specs.Moves.{EatsOn, ExpectsOn};
ghost use Rattle.kt_grammar.specs.Tokens.{marked};

use kc_text::Fail;
use kt_bodies::is_marked;
use kt_grammar::{Cursor, eat, is_at};
use kt_lexer::Token;

/// A word of members.
#[derive(Clone, Copy)]
pub enum MemberWord {
    Get,
    Set,
    Init,
}

fn word_class(word: MemberWord) -> u8
    ensures { result ≡ spec.word_class word }
{
    match word {
        MemberWord::Get => 87,
        MemberWord::Set => 88,
        MemberWord::Init => 89,
    }
}

fn eat_word(tokens: &[Token], at: Cursor, word: MemberWord) -> Option<Cursor>
    ensures { EatsOn (spec.is_member_word word) tokens.now at result }
{
    match eat(tokens, at.at, word_class(word)) {
        Some(next) => Some(at.to(next)),
        None => None,
    }
}

/// The place behind the word.
///
/// # Errors
///
/// `Found` with the place, or the farthest one that a test has looked at, where another token or none stands there.
pub fn expect_word(tokens: &[Token], at: Cursor, word: MemberWord) -> Result<Cursor, Fail<usize>>
    requires { at.at ≤ length tokens.now }
    ensures { ExpectsOn (spec.is_member_word word) tokens.now at result }
{
    match eat_word(tokens, at, word) {
        Some(next) => Ok(next),
        None => Err(at.fault()),
    }
}

/// Whether the word stands at the place.
pub fn is_member_word_at(tokens: &[Token], at: usize, word: MemberWord) -> bool
    ensures { result ≡ test (spec.is_member_word word) (first (drop at tokens.now)) }
{
    is_at(tokens, at, word_class(word))
}

/// Whether the word stands at the place, behind a line's end that counts.
pub fn is_marked_word(tokens: &[Token], at: usize, word: MemberWord) -> bool
    ensures { result ≡ test (marked (spec.is_member_word word)) (first (drop at tokens.now)) }
{
    is_member_word_at(tokens, at, word) && is_marked(tokens, at)
}
