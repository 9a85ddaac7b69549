//! Tests of single tokens.
ghost use Rattle.std.specs.Prelude.{◌≡◌, ◌≤◌, not, length, drop};
ghost use Rattle.grammars.specs.Grammar.{first, test};
ghost use Rattle.kt_grammar.specs.Beginnings.{of_kind};
ghost use Rattle.kt_grammar.specs.Moves.{ExpectsOn};
ghost use Rattle.kt_grammar.specs.Tokens as tokens_of;
ghost use Rattle.kt_grammar.specs.Tokens.{unmarked};

use kc_text::Fail;
use kt_bodies::begins_local;
use kt_grammar::{Cursor, begins_expression, is_at, keyword_class};
use kt_lexer::{Keyword, Token, TokenKind};

/// Whether the keyword stands at the place.
pub fn is_word_at(tokens: &[Token], at: usize, keyword: Keyword) -> bool
    ensures { result ≡ test (tokens_of.is_word keyword) (first (drop at tokens.now)) }
{
    is_at(tokens, at, keyword_class(keyword))
}

/// Whether no line ends before the token at the place in a way that counts.
fn is_unmarked(tokens: &[Token], at: usize) -> bool
    ensures { result ≡ test (λ t. not t.marked) (first (drop at tokens.now)) }
{
    match tokens.get(at) {
        Some(token) => !token.marked,
        None => false,
    }
}

/// Whether an expression begins at the place, on the same line.
pub fn begins_on_line(tokens: &[Token], at: usize) -> bool
    ensures { result ≡ test (unmarked tokens_of.begins_expression) (first (drop at tokens.now)) }
{
    begins_expression(tokens, at) && is_unmarked(tokens, at)
}

fn is_break(kind: &TokenKind) -> bool
    ensures { result ≡ tokens_of.is_break (of_kind kind.now) }
{
    match kind {
        TokenKind::Word(Keyword::Break) | TokenKind::Word(Keyword::Continue) => true,
        _ => false,
    }
}

/// Whether `break` or `continue` stands at the place.
fn begins_break(tokens: &[Token], at: usize) -> bool
    ensures { result ≡ test tokens_of.is_break (first (drop at tokens.now)) }
{
    match tokens.get(at) {
        Some(token) => is_break(&token.kind),
        None => false,
    }
}

/// The place behind `break` or `continue`.
///
/// # Errors
///
/// `Found` with the place, or the farthest one that a test has looked at, where another token or none stands there.
pub fn expect_break(tokens: &[Token], at: Cursor) -> Result<Cursor, Fail<usize>>
    requires { at.at ≤ length tokens.now }
    ensures { ExpectsOn tokens_of.is_break tokens.now at result }
{
    if begins_break(tokens, at.at) {
        return Ok(at.to(at.at + 1));
    }
    Err(at.fault())
}

/// The place behind `val` or `var`.
///
/// # Errors
///
/// `Found` with the place, or the farthest one that a test has looked at, where another token or none stands there.
pub fn expect_local(tokens: &[Token], at: Cursor) -> Result<Cursor, Fail<usize>>
    requires { at.at ≤ length tokens.now }
    ensures { ExpectsOn tokens_of.is_local tokens.now at result }
{
    if begins_local(tokens, at.at) {
        return Ok(at.to(at.at + 1));
    }
    Err(at.fault())
}
