//! Single tokens, with how far tests have looked.
ghost use Rattle.std.specs.Prelude.{◌≡◌, ◌≤◌, length};
ghost use Rattle.kt_bodies.specs.Terminals as spec;
ghost use Rattle.kt_grammar.specs.Moves.{EatsOn, ExpectsOn};

use kc_text::Fail;
use kc_tree::Word;
use kt_grammar::{Cursor, eat, keyword_class, word_at};
use kt_lexer::{Keyword, Token};

/// A token that has no more to it than its class.
#[derive(Clone, Copy)]
pub enum Terminal {
    Word(Keyword),
    /// The word `catch`, which is a name to the lexer.
    Catch,
    /// The word `finally`, which is a name to the lexer.
    Finally,
}

fn terminal_class(terminal: Terminal) -> u8
    ensures { result ≡ spec.terminal_class terminal }
{
    match terminal {
        Terminal::Word(keyword) => keyword_class(keyword),
        Terminal::Catch => 84,
        Terminal::Finally => 85,
    }
}

/// The place behind such a token, where one stands at the place.
pub fn eat_on(tokens: &[Token], at: Cursor, terminal: Terminal) -> Option<Cursor>
    ensures { EatsOn (spec.is_terminal terminal) tokens.now at result }
{
    match eat(tokens, at.at, terminal_class(terminal)) {
        Some(next) => Some(at.to(next)),
        None => None,
    }
}

/// The place behind such a token.
///
/// # Errors
///
/// `Found` with the place, or the farthest one that a test has looked at, where another token or none stands there.
pub fn expect_on(tokens: &[Token], at: Cursor, terminal: Terminal) -> Result<Cursor, Fail<usize>>
    requires { at.at ≤ length tokens.now }
    ensures { ExpectsOn (spec.is_terminal terminal) tokens.now at result }
{
    match eat_on(tokens, at, terminal) {
        Some(next) => Ok(next),
        None => Err(at.fault()),
    }
}

/// The name at the place, and the place behind it.
///
/// # Errors
///
/// `Found` with the place, or the farthest one that a test has looked at, where another token or none stands there.
pub fn expect_name_on(tokens: &[Token], at: Cursor) -> Result<(Word, Cursor), Fail<usize>>
    requires { at.at ≤ length tokens.now }
    ensures { spec.ExpectsNameOn tokens.now at result }
{
    match word_at(tokens, at.at) {
        Some(word) => Ok((word, at.to(at.at + 1))),
        None => Err(at.fault()),
    }
}
