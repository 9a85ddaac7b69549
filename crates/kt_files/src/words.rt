//! Words that mean something at the top of a file, which are names to the lexer.
ghost use Rattle.std.specs.Prelude.{◌≡◌, ◌≤◌, length};
ghost use Rattle.kt_grammar.specs.Moves.{EatsOn, ExpectsOn};
ghost use Rattle.kt_grammar.specs.Tokens.{is_of, is_import};

use kc_text::Fail;
use kt_grammar::{Cursor, eat};
use kt_lexer::Token;

/// The place behind a token of the class, where one stands at the place.
pub fn eat_of(tokens: &[Token], at: Cursor, wanted: u8) -> Option<Cursor>
    ensures { EatsOn (is_of wanted) tokens.now at result }
{
    match eat(tokens, at.at, wanted) {
        Some(next) => Some(at.to(next)),
        None => None,
    }
}

/// The place behind the word `import`.
pub fn expect_import(tokens: &[Token], at: Cursor) -> Result<Cursor, Fail<usize>>
    requires { at.at ≤ length tokens.now }
    ensures { ExpectsOn is_import tokens.now at result }
{
    match eat_of(tokens, at, 91) {
        Some(next) => Ok(next),
        None => Err(at.fault()),
    }
}
