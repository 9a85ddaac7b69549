//! Places in a list of tokens, with how far the tests on the way there have looked.
ghost use Rattle.std.specs.Prelude.{◌≡◌, ◌≤◌, max, length};
ghost use Rattle.kc_text.specs.declared.errors.Fail.TheVariants as faults;
ghost use Rattle.kt_grammar.specs.Behind as spec;
ghost use Rattle.kt_grammar.specs.Moves.{EatsOn, ExpectsOn};
ghost use Rattle.kt_grammar.specs.Tokens.{is_op};

use crate::tokens::eat_op;
use kc_text::Fail;
use kt_lexer::{Operator, Token};

/// A place in a list of tokens.
#[derive(Clone, Copy, Debug, PartialEq, Eq)]
pub struct Cursor {
    /// The number of tokens before the place.
    pub at: usize,
    /// The place of the farthest token that a test has looked at. It may be before `at`, and a fault is never before it.
    pub looked: usize,
}

fn farther(place: usize, other: usize) -> usize
    ensures { result ≡ max place other }
{
    if place < other { other } else { place }
}

impl Cursor {
    /// Another place, where no further test has looked on.
    pub fn to(self, at: usize) -> Cursor
        ensures { result ≡ record { at = at; looked = self.looked } }
    {
        Cursor {
            at,
            looked: self.looked,
        }
    }

    /// The fault of a token that does not go on at the place.
    pub fn fault(self) -> Fail<usize>
        ensures { result ≡ faults.Found (max self.looked self.at) }
    {
        Fail::Found(farther(self.looked, self.at))
    }

    /// The same place, where a further test has looked up to a place.
    pub fn seen(self, end: usize) -> Cursor
        ensures { result ≡ record { at = self.at; looked = max self.looked end } }
    {
        Cursor {
            at: self.at,
            looked: farther(self.looked, end),
        }
    }
}

/// What is read or refused with no test beyond the next token, where a test before that had looked up to a place.
pub fn behind<X>(
    looked: usize,
    found: Result<(X, usize), Fail<usize>>,
) -> Result<(X, Cursor), Fail<usize>>
    ensures { result ≡ spec.behind looked found }
{
    match found {
        Ok((x, at)) => Ok((x, Cursor { at, looked })),
        Err(Fail::Found(place)) => Err(Fail::Found(farther(looked, place))),
        Err(Fail::Memory) => Err(Fail::Memory),
    }
}

/// The place behind the operator, where it stands at the place.
pub fn eat_op_on(tokens: &[Token], at: Cursor, operator: Operator) -> Option<Cursor>
    ensures { EatsOn (is_op operator) tokens.now at result }
{
    match eat_op(tokens, at.at, operator) {
        Some(next) => Some(at.to(next)),
        None => None,
    }
}

/// The place behind the operator.
///
/// # Errors
///
/// `Found` with the place, or the farthest one that a test has looked at, where another token or none stands there.
pub fn expect_op_on(tokens: &[Token], at: Cursor, operator: Operator) -> Result<Cursor, Fail<usize>>
    requires { at.at ≤ length tokens.now }
    ensures { ExpectsOn (is_op operator) tokens.now at result }
{
    match eat_op(tokens, at.at, operator) {
        Some(next) => Ok(at.to(next)),
        None => Err(at.fault()),
    }
}
