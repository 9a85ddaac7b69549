//! The brackets that are open.
ghost use Rattle.std.specs.Prelude.{◌≡◌, ◌∷◌, ◌++◌, ℕ, List, [], reverse, OnOk, OnErr};
ghost use Rattle.kt_lexer.specs.Openings as spec;
ghost use Rattle.kt_lexer.specs.declared.pieces.Open.{Open as Bracket};

use crate::pieces::Open;
use std::alloc::{AllocError, Global};
use std::marker::Model;

/// The brackets that are open, seen as a list from the innermost on.
#[derive(Drop)]
pub struct Openings {
    brackets: Vec<Open>,
}

impl Model for Openings {
    ghost Value = { List Bracket };

    ghost view = { λ openings. reverse openings.brackets.items };
}

impl Openings {
    /// No open bracket.
    pub fn new(alloc: Global) -> Openings
        ensures { result ≡ [] }
    {
        Openings {
            brackets: Vec::new(alloc),
        }
    }

    pub fn innermost(&self) -> Option<Open>
        ensures { result ≡ spec.innermost self.now }
    {
        self.brackets.last().copied()
    }

    pub fn push(&mut self, bracket: Open) -> Result<(), AllocError>
        ensures ok { OnOk result (self.new ≡ bracket ∷ self.old) }
    {
        self.brackets.push(bracket)?;
        Ok(())
    }

    /// Closes the innermost bracket, where one is open.
    pub fn pop(&mut self)
        ensures { self.new ≡ spec.outer self.old }
    {
        let _closed = self.brackets.pop();
    }

    /// The opening quote of the innermost string that is open.
    pub fn open_quote(&self) -> Option<usize>
        ensures { result ≡ spec.open_quote self.now }
    {
        quote_among(self.brackets.as_slice())
    }
}

/// The opening quote that stands last.
fn quote_among(brackets: &[Open]) -> Option<usize>
    ensures { result ≡ spec.open_quote (reverse brackets.now) }
{
    let mut index = brackets.len();
    while 0 < index {
        index -= 1;
        if let Open::Quote(at) = brackets[index] {
            return Some(at);
        }
    }
    None
}
