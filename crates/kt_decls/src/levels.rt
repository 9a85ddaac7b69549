//! How deep tokens are nested.
ghost use Rattle.std.specs.Prelude.{◌≡◌, ◌≤◌, ◌<◌, ◌^◌, ◌∷◌, [], List, IfOk, OnOk, Some, None};
ghost use Rattle.kt_lexer.specs.declared.token.Token.{Token};
ghost use Rattle.kt_decls.specs.Levels.{IsFirstDeep};
ghost use Rattle.kt_decls.specs.Nesting as spec;

use crate::kinds::{Bracket, closes, counts, ends_operand, is_same, joins, opens, separates};
use kc_text::Memory;
use kt_lexer::Token;
use std::alloc::Global;

/// The highest level that a token may have.
pub const MOST_LEVEL: usize = 256;

/// A token that is nested too deep.
#[derive(Clone, Copy, Debug, PartialEq, Eq)]
pub struct TooDeep {
    /// The number of tokens before it.
    pub at: usize,
    pub level: usize,
}

// A bracket that is open, or what stands outside of all brackets, and how many of its tokens count.
#[derive(Clone, Copy)]
struct Place {
    bracket: Option<Bracket>,
    count: usize,
}

// The places that are open.
#[derive(Drop)]
struct Nesting {
    inner: Place,
    // From the outermost one on.
    outer: Vec<Place>,
    // The sum of all counts.
    level: usize,
    // Does the last token end an operand?
    operand: bool,
    // Does the last token join lines?
    joined: bool,
}

fn is_in(bracket: Bracket, place: Option<Bracket>) -> bool
    ensures { result ≡ spec.is_in bracket place }
{
    match place {
        None => false,
        Some(other) => is_same(bracket, other),
    }
}

impl Nesting {
    fn new(alloc: Global) -> Nesting
        ensures { spec.Stands [] (spec.state_of result) }
    {
        Nesting {
            inner: Place {
                bracket: None,
                count: 0,
            },
            outer: Vec::new(alloc),
            level: 0,
            operand: false,
            joined: false,
        }
    }

    fn count_after(&self, token: &Token) -> usize
        requires small { self.now.inner.count < 2 ^ 32 }
        ensures { result ≡ spec.count_after self.now.operand self.now.joined token.now self.now.inner.count }
    {
        let kept = if separates(self.joined, token) {
            0
        } else {
            self.inner.count
        };
        if counts(self.operand, &token.kind) {
            kept + 1
        } else {
            kept
        }
    }

    fn count(&mut self, token: &Token)
        requires small { self.old.level < 2 ^ 32 }
        requires fits { self.old.inner.count ≤ self.old.level }
        ensures { spec.state_of self.new ≡ spec.counted token.now (spec.state_of self.old) }
    {
        let count = self.count_after(token);
        self.level = self.level - self.inner.count + count;
        self.inner.count = count;
    }

    fn enter(&mut self, bracket: Bracket) -> Result<(), Memory>
        ensures { OnOk result (spec.state_of self.new ≡ spec.entered bracket (spec.state_of self.old)) }
    {
        self.outer.push(self.inner)?;
        self.inner = Place {
            bracket: Some(bracket),
            count: 0,
        };
        Ok(())
    }

    fn leave(&mut self, bracket: Bracket)
        requires fits { self.old.inner.count ≤ self.old.level }
        ensures { spec.state_of self.new ≡ spec.left bracket (spec.state_of self.old) }
    {
        if !is_in(bracket, self.inner.bracket) {
            return;
        }
        if let Some(place) = self.outer.pop() {
            self.level -= self.inner.count;
            self.inner = place;
        }
    }

    fn pass(&mut self, token: &Token) -> Result<(), Memory>
        requires small { self.old.level < 2 ^ 32 }
        requires fits { self.old.inner.count ≤ self.old.level }
        ensures { OnOk result (spec.state_of self.new ≡ spec.passed token.now (spec.state_of self.old)) }
    {
        self.count(token);
        if let Some(bracket) = opens(&token.kind) {
            self.enter(bracket)?;
        } else if let Some(bracket) = closes(&token.kind) {
            self.leave(bracket);
        }
        self.operand = ends_operand(token);
        self.joined = joins(&token.kind);
        Ok(())
    }
}

/// The first token with a level above this, if there is one.
pub fn first_above(alloc: Global, tokens: &[Token], most: usize) -> Result<Option<TooDeep>, Memory>
    requires { most < 2 ^ 31 }
    ensures { IfOk result (λ found. IsFirstDeep tokens.now most found) }
{
    let mut nesting = Nesting::new(alloc);
    for at in 0..tokens.len() {
        nesting.pass(&tokens[at])?;
        let level = nesting.level;
        if level > most {
            return Ok(Some(TooDeep { at, level }));
        }
    }
    Ok(None)
}

/// The first token that is nested too deep, if there is one. In each bracket that is open and outside of all of them, keywords,
/// operators, opening brackets and names behind an operand count, from the last `,` or `;` or new line on that separates; a token's
/// level is the sum of these counts up to it. The time is linear in the tokens.
pub fn first_too_deep(alloc: Global, tokens: &[Token]) -> Result<Option<TooDeep>, Memory>
    ensures { IfOk result (λ found. IsFirstDeep tokens.now 256 found) }
{
    first_above(alloc, tokens, MOST_LEVEL)
}
