//! The types of an operand stack.
ghost use Rattle.std.specs.Prelude.{◌≡◌, ◌∷◌, ◌≤◌, [], true, false, reverse, OnOk, map, drop, length};
ghost use Rattle.class_file.specs.Typing.{widths, pop2_needs};
ghost use Rattle.verifier_types.specs.Seen.{type_of, Popped};

use crate::types::VerificationType;
use kc_text::Memory;
use std::alloc::Global;
use std::marker::Model;

const MOST_PLACES: usize = 0x0fff_ffff_ffff_ffff;

/// The types of an operand stack. Contracts see them as a list with the top first.
#[derive(Drop)]
pub struct Stack<'a> {
    // The top last.
    types: Vec<VerificationType<'a>>,
    // How many places they take together.
    width: usize,
}

impl<'a> Model for Stack<'a> {
    ghost use Rattle.std.specs.Prelude.{◌≡◌, List, map, reverse};
    ghost use Rattle.class_file.specs.declared.class.VType.{VType};
    ghost use Rattle.class_file.specs.Typing.{widths};
    ghost use Rattle.verifier_types.specs.Seen.{type_of};

    ghost Value = { List VType };

    ghost view = { λ s. map type_of (reverse s.types.items) };

    ghost invariant = { λ s. s.width ≡ widths (map type_of (reverse s.types.items)) };
}

impl<'a> Stack<'a> {
    /// An empty stack, which takes no memory.
    pub fn new(alloc: Global) -> Stack<'a>
        ensures { result ≡ [] }
    {
        Stack {
            types: Vec::new(alloc),
            width: 0,
        }
    }

    /// How many values there are.
    pub fn len(&self) -> usize
        ensures { result ≡ length self.now }
    {
        self.types.len()
    }

    /// How many places they take.
    pub fn width(&self) -> usize
        ensures { result ≡ widths self.now }
    {
        self.width
    }

    /// How many places those below the upper ones take.
    pub fn width_below(&self, count: usize) -> usize
        ensures { result ≡ widths (drop count self.now) }
    {
        width_below(&self.types, count, self.width)
    }

    /// The types, the top last.
    pub fn as_slice(&self) -> &[VerificationType<'a>]
        ensures { map type_of (reverse result.now) ≡ self.now }
    {
        self.types.as_slice()
    }

    /// How many values `pop2` takes.
    pub fn pop2_needs(&self) -> usize
        ensures { result ≡ pop2_needs self.now }
    {
        match self.types.as_slice() {
            [.., VerificationType::Long] => 1,
            _ => 2,
        }
    }

    /// Takes the upper ones off, of which there are so many.
    pub fn drop_upper(&mut self, count: usize)
        ensures { self.new ≡ drop count self.old }
    {
        for _ in 0..count {
            let _ = self.pop();
        }
    }

    /// Puts a type on top.
    pub fn push(&mut self, t: VerificationType<'a>) -> Result<(), Memory>
        ensures { OnOk result (self.new ≡ type_of t.entry ∷ self.old) }
    {
        // No memory holds so many.
        if self.width > MOST_PLACES {
            return Err(Memory);
        }
        self.types.push(t)?;
        self.width += t.width();
        Ok(())
    }

    /// Takes the top off.
    pub fn pop(&mut self) -> Option<VerificationType<'a>>
        ensures { Popped result self.old self.new }
    {
        let t = self.types.pop()?;
        self.width -= t.width();
        Some(t)
    }
}

// The places that those below the upper ones take, where all take so many.
fn width_below(types: &[VerificationType], count: usize, width: usize) -> usize
    requires { width ≡ widths (map type_of (reverse types.now)) }
    ensures { result ≡ widths (drop count (map type_of (reverse types.now))) }
{
    if count == 0 {
        return width;
    }
    match types {
        [] => 0,
        [below @ .., top] => width_below(below, count - 1, width - top.width()),
    }
}
