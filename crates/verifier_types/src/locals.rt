//! The types of the local variables.
ghost use Rattle.std.specs.Prelude.{◌≡◌, ◌∷◌, ◌++◌, ◌<◌, [], OnOk, map, length, slice_get, slice_set};
ghost use Rattle.std.specs.Option.{option_map};
ghost use Rattle.verifier_types.specs.Seen.{type_of};

use crate::types::VerificationType;
use kc_text::Memory;
use std::alloc::Global;
use std::marker::Model;

/// The types of the local variables, one for each place. Contracts see them as a list.
#[derive(Drop)]
pub struct Locals<'a> {
    types: Vec<VerificationType<'a>>,
}

impl<'a> Model for Locals<'a> {
    ghost use Rattle.std.specs.Prelude.{List, map};
    ghost use Rattle.class_file.specs.declared.class.VType.{VType};
    ghost use Rattle.verifier_types.specs.Seen.{type_of};

    ghost Value = { List VType };

    ghost view = { λ l. map type_of l.types.items };
}

impl<'a> Locals<'a> {
    /// No local variables, which takes no memory.
    pub fn new(alloc: Global) -> Locals<'a>
        ensures { result ≡ [] }
    {
        Locals {
            types: Vec::new(alloc),
        }
    }

    /// How many places there are.
    pub fn len(&self) -> usize
        ensures { result ≡ length self.now }
    {
        self.types.len()
    }

    /// The types.
    pub fn as_slice(&self) -> &[VerificationType<'a>]
        ensures { map type_of result.now ≡ self.now }
    {
        self.types.as_slice()
    }

    /// Adds a place at the end.
    pub fn push(&mut self, t: VerificationType<'a>) -> Result<(), Memory>
        ensures { OnOk result (self.new ≡ self.old ++ type_of t.entry ∷ []) }
    {
        self.types.push(t)?;
        Ok(())
    }

    /// The type at a place.
    pub fn get(&self, at: usize) -> Option<VerificationType<'a>>
        ensures { option_map type_of result ≡ slice_get self.now at }
    {
        self.types.get(at).copied()
    }

    /// Writes a place.
    pub fn set(&mut self, at: usize, t: VerificationType<'a>)
        requires { at < length self.old }
        ensures { self.new ≡ slice_set self.old at (type_of t.entry) }
    {
        self.types[at] = t;
    }
}
