//! `Names`, a list of different texts.
ghost use Rattle.std.specs.Prelude.{◌≡◌, ℕ, ◌<◌, ◌↔◌, List, [], length, slice_get, Contains, IsTrue, IsSome, IfSome, IfOk, OnOk, OnErr};
ghost use Rattle.kc_text.specs.NameList.{AllDifferent, AddsOnce, KeepsNumbers};

use crate::{Memory, Text};
use indexmap::IndexSet;
use std::alloc::Global;
use std::marker::Model;

/// A list of different texts. Elsewhere a name is its number, which is its index in this list.
#[derive(Drop)]
pub struct Names {
    texts: IndexSet<Text>,
}

impl Model for Names {
    ghost Value = { List (List ℕ) };

    ghost view = { λ names. names.texts.keys };

    ghost invariant = { λ names. AllDifferent names.texts.keys };
}

impl Names {
    /// A list with no name. It keeps the allocator, from which `add` takes memory.
    pub fn new(alloc: Global) -> Names
        ensures { result ≡ [] }
    {
        Names {
            texts: IndexSet::new(alloc),
        }
    }

    /// How many names there are.
    pub fn len(&self) -> usize
        ensures count { result ≡ length self.now }
        ensures different { AllDifferent self.now }
    {
        self.texts.len()
    }

    pub fn is_empty(&self) -> bool
        ensures { IsTrue result ↔ (self.now ≡ []) }
    {
        self.texts.is_empty()
    }

    /// The number of this text, which goes to the list's end if it is not there yet.
    pub fn add(&mut self, name: Text) -> Result<usize, Memory>
        ensures number { IfOk result (λ number. slice_get self.new number ≡ Some name) }
        ensures ok { OnOk result (AddsOnce self.old self.new name) }
        ensures err { OnErr result (self.new ≡ self.old) }
        ensures keeps { KeepsNumbers self.old self.new }
        ensures different { AllDifferent self.new }
    {
        let (number, _) = self.texts.insert_full(name)?;
        Ok(number)
    }

    /// The text with this number.
    pub fn text(&self, name: usize) -> &Text
        requires { name < length self.now }
        ensures { slice_get self.now name ≡ Some result.now }
    {
        &self.texts[name]
    }

    /// The number of this text. It costs one hash of the text, whatever the list's length.
    pub fn find(&self, name: &Text) -> Option<usize>
        ensures listed { IsSome result ↔ Contains self.now name.now }
        ensures number { IfSome result (λ number. slice_get self.now number ≡ Some name.now) }
        ensures different { AllDifferent self.now }
    {
        self.texts.get_index_of(name)
    }
}
