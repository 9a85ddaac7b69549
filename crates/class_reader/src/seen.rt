//! The members of a class that are read, by name and descriptor.
ghost use Rattle.std.specs.Prelude.{◌≡◌, ◌∷◌, [], not, true, IfOk};
ghost use Rattle.std.specs.List.{list_any};
ghost use Rattle.class_file.specs.FormatFaults.{is_key};
ghost use Rattle.class_reader.specs.Members.{key};

use indexmap::IndexSet;
use kc_text::{Memory, Text};
use std::alloc::Global;
use std::marker::Model;

/// A member's name and descriptor.
#[derive(PartialEq, Eq, Hash, Drop)]
pub struct Member {
    pub name: Text,
    pub descriptor: Text,
}

/// The members that are read, which all differ.
#[derive(Drop)]
pub struct Seen {
    members: IndexSet<Member>,
}

impl Model for Seen {
    ghost use Rattle.std.specs.Prelude.{List, map, reverse};
    ghost use Rattle.class_file.specs.ClassBytes.{Key};
    ghost use Rattle.class_reader.specs.Members.{key_of};

    ghost Value = { List Key };

    ghost view = { λ seen. map key_of (reverse seen.members.keys) };
}

impl Seen {
    /// No members.
    pub fn new(alloc: Global) -> Seen
        ensures { result ≡ [] }
    {
        Seen {
            members: IndexSet::new(alloc),
        }
    }

    /// Adds a member, and tells whether it is new. One that is there is not added.
    pub fn add(&mut self, alloc: Global, name: &Text, descriptor: &Text) -> Result<bool, Memory>
        ensures new { IfOk result (λ new. new ≡ not (list_any (is_key (key name.now descriptor.now)) self.old)) }
        ensures added { IfOk result (λ new. new ≡ true → self.new ≡ key name.now descriptor.now ∷ self.old) }
    {
        let name = name.copy(alloc)?;
        let descriptor = descriptor.copy(alloc)?;
        let (_, new) = self.members.insert_full(Member { name, descriptor })?;
        Ok(new)
    }
}
