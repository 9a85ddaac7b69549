//! The constant pool.

ghost use Rattle.std.specs.Prelude.{◌≡◌, ◌+◌, ◌≤◌, ◌<◌, [], ◌∷◌, ◌++◌, length, None, Some, Contains, IfOk, OnOk, OnErr};
ghost use Rattle.class_file.specs.Pools.{entry_at, Extends};
ghost use Rattle.class_file.specs.Indexing.{IndexesOnce, HasNoRoom, added, places_of};
ghost use Rattle.kc_text.specs.Fail.{IfFound};
ghost use Rattle.std.specs.Option.{option_copied};

use indexmap::IndexMap;
use kc_text::{Fail, Memory, Text};
use std::alloc::Global;
use std::marker::Model;

/// An entry of a constant pool (Java Virtual Machine Specification SE 8, 4.4). The numbers are indexes of other entries.
#[derive(PartialEq, Eq, Hash, Drop)]
pub enum Entry {
    Utf8(Text),
    Integer(i32),
    Long(i64),
    Class(u16),
    Str(u16),
    FieldRef(u16, u16),
    MethodRef(u16, u16),
    InterfaceMethodRef(u16, u16),
    NameAndType(u16, u16),
}

/// The pool has no room: its count of indexes is at most 65,535 (4.1).
#[derive(Clone, Copy, Debug, PartialEq, Eq)]
pub struct PoolFull;

// The most indexes in use, from 1 on.
const MOST: usize = 65_534;

/// A constant pool: what stands at each index. At index 0 and at the index behind a `Long` stands no entry.
#[derive(Drop)]
pub struct Pool {
    // The different entries, with the first index of each.
    entries: IndexMap<Entry, u16>,
    // For each index from 1 on the place of its entry among them.
    places: Vec<Option<usize>>,
}

impl Model for Pool {
    ghost use Rattle.std.specs.Prelude.{List, Option, None, ◌∷◌};
    ghost use Rattle.class_file.specs.declared.pool.Entry.{Entry};

    ghost Value = { List (Option Entry) };

    ghost use Rattle.indexmap.specs.IndexMap.{keys};
    ghost use Rattle.class_file.specs.Indexing.{slots_of, IsIndex};

    ghost view = { λ pool. slots_of (keys pool.entries) pool.places.items };

    ghost invariant = { λ pool. IsIndex (keys pool.entries) pool.entries.entries pool.places.items };
}

impl Pool {
    /// A pool without entries, which takes no memory.
    pub fn new(alloc: Global) -> Pool
        ensures { result ≡ None ∷ [] }
    {
        Pool {
            entries: IndexMap::new(alloc),
            places: Vec::new(alloc),
        }
    }

    /// The pool's count (4.1): one more than the indexes in use.
    pub fn count(&self) -> usize
        ensures { result ≡ length self.now }
    {
        self.places.len() + 1
    }

    /// The entry at an index, if there is one.
    pub fn get(&self, index: usize) -> Option<&Entry>
        ensures { option_copied result ≡ entry_at self.now index }
    {
        let places = &self.places;
        if index == 0 || index > places.len() {
            return None;
        }
        let place = places[index - 1]?;
        let (entry, _) = self.entries.get_index(place)?;
        Some(entry)
    }

    /// The index of this entry, which goes to the pool's end if it is not there yet. It costs one hash of the entry, whatever the
    /// pool's length.
    pub fn index(&mut self, entry: Entry) -> Result<u16, Fail<PoolFull>>
        ensures at { IfOk result (λ index. (0 < index) × (entry_at self.new index ≡ Some entry)) }
        ensures ok { OnOk result (IndexesOnce self.old self.new entry) }
        ensures extends { Extends self.old self.new }

        // It is refused exactly where the entry is new and there is no room, but for want of memory.
        ensures room { OnOk result (¬ (HasNoRoom self.old entry)) }
        ensures full { IfFound result (λ _. HasNoRoom self.old entry) }
        ensures err { OnErr result (self.new ≡ self.old) }
    {
        if let Some(index) = self.entries.get(&entry).copied() {
            return Ok(index);
        }
        if self.places.len() + places_of(&entry) > MOST {
            return Err(Fail::Found(PoolFull));
        }
        Ok(self.add(entry)?)
    }

    /// Puts an entry at the pool's end, also one that is there already: its first index counts.
    pub fn append(&mut self, entry: Entry) -> Result<(), Memory>
        requires { length self.old + places_of entry ≤ 65535 }
        ensures ok { OnOk result (self.new ≡ self.old ++ added entry) }
        ensures err { OnErr result (self.new ≡ self.old) }
    {
        match self.entries.get(&entry).copied() {
            None => {
                let _ = self.add(entry)?;
                Ok(())
            }
            Some(index) => {
                self.add_again(index, &entry)?;
                Ok(())
            }
        }
    }

    // Puts an entry, which stands at this index, at the end once more.
    fn add_again(&mut self, index: u16, entry: &Entry) -> Result<(), Memory>
        requires at { (0 < index) × (entry_at self.old index ≡ Some entry.now) }
        requires room { length self.old + places_of entry.now ≤ 65535 }
        ensures ok { OnOk result (self.new ≡ self.old ++ added entry.now) }
        ensures err { OnErr result (self.new ≡ self.old) }
    {
        let count = places_of(entry);
        self.places.reserve(2)?;
        let place = self.places[index as usize - 1];
        self.places.push(place)?;
        if count == 2 {
            self.places.push(None)?;
        }
        Ok(())
    }

    // Adds a new entry, for which there is room.
    fn add(&mut self, entry: Entry) -> Result<u16, Memory>
        requires new { ¬ (Contains self.old (Some entry)) }
        requires room { length self.old + places_of entry ≤ 65535 }
        ensures at { IfOk result (λ index. (0 < index) × (entry_at self.new index ≡ Some entry)) }
        ensures ok { OnOk result (self.new ≡ self.old ++ added entry) }
        ensures err { OnErr result (self.new ≡ self.old) }
    {
        let place = self.entries.len();
        let index = (self.places.len() + 1) as u16;
        let count = places_of(&entry);
        self.places.reserve(2)?;
        self.entries.insert(entry, index)?;
        self.places.push(Some(place))?;
        if count == 2 {
            self.places.push(None)?;
        }
        Ok(index)
    }
}

// How many indexes an entry takes.
fn places_of(entry: &Entry) -> usize
    ensures exact { result ≡ places_of entry.now }
    ensures small { result ≤ 2 }
{
    match entry {
        Entry::Long(_) => 2,
        Entry::Utf8(_)
        | Entry::Integer(_)
        | Entry::Class(_)
        | Entry::Str(_)
        | Entry::FieldRef(_, _)
        | Entry::MethodRef(_, _)
        | Entry::InterfaceMethodRef(_, _)
        | Entry::NameAndType(_, _) => 1,
    }
}

#[cfg(test)]
mod tests {
    use super::*;
    use std::test::Fail as Failed;

    fn text(alloc: Global, letter: u8) -> Result<Text, Memory> {
        let mut text = Text::new(alloc);
        text.push(u16::from(letter))?;
        Ok(text)
    }

    #[test]
    fn gives_indexes(rt: HostRuntime) -> Result<(), Failed> {
        let mut pool = Pool::new(rt.alloc());
        assert!(rt; pool.get(0).is_none());
        assert!(rt; pool.get(1).is_none());
        assert_eq!(rt; pool.index(Entry::Utf8(text(rt.alloc(), 97)?))?, 1);
        assert_eq!(rt; pool.index(Entry::Long(7))?, 2);
        assert_eq!(rt; pool.index(Entry::Class(1))?, 4);
        assert_eq!(rt; pool.index(Entry::Str(1))?, 5);
        assert_eq!(rt; pool.index(Entry::Utf8(text(rt.alloc(), 97)?))?, 1);
        assert_eq!(rt; pool.index(Entry::Long(7))?, 2);
        assert_eq!(rt; pool.index(Entry::Utf8(text(rt.alloc(), 98)?))?, 6);
        assert!(rt; matches!(pool.get(4), Some(Entry::Class(1))));
        assert!(rt; pool.get(3).is_none());
        assert!(rt; pool.get(7).is_none());
        Ok(())
    }

    #[test]
    fn takes_an_entry_again(rt: HostRuntime) -> Result<(), Failed> {
        let mut pool = Pool::new(rt.alloc());
        pool.append(Entry::Class(2))?;
        pool.append(Entry::Long(7))?;
        pool.append(Entry::Class(2))?;
        pool.append(Entry::Long(7))?;
        assert_eq!(rt; pool.count(), 7);
        assert!(rt; matches!(pool.get(4), Some(Entry::Class(2))));
        assert!(rt; matches!(pool.get(5), Some(Entry::Long(7))));
        assert!(rt; pool.get(6).is_none());
        assert_eq!(rt; pool.index(Entry::Long(7))?, 2);
        Ok(())
    }

    #[test]
    fn has_an_end(rt: HostRuntime) -> Result<(), Failed> {
        let mut pool = Pool::new(rt.alloc());
        for number in 0..65_533 {
            let _ = pool.index(Entry::Integer(number))?;
        }
        assert!(rt; matches!(pool.index(Entry::Long(0)), Err(Fail::Found(PoolFull))));
        assert_eq!(rt; pool.index(Entry::Integer(65_533))?, 65_534);
        assert!(rt;
            matches!(
                pool.index(Entry::Integer(65_534)),
                Err(Fail::Found(PoolFull))
            )
        );
        assert_eq!(rt; pool.index(Entry::Integer(0))?, 1);
        Ok(())
    }
}
