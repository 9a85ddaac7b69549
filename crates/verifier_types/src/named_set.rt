//! Sets of class files with their classes by name.
ghost use Rattle.std.specs.Prelude.{◌≡◌, ◌<◌, ◌^◌, IfOk, IfSome, length, map, slice_get};
ghost use Rattle.std.specs.Option.{option_copied, option_map};
ghost use Rattle.indexmap.specs.IndexMap.{get};
ghost use Rattle.class_file.specs.Classes.{class_named};
ghost use Rattle.verifier_types.specs.Places.{are_same, PlacesAre};

use crate::places::note;
use crate::statics::Statics;
use class_file::class::{ClassFile, Set};
use indexmap::IndexMap;
use kc_text::Memory;
use std::alloc::Global;
use std::marker::Model;

fn place_in<'a>(places: &IndexMap<&'a [u16], usize>, name: &'a [u16]) -> Option<usize>
    ensures { result ≡ get are_same places.now name.entry }
{
    match places.get(&name) {
        Some(place) => Some(*place),
        None => None,
    }
}

fn places_of<'a>(
    alloc: Global,
    classes: &'a [ClassFile],
) -> Result<IndexMap<&'a [u16], usize>, Memory>
    ensures { IfOk result (λ places. PlacesAre places classes.now) }
{
    let mut places = IndexMap::new(alloc);
    for (place, class) in classes.iter().enumerate() {
        note(&mut places, class.this_name.units(), place)?;
    }
    Ok(places)
}

fn statics_of<'a>(alloc: Global, classes: &'a [ClassFile]) -> Result<Vec<Statics<'a>>, Memory>
    ensures { IfOk result (λ all. all.items ≡ map (λ c. c.methods) classes.now) }
{
    let mut all = Vec::new(alloc);
    for class in classes {
        all.push(Statics::of(alloc, class.methods.as_slice())?)?;
    }
    Ok(all)
}

/// A set of class files, whose classes are looked up by name in constant time, and so are their static methods.
#[derive(Drop)]
pub struct NamedSet<'a> {
    set: &'a Set,
    places: IndexMap<&'a [u16], usize>,
    statics: Vec<Statics<'a>>,
}

impl<'a> Model for NamedSet<'a> {
    ghost use Rattle.class_file.specs.declared.class.Set.{Set as SetValue};
    ghost use Rattle.verifier_types.specs.Places.{PlacesAre};

    ghost Value = { SetValue };

    ghost view = { λ c. c.set.now };

    ghost use Rattle.std.specs.Prelude.{◌≡◌, map};

    ghost invariant = { λ c. PlacesAre c.places c.set.now.classes × c.statics.items ≡ map (λ file. file.methods) c.set.now.classes };
}

impl<'a> NamedSet<'a> {
    /// A set with its classes by name, in time linear in the set.
    pub fn new(alloc: Global, set: &'a Set) -> Result<NamedSet<'a>, Memory>
        ensures { IfOk result (λ named. named ≡ set.now) }
    {
        let classes = set.classes.as_slice();
        let places = places_of(alloc, classes)?;
        let statics = statics_of(alloc, classes)?;
        Ok(NamedSet {
            set,
            places,
            statics,
        })
    }

    /// The set.
    pub fn as_set(&self) -> &'a Set
        ensures { result.now ≡ self.now }
    {
        self.set
    }

    /// How many class files there are.
    pub fn count(&self) -> usize
        ensures exact { result ≡ length self.now.classes }
        ensures small { result < 2 ^ 63 }
    {
        self.set.classes.as_slice().len()
    }

    /// The class file at a place.
    pub fn get(&self, place: usize) -> Option<&'a ClassFile>
        ensures { option_copied result ≡ slice_get self.now.classes place }
    {
        self.set.classes.get(place)
    }

    /// The place of the first class of this name.
    pub fn place(&self, name: &[u16]) -> Option<usize>
        ensures exact { result ≡ class_named name.now self.now.classes }
        ensures small { IfSome result (λ place. place < 2 ^ 63) }
    {
        let _count = self.count();
        place_in(&self.places, name)
    }

    /// The static methods of the class file at a place.
    pub fn statics(&self, place: usize) -> Option<&Statics<'a>>
        ensures { option_copied result ≡ option_map (λ c. c.methods) (slice_get self.now.classes place) }
    {
        self.statics.get(place)
    }
}
