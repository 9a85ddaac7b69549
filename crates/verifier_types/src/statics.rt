//! The static methods of a class file, by name and descriptor.
ghost use Rattle.std.specs.Prelude.{◌≡◌, IfOk, OnOk};
ghost use Rattle.indexmap.specs.IndexMap.{get};
ghost use Rattle.class_file.specs.Lots.{static_named};
ghost use Rattle.verifier_types.specs.Places.{have_same, is_static_named, or_place, place_if, StaticsAre};

use crate::places::note;
use class_file::class::Method;
use indexmap::IndexMap;
use kc_text::Memory;
use std::alloc::Global;
use std::marker::Model;

/// A method's name and descriptor.
#[derive(Clone, Copy, PartialEq, Eq, Hash)]
pub struct Signature<'a> {
    name: &'a [u16],
    descriptor: &'a [u16],
}

// Keeps the place of a static method that is the first one of its name and descriptor.
fn note_static<'a>(
    places: &mut IndexMap<Signature<'a>, usize>,
    method: &'a Method,
    place: usize,
) -> Result<(), Memory>
    ensures { OnOk result ((t : Signature) → get have_same places.new t ≡ or_place (get have_same places.old t) (place_if (is_static_named t.name.now t.descriptor.now method.now) place)) }
{
    // ACC_STATIC (JVM Specification SE 8, 4.6)
    if method.flags & 8 == 0 {
        return Ok(());
    }
    let signature = Signature {
        name: method.name.units(),
        descriptor: method.descriptor.units(),
    };
    note(places, signature, place)
}

fn places_of<'a>(
    alloc: Global,
    methods: &'a [Method],
) -> Result<IndexMap<Signature<'a>, usize>, Memory>
    ensures { IfOk result (λ places. StaticsAre places methods.now) }
{
    let mut places = IndexMap::new(alloc);
    for (place, method) in methods.iter().enumerate() {
        note_static(&mut places, method, place)?;
    }
    Ok(places)
}

fn place_in<'a>(
    places: &IndexMap<Signature<'a>, usize>,
    name: &'a [u16],
    descriptor: &'a [u16],
) -> Option<usize>
    ensures { result ≡ get have_same places.now (record { name = name.entry; descriptor = descriptor.entry }) }
{
    let place = places.get(&Signature { name, descriptor })?;
    Some(*place)
}

/// The static methods of a class file, which are looked up in constant time.
#[derive(Drop)]
pub struct Statics<'a> {
    methods: &'a [Method],
    places: IndexMap<Signature<'a>, usize>,
}

impl<'a> Model for Statics<'a> {
    ghost use Rattle.std.specs.Prelude.{List};
    ghost use Rattle.class_file.specs.declared.class.Method.{Method};
    ghost use Rattle.verifier_types.specs.Places.{StaticsAre};

    ghost Value = { List Method };

    ghost view = { λ s. s.methods.now };

    ghost invariant = { λ s. StaticsAre s.places s.methods.now };
}

impl<'a> Statics<'a> {
    /// Of these methods, in time linear in their names and descriptors.
    pub fn of(alloc: Global, methods: &'a [Method]) -> Result<Statics<'a>, Memory>
        ensures { IfOk result (λ statics. statics ≡ methods.now) }
    {
        let places = places_of(alloc, methods)?;
        Ok(Statics { methods, places })
    }

    /// The place of the first static method of this name and descriptor among all methods.
    pub fn place(&self, name: &[u16], descriptor: &[u16]) -> Option<usize>
        ensures { result ≡ static_named name.now descriptor.now self.now }
    {
        place_in(&self.places, name, descriptor)
    }
}
