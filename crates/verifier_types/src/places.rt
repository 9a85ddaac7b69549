//! Places that are kept by a key.
ghost use Rattle.std.specs.Prelude.{◌≡◌, OnOk};
ghost use Rattle.indexmap.specs.IndexMap.{get};
ghost use Rattle.verifier_types.specs.Places.{or_place, place_if};

use indexmap::IndexMap;
use kc_text::Memory;
use std::hash::Hash;

/// Keeps the place of a key that has none yet.
pub fn note<K: Copy + Eq + Hash>(
    places: &mut IndexMap<K, usize>,
    key: K,
    place: usize,
) -> Result<(), Memory>
    ensures { OnOk result ((t : K) → get K.eq places.new t ≡ or_place (get K.eq places.old t) (place_if (K.eq key t) place)) }
{
    if places.contains_key(&key) {
        return Ok(());
    }
    places.insert(key, place)?;
    Ok(())
}
