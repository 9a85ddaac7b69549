//! The local variables of the frame that is read.
ghost use Rattle.std.specs.Prelude.{◌≡◌, ◌++◌, ◌∷◌, ◌-◌, ◌==◌, ◌&&◌, [], IfOk, OnOk, length, map, not, take};
ghost use Rattle.std.specs.List.{list_any};
ghost use Rattle.class_file.specs.ClassBytes.{is_unset};
ghost use Rattle.class_reader.specs.Locals.{set_before};

use class_file::class::VType;
use kc_text::Memory;
use shared_list::SharedList;
use std::alloc::Global;
use std::marker::Model;

/// The local variables of a frame. Copies share the types, and it is known without a walk whether the object that a constructor has
/// still to make is among them.
#[derive(Drop)]
pub struct FrameLocals {
    types: SharedList<VType>,
    // How many stand before the first such object: all, where there is none.
    set: usize,
}

impl Model for FrameLocals {
    ghost use Rattle.std.specs.Prelude.{List, ◌≡◌};
    ghost use Rattle.class_file.specs.declared.class.VType.{VType};
    ghost use Rattle.class_reader.specs.Locals.{set_before};

    ghost Value = { List VType };

    ghost view = { λ locals. locals.types };

    ghost invariant = { λ locals. locals.set ≡ set_before locals.types };
}

fn is_unset(kept: &VType) -> bool
    ensures { result ≡ is_unset kept.now }
{
    matches!(kept, VType::UninitializedThis)
}

fn set_before(types: &[&VType]) -> usize
    ensures { result ≡ set_before (map (λ kept. kept.now) types.now) }
{
    let mut count = 0;
    for kept in types {
        if is_unset(kept) {
            return count;
        }
        count += 1;
    }
    count
}

// Do all stand before the first such object, and is the one that comes behind them none?
fn is_next(set: usize, len: usize, kept: &VType) -> bool
    ensures { result ≡ ((set == len) && not (is_unset kept.now)) }
{
    set == len && !is_unset(kept)
}

impl FrameLocals {
    /// No local variables.
    pub fn new(alloc: Global) -> Result<FrameLocals, Memory>
        ensures { IfOk result (λ locals. locals ≡ []) }
    {
        Ok(FrameLocals {
            types: SharedList::new(alloc)?,
            set: 0,
        })
    }

    /// Local variables of these types, in time linear in their number.
    pub fn of(alloc: Global, types: SharedList<VType>) -> Result<FrameLocals, Memory>
        ensures { IfOk result (λ locals. locals ≡ types) }
    {
        let set = set_before(&types.in_order(alloc)?);
        Ok(FrameLocals { types, set })
    }

    /// How many there are; a `Long` is one.
    pub fn len(&self) -> usize
        ensures { result ≡ length self.now }
    {
        self.types.len()
    }

    /// The same ones, in constant time.
    pub fn share(&self) -> Result<FrameLocals, Memory>
        ensures { IfOk result (λ locals. locals ≡ self.now) }
    {
        Ok(FrameLocals {
            types: self.types.share()?,
            set: self.set,
        })
    }

    /// Their types, in constant time.
    pub fn types(&self) -> Result<SharedList<VType>, Memory>
        ensures { IfOk result (λ types. types ≡ self.now) }
    {
        self.types.share()
    }

    /// Is the object that a constructor has still to make among them? In constant time.
    pub fn has_unset(&self) -> bool
        ensures { result ≡ list_any is_unset self.now }
    {
        self.set < self.types.len()
    }

    /// Puts one more at the end, in constant time.
    pub fn push(&mut self, alloc: Global, kept: VType) -> Result<(), Memory>
        ensures { OnOk result (self.new ≡ self.old ++ kept ∷ []) }
    {
        let adds = is_next(self.set, self.types.len(), &kept);
        self.types.push(alloc, kept)?;
        if adds {
            self.set = self.types.len();
        }
        Ok(())
    }

    /// Takes the last ones away, so many of them or all, in time linear in their number.
    pub fn take_last(&mut self, gone: usize) -> Result<(), Memory>
        ensures { OnOk result (self.new ≡ take (length self.old - gone) self.old) }
    {
        self.types.take_last(gone)?;
        let len = self.types.len();
        if len < self.set {
            self.set = len;
        }
        Ok(())
    }
}
