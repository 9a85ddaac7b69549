//! The frames of a method.
ghost use Rattle.std.specs.Prelude.{◌≡◌, ◌++◌, ◌∷◌, [], length, map, IfOk, OnOk, OnErr};
ghost use Rattle.class_file.specs.Fronts.{is_type, common_front, fronts_behind, last_locals};

use crate::class::{Frame, VType};
use kc_text::Memory;
use shared_list::SharedList;
use sqlite_items::Items;
use std::alloc::Global;
use std::marker::Model;

/// The frames of a method in their order. They keep how many locals each one has in common with the frame before, so that frames
/// are spelled without comparing locals.
#[derive(Drop)]
pub struct Frames {
    frames: Items<Frame>,
    // The first frame has none before it.
    fronts: Items<usize>,
}

impl Model for Frames {
    ghost use Rattle.std.specs.Prelude.{List, [], ◌≡◌};
    ghost use Rattle.class_file.specs.declared.class.Frame.{Frame};
    ghost use Rattle.class_file.specs.Fronts.{fronts_behind};

    ghost Value = { List Frame };

    ghost view = { λ all. all.frames };

    ghost invariant = { λ all. all.fronts ≡ fronts_behind [] all.frames };
}

impl Frames {
    /// No frames, which take no memory.
    pub fn new(alloc: Global) -> Frames
        ensures { result ≡ [] }
    {
        Frames {
            frames: Items::new(alloc),
            fronts: Items::new(alloc),
        }
    }

    /// These frames, in time linear in them, their locals and the names that those hold.
    pub fn from_vec(alloc: Global, frames: Vec<Frame>) -> Result<Frames, Memory>
        ensures { IfOk result (λ all. all ≡ frames.items) }
    {
        let mut all = Frames::new(alloc);
        for frame in frames {
            all.push(alloc, frame)?;
        }
        Ok(all)
    }

    /// The frames.
    pub fn as_slice(&self) -> &[Frame]
        ensures { result.now ≡ self.now }
    {
        self.frames.as_slice()
    }

    /// How many frames there are.
    pub fn len(&self) -> usize
        ensures { result ≡ length self.now }
    {
        self.frames.len()
    }

    /// For each frame, how many locals it has in common with the frame before. It is 0 for the first one.
    pub fn fronts(&self) -> &[usize]
        ensures { result.now ≡ fronts_behind [] self.now }
    {
        self.fronts.as_slice()
    }

    /// Puts a frame at the end that has so many locals in common with the last one.
    pub fn push_behind(&mut self, frame: Frame, front: usize) -> Result<(), Memory>
        requires { front ≡ common_front (last_locals [] self.old) frame.locals }
        ensures ok { OnOk result (self.new ≡ self.old ++ frame ∷ []) }
        ensures err { OnErr result (self.new ≡ self.old) }
    {
        self.fronts.push(front)?;
        match self.frames.push(frame) {
            Ok(()) => Ok(()),
            Err(_) => {
                let _ = self.fronts.pop();
                Err(Memory)
            }
        }
    }

    /// Puts a frame at the end, in time linear in its locals, those of the last one and the names that they hold.
    pub fn push(&mut self, alloc: Global, frame: Frame) -> Result<(), Memory>
        ensures ok { OnOk result (self.new ≡ self.old ++ frame ∷ []) }
        ensures err { OnErr result (self.new ≡ self.old) }
    {
        let front = self.front_with(alloc, &frame.locals)?;
        self.push_behind(frame, front)
    }

    // How many locals the last frame has in common with these.
    fn front_with(&self, alloc: Global, locals: &SharedList<VType>) -> Result<usize, Memory>
        ensures { IfOk result (λ front. front ≡ common_front (last_locals [] self.now) locals.now) }
    {
        match self.frames.as_slice().last() {
            Some(last) => common_front(alloc, &last.locals, locals),
            None => Ok(0),
        }
    }
}

fn is_type(kept: &VType, other: &VType) -> bool
    ensures { result ≡ is_type kept.now other.now }
{
    match (kept, other) {
        (VType::Top, VType::Top) => true,
        (VType::Integer, VType::Integer) => true,
        (VType::Long, VType::Long) => true,
        (VType::Null, VType::Null) => true,
        (VType::UninitializedThis, VType::UninitializedThis) => true,
        (VType::Object(name), VType::Object(wanted)) => name == wanted,
        (VType::Uninitialized(at), VType::Uninitialized(place)) => *at == *place,
        _ => false,
    }
}

fn front_of(types: &[&VType], others: &[&VType]) -> usize
    ensures { result ≡ common_front (map (λ kept. kept.now) types.now) (map (λ kept. kept.now) others.now) }
{
    let mut front = 0;
    let mut rest = others;
    for kept in types {
        match rest {
            [] => return front,
            [first, more @ ..] => {
                if !is_type(kept, first) {
                    return front;
                }
                rest = more;
                front += 1;
            }
        }
    }
    front
}

/// How many types both lists have in common at their front, in time linear in both and in the names that they hold.
pub fn common_front(
    alloc: Global,
    types: &SharedList<VType>,
    others: &SharedList<VType>,
) -> Result<usize, Memory>
    ensures { IfOk result (λ front. front ≡ common_front types.now others.now) }
{
    Ok(front_of(&types.in_order(alloc)?, &others.in_order(alloc)?))
}
