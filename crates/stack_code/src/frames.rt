//! The frames of a function's method: what is known where a jump leads, and behind code that does not go on.

ghost use Rattle.std.specs.Prelude.{◌≡◌, ◌≤◌, ◌+◌, ◌-◌, ◌++◌, ◌∷◌, ◌&&◌, ◌||◌, [], map, not, true, false, if◌then◌else◌, IfOk, OnOk, get_or, length, drop};
ghost use Rattle.kc_core.specs.Formed.{marked};
ghost use Rattle.class_file.specs.Typing.{same};
ghost use Rattle.stack_code.specs.Code.{Operation, bytes_of, kept, stores, loads, discards, to_text, truth};
ghost use Rattle.stack_code.specs.Emission.{after_part, after_text};
ghost use Rattle.stack_code.specs.Frames.{traced_of, local_type, frame_at, frames_from, local_types, in_line, behind_line, behind, kept_known, both, meeting, with_assigned, with_value, value_types, truth_known, held, condition_known};
ghost use Rattle.stack_code.specs.Walking.{operand_type, set_of, met, known_of, Moves, Walks, WalksOne, PassesTruth, joined, Does, DoesOne, DoesTwo, DoesCompared, DoesLine, Tests, TestsPlain, DoesKind, TestsKind, write_layer, minus_layer, binary_layer, short_layer, texts_layer, native_layer, block_layer, if_layer, if_else_layer, while_layer};

use crate::constants::ascii;
use crate::measures::{local_size, plus};
use class_file::class::{Frame, VType};
use kc_core::tree::{Local, TypeTree};
use kc_text::Memory;
use shared_list::SharedList;
use sqlite_items::Items;
use std::alloc::Global;
use std::mem::replace;

/// What an operand is: a number, also that of a Boolean, or a text.
#[derive(Clone, Copy)]
pub enum Operand {
    Number,
    Text,
}

/// A place of a method's code in bytes, what is known there, and the frames before it. `assigned` has a flag for each local at least; the
/// top of the stack is last.
#[derive(Drop)]
pub struct Walk {
    pub at: usize,
    pub assigned: Vec<bool>,
    pub stack: Vec<Operand>,
    pub frames: Vec<Frame>,
}

/// What a test comes to: whether it can go on at its end, whether it can go on elsewhere, and what is assigned there.
#[derive(Drop)]
pub struct Branch {
    pub goes: bool,
    pub exits: bool,
    pub jumped: Vec<bool>,
}

/// Is the flag of a place set?
pub fn is_set(flags: &[bool], at: usize) -> bool
    ensures { result ≡ get_or flags.now at false }
{
    match flags.get(at) {
        Some(flag) => *flag,
        None => false,
    }
}

fn text_type(alloc: Global) -> Result<VType, Memory>
    ensures { IfOk result (λ t. t ≡ operand_type (Operand.Text)) }
{
    Ok(VType::Object(ascii(alloc, b"java/lang/String")?))
}

// A local's type where it is assigned.
fn local_type(alloc: Global, ty: TypeTree) -> Result<VType, Memory>
    ensures { IfOk result (λ t. t ≡ local_type ty) }
{
    match ty {
        TypeTree::Int | TypeTree::Boolean => Ok(VType::Integer),
        TypeTree::String => text_type(alloc),
        TypeTree::Unit => Ok(VType::Top),
    }
}

fn type_of_local(alloc: Global, ty: TypeTree, assigned: bool) -> Result<VType, Memory>
    ensures { IfOk result (λ t. t ≡ (if assigned then local_type ty else VType.Top)) }
{
    if assigned {
        local_type(alloc, ty)
    } else {
        Ok(VType::Top)
    }
}

fn operand_type(alloc: Global, operand: Operand) -> Result<VType, Memory>
    ensures { IfOk result (λ t. t ≡ operand_type operand) }
{
    match operand {
        Operand::Number => Ok(VType::Integer),
        Operand::Text => text_type(alloc),
    }
}

#[tactic(auto, using(crate::proofs::Walks::next_item, crate::proofs::Walks::grown, crate::proofs::Walks::ended))]
fn local_types(
    alloc: Global,
    locals: &[Local],
    assigned: &[bool],
) -> Result<SharedList<VType>, Memory>
    ensures { IfOk result (λ ts. ts ≡ local_types 0 locals.now (set_of assigned.now)) }
{
    let mut types = SharedList::new(alloc)?;
    for (i, local) in locals.iter().enumerate() {
        types.push(alloc, type_of_local(alloc, local.ty, is_set(assigned, i))?)?;
    }
    Ok(types)
}

#[tactic(auto, using(crate::proofs::Walks::next_item, crate::proofs::Walks::grown, crate::proofs::Walks::ended))]
fn operand_types(alloc: Global, stack: &[Operand]) -> Result<Vec<VType>, Memory>
    ensures { IfOk result (λ ts. ts.items ≡ map operand_type stack.now) }
{
    let mut types = Vec::new(alloc);
    for operand in stack {
        types.push(operand_type(alloc, *operand)?)?;
    }
    Ok(types)
}

// The frame of the place where the walk stands.
#[tactic(auto, using(crate::proofs::Walks::upright))]
fn frame_here(alloc: Global, locals: &[Local], walk: &Walk) -> Result<Frame, Memory>
    ensures { IfOk result (λ f. f ≡ frame_at locals.now walk.now.at (known_of walk.now)) }
{
    let types = local_types(alloc, locals, &walk.assigned)?;
    let stack = operand_types(alloc, &walk.stack)?;
    Ok(Frame {
        at: walk.at,
        locals: types,
        stack: Items::from_vec(stack),
        unset: false,
    })
}

// Puts a frame where the walk stands, if that is an entry.
fn frame_entry(
    alloc: Global,
    locals: &[Local],
    entries: &[bool],
    walk: &mut Walk,
) -> Result<(), Memory>
    ensures at { OnOk result (walk.new.at ≡ walk.old.at) }
    ensures known { OnOk result (known_of walk.new ≡ known_of walk.old) }
    ensures frames { OnOk result (walk.new.frames.items ≡ walk.old.frames.items ++ (if get_or entries.now walk.old.at false then frame_at locals.now walk.old.at (known_of walk.old) ∷ [] else [])) }
{
    if is_set(entries, walk.at) {
        let frame = frame_here(alloc, locals, walk)?;
        walk.frames.push(frame)?;
    }
    Ok(())
}

fn advance(walk: &mut Walk, bytes: usize) -> Result<(), Memory>
    ensures at { OnOk result (walk.new.at ≡ walk.old.at + bytes) }
    ensures known { OnOk result (known_of walk.new ≡ known_of walk.old) }
    ensures frames { OnOk result (walk.new.frames.items ≡ walk.old.frames.items) }
{
    walk.at = plus(walk.at, bytes)?;
    Ok(())
}

/// One operation of so many bytes.
#[tactic(auto, using(crate::proofs::Passing::one_live, crate::proofs::Passing::one_dead))]
pub fn pass(
    alloc: Global,
    locals: &[Local],
    entries: &[bool],
    walk: &mut Walk,
    live: bool,
    bytes: usize,
) -> Result<(), Memory>
    ensures { OnOk result (WalksOne locals.now (set_of entries.now) live walk.old walk.new bytes) }
{
    if live {
        frame_entry(alloc, locals, entries, walk)?;
        advance(walk, bytes)?;
    }
    Ok(())
}

/// A value of a type comes onto the stack.
pub fn push(walk: &mut Walk, ty: TypeTree) -> Result<(), Memory>
    ensures { OnOk result (Moves walk.old walk.new (with_value ty (known_of walk.old).assigned (known_of walk.old))) }
{
    match ty {
        TypeTree::Int | TypeTree::Boolean => walk.stack.push(Operand::Number)?,
        TypeTree::String => walk.stack.push(Operand::Text)?,
        TypeTree::Unit => {}
    }
    Ok(())
}

// An operand is taken off the stack, if there is one.
#[tactic(auto, using(crate::proofs::Walks::one_off))]
fn pop_one(walk: &mut Walk)
    ensures { Moves walk.old walk.new (record { assigned = (known_of walk.old).assigned; stack = drop 1 (known_of walk.old).stack }) }
{
    let height = walk.stack.len();
    walk.stack.truncate(height.saturating_sub(1));
}

/// A value of a type is taken off the stack.
pub fn pop(walk: &mut Walk, ty: TypeTree)
    ensures { Moves walk.old walk.new (record { assigned = (known_of walk.old).assigned; stack = drop (length (value_types ty)) (known_of walk.old).stack }) }
{
    match ty {
        TypeTree::Int | TypeTree::Boolean | TypeTree::String => pop_one(walk),
        TypeTree::Unit => {}
    }
}

/// The stack is as high as it was.
#[tactic(auto, using(crate::proofs::Walks::restored))]
pub fn restore(walk: &mut Walk, height: usize)
    ensures { Moves walk.old walk.new (record { assigned = (known_of walk.old).assigned; stack = drop (length (known_of walk.old).stack - height) (known_of walk.old).stack }) }
{
    walk.stack.truncate(height);
}

// Flags for at least so many places.
#[tactic(auto, using(crate::proofs::Walks::unset_behind))]
fn widen(flags: &mut Vec<bool>, count: usize) -> Result<(), Memory>
    ensures same { OnOk result (set_of flags.new.items ≡ set_of flags.old.items) }
    ensures long { OnOk result (count ≤ length flags.new.items) }
{
    for _ in flags.len()..count {
        flags.push(false)?;
    }
    Ok(())
}

// Sets the flag of a place.
#[tactic(auto, using(crate::proofs::Walks::set_within, crate::proofs::Walks::set_behind))]
fn set(flags: &mut Vec<bool>, at: usize) -> Result<(), Memory>
    ensures { OnOk result (set_of flags.new.items ≡ marked at true (set_of flags.old.items)) }
{
    widen(flags, at)?;
    if at < flags.len() {
        flags[at] = true;
    } else {
        flags.push(true)?;
    }
    Ok(())
}

/// A local is assigned.
pub fn assign(walk: &mut Walk, local: usize) -> Result<(), Memory>
    ensures { OnOk result (Moves walk.old walk.new (with_assigned (marked local true (known_of walk.old).assigned) (known_of walk.old))) }
{
    set(&mut walk.assigned, local)
}

// The flags that are set in both.
#[tactic(auto, using(crate::proofs::Walks::next_item, crate::proofs::Walks::grown, crate::proofs::Walks::ended))]
fn met(alloc: Global, one: &[bool], other: &[bool]) -> Result<Vec<bool>, Memory>
    ensures { IfOk result (λ flags. flags.items ≡ met one.now 0 (set_of other.now)) }
{
    let mut flags = Vec::new(alloc);
    for (i, flag) in one.iter().enumerate() {
        flags.push(*flag && is_set(other, i))?;
    }
    Ok(flags)
}

// What is assigned in both.
#[tactic(auto, using(crate::proofs::Walks::met_both))]
fn both(alloc: Global, one: &[bool], other: &[bool]) -> Result<Vec<bool>, Memory>
    ensures { IfOk result (λ flags. set_of flags.items ≡ both (set_of one.now) (set_of other.now)) }
{
    let flags = met(alloc, one, other)?;
    Ok(flags)
}

/// What is assigned where ways meet: the first one is there or not.
pub fn meeting(
    alloc: Global,
    there: bool,
    one: &[bool],
    other: Vec<bool>,
) -> Result<Vec<bool>, Memory>
    ensures { IfOk result (λ flags. set_of flags.items ≡ meeting there (set_of one.now) (set_of other.items)) }
{
    if there {
        both(alloc, one, &other)
    } else {
        Ok(other)
    }
}

/// Another way to the place where the walk stands, which is there or not.
pub fn meet(alloc: Global, walk: &mut Walk, there: bool, way: &[bool]) -> Result<(), Memory>
    ensures { OnOk result (Moves walk.old walk.new (with_assigned (meeting there (set_of way.now) (known_of walk.old).assigned) (known_of walk.old))) }
{
    if there {
        walk.assigned = both(alloc, way, &walk.assigned)?;
    }
    Ok(())
}

/// Do both hold?
pub fn and(one: bool, other: bool) -> bool
    ensures { result ≡ (one && other) }
{
    one && other
}

/// Does one of them hold?
pub fn or(one: bool, other: bool) -> bool
    ensures { result ≡ (one || other) }
{
    one || other
}

/// The same flags.
#[tactic(auto, using(crate::proofs::Walks::next_item, crate::proofs::Walks::grown, crate::proofs::Walks::ended))]
pub fn copied(alloc: Global, flags: &[bool]) -> Result<Vec<bool>, Memory>
    ensures { IfOk result (λ copy. copy.items ≡ flags.now) }
{
    let mut copy = Vec::new(alloc);
    for flag in flags {
        copy.push(*flag)?;
    }
    Ok(copy)
}

/// Are they the same?
pub fn same(one: bool, other: bool) -> bool
    ensures { result ≡ same one other }
{
    one == other
}

/// A load of a local, and a store into it, while what is known stays.
#[tactic(auto, using(crate::proofs::Passing::walks_none))]
pub fn pass_local(
    alloc: Global,
    locals: &[Local],
    entries: &[bool],
    walk: &mut Walk,
    live: bool,
    ty: TypeTree,
    local: usize,
) -> Result<(), Memory>
    ensures loads { OnOk result (Walks locals.now (set_of entries.now) live walk.old walk.new (loads ty local) (in_line (loads ty local) (known_of walk.old)) (known_of walk.old)) }
    ensures stores { OnOk result (Walks locals.now (set_of entries.now) live walk.old walk.new (stores ty local) (in_line (stores ty local) (known_of walk.old)) (known_of walk.old)) }
{
    match ty {
        TypeTree::Int | TypeTree::Boolean | TypeTree::String => pass(
            alloc,
            locals,
            entries,
            walk,
            live,
            local_size(ty, local),
        ),
        TypeTree::Unit => Ok(()),
    }
}

/// What takes a value off the stack, while what is known stays.
#[tactic(auto, using(crate::proofs::Passing::walks_none))]
pub fn pass_discard(
    alloc: Global,
    locals: &[Local],
    entries: &[bool],
    walk: &mut Walk,
    live: bool,
    ty: TypeTree,
) -> Result<(), Memory>
    ensures { OnOk result (Walks locals.now (set_of entries.now) live walk.old walk.new (discards ty) (in_line (discards ty) (known_of walk.old)) (known_of walk.old)) }
{
    match ty {
        TypeTree::Int | TypeTree::Boolean | TypeTree::String => {
            pass(alloc, locals, entries, walk, live, 1)
        }
        TypeTree::Unit => Ok(()),
    }
}

/// What makes a text of a value, while what is known stays.
#[tactic(auto, using(crate::proofs::Passing::walks_none))]
pub fn pass_to_text(
    alloc: Global,
    locals: &[Local],
    entries: &[bool],
    walk: &mut Walk,
    live: bool,
    ty: TypeTree,
) -> Result<(), Memory>
    ensures { OnOk result (Walks locals.now (set_of entries.now) live walk.old walk.new (to_text ty) (in_line (to_text ty) (known_of walk.old)) (known_of walk.old)) }
{
    match ty {
        TypeTree::Int | TypeTree::Boolean | TypeTree::Unit => {
            pass(alloc, locals, entries, walk, live, 3)
        }
        TypeTree::String => Ok(()),
    }
}

// Puts a text behind the one below it.
fn pass_join(
    alloc: Global,
    locals: &[Local],
    entries: &[bool],
    walk: &mut Walk,
    live: bool,
) -> Result<(), Memory>
    ensures { OnOk result (Walks locals.now (set_of entries.now) live walk.old walk.new (joined false) (in_line (joined false) (known_of walk.old)) (behind_line (joined false) (known_of walk.old))) }
{
    pass(alloc, locals, entries, walk, live, 3)?;
    pop_one(walk);
    pop_one(walk);
    push(walk, TypeTree::String)?;
    Ok(())
}

/// Puts a text behind the one below it, unless it is the first.
pub fn join_behind(
    alloc: Global,
    locals: &[Local],
    entries: &[bool],
    walk: &mut Walk,
    live: bool,
    first: bool,
) -> Result<(), Memory>
    ensures { OnOk result (Walks locals.now (set_of entries.now) live walk.old walk.new (joined first) (in_line (joined first) (known_of walk.old)) (behind_line (joined first) (known_of walk.old))) }
{
    if first {
        Ok(())
    } else {
        pass_join(alloc, locals, entries, walk, live)
    }
}

/// Goes on with other locals assigned, and hands out those that were.
pub fn enter(walk: &mut Walk, assigned: Vec<bool>) -> Vec<bool>
    ensures moves { Moves walk.old walk.new (with_assigned (set_of assigned.items) (known_of walk.old)) }
    ensures before { result.items ≡ walk.old.assigned.items }
{
    replace(&mut walk.assigned, assigned)
}

/// The value of a test, which goes on elsewhere where these locals are assigned.
pub fn pass_truth(
    alloc: Global,
    locals: &[Local],
    entries: &[bool],
    walk: &mut Walk,
    live: bool,
    jumped: Vec<bool>,
) -> Result<(), Memory>
    ensures { OnOk result (PassesTruth locals.now (set_of entries.now) live walk.old walk.new (set_of jumped.items)) }
{
    pass(alloc, locals, entries, walk, live, 1)?;
    push(walk, TypeTree::Boolean)?;
    pass(alloc, locals, entries, walk, live, 3)?;
    pop(walk, TypeTree::Boolean);
    let passed = enter(walk, jumped);
    pass(alloc, locals, entries, walk, live, 1)?;
    meet(alloc, walk, true, &passed)?;
    Ok(())
}
