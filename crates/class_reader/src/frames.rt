//! Frames from bytes (Java Virtual Machine Specification SE 8, 4.7.4).
ghost use Rattle.std.specs.Prelude.{◌≡◌, ◌+◌, ◌-◌, ◌*◌, ◌<◌, ◌≤◌, ◌^◌, IfOk, List, [], ◌∷◌, length, false};
ghost use Rattle.class_file.specs.declared.class.VType.{VType};
ghost use Rattle.class_file.specs.Fronts.{common_front, last_locals};
ghost use Rattle.class_file.specs.Inputs.{each, table};
ghost use Rattle.class_file.specs.FormatFaults.{object_at, uninitialized_at, type_at, frame, one_item, full_frame, more_locals, long_form, frame_at, frames_at, stack_map_at};
ghost use Rattle.class_reader.specs.Reads.{Reads, input_of};
ghost use Rattle.class_reader.specs.Frames.{before, started, is_bad_form};
ghost use Rattle.class_reader.specs.Locals.{Appends};

use crate::input::{Failure, Input, fault, u1_at, u2_at};
use crate::locals::FrameLocals;
use crate::names::type_named;
use class_file::class::{Frame, VType};
use class_file::format_fault::FormatCode;
use class_file::frames::{Frames, common_front};
use class_file::pool::Pool;
use kc_text::Memory;
use sqlite_items::Items;
use std::alloc::Global;

// A frame, and how many locals it has in common with those before it.
#[derive(Drop)]
struct Given {
    frame: Frame,
    front: usize,
}

fn object_at<'b>(
    alloc: Global,
    pool: &Pool,
    input: Input<'b>,
) -> Result<(VType, Input<'b>), Failure>
    ensures { Reads (λ kept. kept) result (object_at pool.now (input_of input.entry)) }
{
    let (name, rest) = type_named(pool, input)?;
    Ok((VType::Object(name.copy(alloc)?), rest))
}

fn uninitialized_at(input: Input) -> Result<(VType, Input), Failure>
    ensures { Reads (λ kept. kept) result (uninitialized_at (input_of input.entry)) }
{
    let (at, rest) = u2_at(input)?;
    Ok((VType::Uninitialized(at as usize), rest))
}

#[tactic(auto, unfolding(class_file::specs::FormatFaults::type_at))]
fn type_at<'b>(alloc: Global, pool: &Pool, input: Input<'b>) -> Result<(VType, Input<'b>), Failure>
    ensures { Reads (λ kept. kept) result (type_at pool.now (input_of input.entry)) }
{
    let (tag, rest) = u1_at(input)?;
    match tag {
        0 => Ok((VType::Top, rest)),
        1 => Ok((VType::Integer, rest)),
        2 => Err(fault(FormatCode::OutOfProfile, input.at)),
        3 => Err(fault(FormatCode::OutOfProfile, input.at)),
        4 => Ok((VType::Long, rest)),
        5 => Ok((VType::Null, rest)),
        6 => Ok((VType::UninitializedThis, rest)),
        7 => object_at(alloc, pool, rest),
        8 => uninitialized_at(rest),
        _ => Err(fault(FormatCode::BadFrame, input.at)),
    }
}

fn each_type<'b>(
    alloc: Global,
    pool: &Pool,
    count: u16,
    input: Input<'b>,
) -> Result<(Items<VType>, Input<'b>), Failure>
    ensures { Reads (λ types. types) result (each (type_at pool.now) count (input_of input.entry)) }
{
    let mut types = Items::new(alloc);
    let mut rest = input;
    for _ in 0..count {
        let (kept, behind) = type_at(alloc, pool, rest)?;
        types.push(kept)?;
        rest = behind;
    }
    Ok((types, rest))
}

#[tactic(auto, unfolding(class_file::specs::Inputs::table))]
fn types_at<'b>(
    alloc: Global,
    pool: &Pool,
    input: Input<'b>,
) -> Result<(Items<VType>, Input<'b>), Failure>
    ensures { Reads (λ types. types) result (table (type_at pool.now) (input_of input.entry)) }
{
    let (count, rest) = u2_at(input)?;
    each_type(alloc, pool, count, rest)
}

fn one(alloc: Global, kept: VType) -> Result<Items<VType>, Memory>
    ensures { IfOk result (λ types. types ≡ kept ∷ []) }
{
    let mut types = Items::new(alloc);
    types.push(kept)?;
    Ok(types)
}

// Each type goes behind the local variables.
fn push_each<'b>(
    alloc: Global,
    pool: &Pool,
    locals: &mut FrameLocals,
    count: u16,
    input: Input<'b>,
) -> Result<Input<'b>, Failure>
    ensures { Appends locals.old locals.new result (each (type_at pool.now) count (input_of input.entry)) }
{
    let mut rest = input;
    for _ in 0..count {
        let (kept, behind) = type_at(alloc, pool, rest)?;
        locals.push(alloc, kept)?;
        rest = behind;
    }
    Ok(rest)
}

#[tactic(auto, using(crate::proofs::Unset::nothing_before), unfolding(class_file::specs::Inputs::table))]
fn locals_at<'b>(
    alloc: Global,
    pool: &Pool,
    input: Input<'b>,
) -> Result<(FrameLocals, Input<'b>), Failure>
    ensures { Reads (λ locals. locals) result (table (type_at pool.now) (input_of input.entry)) }
{
    let mut locals = FrameLocals::new(alloc)?;
    let (count, rest) = u2_at(input)?;
    let rest = push_each(alloc, pool, &mut locals, count, rest)?;
    Ok((locals, rest))
}

// The frame with these local variables; `first` is the first place that it can have, in bytes.
fn frame(
    first: usize,
    locals: &FrameLocals,
    delta: u16,
    stack: Items<VType>,
) -> Result<Frame, Memory>
    requires { first < 2 ^ 62 }
    ensures { IfOk result (λ f. f ≡ frame (before first locals.now) delta locals.now stack) }
{
    Ok(Frame {
        at: first + delta as usize,
        locals: locals.types()?,
        stack,
        unset: locals.has_unset(),
    })
}

#[tactic(auto, using(crate::proofs::Fronts::front_of_same))]
fn one_item<'b>(
    alloc: Global,
    pool: &Pool,
    first: usize,
    locals: &FrameLocals,
    delta: u16,
    input: Input<'b>,
) -> Result<(Given, Input<'b>), Failure>
    requires { first < 2 ^ 62 }
    ensures exact { Reads (λ g. g.frame) result (one_item pool.now (before first locals.now) delta (input_of input.entry)) }
    ensures locals { IfOk result (λ x. x.0.frame.locals ≡ locals.now) }
    ensures front { IfOk result (λ x. x.0.front ≡ common_front locals.now x.0.frame.locals) }
{
    let (item, rest) = type_at(alloc, pool, input)?;
    let stack = one(alloc, item)?;
    let front = locals.len();
    let frame = frame(first, locals, delta, stack)?;
    Ok((Given { frame, front }, rest))
}

fn full_frame<'b>(
    alloc: Global,
    pool: &Pool,
    first: usize,
    locals: &mut FrameLocals,
    delta: u16,
    input: Input<'b>,
) -> Result<(Given, Input<'b>), Failure>
    requires { first < 2 ^ 62 }
    ensures exact { Reads (λ g. g.frame) result (full_frame pool.now (before first locals.old) delta (input_of input.entry)) }
    ensures locals { IfOk result (λ x. x.0.frame.locals ≡ locals.new) }
    ensures front { IfOk result (λ x. x.0.front ≡ common_front locals.old x.0.frame.locals) }
{
    let (given, rest) = locals_at(alloc, pool, input)?;
    let front = common_front(alloc, &locals.types()?, &given.types()?)?;
    *locals = given;
    let (stack, rest) = types_at(alloc, pool, rest)?;
    let frame = frame(first, locals, delta, stack)?;
    Ok((Given { frame, front }, rest))
}

fn more_locals<'b>(
    alloc: Global,
    pool: &Pool,
    first: usize,
    locals: &mut FrameLocals,
    delta: u16,
    count: u16,
    input: Input<'b>,
) -> Result<(Given, Input<'b>), Failure>
    requires { first < 2 ^ 62 }
    ensures exact { Reads (λ g. g.frame) result (more_locals pool.now (before first locals.old) delta count (input_of input.entry)) }
    ensures locals { IfOk result (λ x. x.0.frame.locals ≡ locals.new) }
    ensures front { IfOk result (λ x. x.0.front ≡ common_front locals.old x.0.frame.locals) }
{
    let front = locals.len();
    let rest = push_each(alloc, pool, locals, count, input)?;
    let frame = frame(first, locals, delta, Items::new(alloc))?;
    Ok((Given { frame, front }, rest))
}

// Is it no form, or one that takes away more locals than there are or adds more than a frame can have?
fn is_bad_form(tag: u8, locals: usize) -> bool
    ensures { result ≡ is_bad_form tag locals }
{
    if tag < 247 {
        return true;
    }
    if 247 < tag && tag < 251 {
        return locals < 251 - tag as usize;
    }
    if 251 < tag && tag < 255 {
        return 65_535 - (tag as usize - 251) < locals;
    }
    false
}

// Behind the difference of the places, in the forms that have it in two bytes.
#[tactic(auto, using(crate::proofs::Fronts::front_of_first))]
fn long_form<'b>(
    alloc: Global,
    pool: &Pool,
    first: usize,
    locals: &mut FrameLocals,
    tag: u8,
    delta: u16,
    input: Input<'b>,
) -> Result<(Given, Input<'b>), Failure>
    requires small { first < 2 ^ 62 }
    requires form { is_bad_form tag (length locals.old) ≡ false }
    ensures exact { Reads (λ g. g.frame) result (long_form pool.now (before first locals.old) tag delta (input_of input.entry)) }
    ensures locals { IfOk result (λ x. x.0.frame.locals ≡ locals.new) }
    ensures front { IfOk result (λ x. x.0.front ≡ common_front locals.old x.0.frame.locals) }
{
    if tag == 247 {
        return one_item(alloc, pool, first, locals, delta, input);
    }
    if tag < 252 {
        locals.take_last(251 - tag as usize)?;
        let front = locals.len();
        let frame = frame(first, locals, delta, Items::new(alloc))?;
        return Ok((Given { frame, front }, input));
    }
    if tag < 255 {
        return more_locals(alloc, pool, first, locals, delta, tag as u16 - 251, input);
    }
    full_frame(alloc, pool, first, locals, delta, input)
}

// The next frame, and its local variables in place of those of the frame before.
#[tactic(auto, using(crate::proofs::Fronts::front_of_same), unfolding(class_file::specs::FormatFaults::frame_at))]
fn frame_at<'b>(
    alloc: Global,
    pool: &Pool,
    first: usize,
    locals: &mut FrameLocals,
    input: Input<'b>,
) -> Result<(Given, Input<'b>), Failure>
    requires { first < 2 ^ 62 }
    ensures exact { Reads (λ g. g.frame) result (frame_at pool.now (before first locals.old) (input_of input.entry)) }
    ensures locals { IfOk result (λ x. x.0.frame.locals ≡ locals.new) }
    ensures front { IfOk result (λ x. x.0.front ≡ common_front locals.old x.0.frame.locals) }
    ensures near { IfOk result (λ x. x.0.frame.at < first + 2 ^ 16) }
{
    let (tag, rest) = u1_at(input)?;
    if tag < 64 {
        let front = locals.len();
        let frame = frame(first, locals, tag as u16, Items::new(alloc))?;
        return Ok((Given { frame, front }, rest));
    }
    if tag < 128 {
        return one_item(alloc, pool, first, locals, tag as u16 - 64, rest);
    }
    if is_bad_form(tag, locals.len()) {
        return Err(fault(FormatCode::BadFrame, input.at));
    }
    let (delta, rest) = u2_at(rest)?;
    long_form(alloc, pool, first, locals, tag, delta, rest)
}

// The same number in a method's frames, of which the first one has none before it.
fn front_behind(frames: &Frames, given: &Given) -> usize
    ensures { (start : List VType) → given.now.front ≡ common_front (last_locals start frames.now) given.now.frame.locals → result ≡ common_front (last_locals [] frames.now) given.now.frame.locals }
{
    if frames.len() == 0 { 0 } else { given.front }
}

fn each_frame<'b>(
    alloc: Global,
    pool: &Pool,
    start: &FrameLocals,
    count: u16,
    input: Input<'b>,
) -> Result<(Frames, Input<'b>), Failure>
    ensures { Reads (λ frames. frames) result (frames_at pool.now count (started start.now) (input_of input.entry)) }
{
    let mut frames = Frames::new(alloc);
    let mut locals = start.share()?;
    let mut first = 0;
    let mut rest = input;
    for _ in 0..count {
        let (given, behind) = frame_at(alloc, pool, first, &mut locals, rest)?;
        first = given.frame.at + 1;
        let front = front_behind(&frames, &given);
        frames.push_behind(given.frame, front)?;
        rest = behind;
    }
    Ok((frames, rest))
}

/// The frames of a method that starts with these locals, their count first.
#[tactic(auto, unfolding(class_file::specs::FormatFaults::stack_map_at))]
pub fn stack_map_at<'b>(
    alloc: Global,
    pool: &Pool,
    start: &FrameLocals,
    input: Input<'b>,
) -> Result<(Frames, Input<'b>), Failure>
    ensures { Reads (λ frames. frames) result (stack_map_at pool.now (started start.now) (input_of input.entry)) }
{
    let (count, rest) = u2_at(input)?;
    each_frame(alloc, pool, start, count, rest)
}
