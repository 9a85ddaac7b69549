// The frames of a run, the running one last.

ghost use Rattle.std.specs.Prelude.{◌≡◌, ◌∷◌, ◌<◌, ◌≤◌, [], Some, false, length, reverse, replicate, slice_get, OnOk, IfOk};
ghost use Rattle.class_file.specs.declared.value.Value.TheVariants.{Nothing};
ghost use Rattle.class_machine.specs.Core.{frames_of};
ghost use Rattle.class_machine.specs.Links.{HasOp};
ghost use Rattle.class_machine.specs.Plain.{HasOpIn, MovesOn, StopsBy, TopMovesOn, TopMoved, is_plain, moved_times, ops_at};
ghost use Rattle.class_machine.specs.Stacks.{shown, IsRunning, RowGoes, SameMethod, TopDid, TopJumped, TopPushed};

use crate::frame::{Frame, push};
use crate::links::{Links, Op, Target};
use crate::rows::{Went, in_frame, is_plain, plain};
use class_file::row::Row;
use class_file::value::Value;
use kc_text::Memory;
use std::alloc::{AllocError, Global};

/// The running frame.
#[inline(always)]
pub fn running(frames: &[Frame]) -> &Frame
    requires { 0 < length frames.now }
    ensures { IsRunning result.now frames.now }
{
    &frames[frames.len() - 1]
}

/// What a row does in the running frame that is not plain.
#[inline(always)]
pub fn in_top(row: Row, next: usize, frames: &mut Vec<Frame>) -> Result<Went, AllocError>
    requires other { is_plain row ≡ false }
    requires goes { RowGoes row next frames.old.items }
    ensures { IfOk result (λ w. TopDid row next w frames.old.items frames.new.items) }
{
    let top = frames.len() - 1;
    let went = in_frame(row, next, &mut frames[top])?;
    Ok(went)
}

// The rows of the frame's method.
fn ops_of<'a>(links: &'a Links, frame: &Frame) -> &'a [Op]
    requires { HasOp links.now frame.now.class frame.now.method frame.now.at }
    ensures { result.now ≡ ops_at links.now frame.now.class frame.now.method }
{
    &links.classes[frame.class].methods[frame.method].ops
}

// What stands at a place of a method.
fn op_in(ops: &[Op], at: usize) -> Op
    requires { HasOpIn ops.now at }
    ensures { slice_get ops.now at ≡ Some result }
{
    ops[at]
}

// Plain rows of a frame, one after another, at most so many; how many they were.
fn move_on(ops: &[Op], most: u64, f: &mut Frame) -> Result<u64, AllocError>
    requires { MovesOn ops.now (shown f.old) }
    ensures few { IfOk result (λ made. made ≤ most) }
    ensures moved { IfOk result (λ made. moved_times ops.now made (shown f.old) ≡ Some (shown f.new)) }
    ensures stops { IfOk result (λ made. StopsBy ops.now made most (shown f.new)) }
    ensures same { OnOk result (SameMethod f.old f.new) }
{
    for made in 0..most {
        let op = op_in(ops, f.at);
        if is_plain(op.row) {
            plain(op.row, op.next, f)?;
        } else {
            return Ok(made);
        }
    }
    Ok(most)
}

/// The same of the running frame.
pub fn move_top_on(links: &Links, most: u64, frames: &mut Vec<Frame>) -> Result<u64, AllocError>
    requires { TopMovesOn links.now frames.old.items }
    ensures few { IfOk result (λ made. made ≤ most) }
    ensures moved { IfOk result (λ made. TopMoved links.now made most frames.old.items frames.new.items) }
{
    let top = frames.len() - 1;
    let frame = &mut frames[top];
    let ops = ops_of(links, frame);
    let made = move_on(ops, most, frame)?;
    Ok(made)
}

/// A value goes onto the running frame's stack, and the frame goes on at a place.
#[inline(always)]
pub fn push_top(frames: &mut Vec<Frame>, v: Value, next: usize) -> Result<(), AllocError>
    requires { 0 < length frames.old.items }
    ensures { OnOk result (TopPushed v next frames.old.items frames.new.items) }
{
    let top = frames.len() - 1;
    let frame = &mut frames[top];
    frame.at = next;
    push(&mut frame.stack, v)?;
    Ok(())
}

/// The running frame goes on at a place.
#[inline(always)]
pub fn jump_top(frames: &mut Vec<Frame>, to: usize)
    requires { 0 < length frames.old.items }
    ensures { TopJumped to frames.old.items frames.new.items }
{
    let top = frames.len() - 1;
    frames[top].at = to;
}

// Local variables that hold nothing yet.
fn empty_locals(alloc: Global, count: u16) -> Result<Vec<Value>, Memory>
    ensures { IfOk result (λ locals. locals.items ≡ replicate count Nothing) }
{
    let mut locals = Vec::new(alloc);
    for _ in 0..count {
        locals.push(Value::Nothing)?;
    }
    Ok(locals)
}

/// A method without parameters runs on top. `starts` says that it initialises its class.
pub fn push_frame(
    alloc: Global,
    target: Target,
    starts: bool,
    frames: &mut Vec<Frame>,
) -> Result<(), Memory>
    ensures { OnOk result (frames_of frames.new.items ≡ record { class = target.class; method = target.method; at = 0; locals = replicate target.max_locals Nothing; stack = []; starts = starts } ∷ frames_of frames.old.items) }
{
    let locals = empty_locals(alloc, target.max_locals)?;
    frames.push(Frame {
        class: target.class,
        method: target.method,
        at: 0,
        locals,
        stack: Vec::new(alloc),
        starts,
    })?;
    Ok(())
}
