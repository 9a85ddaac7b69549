// Calls, returns, and the initialisation of classes.

ghost use Rattle.std.specs.Prelude.{◌≡◌, ◌<◌, ◌++◌, ◌-◌, ℕ, List, [], ◌∷◌, length, replicate, reverse, slice_get, slice_set, true, OnOk, IfOk, Some};
ghost use Rattle.class_file.specs.declared.value.Value.TheVariants.{Nothing};
ghost use Rattle.class_file.specs.Machine.{first_locals, is_marked, spread, step, Going, Returns};
ghost use Rattle.class_machine.specs.Core.{core_of, state_of, frames_of};
ghost use Rattle.class_machine.specs.Links.{IsLinked, HasOp, op_at, initialiser_at};
ghost use Rattle.class_machine.specs.Lot.{IsBuilt, CanStart};
ghost use Rattle.class_machine.specs.Runs.{CanTake, Taken, CanEnter, TakenFromTop, Entered, StartedSo, FramesStay, HasClass, PoppedFrame, CanResume, ResumesAt, Resumed, IsGoing, Comes, needing, values_of};

use crate::frame::Frame;
use crate::frames::{jump_top, push_frame, push_top, running};
use crate::links::{Links, Op, Target};
use crate::run::{Run, StepEnd};
use class_file::class::Set;
use class_file::value::Value;
use kc_text::Memory;
use std::alloc::Global;

// A value as a local variable, a long as two.
fn put_local(locals: &mut Vec<Value>, v: Value) -> Result<(), Memory>
    ensures { OnOk result (locals.new.items ≡ locals.old.items ++ spread (v ∷ [])) }
{
    locals.push(v)?;
    if let Value::Long(_) = v {
        locals.push(Value::Nothing)?;
    }
    Ok(())
}

// Values as local variables.
#[tactic(auto, using(crate::proofs::Spread::spread_append))]
fn spread_out(alloc: Global, args: &[Value]) -> Result<Vec<Value>, Memory>
    ensures { IfOk result (λ locals. locals.items ≡ spread args.now) }
{
    let mut locals = Vec::new(alloc);
    for v in args {
        put_local(&mut locals, *v)?;
    }
    Ok(locals)
}

// Local variables that hold nothing yet, behind those that are there.
fn pad(locals: &mut Vec<Value>, max: usize) -> Result<(), Memory>
    ensures { OnOk result (locals.new.items ≡ locals.old.items ++ replicate (max - length locals.old.items) Nothing) }
{
    let missing = max.saturating_sub(locals.len());
    for _ in 0..missing {
        locals.push(Value::Nothing)?;
    }
    Ok(())
}

fn first_locals(alloc: Global, max: usize, args: &[Value]) -> Result<Vec<Value>, Memory>
    ensures { IfOk result (λ locals. locals.items ≡ first_locals max args.now) }
{
    let mut locals = spread_out(alloc, args)?;
    pad(&mut locals, max)?;
    Ok(locals)
}

// Takes the arguments of a call off a stack, as the local variables of the method.
fn take_locals(
    alloc: Global,
    params: usize,
    max: usize,
    stack: &mut Vec<Value>,
) -> Result<Vec<Value>, Memory>
    requires { CanTake params (reverse stack.old.items) }
    ensures { IfOk result (λ locals. Taken params max (reverse stack.old.items) locals.items (reverse stack.new.items)) }
{
    let from = stack.len() - params;
    let locals = first_locals(alloc, max, &stack[from..])?;
    stack.truncate(from);
    Ok(locals)
}

// The same of the running frame's stack.
fn take_from_top(
    alloc: Global,
    target: Target,
    frames: &mut Vec<Frame>,
) -> Result<Vec<Value>, Memory>
    requires { CanEnter target.params frames.old.items }
    ensures { IfOk result (λ locals. TakenFromTop target.params target.max_locals locals.items frames.old.items frames.new.items) }
{
    let top = frames.len() - 1;
    let locals = take_locals(
        alloc,
        target.params,
        target.max_locals as usize,
        &mut frames[top].stack,
    )?;
    Ok(locals)
}

/// A method runs over its arguments, which it takes off the running frame's stack.
pub fn enter(alloc: Global, target: Target, frames: &mut Vec<Frame>) -> Result<(), Memory>
    requires { CanEnter target.params frames.old.items }
    ensures { OnOk result (Entered target frames.old.items frames.new.items) }
{
    let locals = take_from_top(alloc, target, frames)?;
    frames.push(Frame {
        class: target.class,
        method: target.method,
        at: 0,
        locals,
        stack: Vec::new(alloc),
        starts: false,
    })?;
    Ok(())
}

fn initialiser_at(links: &Links, class: usize) -> Option<Target>
    ensures { result ≡ initialiser_at links.now class }
{
    match links.classes.get(class) {
        Some(class) => class.initialiser,
        None => None,
    }
}

fn is_marked(started: &[bool], class: usize) -> bool
    ensures { result ≡ is_marked (slice_get started.now class) }
{
    match started.get(class) {
        Some(mark) => *mark,
        None => false,
    }
}

fn mark(started: &mut Vec<bool>, class: usize)
    ensures { started.new.items ≡ slice_set started.old.items class true }
{
    if class < started.len() {
        started[class] = true;
    }
}

/// Starts a class: its initialiser comes to run, or there is none to run.
pub fn start_class(
    alloc: Global,
    set: &Set,
    links: &Links,
    class: usize,
    run: &mut Run,
) -> Result<bool, Memory>
    requires linked { IsLinked set.now links.now }
    requires there { HasClass set.now class }
    requires can { CanStart set.now class }
    ensures so { IfOk result (λ runs. StartedSo set.now (core_of run.old) (core_of run.new) class runs) }
    ensures stay { IfOk result (λ runs. FramesStay runs run.old.frames.items run.new.frames.items) }
{
    let _set = set;
    if is_marked(&run.started, class) {
        return Ok(false);
    }
    mark(&mut run.started, class);
    match initialiser_at(links, class) {
        Some(target) => {
            push_frame(alloc, target, true, &mut run.frames)?;
            Ok(true)
        }
        None => Ok(false),
    }
}

/// The call of main.
pub fn begin(alloc: Global, set: &Set, links: &Links, run: &mut Run) -> Result<(), Memory>
    requires linked { IsLinked set.now links.now }
    requires built { IsBuilt set.now }
    requires first { run.old.frames.items ≡ [] }
    ensures { OnOk result ((input out : List ℕ) → step set.now (state_of set.now (core_of run.old) input out) ≡ Going (state_of set.now (core_of run.new) input out)) }
{
    let Some(target) = links.main else {
        unreachable!()
    };
    if start_class(alloc, set, links, target.class, run)? {
        return Ok(());
    }
    push_frame(alloc, target, false, &mut run.frames)?;
    Ok(())
}

#[inline(always)]
pub fn op_at(links: &Links, class: usize, method: usize, at: usize) -> Op
    requires { HasOp links.now class method at }
    ensures { op_at links.now class method at ≡ Some result }
{
    links.classes[class].methods[method].ops[at]
}

// The place behind the instruction of the running frame.
fn next_place(links: &Links, frames: &[Frame]) -> usize
    requires { CanResume links.now frames.now }
    ensures { ResumesAt links.now frames.now result }
{
    let frame = running(frames);
    op_at(links, frame.class, frame.method, frame.at).next
}

// A frame that waited goes on behind its call, with what the call gave.
fn resume(links: &Links, value: Option<Value>, frames: &mut Vec<Frame>) -> Result<(), Memory>
    requires { CanResume links.now frames.old.items }
    ensures { OnOk result (Resumed links.now (values_of value) frames.old.items frames.new.items) }
{
    let next = next_place(links, frames);
    match value {
        Some(v) => push_top(frames, v, next)?,
        None => jump_top(frames, next),
    }
    Ok(())
}

fn pop_frame(frames: &mut Vec<Frame>) -> Option<Frame>
    ensures { PoppedFrame result frames.old.items frames.new.items }
{
    frames.pop()
}

/// The running frame returns.
pub fn hand_back(
    set: &Set,
    links: &Links,
    value: Option<Value>,
    run: &mut Run,
) -> Result<StepEnd, Memory>
    requires linked { IsLinked set.now links.now }
    requires can { IsGoing (needing set.now (core_of run.old) 0 (Returns (values_of value))) }
    ensures { IfOk result (λ end. (input out : List ℕ) → Comes set.now (needing set.now (core_of run.old) 0 (Returns (values_of value)) input out) end (core_of run.new) input out) }
{
    let _set = set;
    let Some(frame) = pop_frame(&mut run.frames) else {
        unreachable!()
    };
    if frame.starts {
        return Ok(StepEnd::On);
    }
    if run.frames.is_empty() {
        return Ok(StepEnd::Ended);
    }
    resume(links, value, &mut run.frames)?;
    Ok(StepEnd::On)
}
