// Steps, and runs of steps.

ghost use Rattle.std.specs.Prelude.{◌≡◌, ◌≢◌, ◌≤◌, ◌<◌, ℕ, List, ◌++◌, length, OnOk, OnErr, IfOk, Some};
ghost use Rattle.class_file.specs.Natives.{NativeFails};
ghost use Rattle.class_file.specs.Lots.{native_member};
ghost use Rattle.class_file.specs.Machine.{Going, Invokes, LoadsConstant, LoadsLong, Static, step, on_from, branch, is_same};
ghost use Rattle.class_machine.specs.Core.{state_of, core_of, frames_of, CanStep, IsSafe};
ghost use Rattle.class_machine.specs.Faults.{HasCause};
ghost use Rattle.class_machine.specs.Links.{IsLinked, HasLink, HasWide, link_at, wide_at};
ghost use Rattle.class_machine.specs.Heaps.{objects_of};
ghost use Rattle.class_machine.specs.Plain.{TopStops};
ghost use Rattle.class_machine.specs.Lot.{IsBuilt};
ghost use Rattle.class_machine.specs.Runs.{Wrote, Cut, Comes, IsGoing, MadeText, needing, TopNative, TopNativeCut, CanNative, RunsCall, RunsNative, RunsOwn};
ghost use Rattle.class_machine.specs.Stacks.{TopJumped};

use crate::calls::{begin, enter, hand_back, op_at, start_class};
use crate::faults::Fault;
use crate::frame::Frame;
use crate::frames::{in_top, jump_top, move_top_on, push_top, running};
use crate::heap::{Object, is_same};
use crate::links::{Link, Links, Target};
use crate::natives::{NativeDone, native};
use crate::rows::{Went, branch};
use crate::run::{Run, StepEnd};
use crate::throws::throw;
use class_file::class::Set;
use class_file::value::{NativeId, Value};
use kc_io::Sink;
use kc_text::{Memory, Text};
use std::alloc::Global;

#[inline(always)]
fn link_at(links: &Links, class: usize, i: usize) -> &Link
    requires { HasLink links.now class i }
    ensures { link_at links.now class i ≡ Some result.now }
{
    &links.classes[class].constants[i]
}

// A new object, whose number goes onto the stack.
fn make(run: &mut Run, text: Text, next: usize) -> Result<(), Memory>
    requires { 0 < length run.old.frames.items }
    ensures { OnOk result (MadeText text next (core_of run.old) (core_of run.new)) }
{
    let place = run.heap.len();
    push_top(&mut run.frames, Value::Ref(place), next)?;
    run.heap.push(Object::Text(text))?;
    Ok(())
}

// A constant goes onto the stack.
fn load(
    alloc: Global,
    set: &Set,
    links: &Links,
    i: usize,
    next: usize,
    run: &mut Run,
) -> Result<(), Memory>
    requires linked { IsLinked set.now links.now }
    requires can { IsGoing (needing set.now (core_of run.old) next (LoadsConstant i)) }
    ensures { OnOk result ((input out : List ℕ) → needing set.now (core_of run.old) next (LoadsConstant i) input out ≡ Going (state_of set.now (core_of run.new) input out)) }
{
    let _set = set;
    let class = running(&run.frames).class;
    match link_at(links, class, i) {
        Link::Number(number) => {
            push_top(&mut run.frames, Value::Int(*number), next)?;
            Ok(())
        }
        Link::Literal(text) => {
            let copy = text.copy(alloc)?;
            make(run, copy, next)?;
            Ok(())
        }
        Link::Missing | Link::Wide(_) | Link::Native(_) | Link::Method(_) => unreachable!(),
    }
}

// A Long of the pool goes onto the stack.
fn load_wide(set: &Set, links: &Links, i: usize, next: usize, run: &mut Run) -> Result<(), Memory>
    requires linked { IsLinked set.now links.now }
    requires can { IsGoing (needing set.now (core_of run.old) next (LoadsLong i)) }
    ensures { OnOk result ((input out : List ℕ) → needing set.now (core_of run.old) next (LoadsLong i) input out ≡ Going (state_of set.now (core_of run.new) input out)) }
{
    let _set = set;
    let class = running(&run.frames).class;
    match link_at(links, class, i) {
        Link::Wide(number) => {
            push_top(&mut run.frames, Value::Long(*number), next)?;
            Ok(())
        }
        _ => unreachable!(),
    }
}

// A jump by whether two references are the same.
fn compare(wanted: bool, to: usize, first: Value, second: Value, next: usize, run: &mut Run)
    requires { 0 < length run.old.frames.items }
    ensures jumped { TopJumped (branch wanted (is_same (objects_of run.old.heap.items) first second) to next) run.old.frames.items run.new.frames.items }
    ensures heap { run.new.heap ≡ run.old.heap }
    ensures started { run.new.started ≡ run.old.started }
{
    let same = is_same(&run.heap, first, second);
    jump_top(&mut run.frames, branch(wanted, same, to, next));
}

// A native runs on the running frame's stack.
fn native_top<O: Sink>(
    alloc: Global,
    set: &Set,
    id: NativeId,
    heap: &[Object],
    frames: &mut Vec<Frame>,
    out: &mut O,
) -> Result<NativeDone, Fault>
    requires built { native_member id ≢ None }
    requires can { CanNative set.now id (objects_of heap.now) frames.old.items }
    ensures ok { IfOk result (λ done. TopNative set.now id (objects_of heap.now) done frames.old.items frames.new.items (O.taken out.old) (O.taken out.new)) }
    ensures err { OnErr result (TopNativeCut set.now id (objects_of heap.now) frames.old.items (O.taken out.old) (O.taken out.new)) }
    ensures cause { HasCause (O.faults out.old) (O.faults out.new) result }
    ensures faults { O.faults out.old ≤ O.faults out.new }
{
    let top = frames.len() - 1;
    let done = native(alloc, set, id, heap, &mut frames[top].stack, out)?;
    Ok(done)
}

// The call of a native.
fn call_native<O: Sink>(
    alloc: Global,
    set: &Set,
    links: &Links,
    id: NativeId,
    i: usize,
    next: usize,
    run: &mut Run,
    out: &mut O,
) -> Result<StepEnd, Fault>
    requires linked { IsLinked set.now links.now }
    requires built { IsBuilt set.now }
    requires native { RunsNative set.now id i (frames_of run.old.frames.items) }
    requires can { IsGoing (needing set.now (core_of run.old) next (Invokes Static i)) }
    ensures ok { IfOk result (λ end. Wrote (O.taken out.old) (O.taken out.new) (λ said. (input earlier : List ℕ) →
        Comes set.now (needing set.now (core_of run.old) next (Invokes Static i) input earlier) end (core_of run.new) input (earlier ++ said))) }
    ensures err { OnErr result (Cut (O.taken out.old) (O.taken out.new) (needing set.now (core_of run.old) next (Invokes Static i))) }
    ensures cause { HasCause (O.faults out.old) (O.faults out.new) result }
    ensures faults { O.faults out.old ≤ O.faults out.new }
{
    let _i = i;
    match native_top(alloc, set, id, &run.heap, &mut run.frames, out)? {
        NativeDone::Made(text) => {
            make(run, text, next)?;
            Ok(StepEnd::On)
        }
        NativeDone::Wrote => {
            jump_top(&mut run.frames, next);
            Ok(StepEnd::On)
        }
        NativeDone::Threw(exception) => Ok(throw(alloc, set, links, exception, run)?),
    }
}

// The call of a method of the set.
fn call_own(
    alloc: Global,
    set: &Set,
    links: &Links,
    target: Target,
    i: usize,
    next: usize,
    run: &mut Run,
) -> Result<(), Memory>
    requires linked { IsLinked set.now links.now }
    requires own { RunsOwn set.now target i (frames_of run.old.frames.items) }
    requires can { IsGoing (needing set.now (core_of run.old) next (Invokes Static i)) }
    ensures { OnOk result ((input out : List ℕ) → needing set.now (core_of run.old) next (Invokes Static i) input out ≡ Going (state_of set.now (core_of run.new) input out)) }
{
    let _i = i;
    let _next = next;
    if start_class(alloc, set, links, target.class, run)? {
        return Ok(());
    }
    enter(alloc, target, &mut run.frames)?;
    Ok(())
}

// The call of a static method.
fn invoke<O: Sink>(
    alloc: Global,
    set: &Set,
    links: &Links,
    i: usize,
    next: usize,
    run: &mut Run,
    out: &mut O,
) -> Result<StepEnd, Fault>
    requires linked { IsLinked set.now links.now }
    requires built { IsBuilt set.now }
    requires call { RunsCall set.now i (frames_of run.old.frames.items) }
    requires can { IsGoing (needing set.now (core_of run.old) next (Invokes Static i)) }
    ensures ok { IfOk result (λ end. Wrote (O.taken out.old) (O.taken out.new) (λ said. (input earlier : List ℕ) →
        Comes set.now (needing set.now (core_of run.old) next (Invokes Static i) input earlier) end (core_of run.new) input (earlier ++ said))) }
    ensures err { OnErr result (Cut (O.taken out.old) (O.taken out.new) (needing set.now (core_of run.old) next (Invokes Static i))) }
    ensures cause { HasCause (O.faults out.old) (O.faults out.new) result }
    ensures faults { O.faults out.old ≤ O.faults out.new }
{
    let class = running(&run.frames).class;
    match link_at(links, class, i) {
        Link::Native(id) => Ok(call_native(alloc, set, links, *id, i, next, run, out)?),
        Link::Method(target) => {
            call_own(alloc, set, links, *target, i, next, run)?;
            Ok(StepEnd::On)
        }
        _ => unreachable!(),
    }
}

/// One step that is not a plain row's.
#[inline(always)]
fn step<O: Sink>(
    alloc: Global,
    set: &Set,
    links: &Links,
    run: &mut Run,
    out: &mut O,
) -> Result<StepEnd, Fault>
    requires linked { IsLinked set.now links.now }
    requires built { IsBuilt set.now }
    requires can { CanStep set.now (core_of run.old) }
    requires stopped { TopStops links.now run.old.frames.items }
    ensures ok { IfOk result (λ end. Wrote (O.taken out.old) (O.taken out.new) (λ said. (input earlier : List ℕ) →
        Comes set.now (step set.now (state_of set.now (core_of run.old) input earlier)) end (core_of run.new) input (earlier ++ said))) }
    ensures err { OnErr result (Cut (O.taken out.old) (O.taken out.new) (λ input earlier. step set.now (state_of set.now (core_of run.old) input earlier))) }
    ensures cause { HasCause (O.faults out.old) (O.faults out.new) result }
    ensures faults { O.faults out.old ≤ O.faults out.new }
{
    if run.frames.is_empty() {
        begin(alloc, set, links, run)?;
        return Ok(StepEnd::On);
    }
    let frame = running(&run.frames);
    let op = op_at(links, frame.class, frame.method, frame.at);
    match in_top(op.row, op.next, &mut run.frames)? {
        Went::On => Ok(StepEnd::On),
        Went::Threw(exception) => Ok(throw(alloc, set, links, exception, run)?),
        Went::Loads(i) => {
            load(alloc, set, links, i, op.next, run)?;
            Ok(StepEnd::On)
        }
        Went::LoadsWide(i) => {
            load_wide(set, links, i, op.next, run)?;
            Ok(StepEnd::On)
        }
        Went::Compares(wanted, to, first, second) => {
            compare(wanted, to, first, second, op.next, run);
            Ok(StepEnd::On)
        }
        Went::Calls(i) => Ok(invoke(alloc, set, links, i, op.next, run, out)?),
        Went::Returned => Ok(hand_back(set, links, None, run)?),
        Went::ReturnedValue(value) => Ok(hand_back(set, links, Some(value), run)?),
        Went::NotBuilt => unreachable!(),
    }
}

// Steps of plain rows in the running frame, at most so many; how many they were.
fn move_on(set: &Set, links: &Links, most: u64, run: &mut Run) -> Result<u64, Memory>
    requires linked { IsLinked set.now links.now }
    requires built { IsBuilt set.now }
    requires safe { IsSafe set.now (core_of run.old) }
    ensures few { IfOk result (λ made. made ≤ most) }
    ensures stops { IfOk result (λ made. made < most → TopStops links.now run.new.frames.items) }
    ensures moved { IfOk result (λ made. (input out : List ℕ) → on_from set.now made (Going (state_of set.now (core_of run.old) input out)) ≡ Going (state_of set.now (core_of run.new) input out)) }
{
    let _set = set;
    if run.frames.is_empty() {
        return Ok(0);
    }
    let made = move_top_on(links, most, &mut run.frames)?;
    Ok(made)
}

/// At most so many steps.
pub fn run_on<O: Sink>(
    alloc: Global,
    set: &Set,
    links: &Links,
    steps: u64,
    run: &mut Run,
    out: &mut O,
) -> Result<StepEnd, Fault>
    requires linked { IsLinked set.now links.now }
    requires built { IsBuilt set.now }
    requires safe { IsSafe set.now (core_of run.old) }
    ensures ok { IfOk result (λ end. Wrote (O.taken out.old) (O.taken out.new) (λ said. (input earlier : List ℕ) →
        Comes set.now (on_from set.now steps (Going (state_of set.now (core_of run.old) input earlier))) end (core_of run.new) input (earlier ++ said))) }
    ensures err { OnErr result (Cut (O.taken out.old) (O.taken out.new) (λ input earlier. on_from set.now steps (Going (state_of set.now (core_of run.old) input earlier)))) }
    ensures cause { HasCause (O.faults out.old) (O.faults out.new) result }
    ensures faults { O.faults out.old ≤ O.faults out.new }
{
    let mut made = 0;
    while made < steps {
        let more = move_on(set, links, steps - made, run)?;
        made += more;
        if made >= steps {
            return Ok(StepEnd::On);
        }
        match step(alloc, set, links, run, out)? {
            StepEnd::On => {}
            other => return Ok(other),
        }
        made += 1;
    }
    Ok(StepEnd::On)
}
