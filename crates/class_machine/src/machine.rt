//! The machine as its callers see it.

ghost use Rattle.std.specs.Prelude.{◌≡◌, ◌<◌, ◌≤◌, ◌^◌, [], true, false, length, replicate, All, IfOk};
ghost use Rattle.kc_text.specs.Fail.{IfFound};
ghost use Rattle.class_file.specs.Machine.{on_from, Going, message, first_heap};
ghost use Rattle.class_machine.specs.declared.machine.RunEnd.TheVariants as run_end;
ghost use Rattle.class_machine.specs.Core.{state_of, core_of, first_core, NeverStuck};
ghost use Rattle.class_machine.specs.Heaps.{objects_of};
ghost use Rattle.class_machine.specs.Lot.{IsBuilt, class_name};
ghost use Rattle.class_machine.specs.Seen.{RunsTo, IsCausedBy, IsRefused, is_step_limit};
ghost use Rattle.class_soundness.specs.Soundness.{IsLoaded};
ghost use Rattle.verifier.specs.Answers.{IsCounted, IsOfFirstLot};

use crate::building::is_built;
use crate::faults::Fault;
use crate::heap::Object;
use crate::linking::link;
use crate::links::Links;
use crate::run::{Run, StepEnd};
use crate::steps::run_on;
use crate::throws::{class_name, message};
use class_file::class::Set;
use class_file::value::BuiltIn;
use class_file::verify_code::VerifyFault;
use class_soundness::verified_is_never_stuck;
use kc_io::{Sink, Source};
use kc_text::{Fail, Memory, Text};
use std::alloc::Global;
use std::marker::Model;
use verifier::{Verified, is_first_lot, is_loaded, verify};

// The number of the class of Unit.
const UNIT_CLASS: usize = 27;

/// How a run ended.
#[derive(Drop)]
pub enum RunEnd {
    /// `main` returned.
    Ended,
    /// An exception left `main`: the binary name of its class, and its message if it has one.
    Threw { class: Text, message: Option<Text> },
    /// The steps are made, and the machine can go on.
    StepLimit,
    /// A read of the input failed.
    ReadFault,
    /// A write to the output failed.
    WriteFault,
    /// An allocation failed.
    Memory,
}

/// Why the machine does not run a set.
#[derive(Clone, Copy, Debug, PartialEq, Eq)]
pub enum LoadFault {
    /// An instruction, a call or a handler is not built yet.
    NotBuilt,
    /// The set is not loaded: `main` is missing, a class is above itself, or the like.
    NotLoaded,
    /// The set does not verify, and this is its first fault.
    Faulty(VerifyFault),
}

/// A machine over class files whose run is never stuck. After a run that ended in another way than by its steps it is dead.
#[derive(Drop)]
pub struct Machine<'a> {
    set: &'a Set,
    links: Links,
    run: Run,
    live: bool,
}

impl<'a> Model for Machine<'a> {
    ghost use Rattle.std.specs.Prelude.{◌≡◌, true};
    ghost use Rattle.class_machine.specs.Seen.{Seen};

    ghost Value = { Seen };

    ghost use Rattle.class_machine.specs.Core.{core_of, IsSafe};
    ghost use Rattle.class_machine.specs.Links.{IsLinked};
    ghost use Rattle.class_machine.specs.Lot.{IsBuilt};

    ghost view = { λ m. record { set = m.set.now; core = core_of m.run; live = m.live } };

    ghost invariant = { λ m. IsLinked m.set.now m.links × IsBuilt m.set.now × (m.live ≡ true → IsSafe m.set.now (core_of m.run)) };
}

impl<'a> Machine<'a> {
    /// The machine before its first step. It links the set's code and names once.
    pub fn start(alloc: Global, set: &'a Set) -> Result<Machine<'a>, Memory>
        requires codes { All (λ c. All (λ m. length m.code < 2 ^ 28) c.methods) set.now.classes }
        requires built { IsBuilt set.now }
        requires never { NeverStuck set.now (first_core set.now) }
        ensures { IfOk result (λ m. (m.set ≡ set.now) × (m.core ≡ first_core set.now) × (m.live ≡ true)) }
    {
        let links = link(alloc, set)?;
        let run = first_run(alloc, set.classes.len())?;
        Ok(Machine {
            set,
            links,
            run,
            live: true,
        })
    }

    /// The machine over a set that verifies, before its first step: its run is never stuck. The set must be loaded.
    pub fn start_verified(alloc: Global, verified: &Verified<'a>) -> Result<Machine<'a>, Memory>
        requires codes { All (λ c. All (λ m. length m.code < 2 ^ 28) c.methods) verified.now.classes }
        requires built { IsBuilt verified.now }
        requires loaded { IsLoaded verified.now }
        ensures { IfOk result (λ m. (m.set ≡ verified.now) × (m.core ≡ first_core verified.now) × (m.live ≡ true)) }
    {
        let set = verified.set();
        verified_is_never_stuck();
        Machine::start(alloc, set)
    }

    /// The machine over a set, before its first step, where the set is one that the machine runs: of the first lot, loaded, built and
    /// verified.
    pub fn load(alloc: Global, set: &'a Set) -> Result<Machine<'a>, Fail<LoadFault>>
        ensures ok { IfOk result (λ m. (m.set ≡ set.now) × (m.core ≡ first_core set.now) × (m.live ≡ true)) }
        ensures fault { IfFound result (λ fault. IsRefused set.now fault) }
    {
        if !is_first_lot(set) {
            return Err(Fail::Found(LoadFault::NotBuilt));
        }
        if !is_loaded(alloc, set)? {
            return Err(Fail::Found(LoadFault::NotLoaded));
        }
        if !is_built(alloc, set)? {
            return Err(Fail::Found(LoadFault::NotBuilt));
        }
        let verified = verified_set(alloc, set)?;
        let machine = Machine::start_verified(alloc, &verified)?;
        Ok(machine)
    }

    /// Can the machine go on?
    pub fn is_live(&self) -> bool
        ensures { result ≡ self.now.live }
    {
        self.live
    }

    /// Makes at most so many steps more. The call of `main` is a step of its own. No method that is built yet reads the input.
    pub fn run<I: Source, O: Sink>(
        &mut self,
        alloc: Global,
        steps: u64,
        _input: &mut I,
        out: &mut O,
    ) -> RunEnd
        requires { self.old.live ≡ true }
        ensures ran { RunsTo self.old.set (λ input earlier. on_from self.old.set steps (Going (state_of self.old.set self.old.core input earlier))) result self.new.core (O.taken out.old) (O.taken out.new) }
        ensures live { self.new.live ≡ is_step_limit result }
        ensures set { self.new.set ≡ self.old.set }
        ensures cause { IsCausedBy result (I.faults _input.old) (I.faults _input.new) (O.faults out.old) (O.faults out.new) }
        ensures input { _input.new ≡ _input.old }
        ensures faults { O.faults out.old ≤ O.faults out.new }
    {
        self.live = false;
        match run_on(alloc, self.set, &self.links, steps, &mut self.run, out) {
            Ok(StepEnd::On) => {
                self.live = true;
                RunEnd::StepLimit
            }
            Ok(StepEnd::Ended) => RunEnd::Ended,
            Ok(StepEnd::Threw(exception)) => match threw(alloc, exception) {
                Ok(end) => return end,
                Err(_) => return RunEnd::Memory,
            },
            Err(Fault::Write) => RunEnd::WriteFault,
            Err(Fault::Memory) => RunEnd::Memory,
        }
    }
}

// The set, where it verifies.
fn verified_set<'a>(alloc: Global, set: &'a Set) -> Result<Verified<'a>, Fail<LoadFault>>
    requires codes { IsCounted set.now }
    requires lot { IsOfFirstLot set.now }
    ensures ok { IfOk result (λ verified. verified ≡ set.now) }
    ensures fault { IfFound result (λ fault. IsRefused set.now fault) }
{
    match verify(alloc, set) {
        Ok(verified) => Ok(verified),
        Err(Fail::Found(fault)) => Err(Fail::Found(LoadFault::Faulty(fault))),
        Err(Fail::Memory) => Err(Fail::Memory),
    }
}

// An exception that left main.
fn threw(alloc: Global, exception: BuiltIn) -> Result<RunEnd, Memory>
    ensures { IfOk result (λ end. end ≡ run_end.Threw (class_name exception) (message exception)) }
{
    Ok(RunEnd::Threw {
        class: Text::from_str(alloc, class_name(exception))?,
        message: message(alloc, exception)?,
    })
}

// The one object that there is before any other: that of Unit.
fn first_heap(alloc: Global) -> Result<Vec<Object>, Memory>
    ensures { IfOk result (λ heap. objects_of heap.items ≡ first_heap) }
{
    let mut heap = Vec::new(alloc);
    heap.push(Object::Instance {
        class: UNIT_CLASS,
        fields: Vec::new(alloc),
    })?;
    Ok(heap)
}

// No class is started.
fn none_started(alloc: Global, count: usize) -> Result<Vec<bool>, Memory>
    ensures { IfOk result (λ started. started.items ≡ replicate count false) }
{
    let mut started = Vec::new(alloc);
    for _ in 0..count {
        started.push(false)?;
    }
    Ok(started)
}

// A run before main is called, over so many classes.
fn first_run(alloc: Global, count: usize) -> Result<Run, Memory>
    ensures frames { IfOk result (λ run. run.frames.items ≡ []) }
    ensures heap { IfOk result (λ run. objects_of run.heap.items ≡ first_heap) }
    ensures started { IfOk result (λ run. run.started.items ≡ replicate count false) }
{
    Ok(Run {
        frames: Vec::new(alloc),
        heap: first_heap(alloc)?,
        started: none_started(alloc, count)?,
    })
}
