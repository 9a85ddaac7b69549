//! `exec`: a file is read, compiled and run, with nothing stored.

ghost use Rattle.std.specs.Prelude.{◌≡◌, ◌≤◌, ℕ, List, None, IfOk, IfErr};
ghost use Rattle.kc_cli.specs.SourceFile.{IsSourceFile};
ghost use Rattle.class_file.specs.Lots.{IsFirstLot};
ghost use Rattle.class_file.specs.Verification.{Verifies};
ghost use Rattle.class_soundness.specs.Soundness.{IsLoaded};
ghost use Rattle.kc_cli.specs.Compiled.{HasShortCode};
ghost use Rattle.kc_cli.specs.Execution.{HasFile, ReadFails, Builds, BuildFails, Runs};
ghost use Rattle.kc_cli.specs.Serving.{ExecDid, ran_set};

use crate::compile::compile;
use crate::{Code, Name, Report, class_name};
use class_file::class::Set;
use class_machine::{Machine, RunEnd, first_lot_is_built};
use class_soundness::{first_lot_is_of_instructions, plain_sets_are_loaded};
use form_elaboration::{programs_are_light, read_form};
use kc_io::{Folder, FolderRead, Sink, Source};
use kc_text::{Fail, Memory};
use stack_code::method::{
    compiled_has_code, compiled_is_first_lot, compiled_verifies, files_have_own_names,
};
use std::alloc::Global;
use verifier::verify;

// The bytes of a file.
fn read_file<'a, T: Folder>(
    alloc: Global,
    tree: &mut T,
    file: &Name<'a>,
) -> Result<Vec<u8>, Report<'a>>
    ensures ok { IfOk result (λ bytes. HasFile (T.files tree.old) file.now bytes.items) }
    ensures err { IfErr result (λ r. ReadFails (T.files tree.old) (T.faults tree.old) (T.faults tree.new) file.now r) }
    ensures files { T.files tree.new ≡ T.files tree.old }
    ensures faults { T.faults tree.old ≤ T.faults tree.new }
{
    match tree.read(alloc, file.as_str()) {
        FolderRead::Bytes(bytes) => Ok(bytes),
        FolderRead::Missing => Err(Report::Missing {
            name: Name::new(file.as_str()),
        }),
        FolderRead::Failed => Err(Report::ReadFailed {
            name: Name::new(file.as_str()),
        }),
        FolderRead::Memory => Err(Report::Memory),
    }
}

// The class files of the program in a file with these bytes.
fn build<'a>(alloc: Global, file: &Name<'a>, bytes: &[u8]) -> Result<Set, Report<'a>>
    requires { IsSourceFile file.now }
    ensures ok { IfOk result (λ set. Builds bytes.now set) }
    ensures lot { IfOk result (λ set. IsFirstLot set) }
    ensures short { IfOk result (λ set. HasShortCode set) }
    ensures loaded { IfOk result (λ set. IsLoaded set) }
    ensures err { IfErr result (λ r. BuildFails file.now bytes.now r) }
{
    let program = match read_form(alloc, 0, bytes) {
        Ok(program) => program,
        Err(Fail::Found(_)) => {
            return Err(Report::Refused {
                file: Name::new(file.as_str()),
                line: 1,
                column: 1,
                code: Code::NotBuilt,
            });
        }
        Err(Fail::Memory) => return Err(Report::Memory),
    };
    let name = match class_name(alloc, file.as_str()) {
        Ok(name) => name,
        Err(_) => return Err(Report::Memory),
    };
    programs_are_light();
    files_have_own_names();
    compiled_is_first_lot();
    compiled_has_code();
    compiled_verifies();
    plain_sets_are_loaded();
    match compile(alloc, &program, name) {
        Ok(set) => Ok(set),
        Err(Memory) => Err(Report::Memory),
    }
}

// The set goes through the verifier to the machine, for at most so many steps.
fn run_set<I: Source, O: Sink>(
    alloc: Global,
    set: &Set,
    steps: u64,
    input: &mut I,
    out: &mut O,
) -> Report<'static>
    requires short { HasShortCode set.now }
    requires lot { IsFirstLot set.now }
    requires loaded { IsLoaded set.now }
    requires verifies { Verifies set.now }
    ensures ran { Runs set.now steps (I.faults input.old) (I.faults input.new) (O.faults out.old) (O.faults out.new) (O.taken out.old) (O.taken out.new) result }
    ensures input { input.new ≡ input.old }
    ensures faults { O.faults out.old ≤ O.faults out.new }
{
    first_lot_is_built();
    first_lot_is_of_instructions();
    let verified = match verify(alloc, set) {
        Ok(verified) => verified,
        Err(Fail::Memory) => return Report::Memory,
        // The set verifies.
        Err(Fail::Found(_)) => unreachable!(),
    };
    let mut machine = match Machine::start_verified(alloc, &verified) {
        Ok(machine) => machine,
        Err(_) => return Report::Memory,
    };
    match machine.run(alloc, steps, input, out) {
        RunEnd::Ended => Report::Ended,
        RunEnd::Threw { class, message } => Report::Threw { class, message },
        RunEnd::StepLimit => Report::StepLimit { steps },
        RunEnd::ReadFault => Report::InputFailed,
        RunEnd::WriteFault => Report::WriteFailed,
        RunEnd::Memory => Report::Memory,
    }
}

/// What a command came to: what is to be reported, and the set that a run went over to its end or its limit.
#[derive(Drop)]
pub struct Outcome<'a> {
    pub report: Report<'a>,
    pub ran: Option<Set>,
}

// No set ran.
fn without_set(report: Report<'_>) -> Outcome<'_>
    ensures report { result.report ≡ report.entry }
    ensures ran { result.ran ≡ None }
{
    Outcome { report, ran: None }
}

// The set is handed out where its run is over or at its limit.
fn with_set(report: Report<'static>, set: Set) -> Outcome<'static>
    ensures report { result.report ≡ report.entry }
    ensures ran { result.ran ≡ ran_set report.entry set }
{
    match report {
        Report::Ended | Report::Threw { .. } | Report::StepLimit { .. } => Outcome {
            report,
            ran: Some(set),
        },
        _ => Outcome { report, ran: None },
    }
}

/// Reads and compiles a file, and runs it for at most so many steps.
pub fn exec<'a, T: Folder, I: Source, O: Sink>(
    alloc: Global,
    steps: u64,
    file: &Name<'a>,
    tree: &mut T,
    input: &mut I,
    out: &mut O,
) -> Outcome<'a>
    requires { IsSourceFile file.now }
    ensures did { ExecDid (record { files = T.files tree.old; tree_before = T.faults tree.old; tree_after = T.faults tree.new; in_before = I.faults input.old; in_after = I.faults input.new; out_before = O.faults out.old; out_after = O.faults out.new; taken_before = O.taken out.old; taken_after = O.taken out.new }) steps file.now result.report result.ran }
    ensures files { T.files tree.new ≡ T.files tree.old }
    ensures input { input.new ≡ input.old }
{
    let bytes = match read_file(alloc, tree, file) {
        Ok(bytes) => bytes,
        Err(report) => return without_set(report),
    };
    let set = match build(alloc, file, &bytes) {
        Ok(set) => set,
        Err(report) => return without_set(report),
    };
    let report = run_set(alloc, &set, steps, input, out);
    with_set(report, set)
}
