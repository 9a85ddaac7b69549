//! The compiler's one call: words and the outside in, a status out.

ghost use Rattle.std.specs.Prelude.{◌≡◌, ◌≤◌, map, string_bytes, OnOk};
ghost use Rattle.kc_io.specs.Told.{appended, GainsFront};
ghost use Rattle.kc_io.specs.Causes.{HasCause};
ghost use Rattle.kc_cli.specs.Lines.{line_of};
ghost use Rattle.kc_cli.specs.Serving.{Closes, Did, Serves, handed_out, unwritten};

use crate::execution::{Outcome, exec};
use crate::steps::Steps;
use crate::{Command, Report, Status, command_of, fixed_line, line_of};
use class_file::class::Set;
use kc_io::{Folder, OutFault, Sink, Source, write_all};
use std::alloc::Global;
use std::sync::ledger::Ledger;

/// How a command ended, and the set of classes that the machine ran, where its run came to an end or to its limit.
#[derive(Drop)]
pub struct Done {
    pub status: Status,
    pub ran: Option<Set>,
}

// The report's line goes to the error stream.
#[tactic(auto, using(kc_io::specs::Told::gains))]
fn write_line<E: Sink>(alloc: Global, err: &mut E, report: &Report) -> Result<(), OutFault>
    ensures ok { OnOk result (E.taken err.new ≡ appended (E.taken err.old) (line_of report.now)) }
    ensures front { GainsFront (E.taken err.old) (E.taken err.new) (line_of report.now) }
    ensures cause { HasCause (E.faults err.old) (E.faults err.new) result }
{
    if let Some(line) = fixed_line(report) {
        return write_all(err, alloc, line);
    }
    match line_of(alloc, report) {
        Ok(line) => write_all(err, alloc, &line),
        Err(_) => Err(OutFault::Memory),
    }
}

// The status where the report's line cannot be written.
fn unwritten(report: &Report) -> Status
    ensures { result ≡ unwritten report.now }
{
    match report {
        Report::Memory => Status::Memory,
        _ => Status::WriteFault,
    }
}

// Reports how the command ended.
fn close<E: Sink>(alloc: Global, err: &mut E, report: &Report) -> Status
    ensures { Closes report.now result (E.faults err.old) (E.faults err.new) (E.taken err.old) (E.taken err.new) }
{
    match write_line(alloc, err, report) {
        Ok(()) => report.status(),
        Err(OutFault::Failed) => unwritten(report),
        Err(OutFault::Memory) => Status::Memory,
    }
}

// A set is handed out only with the status of its run.
fn handed_out(status: Status, ran: Option<Set>) -> Option<Set>
    ensures { result ≡ handed_out status ran }
{
    match status {
        Status::Ended | Status::Threw | Status::StepLimit => ran,
        _ => None,
    }
}

// What the words command is done.
fn serve<'a, T: Folder, I: Source, O: Sink>(
    alloc: Global,
    words: &'a [String],
    tree: &mut T,
    input: &mut I,
    out: &mut O,
) -> Outcome<'a>
    ensures did { Did (map string_bytes words.now) (record { files = T.files tree.old; tree_before = T.faults tree.old; tree_after = T.faults tree.new; in_before = I.faults input.old; in_after = I.faults input.new; out_before = O.faults out.old; out_after = O.faults out.new; taken_before = O.taken out.old; taken_after = O.taken out.new }) result.report result.ran }
    ensures files { T.files tree.new ≡ T.files tree.old }
    ensures input { input.new ≡ input.old }
{
    match command_of(words) {
        Some(Command::Exec { steps, file }) => exec(alloc, steps, &file, tree, input, out),
        None => Outcome {
            report: Report::Words,
            ran: None,
        },
    }
}

/// Does what the words command, over the sources in `tree`, the class files in `folder` and the three streams.
///
/// The status says how it ended: its code is the exit status of the process. What is written to `err` is one line, which says
/// why, or nothing after a good end.
pub fn kc<T: Folder, F: Folder, I: Source, O: Sink, E: Sink, L: Ledger>(
    alloc: Global,
    words: &[String],
    tree: &mut T,
    folder: &mut F,
    input: &mut I,
    out: &mut O,
    err: &mut E,
    steps: &mut Steps<L>,
) -> Done
    ensures serves { Serves (map string_bytes words.now) (record { files = T.files tree.old; tree_before = T.faults tree.old; tree_after = T.faults tree.new; in_before = I.faults input.old; in_after = I.faults input.new; out_before = O.faults out.old; out_after = O.faults out.new; taken_before = O.taken out.old; taken_after = O.taken out.new }) result.status result.ran (E.faults err.old) (E.faults err.new) (E.taken err.old) (E.taken err.new) }
    ensures tree { T.files tree.new ≡ T.files tree.old }
    ensures folder { folder.new ≡ folder.old }
    ensures input { input.new ≡ input.old }
    ensures steps { steps.new ≡ steps.old }
{
    let Outcome { report, ran } = serve(alloc, words, tree, input, out);
    let status = close(alloc, err, &report);
    Done {
        status,
        ran: handed_out(status, ran),
    }
}
