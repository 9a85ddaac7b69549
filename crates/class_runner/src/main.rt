//! `class_runner`: runs class files on the machine, over the standard streams.
//!
//! The words are names of class files; the `main()V` of the first class runs. The exit status is 0 where it returns, 1 where an
//! exception leaves it, 2 without words, 5 where a file or the input cannot be read, 6 where the output cannot be written, 7 where
//! a class file or the set of them is refused, 8 at the limit of steps, and 70 for want of memory.
#![tactic(auto)]

#[cfg(test)]
mod machine_tests;
#[cfg(test)]
mod verifier_tests;

use class_file::class::{ClassFile, Set};
use class_machine::{Machine, RunEnd};
use class_reader::read_class;
use kc_io::{DiskFolder, Folder, FolderRead, Sink, Source, StdSink, StdSource};
use kc_text::{Fail, Text};
use sqlite_items::Items;
use std::alloc::Global;
use std::env;
use std::io::{self, Lock};
use std::process::ExitCode;

// The steps that a run may take.
const MOST_STEPS: u64 = 1_000_000_000_000;

const ENDED: u8 = 0;

const THREW: u8 = 1;

const NO_WORDS: u8 = 2;

const READ_FAULT: u8 = 5;

const WRITE_FAULT: u8 = 6;

const REFUSED: u8 = 7;

const STEP_LIMIT: u8 = 8;

const MEMORY: u8 = 70;

// The class of a file, or the status that says why there is none.
fn class_of<T: Folder>(alloc: Global, folder: &mut T, name: &str) -> Result<ClassFile, u8> {
    let bytes = match folder.read(alloc, name) {
        FolderRead::Bytes(bytes) => bytes,
        FolderRead::Missing | FolderRead::Failed => return Err(READ_FAULT),
        FolderRead::Memory => return Err(MEMORY),
    };
    match read_class(alloc, &bytes) {
        Ok(class) => Ok(class),
        Err(Fail::Found(_)) => Err(REFUSED),
        Err(Fail::Memory) => Err(MEMORY),
    }
}

fn classes_of<T: Folder>(
    alloc: Global,
    folder: &mut T,
    names: &[String],
) -> Result<Items<ClassFile>, u8> {
    let mut classes = Items::new(alloc);
    for name in names {
        let class = class_of(alloc, folder, name)?;
        if classes.push(class).is_err() {
            return Err(MEMORY);
        }
    }
    Ok(classes)
}

// The name of the first class.
fn main_name(alloc: Global, classes: &[ClassFile]) -> Result<Text, u8> {
    let Some(first) = classes.first() else {
        return Err(NO_WORDS);
    };
    match first.this_name.copy(alloc) {
        Ok(name) => Ok(name),
        Err(_) => Err(MEMORY),
    }
}

fn set_of<T: Folder>(alloc: Global, folder: &mut T, names: &[String]) -> Result<Set, u8> {
    let classes = classes_of(alloc, folder, names)?;
    let main = main_name(alloc, classes.as_slice())?;
    Ok(Set { classes, main })
}

fn status_of(end: &RunEnd) -> u8 {
    match end {
        RunEnd::Ended => ENDED,
        RunEnd::Threw { .. } => THREW,
        RunEnd::StepLimit => STEP_LIMIT,
        RunEnd::ReadFault => READ_FAULT,
        RunEnd::WriteFault => WRITE_FAULT,
        RunEnd::Memory => MEMORY,
    }
}

fn run_set<I: Source, O: Sink>(alloc: Global, set: &Set, input: &mut I, out: &mut O) -> u8 {
    let mut machine = match Machine::load(alloc, set) {
        Ok(machine) => machine,
        Err(Fail::Found(_)) => return REFUSED,
        Err(Fail::Memory) => return MEMORY,
    };
    let end = machine.run(alloc, MOST_STEPS, input, out);
    status_of(&end)
}

fn words_of(rt: &HostRuntime) -> io::Result<Vec<String>> {
    let mut words = Vec::new(rt.alloc());
    for word in env::args(rt)?.skip(1) {
        words.push(word)?;
    }
    Ok(words)
}

fn run(rt: &HostRuntime, words: &[String]) -> u8 {
    let mut folder = DiskFolder::new(rt);
    let mut input = StdSource::new(rt.stdin().lock());
    let mut out = StdSink::new(rt.stdout());
    match set_of(rt.alloc(), &mut folder, words) {
        Ok(set) => run_set(rt.alloc(), &set, &mut input, &mut out),
        Err(status) => status,
    }
}

fn main(rt: HostRuntime) -> ExitCode {
    let status = match words_of(&rt) {
        Ok(words) => run(&rt, &words),
        Err(_) => MEMORY,
    };
    ExitCode::from(status)
}
