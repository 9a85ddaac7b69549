//! `kc`: a compiler from a profile of Kotlin 1.9 to JVM class files, and a machine that runs them.
#![tactic(auto)]

mod compile;
mod execution;
mod file_class;
mod report;
mod source_file;
mod status;
mod steps;
#[cfg(test)]
mod tests;
mod top;
mod words;

ghost use Rattle.std.specs.Prelude.{◌≡◌, ◌<◌};

pub use compile::compile;
pub use execution::{Outcome, exec};
pub use file_class::class_name;
use kc_io::{DiskFolder, StdSink, StdSource};
pub use report::{Code, Report, fixed_line, line_of};
pub use status::Status;
use std::env;
use std::io::{self, ErrorKind, Lock};
use std::marker::Brand;
use std::process::ExitCode;
use std::sync::ledger::{Blank, Ledger};
pub use steps::Steps;
pub use top::{Done, kc};
pub use words::{Command, Name, command_of};

// The words behind the program's name. Words that are not all text are no command, as no words are.
fn words_of(rt: &HostRuntime) -> io::Result<Vec<String>> {
    let mut words = Vec::new(rt.alloc());
    match env::args(rt) {
        Ok(args) => {
            for word in args.skip(1) {
                words.push(word)?;
            }
            Ok(words)
        }
        Err(error) if error.kind() == ErrorKind::InvalidData => Ok(words),
        Err(error) => Err(error),
    }
}

// `kc` over the current folder and the standard streams.
fn run<L: Ledger>(rt: &HostRuntime, words: &[String], blank: Blank) -> Status
    requires name { blank.name ≡ L.name }
    requires parts { blank.parts ≡ L.parts }
    requires some { 0 < blank.parts }
{
    let mut tree = DiskFolder::new(rt);
    let mut folder = DiskFolder::new(rt);
    let mut input = StdSource::new(rt.stdin().lock());
    let mut out = StdSink::new(rt.stdout());
    let mut err = StdSink::new(rt.stderr());
    let mut steps = Steps::<L>::new(blank);
    let done = kc(
        rt.alloc(),
        words,
        &mut tree,
        &mut folder,
        &mut input,
        &mut out,
        &mut err,
        &mut steps,
    );
    done.status
}

fn main(rt: HostRuntime) -> ExitCode {
    let status = match words_of(&rt) {
        Ok(words) => run::<Brand>(&rt, &words, Blank::new(1)),
        Err(_) => Status::Memory,
    };
    ExitCode::from(status.code())
}
