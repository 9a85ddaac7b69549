//! The line that says how a command ended.
ghost use Rattle.std.specs.Prelude.{◌≡◌, ◌↔◌, ◌++◌, decimal, IsSome, IfSome, IfOk, OnOk};
ghost use Rattle.kc_cli.specs.Lines.{as_line, code_name_of, dot_for_slash, dotted, line_of, IsFixed};
ghost use Rattle.kc_cli.specs.Status.{status_of};

use crate::{Name, Status};
use itoa::Buffer;
use kc_text::{Memory, Text};
use std::alloc::Global;

/// Why a source file is refused.
#[derive(Clone, Copy, Debug, PartialEq, Eq)]
pub enum Code {
    /// The file needs what this compiler has not built yet.
    NotBuilt,
}

impl Code {
    /// The name that is printed.
    pub fn name(self) -> &'static [u8]
        ensures { result.now ≡ code_name_of self }
    {
        match self {
            Code::NotBuilt => b"NotBuilt",
        }
    }
}

/// How a command ended, with what its line names.
#[derive(Debug, Drop)]
pub enum Report<'a> {
    /// The command did all that it does.
    Ended,
    /// The program ended with an exception of the class with this binary name.
    Threw {
        class: Text,
        message: Option<Text>,
    },
    /// The words of the command line are no command.
    Words,
    /// The file is refused at this line and column, both from 1. Columns count UTF-16 units.
    Refused {
        file: Name<'a>,
        line: usize,
        column: usize,
        code: Code,
    },
    /// There is no file of this name.
    Missing {
        name: Name<'a>,
    },
    /// The file of this name cannot be read.
    ReadFailed {
        name: Name<'a>,
    },
    /// The program's input cannot be read.
    InputFailed,
    /// A file or an output stream cannot be written.
    WriteFailed,
    /// The program made as many steps as it may.
    StepLimit {
        steps: u64,
    },
    /// An allocation failed.
    Memory,
}

impl Report<'_> {
    /// The status of the command that ended so.
    pub fn status(&self) -> Status
        ensures { result ≡ status_of self.now }
    {
        match self {
            Report::Ended => Status::Ended,
            Report::Threw { .. } => Status::Threw,
            Report::Words => Status::Words,
            Report::Refused { .. } => Status::Refused,
            Report::Missing { .. } | Report::ReadFailed { .. } | Report::InputFailed => {
                Status::ReadFault
            }
            Report::WriteFailed => Status::WriteFault,
            Report::StepLimit { .. } => Status::StepLimit,
            Report::Memory => Status::Memory,
        }
    }
}

/// The line of a report that names nothing. It takes no memory, so that want of memory can be
/// reported.
pub fn fixed_line(report: &Report) -> Option<&'static [u8]>
    ensures line { IfSome result (λ line. line.now ≡ line_of report.now) }
    ensures fixed { IsSome result ↔ IsFixed report.now }
{
    match report {
        Report::Ended => Some(b""),
        Report::Words => Some(b"kc: words not understood\n"),
        Report::InputFailed => Some(b"read failed: input\n"),
        Report::WriteFailed => Some(b"write failed\n"),
        Report::Memory => Some(b"out of memory\n"),
        _ => None,
    }
}

/// The line with its line feed, or nothing where the command did all that it does.
pub fn line_of(alloc: Global, report: &Report) -> Result<Vec<u8>, Memory>
    ensures { IfOk result (λ line. line.items ≡ line_of report.now) }
{
    match report {
        Report::Threw { class, message } => exception_line(alloc, class, message),
        Report::Refused {
            file,
            line,
            column,
            code,
        } => refusal_line(alloc, file, *line, *column, *code),
        Report::Missing { name } => name_line(alloc, b"missing: ", name),
        Report::ReadFailed { name } => name_line(alloc, b"read failed: ", name),
        Report::StepLimit { steps } => steps_line(alloc, *steps),
        Report::Ended
        | Report::Words
        | Report::InputFailed
        | Report::WriteFailed
        | Report::Memory => Ok(Vec::from_slice(alloc, fixed_line(report).unwrap())?),
    }
}

fn exception_line(alloc: Global, class: &Text, message: &Option<Text>) -> Result<Vec<u8>, Memory>
    ensures { IfOk result (λ line. line.items ≡ line_of (Report.Threw class.now message.now)) }
{
    let mut line = Vec::from_slice(alloc, b"exception: ")?;
    let class = with_dots(alloc, class)?.to_utf8(alloc)?;
    line.extend_from_slice(class.as_slice())?;
    if let Some(message) = message {
        line.extend_from_slice(b": ")?;
        let message = message.to_utf8(alloc)?;
        line.extend_from_slice(message.as_slice())?;
    }
    line.push(b'\n')?;
    Ok(line)
}

/// A class's binary name with `.` for each `/`.
fn with_dots(alloc: Global, name: &Text) -> Result<Text, Memory>
    ensures { IfOk result (λ text. text ≡ dotted name.now) }
{
    let units = name.units().iter().map(|unit| dot_for_slash(*unit));
    Ok(Text::from_units(alloc, units.collect(alloc)?)?)
}

fn dot_for_slash(unit: u16) -> u16
    ensures { result ≡ dot_for_slash unit }
{
    if unit == 0x2F { 0x2E } else { unit }
}

fn refusal_line(
    alloc: Global,
    file: &Name,
    line: usize,
    column: usize,
    code: Code,
) -> Result<Vec<u8>, Memory>
    ensures { IfOk result (λ text. text.items ≡ line_of (Report.Refused file.now line column code)) }
{
    let mut text = Vec::from_slice(alloc, file.as_str().as_bytes())?;
    text.extend_from_slice(b":")?;
    push_decimal(&mut text, line)?;
    text.extend_from_slice(b":")?;
    push_decimal(&mut text, column)?;
    text.extend_from_slice(b": ")?;
    text.extend_from_slice(code.name())?;
    text.push(b'\n')?;
    Ok(text)
}

fn push_decimal(line: &mut Vec<u8>, number: usize) -> Result<(), Memory>
    ensures { OnOk result (line.new.items ≡ line.old.items ++ decimal number) }
{
    let mut digits = Buffer::new();
    line.extend_from_slice(digits.format(number).as_bytes())?;
    Ok(())
}

fn name_line(alloc: Global, fault: &[u8], name: &Name) -> Result<Vec<u8>, Memory>
    ensures { IfOk result (λ line. line.items ≡ as_line (fault.now ++ name.now)) }
{
    let mut line = Vec::from_slice(alloc, fault)?;
    line.extend_from_slice(name.as_str().as_bytes())?;
    line.push(b'\n')?;
    Ok(line)
}

fn steps_line(alloc: Global, steps: u64) -> Result<Vec<u8>, Memory>
    ensures { IfOk result (λ line. line.items ≡ line_of (Report.StepLimit steps)) }
{
    let mut digits = Buffer::new();
    let mut line = Vec::from_slice(alloc, b"steps: ")?;
    line.extend_from_slice(digits.format(steps).as_bytes())?;
    line.push(b'\n')?;
    Ok(line)
}
