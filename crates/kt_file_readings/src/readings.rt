//! What a file is read as: its tree as a line, or why it is refused.

use crate::line_of_file;
use kc_text::{Fail, Names};
use kt_decls::{ParseFault, parse_file};
use kt_lexer::Token;
use kt_names::reserved_names;
use kt_readings::{cut, with_lines};
use std::alloc::Global;
use std::process::Abort;
use std::test::Fail as Failed;

fn told_fault(alloc: Global, fault: ParseFault) -> Result<String, Failed> {
    match fault {
        ParseFault::Syntax(place) => Ok(format!(in alloc; "fault {}", place)?),
        ParseFault::NestingTooDeep(deep) => {
            Ok(format!(in alloc; "level {} at {}", deep.level, deep.at)?)
        }
    }
}

fn told(alloc: Global, names: &Names, tokens: &[Token]) -> Result<String, Failed> {
    match parse_file(alloc, tokens) {
        Ok(file) => Ok(line_of_file(alloc, names, &file)?),
        Err(Fail::Found(fault)) => told_fault(alloc, fault),
        Err(Fail::Memory) => Ok(format!(in alloc; "memory")?),
    }
}

/// What the text is read as.
pub fn shown(alloc: Global, source: &str) -> Result<String, Failed> {
    let mut names = reserved_names(alloc)?;
    let Some(found) = cut(alloc, source, &mut names)? else {
        return Err(Failed::from("no cut"));
    };
    told(alloc, &names, found.as_slice())
}

fn compare_row(rt: &impl Abort, alloc: Global, row: &str) -> Result<(), Failed> {
    let Some((source, expected)) = row.split_once(" => ") else {
        return Err(Failed::from("a row without its two parts"));
    };
    let text = with_lines(alloc, source)?;
    let found = shown(alloc, text.as_str())?;
    assert_eq!(rt; found.as_str(), expected, "of {source:?}");
    Ok(())
}

/// A file and what it is read as in each line but the first, with ` => ` between them: the tree, or the number of the token, from 0,
/// at which the file is refused. A `¶` stands for a line's end.
pub fn compare(rt: &impl Abort, alloc: Global, table: &str) -> Result<(), Failed> {
    for row in table.lines().skip(1) {
        compare_row(rt, alloc, row)?;
    }
    Ok(())
}
