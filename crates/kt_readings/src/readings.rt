//! What a text is read as: its tree as a line, or the fault's place.

use crate::{cut, line_of, with_lines};
use kc_text::{Fail, Names};
use kc_tree::Expr;
use kt_grammar::Cursor;
use kt_lexer::Token;
use kt_names::reserved_names;
use kt_parser::{expression, statement};
use kt_suffixes::suffix_table;
use std::alloc::Global;
use std::process::Abort;
use std::test::Fail as Failed;

/// What is read at the start of the tokens.
#[derive(Clone, Copy)]
pub enum Goal {
    Expression,
    Statement,
}

fn read(alloc: Global, tokens: &[Token], goal: Goal) -> Result<(Expr, Cursor), Fail<usize>> {
    let looks = suffix_table(alloc, tokens)?;
    let start = Cursor { at: 0, looked: 0 };
    match goal {
        Goal::Expression => expression(alloc, tokens, looks.as_slice(), 40, start),
        Goal::Statement => statement(alloc, tokens, looks.as_slice(), 40, start),
    }
}

/// The tree, and how many of the tokens it takes where some are left.
fn told_tree(
    alloc: Global,
    names: &Names,
    whole: &Expr,
    end: usize,
    count: usize,
) -> Result<String, Failed> {
    let mut line = line_of(alloc, names, whole)?;
    if end < count {
        let rest = format!(in alloc; ", {} of {}", end, count)?;
        line.push_str(rest.as_str())?;
    }
    Ok(line)
}

fn told(alloc: Global, names: &Names, tokens: &[Token], goal: Goal) -> Result<String, Failed> {
    match read(alloc, tokens, goal) {
        Ok((whole, end)) => told_tree(alloc, names, &whole, end.at, tokens.len()),
        Err(Fail::Found(place)) => Ok(format!(in alloc; "fault {}", place)?),
        Err(Fail::Memory) => Ok(format!(in alloc; "memory")?),
    }
}

/// What the text is read as.
pub fn shown(alloc: Global, source: &str, goal: Goal) -> Result<String, Failed> {
    let mut names = reserved_names(alloc)?;
    let Some(found) = cut(alloc, source, &mut names)? else {
        return Err(Failed::from("no cut"));
    };
    told(alloc, &names, found.as_slice(), goal)
}

fn compare_row(rt: &impl Abort, alloc: Global, goal: Goal, row: &str) -> Result<(), Failed> {
    let Some((source, expected)) = row.split_once(" => ") else {
        return Err(Failed::from("a row without its two parts"));
    };
    let text = with_lines(alloc, source)?;
    let found = shown(alloc, text.as_str(), goal)?;
    assert_eq!(rt; found.as_str(), expected, "of {source:?}");
    Ok(())
}

/// A text and what it is read as in each line but the first, with ` => ` between them: the tree with the number of its tokens where
/// some are left, or the number of the token, from 0, at which the text is refused. A `¶` stands for a line's end.
pub fn compare(rt: &impl Abort, alloc: Global, goal: Goal, table: &str) -> Result<(), Failed> {
    for row in table.lines().skip(1) {
        compare_row(rt, alloc, goal, row)?;
    }
    Ok(())
}
