//! Files of declarations (Kotlin Language Specification 1.9, "Syntax grammar", `kotlinFile`).
ghost use Rattle.std.specs.Prelude.{◌≤◌, length};
ghost use Rattle.grammars.specs.Grammar.{row};
ghost use Rattle.kt_decls.specs.Files.{ReadsWhole, ParsesFile};
ghost use Rattle.kt_decls.specs.Levels.{NoneDeep};

use crate::levels::{TooDeep, first_too_deep};
use kc_text::Fail;
use kc_tree::File;
use kt_files::file;
use kt_grammar::Cursor;
use kt_lexer::Token;
use kt_suffixes::suffix_table;
use std::alloc::Global;

/// Why tokens are no file.
#[derive(Clone, Copy, Debug, PartialEq, Eq)]
pub enum ParseFault {
    /// The place of the first token with which no file goes on, or the farthest one that a test has looked at; the number of tokens
    /// where they end too early.
    Syntax(usize),
    /// The first token that is nested too deep. It is told before any other fault.
    NestingTooDeep(TooDeep),
}

/// The file that all tokens are.
fn whole_file(alloc: Global, tokens: &[Token]) -> Result<File, Fail<usize>>
    ensures { ReadsWhole tokens.now result }
{
    let looks = suffix_table(alloc, tokens)?;
    let (found, end) = file(alloc, tokens, looks.as_slice(), Cursor { at: 0, looked: 0 })?;
    if end.at < tokens.len() {
        return Err(end.fault());
    }
    Ok(found)
}

/// The file that tokens are of which none is nested too deep.
fn shallow_file(alloc: Global, tokens: &[Token]) -> Result<File, Fail<ParseFault>>
    requires { NoneDeep tokens.now 256 (length tokens.now) }
    ensures { ParsesFile tokens.now result }
{
    match whole_file(alloc, tokens) {
        Ok(found) => Ok(found),
        Err(Fail::Found(place)) => Err(Fail::Found(ParseFault::Syntax(place))),
        Err(Fail::Memory) => Err(Fail::Memory),
    }
}

/// The file that tokens are.
///
/// # Errors
///
/// `Found` with the token that is nested too deep, or else with the place at which no file goes on. `Memory` where memory is short, or
/// expressions nest deeper than `kt_parser::DEPTH`.
pub fn parse_file(alloc: Global, tokens: &[Token]) -> Result<File, Fail<ParseFault>>
    ensures { ParsesFile tokens.now result }
{
    match first_too_deep(alloc, tokens) {
        Ok(None) => shallow_file(alloc, tokens),
        Ok(Some(deep)) => Err(Fail::Found(ParseFault::NestingTooDeep(deep))),
        Err(_) => Err(Fail::Memory),
    }
}
