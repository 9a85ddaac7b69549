//! The package and the imports of a file (Kotlin Language Specification 1.9, "Packages and imports").
ghost use Rattle.std.specs.Prelude.{◌≡◌, ◌≤◌, ◌++◌, length};
ghost use Rattle.grammars.specs.Grammar.{row};
ghost use Rattle.kt_files.specs.Heads as spec;
ghost use Rattle.kt_grammar.specs.DeclarationsBuilt as built;
ghost use Rattle.kt_grammar.specs.Parsed.{Advances};
ghost use Rattle.kt_grammar.specs.Rows as rows;

use crate::words::expect_import;
use kc_text::Fail;
use kc_tree::{Import, Word};
use kt_bodies::{Terminal, eat_on, expect_name_on};
use kt_grammar::{Cursor, behind, dotted, eat_op_on, is_at, span_between};
use kt_lexer::{Keyword, Operator, Token};
use sqlite_items::Items;
use std::alloc::Global;

/// The package of a file (Kotlin Language Specification 1.9, "Packages and imports"): the words between the dots, none where the file
/// names no package.
///
/// # Errors
///
/// `Found` with the place of the first token with which no name goes on, or the farthest one that a test has looked at. `Memory` where
/// memory is short.
pub fn package_name(
    alloc: Global,
    tokens: &[Token],
    at: Cursor,
) -> Result<(Items<Word>, Cursor), Fail<usize>>
    requires { at.at ≤ length tokens.now }
    ensures { Advances spec.a_package built.package_of tokens.now at result }
{
    let Some(next) = eat_on(tokens, at, Terminal::Word(Keyword::Package)) else {
        return Ok((Items::new(alloc), at));
    };
    behind(next.looked, dotted(alloc, tokens, next.at))
}

/// Names with dots between them, which go to the list's end, and whether `.*` stands behind the last.
fn more_names(
    tokens: &[Token],
    before: Items<Word>,
    at: Cursor,
) -> Result<((Items<Word>, bool), Cursor), Fail<usize>>
    requires { at.at ≤ length tokens.now }
    ensures { Advances (row rows.import_path) (λ x. (before ++ built.path_of x, built.is_star x)) tokens.now at result }
{
    let mut all = before;
    let mut at = at;
    loop {
        let (word, end) = expect_name_on(tokens, at)?;
        all.push(word)?;
        let Some(next) = eat_op_on(tokens, end, Operator::Dot) else {
            return Ok(((all, false), end));
        };
        if let Some(last) = eat_op_on(tokens, next, Operator::TimesBehindDot) {
            return Ok(((all, true), last));
        }
        at = next;
    }
}

/// The path of an import, and whether `.*` stands behind it (Kotlin Language Specification 1.9, "Packages and imports").
///
/// # Errors
///
/// `Found` with the place of the first token with which no path goes on, or the farthest one that a test has looked at. `Memory` where
/// memory is short.
pub fn import_path(
    alloc: Global,
    tokens: &[Token],
    at: Cursor,
) -> Result<((Items<Word>, bool), Cursor), Fail<usize>>
    requires { at.at ≤ length tokens.now }
    ensures { Advances (row rows.import_path) (λ x. (built.path_of x, built.is_star x)) tokens.now at result }
{
    let none = Items::new(alloc);
    more_names(tokens, none, at)
}

/// An import, which goes to the list's end.
fn import(
    alloc: Global,
    tokens: &[Token],
    before: Items<Import>,
    at: Cursor,
) -> Result<(Items<Import>, Cursor), Fail<usize>>
    requires { at.at ≤ length tokens.now }
    ensures { Advances (row rows.import_) (λ x. before ++ spec.import_of x) tokens.now at result }
{
    let next = expect_import(tokens, at)?;
    let ((path, star), end) = import_path(alloc, tokens, next)?;
    let span = span_between(tokens, at.at, end.at);
    let mut all = before;
    all.push(Import { span, path, star })?;
    Ok((all, end))
}

/// The imports of a file (Kotlin Language Specification 1.9, "Packages and imports"). There may be none.
///
/// # Errors
///
/// `Found` with the place of the first token with which no import goes on, or the farthest one that a test has looked at. `Memory` where
/// memory is short.
pub fn imports(
    alloc: Global,
    tokens: &[Token],
    at: Cursor,
) -> Result<(Items<Import>, Cursor), Fail<usize>>
    requires { at.at ≤ length tokens.now }
    ensures { Advances spec.imports built.imports_of tokens.now at result }
{
    let mut all = Items::new(alloc);
    let mut at = at;
    while is_at(tokens, at.at, 91) {
        let (found, end) = import(alloc, tokens, all, at)?;
        all = found;
        at = end;
    }
    Ok((all, at))
}
