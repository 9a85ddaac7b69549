//! Files (Kotlin Language Specification 1.9, "Packages and imports").
ghost use Rattle.std.specs.Prelude.{◌≡◌, ◌≤◌, length};
ghost use Rattle.grammars.specs.Grammar.{row};
ghost use Rattle.kt_files.specs.Files as spec;
ghost use Rattle.kt_grammar.specs.DeclarationsBuilt as built;
ghost use Rattle.kt_grammar.specs.Parsed.{Advances};
ghost use Rattle.kt_grammar.specs.Rows as rows;
ghost use Rattle.kt_suffixes.specs.Suffixes.{IsTable};

use crate::heads::{imports, package_name};
use crate::lists::declarations;
use crate::nodes::file_at;
use kc_text::Fail;
use kc_tree::{Decl, File, Import, Span};
use kt_grammar::{Cursor, Look, span_between};
use kt_lexer::Token;
use sqlite_items::Items;
use std::alloc::Global;

/// What stands behind the package of a file.
#[derive(Drop)]
pub struct Content {
    pub imports: Items<Import>,
    pub decls: Items<Decl>,
}

/// From the start of the token at `at` to the end of the last one before `end`. Nothing has no place.
fn span_over(tokens: &[Token], at: usize, end: usize) -> Span
    ensures { result ≡ spec.span_over tokens.now at end }
{
    if at == end {
        return Span {
            file: 0,
            start: 0,
            end: 0,
        };
    }
    span_between(tokens, at, end)
}

/// The imports and the declarations of a file.
fn behind_package(
    alloc: Global,
    tokens: &[Token],
    looks: &[Look],
    at: Cursor,
) -> Result<(Content, Cursor), Fail<usize>>
    requires looks { IsTable tokens.now looks.now }
    requires within { at.at ≤ length tokens.now }
    ensures { Advances spec.behind_package spec.content_of tokens.now at result }
{
    let (imports, mid) = imports(alloc, tokens, at)?;
    let (decls, end) = declarations(alloc, tokens, looks, mid)?;
    Ok((Content { imports, decls }, end))
}

/// A file, with its package, imports and declarations, each where some are written. What stands behind the last declaration is not
/// looked at.
///
/// # Errors
///
/// `Found` with the place of the first token with which no file goes on, or the farthest one that a test has looked at. `Memory` where
/// memory is short.
pub fn file(
    alloc: Global,
    tokens: &[Token],
    looks: &[Look],
    at: Cursor,
) -> Result<(File, Cursor), Fail<usize>>
    requires looks { IsTable tokens.now looks.now }
    requires within { at.at ≤ length tokens.now }
    ensures { Advances (row rows.file) built.file_of tokens.now at result }
{
    let (package, mid) = package_name(alloc, tokens, at)?;
    let (content, end) = behind_package(alloc, tokens, looks, mid)?;
    let span = span_over(tokens, at.at, end.at);
    Ok((file_at(span, package, content), end))
}
