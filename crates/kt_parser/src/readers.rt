//! Expressions, blocks and arguments at a place.
ghost use Rattle.std.specs.Prelude.{◌≤◌, length};
ghost use Rattle.grammars.specs.Grammar.{row};
ghost use Rattle.kt_parser.specs.Readers.{Expresses};
ghost use Rattle.kt_grammar.specs.Built as built;
ghost use Rattle.kt_grammar.specs.Parsed.{Advances};
ghost use Rattle.kt_grammar.specs.Rows as rows;
ghost use Rattle.kt_suffixes.specs.Suffixes.{IsTable};

use crate::descent::{expression, statement};
use kc_text::Fail;
use kc_tree::{Arg, Expr};
use kt_bodies::Bodies;
use kt_grammar::{Cursor, Look, Operands};
use kt_lexer::Token;
use sqlite_items::Items;
use std::alloc::Global;

/// How deep expressions and statements may nest, in calls of their readers. Within brackets and on one line each of them takes a token
/// that counts for the level, so that none of a level of at most 256 nests deeper. Deeper ones are told as want of memory: the stack is
/// memory too.
pub const DEPTH: usize = 257;

/// The longest expression at a place.
///
/// # Errors
///
/// `Found` with the place of the first token with which no expression goes on, or the farthest one that a test has looked at.
/// `Memory` where memory is short, or expressions nest deeper than `DEPTH`.
pub fn expression_at(
    alloc: Global,
    tokens: &[Token],
    looks: &[Look],
    at: Cursor,
) -> Result<(Expr, Cursor), Fail<usize>>
    requires looks { IsTable tokens.now looks.now }
    requires within { at.at ≤ length tokens.now }
    ensures { Advances (row rows.expression) built.expression_of tokens.now at result }
{
    expression(alloc, tokens, looks, DEPTH, at)
}

/// The longest expression at a place, with the place behind it.
///
/// # Errors
///
/// `Found` with the place of the first token with which no expression goes on, or the farthest one that a test has looked at; it is
/// the number of tokens where they end too early. `Memory` where memory is short, or expressions nest deeper than `DEPTH`.
pub fn parse_expr(
    alloc: Global,
    tokens: &[Token],
    looks: &[Look],
    at: usize,
) -> Result<(Expr, usize), Fail<usize>>
    requires looks { IsTable tokens.now looks.now }
    requires within { at ≤ length tokens.now }
    ensures { Expresses tokens.now at result }
{
    let (found, end) = expression_at(alloc, tokens, looks, Cursor { at, looked: 0 })?;
    Ok((found, end.at))
}

/// The statements of the block at a place.
///
/// # Errors
///
/// As for an expression.
pub fn block_at(
    alloc: Global,
    tokens: &[Token],
    looks: &[Look],
    at: Cursor,
) -> Result<(Items<Expr>, Cursor), Fail<usize>>
    requires looks { IsTable tokens.now looks.now }
    requires within { at.at ≤ length tokens.now }
    ensures { Advances (row rows.block) built.block_statements tokens.now at result }
{
    let bodies = Bodies {
        alloc,
        tokens,
        from: 0,
        expression: (),
        statement: |alloc: Global, _: &[Token], at: Cursor|
            requires looks { IsTable tokens.now looks.now }
            requires within { at.at ≤ length tokens.now }
            ensures { Advances (row rows.statement) built.statement_of tokens.entry.now at result }
        { statement(alloc, tokens, looks, DEPTH, at) },
    };
    bodies.block_statements(at)
}

/// The arguments of a call at a place, up to the bracket that closes them.
///
/// # Errors
///
/// As for an expression.
pub fn arguments_at(
    alloc: Global,
    tokens: &[Token],
    looks: &[Look],
    at: Cursor,
) -> Result<(Items<Arg>, Cursor), Fail<usize>>
    requires looks { IsTable tokens.now looks.now }
    requires within { at.at ≤ length tokens.now }
    ensures { Advances (row rows.arguments) built.arguments_of tokens.now at result }
{
    let operands = Operands {
        alloc,
        tokens,
        from: 0,
        expression: |alloc: Global, _: &[Token], at: Cursor|
            requires looks { IsTable tokens.now looks.now }
            requires within { at.at ≤ length tokens.now }
            ensures { Advances (row rows.expression) built.expression_of tokens.entry.now at result }
        { expression(alloc, tokens, looks, DEPTH, at) },
    };
    operands.arguments(Items::new(alloc), at)
}
