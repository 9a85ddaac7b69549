//! Expressions and statements, which hold one another.
ghost use Rattle.std.specs.Prelude.{◌≤◌, length};
ghost use Rattle.grammars.specs.Grammar.{row};
ghost use Rattle.kt_grammar.specs.Built as built;
ghost use Rattle.kt_grammar.specs.Parsed.{Advances};
ghost use Rattle.kt_grammar.specs.Rows as rows;
ghost use Rattle.kt_suffixes.specs.Suffixes.{IsTable};

use crate::over::expression_over;
use crate::statements::statement_over;
use kc_text::Fail;
use kc_tree::Expr;
use kt_bodies::Bodies;
use kt_grammar::{Cursor, Look};
use kt_lexer::Token;
use std::alloc::Global;

/// The longest expression at a place.
#[cycle(descent)]
pub fn expression(
    alloc: Global,
    tokens: &[Token],
    looks: &[Look],
    depth: usize,
    at: Cursor,
) -> Result<(Expr, Cursor), Fail<usize>>
    requires looks { IsTable tokens.now looks.now }
    requires within { at.at ≤ length tokens.now }
    ensures { Advances (row rows.expression) built.expression_of tokens.now at result }
{
    if depth == 0 {
        return Err(Fail::Memory);
    }
    let inner = depth - 1;
    let bodies = Bodies {
        alloc,
        tokens,
        from: 0,
        expression: |alloc: Global, _: &[Token], at: Cursor|
            requires looks { IsTable tokens.now looks.now }
            requires within { at.at ≤ length tokens.now }
            ensures { Advances (row rows.expression) built.expression_of tokens.entry.now at result }
        { expression(alloc, tokens, looks, inner, at) },
        statement: |alloc: Global, _: &[Token], at: Cursor|
            requires looks { IsTable tokens.now looks.now }
            requires within { at.at ≤ length tokens.now }
            ensures { Advances (row rows.statement) built.statement_of tokens.entry.now at result }
        { statement(alloc, tokens, looks, inner, at) },
    };
    expression_over(&bodies, looks, at)
}

/// The longest statement at a place.
#[cycle(descent)]
pub fn statement(
    alloc: Global,
    tokens: &[Token],
    looks: &[Look],
    depth: usize,
    at: Cursor,
) -> Result<(Expr, Cursor), Fail<usize>>
    requires looks { IsTable tokens.now looks.now }
    requires within { at.at ≤ length tokens.now }
    ensures { Advances (row rows.statement) built.statement_of tokens.now at result }
{
    if depth == 0 {
        return Err(Fail::Memory);
    }
    let inner = depth - 1;
    let bodies = Bodies {
        alloc,
        tokens,
        from: 0,
        expression: |alloc: Global, _: &[Token], at: Cursor|
            requires looks { IsTable tokens.now looks.now }
            requires within { at.at ≤ length tokens.now }
            ensures { Advances (row rows.expression) built.expression_of tokens.entry.now at result }
        { expression(alloc, tokens, looks, inner, at) },
        statement: |alloc: Global, _: &[Token], at: Cursor|
            requires looks { IsTable tokens.now looks.now }
            requires within { at.at ≤ length tokens.now }
            ensures { Advances (row rows.statement) built.statement_of tokens.entry.now at result }
        { statement(alloc, tokens, looks, inner, at) },
    };
    statement_over(&bodies, looks, at)
}
