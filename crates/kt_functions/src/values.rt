//! Default values, and bodies of functions (Kotlin Language Specification 1.9, "Function declaration" and "Named, positional and
//! default parameters").
ghost use Rattle.std.specs.Prelude.{◌≡◌, ◌≤◌, length, drop};
ghost use Rattle.grammars.specs.Grammar.{first, row, test};
ghost use Rattle.kt_functions.specs.Values as spec;
ghost use Rattle.kt_grammar.specs.DeclarationsBuilt as built;
ghost use Rattle.kt_grammar.specs.Parsed.{Advances};
ghost use Rattle.kt_grammar.specs.Rows as rows;
ghost use Rattle.kt_suffixes.specs.Suffixes.{IsTable};

use kc_text::Fail;
use kc_tree::{Expr, FunBody};
use kt_grammar::{Cursor, Look, eat_op_on, expect_op_on, is_op_at};
use kt_lexer::{Operator, Token};
use kt_parser::{block_at, expression_at};
use std::alloc::Global;

/// The default value of a parameter, where `=` is written.
///
/// # Errors
///
/// `Found` with the place of the first token with which none goes on, or the farthest one that a test has looked at.
pub fn default_value(
    alloc: Global,
    tokens: &[Token],
    looks: &[Look],
    at: Cursor,
) -> Result<(Option<Expr>, Cursor), Fail<usize>>
    requires looks { IsTable tokens.now looks.now }
    requires within { at.at ≤ length tokens.now }
    ensures { Advances rows.default built.value_of tokens.now at result }
{
    let Some(next) = eat_op_on(tokens, at, Operator::Assign) else {
        return Ok((None, at));
    };
    let (value, end) = expression_at(alloc, tokens, looks, next)?;
    Ok((Some(value), end))
}

/// The statements in braces as a body.
fn block_body(
    alloc: Global,
    tokens: &[Token],
    looks: &[Look],
    at: Cursor,
) -> Result<(FunBody, Cursor), Fail<usize>>
    requires looks { IsTable tokens.now looks.now }
    requires within { at.at ≤ length tokens.now }
    ensures { Advances (row rows.block) spec.block_body tokens.now at result }
{
    let (statements, end) = block_at(alloc, tokens, looks, at)?;
    Ok((FunBody::Block(statements), end))
}

/// `=` and an expression as a body.
fn value_body(
    alloc: Global,
    tokens: &[Token],
    looks: &[Look],
    at: Cursor,
) -> Result<(FunBody, Cursor), Fail<usize>>
    requires looks { IsTable tokens.now looks.now }
    requires within { at.at ≤ length tokens.now }
    ensures { Advances rows.value spec.value_body tokens.now at result }
{
    let next = expect_op_on(tokens, at, Operator::Assign)?;
    let (value, end) = expression_at(alloc, tokens, looks, next)?;
    Ok((FunBody::Expr(value), end))
}

/// A body: statements in braces, or `=` and an expression.
///
/// # Errors
///
/// `Found` with the place of the first token with which none goes on, or the farthest one that a test has looked at.
pub fn body(
    alloc: Global,
    tokens: &[Token],
    looks: &[Look],
    at: Cursor,
) -> Result<(Option<FunBody>, Cursor), Fail<usize>>
    requires looks { IsTable tokens.now looks.now }
    requires within { at.at ≤ length tokens.now }
    ensures { Advances (row rows.body) built.body_of tokens.now at result }
{
    if is_op_at(tokens, at.at, Operator::OpenBrace) {
        let (block, end) = block_body(alloc, tokens, looks, at)?;
        return Ok((Some(block), end));
    }
    let (value, end) = value_body(alloc, tokens, looks, at)?;
    Ok((Some(value), end))
}

fn begins_body(tokens: &[Token], at: usize) -> bool
    ensures { result ≡ test spec.begins_body (first (drop at tokens.now)) }
{
    is_op_at(tokens, at, Operator::OpenBrace) || is_op_at(tokens, at, Operator::Assign)
}

/// The body of a function, where one is written. A function with `abstract` has none.
///
/// # Errors
///
/// As for a body.
pub fn written_body(
    alloc: Global,
    tokens: &[Token],
    looks: &[Look],
    is_abstract: bool,
    at: Cursor,
) -> Result<(Option<FunBody>, Cursor), Fail<usize>>
    requires looks { IsTable tokens.now looks.now }
    requires within { at.at ≤ length tokens.now }
    ensures { Advances (rows.body_of_function is_abstract) built.written_body tokens.now at result }
{
    if is_abstract {
        return Ok((None, at));
    }
    if !begins_body(tokens, at.at) {
        return Ok((None, at));
    }
    let (found, end) = body(alloc, tokens, looks, at)?;
    Ok((found, end))
}
