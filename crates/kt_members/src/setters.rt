//! Setters (Kotlin Language Specification 1.9, "Getters and setters").
ghost use Rattle.std.specs.Prelude.{◌≤◌, length};
ghost use Rattle.grammars.specs.Grammar.{row};
ghost use Rattle.kt_members.specs.Setters as spec;
ghost use Rattle.kt_grammar.specs.DeclarationsBuilt as built;
ghost use Rattle.kt_grammar.specs.Parsed.{Advances};
ghost use Rattle.kt_grammar.specs.Rows as rows;
ghost use Rattle.kt_suffixes.specs.Suffixes.{IsTable};

use crate::member_words::{MemberWord, expect_word, is_marked_word, is_member_word_at};
use crate::nodes::setter_with;
use kc_text::Fail;
use kc_tree::{Setter, Word};
use kt_bodies::expect_name_on;
use kt_functions::body;
use kt_grammar::{Cursor, Look, expect_op_on, span_between};
use kt_lexer::{Operator, Token};
use std::alloc::Global;

/// A name in brackets.
fn bracketed_name(tokens: &[Token], at: Cursor) -> Result<(Word, Cursor), Fail<usize>>
    requires { at.at ≤ length tokens.now }
    ensures { Advances spec.bracketed_name spec.name_in tokens.now at result }
{
    let next = expect_op_on(tokens, at, Operator::OpenRound)?;
    let (name, mid) = expect_name_on(tokens, next)?;
    let end = expect_op_on(tokens, mid, Operator::CloseRound)?;
    Ok((name, end))
}

/// A setter with its body.
///
/// # Errors
///
/// `Found` with the place of the first token with which no setter goes on, or the farthest one that a test has looked at. `Memory`
/// where memory is short.
pub fn setter(
    alloc: Global,
    tokens: &[Token],
    looks: &[Look],
    at: Cursor,
) -> Result<(Option<Setter>, Cursor), Fail<usize>>
    requires looks { IsTable tokens.now looks.now }
    requires within { at.at ≤ length tokens.now }
    ensures { Advances (row rows.setter) built.setter_of tokens.now at result }
{
    let next = expect_word(tokens, at, MemberWord::Set)?;
    let (name, mid) = bracketed_name(tokens, next)?;
    let (body, end) = body(alloc, tokens, looks, mid)?;
    let span = span_between(tokens, at.at, end.at);
    Ok((setter_with(span, name, body), end))
}

/// A setter that begins a line.
fn setter_on_line(
    alloc: Global,
    tokens: &[Token],
    looks: &[Look],
    at: Cursor,
) -> Result<(Option<Setter>, Cursor), Fail<usize>>
    requires looks { IsTable tokens.now looks.now }
    requires within { at.at ≤ length tokens.now }
    ensures { Advances rows.setter_on_line built.setter_on_line_of tokens.now at result }
{
    if !is_marked_word(tokens, at.at, MemberWord::Set) {
        return Err(at.fault());
    }
    setter(alloc, tokens, looks, at)
}

/// What stands behind a getter in braces: a setter, which a `val` may lack.
pub fn setter_behind_block(
    alloc: Global,
    tokens: &[Token],
    looks: &[Look],
    is_var: bool,
    at: Cursor,
) -> Result<(Option<Setter>, Cursor), Fail<usize>>
    requires looks { IsTable tokens.now looks.now }
    requires within { at.at ≤ length tokens.now }
    ensures { Advances (rows.setter_behind_block is_var) built.setter_behind_block_of tokens.now at result }
{
    if is_var {
        return setter(alloc, tokens, looks, at);
    }
    if !is_member_word_at(tokens, at.at, MemberWord::Set) {
        return Ok((None, at));
    }
    setter(alloc, tokens, looks, at)
}

/// What stands behind a getter that is an expression: a setter that begins a line, which a `val` may lack.
pub fn setter_behind_value(
    alloc: Global,
    tokens: &[Token],
    looks: &[Look],
    is_var: bool,
    at: Cursor,
) -> Result<(Option<Setter>, Cursor), Fail<usize>>
    requires looks { IsTable tokens.now looks.now }
    requires within { at.at ≤ length tokens.now }
    ensures { Advances (rows.setter_behind_value is_var) built.setter_behind_value_of tokens.now at result }
{
    if is_var {
        return setter_on_line(alloc, tokens, looks, at);
    }
    if !is_marked_word(tokens, at.at, MemberWord::Set) {
        return Ok((None, at));
    }
    setter_on_line(alloc, tokens, looks, at)
}
