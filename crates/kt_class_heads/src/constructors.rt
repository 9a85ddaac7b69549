//! Primary constructors (Kotlin Language Specification 1.9, "Constructor declaration").
ghost use Rattle.std.specs.Prelude.{◌≡◌, ◌≤◌, length, drop};
ghost use Rattle.grammars.specs.Grammar.{first, test};
ghost use Rattle.kt_class_heads.specs.Constructors as spec;
ghost use Rattle.kt_grammar.specs.DeclarationsBuilt as built;
ghost use Rattle.kt_grammar.specs.Moves.{EatsOn};
ghost use Rattle.kt_grammar.specs.Parsed.{Advances};
ghost use Rattle.kt_grammar.specs.Rows as rows;
ghost use Rattle.kt_grammar.specs.Tokens.{is_constructor};
ghost use Rattle.kt_suffixes.specs.Suffixes.{IsTable};

use crate::parameters::constructor_parameters;
use kc_text::Fail;
use kc_tree::ClassParam;
use kt_grammar::{Cursor, Look, eat, expect_op_on, is_at, is_op_at};
use kt_lexer::{Operator, Token};
use sqlite_items::Items;
use std::alloc::Global;

/// The parameters in their brackets.
fn bracketed(
    alloc: Global,
    tokens: &[Token],
    looks: &[Look],
    at: Cursor,
) -> Result<(Items<ClassParam>, Cursor), Fail<usize>>
    requires looks { IsTable tokens.now looks.now }
    requires within { at.at ≤ length tokens.now }
    ensures { Advances spec.bracketed spec.bracketed_of tokens.now at result }
{
    let next = expect_op_on(tokens, at, Operator::OpenRound)?;
    let none = Items::new(alloc);
    let (all, mid) = constructor_parameters(alloc, tokens, looks, none, next)?;
    let end = expect_op_on(tokens, mid, Operator::CloseRound)?;
    Ok((all, end))
}

/// The place behind `constructor`, where it is written.
fn eat_constructor(tokens: &[Token], at: Cursor) -> Option<Cursor>
    ensures { EatsOn is_constructor tokens.now at result }
{
    match eat(tokens, at.at, 90) {
        Some(next) => Some(at.to(next)),
        None => None,
    }
}

/// A constructor that is written: its parameters, perhaps behind the word `constructor`.
fn written(
    alloc: Global,
    tokens: &[Token],
    looks: &[Look],
    at: Cursor,
) -> Result<(Items<ClassParam>, Cursor), Fail<usize>>
    requires looks { IsTable tokens.now looks.now }
    requires within { at.at ≤ length tokens.now }
    ensures { Advances spec.written spec.written_of tokens.now at result }
{
    let Some(next) = eat_constructor(tokens, at) else {
        return bracketed(alloc, tokens, looks, at);
    };
    bracketed(alloc, tokens, looks, next)
}

/// Whether a primary constructor begins at the place.
fn begins(tokens: &[Token], at: usize) -> bool
    ensures { result ≡ test spec.begins (first (drop at tokens.now)) }
{
    is_at(tokens, at, 90) || is_op_at(tokens, at, Operator::OpenRound)
}

/// The parameters of a class's primary constructor, where one is written.
///
/// # Errors
///
/// `Found` with the place of the first token with which no constructor goes on, or the farthest one that a test has looked at.
/// `Memory` where memory is short, or expressions nest too deep.
pub fn primary_constructor(
    alloc: Global,
    tokens: &[Token],
    looks: &[Look],
    at: Cursor,
) -> Result<(Option<Items<ClassParam>>, Cursor), Fail<usize>>
    requires looks { IsTable tokens.now looks.now }
    requires within { at.at ≤ length tokens.now }
    ensures { Advances rows.primary_constructor built.primary_of_class tokens.now at result }
{
    if !begins(tokens, at.at) {
        return Ok((None, at));
    }
    let (all, end) = written(alloc, tokens, looks, at)?;
    Ok((Some(all), end))
}
