//! Arguments behind a supertype or a constant (Kotlin Language Specification 1.9, "Class declaration").
ghost use Rattle.std.specs.Prelude.{◌≤◌, length};
ghost use Rattle.kt_grammar.specs.DeclarationsBuilt as built;
ghost use Rattle.kt_grammar.specs.Parsed.{Advances};
ghost use Rattle.kt_grammar.specs.Rows as rows;
ghost use Rattle.kt_suffixes.specs.Suffixes.{IsTable};

use kc_text::Fail;
use kc_tree::Arg;
use kt_grammar::{Cursor, Look, eat_op_on, expect_op_on};
use kt_lexer::{Operator, Token};
use kt_parser::arguments_at;
use sqlite_items::Items;
use std::alloc::Global;

/// Arguments in brackets, or nothing.
pub fn written_arguments(
    alloc: Global,
    tokens: &[Token],
    looks: &[Look],
    at: Cursor,
) -> Result<(Option<Items<Arg>>, Cursor), Fail<usize>>
    requires looks { IsTable tokens.now looks.now }
    requires within { at.at ≤ length tokens.now }
    ensures { Advances rows.written_arguments built.written_arguments_of tokens.now at result }
{
    let Some(next) = eat_op_on(tokens, at, Operator::OpenRound) else {
        return Ok((None, at));
    };
    let (all, mid) = arguments_at(alloc, tokens, looks, next)?;
    let end = expect_op_on(tokens, mid, Operator::CloseRound)?;
    Ok((Some(all), end))
}
