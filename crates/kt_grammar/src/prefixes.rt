//! Prefix operators, one behind another (Kotlin Language Specification 1.9, "Prefix expressions"). They nest without end at a low
//! level where each has a line of its own, so they are taken in loops.
ghost use Rattle.std.specs.Prelude.{◌≤◌, length};
ghost use Rattle.grammars.specs.Grammar.{row};
ghost use Rattle.kt_grammar.specs.Built as built;
ghost use Rattle.kt_grammar.specs.Parsed.{Advanced, Advances};
ghost use Rattle.kt_grammar.specs.Prefixes.{PrefixRun, moved_to};
ghost use Rattle.kt_grammar.specs.Rows as rows;

use crate::cursor::Cursor;
use crate::nodes::prefixed;
use crate::signs::{Sign, eat_sign};
use kc_text::Fail;
use kc_tree::Expr;
use kt_lexer::Token;
use std::alloc::Global;

/// The place behind all prefix operators that stand at a place.
pub fn behind_prefixes(tokens: &[Token], at: Cursor) -> usize
    requires { at.at ≤ length tokens.now }
    ensures { PrefixRun tokens.now at result }
{
    let mut next = at;
    while let Some((_, behind)) = eat_sign(tokens, next, Sign::Prefix) {
        next = behind;
    }
    next.at
}

/// The operand that ends before `end`, with the prefix operators from `start` on that stand before it.
pub fn wrapped(
    alloc: Global,
    tokens: &[Token],
    start: Cursor,
    last: usize,
    operand: Expr,
    end: Cursor,
) -> Result<(Expr, Cursor), Fail<usize>>
    requires ahead { start.at ≤ last }
    requires within { last ≤ length tokens.now }
    requires operand { Advanced (row rows.prefix) built.prefix_of tokens.now (moved_to start last) end operand }
    ensures { Advances (row rows.prefix) built.prefix_of tokens.now start result }
{
    let mut of = operand;
    let mut at = last;
    while at > start.at {
        at -= 1;
        // Only prefix operators stand here.
        let Some((token, _)) = eat_sign(tokens, start.to(at), Sign::Prefix) else {
            return Err(Fail::Memory);
        };
        of = prefixed(alloc, token, of)?;
    }
    Ok((of, end))
}
