//! Types behind `as` and `is` (Kotlin Language Specification 1.9, "Cast expressions" and "Type-checking expressions").
ghost use Rattle.std.specs.Prelude.{◌≤◌, length};
ghost use Rattle.grammars.specs.Grammar.{next, row, both, choose, nothing};
ghost use Rattle.kt_lexer.specs.declared.token.Operator.TheVariants as operators;
ghost use Rattle.kt_grammar.specs.Lookahead as tests;
ghost use Rattle.kt_grammar.specs.Parsed.{Advances};
ghost use Rattle.kt_grammar.specs.Rows as rows;
ghost use Rattle.kt_grammar.specs.Tokens.{is_op};
ghost use Rattle.kt_grammar.specs.TypesBuilt as built;

use crate::cursor::{Cursor, behind};
use crate::lookahead::arguments_form;
use crate::tokens::{is_op_at, span_between};
use crate::types::{bracketed_type, dotted, nullables, type_arguments};
use kc_text::Fail;
use kc_tree::{Type, TypeKind};
use kt_lexer::{Operator, Token};
use sqlite_items::Items;
use std::alloc::Global;

/// A type behind `as` or `is`: `<` behind its name begins type arguments where the tokens form some.
///
/// # Errors
///
/// `Found` with the place of the first token with which no such type goes on.
pub fn operand_type(
    alloc: Global,
    tokens: &[Token],
    at: Cursor,
) -> Result<(Type, Cursor), Fail<usize>>
    requires { at.at ≤ length tokens.now }
    ensures { Advances (row rows.operand_type) built.type_of tokens.now at result }
{
    let (core, end) = operand_core(alloc, tokens, at)?;
    behind(end.looked, nullables(alloc, tokens, at.at, core, end.at))
}

fn operand_core(alloc: Global, tokens: &[Token], at: Cursor) -> Result<(Type, Cursor), Fail<usize>>
    requires { at.at ≤ length tokens.now }
    ensures { Advances (choose (next (is_op operators.OpenRound)) (row rows.bracketed_type) (both (row rows.dotted) (choose tests.arguments_form (row rows.type_arguments) nothing))) built.core_of tokens.now at result }
{
    if is_op_at(tokens, at.at, Operator::OpenRound) {
        return behind(at.looked, bracketed_type(alloc, tokens, at.at));
    }
    operand_name(alloc, tokens, at)
}

fn operand_name(alloc: Global, tokens: &[Token], at: Cursor) -> Result<(Type, Cursor), Fail<usize>>
    requires { at.at ≤ length tokens.now }
    ensures { Advances (both (row rows.dotted) (choose tests.arguments_form (row rows.type_arguments) nothing)) built.named_of tokens.now at result }
{
    let (words, end) = behind(at.looked, dotted(alloc, tokens, at.at))?;
    let look = arguments_form(alloc, tokens, end.at)?;
    let mid = end.seen(look.end);
    if !look.holds {
        let span = span_between(tokens, at.at, mid.at);
        let kind = TypeKind::Named(words, Items::new(alloc));
        return Ok((Type { span, kind }, mid));
    }
    let (arguments, last) = behind(mid.looked, type_arguments(alloc, tokens, mid.at))?;
    let span = span_between(tokens, at.at, last.at);
    let kind = TypeKind::Named(words, arguments);
    Ok((Type { span, kind }, last))
}
