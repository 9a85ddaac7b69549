//! Members of the superclass (Kotlin Language Specification 1.9, "Super-forms").
ghost use Rattle.std.specs.Prelude.{◌≤◌, length};
ghost use Rattle.grammars.specs.Grammar.{row};
ghost use Rattle.kt_bodies.specs.Supers as spec;
ghost use Rattle.kt_grammar.specs.Built as built;
ghost use Rattle.kt_grammar.specs.Parsed.{Advances};
ghost use Rattle.kt_grammar.specs.Rows as rows;

use crate::nodes::super_member;
use crate::terminals::{Terminal, expect_name_on, expect_on};
use kc_text::Fail;
use kc_tree::{Expr, Type};
use kt_grammar::{Cursor, behind, eat_op_on, expect_op_on, span_between, type_at};
use kt_lexer::{Keyword, Operator, Token};
use std::alloc::Global;

/// The superclass in `<` and `>`, or nothing.
fn super_type(
    alloc: Global,
    tokens: &[Token],
    at: Cursor,
) -> Result<(Option<Type>, Cursor), Fail<usize>>
    requires { at.at ≤ length tokens.now }
    ensures { Advances spec.super_type built.super_type tokens.now at result }
{
    let Some(next) = eat_op_on(tokens, at, Operator::Less) else {
        return Ok((None, at));
    };
    let (of, mid) = behind(next.looked, type_at(alloc, tokens, next.at))?;
    let end = expect_op_on(tokens, mid, Operator::Greater)?;
    Ok((Some(of), end))
}

/// A member of the superclass.
///
/// # Errors
///
/// `Found` with the place of the first token with which none goes on, or the farthest one that a test has looked at.
pub fn super_(alloc: Global, tokens: &[Token], at: Cursor) -> Result<(Expr, Cursor), Fail<usize>>
    requires { at.at ≤ length tokens.now }
    ensures { Advances (row rows.super_) built.super_of tokens.now at result }
{
    let next = expect_on(tokens, at, Terminal::Word(Keyword::Super))?;
    let (of, mid) = super_type(alloc, tokens, next)?;
    let dot = expect_op_on(tokens, mid, Operator::Dot)?;
    let (name, end) = expect_name_on(tokens, dot)?;
    let span = span_between(tokens, at.at, end.at);
    Ok((super_member(span, of, name), end))
}
