//! `return`, `throw`, `break` and `continue` (Kotlin Language Specification 1.9, "Jump expressions").
ghost use Rattle.std.specs.Prelude.{◌≤◌, length, drop};
ghost use Rattle.grammars.specs.Grammar.{row, first};
ghost use Rattle.kt_control.specs.Jumps as spec;
ghost use Rattle.kt_control.specs.Places.{place_of};
ghost use Rattle.kt_grammar.specs.Built as built;
ghost use Rattle.kt_grammar.specs.Expressions.{ReadsExpression};
ghost use Rattle.kt_grammar.specs.Parsed.{Advances};
ghost use Rattle.kt_grammar.specs.Rows as rows;

use crate::labels::label_use;
use crate::nodes::{across, broken, returned, thrown};
use crate::words::{begins_on_line, expect_break, is_word_at};
use kc_text::Fail;
use kc_tree::{Expr, Word};
use kt_bodies::{Bodies, Terminal, expect_on};
use kt_grammar::{Cursor, span_between};
use kt_lexer::{Keyword, Token};
use sqlite_items::Boxed;
use std::alloc::Global;

/// The value of a `return` that begins at `start`.
fn return_value<F: Fn(Global, &[Token], Cursor) -> Result<(Expr, Cursor), Fail<usize>>, G>(
    bodies: &Bodies<'_, F, G>,
    start: usize,
    label: Option<Word>,
    at: Cursor,
) -> Result<(Expr, Cursor), Fail<usize>>
    requires expressions { ReadsExpression bodies.now.tokens.now bodies.now.from (F.pre bodies.now.expression) (F.post bodies.now.expression) }
    requires behind { bodies.now.from ≤ at.at }
    requires within { at.at ≤ length bodies.now.tokens.now }
    ensures { Advances (row rows.expression) (λ x. spec.returned (place_of (first (drop start bodies.now.tokens.now))) label (built.expression_of x)) bodies.now.tokens.now at result }
{
    let (found, end) = bodies.expression_at(at)?;
    let span = across(bodies.tokens, start, found.span);
    let value = Boxed::new(bodies.alloc, found)?;
    Ok((returned(span, label, Some(value)), end))
}

/// A `return`. Its value begins on the same line.
fn return_<F: Fn(Global, &[Token], Cursor) -> Result<(Expr, Cursor), Fail<usize>>, G>(
    bodies: &Bodies<'_, F, G>,
    at: Cursor,
) -> Result<(Expr, Cursor), Fail<usize>>
    requires expressions { ReadsExpression bodies.now.tokens.now bodies.now.from (F.pre bodies.now.expression) (F.post bodies.now.expression) }
    requires behind { bodies.now.from ≤ at.at }
    requires within { at.at ≤ length bodies.now.tokens.now }
    ensures { Advances spec.return_ spec.return_of bodies.now.tokens.now at result }
{
    let next = expect_on(bodies.tokens, at, Terminal::Word(Keyword::Return))?;
    let (label, mid) = label_use(bodies.tokens, next);
    if begins_on_line(bodies.tokens, mid.at) {
        return return_value(bodies, at.at, label, mid);
    }
    let span = span_between(bodies.tokens, at.at, mid.at);
    Ok((returned(span, label, None), mid))
}

/// A `throw`.
fn throw_<F: Fn(Global, &[Token], Cursor) -> Result<(Expr, Cursor), Fail<usize>>, G>(
    bodies: &Bodies<'_, F, G>,
    at: Cursor,
) -> Result<(Expr, Cursor), Fail<usize>>
    requires expressions { ReadsExpression bodies.now.tokens.now bodies.now.from (F.pre bodies.now.expression) (F.post bodies.now.expression) }
    requires behind { bodies.now.from ≤ at.at }
    requires within { at.at ≤ length bodies.now.tokens.now }
    ensures { Advances spec.throw_ spec.throw_of bodies.now.tokens.now at result }
{
    let next = expect_on(bodies.tokens, at, Terminal::Word(Keyword::Throw))?;
    let (found, end) = bodies.expression_at(next)?;
    let span = across(bodies.tokens, at.at, found.span);
    let value = Boxed::new(bodies.alloc, found)?;
    Ok((thrown(span, value), end))
}

/// A `break` or `continue`.
fn break_(tokens: &[Token], at: Cursor) -> Result<(Expr, Cursor), Fail<usize>>
    requires { at.at ≤ length tokens.now }
    ensures { Advances spec.break_ spec.break_of tokens.now at result }
{
    let next = expect_break(tokens, at)?;
    let (label, end) = label_use(tokens, next);
    let span = span_between(tokens, at.at, end.at);
    Ok((broken(tokens, at.at, span, label), end))
}

/// A jump: `return`, `throw`, `break` or `continue`.
///
/// # Errors
///
/// `Found` with the place of the first token with which none goes on, or the farthest one that a test has looked at.
pub fn jump<F: Fn(Global, &[Token], Cursor) -> Result<(Expr, Cursor), Fail<usize>>, G>(
    bodies: &Bodies<'_, F, G>,
    at: Cursor,
) -> Result<(Expr, Cursor), Fail<usize>>
    requires expressions { ReadsExpression bodies.now.tokens.now bodies.now.from (F.pre bodies.now.expression) (F.post bodies.now.expression) }
    requires behind { bodies.now.from ≤ at.at }
    requires within { at.at ≤ length bodies.now.tokens.now }
    ensures { Advances (row rows.jump) built.jump_of bodies.now.tokens.now at result }
{
    if is_word_at(bodies.tokens, at.at, Keyword::Return) {
        return return_(bodies, at);
    }
    if is_word_at(bodies.tokens, at.at, Keyword::Throw) {
        return throw_(bodies, at);
    }
    break_(bodies.tokens, at)
}
