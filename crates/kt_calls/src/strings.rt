//! Strings with their pieces (Kotlin Language Specification 1.9, "String interpolation expressions").
ghost use Rattle.std.specs.Prelude.{◌≡◌, ◌≤◌, ◌++◌, ◌∷◌, [], length};
ghost use Rattle.grammars.specs.Grammar.{row};
ghost use Rattle.kt_calls.specs.Strings as spec;
ghost use Rattle.kt_grammar.specs.Built as built;
ghost use Rattle.kt_grammar.specs.Expressions.{ReadsExpression};
ghost use Rattle.kt_grammar.specs.Parsed.{Advances};
ghost use Rattle.kt_grammar.specs.Rows as rows;

use crate::marks::{Mark, expect_mark, is_mark_at};
use crate::nodes::{string_node, text_of};
use kc_text::Fail;
use kc_tree::{Expr, Piece};
use kt_bodies::Bodies;
use kt_grammar::{Cursor, span_between, word_of};
use kt_lexer::Token;
use sqlite_items::Items;
use std::alloc::Global;

/// A stretch of text.
fn text_piece(alloc: Global, tokens: &[Token], at: Cursor) -> Result<(Piece, Cursor), Fail<usize>>
    requires { at.at ≤ length tokens.now }
    ensures { Advances spec.text_piece spec.text_piece_of tokens.now at result }
{
    let (token, end) = expect_mark(tokens, at, Mark::StringText)?;
    let text = text_of(alloc, &token.kind)?;
    Ok((Piece::Text(text), end))
}

/// `$` and a name.
fn name_piece(tokens: &[Token], at: Cursor) -> Result<(Piece, Cursor), Fail<usize>>
    requires { at.at ≤ length tokens.now }
    ensures { Advances spec.name_piece spec.name_piece_of tokens.now at result }
{
    let (token, end) = expect_mark(tokens, at, Mark::StringName)?;
    Ok((Piece::Name(word_of(token)), end))
}

/// `${`, an expression and `}`.
fn hole<F: Fn(Global, &[Token], Cursor) -> Result<(Expr, Cursor), Fail<usize>>, G>(
    bodies: &Bodies<'_, F, G>,
    at: Cursor,
) -> Result<(Piece, Cursor), Fail<usize>>
    requires expressions { ReadsExpression bodies.now.tokens.now bodies.now.from (F.pre bodies.now.expression) (F.post bodies.now.expression) }
    requires behind { bodies.now.from ≤ at.at }
    requires within { at.at ≤ length bodies.now.tokens.now }
    ensures { Advances spec.hole spec.hole_of bodies.now.tokens.now at result }
{
    let (_, next) = expect_mark(bodies.tokens, at, Mark::HoleOpen)?;
    let (value, mid) = bodies.expression_at(next)?;
    let (_, end) = expect_mark(bodies.tokens, mid, Mark::HoleClose)?;
    Ok((Piece::Hole(value), end))
}

/// `$` and a name, or an expression in braces behind `$`.
fn name_or_hole<F: Fn(Global, &[Token], Cursor) -> Result<(Expr, Cursor), Fail<usize>>, G>(
    bodies: &Bodies<'_, F, G>,
    at: Cursor,
) -> Result<(Piece, Cursor), Fail<usize>>
    requires expressions { ReadsExpression bodies.now.tokens.now bodies.now.from (F.pre bodies.now.expression) (F.post bodies.now.expression) }
    requires behind { bodies.now.from ≤ at.at }
    requires within { at.at ≤ length bodies.now.tokens.now }
    ensures { Advances spec.name_or_hole spec.name_or_hole_of bodies.now.tokens.now at result }
{
    if is_mark_at(bodies.tokens, at.at, Mark::StringName) {
        return name_piece(bodies.tokens, at);
    }
    hole(bodies, at)
}

/// A piece of a string.
fn piece<F: Fn(Global, &[Token], Cursor) -> Result<(Expr, Cursor), Fail<usize>>, G>(
    bodies: &Bodies<'_, F, G>,
    at: Cursor,
) -> Result<(Piece, Cursor), Fail<usize>>
    requires expressions { ReadsExpression bodies.now.tokens.now bodies.now.from (F.pre bodies.now.expression) (F.post bodies.now.expression) }
    requires behind { bodies.now.from ≤ at.at }
    requires within { at.at ≤ length bodies.now.tokens.now }
    ensures { Advances spec.any_piece spec.any_piece_of bodies.now.tokens.now at result }
{
    if is_mark_at(bodies.tokens, at.at, Mark::StringText) {
        return text_piece(bodies.alloc, bodies.tokens, at);
    }
    name_or_hole(bodies, at)
}

/// A piece, which goes to the list's end.
fn one_more<F: Fn(Global, &[Token], Cursor) -> Result<(Expr, Cursor), Fail<usize>>, G>(
    bodies: &Bodies<'_, F, G>,
    before: Items<Piece>,
    at: Cursor,
) -> Result<(Items<Piece>, Cursor), Fail<usize>>
    requires expressions { ReadsExpression bodies.now.tokens.now bodies.now.from (F.pre bodies.now.expression) (F.post bodies.now.expression) }
    requires behind { bodies.now.from ≤ at.at }
    requires within { at.at ≤ length bodies.now.tokens.now }
    ensures { Advances spec.any_piece (λ x. before ++ spec.any_piece_of x ∷ []) bodies.now.tokens.now at result }
{
    let (found, end) = piece(bodies, at)?;
    let mut all = before;
    all.push(found)?;
    Ok((all, end))
}

/// All pieces of a string, which go to the list's end.
fn pieces<F: Fn(Global, &[Token], Cursor) -> Result<(Expr, Cursor), Fail<usize>>, G>(
    bodies: &Bodies<'_, F, G>,
    before: Items<Piece>,
    at: Cursor,
) -> Result<(Items<Piece>, Cursor), Fail<usize>>
    requires expressions { ReadsExpression bodies.now.tokens.now bodies.now.from (F.pre bodies.now.expression) (F.post bodies.now.expression) }
    requires behind { bodies.now.from ≤ at.at }
    requires within { at.at ≤ length bodies.now.tokens.now }
    ensures { Advances spec.all_pieces (λ x. before ++ built.pieces_of x) bodies.now.tokens.now at result }
{
    let mut all = before;
    let mut at = at;
    while is_mark_at(bodies.tokens, at.at, Mark::Piece) {
        let (found, end) = one_more(bodies, all, at)?;
        all = found;
        at = end;
    }
    Ok((all, at))
}

/// A string with its pieces.
///
/// # Errors
///
/// `Found` with the place of the first token with which no string goes on, or the farthest one that a test has looked at.
pub fn string<F: Fn(Global, &[Token], Cursor) -> Result<(Expr, Cursor), Fail<usize>>, G>(
    bodies: &Bodies<'_, F, G>,
    at: Cursor,
) -> Result<(Expr, Cursor), Fail<usize>>
    requires expressions { ReadsExpression bodies.now.tokens.now bodies.now.from (F.pre bodies.now.expression) (F.post bodies.now.expression) }
    requires behind { bodies.now.from ≤ at.at }
    requires within { at.at ≤ length bodies.now.tokens.now }
    ensures { Advances (row rows.string) built.string_of bodies.now.tokens.now at result }
{
    let (_, next) = expect_mark(bodies.tokens, at, Mark::StringOpen)?;
    let (all, mid) = pieces(bodies, Items::new(bodies.alloc), next)?;
    let (_, end) = expect_mark(bodies.tokens, mid, Mark::StringClose)?;
    let span = span_between(bodies.tokens, at.at, end.at);
    Ok((string_node(span, all), end))
}
