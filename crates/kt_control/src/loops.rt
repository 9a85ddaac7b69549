//! Loops (Kotlin Language Specification 1.9, "Loop statements").
ghost use Rattle.std.specs.Prelude.{◌≤◌, length, drop};
ghost use Rattle.grammars.specs.Grammar.{row, first};
ghost use Rattle.kt_bodies.specs.Statements.{ReadsStatement};
ghost use Rattle.kt_control.specs.Conditionals.{bracketed_of};
ghost use Rattle.kt_control.specs.Loops as spec;
ghost use Rattle.kt_grammar.specs.Built as built;
ghost use Rattle.kt_grammar.specs.Expressions.{ReadsExpression};
ghost use Rattle.kt_grammar.specs.Parsed.{Advances};
ghost use Rattle.kt_grammar.specs.Rows as rows;

use crate::brackets::boxed_bracketed;
use crate::conditionals::body;
use crate::labels::label;
use crate::locals::only_name;
use crate::nodes::{do_node, for_node, place_at, while_node};
use crate::words::is_word_at;
use kc_text::Fail;
use kc_tree::{Expr, LocalName, Span, Word};
use kt_bodies::{Bodies, Terminal, expect_name_on, expect_on};
use kt_grammar::{Cursor, bare_names, behind, expect_op_on, is_op_at, span_between, typed_name};
use kt_lexer::{Keyword, Operator, Token};
use sqlite_items::{Boxed, Items};
use std::alloc::Global;

/// The variables of a `for`.
#[derive(Drop)]
pub struct Variables {
    pub names: Items<LocalName>,
    /// Whether the names stand in brackets.
    pub brackets: bool,
}

/// What stands in the brackets of a `for`.
#[derive(Drop)]
pub struct Head {
    pub names: Items<LocalName>,
    /// Whether the names stand in brackets.
    pub brackets: bool,
    /// Where `in` stands.
    pub token: Span,
    pub range: Boxed<Expr>,
}

/// Names without types, one at least.
fn bare_inside(
    alloc: Global,
    tokens: &[Token],
    at: Cursor,
) -> Result<(Items<LocalName>, Cursor), Fail<usize>>
    requires { at.at ≤ length tokens.now }
    ensures { Advances spec.bare_inside spec.bare_of tokens.now at result }
{
    let (name, mid) = expect_name_on(tokens, at)?;
    let first = only_name(alloc, name, None)?;
    let (all, end) = behind(mid.looked, bare_names(tokens, first, mid.at))?;
    Ok((all, end))
}

/// Such names in brackets.
fn bare(alloc: Global, tokens: &[Token], at: Cursor) -> Result<(Variables, Cursor), Fail<usize>>
    requires { at.at ≤ length tokens.now }
    ensures { Advances spec.bare spec.in_round_of tokens.now at result }
{
    let next = expect_op_on(tokens, at, Operator::OpenRound)?;
    let (names, mid) = bare_inside(alloc, tokens, next)?;
    let end = expect_op_on(tokens, mid, Operator::CloseRound)?;
    let found = Variables {
        names,
        brackets: true,
    };
    Ok((found, end))
}

/// Names in brackets, or one name with its type if one is written.
fn variables_at(
    alloc: Global,
    tokens: &[Token],
    at: Cursor,
) -> Result<(Variables, Cursor), Fail<usize>>
    requires { at.at ≤ length tokens.now }
    ensures { Advances spec.variables spec.variables_of tokens.now at result }
{
    if is_op_at(tokens, at.at, Operator::OpenRound) {
        return bare(alloc, tokens, at);
    }
    let none = Items::new(alloc);
    let (names, end) = behind(at.looked, typed_name(alloc, tokens, none, at.at))?;
    let found = Variables {
        names,
        brackets: false,
    };
    Ok((found, end))
}

/// `in`, and what the loop goes over.
fn over<F: Fn(Global, &[Token], Cursor) -> Result<(Expr, Cursor), Fail<usize>>, G>(
    bodies: &Bodies<'_, F, G>,
    at: Cursor,
) -> Result<(Boxed<Expr>, Cursor), Fail<usize>>
    requires expressions { ReadsExpression bodies.now.tokens.now bodies.now.from (F.pre bodies.now.expression) (F.post bodies.now.expression) }
    requires behind { bodies.now.from ≤ at.at }
    requires within { at.at ≤ length bodies.now.tokens.now }
    ensures { Advances spec.over spec.over_of bodies.now.tokens.now at result }
{
    let next = expect_on(bodies.tokens, at, Terminal::Word(Keyword::In))?;
    let (found, end) = bodies.expression_at(next)?;
    let kept = Boxed::new(bodies.alloc, found)?;
    Ok((kept, end))
}

/// What stands behind the variables of a `for`.
fn behind_variables<F: Fn(Global, &[Token], Cursor) -> Result<(Expr, Cursor), Fail<usize>>, G>(
    bodies: &Bodies<'_, F, G>,
    variables: Variables,
    at: Cursor,
) -> Result<(Head, Cursor), Fail<usize>>
    requires expressions { ReadsExpression bodies.now.tokens.now bodies.now.from (F.pre bodies.now.expression) (F.post bodies.now.expression) }
    requires behind { bodies.now.from ≤ at.at }
    requires within { at.at ≤ length bodies.now.tokens.now }
    ensures { Advances spec.over (spec.head_with variables) bodies.now.tokens.now at result }
{
    let (range, end) = over(bodies, at)?;
    let token = place_at(bodies.tokens, at.at);
    let Variables { names, brackets } = variables;
    let found = Head {
        names,
        brackets,
        token,
        range,
    };
    Ok((found, end))
}

/// All that stands in the brackets of a `for`.
fn inside<F: Fn(Global, &[Token], Cursor) -> Result<(Expr, Cursor), Fail<usize>>, G>(
    bodies: &Bodies<'_, F, G>,
    at: Cursor,
) -> Result<(Head, Cursor), Fail<usize>>
    requires expressions { ReadsExpression bodies.now.tokens.now bodies.now.from (F.pre bodies.now.expression) (F.post bodies.now.expression) }
    requires behind { bodies.now.from ≤ at.at }
    requires within { at.at ≤ length bodies.now.tokens.now }
    ensures { Advances spec.inside spec.inside_of bodies.now.tokens.now at result }
{
    let (found, mid) = variables_at(bodies.alloc, bodies.tokens, at)?;
    behind_variables(bodies, found, mid)
}

/// The brackets of a `for`.
fn head_at<F: Fn(Global, &[Token], Cursor) -> Result<(Expr, Cursor), Fail<usize>>, G>(
    bodies: &Bodies<'_, F, G>,
    at: Cursor,
) -> Result<(Head, Cursor), Fail<usize>>
    requires expressions { ReadsExpression bodies.now.tokens.now bodies.now.from (F.pre bodies.now.expression) (F.post bodies.now.expression) }
    requires behind { bodies.now.from ≤ at.at }
    requires within { at.at ≤ length bodies.now.tokens.now }
    ensures { Advances spec.head spec.head_of bodies.now.tokens.now at result }
{
    let next = expect_op_on(bodies.tokens, at, Operator::OpenRound)?;
    let (found, mid) = inside(bodies, next)?;
    let end = expect_op_on(bodies.tokens, mid, Operator::CloseRound)?;
    Ok((found, end))
}

/// A `for` behind its label. The whole begins at `start`.
fn for_<
    F: Fn(Global, &[Token], Cursor) -> Result<(Expr, Cursor), Fail<usize>>,
    G: Fn(Global, &[Token], Cursor) -> Result<(Expr, Cursor), Fail<usize>>,
>(
    bodies: &Bodies<'_, F, G>,
    start: usize,
    label: Option<Word>,
    at: Cursor,
) -> Result<(Expr, Cursor), Fail<usize>>
    requires expressions { ReadsExpression bodies.now.tokens.now bodies.now.from (F.pre bodies.now.expression) (F.post bodies.now.expression) }
    requires statements { ReadsStatement bodies.now.tokens.now bodies.now.from (G.pre bodies.now.statement) (G.post bodies.now.statement) }
    requires behind { bodies.now.from ≤ at.at }
    requires within { at.at ≤ length bodies.now.tokens.now }
    ensures { Advances spec.for_ (spec.for_of (first (drop start bodies.now.tokens.now)) label) bodies.now.tokens.now at result }
{
    let next = expect_on(bodies.tokens, at, Terminal::Word(Keyword::For))?;
    let (head, mid) = head_at(bodies, next)?;
    let (found, end) = body(bodies, mid)?;
    let span = span_between(bodies.tokens, start, end.at);
    Ok((for_node(span, label, head, found), end))
}

/// A `while` behind its label. The whole begins at `start`.
fn while_<
    F: Fn(Global, &[Token], Cursor) -> Result<(Expr, Cursor), Fail<usize>>,
    G: Fn(Global, &[Token], Cursor) -> Result<(Expr, Cursor), Fail<usize>>,
>(
    bodies: &Bodies<'_, F, G>,
    start: usize,
    label: Option<Word>,
    at: Cursor,
) -> Result<(Expr, Cursor), Fail<usize>>
    requires expressions { ReadsExpression bodies.now.tokens.now bodies.now.from (F.pre bodies.now.expression) (F.post bodies.now.expression) }
    requires statements { ReadsStatement bodies.now.tokens.now bodies.now.from (G.pre bodies.now.statement) (G.post bodies.now.statement) }
    requires behind { bodies.now.from ≤ at.at }
    requires within { at.at ≤ length bodies.now.tokens.now }
    ensures { Advances spec.while_ (spec.while_of (first (drop start bodies.now.tokens.now)) label) bodies.now.tokens.now at result }
{
    let next = expect_on(bodies.tokens, at, Terminal::Word(Keyword::While))?;
    let (test, mid) = boxed_bracketed(bodies, next)?;
    let (found, end) = body(bodies, mid)?;
    let span = span_between(bodies.tokens, start, end.at);
    Ok((while_node(span, label, test, found), end))
}

/// `while` and the condition behind the body of a loop.
fn while_test<F: Fn(Global, &[Token], Cursor) -> Result<(Expr, Cursor), Fail<usize>>, G>(
    bodies: &Bodies<'_, F, G>,
    at: Cursor,
) -> Result<(Boxed<Expr>, Cursor), Fail<usize>>
    requires expressions { ReadsExpression bodies.now.tokens.now bodies.now.from (F.pre bodies.now.expression) (F.post bodies.now.expression) }
    requires behind { bodies.now.from ≤ at.at }
    requires within { at.at ≤ length bodies.now.tokens.now }
    ensures { Advances spec.while_test spec.while_test_of bodies.now.tokens.now at result }
{
    let next = expect_on(bodies.tokens, at, Terminal::Word(Keyword::While))?;
    let (found, end) = boxed_bracketed(bodies, next)?;
    Ok((found, end))
}

/// A `do` with its `while`, behind its label. The whole begins at `start`.
fn do_<
    F: Fn(Global, &[Token], Cursor) -> Result<(Expr, Cursor), Fail<usize>>,
    G: Fn(Global, &[Token], Cursor) -> Result<(Expr, Cursor), Fail<usize>>,
>(
    bodies: &Bodies<'_, F, G>,
    start: usize,
    label: Option<Word>,
    at: Cursor,
) -> Result<(Expr, Cursor), Fail<usize>>
    requires expressions { ReadsExpression bodies.now.tokens.now bodies.now.from (F.pre bodies.now.expression) (F.post bodies.now.expression) }
    requires statements { ReadsStatement bodies.now.tokens.now bodies.now.from (G.pre bodies.now.statement) (G.post bodies.now.statement) }
    requires behind { bodies.now.from ≤ at.at }
    requires within { at.at ≤ length bodies.now.tokens.now }
    ensures { Advances spec.do_ (spec.do_of (first (drop start bodies.now.tokens.now)) label) bodies.now.tokens.now at result }
{
    let next = expect_on(bodies.tokens, at, Terminal::Word(Keyword::Do))?;
    let (found, mid) = body(bodies, next)?;
    let (test, end) = while_test(bodies, mid)?;
    let span = span_between(bodies.tokens, start, end.at);
    Ok((do_node(span, label, found, test), end))
}

/// A loop behind its label. The whole begins at `start`.
fn turns<
    F: Fn(Global, &[Token], Cursor) -> Result<(Expr, Cursor), Fail<usize>>,
    G: Fn(Global, &[Token], Cursor) -> Result<(Expr, Cursor), Fail<usize>>,
>(
    bodies: &Bodies<'_, F, G>,
    start: usize,
    label: Option<Word>,
    at: Cursor,
) -> Result<(Expr, Cursor), Fail<usize>>
    requires expressions { ReadsExpression bodies.now.tokens.now bodies.now.from (F.pre bodies.now.expression) (F.post bodies.now.expression) }
    requires statements { ReadsStatement bodies.now.tokens.now bodies.now.from (G.pre bodies.now.statement) (G.post bodies.now.statement) }
    requires behind { bodies.now.from ≤ at.at }
    requires within { at.at ≤ length bodies.now.tokens.now }
    ensures { Advances spec.turns (spec.turns_of (first (drop start bodies.now.tokens.now)) label) bodies.now.tokens.now at result }
{
    if is_word_at(bodies.tokens, at.at, Keyword::For) {
        return for_(bodies, start, label, at);
    }
    if is_word_at(bodies.tokens, at.at, Keyword::While) {
        return while_(bodies, start, label, at);
    }
    do_(bodies, start, label, at)
}

/// A loop, with its label where one is written.
///
/// # Errors
///
/// `Found` with the place of the first token with which none goes on, or the farthest one that a test has looked at.
pub fn loop_<
    F: Fn(Global, &[Token], Cursor) -> Result<(Expr, Cursor), Fail<usize>>,
    G: Fn(Global, &[Token], Cursor) -> Result<(Expr, Cursor), Fail<usize>>,
>(bodies: &Bodies<'_, F, G>, at: Cursor) -> Result<(Expr, Cursor), Fail<usize>>
    requires expressions { ReadsExpression bodies.now.tokens.now bodies.now.from (F.pre bodies.now.expression) (F.post bodies.now.expression) }
    requires statements { ReadsStatement bodies.now.tokens.now bodies.now.from (G.pre bodies.now.statement) (G.post bodies.now.statement) }
    requires behind { bodies.now.from ≤ at.at }
    requires within { at.at ≤ length bodies.now.tokens.now }
    ensures { Advances (row rows.loop) built.loop_of bodies.now.tokens.now at result }
{
    let (label, mid) = label(bodies.tokens, at);
    turns(bodies, at.at, label, mid)
}
