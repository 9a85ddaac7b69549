//! What stands alone (Kotlin Language Specification 1.9, "Expressions").
ghost use Rattle.std.specs.Prelude.{◌≤◌, length};
ghost use Rattle.grammars.specs.Grammar.{one, row};
ghost use Rattle.kt_bodies.specs.Statements.{ReadsStatement};
ghost use Rattle.kt_parser.specs.Primaries as spec;
ghost use Rattle.kt_grammar.specs.Built as built;
ghost use Rattle.kt_grammar.specs.Expressions.{ReadsExpression};
ghost use Rattle.kt_grammar.specs.Parsed.{Advances};
ghost use Rattle.kt_grammar.specs.Rows as rows;
ghost use Rattle.kt_grammar.specs.Rows.{in_brackets};
ghost use Rattle.kt_grammar.specs.Tokens.{is_name};

use crate::nodes::{atom, bracketed, named};
use kc_text::Fail;
use kc_tree::Expr;
use kt_bodies::{Bodies, Terminal, eat_on, expect_name_on, super_};
use kt_calls::string;
use kt_control::{conditional, jump};
use kt_grammar::{Cursor, Sign, eat_sign, expect_op_on, is_at, is_name_at, is_op_at, span_between};
use kt_lexer::{Keyword, Operator, Token};
use kt_when::when_;
use std::alloc::Global;

fn name(tokens: &[Token], at: Cursor) -> Result<(Expr, Cursor), Fail<usize>>
    requires { at.at ≤ length tokens.now }
    ensures { Advances (one is_name) spec.name_of tokens.now at result }
{
    let (word, end) = expect_name_on(tokens, at)?;
    Ok((named(word), end))
}

/// An expression in round brackets.
fn bracket<F, G>(bodies: &Bodies<'_, F, G>, at: Cursor) -> Result<(Expr, Cursor), Fail<usize>>
where
    F: Fn(Global, &[Token], Cursor) -> Result<(Expr, Cursor), Fail<usize>>,
    G: Fn(Global, &[Token], Cursor) -> Result<(Expr, Cursor), Fail<usize>>,
    requires expressions { ReadsExpression bodies.now.tokens.now bodies.now.from (F.pre bodies.now.expression) (F.post bodies.now.expression) }
    requires statements { ReadsStatement bodies.now.tokens.now bodies.now.from (G.pre bodies.now.statement) (G.post bodies.now.statement) }
    requires behind { bodies.now.from ≤ at.at }
    requires within { at.at ≤ length bodies.now.tokens.now }
    ensures { Advances (in_brackets (row rows.expression)) spec.bracketed_of bodies.now.tokens.now at result }
{
    let open = expect_op_on(bodies.tokens, at, Operator::OpenRound)?;
    let (of, mid) = bodies.expression_at(open)?;
    let close = expect_op_on(bodies.tokens, mid, Operator::CloseRound)?;
    let span = span_between(bodies.tokens, at.at, close.at);
    let whole = bracketed(bodies.alloc, span, of)?;
    Ok((whole, close))
}

/// A jump or a lambda.
fn no_try<F, G>(bodies: &Bodies<'_, F, G>, at: Cursor) -> Result<(Expr, Cursor), Fail<usize>>
where
    F: Fn(Global, &[Token], Cursor) -> Result<(Expr, Cursor), Fail<usize>>,
    G: Fn(Global, &[Token], Cursor) -> Result<(Expr, Cursor), Fail<usize>>,
    requires expressions { ReadsExpression bodies.now.tokens.now bodies.now.from (F.pre bodies.now.expression) (F.post bodies.now.expression) }
    requires statements { ReadsStatement bodies.now.tokens.now bodies.now.from (G.pre bodies.now.statement) (G.post bodies.now.statement) }
    requires behind { bodies.now.from ≤ at.at }
    requires within { at.at ≤ length bodies.now.tokens.now }
    ensures { Advances spec.no_try spec.no_try_of bodies.now.tokens.now at result }
{
    match eat_sign(bodies.tokens, at, Sign::Jump) {
        Some(_) => jump(bodies, at),
        None => bodies.lambda(None, at),
    }
}

/// What stands alone and is none of those before `try`.
fn no_when<F, G>(bodies: &Bodies<'_, F, G>, at: Cursor) -> Result<(Expr, Cursor), Fail<usize>>
where
    F: Fn(Global, &[Token], Cursor) -> Result<(Expr, Cursor), Fail<usize>>,
    G: Fn(Global, &[Token], Cursor) -> Result<(Expr, Cursor), Fail<usize>>,
    requires expressions { ReadsExpression bodies.now.tokens.now bodies.now.from (F.pre bodies.now.expression) (F.post bodies.now.expression) }
    requires statements { ReadsStatement bodies.now.tokens.now bodies.now.from (G.pre bodies.now.statement) (G.post bodies.now.statement) }
    requires behind { bodies.now.from ≤ at.at }
    requires within { at.at ≤ length bodies.now.tokens.now }
    ensures { Advances spec.no_when spec.no_when_of bodies.now.tokens.now at result }
{
    match eat_on(bodies.tokens, at, Terminal::Word(Keyword::Try)) {
        Some(_) => bodies.try_(at),
        None => no_try(bodies, at),
    }
}

/// What stands alone and is none of those before `when`.
fn no_if<F, G>(bodies: &Bodies<'_, F, G>, at: Cursor) -> Result<(Expr, Cursor), Fail<usize>>
where
    F: Fn(Global, &[Token], Cursor) -> Result<(Expr, Cursor), Fail<usize>>,
    G: Fn(Global, &[Token], Cursor) -> Result<(Expr, Cursor), Fail<usize>>,
    requires expressions { ReadsExpression bodies.now.tokens.now bodies.now.from (F.pre bodies.now.expression) (F.post bodies.now.expression) }
    requires statements { ReadsStatement bodies.now.tokens.now bodies.now.from (G.pre bodies.now.statement) (G.post bodies.now.statement) }
    requires behind { bodies.now.from ≤ at.at }
    requires within { at.at ≤ length bodies.now.tokens.now }
    ensures { Advances spec.no_if spec.no_if_of bodies.now.tokens.now at result }
{
    match eat_on(bodies.tokens, at, Terminal::Word(Keyword::When)) {
        Some(_) => when_(bodies, at),
        None => no_when(bodies, at),
    }
}

/// What stands alone and is none of those before `if`.
fn no_super<F, G>(bodies: &Bodies<'_, F, G>, at: Cursor) -> Result<(Expr, Cursor), Fail<usize>>
where
    F: Fn(Global, &[Token], Cursor) -> Result<(Expr, Cursor), Fail<usize>>,
    G: Fn(Global, &[Token], Cursor) -> Result<(Expr, Cursor), Fail<usize>>,
    requires expressions { ReadsExpression bodies.now.tokens.now bodies.now.from (F.pre bodies.now.expression) (F.post bodies.now.expression) }
    requires statements { ReadsStatement bodies.now.tokens.now bodies.now.from (G.pre bodies.now.statement) (G.post bodies.now.statement) }
    requires behind { bodies.now.from ≤ at.at }
    requires within { at.at ≤ length bodies.now.tokens.now }
    ensures { Advances spec.no_super spec.no_super_of bodies.now.tokens.now at result }
{
    match eat_on(bodies.tokens, at, Terminal::Word(Keyword::If)) {
        Some(_) => conditional(bodies, at),
        None => no_if(bodies, at),
    }
}

/// What stands alone and is none of those before `super`.
fn no_bracket<F, G>(bodies: &Bodies<'_, F, G>, at: Cursor) -> Result<(Expr, Cursor), Fail<usize>>
where
    F: Fn(Global, &[Token], Cursor) -> Result<(Expr, Cursor), Fail<usize>>,
    G: Fn(Global, &[Token], Cursor) -> Result<(Expr, Cursor), Fail<usize>>,
    requires expressions { ReadsExpression bodies.now.tokens.now bodies.now.from (F.pre bodies.now.expression) (F.post bodies.now.expression) }
    requires statements { ReadsStatement bodies.now.tokens.now bodies.now.from (G.pre bodies.now.statement) (G.post bodies.now.statement) }
    requires behind { bodies.now.from ≤ at.at }
    requires within { at.at ≤ length bodies.now.tokens.now }
    ensures { Advances spec.no_bracket spec.no_bracket_of bodies.now.tokens.now at result }
{
    match eat_on(bodies.tokens, at, Terminal::Word(Keyword::Super)) {
        Some(_) => super_(bodies.alloc, bodies.tokens, at),
        None => no_super(bodies, at),
    }
}

/// What stands alone and is no literal and no name.
fn no_string<F, G>(bodies: &Bodies<'_, F, G>, at: Cursor) -> Result<(Expr, Cursor), Fail<usize>>
where
    F: Fn(Global, &[Token], Cursor) -> Result<(Expr, Cursor), Fail<usize>>,
    G: Fn(Global, &[Token], Cursor) -> Result<(Expr, Cursor), Fail<usize>>,
    requires expressions { ReadsExpression bodies.now.tokens.now bodies.now.from (F.pre bodies.now.expression) (F.post bodies.now.expression) }
    requires statements { ReadsStatement bodies.now.tokens.now bodies.now.from (G.pre bodies.now.statement) (G.post bodies.now.statement) }
    requires behind { bodies.now.from ≤ at.at }
    requires within { at.at ≤ length bodies.now.tokens.now }
    ensures { Advances spec.no_string spec.no_string_of bodies.now.tokens.now at result }
{
    if is_op_at(bodies.tokens, at.at, Operator::OpenRound) {
        return bracket(bodies, at);
    }
    no_bracket(bodies, at)
}

/// What stands alone and is no name and no literal of one token.
fn no_name<F, G>(bodies: &Bodies<'_, F, G>, at: Cursor) -> Result<(Expr, Cursor), Fail<usize>>
where
    F: Fn(Global, &[Token], Cursor) -> Result<(Expr, Cursor), Fail<usize>>,
    G: Fn(Global, &[Token], Cursor) -> Result<(Expr, Cursor), Fail<usize>>,
    requires expressions { ReadsExpression bodies.now.tokens.now bodies.now.from (F.pre bodies.now.expression) (F.post bodies.now.expression) }
    requires statements { ReadsStatement bodies.now.tokens.now bodies.now.from (G.pre bodies.now.statement) (G.post bodies.now.statement) }
    requires behind { bodies.now.from ≤ at.at }
    requires within { at.at ≤ length bodies.now.tokens.now }
    ensures { Advances spec.no_name spec.no_name_of bodies.now.tokens.now at result }
{
    if is_at(bodies.tokens, at.at, 78) {
        return string(bodies, at);
    }
    no_string(bodies, at)
}

/// What stands alone and is no literal of one token.
fn no_atom<F, G>(bodies: &Bodies<'_, F, G>, at: Cursor) -> Result<(Expr, Cursor), Fail<usize>>
where
    F: Fn(Global, &[Token], Cursor) -> Result<(Expr, Cursor), Fail<usize>>,
    G: Fn(Global, &[Token], Cursor) -> Result<(Expr, Cursor), Fail<usize>>,
    requires expressions { ReadsExpression bodies.now.tokens.now bodies.now.from (F.pre bodies.now.expression) (F.post bodies.now.expression) }
    requires statements { ReadsStatement bodies.now.tokens.now bodies.now.from (G.pre bodies.now.statement) (G.post bodies.now.statement) }
    requires behind { bodies.now.from ≤ at.at }
    requires within { at.at ≤ length bodies.now.tokens.now }
    ensures { Advances spec.no_atom spec.no_atom_of bodies.now.tokens.now at result }
{
    if is_name_at(bodies.tokens, at.at) {
        return name(bodies.tokens, at);
    }
    no_name(bodies, at)
}

/// What stands alone: a literal, a name, an expression in brackets, a control structure, a jump or a lambda.
pub fn primary<F, G>(bodies: &Bodies<'_, F, G>, at: Cursor) -> Result<(Expr, Cursor), Fail<usize>>
where
    F: Fn(Global, &[Token], Cursor) -> Result<(Expr, Cursor), Fail<usize>>,
    G: Fn(Global, &[Token], Cursor) -> Result<(Expr, Cursor), Fail<usize>>,
    requires expressions { ReadsExpression bodies.now.tokens.now bodies.now.from (F.pre bodies.now.expression) (F.post bodies.now.expression) }
    requires statements { ReadsStatement bodies.now.tokens.now bodies.now.from (G.pre bodies.now.statement) (G.post bodies.now.statement) }
    requires behind { bodies.now.from ≤ at.at }
    requires within { at.at ≤ length bodies.now.tokens.now }
    ensures { Advances (row rows.primary) built.primary_of bodies.now.tokens.now at result }
{
    match eat_sign(bodies.tokens, at, Sign::Atom) {
        Some((token, end)) => Ok((atom(token), end)),
        None => no_atom(bodies, at),
    }
}
