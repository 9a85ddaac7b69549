//! From tokens to statements and files, by recursive descent: one function a row of the grammar (Kotlin Language Specification 1.9,
//! "Statements").

ghost use Rattle.std.specs.Prelude.{◌≡◌, ◌<◌, ◌∷◌, length, Some, IfOk, IfSome};
ghost use Rattle.form_parser.specs.Grammar as grammar;
ghost use Rattle.form_parser.specs.Grammar.{ReadsStatement, ReadsBody, ReadsTest};
ghost use Rattle.form_parser.specs.Parsed.{Answers, Lefts, Collects, CollectsAnother, ParsesSource};

use crate::expressions::{Expected, expect, expect_unmarked, expression, joined, take};
use crate::surface::{Body, Expression, Source, Statement};
use crate::tokens::{NotBuilt, Place, Token, TokenKind};
use kc_text::{Fail, Memory};
use sqlite_items::{Boxed, Items};
use std::alloc::Global;

/// Where in a block the next token stands.
#[derive(Clone, Copy)]
pub enum Standing {
    /// First of all.
    First,
    /// Behind a statement.
    Behind,
    /// Behind a `;`.
    Separated,
}

fn may_begin(standing: Standing, token: Token) -> bool
    ensures { result ≡ grammar.may_begin standing token }
{
    match standing {
        Standing::First | Standing::Separated => true,
        Standing::Behind => token.marked,
    }
}

fn may_separate(standing: Standing) -> bool
    ensures { result ≡ grammar.may_separate standing }
{
    match standing {
        Standing::First => false,
        Standing::Behind | Standing::Separated => true,
    }
}

fn place_of(statement: &Statement) -> Place
    ensures { result ≡ grammar.place_of statement.now }
{
    match statement {
        Statement::Declare { place, .. } => *place,
        Statement::Assign { place, .. } => *place,
        Statement::Print { place, .. } => *place,
        Statement::If { place, .. } => *place,
        Statement::While { place, .. } => *place,
    }
}

/// The one statement of a body without braces.
fn alone(alloc: Global, statement: Statement) -> Result<Body, Memory>
    ensures { IfOk result (λ body. body ≡ grammar.alone_in statement) }
{
    let place = place_of(&statement);
    let mut statements = Items::new(alloc);
    statements.push(statement)?;
    Ok(Body { place, statements })
}

fn first_else(tokens: &[Token]) -> Option<&[Token]>
    ensures lefts { Lefts (grammar.first_else tokens.now) result }
    ensures shorter { IfSome result (λ rest. length rest.now < length tokens.now) }
{
    match tokens.split_first() {
        Some((first, rest)) => match first.kind {
            TokenKind::Else => Some(rest),
            _ => None,
        },
        None => None,
    }
}

/// The tokens behind an `else`, or behind a `;` and an `else`.
fn behind_else(tokens: &[Token]) -> Option<&[Token]>
    ensures lefts { Lefts (grammar.behind_else tokens.now) result }
    ensures shorter { IfSome result (λ rest. length rest.now < length tokens.now) }
{
    match tokens.split_first() {
        Some((first, rest)) => match first.kind {
            TokenKind::Else => Some(rest),
            TokenKind::Semicolon => first_else(rest),
            _ => None,
        },
        None => None,
    }
}

/// A test in its brackets.
fn test(alloc: Global, tokens: &[Token]) -> Result<(Expression, &[Token]), Fail<NotBuilt>>
    ensures parses { Answers ReadsTest tokens.now result }
    ensures shorter { IfOk result (λ p. length p.1.now < length tokens.now) }
{
    let (_open, rest) = expect(Expected::OpenRound, tokens)?;
    let (value, behind) = expression(alloc, true, rest)?;
    let (_close, end) = expect(Expected::CloseRound, behind)?;
    Ok((value, end))
}

fn declaration<'t>(
    alloc: Global,
    first: Token,
    is_var: bool,
    tokens: &'t [Token],
) -> Result<(Statement, &'t [Token]), Fail<NotBuilt>>
    requires { grammar.is_var first.kind ≡ Some is_var }
    ensures parses { Answers ReadsStatement (first ∷ tokens.now) result }
    ensures shorter { IfOk result (λ p. length p.1.now < length tokens.now) }
{
    let (name, rest) = expect(Expected::Name, tokens)?;
    let (_assign, behind) = expect(Expected::Assign, rest)?;
    let (value, end) = expression(alloc, false, behind)?;
    let place = joined(first.place, value.place);
    let name = name.place;
    Ok((
        Statement::Declare {
            place,
            is_var,
            name,
            value,
        },
        end,
    ))
}

fn assignment<'t>(
    alloc: Global,
    first: Token,
    tokens: &'t [Token],
) -> Result<(Statement, &'t [Token]), Fail<NotBuilt>>
    requires { first.kind ≡ TokenKind.Name }
    ensures parses { Answers ReadsStatement (first ∷ tokens.now) result }
    ensures shorter { IfOk result (λ p. length p.1.now < length tokens.now) }
{
    let (_assign, rest) = expect_unmarked(Expected::Assign, tokens)?;
    let (value, end) = expression(alloc, false, rest)?;
    let place = joined(first.place, value.place);
    let name = first.place;
    Ok((Statement::Assign { place, name, value }, end))
}

fn print_statement<'t>(
    alloc: Global,
    first: Token,
    tokens: &'t [Token],
) -> Result<(Statement, &'t [Token]), Fail<NotBuilt>>
    requires { first.kind ≡ TokenKind.Println }
    ensures parses { Answers ReadsStatement (first ∷ tokens.now) result }
    ensures shorter { IfOk result (λ p. length p.1.now < length tokens.now) }
{
    let (_open, rest) = expect_unmarked(Expected::OpenRound, tokens)?;
    let (value, behind) = expression(alloc, true, rest)?;
    let (close, end) = expect(Expected::CloseRound, behind)?;
    let place = joined(first.place, close.place);
    Ok((Statement::Print { place, value }, end))
}

#[cycle(statement)]
fn choice<'t>(
    alloc: Global,
    first: Token,
    tokens: &'t [Token],
) -> Result<(Statement, &'t [Token]), Fail<NotBuilt>>
    requires { first.kind ≡ TokenKind.If }
    ensures parses { Answers ReadsStatement (first ∷ tokens.now) result }
    ensures shorter { IfOk result (λ p. length p.1.now < length tokens.now) }
{
    let (test, rest) = test(alloc, tokens)?;
    let (held, end) = body(alloc, rest)?;
    let Some(behind) = behind_else(end) else {
        let place = joined(first.place, held.place);
        let failed = None;
        return Ok((
            Statement::If {
                place,
                test,
                held,
                failed,
            },
            end,
        ));
    };
    let (other, last) = body(alloc, behind)?;
    let place = joined(first.place, other.place);
    let failed = Some(Boxed::new(alloc, other)?);
    Ok((
        Statement::If {
            place,
            test,
            held,
            failed,
        },
        last,
    ))
}

#[cycle(statement)]
fn repetition<'t>(
    alloc: Global,
    first: Token,
    tokens: &'t [Token],
) -> Result<(Statement, &'t [Token]), Fail<NotBuilt>>
    requires { first.kind ≡ TokenKind.While }
    ensures parses { Answers ReadsStatement (first ∷ tokens.now) result }
    ensures shorter { IfOk result (λ p. length p.1.now < length tokens.now) }
{
    let (test, rest) = test(alloc, tokens)?;
    let (body, end) = body(alloc, rest)?;
    let place = joined(first.place, body.place);
    Ok((Statement::While { place, test, body }, end))
}

#[cycle(statement)]
fn statement(alloc: Global, tokens: &[Token]) -> Result<(Statement, &[Token]), Fail<NotBuilt>>
    ensures parses { Answers ReadsStatement tokens.now result }
    ensures shorter { IfOk result (λ p. length p.1.now < length tokens.now) }
{
    let Some((first, rest)) = tokens.split_first() else {
        return Err(Fail::Found(NotBuilt));
    };
    match first.kind {
        TokenKind::Val => declaration(alloc, *first, false, rest),
        TokenKind::Var => declaration(alloc, *first, true, rest),
        TokenKind::Name => assignment(alloc, *first, rest),
        TokenKind::Println => print_statement(alloc, *first, rest),
        TokenKind::If => choice(alloc, *first, rest),
        TokenKind::While => repetition(alloc, *first, rest),
        _ => Err(Fail::Found(NotBuilt)),
    }
}

/// A block, or one statement.
#[cycle(statement)]
fn body(alloc: Global, tokens: &[Token]) -> Result<(Body, &[Token]), Fail<NotBuilt>>
    ensures parses { Answers ReadsBody tokens.now result }
    ensures shorter { IfOk result (λ p. length p.1.now < length tokens.now) }
{
    match take(Expected::OpenBrace, tokens) {
        Some((brace, rest)) => {
            statements(alloc, brace.place, Standing::First, rest, Items::new(alloc))
        }
        None => {
            let (only, end) = statement(alloc, tokens)?;
            Ok((alone(alloc, only)?, end))
        }
    }
}

/// The statements behind those in `done`, up to the brace that closes the block which begins at a place.
#[cycle(statement)]
fn statements(
    alloc: Global,
    begin: Place,
    standing: Standing,
    tokens: &[Token],
    done: Items<Statement>,
) -> Result<(Body, &[Token]), Fail<NotBuilt>>
    ensures parses { Answers (Collects begin standing done) tokens.now result }
    ensures shorter { IfOk result (λ p. length p.1.now < length tokens.now) }
{
    let Some((first, rest)) = tokens.split_first() else {
        return Err(Fail::Found(NotBuilt));
    };
    match first.kind {
        TokenKind::CloseBrace => {
            let place = joined(begin, first.place);
            let statements = done;
            Ok((Body { place, statements }, rest))
        }
        TokenKind::Semicolon => {
            if !may_separate(standing) {
                return Err(Fail::Found(NotBuilt));
            }
            statements(alloc, begin, Standing::Separated, rest, done)
        }
        _ => {
            if !may_begin(standing, *first) {
                return Err(Fail::Found(NotBuilt));
            }
            another(alloc, begin, tokens, done)
        }
    }
}

/// One statement more, and those behind it.
#[cycle(statement)]
fn another(
    alloc: Global,
    begin: Place,
    tokens: &[Token],
    done: Items<Statement>,
) -> Result<(Body, &[Token]), Fail<NotBuilt>>
    ensures parses { Answers (CollectsAnother begin done) tokens.now result }
    ensures shorter { IfOk result (λ p. length p.1.now < length tokens.now) }
{
    let mut done = done;
    let (read, end) = statement(alloc, tokens)?;
    done.push(read)?;
    statements(alloc, begin, Standing::Behind, end, done)
}

/// The tree of a file. Tokens from which the grammar derives no tree are `NotBuilt`.
pub fn parse(alloc: Global, tokens: &[Token]) -> Result<Source, Fail<NotBuilt>>
    ensures { ParsesSource tokens.now result }
{
    let (_fun, behind_fun) = expect(Expected::Fun, tokens)?;
    let (main, behind_main) = expect(Expected::Main, behind_fun)?;
    let (_open, behind_open) = expect(Expected::OpenRound, behind_main)?;
    let (_close, behind_close) = expect(Expected::CloseRound, behind_open)?;
    let (brace, inside) = expect(Expected::OpenBrace, behind_close)?;
    let done = Items::new(alloc);
    let (block, rest) = statements(alloc, brace.place, Standing::First, inside, done)?;
    if !rest.is_empty() {
        return Err(Fail::Found(NotBuilt));
    }
    let Body { place, statements } = block;
    Ok(Source {
        name: main.place,
        body: place,
        statements,
    })
}
