//! Tests that look farther than the next token, with how far they look.
ghost use Rattle.std.specs.Prelude.{◌≡◌, ◌≤◌, length, drop};
ghost use Rattle.grammars.specs.Grammar.{row, first, test};
ghost use Rattle.kt_bodies.specs.Lambdas.{behind_parameters, parameter_end};
ghost use Rattle.kt_bodies.specs.Looks.{Looked};
ghost use Rattle.kt_bodies.specs.Tries.{last_clause};
ghost use Rattle.kt_grammar.specs.Lookahead as tests;
ghost use Rattle.kt_grammar.specs.Rows as rows;

use crate::terminals::{Terminal, eat_on};
use kt_grammar::{Cursor, eat_name, eat_op_on, is_op_at};
use kt_lexer::{Operator, Token};

/// Whether the parameters of a lambda with their `->` stand at the place: a name, and `,`, `:` or `->`.
pub fn look_for_parameters(tokens: &[Token], at: Cursor) -> (bool, Cursor)
    requires { at.at ≤ length tokens.now }
    ensures { Looked tests.parameters behind_parameters tokens.now at result.1 result.0 }
{
    let Some(next) = eat_name(tokens, at.at) else {
        return (false, at.seen(at.at));
    };
    (is_parameter_end(tokens, next), at.seen(next))
}

fn is_parameter_end(tokens: &[Token], at: usize) -> bool
    ensures { result ≡ test parameter_end (first (drop at tokens.now)) }
{
    is_op_at(tokens, at, Operator::Comma)
        || (is_op_at(tokens, at, Operator::Colon) || is_op_at(tokens, at, Operator::Arrow))
}

/// Whether a clause stands at the place that catches exceptions: `catch`, `(`, a name and `:`.
pub fn look_for_catch(tokens: &[Token], at: Cursor) -> (bool, Cursor)
    requires { at.at ≤ length tokens.now }
    ensures { Looked tests.catch_clause (row rows.catch_) tokens.now at result.1 result.0 }
{
    let Some(bracket) = eat_on(tokens, at, Terminal::Catch) else {
        return (false, at.seen(at.at));
    };
    let Some(name) = eat_op_on(tokens, bracket, Operator::OpenRound) else {
        return (false, at.seen(bracket.at));
    };
    let Some(colon) = eat_name(tokens, name.at) else {
        return (false, at.seen(name.at));
    };
    (is_op_at(tokens, colon, Operator::Colon), at.seen(colon))
}

/// Whether the last clause of a `try` stands at the place: `finally` and `{`.
pub fn look_for_finally(tokens: &[Token], at: Cursor) -> (bool, Cursor)
    requires { at.at ≤ length tokens.now }
    ensures { Looked tests.finally_clause last_clause tokens.now at result.1 result.0 }
{
    let Some(next) = eat_on(tokens, at, Terminal::Finally) else {
        return (false, at.seen(at.at));
    };
    (
        is_op_at(tokens, next.at, Operator::OpenBrace),
        at.seen(next.at),
    )
}
