//! The look for the `else` of an `if`, with how far it looks.
ghost use Rattle.std.specs.Prelude.{◌≤◌, length};
ghost use Rattle.kt_bodies.specs.Looks.{Looked};
ghost use Rattle.kt_control.specs.Conditionals as spec;
ghost use Rattle.kt_grammar.specs.Lookahead as tests;

use kt_grammar::{Cursor, eat_op, eat_word, is_op_at};
use kt_lexer::{Keyword, Operator, Token};

/// Whether `else` with no `->` behind it stands at the place, and the farthest place that is looked at.
fn else_at(tokens: &[Token], at: usize) -> (bool, usize)
    requires { at ≤ length tokens.now }
    ensures { spec.ElseAt tokens.now at result.0 result.1 }
{
    let Some(next) = eat_word(tokens, at, Keyword::Else) else {
        return (false, at);
    };
    (!is_op_at(tokens, next, Operator::Arrow), next)
}

/// Whether the `else` of an `if` stands at the place, with at most one `;` before it and no `->` behind it.
pub fn look_for_else(tokens: &[Token], at: Cursor) -> (bool, Cursor)
    requires { at.at ≤ length tokens.now }
    ensures { Looked tests.else_follows spec.else_part tokens.now at result.1 result.0 }
{
    let Some(next) = eat_op(tokens, at.at, Operator::Semicolon) else {
        let (holds, end) = else_at(tokens, at.at);
        return (holds, at.seen(end));
    };
    let (holds, end) = else_at(tokens, next);
    (holds, at.seen(end))
}
