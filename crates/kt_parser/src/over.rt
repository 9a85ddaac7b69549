//! Expressions over the functions that read what stands inside them (Kotlin Language Specification 1.9, "Expressions").
ghost use Rattle.std.specs.Prelude.{◌≤◌, length};
ghost use Rattle.grammars.specs.Grammar.{row};
ghost use Rattle.kt_bodies.specs.Statements.{ReadsStatement};
ghost use Rattle.kt_grammar.specs.Built as built;
ghost use Rattle.kt_grammar.specs.Expressions.{ReadsExpression};
ghost use Rattle.kt_grammar.specs.Parsed.{Advances};
ghost use Rattle.kt_grammar.specs.Rows as rows;
ghost use Rattle.kt_grammar.specs.Turns as turns;
ghost use Rattle.kt_suffixes.specs.Suffixes.{IsTable};

use crate::primary::primary;
use kc_text::Fail;
use kc_tree::Expr;
use kt_bodies::Bodies;
use kt_calls::suffixes;
use kt_grammar::{Cursor, Look, Operators};
use kt_lexer::Token;
use std::alloc::Global;

/// What stands alone, and all that follows it: members, indexes, calls, `++`, `--` and `!!`.
pub fn postfix<F, G>(
    bodies: &Bodies<'_, F, G>,
    looks: &[Look],
    at: Cursor,
) -> Result<(Expr, Cursor), Fail<usize>>
where
    F: Fn(Global, &[Token], Cursor) -> Result<(Expr, Cursor), Fail<usize>>,
    G: Fn(Global, &[Token], Cursor) -> Result<(Expr, Cursor), Fail<usize>>,
    requires expressions { ReadsExpression bodies.now.tokens.now bodies.now.from (F.pre bodies.now.expression) (F.post bodies.now.expression) }
    requires statements { ReadsStatement bodies.now.tokens.now bodies.now.from (G.pre bodies.now.statement) (G.post bodies.now.statement) }
    requires looks { IsTable bodies.now.tokens.now looks.now }
    requires behind { bodies.now.from ≤ at.at }
    requires within { at.at ≤ length bodies.now.tokens.now }
    ensures { Advances (row rows.postfix) built.postfix_of bodies.now.tokens.now at result }
{
    let (of, mid) = primary(bodies, at)?;
    suffixes(bodies, looks, of, mid)
}

/// An expression.
pub fn expression_over<F, G>(
    bodies: &Bodies<'_, F, G>,
    looks: &[Look],
    at: Cursor,
) -> Result<(Expr, Cursor), Fail<usize>>
where
    F: Fn(Global, &[Token], Cursor) -> Result<(Expr, Cursor), Fail<usize>>,
    G: Fn(Global, &[Token], Cursor) -> Result<(Expr, Cursor), Fail<usize>>,
    requires expressions { ReadsExpression bodies.now.tokens.now bodies.now.from (F.pre bodies.now.expression) (F.post bodies.now.expression) }
    requires statements { ReadsStatement bodies.now.tokens.now bodies.now.from (G.pre bodies.now.statement) (G.post bodies.now.statement) }
    requires looks { IsTable bodies.now.tokens.now looks.now }
    requires behind { bodies.now.from ≤ at.at }
    requires within { at.at ≤ length bodies.now.tokens.now }
    ensures { Advances (row rows.expression) built.expression_of bodies.now.tokens.now at result }
{
    let operators = Operators {
        alloc: bodies.alloc,
        tokens: bodies.tokens,
        from: bodies.from,
        postfix: |_: Global, _: &[Token], at: Cursor|
            requires expressions { ReadsExpression bodies.now.tokens.now bodies.now.from (F.pre bodies.now.expression) (F.post bodies.now.expression) }
            requires statements { ReadsStatement bodies.now.tokens.now bodies.now.from (G.pre bodies.now.statement) (G.post bodies.now.statement) }
            requires looks { IsTable bodies.now.tokens.now looks.now }
            requires behind { bodies.now.from ≤ at.at }
            requires within { at.at ≤ length bodies.now.tokens.now }
            ensures { Advances (row rows.postfix) built.postfix_of bodies.entry.now.tokens.now at result }
        { postfix(bodies, looks, at) },
    };
    operators.expression(at)
}

/// All operators that may follow a postfix expression, and their operands.
pub fn turns_over<F, G>(
    bodies: &Bodies<'_, F, G>,
    looks: &[Look],
    left: Expr,
    at: Cursor,
) -> Result<(Expr, Cursor), Fail<usize>>
where
    F: Fn(Global, &[Token], Cursor) -> Result<(Expr, Cursor), Fail<usize>>,
    G: Fn(Global, &[Token], Cursor) -> Result<(Expr, Cursor), Fail<usize>>,
    requires expressions { ReadsExpression bodies.now.tokens.now bodies.now.from (F.pre bodies.now.expression) (F.post bodies.now.expression) }
    requires statements { ReadsStatement bodies.now.tokens.now bodies.now.from (G.pre bodies.now.statement) (G.post bodies.now.statement) }
    requires looks { IsTable bodies.now.tokens.now looks.now }
    requires behind { bodies.now.from ≤ at.at }
    requires within { at.at ≤ length bodies.now.tokens.now }
    ensures { Advances turns.cast_on (turns.cast_on_of left) bodies.now.tokens.now at result }
{
    let operators = Operators {
        alloc: bodies.alloc,
        tokens: bodies.tokens,
        from: bodies.from,
        postfix: |_: Global, _: &[Token], at: Cursor|
            requires expressions { ReadsExpression bodies.now.tokens.now bodies.now.from (F.pre bodies.now.expression) (F.post bodies.now.expression) }
            requires statements { ReadsStatement bodies.now.tokens.now bodies.now.from (G.pre bodies.now.statement) (G.post bodies.now.statement) }
            requires looks { IsTable bodies.now.tokens.now looks.now }
            requires behind { bodies.now.from ≤ at.at }
            requires within { at.at ≤ length bodies.now.tokens.now }
            ensures { Advances (row rows.postfix) built.postfix_of bodies.entry.now.tokens.now at result }
        { postfix(bodies, looks, at) },
    };
    operators.operator_turns(left, at)
}
