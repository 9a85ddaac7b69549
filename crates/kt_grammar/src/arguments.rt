//! Lists of expressions: the arguments of a call, and the indexes in square brackets (Kotlin Language Specification 1.9, "Call and
//! property access expressions" and "Indexing expressions").
ghost use Rattle.std.specs.Prelude.{◌≡◌, ◌≤◌, ◌++◌, ◌∷◌, [], length};
ghost use Rattle.grammars.specs.Grammar.{row};
ghost use Rattle.kt_grammar.specs.Built as built;
ghost use Rattle.kt_grammar.specs.Expressions as parts;
ghost use Rattle.kt_grammar.specs.Expressions.{ReadsExpression};
ghost use Rattle.kt_grammar.specs.Parsed.{Advanced, Advances};
ghost use Rattle.kt_grammar.specs.Rows as rows;

use crate::beginnings::{begins_argument, begins_expression};
use crate::cursor::{Cursor, eat_op_on};
use crate::tokens::{eat_op, span_between, word_at};
use kc_text::Fail;
use kc_tree::{Arg, Expr, Word};
use kt_lexer::{Operator, Token};
use sqlite_items::Items;
use std::alloc::Global;

/// The name of an argument with the `=` behind it, or nothing.
fn name_before(tokens: &[Token], at: Cursor) -> (Option<Word>, Cursor)
    requires { at.at ≤ length tokens.now }
    ensures { Advanced parts.name_before built.argument_name_of tokens.now at result.1 result.0 }
{
    let Some(word) = word_at(tokens, at.at) else {
        return (None, at);
    };
    let next = at.at + 1;
    match eat_op(tokens, next, Operator::Assign) {
        Some(end) => (Some(word), at.to(end)),
        None => (None, at.seen(next)),
    }
}

/// Whether `*` stands before the value of an argument, and the place behind it.
fn star_before(tokens: &[Token], at: Cursor) -> (bool, Cursor)
    requires { at.at ≤ length tokens.now }
    ensures { Advanced parts.star_before built.is_taken tokens.now at result.1 result.0 }
{
    match eat_op_on(tokens, at, Operator::Times) {
        Some(next) => (true, next),
        None => (false, at),
    }
}

/// The rows of the grammar that hold expressions, each a method.
///
/// # Errors
///
/// `Found` with the place of the first token with which the row does not go on, or the farthest one that a test has looked at.
#[derive(Clone, Copy)]
pub struct Operands<'t, F> {
    pub alloc: Global,
    pub tokens: &'t [Token],
    /// No expression begins before this place.
    pub from: usize,
    /// Reads an expression at a place.
    pub expression: F,
}

impl<F: Fn(Global, &[Token], Cursor) -> Result<(Expr, Cursor), Fail<usize>>> Operands<'_, F> {
    /// An expression.
    pub fn expression_at(&self, at: Cursor) -> Result<(Expr, Cursor), Fail<usize>>
        requires expressions { ReadsExpression self.now.tokens.now self.now.from (F.pre self.now.expression) (F.post self.now.expression) }
        requires behind { self.now.from ≤ at.at }
        requires within { at.at ≤ length self.now.tokens.now }
        ensures { Advances (row rows.expression) built.expression_of self.now.tokens.now at result }
    {
        (self.expression)(self.alloc, self.tokens, at)
    }

    /// An expression, which goes to the list's end.
    fn one_more(
        &self,
        before: Items<Expr>,
        at: Cursor,
    ) -> Result<(Items<Expr>, Cursor), Fail<usize>>
        requires expressions { ReadsExpression self.now.tokens.now self.now.from (F.pre self.now.expression) (F.post self.now.expression) }
        requires behind { self.now.from ≤ at.at }
        requires within { at.at ≤ length self.now.tokens.now }
        ensures { Advances (row rows.expression) (λ x. before ++ built.expression_of x ∷ []) self.now.tokens.now at result }
    {
        let (value, end) = self.expression_at(at)?;
        let mut all = before;
        all.push(value)?;
        Ok((all, end))
    }

    /// Expressions with commas between them, which go to the list's end. There may be none, and a comma behind the last.
    pub fn expressions(
        &self,
        before: Items<Expr>,
        at: Cursor,
    ) -> Result<(Items<Expr>, Cursor), Fail<usize>>
        requires expressions { ReadsExpression self.now.tokens.now self.now.from (F.pre self.now.expression) (F.post self.now.expression) }
        requires behind { self.now.from ≤ at.at }
        requires within { at.at ≤ length self.now.tokens.now }
        ensures { Advances (row rows.expressions) (λ x. before ++ built.expressions_of x) self.now.tokens.now at result }
    {
        let mut all = before;
        let mut at = at;
        while begins_expression(self.tokens, at.at) {
            let (found, end) = self.one_more(all, at)?;
            let Some(next) = eat_op_on(self.tokens, end, Operator::Comma) else {
                return Ok((found, end));
            };
            all = found;
            at = next;
        }
        Ok((all, at))
    }

    /// An argument, which goes to the list's end: a name with `=`, and `*`, may stand before its value.
    fn argument(&self, before: Items<Arg>, at: Cursor) -> Result<(Items<Arg>, Cursor), Fail<usize>>
        requires expressions { ReadsExpression self.now.tokens.now self.now.from (F.pre self.now.expression) (F.post self.now.expression) }
        requires behind { self.now.from ≤ at.at }
        requires within { at.at ≤ length self.now.tokens.now }
        ensures { Advances (row rows.argument) (λ x. before ++ built.argument_of x) self.now.tokens.now at result }
    {
        let (name, mid) = name_before(self.tokens, at);
        let (spread, next) = star_before(self.tokens, mid);
        let (value, end) = self.expression_at(next)?;
        let span = span_between(self.tokens, at.at, end.at);
        let mut all = before;
        all.push(Arg {
            span,
            name,
            spread,
            trailing: false,
            value,
        })?;
        Ok((all, end))
    }

    /// Arguments with commas between them, which go to the list's end. There may be none, and a comma behind the last.
    pub fn arguments(
        &self,
        before: Items<Arg>,
        at: Cursor,
    ) -> Result<(Items<Arg>, Cursor), Fail<usize>>
        requires expressions { ReadsExpression self.now.tokens.now self.now.from (F.pre self.now.expression) (F.post self.now.expression) }
        requires behind { self.now.from ≤ at.at }
        requires within { at.at ≤ length self.now.tokens.now }
        ensures { Advances (row rows.arguments) (λ x. before ++ built.arguments_of x) self.now.tokens.now at result }
    {
        let mut all = before;
        let mut at = at;
        while begins_argument(self.tokens, at.at) {
            let (found, end) = self.argument(all, at)?;
            let Some(next) = eat_op_on(self.tokens, end, Operator::Comma) else {
                return Ok((found, end));
            };
            all = found;
            at = next;
        }
        Ok((all, at))
    }
}
