//! Statements one behind another, and blocks (Kotlin Language Specification 1.9, "Statements" and "Code blocks").
ghost use Rattle.std.specs.Prelude.{◌≡◌, ◌≤◌, ◌++◌, ◌∷◌, [], length};
ghost use Rattle.grammars.specs.Grammar.{row};
ghost use Rattle.kt_bodies.specs.Statements.{ReadsStatement, AllSemicolons, Follows, to_brace, before_brace};
ghost use Rattle.kt_grammar.specs.Built as built;
ghost use Rattle.kt_grammar.specs.Parsed.{Advances};
ghost use Rattle.kt_grammar.specs.Rows as rows;
ghost use Rattle.kt_grammar.specs.Tokens.{begins_statement, marked};

use crate::beginnings::{begins_marked_statement, begins_statement};
use crate::bodies::Bodies;
use crate::nodes::block;
use kc_text::Fail;
use kc_tree::Expr;
use kt_grammar::{Cursor, eat_op_on, expect_op_on, span_between};
use kt_lexer::{Operator, Token};
use sqlite_items::Items;
use std::alloc::Global;

/// The place behind all `;` that stand at a place.
pub fn behind_semicolons(tokens: &[Token], at: Cursor) -> Cursor
    requires { at.at ≤ length tokens.now }
    ensures { AllSemicolons tokens.now at result }
{
    let mut at = at;
    while let Some(next) = eat_op_on(tokens, at, Operator::Semicolon) {
        at = next;
    }
    at
}

/// Whether a statement follows one that ends before the place, and where it begins.
fn next_statement(tokens: &[Token], at: Cursor) -> (Cursor, bool)
    requires { at.at ≤ length tokens.now }
    ensures { Follows begins_statement (marked begins_statement) tokens.now at result.0 result.1 }
{
    let Some(next) = eat_op_on(tokens, at, Operator::Semicolon) else {
        return (at, begins_marked_statement(tokens, at.at));
    };
    let end = behind_semicolons(tokens, next);
    (end, begins_statement(tokens, end.at))
}

impl<F, G: Fn(Global, &[Token], Cursor) -> Result<(Expr, Cursor), Fail<usize>>> Bodies<'_, F, G> {
    /// A statement.
    pub fn statement_at(&self, at: Cursor) -> Result<(Expr, Cursor), Fail<usize>>
        requires statements { ReadsStatement self.now.tokens.now self.now.from (G.pre self.now.statement) (G.post self.now.statement) }
        requires behind { self.now.from ≤ at.at }
        requires within { at.at ≤ length self.now.tokens.now }
        ensures { Advances (row rows.statement) built.statement_of self.now.tokens.now at result }
    {
        (self.statement)(self.alloc, self.tokens, at)
    }

    /// A statement, which goes to the list's end.
    fn one_more(
        &self,
        before: Items<Expr>,
        at: Cursor,
    ) -> Result<(Items<Expr>, Cursor), Fail<usize>>
        requires statements { ReadsStatement self.now.tokens.now self.now.from (G.pre self.now.statement) (G.post self.now.statement) }
        requires behind { self.now.from ≤ at.at }
        requires within { at.at ≤ length self.now.tokens.now }
        ensures { Advances (row rows.statement) (λ x. before ++ built.statement_of x ∷ []) self.now.tokens.now at result }
    {
        let (found, end) = self.statement_at(at)?;
        let mut all = before;
        all.push(found)?;
        Ok((all, end))
    }

    /// The statements behind one, which go to the list's end.
    fn further(&self, before: Items<Expr>, at: Cursor) -> Result<(Items<Expr>, Cursor), Fail<usize>>
        requires statements { ReadsStatement self.now.tokens.now self.now.from (G.pre self.now.statement) (G.post self.now.statement) }
        requires behind { self.now.from ≤ at.at }
        requires within { at.at ≤ length self.now.tokens.now }
        ensures { Advances (row rows.after_statement) (λ x. before ++ built.statements_behind x) self.now.tokens.now at result }
    {
        let mut all = before;
        let mut at = at;
        loop {
            let (next, goes_on) = next_statement(self.tokens, at);
            if !goes_on {
                return Ok((all, next));
            }
            let (found, end) = self.one_more(all, next)?;
            all = found;
            at = end;
        }
    }

    /// Statements with a `;` or a line's end between them. There may be none, and `;` behind the last.
    pub fn statements(&self, at: Cursor) -> Result<(Items<Expr>, Cursor), Fail<usize>>
        requires statements { ReadsStatement self.now.tokens.now self.now.from (G.pre self.now.statement) (G.post self.now.statement) }
        requires behind { self.now.from ≤ at.at }
        requires within { at.at ≤ length self.now.tokens.now }
        ensures { Advances (row rows.statements) built.statements_of self.now.tokens.now at result }
    {
        let none = Items::new(self.alloc);
        if !begins_statement(self.tokens, at.at) {
            return Ok((none, at));
        }
        let (all, end) = self.one_more(none, at)?;
        self.further(all, end)
    }

    /// Statements, and the brace behind them.
    pub fn to_brace(&self, at: Cursor) -> Result<(Items<Expr>, Cursor), Fail<usize>>
        requires statements { ReadsStatement self.now.tokens.now self.now.from (G.pre self.now.statement) (G.post self.now.statement) }
        requires behind { self.now.from ≤ at.at }
        requires within { at.at ≤ length self.now.tokens.now }
        ensures { Advances to_brace before_brace self.now.tokens.now at result }
    {
        let (all, end) = self.statements(at)?;
        let end = expect_op_on(self.tokens, end, Operator::CloseBrace)?;
        Ok((all, end))
    }

    /// The statements in a pair of braces.
    pub fn block_statements(&self, at: Cursor) -> Result<(Items<Expr>, Cursor), Fail<usize>>
        requires statements { ReadsStatement self.now.tokens.now self.now.from (G.pre self.now.statement) (G.post self.now.statement) }
        requires behind { self.now.from ≤ at.at }
        requires within { at.at ≤ length self.now.tokens.now }
        ensures { Advances (row rows.block) built.block_statements self.now.tokens.now at result }
    {
        let next = expect_op_on(self.tokens, at, Operator::OpenBrace)?;
        let (body, end) = self.to_brace(next)?;
        Ok((body, end))
    }

    /// A block.
    pub fn block(&self, at: Cursor) -> Result<(Expr, Cursor), Fail<usize>>
        requires statements { ReadsStatement self.now.tokens.now self.now.from (G.pre self.now.statement) (G.post self.now.statement) }
        requires behind { self.now.from ≤ at.at }
        requires within { at.at ≤ length self.now.tokens.now }
        ensures { Advances (row rows.block) built.block_of self.now.tokens.now at result }
    {
        let (body, end) = self.block_statements(at)?;
        let span = span_between(self.tokens, at.at, end.at);
        Ok((block(span, body), end))
    }
}
