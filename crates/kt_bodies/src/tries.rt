//! `try` and its clauses (Kotlin Language Specification 1.9, "Try-expressions").
ghost use Rattle.std.specs.Prelude.{◌≡◌, ◌≤◌, ◌++◌, ◌∷◌, [], length, drop};
ghost use Rattle.grammars.specs.Grammar.{row, first};
ghost use Rattle.kt_bodies.specs.Statements.{ReadsStatement};
ghost use Rattle.kt_bodies.specs.Tries as spec;
ghost use Rattle.kt_grammar.specs.Built as built;
ghost use Rattle.kt_grammar.specs.Parsed.{Advances};
ghost use Rattle.kt_grammar.specs.Rows as rows;

use crate::bodies::Bodies;
use crate::looks::{look_for_catch, look_for_finally};
use crate::nodes::tried;
use crate::terminals::{Terminal, expect_name_on, expect_on};
use kc_text::Fail;
use kc_tree::{CatchPart, Expr, Type, Word};
use kt_grammar::{Cursor, behind, expect_op_on, is_at, span_between, type_at};
use kt_lexer::{Keyword, Operator, Token};
use sqlite_items::{Boxed, Items};
use std::alloc::Global;

/// The clauses of a `try`.
#[derive(Drop)]
pub struct Clauses {
    pub catches: Items<CatchPart>,
    /// The block of `finally`.
    pub last: Option<Boxed<Expr>>,
}

/// The variable of a clause that catches, with its type, in brackets.
fn caught(
    alloc: Global,
    tokens: &[Token],
    at: Cursor,
) -> Result<((Word, Type), Cursor), Fail<usize>>
    requires { at.at ≤ length tokens.now }
    ensures { Advances spec.caught spec.caught_of tokens.now at result }
{
    let bracket = expect_op_on(tokens, at, Operator::OpenRound)?;
    let (name, mid) = expect_name_on(tokens, bracket)?;
    let colon = expect_op_on(tokens, mid, Operator::Colon)?;
    let (ty, end) = behind(colon.looked, type_at(alloc, tokens, colon.at))?;
    let close = expect_op_on(tokens, end, Operator::CloseRound)?;
    Ok(((name, ty), close))
}

impl<F, G: Fn(Global, &[Token], Cursor) -> Result<(Expr, Cursor), Fail<usize>>> Bodies<'_, F, G> {
    /// The block of a clause that catches and begins at `start`. The clause goes to the list's end.
    fn handler(
        &self,
        before: Items<CatchPart>,
        start: usize,
        caught: (Word, Type),
        at: Cursor,
    ) -> Result<(Items<CatchPart>, Cursor), Fail<usize>>
        requires statements { ReadsStatement self.now.tokens.now self.now.from (G.pre self.now.statement) (G.post self.now.statement) }
        requires behind { self.now.from ≤ at.at }
        requires within { at.at ≤ length self.now.tokens.now }
        ensures { Advances (row rows.block) (λ x. before ++ spec.handler (first (drop start self.now.tokens.now)) caught.0 caught.1 x ∷ []) self.now.tokens.now at result }
    {
        let (body, end) = self.block(at)?;
        let span = span_between(self.tokens, start, end.at);
        let (name, ty) = caught;
        let mut all = before;
        all.push(CatchPart {
            span,
            name,
            ty,
            body,
        })?;
        Ok((all, end))
    }

    /// A clause that catches, which goes to the list's end.
    fn catch_(
        &self,
        before: Items<CatchPart>,
        at: Cursor,
    ) -> Result<(Items<CatchPart>, Cursor), Fail<usize>>
        requires statements { ReadsStatement self.now.tokens.now self.now.from (G.pre self.now.statement) (G.post self.now.statement) }
        requires behind { self.now.from ≤ at.at }
        requires within { at.at ≤ length self.now.tokens.now }
        ensures { Advances (row rows.catch_) (λ x. before ++ built.catch_of x) self.now.tokens.now at result }
    {
        let next = expect_on(self.tokens, at, Terminal::Catch)?;
        let (caught, mid) = caught(self.alloc, self.tokens, next)?;
        self.handler(before, at.at, caught, mid)
    }

    /// Further clauses that catch, which go to the list's end.
    fn more_catches(
        &self,
        before: Items<CatchPart>,
        at: Cursor,
    ) -> Result<(Items<CatchPart>, Cursor), Fail<usize>>
        requires statements { ReadsStatement self.now.tokens.now self.now.from (G.pre self.now.statement) (G.post self.now.statement) }
        requires behind { self.now.from ≤ at.at }
        requires within { at.at ≤ length self.now.tokens.now }
        ensures { Advances spec.more_catches (λ x. before ++ built.catches_of x) self.now.tokens.now at result }
    {
        let mut all = before;
        let mut at = at;
        loop {
            let (holds, mid) = look_for_catch(self.tokens, at);
            if !holds {
                return Ok((all, mid));
            }
            let (found, end) = self.catch_(all, mid)?;
            all = found;
            at = end;
        }
    }

    /// `finally` with its block.
    fn last_clause(&self, at: Cursor) -> Result<(Boxed<Expr>, Cursor), Fail<usize>>
        requires statements { ReadsStatement self.now.tokens.now self.now.from (G.pre self.now.statement) (G.post self.now.statement) }
        requires behind { self.now.from ≤ at.at }
        requires within { at.at ≤ length self.now.tokens.now }
        ensures { Advances spec.last_clause spec.last_block self.now.tokens.now at result }
    {
        let next = expect_on(self.tokens, at, Terminal::Finally)?;
        let (last, end) = self.block(next)?;
        let last = Boxed::new(self.alloc, last)?;
        Ok((last, end))
    }

    /// `finally` with its block, where they stand at the place.
    fn maybe_last(&self, at: Cursor) -> Result<(Option<Boxed<Expr>>, Cursor), Fail<usize>>
        requires statements { ReadsStatement self.now.tokens.now self.now.from (G.pre self.now.statement) (G.post self.now.statement) }
        requires behind { self.now.from ≤ at.at }
        requires within { at.at ≤ length self.now.tokens.now }
        ensures { Advances spec.maybe_last spec.maybe_block self.now.tokens.now at result }
    {
        let (holds, mid) = look_for_finally(self.tokens, at);
        if !holds {
            return Ok((None, mid));
        }
        let (last, end) = self.last_clause(mid)?;
        Ok((Some(last), end))
    }

    /// Clauses that catch, and perhaps `finally`.
    fn with_catches(&self, at: Cursor) -> Result<(Clauses, Cursor), Fail<usize>>
        requires statements { ReadsStatement self.now.tokens.now self.now.from (G.pre self.now.statement) (G.post self.now.statement) }
        requires behind { self.now.from ≤ at.at }
        requires within { at.at ≤ length self.now.tokens.now }
        ensures { Advances spec.with_catches spec.catching self.now.tokens.now at result }
    {
        let none = Items::new(self.alloc);
        let (first, mid) = self.catch_(none, at)?;
        let (catches, mid) = self.more_catches(first, mid)?;
        let (last, end) = self.maybe_last(mid)?;
        Ok((Clauses { catches, last }, end))
    }

    /// All that stands behind the block of a `try`.
    fn clauses(&self, at: Cursor) -> Result<(Clauses, Cursor), Fail<usize>>
        requires statements { ReadsStatement self.now.tokens.now self.now.from (G.pre self.now.statement) (G.post self.now.statement) }
        requires behind { self.now.from ≤ at.at }
        requires within { at.at ≤ length self.now.tokens.now }
        ensures { Advances spec.clauses spec.clauses_of self.now.tokens.now at result }
    {
        if is_at(self.tokens, at.at, 84) {
            return self.with_catches(at);
        }
        let (last, end) = self.last_clause(at)?;
        let catches = Items::new(self.alloc);
        let clauses = Clauses {
            catches,
            last: Some(last),
        };
        Ok((clauses, end))
    }

    /// A `try` with its clauses.
    pub fn try_(&self, at: Cursor) -> Result<(Expr, Cursor), Fail<usize>>
        requires statements { ReadsStatement self.now.tokens.now self.now.from (G.pre self.now.statement) (G.post self.now.statement) }
        requires behind { self.now.from ≤ at.at }
        requires within { at.at ≤ length self.now.tokens.now }
        ensures { Advances (row rows.try_) built.try_of self.now.tokens.now at result }
    {
        let next = expect_on(self.tokens, at, Terminal::Word(Keyword::Try))?;
        let (body, mid) = self.block_statements(next)?;
        let (clauses, end) = self.clauses(mid)?;
        let span = span_between(self.tokens, at.at, end.at);
        Ok((tried(span, body, clauses), end))
    }
}
