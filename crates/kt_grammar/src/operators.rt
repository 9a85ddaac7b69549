//! Operators and their operands (Kotlin Language Specification 1.9, "Expressions", from "Logical disjunction expressions" to "Prefix
//! expressions").
ghost use Rattle.std.specs.Prelude.{◌≤◌, length};
ghost use Rattle.grammars.specs.Grammar.{leaf, pair, row};
ghost use Rattle.kt_grammar.specs.Built as built;
ghost use Rattle.kt_grammar.specs.Parsed.{Advances};
ghost use Rattle.kt_grammar.specs.Readers.{ReadsFrom, ReadsPostfix};
ghost use Rattle.kt_grammar.specs.Rows as rows;
ghost use Rattle.kt_grammar.specs.Signs as signs;

use crate::beginnings::begins_operand;
use crate::casts::{cast_turns, typed_turn};
use crate::cursor::Cursor;
use crate::nodes::{binary, contained, infix_call};
use crate::prefixes::{behind_prefixes, wrapped};
use crate::signs::{Level, Sign, eat_sign, is_relation_at};
use kc_text::Fail;
use kc_tree::Expr;
use kt_lexer::Token;
use std::alloc::Global;

/// The rows of the grammar from prefix operators to `||`, each a method.
///
/// # Errors
///
/// `Found` with the place of the first token with which the row does not go on, or the farthest one that a test has looked at.
#[derive(Clone, Copy)]
pub struct Operators<'t, F> {
    pub alloc: Global,
    pub tokens: &'t [Token],
    /// No operand begins before this place.
    pub from: usize,
    /// Reads a postfix expression at a place.
    pub postfix: F,
}

impl<F: Fn(Global, &[Token], Cursor) -> Result<(Expr, Cursor), Fail<usize>>> Operators<'_, F> {
    fn postfix_at(&self, at: Cursor) -> Result<(Expr, Cursor), Fail<usize>>
        requires operands { ReadsPostfix self.now.tokens.now self.now.from (F.pre self.now.postfix) (F.post self.now.postfix) }
        requires behind { self.now.from ≤ at.at }
        requires within { at.at ≤ length self.now.tokens.now }
        ensures { Advances (row rows.postfix) built.postfix_of self.now.tokens.now at result }
    {
        (self.postfix)(self.alloc, self.tokens, at)
    }

    /// Any number of prefix operators and a postfix expression.
    fn prefix(&self, at: Cursor) -> Result<(Expr, Cursor), Fail<usize>>
        requires operands { ReadsPostfix self.now.tokens.now self.now.from (F.pre self.now.postfix) (F.post self.now.postfix) }
        requires behind { self.now.from ≤ at.at }
        requires within { at.at ≤ length self.now.tokens.now }
        ensures { Advances (row rows.prefix) built.prefix_of self.now.tokens.now at result }
    {
        let last = behind_prefixes(self.tokens, at);
        let (of, end) = self.postfix_at(at.to(last))?;
        wrapped(self.alloc, self.tokens, at, last, of, end)
    }

    /// An operand with any number of casts.
    pub(crate) fn cast(&self, at: Cursor) -> Result<(Expr, Cursor), Fail<usize>>
        requires operands { ReadsPostfix self.now.tokens.now self.now.from (F.pre self.now.postfix) (F.post self.now.postfix) }
        requires behind { self.now.from ≤ at.at }
        requires within { at.at ≤ length self.now.tokens.now }
        ensures { Advances (row rows.cast) built.cast_of self.now.tokens.now at result }
    {
        let (left, end) = self.prefix(at)?;
        cast_turns(self.alloc, self.tokens, left, end)
    }

    /// Operands with operators of the level between them, or one.
    fn operands<G: Fn(Cursor) -> Result<(Expr, Cursor), Fail<usize>>>(
        &self,
        level: Level,
        operand: G,
        at: Cursor,
    ) -> Result<(Expr, Cursor), Fail<usize>>
        requires operands { ReadsFrom (signs.operand_row level) (signs.operand_of level) self.now.tokens.now self.now.from (G.pre operand) (G.post operand) }
        requires behind { self.now.from ≤ at.at }
        requires within { at.at ≤ length self.now.tokens.now }
        ensures { Advances (row (signs.row_of level)) (signs.tree_of level) self.now.tokens.now at result }
    {
        let (left, end) = operand(at)?;
        self.turns(level, operand, left, end)
    }

    /// Any number of operands behind a first one, each behind an operator of the level.
    pub(crate) fn turns<G: Fn(Cursor) -> Result<(Expr, Cursor), Fail<usize>>>(
        &self,
        level: Level,
        operand: G,
        left: Expr,
        at: Cursor,
    ) -> Result<(Expr, Cursor), Fail<usize>>
        requires operands { ReadsFrom (signs.operand_row level) (signs.operand_of level) self.now.tokens.now self.now.from (G.pre operand) (G.post operand) }
        requires behind { self.now.from ≤ at.at }
        requires within { at.at ≤ length self.now.tokens.now }
        ensures { Advances (signs.turns_of level) (signs.all_of level left) self.now.tokens.now at result }
    {
        let mut left = left;
        let mut at = at;
        while let Some((token, next)) = eat_sign(self.tokens, at, Sign::Between(level)) {
            let (right, end) = operand(next)?;
            left = binary(self.alloc, token, left, right)?;
            at = end;
        }
        Ok((left, at))
    }

    pub(crate) fn product(&self, at: Cursor) -> Result<(Expr, Cursor), Fail<usize>>
        requires operands { ReadsPostfix self.now.tokens.now self.now.from (F.pre self.now.postfix) (F.post self.now.postfix) }
        requires behind { self.now.from ≤ at.at }
        requires within { at.at ≤ length self.now.tokens.now }
        ensures { Advances (row rows.product) built.product_of self.now.tokens.now at result }
    {
        self.operands(Level::Product, |at| self.cast(at), at)
    }

    pub(crate) fn sum(&self, at: Cursor) -> Result<(Expr, Cursor), Fail<usize>>
        requires operands { ReadsPostfix self.now.tokens.now self.now.from (F.pre self.now.postfix) (F.post self.now.postfix) }
        requires behind { self.now.from ≤ at.at }
        requires within { at.at ≤ length self.now.tokens.now }
        ensures { Advances (row rows.sum) built.sum_of self.now.tokens.now at result }
    {
        self.operands(Level::Sum, |at| self.product(at), at)
    }

    fn range(&self, at: Cursor) -> Result<(Expr, Cursor), Fail<usize>>
        requires operands { ReadsPostfix self.now.tokens.now self.now.from (F.pre self.now.postfix) (F.post self.now.postfix) }
        requires behind { self.now.from ≤ at.at }
        requires within { at.at ≤ length self.now.tokens.now }
        ensures { Advances (row rows.range) built.range_of self.now.tokens.now at result }
    {
        self.operands(Level::Range, |at| self.sum(at), at)
    }

    /// Operands with named functions between them, or one.
    pub(crate) fn infix_calls(&self, at: Cursor) -> Result<(Expr, Cursor), Fail<usize>>
        requires operands { ReadsPostfix self.now.tokens.now self.now.from (F.pre self.now.postfix) (F.post self.now.postfix) }
        requires behind { self.now.from ≤ at.at }
        requires within { at.at ≤ length self.now.tokens.now }
        ensures { Advances (row rows.infix_) built.infix_of self.now.tokens.now at result }
    {
        let (left, end) = self.range(at)?;
        self.infix_turns(left, end)
    }

    /// Any number of operands behind a first one, each behind the name of a function.
    pub(crate) fn infix_turns(&self, left: Expr, at: Cursor) -> Result<(Expr, Cursor), Fail<usize>>
        requires operands { ReadsPostfix self.now.tokens.now self.now.from (F.pre self.now.postfix) (F.post self.now.postfix) }
        requires behind { self.now.from ≤ at.at }
        requires within { at.at ≤ length self.now.tokens.now }
        ensures { Advances rows.infix_turns (built.infix_turns_of left) self.now.tokens.now at result }
    {
        let mut left = left;
        let mut at = at;
        while let Some((token, next)) = eat_sign(self.tokens, at, Sign::Name) {
            let (whole, end) = self.infix_turn(token, left, next)?;
            left = whole;
            at = end;
        }
        Ok((left, at))
    }

    /// An operand and the name of a function with the operand at the place.
    fn infix_turn(
        &self,
        token: &Token,
        left: Expr,
        at: Cursor,
    ) -> Result<(Expr, Cursor), Fail<usize>>
        requires operands { ReadsPostfix self.now.tokens.now self.now.from (F.pre self.now.postfix) (F.post self.now.postfix) }
        requires behind { self.now.from ≤ at.at }
        requires within { at.at ≤ length self.now.tokens.now }
        ensures { Advances signs.infix_operand (λ x. built.infix_turn_of left (pair (leaf token.now) x)) self.now.tokens.now at result }
    {
        let (right, end) = self.infix_operand(at)?;
        let whole = infix_call(self.alloc, token, left, right)?;
        Ok((whole, end))
    }

    /// What stands behind the name of a function, on its line.
    fn infix_operand(&self, at: Cursor) -> Result<(Expr, Cursor), Fail<usize>>
        requires operands { ReadsPostfix self.now.tokens.now self.now.from (F.pre self.now.postfix) (F.post self.now.postfix) }
        requires behind { self.now.from ≤ at.at }
        requires within { at.at ≤ length self.now.tokens.now }
        ensures { Advances signs.infix_operand signs.infix_operand_of self.now.tokens.now at result }
    {
        if !begins_operand(self.tokens, at.at) {
            return Err(at.fault());
        }
        self.range(at)
    }

    fn elvis(&self, at: Cursor) -> Result<(Expr, Cursor), Fail<usize>>
        requires operands { ReadsPostfix self.now.tokens.now self.now.from (F.pre self.now.postfix) (F.post self.now.postfix) }
        requires behind { self.now.from ≤ at.at }
        requires within { at.at ≤ length self.now.tokens.now }
        ensures { Advances (row rows.elvis) built.elvis_of self.now.tokens.now at result }
    {
        self.operands(Level::Elvis, |at| self.infix_calls(at), at)
    }

    /// An operand with any number of `in`, `!in` and their operands, and of `is`, `!is` and their types.
    fn named(&self, at: Cursor) -> Result<(Expr, Cursor), Fail<usize>>
        requires operands { ReadsPostfix self.now.tokens.now self.now.from (F.pre self.now.postfix) (F.post self.now.postfix) }
        requires behind { self.now.from ≤ at.at }
        requires within { at.at ≤ length self.now.tokens.now }
        ensures { Advances (row rows.named) built.named_of self.now.tokens.now at result }
    {
        let (left, end) = self.elvis(at)?;
        self.named_turns(left, end)
    }

    /// Any number of operands behind `in` and `!in`, and of types behind `is` and `!is`.
    pub(crate) fn named_turns(&self, left: Expr, at: Cursor) -> Result<(Expr, Cursor), Fail<usize>>
        requires operands { ReadsPostfix self.now.tokens.now self.now.from (F.pre self.now.postfix) (F.post self.now.postfix) }
        requires behind { self.now.from ≤ at.at }
        requires within { at.at ≤ length self.now.tokens.now }
        ensures { Advances rows.named_turns (built.named_turns_of left) self.now.tokens.now at result }
    {
        let mut left = left;
        let mut at = at;
        while is_relation_at(self.tokens, at.at) {
            let (whole, end) = self.named_turn(left, at)?;
            left = whole;
            at = end;
        }
        Ok((left, at))
    }

    fn named_turn(&self, left: Expr, at: Cursor) -> Result<(Expr, Cursor), Fail<usize>>
        requires operands { ReadsPostfix self.now.tokens.now self.now.from (F.pre self.now.postfix) (F.post self.now.postfix) }
        requires behind { self.now.from ≤ at.at }
        requires within { at.at ≤ length self.now.tokens.now }
        ensures { Advances rows.named_turn (built.named_turn_of left) self.now.tokens.now at result }
    {
        match eat_sign(self.tokens, at, Sign::In) {
            Some((token, next)) => self.contained_in(token, left, next),
            None => typed_turn(self.alloc, self.tokens, left, at),
        }
    }

    /// An operand and the token `in` or `!in` with the operand at the place.
    fn contained_in(
        &self,
        token: &Token,
        left: Expr,
        at: Cursor,
    ) -> Result<(Expr, Cursor), Fail<usize>>
        requires operands { ReadsPostfix self.now.tokens.now self.now.from (F.pre self.now.postfix) (F.post self.now.postfix) }
        requires behind { self.now.from ≤ at.at }
        requires within { at.at ≤ length self.now.tokens.now }
        ensures { Advances (row rows.elvis) (λ x. built.contained left token.now (built.elvis_of x)) self.now.tokens.now at result }
    {
        let (right, end) = self.elvis(at)?;
        let whole = contained(self.alloc, token, left, right)?;
        Ok((whole, end))
    }

    /// Two operands with `<`, `>`, `<=` or `>=` between them, or one.
    pub(crate) fn comparison(&self, at: Cursor) -> Result<(Expr, Cursor), Fail<usize>>
        requires operands { ReadsPostfix self.now.tokens.now self.now.from (F.pre self.now.postfix) (F.post self.now.postfix) }
        requires behind { self.now.from ≤ at.at }
        requires within { at.at ≤ length self.now.tokens.now }
        ensures { Advances (row rows.comparison) built.comparison_of self.now.tokens.now at result }
    {
        let (left, end) = self.named(at)?;
        self.comparison_turn(left, end)
    }

    /// One operand behind `<`, `>`, `<=` or `>=`, or nothing.
    pub(crate) fn comparison_turn(
        &self,
        left: Expr,
        at: Cursor,
    ) -> Result<(Expr, Cursor), Fail<usize>>
        requires operands { ReadsPostfix self.now.tokens.now self.now.from (F.pre self.now.postfix) (F.post self.now.postfix) }
        requires behind { self.now.from ≤ at.at }
        requires within { at.at ≤ length self.now.tokens.now }
        ensures { Advances rows.comparison_turn (built.comparison_turn_of left) self.now.tokens.now at result }
    {
        match eat_sign(self.tokens, at, Sign::Comparison) {
            Some((token, next)) => self.compared_with(token, left, next),
            None => Ok((left, at)),
        }
    }

    /// An operand and the operator with the operand at the place.
    fn compared_with(
        &self,
        token: &Token,
        left: Expr,
        at: Cursor,
    ) -> Result<(Expr, Cursor), Fail<usize>>
        requires operands { ReadsPostfix self.now.tokens.now self.now.from (F.pre self.now.postfix) (F.post self.now.postfix) }
        requires behind { self.now.from ≤ at.at }
        requires within { at.at ≤ length self.now.tokens.now }
        ensures { Advances (row rows.named) (λ x. built.binary left token.now (built.named_of x)) self.now.tokens.now at result }
    {
        let (right, end) = self.named(at)?;
        let whole = binary(self.alloc, token, left, right)?;
        Ok((whole, end))
    }

    pub(crate) fn equality(&self, at: Cursor) -> Result<(Expr, Cursor), Fail<usize>>
        requires operands { ReadsPostfix self.now.tokens.now self.now.from (F.pre self.now.postfix) (F.post self.now.postfix) }
        requires behind { self.now.from ≤ at.at }
        requires within { at.at ≤ length self.now.tokens.now }
        ensures { Advances (row rows.equality) built.equality_of self.now.tokens.now at result }
    {
        self.operands(Level::Equality, |at| self.comparison(at), at)
    }

    pub(crate) fn conjunction(&self, at: Cursor) -> Result<(Expr, Cursor), Fail<usize>>
        requires operands { ReadsPostfix self.now.tokens.now self.now.from (F.pre self.now.postfix) (F.post self.now.postfix) }
        requires behind { self.now.from ≤ at.at }
        requires within { at.at ≤ length self.now.tokens.now }
        ensures { Advances (row rows.conjunction) built.conjunction_of self.now.tokens.now at result }
    {
        self.operands(Level::And, |at| self.equality(at), at)
    }

    /// Operands with `||` between them, or one.
    pub fn expression(&self, at: Cursor) -> Result<(Expr, Cursor), Fail<usize>>
        requires operands { ReadsPostfix self.now.tokens.now self.now.from (F.pre self.now.postfix) (F.post self.now.postfix) }
        requires behind { self.now.from ≤ at.at }
        requires within { at.at ≤ length self.now.tokens.now }
        ensures { Advances (row rows.expression) built.expression_of self.now.tokens.now at result }
    {
        self.operands(Level::Or, |at| self.conjunction(at), at)
    }
}
