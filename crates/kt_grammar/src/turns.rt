//! Operators behind an operand that is read already (Kotlin Language Specification 1.9, "Expressions").
ghost use Rattle.std.specs.Prelude.{◌≤◌, length};
ghost use Rattle.kt_grammar.specs.Built as built;
ghost use Rattle.kt_grammar.specs.Parsed.{Advances};
ghost use Rattle.kt_grammar.specs.Readers.{ReadsPostfix};
ghost use Rattle.kt_grammar.specs.Rows as rows;
ghost use Rattle.kt_grammar.specs.Turns as turns;

use crate::casts::cast_turns;
use crate::cursor::Cursor;
use crate::operators::Operators;
use crate::signs::Level;
use kc_text::Fail;
use kc_tree::Expr;
use kt_lexer::Token;
use std::alloc::Global;

impl<F: Fn(Global, &[Token], Cursor) -> Result<(Expr, Cursor), Fail<usize>>> Operators<'_, F> {
    /// All operators that may follow a postfix expression, level by level, and their operands.
    pub fn operator_turns(&self, left: Expr, at: Cursor) -> Result<(Expr, Cursor), Fail<usize>>
        requires operands { ReadsPostfix self.now.tokens.now self.now.from (F.pre self.now.postfix) (F.post self.now.postfix) }
        requires behind { self.now.from ≤ at.at }
        requires within { at.at ≤ length self.now.tokens.now }
        ensures { Advances turns.cast_on (turns.cast_on_of left) self.now.tokens.now at result }
    {
        let (left, end) = cast_turns(self.alloc, self.tokens, left, at)?;
        self.products_on(left, end)
    }

    /// Operators from `*` on, behind an operand.
    fn products_on(&self, left: Expr, at: Cursor) -> Result<(Expr, Cursor), Fail<usize>>
        requires operands { ReadsPostfix self.now.tokens.now self.now.from (F.pre self.now.postfix) (F.post self.now.postfix) }
        requires behind { self.now.from ≤ at.at }
        requires within { at.at ≤ length self.now.tokens.now }
        ensures { Advances turns.product_on (turns.product_on_of left) self.now.tokens.now at result }
    {
        let (left, end) = self.turns(Level::Product, |at| self.cast(at), left, at)?;
        self.sums_on(left, end)
    }

    /// Operators from `+` on.
    fn sums_on(&self, left: Expr, at: Cursor) -> Result<(Expr, Cursor), Fail<usize>>
        requires operands { ReadsPostfix self.now.tokens.now self.now.from (F.pre self.now.postfix) (F.post self.now.postfix) }
        requires behind { self.now.from ≤ at.at }
        requires within { at.at ≤ length self.now.tokens.now }
        ensures { Advances turns.sum_on (turns.sum_on_of left) self.now.tokens.now at result }
    {
        let (left, end) = self.turns(Level::Sum, |at| self.product(at), left, at)?;
        self.ranges_on(left, end)
    }

    /// Operators from `..` on.
    fn ranges_on(&self, left: Expr, at: Cursor) -> Result<(Expr, Cursor), Fail<usize>>
        requires operands { ReadsPostfix self.now.tokens.now self.now.from (F.pre self.now.postfix) (F.post self.now.postfix) }
        requires behind { self.now.from ≤ at.at }
        requires within { at.at ≤ length self.now.tokens.now }
        ensures { Advances turns.range_on (turns.range_on_of left) self.now.tokens.now at result }
    {
        let (left, end) = self.turns(Level::Range, |at| self.sum(at), left, at)?;
        self.infix_on(left, end)
    }

    /// Named functions, and the operators that bind less.
    fn infix_on(&self, left: Expr, at: Cursor) -> Result<(Expr, Cursor), Fail<usize>>
        requires operands { ReadsPostfix self.now.tokens.now self.now.from (F.pre self.now.postfix) (F.post self.now.postfix) }
        requires behind { self.now.from ≤ at.at }
        requires within { at.at ≤ length self.now.tokens.now }
        ensures { Advances turns.infix_on (turns.infix_on_of left) self.now.tokens.now at result }
    {
        let (left, end) = self.infix_turns(left, at)?;
        self.elvis_on(left, end)
    }

    /// Operators from `?:` on.
    fn elvis_on(&self, left: Expr, at: Cursor) -> Result<(Expr, Cursor), Fail<usize>>
        requires operands { ReadsPostfix self.now.tokens.now self.now.from (F.pre self.now.postfix) (F.post self.now.postfix) }
        requires behind { self.now.from ≤ at.at }
        requires within { at.at ≤ length self.now.tokens.now }
        ensures { Advances turns.elvis_on (turns.elvis_on_of left) self.now.tokens.now at result }
    {
        let (left, end) = self.turns(Level::Elvis, |at| self.infix_calls(at), left, at)?;
        self.named_on(left, end)
    }

    /// `in` and `is`, and the operators that bind less.
    fn named_on(&self, left: Expr, at: Cursor) -> Result<(Expr, Cursor), Fail<usize>>
        requires operands { ReadsPostfix self.now.tokens.now self.now.from (F.pre self.now.postfix) (F.post self.now.postfix) }
        requires behind { self.now.from ≤ at.at }
        requires within { at.at ≤ length self.now.tokens.now }
        ensures { Advances turns.named_on (turns.named_on_of left) self.now.tokens.now at result }
    {
        let (left, end) = self.named_turns(left, at)?;
        self.comparison_on(left, end)
    }

    /// One comparison, and the operators that bind less.
    fn comparison_on(&self, left: Expr, at: Cursor) -> Result<(Expr, Cursor), Fail<usize>>
        requires operands { ReadsPostfix self.now.tokens.now self.now.from (F.pre self.now.postfix) (F.post self.now.postfix) }
        requires behind { self.now.from ≤ at.at }
        requires within { at.at ≤ length self.now.tokens.now }
        ensures { Advances turns.comparison_on (turns.comparison_on_of left) self.now.tokens.now at result }
    {
        let (left, end) = self.comparison_turn(left, at)?;
        self.equality_on(left, end)
    }

    /// Operators from `==` on.
    fn equality_on(&self, left: Expr, at: Cursor) -> Result<(Expr, Cursor), Fail<usize>>
        requires operands { ReadsPostfix self.now.tokens.now self.now.from (F.pre self.now.postfix) (F.post self.now.postfix) }
        requires behind { self.now.from ≤ at.at }
        requires within { at.at ≤ length self.now.tokens.now }
        ensures { Advances turns.equality_on (turns.equality_on_of left) self.now.tokens.now at result }
    {
        let (left, end) = self.turns(Level::Equality, |at| self.comparison(at), left, at)?;
        self.and_on(left, end)
    }

    /// `&&` and `||`.
    fn and_on(&self, left: Expr, at: Cursor) -> Result<(Expr, Cursor), Fail<usize>>
        requires operands { ReadsPostfix self.now.tokens.now self.now.from (F.pre self.now.postfix) (F.post self.now.postfix) }
        requires behind { self.now.from ≤ at.at }
        requires within { at.at ≤ length self.now.tokens.now }
        ensures { Advances turns.and_on (turns.and_on_of left) self.now.tokens.now at result }
    {
        let (left, end) = self.turns(Level::And, |at| self.equality(at), left, at)?;
        self.or_on(left, end)
    }

    /// Operands behind `||`.
    fn or_on(&self, left: Expr, at: Cursor) -> Result<(Expr, Cursor), Fail<usize>>
        requires operands { ReadsPostfix self.now.tokens.now self.now.from (F.pre self.now.postfix) (F.post self.now.postfix) }
        requires behind { self.now.from ≤ at.at }
        requires within { at.at ≤ length self.now.tokens.now }
        ensures { Advances rows.or_turns (built.or_turns_of left) self.now.tokens.now at result }
    {
        self.turns(Level::Or, |at| self.conjunction(at), left, at)
    }
}
