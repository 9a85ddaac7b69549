//! The rows of the grammar that hold statements, over the functions that read an expression and a statement.
ghost use Rattle.std.specs.Prelude.{◌≤◌, length};
ghost use Rattle.grammars.specs.Grammar.{row};
ghost use Rattle.kt_grammar.specs.Built as built;
ghost use Rattle.kt_grammar.specs.Expressions.{ReadsExpression};
ghost use Rattle.kt_grammar.specs.Parsed.{Advances};
ghost use Rattle.kt_grammar.specs.Rows as rows;

use kc_text::Fail;
use kc_tree::Expr;
use kt_grammar::Cursor;
use kt_lexer::Token;
use std::alloc::Global;

/// The rows of the grammar that hold statements, each a method.
///
/// # Errors
///
/// `Found` with the place of the first token with which the row does not go on, or the farthest one that a test has looked at.
#[derive(Clone, Copy)]
pub struct Bodies<'t, F, G> {
    pub alloc: Global,
    pub tokens: &'t [Token],
    /// No expression and no statement begins before this place.
    pub from: usize,
    /// Reads an expression at a place.
    pub expression: F,
    /// Reads a statement at a place.
    pub statement: G,
}

impl<F: Fn(Global, &[Token], Cursor) -> Result<(Expr, Cursor), Fail<usize>>, G> Bodies<'_, F, G> {
    /// An expression.
    pub fn expression_at(&self, at: Cursor) -> Result<(Expr, Cursor), Fail<usize>>
        requires expressions { ReadsExpression self.now.tokens.now self.now.from (F.pre self.now.expression) (F.post self.now.expression) }
        requires behind { self.now.from ≤ at.at }
        requires within { at.at ≤ length self.now.tokens.now }
        ensures { Advances (row rows.expression) built.expression_of self.now.tokens.now at result }
    {
        (self.expression)(self.alloc, self.tokens, at)
    }
}
