//! Lambdas and their parameters (Kotlin Language Specification 1.9, "Lambda literals").
ghost use Rattle.std.specs.Prelude.{◌≡◌, ◌≤◌, ◌++◌, length};
ghost use Rattle.grammars.specs.Grammar.{row};
ghost use Rattle.kt_bodies.specs.Lambdas as spec;
ghost use Rattle.kt_bodies.specs.Statements.{ReadsStatement};
ghost use Rattle.kt_grammar.specs.Built as built;
ghost use Rattle.kt_grammar.specs.Parsed.{Advances};
ghost use Rattle.kt_grammar.specs.Rows as rows;

use crate::bodies::Bodies;
use crate::looks::look_for_parameters;
use crate::nodes::lambda;
use crate::terminals::expect_name_on;
use kc_text::Fail;
use kc_tree::{Expr, LocalName, Type, Word};
use kt_grammar::{
    Cursor, eat_op_on, expect_op_on, is_name_at, is_op_at, span_between, type_before_arrow,
};
use kt_lexer::{Operator, Token};
use sqlite_items::Items;
use std::alloc::Global;

/// What stands in the braces of a lambda.
#[derive(Drop)]
pub struct Inside {
    pub params: Items<LocalName>,
    /// Whether `->` is written.
    pub arrow: bool,
    pub body: Items<Expr>,
}

/// `:` and the type of a parameter, or nothing.
fn colon_before_arrow(
    alloc: Global,
    tokens: &[Token],
    at: Cursor,
) -> Result<(Option<Type>, Cursor), Fail<usize>>
    requires { at.at ≤ length tokens.now }
    ensures { Advances spec.colon_before_arrow built.written_type tokens.now at result }
{
    let Some(next) = eat_op_on(tokens, at, Operator::Colon) else {
        return Ok((None, at));
    };
    let (ty, end) = type_before_arrow(alloc, tokens, next)?;
    Ok((Some(ty), end))
}

/// A parameter, which goes to the list's end.
fn one_parameter(
    alloc: Global,
    tokens: &[Token],
    before: Items<LocalName>,
    at: Cursor,
) -> Result<(Items<LocalName>, Cursor), Fail<usize>>
    requires { at.at ≤ length tokens.now }
    ensures { Advances spec.one_parameter (λ x. before ++ spec.parameter_of x) tokens.now at result }
{
    let (name, mid) = expect_name_on(tokens, at)?;
    let (ty, end) = colon_before_arrow(alloc, tokens, mid)?;
    let mut all = before;
    all.push(LocalName { name, ty })?;
    Ok((all, end))
}

/// Parameters with commas between them, one at least, which go to the list's end. A comma may stand behind the last.
fn parameters(
    alloc: Global,
    tokens: &[Token],
    before: Items<LocalName>,
    at: Cursor,
) -> Result<(Items<LocalName>, Cursor), Fail<usize>>
    requires { at.at ≤ length tokens.now }
    ensures { Advances (row rows.parameter) (λ x. before ++ built.parameters_of x) tokens.now at result }
{
    let mut all = before;
    let mut at = at;
    loop {
        let (found, end) = one_parameter(alloc, tokens, all, at)?;
        let Some(next) = eat_op_on(tokens, end, Operator::Comma) else {
            return Ok((found, end));
        };
        if !is_name_at(tokens, next.at) {
            return Ok((found, next));
        }
        all = found;
        at = next;
    }
}

impl<F, G: Fn(Global, &[Token], Cursor) -> Result<(Expr, Cursor), Fail<usize>>> Bodies<'_, F, G> {
    /// Parameters with their arrow, or none, and the statements up to the brace.
    fn in_plain(&self, at: Cursor) -> Result<(Inside, Cursor), Fail<usize>>
        requires statements { ReadsStatement self.now.tokens.now self.now.from (G.pre self.now.statement) (G.post self.now.statement) }
        requires behind { self.now.from ≤ at.at }
        requires within { at.at ≤ length self.now.tokens.now }
        ensures { Advances spec.in_plain spec.plain_of self.now.tokens.now at result }
    {
        let none = Items::new(self.alloc);
        let (holds, mid) = look_for_parameters(self.tokens, at);
        if !holds {
            let (body, end) = self.to_brace(mid)?;
            let inside = Inside {
                params: none,
                arrow: false,
                body,
            };
            return Ok((inside, end));
        }
        let (params, next) = parameters(self.alloc, self.tokens, none, mid)?;
        self.behind_parameters(params, next)
    }

    /// The arrow behind parameters, and the statements up to the brace.
    fn behind_parameters(
        &self,
        params: Items<LocalName>,
        at: Cursor,
    ) -> Result<(Inside, Cursor), Fail<usize>>
        requires statements { ReadsStatement self.now.tokens.now self.now.from (G.pre self.now.statement) (G.post self.now.statement) }
        requires behind { self.now.from ≤ at.at }
        requires within { at.at ≤ length self.now.tokens.now }
        ensures { Advances spec.behind_arrow (spec.arrow_of params) self.now.tokens.now at result }
    {
        let next = expect_op_on(self.tokens, at, Operator::Arrow)?;
        let (body, end) = self.to_brace(next)?;
        let inside = Inside {
            params,
            arrow: true,
            body,
        };
        Ok((inside, end))
    }

    /// All of a lambda behind its `{`.
    fn in_lambda(&self, at: Cursor) -> Result<(Inside, Cursor), Fail<usize>>
        requires statements { ReadsStatement self.now.tokens.now self.now.from (G.pre self.now.statement) (G.post self.now.statement) }
        requires behind { self.now.from ≤ at.at }
        requires within { at.at ≤ length self.now.tokens.now }
        ensures { Advances spec.in_lambda spec.inside_of self.now.tokens.now at result }
    {
        if is_op_at(self.tokens, at.at, Operator::Arrow) {
            return self.behind_parameters(Items::new(self.alloc), at);
        }
        self.in_plain(at)
    }

    /// A lambda, with the label that stands before it.
    pub fn lambda(&self, label: Option<Word>, at: Cursor) -> Result<(Expr, Cursor), Fail<usize>>
        requires statements { ReadsStatement self.now.tokens.now self.now.from (G.pre self.now.statement) (G.post self.now.statement) }
        requires behind { self.now.from ≤ at.at }
        requires within { at.at ≤ length self.now.tokens.now }
        ensures { Advances (row rows.lambda) (built.lambda_of label) self.now.tokens.now at result }
    {
        let next = expect_op_on(self.tokens, at, Operator::OpenBrace)?;
        let (inside, end) = self.in_lambda(next)?;
        let span = span_between(self.tokens, at.at, end.at);
        Ok((lambda(span, label, inside), end))
    }
}
