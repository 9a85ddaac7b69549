//! Types (Kotlin Language Specification 1.9, "Type kinds").
ghost use Rattle.std.specs.Prelude.{◌≡◌, ◌≤◌, ◌∷◌, IfOk, length, drop};
ghost use Rattle.grammars.specs.Grammar.{first, next, row, both, choose, many, nothing};
ghost use Rattle.kc_tree.specs.declared.types.TypeKind.TheVariants as type_kinds;
ghost use Rattle.kt_lexer.specs.declared.token.Operator.TheVariants as operators;
ghost use Rattle.kt_grammar.specs.Parsed.{Parses};
ghost use Rattle.kt_grammar.specs.Rows as rows;
ghost use Rattle.kt_grammar.specs.Rows.{op, behind_first_type, dotted_names, question_marks, to_type};
ghost use Rattle.kt_grammar.specs.Tokens.{is_op};
ghost use Rattle.kt_grammar.specs.TypesBuilt as built;

use crate::tokens::{
    begins_type, begins_type_argument, eat_op, eat_out, eat_word, expect_name, expect_op, is_op_at,
    span_between,
};
use kc_text::Fail;
use kc_tree::{Span, Type, TypeArg, TypeArgKind, TypeKind, Word};
use kt_lexer::{Keyword, Operator, Token};
use sqlite_items::{Boxed, Items};
use std::alloc::{AllocError, Global};

fn nullable(alloc: Global, span: Span, inner: Type) -> Result<Type, AllocError>
    ensures { IfOk result (λ t. t ≡ record { span = span; kind = type_kinds.Nullable inner }) }
{
    Ok(Type {
        span,
        kind: TypeKind::Nullable(Boxed::new(alloc, inner)?),
    })
}

/// A function type.
pub fn function(
    alloc: Global,
    span: Span,
    parameters: Items<Type>,
    output: Type,
) -> Result<Type, AllocError>
    ensures { IfOk result (λ t. t ≡ record { span = span; kind = type_kinds.Fun parameters output }) }
{
    Ok(Type {
        span,
        kind: TypeKind::Fun(parameters, Boxed::new(alloc, output)?),
    })
}

/// Names with dots between them.
pub fn dotted(
    alloc: Global,
    tokens: &[Token],
    at: usize,
) -> Result<(Items<Word>, usize), Fail<usize>>
    requires { at ≤ length tokens.now }
    ensures { Parses (row rows.dotted) built.words_of tokens.now at result }
{
    let (head, end) = expect_name(tokens, at)?;
    more_words(alloc, tokens, head, end)
}

/// The first name and those that follow, each behind a dot.
fn more_words(
    alloc: Global,
    tokens: &[Token],
    head: Word,
    at: usize,
) -> Result<(Items<Word>, usize), Fail<usize>>
    requires { at ≤ length tokens.now }
    ensures { Parses dotted_names (λ x. head ∷ built.words_behind x) tokens.now at result }
{
    let mut words = Items::new(alloc);
    words.push(head)?;
    let mut at = at;
    while let Some(next) = eat_op(tokens, at, Operator::Dot) {
        let (word, end) = expect_name(tokens, next)?;
        words.push(word)?;
        at = end;
    }
    Ok((words, at))
}

/// Any number of `?` behind a type that begins at `start`.
pub fn nullables(
    alloc: Global,
    tokens: &[Token],
    start: usize,
    inner: Type,
    at: usize,
) -> Result<(Type, usize), Fail<usize>>
    requires { at ≤ length tokens.now }
    ensures { Parses question_marks (built.nullables (first (drop start tokens.now)) inner) tokens.now at result }
{
    let mut inner = inner;
    let mut at = at;
    while let Some(end) = eat_op(tokens, at, Operator::Question) {
        inner = nullable(alloc, span_between(tokens, start, end), inner)?;
        at = end;
    }
    Ok((inner, at))
}

/// The type at the place, and the place behind it.
///
/// # Errors
///
/// `Found` with the place of the first token with which no type goes on.
#[cycle(types)]
pub fn type_at(alloc: Global, tokens: &[Token], at: usize) -> Result<(Type, usize), Fail<usize>>
    requires { at ≤ length tokens.now }
    ensures { Parses (row rows.type_) built.type_of tokens.now at result }
{
    let (core, end) = core_type(alloc, tokens, at)?;
    nullables(alloc, tokens, at, core, end)
}

#[cycle(types)]
fn core_type(alloc: Global, tokens: &[Token], at: usize) -> Result<(Type, usize), Fail<usize>>
    requires { at ≤ length tokens.now }
    ensures { Parses (choose (next (is_op operators.OpenRound)) (row rows.bracketed_type) (both (row rows.dotted) (choose (next (is_op operators.Less)) (row rows.type_arguments) nothing))) built.core_of tokens.now at result }
{
    if is_op_at(tokens, at, Operator::OpenRound) {
        return bracketed_type(alloc, tokens, at);
    }
    named_type(alloc, tokens, at)
}

/// A name, with type arguments where `<` stands behind it.
#[cycle(types)]
pub fn named_type(alloc: Global, tokens: &[Token], at: usize) -> Result<(Type, usize), Fail<usize>>
    requires { at ≤ length tokens.now }
    ensures { Parses (both (row rows.dotted) (choose (next (is_op operators.Less)) (row rows.type_arguments) nothing)) built.named_of tokens.now at result }
{
    let (words, end) = dotted(alloc, tokens, at)?;
    if !is_op_at(tokens, end, Operator::Less) {
        let span = span_between(tokens, at, end);
        let kind = TypeKind::Named(words, Items::new(alloc));
        return Ok((Type { span, kind }, end));
    }
    let (arguments, end) = type_arguments(alloc, tokens, end)?;
    let span = span_between(tokens, at, end);
    let kind = TypeKind::Named(words, arguments);
    Ok((Type { span, kind }, end))
}

#[cycle(types)]
pub fn bracketed_type(
    alloc: Global,
    tokens: &[Token],
    at: usize,
) -> Result<(Type, usize), Fail<usize>>
    requires { at ≤ length tokens.now }
    ensures { Parses (row rows.bracketed_type) built.in_brackets_of tokens.now at result }
{
    let next = expect_op(tokens, at, Operator::OpenRound)?;
    if is_op_at(tokens, next, Operator::CloseRound) {
        let (output, end) = result_type(alloc, tokens, next)?;
        let span = span_between(tokens, at, end);
        let none = Items::new(alloc);
        return Ok((function(alloc, span, none, output)?, end));
    }
    let (head, end) = type_at(alloc, tokens, next)?;
    behind_first(alloc, tokens, at, head, end)
}

/// What stands behind the first type in brackets that begin at `start`.
#[cycle(types)]
fn behind_first(
    alloc: Global,
    tokens: &[Token],
    start: usize,
    head: Type,
    at: usize,
) -> Result<(Type, usize), Fail<usize>>
    requires { at ≤ length tokens.now }
    ensures { Parses (behind_first_type (next (is_op operators.Arrow)) rows.type_) (built.behind_first_of (first (drop start tokens.now)) head) tokens.now at result }
{
    if let Some(next) = eat_op(tokens, at, Operator::Comma) {
        let (parameters, end) = more_types(alloc, tokens, head, next)?;
        let (output, end) = result_type(alloc, tokens, end)?;
        let span = span_between(tokens, start, end);
        return Ok((function(alloc, span, parameters, output)?, end));
    }
    let close = expect_op(tokens, at, Operator::CloseRound)?;
    let Some(next) = eat_op(tokens, close, Operator::Arrow) else {
        return Ok((head, close));
    };
    let (output, end) = type_at(alloc, tokens, next)?;
    let span = span_between(tokens, start, end);
    let mut parameters = Items::new(alloc);
    parameters.push(head)?;
    Ok((function(alloc, span, parameters, output)?, end))
}

/// `) -> type`
#[cycle(types)]
fn result_type(alloc: Global, tokens: &[Token], at: usize) -> Result<(Type, usize), Fail<usize>>
    requires { at ≤ length tokens.now }
    ensures { Parses (both (op operators.CloseRound) (to_type rows.type_)) built.result_of tokens.now at result }
{
    let close = expect_op(tokens, at, Operator::CloseRound)?;
    let next = expect_op(tokens, close, Operator::Arrow)?;
    type_at(alloc, tokens, next)
}

/// The first type of a list and those that follow its comma.
#[cycle(types)]
pub fn more_types(
    alloc: Global,
    tokens: &[Token],
    head: Type,
    at: usize,
) -> Result<(Items<Type>, usize), Fail<usize>>
    requires { at ≤ length tokens.now }
    ensures { Parses (row rows.types) (λ x. head ∷ built.types_of x) tokens.now at result }
{
    let mut all = Items::new(alloc);
    all.push(head)?;
    let mut at = at;
    while begins_type(tokens, at) {
        let (found, end) = type_at(alloc, tokens, at)?;
        all.push(found)?;
        let Some(next) = eat_op(tokens, end, Operator::Comma) else {
            return Ok((all, end));
        };
        at = next;
    }
    Ok((all, at))
}

#[cycle(types)]
pub fn type_arguments(
    alloc: Global,
    tokens: &[Token],
    at: usize,
) -> Result<(Items<TypeArg>, usize), Fail<usize>>
    requires { at ≤ length tokens.now }
    ensures { Parses (row rows.type_arguments) built.type_arguments_of tokens.now at result }
{
    let next = expect_op(tokens, at, Operator::Less)?;
    let (head, end) = type_argument(alloc, tokens, next)?;
    let (all, end) = more_type_arguments(alloc, tokens, head, end)?;
    Ok((all, expect_op(tokens, end, Operator::Greater)?))
}

/// The first type argument and those that follow, each behind a comma.
#[cycle(types)]
fn more_type_arguments(
    alloc: Global,
    tokens: &[Token],
    head: TypeArg,
    at: usize,
) -> Result<(Items<TypeArg>, usize), Fail<usize>>
    requires { at ≤ length tokens.now }
    ensures { Parses (row rows.more_type_arguments) (λ x. head ∷ built.more_type_arguments_of x) tokens.now at result }
{
    let mut all = Items::new(alloc);
    all.push(head)?;
    let mut at = at;
    while let Some(next) = eat_op(tokens, at, Operator::Comma) {
        if !begins_type_argument(tokens, next) {
            return Ok((all, next));
        }
        let (argument, end) = type_argument(alloc, tokens, next)?;
        all.push(argument)?;
        at = end;
    }
    Ok((all, at))
}

#[cycle(types)]
fn type_argument(
    alloc: Global,
    tokens: &[Token],
    at: usize,
) -> Result<(TypeArg, usize), Fail<usize>>
    requires { at ≤ length tokens.now }
    ensures { Parses (row rows.type_argument) built.type_argument_of tokens.now at result }
{
    if let Some(end) = eat_op(tokens, at, Operator::Times) {
        let span = span_between(tokens, at, end);
        return Ok((
            TypeArg {
                span,
                kind: TypeArgKind::Star,
            },
            end,
        ));
    }
    if let Some(next) = eat_word(tokens, at, Keyword::In) {
        let (ty, end) = type_at(alloc, tokens, next)?;
        let span = span_between(tokens, at, end);
        return Ok((
            TypeArg {
                span,
                kind: TypeArgKind::In(ty),
            },
            end,
        ));
    }
    if let Some(next) = eat_out(tokens, at) {
        let (ty, end) = type_at(alloc, tokens, next)?;
        let span = span_between(tokens, at, end);
        return Ok((
            TypeArg {
                span,
                kind: TypeArgKind::Out(ty),
            },
            end,
        ));
    }
    let (ty, end) = type_at(alloc, tokens, at)?;
    let span = span_between(tokens, at, end);
    Ok((
        TypeArg {
            span,
            kind: TypeArgKind::Exact(ty),
        },
        end,
    ))
}
