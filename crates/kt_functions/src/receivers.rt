//! Names of functions, with the receivers of extension functions (Kotlin Language Specification 1.9, "Extension function declaration").
ghost use Rattle.std.specs.Prelude.{◌≡◌, ◌≤◌, ◌∷◌, [], IfOk, Some, length, drop};
ghost use Rattle.grammars.specs.Grammar.{first, one, row, test};
ghost use Rattle.kc_tree.specs.declared.types.TypeKind.TheVariants as type_kinds;
ghost use Rattle.kt_functions.specs.Receivers as spec;
ghost use Rattle.kt_functions.specs.Sites.{site_of};
ghost use Rattle.kt_lexer.specs.declared.token.TokenKind.TheVariants as token_kinds;
ghost use Rattle.kt_grammar.specs.DeclarationsBuilt as built;
ghost use Rattle.kt_grammar.specs.Parsed.{Advances, Parses};
ghost use Rattle.kt_grammar.specs.Rows as rows;
ghost use Rattle.kt_grammar.specs.Signs.{TokenAt, EatsToken};
ghost use Rattle.kt_grammar.specs.Tokens.{is_name};
ghost use Rattle.kt_grammar.specs.Tokens as tokens_of;
ghost use Rattle.kt_grammar.specs.TypesBuilt.{nullables};

use crate::sites::Site;
use kc_text::Fail;
use kc_tree::{Span, Type, TypeArg, TypeKind, Word};
use kt_bodies::expect_name_on;
use kt_grammar::{
    Cursor, behind, class, eat_op, expect_op_on, is_op_at, operator_class, span_between,
    type_arguments, type_at,
};
use kt_lexer::{Operator, Token, TokenKind};
use sqlite_items::{Boxed, Items};
use std::alloc::{AllocError, Global};

/// The name of a function, with the type before its `.`.
#[derive(Drop)]
pub struct FunName {
    pub receiver: Option<Type>,
    pub name: Word,
}

fn nullable(alloc: Global, span: Span, inner: Type) -> Result<Type, AllocError>
    ensures { IfOk result (λ t. t ≡ record { span = span; kind = type_kinds.Nullable inner }) }
{
    Ok(Type {
        span,
        kind: TypeKind::Nullable(Boxed::new(alloc, inner)?),
    })
}

/// A type that stands at `span`: a name with type arguments.
fn named_type(
    alloc: Global,
    span: Span,
    name: Word,
    arguments: Items<TypeArg>,
) -> Result<Type, AllocError>
    ensures { IfOk result (λ t. t ≡ record { span = span; kind = type_kinds.Named (name ∷ []) arguments }) }
{
    let mut words = Items::new(alloc);
    words.push(name)?;
    Ok(Type {
        span,
        kind: TypeKind::Named(words, arguments),
    })
}

/// The type that is a name alone.
fn bare_type(alloc: Global, name: Word) -> Result<Type, AllocError>
    ensures { IfOk result (λ t. t ≡ record { span = name.span; kind = type_kinds.Named (name ∷ []) [] }) }
{
    let none = Items::new(alloc);
    named_type(alloc, name.span, name, none)
}

/// The type of a receiver that begins with a name at `start`, with type arguments where `<` stands behind it.
fn type_with(
    alloc: Global,
    tokens: &[Token],
    start: usize,
    name: Word,
    at: usize,
) -> Result<(Type, usize), Fail<usize>>
    requires { at ≤ length tokens.now }
    ensures { Parses spec.type_arguments (spec.type_with (first (drop start tokens.now)) name) tokens.now at result }
{
    if !is_op_at(tokens, at, Operator::Less) {
        let bare = bare_type(alloc, name)?;
        return Ok((bare, at));
    }
    let (arguments, end) = type_arguments(alloc, tokens, at)?;
    let span = span_between(tokens, start, end);
    let found = named_type(alloc, span, name, arguments)?;
    Ok((found, end))
}

/// Any number of `?` behind a type that begins at `start`.
fn with_marks(
    alloc: Global,
    tokens: &[Token],
    start: usize,
    inner: Type,
    at: usize,
) -> Result<(Type, usize), Fail<usize>>
    requires { at ≤ length tokens.now }
    ensures { Parses rows.question_marks (nullables (first (drop start tokens.now)) inner) tokens.now at result }
{
    let mut inner = inner;
    let mut at = at;
    while let Some(end) = eat_op(tokens, at, Operator::Question) {
        inner = nullable(alloc, span_between(tokens, start, end), inner)?;
        at = end;
    }
    Ok((inner, at))
}

fn is_dot(token: &Token) -> bool
    ensures { result ≡ tokens_of.is_dot token.now }
{
    let class = class(&token.kind);
    class == operator_class(Operator::Dot) || class == operator_class(Operator::SafeDot)
}

/// Whether `.` or `?.` stands at the place.
fn is_dot_at(tokens: &[Token], at: usize) -> bool
    ensures { result ≡ test tokens_of.is_dot (first (drop at tokens.now)) }
{
    match tokens.get(at) {
        Some(token) => is_dot(token),
        None => false,
    }
}

fn dot_of(token: &Token) -> Option<&Token>
    ensures { TokenAt tokens_of.is_dot (Some token.now) result }
{
    if is_dot(token) { Some(token) } else { None }
}

fn dot_at(tokens: &[Token], at: usize) -> Option<&Token>
    ensures { TokenAt tokens_of.is_dot (first (drop at tokens.now)) result }
{
    match tokens.get(at) {
        Some(token) => dot_of(token),
        None => None,
    }
}

/// The dot at the place, and the place behind it.
fn eat_dot(tokens: &[Token], at: Cursor) -> Option<(&Token, Cursor)>
    requires { at.at ≤ length tokens.now }
    ensures { EatsToken tokens_of.is_dot tokens.now at result }
{
    match dot_at(tokens, at.at) {
        Some(token) => Some((token, at.to(at.at + 1))),
        None => None,
    }
}

fn is_safe_operator(operator: Operator) -> bool
    ensures { result ≡ spec.is_safe (token_kinds.Op operator) }
{
    match operator {
        Operator::SafeDot => true,
        _ => false,
    }
}

fn is_safe(kind: &TokenKind) -> bool
    ensures { result ≡ spec.is_safe kind.now }
{
    match kind {
        TokenKind::Op(operator) => is_safe_operator(*operator),
        _ => false,
    }
}

/// The type of a receiver that begins at `start`, before its dot. The `?` of `?.` belongs to the type.
fn before_dot(
    alloc: Global,
    tokens: &[Token],
    start: usize,
    ty: Type,
    dot: &Token,
) -> Result<Type, AllocError>
    ensures { IfOk result (λ t. t ≡ built.before_dot (first (drop start tokens.now)) ty dot.now.kind dot.now.span) }
{
    let Some(begin) = tokens.get(start) else {
        return Ok(ty);
    };
    if !is_safe(&dot.kind) {
        return Ok(ty);
    }
    // A text with a place that has no number behind it is beyond any memory.
    let Some(end) = dot.span.start.checked_add(1) else {
        return Err(AllocError);
    };
    let span = Span {
        file: begin.span.file,
        start: begin.span.start,
        end,
    };
    nullable(alloc, span, ty)
}

/// The dot behind a receiver that begins at `start`, and the name of the function.
fn dot_name(
    alloc: Global,
    tokens: &[Token],
    start: usize,
    ty: Type,
    at: Cursor,
) -> Result<(FunName, Cursor), Fail<usize>>
    requires { at.at ≤ length tokens.now }
    ensures { Advances spec.dot_name (spec.dot_name_of (first (drop start tokens.now)) ty) tokens.now at result }
{
    let Some((dot, next)) = eat_dot(tokens, at) else {
        return Err(at.fault());
    };
    let ty = before_dot(alloc, tokens, start, ty, dot)?;
    let (name, end) = expect_name_on(tokens, next)?;
    let found = FunName {
        receiver: Some(ty),
        name,
    };
    Ok((found, end))
}

/// What stands behind the type arguments of a receiver that begins at `start`.
fn behind_arguments(
    alloc: Global,
    tokens: &[Token],
    start: usize,
    ty: Type,
    at: Cursor,
) -> Result<(FunName, Cursor), Fail<usize>>
    requires { at.at ≤ length tokens.now }
    ensures { Advances spec.behind_arguments (spec.behind_arguments_of (first (drop start tokens.now)) ty) tokens.now at result }
{
    let (ty, mid) = behind(at.looked, with_marks(alloc, tokens, start, ty, at.at))?;
    dot_name(alloc, tokens, start, ty, mid)
}

/// What stands behind the name with which a receiver begins at `start`.
fn behind_name(
    alloc: Global,
    tokens: &[Token],
    start: usize,
    name: Word,
    at: Cursor,
) -> Result<(FunName, Cursor), Fail<usize>>
    requires { at.at ≤ length tokens.now }
    ensures { Advances spec.behind_name (spec.behind_name_of (first (drop start tokens.now)) name) tokens.now at result }
{
    let (ty, mid) = behind(at.looked, type_with(alloc, tokens, start, name, at.at))?;
    behind_arguments(alloc, tokens, start, ty, mid)
}

/// Whether a name that ends before the place begins a receiver.
fn is_receiver(tokens: &[Token], at: usize) -> bool
    ensures { result ≡ test rows.behind_receiver (first (drop at tokens.now)) }
{
    is_op_at(tokens, at, Operator::Less)
        || (is_op_at(tokens, at, Operator::Question) || is_dot_at(tokens, at))
}

/// The function that a name at `start` names, or the receiver that begins with it and the function's name.
fn maybe_receiver(
    alloc: Global,
    tokens: &[Token],
    start: usize,
    name: Word,
    at: Cursor,
) -> Result<(FunName, Cursor), Fail<usize>>
    requires { at.at ≤ length tokens.now }
    ensures { Advances spec.maybe_receiver (spec.maybe_receiver_of (first (drop start tokens.now)) name) tokens.now at result }
{
    if !is_receiver(tokens, at.at) {
        let found = FunName {
            receiver: None,
            name,
        };
        return Ok((found, at));
    }
    behind_name(alloc, tokens, start, name, at)
}

/// A name of a function that begins with a name.
fn from_name(alloc: Global, tokens: &[Token], at: Cursor) -> Result<(FunName, Cursor), Fail<usize>>
    requires { at.at ≤ length tokens.now }
    ensures { Advances spec.from_name spec.from_name_of tokens.now at result }
{
    let (name, mid) = expect_name_on(tokens, at)?;
    maybe_receiver(alloc, tokens, at.at, name, mid)
}

/// A type in brackets.
fn bracketed(alloc: Global, tokens: &[Token], at: Cursor) -> Result<(Type, Cursor), Fail<usize>>
    requires { at.at ≤ length tokens.now }
    ensures { Advances spec.bracketed spec.bracketed_of tokens.now at result }
{
    let next = expect_op_on(tokens, at, Operator::OpenRound)?;
    let (ty, mid) = behind(next.looked, type_at(alloc, tokens, next.at))?;
    let end = expect_op_on(tokens, mid, Operator::CloseRound)?;
    Ok((ty, end))
}

/// A name of a function behind a receiver in brackets.
fn after_brackets(
    alloc: Global,
    tokens: &[Token],
    at: Cursor,
) -> Result<(FunName, Cursor), Fail<usize>>
    requires { at.at ≤ length tokens.now }
    ensures { Advances spec.after_brackets spec.after_brackets_of tokens.now at result }
{
    let (ty, mid) = bracketed(alloc, tokens, at)?;
    let dot = expect_op_on(tokens, mid, Operator::Dot)?;
    let (name, end) = expect_name_on(tokens, dot)?;
    let found = FunName {
        receiver: Some(ty),
        name,
    };
    Ok((found, end))
}

/// The name of a function at the top of a file.
fn top_level_name(
    alloc: Global,
    tokens: &[Token],
    at: Cursor,
) -> Result<(FunName, Cursor), Fail<usize>>
    requires { at.at ≤ length tokens.now }
    ensures { Advances (row (rows.function_name rows.top_level)) spec.name_of tokens.now at result }
{
    if is_op_at(tokens, at.at, Operator::OpenRound) {
        return after_brackets(alloc, tokens, at);
    }
    from_name(alloc, tokens, at)
}

/// The name of a function without a receiver.
fn only_name(tokens: &[Token], at: Cursor) -> Result<(FunName, Cursor), Fail<usize>>
    requires { at.at ≤ length tokens.now }
    ensures { Advances (one is_name) spec.only_name_of tokens.now at result }
{
    let (name, end) = expect_name_on(tokens, at)?;
    let found = FunName {
        receiver: None,
        name,
    };
    Ok((found, end))
}

fn is_top_level(site: Site) -> bool
    ensures { result ≡ spec.is_top_level site }
{
    match site {
        Site::TopLevel => true,
        Site::InClass | Site::InInterface => false,
    }
}

/// The name of a function, with its receiver at the top of a file.
pub fn function_name(
    alloc: Global,
    tokens: &[Token],
    site: Site,
    at: Cursor,
) -> Result<(FunName, Cursor), Fail<usize>>
    requires { at.at ≤ length tokens.now }
    ensures { Advances (row (rows.function_name (site_of site))) spec.name_of tokens.now at result }
{
    if is_top_level(site) {
        return top_level_name(alloc, tokens, at);
    }
    only_name(tokens, at)
}
