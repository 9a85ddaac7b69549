//! The parameters of primary constructors (Kotlin Language Specification 1.9, "Constructor declaration").
ghost use Rattle.std.specs.Prelude.{◌≡◌, ◌≤◌, ◌++◌, length, drop};
ghost use Rattle.grammars.specs.Grammar.{first, row, test};
ghost use Rattle.kt_class_heads.specs.Parameters as spec;
ghost use Rattle.kt_functions.specs.Parameters as functions;
ghost use Rattle.kt_grammar.specs.DeclarationsBuilt as built;
ghost use Rattle.kt_grammar.specs.Parsed.{Advanced, Advances};
ghost use Rattle.kt_grammar.specs.Rows as rows;
ghost use Rattle.kt_suffixes.specs.Suffixes.{IsTable};

use kc_text::Fail;
use kc_tree::{ClassParam, Expr, Mod, Type, Word};
use kt_bodies::{begins_local, expect_name_on};
use kt_functions::{begins_parameter, modifiers, typed_value};
use kt_grammar::{Cursor, Look, eat_op_on, expect_op_on, span_between};
use kt_lexer::{Keyword, Operator, Token, TokenKind};
use sqlite_items::Items;
use std::alloc::Global;

/// Whether a parameter is a property too: by `val`, or by `var`.
#[derive(Clone, Copy)]
pub struct Keeping {
    pub is_val: bool,
    pub is_var: bool,
}

/// A name with its type, and a default value where one is written.
#[derive(Drop)]
pub struct TypedName {
    pub name: Word,
    pub ty: Type,
    pub default: Option<Expr>,
}

/// What a parameter holds.
#[derive(Drop)]
pub struct ParamParts {
    pub mods: Items<Mod>,
    pub keeping: Keeping,
    pub typed: TypedName,
}

/// A parameter that is no property.
fn no_word() -> Keeping
    ensures { result ≡ spec.no_word }
{
    Keeping {
        is_val: false,
        is_var: false,
    }
}

fn word_of_kind(kind: &TokenKind) -> Keeping
    ensures { result ≡ spec.by_kind kind.now }
{
    match kind {
        TokenKind::Word(Keyword::Val) => Keeping {
            is_val: true,
            is_var: false,
        },
        TokenKind::Word(Keyword::Var) => Keeping {
            is_val: false,
            is_var: true,
        },
        _ => no_word(),
    }
}

fn word_at(tokens: &[Token], at: usize) -> Keeping
    ensures { result ≡ spec.by_token (first (drop at tokens.now)) }
{
    match tokens.get(at) {
        Some(token) => word_of_kind(&token.kind),
        None => no_word(),
    }
}

/// `val` or `var`, where one is written, and the place behind it.
fn kept(tokens: &[Token], at: Cursor) -> (Keeping, Cursor)
    requires { at.at ≤ length tokens.now }
    ensures { Advanced spec.kept spec.kept_of tokens.now at result.1 result.0 }
{
    if !begins_local(tokens, at.at) {
        return (no_word(), at);
    }
    (word_at(tokens, at.at), at.to(at.at + 1))
}

/// A name with a type, and a default value where one is written.
fn typed(
    alloc: Global,
    tokens: &[Token],
    looks: &[Look],
    at: Cursor,
) -> Result<(TypedName, Cursor), Fail<usize>>
    requires looks { IsTable tokens.now looks.now }
    requires within { at.at ≤ length tokens.now }
    ensures { Advances functions.typed spec.typed_of tokens.now at result }
{
    let (name, mid) = expect_name_on(tokens, at)?;
    let next = expect_op_on(tokens, mid, Operator::Colon)?;
    let ((ty, default), end) = typed_value(alloc, tokens, looks, next)?;
    Ok((TypedName { name, ty, default }, end))
}

/// Modifiers, perhaps `val` or `var`, and a name with a type and perhaps a default value.
fn parts(
    alloc: Global,
    tokens: &[Token],
    looks: &[Look],
    at: Cursor,
) -> Result<(ParamParts, Cursor), Fail<usize>>
    requires looks { IsTable tokens.now looks.now }
    requires within { at.at ≤ length tokens.now }
    ensures { Advances spec.parts spec.parts_of tokens.now at result }
{
    let (mods, mid) = modifiers(alloc, tokens, at)?;
    let (keeping, next) = kept(tokens, mid);
    let (typed, end) = typed(alloc, tokens, looks, next)?;
    Ok((
        ParamParts {
            mods,
            keeping,
            typed,
        },
        end,
    ))
}

/// A parameter, which goes to the list's end.
fn constructor_parameter(
    alloc: Global,
    tokens: &[Token],
    looks: &[Look],
    before: Items<ClassParam>,
    at: Cursor,
) -> Result<(Items<ClassParam>, Cursor), Fail<usize>>
    requires looks { IsTable tokens.now looks.now }
    requires within { at.at ≤ length tokens.now }
    ensures { Advances (row rows.constructor_parameter) (λ x. before ++ built.constructor_parameter_of x) tokens.now at result }
{
    let (parts, end) = parts(alloc, tokens, looks, at)?;
    let span = span_between(tokens, at.at, end.at);
    let ParamParts {
        mods,
        keeping,
        typed,
    } = parts;
    let TypedName { name, ty, default } = typed;
    let mut all = before;
    all.push(ClassParam {
        span,
        mods,
        is_val: keeping.is_val,
        is_var: keeping.is_var,
        name,
        ty,
        default,
    })?;
    Ok((all, end))
}

fn begins(tokens: &[Token], at: usize) -> bool
    ensures { result ≡ test spec.begins (first (drop at tokens.now)) }
{
    begins_local(tokens, at) || begins_parameter(tokens, at)
}

/// Parameters with commas between them, which go to the list's end. There may be none, and a comma behind the last.
pub fn constructor_parameters(
    alloc: Global,
    tokens: &[Token],
    looks: &[Look],
    before: Items<ClassParam>,
    at: Cursor,
) -> Result<(Items<ClassParam>, Cursor), Fail<usize>>
    requires looks { IsTable tokens.now looks.now }
    requires within { at.at ≤ length tokens.now }
    ensures { Advances (row rows.constructor_parameters) (λ x. before ++ built.constructor_parameters_of x) tokens.now at result }
{
    let mut all = before;
    let mut at = at;
    while begins(tokens, at.at) {
        let (found, end) = constructor_parameter(alloc, tokens, looks, all, at)?;
        let Some(next) = eat_op_on(tokens, end, Operator::Comma) else {
            return Ok((found, end));
        };
        all = found;
        at = next;
    }
    Ok((all, at))
}
