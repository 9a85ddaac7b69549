//! Properties (Kotlin Language Specification 1.9, "Property declaration").
ghost use Rattle.std.specs.Prelude.{◌≡◌, ◌≤◌, length, drop, false};
ghost use Rattle.grammars.specs.Grammar.{row, left, first, test};
ghost use Rattle.kt_members.specs.Properties as spec;
ghost use Rattle.kt_functions.specs.Sites.{site_of};
ghost use Rattle.kt_grammar.specs.DeclarationsBuilt as built;
ghost use Rattle.kt_grammar.specs.Parsed.{Advances};
ghost use Rattle.kt_grammar.specs.Rows as rows;
ghost use Rattle.kt_grammar.specs.Tokens.{is_word};
ghost use Rattle.kt_suffixes.specs.Suffixes.{IsTable};

use crate::getters::accessors;
use crate::member_words::{MemberWord, is_member_word_at};
use crate::nodes::{bare, with_accessors, with_value};
use kc_text::Fail;
use kc_tree::{Prop, Type, Word};
use kt_bodies::{Terminal, expect_name_on, expect_on};
use kt_functions::{Site, is_word_at};
use kt_grammar::{Cursor, Look, behind, colon_type, expect_op_on, is_op_at};
use kt_lexer::{Keyword, Operator, Token};
use kt_parser::expression_at;
use std::alloc::Global;

/// A property with `=` and a value at the place.
fn property_with_value(
    alloc: Global,
    tokens: &[Token],
    looks: &[Look],
    is_var: bool,
    name: Word,
    ty: Option<Type>,
    at: Cursor,
) -> Result<(Prop, Cursor), Fail<usize>>
    requires looks { IsTable tokens.now looks.now }
    requires within { at.at ≤ length tokens.now }
    ensures { Advances rows.value (λ x. built.property_with is_var name ty (left x)) tokens.now at result }
{
    let next = expect_op_on(tokens, at, Operator::Assign)?;
    let (value, end) = expression_at(alloc, tokens, looks, next)?;
    Ok((with_value(is_var, name, ty, value), end))
}

/// A property with a getter and perhaps a setter at the place.
fn property_with_accessors(
    alloc: Global,
    tokens: &[Token],
    looks: &[Look],
    is_var: bool,
    name: Word,
    ty: Option<Type>,
    at: Cursor,
) -> Result<(Prop, Cursor), Fail<usize>>
    requires looks { IsTable tokens.now looks.now }
    requires within { at.at ≤ length tokens.now }
    ensures { Advances (row (rows.accessors is_var)) (built.property_with is_var name ty) tokens.now at result }
{
    let (accessors, end) = accessors(alloc, tokens, looks, is_var, at)?;
    Ok((with_accessors(is_var, name, ty, accessors), end))
}

/// A property with a value or a getter at the place.
fn value_or_accessors(
    alloc: Global,
    tokens: &[Token],
    looks: &[Look],
    is_var: bool,
    name: Word,
    ty: Option<Type>,
    at: Cursor,
) -> Result<(Prop, Cursor), Fail<usize>>
    requires looks { IsTable tokens.now looks.now }
    requires within { at.at ≤ length tokens.now }
    ensures { Advances (rows.value_or_accessors is_var) (built.property_with is_var name ty) tokens.now at result }
{
    if is_op_at(tokens, at.at, Operator::Assign) {
        return property_with_value(alloc, tokens, looks, is_var, name, ty, at);
    }
    property_with_accessors(alloc, tokens, looks, is_var, name, ty, at)
}

/// Whether the value of a property, or its getter, begins at the place.
fn begins_value(tokens: &[Token], at: usize) -> bool
    ensures { result ≡ test spec.begins_value (first (drop at tokens.now)) }
{
    is_op_at(tokens, at, Operator::Assign) || is_member_word_at(tokens, at, MemberWord::Get)
}

/// A property of a class, with what stands behind its type.
fn property_in_class(
    alloc: Global,
    tokens: &[Token],
    looks: &[Look],
    is_var: bool,
    name: Word,
    ty: Option<Type>,
    at: Cursor,
) -> Result<(Prop, Cursor), Fail<usize>>
    requires looks { IsTable tokens.now looks.now }
    requires within { at.at ≤ length tokens.now }
    ensures { Advances (rows.property_value is_var false rows.in_class) (built.property_with is_var name ty) tokens.now at result }
{
    if !begins_value(tokens, at.at) {
        return Ok((bare(is_var, name, ty), at));
    }
    value_or_accessors(alloc, tokens, looks, is_var, name, ty, at)
}

/// A property of an interface, with what stands behind its type.
fn property_in_interface(
    alloc: Global,
    tokens: &[Token],
    looks: &[Look],
    is_var: bool,
    name: Word,
    ty: Option<Type>,
    at: Cursor,
) -> Result<(Prop, Cursor), Fail<usize>>
    requires looks { IsTable tokens.now looks.now }
    requires within { at.at ≤ length tokens.now }
    ensures { Advances (rows.property_value is_var false rows.in_interface) (built.property_with is_var name ty) tokens.now at result }
{
    if !is_member_word_at(tokens, at.at, MemberWord::Get) {
        return Ok((bare(is_var, name, ty), at));
    }
    property_with_accessors(alloc, tokens, looks, is_var, name, ty, at)
}

/// A property that is not abstract, with what stands behind its type.
fn concrete_property(
    alloc: Global,
    tokens: &[Token],
    looks: &[Look],
    is_var: bool,
    site: Site,
    name: Word,
    ty: Option<Type>,
    at: Cursor,
) -> Result<(Prop, Cursor), Fail<usize>>
    requires looks { IsTable tokens.now looks.now }
    requires within { at.at ≤ length tokens.now }
    ensures { Advances (rows.property_value is_var false (site_of site)) (built.property_with is_var name ty) tokens.now at result }
{
    match site {
        Site::TopLevel => value_or_accessors(alloc, tokens, looks, is_var, name, ty, at),
        Site::InClass => property_in_class(alloc, tokens, looks, is_var, name, ty, at),
        Site::InInterface => property_in_interface(alloc, tokens, looks, is_var, name, ty, at),
    }
}

/// A property with what stands behind its type.
fn property_value(
    alloc: Global,
    tokens: &[Token],
    looks: &[Look],
    is_var: bool,
    is_abstract: bool,
    site: Site,
    name: Word,
    ty: Option<Type>,
    at: Cursor,
) -> Result<(Prop, Cursor), Fail<usize>>
    requires looks { IsTable tokens.now looks.now }
    requires within { at.at ≤ length tokens.now }
    ensures { Advances (rows.property_value is_var is_abstract (site_of site)) (built.property_with is_var name ty) tokens.now at result }
{
    if is_abstract {
        return Ok((bare(is_var, name, ty), at));
    }
    concrete_property(alloc, tokens, looks, is_var, site, name, ty, at)
}

/// A property that begins with the keyword.
fn property_behind(
    alloc: Global,
    tokens: &[Token],
    looks: &[Look],
    keyword: Keyword,
    is_var: bool,
    is_abstract: bool,
    site: Site,
    at: Cursor,
) -> Result<(Prop, Cursor), Fail<usize>>
    requires looks { IsTable tokens.now looks.now }
    requires within { at.at ≤ length tokens.now }
    ensures { Advances (rows.property_behind keyword is_var is_abstract (site_of site)) (built.behind_word is_var) tokens.now at result }
{
    let next = expect_on(tokens, at, Terminal::Word(keyword))?;
    let (name, mid) = expect_name_on(tokens, next)?;
    let (ty, end) = behind(mid.looked, colon_type(alloc, tokens, mid.at))?;
    property_value(
        alloc,
        tokens,
        looks,
        is_var,
        is_abstract,
        site,
        name,
        ty,
        end,
    )
}

/// A property at a place, behind its modifiers.
///
/// # Errors
///
/// `Found` with the place of the first token with which no property goes on, or the farthest one that a test has looked at. `Memory`
/// where memory is short.
pub fn property(
    alloc: Global,
    tokens: &[Token],
    looks: &[Look],
    is_abstract: bool,
    site: Site,
    at: Cursor,
) -> Result<(Prop, Cursor), Fail<usize>>
    requires looks { IsTable tokens.now looks.now }
    requires within { at.at ≤ length tokens.now }
    ensures { Advances (row (rows.property is_abstract (site_of site))) built.property_of tokens.now at result }
{
    if is_word_at(tokens, at.at, Keyword::Var) {
        return property_behind(
            alloc,
            tokens,
            looks,
            Keyword::Var,
            true,
            is_abstract,
            site,
            at,
        );
    }
    property_behind(
        alloc,
        tokens,
        looks,
        Keyword::Val,
        false,
        is_abstract,
        site,
        at,
    )
}
