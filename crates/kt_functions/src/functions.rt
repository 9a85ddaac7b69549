//! Functions (Kotlin Language Specification 1.9, "Function declaration").
ghost use Rattle.std.specs.Prelude.{◌≡◌, ◌≤◌, length};
ghost use Rattle.grammars.specs.Grammar.{row};
ghost use Rattle.kt_functions.specs.Functions as parts;
ghost use Rattle.kt_functions.specs.Sites as spec;
ghost use Rattle.kt_grammar.specs.DeclarationsBuilt as built;
ghost use Rattle.kt_grammar.specs.Parsed.{Advances};
ghost use Rattle.kt_grammar.specs.Rows as rows;
ghost use Rattle.kt_suffixes.specs.Suffixes.{IsTable};

use crate::parameters::bracketed_parameters;
use crate::receivers::{FunName, function_name};
use crate::sites::Site;
use crate::type_parameters::parameters_of_type;
use crate::values::written_body;
use kc_text::Fail;
use kc_tree::{Fun, FunBody, Param, Type, TypeParam};
use kt_bodies::{Terminal, expect_on};
use kt_grammar::{Cursor, Look, behind, colon_type};
use kt_lexer::{Keyword, Token};
use sqlite_items::Items;
use std::alloc::Global;

/// What stands behind the parameters of a function.
#[derive(Drop)]
pub struct Ending {
    pub result: Option<Type>,
    pub body: Option<FunBody>,
}

/// What stands behind the name of a function.
#[derive(Drop)]
pub struct Signature {
    pub values: Items<Param>,
    pub ending: Ending,
}

/// What stands behind the type parameters of a function.
#[derive(Drop)]
pub struct Named {
    pub name: FunName,
    pub signature: Signature,
}

/// The result type, and the body, each where it is written.
fn result_and_body(
    alloc: Global,
    tokens: &[Token],
    looks: &[Look],
    is_abstract: bool,
    at: Cursor,
) -> Result<(Ending, Cursor), Fail<usize>>
    requires looks { IsTable tokens.now looks.now }
    requires within { at.at ≤ length tokens.now }
    ensures { Advances (parts.ending is_abstract) parts.ending_of tokens.now at result }
{
    let (ty, mid) = behind(at.looked, colon_type(alloc, tokens, at.at))?;
    let (body, end) = written_body(alloc, tokens, looks, is_abstract, mid)?;
    Ok((Ending { result: ty, body }, end))
}

/// The parameters in their brackets, and what stands behind them.
fn behind_name(
    alloc: Global,
    tokens: &[Token],
    looks: &[Look],
    is_abstract: bool,
    at: Cursor,
) -> Result<(Signature, Cursor), Fail<usize>>
    requires looks { IsTable tokens.now looks.now }
    requires within { at.at ≤ length tokens.now }
    ensures { Advances (parts.signature is_abstract) parts.signature_of tokens.now at result }
{
    let (values, mid) = bracketed_parameters(alloc, tokens, looks, at)?;
    let (ending, end) = result_and_body(alloc, tokens, looks, is_abstract, mid)?;
    Ok((Signature { values, ending }, end))
}

/// The name of a function, and what stands behind it.
fn from_name(
    alloc: Global,
    tokens: &[Token],
    looks: &[Look],
    is_abstract: bool,
    site: Site,
    at: Cursor,
) -> Result<(Named, Cursor), Fail<usize>>
    requires looks { IsTable tokens.now looks.now }
    requires within { at.at ≤ length tokens.now }
    ensures { Advances (parts.named is_abstract (spec.site_of site)) parts.named_of tokens.now at result }
{
    let (name, mid) = function_name(alloc, tokens, site, at)?;
    let (signature, end) = behind_name(alloc, tokens, looks, is_abstract, mid)?;
    Ok((Named { name, signature }, end))
}

/// A function from its parts.
fn assembled(params: Items<TypeParam>, named: Named) -> Fun
    ensures { result ≡ parts.assembled params named }
{
    let Named { name, signature } = named;
    let FunName { receiver, name } = name;
    let Signature { values, ending } = signature;
    let Ending { result, body } = ending;
    Fun {
        params,
        receiver,
        name,
        values,
        result,
        body,
    }
}

/// A function. `is_abstract` says that `abstract` stands before it, so that it has no body. Only at the top of a file it may
/// have a receiver.
///
/// # Errors
///
/// `Found` with the place of the first token with which none goes on, or the farthest one that a test has looked at.
pub fn function(
    alloc: Global,
    tokens: &[Token],
    looks: &[Look],
    is_abstract: bool,
    site: Site,
    at: Cursor,
) -> Result<(Fun, Cursor), Fail<usize>>
    requires looks { IsTable tokens.now looks.now }
    requires within { at.at ≤ length tokens.now }
    ensures { Advances (row (rows.function is_abstract (spec.site_of site))) built.function_of tokens.now at result }
{
    let next = expect_on(tokens, at, Terminal::Word(Keyword::Fun))?;
    let (params, mid) = parameters_of_type(alloc, tokens, next)?;
    let (named, end) = from_name(alloc, tokens, looks, is_abstract, site, mid)?;
    Ok((assembled(params, named), end))
}
