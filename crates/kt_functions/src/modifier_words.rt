//! Modifiers of parameters (Kotlin Language Specification 1.9, "Syntax grammar", `parameterModifiers` and `typeParameterModifiers`).
ghost use Rattle.std.specs.Prelude.{◌≡◌, ◌≤◌, ◌++◌, length, drop};
ghost use Rattle.grammars.specs.Grammar.{first, one, test};
ghost use Rattle.kt_bodies.specs.Looks.{Looked};
ghost use Rattle.kt_functions.specs.Modifiers as spec;
ghost use Rattle.kt_lexer.specs.declared.token.TokenKind.TheVariants as token_kinds;
ghost use Rattle.kt_grammar.specs.Beginnings.{of_kind};
ghost use Rattle.kt_grammar.specs.DeclarationsBuilt as built;
ghost use Rattle.kt_grammar.specs.Lookahead as tests;
ghost use Rattle.kt_grammar.specs.Parsed.{Advances, Eats};
ghost use Rattle.kt_grammar.specs.Rows as rows;
ghost use Rattle.kt_grammar.specs.Tokens as tokens_of;

use kc_text::Fail;
use kc_tree::{Mod, ModKind};
use kt_bodies::begins_local;
use kt_grammar::{Cursor, class, is_at, is_name_at, keyword_class};
use kt_lexer::{Keyword, Token, TokenKind};
use sqlite_items::Items;
use std::alloc::Global;

/// The modifiers from `public` on, in the order of their numbers in the list of names.
const KINDS: [ModKind; 18] = [
    ModKind::Public,
    ModKind::Internal,
    ModKind::Private,
    ModKind::Final,
    ModKind::Open,
    ModKind::Abstract,
    ModKind::Sealed,
    ModKind::Data,
    ModKind::Enum,
    ModKind::Override,
    ModKind::Operator,
    ModKind::Infix,
    ModKind::Inline,
    ModKind::Const,
    ModKind::Vararg,
    ModKind::Noinline,
    ModKind::Crossinline,
    ModKind::Reified,
];

fn named_kind(name: usize) -> ModKind
    ensures { result ≡ built.mod_kind_of (token_kinds.Name name) }
{
    if name < 8 {
        return ModKind::Out;
    }
    match KINDS.get(name - 8) {
        Some(kind) => *kind,
        None => ModKind::Out,
    }
}

/// Which modifier a token is.
fn modifier_kind(kind: &TokenKind) -> ModKind
    ensures { result ≡ built.mod_kind_of kind.now }
{
    match kind {
        TokenKind::Name(name) => named_kind(*name),
        _ => ModKind::In,
    }
}

/// The modifier that a token is.
pub fn modifier_of(token: &Token) -> Mod
    ensures { result ≡ built.mod_of token.now }
{
    Mod {
        span: token.span,
        kind: modifier_kind(&token.kind),
    }
}

/// Whether a name is a modifier.
pub fn is_modifier_name(kind: &TokenKind) -> bool
    ensures { result ≡ tokens_of.is_modifier_name (of_kind kind.now) }
{
    let class = class(kind);
    class == 86 || (class > 91 && class < 110)
}

/// Whether a token is a modifier: such a name, or `in`.
pub fn is_modifier(kind: &TokenKind) -> bool
    ensures { result ≡ tokens_of.is_modifier (of_kind kind.now) }
{
    class(kind) == keyword_class(Keyword::In) || is_modifier_name(kind)
}

/// Whether the keyword stands at the place.
pub fn is_word_at(tokens: &[Token], at: usize, keyword: Keyword) -> bool
    ensures { result ≡ test (tokens_of.is_word keyword) (first (drop at tokens.now)) }
{
    is_at(tokens, at, keyword_class(keyword))
}

/// Whether a parameter of a function or of a type begins at the place.
pub fn begins_parameter(tokens: &[Token], at: usize) -> bool
    ensures { result ≡ test tokens_of.begins_parameter (first (drop at tokens.now)) }
{
    is_word_at(tokens, at, Keyword::In) || is_name_at(tokens, at)
}

/// Whether a parameter goes on at the place, behind a word that may be a modifier.
fn goes_on(tokens: &[Token], at: usize) -> bool
    ensures { result ≡ test spec.goes_on (first (drop at tokens.now)) }
{
    begins_parameter(tokens, at) || begins_local(tokens, at)
}

fn is_modifier_name_at(tokens: &[Token], at: usize) -> bool
    ensures { result ≡ test tokens_of.is_modifier_name (first (drop at tokens.now)) }
{
    match tokens.get(at) {
        Some(token) => is_modifier_name(&token.kind),
        None => false,
    }
}

/// The place behind a name that may be a modifier, where one stands at the place.
fn eat_modifier_name(tokens: &[Token], at: usize) -> Option<usize>
    ensures { Eats tokens_of.is_modifier_name tokens.now at result }
{
    if is_modifier_name_at(tokens, at) {
        Some(at + 1)
    } else {
        None
    }
}

/// Whether a modifier of a parameter stands at the place: `in`, or a word behind which the parameter goes on.
fn look_for_modifier(tokens: &[Token], at: Cursor) -> (bool, Cursor)
    requires { at.at ≤ length tokens.now }
    ensures { Looked tests.modifier_follows (one tokens_of.is_modifier) tokens.now at result.1 result.0 }
{
    if is_word_at(tokens, at.at, Keyword::In) {
        return (true, at.seen(at.at));
    }
    let Some(next) = eat_modifier_name(tokens, at.at) else {
        return (false, at.seen(at.at));
    };
    (goes_on(tokens, next), at.seen(next))
}

/// The modifier at a place.
fn modifier_at(tokens: &[Token], at: usize) -> Option<Mod>
    ensures { spec.ModifierAt (first (drop at tokens.now)) result }
{
    match tokens.get(at) {
        Some(token) => {
            if is_modifier(&token.kind) {
                Some(modifier_of(token))
            } else {
                None
            }
        }
        None => None,
    }
}

/// The modifier at a place, and the place behind it.
fn expect_modifier(tokens: &[Token], at: Cursor) -> Result<(Mod, Cursor), Fail<usize>>
    requires { at.at ≤ length tokens.now }
    ensures { spec.ExpectsModifier tokens.now at result }
{
    match modifier_at(tokens, at.at) {
        Some(found) => Ok((found, at.to(at.at + 1))),
        None => Err(at.fault()),
    }
}

/// A modifier, which goes to the list's end.
fn one_modifier(
    tokens: &[Token],
    before: Items<Mod>,
    at: Cursor,
) -> Result<(Items<Mod>, Cursor), Fail<usize>>
    requires { at.at ≤ length tokens.now }
    ensures { Advances (one tokens_of.is_modifier) (λ x. before ++ spec.modifier_of x) tokens.now at result }
{
    let (found, end) = expect_modifier(tokens, at)?;
    let mut all = before;
    all.push(found)?;
    Ok((all, end))
}

/// The modifiers of a parameter. There may be none.
///
/// # Errors
///
/// `Memory` where memory is short.
pub fn modifiers(
    alloc: Global,
    tokens: &[Token],
    at: Cursor,
) -> Result<(Items<Mod>, Cursor), Fail<usize>>
    requires { at.at ≤ length tokens.now }
    ensures { Advances rows.modifiers built.modifiers_of tokens.now at result }
{
    let mut all = Items::new(alloc);
    let mut at = at;
    loop {
        let (holds, mid) = look_for_modifier(tokens, at);
        if !holds {
            return Ok((all, mid));
        }
        let (found, end) = one_modifier(tokens, all, mid)?;
        all = found;
        at = end;
    }
}
