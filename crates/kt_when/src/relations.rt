//! With which tokens conditions begin (Kotlin Language Specification 1.9, "When expressions").
ghost use Rattle.std.specs.Prelude.{◌≡◌, ◌≤◌, Some, length, drop};
ghost use Rattle.grammars.specs.Grammar.{first, test};
ghost use Rattle.kt_grammar.specs.Signs.{TokenAt, EatsToken};
ghost use Rattle.kt_grammar.specs.Tokens as tokens_of;
ghost use Rattle.kt_when.specs.Relations as spec;

use kt_grammar::{Cursor, begins_expression, class, keyword_class};
use kt_lexer::{Keyword, Token};

/// What stands before the value or the type in a condition.
#[derive(Clone, Copy)]
pub enum Relation {
    /// `in`, `!in`
    In,
    /// `is`, `!is`
    Is,
}

fn is_in(token: &Token) -> bool
    ensures { result ≡ tokens_of.is_in token.now }
{
    let class = class(&token.kind);
    class == keyword_class(Keyword::In) || class == keyword_class(Keyword::NotIn)
}

fn is_is(token: &Token) -> bool
    ensures { result ≡ tokens_of.is_is token.now }
{
    let class = class(&token.kind);
    class == keyword_class(Keyword::Is) || class == keyword_class(Keyword::NotIs)
}

fn is_relation(token: &Token, relation: Relation) -> bool
    ensures { result ≡ spec.is_relation relation token.now }
{
    match relation {
        Relation::In => is_in(token),
        Relation::Is => is_is(token),
    }
}

fn is_relation_at(tokens: &[Token], at: usize, relation: Relation) -> bool
    ensures { result ≡ test (spec.is_relation relation) (first (drop at tokens.now)) }
{
    match tokens.get(at) {
        Some(token) => is_relation(token, relation),
        None => false,
    }
}

fn relation_of(token: &Token, relation: Relation) -> Option<&Token>
    ensures { TokenAt (spec.is_relation relation) (Some token.now) result }
{
    if is_relation(token, relation) {
        Some(token)
    } else {
        None
    }
}

fn relation_at(tokens: &[Token], at: usize, relation: Relation) -> Option<&Token>
    ensures { TokenAt (spec.is_relation relation) (first (drop at tokens.now)) result }
{
    match tokens.get(at) {
        Some(token) => relation_of(token, relation),
        None => None,
    }
}

/// The token at the place, where it is of the relation, and the place behind it.
pub fn eat_relation(tokens: &[Token], at: Cursor, relation: Relation) -> Option<(&Token, Cursor)>
    requires { at.at ≤ length tokens.now }
    ensures { EatsToken (spec.is_relation relation) tokens.now at result }
{
    match relation_at(tokens, at.at, relation) {
        Some(token) => Some((token, at.to(at.at + 1))),
        None => None,
    }
}

/// Whether a condition begins at the place.
pub fn begins_condition(tokens: &[Token], at: usize) -> bool
    ensures { result ≡ test tokens_of.begins_condition (first (drop at tokens.now)) }
{
    is_relation_at(tokens, at, Relation::In)
        || (is_relation_at(tokens, at, Relation::Is) || begins_expression(tokens, at))
}
