//! With which tokens statements begin.
ghost use Rattle.std.specs.Prelude.{◌≡◌, drop};
ghost use Rattle.grammars.specs.Grammar.{first, test};
ghost use Rattle.kt_grammar.specs.Beginnings.{of_kind};
ghost use Rattle.kt_grammar.specs.Tokens as tokens_of;

use kt_grammar::begins_expression;
use kt_lexer::{Keyword, Token, TokenKind};

fn is_local(kind: &TokenKind) -> bool
    ensures { result ≡ tokens_of.is_local (of_kind kind.now) }
{
    match kind {
        TokenKind::Word(Keyword::Val) | TokenKind::Word(Keyword::Var) => true,
        _ => false,
    }
}

fn is_loop(kind: &TokenKind) -> bool
    ensures { result ≡ tokens_of.is_loop (of_kind kind.now) }
{
    match kind {
        TokenKind::Label(_)
        | TokenKind::Word(Keyword::For)
        | TokenKind::Word(Keyword::While)
        | TokenKind::Word(Keyword::Do) => true,
        _ => false,
    }
}

/// Whether a declaration of local variables begins at the place.
pub fn begins_local(tokens: &[Token], at: usize) -> bool
    ensures { result ≡ test tokens_of.is_local (first (drop at tokens.now)) }
{
    match tokens.get(at) {
        Some(token) => is_local(&token.kind),
        None => false,
    }
}

/// Whether a loop begins at the place.
pub fn begins_loop(tokens: &[Token], at: usize) -> bool
    ensures { result ≡ test tokens_of.is_loop (first (drop at tokens.now)) }
{
    match tokens.get(at) {
        Some(token) => is_loop(&token.kind),
        None => false,
    }
}

/// Whether a statement begins at the place.
pub fn begins_statement(tokens: &[Token], at: usize) -> bool
    ensures { result ≡ test tokens_of.begins_statement (first (drop at tokens.now)) }
{
    begins_local(tokens, at) || (begins_loop(tokens, at) || begins_expression(tokens, at))
}

/// Whether a line ends before the token at the place in a way that counts.
pub fn is_marked(tokens: &[Token], at: usize) -> bool
    ensures { result ≡ test (λ t. t.marked) (first (drop at tokens.now)) }
{
    match tokens.get(at) {
        Some(token) => token.marked,
        None => false,
    }
}

/// Whether a statement begins at the place, behind a line's end that counts.
pub fn begins_marked_statement(tokens: &[Token], at: usize) -> bool
    ensures { result ≡ test (tokens_of.marked tokens_of.begins_statement) (first (drop at tokens.now)) }
{
    begins_statement(tokens, at) && is_marked(tokens, at)
}
