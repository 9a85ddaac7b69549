//! With which tokens expressions and arguments begin.
ghost use Rattle.std.specs.Prelude.{◌≡◌, drop};
ghost use Rattle.grammars.specs.Grammar.{first, test};
ghost use Rattle.kt_lexer.specs.declared.token.TokenKind.TheVariants as token_kinds;
ghost use Rattle.kt_grammar.specs.Beginnings.{of_kind};
ghost use Rattle.kt_grammar.specs.Tokens as tokens_of;
ghost use Rattle.kt_grammar.specs.Tokens.{unmarked};

use crate::tokens::is_op_at;
use kt_lexer::{Keyword, Operator, Token, TokenKind};

fn operator_begins(operator: Operator) -> bool
    ensures { result ≡ tokens_of.begins_expression (of_kind (token_kinds.Op operator)) }
{
    match operator {
        Operator::Plus
        | Operator::Minus
        | Operator::Not
        | Operator::Increment
        | Operator::Decrement
        | Operator::OpenRound
        | Operator::OpenBrace => true,
        _ => false,
    }
}

fn keyword_begins(keyword: Keyword) -> bool
    ensures { result ≡ tokens_of.begins_expression (of_kind (token_kinds.Word keyword)) }
{
    match keyword {
        Keyword::True
        | Keyword::False
        | Keyword::Null
        | Keyword::This
        | Keyword::Super
        | Keyword::If
        | Keyword::When
        | Keyword::Try
        | Keyword::Return
        | Keyword::Throw
        | Keyword::Break
        | Keyword::Continue => true,
        _ => false,
    }
}

fn kind_begins(kind: &TokenKind) -> bool
    ensures { result ≡ tokens_of.begins_expression (of_kind kind.now) }
{
    match kind {
        TokenKind::Op(operator) => operator_begins(*operator),
        TokenKind::Word(keyword) => keyword_begins(*keyword),
        TokenKind::Name(_)
        | TokenKind::Number { .. }
        | TokenKind::CharLiteral(_)
        | TokenKind::StringOpen => true,
        _ => false,
    }
}

/// Whether an expression begins at the place.
pub fn begins_expression(tokens: &[Token], at: usize) -> bool
    ensures { result ≡ test tokens_of.begins_expression (first (drop at tokens.now)) }
{
    match tokens.get(at) {
        Some(token) => kind_begins(&token.kind),
        None => false,
    }
}

/// Whether an expression begins at the place, on the same line.
pub fn begins_operand(tokens: &[Token], at: usize) -> bool
    ensures { result ≡ test (unmarked tokens_of.begins_expression) (first (drop at tokens.now)) }
{
    match tokens.get(at) {
        Some(token) => kind_begins(&token.kind) && !token.marked,
        None => false,
    }
}

/// Whether an argument of a call begins at the place.
pub fn begins_argument(tokens: &[Token], at: usize) -> bool
    ensures { result ≡ test tokens_of.begins_argument (first (drop at tokens.now)) }
{
    is_op_at(tokens, at, Operator::Times) || begins_expression(tokens, at)
}
