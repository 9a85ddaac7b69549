//! What tokens are to the nesting of others.
ghost use Rattle.std.specs.Prelude.{◌≡◌};
ghost use Rattle.kt_decls.specs.Kinds as spec;

use kt_lexer::{Keyword, Operator, Token, TokenKind};

/// What tokens stand in: a bracket, or a hole of a string.
#[derive(Clone, Copy)]
pub enum Bracket {
    Round,
    Square,
    Brace,
    Hole,
}

pub fn is_same(one: Bracket, other: Bracket) -> bool
    ensures { result ≡ spec.is_same one other }
{
    match (one, other) {
        (Bracket::Round, Bracket::Round) => true,
        (Bracket::Square, Bracket::Square) => true,
        (Bracket::Brace, Bracket::Brace) => true,
        (Bracket::Hole, Bracket::Hole) => true,
        _ => false,
    }
}

fn opened_by(operator: Operator) -> Option<Bracket>
    ensures { result ≡ spec.opened_by operator }
{
    match operator {
        Operator::OpenRound => Some(Bracket::Round),
        Operator::OpenSquare => Some(Bracket::Square),
        Operator::OpenBrace => Some(Bracket::Brace),
        _ => None,
    }
}

/// The bracket that a token opens.
pub fn opens(kind: &TokenKind) -> Option<Bracket>
    ensures { result ≡ spec.opens kind.now }
{
    match kind {
        TokenKind::Op(operator) => opened_by(*operator),
        TokenKind::HoleOpen => Some(Bracket::Hole),
        _ => None,
    }
}

fn closed_by(operator: Operator) -> Option<Bracket>
    ensures { result ≡ spec.closed_by operator }
{
    match operator {
        Operator::CloseRound => Some(Bracket::Round),
        Operator::CloseSquare => Some(Bracket::Square),
        Operator::CloseBrace => Some(Bracket::Brace),
        _ => None,
    }
}

/// The bracket that a token closes, where it is the innermost one that is open.
pub fn closes(kind: &TokenKind) -> Option<Bracket>
    ensures { result ≡ spec.closes kind.now }
{
    match kind {
        TokenKind::Op(operator) => closed_by(*operator),
        TokenKind::HoleClose => Some(Bracket::Hole),
        _ => None,
    }
}

fn is_literal_word(word: Keyword) -> bool
    ensures { result ≡ spec.is_literal_word word }
{
    match word {
        Keyword::True => true,
        Keyword::False => true,
        Keyword::Null => true,
        _ => false,
    }
}

fn is_operand_end(kind: &TokenKind) -> bool
    ensures { result ≡ spec.is_operand_end kind.now }
{
    match kind {
        TokenKind::Name(_) => true,
        TokenKind::Number { .. } => true,
        TokenKind::CharLiteral(_) => true,
        TokenKind::StringClose => true,
        TokenKind::HoleClose => true,
        TokenKind::Word(word) => is_literal_word(*word),
        TokenKind::Op(operator) => closed_by(*operator).is_some(),
        _ => false,
    }
}

/// Does a name that stands directly behind the token count?
pub fn ends_operand(token: &Token) -> bool
    ensures { result ≡ spec.ends_operand token.now }
{
    is_operand_end(&token.kind) && !token.marked
}

fn joins_operator(operator: Operator) -> bool
    ensures { result ≡ spec.joins_operator operator }
{
    match operator {
        Operator::Plus => true,
        Operator::Minus => true,
        Operator::Times => true,
        Operator::Divide => true,
        Operator::Remainder => true,
        Operator::Range => true,
        Operator::RangeUntil => true,
        Operator::And => true,
        Operator::Or => true,
        Operator::Elvis => true,
        Operator::Assign => true,
        Operator::EqualEqual => true,
        Operator::NotEqual => true,
        Operator::Identical => true,
        Operator::NotIdentical => true,
        Operator::Dot => true,
        Operator::SafeDot => true,
        Operator::Arrow => true,
        _ => false,
    }
}

fn joins_word(word: Keyword) -> bool
    ensures { result ≡ spec.joins_word word }
{
    match word {
        Keyword::As => true,
        Keyword::AsSafe => true,
        Keyword::In => true,
        Keyword::NotIn => true,
        Keyword::Is => true,
        Keyword::NotIs => true,
        _ => false,
    }
}

/// Does what the token begins go on behind it, also on a new line?
pub fn joins(kind: &TokenKind) -> bool
    ensures { result ≡ spec.joins kind.now }
{
    match kind {
        TokenKind::Op(operator) => joins_operator(*operator),
        TokenKind::Word(word) => joins_word(*word),
        _ => false,
    }
}

fn operator_counts(operator: Operator) -> bool
    ensures { result ≡ spec.operator_counts operator }
{
    match operator {
        Operator::CloseRound => false,
        Operator::CloseSquare => false,
        Operator::CloseBrace => false,
        Operator::Comma => false,
        Operator::Semicolon => false,
        _ => true,
    }
}

/// Does a token count where it stands? A name does so behind the end of an operand.
pub fn counts(behind_operand: bool, kind: &TokenKind) -> bool
    ensures { result ≡ spec.counts behind_operand kind.now }
{
    match kind {
        TokenKind::Word(_) => true,
        TokenKind::HoleOpen => true,
        TokenKind::Op(operator) => operator_counts(*operator),
        TokenKind::Name(_) => behind_operand,
        _ => false,
    }
}

fn is_separator(operator: Operator) -> bool
    ensures { result ≡ spec.is_separator operator }
{
    match operator {
        Operator::Comma => true,
        Operator::Semicolon => true,
        _ => false,
    }
}

fn is_list_mark(kind: &TokenKind) -> bool
    ensures { result ≡ spec.is_list_mark kind.now }
{
    match kind {
        TokenKind::Op(operator) => is_separator(*operator),
        _ => false,
    }
}

/// Does a token begin something new where it stands? One on a new line does so, but behind a token that joins lines.
pub fn separates(joined: bool, token: &Token) -> bool
    ensures { result ≡ spec.separates joined token.now }
{
    is_list_mark(&token.kind) || (token.marked && !joined)
}
