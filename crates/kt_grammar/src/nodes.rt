//! Nodes of expressions, each from its parts.
ghost use Rattle.std.specs.Prelude.{◌≡◌, IfOk};
ghost use Rattle.kt_lexer.specs.declared.token.TokenKind.TheVariants as token_kinds;
ghost use Rattle.kt_grammar.specs.Built as built;
ghost use Rattle.kt_grammar.specs.TypesBuilt as types_built;

use crate::tokens::{class, keyword_class, operator_class};
use kc_tree::{BinaryOp, Expr, ExprKind, PrefixOp, Span, Type, Word};
use kt_lexer::{Keyword, Operator, Token, TokenKind};
use sqlite_items::Boxed;
use std::alloc::{AllocError, Global};

/// From the start of one stretch of text to the end of another behind it.
pub fn across(begin: Span, end: Span) -> Span
    ensures { result ≡ built.across begin end }
{
    Span {
        file: begin.file,
        start: begin.start,
        end: end.end,
    }
}

fn prefix_op(operator: Operator) -> PrefixOp
    ensures { result ≡ built.prefix_of_token (token_kinds.Op operator) }
{
    match operator {
        Operator::Plus => PrefixOp::Plus,
        Operator::Not => PrefixOp::Not,
        Operator::Increment => PrefixOp::Inc,
        Operator::Decrement => PrefixOp::Dec,
        _ => PrefixOp::Minus,
    }
}

/// The operator that a token before an operand stands for.
fn prefix_operator(kind: &TokenKind) -> PrefixOp
    ensures { result ≡ built.prefix_of_token kind.now }
{
    match kind {
        TokenKind::Op(operator) => prefix_op(*operator),
        _ => PrefixOp::Minus,
    }
}

fn binary_op(operator: Operator) -> BinaryOp
    ensures { result ≡ built.binary_of_token (token_kinds.Op operator) }
{
    match operator {
        Operator::Or => BinaryOp::Or,
        Operator::And => BinaryOp::And,
        Operator::EqualEqual => BinaryOp::Equal,
        Operator::NotEqual => BinaryOp::NotEqual,
        Operator::Identical => BinaryOp::Same,
        Operator::NotIdentical => BinaryOp::NotSame,
        Operator::Less => BinaryOp::Less,
        Operator::Greater => BinaryOp::Greater,
        Operator::LessEqual => BinaryOp::LessEqual,
        Operator::GreaterEqual => BinaryOp::GreaterEqual,
        Operator::Elvis => BinaryOp::Elvis,
        Operator::Range => BinaryOp::RangeTo,
        Operator::RangeUntil => BinaryOp::RangeUntil,
        Operator::Minus => BinaryOp::Minus,
        Operator::Times => BinaryOp::Times,
        Operator::Divide => BinaryOp::Div,
        Operator::Remainder => BinaryOp::Rem,
        _ => BinaryOp::Plus,
    }
}

/// The operator that a token between two operands stands for.
fn binary_operator(kind: &TokenKind) -> BinaryOp
    ensures { result ≡ built.binary_of_token kind.now }
{
    match kind {
        TokenKind::Op(operator) => binary_op(*operator),
        _ => BinaryOp::Plus,
    }
}

/// `!in`, `!is`
pub fn is_negated(kind: &TokenKind) -> bool
    ensures { result ≡ built.is_negated kind.now }
{
    let class = class(kind);
    class == keyword_class(Keyword::NotIn) || class == keyword_class(Keyword::NotIs)
}

/// `as?`, `?.`
pub fn is_safe(kind: &TokenKind) -> bool
    ensures { result ≡ built.is_safe kind.now }
{
    let class = class(kind);
    class == keyword_class(Keyword::AsSafe) || class == operator_class(Operator::SafeDot)
}

fn number_of(kind: &TokenKind) -> usize
    ensures { result ≡ types_built.number_of kind.now }
{
    match kind {
        TokenKind::Name(name) => *name,
        TokenKind::Label(name) => *name,
        TokenKind::LabelUse(name) => *name,
        TokenKind::StringName(name) => *name,
        _ => 0,
    }
}

/// The name that a token holds.
pub fn word_of(token: &Token) -> Word
    ensures { result ≡ types_built.word_of token.now }
{
    Word {
        span: token.span,
        name: number_of(&token.kind),
    }
}

/// An operand behind an operator, by the operator's token.
pub fn prefixed(alloc: Global, token: &Token, of: Expr) -> Result<Expr, AllocError>
    ensures { IfOk result (λ x. x ≡ built.prefixed token.now of) }
{
    let span = across(token.span, of.span);
    let op = prefix_operator(&token.kind);
    let of = Boxed::new(alloc, of)?;
    Ok(Expr {
        span,
        kind: ExprKind::Prefix { op, of },
    })
}

/// Two operands with an operator between them, by the operator's token.
pub fn binary(alloc: Global, token: &Token, left: Expr, right: Expr) -> Result<Expr, AllocError>
    ensures { IfOk result (λ x. x ≡ built.binary left token.now right) }
{
    let span = across(left.span, right.span);
    let op = binary_operator(&token.kind);
    let left = Boxed::new(alloc, left)?;
    let right = Boxed::new(alloc, right)?;
    Ok(Expr {
        span,
        kind: ExprKind::Binary {
            op,
            token: token.span,
            left,
            right,
        },
    })
}

/// A named function between its operands, by the name's token.
pub fn infix_call(alloc: Global, token: &Token, left: Expr, right: Expr) -> Result<Expr, AllocError>
    ensures { IfOk result (λ x. x ≡ built.infix_call left token.now right) }
{
    let span = across(left.span, right.span);
    let name = word_of(token);
    let left = Boxed::new(alloc, left)?;
    let right = Boxed::new(alloc, right)?;
    Ok(Expr {
        span,
        kind: ExprKind::Infix { left, name, right },
    })
}

/// `in` or `!in`, by its token.
pub fn contained(alloc: Global, token: &Token, value: Expr, range: Expr) -> Result<Expr, AllocError>
    ensures { IfOk result (λ x. x ≡ built.contained value token.now range) }
{
    let span = across(value.span, range.span);
    let negated = is_negated(&token.kind);
    let value = Boxed::new(alloc, value)?;
    let range = Boxed::new(alloc, range)?;
    Ok(Expr {
        span,
        kind: ExprKind::In {
            negated,
            token: token.span,
            value,
            range,
        },
    })
}

/// `is` or `!is`, by its token, with a type that stands at `written`.
pub fn typed(
    alloc: Global,
    token: &Token,
    value: Expr,
    ty: Type,
    written: Span,
) -> Result<Expr, AllocError>
    ensures { IfOk result (λ x. x ≡ built.typed value token.now ty written) }
{
    let span = across(value.span, written);
    let negated = is_negated(&token.kind);
    let value = Boxed::new(alloc, value)?;
    Ok(Expr {
        span,
        kind: ExprKind::Is { negated, value, ty },
    })
}

/// `as` or `as?`, by its token, with a type that stands at `written`.
pub fn cast(
    alloc: Global,
    token: &Token,
    value: Expr,
    ty: Type,
    written: Span,
) -> Result<Expr, AllocError>
    ensures { IfOk result (λ x. x ≡ built.cast value token.now ty written) }
{
    let span = across(value.span, written);
    let safe = is_safe(&token.kind);
    let value = Boxed::new(alloc, value)?;
    Ok(Expr {
        span,
        kind: ExprKind::As { safe, value, ty },
    })
}
