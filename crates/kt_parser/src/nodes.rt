//! Nodes of expressions and statements, each from its parts.
ghost use Rattle.std.specs.Prelude.{◌≡◌, IfOk};
ghost use Rattle.kc_tree.specs.declared.expr.ExprKind.TheVariants as kinds;
ghost use Rattle.kt_parser.specs.Primaries as primaries;
ghost use Rattle.kt_parser.specs.Statements as statements;
ghost use Rattle.kt_lexer.specs.declared.token.TokenKind.TheVariants as token_kinds;
ghost use Rattle.kt_grammar.specs.Built as built;

use kc_tree::{AssignOp, Expr, ExprKind, Span, Word};
use kt_lexer::{Keyword, Operator, Token, TokenKind};
use sqlite_items::Boxed;
use std::alloc::{AllocError, Global};

fn keyword_atom(keyword: Keyword) -> ExprKind
    ensures { result ≡ built.atom_of_token (token_kinds.Word keyword) }
{
    match keyword {
        Keyword::True => ExprKind::Truth(true),
        Keyword::False => ExprKind::Truth(false),
        Keyword::This => ExprKind::This,
        _ => ExprKind::Null,
    }
}

fn atom_kind(kind: &TokenKind) -> ExprKind
    ensures { result ≡ built.atom_of_token kind.now }
{
    match kind {
        TokenKind::Number { value, long } => ExprKind::Number {
            value: *value,
            long: *long,
        },
        TokenKind::CharLiteral(unit) => ExprKind::Char(*unit),
        TokenKind::Word(keyword) => keyword_atom(*keyword),
        _ => ExprKind::Null,
    }
}

/// What a token stands for that is no name.
pub fn atom(token: &Token) -> Expr
    ensures { result ≡ primaries.atom_of token.now }
{
    Expr {
        span: token.span,
        kind: atom_kind(&token.kind),
    }
}

/// A name alone.
pub fn named(word: Word) -> Expr
    ensures { result ≡ record { span = word.span; kind = kinds.Name word.name } }
{
    Expr {
        span: word.span,
        kind: ExprKind::Name(word.name),
    }
}

/// An expression in brackets that stand at `span`.
pub fn bracketed(alloc: Global, span: Span, of: Expr) -> Result<Expr, AllocError>
    ensures { IfOk result (λ x. x ≡ record { span = span; kind = kinds.Paren of }) }
{
    Ok(Expr {
        span,
        kind: ExprKind::Paren(Boxed::new(alloc, of)?),
    })
}

fn operator_sets(operator: Operator) -> AssignOp
    ensures { result ≡ built.assign_of_token (token_kinds.Op operator) }
{
    match operator {
        Operator::PlusAssign => AssignOp::Plus,
        Operator::MinusAssign => AssignOp::Minus,
        Operator::TimesAssign => AssignOp::Times,
        Operator::DivideAssign => AssignOp::Div,
        Operator::RemainderAssign => AssignOp::Rem,
        _ => AssignOp::Set,
    }
}

fn assign_op(kind: &TokenKind) -> AssignOp
    ensures { result ≡ built.assign_of_token kind.now }
{
    match kind {
        TokenKind::Op(operator) => operator_sets(*operator),
        _ => AssignOp::Set,
    }
}

/// A place and the value that it gets.
pub fn assigned(alloc: Global, token: &Token, place: Expr, value: Expr) -> Result<Expr, AllocError>
    ensures { IfOk result (λ x. x ≡ statements.assigned place token.now value) }
{
    let span = Span {
        file: place.span.file,
        start: place.span.start,
        end: value.span.end,
    };
    Ok(Expr {
        span,
        kind: ExprKind::Assign {
            op: assign_op(&token.kind),
            token: token.span,
            place: Boxed::new(alloc, place)?,
            value: Boxed::new(alloc, value)?,
        },
    })
}
