//! Nodes of expressions, each from its parts.
ghost use Rattle.std.specs.Prelude.{◌≡◌, None, true, false, IfOk};
ghost use Rattle.kc_tree.specs.declared.expr.ExprKind.TheVariants as kinds;
ghost use Rattle.kt_calls.specs.Suffixes as spec;
ghost use Rattle.kt_calls.specs.declared.nodes.EndingKind.TheVariants as endings;
ghost use Rattle.kt_lexer.specs.declared.token.TokenKind.TheVariants as token_kinds;
ghost use Rattle.kt_grammar.specs.Built as built;

use kc_text::{Memory, Text};
use kc_tree::{Arg, Expr, ExprKind, Piece, PostfixOp, Span, TypeArg, Word};
use kt_grammar::{across, is_safe};
use kt_lexer::{Operator, Token, TokenKind};
use sqlite_items::{Boxed, Items};
use std::alloc::{AllocError, Global};

/// What stands behind an operand. It ends where `span` does.
#[derive(Drop)]
pub struct Ending {
    pub span: Span,
    pub kind: EndingKind,
}

#[derive(Drop)]
pub enum EndingKind {
    /// `++`, `--` or `!!`.
    Operator(PostfixOp),
    /// A member behind `.` or, safe, `?.`.
    Member {
        safe: bool,
        name: Word,
    },
    /// Indexes, with the place of `[`.
    Index {
        token: Span,
        at: Items<Expr>,
    },
    /// A call, with the place of the token behind its type arguments.
    Call {
        token: Span,
        types: Items<TypeArg>,
        args: Items<Arg>,
    },
}

/// A lambda behind a call, as its last argument, that stands at `span`.
pub fn trailing_argument(span: Span, value: Expr) -> Arg
    ensures { result ≡ record { span = span; name = None; spread = false; trailing = true; value = value } }
{
    Arg {
        span,
        name: None,
        spread: false,
        trailing: true,
        value,
    }
}

fn postfix_op(operator: Operator) -> PostfixOp
    ensures { result ≡ built.postfix_of_token (token_kinds.Op operator) }
{
    match operator {
        Operator::Increment => PostfixOp::Inc,
        Operator::Decrement => PostfixOp::Dec,
        _ => PostfixOp::NotNull,
    }
}

/// The operator that a token behind an operand stands for.
fn postfix_operator(kind: &TokenKind) -> PostfixOp
    ensures { result ≡ built.postfix_of_token kind.now }
{
    match kind {
        TokenKind::Op(operator) => postfix_op(*operator),
        _ => PostfixOp::NotNull,
    }
}

/// A postfix operator, by its token.
pub fn operator_ending(token: &Token) -> Ending
    ensures { result ≡ record { span = token.now.span; kind = endings.Operator (built.postfix_of_token token.now.kind) } }
{
    Ending {
        span: token.span,
        kind: EndingKind::Operator(postfix_operator(&token.kind)),
    }
}

/// A member, by the token before its name.
pub fn member_ending(dot: &Token, name: Word) -> Ending
    ensures { result ≡ record { span = name.span; kind = endings.Member (built.is_safe dot.now.kind) name } }
{
    Ending {
        span: name.span,
        kind: EndingKind::Member {
            safe: is_safe(&dot.kind),
            name,
        },
    }
}

/// Indexes in brackets that stand at `span`, by the token of the opening bracket.
pub fn index_ending(span: Span, token: &Token, at: Items<Expr>) -> Ending
    ensures { result ≡ record { span = span; kind = endings.Index token.now.span at } }
{
    Ending {
        span,
        kind: EndingKind::Index {
            token: token.span,
            at,
        },
    }
}

/// A call that stands at `span`, with the place of its first token.
pub fn call_ending(span: Span, token: Span, types: Items<TypeArg>, args: Items<Arg>) -> Ending
    ensures { result ≡ record { span = span; kind = endings.Call token types args } }
{
    Ending {
        span,
        kind: EndingKind::Call { token, types, args },
    }
}

fn ended_kind(of: Boxed<Expr>, kind: EndingKind) -> ExprKind
    ensures { result ≡ spec.kind_of of kind }
{
    match kind {
        EndingKind::Operator(op) => ExprKind::Postfix { op, of },
        EndingKind::Member { safe, name } => ExprKind::Member { of, safe, name },
        EndingKind::Index { token, at } => ExprKind::Index { of, token, at },
        EndingKind::Call { token, types, args } => ExprKind::Call {
            of,
            token,
            types,
            args,
        },
    }
}

/// An operand with what stands behind it.
pub fn ended(alloc: Global, left: Expr, ending: Ending) -> Result<Expr, AllocError>
    ensures { IfOk result (λ x. x ≡ spec.ended left ending) }
{
    let span = across(left.span, ending.span);
    let of = Boxed::new(alloc, left)?;
    Ok(Expr {
        span,
        kind: ended_kind(of, ending.kind),
    })
}

/// The text of a token that is a stretch of a string.
pub fn text_of(alloc: Global, kind: &TokenKind) -> Result<Text, Memory>
    ensures { IfOk result (λ text. text ≡ built.text_of kind.now) }
{
    match kind {
        TokenKind::StringText(text) => text.copy(alloc),
        _ => Ok(Text::new(alloc)),
    }
}

/// A string that stands at `span`.
pub fn string_node(span: Span, pieces: Items<Piece>) -> Expr
    ensures { result ≡ record { span = span; kind = kinds.Text pieces } }
{
    Expr {
        span,
        kind: ExprKind::Text(pieces),
    }
}
