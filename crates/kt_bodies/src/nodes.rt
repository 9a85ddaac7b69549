//! Nodes of expressions and statements, each from its parts.
ghost use Rattle.std.specs.Prelude.{◌≡◌};
ghost use Rattle.kc_tree.specs.declared.expr.ExprKind.TheVariants as kinds;

use crate::lambdas::Inside;
use crate::tries::Clauses;
use kc_tree::{Expr, ExprKind, Span, Type, Word};
use sqlite_items::Items;

/// Statements in braces that stand at `span`.
pub fn block(span: Span, body: Items<Expr>) -> Expr
    ensures { result ≡ record { span = span; kind = kinds.Block body } }
{
    Expr {
        span,
        kind: ExprKind::Block(body),
    }
}

/// A lambda that stands at `span`.
pub fn lambda(span: Span, label: Option<Word>, inside: Inside) -> Expr
    ensures { result ≡ record { span = span; kind = kinds.Lambda label inside.params inside.arrow inside.body } }
{
    let Inside {
        params,
        arrow,
        body,
    } = inside;
    Expr {
        span,
        kind: ExprKind::Lambda {
            label,
            params,
            arrow,
            body,
        },
    }
}

/// A `try` with its clauses that stands at `span`.
pub fn tried(span: Span, body: Items<Expr>, clauses: Clauses) -> Expr
    ensures { result ≡ record { span = span; kind = kinds.Try body clauses.catches clauses.last } }
{
    let Clauses { catches, last } = clauses;
    Expr {
        span,
        kind: ExprKind::Try {
            body,
            catches,
            last,
        },
    }
}

/// A member of the superclass that stands at `span`.
pub fn super_member(span: Span, of: Option<Type>, name: Word) -> Expr
    ensures { result ≡ record { span = span; kind = kinds.Super of name } }
{
    Expr {
        span,
        kind: ExprKind::Super { of, name },
    }
}
