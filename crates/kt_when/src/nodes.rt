//! Nodes of `when`, each from its parts.
ghost use Rattle.std.specs.Prelude.{◌≡◌};
ghost use Rattle.kt_when.specs.Conditions as spec;
ghost use Rattle.kt_when.specs.Subjects.{when_at};

use crate::subjects::Subject;
use kc_tree::{Branch, Cond, Expr, ExprKind, Span, Type};
use kt_grammar::{across, is_negated};
use kt_lexer::Token;
use sqlite_items::Items;

/// The condition `in` or `!in`, by its token.
pub fn contained(token: &Token, range: Expr) -> Cond
    ensures { result ≡ spec.contained token.now range }
{
    Cond::In {
        span: across(token.span, range.span),
        negated: is_negated(&token.kind),
        range,
    }
}

/// The condition `is` or `!is`, by its token, with a type that stands at `written`.
pub fn typed(token: &Token, ty: Type, written: Span) -> Cond
    ensures { result ≡ spec.typed token.now ty written }
{
    Cond::Is {
        span: across(token.span, written),
        negated: is_negated(&token.kind),
        ty,
    }
}

/// A `when` that stands at `span`.
pub fn when_of(span: Span, subject: Subject, branches: Items<Branch>) -> Expr
    ensures { result ≡ when_at span subject branches }
{
    let Subject { bound, value } = subject;
    Expr {
        span,
        kind: ExprKind::When {
            bound,
            subject: value,
            branches,
        },
    }
}
