//! What stands as a body (Kotlin Language Specification 1.9, "Syntax grammar", `controlStructureBody`).
ghost use Rattle.std.specs.Prelude.{◌≡◌};
ghost use Rattle.kc_tree.specs.declared.expr.ExprKind.TheVariants as kinds;
ghost use Rattle.kt_grammar.specs.Built as built;

use kc_tree::{Expr, ExprKind, LocalName, Word};
use sqlite_items::Items;

/// The body that a statement is. Where only a body can stand, a lambda without label, parameters and arrow is a block.
pub fn as_body(of: Expr) -> Expr
    ensures { result ≡ built.as_body of }
{
    let Expr { span, kind } = of;
    Expr {
        span,
        kind: body_kind(kind),
    }
}

fn body_kind(kind: ExprKind) -> ExprKind
    ensures { result ≡ built.body_kind kind }
{
    match kind {
        ExprKind::Lambda {
            label,
            params,
            arrow,
            body,
        } => braces(label, params, arrow, body),
        kind => kind,
    }
}

// What the braces of a lambda are as a body.
fn braces(label: Option<Word>, params: Items<LocalName>, arrow: bool, body: Items<Expr>) -> ExprKind
    ensures { result ≡ built.body_kind (kinds.Lambda label params arrow body) }
{
    if label.is_none() && params.is_empty() && !arrow {
        return ExprKind::Block(body);
    }
    ExprKind::Lambda {
        label,
        params,
        arrow,
        body,
    }
}
