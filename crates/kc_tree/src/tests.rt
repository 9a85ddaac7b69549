//! Names as they are printed, and one tree of each recursive kind, built and dropped.
use super::*;
use kc_text::Text;
use sqlite_items::{Boxed, Items};
use std::alloc::{AllocError, Global};
use std::test::Fail as Failed;

#[test]
fn prints_codes(rt: HostRuntime) {
    let table = [
        (Code::NotBuilt, "NotBuilt"),
        (Code::BadUtf8, "BadUtf8"),
        (Code::Syntax, "Syntax"),
        (Code::WrongTypeArgs, "WrongTypeArgs"),
        (Code::InlineCycle, "InlineCycle"),
        (Code::ReifiedArgument, "ReifiedArgument"),
        (Code::Ambiguous, "Ambiguous"),
        (Code::PositionalAfterNamed, "PositionalAfterNamed"),
        (Code::EarlyThis, "EarlyThis"),
        (Code::ManyMain, "ManyMain"),
    ];
    for (code, name) in table {
        assert_eq!(rt; code.name(), name);
    }
}

/// `"x${a as List<*>?}"`
fn template(alloc: Global) -> Result<Expr, AllocError> {
    let span = Span {
        file: 0,
        start: 0,
        end: 19,
    };
    let mut words = Items::new(alloc);
    words.push(Word { span, name: 1 })?;
    let mut args = Items::new(alloc);
    args.push(TypeArg {
        span,
        kind: TypeArgKind::Star,
    })?;
    let list = Type {
        span,
        kind: TypeKind::Named(words, args),
    };
    let ty = Type {
        span,
        kind: TypeKind::Nullable(Boxed::new(alloc, list)?),
    };
    let name = Expr {
        span,
        kind: ExprKind::Name(0),
    };
    let cast = Expr {
        span,
        kind: ExprKind::As {
            safe: false,
            value: Boxed::new(alloc, name)?,
            ty,
        },
    };
    let mut pieces = Items::new(alloc);
    pieces.push(Piece::Text(Text::new(alloc)))?;
    pieces.push(Piece::Hole(cast))?;
    Ok(Expr {
        span,
        kind: ExprKind::Text(pieces),
    })
}

#[test]
fn builds_and_drops_trees(rt: HostRuntime) -> Result<(), Failed> {
    let tree = template(rt.alloc())?;
    let ExprKind::Text(pieces) = tree.kind else {
        return Ok(());
    };
    assert_eq!(rt; pieces.len(), 2);
    Ok(())
}
