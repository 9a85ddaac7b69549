//! Types of small texts: the place behind each, or the place at which it is refused.
use kc_text::{Fail, Text};
use kc_tree::{Expr, ExprKind, Type};
use kt_grammar::*;
use kt_lexer::{Token, tokens};
use kt_names::reserved_names;
use sqlite_items::Items;
use std::alloc::Global;
use std::process::Abort;
use std::test::Fail as Failed;

/// The tokens of a text, after the names that mean something before certain tokens.
pub fn cut(alloc: Global, source: &str) -> Result<Items<Token>, Failed> {
    let mut names = reserved_names(alloc)?;
    let text = Text::from_str(alloc, source)?;
    match tokens(alloc, &text, 0, &mut names) {
        Ok(found) => Ok(found),
        Err(_) => Ok(Items::new(alloc)),
    }
}

/// Where a type stands.
#[derive(Clone, Copy)]
enum Standing {
    Alone,
    Operand,
    BeforeArrow,
}

fn without_looks(found: Result<(Type, Cursor), Fail<usize>>) -> Result<(Type, usize), Fail<usize>> {
    let (ty, end) = found?;
    Ok((ty, end.at))
}

/// The type at the start.
fn read(alloc: Global, tokens: &[Token], standing: Standing) -> Result<(Type, usize), Fail<usize>> {
    let start = Cursor { at: 0, looked: 0 };
    match standing {
        Standing::Alone => type_at(alloc, tokens, 0),
        Standing::Operand => without_looks(operand_type(alloc, tokens, start)),
        Standing::BeforeArrow => without_looks(type_before_arrow(alloc, tokens, start)),
    }
}

/// How many tokens the type at the start has, and its place, or the fault's place.
fn shown(alloc: Global, source: &str, standing: Standing) -> Result<String, Failed> {
    let found = cut(alloc, source)?;
    let line = match read(alloc, found.as_slice(), standing) {
        Ok((ty, end)) => {
            format!(in alloc;
                "{} of {}, {} to {}",
                end,
                found.len(),
                ty.span.start,
                ty.span.end
            )?
        }
        Err(Fail::Found(place)) => format!(in alloc; "fault {}", place)?,
        Err(Fail::Memory) => format!(in alloc; "memory")?,
    };
    Ok(line)
}

#[test]
fn reads_types(rt: HostRuntime) -> Result<(), Failed> {
    let table = [
        ("A", "1 of 1, 0 to 1"),
        ("a.B<out C, *, in D,>?", "14 of 14, 0 to 21"),
        ("(A, b.C) -> D?", "10 of 10, 0 to 14"),
        ("() -> A", "4 of 4, 0 to 7"),
        ("((A))?", "6 of 6, 0 to 6"),
        ("A<out>", "4 of 4, 0 to 6"),
        ("A<out out>", "5 of 5, 0 to 10"),
        ("A < B > c", "4 of 5, 0 to 7"),
        ("", "fault 0"),
        ("a.", "fault 2"),
        ("A<>", "fault 2"),
        ("A<out B ,", "fault 5"),
        ("A<out ? ;", "fault 4"),
        ("()", "fault 2"),
        ("(A,)", "fault 4"),
        ("(A", "fault 2"),
        ("(A) -> ", "fault 4"),
    ];
    for (source, expected) in table {
        assert_eq!(rt;
            shown(rt.alloc(), source, Standing::Alone)?.as_str(),
            expected,
            "of {source:?}"
        );
    }
    Ok(())
}

#[test]
fn reads_types_of_operands(rt: HostRuntime) -> Result<(), Failed> {
    let table = [
        ("A < b", "1 of 3, 0 to 1"),
        ("A<b>", "4 of 4, 0 to 4"),
        ("A<b, c d", "1 of 6, 0 to 1"),
        ("(A) -> B<c>?", "9 of 9, 0 to 12"),
        ("(A, B", "fault 4"),
        ("?", "fault 0"),
    ];
    for (source, expected) in table {
        assert_eq!(rt;
            shown(rt.alloc(), source, Standing::Operand)?.as_str(),
            expected,
            "of {source:?}"
        );
    }
    Ok(())
}

#[test]
fn reads_types_before_arrows(rt: HostRuntime) -> Result<(), Failed> {
    let table = [
        ("A -> b", "1 of 3, 0 to 1"),
        ("A<B>? -> b", "5 of 7, 0 to 5"),
        ("(A) -> b }", "3 of 6, 1 to 2"),
        ("(A) -> b -> c", "5 of 7, 0 to 8"),
        ("(A) -> b, c", "5 of 7, 0 to 8"),
        ("(A) -> (B)?, c", "8 of 10, 0 to 11"),
        ("((A) -> B) -> c -> d", "9 of 11, 0 to 15"),
        ("() -> A", "4 of 4, 0 to 7"),
        ("(A, B) -> c", "7 of 7, 0 to 11"),
        ("(A, B) c", "fault 5"),
        ("() A", "fault 2"),
        ("(A", "fault 2"),
        ("-> A", "fault 0"),
    ];
    for (source, expected) in table {
        assert_eq!(rt;
            shown(rt.alloc(), source, Standing::BeforeArrow)?.as_str(),
            expected,
            "of {source:?}"
        );
    }
    Ok(())
}

/// A type behind an operand.
#[derive(Clone, Copy)]
enum Behind {
    Casts,
    Check,
}

fn operator_of(kind: &ExprKind) -> &'static str {
    match kind {
        ExprKind::As { safe, .. } => { if *safe { "as?" } else { "as" } }
        ExprKind::Is { negated, .. } => { if *negated { "!is" } else { "is" } }
        _ => "none",
    }
}

/// How many tokens there are up to the types behind the first one, the place of the whole and its operator, or the fault's place.
fn typed(alloc: Global, source: &str, behind: Behind) -> Result<String, Failed> {
    let found = cut(alloc, source)?;
    if found.len() == 0 {
        return Ok(format!(in alloc; "nothing")?);
    }
    let tokens = found.as_slice();
    let left = Expr {
        span: span_between(tokens, 0, 1),
        kind: ExprKind::Null,
    };
    let start = Cursor { at: 1, looked: 0 };
    let read = match behind {
        Behind::Casts => cast_turns(alloc, tokens, left, start),
        Behind::Check => typed_turn(alloc, tokens, left, start),
    };
    let line = match read {
        Ok((whole, end)) => {
            format!(in alloc;
                "{} of {}, {} to {}, {}",
                end.at,
                found.len(),
                whole.span.start,
                whole.span.end,
                operator_of(&whole.kind)
            )?
        }
        Err(Fail::Found(place)) => format!(in alloc; "fault {}", place)?,
        Err(Fail::Memory) => format!(in alloc; "memory")?,
    };
    Ok(line)
}

#[test]
fn reads_casts(rt: HostRuntime) -> Result<(), Failed> {
    let table = [
        ("a as A", "3 of 3, 0 to 6, as"),
        ("a as A as? B<c> d", "8 of 9, 0 to 15, as?"),
        ("a as A < b", "3 of 5, 0 to 6, as"),
        ("a as A<b, c(", "3 of 8, 0 to 6, as"),
        ("a\nas A", "1 of 3, 0 to 1, none"),
        ("a as", "fault 2"),
        ("a as (A, B as C", "fault 6"),
    ];
    for (source, expected) in table {
        assert_eq!(rt;
            typed(rt.alloc(), source, Behind::Casts)?.as_str(),
            expected,
            "of {source:?}"
        );
    }
    Ok(())
}

#[test]
fn reads_type_checks(rt: HostRuntime) -> Result<(), Failed> {
    let table = [
        ("a is A?", "4 of 4, 0 to 7, is"),
        ("a !is A is B", "3 of 5, 0 to 7, !is"),
        ("a\nis A", "fault 1"),
        ("a as A", "fault 1"),
        ("a is 1", "fault 2"),
    ];
    for (source, expected) in table {
        assert_eq!(rt;
            typed(rt.alloc(), source, Behind::Check)?.as_str(),
            expected,
            "of {source:?}"
        );
    }
    Ok(())
}

/// Which tests hold behind the first token.
fn told(alloc: Global, source: &str) -> Result<String, Failed> {
    let found = cut(alloc, source)?;
    let tokens = found.as_slice();
    let line = format!(in alloc;
        "{} {} {} {}",
        suffix_follows(alloc, tokens, 1)?.holds,
        arguments_form(alloc, tokens, 1)?.holds,
        result_follows(alloc, tokens, 1)?.holds,
        else_follows(tokens, 1)
    )?;
    Ok(line)
}

#[test]
fn looks_ahead(rt: HostRuntime) -> Result<(), Failed> {
    let table = [
        ("a.b", "true false false false"),
        ("a\n(b)", "false false false false"),
        ("a<b, (c, d) -> e<out f, *,>?,>(g)", "true true false false"),
        ("a<(b, c)>(d)", "false false false false"),
        ("a<b> c", "false true false false"),
        ("a -> b -> c", "false false true false"),
        ("a -> (b)? , c", "false false true false"),
        ("a -> b }", "false false false false"),
        ("a; else b", "false false false true"),
        ("a else -> b", "false false false false"),
    ];
    for (source, expected) in table {
        assert_eq!(rt;
            told(rt.alloc(), source)?.as_str(),
            expected,
            "of {source:?}"
        );
    }
    Ok(())
}

#[test]
fn reads_names(rt: HostRuntime) -> Result<(), Failed> {
    let alloc = rt.alloc();
    let table = [
        ("a: A<B>, b, c: D,", "3 names, 13"),
        ("a, b)", "2 names, 3"),
        ("a:)", "fault 2"),
        ("", "0 names, 0"),
    ];
    for (source, expected) in table {
        let found = cut(alloc, source)?;
        let line = match names(alloc, found.as_slice(), Items::new(alloc), 0) {
            Ok((all, end)) => format!(in alloc; "{} names, {}", all.len(), end)?,
            Err(Fail::Found(place)) => format!(in alloc; "fault {}", place)?,
            Err(Fail::Memory) => format!(in alloc; "memory")?,
        };
        assert_eq!(rt; line.as_str(), expected, "of {source:?}");
    }
    Ok(())
}
