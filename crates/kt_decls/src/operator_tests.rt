//! Operators in small texts, over a function that reads names alone.
ghost use Rattle.std.specs.Prelude.{◌≡◌, ◌≤◌, ◌==◌, ◌&&◌, not, length};
ghost use Rattle.grammars.specs.Grammar.{row};
ghost use Rattle.kt_grammar.specs.Built as built;
ghost use Rattle.kt_grammar.specs.Parsed.{Advances};
ghost use Rattle.kt_grammar.specs.Rows as rows;

use crate::list_tests::goes_on;
use crate::type_tests::cut;
use kc_text::Fail;
use kc_tree::{Expr, ExprKind};
use kt_grammar::*;
use kt_lexer::Token;
use std::alloc::Global;
use std::process::Abort;
use std::test::Fail as Failed;

/// Whether no suffix follows, and the next token alone tells so.
fn is_bare(look: &Look, next: usize) -> bool
    ensures { result ≡ not look.now.holds && look.now.end == next }
{
    !look.holds && look.end == next
}

/// A name with no suffix. All else is refused as if memory were wanting, but where a comma or the end stands.
fn bare_name(alloc: Global, tokens: &[Token], at: Cursor) -> Result<(Expr, Cursor), Fail<usize>>
    requires { at.at ≤ length tokens.now }
    ensures { Advances (row rows.postfix) built.postfix_of tokens.now at result }
{
    if !goes_on(tokens, at.at) {
        return Err(at.fault());
    }
    let Some(word) = word_at(tokens, at.at) else {
        return Err(Fail::Memory);
    };
    let next = at.at + 1;
    let look = suffix_follows(alloc, tokens, next)?;
    if !is_bare(&look, next) {
        return Err(Fail::Memory);
    }
    let value = Expr {
        span: word.span,
        kind: ExprKind::Name(word.name),
    };
    Ok((value, at.to(next)))
}

/// The outermost operator, and the unit at which its last operand or its type begins.
fn outermost(kind: &ExprKind) -> (&'static str, usize) {
    match kind {
        ExprKind::Prefix { of, .. } => ("prefix", of.get().span.start),
        ExprKind::Binary { right, .. } => ("binary", right.get().span.start),
        ExprKind::Infix { right, .. } => ("infix", right.get().span.start),
        ExprKind::In { range, .. } => ("in", range.get().span.start),
        ExprKind::Is { ty, .. } => ("is", ty.span.start),
        ExprKind::As { ty, .. } => ("as", ty.span.start),
        _ => ("none", 0),
    }
}

/// How many tokens the expression has, its outermost operator, and where what that stands before begins.
fn read(alloc: Global, tokens: &[Token]) -> Result<(usize, (&'static str, usize)), Fail<usize>> {
    let operators = Operators {
        alloc,
        tokens,
        from: 0,
        postfix: bare_name,
    };
    let (whole, end) = operators.expression(Cursor { at: 0, looked: 0 })?;
    Ok((end.at, outermost(&whole.kind)))
}

/// The same as a line, or the fault's place.
fn shown_expression(alloc: Global, source: &str) -> Result<String, Failed> {
    let found = cut(alloc, source)?;
    let line = match read(alloc, found.as_slice()) {
        Ok((end, (name, begin))) => {
            format!(in alloc; "{} of {}, {} before {}", end, found.len(), name, begin)?
        }
        Err(Fail::Found(place)) => format!(in alloc; "fault {}", place)?,
        Err(Fail::Memory) => format!(in alloc; "memory")?,
    };
    Ok(line)
}

#[test]
fn reads_operators(rt: HostRuntime) -> Result<(), Failed> {
    let table = [
        ("a", "1 of 1, none before 0"),
        ("-!a", "3 of 3, prefix before 1"),
        ("-a as A", "4 of 4, as before 6"),
        ("a * b as A", "5 of 5, binary before 4"),
        ("a + b * c", "5 of 5, binary before 4"),
        ("a * b + c", "5 of 5, binary before 8"),
        ("a - b - c", "5 of 5, binary before 8"),
        ("a..b + c", "5 of 5, binary before 3"),
        ("a f b..c", "5 of 5, infix before 4"),
        ("a ?: b f c", "5 of 5, binary before 5"),
        ("a f b ?: c", "5 of 5, binary before 9"),
        ("a !in b ?: c", "5 of 5, in before 6"),
        ("a in b is A", "5 of 5, is before 10"),
        ("a > b in c", "5 of 5, binary before 4"),
        ("a > b > c", "3 of 5, binary before 4"),
        ("a == b > c", "5 of 5, binary before 5"),
        ("a > b == c", "5 of 5, binary before 9"),
        ("a && b == c", "5 of 5, binary before 5"),
        ("a || b && c", "5 of 5, binary before 5"),
        ("a && b || c", "5 of 5, binary before 10"),
        ("a\n+ b", "1 of 3, none before 0"),
        ("a\n&& b", "3 of 3, binary before 5"),
        ("a +\nb", "3 of 3, binary before 4"),
        ("a f\nb", "fault 2"),
        ("a f", "fault 2"),
        ("a +", "fault 2"),
        ("a || -", "fault 3"),
        ("a in", "fault 2"),
        ("a is", "fault 2"),
        ("a >, b", "fault 2"),
        ("", "fault 0"),
    ];
    for (source, expected) in table {
        assert_eq!(rt;
            shown_expression(rt.alloc(), source)?.as_str(),
            expected,
            "of {source:?}"
        );
    }
    Ok(())
}
