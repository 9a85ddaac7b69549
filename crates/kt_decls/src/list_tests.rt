//! Lists of expressions in small texts, over a function that reads names alone.
ghost use Rattle.std.specs.Prelude.{◌≡◌, ◌≤◌, not, length, drop};
ghost use Rattle.grammars.specs.Grammar.{row, first, test};
ghost use Rattle.kt_lexer.specs.declared.token.Operator.TheVariants as operators;
ghost use Rattle.kt_grammar.specs.Built as built;
ghost use Rattle.kt_grammar.specs.Parsed.{Advances};
ghost use Rattle.kt_grammar.specs.Rows as rows;
ghost use Rattle.kt_grammar.specs.Tokens.{is_op};

use crate::type_tests::cut;
use kc_text::Fail;
use kc_tree::{Arg, Expr, ExprKind};
use kt_grammar::*;
use kt_lexer::{Operator, Token};
use sqlite_items::Items;
use std::alloc::Global;
use std::process::Abort;
use std::test::Fail as Failed;

/// Whether a token stands at the place that is no comma.
pub fn goes_on(tokens: &[Token], at: usize) -> bool
    ensures { result ≡ test (λ t. not (is_op operators.Comma t)) (first (drop at tokens.now)) }
{
    match tokens.get(at) {
        Some(token) => class(&token.kind) != operator_class(Operator::Comma),
        None => false,
    }
}

/// A name before a comma or at the end of the tokens. All else is refused as if memory were wanting, but where a comma or the end stands.
fn lone_name(_alloc: Global, tokens: &[Token], at: Cursor) -> Result<(Expr, Cursor), Fail<usize>>
    requires { at.at ≤ length tokens.now }
    ensures { Advances (row rows.expression) built.expression_of tokens.now at result }
{
    if !goes_on(tokens, at.at) {
        return Err(at.fault());
    }
    let Some(word) = word_at(tokens, at.at) else {
        return Err(Fail::Memory);
    };
    let next = at.at + 1;
    if goes_on(tokens, next) {
        return Err(Fail::Memory);
    }
    let value = Expr {
        span: word.span,
        kind: ExprKind::Name(word.name),
    };
    Ok((value, at.to(next)))
}

/// What stands before the value of the first argument.
fn before_first(all: &[Arg]) -> &'static str {
    match all {
        [] => "nothing",
        [first, ..] => match (first.name.is_some(), first.spread) {
            (true, true) => "name and star",
            (true, false) => "name",
            (false, true) => "star",
            (false, false) => "value",
        },
    }
}

/// How many arguments there are, where they end, and what the first begins with; or the fault's place.
fn shown_arguments(alloc: Global, source: &str) -> Result<String, Failed> {
    let found = cut(alloc, source)?;
    let operands = Operands {
        alloc,
        tokens: found.as_slice(),
        from: 0,
        expression: lone_name,
    };
    let start = Cursor { at: 0, looked: 0 };
    let line = match operands.arguments(Items::new(alloc), start) {
        Ok((all, end)) => {
            format!(in alloc;
                "{} to {}, {}",
                all.len(),
                end.at,
                before_first(all.as_slice())
            )?
        }
        Err(Fail::Found(place)) => format!(in alloc; "fault {}", place)?,
        Err(Fail::Memory) => format!(in alloc; "memory")?,
    };
    Ok(line)
}

/// How many expressions there are, and where they end; or the fault's place.
fn shown_expressions(alloc: Global, source: &str) -> Result<String, Failed> {
    let found = cut(alloc, source)?;
    let operands = Operands {
        alloc,
        tokens: found.as_slice(),
        from: 0,
        expression: lone_name,
    };
    let start = Cursor { at: 0, looked: 0 };
    let line = match operands.expressions(Items::new(alloc), start) {
        Ok((all, end)) => format!(in alloc; "{} to {}", all.len(), end.at)?,
        Err(Fail::Found(place)) => format!(in alloc; "fault {}", place)?,
        Err(Fail::Memory) => format!(in alloc; "memory")?,
    };
    Ok(line)
}

#[test]
fn reads_arguments(rt: HostRuntime) -> Result<(), Failed> {
    let table = [
        ("", "0 to 0, nothing"),
        (",", "0 to 0, nothing"),
        ("a", "1 to 1, value"),
        ("a, b, c", "3 to 5, value"),
        ("a, b,", "2 to 4, value"),
        ("n = a", "1 to 3, name"),
        ("*a, n = b", "2 to 6, star"),
        ("n = *a,", "1 to 5, name and star"),
        ("n =", "fault 2"),
        ("n = , a", "fault 2"),
        ("a, *", "fault 3"),
        ("n b", "memory"),
    ];
    for (source, expected) in table {
        assert_eq!(rt;
            shown_arguments(rt.alloc(), source)?.as_str(),
            expected,
            "of {source:?}"
        );
    }
    Ok(())
}

#[test]
fn reads_expressions(rt: HostRuntime) -> Result<(), Failed> {
    let table = [
        ("", "0 to 0"),
        ("*a", "0 to 0"),
        ("a", "1 to 1"),
        ("a, b, c", "3 to 5"),
        ("a,", "1 to 2"),
        ("a, *b", "1 to 2"),
    ];
    for (source, expected) in table {
        assert_eq!(rt;
            shown_expressions(rt.alloc(), source)?.as_str(),
            expected,
            "of {source:?}"
        );
    }
    Ok(())
}
