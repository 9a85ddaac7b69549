//! Texts of the form, with the shapes of their trees, and texts that are not of the form.

use form_parser::read_source;
use form_parser::surface::{Expression, ExpressionKind, Source, Statement};
use kc_core::tree::{BinaryOp, Order};
use std::alloc::{AllocError, Global};
use std::test::Fail;

fn binary_sign(op: BinaryOp) -> &'static str {
    match op {
        BinaryOp::Plus => "+",
        BinaryOp::Minus => "-",
        BinaryOp::Times => "*",
        BinaryOp::Div => "/",
        BinaryOp::Rem => "%",
    }
}

fn order_sign(order: Order) -> &'static str {
    match order {
        Order::Less => "<",
        Order::LessEqual => "<=",
        Order::Greater => ">",
        Order::GreaterEqual => ">=",
    }
}

fn equality_sign(equal: bool) -> &'static str {
    match equal {
        true => "==",
        false => "!=",
    }
}

/// An expression with all its brackets; a name by its place.
fn expression_shape(alloc: Global, expression: &Expression) -> Result<String, AllocError> {
    let (sign, left, right) = match &expression.kind {
        ExpressionKind::Number(n) => return format!(in alloc; "{n}"),
        ExpressionKind::Truth(held) => return format!(in alloc; "{held}"),
        ExpressionKind::Name(word) => {
            let start = word.start;
            let end = word.end;
            return format!(in alloc; "{start}:{end}");
        }
        ExpressionKind::Negation(value) => {
            let inner = expression_shape(alloc, value.get())?;
            return format!(in alloc; "(-{inner})");
        }
        ExpressionKind::Not(value) => {
            let inner = expression_shape(alloc, value.get())?;
            return format!(in alloc; "(!{inner})");
        }
        ExpressionKind::Binary { op, left, right } => (binary_sign(*op), left, right),
        ExpressionKind::Compare { order, left, right } => (order_sign(*order), left, right),
        ExpressionKind::Equality { equal, left, right } => (equality_sign(*equal), left, right),
        ExpressionKind::And { left, right } => ("&&", left, right),
        ExpressionKind::Or { left, right } => ("||", left, right),
    };
    let first = expression_shape(alloc, left.get())?;
    let second = expression_shape(alloc, right.get())?;
    format!(in alloc; "({first}{sign}{second})")
}

/// The expression that a file of one `println` prints.
fn printed(alloc: Global, source: &Source) -> Result<String, AllocError> {
    match source.statements.as_slice() {
        [Statement::Print { value, .. }] => expression_shape(alloc, value),
        _ => format!(in alloc; "?"),
    }
}

/// Whether an `if` has an `else`; nothing for another statement.
fn has_else(statement: &Statement) -> Option<bool> {
    match statement {
        Statement::If { failed, .. } => Some(failed.is_some()),
        _ => None,
    }
}

/// Whether the one statement of a file has an `else`, and the one within it.
fn elses(source: &Source) -> (Option<bool>, Option<bool>) {
    match source.statements.as_slice() {
        [outer] => match outer {
            Statement::If { held, .. } => match held.statements.as_slice() {
                [inner] => (has_else(outer), has_else(inner)),
                _ => (has_else(outer), None),
            },
            _ => (None, None),
        },
        _ => (None, None),
    }
}

#[test]
fn shapes(rt: HostRuntime) -> Result<(), Fail> {
    for (text, want) in [
        ("fun main() { println(1 + 2 * 3 - 4) }", "((1+(2*3))-4)"),
        (
            "fun main() { println(a || b && c || d) }",
            "((21:22||(26:27&&31:32))||36:37)",
        ),
        (
            "fun main() { println(1 + 2 < 3 * 4 == true) }",
            "(((1+2)<(3*4))==true)",
        ),
        (
            "fun main() { println(1 == 2 != false && 3 >= 4) }",
            "(((1==2)!=false)&&(3>=4))",
        ),
        (
            "fun main() { println(!(1 <= 2) || -3 > -2147483648) }",
            "((!(1<=2))||((-3)>-2147483648))",
        ),
        ("fun main() { println(- - 5 % 2 / 1) }", "(((-(-5))%2)/1)"),
    ] {
        let source = read_source(rt.alloc(), text.as_bytes())?;
        assert_eq!(rt; printed(rt.alloc(), &source)?.as_str(), want);
    }
    Ok(())
}

#[test]
fn an_else_belongs_to_the_nearest_if(rt: HostRuntime) -> Result<(), Fail> {
    for (text, want) in [
        (
            "fun main() { if (a) if (b) x = 1 else x = 2 }",
            (Some(false), Some(true)),
        ),
        (
            "fun main() { if (a) if (b) x = 1; else x = 2 }",
            (Some(false), Some(true)),
        ),
        (
            "fun main() { if (a) { if (b) x = 1 } else x = 2 }",
            (Some(true), Some(false)),
        ),
        (
            "fun main() { if (a) while (b) x = 1 else x = 2 }",
            (Some(true), None),
        ),
        (
            "fun main() { if (a) if (b) x = 1 else x = 2; else x = 3 }",
            (Some(true), Some(true)),
        ),
    ] {
        let source = read_source(rt.alloc(), text.as_bytes())?;
        assert!(rt; elses(&source) == want, "{text}");
    }
    Ok(())
}

#[test]
fn texts_of_the_form(rt: HostRuntime) {
    for text in [
        "fun main(){}",
        "fun\nmain\n(\n)\n{\n}\n",
        "fun main() { val x\n=\n1\r\nprintln(x) }",
        "fun main() { val x = -\n2147483648 }",
        "fun main() { val x = - - 2147483648 }",
        "fun main() { val x = !-2147483648 }",
        "fun main() { var x = 2147483647; x = 0 }",
        "fun main() { var x = 1; println(x) }",
        "fun main() { var x = 1;;\n; x = 2;; }",
        "fun main() { var x = 1\n;println(x) }",
        "fun main() { val x = true }",
        "fun main() { val x = false || !true && !false }",
        "fun main() { val x = false || ! ! false }",
        "fun main() { val x = 1 < 2 == true != 3 >= 4 }",
        "fun main() { val x = (1 < 2) <= (3 > 4) }",
        "fun main() { val x = true\n&& false\n|| true }",
        "fun main() { val x = 1 +\n2 }",
        "fun main() { val x = (1\n+ 2\n< 3\n== true) }",
        "fun main() { println(1\n- 2) }",
        "fun main() { if (a\n< b) x = 1 }",
        "fun main() { if\n(a)\nx = 1\nelse\nx = 2 }",
        "fun main() { if (a) x = 1 else x = 2 }",
        "fun main() { if (a) x = 1; else x = 2 }",
        "fun main() { if (a) x = 1\n; else x = 2 }",
        "fun main() { if (a) x = 1; x = 2 }",
        "fun main() { if (a) { x = 1; } else { } }",
        "fun main() { if (a) {}; else {} }",
        "fun main() { if (a) if (b) x = 1 else x = 2 else x = 3 }",
        "fun main() { if (a) if (b) x = 1; else x = 2; else x = 3 }",
        "fun main() { if (a) val x = 1 }",
        "fun main() { if (a) while (b) x = 1 else x = 2 }",
        "fun main() { while (true) println(1) }",
        "fun main() { while\n(a)\n{\nval b = 1\nprintln(b)\n} }",
        "fun main() { while (a) { if (b) x = 1\n}\nprintln(x) }",
        "fun main() { val funny = 1; val iffy = 2; val elsewhere = 3 }",
        "\t fun\x0cmain() {println(1)\rprintln(2)}",
    ] {
        assert!(rt; read_source(rt.alloc(), text.as_bytes()).is_ok(), "{text}");
    }
}

#[test]
fn texts_of_another_form(rt: HostRuntime) {
    for text in [
        "",
        "fun main() { val x = 1 println(x) }",
        "fun main() { if (a) { } x = 1 }",
        "fun main() { if (a) x = 1 x = 2 }",
        "fun main() { ; }",
        "fun main() { ; x = 1 }",
        "fun main() { } ;",
        "fun main() { while (a) { ; } }",
        "fun main() { println\n(1) }",
        "fun main() { println(1)\n+ 2 }",
        "fun main() { val x = 1\n- 2 }",
        "fun main() { val x = (1)\n- 2 }",
        "fun main() { val x = 1\n< 2 }",
        "fun main() { val x = 1\n== 2 }",
        "fun main() { x\n= 1 }",
        "fun main() { val x = 1 < 2 < 3 }",
        "fun main() { val x = 1 < 2 > (3) }",
        "fun main() { val x = 1 === 1 }",
        "fun main() { val x = 1 !== 1 }",
        "fun main() { val x = !!true }",
        "fun main() { val x = a & b }",
        "fun main() { val x = a | b }",
        "fun main() { val x = 1--1 }",
        "fun main() { x += 1 }",
        "fun main() { x++ }",
        "fun main() { val x = 1 -> 2 }",
        "fun main() { val x = +1 }",
        "fun main() { val x = a !in b }",
        "fun main() { val x = 2147483648 }",
        "fun main() { val x = !2147483648 }",
        "fun main() { val x = 1 - 2147483648 }",
        "fun main() { val x = 01 }",
        "fun main() { val x = 1L }",
        "fun main() { val if = 1 }",
        "fun main() { val true = 1 }",
        "fun main() { val when = 1 }",
        "fun main() { main = 1 }",
        "fun main() { println = 1 }",
        "fun main() { true = 1 }",
        "fun main() { var x }",
        "fun main() { x == 1 }",
        "fun main() { (x) = 1 }",
        "fun main() { x }",
        "fun main() { { x = 1 } }",
        "fun main() { if a x = 1 }",
        "fun main() { if (a) }",
        "fun main() { if (a) else x = 1 }",
        "fun main() { if (a) ; else x = 1 }",
        "fun main() { if (a) x = 1 else }",
        "fun main() { if (a) x = 1;; else x = 2 }",
        "fun main() { if (a) x = 1 else x = 2 else x = 3 }",
        "fun main() { else x = 1 }",
        "fun main() { val x = if (a) 1 else 2 }",
        "fun main() { while (a) }",
        "fun main() { while (a) ; }",
        "fun main() { while (a) x = 1 else x = 2 }",
        "fun main() { do { } while (a) }",
        "fun main() { println(1) } }",
        "fun main() { println(1)",
        "fun main() { if (a) { x = 1 }",
        "fun main() println(1)",
        "fun main() { } // end",
        "fun main() { val \u{e9} = 1 }",
    ] {
        assert!(rt; read_source(rt.alloc(), text.as_bytes()).is_err(), "{text}");
    }
}

#[test]
fn at_most_256_bytes(rt: HostRuntime) -> Result<(), Fail> {
    let mut text = String::from_str(rt.alloc(), "fun main() { }")?;
    for _ in 0..242 {
        text.push_str(" ")?;
    }
    assert!(rt; read_source(rt.alloc(), text.as_bytes()).is_ok());
    text.push_str(" ")?;
    assert!(rt; read_source(rt.alloc(), text.as_bytes()).is_err());
    Ok(())
}
