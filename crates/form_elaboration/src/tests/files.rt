//! Files that are of the form, with the shapes of their programs, and files that are not.

use crate::read_form;
use kc_core::tree::{BinaryOp, Core, Kind, Program};
use std::alloc::{AllocError, Global};
use std::test::Fail;

fn sign(op: BinaryOp) -> &'static str {
    match op {
        BinaryOp::Plus => "+",
        BinaryOp::Minus => "-",
        BinaryOp::Times => "*",
        BinaryOp::Div => "/",
        BinaryOp::Rem => "%",
    }
}

/// A sum with all its brackets, and its places.
fn sum_shape(alloc: Global, sum: &Core) -> Result<String, AllocError> {
    let start = sum.span.start;
    let end = sum.span.end;
    match &sum.kind {
        Kind::IntLit(n) => format!(in alloc; "{n}@{start}:{end}"),
        Kind::LocalRead(x) => format!(in alloc; "#{x}@{start}:{end}"),
        Kind::NumUnary { op: _, value } => {
            let inner = sum_shape(alloc, value.get())?;
            format!(in alloc; "(-{inner})@{start}:{end}")
        }
        Kind::NumBinary { op, left, right } => {
            let first = sum_shape(alloc, left.get())?;
            let second = sum_shape(alloc, right.get())?;
            let middle = sign(*op);
            format!(in alloc; "({first}{middle}{second})@{start}:{end}")
        }
        _ => format!(in alloc; "?"),
    }
}

fn statement_shape(alloc: Global, statement: &Core) -> Result<String, AllocError> {
    let start = statement.span.start;
    let end = statement.span.end;
    match &statement.kind {
        Kind::Declare {
            local,
            value: Some(value),
        } => {
            let inner = sum_shape(alloc, value.get())?;
            format!(in alloc; "val {local} = {inner}@{start}:{end}")
        }
        Kind::CallNative { native: _, values } => match values.as_slice() {
            [line] => match &line.kind {
                Kind::Concat(parts) => match parts.as_slice() {
                    [value, _] => {
                        let inner = sum_shape(alloc, value)?;
                        format!(in alloc; "println({inner})@{start}:{end}")
                    }
                    _ => format!(in alloc; "?"),
                },
                _ => format!(in alloc; "?"),
            },
            _ => format!(in alloc; "?"),
        },
        _ => format!(in alloc; "?"),
    }
}

fn shape(alloc: Global, program: &Program) -> Result<String, AllocError> {
    let mut text = String::new(alloc);
    for function in program.functions.as_slice() {
        let count = function.locals.len();
        let start = function.span.start;
        let end = function.span.end;
        text.push_str(format!(in alloc; "{count}@{start}:{end}")?.as_str())?;
        if let Kind::Block(parts) = &function.body.kind {
            for part in parts.as_slice() {
                text.push_str("; ")?;
                text.push_str(statement_shape(alloc, part)?.as_str())?;
            }
        }
    }
    Ok(text)
}

#[test]
fn shapes(rt: HostRuntime) -> Result<(), Fail> {
    for (text, want) in [
        ("fun main() { }", "0@4:8"),
        (
            "fun main() { println(1 + 2 * 3) }",
            "0@4:8; println((1@21:22+(2@25:26*3@29:30)@25:30)@21:30)@13:31",
        ),
        (
            "fun main() {\nprintln(1-2-(3\n+4))}",
            "0@4:8; println(((1@21:22-2@23:24)@21:24-(3@26:27+4@29:30)@25:31)@21:31)@13:32",
        ),
        (
            "fun main() {\nval a = -2147483648\nval get = - -a %1\r}",
            "2@4:8; val 0 = -2147483648@21:32@13:32; val 1 = ((-(-#0@46:47)@45:47)@43:47%1@49:50)@43:50@33:50",
        ),
    ] {
        let program = read_form(rt.alloc(), 0, text.as_bytes())?;
        assert_eq!(rt; shape(rt.alloc(), &program)?.as_str(), want);
    }
    Ok(())
}

#[test]
fn files_of_the_form(rt: HostRuntime) {
    for text in [
        "fun main(){}",
        "fun main() {\nval a = -2147483648\nval b = -1\nprintln(a / b)\nval z = 0\nprintln(1 / z)\n}",
        "fun\nmain\n(\n)\n{\n}\n",
        "fun main() { val x\n=\n1\r\nprintln(x) }",
        "fun main() { println(1\n+ 2) }",
        "fun main() { val x = (1\n+ 2)\n}",
        "fun main() { val x = 1 +\n2 }",
        "fun main() { val x = - -1 }",
        "fun main() { val x = -\n2147483648 }",
        "fun main() { val x = - - 2147483648 }",
        "fun main() { val x = 2147483647 }",
        "fun main() { val x = 0 }",
        "\t fun\x0cmain() {println(1)\rprintln(2)}",
        "fun main() { val funny = 1\n println(funny%2*(3)-funny) }",
        "fun main() { val _x1 = 1\n val x_1 = _x1 }",
        "fun main() { val x = 1; println(x) }",
        "fun main() { val x = 1 < 2 }",
    ] {
        assert!(rt; read_form(rt.alloc(), 0, text.as_bytes()).is_ok(), "{text}");
    }
}

#[test]
fn files_of_another_form(rt: HostRuntime) {
    for text in [
        "",
        "fun main() { println(x) }",
        "fun main() { val x = x }",
        "fun main() { val x = 1\n val x = 2 }",
        "fun main() { println(x)\n val x = 1 }",
        "fun main() { val x = 1 println(x) }",
        "fun main() { println\n(1) }",
        "fun main() { println(1)\n+ 2 }",
        "fun main() { println(1) + 2 }",
        "fun main() { val x = 1\n- 2 }",
        "fun main() { val x = (1)\n- 2 }",
        "fun main() { val x = 1--1 }",
        "fun main() { val x = --1 }",
        "fun main() { val x = 1 += 1 }",
        "fun main() { val x == 1 }",
        "fun main() { val x = 1 -> 2 }",
        "fun main() { val x = 2147483648 }",
        "fun main() { val x = -2147483649 }",
        "fun main() { val x = -(2147483648) }",
        "fun main() { val x = 1 - 2147483648 }",
        "fun main() { val x = 99999999999999999999999999 }",
        "fun main() { val x = 01 }",
        "fun main() { val x = 00 }",
        "fun main() { val x = 1L }",
        "fun main() { val x = 1_0 }",
        "fun main() { val x = 0x1 }",
        "fun main() { val x = 1a }",
        "fun main() { val val = 1 }",
        "fun main() { val main = 1 }",
        "fun main() { val println = 1 }",
        "fun main() { val while = 1 }",
        "fun main() { val typeof = 1 }",
        "fun main() { val x = +1 }",
        "fun main() { val x = () }",
        "fun main() { val x = (1 }",
        "fun main() { val x = 1) }",
        "fun main() { println() }",
        "fun main() { println(1) } }",
        "fun main() { println(1)",
        "fun main() println(1)",
        "fun main { }",
        "fun man() { }",
        "fun main() { } // end",
        "fun main() { /* */ }",
        "fun main() { println(\"a\") }",
        "fun main() { println('a') }",
        "fun main() { val é = 1 }",
        "fun main() { val x = 1 < 2 < 3 }",
        "fun main() { 1 }",
        "funmain() { }",
        "fun main() { valx = 1 }",
    ] {
        assert!(rt;
            read_form(rt.alloc(), 0, text.as_bytes()).is_err(),
            "{text}"
        );
    }
}

#[test]
fn at_most_256_bytes(rt: HostRuntime) -> Result<(), Fail> {
    let mut text = String::from_str(rt.alloc(), "fun main() { }")?;
    for _ in 0..242 {
        text.push_str(" ")?;
    }
    assert!(rt; read_form(rt.alloc(), 0, text.as_bytes()).is_ok());
    text.push_str(" ")?;
    assert!(rt; read_form(rt.alloc(), 0, text.as_bytes()).is_err());
    Ok(())
}
