//! Files of the form, with the shapes of their programs, and files with a fault of scopes or types.

use crate::{elaborate, read_form};
use form_parser::read_source;
use kc_core::tree::{Core, Kind, Program};
use std::alloc::{AllocError, Global};
use std::test::Fail;

fn statement_shape(alloc: Global, node: &Core) -> Result<String, AllocError> {
    let start = node.span.start;
    let end = node.span.end;
    match &node.kind {
        Kind::Declare { local, .. } => format!(in alloc; "declare {local}@{start}:{end}"),
        Kind::LocalWrite { local, .. } => format!(in alloc; "write {local}@{start}:{end}"),
        Kind::CallNative { .. } => format!(in alloc; "print@{start}:{end}"),
        Kind::If { failed: None, .. } => format!(in alloc; "if@{start}:{end}"),
        Kind::If { .. } => format!(in alloc; "if else@{start}:{end}"),
        Kind::While { label, .. } => format!(in alloc; "while {label}@{start}:{end}"),
        _ => format!(in alloc; "?"),
    }
}

// How many locals `main` has, and its statements with their places.
fn shape(alloc: Global, program: &Program) -> Result<String, AllocError> {
    let mut text = String::new(alloc);
    for function in program.functions.as_slice() {
        let count = function.locals.len();
        text.push_str(format!(in alloc; "{count}")?.as_str())?;
        if let Kind::Block(parts) = &function.body.kind {
            for part in parts.as_slice() {
                text.push_str("; ")?;
                text.push_str(statement_shape(alloc, part)?.as_str())?;
            }
        }
    }
    Ok(text)
}

#[test]
fn shapes(rt: HostRuntime) -> Result<(), Fail> {
    for (text, want) in [
        ("fun main() { }", "0"),
        (
            "fun main() { var a = 1; a = 2; println(a) }",
            "1; declare 0@13:22; write 0@24:29; print@31:41",
        ),
        (
            "fun main() { if (true) { val a = 1 }; val a = true; println(a) }",
            "2; if@13:36; declare 1@38:50; print@52:62",
        ),
        (
            "fun main() { if (1 < 2) val a = 1 else val a = true; val a = 3 }",
            "3; if else@13:51; declare 2@53:62",
        ),
        (
            "fun main() { while (false) { while (false) { } }; while (1 != 2) { } }",
            "0; while 0@13:48; while 2@50:68",
        ),
    ] {
        let source = read_source(rt.alloc(), text.as_bytes())?;
        let program = elaborate(rt.alloc(), 0, text.as_bytes(), &source)?;
        assert_eq!(rt; shape(rt.alloc(), &program)?.as_str(), want);
    }
    Ok(())
}

#[test]
fn files_of_the_form(rt: HostRuntime) {
    for text in [
        "fun main() { val a = -2147483648; println(a * -1 / 2 % 3) }",
        "fun main() { var a = !true; a = a || 1 >= 2 && 3 != 4; println(a) }",
        "fun main() { var n = 3; while (n > 0) { println(n); n = n - 1 } }",
        "fun main() { val a = true; while (a) { val b = 1; println(b) }; val b = a; println(b) }",
        "fun main() { val a = 1; if (a == 1) { var b = a; b = b + 1 } else { val b = true; println(b) } }",
        "fun main() { if (true) if (false) println(1) else println(true) }",
        "fun main() { var a = 1; a = (a) * ((a)); println(-(a)) }",
        "fun main() { val a = true; if ((a)) println(!(a) || (a)) }",
    ] {
        assert!(rt; read_form(rt.alloc(), 0, text.as_bytes()).is_ok(), "{text}");
    }
}

#[test]
fn faults_of_scopes_and_types(rt: HostRuntime) {
    for text in [
        "fun main() { println(a) }",
        "fun main() { println(a); val a = 1 }",
        "fun main() { val a = a }",
        "fun main() { a = 1 }",
        "fun main() { val a = 1; val a = 2 }",
        "fun main() { val a = 1; if (true) { val a = 2 } }",
        "fun main() { val a = 1; while (true) val a = 2 }",
        "fun main() { if (true) { val a = 1 }; println(a) }",
        "fun main() { if (true) val a = 1 else println(a) }",
        "fun main() { while (true) val a = 1; println(a) }",
        "fun main() { val a = 1; a = 2 }",
        "fun main() { var a = 1; a = true }",
        "fun main() { var a = true; a = 1 }",
        "fun main() { if (1) println(1) }",
        "fun main() { while (1) println(1) }",
        "fun main() { val a = 1 + true }",
        "fun main() { val a = true * 1 }",
        "fun main() { val a = -true }",
        "fun main() { val a = !1 }",
        "fun main() { val a = true < false }",
        "fun main() { val a = true == true }",
        "fun main() { val a = 1 != false }",
        "fun main() { val a = 1 && true }",
        "fun main() { val a = true || 1 }",
    ] {
        assert!(rt;
            read_form(rt.alloc(), 0, text.as_bytes()).is_err(),
            "{text}"
        );
    }
}
