//! Small files: how many imports and declarations each has, or why it is refused.
use crate::files::{ParseFault, parse_file};
use crate::type_tests::cut;
use kc_text::Fail;
use std::alloc::Global;
use std::process::Abort;
use std::test::Fail as Failed;

fn told(alloc: Global, source: &str) -> Result<String, Failed> {
    let tokens = cut(alloc, source)?;
    let line = match parse_file(alloc, tokens.as_slice()) {
        Ok(file) => format!(in alloc;
            "{} imports, {} declarations",
            file.imports.len(),
            file.decls.len()
        )?,
        Err(Fail::Found(ParseFault::Syntax(place))) => format!(in alloc; "fault {}", place)?,
        Err(Fail::Found(ParseFault::NestingTooDeep(deep))) => {
            format!(in alloc; "level {} at {}", deep.level, deep.at)?
        }
        Err(Fail::Memory) => format!(in alloc; "memory")?,
    };
    Ok(line)
}

#[test]
fn reads_files(rt: HostRuntime) -> Result<(), Failed> {
    let table = [
        ("", "0 imports, 0 declarations"),
        ("package a.b", "0 imports, 0 declarations"),
        (
            "package a\nimport b.c\nimport d.*",
            "2 imports, 0 declarations",
        ),
        (
            "fun main() { println(1 + 2 * 3) }",
            "0 imports, 1 declarations",
        ),
        (
            "fun a() = 1\nfun b() = 2; val c = 3",
            "0 imports, 3 declarations",
        ),
        ("fun a() = 1 fun b() = 2", "fault 6"),
        ("fun (", "fault 2"),
        ("fun main(", "fault 3"),
        ("fun main() { a b }", "fault 7"),
        ("val a", "fault 2"),
        ("abstract fun a()", "0 imports, 1 declarations"),
        ("abstract val a = 1", "fault 1"),
        (
            "class A(val a: Int, b: B<C> = d) : E(b), F { init { g() } }",
            "0 imports, 1 declarations",
        ),
        (
            "data class A<in T : B>(val a: T)",
            "0 imports, 1 declarations",
        ),
        (
            "enum class A(val a: Int) { B(1), C(2); fun d() = a }",
            "0 imports, 1 declarations",
        ),
        ("enum class A { B, C, }", "0 imports, 1 declarations"),
        (
            "interface A { fun b(): Int\nval c: Int get() = 1 }",
            "0 imports, 1 declarations",
        ),
        ("interface A { init { } }", "fault 3"),
        ("object A : B", "0 imports, 1 declarations"),
        ("fun A.b() = 1", "0 imports, 1 declarations"),
        ("fun A<B>?.c() { }", "0 imports, 1 declarations"),
        ("fun (A).b() { }", "0 imports, 1 declarations"),
        ("class A { fun B.c() { } }", "fault 5"),
        (
            "var a: Int get() = 1\nset(b) { }",
            "0 imports, 1 declarations",
        ),
        ("var a: Int get() = 1", "fault 9"),
        ("val a: Int get() { return 1 }", "0 imports, 1 declarations"),
        ("}", "fault 0"),
    ];
    for (source, expected) in table {
        assert_eq!(rt;
            told(rt.alloc(), source)?.as_str(),
            expected,
            "of {source:?}"
        );
    }
    Ok(())
}
