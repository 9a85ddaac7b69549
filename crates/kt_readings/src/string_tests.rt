//! Strings with names and expressions in them (Kotlin Language Specification 1.9, "String interpolation expressions").

use crate::readings::{Goal, compare};
use std::test::Fail as Failed;

#[test]
fn reads_strings(rt: HostRuntime) -> Result<(), Failed> {
    let table = r#"
"" => (string)
"ab" => (string "ab")
"a$b c" => (string "a" $b " c")
"$a$b" => (string $a $b)
"$a.b" => (string $a ".b")
"${a + b}" => (string ${(+ a b)})
"a${"b${c}"}d" => (string "a" ${(string "b" ${c})} "d")
"${f(a) { b }}" => (string ${(call f a trailing {b})})
"${{ a }}" => (string ${{a}})
"${if (a) b else "c"}" => (string ${(if a b (string "c"))})
"${¶a¶}" => (string ${a})
"\u0041$$a" => (string "A$" $a)
"a" + "b" => (+ (string "a") (string "b"))
"a"[0] => (index (string "a") 0)
"a" to "b" => (infix to (string "a") (string "b"))
f "a" => f, 1 of 4
"#;
    compare(&rt, rt.alloc(), Goal::Expression, table)
}

#[test]
fn refuses_strings(rt: HostRuntime) -> Result<(), Failed> {
    let table = r#"
"${}" => fault 2
"a${}b" => fault 3
"${a b}" => fault 4
"${a; b}" => fault 3
"${a = b}" => fault 3
"${val x = 1}" => fault 2
"${a¶+ b}" => fault 3
"${a)}" => fault 3
"#;
    compare(&rt, rt.alloc(), Goal::Expression, table)
}
