//! Functions, their parameters and bodies (Kotlin Language Specification 1.9, "Function declaration").

use crate::readings::compare;
use std::test::Fail as Failed;

#[test]
fn reads_functions(rt: HostRuntime) -> Result<(), Failed> {
    let table = r#"
fun f() => (fun f())
fun f() {} => (fun f() [])
fun f() { a; b } => (fun f() [a; b])
fun f() = a => (fun f() = a)
fun f(): A => (fun f(): A)
fun f(): A { a } => (fun f(): A [a])
fun f(): A? = a => (fun f(): A? = a)
fun f(): (A) -> B = { a } => (fun f(): ((A) -> B) = {a})
fun f() = if (a) b else c => (fun f() = (if a b c))
fun¶f¶()¶:¶A¶=¶a => (fun f(): A = a)
fun f()¶{¶a¶b¶} => (fun f() [a; b])
fun f() {¶return¶a¶} => (fun f() [(return); a])
fun f(a: A) => (fun f(a: A))
fun f(a: A, b: B<C>, c: (D) -> E?,) => (fun f(a: A, b: B<C>, c: ((D) -> E?)))
fun f(a: A = 1, b: B = c { d }) {} => (fun f(a: A = 1, b: B = (call c trailing {d})) [])
fun f(¶a¶:¶A¶=¶b¶+ c¶,¶) => (fun f(a: A = (+ b c)))
fun f(vararg a: A) => (fun f(vararg a: A))
fun f(noinline a: A, crossinline b: B, in c: C, out d: D) => (fun f(noinline a: A, crossinline b: B, in c: C, out d: D))
fun f(vararg noinline a: A) => (fun f(vararg noinline a: A))
fun f(vararg: A, out: B) => (fun f(vararg: A, out: B))
fun f(vararg vararg: A) => (fun f(vararg vararg: A))
fun f(out in a: A) => (fun f(out in a: A))
fun get() = set => (fun get() = set)
fun main() { println("a") } => (fun main() [(call println (string "a"))])
fun f() = { a -> b } => (fun f() = {a -> b})
fun f() { a -> b } => fault 6
"#;
    compare(&rt, rt.alloc(), table)
}

#[test]
fn refuses_functions(rt: HostRuntime) -> Result<(), Failed> {
    let table = r"
fun => fault 1
fun 1() => fault 1
fun class() => fault 1
fun { } => fault 1
fun f => fault 2
fun f {} => fault 2
fun f = a => fault 2
fun f( => fault 3
fun f() { => fault 5
fun f() {} {} => fault 6
fun f() {} = a => fault 6
fun f() = => fault 5
fun f() = a = b => fault 6
fun f() = val a = b => fault 5
fun f(): => fault 5
fun f(): = a => fault 5
fun f(): A: B => fault 6
fun f(): A B => fault 6
fun f() : A { a => fault 8
fun f()() => fault 4
fun f[] => fault 2
fun f(,) => fault 3
fun f(a) => fault 4
fun f(a = 1) => fault 4
fun f(a: ) => fault 5
fun f(a: A => fault 6
fun f(a: A, => fault 7
fun f(a: A,,) => fault 7
fun f(a: A b: B) => fault 6
fun f(a: A; b: B) => fault 6
fun f(a: A = ) => fault 7
fun f(a: A = 1 = 2) => fault 8
fun f(a: A<B>= 1) => fault 8
fun f(a b: A) => fault 4
fun f(val a: A) => fault 3
fun f(*a: A) => fault 3
fun f(1: A) => fault 3
fun f(vararg) => fault 4
fun f(vararg => fault 4
fun f(vararg val a: A) => fault 4
fun f(in: A) => fault 4
fun f(in) => fault 4
fun f(a: A, in) => fault 8
fun f(a: A, b) => fault 8
fun f() where a => fault 4
";
    compare(&rt, rt.alloc(), table)
}
