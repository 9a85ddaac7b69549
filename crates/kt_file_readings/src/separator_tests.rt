//! What stands between declarations (Kotlin Language Specification 1.9, "Syntax grammar").

use crate::readings::compare;
use std::test::Fail as Failed;

#[test]
fn separates_declarations(rt: HostRuntime) -> Result<(), Failed> {
    let table = r"
fun f() {}¶fun g() {} => (fun f() []) (fun g() [])
fun f() {}; fun g() {} => (fun f() []) (fun g() [])
fun f() {};;; fun g() {};; => (fun f() []) (fun g() [])
fun f() {}¶;¶;fun g() {} => (fun f() []) (fun g() [])
fun f() {}; => (fun f() [])
fun f()¶fun g() => (fun f()) (fun g())
fun f(); val a = 1; class A; interface B; object C => (fun f()) (val a = 1) (class A) (interface B) (object C)
val a = 1¶¶var b = 2¶// c¶val d = 3 => (val a = 1) (var b = 2) (val d = 3)
val a = 1 /* b¶c */ val d = 2 => fault 4
val a = b¶private fun f() => (val a = b) (private fun f())
val a = b private c => (val a = (infix private b c))
val a = 1¶in val b = 2 => (val a = 1) (in val b = 2)
class A¶class B¶{}¶class C => (class A) (class B) (class C)
object A {}; interface B {}¶object C => (object A) (interface B) (object C)
val a = b¶.c¶val d = e => (val a = (. b c)) (val d = e)
val a = {¶b¶}¶val c = d => (val a = {b}) (val c = d)
";
    compare(&rt, rt.alloc(), table)
}

#[test]
fn refuses_what_stands_between(rt: HostRuntime) -> Result<(), Failed> {
    let table = r"
; => fault 0
; fun f() => fault 0
a => fault 0
1 => fault 0
{} => fault 0
} => fault 0
typealias A = B => fault 0
fun f() {} fun g() {} => fault 6
fun f() fun g() => fault 4
fun f() {} a => fault 6
fun f()¶a => fault 4
fun f(); 1 => fault 5
fun f() = 1 } => fault 6
fun f() = 1¶} => fault 6
fun f() = 1; } => fault 7
fun f(); = 1 => fault 5
fun f()¶¶package a => fault 4
val a = 1 val b = 2 => fault 4
val a = b fun f() => fault 4
val a = b private fun f() => fault 5
val a = 1 in val b = 2 => fault 5
val a = b¶+ c => fault 4
val a = b¶(c) => fault 4
val a = b¶{ c } => fault 4
val a = b¶f c => fault 4
class A class B => fault 2
class A {} class B {} => fault 4
interface A interface B => fault 2
object A object B => fault 2
class A, class B => fault 2
";
    compare(&rt, rt.alloc(), table)
}
