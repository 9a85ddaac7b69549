//! Enum classes (Kotlin Language Specification 1.9, "Enum class declaration").

use crate::readings::compare;
use std::test::Fail as Failed;

#[test]
fn reads_enums(rt: HostRuntime) -> Result<(), Failed> {
    let table = r"
enum class A => (enum class A)
enum class A {} => (enum class A)
enum class A { B } => (enum class A {B})
enum class A { B, C } => (enum class A {B, C})
enum class A { B, C, } => (enum class A {B, C})
enum class A {¶B¶,¶C¶} => (enum class A {B, C})
enum class A { B; } => (enum class A {B})
enum class A { B, ; } => (enum class A {B})
enum class A { ; } => (enum class A)
enum class A { ; fun b() } => (enum class A (fun b()))
enum class A { B, C; fun d(); init {} } => (enum class A {B, C} (fun d()) (init []))
enum class A { B,¶;¶val c = 1;; } => (enum class A {B} (val c = 1))
enum class A { B() } => (enum class A {(B)})
enum class A { B¶(1) } => (enum class A {(B 1)})
enum class A(val a: A) { B(1), C(a = 2, *d,); fun d() = a } => (enum class A(val a: A) {(B 1), (C a=2 *d)} (fun d() = a))
enum class A : B { C; override fun d() {} } => (enum class A : B {C} (override fun d() []))
enum class A { init } => (enum class A {init})
enum class A { open, data(1), enum, get } => (enum class A {open, (data 1), enum, get})
class enum {} => (class enum)
enum class enum { enum } => (enum class enum {enum})
private enum class A { B } => (private enum class A {B})
enum private class A { B } => (enum private class A {B})
enum abstract class A { B; abstract fun c() } => (enum abstract class A {B} (abstract fun c()))
abstract open enum class A { B } => (abstract open enum class A {B})
enum enum class A { B } => (enum enum class A {B})
enum object A { val b } => (enum object A (val b))
enum interface A { fun b() } => (enum interface A (fun b()))
enum fun f() {} => (enum fun f() [])
enum val a = 1 => (enum val a = 1)
enum class A<T>(a: T) { B(c) } => (enum class A<T>(a: T) {(B c)})
enum class A constructor(a: A) { B(c) } => (enum class A(a: A) {(B c)})
abstract enum interface A => (abstract enum interface A)
enum abstract object A => (enum abstract object A)
abstract enum abstract enum private class A { B } => (abstract enum abstract enum private class A {B})
enum abstract fun f() => (enum abstract fun f())
";
    compare(&rt, rt.alloc(), table)
}

#[test]
fn refuses_enums(rt: HostRuntime) -> Result<(), Failed> {
    let table = r"
enum => fault 1
enum A => fault 1
enum A { B } => fault 1
enum class => fault 2
enum class A { => fault 4
enum class A { B => fault 5
enum class A { B, => fault 6
enum class A { B; => fault 6
enum class A { B C } => fault 5
enum class A { B¶C } => fault 5
enum class A { B; C } => fault 6
enum class A { , } => fault 4
enum class A { B, , C } => fault 6
enum class A { 1 } => fault 4
enum class A { B.C } => fault 5
enum class A { B = 1 } => fault 5
enum class A { B {} } => fault 5
enum class A { B(1) C(2) } => fault 8
enum class A { B(1) {} } => fault 8
enum class A { B(1)(2) } => fault 8
enum class A { B(,) } => fault 6
enum class A { B( => fault 6
enum class A { fun b() } => fault 4
enum class A { val b } => fault 4
enum class A { init {} } => fault 5
enum class A { open fun b() } => fault 5
enum class A { B fun c() } => fault 5
enum class A { B, fun c() } => fault 6
enum class A { B;; } => fault 6
enum class A { B; fun c() {} D } => fault 12
enum class A { B; fun c(), D } => fault 10
enum class A { B } { C } => fault 6
class A { B } => fault 3
class A { B; } => fault 3
enum interface A { B } => fault 4
enum object A { B } => fault 4
enum class A constructor { B } => fault 4
enum class A(a: A { B } => fault 7
enum class A< => fault 4
enum class A { B } class C => fault 6
enum abstract val a = 1 => fault 2
abstract enum 1 => fault 2
";
    compare(&rt, rt.alloc(), table)
}
