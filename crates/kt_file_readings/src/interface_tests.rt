//! Interfaces and objects (Kotlin Language Specification 1.9, "Interface declaration" and "Object declaration").

use crate::readings::compare;
use std::test::Fail as Failed;

#[test]
fn reads_interfaces(rt: HostRuntime) -> Result<(), Failed> {
    let table = r"
interface A => (interface A)
interface A {} => (interface A)
interface¶A¶{¶} => (interface A)
interface A<out T> : B, C<T> { fun d(): T; val e: T } => (interface A<out T> : B, C<T> (fun d(): T) (val e: T))
interface A { fun b() {}; fun c() } => (interface A (fun b() []) (fun c()))
interface A { fun b()¶fun c() } => (interface A (fun b()) (fun c()))
interface A { private fun b() = 1 } => (interface A (private fun b() = 1))
interface A { abstract fun b();; } => (interface A (abstract fun b()))
interface A { fun init(); val init } => (interface A (fun init()) (val init))
interface interface_ => (interface interface_)
sealed interface A => (sealed interface A)
abstract interface A { fun b() } => (abstract interface A (fun b()))
interface operator<in out> => (interface operator<in out>)
interface A : B => (interface A : B)
interface A : B {} => (interface A : B)
interface A { abstract public abstract fun b(): B } => (interface A (abstract public abstract fun b(): B))
interface A { abstract fun <T> b(c: T); fun <T> d() = e } => (interface A (abstract fun <T> b(c: T)) (fun <T> d() = e))
";
    compare(&rt, rt.alloc(), table)
}

#[test]
fn reads_objects(rt: HostRuntime) -> Result<(), Failed> {
    let table = r"
object A => (object A)
object A {} => (object A)
object¶A¶:¶B¶{¶} => (object A : B)
object A { fun b() {}; val c = 1; init {} } => (object A (fun b() []) (val c = 1) (init []))
object A : B(c), D { override fun e() } => (object A : (B c), D (override fun e()))
data object A => (data object A)
private object A; object B => (private object A) (object B)
object constructor => (object constructor)
object A { abstract fun b() } => (object A (abstract fun b()))
";
    compare(&rt, rt.alloc(), table)
}

#[test]
fn refuses_interfaces_and_objects(rt: HostRuntime) -> Result<(), Failed> {
    let table = r"
interface => fault 1
interface 1 => fault 1
interface {} => fault 1
interface A() => fault 2
interface A constructor() => fault 2
interface A<T>(a: T) => fault 5
interface A { => fault 3
interface A } => fault 2
interface A { init {} } => fault 3
interface A { init } => fault 3
interface A { private init {} } => fault 4
interface A { fun b()¶init {} } => fault 7
interface A { fun b(); init {} } => fault 8
interface A { fun b() fun c() } => fault 7
interface A { ; fun b() } => fault 3
interface A { b } => fault 3
interface A { fun b(); c } => fault 8
interface A { public } => fault 4
interface A { object B } => fault 3
interface A { abstract fun b() {} } => fault 8
interface A { abstract fun b() = 1 } => fault 8
interface A {} {} => fault 4
fun interface A => fault 1
object => fault 1
object {} => fault 1
object : A => fault 1
object A() => fault 2
object A(val b: B) => fault 2
object A constructor() => fault 2
object A { => fault 3
object A { init } => fault 4
object A { class B } => fault 3
object A {} : B => fault 4
companion object A => fault 0
interface A { fun } => fault 4
interface A { fun b } => fault 5
interface A { fun b( } => fault 6
interface A { abstract fun b } => fault 6
interface A { abstract fun b( } => fault 7
";
    compare(&rt, rt.alloc(), table)
}
