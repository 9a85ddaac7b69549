//! Modifiers, and their words as names (Kotlin Language Specification 1.9, "Declarations").

use crate::readings::compare;
use std::test::Fail as Failed;

#[test]
fn reads_modifiers(rt: HostRuntime) -> Result<(), Failed> {
    let table = r"
public internal private final open abstract sealed data enum override operator infix inline const vararg noinline crossinline reified out in class A => (public internal private final open abstract sealed data enum override operator infix inline const vararg noinline crossinline reified out in class A)
class A { public internal private final open abstract sealed data enum override operator infix inline const vararg noinline crossinline reified out in fun b() } => (class A (public internal private final open abstract sealed data enum override operator infix inline const vararg noinline crossinline reified out in fun b()))
fun f(public internal private final open abstract sealed data enum override operator infix inline const vararg noinline crossinline reified out in a: A) => (fun f(public internal private final open abstract sealed data enum override operator infix inline const vararg noinline crossinline reified out in a: A))
data class A(val a: A) => (data class A(val a: A))
sealed class A¶open class B : A() => (sealed class A) (open class B : (A))
public public object A => (public public object A)
public¶final¶class A => (public final class A)
in class A => (in class A)
out fun f() => (out fun f())
override val a = 1 => (override val a = 1)
operator fun A.get(b: B) = c => (operator fun A.get(b: B) = c)
infix fun A.f(b: B): C = c => (infix fun A.f(b: B): C = c)
inline fun f(crossinline a: () -> A, noinline b: (B) -> C) {} => (inline fun f(crossinline a: (() -> A), noinline b: ((B) -> C)) [])
abstract fun f() => (abstract fun f())
public abstract open fun f(): A => (public abstract open fun f(): A)
abstract abstract fun f()¶fun g() {} => (abstract abstract fun f()) (fun g() [])
abstract class A { abstract fun f() } => (abstract class A (abstract fun f()))
abstract object A { val b = 1 } => (abstract object A (val b = 1))
abstract fun <T> f(a: T) => (abstract fun <T> f(a: T))
abstract fun A.f() => (abstract fun A.f())
";
    compare(&rt, rt.alloc(), table)
}

#[test]
fn reads_modifiers_as_names(rt: HostRuntime) -> Result<(), Failed> {
    let table = r"
fun open() => (fun open())
open fun open() => (open fun open())
class data(val sealed: inline) => (class data(val sealed: inline))
data class data => (data class data)
object override => (object override)
val public = private => (val public = private)
val abstract: abstract get() = abstract => (val abstract: abstract (get = abstract))
val a = b open c => (val a = (infix open b c))
val a = open¶open val b = c => (val a = open) (open val b = c)
import public.private.*¶public val a = 1 => (import public.private.*) (public val a = 1)
fun f(reified: out, const: in<out>) => fault 9
fun f(reified: out, const: enum<out>) => (fun f(reified: out, const: enum<out>))
fun f() { open = data; enum() } => (fun f() [(= open data); (call enum)])
";
    compare(&rt, rt.alloc(), table)
}

#[test]
fn refuses_modifiers(rt: HostRuntime) -> Result<(), Failed> {
    let table = r"
public => fault 1
public private => fault 2
public a => fault 1
public {} => fault 1
public = 1 => fault 1
public; class A => fault 1
public, class A => fault 1
public import a => fault 1
public package a => fault 1
public constructor() => fault 1
public init {} => fault 1
public get() = 1 => fault 1
open() => fault 1
in => fault 1
in a => fault 1
abstract => fault 1
abstract enum => fault 2
abstract fun f() {} => fault 5
abstract fun f() = 1 => fault 5
abstract fun f()¶{} => fault 5
abstract fun f(): A {} => fault 7
public abstract enum fun f() = 1 => fault 7
open val a = open open val b => fault 6
lateinit var a = 1 => fault 0
suspend fun f() => fault 0
protected class A => fault 0
inner class A => fault 0
value class A => fault 0
public tailrec fun f() => fault 1
public class A public class B => fault 3
fun open f() => fault 2
class open A => fault 2
val private a = 1 => fault 2
abstract fun => fault 2
abstract fun f => fault 3
abstract fun f( => fault 4
";
    compare(&rt, rt.alloc(), table)
}
