//! Properties and their values (Kotlin Language Specification 1.9, "Property declaration").

use crate::readings::compare;
use std::test::Fail as Failed;

#[test]
fn reads_properties(rt: HostRuntime) -> Result<(), Failed> {
    let table = r"
val a = 1 => (val a = 1)
var a = 1 => (var a = 1)
val a: A = b => (val a: A = b)
var a: A? = null => (var a: A? = null)
val a: A<B> = c => (val a: A<B> = c)
val a: (A) -> B = { c } => (val a: ((A) -> B) = {c})
val¶a¶:¶A¶=¶b => (val a: A = b)
val a¶= b¶+ c => fault 4
val a = b +¶c => (val a = (+ b c))
val a = if (b) c else d => (val a = (if b c d))
const val a = 1 => (const val a = 1)
private const val a: A = 1 => (private const val a: A = 1)
const var a = 1 => (const var a = 1)
val get = set => (val get = set)
val get: get = get => (val get: get = get)
var set: set = set => (var set: set = set)
val a = get() => (val a = (call get))
val a = b get c => (val a = (infix get b c))
class A { val b } => (class A (val b))
class A { val b: B } => (class A (val b: B))
class A { var b; val c = 1 } => (class A (var b) (val c = 1))
class A { val b: B¶= c } => (class A (val b: B = c))
class A { const val b = 1 } => (class A (const val b = 1))
class A { abstract val b } => (class A (abstract val b))
class A { abstract var b: B; val c } => (class A (abstract var b: B) (val c))
object A { val b = 1 } => (object A (val b = 1))
interface A { val b } => (interface A (val b))
interface A { var b: B¶abstract val c: C } => (interface A (var b: B) (abstract val c: C))
class A { var b: B } => (class A (var b: B))
interface A { abstract var b; var c } => (interface A (abstract var b) (var c))
class A { abstract var b¶abstract var c: C } => (class A (abstract var b) (abstract var c: C))
interface A { abstract var b: B } => (interface A (abstract var b: B))
";
    compare(&rt, rt.alloc(), table)
}

#[test]
fn refuses_properties(rt: HostRuntime) -> Result<(), Failed> {
    let table = r"
val => fault 1
val = 1 => fault 1
val 1 => fault 1
val val = 1 => fault 1
val (a, b) = c => fault 1
val <T> a = b => fault 1
val a => fault 2
val a; => fault 2
val a¶val b = 1 => fault 2
val a b = 1 => fault 2
val a, b = 1 => fault 2
val a.b = 1 => fault 2
val A.b get() = 1 => fault 2
val a += 1 => fault 2
val a by b => fault 2
val a { b } => fault 2
val a = => fault 3
val a = = 1 => fault 3
val a = val => fault 3
val a = b = c => fault 4
val a: => fault 3
val a: = 1 => fault 3
val a: A => fault 4
val a: A, b: B => fault 4
val a: A<B>= c => fault 6
val a: A<B => fault 6
var a => fault 2
var a: A => fault 4
const a = 1 => fault 1
abstract val a = 1 => fault 1
abstract var a: A => fault 1
abstract public val a: A => fault 2
public abstract val a get() = 1 => fault 2
class A { val } => fault 4
class A { val b = } => fault 6
class A { val b = 1 = 2 } => fault 7
class A { val b c } => fault 5
class A { abstract val b = 1 } => fault 6
class A { abstract val b: B = 1 } => fault 8
interface A { val b = 1 } => fault 5
interface A { var b: B = 1 } => fault 7
interface A { abstract val b = 1 } => fault 6
var 1 => fault 1
class A { var } => fault 4
class A { abstract val } => fault 5
class A { abstract var } => fault 5
interface A { val } => fault 4
interface A { var } => fault 4
interface A { abstract val } => fault 5
interface A { abstract var } => fault 5
";
    compare(&rt, rt.alloc(), table)
}
