//! Getters and setters (Kotlin Language Specification 1.9, "Getters and setters").

use crate::readings::compare;
use std::test::Fail as Failed;

#[test]
fn reads_getters(rt: HostRuntime) -> Result<(), Failed> {
    let table = r"
val a get() = b => (val a (get = b))
val a: A get() = b => (val a: A (get = b))
val a: A get(): B = c => (val a: A (get: B = c))
val a: A get() { return b } => (val a: A (get [(return b)]))
val a: A¶get() = b => (val a: A (get = b))
val a¶get() {} => (val a (get []))
val a: A¶get¶()¶:¶B¶=¶c => (val a: A (get: B = c))
val a: A¶get()¶{¶b¶} => (val a: A (get [b]))
val get get() = get => (val get (get = get))
val get: get¶get(): get = get => (val get: get (get: get = get))
val a get() = b¶val c = d => (val a (get = b)) (val c = d)
val a get() {}; val c = d => (val a (get [])) (val c = d)
val a get() = b get c => (val a (get = (infix get b c)))
const val a get() = 1 => (const val a (get = 1))
class A { val b get() = 1 } => (class A (val b (get = 1)))
class A { val b: B¶get() {}¶fun get() {} } => (class A (val b: B (get [])) (fun get() []))
interface A { val b: B get() = 1; val c } => (interface A (val b: B (get = 1)) (val c))
object A { val b¶get() = 1 } => (object A (val b (get = 1)))
";
    compare(&rt, rt.alloc(), table)
}

#[test]
fn reads_setters(rt: HostRuntime) -> Result<(), Failed> {
    let table = r"
var a: A get() { b } set(c) { d } => (var a: A (get [b]) (set c [d]))
var a: A get() { b } set(c) = d => (var a: A (get [b]) (set c = d))
var a: A get() = b¶set(c) { d } => (var a: A (get = b) (set c [d]))
var a¶get() = b¶set(c) = d => (var a (get = b) (set c = d))
var a: A¶get(): B = c¶set¶(¶d¶)¶=¶e => (var a: A (get: B = c) (set d = e))
var a¶get() {¶}¶set(b) {¶} => (var a (get []) (set b []))
val a get() {} set(b) {} => (val a (get []) (set b []))
val a get() {}¶set(b) = c => (val a (get []) (set b = c))
val a get() = b¶set(c) {} => (val a (get = b) (set c []))
var set get() {} set(set) = set => (var set (get []) (set set = set))
var a get() = b¶set(get) {}¶var c = d => (var a (get = b) (set get [])) (var c = d)
var a get() = b set c¶set(d) {} => (var a (get = (infix set b c)) (set d []))
class A { var b get() = 1¶set(c) {}; fun d() } => (class A (var b (get = 1) (set c [])) (fun d()))
class A { var b get() {} set(c) {}¶init {} } => (class A (var b (get []) (set c [])) (init []))
interface A { var b: B get() {} set(c) {} } => (interface A (var b: B (get []) (set c [])))
interface A { val b get() = 1¶set(c) {} } => (interface A (val b (get = 1) (set c [])))
";
    compare(&rt, rt.alloc(), table)
}

#[test]
fn refuses_getters(rt: HostRuntime) -> Result<(), Failed> {
    let table = r"
val a get => fault 3
val a get = b => fault 3
val a get {} => fault 3
val a get( => fault 4
val a get(b) = c => fault 4
val a get() => fault 5
val a get()¶val b = c => fault 5
val a get() = => fault 6
val a get(): = b => fault 6
val a get(): B => fault 7
val a get() { => fault 6
val a get() = b c => fault 8
val a get() = b fun f() => fault 7
val a get() {} fun f() => fault 7
val a get() {} get() {} => fault 7
val a get() {} = b => fault 7
val a get() = b = c => fault 7
val a fun get() = b => fault 2
val a; get() = b => fault 2
val a: A; get() = b => fault 4
val a = b¶get() = c => fault 4
val a = b get() = c => fault 6
val a: A private get() = b => fault 4
val a: A¶private get() = b => fault 4
class A { val b; get() = 1 } => fault 6
class A { val b = 1¶get() = 2 } => fault 7
class A { val b get() } => fault 8
class A { abstract val b get() = 1 } => fault 6
interface A { abstract val b: B get() {} } => fault 8
";
    compare(&rt, rt.alloc(), table)
}

#[test]
fn refuses_setters(rt: HostRuntime) -> Result<(), Failed> {
    let table = r"
var a get() {} => fault 7
var a get() = b => fault 7
var a get() = b¶ => fault 7
var a get() = b¶var c = d => fault 7
var a get() = b; set(c) {} => fault 7
var a get() {}; set(b) {} => fault 7
var a get() = b set(c) = d => fault 11
var a get() = b set(c) {} => fault 13
var a get() = b¶private set(c) {} => fault 7
var a get() {} private set(c) {} => fault 7
var a set(b) {} => fault 2
val a: A set(b) {} => fault 4
var a set(b) {} get() = c => fault 2
var a get() {} set => fault 8
var a get() {} set = b => fault 8
var a get() {} set( => fault 9
var a get() {} set() {} => fault 9
var a get() {} set(1) {} => fault 9
var a get() {} set(b, c) {} => fault 10
var a get() {} set(b,) {} => fault 10
var a get() {} set(b: B) {} => fault 10
var a get() {} set(vararg b) {} => fault 10
var a get() {} set(b) => fault 11
var a get() {} set(b) = => fault 12
var a get() {} set(b): B {} => fault 11
var a get() {} set(b) {} set(c) {} => fault 13
var a get() {} set(b) {} get() {} => fault 13
var a get() = b¶set(c) = d¶set(e) {} => fault 13
var a = b¶set(c) {} => fault 4
class A { var b get() = 1 } => fault 10
class A { var b get() {} } => fault 10
class A { var b get() {}; set(c) {} } => fault 10
class A { var b = 1¶set(c) {} } => fault 7
class A { val b get() {} set(c) {} set(d) {} } => fault 16
interface A { var b get() = 1¶fun c() } => fault 10
";
    compare(&rt, rt.alloc(), table)
}
