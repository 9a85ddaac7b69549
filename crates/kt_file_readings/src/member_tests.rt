//! Members of classes, and `init` blocks (Kotlin Language Specification 1.9, "Class declaration").

use crate::readings::compare;
use std::test::Fail as Failed;

#[test]
fn reads_members(rt: HostRuntime) -> Result<(), Failed> {
    let table = r"
class A { fun b() } => (class A (fun b()))
class A { fun b() {}; fun c() = 1 } => (class A (fun b() []) (fun c() = 1))
class A {¶fun b() {}¶¶fun c() {}¶} => (class A (fun b() []) (fun c() []))
class A { fun b();; val c;¶;} => (class A (fun b()) (val c))
class A { fun b()¶; fun c() } => (class A (fun b()) (fun c()))
class A { fun b()¶: B¶= c } => (class A (fun b(): B = c))
class A { init {} } => (class A (init []))
class A { init { a; b } } => (class A (init [a; b]))
class A { init¶{¶a¶b¶} } => (class A (init [a; b]))
class A { init {}; init {}¶init {} } => (class A (init []) (init []) (init []))
class A { val b: B¶init {} } => (class A (val b: B) (init []))
class A { val b = c¶init {}¶fun d() } => (class A (val b = c) (init []) (fun d()))
class A { val b = c init {} } => (class A (val b = (infix init c {})))
class A { val init = init { a } } => (class A (val init = (call init trailing {a})))
class A { fun init() { init { a } } } => (class A (fun init() [(call init trailing {a})]))
class A { val b: init; init {} } => (class A (val b: init) (init []))
object A { init {}; fun b() } => (object A (init []) (fun b()))
class A { abstract fun b(); open fun c() {} } => (class A (abstract fun b()) (open fun c() []))
class A { abstract fun b(): B¶abstract val c } => (class A (abstract fun b(): B) (abstract val c))
class A { override fun b() {}¶private val c = 1 } => (class A (override fun b() []) (private val c = 1))
class A { public¶open¶fun b() } => (class A (public open fun b()))
class A { val open: open¶open val b } => (class A (val open: open) (open val b))
class A { in fun b() } => (class A (in fun b()))
class A { abstract open abstract val b } => (class A (abstract open abstract val b))
class A { abstract fun <T> b(c: T); } => (class A (abstract fun <T> b(c: T)))
";
    compare(&rt, rt.alloc(), table)
}

#[test]
fn refuses_members(rt: HostRuntime) -> Result<(), Failed> {
    let table = r"
class A { ; } => fault 3
class A { ; fun b() } => fault 3
class A { a } => fault 3
class A { b() } => fault 3
class A { 1 } => fault 3
class A { class B } => fault 3
class A { object B } => fault 3
class A { interface B } => fault 3
class A { companion object } => fault 3
class A { constructor() {} } => fault 3
class A { import b } => fault 3
class A { get() = 1 } => fault 3
class A { fun b() {} fun c() {} } => fault 9
class A { fun b() fun c() } => fault 7
class A { fun b() {} init {} } => fault 9
class A { fun b(); c } => fault 8
class A { fun b()¶c } => fault 7
class A { fun b() => fault 7
class A { fun b(); => fault 8
class A { fun } => fault 4
class A { fun b } => fault 5
class A { fun B.c() } => fault 5
class A { fun (B).c() } => fault 4
class A { fun B<C>.d() } => fault 5
class A { fun <T> T.b() } => fault 8
object A { fun B?.c() } => fault 5
interface A { fun B.c() } => fault 5
class A { val b: B fun c() } => fault 7
class A { val b: open val c } => fault 7
class A { init } => fault 4
class A { init = 1 } => fault 4
class A { init() {} } => fault 4
class A { init { } => fault 6
class A { init { a b } } => fault 7
class A { init {} init {} } => fault 6
class A { init {} fun b() } => fault 6
class A { init {} {} } => fault 6
class A { private init {} } => fault 4
class A { abstract init {} } => fault 4
class A { public } => fault 4
class A { open class B } => fault 4
class A { abstract fun b() {} } => fault 8
class A { abstract fun b() = 1 } => fault 8
class A { abstract open fun b()¶{} } => fault 9
class A { protected fun b() } => fault 3
class A { override fun b() {}¶protected fun c() } => fault 10
class A { fun b( } => fault 6
class A { abstract fun } => fault 5
class A { abstract fun b } => fault 6
class A { abstract fun b( } => fault 7
";
    compare(&rt, rt.alloc(), table)
}
