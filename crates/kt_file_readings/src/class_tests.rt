//! Classes and their primary constructors (Kotlin Language Specification 1.9, "Class declaration").

use crate::readings::compare;
use std::test::Fail as Failed;

#[test]
fn reads_classes(rt: HostRuntime) -> Result<(), Failed> {
    let table = r"
class A => (class A)
class A {} => (class A)
class A() => (class A())
class A() {} => (class A())
class¶A¶(¶)¶{¶} => (class A())
class A(a: A) => (class A(a: A))
class A(val a: A, var b: B, c: C,) => (class A(val a: A, var b: B, c: C))
class A(val a: A = 1, b: B = c(d)) => (class A(val a: A = 1, b: B = (call c d)))
class A(¶val a: A¶,¶) => (class A(val a: A))
class A constructor() => (class A())
class A constructor(val a: A) {} => (class A(val a: A))
class A¶constructor¶(a: A) => (class A(a: A))
class A<T> constructor(a: T) : B => (class A<T>(a: T) : B)
class constructor => (class constructor)
class constructor(a: A) => (class constructor(a: A))
class constructor constructor() => (class constructor())
class A(private val a: A) => (class A(private val a: A))
class A(override val a: A, vararg val b: B, private c: C) => (class A(override val a: A, vararg val b: B, private c: C))
class A(private open var a: A) => (class A(private open var a: A))
class A(private: A, val open: B) => (class A(private: A, val open: B))
class A(open open open: A) => (class A(open open open: A))
class A(in a: A, in val b: B) => (class A(in a: A, in val b: B))
class A(init: get, set: constructor) => (class A(init: get, set: constructor))
class A<T>(val a: T) : B<T>(a), C { fun d() = a } => (class A<T>(val a: T) : (B<T> a), C (fun d() = a))
";
    compare(&rt, rt.alloc(), table)
}

#[test]
fn refuses_classes(rt: HostRuntime) -> Result<(), Failed> {
    let table = r"
class => fault 1
class 1 => fault 1
class {} => fault 1
class fun => fault 1
class A.B => fault 2
class A B => fault 2
class A = B => fault 2
class A [] => fault 2
class A } => fault 2
class A { => fault 3
class A {} {} => fault 4
class A {} () => fault 4
class A private constructor() => fault 2
class A constructor => fault 3
class A constructor {} => fault 3
class A constructor constructor() => fault 3
class A constructor : B => fault 3
class A() constructor() => fault 4
class A( => fault 3
class A(,) => fault 3
class A(a) => fault 4
class A(a: ) => fault 5
class A(a: A => fault 6
class A(a: A, => fault 7
class A(a: A,,) => fault 7
class A(a: A b: B) => fault 6
class A(a: A = ) => fault 7
class A(a = 1) => fault 4
class A(val) => fault 4
class A(val a) => fault 5
class A(val a = 1) => fault 5
class A(val val a: A) => fault 4
class A(val private a: A) => fault 5
class A(val in a: A) => fault 4
class A(private) => fault 4
class A(private val) => fault 5
class A(in: A) => fault 4
class A(1) => fault 3
class A(fun a: A) => fault 3
class A(a: A, fun b: B) => fault 7
class A(a: A) (b: B) => fault 7
class A(a: A): => fault 8
class A(a: A) = b => fault 7
";
    compare(&rt, rt.alloc(), table)
}
