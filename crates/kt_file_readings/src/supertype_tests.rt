//! Supertypes (Kotlin Language Specification 1.9, "Class declaration").

use crate::readings::compare;
use std::test::Fail as Failed;

#[test]
fn reads_supertypes(rt: HostRuntime) -> Result<(), Failed> {
    let table = r"
class A : B => (class A : B)
class A : B() => (class A : (B))
class A : B(1, n = 2, *c,) => (class A : (B 1 n=2 *c))
class A : B({ c }) {} => (class A : (B {c}))
class A : B, C => (class A : B, C)
class A : B(), C<D>, E.F {} => (class A : (B), C<D>, E.F)
class A : B<C>(d), E(f) => (class A : (B<C> d), (E f))
class A : B? => (class A : B?)
class A : (B), (C) -> D => (class A : B, ((C) -> D))
class A : B, => (class A : B)
class A : B, {} => (class A : B)
class A : B(), C, {} => (class A : (B), C)
class A : B, C, => (class A : B, C)
class A¶:¶B¶(c)¶,¶D¶{} => (class A : (B c), D)
class A : B,¶C => (class A : B, C)
class A : B,¶get => (class A : B, get)
class A : B,¶open class C => (class A : B) (open class C)
class A : B, C,¶out class D => (class A : B, C) (out class D)
class A : B,¶class C => (class A : B) (class C)
class A : B,; class C => (class A : B) (class C)
class A : B, open => (class A : B, open)
class A : B, open, C => (class A : B, open, C)
class A : open => (class A : open)
class A :¶open => (class A : open)
interface A : B, C() => (interface A : B, (C))
interface A : B, {} => (interface A : B)
object A : B(1), C, { val d } => (object A : (B 1), C (val d))
object A : B => (object A : B)
enum class A : B, { C } => (enum class A : B {C})
";
    compare(&rt, rt.alloc(), table)
}

#[test]
fn refuses_supertypes(rt: HostRuntime) -> Result<(), Failed> {
    let table = r"
class A : => fault 3
class A : {} => fault 3
class A : , B => fault 3
class A : 1 => fault 3
class A : class => fault 3
class A : in B => fault 3
class A : B C => fault 4
class A : B¶C => fault 4
class A : B : C => fault 4
class A : B by c => fault 4
class A : B() by c => fault 6
class A : B() C => fault 6
class A : B,, => fault 5
class A : B,, C => fault 5
class A : B, 1 => fault 5
class A : B,¶open => fault 6
class A : B,¶in => fault 6
class A : B, open class C => fault 6
class A : B, class C => fault 5
class A : B(1)(2) => fault 7
class A : B(1 2) => fault 6
class A : B( => fault 5
class A : B(,) => fault 5
class A : B(1, => fault 7
class A : B<> => fault 5
class A : B. => fault 5
class A : (B => fault 5
class A : B { c } => fault 5
class A : B() { c => fault 7
interface A : => fault 3
interface A : B, C D => fault 6
object A : => fault 3
object A : B,,{} => fault 5
";
    compare(&rt, rt.alloc(), table)
}
