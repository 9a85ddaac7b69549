//! Casts, tests of types, and the types behind them (Kotlin Language Specification 1.9, "Cast expressions" and "Type-checking
//! expressions").

use crate::readings::{Goal, compare};
use std::test::Fail as Failed;

#[test]
fn reads_types_of_operands(rt: HostRuntime) -> Result<(), Failed> {
    let table = r"
a as A => (as a A)
a as? A => (as? a A)
a as A as B => (as (as a A) B)
a as? A ?: b => (?: (as? a A) b)
a as A? => (as a A?)
a as A?? => (as a A??)
a as A.B<C> => (as a A.B<C>)
a as A<B<C>> => (as a A<B<C>>)
a is A<*> => (is a A<*>)
a is A<in B, out C, *,> => (is a A<in B, out C, *>)
a is A<out> => (is a A<out>)
a is A<out out> => (is a A<out out>)
a is (A) => (is a A)
a is (A)? => (is a A?)
a is (A, B) -> C => (is a ((A, B) -> C))
a is () -> A? => (is a (() -> A?))
a is (() -> A)? => (is a (() -> A)?)
a is (A) -> (B) -> C => (is a ((A) -> ((B) -> C)))
a is ((A) -> B) -> C => (is a ((((A) -> B)) -> C))
a is (A, B,) -> C => (is a ((A, B) -> C))
a is A is B => (is (is a A) B)
a is A == b => (== (is a A) b)
a as A < b => (< (as a A) b)
a as A<b => (< (as a A) b)
a as A<b> => (as a A<b>)
a as A<b> < c => (< (as a A<b>) c)
a is A<b> == c => (== (is a A<b>) c)
a as A < b == c => (== (< (as a A) b) c)
f(a as A < b, c) => (call f (< (as a A) b) c)
f(a as A<b, c>) => (call f (as a A<b, c>))
";
    compare(&rt, rt.alloc(), Goal::Expression, table)
}

#[test]
fn ends_or_refuses_types_of_operands(rt: HostRuntime) -> Result<(), Failed> {
    let table = r"
a as A<b> (c) => (as a A<b>), 6 of 9
a as A { b } => (as a A), 3 of 6
a as A?.b => (as a A), 3 of 5
a as A.b => (as a A.b)
a as A!! => (as a A), 3 of 4
a as => fault 2
a as? ? => fault 2
a is 1 => fault 2
a is * => fault 2
a as A. => fault 4
a as A<> => fault 4
a as (A => fault 4
a as (A,) => fault 6
a as () => fault 4
a as (A) -> => fault 6
a as (A, B) => fault 7
f(a as A < b, c > d) => fault 11
f(a is A<b, c > => fault 10
";
    compare(&rt, rt.alloc(), Goal::Expression, table)
}
