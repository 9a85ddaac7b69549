//! Calls, members, indexes and type arguments (Kotlin Language Specification 1.9, "Call and property access expressions").

use crate::readings::{Goal, compare};
use std::test::Fail as Failed;

#[test]
fn reads_calls(rt: HostRuntime) -> Result<(), Failed> {
    let table = r#"
f() => (call f)
f(1, b) => (call f 1 b)
f(a,) => (call f a)
f(n = 1, *b) => (call f n=1 *b)
f(n = *b,) => (call f n=*b)
f(a == b) => (call f (== a b))
f(a)(b) => (call (call f a) b)
f(a b c) => (call f (infix b a c))
f { a } => (call f trailing {a})
f() { a } => (call f trailing {a})
f(1) { x -> x } => (call f 1 trailing {x -> x})
f { a } { b } => (call (call f trailing {a}) trailing {b})
f(1) { a } { b } => (call (call f 1 trailing {a}) trailing {b})
f { a }(b) => (call (call f trailing {a}) b)
f(1) { a }(b) => (call (call f 1 trailing {a}) b)
f l@ { a } => (call f trailing l@{a})
f(1) l@{ a } => (call f 1 trailing l@{a})
f(l, { a }) => (call f l {a})
a.b.c => (. (. a b) c)
a?.b() => (call (?. a b))
a.b { c }.d => (. (call (. a b) trailing {c}) d)
a[1] => (index a 1)
a[1, b,] => (index a 1 b)
a[b][c] => (index (index a b) c)
a++.b => (. (a ++) b)
a!![b]!! => ((index (a !!) b) !!)
this.a => (. this a)
(a)(b) => (call (paren a) b)
1.a => (. 1 a)
null!! => (null !!)
{ a }() => (call {a})
{ a } { b } => (call {a} trailing {b})
"a".b => (. (string "a") b)
if (a) b else c { d } => (if a b (call c trailing {d}))
"#;
    compare(&rt, rt.alloc(), Goal::Expression, table)
}

#[test]
fn tells_type_arguments_from_comparisons(rt: HostRuntime) -> Result<(), Failed> {
    let table = r"
f<A>(b) => (call f <A> b)
f < A > (b) => (call f <A> b)
f<A> { b } => (call f <A> trailing {b})
f<A>(b) { c } => (call f <A> b trailing {c})
f<A> l@ { b } => (call f <A> trailing l@{b})
f<A, *, in B, out C>(d) => (call f <A, *, in B, out C> d)
f<A,>(b) => (call f <A> b)
f<a.B<C>?>(b) => (call f <a.B<C>?> b)
f<(a) -> b>(c) => (call f <((a) -> b)> c)
f<() -> A>() => (call f <(() -> A)>)
f<(a)>(b) => (call f <a> b)
f<out>(b) => (call f <out> b)
a.f<A>(b).c => (. (call (. a f) <A> b) c)
f<a> => (< f a), 3 of 4
f<a> b => (< f a), 3 of 5
f<a>.b => (< f a), 3 of 6
f<a => (< f a)
f<a, > => (< f a), 3 of 5
f<a && b>(c) => (&& (< f a) (> b (paren c)))
f < (a + b) > (c) => (< f (paren (+ a b))), 7 of 11
f < 1 > (c) => (< f 1), 3 of 7
f(a < b, c > d) => (call f (< a b) (> c d))
f(a < b, c > (d)) => (call f (call a <b, c> d))
f(a < b, c >= (d)) => (call f (< a b) (>= c (paren d)))
f(a < b, c) => (call f (< a b) c)
f<A>()<B>() => (call (call f <A>) <B>)
1 < a.b<C>(d) => (< 1 (call (. a b) <C> d))
";
    compare(&rt, rt.alloc(), Goal::Expression, table)
}

#[test]
fn refuses_calls(rt: HostRuntime) -> Result<(), Failed> {
    let table = r"
f( => fault 2
f(a => fault 3
f(a b) => fault 4
f(, a) => fault 2
f(a,, b) => fault 4
f(n = ) => fault 4
f(n =  => fault 4
f(*) => fault 3
f(**a) => fault 3
f(a = b = c) => fault 5
f(1 = a) => fault 3
f(a; b) => fault 3
f(val a = b) => fault 2
f l@ 1 => fault 2
f l@ m@ { a } => fault 2
f(1) l@ => fault 5
a. => fault 2
a.1 => fault 2
1.5 => fault 2
a?.(b) => fault 2
a.if => fault 2
a[] => fault 2
a[b c] => fault 4
a[b => fault 3
a[b, => fault 4
a[, b] => fault 2
f<A>( => fault 5
f<A>(b => fault 6
(f<A, >) => fault 6
f<>(a) => fault 2
(a<b> c) => fault 5
(a<b>) => fault 5
";
    compare(&rt, rt.alloc(), Goal::Expression, table)
}
