//! Where a line may end within an expression, and where it ends the expression (Kotlin Language Specification 1.9, "Syntax grammar").

use crate::readings::{Goal, compare};
use std::test::Fail as Failed;

#[test]
fn ends_with_the_line(rt: HostRuntime) -> Result<(), Failed> {
    let table = r"
a¶+ b => a, 1 of 3
a¶* b => a, 1 of 3
a¶..b => a, 1 of 3
a¶f b => a, 1 of 3
a¶in b => a, 1 of 3
a¶!is A => a, 1 of 3
a¶as A => a, 1 of 3
a¶== b => a, 1 of 3
a¶< b => a, 1 of 3
a¶++ => a, 1 of 2
a¶!! => a, 1 of 2
a¶[b] => a, 1 of 4
a¶(b) => a, 1 of 4
a¶{ b } => a, 1 of 4
a¶l@ { b } => a, 1 of 5
a¶<b>(c) => a, 1 of 7
a<b>¶(c) => (< a b), 3 of 7
a(b)¶{ c } => (call a b), 4 of 7
a(b)¶(c) => (call a b), 4 of 7
return¶a => (return), 1 of 2
return@l¶a => (return@l), 2 of 3
if (a) b else c¶+ d => (if a b c), 7 of 9
a as A¶< b => (as a A), 3 of 5
f(a)¶?.b { c }¶!! => (call (?. (call f a) b) trailing {c}), 9 of 10
a f¶b => fault 2
";
    compare(&rt, rt.alloc(), Goal::Expression, table)
}

#[test]
fn goes_on_behind_the_line(rt: HostRuntime) -> Result<(), Failed> {
    let table = r"
a +¶b => (+ a b)
a ==¶b => (== a b)
a in¶b => (in a b)
a as¶A => (as a A)
a as A¶<b> => (as a A<b>)
a as A¶.B => (as a A.B)
a is¶A¶? => (is a A?)
-¶a => (- a)
a +¶¶// b¶c => (+ a c)
a /*¶*/ + b => (+ a b)
a¶&& b¶|| c¶?: d => (|| (&& a b) (?: c d))
a¶.b¶?.c() => (call (?. (. a b) c))
a.¶b => (. a b)
(a¶+ b) => (paren (+ a b))
(a¶f¶b) => (paren (infix f a b))
(return¶a) => (paren (return a))
a[b¶+ c] => (index a (+ b c))
f(a¶(b)¶, c) => (call f (call a b) c)
f(¶a¶) => (call f a)
f { a¶+ b } => (call f trailing {a; (+ b)})
f({ a¶+ b }) => (call f {a; (+ b)})
throw¶a => (throw a)
if¶(a)¶b¶else¶c => (if a b c)
f {¶} => (call f trailing {})
f l@¶{ a } => (call f trailing l@{a})
a < b¶>¶(c) => (< a b), 3 of 7
a<¶b¶>(c) => (call a <b> c)
";
    compare(&rt, rt.alloc(), Goal::Expression, table)
}
