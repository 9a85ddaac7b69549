//! Assignments, local variables and loops (Kotlin Language Specification 1.9, "Statements").

use crate::readings::{Goal, compare};
use std::test::Fail as Failed;

#[test]
fn reads_assignments(rt: HostRuntime) -> Result<(), Failed> {
    let table = r"
a = b => (= a b)
a.b += c => (+= (. a b) c)
a[1, 2] -= b => (-= (index a 1 2) b)
a *= b + c => (*= a (+ b c))
a /= -b => (/= a (- b))
a %= b => (%= a b)
f().b = c => (= (. (call f) b) c)
(a) = b => (= (paren a) b)
this.a = b => (= (. this a) b)
1 = a => (= 1 a)
a++ = b => (= (a ++) b)
a =¶b => (= a b)
a = if (b) c else d => (= a (if b c d))
a += { b } => (+= a {b})
a = b f c => (= a (infix f b c))
a = return => (= a (return))
a¶= b => a, 1 of 3
a = b = c => (= a b), 3 of 5
a + b = c => (+ a b), 3 of 5
-a = b => (- a), 2 of 4
++a += b => (++ a), 2 of 4
a as A = b => (as a A), 3 of 5
a < b = c => (< a b), 3 of 5
a = => fault 2
a = val => fault 2
a += + => fault 3
a = = b => fault 2
";
    compare(&rt, rt.alloc(), Goal::Statement, table)
}

#[test]
fn reads_expressions_as_statements(rt: HostRuntime) -> Result<(), Failed> {
    let table = r"
a => a
a == b => (== a b)
a as A * b + c => (+ (* (as a A) b) c)
a + b * c => (+ a (* b c))
a * b - c..d => (.. (- (* a b) c) d)
a..b step c => (infix step (.. a b) c)
a f b ?: c => (?: (infix f a b) c)
a in b && c => (&& (in a b) c)
a is A || b && c => (|| (is a A) (&& b c))
a < b == c => (== (< a b) c)
-a + b => (+ (- a) b)
++a => (++ a)
!a && b => (&& (! a) b)
a++ => (a ++)
f<A>(b) { c } => (call f <A> b trailing {c})
{ a } => {a}
if (a) b else c => (if a b c)
when { else -> a } => (when (else -> a))
a¶+ b => a, 1 of 3
a¶&& b => (&& a b)
a; b => a, 1 of 3
a¶b => a, 1 of 2
a b => fault 2
a +  => fault 2
 => fault 0
; => fault 0
) => fault 0
fun f() {} => fault 0
class A => fault 0
else => fault 0
in a => fault 0
";
    compare(&rt, rt.alloc(), Goal::Statement, table)
}

#[test]
fn reads_local_variables(rt: HostRuntime) -> Result<(), Failed> {
    let table = r"
val x = 1 => (val x = 1)
var x: A = 1 => (var x: A = 1)
val x: A => (val x: A)
val x: A¶= 1 => (val x: A = 1)
val x: A¶<b> = c => (val x: A<b> = c)
val x: A¶b => (val x: A), 4 of 5
val x¶= 1 => (val x = 1)
val x: (A) -> B = c => (val x: ((A) -> B) = c)
val x: A<B, in C, *>? = d => (val x: A<B, in C, *>? = d)
val (x, y) = a => (val (x, y) = a)
var (x: A, y,) = a => (var (x: A, y) = a)
val (x) = a + b => (val (x) = (+ a b))
val x = y = z => (val x = y), 4 of 6
val x = { a } => (val x = {a})
val => fault 1
val x => fault 2
val x += 1 => fault 2
val x = => fault 3
val x: = 1 => fault 3
val x: A = => fault 5
val x: A<B>= c => fault 6
val x: A < 1 => fault 5
val 1 = a => fault 1
val () = a => fault 2
val (x => fault 3
val (x, => fault 4
val (x) a => fault 4
val (x): A = b => fault 4
val x.y = a => fault 2
";
    compare(&rt, rt.alloc(), Goal::Statement, table)
}

#[test]
fn reads_loops(rt: HostRuntime) -> Result<(), Failed> {
    let table = r"
for (x in a) b => (for x in a b)
for (x: A in a..b) { c } => (for x: A in (.. a b) [c])
for ((x, y) in a) b => (for (x, y) in a b)
for ((x, y,) in a) {} => (for (x, y) in a [])
for ((x) in a) b => (for (x) in a b)
l@ for (x in a) b => (l@for x in a b)
for¶(x in a)¶b => (for x in a b)
for (x in a) for (y in b) c => (for x in a (for y in b c))
for (x in a) x = b => (for x in a (= x b))
for (x in a) { y -> b } => (for x in a {y -> b})
for (x in a in b) c => (for x in (in a b) c)
while (a) b => (while a b)
while (a) { b; c } => (while a [b; c])
l@ while (a) break@l => (l@while a break@l)
l@¶while (a) b => (l@while a b)
while (a) b; c => (while a b), 5 of 7
while (a) b else c => (while a b), 5 of 7
do a while (b) => (do a while b)
do { a } while (b) => (do [a] while b)
do { a }¶while¶(b) => (do [a] while b)
l@ do { x -> a } while (b) => (l@do {x -> a} while b)
do a = b while (c) => (do (= a b) while c)
do while (a) b while (c) => (do (while a b) while c)
do if (a) b while (c) => (do (if a b) while c)
do {} while (a) + b => (do [] while a), 7 of 9
";
    compare(&rt, rt.alloc(), Goal::Statement, table)
}

#[test]
fn refuses_loops(rt: HostRuntime) -> Result<(), Failed> {
    let table = r"
for => fault 1
for x in a => fault 1
for (x) a => fault 3
for (x of a) b => fault 3
for (x in) a => fault 4
for (x in a b => fault 6
for (x in a) => fault 6
for (x in a); => fault 6
for (val x in a) b => fault 2
for ((x: A) in a) b => fault 4
for (() in a) b => fault 3
for ((x, 1) in a) b => fault 5
for (x: in a) b => fault 4
while => fault 1
while () => fault 2
while (a) => fault 4
while (a) ; => fault 4
do => fault 1
do a => fault 2
do a; while (b) => fault 2
do while (a) => fault 5
do a while b => fault 3
do a while (b => fault 5
l@ => fault 1
l@ a => fault 1
l@ { a } => fault 1
l@ m@ while (a) b => fault 1
l@ val x = 1 => fault 1
";
    compare(&rt, rt.alloc(), Goal::Statement, table)
}
