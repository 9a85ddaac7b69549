//! Lambdas and their statements (Kotlin Language Specification 1.9, "Function literals").

use crate::readings::{Goal, compare};
use std::test::Fail as Failed;

#[test]
fn reads_lambdas(rt: HostRuntime) -> Result<(), Failed> {
    let table = r"
{ } => {}
{ a } => {a}
{ a; b } => {a; b}
{ a¶b } => {a; b}
{ a;; b¶; c; } => {a; b; c}
{ a¶¶¶b¶} => {a; b}
{ -> a } => { -> a}
{ -> } => { -> }
{ x -> a } => {x -> a}
{ x, y -> a } => {x, y -> a}
{ x, -> a } => {x -> a}
{ x: A, y -> a¶b } => {x: A, y -> a; b}
{ x: A? -> } => {x: A? -> }
{ x¶-> a } => {x -> a}
{ x: (A) -> b } => {x: A -> b}
{ x: (A) -> b -> c } => {x: ((A) -> b) -> c}
{ x: (A) -> b, y -> c } => {x: ((A) -> b), y -> c}
{ x: (A, B) -> C -> c } => {x: ((A, B) -> C) -> c}
{ x: () -> A -> c } => {x: (() -> A) -> c}
{ x: A<B> -> c } => {x: A<B> -> c}
{ x } => {x}
{ { a } } => {{a}}
{ a¶{ b } } => {a; {b}}
{ a { b } } => {(call a trailing {b})}
{ x -> { y -> a } } => {x -> {y -> a}}
{ val x = 1¶x } => {(val x = 1); x}
{ val (x, y) = a; x } => {(val (x, y) = a); x}
{ l@ while (a) { continue@l } } => {(l@while a [continue@l])}
{ do a while (b)¶c } => {(do a while b); c}
{ x = 1; x += 2 } => {(= x 1); (+= x 2)}
{ while (a) b¶c } => {(while a b); c}
{ if (a) b¶else c } => {(if a b c)}
{ if (a) b; else c } => {(if a b c)}
{ if (a) b; c } => {(if a b); c}
{ return¶a } => {(return); a}
{ a¶(b) } => {a; (paren b)}
{ a¶-b } => {a; (- b)}
{ a¶.b } => {(. a b)}
{ a }.b => (. {a} b)
{ a } f { b } => (infix f {a} {b})
";
    compare(&rt, rt.alloc(), Goal::Expression, table)
}

#[test]
fn refuses_lambdas(rt: HostRuntime) -> Result<(), Failed> {
    let table = r"
{ => fault 1
{ a => fault 2
{ a; => fault 3
{ a b } => fault 3
{ a 1 } => fault 2
{ a val x = 1 } => fault 2
{ ; a } => fault 1
{ x -> ; a } => fault 3
{ , } => fault 1
{ x -> y -> a } => fault 4
{ x, y } => fault 4
{ x,, y -> a } => fault 3
{ x: A } => fault 4
{ x: -> a } => fault 3
{ x: (A) } => fault 6
{ 1 -> a } => fault 2
{ (x) -> a } => fault 4
{ (x, y) -> a } => fault 3
{ x: () } => fault 5
{ x: (A, B) -> } => fault 9
{ x: A<B -> c } => fault 6
{ if (a) b; else -> c } => fault 8
{ fun } => fault 1
{ a¶+ } => fault 3
{ a¶* b } => fault 2
l@ { a } => fault 0
";
    compare(&rt, rt.alloc(), Goal::Expression, table)
}
