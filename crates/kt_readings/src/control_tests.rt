//! `if`, `when`, `try` and jumps (Kotlin Language Specification 1.9, "Conditional expressions", "When expressions", "Try-expressions"
//! and "Jump expressions").

use crate::readings::{Goal, compare};
use std::test::Fail as Failed;

#[test]
fn reads_conditionals(rt: HostRuntime) -> Result<(), Failed> {
    let table = r"
if (a) b => (if a b)
if (a) b else c => (if a b c)
if (a) b; else c => (if a b c)
if (a) b;¶else c => (if a b c)
if (a) if (b) c else d => (if a (if b c d))
if (a) if (b) c else d else e => (if a (if b c d) e)
if (a) { b } else { c } => (if a [b] [c])
if (a) { b; c }¶else {¶} => (if a [b; c] [])
if (a) { x -> b } => (if a {x -> b})
if (a) { -> b } => (if a { -> b})
if (a) { b }.c else d => (if a (. {b} c) d)
if (a) {} else if (b) {} else {} => (if a [] (if b [] []))
if (a) b = c else d += e => (if a (= b c) (+= d e))
if (a) val x = b else c => (if a (val x = b) c)
if (a) for (x in b) c else d => (if a (for x in b c) d)
if (a) for (x in b) if (c) d else e => (if a (for x in b (if c d e)))
if (a) do b while (c) else d => (if a (do b while c) d)
if (a) return else b => (if a (return) b)
if (a) b ?: c else d => (if a (?: b c) d)
if (a) b else c + d => (if a b (+ c d))
1 + if (a) b else c => (+ 1 (if a b c))
(if (a) b else c).d => (. (paren (if a b c)) d)
if (a) b else c.d => (if a b (. c d))
if (a && b) c => (if (&& a b) c)
if (a) b; c => (if a b), 5 of 7
if (a) b¶c => (if a b), 5 of 6
if (a) b else -> => (if a b), 5 of 7
if (a) b; else -> => (if a b), 5 of 8
if (a) b;; else c => (if a b), 5 of 9
";
    compare(&rt, rt.alloc(), Goal::Expression, table)
}

#[test]
fn refuses_conditionals(rt: HostRuntime) -> Result<(), Failed> {
    let table = r"
if => fault 1
if a => fault 1
if () => fault 2
if (a => fault 3
if (a b) c => fault 4
if (a) => fault 4
if (a); else b => fault 4
if (a) else b => fault 4
if (a) b else => fault 6
if (a) b; else => fault 7
if (a) b else ) => fault 6
if (a) b else fun => fault 6
(if (a) b else -> c) => fault 7
(if (a) b; else -> c) => fault 8
(if (a) b; c) => fault 7
if (a = b) c => fault 3
";
    compare(&rt, rt.alloc(), Goal::Expression, table)
}

#[test]
fn reads_whens(rt: HostRuntime) -> Result<(), Failed> {
    let table = r"
when { } => (when)
when (a) { } => (when a)
when¶(a)¶{ } => (when a)
when (a) { 1 -> b } => (when a (1 -> b))
when (a) { 1, 2 -> b; else -> c } => (when a (1 2 -> b) (else -> c))
when (a) { 1, -> b } => (when a (1 -> b))
when (a) { 1,¶2¶->¶b } => (when a (1 2 -> b))
when (a) { in b -> c¶!in d -> e } => (when a ((in b) -> c) ((!in d) -> e))
when (a) { is A -> b¶!is B<C> -> d } => (when a ((is A) -> b) ((!is B<C>) -> d))
when (a) { is A, in b, c -> d } => (when a ((is A) (in b) c -> d))
when (a) { is (A) -> b } => (when a ((is A) -> b))
when (a) { is (A) -> B -> c } => (when a ((is ((A) -> B)) -> c))
when (a) { is (A) -> B, c -> d } => (when a ((is ((A) -> B)) c -> d))
when (val x = a) { else -> x } => (when val x = a (else -> x))
when (val x: A? = a) { 1 -> x } => (when val x: A? = a (1 -> x))
when { a -> b; c && d -> e } => (when (a -> b) ((&& c d) -> e))
when (a) { 1 -> b else -> c } => (when a (1 -> b) (else -> c))
when (a) { 1 -> b;; 2 -> c; } => (when a (1 -> b) (2 -> c))
when (a) { 1 -> b¶-2 -> c¶(3) -> d } => (when a (1 -> b) ((- 2) -> c) ((paren 3) -> d))
when (a) { else -> b; 1 -> c } => (when a (else -> b) (1 -> c))
when (a) { 1 -> if (b) c else d¶else -> e } => (when a (1 -> (if b c d)) (else -> e))
when (a) { 1 -> if (b) c¶else -> e } => (when a (1 -> (if b c)) (else -> e))
when (a) { 1 -> if (b) c else -> e } => (when a (1 -> (if b c)) (else -> e))
when (a) { 1 -> if (b) c; else -> e } => (when a (1 -> (if b c)) (else -> e))
when (a) { 1 -> if (b) c; else d; else -> e } => (when a (1 -> (if b c d)) (else -> e))
when (a) { if (b) c else d -> e } => (when a ((if b c d) -> e))
when (a) { 1 -> { b } } => (when a (1 -> [b]))
when (a) { 1 -> { x -> b } } => (when a (1 -> {x -> b}))
when (a) { 1 -> b = c¶2 -> return } => (when a (1 -> (= b c)) (2 -> (return)))
when (a) { 1 -> for (x in b) c¶else -> d } => (when a (1 -> (for x in b c)) (else -> d))
when (a) { b -> c }.d => (. (when a (b -> c)) d)
when (a) {} + 1 => (+ (when a) 1)
";
    compare(&rt, rt.alloc(), Goal::Expression, table)
}

#[test]
fn refuses_whens(rt: HostRuntime) -> Result<(), Failed> {
    let table = r"
when a => fault 1
when () => fault 2
when (a) => fault 4
when (val x) {} => fault 4
when (var x = a) {} => fault 2
when (val = a) {} => fault 3
when { => fault 2
when { a } => fault 3
when { a b } => fault 4
when { -> b } => fault 2
when { a -> } => fault 4
when { a -> b => fault 5
when { , a -> b } => fault 2
when { a,, b -> c } => fault 4
when { ; a -> b } => fault 2
when { else b } => fault 3
when { else, a -> b } => fault 3
when { in -> b } => fault 3
when { is 1 -> b } => fault 3
when { 1 -> b 2 -> c } => fault 5
when { a -> b c -> d } => fault 6
when { a -> if (b) c else } => fault 10
when { is (A) -> } => fault 7
when { is (A, B) -> c } => fault 10
when { is () -> } => fault 6
when { a -> b, c -> d } => fault 5
";
    compare(&rt, rt.alloc(), Goal::Expression, table)
}

#[test]
fn reads_tries(rt: HostRuntime) -> Result<(), Failed> {
    let table = r"
try { a } catch (e: A) { b } => (try [a] (catch e: A [b]))
try {} finally { a } => (try [] finally [a])
try { a; b }¶catch (e: A) {}¶catch (f: B?) { c }¶finally {} => (try [a; b] (catch e: A []) (catch f: B? [c]) finally [])
try {} catch (e: A<B>) {} + c => (+ (try [] (catch e: A<B> [])) c)
try {} catch (e: A) {}.b => (. (try [] (catch e: A [])) b)
try {} catch (e: A) {} { b } => (call (try [] (catch e: A [])) trailing {b})
try {} catch (e: A) {}¶{ b } => (try [] (catch e: A [])), 11 of 14
try {} catch (e: A) {} catch (b) => (infix catch (try [] (catch e: A [])) (paren b))
try {} catch (e: A) {} finally b => (infix finally (try [] (catch e: A [])) b)
try {} finally {} finally {} => (infix finally (try [] finally []) {})
";
    compare(&rt, rt.alloc(), Goal::Expression, table)
}

#[test]
fn refuses_tries(rt: HostRuntime) -> Result<(), Failed> {
    let table = r"
try => fault 1
try a => fault 1
try { => fault 2
try {} => fault 3
try {} a => fault 3
try { x -> a } finally {} => fault 3
try {} catch => fault 4
try {} catch {} => fault 4
try {} catch (e) {} => fault 6
try {} catch (e: ) {} => fault 7
try {} catch (e: A, ) {} => fault 8
try {} catch (e: A) => fault 9
try {} catch (e: A) b => fault 9
try {} finally b => fault 4
try {} finally {} catch (e: A) {} => fault 9
try {} catch (e: A) {} catch (b => fault 14
try {} catch (e: A) {} catch (f:) => fault 15
try {} catch (e: A) {} finally => fault 12
";
    compare(&rt, rt.alloc(), Goal::Expression, table)
}

#[test]
fn reads_jumps(rt: HostRuntime) -> Result<(), Failed> {
    let table = r"
return => (return)
return a + b => (return (+ a b))
return -a => (return (- a))
return { a } => (return {a})
return return a => (return (return a))
return a b c => (return (infix b a c))
return@l => (return@l)
return@l a => (return@l a)
return @l => (return), 1 of 3
return; a => (return), 1 of 3
return.a => (. (return) a)
return || a => (|| (return) a)
a ?: return => (?: a (return))
a || return b => (|| a (return b))
break => break
break@l => break@l
break + 1 => (+ break 1)
break a b => (infix a break b)
continue => continue
continue@l ?: a => (?: continue@l a)
throw a.b() => (throw (call (. a b)))
throw a ?: b => (throw (?: a b))
a ?: throw b || c => (?: a (throw (|| b c)))
throw => fault 1
throw ; => fault 1
throw in => fault 1
break a => fault 2
return val => (return), 1 of 2
";
    compare(&rt, rt.alloc(), Goal::Expression, table)
}
