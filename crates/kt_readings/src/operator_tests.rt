//! Operators, from those that bind strongest to `||`, and what stands alone (Kotlin Language Specification 1.9, "Expressions").

use crate::readings::{Goal, compare};
use std::test::Fail as Failed;

#[test]
fn binds_operators(rt: HostRuntime) -> Result<(), Failed> {
    let table = r"
1 + 2 * 3 => (+ 1 (* 2 3))
1 * 2 + 3 => (+ (* 1 2) 3)
a - b - c => (- (- a b) c)
a / b % c * d => (* (% (/ a b) c) d)
-a + +b => (+ (- a) (+ b))
!a && --b || ++c => (|| (&& (! a) (-- b)) (++ c))
- - a => (- (- a))
-a.b => (- (. a b))
-a as A => (as (- a) A)
a * b as A => (* a (as b A))
a++ + ++b => (+ (a ++) (++ b))
a--!! => ((a --) !!)
a..b + 1 => (.. a (+ b 1))
a..<b..c => (.. (..< a b) c)
0..10 step 2 => (infix step (.. 0 10) 2)
a shl b and c => (infix and (infix shl a b) c)
a f -b + c => (infix f a (+ (- b) c))
a f b ?: c => (?: (infix f a b) c)
a ?: b ?: c => (?: (?: a b) c)
a in b..c => (in a (.. b c))
a !in b ?: c => (!in a (?: b c))
a in b in c => (in (in a b) c)
a is A && b !is B => (&& (is a A) (!is b B))
a in b is C => (is (in a b) C)
a < b == c >= d => (== (< a b) (>= c d))
a <= b in c => (<= a (in b c))
a == b != c => (!= (== a b) c)
a === b !== c => (!== (=== a b) c)
a && b == c || d => (|| (&& a (== b c)) d)
a || b && c || d => (|| (|| a (&& b c)) d)
a > b => (> a b)
(a + b) * c => (* (paren (+ a b)) c)
a.b + c.d => (+ (. a b) (. c d))
";
    compare(&rt, rt.alloc(), Goal::Expression, table)
}

#[test]
fn reads_what_stands_alone(rt: HostRuntime) -> Result<(), Failed> {
    let table = r"
0x1F => 31
1_000L => 1000L
-9223372036854775808 => (- 9223372036854775808)
'a' => (char 97)
'\n' => (char 10)
true => true
false == null => (== false null)
this => this
((a)) => (paren (paren a))
super.f => (super f)
super<a.B<C>>.f => (super a.B<C> f)
super.f(a).b => (. (call (super f) a) b)
super¶.f => (super f)
";
    compare(&rt, rt.alloc(), Goal::Expression, table)
}

#[test]
fn ends_or_refuses_operators(rt: HostRuntime) -> Result<(), Failed> {
    let table = r"
a < b < c => (< a b), 3 of 5
a < b > c => (< a b), 3 of 5
a == b < c > d => (== a (< b c)), 5 of 7
a = b => a, 1 of 3
a; b => a, 1 of 3
a ? b => a, 1 of 3
a : b => a, 1 of 3
a::b => a, 1 of 4
a b => fault 2
a f in => fault 2
a + => fault 2
a + * b => fault 2
a * => fault 2
a % ] => fault 2
a..in b => fault 2
a ..< => fault 2
a < => fault 2
a >= ) => fault 2
a != , => fault 2
a ?: => fault 2
a || => fault 2
a && ) => fault 2
a === val => fault 2
a in is b => fault 2
- => fault 1
! => fault 1
++ + => fault 2
 => fault 0
* a => fault 0
val a = 1 => fault 0
for (a in b) c => fault 0
fun => fault 0
object : A {} => fault 0
@A a => fault 0
else => fault 0
( => fault 1
() => fault 1
(a => fault 2
(a, b) => fault 2
(a = b) => fault 2
super => fault 1
super?.f => fault 1
super.1 => fault 2
super<A => fault 3
super<>.f => fault 2
super<A>f => fault 4
";
    compare(&rt, rt.alloc(), Goal::Expression, table)
}
