//! Type parameters of functions, classes and interfaces (Kotlin Language Specification 1.9, "Declarations with type parameters").

use crate::readings::compare;
use std::test::Fail as Failed;

#[test]
fn reads_type_parameters(rt: HostRuntime) -> Result<(), Failed> {
    let table = r"
fun <T> f() => (fun <T> f())
fun <T, U: T> f() => (fun <T, U: T> f())
fun <T,> f() => (fun <T> f())
fun <T: A,> f() => (fun <T: A> f())
fun <T: A<B>> f() => (fun <T: A<B>> f())
fun <T: A?, U: (B) -> C> f() => (fun <T: A?, U: ((B) -> C)> f())
fun <T: A<T>> f(a: T): T = a => (fun <T: A<T>> f(a: T): T = a)
fun¶<¶T¶:¶A¶,¶U¶>¶f() => (fun <T: A, U> f())
inline fun <reified T> f() => (inline fun <reified T> f())
inline fun <reified T: A, reified U> f() => (inline fun <reified T: A, reified U> f())
fun <reified> f() => (fun <reified> f())
fun <reified reified: A> f() => (fun <reified reified: A> f())
fun <out out> out(out: out): out = out => (fun <out out> out(out: out): out = out)
fun <in in T> f() => (fun <in in T> f())
class A<T> => (class A<T>)
class A<in T, out U: B<T>,>(a: T) => (class A<in T, out U: B<T>>(a: T))
class A<T>¶(a: T) => (class A<T>(a: T))
class A¶<T> : B<T>, C => (class A<T> : B<T>, C)
interface A<out T> => (interface A<out T>)
interface A<in out, out> { fun f() } => (interface A<in out, out> (fun f()))
class A { fun <T> f(a: T) } => (class A (fun <T> f(a: T)))
interface A { fun <T: B> f() } => (interface A (fun <T: B> f()))
";
    compare(&rt, rt.alloc(), table)
}

#[test]
fn refuses_type_parameters(rt: HostRuntime) -> Result<(), Failed> {
    let table = r"
fun <> f() => fault 2
fun < => fault 2
fun <T => fault 3
fun <T f() => fault 3
fun <T U> f() => fault 3
fun <T, f() => fault 5
fun <T,,U> f() => fault 4
fun <,T> f() => fault 2
fun <T: > f() => fault 4
fun <T: A: B> f() => fault 5
fun <T: A = B> f() => fault 5
fun <1> f() => fault 2
fun <*> f() => fault 2
fun <val T> f() => fault 2
fun <reified val T> f() => fault 3
fun <in> f() => fault 3
fun <T in> f() => fault 3
fun <A.B> f() => fault 3
fun <A<B>> f() => fault 3
fun <T?> f() => fault 3
fun <T> => fault 4
fun <T> () => fault 5
fun <T> <U> f() => fault 4
fun <T>f => fault 5
class A<> => fault 3
class A<T => fault 4
class A<T, => fault 5
class A<T> <U> => fault 5
class A(a: A)<T> => fault 7
interface A< => fault 3
interface A<T,, => fault 5
object A<T> => fault 2
";
    compare(&rt, rt.alloc(), table)
}
