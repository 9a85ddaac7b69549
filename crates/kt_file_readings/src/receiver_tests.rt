//! Receivers of functions (Kotlin Language Specification 1.9, "Extension function declaration").

use crate::readings::compare;
use std::test::Fail as Failed;

#[test]
fn reads_receivers(rt: HostRuntime) -> Result<(), Failed> {
    let table = r"
fun A.f() => (fun A.f())
fun A?.f() => (fun A?.f())
fun A??.f() => (fun A??.f())
fun A? .f() => (fun A?.f())
fun A<B>.f() {} => (fun A<B>.f() [])
fun A<in B, out C, *,>?.f() = a => (fun A<in B, out C, *>?.f() = a)
fun A<B<C>>??.f(): D => (fun A<B<C>>??.f(): D)
fun (A).f() => (fun A.f())
fun (A.B).f() => (fun A.B.f())
fun (A?).f() => (fun A?.f())
fun ((A, B) -> C).f() => (fun ((A, B) -> C).f())
fun (((A) -> B)?).f() => (fun ((A) -> B)?.f())
fun <T> T.f() => (fun <T> T.f())
fun <T: A> List<T>.f(a: T) => (fun <T: A> List<T>.f(a: T))
fun A¶.f() => (fun A.f())
fun A.¶f() => (fun A.f())
fun A¶?.¶f() => (fun A?.f())
fun A¶?¶.f() => (fun A?.f())
fun A¶<B¶>¶.f¶() => (fun A<B>.f())
fun¶(¶A¶)¶.f() => (fun A.f())
fun get.set() => (fun get.set())
fun public.private() => (fun public.private())
";
    compare(&rt, rt.alloc(), table)
}

#[test]
fn refuses_receivers(rt: HostRuntime) -> Result<(), Failed> {
    let table = r"
fun A.() => fault 3
fun A. => fault 3
fun A.B.f() => fault 4
fun A.f.g() => fault 4
fun A?f() => fault 3
fun A?() => fault 3
fun A? => fault 3
fun A?.? => fault 3
fun A!!.f() => fault 2
fun A<B>f() => fault 5
fun f<T>() => fault 5
fun A<>.f() => fault 3
fun A<B.f() => fault 6
fun A<B, C.f() => fault 8
fun A<B>.C.f() => fault 7
fun A<1>.f() => fault 3
fun A(B).f() => fault 4
fun () => fault 2
fun ().f() => fault 2
fun (A) => fault 4
fun (A)f() => fault 4
fun (A)?.f() => fault 4
fun (A).() => fault 5
fun (A).f => fault 6
fun (A) -> B.f() => fault 4
fun (A -> B).f() => fault 3
fun (A, B).f() => fault 3
fun .f() => fault 1
fun ?.f() => fault 1
fun *.f() => fault 1
";
    compare(&rt, rt.alloc(), table)
}
