//! Packages and imports (Kotlin Language Specification 1.9, "Packages and imports").

use crate::readings::compare;
use std::test::Fail as Failed;

#[test]
fn reads_packages(rt: HostRuntime) -> Result<(), Failed> {
    let table = r"
 => ()
// a¶¶/* b */ => ()
package a => (package a)
package a.b.c => (package a.b.c)
package a¶.b¶. /* c */¶d => (package a.b.d)
package¶a => (package a)
package get.init.catch.out => (package get.init.catch.out)
package import => (package import)
package import import import => (package import) (import import)
package a import b => (package a) (import b)
package a class A => (package a) (class A)
package public¶class A => (package public) (class A)
package a¶public class A => (package a) (public class A)
package => fault 1
package . => fault 1
package 1 => fault 1
package class => fault 1
package a. => fault 3
package a.class => fault 3
package a.* => fault 3
package a?.b => fault 2
package a b => fault 2
package a; => fault 2
package a;¶import b => fault 2
package a¶package b => fault 2
package a = b => fault 2
package a public.b => fault 3
package a¶b => fault 2
";
    compare(&rt, rt.alloc(), table)
}

#[test]
fn reads_imports(rt: HostRuntime) -> Result<(), Failed> {
    let table = r"
import a => (import a)
import a.b.c => (import a.b.c)
import a.* => (import a.*)
import a.b.* => (import a.b.*)
import a . b . * => (import a.b.*)
import a¶.b¶.* => (import a.b.*)
import a.¶b.¶* => (import a.b.*)
import¶a => (import a)
import a¶import b.c¶import d.* => (import a) (import b.c) (import d.*)
import a import b.* import c => (import a) (import b.*) (import c)
import import.import import get => (import import.import) (import get)
import a fun f() => (import a) (fun f())
import a¶¶val import = b => (import a) (val import = b)
package a¶¶import b // c¶¶/* d */¶fun f() => (package a) (import b) (fun f())
import => fault 1
import * => fault 1
import .a => fault 1
import a. => fault 3
import a.1 => fault 3
import a.val => fault 3
import a * => fault 2
import a¶* => fault 2
import a?.b => fault 2
import a as b => fault 2
import a, b => fault 2
import a; => fault 2
import a; import b => fault 2
import a.*.b => fault 4
import a.b.*.* => fault 6
import a.** => fault 4
import a b => fault 2
import a¶import => fault 3
import a¶package b => fault 2
import a¶import b. => fault 5
fun f()¶import a => fault 4
class A; import b => fault 3
";
    compare(&rt, rt.alloc(), table)
}
