//! Words that are names wherever nothing else is meant (Kotlin Language Specification 1.9, "Lexical grammar").

use crate::readings::{Goal, compare};
use std::test::Fail as Failed;

#[test]
fn reads_words_as_names(rt: HostRuntime) -> Result<(), Failed> {
    let table = r#"
get => get
set(a) => (call set a)
init { a } => (call init trailing {a})
catch (e) => (call catch e)
finally { a } => (call finally trailing {a})
out + get => (+ out get)
a get b => (infix get a b)
a catch b => (infix catch a b)
a finally { b } => (infix finally a {b})
a¶catch b => (infix catch a b)
a¶get b => a, 1 of 3
data.open => (. data open)
public++ => (public ++)
constructor<out>() => (call constructor <out>)
import is vararg => (is import vararg)
{ catch -> finally } => {catch -> finally}
{ out: out<out> -> out } => {out: out<out> -> out}
f(set = get) => (call f set=get)
infix infix infix => (infix infix infix infix)
try {} catch (catch: catch) {} => (try [] (catch catch: catch []))
"$get" => (string $get)
f(out = in) => fault 4
a.out.1 => fault 4
set = => set, 1 of 2
"#;
    compare(&rt, rt.alloc(), Goal::Expression, table)
}

#[test]
fn reads_words_as_names_in_statements(rt: HostRuntime) -> Result<(), Failed> {
    let table = r"
val get = set => (val get = set)
var init: enum => (var init: enum)
val (in, a) = b => fault 2
set = get => (= set get)
a.set = init => (= (. a set) init)
for (get in set) init => (for get in set init)
finally@ while (open) break@finally => (finally@while open break@finally)
abstract class => abstract, 1 of 2
private val => private, 1 of 2
override fun => override, 1 of 2
enum a => fault 2
";
    compare(&rt, rt.alloc(), Goal::Statement, table)
}
