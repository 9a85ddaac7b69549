// Names resolved and code spread out by byte offset, once.

ghost use Rattle.std.specs.Prelude.{◌≡◌, ◌<◌, ◌^◌, ◌++◌, ◌==◌, nat_eq, ℕ, List, length, map, position, OnOk, IfOk, Some, false, replicate, All, codes};
ghost use Rattle.std.specs.Cmp.Lexicographic.{pointwise};
ghost use Rattle.std.specs.Option.{option_copied};
ghost use Rattle.class_file.specs.Pools.{entry_at, text_in, name_in, typed_in, named, is_member};
ghost use Rattle.class_file.specs.Lots.{static_named};
ghost use Rattle.class_machine.specs.Links.{IsLinked, LinksMethod, native_named, native_in, count_of, locals_of, own_in_class, own_named, own_in, main_target, plain_target, exception_named, caught_in, linked_handler, meaning_of, meaning_in, method_parts, method_parts_of, ops_of, parts, parts_of, all_parts};

use crate::links::{Caught, Link, LinkedClass, LinkedHandler, LinkedMethod, Links, Op, Target};
use class_file::class::{ClassFile, Handler, Method, Set};
use class_file::instr::Instr;
use class_file::pool::{Entry, Pool};
use class_file::table::{length_of, row_of};
use class_file::value::NativeId;
use kc_text::{Memory, Text};
use std::alloc::Global;
use verifier_types::{NamedSet, described};

// The number of the first class of exceptions, which is Throwable.
const FIRST_EXCEPTION: usize = 7;

// The classes of exceptions that the run-time system provides, in the order of their numbers.
static EXCEPTIONS: [&str; 18] = [
    "java/lang/Throwable",
    "java/lang/Exception",
    "java/lang/Error",
    "java/lang/RuntimeException",
    "java/lang/IllegalArgumentException",
    "java/lang/NumberFormatException",
    "java/lang/IllegalStateException",
    "java/lang/UnsupportedOperationException",
    "java/lang/ArithmeticException",
    "java/lang/NullPointerException",
    "java/lang/ClassCastException",
    "java/lang/IndexOutOfBoundsException",
    "java/lang/ArrayIndexOutOfBoundsException",
    "java/lang/ArrayStoreException",
    "java/lang/NegativeArraySizeException",
    "java/lang/IncompatibleClassChangeError",
    "java/lang/AbstractMethodError",
    "java/util/NoSuchElementException",
];

// An instruction's entry stands at each of its bytes.
fn put(ops: &mut Vec<Op>, op: Op, times: usize) -> Result<(), Memory>
    ensures { OnOk result (ops.new.items ≡ ops.old.items ++ replicate times op) }
{
    for _ in 0..times {
        ops.push(op)?;
    }
    Ok(())
}

fn ops_of(alloc: Global, code: &[Instr]) -> Result<Vec<Op>, Memory>
    requires { length code.now < 2 ^ 28 }
    ensures { IfOk result (λ ops. ops.items ≡ ops_of 0 code.now) }
{
    let mut ops = Vec::new(alloc);
    for instr in code {
        let at = ops.len();
        let times = length_of(instr);
        let op = Op {
            row: row_of(at, instr),
            next: at + times,
        };
        put(&mut ops, op, times)?;
    }
    Ok(ops)
}

// The place of a name among names.
fn place_of(name: &Text, names: &[&str]) -> Option<usize>
    ensures { result ≡ position (λ known. pointwise nat_eq name.now known.now) names.now }
{
    names
        .iter()
        .position(|known| is_text(name, known.as_bytes()))
}

// The number of the class of exceptions of this name.
fn exception_named(name: &Text) -> Option<usize>
    ensures { result ≡ exception_named name.now }
{
    match place_of(name, &EXCEPTIONS) {
        Some(place) => Some(FIRST_EXCEPTION + place),
        None => None,
    }
}

pub fn caught(pool: &Pool, catch_type: u16) -> Caught
    ensures { result ≡ caught_in (catch_type == 0) (name_in pool.now (entry_at pool.now catch_type)) }
{
    if catch_type == 0 {
        return Caught::All;
    }
    match name_at(pool, catch_type) {
        Some(name) => match exception_named(name) {
            Some(number) => Caught::Class(number),
            None => Caught::Nothing,
        },
        None => Caught::Nothing,
    }
}

fn link_handler(pool: &Pool, handler: &Handler) -> LinkedHandler
    ensures { result ≡ linked_handler pool.now handler.now }
{
    LinkedHandler {
        start: handler.start,
        end: handler.end,
        at: handler.at,
        caught: caught(pool, handler.catch_type),
    }
}

fn link_handlers(
    alloc: Global,
    pool: &Pool,
    handlers: &[Handler],
) -> Result<Vec<LinkedHandler>, Memory>
    ensures { IfOk result (λ linked. linked.items ≡ map (linked_handler pool.now) handlers.now) }
{
    let mut linked = Vec::new(alloc);
    for handler in handlers {
        linked.push(link_handler(pool, handler))?;
    }
    Ok(linked)
}

fn link_method(alloc: Global, pool: &Pool, method: &Method) -> Result<LinkedMethod, Memory>
    requires { length method.now.code < 2 ^ 28 }
    ensures { IfOk result (λ linked. method_parts linked ≡ method_parts_of pool.now method.now) }
{
    let ops = ops_of(alloc, method.code.as_slice())?;
    let handlers = link_handlers(alloc, pool, method.handlers.as_slice())?;
    Ok(LinkedMethod { ops, handlers })
}

fn link_methods(alloc: Global, pool: &Pool, methods: &[Method]) -> Result<Vec<LinkedMethod>, Memory>
    requires { All (λ m. length m.code < 2 ^ 28) methods.now }
    ensures { IfOk result (λ linked. map method_parts linked.items ≡ map (method_parts_of pool.now) methods.now) }
{
    let mut linked = Vec::new(alloc);
    for method in methods {
        linked.push(link_method(alloc, pool, method)?)?;
    }
    Ok(linked)
}

// Is the text these ASCII characters?
pub fn is_text(text: &Text, ascii: &[u8]) -> bool
    ensures { result ≡ pointwise nat_eq text.now ascii.now }
{
    if text.len() != ascii.len() {
        return false;
    }
    for at in 0..ascii.len() {
        if text.unit_at(at) != u16::from(ascii[at]) {
            return false;
        }
    }
    true
}

fn is_native(
    owner: &Text,
    name: &Text,
    descriptor: &Text,
    wanted_owner: &[u8],
    wanted_name: &[u8],
    wanted_descriptor: &[u8],
) -> bool
    ensures { result ≡ is_member
        (record { owner = owner.now; name = name.now; descriptor = descriptor.now })
        (record { owner = wanted_owner.now; name = wanted_name.now; descriptor = wanted_descriptor.now }) }
{
    is_text(owner, wanted_owner)
        && (is_text(name, wanted_name) && is_text(descriptor, wanted_descriptor))
}

// The native of this class, name and descriptor.
pub fn native_named(owner: &Text, name: &Text, descriptor: &Text) -> Option<NativeId>
    ensures { result ≡ native_named (record { owner = owner.now; name = name.now; descriptor = descriptor.now }) }
{
    if is_native(
        owner,
        name,
        descriptor,
        b"kprof/rt/Texts",
        b"ofInt",
        b"(I)Ljava/lang/String;",
    ) {
        return Some(NativeId::TextsOfInt);
    }
    if is_native(
        owner,
        name,
        descriptor,
        b"kprof/rt/Texts",
        b"ofLong",
        b"(J)Ljava/lang/String;",
    ) {
        return Some(NativeId::TextsOfLong);
    }
    if is_native(
        owner,
        name,
        descriptor,
        b"kprof/rt/Texts",
        b"ofChar",
        b"(C)Ljava/lang/String;",
    ) {
        return Some(NativeId::TextsOfChar);
    }
    if is_native(
        owner,
        name,
        descriptor,
        b"kprof/rt/Texts",
        b"ofBoolean",
        b"(Z)Ljava/lang/String;",
    ) {
        return Some(NativeId::TextsOfBoolean);
    }
    if is_native(
        owner,
        name,
        descriptor,
        b"kprof/rt/Texts",
        b"concat",
        b"(Ljava/lang/String;Ljava/lang/String;)Ljava/lang/String;",
    ) {
        return Some(NativeId::TextsConcat);
    }
    if is_native(
        owner,
        name,
        descriptor,
        b"kprof/rt/Console",
        b"write",
        b"(Ljava/lang/String;)V",
    ) {
        return Some(NativeId::ConsoleWrite);
    }
    None
}

pub fn text_at(pool: &Pool, index: u16) -> Option<&Text>
    ensures { option_copied result ≡ text_in (entry_at pool.now index) }
{
    match pool.get(index as usize) {
        Some(Entry::Utf8(text)) => Some(text),
        _ => None,
    }
}

pub fn name_at(pool: &Pool, index: u16) -> Option<&Text>
    ensures { option_copied result ≡ name_in pool.now (entry_at pool.now index) }
{
    match pool.get(index as usize) {
        Some(Entry::Class(name)) => text_at(pool, *name),
        _ => None,
    }
}

// The native that a Methodref entry names.
fn native_at(pool: &Pool, owner: u16, member: u16) -> Option<NativeId>
    ensures { result ≡ native_in (named false (typed_in pool.now (name_in pool.now (entry_at pool.now owner)) (entry_at pool.now member))) }
{
    let owner = name_at(pool, owner);
    match pool.get(member as usize) {
        Some(Entry::NameAndType(name, descriptor)) => native_named(
            owner?,
            text_at(pool, *name)?,
            text_at(pool, *descriptor)?,
        ),
        _ => None,
    }
}

fn plain_static_named(name: &[u8], methods: &[Method]) -> Option<usize>
    ensures { result ≡ static_named name.now (codes "()V") methods.now }
{
    methods.iter().position(|method| method.flags & 0x0008 != 0
        && (is_text(&method.name, name) && is_text(&method.descriptor, b"()V")))
}

// A static method without parameters and result.
fn plain_target(class: usize, name: &[u8], methods: &[Method]) -> Option<Target>
    ensures { result ≡ plain_target class name.now methods.now }
{
    let method = plain_static_named(name, methods)?;
    Some(Target {
        class,
        method,
        params: 0,
        max_locals: methods[method].max_locals,
    })
}

// How many values a method of this descriptor takes.
fn count_of(alloc: Global, descriptor: &Text) -> Result<usize, Memory>
    ensures { IfOk result (λ count. count ≡ count_of descriptor.now) }
{
    let call = described(alloc, descriptor)?;
    Ok(call.params.len())
}

fn locals_of(method: Option<&Method>) -> u16
    ensures { result ≡ locals_of (option_copied method.entry) }
{
    match method {
        Some(method) => method.max_locals,
        None => 0,
    }
}

// A static method that a class of the set has itself.
fn own_in_class(
    alloc: Global,
    set: &NamedSet,
    class: usize,
    name: &Text,
    descriptor: &Text,
) -> Result<Option<Target>, Memory>
    ensures { IfOk result (λ target. (owner : List ℕ) → target ≡ own_in_class set.now.classes (record { owner = owner; name = name.now; descriptor = descriptor.now }) (Some class)) }
{
    let Some(file) = set.get(class) else {
        return Ok(None);
    };
    let Some(statics) = set.statics(class) else {
        return Ok(None);
    };
    let Some(method) = statics.place(name.units(), descriptor.units()) else {
        return Ok(None);
    };
    let params = count_of(alloc, descriptor)?;
    Ok(Some(Target {
        class,
        method,
        params,
        max_locals: locals_of(file.methods.get(method)),
    }))
}

// A method of the set that the class which is named has itself.
fn own_named(
    alloc: Global,
    set: &NamedSet,
    owner: &Text,
    name: &Text,
    descriptor: &Text,
) -> Result<Option<Target>, Memory>
    ensures { IfOk result (λ target. target ≡ own_named set.now.classes (record { owner = owner.now; name = name.now; descriptor = descriptor.now })) }
{
    match set.place(owner.units()) {
        Some(class) => own_in_class(alloc, set, class, name, descriptor),
        None => Ok(None),
    }
}

// The method of the set that a Methodref entry names.
fn own_at(
    alloc: Global,
    set: &NamedSet,
    pool: &Pool,
    owner: u16,
    member: u16,
) -> Result<Option<Target>, Memory>
    ensures { IfOk result (λ target. target ≡ own_in set.now.classes (named false (typed_in pool.now (name_in pool.now (entry_at pool.now owner)) (entry_at pool.now member)))) }
{
    let owner = name_at(pool, owner);
    match pool.get(member as usize) {
        Some(Entry::NameAndType(name, descriptor)) => {
            let Some(owner) = owner else {
                return Ok(None);
            };
            let Some(name) = text_at(pool, *name) else {
                return Ok(None);
            };
            let Some(descriptor) = text_at(pool, *descriptor) else {
                return Ok(None);
            };
            own_named(alloc, set, owner, name, descriptor)
        }
        _ => Ok(None),
    }
}

// The method that a Methodref entry names.
fn method_link(
    alloc: Global,
    set: &NamedSet,
    pool: &Pool,
    owner: u16,
    member: u16,
) -> Result<Link, Memory>
    ensures { IfOk result (λ link. LinksMethod link set.now.classes (named false (typed_in pool.now (name_in pool.now (entry_at pool.now owner)) (entry_at pool.now member)))) }
{
    if let Some(id) = native_at(pool, owner, member) {
        return Ok(Link::Native(id));
    }
    match own_at(alloc, set, pool, owner, member)? {
        Some(target) => Ok(Link::Method(target)),
        None => Ok(Link::Missing),
    }
}

// What an index stands for where code names it.
fn link_of(alloc: Global, set: &NamedSet, pool: &Pool, index: usize) -> Result<Link, Memory>
    ensures { IfOk result (λ link. meaning_of link ≡ meaning_in set.now.classes pool.now (entry_at pool.now index)) }
{
    match pool.get(index) {
        Some(Entry::Integer(number)) => Ok(Link::Number(*number)),
        Some(Entry::Long(number)) => Ok(Link::Wide(*number)),
        Some(Entry::Str(text)) => match text_at(pool, *text) {
            Some(text) => Ok(Link::Literal(text.copy(alloc)?)),
            None => Ok(Link::Missing),
        },
        Some(Entry::MethodRef(owner, member)) => method_link(alloc, set, pool, *owner, *member),
        Some(Entry::Utf8(_))
        | Some(Entry::Class(_))
        | Some(Entry::FieldRef(_, _))
        | Some(Entry::InterfaceMethodRef(_, _))
        | Some(Entry::NameAndType(_, _))
        | None => Ok(Link::Missing),
    }
}

fn link_constants(alloc: Global, set: &NamedSet, pool: &Pool) -> Result<Vec<Link>, Memory>
    ensures { IfOk result (λ constants. map meaning_of constants.items ≡ map (meaning_in set.now.classes pool.now) pool.now) }
{
    let mut constants = Vec::new(alloc);
    for index in 0..pool.count() {
        constants.push(link_of(alloc, set, pool, index)?)?;
    }
    Ok(constants)
}

fn link_class(
    alloc: Global,
    set: &NamedSet,
    place: usize,
    class: &ClassFile,
) -> Result<LinkedClass, Memory>
    requires { All (λ m. length m.code < 2 ^ 28) class.now.methods }
    ensures { IfOk result (λ linked. parts linked ≡ parts_of set.now.classes place class.now) }
{
    let methods = link_methods(alloc, &class.pool, class.methods.as_slice())?;
    let constants = link_constants(alloc, set, &class.pool)?;
    let initialiser = plain_target(place, b"<clinit>", class.methods.as_slice());
    Ok(LinkedClass {
        methods,
        constants,
        initialiser,
    })
}

fn classes_of<'a>(set: &NamedSet<'a>) -> &'a [ClassFile]
    ensures { result.now ≡ set.now.classes }
{
    set.as_set().classes.as_slice()
}

fn link_classes(alloc: Global, set: &NamedSet) -> Result<Vec<LinkedClass>, Memory>
    requires { All (λ c. All (λ m. length m.code < 2 ^ 28) c.methods) set.now.classes }
    ensures { IfOk result (λ linked. map parts linked.items ≡ all_parts set.now.classes 0 set.now.classes) }
{
    let mut linked = Vec::new(alloc);
    let classes = classes_of(set);
    for class in classes {
        let place = linked.len();
        linked.push(link_class(alloc, set, place, class)?)?;
    }
    Ok(linked)
}

fn main_target(set: &NamedSet) -> Option<Target>
    ensures { result ≡ main_target set.now }
{
    let class = set.place(set.as_set().main.units())?;
    let file = set.get(class)?;
    plain_target(class, b"main", file.methods.as_slice())
}

/// The links of a set, in time linear in it.
pub fn link(alloc: Global, set: &Set) -> Result<Links, Memory>
    requires { All (λ c. All (λ m. length m.code < 2 ^ 28) c.methods) set.now.classes }
    ensures { IfOk result (λ links. IsLinked set.now links) }
{
    let named = NamedSet::new(alloc, set)?;
    let classes = link_classes(alloc, &named)?;
    let main = main_target(&named);
    Ok(Links { classes, main })
}
