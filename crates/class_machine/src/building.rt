// For which sets the machine is built.

ghost use Rattle.std.specs.Prelude.{◌≡◌, true, false, Some, IfOk, map, slice_get};
ghost use Rattle.std.specs.List.{list_all};
ghost use Rattle.class_file.specs.Pools.{entry_at, name_in, typed_in, named};
ghost use Rattle.class_machine.specs.Building.{is_signed, owns_in, is_own_call, is_call_of, is_call, is_set, row_is_built, instr_is_built, handler_is_built, method_is_built, class_is_built, set_is_built, main_member};
ghost use Rattle.class_machine.specs.Lot.{IsBuilt, is_built};
ghost use Rattle.class_soundness.specs.Soundness.{IsLoaded};

use crate::linking::{caught, is_text, name_at, native_named, text_at};
use crate::links::Caught;
use class_file::class::{ClassFile, Handler, Method, Set};
use class_file::instr::Instr;
use class_file::pool::{Entry, Pool};
use class_file::row::Row;
use class_file::table::row_of;
use kc_text::{Memory, Text};
use std::alloc::Global;
use verifier::{has_code_at, is_reserved, static_named};
use verifier_types::{NamedSet, described, is_special_name};

// ACC_INTERFACE (Java Virtual Machine Specification SE 8, 4.1).
const INTERFACE: u16 = 0x0200;

// ---- calls

// Is the text a method's descriptor?
fn is_signed(alloc: Global, descriptor: &Text) -> Result<bool, Memory>
    ensures { IfOk result (λ signed. signed ≡ is_signed descriptor.now) }
{
    let call = described(alloc, descriptor)?;
    let has_parts = !(call.params.len() == 0)
        || (call.result.is_some() || is_text(descriptor, b"()V"));
    Ok(has_parts)
}

// Is the class right below Object, and has it this static method itself, with code?
fn owns(class: &ClassFile, owner: &Text, name: &Text, descriptor: &Text) -> bool
    ensures { result ≡ owns_in (record { owner = owner.now; name = name.now; descriptor = descriptor.now }) (Some class.now) }
{
    let methods = class.methods.as_slice();
    !(class.flags & INTERFACE != 0)
        && (is_text(&class.super_name, b"java/lang/Object")
            && has_code_at(methods, static_named(name, descriptor, methods)))
}

// Has the class of the set that is named this static method itself?
fn is_own_call(
    alloc: Global,
    set: &NamedSet,
    owner: &Text,
    name: &Text,
    descriptor: &Text,
) -> Result<bool, Memory>
    ensures { IfOk result (λ own. own ≡ is_own_call set.now (record { owner = owner.now; name = name.now; descriptor = descriptor.now })) }
{
    if is_reserved(alloc, owner)? {
        return Ok(false);
    }
    if is_special_name(name.units()) {
        return Ok(false);
    }
    if !is_signed(alloc, descriptor)? {
        return Ok(false);
    }
    let Some(class) = set.place(owner.units()) else {
        return Ok(false);
    };
    match set.get(class) {
        Some(file) => Ok(owns(file, owner, name, descriptor)),
        None => Ok(false),
    }
}

fn is_call_of(
    alloc: Global,
    set: &NamedSet,
    owner: &Text,
    name: &Text,
    descriptor: &Text,
) -> Result<bool, Memory>
    ensures { IfOk result (λ built. built ≡ is_call_of set.now (Some (record { is_interface = false; member = record { owner = owner.now; name = name.now; descriptor = descriptor.now } }))) }
{
    if native_named(owner, name, descriptor).is_some() {
        return Ok(true);
    }
    is_own_call(alloc, set, owner, name, descriptor)
}

// Is a static call of the method of a Methodref entry built?
fn is_method_call(
    alloc: Global,
    set: &NamedSet,
    pool: &Pool,
    owner: u16,
    member: u16,
) -> Result<bool, Memory>
    ensures { IfOk result (λ built. built ≡ is_call_of set.now (named false (typed_in pool.now (name_in pool.now (entry_at pool.now owner)) (entry_at pool.now member)))) }
{
    let owner = name_at(pool, owner);
    match pool.get(member as usize) {
        Some(Entry::NameAndType(name, descriptor)) => {
            let Some(owner) = owner else {
                return Ok(false);
            };
            let Some(name) = text_at(pool, *name) else {
                return Ok(false);
            };
            let Some(descriptor) = text_at(pool, *descriptor) else {
                return Ok(false);
            };
            is_call_of(alloc, set, owner, name, descriptor)
        }
        _ => Ok(false),
    }
}

// Is a static call by an index of the pool built?
fn is_call(alloc: Global, set: &NamedSet, pool: &Pool, index: usize) -> Result<bool, Memory>
    ensures { IfOk result (λ built. built ≡ is_call set.now pool.now (entry_at pool.now index)) }
{
    match pool.get(index) {
        Some(Entry::MethodRef(owner, member)) => {
            is_method_call(alloc, set, pool, *owner, *member)
        }
        Some(Entry::Utf8(_))
        | Some(Entry::Integer(_))
        | Some(Entry::Long(_))
        | Some(Entry::Str(_))
        | Some(Entry::Class(_))
        | Some(Entry::FieldRef(_, _))
        | Some(Entry::InterfaceMethodRef(_, _))
        | Some(Entry::NameAndType(_, _))
        | None => Ok(false),
    }
}

// For each entry of the pool whether a static call by it is built.
fn calls_of(alloc: Global, set: &NamedSet, pool: &Pool) -> Result<Vec<bool>, Memory>
    ensures { IfOk result (λ calls. calls.items ≡ map (is_call set.now pool.now) pool.now) }
{
    let mut calls = Vec::new(alloc);
    for index in 0..pool.count() {
        calls.push(is_call(alloc, set, pool, index)?)?;
    }
    Ok(calls)
}

// ---- methods

fn is_set(calls: &[bool], index: usize) -> bool
    ensures { result ≡ is_set (slice_get calls.now index) }
{
    match calls.get(index) {
        Some(call) => *call,
        None => false,
    }
}

fn is_row_built(row: Row) -> bool
    ensures { result ≡ is_built row }
{
    match row {
        Row::GetStatic(_)
        | Row::PutStatic(_)
        | Row::GetField(_)
        | Row::PutField(_)
        | Row::InvokeVirtual(_)
        | Row::InvokeSpecial(_)
        | Row::InvokeInterface(_)
        | Row::New(_)
        | Row::NewArray(_)
        | Row::CheckCast(_)
        | Row::InstanceOf(_)
        | Row::ArrayLength
        | Row::ArrayLoad
        | Row::ArrayStore
        | Row::Throw => false,
        _ => true,
    }
}

fn row_is_built(calls: &[bool], row: Row) -> bool
    ensures { result ≡ row_is_built calls.now row }
{
    match row {
        Row::InvokeStatic(index) => is_set(calls, index),
        _ => is_row_built(row),
    }
}

fn instr_is_built(calls: &[bool], instr: &Instr) -> bool
    ensures { result ≡ instr_is_built calls.now instr.now }
{
    row_is_built(calls, row_of(0, instr))
}

fn handler_is_built(pool: &Pool, handler: &Handler) -> bool
    ensures { result ≡ handler_is_built pool.now handler.now }
{
    match caught(pool, handler.catch_type) {
        Caught::All => true,
        Caught::Class(_) => true,
        Caught::Nothing => false,
    }
}

fn code_is_built(calls: &[bool], code: &[Instr]) -> bool
    ensures { result ≡ list_all (instr_is_built calls.now) code.now }
{
    code.iter().all(|instr| instr_is_built(calls, instr))
}

fn handlers_are_built(pool: &Pool, handlers: &[Handler]) -> bool
    ensures { result ≡ list_all (handler_is_built pool.now) handlers.now }
{
    handlers
        .iter()
        .all(|handler| handler_is_built(pool, handler))
}

fn method_is_built(calls: &[bool], pool: &Pool, method: &Method) -> bool
    ensures { result ≡ method_is_built calls.now pool.now method.now }
{
    code_is_built(calls, method.code.as_slice())
        && handlers_are_built(pool, method.handlers.as_slice())
}

fn methods_are_built(calls: &[bool], pool: &Pool, methods: &[Method]) -> bool
    ensures { result ≡ list_all (method_is_built calls.now pool.now) methods.now }
{
    methods
        .iter()
        .all(|method| method_is_built(calls, pool, method))
}

fn class_is_built(alloc: Global, set: &NamedSet, class: &ClassFile) -> Result<bool, Memory>
    ensures { IfOk result (λ built. built ≡ class_is_built set.now class.now) }
{
    let calls = calls_of(alloc, set, &class.pool)?;
    Ok(methods_are_built(calls.as_slice(), &class.pool, class.methods.as_slice()))
}

fn classes_are_built(alloc: Global, set: &NamedSet) -> Result<bool, Memory>
    ensures { IfOk result (λ built. built ≡ list_all (class_is_built set.now) set.now.classes) }
{
    let classes = set.as_set().classes.as_slice();
    for class in classes {
        if !class_is_built(alloc, set, class)? {
            return Ok(false);
        }
    }
    Ok(true)
}

// Has the main class a main itself?
fn main_is_built(alloc: Global, set: &NamedSet) -> Result<bool, Memory>
    ensures { IfOk result (λ built. built ≡ is_own_call set.now (main_member set.now)) }
{
    let name = Text::from_str(alloc, "main")?;
    let descriptor = Text::from_str(alloc, "()V")?;
    let built = is_own_call(alloc, set, &set.as_set().main, &name, &descriptor)?;
    Ok(built)
}

fn set_is_built(alloc: Global, set: &NamedSet) -> Result<bool, Memory>
    ensures { IfOk result (λ built. built ≡ set_is_built set.now) }
{
    if !main_is_built(alloc, set)? {
        return Ok(false);
    }
    classes_are_built(alloc, set)
}

/// Is the machine built for the set: for its `main`, all its instructions, all that they call, and all that handlers catch?
///
/// Built are the instructions that work on a frame alone, and static calls of the run-time system's texts and output and of methods
/// with code that a class right below `Object` has itself, whose name is not kept for the run-time system's packages. Handlers catch
/// all, or a class of exceptions that the run-time system provides.
pub fn is_built(alloc: Global, set: &Set) -> Result<bool, Memory>
    requires { IsLoaded set.now }
    ensures { IfOk result (λ built. built ≡ true → IsBuilt set.now) }
{
    let named = NamedSet::new(alloc, set)?;
    let built = set_is_built(alloc, &named)?;
    Ok(built)
}
