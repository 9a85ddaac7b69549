//! What a call by name takes and gives.
ghost use Rattle.std.specs.Prelude.{◌≡◌, ◌∷◌, [], IfOk, map};
ghost use Rattle.std.specs.Option.{option_map, option_copied};
ghost use Rattle.class_file.specs.Pools.{entry_at, text_in, name_in, typed_in, member_of};
ghost use Rattle.class_file.specs.Members.{described, static_member, static_call};
ghost use Rattle.verifier_types.specs.Calls.{call_seen};

use crate::descriptors::{Call, signature};
use crate::named_set::NamedSet;
use crate::names::has_static;
use class_file::class::ClassFile;
use class_file::pool::{Entry, Pool};
use kc_text::{Memory, Text};
use std::alloc::Global;

/// The text of a Utf8 entry.
pub fn text_at(pool: &Pool, index: u16) -> Option<&Text>
    ensures { option_copied result ≡ text_in (entry_at pool.now index) }
{
    match pool.get(index as usize) {
        Some(Entry::Utf8(text)) => Some(text),
        _ => None,
    }
}

/// The name of a Class entry.
pub fn name_at(pool: &Pool, index: u16) -> Option<&Text>
    ensures { option_copied result ≡ name_in pool.now (entry_at pool.now index) }
{
    match pool.get(index as usize) {
        Some(Entry::Class(name)) => text_at(pool, *name),
        _ => None,
    }
}

/// What a method of this descriptor takes and gives; nothing where it is no descriptor.
pub fn described(alloc: Global, descriptor: &Text) -> Result<Call, Memory>
    ensures { IfOk result (λ call. call_seen call ≡ described descriptor.now) }
{
    match signature(alloc, descriptor.units())? {
        Some(call) => Ok(call),
        None => Ok(Call {
            params: Vec::new(alloc),
            result: None,
        }),
    }
}

fn named_call<'a>(
    alloc: Global,
    set: &NamedSet,
    of_interface: bool,
    owner: Option<&'a Text>,
    name: Option<&'a Text>,
    descriptor: Option<&'a Text>,
) -> Result<Option<Call<'a>>, Memory>
    ensures { IfOk result (λ call. option_map call_seen call ≡ static_member set.now of_interface (member_of (option_copied owner.entry) (option_copied name.entry) (option_copied descriptor.entry))) }
{
    let Some(owner) = owner else {
        return Ok(None);
    };
    let Some(name) = name else {
        return Ok(None);
    };
    let Some(descriptor) = descriptor else {
        return Ok(None);
    };
    if !has_static(
        set,
        of_interface,
        owner.units(),
        name.units(),
        descriptor.units(),
    ) {
        return Ok(None);
    }
    signature(alloc, descriptor.units())
}

// The static method of a class's or interface's entry, and of a NameAndType entry.
fn static_member<'a>(
    alloc: Global,
    set: &NamedSet,
    pool: &'a Pool,
    of_interface: bool,
    owner: u16,
    member: u16,
) -> Result<Option<Call<'a>>, Memory>
    ensures { IfOk result (λ call. option_map call_seen call ≡ static_member set.now of_interface (typed_in pool.now (name_in pool.now (entry_at pool.now owner)) (entry_at pool.now member))) }
{
    let owner = name_at(pool, owner);
    match pool.get(member as usize) {
        Some(Entry::NameAndType(name, descriptor)) => named_call(
            alloc,
            set,
            of_interface,
            owner,
            text_at(pool, *name),
            text_at(pool, *descriptor),
        ),
        _ => Ok(None),
    }
}

/// What `invokestatic` takes and gives, or none where the entry names no static method.
pub fn static_call<'a>(
    alloc: Global,
    set: &NamedSet,
    class: &'a ClassFile,
    index: usize,
) -> Result<Option<Call<'a>>, Memory>
    ensures { IfOk result (λ call. option_map call_seen call ≡ static_call set.now class.now index) }
{
    match class.pool.get(index) {
        Some(Entry::MethodRef(owner, member)) => {
            static_member(alloc, set, &class.pool, false, *owner, *member)
        }
        Some(Entry::InterfaceMethodRef(owner, member)) => {
            static_member(alloc, set, &class.pool, true, *owner, *member)
        }
        _ => Ok(None),
    }
}
