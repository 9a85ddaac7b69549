//! Constant pools as bytes (Java Virtual Machine Specification SE 8, 4.4).
ghost use Rattle.std.specs.Prelude.{◌≡◌, ◌++◌, ◌<◌, ◌^◌, OnOk, IfSome, length, Some};
ghost use Rattle.class_file.specs.Pools.{entry_at, Slots};
ghost use Rattle.class_file.specs.ClassBytes.{IsPool, IsEntry, entry_bytes, slot_bytes, pool_bytes};
ghost use Rattle.class_file.specs.InstrBytes.{u1, u2};
ghost use Rattle.kc_text.specs.Modified.{modified_of};

use crate::numbers::{put_s4, put_s8, put_u1, put_u2};
use class_file::pool::{Entry, Pool};
use kc_text::{Memory, Text};
use std::alloc::Global;

fn put_utf8(alloc: Global, out: &mut Vec<u8>, text: &Text) -> Result<(), Memory>
    requires { length (modified_of text.now) < 2 ^ 16 }
    ensures { OnOk result (out.new.items ≡ out.old.items ++ (u1 1 ++ u2 (length (modified_of text.now)) ++ modified_of text.now)) }
{
    let bytes = text.to_modified(alloc)?;
    put_u1(out, 1)?;
    put_u2(out, bytes.len() as u16)?;
    out.extend_from_slice(&bytes)?;
    Ok(())
}

fn put_index(out: &mut Vec<u8>, tag: u8, index: u16) -> Result<(), Memory>
    ensures { OnOk result (out.new.items ≡ out.old.items ++ (u1 tag ++ u2 index)) }
{
    put_u1(out, tag)?;
    put_u2(out, index)
}

fn put_indexes(out: &mut Vec<u8>, tag: u8, first: u16, second: u16) -> Result<(), Memory>
    ensures { OnOk result (out.new.items ≡ out.old.items ++ (u1 tag ++ u2 first ++ u2 second)) }
{
    put_index(out, tag, first)?;
    put_u2(out, second)
}

fn put_entry(alloc: Global, out: &mut Vec<u8>, entry: &Entry) -> Result<(), Memory>
    requires { (slots : Slots) × IsEntry slots entry.now }
    ensures { OnOk result (out.new.items ≡ out.old.items ++ entry_bytes entry.now) }
{
    match entry {
        Entry::Utf8(text) => put_utf8(alloc, out, text),
        Entry::Integer(number) => {
            put_u1(out, 3)?;
            put_s4(out, *number)
        }
        Entry::Long(number) => {
            put_u1(out, 5)?;
            put_s8(out, *number)
        }
        Entry::Class(name) => put_index(out, 7, *name),
        Entry::Str(text) => put_index(out, 8, *text),
        Entry::FieldRef(owner, member) => put_indexes(out, 9, *owner, *member),
        Entry::MethodRef(owner, member) => put_indexes(out, 10, *owner, *member),
        Entry::InterfaceMethodRef(owner, member) => put_indexes(out, 11, *owner, *member),
        Entry::NameAndType(name, descriptor) => put_indexes(out, 12, *name, *descriptor),
    }
}

fn put_slot(alloc: Global, out: &mut Vec<u8>, pool: &Pool, index: usize) -> Result<(), Memory>
    requires pool { IsPool pool.now }
    requires within { index < length pool.now }
    ensures { OnOk result (out.new.items ≡ out.old.items ++ slot_bytes (entry_at pool.now index)) }
{
    match pool.get(index) {
        None => Ok(()),
        Some(entry) => put_entry(alloc, out, entry),
    }
}

/// Puts a pool, its count first, at the end.
pub fn put_pool(alloc: Global, out: &mut Vec<u8>, pool: &Pool) -> Result<(), Memory>
    requires { IsPool pool.now }
    ensures { OnOk result (out.new.items ≡ out.old.items ++ pool_bytes pool.now) }
{
    put_u2(out, pool.count() as u16)?;
    for index in 0..pool.count() {
        put_slot(alloc, out, pool, index)?;
    }
    Ok(())
}
