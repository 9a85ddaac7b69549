//! Classes as bytes (Java Virtual Machine Specification SE 8, 4.1).
ghost use Rattle.std.specs.Prelude.{◌≡◌, ◌++◌, ◌<◌, ◌^◌, ◌≤◌, List, ℕ, Ok, OnOk, IfOk, length};
ghost use Rattle.class_file.specs.InstrBytes.{u2};
ghost use Rattle.class_file.specs.ClassBytes.{Spells};
ghost use Rattle.class_file.specs.FormatFaults.{class_of};
ghost use Rattle.class_file.specs.WrittenClass.{class_bytes, head_bytes, name_bytes, names_bytes, table_bytes};
ghost use Rattle.class_writer.specs.Indexes.{AreFirst, slots_of};

use crate::attributes::put_attributes;
use crate::members::{put_fields, put_methods};
use crate::names::Names;
use crate::numbers::{put_u2, put_u4};
use crate::pool::put_pool;
use class_file::class::ClassFile;
use kc_text::{Memory, Text};
use std::alloc::Global;

const MAGIC: u32 = 0xCAFE_BABE;

const MAJOR_VERSION: u16 = 52;

fn put_head(out: &mut Vec<u8>) -> Result<(), Memory>
    ensures { OnOk result (out.new.items ≡ out.old.items ++ head_bytes) }
{
    put_u4(out, MAGIC)?;
    put_u2(out, 0)?;
    put_u2(out, MAJOR_VERSION)
}

fn put_interfaces(out: &mut Vec<u8>, names: &Names, interfaces: &[Text]) -> Result<(), Memory>
    requires first { AreFirst names.now }
    requires few { length interfaces.now < 2 ^ 16 }
    ensures { OnOk result (out.new.items ≡ out.old.items ++ table_bytes (name_bytes (slots_of names.now)) interfaces.now) }
{
    put_u2(out, interfaces.len() as u16)?;
    for interface in interfaces {
        names.put_class(out, interface)?;
    }
    Ok(())
}

fn put_names(out: &mut Vec<u8>, names: &Names, class: &ClassFile) -> Result<(), Memory>
    requires first { AreFirst names.now }
    requires pool { slots_of names.now ≡ class.now.pool }
    requires few { length class.now.interfaces < 2 ^ 16 }
    ensures { OnOk result (out.new.items ≡ out.old.items ++ names_bytes class.now) }
{
    put_u2(out, class.flags)?;
    names.put_class(out, &class.this_name)?;
    names.put_class(out, &class.super_name)?;
    put_interfaces(out, names, class.interfaces.as_slice())
}

fn bytes_of(alloc: Global, class: &ClassFile) -> Result<Vec<u8>, Memory>
    requires { (bytes : List ℕ) × Spells class.now bytes }
    ensures { IfOk result (λ bytes. bytes.items ≡ class_bytes class.now) }
{
    let mut out = Vec::new(alloc);
    put_head(&mut out)?;
    put_pool(alloc, &mut out, &class.pool)?;
    let names = Names::of(alloc, &class.pool)?;
    put_names(&mut out, &names, class)?;
    put_fields(&mut out, &names, class.fields.as_slice())?;
    put_methods(
        alloc,
        &mut out,
        &names,
        &class.this_name,
        class.methods.as_slice(),
    )?;
    put_attributes(&mut out, &names, class.others.as_slice())?;
    Ok(out)
}

/// The bytes of a class: a name by the first entry that has it, a frame in the first form that fits, and the attributes of code and
/// frames in front of the others.
pub fn write_class(alloc: Global, class: &ClassFile) -> Result<Vec<u8>, Memory>
    requires { (bytes : List ℕ) × Spells class.now bytes }
    ensures written { IfOk result (λ bytes. bytes.items ≡ class_bytes class.now) }
    ensures spells { IfOk result (λ bytes. Spells class.now bytes.items) }
    ensures shortest { IfOk result (λ bytes. (others : List ℕ) → Spells class.now others → length bytes.items ≤ length others) }
    ensures read { IfOk result (λ bytes. class_of bytes.items ≡ Ok class.now) }
{
    let bytes = bytes_of(alloc, class)?;
    Ok(bytes)
}
