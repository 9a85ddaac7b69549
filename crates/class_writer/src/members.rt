//! Fields and methods as bytes (Java Virtual Machine Specification SE 8, 4.5 and 4.6).
ghost use Rattle.std.specs.Prelude.{◌≡◌, ◌++◌, ◌<◌, ◌^◌, List, ℕ, length, OnOk, IfOk, codes};
ghost use Rattle.class_file.specs.ClassBytes.{FieldIs, MethodIs, MethodAttributesAre, Table};
ghost use Rattle.class_file.specs.WrittenClass.{field_bytes, method_attributes_bytes, method_bytes, named_bytes, table_bytes};
ghost use Rattle.class_writer.specs.Indexes.{AreFirst, slots_of};

use crate::attributes::{put_attributes, put_known, put_named};
use crate::code::code_of;
use crate::names::Names;
use crate::numbers::put_u2;
use class_file::class::{Field, Method};
use kc_text::{Memory, Text};
use std::alloc::Global;

fn put_field(out: &mut Vec<u8>, names: &Names, field: &Field) -> Result<(), Memory>
    requires first { AreFirst names.now }
    requires spelled { (bytes : List ℕ) × FieldIs (slots_of names.now) field.now bytes }
    ensures { OnOk result (out.new.items ≡ out.old.items ++ field_bytes (slots_of names.now) field.now) }
{
    put_u2(out, field.flags)?;
    names.put_text(out, &field.name)?;
    names.put_text(out, &field.descriptor)?;
    put_attributes(out, names, field.others.as_slice())
}

/// Puts fields, their count first, at the end.
pub fn put_fields(out: &mut Vec<u8>, names: &Names, fields: &[Field]) -> Result<(), Memory>
    requires first { AreFirst names.now }
    requires spelled { (bytes : List ℕ) × Table (FieldIs (slots_of names.now)) fields.now bytes }
    ensures { OnOk result (out.new.items ≡ out.old.items ++ table_bytes (field_bytes (slots_of names.now)) fields.now) }
{
    put_u2(out, fields.len() as u16)?;
    for field in fields {
        put_field(out, names, field)?;
    }
    Ok(())
}

fn code_name(alloc: Global) -> Result<Text, Memory>
    ensures { IfOk result (λ name. name ≡ codes "Code") }
{
    Text::from_str(alloc, "Code")
}

/// The attribute that holds this code.
fn code_attribute(alloc: Global, names: &Names, code: &[u8]) -> Result<Vec<u8>, Memory>
    requires first { AreFirst names.now }
    requires short { length code.now < 2 ^ 32 }
    ensures { IfOk result (λ known. known.items ≡ named_bytes (slots_of names.now) (codes "Code") code.now) }
{
    let name = code_name(alloc)?;
    let mut known = Vec::new(alloc);
    put_named(&mut known, names, &name, code)?;
    Ok(known)
}

fn put_method_attributes(
    alloc: Global,
    out: &mut Vec<u8>,
    names: &Names,
    this: &Text,
    method: &Method,
) -> Result<(), Memory>
    requires first { AreFirst names.now }
    requires spelled { (bytes : List ℕ) × MethodAttributesAre (slots_of names.now) this.now method.now bytes }
    ensures { OnOk result (out.new.items ≡ out.old.items ++ method_attributes_bytes (slots_of names.now) this.now method.now method.now.code) }
{
    let others = method.others.as_slice();
    match method.code.as_slice() {
        [] => put_attributes(out, names, others),
        [_, ..] => {
            let code = code_of(alloc, names, this, method)?;
            let known = code_attribute(alloc, names, &code)?;
            put_known(out, names, &known, others)
        }
    }
}

fn put_method(
    alloc: Global,
    out: &mut Vec<u8>,
    names: &Names,
    this: &Text,
    method: &Method,
) -> Result<(), Memory>
    requires first { AreFirst names.now }
    requires spelled { (bytes : List ℕ) × MethodIs (slots_of names.now) this.now method.now bytes }
    ensures { OnOk result (out.new.items ≡ out.old.items ++ method_bytes (slots_of names.now) this.now method.now) }
{
    put_u2(out, method.flags)?;
    names.put_text(out, &method.name)?;
    names.put_text(out, &method.descriptor)?;
    put_method_attributes(alloc, out, names, this, method)
}

/// Puts the methods of this class, their count first, at the end.
pub fn put_methods(
    alloc: Global,
    out: &mut Vec<u8>,
    names: &Names,
    this: &Text,
    methods: &[Method],
) -> Result<(), Memory>
    requires first { AreFirst names.now }
    requires spelled { (bytes : List ℕ) × Table (MethodIs (slots_of names.now) this.now) methods.now bytes }
    ensures { OnOk result (out.new.items ≡ out.old.items ++ table_bytes (method_bytes (slots_of names.now) this.now) methods.now) }
{
    put_u2(out, methods.len() as u16)?;
    for method in methods {
        put_method(alloc, out, names, this, method)?;
    }
    Ok(())
}
