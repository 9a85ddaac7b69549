//! Attributes as bytes (Java Virtual Machine Specification SE 8, 4.7).
ghost use Rattle.std.specs.Prelude.{◌≡◌, ◌++◌, ◌+◌, ◌<◌, ◌^◌, List, ℕ, OnOk, length};
ghost use Rattle.std.specs.List.{flat_map};
ghost use Rattle.class_file.specs.InstrBytes.{u2};
ghost use Rattle.class_file.specs.ClassBytes.{AttributeIs, Each, Table};
ghost use Rattle.class_file.specs.WrittenClass.{sized_bytes, named_bytes, attribute_bytes, attributes_bytes, table_bytes};
ghost use Rattle.class_writer.specs.Indexes.{AreFirst, slots_of};

use crate::names::Names;
use crate::numbers::{put_u2, put_u4};
use class_file::class::Attribute;
use kc_text::{Memory, Text};

/// Puts a length and the bytes of that length at the end.
pub fn put_sized(out: &mut Vec<u8>, body: &[u8]) -> Result<(), Memory>
    requires { length body.now < 2 ^ 32 }
    ensures { OnOk result (out.new.items ≡ out.old.items ++ sized_bytes body.now) }
{
    put_u4(out, body.len() as u32)?;
    out.extend_from_slice(body)?;
    Ok(())
}

/// Puts an attribute of this name and contents at the end.
pub fn put_named(out: &mut Vec<u8>, names: &Names, name: &Text, body: &[u8]) -> Result<(), Memory>
    requires first { AreFirst names.now }
    requires short { length body.now < 2 ^ 32 }
    ensures { OnOk result (out.new.items ≡ out.old.items ++ named_bytes (slots_of names.now) name.now body.now) }
{
    names.put_text(out, name)?;
    put_sized(out, body)
}

fn put_attribute(out: &mut Vec<u8>, names: &Names, attribute: &Attribute) -> Result<(), Memory>
    requires first { AreFirst names.now }
    requires spelled { (bytes : List ℕ) × AttributeIs (slots_of names.now) attribute.now bytes }
    ensures { OnOk result (out.new.items ≡ out.old.items ++ attribute_bytes (slots_of names.now) attribute.now) }
{
    put_named(out, names, &attribute.name, attribute.bytes.as_slice())
}

fn put_each(out: &mut Vec<u8>, names: &Names, attributes: &[Attribute]) -> Result<(), Memory>
    requires first { AreFirst names.now }
    requires spelled { (bytes : List ℕ) × Each (AttributeIs (slots_of names.now)) attributes.now bytes }
    ensures { OnOk result (out.new.items ≡ out.old.items ++ flat_map (attribute_bytes (slots_of names.now)) attributes.now) }
{
    for attribute in attributes {
        put_attribute(out, names, attribute)?;
    }
    Ok(())
}

/// Puts attributes, their count first, at the end.
pub fn put_attributes(
    out: &mut Vec<u8>,
    names: &Names,
    attributes: &[Attribute],
) -> Result<(), Memory>
    requires first { AreFirst names.now }
    requires spelled { (bytes : List ℕ) × Table (AttributeIs (slots_of names.now)) attributes.now bytes }
    ensures { OnOk result (out.new.items ≡ out.old.items ++ table_bytes (attribute_bytes (slots_of names.now)) attributes.now) }
{
    put_u2(out, attributes.len() as u16)?;
    put_each(out, names, attributes)
}

/// Puts attributes of which the first is this one, their count first, at the end.
pub fn put_known(
    out: &mut Vec<u8>,
    names: &Names,
    known: &[u8],
    others: &[Attribute],
) -> Result<(), Memory>
    requires first { AreFirst names.now }
    requires small { length others.now + 1 < 2 ^ 16 }
    requires spelled { (bytes : List ℕ) × Each (AttributeIs (slots_of names.now)) others.now bytes }
    ensures { OnOk result (out.new.items ≡ out.old.items ++ attributes_bytes (slots_of names.now) known.now others.now) }
{
    put_u2(out, (others.len() + 1) as u16)?;
    out.extend_from_slice(known)?;
    put_each(out, names, others)
}
