//! Verification types as bytes (Java Virtual Machine Specification SE 8, 4.7.4).
ghost use Rattle.std.specs.Prelude.{◌≡◌, ◌++◌, OnOk, map};
ghost use Rattle.std.specs.List.{flat_map, AllByRecursion};
ghost use Rattle.class_file.specs.WrittenClass.{type_bytes, table_bytes};
ghost use Rattle.class_writer.specs.Indexes.{AreFirst, slots_of};
ghost use Rattle.class_writer.specs.Fits.{IsSmall, AreSmall};

use crate::names::Names;
use crate::numbers::{put_u1, put_u2};
use class_file::class::VType;
use kc_text::Memory;

/// Puts a type at the end.
pub fn put_type(out: &mut Vec<u8>, names: &Names, kept: &VType) -> Result<(), Memory>
    requires first { AreFirst names.now }
    requires small { IsSmall kept.now }
    ensures { OnOk result (out.new.items ≡ out.old.items ++ type_bytes (slots_of names.now) kept.now) }
{
    match kept {
        VType::Top => put_u1(out, 0),
        VType::Integer => put_u1(out, 1),
        VType::Long => put_u1(out, 4),
        VType::Null => put_u1(out, 5),
        VType::UninitializedThis => put_u1(out, 6),
        VType::Object(name) => {
            put_u1(out, 7)?;
            names.put_class(out, name)
        }
        VType::Uninitialized(at) => {
            put_u1(out, 8)?;
            put_u2(out, *at as u16)
        }
    }
}

/// Puts types at the end.
pub fn put_each_type(out: &mut Vec<u8>, names: &Names, types: &[VType]) -> Result<(), Memory>
    requires first { AreFirst names.now }
    requires small { AllByRecursion IsSmall types.now }
    ensures { OnOk result (out.new.items ≡ out.old.items ++ flat_map (type_bytes (slots_of names.now)) types.now) }
{
    for kept in types {
        put_type(out, names, kept)?;
    }
    Ok(())
}

/// Puts types, their count first, at the end.
pub fn put_types(out: &mut Vec<u8>, names: &Names, types: &[VType]) -> Result<(), Memory>
    requires first { AreFirst names.now }
    requires small { AreSmall types.now }
    ensures { OnOk result (out.new.items ≡ out.old.items ++ table_bytes (type_bytes (slots_of names.now)) types.now) }
{
    put_u2(out, types.len() as u16)?;
    put_each_type(out, names, types)
}

/// Puts the types of local variables at the end.
pub fn put_each_local(out: &mut Vec<u8>, names: &Names, locals: &[&VType]) -> Result<(), Memory>
    requires first { AreFirst names.now }
    requires small { AllByRecursion IsSmall (map (λ kept. kept.now) locals.now) }
    ensures { OnOk result (out.new.items ≡ out.old.items ++ flat_map (type_bytes (slots_of names.now)) (map (λ kept. kept.now) locals.now)) }
{
    for kept in locals {
        put_type(out, names, kept)?;
    }
    Ok(())
}

/// Puts the types of local variables, their count first, at the end.
pub fn put_locals(out: &mut Vec<u8>, names: &Names, locals: &[&VType]) -> Result<(), Memory>
    requires first { AreFirst names.now }
    requires small { AreSmall (map (λ kept. kept.now) locals.now) }
    ensures { OnOk result (out.new.items ≡ out.old.items ++ table_bytes (type_bytes (slots_of names.now)) (map (λ kept. kept.now) locals.now)) }
{
    put_u2(out, locals.len() as u16)?;
    put_each_local(out, names, locals)
}
