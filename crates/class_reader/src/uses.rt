//! The indexes that stand in a pool, each judged by what it has to name.
ghost use Rattle.std.specs.Prelude.{◌≡◌, Ok};
ghost use Rattle.class_file.specs.PoolFaults.{found_at, judged, uses_fault, of_text, of_class, of_type};
ghost use Rattle.class_file.specs.DescriptorFaults.{is_any_field_descriptor, is_any_method_descriptor, descriptor_fault, type_name_fault};
ghost use Rattle.class_reader.specs.Reads.{Gives};
ghost use Rattle.class_reader.specs.Pools.{found_of, wanted_of, uses_of, JudgedText, JudgedType, no_fault};

use crate::descriptors::{
    descriptor_fault, is_any_field_descriptor, is_any_method_descriptor, type_name_fault,
};
use crate::input::{Failure, fault};
use class_file::format_fault::FormatCode;
use class_file::pool::{Entry, Pool};
use kc_text::Text;

/// What an index has to name.
#[derive(Clone, Copy)]
pub enum Wanted {
    Text,
    /// The text of a class's name or of an array's descriptor.
    TypeName,
    /// The text of a field's or a method's descriptor.
    Descriptor,
    Class,
    /// A NameAndType of fields.
    FieldsType,
    /// A NameAndType of methods.
    MethodsType,
}

/// An index that stands in the pool, with its offset in bytes.
#[derive(Clone, Copy)]
pub struct Use {
    pub at: usize,
    pub index: u16,
    pub wanted: Wanted,
}

/// What stands at an index of a pool of which the first entries are read.
#[derive(Clone, Copy)]
pub enum Found<'a> {
    Nothing,
    Unread,
    There(&'a Entry),
}

fn found_at(pool: &Pool, count: usize, index: u16) -> Found
    ensures { found_of result ≡ found_at pool.now count index }
{
    let index = index as usize;
    if index == 0 || count <= index {
        return Found::Nothing;
    }
    if pool.count() <= index {
        return Found::Unread;
    }
    match pool.get(index) {
        None => Found::Nothing,
        Some(entry) => Found::There(entry),
    }
}

// The text that was found, if it is read yet.
fn text_found(found: Found) -> Result<Option<&Text>, FormatCode>
    ensures { JudgedText result (found_of found.entry) }
{
    match found {
        Found::There(Entry::Utf8(text)) => Ok(Some(text)),
        Found::Unread => Ok(None),
        _ => Err(FormatCode::BadIndex),
    }
}

// The descriptor of the member that was found, if it is read yet.
fn descriptor_found<'a>(
    pool: &'a Pool,
    count: usize,
    found: Found<'a>,
) -> Result<Option<&'a Text>, FormatCode>
    ensures { JudgedType pool.now count result (found_of found.entry) }
{
    match found {
        Found::There(Entry::NameAndType(_, descriptor)) => {
            match found_at(pool, count, *descriptor) {
                Found::There(Entry::Utf8(text)) => Ok(Some(text)),
                _ => Ok(None),
            }
        }
        Found::Unread => Ok(None),
        _ => Err(FormatCode::BadIndex),
    }
}

fn class_fault(found: Found) -> Option<FormatCode>
    ensures { result ≡ of_class (found_of found.entry) }
{
    match found {
        Found::There(Entry::Class(_)) => None,
        Found::Unread => None,
        _ => Some(FormatCode::BadIndex),
    }
}

fn text_fault(found: Found) -> Option<FormatCode>
    ensures { result ≡ of_text (found_of found.entry) no_fault }
{
    text_found(found).err()
}

fn type_name_found_fault(found: Found) -> Option<FormatCode>
    ensures { result ≡ of_text (found_of found.entry) type_name_fault }
{
    match text_found(found) {
        Ok(Some(text)) => type_name_fault(text.units()),
        Ok(None) => None,
        Err(code) => Some(code),
    }
}

fn descriptor_found_fault(found: Found) -> Option<FormatCode>
    ensures { result ≡ of_text (found_of found.entry) descriptor_fault }
{
    match text_found(found) {
        Ok(Some(text)) => descriptor_fault(text.units()),
        Ok(None) => None,
        Err(code) => Some(code),
    }
}

fn field_type_fault(pool: &Pool, count: usize, found: Found) -> Option<FormatCode>
    ensures { result ≡ of_type pool.now count is_any_method_descriptor (found_of found.entry) }
{
    match descriptor_found(pool, count, found) {
        Ok(Some(text)) => {
            if is_any_method_descriptor(text.units()) {
                Some(FormatCode::BadDescriptor)
            } else {
                None
            }
        }
        Ok(None) => None,
        Err(code) => Some(code),
    }
}

fn method_type_fault(pool: &Pool, count: usize, found: Found) -> Option<FormatCode>
    ensures { result ≡ of_type pool.now count is_any_field_descriptor (found_of found.entry) }
{
    match descriptor_found(pool, count, found) {
        Ok(Some(text)) => {
            if is_any_field_descriptor(text.units()) {
                Some(FormatCode::BadDescriptor)
            } else {
                None
            }
        }
        Ok(None) => None,
        Err(code) => Some(code),
    }
}

// What is wrong with what stands at an index.
fn judged(pool: &Pool, count: usize, wanted: Wanted, found: Found) -> Option<FormatCode>
    ensures { result ≡ judged pool.now count (wanted_of wanted) (found_of found.entry) }
{
    match wanted {
        Wanted::Text => text_fault(found),
        Wanted::TypeName => type_name_found_fault(found),
        Wanted::Descriptor => descriptor_found_fault(found),
        Wanted::Class => class_fault(found),
        Wanted::FieldsType => field_type_fault(pool, count, found),
        Wanted::MethodsType => method_type_fault(pool, count, found),
    }
}

fn use_fault(pool: &Pool, count: usize, of: Use) -> Option<FormatCode>
    ensures { result ≡ judged pool.now count (wanted_of of.wanted) (found_at pool.now count of.index) }
{
    judged(pool, count, of.wanted, found_at(pool, count, of.index))
}

/// The first of the indexes that does not name what it has to is a fault.
pub fn judged_uses(pool: &Pool, count: usize, uses: &[Use]) -> Result<(), Failure>
    ensures { Gives (λ x. x) result (uses_fault pool.now count (uses_of uses.now) (Ok tt)) }
{
    for of in uses {
        if let Some(code) = use_fault(pool, count, *of) {
            return Err(fault(code, of.at));
        }
    }
    Ok(())
}
