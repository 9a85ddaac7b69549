//! Attributes from bytes (Java Virtual Machine Specification SE 8, 4.7).
ghost use Rattle.std.specs.Prelude.{◌≡◌, ◌||◌, not, IfOk};
ghost use Rattle.class_file.specs.Inputs.{each, table};
ghost use Rattle.class_file.specs.FormatFaults.{kept_bytes, attribute_at, is_there};
ghost use Rattle.class_reader.specs.Reads.{Reads, input_of};

use crate::input::{Failure, Input, bytes_at, u2_at, u4_at};
use crate::names::text_named;
use class_file::class::Attribute;
use class_file::pool::Pool;
use kc_text::{Memory, Text};
use sqlite_items::Items;
use std::alloc::Global;

/// The contents of an attribute that is only kept, behind their length.
pub fn kept_bytes(input: Input) -> Result<(&[u8], Input), Failure>
    ensures { Reads (λ bytes. bytes.now) result (kept_bytes (input_of input.entry)) }
{
    let (count, rest) = u4_at(input)?;
    bytes_at(rest, count as usize)
}

/// May an attribute with a meaning not come here, since there was one or it may not be?
pub fn is_refused<T>(known: &Option<T>, allowed: bool) -> bool
    ensures { result ≡ (is_there known.now || not allowed) }
{
    known.is_some() || !allowed
}

/// An attribute of this name and these contents.
pub fn attribute(alloc: Global, name: &Text, bytes: &[u8]) -> Result<Attribute, Memory>
    ensures { IfOk result (λ attribute. attribute ≡ record { name = name.now; bytes = bytes.now }) }
{
    let name = name.copy(alloc)?;
    let bytes = Items::from_slice(alloc, bytes)?;
    Ok(Attribute { name, bytes })
}

/// An attribute that is only kept.
#[tactic(auto, unfolding(class_file::specs::FormatFaults::attribute_at))]
fn attribute_at<'b>(
    alloc: Global,
    pool: &Pool,
    input: Input<'b>,
) -> Result<(Attribute, Input<'b>), Failure>
    ensures { Reads (λ attribute. attribute) result (attribute_at pool.now (input_of input.entry)) }
{
    let (name, rest) = text_named(pool, input)?;
    let (bytes, rest) = kept_bytes(rest)?;
    Ok((attribute(alloc, name, bytes)?, rest))
}

fn each_attribute<'b>(
    alloc: Global,
    pool: &Pool,
    count: u16,
    input: Input<'b>,
) -> Result<(Items<Attribute>, Input<'b>), Failure>
    ensures { Reads (λ attributes. attributes) result (each (attribute_at pool.now) count (input_of input.entry)) }
{
    let mut attributes = Items::new(alloc);
    let mut rest = input;
    for _ in 0..count {
        let (attribute, behind) = attribute_at(alloc, pool, rest)?;
        attributes.push(attribute)?;
        rest = behind;
    }
    Ok((attributes, rest))
}

/// Attributes that are only kept, their count first.
#[tactic(auto, unfolding(class_file::specs::Inputs::table))]
pub fn attributes_at<'b>(
    alloc: Global,
    pool: &Pool,
    input: Input<'b>,
) -> Result<(Items<Attribute>, Input<'b>), Failure>
    ensures { Reads (λ attributes. attributes) result (table (attribute_at pool.now) (input_of input.entry)) }
{
    let (count, rest) = u2_at(input)?;
    each_attribute(alloc, pool, count, rest)
}
