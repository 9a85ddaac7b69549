//! Names by their indexes in the pool.
ghost use Rattle.std.specs.Prelude.{◌≡◌};
ghost use Rattle.std.specs.Option.{option_copied};
ghost use Rattle.class_file.specs.Inputs.{Input};
ghost use Rattle.class_file.specs.ClassBytes.{text_at};
ghost use Rattle.class_file.specs.FormatFaults.{text_named, type_named, class_named, catch_type_at};
ghost use Rattle.class_reader.specs.Reads.{Reads, input_of};

use crate::input::{Failure, Input, fault, u2_at};
use class_file::format_fault::FormatCode;
use class_file::pool::{Entry, Pool};
use kc_text::Text;
use verifier_types::{is_array_name, name_at};

/// The text of a Utf8 entry.
pub fn text_at(pool: &Pool, index: u16) -> Option<&Text>
    ensures { option_copied result ≡ text_at pool.now index }
{
    match pool.get(index as usize) {
        Some(Entry::Utf8(text)) => Some(text),
        _ => None,
    }
}

/// The text that an index stands for.
pub fn text_named<'a, 'b>(
    pool: &'a Pool,
    input: Input<'b>,
) -> Result<(&'a Text, Input<'b>), Failure>
    ensures { Reads (λ text. text.now) result (text_named pool.now (input_of input.entry)) }
{
    let (index, rest) = u2_at(input)?;
    match text_at(pool, index) {
        Some(text) => Ok((text, rest)),
        None => Err(fault(FormatCode::BadIndex, input.at)),
    }
}

/// The name of the class or the array that an index stands for.
pub fn type_named<'a, 'b>(
    pool: &'a Pool,
    input: Input<'b>,
) -> Result<(&'a Text, Input<'b>), Failure>
    ensures { Reads (λ text. text.now) result (type_named pool.now (input_of input.entry)) }
{
    let (index, rest) = u2_at(input)?;
    match name_at(pool, index) {
        Some(name) => Ok((name, rest)),
        None => Err(fault(FormatCode::BadIndex, input.at)),
    }
}

/// The name of the class that an index stands for.
pub fn class_named<'a, 'b>(
    pool: &'a Pool,
    input: Input<'b>,
) -> Result<(&'a Text, Input<'b>), Failure>
    ensures { Reads (λ text. text.now) result (class_named pool.now (input_of input.entry)) }
{
    let (name, rest) = type_named(pool, input)?;
    if is_array_name(name.units()) {
        return Err(fault(FormatCode::BadIndex, input.at));
    }
    Ok((name, rest))
}

/// The index of a Class entry, or 0.
pub fn catch_type_at<'b>(pool: &Pool, input: Input<'b>) -> Result<(u16, Input<'b>), Failure>
    ensures { Reads (λ index. index) result (catch_type_at pool.now (input_of input.entry)) }
{
    let (index, rest) = u2_at(input)?;
    if index == 0 || name_at(pool, index).is_some() {
        return Ok((index, rest));
    }
    Err(fault(FormatCode::BadIndex, input.at))
}
