//! Bytes that are still to be read, and the numbers at their front.
ghost use Rattle.std.specs.Prelude.{◌≡◌, Ok, Err};
ghost use Rattle.std.specs.Int.{w8, w16, w32, w64};
ghost use Rattle.class_file.specs.Inputs.{bytes_at, number_at, signed_at, sized, read};
ghost use Rattle.class_reader.specs.Reads.{Gives, Reads, Ends, input_of, length_of, opened};
ghost use Rattle.kc_text.specs.declared.errors.Fail.TheVariants as fail;

use class_file::format_fault::{FormatCode, FormatFault};
use kc_text::Fail;

/// What is wrong with the bytes, or that memory ran out.
pub type Failure = Fail<FormatFault>;

/// The bytes of a file from an offset on, up to the end of the part that is read.
#[derive(Clone, Copy)]
pub struct Input<'a> {
    /// The file up to the end of the part.
    pub front: &'a [u8],
    /// The offset of the next byte.
    pub at: usize,
}

/// A fault of the field at this offset.
pub fn fault(code: FormatCode, at: usize) -> Failure
    ensures { result ≡ fail.Found (record { at = at; code = code }) }
{
    Fail::Found(FormatFault { at, code })
}

/// How many bytes are left.
pub fn left(input: Input) -> usize
    ensures { result ≡ length_of input.entry }
{
    input.front.len().saturating_sub(input.at)
}

/// The next bytes, so many of them.
pub fn bytes_at(input: Input, count: usize) -> Result<(&[u8], Input), Failure>
    ensures { Reads (λ bytes. bytes.now) result (bytes_at count (input_of input.entry)) }
{
    if left(input) < count {
        return Err(fault(FormatCode::Truncated, input.at));
    }
    if count == 0 {
        return Ok((&[], input));
    }
    let end = input.at + count;
    let rest = Input {
        front: input.front,
        at: end,
    };
    Ok((&input.front[input.at..end], rest))
}

/// The next bytes as a part of their own.
pub fn part_at(input: Input, count: usize) -> Result<(Input, Input), Failure>
    ensures { Reads (λ part. input_of part) result (opened count (input_of input.entry)) }
{
    if left(input) < count {
        return Err(fault(FormatCode::Truncated, input.at));
    }
    if count == 0 {
        return Ok((
            Input {
                front: &[],
                at: input.at,
            },
            input,
        ));
    }
    let end = input.at + count;
    let part = Input {
        front: &input.front[..end],
        at: input.at,
    };
    let rest = Input {
        front: input.front,
        at: end,
    };
    Ok((part, rest))
}

/// A part has to end here.
pub fn ended(rest: Input) -> Result<(), Failure>
    ensures { Ends result (input_of rest.entry) }
{
    if left(rest) != 0 {
        return Err(fault(FormatCode::Trailing, rest.at));
    }
    Ok(())
}

pub fn u1_at(input: Input) -> Result<(u8, Input), Failure>
    ensures { Reads (λ number. number) result (number_at w8 (input_of input.entry)) }
{
    let (bytes, rest) = bytes_at(input, 1)?;
    Ok((bytes[0], rest))
}

pub fn u2_at(input: Input) -> Result<(u16, Input), Failure>
    ensures { Reads (λ number. number) result (number_at w16 (input_of input.entry)) }
{
    let (bytes, rest) = bytes_at(input, 2)?;
    Ok((u16::from_be_bytes([bytes[0], bytes[1]]), rest))
}

pub fn u4_at(input: Input) -> Result<(u32, Input), Failure>
    ensures { Reads (λ number. number) result (number_at w32 (input_of input.entry)) }
{
    let (bytes, rest) = bytes_at(input, 4)?;
    let number = u32::from_be_bytes([bytes[0], bytes[1], bytes[2], bytes[3]]);
    Ok((number, rest))
}

pub fn s1_at(input: Input) -> Result<(i8, Input), Failure>
    ensures { Reads (λ number. number) result (signed_at w8 (input_of input.entry)) }
{
    let (bytes, rest) = bytes_at(input, 1)?;
    Ok((i8::from_be_bytes([bytes[0]]), rest))
}

pub fn s2_at(input: Input) -> Result<(i16, Input), Failure>
    ensures { Reads (λ number. number) result (signed_at w16 (input_of input.entry)) }
{
    let (bytes, rest) = bytes_at(input, 2)?;
    Ok((i16::from_be_bytes([bytes[0], bytes[1]]), rest))
}

pub fn s4_at(input: Input) -> Result<(i32, Input), Failure>
    ensures { Reads (λ number. number) result (signed_at w32 (input_of input.entry)) }
{
    let (bytes, rest) = bytes_at(input, 4)?;
    let number = i32::from_be_bytes([bytes[0], bytes[1], bytes[2], bytes[3]]);
    Ok((number, rest))
}

pub fn s8_at(input: Input) -> Result<(i64, Input), Failure>
    ensures { Reads (λ number. number) result (signed_at w64 (input_of input.entry)) }
{
    let (bytes, rest) = bytes_at(input, 8)?;
    let number = i64::from_be_bytes([
        bytes[0], bytes[1], bytes[2], bytes[3], bytes[4], bytes[5], bytes[6], bytes[7],
    ]);
    Ok((number, rest))
}
