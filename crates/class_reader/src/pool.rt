//! Constant pools from bytes (Java Virtual Machine Specification SE 8, 4.4).
ghost use Rattle.std.specs.Prelude.{◌≡◌, ◌+◌, ◌++◌, ◌<◌, ◌≤◌, ◌-◌, ◌^◌, [], ◌∷◌, None, Some, length, map, OnOk, IfOk};
ghost use Rattle.class_file.specs.Pools.{Slots};
ghost use Rattle.class_file.specs.Indexing.{added, places_of};
ghost use Rattle.class_file.specs.Inputs.{text_of_modified};
ghost use Rattle.class_file.specs.PoolFaults.{utf8_at, integer_at, long_at, tagged_at, piece_at, entries_at, judged_pool, pool_at};
ghost use Rattle.kc_text.specs.Modified.{AreUnits};
ghost use Rattle.class_reader.specs.Reads.{Reads, input_of};
ghost use Rattle.class_reader.specs.Pools.{IsPiece, IsPool, IsIndex, AreIndexes, uses_of};
ghost use Rattle.class_reader.specs.declared.uses.Wanted.TheVariants as wanted;

use crate::input::{Failure, Input, bytes_at, fault, s4_at, s8_at, u1_at, u2_at};
use crate::uses::{Use, Wanted, judged_uses};
use class_file::format_fault::{FormatCode, FormatFault};
use class_file::pool::{Entry, Pool};
use kc_text::{BadModified, Fail, Memory, Text};
use std::alloc::Global;

// What a text consists of is below 2 ^ 16, which the law of its bytes asks for.
fn are_units(units: &[u16])
    ensures { AreUnits units.now }
{
    let _count = units.len();
}

fn text_of(alloc: Global, bytes: &[u8]) -> Result<Option<Text>, Memory>
    ensures { IfOk result (λ text. text ≡ text_of_modified bytes.now) }
{
    match Text::from_modified(alloc, bytes) {
        Ok(text) => {
            are_units(text.units());
            Ok(Some(text))
        }
        Err(Fail::Found(BadModified { .. })) => Ok(None),
        Err(Fail::Memory) => Err(Memory),
    }
}

fn utf8_at<'b>(alloc: Global, input: Input<'b>) -> Result<(Entry, Input<'b>), Failure>
    ensures { Reads (λ entry. entry) result (utf8_at (input_of input.entry)) }
{
    let (count, rest) = u2_at(input)?;
    let at = rest.at;
    let (bytes, rest) = bytes_at(rest, count as usize)?;
    match text_of(alloc, bytes)? {
        Some(text) => Ok((Entry::Utf8(text), rest)),
        None => Err(fault(FormatCode::BadName, at)),
    }
}

fn integer_at(input: Input) -> Result<(Entry, Input), Failure>
    ensures { Reads (λ entry. entry) result (integer_at (input_of input.entry)) }
{
    let (number, rest) = s4_at(input)?;
    Ok((Entry::Integer(number), rest))
}

fn long_at(input: Input) -> Result<(Entry, Input), Failure>
    ensures { Reads (λ entry. entry) result (long_at (input_of input.entry)) }
{
    let (number, rest) = s8_at(input)?;
    Ok((Entry::Long(number), rest))
}

// An index, which is noted with what it has to name.
fn index_at<'b>(
    uses: &mut Vec<Use>,
    wanted: Wanted,
    input: Input<'b>,
) -> Result<(u16, Input<'b>), Failure>
    ensures { IsIndex result uses.old.items uses.new.items wanted (input_of input.entry) }
{
    let (index, rest) = u2_at(input)?;
    uses.push(Use {
        at: input.at,
        index,
        wanted,
    })?;
    Ok((index, rest))
}

fn indexes_at<'b>(
    uses: &mut Vec<Use>,
    wanted: Wanted,
    other: Wanted,
    input: Input<'b>,
) -> Result<((u16, u16), Input<'b>), Failure>
    ensures { AreIndexes result uses.old.items uses.new.items wanted other (input_of input.entry) }
{
    let (first, rest) = index_at(uses, wanted, input)?;
    let (second, rest) = index_at(uses, other, rest)?;
    Ok(((first, second), rest))
}

fn reference_at<'b>(
    uses: &mut Vec<Use>,
    members: Wanted,
    input: Input<'b>,
) -> Result<((u16, u16), Input<'b>), Failure>
    ensures { AreIndexes result uses.old.items uses.new.items wanted.Class members (input_of input.entry) }
{
    indexes_at(uses, Wanted::Class, members, input)
}

// What is behind a tag at an offset, where so many indexes are left.
#[tactic(auto, unfolding(class_file::specs::PoolFaults::tagged_at))]
fn tagged_at<'b>(
    alloc: Global,
    uses: &mut Vec<Use>,
    left: usize,
    at: usize,
    tag: u8,
    input: Input<'b>,
) -> Result<(Entry, Input<'b>), Failure>
    ensures { IsPiece result uses.old.items uses.new.items (tagged_at left at tag (input_of input.entry)) }
{
    if tag == 1 {
        return utf8_at(alloc, input);
    }
    if tag == 3 {
        return integer_at(input);
    }
    if tag == 5 {
        if left < 2 {
            return Err(fault(FormatCode::BadPool, at));
        }
        return long_at(input);
    }
    if tag == 7 {
        let (name, rest) = index_at(uses, Wanted::TypeName, input)?;
        return Ok((Entry::Class(name), rest));
    }
    if tag == 8 {
        let (text, rest) = index_at(uses, Wanted::Text, input)?;
        return Ok((Entry::Str(text), rest));
    }
    if tag == 9 {
        let ((owner, member), rest) = reference_at(uses, Wanted::FieldsType, input)?;
        return Ok((Entry::FieldRef(owner, member), rest));
    }
    if tag == 10 {
        let ((owner, member), rest) = reference_at(uses, Wanted::MethodsType, input)?;
        return Ok((Entry::MethodRef(owner, member), rest));
    }
    if tag == 11 {
        let ((owner, member), rest) = reference_at(uses, Wanted::MethodsType, input)?;
        return Ok((Entry::InterfaceMethodRef(owner, member), rest));
    }
    if tag == 12 {
        let ((name, descriptor), rest) = indexes_at(uses, Wanted::Text, Wanted::Descriptor, input)?;
        return Ok((Entry::NameAndType(name, descriptor), rest));
    }
    Err(fault(FormatCode::OutOfProfile, at))
}

fn entry_at<'b>(
    alloc: Global,
    uses: &mut Vec<Use>,
    left: usize,
    input: Input<'b>,
) -> Result<(Entry, Input<'b>), Failure>
    ensures { IsPiece result uses.old.items uses.new.items (piece_at left (input_of input.entry)) }
{
    let (tag, rest) = u1_at(input)?;
    tagged_at(alloc, uses, left, input.at, tag, rest)
}

// Reads entries up to the count, at most so many.
fn entries_at<'b>(
    alloc: Global,
    pool: &mut Pool,
    uses: &mut Vec<Use>,
    count: usize,
    input: Input<'b>,
) -> Result<Result<Input<'b>, FormatFault>, Memory>
    requires { count ≤ 65535 }
    ensures { IsPool result pool.new uses.new.items (entries_at count count pool.old (uses_of uses.old.items) (input_of input.entry)) }
{
    let mut rest = input;
    for _ in 0..count {
        if count <= pool.count() {
            return Ok(Ok(rest));
        }
        let left = count - pool.count();
        match entry_at(alloc, uses, left, rest) {
            Err(Fail::Memory) => return Err(Memory),
            Err(Fail::Found(found)) => return Ok(Err(found)),
            Ok((entry, behind)) => {
                pool.append(entry)?;
                rest = behind;
            }
        }
    }
    Ok(Ok(rest))
}

// The entries of a pool of this count, with the indexes in them judged.
fn judged_pool<'b>(
    alloc: Global,
    count: usize,
    input: Input<'b>,
) -> Result<(Pool, Input<'b>), Failure>
    requires { count ≤ 65535 }
    ensures { Reads (λ pool. pool) result (judged_pool count (entries_at count count (None ∷ []) [] (input_of input.entry))) }
{
    let mut pool = Pool::new(alloc);
    let mut uses = Vec::new(alloc);
    let end = entries_at(alloc, &mut pool, &mut uses, count, input)?;
    judged_uses(&pool, count, &uses)?;
    match end {
        Ok(rest) => Ok((pool, rest)),
        Err(found) => Err(Fail::Found(found)),
    }
}

/// A pool, its count first.
#[tactic(auto, unfolding(class_file::specs::PoolFaults::pool_at))]
pub fn pool_at<'b>(alloc: Global, input: Input<'b>) -> Result<(Pool, Input<'b>), Failure>
    ensures { Reads (λ pool. pool) result (pool_at (input_of input.entry)) }
{
    let (count, rest) = u2_at(input)?;
    if count == 0 {
        return Err(fault(FormatCode::BadPool, input.at));
    }
    judged_pool(alloc, count as usize, rest)
}
