//! Classes from bytes (Java Virtual Machine Specification SE 8, 4.1).
ghost use Rattle.std.specs.Prelude.{◌≡◌, IfOk};
ghost use Rattle.class_file.specs.declared.class.ClassFile.{ClassFile};
ghost use Rattle.class_file.specs.ClassBytes.{AreBytes, Spells};
ghost use Rattle.class_file.specs.Inputs.{each, table};
ghost use Rattle.class_file.specs.FormatFaults.{class_named, head_at, class_at, class_of};
ghost use Rattle.kc_text.specs.Fail.{IfFound};
ghost use Rattle.class_reader.specs.Reads.{Gives, Reads, input_of};

use crate::attributes::attributes_at;
use crate::input::{Failure, Input, ended, fault, u2_at, u4_at};
use crate::members::{fields_at, methods_at};
use crate::names::class_named;
use crate::pool::pool_at;
use class_file::class::ClassFile;
use class_file::format_fault::{FormatCode, FormatFault};
use class_file::pool::Pool;
use kc_text::{Fail, Text};
use sqlite_items::Items;
use std::alloc::Global;

const MAGIC: u32 = 0xCAFE_BABE;

const MAJOR_VERSION: u16 = 52;

fn head_at(input: Input) -> Result<Input, Failure>
    ensures { Gives input_of result (head_at (input_of input.entry)) }
{
    let (magic, minor_at) = u4_at(input)?;
    if magic != MAGIC {
        return Err(fault(FormatCode::BadMagic, input.at));
    }
    let (minor, major_at) = u2_at(minor_at)?;
    if minor != 0 {
        return Err(fault(FormatCode::Version, minor_at.at));
    }
    let (major, rest) = u2_at(major_at)?;
    if major != MAJOR_VERSION {
        return Err(fault(FormatCode::Version, major_at.at));
    }
    Ok(rest)
}

fn interface_at<'b>(
    alloc: Global,
    pool: &Pool,
    input: Input<'b>,
) -> Result<(Text, Input<'b>), Failure>
    ensures { Reads (λ name. name) result (class_named pool.now (input_of input.entry)) }
{
    let (name, rest) = class_named(pool, input)?;
    Ok((name.copy(alloc)?, rest))
}

fn each_interface<'b>(
    alloc: Global,
    pool: &Pool,
    count: u16,
    input: Input<'b>,
) -> Result<(Items<Text>, Input<'b>), Failure>
    ensures { Reads (λ names. names) result (each (class_named pool.now) count (input_of input.entry)) }
{
    let mut names = Items::new(alloc);
    let mut rest = input;
    for _ in 0..count {
        let (name, behind) = interface_at(alloc, pool, rest)?;
        names.push(name)?;
        rest = behind;
    }
    Ok((names, rest))
}

#[tactic(auto, unfolding(class_file::specs::Inputs::table))]
fn interfaces_at<'b>(
    alloc: Global,
    pool: &Pool,
    input: Input<'b>,
) -> Result<(Items<Text>, Input<'b>), Failure>
    ensures { Reads (λ names. names) result (table (class_named pool.now) (input_of input.entry)) }
{
    let (count, rest) = u2_at(input)?;
    each_interface(alloc, pool, count, rest)
}

#[tactic(auto, unfolding(class_file::specs::FormatFaults::class_at))]
fn class_at<'b>(alloc: Global, input: Input<'b>) -> Result<(ClassFile, Input<'b>), Failure>
    ensures { Reads (λ class. class) result (class_at (input_of input.entry)) }
{
    let start = head_at(input)?;
    let (pool, rest) = pool_at(alloc, start)?;
    let (flags, rest) = u2_at(rest)?;
    let (this_name, rest) = interface_at(alloc, &pool, rest)?;
    let (super_name, rest) = interface_at(alloc, &pool, rest)?;
    let (interfaces, rest) = interfaces_at(alloc, &pool, rest)?;
    let (fields, rest) = fields_at(alloc, &pool, rest)?;
    let (methods, rest) = methods_at(alloc, &pool, &this_name, rest)?;
    let (others, rest) = attributes_at(alloc, &pool, rest)?;
    let class = ClassFile {
        pool,
        flags,
        this_name,
        super_name,
        interfaces,
        fields,
        methods,
        others,
    };
    Ok((class, rest))
}

fn class_of(alloc: Global, bytes: &[u8]) -> Result<ClassFile, Failure>
    ensures { Gives (λ class. class) result (class_of bytes.now) }
{
    let (class, rest) = class_at(
        alloc,
        Input {
            front: bytes,
            at: 0,
        },
    )?;
    ended(rest)?;
    Ok(class)
}

// Each byte is below 2 ^ 8, which the laws of class bytes ask for.
fn are_bytes(bytes: &[u8])
    ensures { AreBytes bytes.now }
{
    let _count = bytes.len();
}

/// The class that the bytes spell, or the first fault of bytes that spell none: the first by its offset, and at one field the one
/// whose code stands first in [`FormatCode`].
pub fn read_class(alloc: Global, bytes: &[u8]) -> Result<ClassFile, Fail<FormatFault>>
    ensures exact { Gives (λ class. class) result (class_of bytes.now) }
    ensures found { IfOk result (λ class. Spells class bytes.now) }
    ensures refused { IfFound result (λ _. (class : ClassFile) → ¬ (Spells class bytes.now)) }
{
    are_bytes(bytes);
    class_of(alloc, bytes)
}
