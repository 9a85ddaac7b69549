//! Instructions from bytes (Java Virtual Machine Specification SE 8, 6.5).
ghost use Rattle.std.specs.Prelude.{◌≡◌, Some};
ghost use Rattle.std.specs.Option.{option_map, option_copied};
ghost use Rattle.class_file.specs.InstrBytes.{is_constant, is_interface_method};
ghost use Rattle.class_file.specs.Pools.{Slots};
ghost use Rattle.class_reader.specs.declared.opcodes.Form.TheVariants as form;
ghost use Rattle.class_file.specs.FormatFaults.{operands_at, formed, wide_at, instruction_at, instructions_at, code_array_at};
ghost use Rattle.class_file.specs.Opcodes.{Increment, WideIncrement, CallOfInterface};
ghost use Rattle.class_reader.specs.Reads.{Reads, input_of};
ghost use Rattle.class_reader.specs.Forms.{form_seen, wide_form_seen, kind_of};
ghost use Rattle.class_file.specs.declared.instr.Instr.TheVariants as instr;

use crate::input::{
    Failure, Input, ended, fault, left, part_at, s1_at, s2_at, u1_at, u2_at, u4_at,
};
use crate::opcodes::{Form, Index, Wide, form_of, wide_form_of};
use class_file::format_fault::FormatCode;
use class_file::instr::Instr;
use class_file::pool::{Entry, Pool};
use sqlite_items::Items;
use std::alloc::Global;

// The longest code of a method in bytes.
const MOST: u32 = 65_535;

fn is_constant(entry: Option<&Entry>) -> bool
    ensures { result ≡ is_constant (option_copied entry.entry) }
{
    matches!(entry, Some(Entry::Integer(_) | Entry::Str(_)))
}

// Is it an entry of the kind that the instruction's index has to name?
fn is_of_kind(index: Index, entry: Option<&Entry>) -> bool
    ensures { result ≡ kind_of index (option_copied entry.entry) }
{
    match index {
        Index::LdcW => is_constant(entry),
        Index::Ldc2W => matches!(entry, Some(Entry::Long(_))),
        Index::Getstatic | Index::Putstatic | Index::Getfield | Index::Putfield => {
            matches!(entry, Some(Entry::FieldRef(_, _)))
        }
        Index::Invokevirtual => matches!(entry, Some(Entry::MethodRef(_, _))),
        Index::Invokespecial | Index::Invokestatic => matches!(
            entry,
            Some(Entry::MethodRef(_, _) | Entry::InterfaceMethodRef(_, _))
        ),
        Index::New | Index::Anewarray | Index::Checkcast | Index::Instanceof => {
            matches!(entry, Some(Entry::Class(_)))
        }
    }
}

fn constant_at<'b>(pool: &Pool, input: Input<'b>) -> Result<(Instr, Input<'b>), Failure>
    ensures { Reads (λ i. i) result (operands_at pool.now (form_seen form.Constant) 0 (input_of input.entry)) }
{
    let (index, rest) = u1_at(input)?;
    if is_constant(pool.get(index as usize)) {
        return Ok((Instr::Ldc(index), rest));
    }
    Err(fault(FormatCode::BadIndex, input.at))
}

fn index_at<'b>(pool: &Pool, make: Index, input: Input<'b>) -> Result<(Instr, Input<'b>), Failure>
    ensures { Reads (λ i. i) result (operands_at pool.now (form_seen (form.Index make)) 0 (input_of input.entry)) }
{
    let (index, rest) = u2_at(input)?;
    if is_of_kind(make, pool.get(index as usize)) {
        return Ok((make.with(index), rest));
    }
    Err(fault(FormatCode::BadIndex, input.at))
}

fn increment_at(input: Input) -> Result<(Instr, Input), Failure>
    ensures { (slots : Slots) → Reads (λ i. i) result (operands_at slots (Increment instr.Iinc) 0 (input_of input.entry)) }
{
    let (variable, rest) = u1_at(input)?;
    let (more, rest) = s1_at(rest)?;
    Ok((Instr::Iinc(variable, more), rest))
}

fn wide_increment_at(input: Input) -> Result<(Instr, Input), Failure>
    ensures { (slots : Slots) → Reads (λ i. i) result (operands_at slots (WideIncrement instr.WideIinc) 0 (input_of input.entry)) }
{
    let (variable, rest) = u2_at(input)?;
    let (more, rest) = s2_at(rest)?;
    Ok((Instr::WideIinc(variable, more), rest))
}

fn interface_call_at<'b>(pool: &Pool, input: Input<'b>) -> Result<(Instr, Input<'b>), Failure>
    ensures { Reads (λ i. i) result (operands_at pool.now (form_seen form.InterfaceCall) 0 (input_of input.entry)) }
{
    let (index, counted) = u2_at(input)?;
    if !matches!(
        pool.get(index as usize),
        Some(Entry::InterfaceMethodRef(_, _))
    ) {
        return Err(fault(FormatCode::BadIndex, input.at));
    }
    let (count, zero) = u1_at(counted)?;
    if count == 0 {
        return Err(fault(FormatCode::BadCode, counted.at));
    }
    let (end, rest) = u1_at(zero)?;
    if end != 0 {
        return Err(fault(FormatCode::BadCode, zero.at));
    }
    Ok((Instr::Invokeinterface(index, count), rest))
}

fn operands_at<'b>(pool: &Pool, form: Form, input: Input<'b>) -> Result<(Instr, Input<'b>), Failure>
    ensures { Reads (λ i. i) result (operands_at pool.now (form_seen form) 0 (input_of input.entry)) }
{
    match form {
        Form::Plain(instr) => Ok((instr, input)),
        Form::Byte => {
            let (number, rest) = s1_at(input)?;
            Ok((Instr::Bipush(number), rest))
        }
        Form::Short(make) => {
            let (number, rest) = s2_at(input)?;
            Ok((make.with(number), rest))
        }
        Form::Variable(make) => {
            let (number, rest) = u1_at(input)?;
            Ok((make.with(number), rest))
        }
        Form::Constant => constant_at(pool, input),
        Form::Index(make) => index_at(pool, make, input),
        Form::Increment => increment_at(input),
        Form::InterfaceCall => interface_call_at(pool, input),
    }
}

fn wide_at<'b>(pool: &Pool, input: Input<'b>) -> Result<(Instr, Input<'b>), Failure>
    ensures { Reads (λ i. i) result (wide_at pool.now (input_of input.entry)) }
{
    let (opcode, rest) = u1_at(input)?;
    match wide_form_of(opcode) {
        None => Err(fault(FormatCode::BadCode, input.at)),
        Some(Wide::Variable(make)) => {
            let (number, rest) = u2_at(rest)?;
            Ok((make.with_wide(number), rest))
        }
        Some(Wide::Increment) => wide_increment_at(rest),
    }
}

#[tactic(auto, unfolding(class_file::specs::FormatFaults::instruction_at))]
fn instruction_at<'b>(pool: &Pool, input: Input<'b>) -> Result<(Instr, Input<'b>), Failure>
    ensures { Reads (λ i. i) result (instruction_at pool.now (input_of input.entry)) }
{
    let (opcode, rest) = u1_at(input)?;
    if opcode == 0xC4 {
        return wide_at(pool, rest);
    }
    match form_of(opcode) {
        None => Err(fault(FormatCode::BadCode, input.at)),
        Some(form) => operands_at(pool, form, rest),
    }
}

// Instructions up to the end, of which there are at most so many.
fn instructions_at<'b>(
    alloc: Global,
    pool: &Pool,
    most: u32,
    input: Input<'b>,
) -> Result<(Items<Instr>, Input<'b>), Failure>
    ensures { Reads (λ code. code) result (instructions_at pool.now most (input_of input.entry)) }
{
    let mut code = Items::new(alloc);
    let mut rest = input;
    for _ in 0..most {
        if left(rest) == 0 {
            return Ok((code, rest));
        }
        let (instr, behind) = instruction_at(pool, rest)?;
        code.push(instr)?;
        rest = behind;
    }
    Ok((code, rest))
}

/// The instructions of a method, behind their length in bytes.
#[tactic(auto, unfolding(class_file::specs::FormatFaults::code_array_at, class_file::specs::Inputs::window))]
pub fn code_array_at<'b>(
    alloc: Global,
    pool: &Pool,
    input: Input<'b>,
) -> Result<(Items<Instr>, Input<'b>), Failure>
    ensures { Reads (λ code. code) result (code_array_at pool.now (input_of input.entry)) }
{
    let (count, rest) = u4_at(input)?;
    if count == 0 || MOST < count {
        return Err(fault(FormatCode::BadCode, input.at));
    }
    let (part, rest) = part_at(rest, count as usize)?;
    let (code, end) = instructions_at(alloc, pool, count, part)?;
    ended(end)?;
    Ok((code, rest))
}
