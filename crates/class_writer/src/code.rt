//! The code of methods as bytes (Java Virtual Machine Specification SE 8, 4.7.3).
ghost use Rattle.std.specs.Prelude.{◌≡◌, ◌++◌, ◌<◌, ◌^◌, List, ℕ, None, OnOk, IfOk, length, codes};
ghost use Rattle.std.specs.List.{flat_map, AllByRecursion};
ghost use Rattle.class_file.specs.InstrBytes.{u2, instr_bytes};
ghost use Rattle.class_file.specs.ClassBytes.{CodeIs, CodeAttributesAre, FramesAre};
ghost use Rattle.class_file.specs.WrittenClass.{handler_bytes, table_bytes, sized_bytes, frames_bytes, code_attributes_bytes, code_bytes};
ghost use Rattle.class_writer.specs.Indexes.{AreFirst, slots_of};
ghost use Rattle.class_writer.specs.Fits.{IsSmall, HandlerFits, before_of};

use crate::attributes::{put_attributes, put_known, put_named, put_sized};
use crate::frames::put_frames;
use crate::instrs::put_instr;
use crate::names::Names;
use crate::numbers::put_u2;
use crate::start::start_locals;
use class_file::class::{Attribute, Handler, Method, VType};
use class_file::frames::Frames;
use class_file::instr::Instr;
use kc_text::{Memory, Text};
use shared_list::SharedList;
use std::alloc::Global;

fn put_instrs(out: &mut Vec<u8>, code: &[Instr]) -> Result<(), Memory>
    ensures { OnOk result (out.new.items ≡ out.old.items ++ flat_map instr_bytes code.now) }
{
    for instr in code {
        put_instr(out, instr)?;
    }
    Ok(())
}

fn put_code_array(alloc: Global, out: &mut Vec<u8>, code: &[Instr]) -> Result<(), Memory>
    requires { length (flat_map instr_bytes code.now) < 2 ^ 16 }
    ensures { OnOk result (out.new.items ≡ out.old.items ++ sized_bytes (flat_map instr_bytes code.now)) }
{
    let mut bytes = Vec::new(alloc);
    put_instrs(&mut bytes, code)?;
    put_sized(out, &bytes)
}

fn put_handler(out: &mut Vec<u8>, handler: &Handler) -> Result<(), Memory>
    requires { HandlerFits handler.now }
    ensures { OnOk result (out.new.items ≡ out.old.items ++ handler_bytes handler.now) }
{
    put_u2(out, handler.start as u16)?;
    put_u2(out, handler.end as u16)?;
    put_u2(out, handler.at as u16)?;
    put_u2(out, handler.catch_type)
}

fn put_handlers(out: &mut Vec<u8>, handlers: &[Handler]) -> Result<(), Memory>
    requires few { length handlers.now < 2 ^ 16 }
    requires fit { AllByRecursion HandlerFits handlers.now }
    ensures { OnOk result (out.new.items ≡ out.old.items ++ table_bytes handler_bytes handlers.now) }
{
    put_u2(out, handlers.len() as u16)?;
    for handler in handlers {
        put_handler(out, handler)?;
    }
    Ok(())
}

fn stack_map_name(alloc: Global) -> Result<Text, Memory>
    ensures { IfOk result (λ name. name ≡ codes "StackMapTable") }
{
    Text::from_str(alloc, "StackMapTable")
}

// The contents of the attribute of the frames.
fn stack_map(
    alloc: Global,
    names: &Names,
    start: &SharedList<VType>,
    frames: &Frames,
) -> Result<Vec<u8>, Memory>
    requires first { AreFirst names.now }
    requires small { AllByRecursion IsSmall start.now }
    requires few { length frames.now < 2 ^ 16 }
    requires spelled { (bytes : List ℕ) × FramesAre (slots_of names.now) (before_of None start.now) frames.now bytes }
    ensures { IfOk result (λ v. v.items ≡ u2 (length frames.now) ++ frames_bytes (slots_of names.now) (before_of None start.now) frames.now) }
{
    let mut bytes = Vec::new(alloc);
    put_u2(&mut bytes, frames.len() as u16)?;
    put_frames(alloc, &mut bytes, names, start, frames)?;
    Ok(bytes)
}

fn put_code_attributes(
    alloc: Global,
    out: &mut Vec<u8>,
    names: &Names,
    start: &SharedList<VType>,
    frames: &Frames,
    others: &[Attribute],
) -> Result<(), Memory>
    requires first { AreFirst names.now }
    requires small { AllByRecursion IsSmall start.now }
    requires spelled { (bytes : List ℕ) × CodeAttributesAre (slots_of names.now) (before_of None start.now) frames.now others.now bytes }
    ensures { OnOk result (out.new.items ≡ out.old.items ++ code_attributes_bytes (slots_of names.now) (before_of None start.now) frames.now others.now) }
{
    match frames.as_slice() {
        [] => put_attributes(out, names, others),
        [_, ..] => {
            let body = stack_map(alloc, names, start, frames)?;
            let mut known = Vec::new(alloc);
            put_named(&mut known, names, &stack_map_name(alloc)?, &body)?;
            put_known(out, names, &known, others)
        }
    }
}

/// The contents of the attribute of a method's code.
pub fn code_of(
    alloc: Global,
    names: &Names,
    this: &Text,
    method: &Method,
) -> Result<Vec<u8>, Memory>
    requires first { AreFirst names.now }
    requires spelled { (bytes : List ℕ) × CodeIs (slots_of names.now) this.now method.now bytes }
    ensures { IfOk result (λ v. v.items ≡ code_bytes (slots_of names.now) this.now method.now) }
{
    let mut body = Vec::new(alloc);
    put_u2(&mut body, method.max_stack)?;
    put_u2(&mut body, method.max_locals)?;
    put_code_array(alloc, &mut body, method.code.as_slice())?;
    put_handlers(&mut body, method.handlers.as_slice())?;
    let start = start_locals(alloc, this, method)?;
    put_code_attributes(
        alloc,
        &mut body,
        names,
        &start,
        &method.frames,
        method.code_others.as_slice(),
    )?;
    Ok(body)
}
