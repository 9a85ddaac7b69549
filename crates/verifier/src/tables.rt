// Tables of what is looked up by places in bytes.
ghost use Rattle.std.specs.Prelude.{◌≡◌, ◌++◌, ◌∷◌, ◌+◌, ◌≤◌, ◌<◌, ◌^◌, [], replicate, slice_set, slice_get, false, true, length, slice_index_or, IfOk, OnOk, Some, None};
ghost use Rattle.std.specs.Option.{option_copied};
ghost use Rattle.class_file.specs.Rows.{length_of, row_of};
ghost use Rattle.class_file.specs.Verification.{jump_of, is_place, is_target, is_handler};
ghost use Rattle.verifier.specs.Flags.{flags_of, instr_flags, marked, is_free, placed, HasTargets, HasHandlers, HasFrames, IsMarked};

use crate::flow::jump_of;
use class_file::class::{Frame, Handler, Method};
use class_file::instr::Instr;
use class_file::table::{length_of, row_of};
use kc_text::Memory;
use std::alloc::Global;

fn push_starts(flags: &mut Vec<bool>, count: usize) -> Result<(), Memory>
    requires { 0 < count }
    ensures { OnOk result (flags.new.items ≡ flags.old.items ++ instr_flags count) }
{
    flags.push(true)?;
    for _ in 0..count - 1 {
        flags.push(false)?;
    }
    Ok(())
}

/// For each byte of a code whether an instruction starts there.
pub fn flags_of(alloc: Global, code: &[Instr]) -> Result<Vec<bool>, Memory>
    ensures { IfOk result (λ flags. flags.items ≡ flags_of code.now) }
{
    let mut flags = Vec::new(alloc);
    for instr in code {
        push_starts(&mut flags, length_of(instr))?;
    }
    Ok(flags)
}

/// Is the flag of a place set?
pub fn flag_at(flags: &[bool], pc: usize) -> bool
    ensures { result ≡ slice_index_or flags.now pc false }
{
    match flags.get(pc) {
        Some(flag) => *flag,
        None => false,
    }
}

fn is_place(place: Option<usize>, pc: usize) -> bool
    ensures { result ≡ is_place place pc }
{
    match place {
        None => false,
        Some(to) => to == pc,
    }
}

/// Does a jump of a code lead to a place?
pub fn is_target(code: &[Instr], pc: usize) -> bool
    requires { length code.now < 2 ^ 28 }
    ensures { result ≡ is_target 0 code.now pc }
{
    let mut at = 0;
    for instr in code {
        if is_place(jump_of(row_of(at, instr)), pc) {
            return true;
        }
        at += length_of(instr);
    }
    false
}

/// Does a handler begin at a place?
pub fn is_handler(handlers: &[Handler], pc: usize) -> bool
    ensures { result ≡ is_handler handlers.now pc }
{
    for handler in handlers {
        if handler.at == pc {
            return true;
        }
    }
    false
}

fn mark(flags: &mut Vec<bool>, place: Option<usize>)
    ensures { flags.new.items ≡ marked flags.old.items place }
{
    if let Some(to) = place {
        mark_place(flags, to);
    }
}

fn mark_place(flags: &mut Vec<bool>, to: usize)
    ensures { flags.new.items ≡ slice_set flags.old.items to true }
{
    if let Some(flag) = flags.get_mut(to) {
        *flag = true;
    }
}

fn blank(alloc: Global, count: usize) -> Result<Vec<bool>, Memory>
    ensures { IfOk result (λ flags. flags.items ≡ replicate count false) }
{
    let mut flags = Vec::new(alloc);
    for _ in 0..count {
        flags.push(false)?;
    }
    Ok(flags)
}

fn mark_targets(flags: &mut Vec<bool>, code: &[Instr], count: usize)
    requires short { length code.now < 2 ^ 28 }
    requires blank { flags.old.items ≡ replicate count false }
    ensures { HasTargets flags.new.items code.now }
{
    let mut at = 0;
    for instr in code {
        mark(flags, jump_of(row_of(at, instr)));
        at += length_of(instr);
    }
}

fn mark_handlers(flags: &mut Vec<bool>, _code: &[Instr], handlers: &[Handler])
    requires { HasTargets flags.old.items _code.now }
    ensures { HasHandlers flags.new.items _code.now handlers.now }
{
    for handler in handlers {
        mark_place(flags, handler.at);
    }
}

/// For each byte of a code whether a frame must be given there.
pub fn marks_of(alloc: Global, method: &Method, count: usize) -> Result<Vec<bool>, Memory>
    requires { length method.now.code < 2 ^ 28 }
    ensures { IfOk result (λ marks. IsMarked marks.items method.now) }
{
    let code = method.code.as_slice();
    let handlers = method.handlers.as_slice();
    let mut flags = blank(alloc, count)?;
    mark_targets(&mut flags, code, count);
    mark_handlers(&mut flags, code, handlers);
    Ok(flags)
}

fn unframed(alloc: Global, count: usize) -> Result<Vec<Option<usize>>, Memory>
    ensures { IfOk result (λ table. table.items ≡ replicate count None) }
{
    let mut table = Vec::new(alloc);
    for _ in 0..count {
        table.push(None)?;
    }
    Ok(table)
}

fn is_free(table: &[Option<usize>], at: usize) -> bool
    ensures { result ≡ is_free (slice_get table.now at) }
{
    match table.get(at) {
        Some(None) => true,
        Some(Some(_)) => false,
        None => false,
    }
}

fn set_number(table: &mut Vec<Option<usize>>, at: usize, number: usize)
    ensures { table.new.items ≡ slice_set table.old.items at (Some number) }
{
    if let Some(entry) = table.get_mut(at) {
        *entry = Some(number);
    }
}

// Puts a number at a place of the table where none is yet.
fn place_first(table: &mut Vec<Option<usize>>, at: usize, number: usize)
    ensures { table.new.items ≡ placed table.old.items at number }
{
    if is_free(table, at) {
        set_number(table, at, number);
    }
}

fn place_frames(table: &mut Vec<Option<usize>>, frames: &[Frame], count: usize)
    requires { table.old.items ≡ replicate count None }
    ensures { HasFrames table.new.items frames.now }
{
    for (number, frame) in frames.iter().enumerate() {
        place_first(table, frame.at, number);
    }
}

/// For each byte of a code the number of the first frame that is given there.
pub fn frames_of(
    alloc: Global,
    frames: &[Frame],
    count: usize,
) -> Result<Vec<Option<usize>>, Memory>
    ensures { IfOk result (λ table. HasFrames table.items frames.now) }
{
    let mut table = unframed(alloc, count)?;
    place_frames(&mut table, frames, count);
    Ok(table)
}

/// The frame of a number.
pub fn frame_numbered(frames: &[Frame], number: usize) -> Option<&Frame>
    ensures { option_copied result ≡ slice_get frames.now number }
{
    frames.get(number)
}
