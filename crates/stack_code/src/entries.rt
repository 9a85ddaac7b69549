//! The places of a code that are entered otherwise than from right before them, or stand behind what does not go on.

ghost use Rattle.std.specs.Prelude.{◌≡◌, ◌<◌, ◌+◌, ◌^◌, ◌&&◌, ◌||◌, ◌==◌, not, if◌then◌else◌, [], length, replicate, slice_set, false, true, IfOk, Some, None};
ghost use Rattle.class_file.specs.Rows.{length_of, row_of};
ghost use Rattle.class_file.specs.Verification.{jump_of, goes_on};
ghost use Rattle.stack_code.specs.Walking.{flagged, HasEntries};

use class_file::instr::Instr;
use class_file::row::Row;
use class_file::table::{length_of, row_of};
use kc_text::Memory;
use std::alloc::Global;

// The place to which a row may jump.
fn jump_of(row: Row) -> Option<usize>
    ensures { result ≡ jump_of row }
{
    match row {
        Row::IfZero(_, to) => Some(to),
        Row::IfCompare(_, to) => Some(to),
        Row::IfSame(_, to) => Some(to),
        Row::IfNull(_, to) => Some(to),
        Row::Goto(to) => Some(to),
        _ => None,
    }
}

// May a row go on to the next one?
fn goes_on(row: Row) -> bool
    ensures { result ≡ goes_on row }
{
    match row {
        Row::Goto(_) => false,
        Row::Return => false,
        Row::ReturnValue(_) => false,
        Row::Throw => false,
        _ => true,
    }
}

// The place behind an instruction that does not go on.
fn place_behind(goes: bool, place: usize) -> Option<usize>
    ensures { result ≡ (if goes then None else Some place) }
{
    if goes { None } else { Some(place) }
}

fn mark_place(flags: &mut Vec<bool>, to: usize)
    ensures { flags.new.items ≡ slice_set flags.old.items to true }
{
    if let Some(flag) = flags.get_mut(to) {
        *flag = true;
    }
}

fn mark(flags: &mut Vec<bool>, place: Option<usize>)
    ensures { flags.new.items ≡ flagged flags.old.items place }
{
    if let Some(to) = place {
        mark_place(flags, to);
    }
}

/// So many flags, none of which is set.
pub fn blank(alloc: Global, count: usize) -> Result<Vec<bool>, Memory>
    ensures { IfOk result (λ flags. flags.items ≡ replicate count false) }
{
    let mut flags = Vec::new(alloc);
    for _ in 0..count {
        flags.push(false)?;
    }
    Ok(flags)
}

fn mark_entries(flags: &mut Vec<bool>, code: &[Instr], count: usize)
    requires short { length code.now < 2 ^ 28 }
    requires blank { flags.old.items ≡ replicate count false }
    ensures { HasEntries flags.new.items code.now count 0 [] }
{
    let mut at = 0;
    for instr in code {
        let goes = goes_on(row_of(at, instr));
        mark(flags, jump_of(row_of(at, instr)));
        at += length_of(instr);
        mark(flags, place_behind(goes, at));
    }
}

/// For each of the first `count` bytes of a code whether it is an entry.
pub fn entries_of(alloc: Global, code: &[Instr], count: usize) -> Result<Vec<bool>, Memory>
    requires { length code.now < 2 ^ 28 }
    ensures { IfOk result (λ flags. HasEntries flags.items code.now count 0 []) }
{
    let mut flags = blank(alloc, count)?;
    mark_entries(&mut flags, code, count);
    Ok(flags)
}
