//! Frames as bytes, each in the first form that fits (Java Virtual Machine Specification SE 8, 4.7.4).
ghost use Rattle.std.specs.Prelude.{◌≡◌, ◌≤◌, ◌++◌, List, ℕ, None, Some, OnOk, drop, length};
ghost use Rattle.std.specs.List.{AllByRecursion};
ghost use Rattle.class_file.specs.declared.class.VType.{VType};
ghost use Rattle.class_file.specs.ClassBytes.{FramesAre, behind_frame};
ghost use Rattle.class_file.specs.Fronts.{common_front, fronts_behind};
ghost use Rattle.class_file.specs.WrittenClass.{behind, delta_of, same_bytes, item_form_bytes, item_bytes, full_bytes, longer_bytes, shorter_bytes, no_stack_bytes, one_item_bytes, form_bytes, frames_bytes};
ghost use Rattle.class_writer.specs.Indexes.{AreFirst, slots_of};
ghost use Rattle.class_writer.specs.Fits.{IsSmall, FrameFits, IsBehind, before_of};

use crate::names::Names;
use crate::numbers::{put_u1, put_u2};
use crate::types::{put_each_local, put_locals, put_type, put_types};
use class_file::class::{Frame, VType};
use class_file::frames::{Frames, common_front};
use kc_text::Memory;
use shared_list::SharedList;
use std::alloc::Global;

fn put_same(out: &mut Vec<u8>, delta: u16) -> Result<(), Memory>
    ensures { OnOk result (out.new.items ≡ out.old.items ++ same_bytes delta) }
{
    if delta < 64 {
        return put_u1(out, delta as u8);
    }
    put_u1(out, 251)?;
    put_u2(out, delta)
}

fn put_item_form(out: &mut Vec<u8>, delta: u16) -> Result<(), Memory>
    ensures { OnOk result (out.new.items ≡ out.old.items ++ item_form_bytes delta) }
{
    if delta < 64 {
        return put_u1(out, 64 + delta as u8);
    }
    put_u1(out, 247)?;
    put_u2(out, delta)
}

fn put_item(out: &mut Vec<u8>, names: &Names, delta: u16, item: &VType) -> Result<(), Memory>
    requires first { AreFirst names.now }
    requires small { IsSmall item.now }
    ensures { OnOk result (out.new.items ≡ out.old.items ++ item_bytes (slots_of names.now) delta item.now) }
{
    put_item_form(out, delta)?;
    put_type(out, names, item)
}

fn put_full(
    alloc: Global,
    out: &mut Vec<u8>,
    names: &Names,
    delta: u16,
    frame: &Frame,
) -> Result<(), Memory>
    requires first { AreFirst names.now }
    requires fits { FrameFits frame.now }
    ensures { OnOk result (out.new.items ≡ out.old.items ++ full_bytes (slots_of names.now) delta frame.now) }
{
    put_u1(out, 255)?;
    put_u2(out, delta)?;
    put_locals(out, names, &frame.locals.in_order(alloc)?)?;
    put_types(out, names, frame.stack.as_slice())
}

// The locals before are all in front of the frame's, so many of them.
fn put_longer(
    alloc: Global,
    out: &mut Vec<u8>,
    names: &Names,
    delta: u16,
    frame: &Frame,
    front: usize,
) -> Result<(), Memory>
    requires first { AreFirst names.now }
    requires fits { FrameFits frame.now }
    requires within { front ≤ length frame.now.locals }
    ensures { OnOk result (out.new.items ≡ out.old.items ++ longer_bytes (slots_of names.now) delta frame.now (drop front frame.now.locals)) }
{
    let more = frame.locals.len() - front;
    if more == 0 {
        return put_same(out, delta);
    }
    if more < 4 {
        put_u1(out, 251 + more as u8)?;
        put_u2(out, delta)?;
        return put_each_local(out, names, &frame.locals.last_in_order(alloc, more)?);
    }
    put_full(alloc, out, names, delta, frame)
}

// So many of the locals before are gone.
fn put_shorter(
    alloc: Global,
    out: &mut Vec<u8>,
    names: &Names,
    delta: u16,
    frame: &Frame,
    gone: usize,
) -> Result<(), Memory>
    requires first { AreFirst names.now }
    requires fits { FrameFits frame.now }
    ensures { (types : List VType) → length types ≡ gone → OnOk result (out.new.items ≡ out.old.items ++ shorter_bytes (slots_of names.now) delta frame.now (Some types)) }
{
    if gone < 4 {
        put_u1(out, 251 - gone as u8)?;
        return put_u2(out, delta);
    }
    put_full(alloc, out, names, delta, frame)
}

fn put_no_stack(
    alloc: Global,
    out: &mut Vec<u8>,
    names: &Names,
    delta: u16,
    frame: &Frame,
    before: &SharedList<VType>,
    front: usize,
) -> Result<(), Memory>
    requires first { AreFirst names.now }
    requires fits { FrameFits frame.now }
    requires front { front ≡ common_front before.now frame.now.locals }
    ensures { OnOk result (out.new.items ≡ out.old.items ++ no_stack_bytes (slots_of names.now) delta frame.now before.now (behind before.now frame.now.locals)) }
{
    if front == before.len() {
        return put_longer(alloc, out, names, delta, frame, front);
    }
    if front == frame.locals.len() {
        return put_shorter(alloc, out, names, delta, frame, before.len() - front);
    }
    put_full(alloc, out, names, delta, frame)
}

fn put_one_item(
    alloc: Global,
    out: &mut Vec<u8>,
    names: &Names,
    delta: u16,
    frame: &Frame,
    before: &SharedList<VType>,
    front: usize,
    item: &VType,
) -> Result<(), Memory>
    requires first { AreFirst names.now }
    requires fits { FrameFits frame.now }
    requires small { IsSmall item.now }
    requires front { front ≡ common_front before.now frame.now.locals }
    ensures { OnOk result (out.new.items ≡ out.old.items ++ one_item_bytes (slots_of names.now) delta frame.now item.now (behind before.now frame.now.locals)) }
{
    if front < before.len() {
        return put_full(alloc, out, names, delta, frame);
    }
    if front < frame.locals.len() {
        return put_full(alloc, out, names, delta, frame);
    }
    put_item(out, names, delta, item)
}

fn put_form(
    alloc: Global,
    out: &mut Vec<u8>,
    names: &Names,
    delta: u16,
    frame: &Frame,
    before: &SharedList<VType>,
    front: usize,
) -> Result<(), Memory>
    requires first { AreFirst names.now }
    requires fits { FrameFits frame.now }
    requires front { front ≡ common_front before.now frame.now.locals }
    ensures { OnOk result (out.new.items ≡ out.old.items ++ form_bytes (slots_of names.now) delta frame.now before.now frame.now.stack) }
{
    match frame.stack.as_slice() {
        [] => put_no_stack(alloc, out, names, delta, frame, before, front),
        [item] => put_one_item(alloc, out, names, delta, frame, before, front, item),
        [_, _, ..] => put_full(alloc, out, names, delta, frame),
    }
}

fn delta_of(before: Option<usize>, at: usize) -> u16
    requires { IsBehind before at }
    ensures { result ≡ delta_of before at }
{
    match before {
        None => at as u16,
        Some(before) => (at - before - 1) as u16,
    }
}

// The frames behind a frame.
fn put_behind(
    alloc: Global,
    out: &mut Vec<u8>,
    names: &Names,
    first: &Frame,
    frames: &[Frame],
    fronts: &[usize],
) -> Result<(), Memory>
    requires first { AreFirst names.now }
    requires small { AllByRecursion IsSmall first.now.locals }
    requires spelled { (bytes : List ℕ) × FramesAre (slots_of names.now) (behind_frame first.now) frames.now bytes }
    requires fronts { fronts.now ≡ fronts_behind first.now.locals frames.now }
    ensures { OnOk result (out.new.items ≡ out.old.items ++ frames_bytes (slots_of names.now) (behind_frame first.now) frames.now) }
{
    let mut before = first;
    let mut left = fronts;
    for frame in frames {
        match left {
            [] => return Ok(()),
            [front, more @ ..] => {
                let delta = delta_of(Some(before.at), frame.at);
                put_form(alloc, out, names, delta, frame, &before.locals, *front)?;
                before = frame;
                left = more;
            }
        }
    }
    Ok(())
}

/// Puts the frames of a method that starts with these locals at the end, in time linear in the bytes, in the locals that the
/// first frame follows, and in the names of the types that are put.
pub fn put_frames(
    alloc: Global,
    out: &mut Vec<u8>,
    names: &Names,
    start: &SharedList<VType>,
    frames: &Frames,
) -> Result<(), Memory>
    requires first { AreFirst names.now }
    requires small { AllByRecursion IsSmall start.now }
    requires spelled { (bytes : List ℕ) × FramesAre (slots_of names.now) (before_of None start.now) frames.now bytes }
    ensures { OnOk result (out.new.items ≡ out.old.items ++ frames_bytes (slots_of names.now) (before_of None start.now) frames.now) }
{
    match frames.as_slice() {
        [] => Ok(()),
        [first, rest @ ..] => match frames.fronts() {
            [] => Ok(()),
            [_, fronts @ ..] => {
                let front = common_front(alloc, start, &first.locals)?;
                put_form(
                    alloc,
                    out,
                    names,
                    delta_of(None, first.at),
                    first,
                    start,
                    front,
                )?;
                put_behind(alloc, out, names, first, rest, fronts)
            }
        },
    }
}
