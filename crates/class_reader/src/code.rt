//! The code of methods from bytes (Java Virtual Machine Specification SE 8, 4.7.3).
ghost use Rattle.std.specs.Prelude.{◌≡◌, None, [], true};
ghost use Rattle.class_file.specs.Pools.{is_text};
ghost use Rattle.class_file.specs.Inputs.{each, table, sized};
ghost use Rattle.class_file.specs.ClassBytes.{stack_map_table};
ghost use Rattle.class_file.specs.FormatFaults.{handler_at, stack_map_at, attributes_among, among_at, attributes, or_none, code_at};
ghost use Rattle.class_reader.specs.Reads.{Reads, input_of};
ghost use Rattle.class_reader.specs.Frames.{started};
ghost use Rattle.class_reader.specs.Codes.{code_of, among_of};

use crate::attributes::{attribute, is_refused, kept_bytes};
use crate::frames::stack_map_at;
use crate::input::{Failure, Input, ended, fault, part_at, u2_at, u4_at};
use crate::instructions::code_array_at;
use crate::locals::FrameLocals;
use crate::names::{catch_type_at, text_named};
use class_file::class::{Attribute, Handler};
use class_file::format_fault::FormatCode;
use class_file::frames::Frames;
use class_file::instr::Instr;
use class_file::pool::Pool;
use kc_text::Text;
use sqlite_items::Items;
use std::alloc::Global;

/// What the attribute of a method's code contains.
#[derive(Drop)]
pub struct Code {
    pub max_stack: u16,
    pub max_locals: u16,
    pub instrs: Items<Instr>,
    pub handlers: Items<Handler>,
    pub frames: Frames,
    pub others: Items<Attribute>,
}

/// Attributes of which one has a meaning.
#[derive(Drop)]
pub struct Attributes<T> {
    pub known: Option<T>,
    pub others: Items<Attribute>,
}

#[tactic(auto, unfolding(class_file::specs::FormatFaults::handler_at))]
fn handler_at<'b>(pool: &Pool, input: Input<'b>) -> Result<(Handler, Input<'b>), Failure>
    ensures { Reads (λ h. h) result (handler_at pool.now (input_of input.entry)) }
{
    let (start, rest) = u2_at(input)?;
    let (end, rest) = u2_at(rest)?;
    let (at, rest) = u2_at(rest)?;
    let (catch_type, rest) = catch_type_at(pool, rest)?;
    let handler = Handler {
        start: start as usize,
        end: end as usize,
        at: at as usize,
        catch_type,
    };
    Ok((handler, rest))
}

fn each_handler<'b>(
    alloc: Global,
    pool: &Pool,
    count: u16,
    input: Input<'b>,
) -> Result<(Items<Handler>, Input<'b>), Failure>
    ensures { Reads (λ handlers. handlers) result (each (handler_at pool.now) count (input_of input.entry)) }
{
    let mut handlers = Items::new(alloc);
    let mut rest = input;
    for _ in 0..count {
        let (handler, behind) = handler_at(pool, rest)?;
        handlers.push(handler)?;
        rest = behind;
    }
    Ok((handlers, rest))
}

#[tactic(auto, unfolding(class_file::specs::Inputs::table))]
fn handlers_at<'b>(
    alloc: Global,
    pool: &Pool,
    input: Input<'b>,
) -> Result<(Items<Handler>, Input<'b>), Failure>
    ensures { Reads (λ handlers. handlers) result (table (handler_at pool.now) (input_of input.entry)) }
{
    let (count, rest) = u2_at(input)?;
    each_handler(alloc, pool, count, rest)
}

static STACK_MAP_TABLE: [u16; 13] = [83, 116, 97, 99, 107, 77, 97, 112, 84, 97, 98, 108, 101];

fn is_stack_map_table(name: &Text) -> bool
    ensures { result ≡ is_text name.now stack_map_table }
{
    name.units() == STACK_MAP_TABLE.as_slice()
}

// The frames, behind the length of their attribute.
#[tactic(auto, unfolding(class_file::specs::Inputs::sized, class_file::specs::Inputs::window))]
fn sized_frames<'b>(
    alloc: Global,
    pool: &Pool,
    start: &FrameLocals,
    input: Input<'b>,
) -> Result<(Frames, Input<'b>), Failure>
    ensures { Reads (λ frames. frames) result (sized (stack_map_at pool.now (started start.now)) (input_of input.entry)) }
{
    let (count, rest) = u4_at(input)?;
    let (part, rest) = part_at(rest, count as usize)?;
    let (frames, end) = stack_map_at(alloc, pool, start, part)?;
    ended(end)?;
    Ok((frames, rest))
}

// Attributes of code, of which the frames' is known.
fn each_attribute<'b>(
    alloc: Global,
    pool: &Pool,
    start: &FrameLocals,
    count: u16,
    input: Input<'b>,
) -> Result<(Attributes<Frames>, Input<'b>), Failure>
    ensures { Reads among_of result (among_at pool.now stack_map_table true (stack_map_at pool.now (started start.now)) count (attributes None []) (input_of input.entry)) }
{
    let mut known = None;
    let mut others = Items::new(alloc);
    let mut rest = input;
    for _ in 0..count {
        let (name, behind) = text_named(pool, rest)?;
        if is_stack_map_table(name) {
            if is_refused(&known, true) {
                return Err(fault(FormatCode::BadCode, rest.at));
            }
            let (frames, behind) = sized_frames(alloc, pool, start, behind)?;
            known = Some(frames);
            rest = behind;
        } else {
            let (bytes, behind) = kept_bytes(behind)?;
            others.push(attribute(alloc, name, bytes)?)?;
            rest = behind;
        }
    }
    Ok((Attributes { known, others }, rest))
}

fn or_none(alloc: Global, frames: Option<Frames>) -> Frames
    ensures { result ≡ or_none frames }
{
    match frames {
        Some(frames) => frames,
        None => Frames::new(alloc),
    }
}

/// What the attribute of the code of a method that starts with these locals contains.
#[tactic(auto, unfolding(class_file::specs::FormatFaults::code_at, class_file::specs::FormatFaults::attributes_among))]
pub fn code_at<'b>(
    alloc: Global,
    pool: &Pool,
    start: &FrameLocals,
    input: Input<'b>,
) -> Result<(Code, Input<'b>), Failure>
    ensures { Reads code_of result (code_at pool.now (started start.now) (input_of input.entry)) }
{
    let (max_stack, rest) = u2_at(input)?;
    let (max_locals, rest) = u2_at(rest)?;
    let (instrs, rest) = code_array_at(alloc, pool, rest)?;
    let (handlers, rest) = handlers_at(alloc, pool, rest)?;
    let (count, rest) = u2_at(rest)?;
    let (attributes, rest) = each_attribute(alloc, pool, start, count, rest)?;
    let Attributes { known, others } = attributes;
    let code = Code {
        max_stack,
        max_locals,
        instrs,
        handlers,
        frames: or_none(alloc, known),
        others,
    };
    Ok((code, rest))
}
