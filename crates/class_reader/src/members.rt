//! Fields and methods from bytes (Java Virtual Machine Specification SE 8, 4.5 and 4.6).
ghost use Rattle.std.specs.Prelude.{◌≡◌, ◌∷◌, [], None, not, OnOk, IfOk, codes};
ghost use Rattle.class_file.specs.Pools.{is_text};
ghost use Rattle.class_file.specs.Inputs.{sized};
ghost use Rattle.class_file.specs.Classes.{is_abstract_flag};
ghost use Rattle.class_file.specs.ClassBytes.{code_name};
ghost use Rattle.class_file.specs.DescriptorFaults.{field_descriptor_fault, method_descriptor_fault};
ghost use Rattle.class_file.specs.FormatFaults.{descriptor_at, field_at, fields_at, needs_code, with_code, method_at, methods_at, code_at, among_at, attributes, counted, no_code, method};
ghost use Rattle.class_reader.specs.Reads.{Reads, input_of};
ghost use Rattle.class_reader.specs.Codes.{code_of, among_by};
ghost use Rattle.std.specs.Option.{option_map};
ghost use Rattle.class_reader.specs.Frames.{started};
ghost use Rattle.class_reader.specs.Members.{key, fault_in};

use crate::attributes::{attribute, attributes_at, is_refused, kept_bytes};
use crate::code::{Attributes, Code, code_at};
use crate::descriptors::{field_descriptor_fault, method_descriptor_fault};
use crate::input::{Failure, Input, ended, fault, left, part_at, u2_at, u4_at};
use crate::locals::FrameLocals;
use crate::names::text_named;
use crate::seen::Seen;
use class_file::class::{Attribute, Field, Method};
use class_file::format_fault::FormatCode;
use class_file::frames::Frames;
use class_file::pool::Pool;
use kc_text::{Memory, Text};
use sqlite_items::Items;
use std::alloc::Global;
use verifier_types::{is_init, is_static, start_locals};

const ABSTRACT: u16 = 0x400;

static CODE: [u16; 4] = [67, 111, 100, 101];

static CLINIT: [u16; 8] = [60, 99, 108, 105, 110, 105, 116, 62];

/// Which members a descriptor is of.
#[derive(Clone, Copy)]
pub enum Members {
    Fields,
    Methods,
}

fn descriptor_fault(members: Members, units: &[u16]) -> Option<FormatCode>
    ensures { result ≡ fault_in members units.now }
{
    match members {
        Members::Fields => field_descriptor_fault(units),
        Members::Methods => method_descriptor_fault(units),
    }
}

// A member's descriptor, which no earlier one of the same name has.
fn descriptor_at<'a, 'b>(
    alloc: Global,
    pool: &'a Pool,
    members: Members,
    seen: &mut Seen,
    name: &Text,
    input: Input<'b>,
) -> Result<(&'a Text, Input<'b>), Failure>
    ensures exact { Reads (λ text. text.now) result (descriptor_at pool.now (fault_in members) seen.old name.now (input_of input.entry)) }
    ensures seen { IfOk result (λ x. seen.new ≡ key name.now x.0.now ∷ seen.old) }
{
    let (text, rest) = text_named(pool, input)?;
    if let Some(code) = descriptor_fault(members, text.units()) {
        return Err(fault(code, input.at));
    }
    if !seen.add(alloc, name, text)? {
        return Err(fault(FormatCode::Doubled, input.at));
    }
    Ok((text, rest))
}

#[tactic(auto, unfolding(class_file::specs::FormatFaults::field_at))]
fn field_at<'b>(
    alloc: Global,
    pool: &Pool,
    seen: &mut Seen,
    input: Input<'b>,
) -> Result<(Field, Input<'b>), Failure>
    ensures exact { Reads (λ f. f) result (field_at pool.now seen.old (input_of input.entry)) }
    ensures seen { IfOk result (λ x. seen.new ≡ key x.0.name x.0.descriptor ∷ seen.old) }
{
    let (flags, rest) = u2_at(input)?;
    let (name, rest) = text_named(pool, rest)?;
    let (descriptor, rest) = descriptor_at(alloc, pool, Members::Fields, seen, name, rest)?;
    let (others, rest) = attributes_at(alloc, pool, rest)?;
    let field = Field {
        flags,
        name: name.copy(alloc)?,
        descriptor: descriptor.copy(alloc)?,
        others,
    };
    Ok((field, rest))
}

fn each_field<'b>(
    alloc: Global,
    pool: &Pool,
    count: u16,
    input: Input<'b>,
) -> Result<(Items<Field>, Input<'b>), Failure>
    ensures { Reads (λ fields. fields) result (fields_at pool.now count [] (input_of input.entry)) }
{
    let mut seen = Seen::new(alloc);
    let mut fields = Items::new(alloc);
    let mut rest = input;
    for _ in 0..count {
        let (field, behind) = field_at(alloc, pool, &mut seen, rest)?;
        fields.push(field)?;
        rest = behind;
    }
    Ok((fields, rest))
}

/// Fields, their count first.
pub fn fields_at<'b>(
    alloc: Global,
    pool: &Pool,
    input: Input<'b>,
) -> Result<(Items<Field>, Input<'b>), Failure>
    ensures { Reads (λ fields. fields) result (counted (λ n. fields_at pool.now n []) (input_of input.entry)) }
{
    let (count, rest) = u2_at(input)?;
    each_field(alloc, pool, count, rest)
}

fn is_abstract(flags: u16) -> bool
    ensures { result ≡ is_abstract_flag flags }
{
    flags & ABSTRACT != 0
}

fn is_code(name: &Text) -> bool
    ensures { result ≡ is_text name.now code_name }
{
    name.units() == CODE.as_slice()
}

// Has a method of these flags and this name to have code?
fn needs_code(flags: u16, name: &Text) -> bool
    ensures { result ≡ needs_code flags name.now }
{
    !is_abstract(flags)
        || is_static(flags)
        || is_init(name.units())
        || name.units() == CLINIT.as_slice()
}

// The code of a method that starts with these locals, behind the length of its attribute.
#[tactic(auto, unfolding(class_file::specs::Inputs::sized, class_file::specs::Inputs::window))]
fn sized_code<'b>(
    alloc: Global,
    pool: &Pool,
    start: &FrameLocals,
    input: Input<'b>,
) -> Result<(Code, Input<'b>), Failure>
    ensures { Reads code_of result (sized (code_at pool.now (started start.now)) (input_of input.entry)) }
{
    let (count, rest) = u4_at(input)?;
    let (part, rest) = part_at(rest, count as usize)?;
    let (code, end) = code_at(alloc, pool, start, part)?;
    ended(end)?;
    Ok((code, rest))
}

// Attributes of a method that starts with these locals, of which that of the code is known.
fn each_attribute<'b>(
    alloc: Global,
    pool: &Pool,
    start: &FrameLocals,
    allowed: bool,
    count: u16,
    input: Input<'b>,
) -> Result<(Attributes<Code>, Input<'b>), Failure>
    ensures { Reads (among_by code_of) result (among_at pool.now code_name allowed (code_at pool.now (started start.now)) count (attributes None []) (input_of input.entry)) }
{
    let mut known = None;
    let mut others = Items::new(alloc);
    let mut rest = input;
    for _ in 0..count {
        let (name, behind) = text_named(pool, rest)?;
        if is_code(name) {
            if is_refused(&known, allowed) {
                return Err(fault(FormatCode::BadCode, rest.at));
            }
            let (code, behind) = sized_code(alloc, pool, start, behind)?;
            known = Some(code);
            rest = behind;
        } else {
            let (bytes, behind) = kept_bytes(behind)?;
            others.push(attribute(alloc, name, bytes)?)?;
            rest = behind;
        }
    }
    Ok((Attributes { known, others }, rest))
}

fn no_code(alloc: Global) -> Code
    ensures { code_of result ≡ no_code }
{
    Code {
        max_stack: 0,
        max_locals: 0,
        instrs: Items::new(alloc),
        handlers: Items::new(alloc),
        frames: Frames::new(alloc),
        others: Items::new(alloc),
    }
}

// A method with its code, or without where it may lack it. What comes next may be cut off where it lacks.
fn with_code<'b>(
    alloc: Global,
    flags: u16,
    name: Text,
    descriptor: Text,
    attributes: Attributes<Code>,
    rest: Input<'b>,
) -> Result<(Method, Input<'b>), Failure>
    ensures exact { Reads (λ m. m) result (with_code flags name descriptor attributes.others (input_of rest.entry) (option_map code_of attributes.known)) }
    ensures named { IfOk result (λ x. (x.0.name ≡ name) × (x.0.descriptor ≡ descriptor)) }
{
    let Attributes { known, others } = attributes;
    match known {
        Some(code) => Ok((method(flags, name, descriptor, others, code), rest)),
        None => {
            if !needs_code(flags, &name) {
                let code = no_code(alloc);
                return Ok((method(flags, name, descriptor, others, code), rest));
            }
            if left(rest) < 2 {
                return Err(fault(FormatCode::Truncated, rest.at));
            }
            Err(fault(FormatCode::BadCode, rest.at))
        }
    }
}

#[tactic(auto, unfolding(class_file::specs::FormatFaults::method_at, class_file::specs::FormatFaults::attributes_among))]
fn method_at<'b>(
    alloc: Global,
    pool: &Pool,
    this: &Text,
    seen: &mut Seen,
    input: Input<'b>,
) -> Result<(Method, Input<'b>), Failure>
    ensures exact { Reads (λ m. m) result (method_at pool.now this.now seen.old (input_of input.entry)) }
    ensures seen { IfOk result (λ x. seen.new ≡ key x.0.name x.0.descriptor ∷ seen.old) }
{
    let (flags, rest) = u2_at(input)?;
    let (name, rest) = text_named(pool, rest)?;
    let (descriptor, rest) = descriptor_at(alloc, pool, Members::Methods, seen, name, rest)?;
    let start = FrameLocals::of(alloc, start_locals(alloc, this, flags, name, descriptor)?)?;
    let (count, rest) = u2_at(rest)?;
    let (attributes, rest) = each_attribute(alloc, pool, &start, !is_abstract(flags), count, rest)?;
    let name = name.copy(alloc)?;
    let descriptor = descriptor.copy(alloc)?;
    with_code(alloc, flags, name, descriptor, attributes, rest)
}

fn method(flags: u16, name: Text, descriptor: Text, others: Items<Attribute>, code: Code) -> Method
    ensures { result ≡ method flags name descriptor others (code_of code) }
{
    Method {
        flags,
        name,
        descriptor,
        max_stack: code.max_stack,
        max_locals: code.max_locals,
        code: code.instrs,
        handlers: code.handlers,
        frames: code.frames,
        code_others: code.others,
        others,
    }
}

fn each_method<'b>(
    alloc: Global,
    pool: &Pool,
    this: &Text,
    count: u16,
    input: Input<'b>,
) -> Result<(Items<Method>, Input<'b>), Failure>
    ensures { Reads (λ methods. methods) result (methods_at pool.now this.now count [] (input_of input.entry)) }
{
    let mut seen = Seen::new(alloc);
    let mut methods = Items::new(alloc);
    let mut rest = input;
    for _ in 0..count {
        let (method, behind) = method_at(alloc, pool, this, &mut seen, rest)?;
        methods.push(method)?;
        rest = behind;
    }
    Ok((methods, rest))
}

/// The methods of this class, their count first.
pub fn methods_at<'b>(
    alloc: Global,
    pool: &Pool,
    this: &Text,
    input: Input<'b>,
) -> Result<(Items<Method>, Input<'b>), Failure>
    ensures { Reads (λ methods. methods) result (counted (λ n. methods_at pool.now this.now n []) (input_of input.entry)) }
{
    let (count, rest) = u2_at(input)?;
    each_method(alloc, pool, this, count, rest)
}
