// Methods from left to right, with one frame carried along.
ghost use Rattle.std.specs.Prelude.{◌≡◌, ◌+◌, ◌<◌, ◌^◌, ℕ, true, All, length, IfOk, Some, None};
ghost use Rattle.std.specs.Option.{option_map};
ghost use Rattle.class_file.specs.Members.{described};
ghost use Rattle.class_file.specs.Typing.{Types};
ghost use Rattle.class_file.specs.Verification.{flow_fault, start_fault, scan, method_fault, first_types};
ghost use Rattle.verifier_types.specs.Frames.{shown};
ghost use Rattle.verifier_types.specs.Calls.{call_seen};
ghost use Rattle.class_file.specs.Lots.{in_first_lot};
ghost use Rattle.verifier.specs.Sweeping.{HasCovering};
ghost use Rattle.verifier.specs.Turns.{turn_of};
ghost use Rattle.verifier.specs.Carrying.{IsTracked, flow_of};
ghost use Rattle.verifier.specs.Answers.{InLot, place_seen};

use crate::carried::Carried;
use crate::flow::{
    fall_fault, frame_fault, goes_on, jump_frame_fault, jump_of, next_frame_fault, target_fault,
};
use crate::frames::first_types;
use crate::handlers::{all_caught, rows_fault};
use crate::sweep::HandlerSweep;
use crate::tabled::TabledMethod;
use class_file::class::{ClassFile, Handler, Method};
use class_file::instr::Instr;
use class_file::row::Row;
use class_file::table::{length_of, row_of};
use class_file::verify_code::VerifyCode;
use kc_text::Memory;
use std::alloc::Global;
use verifier_types::{Call, Known, NamedSet, described};

/// A place in a method's code, and the code there.
#[derive(Clone, Copy)]
pub struct Place {
    pub at: usize,
    pub code: VerifyCode,
}

fn start_fault(
    alloc: Global,
    set: &NamedSet,
    class: &ClassFile,
    method: &TabledMethod,
    call: &Call,
    pc: usize,
) -> Result<Option<VerifyCode>, Memory>
    requires call { call_seen call.now ≡ described method.now.descriptor }
    ensures { IfOk result (λ fault. fault ≡ start_fault set.now class.now method.now pc) }
{
    if pc != 0 {
        return Ok(None);
    }
    let first = first_types(alloc, class, method.as_method(), call)?;
    frame_fault(alloc, set, method, &first, 0)
}

fn flow_fault(
    alloc: Global,
    set: &NamedSet,
    class: &ClassFile,
    method: &TabledMethod,
    pc: usize,
    row: Row,
    next: usize,
    is_safe: bool,
    after: &Known,
) -> Result<Option<VerifyCode>, Memory>
    requires lot { in_first_lot row ≡ true }
    ensures { IfOk result (λ fault. fault ≡ flow_fault set.now class.now method.now pc row next is_safe (shown after.now)) }
{
    let jump = jump_of(row);
    let goes = goes_on(row);
    if let Some(code) = jump_frame_fault(alloc, set, method, after, jump)? {
        return Ok(Some(code));
    }
    if let Some(code) = next_frame_fault(alloc, set, method, after, goes, next)? {
        return Ok(Some(code));
    }
    if let Some(code) = target_fault(method, jump) {
        return Ok(Some(code));
    }
    if let Some(code) = rows_fault(set, class, method, pc) {
        return Ok(Some(code));
    }
    if !is_safe {
        return Ok(Some(VerifyCode::BadHandler));
    }
    Ok(fall_fault(method, goes, next))
}

// The fault of an instruction, or what it leaves to the next one.
fn one_instruction<'a>(
    alloc: Global,
    set: &NamedSet,
    class: &'a ClassFile,
    method: &TabledMethod<'a>,
    call: &Call<'a>,
    rows: &[Handler],
    pc: usize,
    instr: &Instr,
    carried: &mut Carried<'a>,
) -> Result<Option<VerifyCode>, Memory>
    requires small { pc < 2 ^ 32 }
    requires covering { HasCovering method.now.handlers pc rows.now }
    requires call { call_seen call.now ≡ described method.now.descriptor }
    requires lot { InLot instr.now }
    ensures turn { IfOk result (λ fault. turn_of set.now class.now method.now pc instr.now (flow_of carried.old) fault (flow_of carried.new)) }
    ensures tracked { IfOk result (λ fault. fault ≡ None → IsTracked carried.old → IsTracked carried.new) }
{
    if !carried.flows {
        return Ok(Some(VerifyCode::MissingFrame));
    }
    if let Some(code) = start_fault(alloc, set, class, method, call, pc)? {
        return Ok(Some(code));
    }
    let is_safe = all_caught(alloc, set, class, method, rows, pc, &carried.known)?;
    let row = row_of(pc, instr);
    let next = pc + length_of(instr);
    if let Some(code) = carried.step(alloc, set, class, method.as_method(), pc, call.result, row)? {
        return Ok(Some(code));
    }
    let known = &carried.known;
    if let Some(code) = flow_fault(alloc, set, class, method, pc, row, next, is_safe, known)? {
        return Ok(Some(code));
    }
    carried.flows = goes_on(row);
    Ok(None)
}

fn scan<'a>(
    alloc: Global,
    set: &NamedSet,
    class: &'a ClassFile,
    method: &TabledMethod<'a>,
    call: &Call<'a>,
    code: &[Instr],
    first: Known<'a>,
) -> Result<Option<Place>, Memory>
    requires short { length code.now < 2 ^ 28 }
    requires call { call_seen call.now ≡ described method.now.descriptor }
    requires lot { All InLot code.now }
    ensures { IfOk result (λ fault. option_map place_seen fault ≡ scan set.now class.now method.now code.now 0 (Some (shown first.entry))) }
{
    let mut pc = 0;
    let mut carried = Carried::new(alloc, first);
    let mut sweep = HandlerSweep::new(alloc, method.as_method().handlers.as_slice())?;
    for instr in code {
        sweep.advance(pc)?;
        carried = carried.enter(alloc, method, pc)?;
        let rows = sweep.rows();
        if let Some(code) = one_instruction(
            alloc,
            set,
            class,
            method,
            call,
            rows,
            pc,
            instr,
            &mut carried,
        )? {
            return Ok(Some(Place { at: pc, code }));
        }
        pc += length_of(instr);
    }
    Ok(None)
}

/// The first fault of a method, if it has one.
pub fn method_fault(
    alloc: Global,
    set: &NamedSet,
    class: &ClassFile,
    method: &Method,
) -> Result<Option<Place>, Memory>
    requires codes { length method.now.code < 2 ^ 28 }
    requires lot { All InLot method.now.code }
    ensures { IfOk result (λ fault. option_map place_seen fault ≡ method_fault set.now class.now method.now) }
{
    let tabled = TabledMethod::new(alloc, method)?;
    let call = described(alloc, &method.descriptor)?;
    let first = first_types(alloc, class, method, &call)?;
    scan(
        alloc,
        set,
        class,
        &tabled,
        &call,
        method.code.as_slice(),
        first,
    )
}
