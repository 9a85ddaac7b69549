// Where the flow goes on to.
ghost use Rattle.std.specs.Prelude.{◌≡◌, IfOk, Some, None};
ghost use Rattle.class_file.specs.Verification.{jump_of, goes_on, fits_given, given_at, frame_fault, jump_frame_fault, next_frame_fault, target_fault, fall_fault};
ghost use Rattle.verifier_types.specs.Frames.{shown};

use crate::given::flows_into;
use crate::tabled::TabledMethod;
use class_file::row::Row;
use class_file::verify_code::VerifyCode;
use kc_text::Memory;
use std::alloc::Global;
use verifier_types::{Known, NamedSet};

pub fn jump_of(row: Row) -> Option<usize>
    ensures { result ≡ jump_of row }
{
    match row {
        Row::IfZero(_, to) => Some(to),
        Row::IfCompare(_, to) => Some(to),
        Row::IfSame(_, to) => Some(to),
        Row::IfNull(_, to) => Some(to),
        Row::Goto(to) => Some(to),
        _ => None,
    }
}

pub fn goes_on(row: Row) -> bool
    ensures { result ≡ goes_on row }
{
    match row {
        Row::Goto(_) => false,
        Row::Return => false,
        Row::ReturnValue(_) => false,
        Row::Throw => false,
        _ => true,
    }
}

// May what is known flow into the frame that is given for a place, if one is?
fn fits_given(
    alloc: Global,
    set: &NamedSet,
    method: &TabledMethod,
    after: &Known,
    to: usize,
) -> Result<bool, Memory>
    ensures { IfOk result (λ fits. fits ≡ fits_given set.now (shown after.now) (given_at method.now to)) }
{
    match method.frame_at(to) {
        None => Ok(true),
        Some(frame) => Ok(flows_into(alloc, set, after, method.max_locals(), frame)?),
    }
}

/// `WrongFrame` where the flow leads to an instruction with a given frame that it is not assignable to.
pub fn frame_fault(
    alloc: Global,
    set: &NamedSet,
    method: &TabledMethod,
    after: &Known,
    to: usize,
) -> Result<Option<VerifyCode>, Memory>
    ensures { IfOk result (λ fault. fault ≡ frame_fault set.now method.now (shown after.now) to) }
{
    if !method.starts(to) {
        return Ok(None);
    }
    if fits_given(alloc, set, method, after, to)? {
        Ok(None)
    } else {
        Ok(Some(VerifyCode::WrongFrame))
    }
}

pub fn jump_frame_fault(
    alloc: Global,
    set: &NamedSet,
    method: &TabledMethod,
    after: &Known,
    jump: Option<usize>,
) -> Result<Option<VerifyCode>, Memory>
    ensures { IfOk result (λ fault. fault ≡ jump_frame_fault set.now method.now (shown after.now) jump) }
{
    match jump {
        None => Ok(None),
        Some(to) => frame_fault(alloc, set, method, after, to),
    }
}

pub fn next_frame_fault(
    alloc: Global,
    set: &NamedSet,
    method: &TabledMethod,
    after: &Known,
    goes: bool,
    next: usize,
) -> Result<Option<VerifyCode>, Memory>
    ensures { IfOk result (λ fault. fault ≡ next_frame_fault set.now method.now (shown after.now) goes next) }
{
    if goes {
        frame_fault(alloc, set, method, after, next)
    } else {
        Ok(None)
    }
}

/// `BadTarget` where no instruction starts at a jump's place.
pub fn target_fault(method: &TabledMethod, jump: Option<usize>) -> Option<VerifyCode>
    ensures { result ≡ target_fault method.now jump }
{
    match jump {
        None => None,
        Some(to) => {
            if method.starts(to) {
                None
            } else {
                Some(VerifyCode::BadTarget)
            }
        }
    }
}

/// `FallsOff` where the code can run past its end.
pub fn fall_fault(method: &TabledMethod, goes: bool, next: usize) -> Option<VerifyCode>
    ensures { result ≡ fall_fault method.now goes next }
{
    if !goes || method.starts(next) {
        None
    } else {
        Some(VerifyCode::FallsOff)
    }
}
