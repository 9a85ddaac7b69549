// The exception table.
ghost use Rattle.std.specs.Prelude.{◌≡◌, ◌+◌, ◌<◌, ◌^◌, ◌&&◌, ◌||◌, ◌==◌, true, false, codes, length, IfOk};
ghost use Rattle.std.specs.Option.{option_copied, option_map};
ghost use Rattle.class_file.specs.Rows.{length_of};
ghost use Rattle.class_file.specs.Verification.{starts, covers, caught, is_throwable, is_good_row, is_caught, all_rows, all_caught, code_length, fits_handler, given_at, rows_fault};
ghost use Rattle.verifier_types.specs.Frames.{shown};
ghost use Rattle.verifier.specs.Sweeping.{HasCovering};

use crate::given::is_thrown_into;
use crate::tabled::TabledMethod;
use class_file::class::{ClassFile, Handler};
use class_file::verify_code::VerifyCode;
use kc_text::{Memory, Text};
use std::alloc::Global;
use verifier_types::{Known, NamedSet, VerificationType, assignable, name_at};

static THROWABLE: [u16; 19] = [
    106, 97, 118, 97, 47, 108, 97, 110, 103, 47, 84, 104, 114, 111, 119, 97, 98, 108, 101,
];

fn covers(handler: &Handler, pc: usize) -> bool
    ensures { result ≡ covers handler.now pc }
{
    handler.start <= pc && pc < handler.end
}

// The class that a row catches.
fn caught<'a>(class: &'a ClassFile, handler: &Handler) -> Option<&'a [u16]>
    ensures { option_copied result ≡ caught class.now handler.now }
{
    if handler.catch_type == 0 {
        return Some(THROWABLE.as_slice());
    }
    match name_at(&class.pool, handler.catch_type) {
        None => None,
        Some(name) => Some(name.units()),
    }
}

fn is_throwable(set: &NamedSet, name: Option<&[u16]>) -> bool
    ensures { result ≡ is_throwable set.now (option_copied name.entry) }
{
    match name {
        None => false,
        Some(name) => assignable(
            set,
            VerificationType::Object(name),
            VerificationType::Object(THROWABLE.as_slice()),
        ),
    }
}

// The start of an instruction, or the code's end.
fn ends_range(method: &TabledMethod, end: usize) -> bool
    ensures { result ≡ (starts method.now end || end == code_length method.now.code) }
{
    if method.starts(end) {
        return true;
    }
    end == method.code_length()
}

fn is_good_row(set: &NamedSet, class: &ClassFile, method: &TabledMethod, handler: &Handler) -> bool
    ensures { result ≡ is_good_row set.now class.now method.now handler.now }
{
    if handler.start >= handler.end {
        return false;
    }
    if !method.starts(handler.start) {
        return false;
    }
    if !ends_range(method, handler.end) {
        return false;
    }
    if !method.starts(handler.at) {
        return false;
    }
    is_throwable(set, caught(class, handler))
}

fn all_rows(set: &NamedSet, class: &ClassFile, method: &TabledMethod, handlers: &[Handler]) -> bool
    ensures { result ≡ all_rows set.now class.now method.now handlers.now }
{
    for handler in handlers {
        if !is_good_row(set, class, method, handler) {
            return false;
        }
    }
    true
}

/// `BadHandler` at the first instruction where a row of the exception table is wrong.
pub fn rows_fault(
    set: &NamedSet,
    class: &ClassFile,
    method: &TabledMethod,
    pc: usize,
) -> Option<VerifyCode>
    ensures { result ≡ rows_fault set.now class.now method.now pc }
{
    if pc != 0 || all_rows(set, class, method, method.as_method().handlers.as_slice()) {
        None
    } else {
        Some(VerifyCode::BadHandler)
    }
}

// Does what is known, with an object of a class on the stack alone, fit the frame that is given for a handler's place?
fn fits_handler(
    alloc: Global,
    set: &NamedSet,
    method: &TabledMethod,
    known: &Known,
    name: Option<&[u16]>,
    at: usize,
) -> Result<bool, Memory>
    ensures { IfOk result (λ fits. fits ≡ fits_handler set.now (shown known.now) (option_copied name.entry) (given_at method.now at)) }
{
    let Some(name) = name else {
        return Ok(true);
    };
    match method.frame_at(at) {
        None => Ok(true),
        Some(frame) => Ok(is_thrown_into(alloc, set, known, name, method.max_locals(), frame)?),
    }
}

fn is_caught(
    alloc: Global,
    set: &NamedSet,
    class: &ClassFile,
    method: &TabledMethod,
    pc: usize,
    known: &Known,
    handler: &Handler,
) -> Result<bool, Memory>
    ensures { IfOk result (λ is. is ≡ is_caught set.now class.now method.now pc (shown known.now) handler.now) }
{
    if !covers(handler, pc) {
        return Ok(true);
    }
    fits_handler(
        alloc,
        set,
        method,
        known,
        caught(class, handler),
        handler.at,
    )
}

/// Is what is known before an instruction assignable to the frames of the handlers that it may be thrown to? The rows are those that
/// cover it.
pub fn all_caught(
    alloc: Global,
    set: &NamedSet,
    class: &ClassFile,
    method: &TabledMethod,
    rows: &[Handler],
    pc: usize,
    known: &Known,
) -> Result<bool, Memory>
    requires covering { HasCovering method.now.handlers pc rows.now }
    ensures { IfOk result (λ are. are ≡ all_caught set.now class.now method.now pc (shown known.now) method.now.handlers) }
{
    for handler in rows {
        if !is_caught(alloc, set, class, method, pc, known, handler)? {
            return Ok(false);
        }
    }
    Ok(true)
}
