//! The types after an instruction (Java Virtual Machine Specification SE 8, 4.10.1.9).
ghost use Rattle.std.specs.Prelude.{◌≡◌, ◌≢◌, ◌∷◌, ◌+◌, ◌≤◌, ◌<◌, ◌^◌, ℕ, [], List, Option, Some, None, true, false, length, nat_lt, ◌++◌, slice_set, reverse, map, drop, IfOk, OnOk, Ok, Err};
ghost use Rattle.std.specs.Option.{option_map};
ghost use Rattle.class_file.specs.declared.class.VType.{VType as VT};
ghost use Rattle.class_file.specs.declared.class.VType.TheVariants as vtype;
ghost use Rattle.class_file.specs.declared.verify_code.VerifyCode.TheVariants as codes_of;
ghost use Rattle.class_file.specs.Members.{described};
ghost use Rattle.class_file.specs.Typing.{typed, t_stored, t_kind, t_returned, t_pushed, cut_long, kind_width, reaches, needs, gives, room_fault, stepped, misuses, call_width, call_needs, left, result_types};
ghost use Rattle.class_file.specs.Lots.{in_first_lot};
ghost use Rattle.verifier_types.specs.Calls.{call_seen};
ghost use Rattle.verifier_types.specs.Seen.{type_of, Popped};
ghost use Rattle.verifier_types.specs.Frames.{shown, Stepped, NotInt, NotLong, Narrow, ReferenceTaken, TwoTaken, is_plain, call_verdict};

use crate::calls::static_call;
use crate::constants::{constant_type, long_constant_type};
use crate::descriptors::Call;
use crate::known::Known;
use crate::locals::Locals;
use crate::named_set::NamedSet;
use crate::stack::Stack;
use crate::types::VerificationType;
use crate::use_types::{misuse, misuses};
use class_file::class::{ClassFile, Method};
use class_file::row::Row;
use class_file::value::Kind;
use class_file::verify_code::VerifyCode;
use kc_text::Memory;
use std::alloc::Global;

fn pop_int(stack: &mut Stack) -> bool
    ensures yes { result ≡ true → stack.old ≡ vtype.Integer ∷ stack.new }
    ensures no { result ≡ false → NotInt stack.old }
{
    match stack.pop() {
        Some(VerificationType::Integer) => true,
        None => false,
        Some(VerificationType::Top) => false,
        Some(VerificationType::Long) => false,
        Some(VerificationType::Null) => false,
        Some(VerificationType::UninitializedThis) => false,
        Some(VerificationType::Object(_)) => false,
        Some(VerificationType::Uninitialized(_)) => false,
    }
}

fn pop_long(stack: &mut Stack) -> bool
    ensures yes { result ≡ true → stack.old ≡ vtype.Long ∷ stack.new }
    ensures no { result ≡ false → NotLong stack.old }
{
    match stack.pop() {
        Some(VerificationType::Long) => true,
        None => false,
        Some(VerificationType::Top) => false,
        Some(VerificationType::Integer) => false,
        Some(VerificationType::Null) => false,
        Some(VerificationType::UninitializedThis) => false,
        Some(VerificationType::Object(_)) => false,
        Some(VerificationType::Uninitialized(_)) => false,
    }
}

// A value of one place is taken off.
fn pop_second(stack: &mut Stack) -> Option<VerifyCode>
    ensures { Narrow result stack.old stack.new }
{
    match stack.pop() {
        None => Some(VerifyCode::WrongType),
        Some(t) => {
            if t.takes_one() {
                None
            } else {
                Some(VerifyCode::WrongType)
            }
        }
    }
}

// A reference is taken off.
fn pop_reference(stack: &mut Stack) -> Option<VerifyCode>
    ensures { ReferenceTaken result stack.old stack.new }
{
    match stack.pop() {
        Some(VerificationType::Null) => None,
        Some(VerificationType::Object(_)) => None,
        Some(VerificationType::UninitializedThis) => Some(VerifyCode::Uninitialised),
        Some(VerificationType::Uninitialized(_)) => Some(VerifyCode::Uninitialised),
        None => Some(VerifyCode::WrongType),
        Some(VerificationType::Top) => Some(VerifyCode::WrongType),
        Some(VerificationType::Integer) => Some(VerifyCode::WrongType),
        Some(VerificationType::Long) => Some(VerifyCode::WrongType),
    }
}

// Two references are taken off.
fn pop_references(stack: &mut Stack) -> Option<VerifyCode>
    ensures { TwoTaken result stack.old stack.new }
{
    let first = pop_reference(stack);
    let second = pop_reference(stack);
    match (first, second) {
        (None, second) => second,
        (Some(VerifyCode::WrongType), _) => Some(VerifyCode::WrongType),
        (Some(_), Some(VerifyCode::WrongType)) => Some(VerifyCode::WrongType),
        (Some(_), _) => Some(VerifyCode::Uninitialised),
    }
}

fn kind_width(kind: Kind) -> usize
    ensures { result ≡ kind_width kind }
{
    match kind {
        Kind::Long => 2,
        Kind::Int => 1,
        Kind::Ref => 1,
    }
}

// A Long whose second place is written is there no longer.
fn cut_long(locals: &mut Locals, at: usize)
    ensures { locals.new ≡ cut_long at locals.old }
{
    if at == 0 {
        return;
    }
    match locals.get(at - 1) {
        Some(VerificationType::Long) => locals.set(at - 1, VerificationType::Top),
        None => {}
        Some(VerificationType::Top) => {}
        Some(VerificationType::Integer) => {}
        Some(VerificationType::Null) => {}
        Some(VerificationType::UninitializedThis) => {}
        Some(VerificationType::Object(_)) => {}
        Some(VerificationType::Uninitialized(_)) => {}
    }
}

#[tactic(auto, using(crate::proofs::Lists::set_beyond))]
fn set_if_there<'a>(locals: &mut Locals<'a>, at: usize, t: VerificationType<'a>)
    ensures { locals.new ≡ slice_set locals.old at (type_of t.entry) }
{
    if at >= locals.len() {
        return;
    }
    locals.set(at, t);
}

#[tactic(auto, using(crate::proofs::Lists::stored_beyond))]
fn store<'a>(locals: &mut Locals<'a>, kind: Kind, at: usize, t: VerificationType<'a>)
    ensures { locals.new ≡ t_stored kind at (type_of t.entry) locals.old }
{
    cut_long(locals, at);
    if at >= locals.len() {
        return;
    }
    locals.set(at, t);
    match kind {
        Kind::Long => set_if_there(locals, at + 1, VerificationType::Top),
        Kind::Int => {}
        Kind::Ref => {}
    }
}

fn push<'a>(known: &mut Known<'a>, t: VerificationType<'a>) -> Result<Option<VerifyCode>, Memory>
    ensures { IfOk result (λ fault. (fault ≡ None) × (shown known.new ≡ record { locals = known.old.locals; stack = type_of t.entry ∷ known.old.stack; unset = known.old.unset })) }
{
    known.stack.push(t)?;
    Ok(None)
}

// The value of a return.
fn return_value<'a>(
    set: &NamedSet,
    wanted: Option<VerificationType<'a>>,
    kind: Kind,
    known: &mut Known<'a>,
) -> Option<VerifyCode>
    ensures { Stepped (t_kind kind known.old.stack (λ u rest. t_returned set.now (option_map type_of wanted.entry) (shown known.old) kind u rest)) result known.new }
{
    let Some(t) = known.stack.pop() else {
        return Some(VerifyCode::WrongType);
    };
    if !t.is_kind(kind) {
        return Some(VerifyCode::WrongType);
    }
    match wanted {
        Some(wanted) => {
            if wanted.is_kind(kind) {
                if let Some(code) = misuse(set, wanted, t) {
                    return Some(code);
                }
                return if known.unset {
                    Some(VerifyCode::Uninitialised)
                } else {
                    None
                };
            }
        }
        None => {}
    }
    if known.unset || t.is_uninitialised() {
        Some(VerifyCode::Uninitialised)
    } else {
        Some(VerifyCode::ReturnType)
    }
}

fn push_some<'a>(
    known: &mut Known<'a>,
    t: Option<VerificationType<'a>>,
) -> Result<Option<VerifyCode>, Memory>
    ensures { IfOk result (λ fault. Stepped (t_pushed (shown known.old) (option_map type_of t.entry)) fault known.new) }
{
    match t {
        None => Ok(Some(VerifyCode::WrongType)),
        Some(t) => push(known, t),
    }
}

/// The types after a row of the first lot but a call, or its code, if the operands are there and the locals and the stack have
/// room.
pub fn typed<'a>(
    set: &NamedSet,
    class: &'a ClassFile,
    method: &Method,
    at: usize,
    wanted: Option<VerificationType<'a>>,
    row: Row,
    known: &mut Known<'a>,
) -> Result<Option<VerifyCode>, Memory>
    requires lot { is_plain row ≡ true }
    requires wanted { option_map type_of wanted ≡ (described method.now.descriptor).result }
    ensures { IfOk result (λ fault. Stepped (typed set.now class.now method.now at row (shown known.old)) fault known.new) }
{
    match row {
        Row::PushInt(_) => push(known, VerificationType::Integer),
        Row::PushLong(_) => push(known, VerificationType::Long),
        Row::PushNull => push(known, VerificationType::Null),
        Row::PushConstant(index) => push_some(known, constant_type(&class.pool, index)),
        Row::PushLongConstant(index) => push_some(known, long_constant_type(&class.pool, index)),
        Row::Load(kind, i) => match known.locals.get(i) {
            None => Ok(Some(VerifyCode::WrongType)),
            Some(t) => {
                if t.is_kind(kind) {
                    push(known, t)
                } else {
                    Ok(Some(VerifyCode::WrongType))
                }
            }
        },
        Row::Store(kind, i) => match known.stack.pop() {
            None => Ok(Some(VerifyCode::WrongType)),
            Some(t) => {
                if !t.is_kind(kind) {
                    return Ok(Some(VerifyCode::WrongType));
                }
                store(&mut known.locals, kind, i, t);
                Ok(None)
            }
        },
        Row::Pop => match known.stack.pop() {
            None => Ok(Some(VerifyCode::WrongType)),
            Some(t) => {
                if t.takes_one() {
                    Ok(None)
                } else {
                    Ok(Some(VerifyCode::WrongType))
                }
            }
        },
        Row::Pop2 => match known.stack.pop() {
            None => Ok(Some(VerifyCode::WrongType)),
            Some(VerificationType::Long) => Ok(None),
            Some(VerificationType::Top) => Ok(Some(VerifyCode::WrongType)),
            Some(VerificationType::Integer) => Ok(pop_second(&mut known.stack)),
            Some(VerificationType::Null) => Ok(pop_second(&mut known.stack)),
            Some(VerificationType::UninitializedThis) => Ok(pop_second(&mut known.stack)),
            Some(VerificationType::Object(_)) => Ok(pop_second(&mut known.stack)),
            Some(VerificationType::Uninitialized(_)) => Ok(pop_second(&mut known.stack)),
        },
        Row::Dup => match known.stack.pop() {
            None => Ok(Some(VerifyCode::WrongType)),
            Some(t) => {
                if !t.takes_one() {
                    return Ok(Some(VerifyCode::WrongType));
                }
                known.stack.push(t)?;
                push(known, t)
            }
        },
        Row::IntBinary(_) | Row::IntShift(_) => {
            if !pop_int(&mut known.stack) || !pop_int(&mut known.stack) {
                return Ok(Some(VerifyCode::WrongType));
            }
            push(known, VerificationType::Integer)
        }
        Row::LongBinary(_) => {
            if !pop_long(&mut known.stack) || !pop_long(&mut known.stack) {
                return Ok(Some(VerifyCode::WrongType));
            }
            push(known, VerificationType::Long)
        }
        Row::LongShift(_) => {
            if !pop_int(&mut known.stack) || !pop_long(&mut known.stack) {
                return Ok(Some(VerifyCode::WrongType));
            }
            push(known, VerificationType::Long)
        }
        Row::IntNeg | Row::IntToChar => {
            if !pop_int(&mut known.stack) {
                return Ok(Some(VerifyCode::WrongType));
            }
            push(known, VerificationType::Integer)
        }
        Row::LongNeg => {
            if !pop_long(&mut known.stack) {
                return Ok(Some(VerifyCode::WrongType));
            }
            push(known, VerificationType::Long)
        }
        Row::IntToLong => {
            if !pop_int(&mut known.stack) {
                return Ok(Some(VerifyCode::WrongType));
            }
            push(known, VerificationType::Long)
        }
        Row::LongToInt => {
            if !pop_long(&mut known.stack) {
                return Ok(Some(VerifyCode::WrongType));
            }
            push(known, VerificationType::Integer)
        }
        Row::LongCompare => {
            if !pop_long(&mut known.stack) || !pop_long(&mut known.stack) {
                return Ok(Some(VerifyCode::WrongType));
            }
            push(known, VerificationType::Integer)
        }
        Row::IfZero(_, _) => {
            if pop_int(&mut known.stack) {
                Ok(None)
            } else {
                Ok(Some(VerifyCode::WrongType))
            }
        }
        Row::IfCompare(_, _) => {
            if !pop_int(&mut known.stack) || !pop_int(&mut known.stack) {
                return Ok(Some(VerifyCode::WrongType));
            }
            Ok(None)
        }
        Row::IfSame(_, _) => Ok(pop_references(&mut known.stack)),
        Row::IfNull(_, _) => Ok(pop_reference(&mut known.stack)),
        Row::Goto(_) => Ok(None),
        Row::Return => {
            if known.unset {
                return Ok(Some(VerifyCode::Uninitialised));
            }
            match wanted {
                None => Ok(None),
                Some(_) => Ok(Some(VerifyCode::ReturnType)),
            }
        }
        Row::ReturnValue(kind) => Ok(return_value(set, wanted, kind, known)),
        _ => unreachable!(),
    }
}

// Does a row ask for a local beyond the last?
fn reaches_beyond(row: Row, max: usize) -> bool
    requires { in_first_lot row ≡ true }
    ensures { result ≡ nat_lt max (reaches row) }
{
    match row {
        Row::Load(kind, i) => is_beyond(i, kind_width(kind), max),
        Row::Store(kind, i) => is_beyond(i, kind_width(kind), max),
        Row::Increment(_, _) => unreachable!(),
        _ => false,
    }
}

fn is_beyond(at: usize, width: usize, max: usize) -> bool
    ensures { result ≡ nat_lt max (at + width) }
{
    at > max || max - at < width
}

fn needs(_set: &NamedSet, _class: &ClassFile, row: Row, stack: &Stack) -> usize
    requires { is_plain row ≡ true }
    ensures { result ≡ needs _set.now _class.now row stack.now }
{
    match row {
        Row::Pop2 => stack.pop2_needs(),
        Row::PushInt(_) | Row::PushLong(_) | Row::PushNull | Row::PushConstant(_) => 0,
        Row::PushLongConstant(_) | Row::Load(_, _) | Row::Goto(_) | Row::Return => 0,
        Row::Store(_, _) | Row::Pop | Row::Dup | Row::IntNeg | Row::LongNeg => 1,
        Row::IntToLong | Row::LongToInt | Row::IntToChar => 1,
        Row::IfZero(_, _) | Row::IfNull(_, _) | Row::ReturnValue(_) => 1,
        Row::IntBinary(_) | Row::LongBinary(_) | Row::IntShift(_) | Row::LongShift(_) => 2,
        Row::LongCompare | Row::IfCompare(_, _) | Row::IfSame(_, _) => 2,
        _ => unreachable!(),
    }
}

fn gives(_set: &NamedSet, _class: &ClassFile, row: Row) -> usize
    requires { is_plain row ≡ true }
    ensures { result ≡ gives _set.now _class.now row }
{
    match row {
        Row::Load(kind, _) => kind_width(kind),
        Row::PushInt(_) | Row::PushNull | Row::PushConstant(_) => 1,
        Row::PushLong(_) | Row::PushLongConstant(_) | Row::Dup => 2,
        Row::IntBinary(_) | Row::IntShift(_) | Row::IntNeg | Row::LongToInt => 1,
        Row::LongBinary(_) | Row::LongShift(_) | Row::LongNeg | Row::IntToLong => 2,
        Row::IntToChar | Row::LongCompare => 1,
        Row::Store(_, _) | Row::Pop | Row::Pop2 | Row::IfZero(_, _) | Row::IfCompare(_, _) => 0,
        Row::IfSame(_, _) | Row::IfNull(_, _) | Row::Goto(_) | Row::Return => 0,
        Row::ReturnValue(_) => 0,
        _ => unreachable!(),
    }
}

fn room_fault(
    max_locals: usize,
    max_stack: usize,
    beyond: bool,
    needed: usize,
    given: usize,
    known: &Known,
) -> Option<VerifyCode>
    ensures { result ≡ room_fault max_locals max_stack beyond needed given (shown known.now) }
{
    if known.locals.len() > max_locals || beyond {
        return Some(VerifyCode::LocalRange);
    }
    if known.stack.len() < needed {
        return Some(VerifyCode::StackUnderflow);
    }
    if known.stack.width() > max_stack
        || is_beyond(known.stack.width_below(needed), given, max_stack)
    {
        return Some(VerifyCode::StackOverflow);
    }
    None
}

// Why the values on a stack cannot be the arguments of a call.
fn argument_fault(set: &NamedSet, params: &[VerificationType], stack: &Stack) -> Option<VerifyCode>
    ensures { result ≡ misuses set.now (reverse (map type_of params.now)) stack.now }
{
    misuses(set, params, stack.as_slice())
}

fn result_width(call: &Call) -> usize
    ensures { result ≡ call_width (Some (call_seen call.now)) }
{
    match call.result {
        Some(t) => t.width(),
        None => 0,
    }
}

fn param_count(call: &Call) -> usize
    ensures { result ≡ call_needs (Some (call_seen call.now)) }
{
    call.params.len()
}

// What a call leaves where its arguments were.
fn returned<'a>(call: &Call<'a>, known: &mut Known<'a>) -> Result<Option<VerifyCode>, Memory>
    ensures { IfOk result (λ fault. Stepped (left (shown known.old) (result_types (call_seen call.now).result ++ drop (call_needs (Some (call_seen call.now))) known.old.stack)) fault known.new) }
{
    known.stack.drop_upper(param_count(call));
    match call.result {
        Some(t) => push(known, t),
        None => Ok(None),
    }
}

fn known_call_step<'a>(
    set: &NamedSet,
    max_locals: usize,
    max_stack: usize,
    call: &Call<'a>,
    known: &mut Known<'a>,
) -> Result<Option<VerifyCode>, Memory>
    ensures { IfOk result (λ fault. Stepped (call_verdict set.now max_locals max_stack (Some (call_seen call.now)) (shown known.old)) fault known.new) }
{
    let needed = param_count(call);
    let given = result_width(call);
    if let Some(code) = room_fault(max_locals, max_stack, false, needed, given, known) {
        return Ok(Some(code));
    }
    if let Some(code) = argument_fault(set, &call.params, &known.stack) {
        return Ok(Some(code));
    }
    returned(call, known)
}

fn unknown_call_step(
    set: &NamedSet,
    max_locals: usize,
    max_stack: usize,
    known: &Known,
) -> VerifyCode
    ensures { call_verdict set.now max_locals max_stack None (shown known.now) ≡ Err result }
{
    let _ = set;
    match room_fault(max_locals, max_stack, false, 0, 0, known) {
        Some(code) => code,
        None => VerifyCode::WrongType,
    }
}

// A call of a static method, if its name has one.
fn call_step<'a>(
    set: &NamedSet,
    max_locals: usize,
    max_stack: usize,
    call: Option<Call<'a>>,
    known: &mut Known<'a>,
) -> Result<Option<VerifyCode>, Memory>
    ensures { IfOk result (λ fault. Stepped (call_verdict set.now max_locals max_stack (option_map call_seen call.entry) (shown known.old)) fault known.new) }
{
    match call {
        Some(call) => known_call_step(set, max_locals, max_stack, &call, known),
        None => Ok(Some(unknown_call_step(set, max_locals, max_stack, known))),
    }
}

/// The types after a row of the first lot at a place of a method, or its code. `wanted` is the result of the method's descriptor.
pub fn step<'a>(
    alloc: Global,
    set: &NamedSet,
    class: &'a ClassFile,
    method: &Method,
    at: usize,
    wanted: Option<VerificationType<'a>>,
    row: Row,
    known: &mut Known<'a>,
) -> Result<Option<VerifyCode>, Memory>
    requires lot { in_first_lot row ≡ true }
    requires wanted { option_map type_of wanted ≡ (described method.now.descriptor).result }
    ensures { IfOk result (λ fault. Stepped (stepped set.now class.now method.now at row (shown known.old)) fault known.new) }
{
    let max_locals = method.max_locals as usize;
    let max_stack = method.max_stack as usize;
    if let Row::InvokeStatic(index) = row {
        let call = static_call(alloc, set, class, index)?;
        return call_step(set, max_locals, max_stack, call, known);
    }
    plain_step(set, class, method, at, wanted, row, known)
}

fn plain_step<'a>(
    set: &NamedSet,
    class: &'a ClassFile,
    method: &Method,
    at: usize,
    wanted: Option<VerificationType<'a>>,
    row: Row,
    known: &mut Known<'a>,
) -> Result<Option<VerifyCode>, Memory>
    requires lot { is_plain row ≡ true }
    requires wanted { option_map type_of wanted ≡ (described method.now.descriptor).result }
    ensures { IfOk result (λ fault. Stepped (stepped set.now class.now method.now at row (shown known.old)) fault known.new) }
{
    let max_locals = method.max_locals as usize;
    let max_stack = method.max_stack as usize;
    let beyond = reaches_beyond(row, max_locals);
    let needed = needs(set, class, row, &known.stack);
    let given = gives(set, class, row);
    if let Some(code) = room_fault(max_locals, max_stack, beyond, needed, given, known) {
        return Ok(Some(code));
    }
    typed(set, class, method, at, wanted, row, known)
}
