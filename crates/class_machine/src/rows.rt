// What each row does in its frame.

ghost use Rattle.std.specs.Int.{w32, w64};
ghost use Rattle.std.specs.Prelude.{◌≡◌, ◌≢◌, ◌<◌, Some, true, false, reverse, OnOk, IfOk};
ghost use Rattle.class_file.specs.Machine.{int_answer, long_answer, holds, three_way, low_half, low_unit, shifted, branch, effect, Fails};
ghost use Rattle.class_file.specs.declared.row.Row.TheVariants as row;
ghost use Rattle.class_machine.specs.Plain.{is_plain, is_division};
ghost use Rattle.class_machine.specs.Stacks.{Did, DidGoOn};

use crate::frame::{Frame, pop, pop_int, pop_long, push};
use class_file::row::{Operator, Row, Shift, Test};
use class_file::value::{BuiltIn, Kind, Value};
use std::alloc::AllocError;

/// What a row did.
#[derive(Clone, Copy)]
pub enum Went {
    On,
    Threw(BuiltIn),
    Loads(usize),
    LoadsWide(usize),
    /// Two references are compared: whether they are to be the same, where a jump leads, and the two.
    Compares(bool, usize, Value, Value),
    Calls(usize),
    Returned,
    ReturnedValue(Value),
    NotBuilt,
}

/// Does an operator divide?
#[inline(always)]
fn is_division(o: Operator) -> bool
    ensures { result ≡ is_division o }
{
    match o {
        Operator::Div | Operator::Rem => true,
        Operator::Add
        | Operator::Sub
        | Operator::Mul
        | Operator::And
        | Operator::Or
        | Operator::Xor => false,
    }
}

#[inline(always)]
fn int_answer(o: Operator, x: i32, y: i32) -> i32
    requires { is_division o ≡ false }
    ensures { int_answer o x y ≡ Some result }
{
    match o {
        Operator::Add => x.wrapping_add(y),
        Operator::Sub => x.wrapping_sub(y),
        Operator::Mul => x.wrapping_mul(y),
        Operator::And => x & y,
        Operator::Or => x | y,
        Operator::Xor => x ^ y,
        Operator::Div => unreachable!(),
        Operator::Rem => unreachable!(),
    }
}

fn int_quotient(o: Operator, x: i32, y: i32) -> Option<i32>
    requires { is_division o ≡ true }
    ensures { result ≡ int_answer o x y }
{
    if y == 0 {
        return None;
    }
    match o {
        Operator::Div => Some(x.wrapping_div(y)),
        Operator::Rem => Some(x.wrapping_rem(y)),
        Operator::Add => unreachable!(),
        Operator::Sub => unreachable!(),
        Operator::Mul => unreachable!(),
        Operator::And => unreachable!(),
        Operator::Or => unreachable!(),
        Operator::Xor => unreachable!(),
    }
}

fn int_shifted(s: Shift, x: i32, k: u32) -> i32
    requires { k < 32 }
    ensures { result ≡ shifted s w32 x k }
{
    match s {
        Shift::Left => x << k,
        Shift::Right => x >> k,
        Shift::UnsignedRight => (x.cast_unsigned() >> k).cast_signed(),
    }
}

fn long_shifted(s: Shift, x: i64, k: u32) -> i64
    requires { k < 64 }
    ensures { result ≡ shifted s w64 x k }
{
    match s {
        Shift::Left => x << k,
        Shift::Right => x >> k,
        Shift::UnsignedRight => (x.cast_unsigned() >> k).cast_signed(),
    }
}

fn low_unit(x: i32) -> i32
    ensures { result ≡ low_unit x }
{
    i32::from((x.cast_unsigned() % 0x1_0000) as u16)
}

/// Where a jump goes on that is made where something is so, or, if not wanted, where it is not.
#[inline(always)]
pub fn branch(wanted: bool, so: bool, to: usize, next: usize) -> usize
    ensures { result ≡ branch wanted so to next }
{
    if wanted {
        if so { to } else { next }
    } else {
        if so { next } else { to }
    }
}

fn holds(t: Test, x: i32, y: i32) -> bool
    ensures { result ≡ holds t x y }
{
    match t {
        Test::Eq => x == y,
        Test::Ne => x != y,
        Test::Lt => x < y,
        Test::Ge => x >= y,
        Test::Gt => x > y,
        Test::Le => x <= y,
    }
}

fn three_way(x: i64, y: i64) -> i32
    ensures { result ≡ three_way x y }
{
    if x < y {
        -1
    } else if y < x {
        1
    } else {
        0
    }
}

#[inline(always)]
fn long_answer(o: Operator, x: i64, y: i64) -> i64
    requires { is_division o ≡ false }
    ensures { long_answer o x y ≡ Some result }
{
    match o {
        Operator::Add => x.wrapping_add(y),
        Operator::Sub => x.wrapping_sub(y),
        Operator::Mul => x.wrapping_mul(y),
        Operator::And => x & y,
        Operator::Or => x | y,
        Operator::Xor => x ^ y,
        Operator::Div => unreachable!(),
        Operator::Rem => unreachable!(),
    }
}

fn long_quotient(o: Operator, x: i64, y: i64) -> Option<i64>
    requires { is_division o ≡ true }
    ensures { result ≡ long_answer o x y }
{
    if y == 0 {
        return None;
    }
    match o {
        Operator::Div => Some(x.wrapping_div(y)),
        Operator::Rem => Some(x.wrapping_rem(y)),
        Operator::Add => unreachable!(),
        Operator::Sub => unreachable!(),
        Operator::Mul => unreachable!(),
        Operator::And => unreachable!(),
        Operator::Or => unreachable!(),
        Operator::Xor => unreachable!(),
    }
}

fn low_half(x: i64) -> i32
    ensures { result ≡ low_half x }
{
    ((x.cast_unsigned() % 0x1_0000_0000) as u32).cast_signed()
}

// A local variable onto the stack.
#[inline(always)]
fn load(kind: Kind, i: usize, next: usize, f: &mut Frame) -> Result<(), AllocError>
    requires { effect (row.Load kind i) next f.old.locals.items (reverse f.old.stack.items) ≢ Fails }
    ensures { OnOk result (DidGoOn (effect (row.Load kind i) next f.old.locals.items (reverse f.old.stack.items)) f.old f.new) }
{
    let _kind = kind;
    let v = f.locals[i];
    push(&mut f.stack, v)?;
    f.at = next;
    Ok(())
}

// The top of the stack into a local variable.
#[inline(always)]
fn store(kind: Kind, i: usize, next: usize, f: &mut Frame)
    requires { effect (row.Store kind i) next f.old.locals.items (reverse f.old.stack.items) ≢ Fails }
    ensures { DidGoOn (effect (row.Store kind i) next f.old.locals.items (reverse f.old.stack.items)) f.old f.new }
{
    let v = pop(&mut f.stack);
    match kind {
        Kind::Long => {
            f.locals[i] = v;
            f.locals[i + 1] = Value::Nothing;
        }
        Kind::Int => f.locals[i] = v,
        Kind::Ref => f.locals[i] = v,
    }
    f.at = next;
}

#[inline(always)]
fn int_binary(o: Operator, next: usize, f: &mut Frame) -> Result<(), AllocError>
    requires plain { is_division o ≡ false }
    requires goes { effect (row.IntBinary o) next f.old.locals.items (reverse f.old.stack.items) ≢ Fails }
    ensures { OnOk result (DidGoOn (effect (row.IntBinary o) next f.old.locals.items (reverse f.old.stack.items)) f.old f.new) }
{
    let y = pop_int(&mut f.stack);
    let x = pop_int(&mut f.stack);
    push(&mut f.stack, Value::Int(int_answer(o, x, y)))?;
    f.at = next;
    Ok(())
}

#[inline(always)]
fn long_binary(o: Operator, next: usize, f: &mut Frame) -> Result<(), AllocError>
    requires plain { is_division o ≡ false }
    requires goes { effect (row.LongBinary o) next f.old.locals.items (reverse f.old.stack.items) ≢ Fails }
    ensures { OnOk result (DidGoOn (effect (row.LongBinary o) next f.old.locals.items (reverse f.old.stack.items)) f.old f.new) }
{
    let y = pop_long(&mut f.stack);
    let x = pop_long(&mut f.stack);
    push(&mut f.stack, Value::Long(long_answer(o, x, y)))?;
    f.at = next;
    Ok(())
}

fn int_division(o: Operator, next: usize, f: &mut Frame) -> Result<Went, AllocError>
    requires divides { is_division o ≡ true }
    requires goes { effect (row.IntBinary o) next f.old.locals.items (reverse f.old.stack.items) ≢ Fails }
    ensures { IfOk result (λ w. Did (row.IntBinary o) (effect (row.IntBinary o) next f.old.locals.items (reverse f.old.stack.items)) w f.old f.new) }
{
    let y = pop_int(&mut f.stack);
    let x = pop_int(&mut f.stack);
    match int_quotient(o, x, y) {
        Some(n) => {
            push(&mut f.stack, Value::Int(n))?;
            f.at = next;
            Ok(Went::On)
        }
        None => Ok(Went::Threw(BuiltIn::ArithmeticException)),
    }
}

fn long_division(o: Operator, next: usize, f: &mut Frame) -> Result<Went, AllocError>
    requires divides { is_division o ≡ true }
    requires goes { effect (row.LongBinary o) next f.old.locals.items (reverse f.old.stack.items) ≢ Fails }
    ensures { IfOk result (λ w. Did (row.LongBinary o) (effect (row.LongBinary o) next f.old.locals.items (reverse f.old.stack.items)) w f.old f.new) }
{
    let y = pop_long(&mut f.stack);
    let x = pop_long(&mut f.stack);
    match long_quotient(o, x, y) {
        Some(n) => {
            push(&mut f.stack, Value::Long(n))?;
            f.at = next;
            Ok(Went::On)
        }
        None => Ok(Went::Threw(BuiltIn::ArithmeticException)),
    }
}

#[inline(always)]
fn return_value(kind: Kind, next: usize, f: &mut Frame) -> Went
    requires { effect (row.ReturnValue kind) next f.old.locals.items (reverse f.old.stack.items) ≢ Fails }
    ensures { Did (row.ReturnValue kind) (effect (row.ReturnValue kind) next f.old.locals.items (reverse f.old.stack.items)) result f.old f.new }
{
    let _kind = kind;
    let _next = next;
    Went::ReturnedValue(pop(&mut f.stack))
}

/// Does a row go on behind or by a jump, with nothing but its frame?
#[inline(always)]
pub fn is_plain(row: Row) -> bool
    ensures { result ≡ is_plain row }
{
    match row {
        Row::Nop
        | Row::PushInt(_)
        | Row::PushLong(_)
        | Row::PushNull
        | Row::Load(_, _)
        | Row::Store(_, _)
        | Row::Increment(_, _)
        | Row::Pop
        | Row::Pop2
        | Row::Dup
        | Row::DupX1
        | Row::Dup2
        | Row::IntShift(_)
        | Row::LongShift(_)
        | Row::IntNeg
        | Row::LongNeg
        | Row::IntToLong
        | Row::LongToInt
        | Row::IntToChar
        | Row::LongCompare
        | Row::IfZero(_, _)
        | Row::IfCompare(_, _)
        | Row::IfNull(_, _)
        | Row::Goto(_) => true,
        Row::IntBinary(o) => !is_division(o),
        Row::LongBinary(o) => !is_division(o),
        Row::PushConstant(_)
        | Row::PushLongConstant(_)
        | Row::IfSame(_, _)
        | Row::InvokeStatic(_)
        | Row::Return
        | Row::ReturnValue(_)
        | Row::GetStatic(_)
        | Row::PutStatic(_)
        | Row::GetField(_)
        | Row::PutField(_)
        | Row::InvokeVirtual(_)
        | Row::InvokeSpecial(_)
        | Row::InvokeInterface(_)
        | Row::New(_)
        | Row::NewArray(_)
        | Row::CheckCast(_)
        | Row::InstanceOf(_)
        | Row::ArrayLength
        | Row::ArrayLoad
        | Row::ArrayStore
        | Row::Throw => false,
    }
}

/// What a plain row does.
#[inline(always)]
pub fn plain(row: Row, next: usize, f: &mut Frame) -> Result<(), AllocError>
    requires plain { is_plain row ≡ true }
    requires goes { effect row next f.old.locals.items (reverse f.old.stack.items) ≢ Fails }
    ensures { OnOk result (DidGoOn (effect row next f.old.locals.items (reverse f.old.stack.items)) f.old f.new) }
{
    match row {
        Row::Nop => {
            f.at = next;
            Ok(())
        }
        Row::PushInt(n) => {
            push(&mut f.stack, Value::Int(n))?;
            f.at = next;
            Ok(())
        }
        Row::PushLong(n) => {
            push(&mut f.stack, Value::Long(n))?;
            f.at = next;
            Ok(())
        }
        Row::PushNull => {
            push(&mut f.stack, Value::Null)?;
            f.at = next;
            Ok(())
        }
        Row::Load(kind, i) => load(kind, i, next, f),
        Row::Store(kind, i) => {
            store(kind, i, next, f);
            Ok(())
        }
        Row::Increment(i, n) => {
            let Value::Int(x) = f.locals[i] else {
                unreachable!()
            };
            f.locals[i] = Value::Int(x.wrapping_add(n));
            f.at = next;
            Ok(())
        }
        Row::Pop => {
            let _ = pop(&mut f.stack);
            f.at = next;
            Ok(())
        }
        Row::Pop2 => {
            if let Value::Long(_) = pop(&mut f.stack) {} else {
                let _ = pop(&mut f.stack);
            }
            f.at = next;
            Ok(())
        }
        Row::Dup => {
            let v = pop(&mut f.stack);
            push(&mut f.stack, v)?;
            push(&mut f.stack, v)?;
            f.at = next;
            Ok(())
        }
        Row::DupX1 => {
            let v = pop(&mut f.stack);
            let w = pop(&mut f.stack);
            push(&mut f.stack, v)?;
            push(&mut f.stack, w)?;
            push(&mut f.stack, v)?;
            f.at = next;
            Ok(())
        }
        Row::Dup2 => {
            let v = pop(&mut f.stack);
            if let Value::Long(_) = v {
                push(&mut f.stack, v)?;
                push(&mut f.stack, v)?;
            } else {
                let w = pop(&mut f.stack);
                push(&mut f.stack, w)?;
                push(&mut f.stack, v)?;
                push(&mut f.stack, w)?;
                push(&mut f.stack, v)?;
            }
            f.at = next;
            Ok(())
        }
        Row::IntBinary(o) => int_binary(o, next, f),
        Row::LongBinary(o) => long_binary(o, next, f),
        Row::IntShift(s) => {
            let y = pop_int(&mut f.stack);
            let x = pop_int(&mut f.stack);
            push(
                &mut f.stack,
                Value::Int(int_shifted(s, x, y.cast_unsigned() % 32)),
            )?;
            f.at = next;
            Ok(())
        }
        Row::LongShift(s) => {
            let y = pop_int(&mut f.stack);
            let x = pop_long(&mut f.stack);
            push(
                &mut f.stack,
                Value::Long(long_shifted(s, x, y.cast_unsigned() % 64)),
            )?;
            f.at = next;
            Ok(())
        }
        Row::IntNeg => {
            let x = pop_int(&mut f.stack);
            push(&mut f.stack, Value::Int(x.wrapping_neg()))?;
            f.at = next;
            Ok(())
        }
        Row::LongNeg => {
            let x = pop_long(&mut f.stack);
            push(&mut f.stack, Value::Long(x.wrapping_neg()))?;
            f.at = next;
            Ok(())
        }
        Row::IntToLong => {
            let x = pop_int(&mut f.stack);
            push(&mut f.stack, Value::Long(i64::from(x)))?;
            f.at = next;
            Ok(())
        }
        Row::LongToInt => {
            let x = pop_long(&mut f.stack);
            push(&mut f.stack, Value::Int(low_half(x)))?;
            f.at = next;
            Ok(())
        }
        Row::IntToChar => {
            let x = pop_int(&mut f.stack);
            push(&mut f.stack, Value::Int(low_unit(x)))?;
            f.at = next;
            Ok(())
        }
        Row::LongCompare => {
            let y = pop_long(&mut f.stack);
            let x = pop_long(&mut f.stack);
            push(&mut f.stack, Value::Int(three_way(x, y)))?;
            f.at = next;
            Ok(())
        }
        Row::IfZero(t, to) => {
            let x = pop_int(&mut f.stack);
            f.at = if holds(t, x, 0) { to } else { next };
            Ok(())
        }
        Row::IfCompare(t, to) => {
            let y = pop_int(&mut f.stack);
            let x = pop_int(&mut f.stack);
            f.at = if holds(t, x, y) { to } else { next };
            Ok(())
        }
        Row::IfNull(wanted, to) => {
            let v = pop(&mut f.stack);
            f.at = branch(wanted, matches!(v, Value::Null), to, next);
            Ok(())
        }
        Row::Goto(to) => {
            f.at = to;
            Ok(())
        }
        Row::PushConstant(_)
        | Row::PushLongConstant(_)
        | Row::IfSame(_, _)
        | Row::InvokeStatic(_)
        | Row::Return
        | Row::ReturnValue(_)
        | Row::GetStatic(_)
        | Row::PutStatic(_)
        | Row::GetField(_)
        | Row::PutField(_)
        | Row::InvokeVirtual(_)
        | Row::InvokeSpecial(_)
        | Row::InvokeInterface(_)
        | Row::New(_)
        | Row::NewArray(_)
        | Row::CheckCast(_)
        | Row::InstanceOf(_)
        | Row::ArrayLength
        | Row::ArrayLoad
        | Row::ArrayStore
        | Row::Throw => unreachable!(),
    }
}

/// What a row does that is not plain, as far as it needs nothing but its frame.
#[inline(always)]
pub fn in_frame(row: Row, next: usize, f: &mut Frame) -> Result<Went, AllocError>
    requires other { is_plain row ≡ false }
    requires goes { effect row next f.old.locals.items (reverse f.old.stack.items) ≢ Fails }
    ensures { IfOk result (λ w. Did row (effect row next f.old.locals.items (reverse f.old.stack.items)) w f.old f.new) }
{
    match row {
        Row::PushConstant(i) => Ok(Went::Loads(i)),
        Row::PushLongConstant(i) => Ok(Went::LoadsWide(i)),
        Row::IntBinary(o) => int_division(o, next, f),
        Row::LongBinary(o) => long_division(o, next, f),
        Row::IfSame(wanted, to) => {
            let second = pop(&mut f.stack);
            let first = pop(&mut f.stack);
            Ok(Went::Compares(wanted, to, first, second))
        }
        Row::InvokeStatic(i) => Ok(Went::Calls(i)),
        Row::Return => Ok(Went::Returned),
        Row::ReturnValue(kind) => Ok(return_value(kind, next, f)),
        Row::GetStatic(_)
        | Row::PutStatic(_)
        | Row::GetField(_)
        | Row::PutField(_)
        | Row::InvokeVirtual(_)
        | Row::InvokeSpecial(_)
        | Row::InvokeInterface(_)
        | Row::New(_)
        | Row::NewArray(_)
        | Row::CheckCast(_)
        | Row::InstanceOf(_)
        | Row::ArrayLength
        | Row::ArrayLoad
        | Row::ArrayStore
        | Row::Throw => Ok(Went::NotBuilt),
        Row::Nop
        | Row::PushInt(_)
        | Row::PushLong(_)
        | Row::PushNull
        | Row::Load(_, _)
        | Row::Store(_, _)
        | Row::Increment(_, _)
        | Row::Pop
        | Row::Pop2
        | Row::Dup
        | Row::DupX1
        | Row::Dup2
        | Row::IntShift(_)
        | Row::LongShift(_)
        | Row::IntNeg
        | Row::LongNeg
        | Row::IntToLong
        | Row::LongToInt
        | Row::IntToChar
        | Row::LongCompare
        | Row::IfZero(_, _)
        | Row::IfCompare(_, _)
        | Row::IfNull(_, _)
        | Row::Goto(_) => unreachable!(),
    }
}
