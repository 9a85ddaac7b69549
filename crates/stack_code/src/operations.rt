//! Operations as instructions at the code's end.

ghost use Rattle.std.specs.Prelude.{◌≡◌, ◌+◌, ◌<◌, ◌≤◌, ◌++◌, ◌∷◌, [], false, true, OnOk, MatchOption, pos};
ghost use Rattle.class_file.specs.Pools.{Slots};
ghost use Rattle.stack_code.specs.Code.{PushInt, PushText, Compute, Negate, Call, Jump, JumpIf, JumpCompare, Leave, back, bit, truth, truth_test, test_of, equal_test, loads, stores, to_text, discards, operator_of};
ghost use Rattle.stack_code.specs.Emission.{Emits, after_part, after_text};

use crate::constants::{Helper, literal, native, number};
use crate::instructions;
use class_file::instr::Instr;
use class_file::pool::Pool;
use class_file::row::Test;
use class_file::value::Kind;
use kc_core::tree::{BinaryOp, Order, TypeTree};
use kc_text::{Fail, Memory, Text};
use std::alloc::Global;

/// The instructions of a code that is under way. `fits` says that there was one for each operation so far: a jump or the number of
/// a local may be too large for an operand of 16 bits, and the constant pool may be full. Code that does not fit is not handed out.
#[derive(Drop)]
pub struct CodeBuffer {
    pub instrs: Vec<Instr>,
    pub fits: bool,
}

impl CodeBuffer {
    /// No code.
    pub fn new(alloc: Global) -> CodeBuffer
        ensures empty { result.instrs.items ≡ [] }
        ensures fits { result.fits ≡ true }
    {
        CodeBuffer {
            instrs: Vec::new(alloc),
            fits: true,
        }
    }
}

fn put(code: &mut CodeBuffer, instr: Instr) -> Result<(), Memory>
    ensures instrs { OnOk result (code.new.instrs.items ≡ code.old.instrs.items ++ instr ∷ []) }
    ensures fits { OnOk result (code.new.fits ≡ code.old.fits) }
{
    code.instrs.push(instr)?;
    Ok(())
}

// An operation for which there is no instruction.
fn leave_out(code: &mut CodeBuffer)
    ensures instrs { code.new.instrs.items ≡ code.old.instrs.items }
    ensures fits { code.new.fits ≡ false }
{
    code.fits = false;
}

/// Pushes a number.
#[tactic(auto, using(crate::proofs::Emitting::emits_one, crate::proofs::Emitting::emits_unfit, crate::proofs::Emitting::emits_none, crate::proofs::Emitting::extends_none))]
pub fn push_int(pool: &mut Pool, code: &mut CodeBuffer, n: i32) -> Result<(), Memory>
    ensures { OnOk result (Emits code.old code.new pool.old pool.new (PushInt n ∷ [])) }
{
    match instructions::push_int(n) {
        Some(instr) => {
            put(code, instr)?;
            Ok(())
        }
        None => match number(pool, n) {
            Ok(index) => put(code, Instr::LdcW(index)),
            Err(Fail::Found(_)) => {
                leave_out(code);
                Ok(())
            }
            Err(Fail::Memory) => Err(Memory),
        },
    }
}

/// Pushes a text.
#[tactic(auto, using(crate::proofs::Emitting::emits_one, crate::proofs::Emitting::emits_unfit, crate::proofs::Emitting::emits_none, crate::proofs::Emitting::extends_none))]
pub fn push_text(
    alloc: Global,
    pool: &mut Pool,
    code: &mut CodeBuffer,
    text: &Text,
) -> Result<(), Memory>
    ensures { OnOk result (Emits code.old code.new pool.old pool.new (PushText text.now ∷ [])) }
{
    let text = text.copy(alloc)?;
    match literal(pool, text) {
        Ok(index) => put(code, Instr::LdcW(index)),
        Err(Fail::Found(_)) => {
            leave_out(code);
            Ok(())
        }
        Err(Fail::Memory) => Err(Memory),
    }
}

// A local variable's number as an operand has 16 bits.
fn operand(local: usize) -> Option<u16>
    ensures { MatchOption result (65536 ≤ local) (λ n. n ≡ local) }
{
    if local < 65536 {
        Some(local as u16)
    } else {
        None
    }
}

/// Loads a local variable of a type.
#[tactic(auto, using(crate::proofs::Emitting::emits_one, crate::proofs::Emitting::emits_unfit, crate::proofs::Emitting::emits_none, crate::proofs::Emitting::extends_none))]
pub fn load(code: &mut CodeBuffer, ty: TypeTree, local: usize) -> Result<(), Memory>
    ensures { OnOk result ((pool : Slots) → Emits code.old code.new pool pool (loads ty local)) }
{
    let kind = match ty {
        TypeTree::Int | TypeTree::Boolean => Kind::Int,
        TypeTree::String => Kind::Ref,
        TypeTree::Unit => return Ok(()),
    };
    match operand(local) {
        Some(number) => put(code, instructions::load(kind, number)),
        None => {
            leave_out(code);
            Ok(())
        }
    }
}

/// Stores a value of a type into a local variable.
#[tactic(auto, using(crate::proofs::Emitting::emits_one, crate::proofs::Emitting::emits_unfit, crate::proofs::Emitting::emits_none, crate::proofs::Emitting::extends_none))]
pub fn store(code: &mut CodeBuffer, ty: TypeTree, local: usize) -> Result<(), Memory>
    ensures { OnOk result ((pool : Slots) → Emits code.old code.new pool pool (stores ty local)) }
{
    let kind = match ty {
        TypeTree::Int | TypeTree::Boolean => Kind::Int,
        TypeTree::String => Kind::Ref,
        TypeTree::Unit => return Ok(()),
    };
    match operand(local) {
        Some(number) => put(code, instructions::store(kind, number)),
        None => {
            leave_out(code);
            Ok(())
        }
    }
}

/// Computes with two Ints.
#[tactic(auto, using(crate::proofs::Emitting::emits_one, crate::proofs::Emitting::emits_unfit, crate::proofs::Emitting::emits_none, crate::proofs::Emitting::extends_none))]
pub fn compute(code: &mut CodeBuffer, op: BinaryOp) -> Result<(), Memory>
    ensures { OnOk result ((pool : Slots) → Emits code.old code.new pool pool (Compute (operator_of op) ∷ [])) }
{
    let instr = match op {
        BinaryOp::Plus => Instr::Iadd,
        BinaryOp::Minus => Instr::Isub,
        BinaryOp::Times => Instr::Imul,
        BinaryOp::Div => Instr::Idiv,
        BinaryOp::Rem => Instr::Irem,
    };
    put(code, instr)
}

/// Negates an Int.
#[tactic(auto, using(crate::proofs::Emitting::emits_one, crate::proofs::Emitting::emits_unfit, crate::proofs::Emitting::emits_none, crate::proofs::Emitting::extends_none))]
pub fn negate(code: &mut CodeBuffer) -> Result<(), Memory>
    ensures { OnOk result ((pool : Slots) → Emits code.old code.new pool pool (Negate ∷ [])) }
{
    put(code, Instr::Ineg)
}

/// Takes a value of a type off the stack.
#[tactic(auto, using(crate::proofs::Emitting::emits_one, crate::proofs::Emitting::emits_unfit, crate::proofs::Emitting::emits_none, crate::proofs::Emitting::extends_none))]
pub fn discard(code: &mut CodeBuffer, ty: TypeTree) -> Result<(), Memory>
    ensures { OnOk result ((pool : Slots) → Emits code.old code.new pool pool (discards ty)) }
{
    match ty {
        TypeTree::Int | TypeTree::Boolean | TypeTree::String => put(code, Instr::Pop),
        TypeTree::Unit => Ok(()),
    }
}

// A jump's distance as an operand has 16 bits, one of them its sign.
fn forward(distance: usize) -> Option<i16>
    ensures { MatchOption result (32768 ≤ distance) (λ n. n ≡ pos distance) }
{
    if distance < 32768 {
        Some(distance as i16)
    } else {
        None
    }
}

fn backward(distance: usize) -> Option<i16>
    ensures { MatchOption result (32768 ≤ distance) (λ n. n ≡ back distance) }
{
    match forward(distance) {
        Some(distance) => Some(-distance),
        None => None,
    }
}

// The distance of a jump that goes on so many bytes behind its end.
fn beyond_jump(beyond: usize) -> Option<i16>
    ensures { MatchOption result (32768 ≤ beyond + 3) (λ n. n ≡ pos (beyond + 3)) }
{
    match beyond.checked_add(3) {
        Some(distance) => forward(distance),
        None => None,
    }
}

/// Goes on so many bytes behind the jump.
#[tactic(auto, using(crate::proofs::Emitting::emits_row, crate::proofs::Emitting::emits_unfit))]
pub fn jump(code: &mut CodeBuffer, beyond: usize) -> Result<(), Memory>
    ensures { OnOk result ((pool : Slots) → Emits code.old code.new pool pool (Jump (pos (beyond + 3)) ∷ [])) }
{
    match beyond_jump(beyond) {
        Some(distance) => put(code, Instr::Goto(distance)),
        None => {
            leave_out(code);
            Ok(())
        }
    }
}

/// Goes on so many bytes before the jump.
#[tactic(auto, using(crate::proofs::Emitting::emits_row, crate::proofs::Emitting::emits_unfit))]
pub fn jump_back(code: &mut CodeBuffer, distance: usize) -> Result<(), Memory>
    ensures { OnOk result ((pool : Slots) → Emits code.old code.new pool pool (Jump (back distance) ∷ [])) }
{
    match backward(distance) {
        Some(distance) => put(code, Instr::Goto(distance)),
        None => {
            leave_out(code);
            Ok(())
        }
    }
}

/// Takes a Boolean off the stack, and goes on so many bytes behind the jump where it is this one.
#[tactic(auto, using(crate::proofs::Emitting::emits_row, crate::proofs::Emitting::emits_unfit))]
pub fn jump_if(code: &mut CodeBuffer, when: bool, beyond: usize) -> Result<(), Memory>
    ensures { OnOk result ((pool : Slots) → Emits code.old code.new pool pool (JumpIf (truth_test when) (beyond + 3) ∷ [])) }
{
    let Some(distance) = beyond_jump(beyond) else {
        leave_out(code);
        return Ok(());
    };
    let instr = if when {
        Instr::Ifne(distance)
    } else {
        Instr::Ifeq(distance)
    };
    put(code, instr)
}

/// Takes two Ints off the stack, and goes on so many bytes behind the jump where they pass the test.
#[tactic(auto, using(crate::proofs::Emitting::emits_row, crate::proofs::Emitting::emits_unfit))]
pub fn jump_compare(code: &mut CodeBuffer, test: Test, beyond: usize) -> Result<(), Memory>
    ensures { OnOk result ((pool : Slots) → Emits code.old code.new pool pool (JumpCompare test (beyond + 3) ∷ [])) }
{
    let Some(distance) = beyond_jump(beyond) else {
        leave_out(code);
        return Ok(());
    };
    let instr = match test {
        Test::Eq => Instr::IfIcmpeq(distance),
        Test::Ne => Instr::IfIcmpne(distance),
        Test::Lt => Instr::IfIcmplt(distance),
        Test::Ge => Instr::IfIcmpge(distance),
        Test::Gt => Instr::IfIcmpgt(distance),
        Test::Le => Instr::IfIcmple(distance),
    };
    put(code, instr)
}

/// The test that two Ints pass where their comparison comes to this value.
pub fn test_of(order: Order, when: bool) -> Test
    ensures { result ≡ test_of when order }
{
    match (order, when) {
        (Order::Less, true) | (Order::GreaterEqual, false) => Test::Lt,
        (Order::LessEqual, true) | (Order::Greater, false) => Test::Le,
        (Order::Greater, true) | (Order::LessEqual, false) => Test::Gt,
        (Order::GreaterEqual, true) | (Order::Less, false) => Test::Ge,
    }
}

/// The test that two Ints pass where they are equal, or where they are not.
pub fn equal_test(when: bool) -> Test
    ensures { result ≡ equal_test when }
{
    if when { Test::Eq } else { Test::Ne }
}

/// Pushes a Boolean.
#[tactic(auto, using(crate::proofs::Emitting::emits_row))]
pub fn push_bool(code: &mut CodeBuffer, value: bool) -> Result<(), Memory>
    ensures { OnOk result ((pool : Slots) → Emits code.old code.new pool pool (PushInt (bit value) ∷ [])) }
{
    put(
        code,
        if value {
            Instr::Iconst1
        } else {
            Instr::Iconst0
        },
    )
}

/// The two values of a test that goes on 4 bytes behind its end where it is false.
#[tactic(auto, using(crate::proofs::Emitting::emits_then))]
pub fn push_truth(code: &mut CodeBuffer) -> Result<(), Memory>
    ensures { OnOk result ((pool : Slots) → Emits code.old code.new pool pool truth) }
{
    push_bool(code, true)?;
    jump(code, 1)?;
    push_bool(code, false)?;
    Ok(())
}

/// Returns without a value.
#[tactic(auto, using(crate::proofs::Emitting::emits_one, crate::proofs::Emitting::emits_unfit, crate::proofs::Emitting::emits_none, crate::proofs::Emitting::extends_none))]
pub fn leave(code: &mut CodeBuffer) -> Result<(), Memory>
    ensures { OnOk result ((pool : Slots) → Emits code.old code.new pool pool (Leave ∷ [])) }
{
    put(code, Instr::Return)
}

/// Calls a native.
#[tactic(auto, using(crate::proofs::Emitting::emits_one, crate::proofs::Emitting::emits_unfit, crate::proofs::Emitting::emits_none, crate::proofs::Emitting::extends_none))]
pub fn call(
    alloc: Global,
    pool: &mut Pool,
    code: &mut CodeBuffer,
    helper: Helper,
) -> Result<(), Memory>
    ensures { OnOk result (Emits code.old code.new pool.old pool.new (Call helper ∷ [])) }
{
    match native(alloc, pool, helper) {
        Ok(index) => put(code, Instr::Invokestatic(index)),
        Err(Fail::Found(_)) => {
            leave_out(code);
            Ok(())
        }
        Err(Fail::Memory) => Err(Memory),
    }
}

/// Turns a value of a type into its text.
#[tactic(auto, using(crate::proofs::Emitting::emits_one, crate::proofs::Emitting::emits_unfit, crate::proofs::Emitting::emits_none, crate::proofs::Emitting::extends_none))]
pub fn to_text(
    alloc: Global,
    pool: &mut Pool,
    code: &mut CodeBuffer,
    ty: TypeTree,
) -> Result<(), Memory>
    ensures { OnOk result (Emits code.old code.new pool.old pool.new (to_text ty)) }
{
    match ty {
        TypeTree::Int => call(alloc, pool, code, Helper::TextsOfInt),
        TypeTree::Boolean => call(alloc, pool, code, Helper::TextsOfBoolean),
        TypeTree::String => Ok(()),
        TypeTree::Unit => {
            let text = Text::from_str(alloc, "kotlin.Unit")?;
            push_text(alloc, pool, code, &text)
        }
    }
}

/// Behind a part that stands in a row of others: its value is dropped, but for the last one's.
#[tactic(auto, using(crate::proofs::Emitting::emits_one, crate::proofs::Emitting::emits_unfit, crate::proofs::Emitting::emits_none, crate::proofs::Emitting::emits_then, crate::proofs::Emitting::extends_none))]
pub fn between(code: &mut CodeBuffer, ty: TypeTree, is_last: bool) -> Result<(), Memory>
    ensures { OnOk result ((pool : Slots) → Emits code.old code.new pool pool (after_part is_last ty)) }
{
    if is_last { Ok(()) } else { discard(code, ty) }
}

/// Behind a part of a text: it becomes a text, and goes behind what stands there, but for the first one.
#[tactic(auto, using(crate::proofs::Emitting::emits_one, crate::proofs::Emitting::emits_unfit, crate::proofs::Emitting::emits_none, crate::proofs::Emitting::emits_then, crate::proofs::Emitting::extends_none))]
pub fn join(
    alloc: Global,
    pool: &mut Pool,
    code: &mut CodeBuffer,
    ty: TypeTree,
    is_first: bool,
) -> Result<(), Memory>
    ensures { OnOk result (Emits code.old code.new pool.old pool.new (after_text is_first ty)) }
{
    to_text(alloc, pool, code, ty)?;
    if is_first {
        Ok(())
    } else {
        call(alloc, pool, code, Helper::TextsConcat)
    }
}
