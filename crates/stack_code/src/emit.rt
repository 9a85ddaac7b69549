//! The code of a tree.

ghost use Rattle.std.specs.Prelude.{◌≡◌, ◌+◌, ◌++◌, ◌∷◌, ◌&&◌, ◌||◌, [], map, not, false, if◌then◌else◌, IfOk, OnOk};
ghost use Rattle.stack_code.specs.Code.{code_of, kept, two_ops, Compute, Negate, Call, JumpIf, JumpCompare, operator_of, truth_test, truth, bytes, decided, discards, condition, condition_size, either_ops, body_size, returns, texts, values, in_turn, stores};
ghost use Rattle.class_file.specs.Pools.{Slots};
ghost use Rattle.stack_code.specs.Emission.{Emits, declared_goes, declared_ops};
ghost use Rattle.stack_code.specs.declared.constants.Helper.TheVariants as helper;

use crate::constants::Helper;
use crate::measures::{
    body_length, condition_length, discard_size, is_true, measure_of, over_length, plus,
};
use crate::operations::{
    CodeBuffer, between, call, compute, discard, equal_test, join, jump, jump_back, jump_compare,
    jump_if, load, negate, push_bool, push_int, push_text, push_truth, store, test_of,
};
use class_file::pool::Pool;
use class_file::row::Test;
use kc_core::tree::{BinaryOp, Core, Kind, Native, UnaryOp};
use kc_text::{Memory, Text};
use sqlite_items::Boxed;
use std::alloc::Global;

// A child's code, and what takes its value.
#[cycle(emit)]
fn emit_stored(
    alloc: Global,
    pool: &mut Pool,
    code: &mut CodeBuffer,
    local: usize,
    value: &Core,
) -> Result<bool, Memory>
    ensures goes { IfOk result (λ goes. goes ≡ (code_of value.now).goes_on) }
    ensures emits { OnOk result (Emits code.old code.new pool.old pool.new ((code_of value.now).code ++ kept (code_of value.now).goes_on (stores value.now.ty local))) }
{
    let goes = emit(alloc, pool, code, value)?;
    if goes {
        store(code, value.ty, local)?;
    }
    Ok(goes)
}

// A declaration, which may have a value.
#[cycle(emit)]
fn emit_declared(
    alloc: Global,
    pool: &mut Pool,
    code: &mut CodeBuffer,
    local: usize,
    value: &Option<Boxed<Core>>,
) -> Result<bool, Memory>
    ensures goes { IfOk result (λ goes. goes ≡ declared_goes value.now) }
    ensures emits { OnOk result (Emits code.old code.new pool.old pool.new (declared_ops local value.now)) }
{
    match value {
        None => Ok(true),
        Some(value) => {
            let goes = emit_stored(alloc, pool, code, local, value.get())?;
            Ok(goes)
        }
    }
}

#[cycle(emit)]
fn emit_negate(
    alloc: Global,
    pool: &mut Pool,
    code: &mut CodeBuffer,
    value: &Core,
) -> Result<bool, Memory>
    ensures goes { IfOk result (λ goes. goes ≡ (code_of value.now).goes_on) }
    ensures emits { OnOk result (Emits code.old code.new pool.old pool.new ((code_of value.now).code ++ kept (code_of value.now).goes_on (Negate ∷ []))) }
{
    let goes = emit(alloc, pool, code, value)?;
    if goes {
        negate(code)?;
    }
    Ok(goes)
}

// A text's first part stays as it is; each other one is put behind what stands there.
#[cycle(emit)]
fn emit_texts(
    alloc: Global,
    pool: &mut Pool,
    code: &mut CodeBuffer,
    parts: &[Core],
) -> Result<bool, Memory>
    ensures goes { IfOk result (λ goes. goes ≡ (texts (map code_of parts.now)).goes_on) }
    ensures emits { OnOk result (Emits code.old code.new pool.old pool.new (texts (map code_of parts.now)).code) }
{
    if parts.is_empty() {
        let empty = Text::new(alloc);
        push_text(alloc, pool, code, &empty)?;
        return Ok(true);
    }
    for (i, part) in parts.iter().enumerate() {
        if !emit(alloc, pool, code, part)? {
            return Ok(false);
        }
        join(alloc, pool, code, part.ty, i == 0)?;
    }
    Ok(true)
}

#[cycle(emit)]
fn emit_values(
    alloc: Global,
    pool: &mut Pool,
    code: &mut CodeBuffer,
    arguments: &[Core],
) -> Result<bool, Memory>
    ensures goes { IfOk result (λ goes. goes ≡ (values (map code_of arguments.now)).goes_on) }
    ensures emits { OnOk result (Emits code.old code.new pool.old pool.new (values (map code_of arguments.now)).code) }
{
    for value in arguments {
        if !emit(alloc, pool, code, value)? {
            return Ok(false);
        }
    }
    Ok(true)
}

// All values but the last one's are dropped.
#[cycle(emit)]
fn emit_in_turn(
    alloc: Global,
    pool: &mut Pool,
    code: &mut CodeBuffer,
    parts: &[Core],
) -> Result<bool, Memory>
    ensures goes { IfOk result (λ goes. goes ≡ (in_turn (map code_of parts.now)).goes_on) }
    ensures emits { OnOk result (Emits code.old code.new pool.old pool.new (in_turn (map code_of parts.now)).code) }
{
    for (i, part) in parts.iter().enumerate() {
        if !emit(alloc, pool, code, part)? {
            return Ok(false);
        }
        between(code, part.ty, i + 1 == parts.len())?;
    }
    Ok(true)
}

#[cycle(emit)]
fn emit_native(
    alloc: Global,
    pool: &mut Pool,
    code: &mut CodeBuffer,
    arguments: &[Core],
) -> Result<bool, Memory>
    ensures goes { IfOk result (λ goes. goes ≡ (values (map code_of arguments.now)).goes_on) }
    ensures emits { OnOk result (Emits code.old code.new pool.old pool.new ((values (map code_of arguments.now)).code ++ kept (values (map code_of arguments.now)).goes_on (Call helper.ConsoleWrite ∷ []))) }
{
    let goes = emit_values(alloc, pool, code, arguments)?;
    if goes {
        call(alloc, pool, code, Helper::ConsoleWrite)?;
    }
    Ok(goes)
}

// Two children. It goes on where both do.
#[cycle(emit)]
fn emit_two(
    alloc: Global,
    pool: &mut Pool,
    code: &mut CodeBuffer,
    left: &Core,
    right: &Core,
) -> Result<bool, Memory>
    ensures goes { IfOk result (λ goes. goes ≡ ((code_of left.now).goes_on && (code_of right.now).goes_on)) }
    ensures emits { OnOk result (Emits code.old code.new pool.old pool.new ((code_of left.now).code ++ kept (code_of left.now).goes_on (code_of right.now).code)) }
{
    if !emit(alloc, pool, code, left)? {
        return Ok(false);
    }
    let goes = emit(alloc, pool, code, right)?;
    Ok(goes)
}

#[cycle(emit)]
fn emit_binary(
    alloc: Global,
    pool: &mut Pool,
    code: &mut CodeBuffer,
    op: BinaryOp,
    left: &Core,
    right: &Core,
) -> Result<bool, Memory>
    ensures goes { IfOk result (λ goes. goes ≡ ((code_of left.now).goes_on && (code_of right.now).goes_on)) }
    ensures emits { OnOk result (Emits code.old code.new pool.old pool.new (two_ops (code_of left.now) (code_of right.now) (Compute (operator_of op) ∷ []))) }
{
    let goes = emit_two(alloc, pool, code, left, right)?;
    if goes {
        compute(code, op)?;
    }
    Ok(goes)
}

// Two Ints, and a jump where they pass the test.
#[cycle(emit)]
fn emit_compared(
    alloc: Global,
    pool: &mut Pool,
    code: &mut CodeBuffer,
    left: &Core,
    right: &Core,
    test: Test,
    beyond: usize,
) -> Result<bool, Memory>
    ensures goes { IfOk result (λ goes. goes ≡ ((code_of left.now).goes_on && (code_of right.now).goes_on)) }
    ensures emits { OnOk result (Emits code.old code.new pool.old pool.new (two_ops (code_of left.now) (code_of right.now) (JumpCompare test (beyond + 3) ∷ []))) }
{
    let goes = emit_two(alloc, pool, code, left, right)?;
    if goes {
        jump_compare(code, test, beyond)?;
    }
    Ok(goes)
}

// Where the side that decides has the value that is tested, it goes on behind the whole.
fn beyond_whole(decisive: bool, when: bool, beyond: usize) -> usize
    ensures { result ≡ decided decisive when beyond }
{
    match (decisive, when) {
        (true, true) | (false, false) => beyond,
        (true, false) | (false, true) => 0,
    }
}

// Two sides, of which the left one decides where it has this value.
#[cycle(emit)]
fn emit_short(
    alloc: Global,
    pool: &mut Pool,
    code: &mut CodeBuffer,
    decisive: bool,
    left: &Core,
    right: &Core,
    when: bool,
    beyond: usize,
) -> Result<bool, Memory>
    ensures goes { IfOk result (λ goes. goes ≡ (code_of left.now).goes_on) }
    ensures emits { OnOk result (Emits code.old code.new pool.old pool.new ((code_of left.now).test decisive ((code_of right.now).test_size when + decided decisive when beyond) ++ kept (code_of left.now).goes_on ((code_of right.now).test when beyond))) }
{
    let over = plus(
        measure_of(right)?.when(when),
        beyond_whole(decisive, when, beyond),
    )?;
    let goes = emit_test(alloc, pool, code, left, decisive, over)?;
    if goes {
        emit_test(alloc, pool, code, right, when, beyond)?;
    }
    Ok(goes)
}

#[cycle(emit)]
fn emit_plain_test(
    alloc: Global,
    pool: &mut Pool,
    code: &mut CodeBuffer,
    node: &Core,
    when: bool,
    beyond: usize,
) -> Result<bool, Memory>
    ensures goes { IfOk result (λ goes. goes ≡ (code_of node.now).goes_on) }
    ensures emits { OnOk result (Emits code.old code.new pool.old pool.new ((code_of node.now).code ++ kept (code_of node.now).goes_on (JumpIf (truth_test when) (beyond + 3) ∷ []))) }
{
    let goes = emit(alloc, pool, code, node)?;
    if goes {
        jump_if(code, when, beyond)?;
    }
    Ok(goes)
}

// A condition: where it does not hold, it goes on so many bytes behind its end.
#[cycle(emit)]
fn emit_condition(
    alloc: Global,
    pool: &mut Pool,
    code: &mut CodeBuffer,
    test: &Core,
    beyond: usize,
) -> Result<bool, Memory>
    ensures goes { IfOk result (λ goes. goes ≡ (code_of test.now).goes_on) }
    ensures emits { OnOk result (Emits code.old code.new pool.old pool.new (condition (code_of test.now) beyond)) }
{
    if is_true(test) {
        return Ok(true);
    }
    let goes = emit_test(alloc, pool, code, test, false, beyond)?;
    Ok(goes)
}

#[cycle(emit)]
fn emit_if(
    alloc: Global,
    pool: &mut Pool,
    code: &mut CodeBuffer,
    test: &Core,
    held: &Core,
) -> Result<bool, Memory>
    ensures goes { IfOk result (λ goes. goes ≡ (if (code_of test.now).always then (code_of held.now).goes_on else (code_of test.now).goes_on)) }
    ensures emits { OnOk result (Emits code.old code.new pool.old pool.new (condition (code_of test.now) (code_of held.now).size ++ kept (code_of test.now).goes_on (code_of held.now).code)) }
{
    let over = measure_of(held)?.value;
    if !emit_condition(alloc, pool, code, test, over)? {
        return Ok(false);
    }
    let goes = emit(alloc, pool, code, held)?;
    Ok(if is_true(test) { goes } else { true })
}

// Both ways of a choice.
#[cycle(emit)]
fn emit_either(
    alloc: Global,
    pool: &mut Pool,
    code: &mut CodeBuffer,
    test: &Core,
    held: &Core,
    failed: &Core,
) -> Result<bool, Memory>
    ensures goes { IfOk result (λ goes. goes ≡ ((code_of test.now).goes_on && ((code_of held.now).goes_on || (code_of failed.now).goes_on))) }
    ensures emits { OnOk result (Emits code.old code.new pool.old pool.new (either_ops (code_of test.now) (code_of held.now) (code_of failed.now))) }
{
    let over_held = over_length(measure_of(held)?)?;
    if !emit_test(alloc, pool, code, test, false, over_held)? {
        return Ok(false);
    }
    let first = emit(alloc, pool, code, held)?;
    if first {
        jump(code, measure_of(failed)?.value)?;
    }
    let second = emit(alloc, pool, code, failed)?;
    Ok(first || second)
}

// Where the condition is the literal true, there is no other way.
#[cycle(emit)]
fn emit_if_else(
    alloc: Global,
    pool: &mut Pool,
    code: &mut CodeBuffer,
    test: &Core,
    held: &Core,
    failed: &Core,
) -> Result<bool, Memory>
    ensures goes { IfOk result (λ goes. goes ≡ (if (code_of test.now).always then (code_of held.now).goes_on else (code_of test.now).goes_on && ((code_of held.now).goes_on || (code_of failed.now).goes_on))) }
    ensures emits { OnOk result (Emits code.old code.new pool.old pool.new (if (code_of test.now).always then (code_of held.now).code else either_ops (code_of test.now) (code_of held.now) (code_of failed.now))) }
{
    let goes = if is_true(test) {
        emit(alloc, pool, code, held)?
    } else {
        emit_either(alloc, pool, code, test, held, failed)?
    };
    Ok(goes)
}

#[cycle(emit)]
fn emit_while(
    alloc: Global,
    pool: &mut Pool,
    code: &mut CodeBuffer,
    test: &Core,
    body: &Core,
) -> Result<bool, Memory>
    ensures goes { IfOk result (λ goes. goes ≡ ((code_of test.now).goes_on && not (code_of test.now).always)) }
    ensures emits { OnOk result (Emits code.old code.new pool.old pool.new (condition (code_of test.now) (body_size (code_of body.now)) ++ kept (code_of test.now).goes_on ((code_of body.now).code ++ returns (code_of body.now) (condition_size (code_of test.now) + (code_of body.now).size + bytes (discards (code_of body.now).ty))))) }
{
    let turn = measure_of(body)?;
    let whole = plus(
        plus(condition_length(test, measure_of(test)?), turn.value)?,
        discard_size(body.ty),
    )?;
    let over = body_length(turn, body.ty)?;
    if !emit_condition(alloc, pool, code, test, over)? {
        return Ok(false);
    }
    if emit(alloc, pool, code, body)? {
        discard(code, body.ty)?;
        jump_back(code, whole)?;
    }
    Ok(!is_true(test))
}

// The value of what a test comes to.
fn truth_behind(code: &mut CodeBuffer, goes: bool) -> Result<bool, Memory>
    ensures goes { IfOk result (λ g. g ≡ goes) }
    ensures emits { OnOk result ((pool : Slots) → Emits code.old code.new pool pool (kept goes truth)) }
{
    if goes {
        push_truth(code)?;
    }
    Ok(goes)
}

/// Puts the second form of a node's code behind the code that is there: it leaves nothing on the stack, and goes on `beyond` bytes
/// behind its end where the node's value is `when`.
#[cycle(emit)]
#[tactic(auto, using(crate::proofs::Emitting::emits_then))]
pub fn emit_test(
    alloc: Global,
    pool: &mut Pool,
    code: &mut CodeBuffer,
    node: &Core,
    when: bool,
    beyond: usize,
) -> Result<bool, Memory>
    ensures goes { IfOk result (λ goes. goes ≡ (code_of node.now).goes_on) }
    ensures emits { OnOk result (Emits code.old code.new pool.old pool.new ((code_of node.now).test when beyond)) }
{
    match &node.kind {
        Kind::NumCompare { order, left, right } => emit_compared(
            alloc,
            pool,
            code,
            left.get(),
            right.get(),
            test_of(*order, when),
            beyond,
        ),
        Kind::Equal { left, right } => emit_compared(
            alloc,
            pool,
            code,
            left.get(),
            right.get(),
            equal_test(when),
            beyond,
        ),
        Kind::Not(value) => emit_test(alloc, pool, code, value.get(), !when, beyond),
        Kind::And { left, right } => emit_short(
            alloc,
            pool,
            code,
            false,
            left.get(),
            right.get(),
            when,
            beyond,
        ),
        Kind::Or { left, right } => emit_short(
            alloc,
            pool,
            code,
            true,
            left.get(),
            right.get(),
            when,
            beyond,
        ),
        Kind::IntLit(_)
        | Kind::StrLit(_)
        | Kind::BoolLit(_)
        | Kind::LocalRead(_)
        | Kind::LocalWrite { .. }
        | Kind::Declare { .. }
        | Kind::NumBinary { .. }
        | Kind::NumUnary { .. }
        | Kind::Concat(_)
        | Kind::CallNative { .. }
        | Kind::Block(_)
        | Kind::If { .. }
        | Kind::While { .. } => emit_plain_test(alloc, pool, code, node, when, beyond),
    }
}

/// Puts the code of a node behind the code that is there.
#[cycle(emit)]
#[tactic(auto, using(crate::proofs::Emitting::emits_then))]
pub fn emit(
    alloc: Global,
    pool: &mut Pool,
    code: &mut CodeBuffer,
    node: &Core,
) -> Result<bool, Memory>
    ensures goes { IfOk result (λ goes. goes ≡ (code_of node.now).goes_on) }
    ensures emits { OnOk result (Emits code.old code.new pool.old pool.new (code_of node.now).code) }
{
    match &node.kind {
        Kind::IntLit(n) => {
            push_int(pool, code, *n)?;
            Ok(true)
        }
        Kind::StrLit(text) => {
            push_text(alloc, pool, code, text)?;
            Ok(true)
        }
        Kind::BoolLit(value) => {
            push_bool(code, *value)?;
            Ok(true)
        }
        Kind::LocalRead(local) => {
            load(code, node.ty, *local)?;
            Ok(true)
        }
        Kind::LocalWrite { local, value } => emit_stored(alloc, pool, code, *local, value.get()),
        Kind::Declare { local, value } => emit_declared(alloc, pool, code, *local, value),
        Kind::NumBinary { op, left, right } => {
            emit_binary(alloc, pool, code, *op, left.get(), right.get())
        }
        Kind::NumUnary {
            op: UnaryOp::Minus,
            value,
        } => emit_negate(alloc, pool, code, value.get()),
        Kind::NumCompare { order, left, right } => {
            let goes = emit_compared(
                alloc,
                pool,
                code,
                left.get(),
                right.get(),
                test_of(*order, false),
                4,
            )?;
            truth_behind(code, goes)
        }
        Kind::Equal { left, right } => {
            let goes = emit_compared(
                alloc,
                pool,
                code,
                left.get(),
                right.get(),
                equal_test(false),
                4,
            )?;
            truth_behind(code, goes)
        }
        Kind::Not(value) => {
            let goes = emit_test(alloc, pool, code, value.get(), true, 4)?;
            truth_behind(code, goes)
        }
        Kind::And { left, right } => {
            let goes = emit_short(alloc, pool, code, false, left.get(), right.get(), false, 4)?;
            truth_behind(code, goes)
        }
        Kind::Or { left, right } => {
            let goes = emit_short(alloc, pool, code, true, left.get(), right.get(), false, 4)?;
            truth_behind(code, goes)
        }
        Kind::Concat(parts) => emit_texts(alloc, pool, code, parts.as_slice()),
        Kind::CallNative {
            native: Native::ConsoleWrite,
            values,
        } => emit_native(alloc, pool, code, values.as_slice()),
        Kind::Block(parts) => emit_in_turn(alloc, pool, code, parts.as_slice()),
        Kind::If {
            test,
            held,
            failed: None,
        } => emit_if(alloc, pool, code, test.get(), held.get()),
        Kind::If {
            test,
            held,
            failed: Some(failed),
        } => emit_if_else(alloc, pool, code, test.get(), held.get(), failed.get()),
        Kind::While {
            label: _,
            test,
            body,
        } => emit_while(alloc, pool, code, test.get(), body.get()),
    }
}
