//! How long the code of a node is, before any of it is there: a jump over it is written first.

ghost use Rattle.std.specs.Prelude.{◌≡◌, ◌+◌, ◌&&◌, ◌||◌, map, not, true, false, if◌then◌else◌, IfOk};
ghost use Rattle.stack_code.specs.Code.{code_of, bytes, kept_bytes, two_bytes, int_bytes, loads, stores, discards, texts, values, in_turn, condition_size, either_bytes};
ghost use Rattle.stack_code.specs.Emission.{IsMeasure, IsPlain, IsTesting, IsExtent, after_part, after_text};

use kc_core::tree::{Core, Kind, Native, TypeTree, UnaryOp};
use kc_text::Memory;

/// The lengths of a node's code in bytes: of the form that leaves its value, and of the two forms that test it. And whether the
/// code can go on at its end.
#[derive(Clone, Copy)]
pub struct Measure {
    pub value: usize,
    pub when_true: usize,
    pub when_false: usize,
    pub goes_on: bool,
}

impl Measure {
    /// The length of the form that goes on behind its end where the node's value is this one.
    pub fn when(self, value: bool) -> usize
        ensures { result ≡ (if value then self.when_true else self.when_false) }
    {
        if value {
            self.when_true
        } else {
            self.when_false
        }
    }
}

/// The length of code in bytes, and whether it can go on at its end.
#[derive(Clone, Copy)]
pub struct Extent {
    pub length: usize,
    pub goes_on: bool,
}

/// The sum. A sum that is past all addresses is want of memory, as it is where a vector is to grow so far: no memory holds code of
/// such a length, or so many operands.
pub fn plus(a: usize, b: usize) -> Result<usize, Memory>
    ensures { IfOk result (λ n. n ≡ a + b) }
{
    match a.checked_add(b) {
        Some(sum) => Ok(sum),
        None => Err(Memory),
    }
}

/// The length of what stands behind code, which is nothing where that does not go on.
pub fn kept(goes_on: bool, length: usize) -> usize
    ensures { result ≡ kept_bytes goes_on length }
{
    if goes_on { length } else { 0 }
}

// Code that leaves its value: a test of it looks at the value.
fn plain(value: usize, goes_on: bool) -> Result<Measure, Memory>
    ensures { IfOk result (λ m. IsPlain m value goes_on) }
{
    let test = plus(value, kept(goes_on, 3))?;
    Ok(Measure {
        value,
        when_true: test,
        when_false: test,
        goes_on,
    })
}

// Code that tests: its value is made of what the test comes to.
fn testing(when_true: usize, when_false: usize, goes_on: bool) -> Result<Measure, Memory>
    ensures { IfOk result (λ m. IsTesting m when_true when_false goes_on) }
{
    Ok(Measure {
        value: plus(when_false, kept(goes_on, 5))?,
        when_true,
        when_false,
        goes_on,
    })
}

/// The length of what pushes a number.
pub fn int_size(n: i32) -> usize
    ensures { result ≡ int_bytes n }
{
    if -1 <= n && n <= 5 {
        1
    } else if -128 <= n && n <= 127 {
        2
    } else {
        3
    }
}

/// The length of a load, and of a store, of a local of this type.
pub fn local_size(ty: TypeTree, local: usize) -> usize
    ensures loads { result ≡ bytes (loads ty local) }
    ensures stores { result ≡ bytes (stores ty local) }
{
    match ty {
        TypeTree::Int | TypeTree::Boolean | TypeTree::String => { if local < 256 { 2 } else { 4 } }
        TypeTree::Unit => 0,
    }
}

// The length of what stands behind a part of a text.
fn join_size(ty: TypeTree, is_first: bool) -> usize
    ensures { result ≡ bytes (after_text is_first ty) }
{
    match (ty, is_first) {
        (TypeTree::String, true) => 0,
        (TypeTree::String, false) => 3,
        (TypeTree::Int | TypeTree::Boolean | TypeTree::Unit, true) => 3,
        (TypeTree::Int | TypeTree::Boolean | TypeTree::Unit, false) => 6,
    }
}

// The length of what stands behind a part in a row of others.
fn between_size(ty: TypeTree, is_last: bool) -> usize
    ensures { result ≡ bytes (after_part is_last ty) }
{
    if is_last { 0 } else { discard_size(ty) }
}

/// The length of what takes a value of this type off the stack.
pub fn discard_size(ty: TypeTree) -> usize
    ensures { result ≡ bytes (discards ty) }
{
    match ty {
        TypeTree::Int | TypeTree::Boolean | TypeTree::String => 1,
        TypeTree::Unit => 0,
    }
}

// A child, and so many bytes of what takes its value.
#[cycle(measures)]
fn measure_then(value: &Core, tail: usize) -> Result<Measure, Memory>
    ensures { IfOk result (λ m. IsPlain m ((code_of value.now).size + kept_bytes (code_of value.now).goes_on tail) (code_of value.now).goes_on) }
{
    let first = measure_of(value)?;
    plain(plus(first.value, kept(first.goes_on, tail))?, first.goes_on)
}

// Two children, and so many bytes of what takes their values.
#[cycle(measures)]
fn measure_two(left: &Core, right: &Core, tail: usize) -> Result<Extent, Memory>
    ensures { IfOk result (λ e. IsExtent e (two_bytes (code_of left.now) (code_of right.now) tail) ((code_of left.now).goes_on && (code_of right.now).goes_on)) }
{
    let first = measure_of(left)?;
    let second = measure_of(right)?;
    let behind = plus(second.value, kept(second.goes_on, tail))?;
    Ok(Extent {
        length: plus(first.value, kept(first.goes_on, behind))?,
        goes_on: first.goes_on && second.goes_on,
    })
}

// A comparison has one length, whichever value it goes on for.
#[cycle(measures)]
fn measure_compared(left: &Core, right: &Core) -> Result<Measure, Memory>
    ensures { IfOk result (λ m. IsTesting m (two_bytes (code_of left.now) (code_of right.now) 3) (two_bytes (code_of left.now) (code_of right.now) 3) ((code_of left.now).goes_on && (code_of right.now).goes_on)) }
{
    let test = measure_two(left, right, 3)?;
    testing(test.length, test.length, test.goes_on)
}

#[cycle(measures)]
fn measure_negated(value: &Core) -> Result<Measure, Memory>
    ensures { IfOk result (λ m. IsTesting m ((code_of value.now).test_size false) ((code_of value.now).test_size true) (code_of value.now).goes_on) }
{
    let value = measure_of(value)?;
    testing(value.when_false, value.when_true, value.goes_on)
}

// The left side decides where it has this value.
#[cycle(measures)]
fn measure_short(decisive: bool, left: &Core, right: &Core) -> Result<Measure, Memory>
    ensures { IfOk result (λ m. IsTesting m ((code_of left.now).test_size decisive + kept_bytes (code_of left.now).goes_on ((code_of right.now).test_size true)) ((code_of left.now).test_size decisive + kept_bytes (code_of left.now).goes_on ((code_of right.now).test_size false)) (code_of left.now).goes_on) }
{
    let first = measure_of(left)?;
    let length = if decisive {
        first.when_true
    } else {
        first.when_false
    };
    let second = measure_of(right)?;
    testing(
        plus(length, kept(first.goes_on, second.when_true))?,
        plus(length, kept(first.goes_on, second.when_false))?,
        first.goes_on,
    )
}

#[cycle(measures)]
fn measure_texts(parts: &[Core]) -> Result<Extent, Memory>
    ensures { IfOk result (λ e. IsExtent e (texts (map code_of parts.now)).size (texts (map code_of parts.now)).goes_on) }
{
    if parts.is_empty() {
        return Ok(Extent {
            length: 3,
            goes_on: true,
        });
    }
    let mut total = 0;
    for (i, part) in parts.iter().enumerate() {
        let one = measure_of(part)?;
        total = plus(total, one.value)?;
        if !one.goes_on {
            return Ok(Extent {
                length: total,
                goes_on: false,
            });
        }
        total = plus(total, join_size(part.ty, i == 0))?;
    }
    Ok(Extent {
        length: total,
        goes_on: true,
    })
}

#[cycle(measures)]
fn measure_values(arguments: &[Core]) -> Result<Extent, Memory>
    ensures { IfOk result (λ e. IsExtent e (values (map code_of arguments.now)).size (values (map code_of arguments.now)).goes_on) }
{
    let mut total = 0;
    for value in arguments {
        let one = measure_of(value)?;
        total = plus(total, one.value)?;
        if !one.goes_on {
            return Ok(Extent {
                length: total,
                goes_on: false,
            });
        }
    }
    Ok(Extent {
        length: total,
        goes_on: true,
    })
}

#[cycle(measures)]
fn measure_in_turn(parts: &[Core]) -> Result<Extent, Memory>
    ensures { IfOk result (λ e. IsExtent e (in_turn (map code_of parts.now)).size (in_turn (map code_of parts.now)).goes_on) }
{
    let mut total = 0;
    for (i, part) in parts.iter().enumerate() {
        let one = measure_of(part)?;
        total = plus(total, one.value)?;
        if !one.goes_on {
            return Ok(Extent {
                length: total,
                goes_on: false,
            });
        }
        total = plus(total, between_size(part.ty, i + 1 == parts.len()))?;
    }
    Ok(Extent {
        length: total,
        goes_on: true,
    })
}

/// Is a node the literal true?
pub fn is_true(node: &Core) -> bool
    ensures { result ≡ (code_of node.now).always }
{
    match &node.kind {
        Kind::BoolLit(value) => *value,
        Kind::IntLit(_)
        | Kind::StrLit(_)
        | Kind::LocalRead(_)
        | Kind::LocalWrite { .. }
        | Kind::Declare { .. }
        | Kind::NumBinary { .. }
        | Kind::NumUnary { .. }
        | Kind::NumCompare { .. }
        | Kind::Equal { .. }
        | Kind::Not(_)
        | Kind::And { .. }
        | Kind::Or { .. }
        | Kind::Concat(_)
        | Kind::CallNative { .. }
        | Kind::Block(_)
        | Kind::If { .. }
        | Kind::While { .. } => false,
    }
}

/// The length of a condition, which is nothing for the literal true.
pub fn condition_length(test: &Core, measure: Measure) -> usize
    requires { IsMeasure measure (code_of test.now) }
    ensures { result ≡ condition_size (code_of test.now) }
{
    if is_true(test) { 0 } else { measure.when_false }
}

#[cycle(measures)]
fn measure_if(test: &Core, held: &Core) -> Result<Measure, Memory>
    ensures { IfOk result (λ m. IsPlain m (condition_size (code_of test.now) + kept_bytes (code_of test.now).goes_on (code_of held.now).size) (if (code_of test.now).always then (code_of held.now).goes_on else (code_of test.now).goes_on)) }
{
    let condition = measure_of(test)?;
    let held = measure_of(held)?;
    let length = plus(
        condition_length(test, condition),
        kept(condition.goes_on, held.value),
    )?;
    plain(
        length,
        if is_true(test) {
            held.goes_on
        } else {
            condition.goes_on
        },
    )
}

/// The length of the code for one way and of the jump over the code for the other.
pub fn over_length(held: Measure) -> Result<usize, Memory>
    ensures { IfOk result (λ n. n ≡ held.value + kept_bytes held.goes_on 3) }
{
    plus(held.value, kept(held.goes_on, 3))
}

#[cycle(measures)]
fn measure_if_else(test: &Core, held: &Core, failed: &Core) -> Result<Measure, Memory>
    ensures { IfOk result (λ m. IsPlain m (if (code_of test.now).always then (code_of held.now).size else either_bytes (code_of test.now) (code_of held.now) (code_of failed.now)) (if (code_of test.now).always then (code_of held.now).goes_on else (code_of test.now).goes_on && ((code_of held.now).goes_on || (code_of failed.now).goes_on))) }
{
    let condition = measure_of(test)?;
    let held = measure_of(held)?;
    if is_true(test) {
        return plain(held.value, held.goes_on);
    }
    let failed = measure_of(failed)?;
    let ways = plus(over_length(held)?, failed.value)?;
    plain(
        plus(condition.when_false, kept(condition.goes_on, ways))?,
        condition.goes_on && (held.goes_on || failed.goes_on),
    )
}

/// The length of a loop's body and of what takes its value off the stack and jumps back.
pub fn body_length(body: Measure, ty: TypeTree) -> Result<usize, Memory>
    ensures { IfOk result (λ n. n ≡ body.value + kept_bytes body.goes_on (bytes (discards ty) + 3)) }
{
    plus(body.value, kept(body.goes_on, plus(discard_size(ty), 3)?))
}

#[cycle(measures)]
fn measure_while(test: &Core, body: &Core) -> Result<Measure, Memory>
    ensures { IfOk result (λ m. IsPlain m (condition_size (code_of test.now) + kept_bytes (code_of test.now).goes_on ((code_of body.now).size + kept_bytes (code_of body.now).goes_on (bytes (discards body.now.ty) + 3))) ((code_of test.now).goes_on && not (code_of test.now).always)) }
{
    let condition = measure_of(test)?;
    let turn = body_length(measure_of(body)?, body.ty)?;
    plain(
        plus(
            condition_length(test, condition),
            kept(condition.goes_on, turn),
        )?,
        condition.goes_on && !is_true(test),
    )
}

/// The measure of a node's code. The time is linear in the node; the code of a node that stands n choices deep is measured n times.
#[cycle(measures)]
pub fn measure_of(node: &Core) -> Result<Measure, Memory>
    ensures { IfOk result (λ m. IsMeasure m (code_of node.now)) }
{
    match &node.kind {
        Kind::IntLit(n) => plain(int_size(*n), true),
        Kind::StrLit(_) => plain(3, true),
        Kind::BoolLit(_) => plain(1, true),
        Kind::LocalRead(local) => plain(local_size(node.ty, *local), true),
        Kind::LocalWrite { local, value } => measure_then(
            value.get(),
            local_size(value.get().ty, *local),
        ),
        Kind::Declare {
            local: _,
            value: None,
        } => plain(0, true),
        Kind::Declare {
            local,
            value: Some(value),
        } => measure_then(value.get(), local_size(value.get().ty, *local)),
        Kind::NumBinary { op: _, left, right } => {
            let both = measure_two(left.get(), right.get(), 1)?;
            plain(both.length, both.goes_on)
        }
        Kind::NumUnary {
            op: UnaryOp::Minus,
            value,
        } => measure_then(value.get(), 1),
        Kind::NumCompare {
            order: _,
            left,
            right,
        } => measure_compared(left.get(), right.get()),
        Kind::Equal { left, right } => measure_compared(left.get(), right.get()),
        Kind::Not(value) => measure_negated(value.get()),
        Kind::And { left, right } => measure_short(false, left.get(), right.get()),
        Kind::Or { left, right } => measure_short(true, left.get(), right.get()),
        Kind::Concat(parts) => {
            let parts = measure_texts(parts.as_slice())?;
            plain(parts.length, parts.goes_on)
        }
        Kind::CallNative {
            native: Native::ConsoleWrite,
            values,
        } => {
            let values = measure_values(values.as_slice())?;
            plain(
                plus(values.length, kept(values.goes_on, 3))?,
                values.goes_on,
            )
        }
        Kind::Block(parts) => {
            let parts = measure_in_turn(parts.as_slice())?;
            plain(parts.length, parts.goes_on)
        }
        Kind::If {
            test,
            held,
            failed: None,
        } => measure_if(test.get(), held.get()),
        Kind::If {
            test,
            held,
            failed: Some(failed),
        } => measure_if_else(test.get(), held.get(), failed.get()),
        Kind::While {
            label: _,
            test,
            body,
        } => measure_while(test.get(), body.get()),
    }
}
