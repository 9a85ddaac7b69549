// A method that runs or waits.

ghost use Rattle.std.specs.Prelude.{◌≡◌, ◌∷◌, ◌<◌, length, reverse, OnOk};
ghost use Rattle.class_file.specs.declared.value.Value.TheVariants as value;
ghost use Rattle.class_machine.specs.Stacks.{HasInt, HasLong};

use class_file::value::Value;
use std::alloc::AllocError;

/// A method that runs or waits: its place, also while it waits for a call, and its local variables and its operand stack, the top
/// last. `starts` says that it initialises its class.
#[derive(Drop)]
pub struct Frame {
    pub class: usize,
    pub method: usize,
    pub at: usize,
    pub locals: Vec<Value>,
    pub stack: Vec<Value>,
    pub starts: bool,
}

#[inline(always)]
pub fn push(stack: &mut Vec<Value>, v: Value) -> Result<(), AllocError>
    ensures { OnOk result (reverse stack.new.items ≡ v ∷ reverse stack.old.items) }
{
    stack.push(v)?;
    Ok(())
}

#[inline(always)]
pub fn pop(stack: &mut Vec<Value>) -> Value
    requires { 0 < length stack.old.items }
    ensures { reverse stack.old.items ≡ result ∷ reverse stack.new.items }
{
    match stack.pop() {
        Some(v) => v,
        None => unreachable!(),
    }
}

#[inline(always)]
pub fn pop_int(stack: &mut Vec<Value>) -> i32
    requires { HasInt (reverse stack.old.items) }
    ensures { reverse stack.old.items ≡ value.Int result ∷ reverse stack.new.items }
{
    match stack.pop() {
        Some(Value::Int(n)) => n,
        _ => unreachable!(),
    }
}

#[inline(always)]
pub fn pop_long(stack: &mut Vec<Value>) -> i64
    requires { HasLong (reverse stack.old.items) }
    ensures { reverse stack.old.items ≡ value.Long result ∷ reverse stack.new.items }
{
    match stack.pop() {
        Some(Value::Long(n)) => n,
        _ => unreachable!(),
    }
}
