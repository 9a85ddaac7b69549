//! How many operands stand on the stack at once (JVM Specification SE 8, 2.6.2).

ghost use Rattle.std.specs.Prelude.{◌≡◌, ◌+◌, max, map, IfOk};
ghost use Rattle.stack_code.specs.Depth.{most, piled, depth_of};

use crate::measures::plus;
use kc_core::tree::{Core, Kind};
use kc_text::Memory;

// The operands of two nodes, of which the second stands above the value of the first.
#[cycle(depth)]
fn depth_above(left: &Core, right: &Core) -> Result<usize, Memory>
    ensures { IfOk result (λ n. n ≡ max (depth_of left.now) (depth_of right.now + 1)) }
{
    let below = depth_of(left)?;
    let above = plus(depth_of(right)?, 1)?;
    Ok(below.max(above))
}

// The operands of two nodes, of which none stands above the value of the other.
#[cycle(depth)]
fn depth_either(left: &Core, right: &Core) -> Result<usize, Memory>
    ensures { IfOk result (λ n. n ≡ max (depth_of left.now) (depth_of right.now)) }
{
    let first = depth_of(left)?;
    let second = depth_of(right)?;
    Ok(first.max(second))
}

// The operands of a choice between two nodes.
#[cycle(depth)]
fn depth_choice(test: &Core, held: &Core, failed: &Core) -> Result<usize, Memory>
    ensures { IfOk result (λ n. n ≡ max (depth_of test.now) (max (depth_of held.now) (depth_of failed.now))) }
{
    let condition = depth_of(test)?;
    let ways = depth_either(held, failed)?;
    Ok(condition.max(ways))
}

// The most operands of some nodes, each of which stands alone, and at least 1.
#[cycle(depth)]
fn depth_of_each(parts: &[Core]) -> Result<usize, Memory>
    ensures { IfOk result (λ n. n ≡ most (map depth_of parts.now)) }
{
    let mut highest: usize = 0;
    for part in parts {
        let one = depth_of(part)?;
        highest = highest.max(one);
    }
    Ok(highest.max(1))
}

// The most operands of some nodes, each of which stands above the values of those before it, and at least 1.
#[cycle(depth)]
fn depth_piled(arguments: &[Core]) -> Result<usize, Memory>
    ensures { IfOk result (λ n. n ≡ max (piled (map depth_of arguments.now)) 1) }
{
    let mut highest: usize = 0;
    let mut below: usize = 0;
    for value in arguments {
        let one = plus(below, depth_of(value)?)?;
        highest = highest.max(one);
        below = plus(below, 1)?;
    }
    Ok(highest.max(below).max(1))
}

/// The most operands that stand on the stack at once while a node is evaluated, and at least 1. The time is linear in the node.
#[cycle(depth)]
pub fn depth_of(node: &Core) -> Result<usize, Memory>
    ensures { IfOk result (λ n. n ≡ depth_of node.now) }
{
    match &node.kind {
        Kind::IntLit(_) | Kind::StrLit(_) | Kind::BoolLit(_) | Kind::LocalRead(_) => Ok(1),
        Kind::LocalWrite { local: _, value } => depth_of(value.get()),
        Kind::Declare {
            local: _,
            value: None,
        } => Ok(1),
        Kind::Declare {
            local: _,
            value: Some(value),
        } => depth_of(value.get()),
        Kind::NumBinary { op: _, left, right } => depth_above(left.get(), right.get()),
        Kind::NumUnary { op: _, value } => depth_of(value.get()),
        Kind::NumCompare {
            order: _,
            left,
            right,
        } => depth_above(left.get(), right.get()),
        Kind::Equal { left, right } => depth_above(left.get(), right.get()),
        Kind::Not(value) => depth_of(value.get()),
        Kind::And { left, right } => depth_either(left.get(), right.get()),
        Kind::Or { left, right } => depth_either(left.get(), right.get()),
        Kind::Concat(parts) => plus(depth_of_each(parts.as_slice())?, 1),
        Kind::CallNative { native: _, values } => depth_piled(values.as_slice()),
        Kind::Block(parts) => depth_of_each(parts.as_slice()),
        Kind::If {
            test,
            held,
            failed: None,
        } => depth_either(test.get(), held.get()),
        Kind::If {
            test,
            held,
            failed: Some(failed),
        } => depth_choice(test.get(), held.get(), failed.get()),
        Kind::While {
            label: _,
            test,
            body,
        } => depth_either(test.get(), body.get()),
    }
}
