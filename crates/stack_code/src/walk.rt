//! The walk over a tree: what is known before each operation of its code.

ghost use Rattle.std.specs.Prelude.{◌≡◌, map, false, IfOk, OnOk, ◌&&◌, if◌then◌else◌, get_or};
ghost use Rattle.kc_core.specs.declared.tree.BinaryOp.{BinaryOp};
ghost use Rattle.stack_code.specs.Code.{discards, to_text};
ghost use Rattle.stack_code.specs.Emission.{after_part};
ghost use Rattle.stack_code.specs.Frames.{traced_of, in_line};
ghost use Rattle.stack_code.specs.Walking.{set_of, known_of, Does, DoesOne, DoesTwo, DoesCompared, DoesLine, DoesValue, DoesValues, DoesText, PassesTruth, DoesEither, Tests, TestsPlain, TestsCondition, DoesKind, TestsKind, write_layer, minus_layer, binary_layer, short_layer, texts_layer, native_layer, block_layer, if_layer, if_else_layer, declare_layer, choice_layer, while_layer};

use crate::frames::{
    Branch, Walk, and, assign, copied, enter, join_behind, meet, meeting, or, pass, pass_discard,
    pass_local, pass_to_text, pass_truth, pop, push, restore, same,
};
use crate::measures::{int_size, is_true};
use kc_core::tree::{Core, Kind, Local, Native, TypeTree, UnaryOp};
use kc_text::Memory;
use sqlite_items::Boxed;
use std::alloc::Global;

// The first where the condition holds.
fn choose(condition: bool, one: bool, other: bool) -> bool
    ensures { result ≡ (if condition then one else other) }
{
    if condition { one } else { other }
}

// A node, and one operation of so many bytes that takes its value.
#[cycle(walk)]
fn walk_one(
    alloc: Global,
    locals: &[Local],
    entries: &[bool],
    walk: &mut Walk,
    live: bool,
    value: &Core,
    bytes: usize,
) -> Result<bool, Memory>
    ensures { IfOk result (λ goes. DoesOne locals.now (set_of entries.now) live walk.old walk.new (traced_of value.now) bytes goes) }
{
    let goes = walk_node(alloc, locals, entries, walk, live, value)?;
    push(walk, value.ty)?;
    pass(alloc, locals, entries, walk, and(live, goes), bytes)?;
    pop(walk, value.ty);
    Ok(goes)
}

#[cycle(walk)]
fn walk_stored(
    alloc: Global,
    locals: &[Local],
    entries: &[bool],
    walk: &mut Walk,
    live: bool,
    local: usize,
    value: &Core,
) -> Result<bool, Memory>
    ensures { IfOk result (λ goes. DoesKind locals.now (set_of entries.now) live walk.old walk.new (write_layer local (traced_of value.now)) goes) }
{
    let goes = walk_node(alloc, locals, entries, walk, live, value)?;
    push(walk, value.ty)?;
    pass_local(
        alloc,
        locals,
        entries,
        walk,
        and(live, goes),
        value.ty,
        local,
    )?;
    pop(walk, value.ty);
    assign(walk, local)?;
    Ok(goes)
}

#[cycle(walk)]
fn walk_negate(
    alloc: Global,
    locals: &[Local],
    entries: &[bool],
    walk: &mut Walk,
    live: bool,
    value: &Core,
) -> Result<bool, Memory>
    ensures { IfOk result (λ goes. DoesKind locals.now (set_of entries.now) live walk.old walk.new (minus_layer (traced_of value.now)) goes) }
{
    let goes = walk_one(alloc, locals, entries, walk, live, value, 1)?;
    Ok(goes)
}

// Two nodes, and one operation of so many bytes that takes their values.
#[cycle(walk)]
fn walk_two(
    alloc: Global,
    locals: &[Local],
    entries: &[bool],
    walk: &mut Walk,
    live: bool,
    left: &Core,
    right: &Core,
    bytes: usize,
) -> Result<bool, Memory>
    ensures { IfOk result (λ goes. DoesTwo locals.now (set_of entries.now) live walk.old walk.new (traced_of left.now) (traced_of right.now) bytes goes) }
{
    let first = walk_node(alloc, locals, entries, walk, live, left)?;
    push(walk, left.ty)?;
    let second = walk_one(alloc, locals, entries, walk, and(live, first), right, bytes)?;
    pop(walk, left.ty);
    Ok(and(first, second))
}

#[cycle(walk)]
fn walk_binary(
    alloc: Global,
    locals: &[Local],
    entries: &[bool],
    walk: &mut Walk,
    live: bool,
    left: &Core,
    right: &Core,
) -> Result<bool, Memory>
    ensures { IfOk result (λ goes. (op : BinaryOp) → DoesKind locals.now (set_of entries.now) live walk.old walk.new (binary_layer op (traced_of left.now) (traced_of right.now)) goes) }
{
    let goes = walk_two(alloc, locals, entries, walk, live, left, right, 1)?;
    Ok(goes)
}

// Two nodes, and a jump that takes their values.
#[cycle(walk)]
fn walk_compared(
    alloc: Global,
    locals: &[Local],
    entries: &[bool],
    walk: &mut Walk,
    live: bool,
    left: &Core,
    right: &Core,
) -> Result<Branch, Memory>
    ensures { IfOk result (λ b. DoesCompared locals.now (set_of entries.now) live walk.old walk.new (traced_of left.now) (traced_of right.now) b) }
{
    let goes = walk_two(alloc, locals, entries, walk, live, left, right, 3)?;
    Ok(Branch {
        goes,
        exits: goes,
        jumped: copied(alloc, &walk.assigned)?,
    })
}

// Two sides, of which the left one decides where it has this value.
#[cycle(walk)]
fn walk_short(
    alloc: Global,
    locals: &[Local],
    entries: &[bool],
    walk: &mut Walk,
    live: bool,
    decisive: bool,
    left: &Core,
    right: &Core,
    when: bool,
) -> Result<Branch, Memory>
    ensures { IfOk result (λ b. TestsKind locals.now (set_of entries.now) live walk.old walk.new (short_layer decisive (traced_of left.now) (traced_of right.now)) when b) }
{
    let first = walk_test(alloc, locals, entries, walk, live, left, decisive)?;
    let second = walk_test(
        alloc,
        locals,
        entries,
        walk,
        and(live, first.goes),
        right,
        when,
    )?;
    let beyond = same(when, decisive);
    meet(alloc, walk, and(!beyond, first.exits), &first.jumped)?;
    Ok(Branch {
        goes: first.goes,
        exits: or(and(beyond, first.exits), and(first.goes, second.exits)),
        jumped: meeting(
            alloc,
            and(beyond, first.exits),
            &first.jumped,
            second.jumped,
        )?,
    })
}

// A node whose value is looked at.
#[cycle(walk)]
fn walk_plain_test(
    alloc: Global,
    locals: &[Local],
    entries: &[bool],
    walk: &mut Walk,
    live: bool,
    node: &Core,
) -> Result<Branch, Memory>
    ensures { IfOk result (λ b. TestsPlain locals.now (set_of entries.now) live walk.old walk.new (traced_of node.now) b) }
{
    let goes = walk_one(alloc, locals, entries, walk, live, node, 3)?;
    Ok(Branch {
        goes,
        exits: goes,
        jumped: copied(alloc, &walk.assigned)?,
    })
}

/// Passes a node's code, and what takes its value off the stack, if the code goes on.
#[cycle(walk)]
pub fn walk_discarded(
    alloc: Global,
    locals: &[Local],
    entries: &[bool],
    walk: &mut Walk,
    live: bool,
    value: &Core,
) -> Result<bool, Memory>
    ensures { IfOk result (λ goes. DoesLine locals.now (set_of entries.now) live walk.old walk.new (traced_of value.now) (discards value.now.ty) (in_line (discards value.now.ty)) goes) }
{
    let goes = walk_node(alloc, locals, entries, walk, live, value)?;
    push(walk, value.ty)?;
    pass_discard(alloc, locals, entries, walk, and(live, goes), value.ty)?;
    pop(walk, value.ty);
    Ok(goes)
}

// A node in a row of others: all values but the last one's are dropped.
#[cycle(walk)]
fn walk_turn(
    alloc: Global,
    locals: &[Local],
    entries: &[bool],
    walk: &mut Walk,
    live: bool,
    part: &Core,
    is_last: bool,
) -> Result<bool, Memory>
    ensures { IfOk result (λ goes. DoesLine locals.now (set_of entries.now) live walk.old walk.new (traced_of part.now) (after_part is_last part.now.ty) (in_line (after_part is_last part.now.ty)) goes) }
{
    if is_last {
        let goes = walk_node(alloc, locals, entries, walk, live, part)?;
        Ok(goes)
    } else {
        let goes = walk_discarded(alloc, locals, entries, walk, live, part)?;
        Ok(goes)
    }
}

// A node, and what makes a text of its value.
#[cycle(walk)]
fn walk_text(
    alloc: Global,
    locals: &[Local],
    entries: &[bool],
    walk: &mut Walk,
    live: bool,
    part: &Core,
) -> Result<bool, Memory>
    ensures { IfOk result (λ goes. DoesLine locals.now (set_of entries.now) live walk.old walk.new (traced_of part.now) (to_text part.now.ty) (in_line (to_text part.now.ty)) goes) }
{
    let goes = walk_node(alloc, locals, entries, walk, live, part)?;
    push(walk, part.ty)?;
    pass_to_text(alloc, locals, entries, walk, and(live, goes), part.ty)?;
    pop(walk, part.ty);
    Ok(goes)
}

// A part of a text, which is put behind what stands there.
#[cycle(walk)]
fn walk_joined(
    alloc: Global,
    locals: &[Local],
    entries: &[bool],
    walk: &mut Walk,
    live: bool,
    part: &Core,
    first: bool,
) -> Result<bool, Memory>
    ensures { IfOk result (λ goes. DoesText locals.now (set_of entries.now) live walk.old walk.new (traced_of part.now) first part.now.ty goes) }
{
    let goes = walk_text(alloc, locals, entries, walk, live, part)?;
    push(walk, TypeTree::String)?;
    join_behind(alloc, locals, entries, walk, and(live, goes), first)?;
    Ok(goes)
}

// A node, whose value stays on the stack.
#[cycle(walk)]
fn walk_value(
    alloc: Global,
    locals: &[Local],
    entries: &[bool],
    walk: &mut Walk,
    live: bool,
    value: &Core,
) -> Result<bool, Memory>
    ensures { IfOk result (λ goes. DoesValue locals.now (set_of entries.now) live walk.old walk.new (traced_of value.now) goes) }
{
    let goes = walk_node(alloc, locals, entries, walk, live, value)?;
    push(walk, value.ty)?;
    Ok(goes)
}

#[cycle(walk)]
fn walk_texts(
    alloc: Global,
    locals: &[Local],
    entries: &[bool],
    walk: &mut Walk,
    live: bool,
    parts: &[Core],
) -> Result<bool, Memory>
    ensures { IfOk result (λ goes. DoesKind locals.now (set_of entries.now) live walk.old walk.new (texts_layer (map traced_of parts.now)) goes) }
{
    if parts.is_empty() {
        pass(alloc, locals, entries, walk, live, 3)?;
        return Ok(true);
    }
    let mut on = true;
    for (i, part) in parts.iter().enumerate() {
        let goes = walk_joined(alloc, locals, entries, walk, and(live, on), part, i == 0)?;
        on = and(on, goes);
    }
    pop(walk, TypeTree::String);
    Ok(on)
}

#[cycle(walk)]
fn walk_values(
    alloc: Global,
    locals: &[Local],
    entries: &[bool],
    walk: &mut Walk,
    live: bool,
    arguments: &[Core],
) -> Result<bool, Memory>
    ensures { IfOk result (λ goes. DoesValues locals.now (set_of entries.now) live walk.old walk.new (map traced_of arguments.now) goes) }
{
    let height = walk.stack.len();
    let mut on = true;
    for value in arguments {
        let goes = walk_value(alloc, locals, entries, walk, and(live, on), value)?;
        on = and(on, goes);
    }
    restore(walk, height);
    Ok(on)
}

#[cycle(walk)]
fn walk_native(
    alloc: Global,
    locals: &[Local],
    entries: &[bool],
    walk: &mut Walk,
    live: bool,
    arguments: &[Core],
) -> Result<bool, Memory>
    ensures { IfOk result (λ goes. DoesKind locals.now (set_of entries.now) live walk.old walk.new (native_layer (map traced_of arguments.now)) goes) }
{
    let goes = walk_values(alloc, locals, entries, walk, live, arguments)?;
    push(walk, TypeTree::String)?;
    pass(alloc, locals, entries, walk, and(live, goes), 3)?;
    pop(walk, TypeTree::String);
    Ok(goes)
}

#[cycle(walk)]
fn walk_in_turn(
    alloc: Global,
    locals: &[Local],
    entries: &[bool],
    walk: &mut Walk,
    live: bool,
    parts: &[Core],
) -> Result<bool, Memory>
    ensures { IfOk result (λ goes. DoesKind locals.now (set_of entries.now) live walk.old walk.new (block_layer (map traced_of parts.now)) goes) }
{
    let mut on = true;
    for (i, part) in parts.iter().enumerate() {
        let goes = walk_turn(
            alloc,
            locals,
            entries,
            walk,
            and(live, on),
            part,
            i + 1 == parts.len(),
        )?;
        on = and(on, goes);
    }
    Ok(on)
}

#[cycle(walk)]
fn walk_condition(
    alloc: Global,
    locals: &[Local],
    entries: &[bool],
    walk: &mut Walk,
    live: bool,
    test: &Core,
) -> Result<Branch, Memory>
    ensures { IfOk result (λ b. TestsCondition locals.now (set_of entries.now) live walk.old walk.new (traced_of test.now) b) }
{
    if is_true(test) {
        return Ok(Branch {
            goes: true,
            exits: false,
            jumped: copied(alloc, &walk.assigned)?,
        });
    }
    let branch = walk_test(alloc, locals, entries, walk, live, test, false)?;
    Ok(branch)
}

#[cycle(walk)]
fn walk_if(
    alloc: Global,
    locals: &[Local],
    entries: &[bool],
    walk: &mut Walk,
    live: bool,
    test: &Core,
    held: &Core,
) -> Result<bool, Memory>
    ensures { IfOk result (λ goes. DoesKind locals.now (set_of entries.now) live walk.old walk.new (if_layer (traced_of test.now) (traced_of held.now)) goes) }
{
    let branch = walk_condition(alloc, locals, entries, walk, live, test)?;
    let goes = walk_node(alloc, locals, entries, walk, and(live, branch.goes), held)?;
    meet(alloc, walk, branch.exits, &branch.jumped)?;
    Ok(choose(is_true(test), goes, branch.goes))
}

// Both ways of a choice.
#[cycle(walk)]
fn walk_either(
    alloc: Global,
    locals: &[Local],
    entries: &[bool],
    walk: &mut Walk,
    live: bool,
    test: &Core,
    held: &Core,
    failed: &Core,
) -> Result<bool, Memory>
    ensures { IfOk result (λ goes. DoesEither locals.now (set_of entries.now) live walk.old walk.new (traced_of test.now) (traced_of held.now) (traced_of failed.now) goes) }
{
    let branch = walk_test(alloc, locals, entries, walk, live, test, false)?;
    let first = walk_one(
        alloc,
        locals,
        entries,
        walk,
        and(live, branch.goes),
        held,
        3,
    )?;
    let assigned = enter(walk, branch.jumped);
    let second = walk_node(alloc, locals, entries, walk, and(live, branch.goes), failed)?;
    meet(alloc, walk, first, &assigned)?;
    Ok(and(branch.goes, or(first, second)))
}

#[cycle(walk)]
fn walk_if_else(
    alloc: Global,
    locals: &[Local],
    entries: &[bool],
    walk: &mut Walk,
    live: bool,
    test: &Core,
    held: &Core,
    failed: &Core,
) -> Result<bool, Memory>
    ensures { IfOk result (λ goes. DoesKind locals.now (set_of entries.now) live walk.old walk.new (if_else_layer (traced_of test.now) (traced_of held.now) (traced_of failed.now)) goes) }
{
    if is_true(test) {
        let goes = walk_node(alloc, locals, entries, walk, live, held)?;
        Ok(goes)
    } else {
        let goes = walk_either(alloc, locals, entries, walk, live, test, held, failed)?;
        Ok(goes)
    }
}

#[cycle(walk)]
fn walk_while(
    alloc: Global,
    locals: &[Local],
    entries: &[bool],
    walk: &mut Walk,
    live: bool,
    test: &Core,
    body: &Core,
) -> Result<bool, Memory>
    ensures { IfOk result (λ goes. DoesKind locals.now (set_of entries.now) live walk.old walk.new (while_layer (traced_of test.now) (traced_of body.now)) goes) }
{
    let branch = walk_condition(alloc, locals, entries, walk, live, test)?;
    let on = and(live, branch.goes);
    let returns = walk_discarded(alloc, locals, entries, walk, on, body)?;
    pass(alloc, locals, entries, walk, and(on, returns), 3)?;
    enter(walk, branch.jumped);
    Ok(and(branch.goes, !is_true(test)))
}

#[cycle(walk)]
fn walk_declared(
    alloc: Global,
    locals: &[Local],
    entries: &[bool],
    walk: &mut Walk,
    live: bool,
    local: usize,
    value: &Option<Boxed<Core>>,
) -> Result<bool, Memory>
    ensures { IfOk result (λ goes. DoesKind locals.now (set_of entries.now) live walk.old walk.new (declare_layer local value.now) goes) }
{
    match value {
        None => Ok(true),
        Some(value) => {
            let goes = walk_stored(alloc, locals, entries, walk, live, local, value.get())?;
            Ok(goes)
        }
    }
}

#[cycle(walk)]
fn walk_choice(
    alloc: Global,
    locals: &[Local],
    entries: &[bool],
    walk: &mut Walk,
    live: bool,
    test: &Core,
    held: &Core,
    failed: &Option<Boxed<Core>>,
) -> Result<bool, Memory>
    ensures { IfOk result (λ goes. DoesKind locals.now (set_of entries.now) live walk.old walk.new (choice_layer (traced_of test.now) (traced_of held.now) failed.now) goes) }
{
    match failed {
        None => {
            let goes = walk_if(alloc, locals, entries, walk, live, test, held)?;
            Ok(goes)
        }
        Some(failed) => {
            let goes = walk_if_else(alloc, locals, entries, walk, live, test, held, failed.get())?;
            Ok(goes)
        }
    }
}

// A node that is a test, and its value.
fn walk_truth(
    alloc: Global,
    locals: &[Local],
    entries: &[bool],
    walk: &mut Walk,
    live: bool,
    branch: Branch,
) -> Result<bool, Memory>
    ensures goes { IfOk result (λ goes. goes ≡ branch.goes) }
    ensures passes { OnOk result (PassesTruth locals.now (set_of entries.now) (live && branch.goes) walk.old walk.new (set_of branch.jumped.items)) }
{
    pass_truth(
        alloc,
        locals,
        entries,
        walk,
        and(live, branch.goes),
        branch.jumped,
    )?;
    Ok(branch.goes)
}

/// Passes the second form of a node's code, which leaves nothing on the stack, and goes on elsewhere where the node's value is
/// `when`. Code behind code that does not go on is not written: there `live` is false, and no frames are put.
#[cycle(walk)]
pub fn walk_test(
    alloc: Global,
    locals: &[Local],
    entries: &[bool],
    walk: &mut Walk,
    live: bool,
    node: &Core,
    when: bool,
) -> Result<Branch, Memory>
    ensures { IfOk result (λ b. Tests locals.now (set_of entries.now) live walk.old walk.new (traced_of node.now) when b) }
{
    match &node.kind {
        Kind::NumCompare {
            order: _,
            left,
            right,
        } => walk_compared(alloc, locals, entries, walk, live, left.get(), right.get()),
        Kind::Equal { left, right } => {
            walk_compared(alloc, locals, entries, walk, live, left.get(), right.get())
        }
        Kind::Not(value) => walk_test(alloc, locals, entries, walk, live, value.get(), !when),
        Kind::And { left, right } => walk_short(
            alloc,
            locals,
            entries,
            walk,
            live,
            false,
            left.get(),
            right.get(),
            when,
        ),
        Kind::Or { left, right } => walk_short(
            alloc,
            locals,
            entries,
            walk,
            live,
            true,
            left.get(),
            right.get(),
            when,
        ),
        Kind::IntLit(_)
        | Kind::StrLit(_)
        | Kind::BoolLit(_)
        | Kind::LocalRead(_)
        | Kind::LocalWrite { .. }
        | Kind::Declare { .. }
        | Kind::NumBinary { .. }
        | Kind::NumUnary { .. }
        | Kind::Concat(_)
        | Kind::CallNative { .. }
        | Kind::Block(_)
        | Kind::If { .. }
        | Kind::While { .. } => walk_plain_test(alloc, locals, entries, walk, live, node),
    }
}

/// Passes a node's code, without its value, which the walk then stands before; what is known is then what the code assigns. The time
/// is linear in the node and in the frames that it puts, and in the number of locals for each test.
#[cycle(walk)]
pub fn walk_node(
    alloc: Global,
    locals: &[Local],
    entries: &[bool],
    walk: &mut Walk,
    live: bool,
    node: &Core,
) -> Result<bool, Memory>
    ensures { IfOk result (λ goes. Does locals.now (set_of entries.now) live walk.old walk.new (traced_of node.now) goes) }
{
    match &node.kind {
        Kind::IntLit(n) => {
            pass(alloc, locals, entries, walk, live, int_size(*n))?;
            Ok(true)
        }
        Kind::StrLit(_) => {
            pass(alloc, locals, entries, walk, live, 3)?;
            Ok(true)
        }
        Kind::BoolLit(_) => {
            pass(alloc, locals, entries, walk, live, 1)?;
            Ok(true)
        }
        Kind::LocalRead(local) => {
            pass_local(alloc, locals, entries, walk, live, node.ty, *local)?;
            Ok(true)
        }
        Kind::LocalWrite { local, value } => {
            walk_stored(alloc, locals, entries, walk, live, *local, value.get())
        }
        Kind::Declare { local, value } => {
            walk_declared(alloc, locals, entries, walk, live, *local, value)
        }
        Kind::NumBinary { op: _, left, right } => {
            walk_binary(alloc, locals, entries, walk, live, left.get(), right.get())
        }
        Kind::NumUnary {
            op: UnaryOp::Minus,
            value,
        } => walk_negate(alloc, locals, entries, walk, live, value.get()),
        Kind::NumCompare {
            order: _,
            left,
            right,
        } => {
            let branch = walk_compared(
                alloc,
                locals,
                entries,
                walk,
                live,
                left.get(),
                right.get(),
            )?;
            let goes = walk_truth(alloc, locals, entries, walk, live, branch)?;
            Ok(goes)
        }
        Kind::Equal { left, right } => {
            let branch = walk_compared(
                alloc,
                locals,
                entries,
                walk,
                live,
                left.get(),
                right.get(),
            )?;
            let goes = walk_truth(alloc, locals, entries, walk, live, branch)?;
            Ok(goes)
        }
        Kind::Not(value) => {
            let branch = walk_test(alloc, locals, entries, walk, live, value.get(), true)?;
            let goes = walk_truth(alloc, locals, entries, walk, live, branch)?;
            Ok(goes)
        }
        Kind::And { left, right } => {
            let branch = walk_short(
                alloc,
                locals,
                entries,
                walk,
                live,
                false,
                left.get(),
                right.get(),
                false,
            )?;
            let goes = walk_truth(alloc, locals, entries, walk, live, branch)?;
            Ok(goes)
        }
        Kind::Or { left, right } => {
            let branch = walk_short(
                alloc,
                locals,
                entries,
                walk,
                live,
                true,
                left.get(),
                right.get(),
                false,
            )?;
            let goes = walk_truth(alloc, locals, entries, walk, live, branch)?;
            Ok(goes)
        }
        Kind::Concat(parts) => { walk_texts(alloc, locals, entries, walk, live, parts.as_slice()) }
        Kind::CallNative {
            native: Native::ConsoleWrite,
            values,
        } => walk_native(alloc, locals, entries, walk, live, values.as_slice()),
        Kind::Block(parts) => { walk_in_turn(alloc, locals, entries, walk, live, parts.as_slice()) }
        Kind::If { test, held, failed } => {
            walk_choice(
                alloc,
                locals,
                entries,
                walk,
                live,
                test.get(),
                held.get(),
                failed,
            )
        }
        Kind::While {
            label: _,
            test,
            body,
        } => {
            let goes = walk_while(alloc, locals, entries, walk, live, test.get(), body.get())?;
            Ok(goes)
        }
    }
}
