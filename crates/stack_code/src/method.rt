//! The method of a function.

ghost use Rattle.std.specs.Prelude.{◌≡◌, ◌<◌, ◌≤◌, ◌^◌, true, length, IfOk, OnOk, codes};
ghost use Rattle.class_file.specs.Pools.{Extends, Slots};
ghost use Rattle.stack_code.specs.Code.{body_code, bytes, Spells};
ghost use Rattle.stack_code.specs.Emission.{Emits};
ghost use Rattle.stack_code.specs.Room.{CodeIsWithinRoom};
ghost use Rattle.stack_code.specs.Small.{IsSmall};
ghost use Rattle.kc_text.specs.Fail.{IfFound};
ghost use Rattle.stack_code.specs.Agrees.{IsCodeOf, CompiledAgrees, CompiledHasCode, CompiledIsFirstLot, FilesHaveOwnNames};
ghost use Rattle.stack_code.specs.Implements.{CodeImplements};
ghost use Rattle.stack_code.specs.Frames.{CompiledVerifies, frames_of, stack_of};

use crate::constants::{TooLarge, ascii};
use crate::depth::depth_of;
use crate::emit::emit;
use crate::entries::{blank, entries_of};
use crate::frames::{Walk, pass};
use crate::measures::{discard_size, kept, measure_of, plus};
use crate::operations::{CodeBuffer, discard, leave};
use crate::walk::walk_discarded;
use class_file::class::{Frame, Method};
use class_file::frames::Frames;
use class_file::instr::Instr;
use class_file::pool::Pool;
use kc_core::tree::{Core, Function};
use kc_text::{Fail, Memory};
use sqlite_items::Items;
use std::alloc::Global;

// The most bytes of code, local variables and operands that a class file holds (JVM Specification SE 8, 4.7.3 and 4.11).
const MOST: usize = 65_535;

// ACC_PUBLIC and ACC_STATIC (JVM Specification SE 8, 4.6).
const PUBLIC_STATIC: u16 = 0x0009;

#[tactic(auto, using(crate::proofs::Emitting::emits_then))]
fn emit_body(
    alloc: Global,
    pool: &mut Pool,
    code: &mut CodeBuffer,
    body: &Core,
) -> Result<(), Memory>
    ensures { OnOk result (Emits code.old code.new pool.old pool.new (body_code body.now)) }
{
    if emit(alloc, pool, code, body)? {
        discard(code, body.ty)?;
        leave(code)?;
    }
    Ok(())
}

// The length of a body's code and of the return behind it, in bytes.
#[tactic(auto, using(crate::proofs::Lengths::body_bytes))]
fn code_length(body: &Core) -> Result<usize, Memory>
    ensures { IfOk result (λ n. n ≡ bytes (body_code body.now)) }
{
    let measure = measure_of(body)?;
    plus(
        measure.value,
        kept(measure.goes_on, plus(discard_size(body.ty), 1)?),
    )
}

// The frames of a function's method, whose code has so many bytes.
fn frames_of(
    alloc: Global,
    function: &Function,
    code: &[Instr],
    count: usize,
) -> Result<Vec<Frame>, Memory>
    requires short { length code.now < 2 ^ 28 }
    requires bytes { count ≡ bytes (body_code function.now.body) }
    ensures { IfOk result (λ frames. (pool : Slots) → Spells pool 0 code.now (body_code function.now.body) → frames.items ≡ frames_of function.now) }
{
    let locals = function.locals.as_slice();
    let entries = entries_of(alloc, code, count)?;
    let mut walk = Walk {
        at: 0,
        assigned: blank(alloc, locals.len())?,
        stack: Vec::new(alloc),
        frames: Vec::new(alloc),
    };
    let goes = walk_discarded(alloc, locals, &entries, &mut walk, true, &function.body)?;
    pass(alloc, locals, &entries, &mut walk, goes, 1)?;
    Ok(walk.frames)
}

// Does a class file hold code that fits, with so many bytes, local variables and operands?
fn has_room(fits: bool, length: usize, locals: usize, operands: usize) -> bool
    ensures yes { result ≡ true → (fits ≡ true) × (length ≤ 65535) × (locals ≤ 65535) × (operands ≤ 65535) }
    ensures no { fits ≡ true → length ≤ 65535 → locals ≤ 65535 → operands ≤ 65535 → result ≡ true }
{
    fits && length <= MOST && locals <= MOST && operands <= MOST
}

/// The public static method of a function without parameters whose result is `Unit`.
///
/// The pool gets the entries that the code names, or some of them where it is `TooLarge`. That is where the code has more than 65,535 bytes,
/// the function more than 65,535 locals or operands at once or names a local by a number above 65,535, the pool no room, or a jump a distance
/// of more than 32,767 bytes, counted from its first (JVM Specification SE 8, 4.7.3, 4.11 and 6.5); a function that is small is never so.
/// Texts of more than 65,535 bytes in modified UTF-8 (4.4.7) are not looked for. The frames (4.7.4) of a function whose locals are there
/// take time linear in the code and in their own size, and in the number of locals for each test.
#[tactic(auto, using(crate::proofs::Emitting::emits_all, crate::proofs::Lengths::no_longer, crate::proofs::Near::too_large))]
pub fn emit_function(
    alloc: Global,
    pool: &mut Pool,
    function: &Function,
) -> Result<Method, Fail<TooLarge>>
    ensures code { IfOk result (λ m. IsCodeOf pool.new m function.now) }
    ensures name { IfOk result (λ m. m.name ≡ function.now.name) }
    ensures descriptor { IfOk result (λ m. m.descriptor ≡ codes "()V") }
    ensures flags { IfOk result (λ m. m.flags ≡ 9) }
    ensures fits { IfOk result (λ m. bytes (body_code function.now.body) ≤ 65535) }
    ensures short { IfOk result (λ m. length m.code ≤ 65535) }
    ensures deep { IfOk result (λ m. stack_of function.now ≤ m.max_stack) }
    ensures frames { IfOk result (λ m. m.frames ≡ frames_of function.now) }

    // It is not too large where it is small.
    ensures small { IsSmall pool.old function.now → IfFound result (λ _. ⊥) }
{
    let mut code = CodeBuffer::new(alloc);
    let length = code_length(&function.body)?;
    emit_body(alloc, pool, &mut code, &function.body)?;
    let locals = function.locals.len();
    let deepest = depth_of(&function.body)?;
    if !has_room(code.fits, length, locals, deepest) {
        return Err(Fail::Found(TooLarge));
    }
    let frames = frames_of(alloc, function, &code.instrs, length)?;
    Ok(Method {
        flags: PUBLIC_STATIC,
        name: function.name.copy(alloc)?,
        descriptor: ascii(alloc, b"()V")?,
        max_stack: deepest as u16,
        max_locals: locals as u16,
        code: Items::from_vec(code.instrs),
        handlers: Items::new(alloc),
        frames: Frames::from_vec(alloc, frames)?,
        code_others: Items::new(alloc),
        others: Items::new(alloc),
    })
}

/// A method that is the code of a function does what the function's body means, in any activation of it above frames without handlers.
pub fn code_implements()
    ensures { CodeImplements }
{}

/// Compiled code agrees with its program.
pub fn compiled_agrees()
    ensures { CompiledAgrees }
{}

/// The machine is built for compiled sets.
pub fn compiled_is_first_lot()
    ensures { CompiledIsFirstLot }
{}

/// Compiled code verifies, if its method gives its frames.
pub fn compiled_verifies()
    ensures { CompiledVerifies }
{}

/// No built-in class has the name of a source file's class.
pub fn files_have_own_names()
    ensures { FilesHaveOwnNames }
{}

/// The code of a function takes no more bytes than the function weighs.
pub fn code_is_within_room()
    ensures { CodeIsWithinRoom }
{}

/// A compiled method has instructions.
pub fn compiled_has_code()
    ensures { CompiledHasCode }
{}
