// What is known against a frame that is given, which is not built.
ghost use Rattle.std.specs.Prelude.{◌≡◌, ◌≤◌, map, length, reverse, IfOk};
ghost use Rattle.class_file.specs.Typing.{all_assignable, types_assignable};
ghost use Rattle.class_file.specs.Verification.{spread, padded, types_given, thrown_types};
ghost use Rattle.verifier_types.specs.Seen.{type_of};
ghost use Rattle.verifier_types.specs.Frames.{shown};
ghost use Rattle.verifier.specs.Fits.{fits_at};

use class_file::class::{Frame, VType};
use kc_text::Memory;
use std::alloc::Global;
use verifier_types::{Known, NamedSet, VerificationType, assignable};

// May the local variable at a place be used as a given type? A Long takes the next place as well.
fn fits_at(set: &NamedSet, locals: &[VerificationType], at: usize, given: VerificationType) -> bool
    requires { at ≤ length locals.now }
    ensures { result ≡ fits_at set.now (map type_of locals.now) at (type_of given.entry) }
{
    if locals.len() - at < given.width() {
        return false;
    }
    assignable(set, locals[at], given)
}

// Behind the given types each place may hold anything, so it takes no time.
fn locals_fit(set: &NamedSet, locals: &[VerificationType], max: usize, types: &[&VType]) -> bool
    ensures { result ≡ all_assignable set.now (map type_of locals.now) (padded max (spread (map (λ t. t.now) types.now))) }
{
    let mut at = 0;
    for t in types {
        let given = VerificationType::given(t);
        if !fits_at(set, locals, at, given) {
            return false;
        }
        at += given.width();
    }
    locals.len() - at == max.saturating_sub(at)
}

// The tops of both stand last.
fn stack_fits(set: &NamedSet, stack: &[VerificationType], types: &[VType]) -> bool
    ensures { result ≡ all_assignable set.now (map type_of (reverse stack.now)) (reverse types.now) }
{
    if stack.len() != types.len() {
        return false;
    }
    for at in 0..stack.len() {
        if !assignable(set, stack[at], VerificationType::given(&types[at])) {
            return false;
        }
    }
    true
}

fn fits(
    alloc: Global,
    set: &NamedSet,
    known: &Known,
    stack: &[VerificationType],
    max: usize,
    frame: &Frame,
) -> Result<bool, Memory>
    ensures { IfOk result (λ fits. fits ≡ types_assignable set.now (record { locals = known.now.locals; stack = map type_of (reverse stack.now); unset = known.now.unset }) (types_given max frame.now)) }
{
    let types = frame.locals.in_order(alloc)?;
    if !locals_fit(set, known.locals.as_slice(), max, &types) {
        return Ok(false);
    }
    if !stack_fits(set, stack, frame.stack.as_slice()) {
        return Ok(false);
    }
    Ok(known.unset == frame.unset)
}

/// May what is known flow into a given frame of a method that has so many local variables?
pub fn flows_into(
    alloc: Global,
    set: &NamedSet,
    known: &Known,
    max: usize,
    frame: &Frame,
) -> Result<bool, Memory>
    ensures { IfOk result (λ may. may ≡ types_assignable set.now (shown known.now) (types_given max frame.now)) }
{
    fits(alloc, set, known, known.stack.as_slice(), max, frame)
}

/// May an object of this class that is thrown come to a handler with a given frame?
pub fn is_thrown_into(
    alloc: Global,
    set: &NamedSet,
    known: &Known,
    name: &[u16],
    max: usize,
    frame: &Frame,
) -> Result<bool, Memory>
    ensures { IfOk result (λ may. may ≡ types_assignable set.now (thrown_types (shown known.now) name.now) (types_given max frame.now)) }
{
    let stack = [VerificationType::Object(name)];
    fits(alloc, set, known, stack.as_slice(), max, frame)
}
