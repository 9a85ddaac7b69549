// The frame that is carried along from instruction to instruction.
ghost use Rattle.std.specs.Prelude.{◌≡◌, ◌∷◌, [], ℕ, List, Some, None, true, length, map, replicate, slice_set, IfOk, OnOk};
ghost use Rattle.std.specs.Option.{option_map};
ghost use Rattle.class_file.specs.declared.class.VType.{VType as VT};
ghost use Rattle.class_file.specs.declared.class.VType.TheVariants.{Top as NoType};
ghost use Rattle.class_file.specs.Lots.{in_first_lot};
ghost use Rattle.class_file.specs.Members.{described};
ghost use Rattle.class_file.specs.Typing.{stepped};
ghost use Rattle.class_file.specs.Verification.{spread, types_given, entering_at};
ghost use Rattle.verifier_types.specs.Seen.{type_of};
ghost use Rattle.verifier_types.specs.Frames.{shown, Stepped};
ghost use Rattle.verifier.specs.Carrying.{IsUnset, IsTracked, Laying, flow_of, stored_by, and_place};

use crate::frames::{blank, given_stack};
use crate::tabled::TabledMethod;
use class_file::class::{ClassFile, Frame, Method, VType};
use class_file::row::Row;
use class_file::verify_code::VerifyCode;
use kc_text::Memory;
use std::alloc::Global;
use verifier_types::{Known, Locals, NamedSet, VerificationType, step};

/// What is known where the scan stands. The local variables stay one array from frame to frame, so that a given frame takes no time
/// for those that it leaves out.
#[derive(Drop)]
pub struct Carried<'a> {
    pub known: Known<'a>,
    /// Does the flow come to the place? Else what is known is only kept for its local variables.
    pub flows: bool,
    // From here on a local variable holds nothing, but for those that have been stored into.
    front: usize,
    stored: Vec<usize>,
}

// A local variable that a row stores into is one of those that can hold something.
fn note_store(stored: &mut Vec<usize>, row: Row) -> Result<(), Memory>
    ensures { OnOk result (stored.new.items ≡ and_place stored.old.items (stored_by row)) }
{
    if let Row::Store(_, at) = row {
        stored.push(at)?;
    }
    Ok(())
}

fn clear_at(locals: &mut Locals, at: usize)
    ensures { locals.new ≡ slice_set locals.old at NoType }
{
    if at >= locals.len() {
        return;
    }
    locals.set(at, VerificationType::Top);
}

fn clear_stored(locals: &mut Locals, front: usize, stored: &[usize])
    requires { IsUnset front stored.now locals.old }
    ensures unset { IsUnset front [] locals.new }
    ensures same { length locals.new ≡ length locals.old }
{
    for at in stored {
        clear_at(locals, *at);
    }
}

fn clear_front(locals: &mut Locals, front: usize)
    requires { IsUnset front [] locals.old }
    ensures { locals.new ≡ replicate (length locals.old) NoType }
{
    for at in 0..front {
        clear_at(locals, at);
    }
}

// Makes so many local variables that hold nothing. The array has another length only where a fault follows: parameters or a given
// frame that don't fit.
fn clear<'a>(
    alloc: Global,
    locals: Locals<'a>,
    front: usize,
    stored: &[usize],
    max: usize,
) -> Result<Locals<'a>, Memory>
    requires { IsUnset front stored.now locals }
    ensures { IfOk result (λ blank. blank ≡ replicate max NoType) }
{
    if locals.len() != max {
        return blank(alloc, max);
    }
    let mut cleared = locals;
    clear_stored(&mut cleared, front, stored);
    clear_front(&mut cleared, front);
    Ok(cleared)
}

// Writes a place, or adds it behind the last, and answers with the next one.
fn put<'a>(locals: &mut Locals<'a>, at: usize, t: VerificationType<'a>) -> Result<usize, Memory>
    ensures { IfOk result (λ next. (max : ℕ) (rest whole : List VT) → Laying max at locals.old (type_of t.entry ∷ rest) whole → Laying max next locals.new rest whole) }
{
    if at < locals.len() {
        locals.set(at, t);
        return Ok(at + 1);
    }
    locals.push(t)?;
    Ok(locals.len())
}

// Writes a type, which takes two places if it is a Long, and answers with the next place.
fn put_given<'a>(
    locals: &mut Locals<'a>,
    at: usize,
    t: VerificationType<'a>,
) -> Result<usize, Memory>
    ensures { IfOk result (λ next. (max : ℕ) (rest whole : List VT) → Laying max at locals.old (spread (type_of t.entry ∷ rest)) whole → Laying max next locals.new (spread rest) whole) }
{
    let next = put(locals, at, t)?;
    match t {
        VerificationType::Long => Ok(put(locals, next, VerificationType::Top)?),
        _ => Ok(next),
    }
}

// Writes types into local variables that hold nothing, and answers how many places they take.
fn put_all<'a>(locals: &mut Locals<'a>, types: &[&'a VType]) -> Result<usize, Memory>
    ensures { IfOk result (λ count. (max : ℕ) → locals.old ≡ replicate max NoType → Laying max count locals.new [] (spread (map (λ t. t.now) types.now))) }
{
    let mut at = 0;
    for t in types {
        at = put_given(locals, at, VerificationType::given(t))?;
    }
    Ok(at)
}

impl<'a> Carried<'a> {
    /// At the start of a method, with what it starts with.
    pub fn new(alloc: Global, known: Known<'a>) -> Carried<'a>
        ensures types { flow_of result ≡ Some (shown known.entry) }
        ensures tracked { IsTracked result }
    {
        let front = known.locals.len();
        Carried {
            known,
            flows: true,
            front,
            stored: Vec::new(alloc),
        }
    }

    // Takes what a given frame says, in time of what it writes down and of what has been written since the last one.
    fn enter_given(self, alloc: Global, max: usize, frame: &'a Frame) -> Result<Carried<'a>, Memory>
        requires { IsTracked self }
        ensures types { IfOk result (λ carried. flow_of carried ≡ Some (types_given max frame.now)) }
        ensures tracked { IfOk result (λ carried. IsTracked carried) }
    {
        let Carried {
            known,
            front,
            mut stored,
            ..
        } = self;
        let mut locals = clear(alloc, known.locals, front, &stored, max)?;
        stored.clear();
        let front = put_all(&mut locals, &frame.locals.in_order(alloc)?)?;
        let stack = given_stack(alloc, frame.stack.as_slice())?;
        Ok(Carried {
            known: Known {
                locals,
                stack,
                unset: frame.unset,
            },
            flows: true,
            front,
            stored,
        })
    }

    /// Goes on to a place, where a frame may be given or be missing.
    pub fn enter(
        self,
        alloc: Global,
        method: &TabledMethod<'a>,
        pc: usize,
    ) -> Result<Carried<'a>, Memory>
        requires { IsTracked self }
        ensures flow { IfOk result (λ carried. flow_of carried ≡ entering_at method.now pc (flow_of self.entry)) }
        ensures tracked { IfOk result (λ carried. IsTracked carried) }
    {
        if let Some(frame) = method.frame_at(pc) {
            return Ok(self.enter_given(alloc, method.max_locals(), frame)?);
        }
        let mut carried = self;
        if method.needs_frame(pc) {
            carried.flows = false;
        }
        Ok(carried)
    }

    /// Takes the types after a row, or tells its code.
    pub fn step(
        &mut self,
        alloc: Global,
        set: &NamedSet,
        class: &'a ClassFile,
        method: &Method,
        pc: usize,
        wanted: Option<VerificationType<'a>>,
        row: Row,
    ) -> Result<Option<VerifyCode>, Memory>
        requires lot { in_first_lot row ≡ true }
        requires wanted { option_map type_of wanted ≡ (described method.now.descriptor).result }
        ensures stepped { IfOk result (λ fault. Stepped (stepped set.now class.now method.now pc row (shown self.old.known)) fault self.new.known) }
        ensures tracked { IfOk result (λ fault. fault ≡ None → IsTracked self.old → IsTracked self.new) }
    {
        note_store(&mut self.stored, row)?;
        let known = &mut self.known;
        Ok(step(alloc, set, class, method, pc, wanted, row, known)?)
    }
}
