// Methods that the run-time system provides.

ghost use Rattle.std.specs.Prelude.{◌≡◌, ◌≢◌, ◌≤◌, ◌<◌, ◌^◌, ◌++◌, ◌∷◌, [], None, reverse, OnOk, OnErr, IfOk};
ghost use Rattle.std.specs.Fmt.{signed_decimal};
ghost use Rattle.kc_text.specs.Unicode.{utf8_of};
ghost use Rattle.kc_io.specs.Told.{appended, GainsFront};
ghost use Rattle.class_file.specs.Natives.{NativeFails, truth_text, is_true, unit_of};
ghost use Rattle.class_machine.specs.Heaps.{objects_of};
ghost use Rattle.class_machine.specs.Faults.{HasCause};
ghost use Rattle.class_file.specs.Lots.{native_member};
ghost use Rattle.class_file.specs.declared.value.NativeId.TheVariants as native_is;
ghost use Rattle.class_machine.specs.Runs.{NativeDid, NativeCut, Joined, applied};

use crate::faults::Fault;
use crate::frame::{pop, pop_int, pop_long};
use crate::heap::{Object, TextArgument, text_argument};
use class_file::class::Set;
use class_file::value::{BuiltIn, NativeId, Value};
use itoa::Buffer;
use kc_io::{Sink, write_all};
use kc_text::{Memory, Text};
use std::alloc::Global;

/// What a native did.
#[derive(Drop)]
pub enum NativeDone {
    Made(Text),
    Wrote,
    Threw(BuiltIn),
}

// The number in decimal.
fn decimal_of(alloc: Global, number: i32) -> Result<Text, Memory>
    ensures { IfOk result (λ text. text ≡ signed_decimal number) }
{
    let mut buffer = Buffer::new();
    Text::from_str(alloc, buffer.format(number))
}

fn wide_decimal_of(alloc: Global, number: i64) -> Result<Text, Memory>
    ensures { IfOk result (λ text. text ≡ signed_decimal number) }
{
    let mut buffer = Buffer::new();
    Text::from_str(alloc, buffer.format(number))
}

fn unit_of(n: i32) -> u16
    ensures { result ≡ unit_of n }
{
    (n.cast_unsigned() % 0x1_0000) as u16
}

fn text_of_unit(alloc: Global, unit: u16) -> Result<Text, Memory>
    ensures { IfOk result (λ text. text ≡ unit ∷ []) }
{
    let mut text = Text::new(alloc);
    text.push(unit)?;
    Ok(text)
}

fn truth_text(alloc: Global, truth: bool) -> Result<Text, Memory>
    ensures { IfOk result (λ text. text ≡ truth_text truth) }
{
    if truth {
        Text::from_str(alloc, "true")
    } else {
        Text::from_str(alloc, "false")
    }
}

fn concat(alloc: Global, first: &Text, second: &Text) -> Result<Text, Memory>
    ensures { IfOk result (λ text. text ≡ first.now ++ second.now) }
{
    let mut text = first.copy(alloc)?;
    text.push_units(second.units())?;
    Ok(text)
}

// Writes the text's UTF-8.
#[tactic(auto, using(kc_io::specs::Told::gains))]
fn write_text<O: Sink>(alloc: Global, text: &Text, out: &mut O) -> Result<(), Fault>
    ensures ok { OnOk result (O.taken out.new ≡ appended (O.taken out.old) (utf8_of text.now)) }
    ensures front { GainsFront (O.taken out.old) (O.taken out.new) (utf8_of text.now) }
    ensures cause { HasCause (O.faults out.old) (O.faults out.new) result }
    ensures faults { O.faults out.old ≤ O.faults out.new }
{
    let bytes = text.to_utf8(alloc)?;
    write_all(out, alloc, &bytes)?;
    Ok(())
}

// The two texts on the stack are joined.
#[tactic(auto, unfolding(class_file::specs::Natives::native_effect))]
fn join(
    alloc: Global,
    _set: &Set,
    heap: &[Object],
    stack: &mut Vec<Value>,
) -> Result<NativeDone, Memory>
    requires { (applied _set.now native_is.TextsConcat (objects_of heap.now) (reverse stack.old.items)).effect ≢ NativeFails }
    ensures { IfOk result (λ done. Joined (applied _set.now native_is.TextsConcat (objects_of heap.now) (reverse stack.old.items)) done (reverse stack.new.items)) }
{
    let second = text_argument(heap, pop(stack));
    let first = text_argument(heap, pop(stack));
    match (first, second) {
        (TextArgument::Text(first), TextArgument::Text(second)) => {
            Ok(NativeDone::Made(concat(alloc, first, second)?))
        }
        (TextArgument::NoText, _) => unreachable!(),
        (_, TextArgument::NoText) => unreachable!(),
        (TextArgument::Null, TextArgument::Text(_)) => Ok(NativeDone::Threw(
            BuiltIn::NullPointerException,
        )),
        (TextArgument::Null, TextArgument::Null) => Ok(NativeDone::Threw(
            BuiltIn::NullPointerException,
        )),
        (TextArgument::Text(_), TextArgument::Null) => Ok(NativeDone::Threw(
            BuiltIn::NullPointerException,
        )),
    }
}

/// Runs a native that is built on the stack.
#[tactic(auto, unfolding(class_file::specs::Natives::native_effect))]
pub fn native<O: Sink>(
    alloc: Global,
    set: &Set,
    id: NativeId,
    heap: &[Object],
    stack: &mut Vec<Value>,
    out: &mut O,
) -> Result<NativeDone, Fault>
    requires built { native_member id ≢ None }
    requires fits { (applied set.now id (objects_of heap.now) (reverse stack.old.items)).effect ≢ NativeFails }
    ensures ok { IfOk result (λ done. NativeDid (applied set.now id (objects_of heap.now) (reverse stack.old.items)) done (reverse stack.new.items) (O.taken out.old) (O.taken out.new)) }
    ensures err { OnErr result (NativeCut (applied set.now id (objects_of heap.now) (reverse stack.old.items)).effect (O.taken out.old) (O.taken out.new)) }
    ensures cause { HasCause (O.faults out.old) (O.faults out.new) result }
    ensures faults { O.faults out.old ≤ O.faults out.new }
{
    match id {
        NativeId::TextsOfInt => {
            let number = pop_int(stack);
            Ok(NativeDone::Made(decimal_of(alloc, number)?))
        }
        NativeId::TextsOfLong => {
            let number = pop_long(stack);
            Ok(NativeDone::Made(wide_decimal_of(alloc, number)?))
        }
        NativeId::TextsOfChar => {
            let number = pop_int(stack);
            Ok(NativeDone::Made(text_of_unit(alloc, unit_of(number))?))
        }
        NativeId::TextsOfBoolean => {
            let number = pop_int(stack);
            Ok(NativeDone::Made(truth_text(alloc, number != 0)?))
        }
        NativeId::TextsConcat => Ok(join(alloc, set, heap, stack)?),
        NativeId::ConsoleWrite => match text_argument(heap, pop(stack)) {
            TextArgument::Text(text) => {
                write_text(alloc, text, out)?;
                Ok(NativeDone::Wrote)
            }
            TextArgument::Null => Ok(NativeDone::Threw(BuiltIn::NullPointerException)),
            TextArgument::NoText => unreachable!(),
        },
        _ => unreachable!(),
    }
}
