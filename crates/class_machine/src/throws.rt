// Exceptions of the machine's own.

ghost use Rattle.std.specs.Prelude.{◌≡◌, ◌<◌, ◌++◌, ◌==◌, ℕ, List, Some, length, find, IfOk};
ghost use Rattle.std.specs.List.{list_any};
ghost use Rattle.class_file.specs.Classes.{exception_number};
ghost use Rattle.class_file.specs.Machine.{message, exception_objects, exception_place};
ghost use Rattle.class_machine.specs.Core.{core_of, frames_of};
ghost use Rattle.class_machine.specs.Heaps.{objects_of};
ghost use Rattle.class_machine.specs.Links.{IsLinked, handlers_at};
ghost use Rattle.class_machine.specs.Lot.{IsBuilt, class_name};
ghost use Rattle.class_machine.specs.Runs.{Comes, throwing};
ghost use Rattle.class_machine.specs.Throws.{superclasses, covers, linked_place, MadeException, Unwound, CaughtBy};

use crate::frame::{Frame, push};
use crate::heap::Object;
use crate::links::{Caught, LinkedHandler, Links};
use crate::run::{Run, StepEnd};
use class_file::class::Set;
use class_file::value::{BuiltIn, Value};
use kc_text::{Memory, Text};
use std::alloc::Global;

/// The binary name of the class of an exception.
pub fn class_name(exception: BuiltIn) -> &'static str
    ensures { result.now ≡ class_name exception }
{
    match exception {
        BuiltIn::Throwable => "java/lang/Throwable",
        BuiltIn::Exception => "java/lang/Exception",
        BuiltIn::Error => "java/lang/Error",
        BuiltIn::RuntimeException => "java/lang/RuntimeException",
        BuiltIn::IllegalArgumentException => "java/lang/IllegalArgumentException",
        BuiltIn::NumberFormatException => "java/lang/NumberFormatException",
        BuiltIn::IllegalStateException => "java/lang/IllegalStateException",
        BuiltIn::UnsupportedOperationException => "java/lang/UnsupportedOperationException",
        BuiltIn::ArithmeticException => "java/lang/ArithmeticException",
        BuiltIn::NullPointerException => "java/lang/NullPointerException",
        BuiltIn::ClassCastException => "java/lang/ClassCastException",
        BuiltIn::IndexOutOfBoundsException => "java/lang/IndexOutOfBoundsException",
        BuiltIn::ArrayIndexOutOfBoundsException => "java/lang/ArrayIndexOutOfBoundsException",
        BuiltIn::ArrayStoreException => "java/lang/ArrayStoreException",
        BuiltIn::NegativeArraySizeException => "java/lang/NegativeArraySizeException",
        BuiltIn::IncompatibleClassChangeError => "java/lang/IncompatibleClassChangeError",
        BuiltIn::AbstractMethodError => "java/lang/AbstractMethodError",
        BuiltIn::NoSuchElementException => "java/util/NoSuchElementException",
    }
}

/// The message of an exception that the machine makes.
pub fn message(alloc: Global, exception: BuiltIn) -> Result<Option<Text>, Memory>
    ensures { IfOk result (λ text. text ≡ message exception) }
{
    match exception {
        BuiltIn::ArithmeticException => Ok(Some(Text::from_str(alloc, "/ by zero")?)),
        BuiltIn::Throwable
        | BuiltIn::Exception
        | BuiltIn::Error
        | BuiltIn::RuntimeException
        | BuiltIn::IllegalArgumentException
        | BuiltIn::NumberFormatException
        | BuiltIn::IllegalStateException
        | BuiltIn::UnsupportedOperationException
        | BuiltIn::NullPointerException
        | BuiltIn::ClassCastException
        | BuiltIn::IndexOutOfBoundsException
        | BuiltIn::ArrayIndexOutOfBoundsException
        | BuiltIn::ArrayStoreException
        | BuiltIn::NegativeArraySizeException
        | BuiltIn::IncompatibleClassChangeError
        | BuiltIn::AbstractMethodError
        | BuiltIn::NoSuchElementException => Ok(None),
    }
}

// The number of the class of an exception.
fn exception_number(exception: BuiltIn) -> usize
    ensures { result ≡ exception_number exception }
{
    match exception {
        BuiltIn::Throwable => 7,
        BuiltIn::Exception => 8,
        BuiltIn::Error => 9,
        BuiltIn::RuntimeException => 10,
        BuiltIn::IllegalArgumentException => 11,
        BuiltIn::NumberFormatException => 12,
        BuiltIn::IllegalStateException => 13,
        BuiltIn::UnsupportedOperationException => 14,
        BuiltIn::ArithmeticException => 15,
        BuiltIn::NullPointerException => 16,
        BuiltIn::ClassCastException => 17,
        BuiltIn::IndexOutOfBoundsException => 18,
        BuiltIn::ArrayIndexOutOfBoundsException => 19,
        BuiltIn::ArrayStoreException => 20,
        BuiltIn::NegativeArraySizeException => 21,
        BuiltIn::IncompatibleClassChangeError => 22,
        BuiltIn::AbstractMethodError => 23,
        BuiltIn::NoSuchElementException => 24,
    }
}

static OF_THROWABLE: [usize; 2] = [7, 0];

static OF_EXCEPTION: [usize; 3] = [8, 7, 0];

static OF_ERROR: [usize; 3] = [9, 7, 0];

static OF_RUNTIME: [usize; 4] = [10, 8, 7, 0];

static OF_ILLEGAL_ARGUMENT: [usize; 5] = [11, 10, 8, 7, 0];

static OF_NUMBER_FORMAT: [usize; 6] = [12, 11, 10, 8, 7, 0];

static OF_ILLEGAL_STATE: [usize; 5] = [13, 10, 8, 7, 0];

static OF_UNSUPPORTED: [usize; 5] = [14, 10, 8, 7, 0];

static OF_ARITHMETIC: [usize; 5] = [15, 10, 8, 7, 0];

static OF_NULL_POINTER: [usize; 5] = [16, 10, 8, 7, 0];

static OF_CLASS_CAST: [usize; 5] = [17, 10, 8, 7, 0];

static OF_INDEX: [usize; 5] = [18, 10, 8, 7, 0];

static OF_ARRAY_INDEX: [usize; 6] = [19, 18, 10, 8, 7, 0];

static OF_ARRAY_STORE: [usize; 5] = [20, 10, 8, 7, 0];

static OF_NEGATIVE_SIZE: [usize; 5] = [21, 10, 8, 7, 0];

static OF_CLASS_CHANGE: [usize; 4] = [22, 9, 7, 0];

static OF_ABSTRACT_METHOD: [usize; 5] = [23, 22, 9, 7, 0];

static OF_NO_ELEMENT: [usize; 5] = [24, 10, 8, 7, 0];

// The numbers of the class of an exception and of its superclasses.
fn superclasses(exception: BuiltIn) -> &'static [usize]
    ensures { result.now ≡ superclasses exception }
{
    match exception {
        BuiltIn::Throwable => &OF_THROWABLE,
        BuiltIn::Exception => &OF_EXCEPTION,
        BuiltIn::Error => &OF_ERROR,
        BuiltIn::RuntimeException => &OF_RUNTIME,
        BuiltIn::IllegalArgumentException => &OF_ILLEGAL_ARGUMENT,
        BuiltIn::NumberFormatException => &OF_NUMBER_FORMAT,
        BuiltIn::IllegalStateException => &OF_ILLEGAL_STATE,
        BuiltIn::UnsupportedOperationException => &OF_UNSUPPORTED,
        BuiltIn::ArithmeticException => &OF_ARITHMETIC,
        BuiltIn::NullPointerException => &OF_NULL_POINTER,
        BuiltIn::ClassCastException => &OF_CLASS_CAST,
        BuiltIn::IndexOutOfBoundsException => &OF_INDEX,
        BuiltIn::ArrayIndexOutOfBoundsException => &OF_ARRAY_INDEX,
        BuiltIn::ArrayStoreException => &OF_ARRAY_STORE,
        BuiltIn::NegativeArraySizeException => &OF_NEGATIVE_SIZE,
        BuiltIn::IncompatibleClassChangeError => &OF_CLASS_CHANGE,
        BuiltIn::AbstractMethodError => &OF_ABSTRACT_METHOD,
        BuiltIn::NoSuchElementException => &OF_NO_ELEMENT,
    }
}

fn is_among(number: usize, numbers: &[usize]) -> bool
    ensures { result ≡ list_any (λ m. m == number) numbers.now }
{
    numbers.iter().any(|m| *m == number)
}

// Does a row that catches so catch the exception?
fn covers(exception: BuiltIn, caught: Caught) -> bool
    ensures { result ≡ covers exception caught }
{
    match caught {
        Caught::All => true,
        Caught::Class(number) => is_among(number, superclasses(exception)),
        Caught::Nothing => false,
    }
}

// Where the first row leads that catches an exception from a place.
fn handler_place(handlers: &[LinkedHandler], exception: BuiltIn, at: usize) -> Option<usize>
    ensures { result ≡ linked_place handlers.now exception at }
{
    for handler in handlers {
        if handler.start <= at && at < handler.end && covers(exception, handler.caught) {
            return Some(handler.at);
        }
    }
    None
}

fn handlers_at(links: &Links, class: usize, method: usize) -> &[LinkedHandler]
    ensures { result.now ≡ handlers_at links.now class method }
{
    match links.classes.get(class) {
        Some(class) => match class.methods.get(method) {
            Some(method) => method.handlers.as_slice(),
            None => &[],
        },
        None => &[],
    }
}

// A new exception, behind its message if it has one.
fn make_exception(
    alloc: Global,
    exception: BuiltIn,
    heap: &mut Vec<Object>,
) -> Result<usize, Memory>
    ensures { IfOk result (λ place. MadeException exception place (objects_of heap.old.items) (objects_of heap.new.items)) }
{
    let message = match message(alloc, exception)? {
        Some(text) => {
            let message = Value::Ref(heap.len());
            heap.push(Object::Text(text))?;
            message
        }
        None => Value::Null,
    };
    let mut fields = Vec::new(alloc);
    fields.push(message)?;
    let place = heap.len();
    heap.push(Object::Instance {
        class: exception_number(exception),
        fields,
    })?;
    Ok(place)
}

// A frame catches an exception, or not.
fn catch(
    links: &Links,
    exception: BuiltIn,
    thrown: usize,
    frame: &mut Frame,
) -> Result<bool, Memory>
    ensures { IfOk result (λ caught. CaughtBy links.now exception thrown caught frame.old frame.new) }
{
    match handler_place(
        handlers_at(links, frame.class, frame.method),
        exception,
        frame.at,
    ) {
        Some(at) => {
            frame.at = at;
            frame.stack.clear();
            push(&mut frame.stack, Value::Ref(thrown))?;
            Ok(true)
        }
        None => Ok(false),
    }
}

// An exception leaves the frames down to one that catches it.
fn unwind(
    links: &Links,
    exception: BuiltIn,
    thrown: usize,
    frames: &mut Vec<Frame>,
) -> Result<bool, Memory>
    ensures { IfOk result (λ caught. Unwound links.now exception thrown caught (frames_of frames.old.items) (frames_of frames.new.items)) }
{
    while let Some(mut frame) = frames.pop() {
        if catch(links, exception, thrown, &mut frame)? {
            frames.push(frame)?;
            return Ok(true);
        }
    }
    Ok(false)
}

/// An exception of the machine's own leaves the running frame.
pub fn throw(
    alloc: Global,
    set: &Set,
    links: &Links,
    exception: BuiltIn,
    run: &mut Run,
) -> Result<StepEnd, Memory>
    requires linked { IsLinked set.now links.now }
    requires built { IsBuilt set.now }
    ensures { IfOk result (λ end. (input out : List ℕ) → Comes set.now (throwing set.now (core_of run.old) exception input out) end (core_of run.new) input out) }
{
    let thrown = make_exception(alloc, exception, &mut run.heap)?;
    if unwind(links, exception, thrown, &mut run.frames)? {
        Ok(StepEnd::On)
    } else {
        Ok(StepEnd::Threw(exception))
    }
}
