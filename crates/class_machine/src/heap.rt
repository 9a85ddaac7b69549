// The objects that were made.

ghost use Rattle.std.specs.Prelude.{◌≡◌};
ghost use Rattle.std.specs.Option.{option_copied};
ghost use Rattle.class_file.specs.Natives.{text_of, text_argument};
ghost use Rattle.class_file.specs.Machine.{is_same};
ghost use Rattle.class_machine.specs.Heaps.{objects_of, argument_of};

use class_file::value::Value;
use kc_text::Text;

/// An object, under its number in the heap.
#[derive(Drop)]
pub enum Object {
    Text(Text),
    /// An object of the class of this number, with its fields.
    Instance { class: usize, fields: Vec<Value> },
}

/// What a reference is where a text is wanted.
pub enum TextArgument<'a> {
    Text(&'a Text),
    Null,
    NoText,
}

// The text that a reference names.
fn text_of(heap: &[Object], place: usize) -> Option<&Text>
    ensures { option_copied result ≡ text_of (objects_of heap.now) place }
{
    match heap.get(place) {
        Some(Object::Text(text)) => Some(text),
        Some(Object::Instance { .. }) => None,
        None => None,
    }
}

/// What a value is where a text is wanted.
pub fn text_argument(heap: &[Object], value: Value) -> TextArgument<'_>
    ensures { argument_of result ≡ text_argument (objects_of heap.now) value }
{
    match value {
        Value::Ref(place) => match text_of(heap, place) {
            Some(text) => TextArgument::Text(text),
            None => TextArgument::NoText,
        },
        Value::Null => TextArgument::Null,
        Value::Nothing | Value::Int(_) | Value::Long(_) => TextArgument::NoText,
    }
}

/// Are two references the same? Texts of equal contents are.
pub fn is_same(heap: &[Object], first: Value, second: Value) -> bool
    ensures { result ≡ is_same (objects_of heap.now) first second }
{
    match (first, second) {
        (Value::Null, Value::Null) => true,
        (Value::Ref(r), Value::Ref(q)) => {
            if r == q {
                return true;
            }
            match (text_of(heap, r), text_of(heap, q)) {
                (Some(a), Some(b)) => a == b,
                (Some(_), None) => false,
                (None, _) => false,
            }
        }
        (Value::Null, Value::Nothing | Value::Int(_) | Value::Long(_) | Value::Ref(_)) => false,
        (Value::Ref(_), Value::Nothing | Value::Int(_) | Value::Long(_) | Value::Null) => false,
        (Value::Nothing | Value::Int(_) | Value::Long(_), _) => false,
    }
}
