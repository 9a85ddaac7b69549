//! The built-in classes, by their numbers.
ghost use Rattle.std.specs.Prelude.{◌≡◌, ◌<◌, nat_eq, position, length, true, ◌==◌, ◌&&◌};
ghost use Rattle.class_file.specs.Pools.{is_text};
ghost use Rattle.class_file.specs.Classes.{built_ins, superclass, class_at, own_method};
ghost use Rattle.class_file.specs.Members.{is_interface_view, is_there};
ghost use Rattle.std.specs.List.{list_any};

use crate::named_set::NamedSet;

/// How many built-in classes there are.
pub const BUILT_IN_COUNT: usize = 37;

static NAMES: [&str; 37] = [
    "java/lang/Object",
    "java/lang/String",
    "java/lang/Integer",
    "java/lang/Long",
    "java/lang/Character",
    "java/lang/Boolean",
    "java/lang/Comparable",
    "java/lang/Throwable",
    "java/lang/Exception",
    "java/lang/Error",
    "java/lang/RuntimeException",
    "java/lang/IllegalArgumentException",
    "java/lang/NumberFormatException",
    "java/lang/IllegalStateException",
    "java/lang/UnsupportedOperationException",
    "java/lang/ArithmeticException",
    "java/lang/NullPointerException",
    "java/lang/ClassCastException",
    "java/lang/IndexOutOfBoundsException",
    "java/lang/ArrayIndexOutOfBoundsException",
    "java/lang/ArrayStoreException",
    "java/lang/NegativeArraySizeException",
    "java/lang/IncompatibleClassChangeError",
    "java/lang/AbstractMethodError",
    "java/util/NoSuchElementException",
    "kprof/rt/Console",
    "kprof/rt/Texts",
    "kotlin/Unit",
    "kotlin/Function0",
    "kotlin/Function1",
    "kotlin/Function2",
    "kotlin/Function3",
    "kotlin/Function4",
    "kotlin/Function5",
    "kotlin/Function6",
    "kotlin/Function7",
    "kotlin/Function8",
];

static SUPERS: [Option<usize>; 37] = [
    None,
    Some(0),
    Some(0),
    Some(0),
    Some(0),
    Some(0),
    Some(0),
    Some(0),
    Some(7),
    Some(7),
    Some(8),
    Some(10),
    Some(11),
    Some(10),
    Some(10),
    Some(10),
    Some(10),
    Some(10),
    Some(10),
    Some(18),
    Some(10),
    Some(10),
    Some(9),
    Some(22),
    Some(10),
    Some(0),
    Some(0),
    Some(0),
    Some(0),
    Some(0),
    Some(0),
    Some(0),
    Some(0),
    Some(0),
    Some(0),
    Some(0),
    Some(0),
];

static INTERFACES: [bool; 37] = [
    false, false, false, false, false, false, true, false, false, false, false, false, false,
    false, false, false, false, false, false, false, false, false, false, false, false, false,
    false, false, true, true, true, true, true, true, true, true, true,
];

// The static methods of the built-in classes: the number of the class, the name and the descriptor.
static STATICS: [(usize, &str, &str); 15] = [
    (2, "valueOf", "(I)Ljava/lang/Integer;"),
    (3, "valueOf", "(J)Ljava/lang/Long;"),
    (4, "valueOf", "(C)Ljava/lang/Character;"),
    (5, "valueOf", "(Z)Ljava/lang/Boolean;"),
    (25, "write", "(Ljava/lang/String;)V"),
    (25, "readLine", "()Ljava/lang/String;"),
    (26, "length", "(Ljava/lang/String;)I"),
    (26, "charAt", "(Ljava/lang/String;I)C"),
    (
        26,
        "concat",
        "(Ljava/lang/String;Ljava/lang/String;)Ljava/lang/String;",
    ),
    (26, "substring", "(Ljava/lang/String;II)Ljava/lang/String;"),
    (26, "compare", "(Ljava/lang/String;Ljava/lang/String;)I"),
    (26, "ofInt", "(I)Ljava/lang/String;"),
    (26, "ofLong", "(J)Ljava/lang/String;"),
    (26, "ofChar", "(C)Ljava/lang/String;"),
    (26, "ofBoolean", "(Z)Ljava/lang/String;"),
];

/// Are the units these ASCII characters?
pub fn is_ascii_text(units: &[u16], ascii: &[u8]) -> bool
    ensures { result ≡ is_text ascii.now units.now }
{
    if units.len() != ascii.len() {
        return false;
    }
    for at in 0..ascii.len() {
        if u16::from(ascii[at]) != units[at] {
            return false;
        }
    }
    true
}

// The place of a name among names.
fn place_of(name: &[u16], names: &[&str]) -> Option<usize>
    ensures { result ≡ position (λ known. is_text known.now name.now) names.now }
{
    names
        .iter()
        .position(|known| is_ascii_text(name, known.as_bytes()))
}

/// The number of the built-in class of this name.
pub fn built_in_number(name: &[u16]) -> Option<usize>
    ensures { result ≡ position (λ c. is_text c.name name.now) built_ins }
{
    place_of(name, &NAMES)
}

/// The number of a built-in class's superclass.
pub fn built_in_superclass(_set: &NamedSet, number: usize) -> Option<usize>
    requires { number < 37 }
    ensures { result ≡ superclass _set.now number }
{
    SUPERS[number]
}

/// Is a built-in class an interface?
pub fn is_built_in_interface(_set: &NamedSet, number: usize) -> bool
    requires { number < 37 }
    ensures { result ≡ is_interface_view (class_at _set.now number) }
{
    INTERFACES[number]
}

// Is it among these methods?
fn is_among(
    number: usize,
    name: &[u16],
    descriptor: &[u16],
    methods: &[(usize, &str, &str)],
) -> bool
    ensures { result ≡ list_any (λ m. m.0 == number && (is_text m.1.now name.now && is_text m.2.now descriptor.now)) methods.now }
{
    methods.iter().any(|m| m.0 == number
        && (is_ascii_text(name, m.1.as_bytes()) && is_ascii_text(descriptor, m.2.as_bytes())))
}

/// Has a built-in class this static method?
pub fn has_built_in_static(_set: &NamedSet, number: usize, name: &[u16], descriptor: &[u16]) -> bool
    requires { number < 37 }
    ensures { result ≡ is_there (own_method _set.now true name.now descriptor.now number) }
{
    is_among(number, name, descriptor, &STATICS)
}
