//! The constants that instructions load.
ghost use Rattle.std.specs.Prelude.{◌≡◌};
ghost use Rattle.std.specs.Option.{option_map};
ghost use Rattle.class_file.specs.Pools.{constant_in, entry_at};
ghost use Rattle.class_file.specs.Typing.{constant_type, long_constant_type};
ghost use Rattle.verifier_types.specs.Seen.{type_of};

use crate::types::VerificationType;
use class_file::pool::{Entry, Pool};

static STRING: [u16; 16] = [
    106, 97, 118, 97, 47, 108, 97, 110, 103, 47, 83, 116, 114, 105, 110, 103,
];

/// The type of a constant that `ldc` loads.
pub fn constant_type(pool: &Pool, index: usize) -> Option<VerificationType<'static>>
    ensures { option_map type_of result ≡ constant_type (constant_in pool.now (entry_at pool.now index)) }
{
    match pool.get(index) {
        Some(Entry::Integer(_)) => Some(VerificationType::Integer),
        Some(Entry::Str(text)) => match pool.get(*text as usize) {
            Some(Entry::Utf8(_)) => Some(VerificationType::Object(&STRING)),
            _ => None,
        },
        _ => None,
    }
}

/// The type of a constant that `ldc2_w` loads.
pub fn long_constant_type(pool: &Pool, index: usize) -> Option<VerificationType<'static>>
    ensures { option_map type_of result ≡ long_constant_type (entry_at pool.now index) }
{
    match pool.get(index) {
        Some(Entry::Long(_)) => Some(VerificationType::Long),
        _ => None,
    }
}
