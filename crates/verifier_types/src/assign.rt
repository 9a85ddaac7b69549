//! Which types may be used as others (Java Virtual Machine Specification SE 8, 4.10.1.2).
ghost use Rattle.std.specs.Prelude.{◌≡◌};
ghost use Rattle.class_file.specs.Members.{assignable};
ghost use Rattle.verifier_types.specs.Seen.{type_of};

use crate::named_set::NamedSet;
use crate::names::reference_below;
use crate::types::VerificationType;

/// Is the first type assignable to the second?
pub fn assignable(set: &NamedSet, from: VerificationType, to: VerificationType) -> bool
    ensures { result ≡ assignable set.now (type_of from.entry) (type_of to.entry) }
{
    match (from, to) {
        (_, VerificationType::Top) => true,
        (VerificationType::Integer, VerificationType::Integer) => true,
        (VerificationType::Long, VerificationType::Long) => true,
        (VerificationType::Null, VerificationType::Null) => true,
        (VerificationType::Null, VerificationType::Object(_)) => true,
        (VerificationType::Object(b), VerificationType::Object(c)) => reference_below(set, b, c),
        (VerificationType::UninitializedThis, VerificationType::UninitializedThis) => true,
        (VerificationType::Uninitialized(p), VerificationType::Uninitialized(q)) => p == q,
        (VerificationType::Top, VerificationType::Integer) => false,
        (VerificationType::Long, VerificationType::Integer) => false,
        (VerificationType::Null, VerificationType::Integer) => false,
        (VerificationType::UninitializedThis, VerificationType::Integer) => false,
        (VerificationType::Object(_), VerificationType::Integer) => false,
        (VerificationType::Uninitialized(_), VerificationType::Integer) => false,
        (VerificationType::Top, VerificationType::Long) => false,
        (VerificationType::Integer, VerificationType::Long) => false,
        (VerificationType::Null, VerificationType::Long) => false,
        (VerificationType::UninitializedThis, VerificationType::Long) => false,
        (VerificationType::Object(_), VerificationType::Long) => false,
        (VerificationType::Uninitialized(_), VerificationType::Long) => false,
        (VerificationType::Top, VerificationType::Null) => false,
        (VerificationType::Integer, VerificationType::Null) => false,
        (VerificationType::Long, VerificationType::Null) => false,
        (VerificationType::UninitializedThis, VerificationType::Null) => false,
        (VerificationType::Object(_), VerificationType::Null) => false,
        (VerificationType::Uninitialized(_), VerificationType::Null) => false,
        (VerificationType::Top, VerificationType::UninitializedThis) => false,
        (VerificationType::Integer, VerificationType::UninitializedThis) => false,
        (VerificationType::Long, VerificationType::UninitializedThis) => false,
        (VerificationType::Null, VerificationType::UninitializedThis) => false,
        (VerificationType::Object(_), VerificationType::UninitializedThis) => false,
        (VerificationType::Uninitialized(_), VerificationType::UninitializedThis) => false,
        (VerificationType::Top, VerificationType::Object(_)) => false,
        (VerificationType::Integer, VerificationType::Object(_)) => false,
        (VerificationType::Long, VerificationType::Object(_)) => false,
        (VerificationType::UninitializedThis, VerificationType::Object(_)) => false,
        (VerificationType::Uninitialized(_), VerificationType::Object(_)) => false,
        (VerificationType::Top, VerificationType::Uninitialized(_)) => false,
        (VerificationType::Integer, VerificationType::Uninitialized(_)) => false,
        (VerificationType::Long, VerificationType::Uninitialized(_)) => false,
        (VerificationType::Null, VerificationType::Uninitialized(_)) => false,
        (VerificationType::UninitializedThis, VerificationType::Uninitialized(_)) => false,
        (VerificationType::Object(_), VerificationType::Uninitialized(_)) => false,
    }
}
