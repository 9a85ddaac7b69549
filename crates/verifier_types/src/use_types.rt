//! Operands where types are wanted.
ghost use Rattle.std.specs.Prelude.{◌≡◌, map, reverse};
ghost use Rattle.class_file.specs.Typing.{misuse, misuses, worse};
ghost use Rattle.verifier_types.specs.Seen.{type_of};

use crate::assign::assignable;
use crate::named_set::NamedSet;
use crate::types::VerificationType;
use class_file::verify_code::VerifyCode;

/// Why a value of this type cannot be used where another is wanted.
pub fn misuse(set: &NamedSet, wanted: VerificationType, t: VerificationType) -> Option<VerifyCode>
    ensures { result ≡ misuse set.now (type_of wanted.entry) (type_of t.entry) }
{
    if assignable(set, t, wanted) {
        return None;
    }
    if t.is_uninitialised() && wanted.is_reference() {
        Some(VerifyCode::Uninitialised)
    } else {
        Some(VerifyCode::WrongType)
    }
}

fn worse(a: Option<VerifyCode>, b: Option<VerifyCode>) -> Option<VerifyCode>
    ensures { result ≡ worse a b }
{
    match (a, b) {
        (None, b) => b,
        (Some(VerifyCode::WrongType), _) => Some(VerifyCode::WrongType),
        (Some(code), None) => Some(code),
        (Some(_), Some(code)) => Some(code),
    }
}

/// Why the values on a stack, whose top is the last, cannot be used where these types are wanted, of which the last is wanted on
/// top.
pub fn misuses(
    set: &NamedSet,
    wanted: &[VerificationType],
    stack: &[VerificationType],
) -> Option<VerifyCode>
    ensures { result ≡ misuses set.now (map type_of (reverse wanted.now)) (map type_of (reverse stack.now)) }
{
    match wanted {
        [] => None,
        [wanted @ .., last] => match stack {
            [] => Some(VerifyCode::WrongType),
            [below @ .., top] => worse(misuse(set, *last, *top), misuses(set, wanted, below)),
        },
    }
}
