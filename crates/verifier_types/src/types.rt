//! Verification types.
ghost use Rattle.std.specs.Prelude.{◌≡◌, ◌≤◌};
ghost use Rattle.class_file.specs.Typing.{width, is_kind, takes_one, is_uninitialised, is_reference, same};
ghost use Rattle.verifier_types.specs.Seen.{type_of};

use class_file::class::VType;
use class_file::value::Kind;

/// A verification type (Java Virtual Machine Specification SE 8, 4.10.1.2), by the names that stand in the class files.
#[derive(Clone, Copy)]
pub enum VerificationType<'a> {
    Top,
    Integer,
    Long,
    Null,
    UninitializedThis,
    /// The name of a class, or the descriptor of an array.
    Object(&'a [u16]),
    /// The place of the `new`, in bytes.
    Uninitialized(usize),
}

impl<'a> VerificationType<'a> {
    /// A type of a given frame.
    pub fn given(given: &'a VType) -> VerificationType<'a>
        ensures { type_of result ≡ given.now }
    {
        match given {
            VType::Top => VerificationType::Top,
            VType::Integer => VerificationType::Integer,
            VType::Long => VerificationType::Long,
            VType::Null => VerificationType::Null,
            VType::UninitializedThis => VerificationType::UninitializedThis,
            VType::Object(name) => VerificationType::Object(name.units()),
            VType::Uninitialized(at) => VerificationType::Uninitialized(*at),
        }
    }

    /// How many places of the stack a value takes.
    pub fn width(self) -> usize
        ensures exact { result ≡ width (type_of self.entry) }
        ensures small { result ≤ 2 }
        ensures some { 1 ≤ result }
    {
        match self {
            VerificationType::Long => 2,
            VerificationType::Top => 1,
            VerificationType::Integer => 1,
            VerificationType::Null => 1,
            VerificationType::UninitializedThis => 1,
            VerificationType::Object(_) => 1,
            VerificationType::Uninitialized(_) => 1,
        }
    }

    /// Is it a type of an instruction's kind? A reference may be uninitialised.
    pub fn is_kind(self, kind: Kind) -> bool
        ensures { result ≡ is_kind kind (type_of self.entry) }
    {
        match (kind, self) {
            (Kind::Int, VerificationType::Integer) => true,
            (Kind::Long, VerificationType::Long) => true,
            (Kind::Ref, VerificationType::Null) => true,
            (Kind::Ref, VerificationType::Object(_)) => true,
            (Kind::Ref, VerificationType::UninitializedThis) => true,
            (Kind::Ref, VerificationType::Uninitialized(_)) => true,
            (Kind::Int, VerificationType::Top) => false,
            (Kind::Int, VerificationType::Long) => false,
            (Kind::Int, VerificationType::Null) => false,
            (Kind::Int, VerificationType::Object(_)) => false,
            (Kind::Int, VerificationType::UninitializedThis) => false,
            (Kind::Int, VerificationType::Uninitialized(_)) => false,
            (Kind::Long, VerificationType::Top) => false,
            (Kind::Long, VerificationType::Integer) => false,
            (Kind::Long, VerificationType::Null) => false,
            (Kind::Long, VerificationType::Object(_)) => false,
            (Kind::Long, VerificationType::UninitializedThis) => false,
            (Kind::Long, VerificationType::Uninitialized(_)) => false,
            (Kind::Ref, VerificationType::Top) => false,
            (Kind::Ref, VerificationType::Integer) => false,
            (Kind::Ref, VerificationType::Long) => false,
        }
    }

    /// Do its values take one place of the stack?
    pub fn takes_one(self) -> bool
        ensures { result ≡ takes_one (type_of self.entry) }
    {
        match self {
            VerificationType::Top => false,
            VerificationType::Long => false,
            VerificationType::Integer => true,
            VerificationType::Null => true,
            VerificationType::UninitializedThis => true,
            VerificationType::Object(_) => true,
            VerificationType::Uninitialized(_) => true,
        }
    }

    /// Is it a type of values that their constructor has not been called on?
    pub fn is_uninitialised(self) -> bool
        ensures { result ≡ is_uninitialised (type_of self.entry) }
    {
        match self {
            VerificationType::UninitializedThis => true,
            VerificationType::Uninitialized(_) => true,
            VerificationType::Top => false,
            VerificationType::Integer => false,
            VerificationType::Long => false,
            VerificationType::Null => false,
            VerificationType::Object(_) => false,
        }
    }

    /// Is it a reference that can be used?
    pub fn is_reference(self) -> bool
        ensures { result ≡ is_reference (type_of self.entry) }
    {
        match self {
            VerificationType::Null => true,
            VerificationType::Object(_) => true,
            VerificationType::Top => false,
            VerificationType::Integer => false,
            VerificationType::Long => false,
            VerificationType::UninitializedThis => false,
            VerificationType::Uninitialized(_) => false,
        }
    }
}
