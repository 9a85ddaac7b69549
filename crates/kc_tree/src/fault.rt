//! Where a part of a source stands, and why a source is refused.
ghost use Rattle.std.specs.Prelude.{◌≡◌};
ghost use Rattle.kc_tree.specs.CodeNames.{name_of, NamesDiffer};

/// A part of one source: its UTF-16 units from `start` up to `end`, which is excluded.
#[derive(Clone, Copy, Debug, PartialEq, Eq)]
pub struct Span {
    /// The number of the file, from 0 in the order in which the files are given.
    pub file: usize,
    pub start: usize,
    pub end: usize,
}

/// Why a source is refused.
#[derive(Clone, Copy, Debug, PartialEq, Eq)]
pub enum Code {
    /// A form that this compiler has not built yet.
    NotBuilt,
    /// The bytes are not UTF-8 from this unit on.
    BadUtf8,
    /// A character that begins no token.
    BadChar,
    /// A number directly in front of a letter, a digit or `_`.
    BadNumber,
    /// A number above the greatest `Long`.
    LiteralTooWide,
    /// A `\` in front of what is no escape.
    BadEscape,
    /// Quotes around anything but one UTF-16 unit.
    BadCharLiteral,
    /// A string without its closing quote.
    UnclosedString,
    /// A comment without its `*/`.
    UnclosedComment,
    /// A token, or the end of the text, where the grammar has none.
    Syntax,
    /// A package that is not allowed here.
    Package,
    /// A second declaration of one name.
    Redeclaration,
    /// A name that nothing seen here has.
    Unresolved,
    /// The number of type arguments does not fit.
    WrongTypeArgs,
    /// A modifier in the wrong place.
    Modifier,
    /// A name that only declarations not seen here have.
    Private,
    /// A class that is its own supertype, or a type parameter its own bound.
    SuperCycle,
    /// A supertype that cannot be one here.
    SuperKind,
    /// A type argument of a supertype that is not allowed.
    SuperArgument,
    /// Two instances of one generic supertype.
    TwoInstances,
    /// A direct subclass of a sealed class outside its file.
    SealedOutside,
    /// A type parameter at a place that its variance excludes.
    Variance,
    /// A member that overrides without `override`.
    OverrideMissing,
    /// An `override` with nothing to override.
    OverrideNothing,
    /// An override whose types do not fit.
    OverrideTypes,
    /// An abstract member that is not implemented.
    AbstractMember,
    /// Two inherited bodies for one member.
    TwoBodies,
    /// Two members with one name and one erased parameter list.
    Clash,
    /// A declaration that needs a written type.
    NeedsType,
    /// An initial value that is not allowed for a static place.
    StaticInit,
    /// An inline function that calls itself.
    InlineCycle,
    /// A value whose type is not that of its place.
    Mismatch,
    /// A member of a value that may be null.
    UnsafeCall,
    /// A null test or cast of a value that may have changed since.
    Unstable,
    /// An assignment of what cannot be assigned.
    ReadOnly,
    /// Operands of `==` whose types exclude each other.
    EqualityTypes,
    /// Operands of `===` that have no identity to compare.
    IdentityTypes,
    /// A cast that a running program cannot test.
    UncheckedCast,
    /// An `if` or `when` as a value without `else`.
    NeedsElse,
    /// A `when` that leaves out a case.
    Missing,
    /// A jump to no enclosing loop or label.
    JumpTarget,
    /// A `return` where none is allowed.
    ReturnPlace,
    /// A use that is not allowed in an inline function.
    InlineUse,
    /// A type argument that cannot be reified.
    ReifiedArgument,
    /// A constructor of a class that cannot be made.
    AbstractNew,
    /// A lambda that does not fit the expected function type.
    LambdaShape,
    /// A call for which no candidate is applicable.
    NoneApplicable,
    /// A call for which no candidate is the most specific.
    Ambiguous,
    /// A type variable whose bounds exclude each other.
    Conflict,
    /// A type variable about which nothing is known.
    NoBound,
    /// A type argument outside its parameter's bound.
    BoundBroken,
    /// A parameter without argument and default.
    MissingArg,
    /// An argument for which no parameter is left.
    TooMany,
    /// A named argument whose parameter does not exist.
    UnknownName,
    /// A second argument for one parameter.
    Doubled,
    /// An argument without name behind a named one.
    PositionalAfterNamed,
    /// A variable that may be unassigned where it is read.
    Unassigned,
    /// A `val` that may be assigned already.
    Reassigned,
    /// A function body that may end without `return`.
    MissingReturn,
    /// A use of `this` before the object is whole.
    EarlyThis,
    /// There is no main function.
    NoMain,
    /// There are several main functions.
    ManyMain,
}

impl Code {
    /// The name that is printed, in ASCII.
    pub fn name(self) -> &'static str
        ensures { result.now ≡ name_of self }
    {
        match self {
            Code::NotBuilt => "NotBuilt",
            Code::BadUtf8 => "BadUtf8",
            Code::BadChar => "BadChar",
            Code::BadNumber => "BadNumber",
            Code::LiteralTooWide => "LiteralTooWide",
            Code::BadEscape => "BadEscape",
            Code::BadCharLiteral => "BadCharLiteral",
            Code::UnclosedString => "UnclosedString",
            Code::UnclosedComment => "UnclosedComment",
            Code::Syntax => "Syntax",
            Code::Package => "Package",
            Code::Redeclaration => "Redeclaration",
            Code::Unresolved => "Unresolved",
            Code::WrongTypeArgs => "WrongTypeArgs",
            Code::Modifier => "Modifier",
            Code::Private => "Private",
            Code::SuperCycle => "SuperCycle",
            Code::SuperKind => "SuperKind",
            Code::SuperArgument => "SuperArgument",
            Code::TwoInstances => "TwoInstances",
            Code::SealedOutside => "SealedOutside",
            Code::Variance => "Variance",
            Code::OverrideMissing => "OverrideMissing",
            Code::OverrideNothing => "OverrideNothing",
            Code::OverrideTypes => "OverrideTypes",
            Code::AbstractMember => "AbstractMember",
            Code::TwoBodies => "TwoBodies",
            Code::Clash => "Clash",
            Code::NeedsType => "NeedsType",
            Code::StaticInit => "StaticInit",
            Code::InlineCycle => "InlineCycle",
            Code::Mismatch => "Mismatch",
            Code::UnsafeCall => "UnsafeCall",
            Code::Unstable => "Unstable",
            Code::ReadOnly => "ReadOnly",
            Code::EqualityTypes => "EqualityTypes",
            Code::IdentityTypes => "IdentityTypes",
            Code::UncheckedCast => "UncheckedCast",
            Code::NeedsElse => "NeedsElse",
            Code::Missing => "Missing",
            Code::JumpTarget => "JumpTarget",
            Code::ReturnPlace => "ReturnPlace",
            Code::InlineUse => "InlineUse",
            Code::ReifiedArgument => "ReifiedArgument",
            Code::AbstractNew => "AbstractNew",
            Code::LambdaShape => "LambdaShape",
            Code::NoneApplicable => "NoneApplicable",
            Code::Ambiguous => "Ambiguous",
            Code::Conflict => "Conflict",
            Code::NoBound => "NoBound",
            Code::BoundBroken => "BoundBroken",
            Code::MissingArg => "MissingArg",
            Code::TooMany => "TooMany",
            Code::UnknownName => "UnknownName",
            Code::Doubled => "Doubled",
            Code::PositionalAfterNamed => "PositionalAfterNamed",
            Code::Unassigned => "Unassigned",
            Code::Reassigned => "Reassigned",
            Code::MissingReturn => "MissingReturn",
            Code::EarlyThis => "EarlyThis",
            Code::NoMain => "NoMain",
            Code::ManyMain => "ManyMain",
        }
    }
}

/// No two codes are printed alike.
pub fn names_differ()
    ensures { NamesDiffer }
{}

/// What a refusal names beside its place.
#[derive(Clone, Copy, Debug, PartialEq, Eq)]
pub enum Detail {
    Nothing,
    /// The number of a name.
    Name(usize),
    /// The places of two declarations.
    Two(Span, Span),
}

/// The refusal of a source.
#[derive(Clone, Copy, Debug, PartialEq, Eq)]
pub struct Fault {
    pub span: Span,
    pub code: Code,
    pub detail: Detail,
}

/// Why the check of a source stops early.
#[derive(Clone, Copy, Debug, PartialEq, Eq)]
pub enum Stop {
    Fault(Fault),
    /// A type has this depth, which is above the limit.
    TooDeep { depth: usize },
}
