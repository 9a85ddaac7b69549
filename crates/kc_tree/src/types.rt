//! Names and written types.

use crate::Span;
use sqlite_items::{Boxed, Items};

/// A written name: its place, and its number in the list of names.
#[derive(Clone, Copy, Debug, PartialEq, Eq)]
pub struct Word {
    pub span: Span,
    pub name: usize,
}

/// A modifier (Kotlin Language Specification 1.9, "Declarations").
#[derive(Clone, Copy, Debug, PartialEq, Eq)]
pub struct Mod {
    pub span: Span,
    pub kind: ModKind,
}

#[derive(Clone, Copy, Debug, PartialEq, Eq)]
pub enum ModKind {
    Public,
    Internal,
    Private,
    Final,
    Open,
    Abstract,
    Sealed,
    Data,
    Enum,
    Override,
    Operator,
    Infix,
    Inline,
    Const,
    Vararg,
    Noinline,
    Crossinline,
    Reified,
    Out,
    In,
}

/// A written type (Kotlin Language Specification 1.9, "Type kinds"). Brackets round a type leave no node.
#[cycle(types)]
#[derive(Drop)]
pub struct Type {
    pub span: Span,
    pub kind: TypeKind,
}

#[cycle(types)]
#[derive(Drop)]
pub enum TypeKind {
    /// The words between the dots, and the type arguments, none where none are written.
    Named(Items<Word>, Items<TypeArg>),
    /// The types of the parameters, and that of the result.
    Fun(Items<Type>, Boxed<Type>),
    /// The type before one `?`.
    Nullable(Boxed<Type>),
}

/// A type argument (Kotlin Language Specification 1.9, "Type projections").
#[cycle(types)]
#[derive(Drop)]
pub struct TypeArg {
    pub span: Span,
    pub kind: TypeArgKind,
}

#[cycle(types)]
#[derive(Drop)]
pub enum TypeArgKind {
    Star,
    Exact(Type),
    Out(Type),
    In(Type),
}

/// A type parameter with its bound (Kotlin Language Specification 1.9, "Declarations with type parameters").
#[derive(Drop)]
pub struct TypeParam {
    pub span: Span,
    pub mods: Items<Mod>,
    pub name: Word,
    pub bound: Option<Type>,
}
