//! The heads of classes: their type parameters and direct supertypes.

use crate::{ClassId, TypeTree, VarId};
use sqlite_items::Items;

/// The declared variance of a type parameter (Kotlin Language Specification 1.9, "Declaration-site variance").
#[derive(Clone, Copy, Debug, PartialEq, Eq)]
pub enum Variance {
    Invariant,
    Out,
    In,
}

/// A type parameter with its upper bound, which is `Any?` where none is written.
#[derive(Drop)]
pub struct HeadParam {
    pub var: VarId,
    pub variance: Variance,
    pub bound: TypeTree,
    pub reified: bool,
}

/// A class with its type parameters and direct supertypes. A function type may stand among these.
#[derive(Drop)]
pub struct Head {
    pub class: ClassId,
    pub params: Items<HeadParam>,
    pub supers: Items<TypeTree>,
}

/// The classes of a hierarchy, each at the place of its number, and the type parameters of all functions.
#[derive(Drop)]
pub struct Heads {
    pub classes: Items<Head>,
    pub others: Items<HeadParam>,
}
