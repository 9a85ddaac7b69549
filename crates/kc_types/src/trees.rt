//! Types as trees.
ghost use Rattle.std.specs.Prelude.{◌≡◌, IfOk};

use crate::{ClassId, Shared, VarId};
use kc_text::Memory;
use sqlite_items::Items;

/// A type as a tree, whose parts are shared, so that a copy takes no memory (Kotlin Language Specification 1.9, "Type kinds").
///
/// A function type is always a `Fun`; no `Class` names a class of functions. A `Nullable` holds no `Nullable`.
#[cycle(types)]
#[derive(Drop)]
pub enum TypeTree {
    Class(ClassId, Shared<Items<ArgTree>>),
    Param(VarId),
    /// The types of the parameters, at most 8, and of the result.
    Fun(Shared<Items<TypeTree>>, Shared<TypeTree>),
    Nothing,
    Nullable(Shared<TypeTree>),
}

/// A type argument (Kotlin Language Specification 1.9, "Type arguments" and "Mixed-site variance").
#[cycle(types)]
#[derive(Drop)]
pub enum ArgTree {
    Exact(TypeTree),
    Out(TypeTree),
    In(TypeTree),
    Star,
}

impl TypeTree {
    /// The same type once more. It takes no memory; it fails where a count of owners is full.
    pub fn share(&self) -> Result<TypeTree, Memory>
        ensures { IfOk result (λ copy. copy ≡ self.now) }
    {
        match self {
            TypeTree::Class(class, args) => Ok(TypeTree::Class(*class, args.share()?)),
            TypeTree::Param(var) => Ok(TypeTree::Param(*var)),
            TypeTree::Fun(params, result) => Ok(TypeTree::Fun(params.share()?, result.share()?)),
            TypeTree::Nothing => Ok(TypeTree::Nothing),
            TypeTree::Nullable(ty) => Ok(TypeTree::Nullable(ty.share()?)),
        }
    }
}
