//! Types as the table keeps them, by the numbers of their parts.
ghost use Rattle.std.specs.Prelude.{◌≡◌, List, IfOk};
ghost use Rattle.std.specs.Cmp.Lexicographic.{pointwise, lists_equiv, lists_per};
ghost use Rattle.std.specs.Hash as fed;
ghost use Rattle.std.specs.Hash.{items_Alike};
ghost use Rattle.std.specs.Cmp.Rules.{hashing};
ghost use Rattle.std.proofs.Common.{rules};

use crate::{ClassId, TypeId, VarId};
use kc_text::Memory;
use std::alloc::Global;
use std::hash::{Hash, Hasher};
use std::marker::Model;

/// The parts of a type: a `Vec` that contracts see as the list of its items, which is equal where these are.
#[derive(Debug, Drop)]
pub struct Parts<T> {
    items: Vec<T>,
}

impl<T> Model for Parts<T> {
    ghost use Rattle.std.specs.Prelude.{List};
    ghost use Rattle.std.specs.Coded.{coded_list};

    ghost Value = { List T };

    ghost coded = { coded_list T.code };

    ghost view = { λ parts. parts.items.items };
}

impl<T> Parts<T> {
    pub fn from_vec(items: Vec<T>) -> Parts<T>
        ensures { result ≡ items.items }
    {
        Parts { items }
    }

    pub fn into_vec(self) -> Vec<T>
        ensures { result.items ≡ self }
    {
        let Parts { items } = self;
        items
    }

    pub fn as_slice(&self) -> &[T]
        ensures { result.now ≡ self.now }
    {
        self.items.as_slice()
    }
}

impl<T: Copy> Parts<T> {
    pub fn copy(&self, alloc: Global) -> Result<Parts<T>, Memory>
        ensures { IfOk result (λ copy. copy ≡ self.now) }
    {
        let items = Vec::from_slice(alloc, self.items.as_slice())?;
        Ok(Parts { items })
    }
}

impl<T: PartialEq> PartialEq for Parts<T> {
    ghost eq = { pointwise T.eq };

    ghost laws = { lists_per T.laws };

    fn eq(&self, other: &Parts<T>) -> bool {
        self.items.as_slice() == other.items.as_slice()
    }
}

impl<T: Eq> Eq for Parts<T> {
    ghost laws = { lists_equiv T.Eq.laws };
}

impl<T: Hash> Hash for Parts<T> {
    ghost hash_input = { λ v. fed.slice T.hash_input v };

    ghost respects_eq = { (items_Alike (record { fed = T.respects_eq })).fed };

    fn hash<H: Hasher>(&self, state: &mut H) {
        self.items.as_slice().hash(state);
    }
}

/// A type (Kotlin Language Specification 1.9, "Type kinds"). Its parts are types of the same table.
///
/// A function type is always a `Fun`, with the types of its parameters, at most 8, and of its result. A `Nullable` holds no
/// `Nullable`.
#[derive(Debug, PartialEq, Eq, Hash, Drop)]
pub enum Ty {
    Class(ClassId, Parts<TyArg>),
    Param(VarId),
    Fun(Parts<TypeId>, TypeId),
    Nothing,
    Nullable(TypeId),
}

impl Ty {
    pub fn copy(&self, alloc: Global) -> Result<Ty, Memory>
        ensures { IfOk result (λ copy. copy ≡ self.now) }
    {
        match self {
            Ty::Class(class, arguments) => Ok(Ty::Class(*class, arguments.copy(alloc)?)),
            Ty::Param(var) => Ok(Ty::Param(*var)),
            Ty::Fun(params, result) => Ok(Ty::Fun(params.copy(alloc)?, *result)),
            Ty::Nothing => Ok(Ty::Nothing),
            Ty::Nullable(ty) => Ok(Ty::Nullable(*ty)),
        }
    }
}

/// A type argument (Kotlin Language Specification 1.9, "Type arguments" and "Mixed-site variance").
#[derive(Clone, Copy, Debug, PartialEq, Eq, Hash)]
pub enum TyArg {
    Exact(TypeId),
    Out(TypeId),
    In(TypeId),
    Star,
}
