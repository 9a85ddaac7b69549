//! The table of different types.
ghost use Rattle.std.specs.Prelude.{◌≡◌, ◌<◌, ◌≤◌, ◌↔◌, [], ◌∷◌, ◌++◌, None, Some, IsTrue, All, Contains, map, take, length, slice_get, IfOk, OnOk, OnErr};
ghost use Rattle.kc_text.specs.Fail.{IfFound};
ghost use Rattle.kc_types.specs.declared.types.Ty.{Ty};
ghost use Rattle.kc_types.specs.Trees.{depth_of, depth_of_argument, deepest};
ghost use Rattle.kc_types.specs.Tables.{IsNode, Names, tree_of, tree_at, argument_at, AddsOnce, AllDifferent, Extends, PartsBelow, PartBelow, ArgumentBelow, Stands};

use crate::{ArgTree, Shared, Ty, TyArg, TypeId, TypeTree};
use indexmap::IndexMap;
use kc_text::{Fail, Memory};
use sqlite_items::Items;
use std::alloc::Global;
use std::marker::Model;

/// A type is deeper than 16: its depth is 1 without arguments, and else 1 more than that of its deepest argument.
#[derive(Clone, Copy, Debug, PartialEq, Eq)]
pub struct TypeTooDeep {
    pub depth: usize,
}

const MOST: usize = 16;

// What is kept of a type: its tree, and how deep it is.
#[derive(Drop)]
struct Known {
    tree: TypeTree,
    depth: usize,
}

/// A list of different types. Elsewhere a type is its number, which is its index in this list.
#[derive(Drop)]
pub struct TypeTable {
    types: IndexMap<Ty, Known>,
}

impl Model for TypeTable {
    ghost use Rattle.std.specs.Prelude.{List};
    ghost use Rattle.kc_types.specs.declared.trees.TypeTree.{TypeTree};
    ghost use Rattle.kc_types.specs.Tables.{trees_of, IsTable};
    ghost use Rattle.kc_types.specs.contracts.trees.TypeTree as tree;
    ghost use Rattle.std.specs.Coded.{codes, coded_list};

    ghost Value = { List TypeTree };

    ghost coded = { coded_list tree.the_row.coded };

    ghost view = { λ table. trees_of table.types.entries };

    ghost invariant = { λ table. IsTable table.types.entries };
}

impl TypeTable {
    /// A table without types, which takes no memory.
    pub fn new(alloc: Global) -> TypeTable
        ensures { result ≡ [] }
    {
        TypeTable {
            types: IndexMap::new(alloc),
        }
    }

    /// How many types there are.
    pub fn len(&self) -> usize
        ensures count { result ≡ length self.now }
        ensures different { AllDifferent self.now }
    {
        self.types.len()
    }

    pub fn is_empty(&self) -> bool
        ensures { IsTrue result ↔ (self.now ≡ []) }
    {
        self.types.is_empty()
    }

    /// The type with this number, by the numbers of its parts, which are smaller.
    pub fn view(&self, id: TypeId) -> &Ty
        requires { id.0 < length self.now }
        ensures is { tree_at self.now id ≡ tree_of self.now result.now }
        ensures parts { PartsBelow id.0 result.now }
        ensures node { IsNode self.now result.now }
        ensures only { (ty : Ty) → IsNode self.now ty → tree_at self.now id ≡ tree_of self.now ty → result.now ≡ ty }
    {
        self.at(id).0
    }

    /// The tree of the type with this number. It shares its parts with those of the other types.
    pub fn whole(&self, id: TypeId) -> &TypeTree
        requires { id.0 < length self.now }
        ensures is { result.now ≡ tree_at self.now id }
        ensures shallow { depth_of result.now ≤ 16 }
    {
        &self.at(id).1.tree
    }

    fn at(&self, id: TypeId) -> (&Ty, &Known)
        requires { id.0 < length self.now }
        ensures is { result.1.now.tree ≡ tree_at self.now id }
        ensures stands { Stands self.now id.0 (result.0.now, result.1.now) }
        ensures different { AllDifferent self.now }
    {
        let entry = self.types.get_index(id.0);
        entry.unwrap()
    }

    /// The number of this type, which goes to the list's end if it is not there yet: equal types have equal numbers. Its parts
    /// are of the table. It costs one hash of the type, whatever the table's length.
    ///
    /// A type that is not there yet is refused exactly where it is deeper than 16, but for want of memory.
    pub fn intern(&mut self, alloc: Global, ty: Ty) -> Result<TypeId, Fail<TypeTooDeep>>
        requires { IsNode self.old ty }
        ensures names { IfOk result (λ id. Names self.new (tree_of self.old ty) id) }
        ensures shallow { OnOk result (depth_of (tree_of self.old ty) ≤ 16) }
        ensures ok { OnOk result (AddsOnce self.old self.new (tree_of self.old ty)) }
        ensures deep { IfFound result (λ fault. (fault.depth ≡ 17) × (fault.depth ≡ depth_of (tree_of self.old ty))) }
        ensures err { OnErr result (self.new ≡ self.old) }
        ensures extends { Extends self.old self.new }
        ensures different { AllDifferent self.new }
    {
        if let Some(at) = self.types.get_index_of(&ty) {
            return Ok(TypeId(at));
        }
        let depth = self.depth_of(&ty);
        if depth > MOST {
            return Err(Fail::Found(TypeTooDeep { depth }));
        }
        Ok(self.add(alloc, ty, depth)?)
    }

    // Takes away the types from this number on.
    pub(crate) fn truncate(&mut self, len: usize)
        ensures { self.new ≡ take len self.old }
    {
        self.types.truncate(len);
    }

    // Adds a type that is not there yet.
    fn add(&mut self, alloc: Global, ty: Ty, depth: usize) -> Result<TypeId, Memory>
        requires node { IsNode self.old ty }
        requires new { ¬ (Contains self.old (tree_of self.old ty)) }
        requires exact { depth ≡ depth_of (tree_of self.old ty) }
        requires shallow { depth ≤ 16 }
        ensures number { IfOk result (λ id. slice_get self.new id.0 ≡ Some (tree_of self.old ty)) }
        ensures ok { OnOk result (self.new ≡ self.old ++ tree_of self.old ty ∷ []) }
        ensures err { OnErr result (self.new ≡ self.old) }
        ensures different { AllDifferent self.new }
    {
        let tree = self.tree_of(alloc, &ty)?;
        let at = self.types.len();
        self.types.insert(ty, Known { tree, depth })?;
        Ok(TypeId(at))
    }

    fn depth_of(&self, ty: &Ty) -> usize
        requires { IsNode self.now ty.now }
        ensures exact { result ≡ depth_of (tree_of self.now ty.now) }
        ensures small { result ≤ 17 }
    {
        match ty {
            Ty::Class(_, arguments) => 1 + self.deepest_argument(arguments.as_slice()),
            Ty::Param(_) => 1,
            Ty::Nothing => 1,
            Ty::Fun(params, result) => {
                1 + self
                    .deepest_part(params.as_slice())
                    .max(self.depth_at(*result))
            }
            Ty::Nullable(ty) => self.depth_at(*ty),
        }
    }

    fn depth_at(&self, id: TypeId) -> usize
        requires { id.0 < length self.now }
        ensures exact { result ≡ depth_of (tree_at self.now id) }
        ensures small { result ≤ 16 }
    {
        self.at(id).1.depth
    }

    fn argument_depth(&self, argument: TyArg) -> usize
        requires { ArgumentBelow (length self.now) argument }
        ensures exact { result ≡ depth_of_argument (argument_at self.now argument) }
        ensures small { result ≤ 16 }
    {
        match argument {
            TyArg::Exact(ty) | TyArg::Out(ty) | TyArg::In(ty) => self.depth_at(ty),
            TyArg::Star => 0,
        }
    }

    fn deepest_part(&self, parts: &[TypeId]) -> usize
        requires { All (PartBelow (length self.now)) parts.now }
        ensures exact { result ≡ deepest (map (λ t. depth_of (tree_at self.now t)) parts.now) }
        ensures small { result ≤ 16 }
    {
        let mut depth = 0;
        for part in parts {
            depth = depth.max(self.depth_at(*part));
        }
        depth
    }

    fn deepest_argument(&self, arguments: &[TyArg]) -> usize
        requires { All (ArgumentBelow (length self.now)) arguments.now }
        ensures exact { result ≡ deepest (map (λ a. depth_of_argument (argument_at self.now a)) arguments.now) }
        ensures small { result ≤ 16 }
    {
        let mut depth = 0;
        for argument in arguments {
            depth = depth.max(self.argument_depth(*argument));
        }
        depth
    }

    fn tree_of(&self, alloc: Global, ty: &Ty) -> Result<TypeTree, Memory>
        requires { IsNode self.now ty.now }
        ensures { IfOk result (λ tree. tree ≡ tree_of self.now ty.now) }
    {
        match ty {
            Ty::Class(class, arguments) => {
                let arguments = self.argument_trees(alloc, arguments.as_slice())?;
                Ok(TypeTree::Class(*class, Shared::new(alloc, arguments)?))
            }
            Ty::Param(var) => Ok(TypeTree::Param(*var)),
            Ty::Fun(params, result) => {
                let params = self.part_trees(alloc, params.as_slice())?;
                let result = self.tree_at(*result)?;
                Ok(TypeTree::Fun(Shared::new(alloc, params)?, Shared::new(alloc, result)?))
            }
            Ty::Nothing => Ok(TypeTree::Nothing),
            Ty::Nullable(ty) => {
                let ty = self.tree_at(*ty)?;
                Ok(TypeTree::Nullable(Shared::new(alloc, ty)?))
            }
        }
    }

    fn tree_at(&self, id: TypeId) -> Result<TypeTree, Memory>
        requires { id.0 < length self.now }
        ensures { IfOk result (λ tree. tree ≡ tree_at self.now id) }
    {
        self.whole(id).share()
    }

    fn argument_tree(&self, argument: TyArg) -> Result<ArgTree, Memory>
        requires { ArgumentBelow (length self.now) argument }
        ensures { IfOk result (λ tree. tree ≡ argument_at self.now argument) }
    {
        match argument {
            TyArg::Exact(ty) => Ok(ArgTree::Exact(self.tree_at(ty)?)),
            TyArg::Out(ty) => Ok(ArgTree::Out(self.tree_at(ty)?)),
            TyArg::In(ty) => Ok(ArgTree::In(self.tree_at(ty)?)),
            TyArg::Star => Ok(ArgTree::Star),
        }
    }

    fn part_trees(&self, alloc: Global, parts: &[TypeId]) -> Result<Items<TypeTree>, Memory>
        requires { All (PartBelow (length self.now)) parts.now }
        ensures { IfOk result (λ trees. trees ≡ map (tree_at self.now) parts.now) }
    {
        let mut trees = Vec::with_capacity(alloc, parts.len())?;
        for part in parts {
            trees.push(self.tree_at(*part)?)?;
        }
        Ok(Items::from_vec(trees))
    }

    fn argument_trees(&self, alloc: Global, arguments: &[TyArg]) -> Result<Items<ArgTree>, Memory>
        requires { All (ArgumentBelow (length self.now)) arguments.now }
        ensures { IfOk result (λ trees. trees ≡ map (argument_at self.now) arguments.now) }
    {
        let mut trees = Vec::with_capacity(alloc, arguments.len())?;
        for argument in arguments {
            trees.push(self.argument_tree(*argument)?)?;
        }
        Ok(Items::from_vec(trees))
    }
}
