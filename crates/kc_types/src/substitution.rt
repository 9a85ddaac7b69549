//! Substitution in the table of types.
ghost use Rattle.std.specs.Prelude.{◌≡◌, ◌<◌, ◌≤◌, ◌↔◌, [], ◌∷◌, ◌++◌, None, Some, IsTrue, true, All, Contains, map, length, slice_get, IfOk, OnOk, OnErr, take};
ghost use Rattle.kc_text.specs.Fail.{IfFound};
ghost use Rattle.kc_types.specs.Trees.{depth_of, depth_of_argument, deepest, nullable, put, put_argument};
ghost use Rattle.kc_types.specs.Tables.{IsNode, tree_of, tree_at, argument_at, is_nullable, value_in, argument_for, Names, NamesArgument, NamesAll, NamesArguments, Extends, AllDifferent, PartsBelow, PartBelow, ArgumentBelow};

use crate::{Parts, Ty, TyArg, TypeId, TypeTable, TypeTooDeep, VarId};
use kc_text::{Fail, Memory};
use std::alloc::Global;

impl TypeTable {
    /// The type with types put in for its type parameters, each at the first place of its parameter in `params`. Where a
    /// nullable type is put in under `?`, one `?` stands. The parts of the result that are not there yet are added too.
    ///
    /// It is refused, and the table stays, exactly where the result is deeper than 16, but for want of memory.
    pub fn substitute(
        &mut self,
        alloc: Global,
        id: TypeId,
        params: &[VarId],
        args: &[TypeId],
    ) -> Result<TypeId, Fail<TypeTooDeep>>
        requires id { id.0 < length self.old }
        requires args { All (PartBelow (length self.old)) args.now }
        ensures names { IfOk result (λ named. Names self.new (put (value_in self.old params.now args.now) (tree_at self.old id)) named) }
        ensures shallow { OnOk result (depth_of (put (value_in self.old params.now args.now) (tree_at self.old id)) ≤ 16) }
        ensures deep { IfFound result (λ fault. (fault.depth ≡ 17) × (16 < depth_of (put (value_in self.old params.now args.now) (tree_at self.old id)))) }
        ensures err { OnErr result (self.new ≡ self.old) }
        ensures extends { Extends self.old self.new }
    {
        let before = self.len();
        let put = self.put(alloc, id, params, args);
        match &put {
            Ok(named) => {
                let _shallow = self.whole(*named);
            }
            Err(_) => self.truncate(before),
        }
        put
    }

    #[cycle(put)]
    fn put(
        &mut self,
        alloc: Global,
        id: TypeId,
        params: &[VarId],
        args: &[TypeId],
    ) -> Result<TypeId, Fail<TypeTooDeep>>
        requires id { id.0 < length self.old }
        requires args { All (PartBelow (length self.old)) args.now }
        ensures names { IfOk result (λ named. Names self.new (put (value_in self.old params.now args.now) (tree_at self.old id)) named) }
        ensures deep { IfFound result (λ fault. (fault.depth ≡ 17) × (16 < depth_of (put (value_in self.old params.now args.now) (tree_at self.old id)))) }
        ensures extends { Extends self.old self.new }
    {
        match self.view(id).copy(alloc)? {
            Ty::Class(class, arguments) => {
                let arguments = self.put_arguments(
                    alloc,
                    arguments.as_slice(),
                    id.0,
                    params,
                    args,
                )?;
                self.intern(alloc, Ty::Class(class, Parts::from_vec(arguments)))
            }
            Ty::Param(var) => match argument_for(params, args, var) {
                Some(arg) => Ok(arg),
                None => Ok(id),
            },
            Ty::Fun(parts, result) => {
                let parts = self.put_parts(alloc, parts.as_slice(), id.0, params, args)?;
                let result = self.put(alloc, result, params, args)?;
                self.intern(alloc, Ty::Fun(Parts::from_vec(parts), result))
            }
            Ty::Nothing => Ok(id),
            Ty::Nullable(ty) => {
                let ty = self.put(alloc, ty, params, args)?;
                self.nullable(alloc, ty)
            }
        }
    }

    #[cycle(put)]
    fn put_arguments(
        &mut self,
        alloc: Global,
        arguments: &[TyArg],
        below: usize,
        params: &[VarId],
        args: &[TypeId],
    ) -> Result<Vec<TyArg>, Fail<TypeTooDeep>>
        requires below { below ≤ length self.old }
        requires arguments { All (ArgumentBelow below) arguments.now }
        requires args { All (PartBelow (length self.old)) args.now }
        ensures names { IfOk result (λ named. NamesArguments self.new (map (λ a. put_argument (value_in self.old params.now args.now) (argument_at self.old a)) arguments.now) named.items) }
        ensures deep { IfFound result (λ fault. (fault.depth ≡ 17) × (16 < deepest (map (λ a. depth_of_argument (put_argument (value_in self.old params.now args.now) (argument_at self.old a))) arguments.now))) }
        ensures extends { Extends self.old self.new }
    {
        let mut named = Vec::with_capacity(alloc, arguments.len())?;
        for argument in arguments {
            named.push(self.put_argument(alloc, *argument, params, args)?)?;
        }
        Ok(named)
    }

    #[cycle(put)]
    fn put_argument(
        &mut self,
        alloc: Global,
        argument: TyArg,
        params: &[VarId],
        args: &[TypeId],
    ) -> Result<TyArg, Fail<TypeTooDeep>>
        requires argument { ArgumentBelow (length self.old) argument }
        requires args { All (PartBelow (length self.old)) args.now }
        ensures names { IfOk result (λ named. NamesArgument self.new (put_argument (value_in self.old params.now args.now) (argument_at self.old argument)) named) }
        ensures deep { IfFound result (λ fault. (fault.depth ≡ 17) × (16 < depth_of_argument (put_argument (value_in self.old params.now args.now) (argument_at self.old argument)))) }
        ensures extends { Extends self.old self.new }
    {
        match argument {
            TyArg::Exact(ty) => Ok(TyArg::Exact(self.put(alloc, ty, params, args)?)),
            TyArg::Out(ty) => Ok(TyArg::Out(self.put(alloc, ty, params, args)?)),
            TyArg::In(ty) => Ok(TyArg::In(self.put(alloc, ty, params, args)?)),
            TyArg::Star => Ok(TyArg::Star),
        }
    }

    #[cycle(put)]
    fn put_parts(
        &mut self,
        alloc: Global,
        parts: &[TypeId],
        below: usize,
        params: &[VarId],
        args: &[TypeId],
    ) -> Result<Vec<TypeId>, Fail<TypeTooDeep>>
        requires below { below ≤ length self.old }
        requires parts { All (PartBelow below) parts.now }
        requires args { All (PartBelow (length self.old)) args.now }
        ensures names { IfOk result (λ named. NamesAll self.new (map (λ t. put (value_in self.old params.now args.now) (tree_at self.old t)) parts.now) named.items) }
        ensures deep { IfFound result (λ fault. (fault.depth ≡ 17) × (16 < deepest (map (λ t. depth_of (put (value_in self.old params.now args.now) (tree_at self.old t))) parts.now))) }
        ensures extends { Extends self.old self.new }
    {
        let mut named = Vec::with_capacity(alloc, parts.len())?;
        for part in parts {
            named.push(self.put(alloc, *part, params, args)?)?;
        }
        Ok(named)
    }

    // The type with `?`, unless it has one. It is as deep.
    fn nullable(&mut self, alloc: Global, id: TypeId) -> Result<TypeId, Fail<TypeTooDeep>>
        requires { id.0 < length self.old }
        ensures names { IfOk result (λ named. Names self.new (nullable (tree_at self.old id)) named) }
        ensures deep { IfFound result (λ _. ⊥) }
        ensures extends { Extends self.old self.new }
    {
        if self.is_nullable(id) {
            return Ok(id);
        }
        self.intern(alloc, Ty::Nullable(id))
    }

    fn is_nullable(&self, id: TypeId) -> bool
        requires { id.0 < length self.now }
        ensures exact { result ≡ is_nullable (tree_at self.now id) }
        ensures shallow { depth_of (tree_at self.now id) ≤ 16 }
    {
        let _shallow = self.whole(id);
        matches!(self.view(id), Ty::Nullable(_))
    }
}

fn argument_for(params: &[VarId], args: &[TypeId], var: VarId) -> Option<TypeId>
    ensures { result ≡ argument_for params.now args.now var }
{
    let (param, params) = params.split_first()?;
    let (arg, args) = args.split_first()?;
    if *param == var {
        Some(*arg)
    } else {
        argument_for(params, args, var)
    }
}
