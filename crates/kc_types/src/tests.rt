ghost use Rattle.std.specs.Prelude.{◌<◌, ◌≤◌, length, IfOk};
ghost use Rattle.kc_types.specs.Tables.{IsNode};

use crate::{
    ClassId, Head, Heads, Parts, Shared, Ty, TyArg, TypeId, TypeTable, TypeTooDeep, TypeTree, VarId,
};
use kc_text::{Fail as Refused, Memory};
use sqlite_items::Items;
use std::alloc::Global;
use std::test::Fail;

const BOX: ClassId = ClassId(40);

const T: VarId = VarId(7);

fn number(alloc: Global, table: &mut TypeTable, ty: Ty) -> Result<TypeId, Refused<TypeTooDeep>>
    requires { IsNode table.old ty }
    ensures within { IfOk result (λ id. id.0 < length table.new) }
    ensures grows { length table.old ≤ length table.new }
{
    table.intern(alloc, ty)
}

fn box_of(
    alloc: Global,
    table: &mut TypeTable,
    argument: TypeId,
) -> Result<TypeId, Refused<TypeTooDeep>>
    requires { argument.0 < length table.old }
    ensures within { IfOk result (λ id. id.0 < length table.new) }
    ensures grows { length table.old ≤ length table.new }
{
    let arguments = vec![in alloc; TyArg::Exact(argument)]?;
    number(alloc, table, Ty::Class(BOX, Parts::from_vec(arguments)))
}

#[test]
fn equal_types_have_equal_numbers(rt: HostRuntime) -> Result<(), Fail> {
    let alloc = rt.alloc();
    let mut table = TypeTable::new(alloc);
    let first = number(alloc, &mut table, Ty::Param(T))?;
    let other = number(alloc, &mut table, Ty::Nothing)?;
    let again = number(alloc, &mut table, Ty::Param(T))?;
    assert_eq!(rt; [first.0, other.0, again.0], [0, 1, 0]);
    Ok(())
}

#[test]
fn puts_types_in_a_box(rt: HostRuntime) -> Result<(), Fail> {
    let alloc = rt.alloc();
    let mut table = TypeTable::new(alloc);
    let param = number(alloc, &mut table, Ty::Param(T))?;
    let other = number(alloc, &mut table, Ty::Nothing)?;
    let of_param = box_of(alloc, &mut table, param)?;
    let of_other = box_of(alloc, &mut table, other)?;
    let put = table.substitute(alloc, of_param, &[T], &[other])?;
    assert_eq!(rt; put.0, of_other.0);
    Ok(())
}

#[test]
fn refuses_depth_17(rt: HostRuntime) -> Result<(), Fail> {
    let alloc = rt.alloc();
    let mut table = TypeTable::new(alloc);
    let mut ty = number(alloc, &mut table, Ty::Param(T))?;
    for _ in 1..16 {
        ty = box_of(alloc, &mut table, ty)?;
    }
    let deeper = box_of(alloc, &mut table, ty);
    assert!(rt; matches!(deeper, Err(Refused::Found(fault)) if fault.depth == 17));
    assert_eq!(rt; table.len(), 16);
    Ok(())
}

fn class(alloc: Global, number: usize) -> Result<TypeTree, Memory> {
    Ok(TypeTree::Class(ClassId(number), Shared::new(alloc, Items::new(alloc))?))
}

// The heads of classes that each have at most one direct supertype.
fn heads(alloc: Global, above: &[Option<usize>]) -> Result<Heads, Memory> {
    let mut classes = Vec::new(alloc);
    for (place, number) in above.iter().enumerate() {
        let mut supers = Vec::new(alloc);
        if let Some(number) = *number {
            supers.push(class(alloc, number)?)?;
        }
        classes.push(Head {
            class: ClassId(place),
            params: Items::new(alloc),
            supers: Items::from_vec(supers),
        })?;
    }
    Ok(Heads {
        classes: Items::from_vec(classes),
        others: Items::new(alloc),
    })
}

#[test]
fn finds_classes_that_lead_back(rt: HostRuntime) -> Result<(), Fail> {
    let alloc = rt.alloc();
    let upwards = heads(alloc, &[None, Some(0), Some(3), Some(1)])?;
    let in_turn = heads(alloc, &[None, Some(2), Some(3), Some(1)])?;
    let to_itself = heads(alloc, &[None, Some(1)])?;
    let found = [
        upwards.is_acyclic(alloc)?,
        in_turn.is_acyclic(alloc)?,
        to_itself.is_acyclic(alloc)?,
    ];
    assert_eq!(rt; found, [true, false, false]);
    Ok(())
}
