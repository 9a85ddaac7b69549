//! Lists of nodes.

use crate::parts::{Node, Part, Parts, expr, local, type_};
use kc_text::Memory;
use kc_tree::{Arg, Branch, CatchPart, Cond, Expr, LocalName, Piece, Type, TypeArg, Word};

/// Expressions or statements with the sign between them.
pub fn exprs<'t>(
    parts: &mut Parts<'t>,
    all: &'t [Expr],
    between: &'static str,
) -> Result<(), Memory> {
    let mut before = "";
    for one in all {
        parts.extend_from_slice(&[Part::Sign(before), expr(one)])?;
        before = between;
    }
    Ok(())
}

pub fn locals<'t>(parts: &mut Parts<'t>, all: &'t [LocalName]) -> Result<(), Memory> {
    let mut before = "";
    for one in all {
        parts.extend_from_slice(&[Part::Sign(before), local(one)])?;
        before = ", ";
    }
    Ok(())
}

pub fn types<'t>(parts: &mut Parts<'t>, all: &'t [Type]) -> Result<(), Memory> {
    let mut before = "";
    for one in all {
        parts.extend_from_slice(&[Part::Sign(before), type_(one)])?;
        before = ", ";
    }
    Ok(())
}

fn type_argument_list<'t>(parts: &mut Parts<'t>, all: &'t [TypeArg]) -> Result<(), Memory> {
    let mut before = "<";
    for one in all {
        parts.extend_from_slice(&[Part::Sign(before), Part::Node(Node::TypeArg(one))])?;
        before = ", ";
    }
    parts.push(Part::Sign(">"))?;
    Ok(())
}

/// Type arguments in angle brackets, where there are some.
pub fn type_arguments<'t>(
    parts: &mut Parts<'t>,
    before: &'static str,
    all: &'t [TypeArg],
) -> Result<(), Memory> {
    if all.is_empty() {
        return Ok(());
    }
    parts.push(Part::Sign(before))?;
    type_argument_list(parts, all)
}

/// Words with dots between them.
pub fn dotted(parts: &mut Parts<'_>, all: &[Word]) -> Result<(), Memory> {
    let mut before = "";
    for one in all {
        parts.extend_from_slice(&[Part::Sign(before), Part::Name(one.name)])?;
        before = ".";
    }
    Ok(())
}

/// Arguments, each behind a space.
pub fn args<'t>(parts: &mut Parts<'t>, all: &'t [Arg]) -> Result<(), Memory> {
    for one in all {
        parts.extend_from_slice(&[Part::Sign(" "), Part::Node(Node::Arg(one))])?;
    }
    Ok(())
}

pub fn conds<'t>(parts: &mut Parts<'t>, all: &'t [Cond]) -> Result<(), Memory> {
    for one in all {
        parts.extend_from_slice(&[Part::Node(Node::Cond(one)), Part::Sign(" ")])?;
    }
    Ok(())
}

pub fn branches<'t>(parts: &mut Parts<'t>, all: &'t [Branch]) -> Result<(), Memory> {
    for one in all {
        parts.extend_from_slice(&[Part::Sign(" "), Part::Node(Node::Branch(one))])?;
    }
    Ok(())
}

pub fn catches<'t>(parts: &mut Parts<'t>, all: &'t [CatchPart]) -> Result<(), Memory> {
    for one in all {
        parts.extend_from_slice(&[Part::Sign(" "), Part::Node(Node::Catch(one))])?;
    }
    Ok(())
}

pub fn pieces<'t>(parts: &mut Parts<'t>, all: &'t [Piece]) -> Result<(), Memory> {
    for one in all {
        parts.extend_from_slice(&[Part::Sign(" "), Part::Node(Node::Piece(one))])?;
    }
    Ok(())
}
