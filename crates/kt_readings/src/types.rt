//! Types, and names with types.

use crate::lists::{dotted, type_arguments, types};
use crate::parts::{Part, Parts, around, sign, type_};
use kc_text::Memory;
use kc_tree::{LocalName, Type, TypeArg, TypeArgKind, TypeKind, Word};

fn named_type<'t>(
    parts: &mut Parts<'t>,
    words: &[Word],
    args: &'t [TypeArg],
) -> Result<(), Memory> {
    dotted(parts, words)?;
    type_arguments(parts, "", args)
}

fn function_type<'t>(
    parts: &mut Parts<'t>,
    params: &'t [Type],
    answer: &'t Type,
) -> Result<(), Memory> {
    sign(parts, "((")?;
    types(parts, params)?;
    around(parts, ") -> ", type_(answer), ")")
}

/// A type; brackets stand round a function type alone.
pub fn type_parts<'t>(parts: &mut Parts<'t>, of: &'t Type) -> Result<(), Memory> {
    match &of.kind {
        TypeKind::Named(words, args) => named_type(parts, words.as_slice(), args.as_slice()),
        TypeKind::Fun(params, answer) => function_type(parts, params.as_slice(), answer.get()),
        TypeKind::Nullable(inner) => around(parts, "", type_(inner.get()), "?"),
    }
}

pub fn type_argument_parts<'t>(parts: &mut Parts<'t>, of: &'t TypeArg) -> Result<(), Memory> {
    match &of.kind {
        TypeArgKind::Star => sign(parts, "*"),
        TypeArgKind::Exact(ty) => around(parts, "", type_(ty), ""),
        TypeArgKind::Out(ty) => around(parts, "out ", type_(ty), ""),
        TypeArgKind::In(ty) => around(parts, "in ", type_(ty), ""),
    }
}

/// A type behind `:`, where one is written.
pub fn colon_type<'t>(parts: &mut Parts<'t>, ty: &'t Option<Type>) -> Result<(), Memory> {
    match ty {
        Some(ty) => around(parts, ": ", type_(ty), ""),
        None => Ok(()),
    }
}

/// A name with its type, where one is written.
pub fn local_parts<'t>(parts: &mut Parts<'t>, of: &'t LocalName) -> Result<(), Memory> {
    parts.push(Part::Name(of.name.name))?;
    colon_type(parts, &of.ty)
}
