//! Files.

use crate::classes::class;
use crate::functions::{function, modifiers};
use crate::properties::property;
use kc_text::{Memory, Names};
use kc_tree::{Decl, DeclKind, File, Import, Word};
use kt_readings::{Parts, choice, dotted, line_of_parts, sign};
use std::alloc::Global;

/// A space, where something stands before it.
fn space(parts: &mut Parts<'_>) -> Result<(), Memory> {
    sign(parts, choice(parts.is_empty(), "", " "))
}

fn package_name(parts: &mut Parts<'_>, words: &[Word]) -> Result<(), Memory> {
    if words.is_empty() {
        return Ok(());
    }
    sign(parts, "(package ")?;
    dotted(parts, words)?;
    sign(parts, ")")
}

fn import(parts: &mut Parts<'_>, of: &Import) -> Result<(), Memory> {
    space(parts)?;
    sign(parts, "(import ")?;
    dotted(parts, of.path.as_slice())?;
    sign(parts, choice(of.star, ".*)", ")"))
}

fn imports(parts: &mut Parts<'_>, all: &[Import]) -> Result<(), Memory> {
    for one in all {
        import(parts, one)?;
    }
    Ok(())
}

fn declaration_kind<'t>(parts: &mut Parts<'t>, of: &'t DeclKind) -> Result<(), Memory> {
    match of {
        DeclKind::Class(of) => class(parts, of),
        DeclKind::Fun(of) => function(parts, of),
        DeclKind::Prop(of) => property(parts, of),
    }
}

fn declaration<'t>(parts: &mut Parts<'t>, of: &'t Decl) -> Result<(), Memory> {
    space(parts)?;
    sign(parts, "(")?;
    modifiers(parts, of.mods.as_slice())?;
    declaration_kind(parts, &of.kind)?;
    sign(parts, ")")
}

fn declarations<'t>(parts: &mut Parts<'t>, all: &'t [Decl]) -> Result<(), Memory> {
    for one in all {
        declaration(parts, one)?;
    }
    Ok(())
}

/// A file as a line: its package, its imports and its declarations, each in brackets; `()` where it has none. Want of memory is also
/// what nests deeper than 500.
pub fn line_of_file(alloc: Global, names: &Names, of: &File) -> Result<String, Memory> {
    let mut parts = Vec::new(alloc);
    package_name(&mut parts, of.package.as_slice())?;
    imports(&mut parts, of.imports.as_slice())?;
    declarations(&mut parts, of.decls.as_slice())?;
    if parts.is_empty() {
        sign(&mut parts, "()")?;
    }
    line_of_parts(alloc, names, parts.as_slice())
}
