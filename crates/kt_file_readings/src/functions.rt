//! Functions, and what classes and properties share with them.

use kc_text::Memory;
use kc_tree::{Expr, Fun, FunBody, Mod, ModKind, Param, Type, TypeParam};
use kt_readings::{Part, Parts, around, block, colon_type, expr, sign, type_};

fn parameter_word(kind: ModKind) -> &'static str {
    match kind {
        ModKind::Vararg => "vararg ",
        ModKind::Noinline => "noinline ",
        ModKind::Crossinline => "crossinline ",
        ModKind::Reified => "reified ",
        ModKind::Out => "out ",
        ModKind::In => "in ",
        _ => "? ",
    }
}

fn function_word(kind: ModKind) -> &'static str {
    match kind {
        ModKind::Override => "override ",
        ModKind::Operator => "operator ",
        ModKind::Infix => "infix ",
        ModKind::Inline => "inline ",
        ModKind::Const => "const ",
        _ => parameter_word(kind),
    }
}

fn word(kind: ModKind) -> &'static str {
    match kind {
        ModKind::Public => "public ",
        ModKind::Internal => "internal ",
        ModKind::Private => "private ",
        ModKind::Final => "final ",
        ModKind::Open => "open ",
        ModKind::Abstract => "abstract ",
        ModKind::Sealed => "sealed ",
        ModKind::Data => "data ",
        ModKind::Enum => "enum ",
        _ => function_word(kind),
    }
}

/// Modifiers, each before a space.
pub fn modifiers(parts: &mut Parts<'_>, all: &[Mod]) -> Result<(), Memory> {
    for one in all {
        sign(parts, word(one.kind))?;
    }
    Ok(())
}

fn type_parameter<'t>(parts: &mut Parts<'t>, of: &'t TypeParam) -> Result<(), Memory> {
    modifiers(parts, of.mods.as_slice())?;
    parts.push(Part::Name(of.name.name))?;
    colon_type(parts, &of.bound)
}

fn type_parameter_list<'t>(parts: &mut Parts<'t>, all: &'t [TypeParam]) -> Result<(), Memory> {
    let mut before = "<";
    for one in all {
        sign(parts, before)?;
        type_parameter(parts, one)?;
        before = ", ";
    }
    Ok(())
}

/// Type parameters in angle brackets and a sign behind them, where there are some.
pub fn type_parameters<'t>(
    parts: &mut Parts<'t>,
    all: &'t [TypeParam],
    after: &'static str,
) -> Result<(), Memory> {
    if all.is_empty() {
        return Ok(());
    }
    type_parameter_list(parts, all)?;
    sign(parts, after)
}

/// A value behind `=`, where there is one.
pub fn value<'t>(parts: &mut Parts<'t>, of: &'t Option<Expr>) -> Result<(), Memory> {
    match of {
        Some(value) => around(parts, " = ", expr(value), ""),
        None => Ok(()),
    }
}

/// A body behind a space: statements, or `=` and an expression.
pub fn body<'t>(parts: &mut Parts<'t>, of: &'t FunBody) -> Result<(), Memory> {
    match of {
        FunBody::Block(all) => block(parts, " [", all.as_slice(), "]"),
        FunBody::Expr(value) => around(parts, " = ", expr(value), ""),
    }
}

fn parameter<'t>(parts: &mut Parts<'t>, of: &'t Param) -> Result<(), Memory> {
    modifiers(parts, of.mods.as_slice())?;
    around(parts, "", Part::Name(of.name.name), ": ")?;
    parts.push(type_(&of.ty))?;
    value(parts, &of.default)
}

fn parameters<'t>(parts: &mut Parts<'t>, all: &'t [Param]) -> Result<(), Memory> {
    let mut before = "";
    for one in all {
        sign(parts, before)?;
        parameter(parts, one)?;
        before = ", ";
    }
    Ok(())
}

fn receiver<'t>(parts: &mut Parts<'t>, of: &'t Option<Type>) -> Result<(), Memory> {
    match of {
        Some(ty) => around(parts, "", type_(ty), "."),
        None => Ok(()),
    }
}

fn function_head<'t>(parts: &mut Parts<'t>, of: &'t Fun) -> Result<(), Memory> {
    sign(parts, "fun ")?;
    type_parameters(parts, of.params.as_slice(), "> ")?;
    receiver(parts, &of.receiver)?;
    around(parts, "", Part::Name(of.name.name), "(")
}

fn function_end<'t>(parts: &mut Parts<'t>, of: &'t Fun) -> Result<(), Memory> {
    sign(parts, ")")?;
    colon_type(parts, &of.result)?;
    match &of.body {
        Some(written) => body(parts, written),
        None => Ok(()),
    }
}

/// A function without its modifiers.
pub fn function<'t>(parts: &mut Parts<'t>, of: &'t Fun) -> Result<(), Memory> {
    function_head(parts, of)?;
    parameters(parts, of.values.as_slice())?;
    function_end(parts, of)
}
