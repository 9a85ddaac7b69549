//! Classes, interfaces, objects and their members.

use crate::functions::{function, modifiers, type_parameters, value};
use crate::properties::property;
use kc_text::Memory;
use kc_tree::{Arg, Class, ClassForm, ClassParam, Constant, Member, MemberKind, Super};
use kt_readings::{Part, Parts, args, around, block, choice, sign, type_};
use sqlite_items::Items;

fn form_word(form: ClassForm) -> &'static str {
    match form {
        ClassForm::Class => "class ",
        ClassForm::Interface => "interface ",
        ClassForm::Object => "object ",
    }
}

fn variable_word(of: &ClassParam) -> &'static str {
    if of.is_val {
        return "val ";
    }
    choice(of.is_var, "var ", "")
}

fn parameter<'t>(parts: &mut Parts<'t>, of: &'t ClassParam) -> Result<(), Memory> {
    modifiers(parts, of.mods.as_slice())?;
    around(parts, variable_word(of), Part::Name(of.name.name), ": ")?;
    parts.push(type_(&of.ty))?;
    value(parts, &of.default)
}

fn parameters<'t>(parts: &mut Parts<'t>, all: &'t [ClassParam]) -> Result<(), Memory> {
    let mut before = "";
    for one in all {
        sign(parts, before)?;
        parameter(parts, one)?;
        before = ", ";
    }
    Ok(())
}

fn primary<'t>(parts: &mut Parts<'t>, of: &'t Option<Items<ClassParam>>) -> Result<(), Memory> {
    let Some(all) = of else {
        return Ok(());
    };
    sign(parts, "(")?;
    parameters(parts, all.as_slice())?;
    sign(parts, ")")
}

/// What stands alone, or in brackets with its arguments.
fn with_arguments<'t>(
    parts: &mut Parts<'t>,
    first: Part<'t>,
    of: &'t Option<Items<Arg>>,
) -> Result<(), Memory> {
    let Some(all) = of else {
        return around(parts, "", first, "");
    };
    around(parts, "(", first, "")?;
    args(parts, all.as_slice())?;
    sign(parts, ")")
}

fn supers<'t>(parts: &mut Parts<'t>, all: &'t [Super]) -> Result<(), Memory> {
    let mut before = " : ";
    for one in all {
        sign(parts, before)?;
        with_arguments(parts, type_(&one.ty), &one.args)?;
        before = ", ";
    }
    Ok(())
}

fn constant_list<'t>(parts: &mut Parts<'t>, all: &'t [Constant]) -> Result<(), Memory> {
    let mut before = " {";
    for one in all {
        sign(parts, before)?;
        with_arguments(parts, Part::Name(one.name.name), &one.args)?;
        before = ", ";
    }
    Ok(())
}

fn constants<'t>(parts: &mut Parts<'t>, all: &'t [Constant]) -> Result<(), Memory> {
    constant_list(parts, all)?;
    sign(parts, choice(all.is_empty(), "", "}"))
}

fn member_kind<'t>(parts: &mut Parts<'t>, of: &'t MemberKind) -> Result<(), Memory> {
    match of {
        MemberKind::Fun(of) => function(parts, of),
        MemberKind::Prop(of) => property(parts, of),
        MemberKind::Init(all) => block(parts, "init [", all.as_slice(), "]"),
    }
}

fn member<'t>(parts: &mut Parts<'t>, of: &'t Member) -> Result<(), Memory> {
    sign(parts, " (")?;
    modifiers(parts, of.mods.as_slice())?;
    member_kind(parts, &of.kind)?;
    sign(parts, ")")
}

fn members<'t>(parts: &mut Parts<'t>, all: &'t [Member]) -> Result<(), Memory> {
    for one in all {
        member(parts, one)?;
    }
    Ok(())
}

fn head<'t>(parts: &mut Parts<'t>, of: &'t Class) -> Result<(), Memory> {
    around(parts, form_word(of.form), Part::Name(of.name.name), "")?;
    type_parameters(parts, of.params.as_slice(), ">")?;
    primary(parts, &of.primary)?;
    supers(parts, of.supers.as_slice())
}

/// A class without its modifiers: its constants in braces, and its members in brackets.
pub fn class<'t>(parts: &mut Parts<'t>, of: &'t Class) -> Result<(), Memory> {
    head(parts, of)?;
    constants(parts, of.constants.as_slice())?;
    members(parts, of.members.as_slice())
}
