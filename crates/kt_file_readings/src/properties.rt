//! Properties.

use crate::functions::{body, value};
use kc_text::Memory;
use kc_tree::{Getter, Prop, Setter};
use kt_readings::{Part, Parts, around, choice, colon_type, sign};

fn getter<'t>(parts: &mut Parts<'t>, of: &'t Getter) -> Result<(), Memory> {
    sign(parts, " (get")?;
    colon_type(parts, &of.ty)?;
    body(parts, &of.body)?;
    sign(parts, ")")
}

fn setter<'t>(parts: &mut Parts<'t>, of: &'t Setter) -> Result<(), Memory> {
    around(parts, " (set ", Part::Name(of.name.name), "")?;
    body(parts, &of.body)?;
    sign(parts, ")")
}

fn getters<'t>(parts: &mut Parts<'t>, of: &'t Option<Getter>) -> Result<(), Memory> {
    match of {
        Some(written) => getter(parts, written),
        None => Ok(()),
    }
}

fn setters<'t>(parts: &mut Parts<'t>, of: &'t Option<Setter>) -> Result<(), Memory> {
    match of {
        Some(written) => setter(parts, written),
        None => Ok(()),
    }
}

/// A property without its modifiers.
pub fn property<'t>(parts: &mut Parts<'t>, of: &'t Prop) -> Result<(), Memory> {
    around(
        parts,
        choice(of.is_var, "var ", "val "),
        Part::Name(of.name.name),
        "",
    )?;
    colon_type(parts, &of.ty)?;
    value(parts, &of.value)?;
    getters(parts, &of.getter)?;
    setters(parts, &of.setter)
}
