//! Nodes of members, each from its parts.
ghost use Rattle.std.specs.Prelude.{◌≡◌, []};
ghost use Rattle.kc_tree.specs.declared.decl.MemberKind.TheVariants as kinds;
ghost use Rattle.kt_members.specs.Properties as properties;
ghost use Rattle.kt_members.specs.Setters as setters;

use crate::getters::AccessorPair;
use crate::modified::Modified;
use kc_tree::{Expr, FunBody, Member, MemberKind, Prop, Setter, Span, Type, Word};
use sqlite_items::Items;
use std::alloc::Global;

/// A setter that stands at `span`.
pub fn setter_with(span: Span, name: Word, body: Option<FunBody>) -> Option<Setter>
    ensures { result ≡ setters.setter_with span name body }
{
    match body {
        Some(body) => Some(Setter { span, name, body }),
        None => None,
    }
}

/// A property with nothing behind its type.
pub fn bare(is_var: bool, name: Word, ty: Option<Type>) -> Prop
    ensures { result ≡ properties.bare is_var name ty }
{
    Prop {
        is_var,
        name,
        ty,
        value: None,
        getter: None,
        setter: None,
    }
}

/// A property with a value.
pub fn with_value(is_var: bool, name: Word, ty: Option<Type>, value: Expr) -> Prop
    ensures { result ≡ properties.with_value is_var name ty value }
{
    Prop {
        is_var,
        name,
        ty,
        value: Some(value),
        getter: None,
        setter: None,
    }
}

/// A property with a getter and perhaps a setter.
pub fn with_accessors(is_var: bool, name: Word, ty: Option<Type>, accessors: AccessorPair) -> Prop
    ensures { result ≡ properties.with_accessors is_var name ty accessors }
{
    let AccessorPair { getter, setter } = accessors;
    Prop {
        is_var,
        name,
        ty,
        value: None,
        getter,
        setter,
    }
}

/// A function or a property as a member that stands at `span`, with its modifiers.
pub fn modified_member_at(span: Span, of: Modified) -> Member
    ensures { result ≡ record { span = span; mods = of.mods; kind = of.kind } }
{
    let Modified { mods, kind } = of;
    Member { span, mods, kind }
}

/// An `init` block that stands at `span`.
pub fn init_member(alloc: Global, span: Span, statements: Items<Expr>) -> Member
    ensures { result ≡ record { span = span; mods = []; kind = kinds.Init statements } }
{
    Member {
        span,
        mods: Items::new(alloc),
        kind: MemberKind::Init(statements),
    }
}
