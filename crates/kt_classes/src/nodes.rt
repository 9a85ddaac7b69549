//! Nodes of classes, each from its parts.
ghost use Rattle.std.specs.Prelude.{◌≡◌, []};
ghost use Rattle.kt_classes.specs.Bodies as bodies;
ghost use Rattle.kt_classes.specs.Classes as spec;

use kc_tree::{Class, ClassForm, ClassParam, Constant, Member, Super, TypeParam, Word};
use sqlite_items::Items;
use std::alloc::Global;

/// What may stand in the braces behind a class.
#[derive(Clone, Copy)]
pub enum BodyForm {
    /// Constants first.
    Enum,
    Class,
    Interface,
}

/// What stands in the braces behind a class.
#[derive(Drop)]
pub struct BodyParts {
    pub constants: Items<Constant>,
    pub members: Items<Member>,
}

/// What a class has from its supertypes on.
#[derive(Drop)]
pub struct Heritage {
    pub supers: Items<Super>,
    pub body: BodyParts,
}

/// What a class has from its primary constructor on.
#[derive(Drop)]
pub struct Constructed {
    pub primary: Option<Items<ClassParam>>,
    pub heritage: Heritage,
}

/// What a class has behind its name.
#[derive(Drop)]
pub struct Generic {
    pub params: Items<TypeParam>,
    pub constructed: Constructed,
}

/// What an interface has behind its name.
#[derive(Drop)]
pub struct Inherited {
    pub params: Items<TypeParam>,
    pub heritage: Heritage,
}

/// The body of a class that is no enum.
pub fn plain_parts(alloc: Global, members: Items<Member>) -> BodyParts
    ensures { result ≡ bodies.body_with [] members }
{
    BodyParts {
        constants: Items::new(alloc),
        members,
    }
}

/// A class from its name and what stands behind it.
pub fn class_node(name: Word, parts: Generic) -> Class
    ensures { result ≡ spec.class_with name parts }
{
    let Generic {
        params,
        constructed,
    } = parts;
    let Constructed { primary, heritage } = constructed;
    let Heritage { supers, body } = heritage;
    let BodyParts { constants, members } = body;
    Class {
        form: ClassForm::Class,
        name,
        params,
        primary,
        supers,
        constants,
        members,
    }
}

/// An interface from its name and what stands behind it.
pub fn interface_node(name: Word, parts: Inherited) -> Class
    ensures { result ≡ spec.interface_with name parts }
{
    let Inherited { params, heritage } = parts;
    let Heritage { supers, body } = heritage;
    let BodyParts { constants, members } = body;
    Class {
        form: ClassForm::Interface,
        name,
        params,
        primary: None,
        supers,
        constants,
        members,
    }
}

/// An object from its name and what stands behind it.
pub fn object_node(alloc: Global, name: Word, heritage: Heritage) -> Class
    ensures { result ≡ spec.object_with name heritage }
{
    let Heritage { supers, body } = heritage;
    let BodyParts { constants, members } = body;
    Class {
        form: ClassForm::Object,
        name,
        params: Items::new(alloc),
        primary: None,
        supers,
        constants,
        members,
    }
}
