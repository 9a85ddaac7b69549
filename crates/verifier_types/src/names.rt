//! What the names of a class mean (Java Virtual Machine Specification SE 8, 5.4.3.3).
ghost use Rattle.std.specs.Prelude.{◌≡◌, ◌∷◌, ◌+◌, ◌<◌, ◌||◌, true, false, nat_eq, position, length, not, suc, ◌==◌, ◌&&◌};
ghost use Rattle.std.specs.Option.{option_map, option_copied};
ghost use Rattle.std.specs.List.{list_any};
ghost use Rattle.class_file.specs.Pools.{is_text};
ghost use Rattle.class_file.specs.Classes.{class_number, superclass, class_at, class_count, chain, chain_up_to, own_method, first_method, element_of_class, without_last, array_name, named_type, owner_number, is_special_name, is_static_flag};
ghost use Rattle.class_file.specs.Descriptors.{is_array_name};
ghost use Rattle.class_file.specs.Members.{reference_below, is_interface_view, is_root, is_member, is_there, element_below, has_static};
ghost use Rattle.verifier_types.specs.Names.{element_seen};

use crate::built_ins::{
    BUILT_IN_COUNT, built_in_number, built_in_superclass, has_built_in_static,
    is_built_in_interface,
};
use crate::descriptors::is_field_descriptor;
use crate::named_set::NamedSet;
use class_file::class::ClassFile;

/// The number of the class of this name.
pub fn class_number(set: &NamedSet, name: &[u16]) -> Option<usize>
    ensures { result ≡ class_number set.now name.now }
{
    if let Some(number) = built_in_number(name) {
        return Some(number);
    }
    let place = set.place(name)?;
    Some(BUILT_IN_COUNT + place)
}

fn superclass(set: &NamedSet, number: usize) -> Option<usize>
    ensures { result ≡ superclass set.now number }
{
    if number < BUILT_IN_COUNT {
        return built_in_superclass(set, number);
    }
    match set.get(number - BUILT_IN_COUNT) {
        None => None,
        Some(class) => class_number(set, class.super_name.units()),
    }
}

fn is_interface(set: &NamedSet, number: usize) -> bool
    ensures { result ≡ is_interface_view (class_at set.now number) }
{
    if number < BUILT_IN_COUNT {
        return is_built_in_interface(set, number);
    }
    match set.get(number - BUILT_IN_COUNT) {
        None => false,
        Some(class) => class.flags & 512 != 0,
    }
}

fn is_root(set: &NamedSet, number: usize) -> bool
    ensures { result ≡ is_root set.now number }
{
    number == 0 || is_interface(set, number)
}

// How long a chain of superclasses may be.
fn chain_bound(set: &NamedSet) -> usize
    ensures { result ≡ suc (class_count set.now) }
{
    BUILT_IN_COUNT + set.count() + 1
}

// Is a class another one or a superclass of it, at most so many steps away?
fn is_in_chain(set: &NamedSet, steps: usize, wanted: usize, from: usize) -> bool
    ensures { result ≡ is_member wanted (chain_up_to steps set.now from) }
{
    if steps == 0 {
        return false;
    }
    if from == wanted {
        return true;
    }
    match superclass(set, from) {
        None => false,
        Some(above) => is_in_chain(set, steps - 1, wanted, above),
    }
}

/// A class, or with dimensions an array of it.
#[derive(Clone, Copy)]
pub struct NamedType {
    pub class: usize,
    pub dimensions: usize,
}

fn of_class(class: Option<usize>, dimensions: usize) -> Option<NamedType>
    ensures { option_map element_seen result ≡ element_of_class class dimensions }
{
    match class {
        None => None,
        Some(class) => Some(NamedType { class, dimensions }),
    }
}

fn without_last(units: &[u16]) -> &[u16]
    ensures { result.now ≡ without_last units.now }
{
    match units {
        [] => units,
        [front @ .., _] => front,
    }
}

// How many `[` stand before something else.
fn dimensions(units: &[u16]) -> Option<usize>
    ensures { result ≡ position (λ u. not (u == 91)) units.now }
{
    units.iter().position(|unit| *unit != 91)
}

// The class whose name stands behind brackets, with `L` before it and one unit behind it.
fn array_named(set: &NamedSet, name: &[u16]) -> Option<NamedType>
    ensures { option_map element_seen result ≡ array_name set.now 0 name.now }
{
    match dimensions(name) {
        None => None,
        Some(count) => of_class(class_number(set, without_last(&name[count + 1..])), count),
    }
}

/// Is it the descriptor of an array, which stands for its name?
pub fn is_array_name(name: &[u16]) -> bool
    ensures { result ≡ is_array_name name.now }
{
    match name {
        [] => false,
        [first, ..] => *first == 91,
    }
}

/// What a Class entry's name stands for.
fn named_type(set: &NamedSet, name: &[u16]) -> Option<NamedType>
    ensures { option_map element_seen result ≡ named_type set.now name.now }
{
    if !is_array_name(name) {
        return of_class(class_number(set, name), 0);
    }
    if !is_field_descriptor(name) {
        return None;
    }
    array_named(set, name)
}

fn element_below(set: &NamedSet, b: NamedType, c: NamedType) -> bool
    ensures { result ≡ element_below set.now b.class b.dimensions c.class c.dimensions }
{
    if b.dimensions < c.dimensions {
        return false;
    }
    if is_root(set, c.class) {
        return true;
    }
    b.dimensions == c.dimensions && is_in_chain(set, chain_bound(set), c.class, b.class)
}

/// Is what the first name names below what the second names?
pub fn reference_below(set: &NamedSet, b: &[u16], c: &[u16]) -> bool
    ensures { result ≡ reference_below set.now b.now c.now }
{
    if b == c {
        return true;
    }
    match (named_type(set, b), named_type(set, c)) {
        (Some(b), Some(c)) => element_below(set, b, c),
        (None, _) => false,
        (Some(_), None) => false,
    }
}

fn has_own_static(set: &NamedSet, number: usize, name: &[u16], descriptor: &[u16]) -> bool
    ensures { result ≡ is_there (own_method set.now true name.now descriptor.now number) }
{
    if number < BUILT_IN_COUNT {
        return has_built_in_static(set, number, name, descriptor);
    }
    match set.statics(number - BUILT_IN_COUNT) {
        None => false,
        Some(statics) => statics.place(name, descriptor).is_some(),
    }
}

// Has a class or a superclass, at most so many steps away, this static method?
fn has_chain_static(
    set: &NamedSet,
    steps: usize,
    name: &[u16],
    descriptor: &[u16],
    from: usize,
) -> bool
    ensures { result ≡ is_there (first_method set.now true name.now descriptor.now (chain_up_to steps set.now from)) }
{
    if steps == 0 {
        return false;
    }
    if has_own_static(set, from, name, descriptor) {
        return true;
    }
    match superclass(set, from) {
        None => false,
        Some(above) => has_chain_static(set, steps - 1, name, descriptor, above),
    }
}

/// Is it the name of constructors or of the static initializer (4.3.4, 2.9)?
pub fn is_special_name(name: &[u16]) -> bool
    ensures { result ≡ is_special_name name.now }
{
    match name {
        [] => false,
        [first, ..] => *first == 60,
    }
}

// The class in which a method of this name is looked for.
fn owner_number(set: &NamedSet, owner: &[u16], name: &[u16]) -> Option<usize>
    ensures { result ≡ owner_number set.now owner.now name.now }
{
    if !is_array_name(owner) {
        return class_number(set, owner);
    }
    if is_special_name(name) { None } else { Some(0) }
}

/// Does a name in a class, or in an interface, name a static method?
pub fn has_static(
    set: &NamedSet,
    of_interface: bool,
    owner: &[u16],
    name: &[u16],
    descriptor: &[u16],
) -> bool
    ensures { result ≡ has_static set.now of_interface (record { owner = owner.now; name = name.now; descriptor = descriptor.now }) (owner_number set.now owner.now name.now) }
{
    let Some(number) = owner_number(set, owner, name) else {
        return false;
    };
    if is_interface(set, number) != of_interface {
        return false;
    }
    !is_special_name(name) && has_chain_static(set, chain_bound(set), name, descriptor, number)
}
