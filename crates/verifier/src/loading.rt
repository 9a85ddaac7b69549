//! Which sets are loaded: what is looked at, beside the instructions, before a set runs.
ghost use Rattle.std.specs.Prelude.{◌≡◌, true, IfOk, length, codes, nat_le};
ghost use Rattle.std.specs.List.{list_all};
ghost use Rattle.class_file.specs.Classes.{class_named};
ghost use Rattle.class_file.specs.Lots.{static_named};
ghost use Rattle.class_soundness.specs.Soundness.{IsLoaded};
ghost use Rattle.verifier.specs.Whole.{is_reserved, method_is_whole, class_is_whole, is_whole, has_code_at, main_in, main_is_own, rank_of, is_higher, are_higher, are_ranked, set_is_whole};

use class_file::class::{ClassFile, Method, Set};
use class_soundness::whole_sets_are_loaded;
use kc_text::{Memory, Text};
use std::alloc::Global;
use verifier_types::{NamedSet, is_array_name};

// ACC_STATIC, ACC_INTERFACE and ACC_ABSTRACT (Java Virtual Machine Specification SE 8, 4.1 and 4.6).
const STATIC: u16 = 0x0008;

const INTERFACE: u16 = 0x0200;

const ABSTRACT: u16 = 0x0400;

/// Is the name of a package that is kept for the run-time system's classes? None of these has another name.
pub fn is_reserved(alloc: Global, name: &Text) -> Result<bool, Memory>
    ensures { IfOk result (λ reserved. reserved ≡ is_reserved name.now) }
{
    let java = Text::from_str(alloc, "java/")?;
    let system = Text::from_str(alloc, "kprof/")?;
    let kotlin = Text::from_str(alloc, "kotlin/")?;
    let name = name.units();
    Ok(
        name.starts_with(java.units())
            || (name.starts_with(system.units()) || name.starts_with(kotlin.units())),
    )
}

// ---- one class

fn is_whole_method(method: &Method, initialiser: &Text) -> bool
    ensures { result ≡ method_is_whole initialiser.now method.now }
{
    if method.flags & ABSTRACT != 0 {
        !(method.name == *initialiser)
    } else {
        !(method.code.len() == 0)
    }
}

fn are_whole_methods(methods: &[Method], initialiser: &Text) -> bool
    ensures { result ≡ list_all (method_is_whole initialiser.now) methods.now }
{
    methods
        .iter()
        .all(|method| is_whole_method(method, initialiser))
}

fn is_whole(class: &ClassFile, initialiser: &Text, object: &Text) -> bool
    ensures { result ≡ class_is_whole initialiser.now object.now class.now }
{
    !is_array_name(class.this_name.units())
        && ((!(class.flags & INTERFACE != 0) || class.super_name == *object)
            && are_whole_methods(class.methods.as_slice(), initialiser))
}

fn are_whole_classes(classes: &[ClassFile], initialiser: &Text, object: &Text) -> bool
    ensures { result ≡ list_all (class_is_whole initialiser.now object.now) classes.now }
{
    classes
        .iter()
        .all(|class| is_whole(class, initialiser, object))
}

fn are_whole(alloc: Global, classes: &[ClassFile]) -> Result<bool, Memory>
    ensures { IfOk result (λ whole. whole ≡ list_all is_whole classes.now) }
{
    let initialiser = Text::from_str(alloc, "<clinit>")?;
    let object = Text::from_str(alloc, "java/lang/Object")?;
    Ok(are_whole_classes(classes, &initialiser, &object))
}

// ---- main

/// The place of the first static method of this name and descriptor.
pub fn static_named(name: &Text, descriptor: &Text, methods: &[Method]) -> Option<usize>
    ensures { result ≡ static_named name.now descriptor.now methods.now }
{
    methods.iter().position(|method| method.flags & STATIC != 0
        && (method.name == *name && method.descriptor == *descriptor))
}

/// Does a method with code stand at this place?
pub fn has_code_at(methods: &[Method], place: Option<usize>) -> bool
    ensures { result ≡ has_code_at methods.now place }
{
    let Some(place) = place else {
        return false;
    };
    match methods.get(place) {
        Some(method) => !(method.flags & ABSTRACT != 0),
        None => false,
    }
}

fn has_main(alloc: Global, class: &ClassFile) -> Result<bool, Memory>
    ensures { IfOk result (λ has. has ≡ has_code_at class.now.methods (static_named (codes "main") (codes "()V") class.now.methods)) }
{
    let name = Text::from_str(alloc, "main")?;
    let descriptor = Text::from_str(alloc, "()V")?;
    let methods = class.methods.as_slice();
    Ok(has_code_at(methods, static_named(&name, &descriptor, methods)))
}

fn main_is_own(alloc: Global, set: &NamedSet) -> Result<bool, Memory>
    ensures { IfOk result (λ own. own ≡ main_is_own set.now) }
{
    let main = &set.as_set().main;
    if is_reserved(alloc, main)? {
        return Ok(false);
    }
    let Some(place) = set.place(main.units()) else {
        return Ok(false);
    };
    match set.get(place) {
        Some(class) => has_main(alloc, class),
        None => Ok(false),
    }
}

// ---- superclasses

fn rank_of(ranks: &[usize], class: usize) -> usize
    ensures { result ≡ rank_of ranks.now class }
{
    match ranks.get(class) {
        Some(rank) => *rank,
        None => 0,
    }
}

fn is_higher(ranks: &[usize], class: usize, above: Option<usize>) -> bool
    ensures { result ≡ is_higher ranks.now class above }
{
    match above {
        Some(above) => rank_of(ranks, above) < rank_of(ranks, class),
        None => true,
    }
}

// Does a class rank above its superclass, if that is of the set?
fn stands_higher(set: &NamedSet, ranks: &[usize], place: usize, class: &ClassFile) -> bool
    ensures { result ≡ is_higher ranks.now place (class_named class.now.super_name set.now.classes) }
{
    is_higher(ranks, place, set.place(class.super_name.units()))
}

fn are_higher(set: &NamedSet, ranks: &[usize]) -> bool
    ensures { result ≡ are_higher set.now ranks.now 0 set.now.classes }
{
    let classes = set.as_set().classes.as_slice();
    for (place, class) in classes.iter().enumerate() {
        if !stands_higher(set, ranks, place, class) {
            return false;
        }
    }
    true
}

fn are_few(ranks: &[usize], count: usize) -> bool
    ensures { result ≡ list_all (λ rank. nat_le rank count) ranks.now }
{
    ranks.iter().all(|rank| *rank <= count)
}

fn are_ranked(set: &NamedSet, ranks: &[usize]) -> bool
    ensures { result ≡ are_ranked set.now ranks.now }
{
    are_higher(set, ranks) && are_few(ranks, set.count())
}

// No class has a rank yet.
fn unranked(alloc: Global, count: usize) -> Result<Vec<usize>, Memory> {
    let mut ranks = Vec::new(alloc);
    for _ in 0..count {
        ranks.push(0)?;
    }
    Ok(ranks)
}

// The place of a class's superclass, if that is of the set.
fn place_above(set: &NamedSet, class: usize) -> Option<usize> {
    let file = set.get(class)?;
    set.place(file.super_name.units())
}

// Classes on the way up, from a class that has no rank yet.
#[derive(Clone, Copy)]
struct Way {
    unranked: usize,
    rank: usize,
}

// How many classes there are, from a class on up, before the first with a rank, and that rank; 0 if there is none. A class that is
// above itself ends the way by the number of classes.
fn way_up(set: &NamedSet, ranks: &[usize], class: usize) -> Way {
    let mut at = class;
    for unranked in 0..set.count() {
        let rank = rank_of(ranks, at);
        if rank != 0 {
            return Way { unranked, rank };
        }
        match place_above(set, at) {
            Some(above) => at = above,
            None => {
                return Way {
                    unranked: unranked.saturating_add(1),
                    rank,
                };
            }
        }
    }
    Way {
        unranked: set.count(),
        rank: 0,
    }
}

fn put_rank(ranks: &mut Vec<usize>, class: usize, rank: usize) {
    if class < ranks.len() {
        ranks[class] = rank;
    }
}

// Gives ranks to a class and those above it that have none.
fn rank_up(set: &NamedSet, class: usize, ranks: &mut Vec<usize>) {
    let way = way_up(set, ranks.as_slice(), class);
    let mut at = class;
    let mut rank = way.rank.saturating_add(way.unranked);
    for _ in 0..way.unranked {
        put_rank(ranks, at, rank);
        rank = rank.saturating_sub(1);
        match place_above(set, at) {
            Some(above) => at = above,
            None => return,
        }
    }
}

// Ranks of the classes by their places, in time linear in the set: the number of classes of the set from a class on up. Where a
// class is above itself they are not right.
fn ranks_of(alloc: Global, set: &NamedSet) -> Result<Vec<usize>, Memory> {
    let mut ranks = unranked(alloc, set.count())?;
    for class in 0..set.count() {
        rank_up(set, class, &mut ranks);
    }
    Ok(ranks)
}

// ---- the set

fn is_whole_set(alloc: Global, set: &NamedSet, ranks: &[usize]) -> Result<bool, Memory>
    ensures { IfOk result (λ whole. whole ≡ set_is_whole set.now ranks.now) }
{
    if !main_is_own(alloc, set)? {
        return Ok(false);
    }
    if !are_whole(alloc, set.as_set().classes.as_slice())? {
        return Ok(false);
    }
    Ok(are_ranked(set, ranks))
}

/// Is the set loaded, in time linear in it: main is a method with code that the main class has itself, each method that is not
/// abstract has code, no initialiser is abstract, an interface is right below `Object`, and no class is above itself?
///
/// No class of the set may be called as those of the run-time system's packages are, if its `main` is to run.
pub fn is_loaded(alloc: Global, set: &Set) -> Result<bool, Memory>
    ensures { IfOk result (λ loaded. loaded ≡ true → IsLoaded set.now) }
{
    let named = NamedSet::new(alloc, set)?;
    let ranks = ranks_of(alloc, &named)?;
    whole_sets_are_loaded();
    let whole = is_whole_set(alloc, &named, ranks.as_slice())?;
    Ok(whole)
}
