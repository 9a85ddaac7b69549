//! Code that verifies is never stuck.
#![tactic(auto)]

ghost use Rattle.class_soundness.specs.Soundness.{AssignabilityIsTransitive, FirstLotIsCovered, FirstLotIsOfInstructions, FlatSetsHaveHeights, LawIsOfSomeSet, PlainSetsAreLoaded, VerifiedIsNeverStuck, WholeSetsAreLoaded};

/// A loaded set that verifies, all of whose instructions are covered, never gets the machine stuck, on any input.
pub fn verified_is_never_stuck()
    ensures { VerifiedIsNeverStuck }
{}

/// Where each class of a set is right below `Object`, no class is above itself.
pub fn flat_sets_have_heights()
    ensures { FlatSetsHaveHeights }
{}

/// A set whose instructions are all of the first lot is one that the law is of.
pub fn first_lot_is_covered()
    ensures { FirstLotIsCovered }
{}

/// A set of the first lot has instructions of the first lot alone.
pub fn first_lot_is_of_instructions()
    ensures { FirstLotIsOfInstructions }
{}

/// A set of classes right below `Object`, whose methods all have instructions and whose names are no arrays', is loaded where its
/// main is plain.
pub fn plain_sets_are_loaded()
    ensures { PlainSetsAreLoaded }
{}

/// A set is loaded where its main class has `main` itself, each class ranks above its superclass, and loading finds no fault in any
/// class alone.
pub fn whole_sets_are_loaded()
    ensures { WholeSetsAreLoaded }
{}

/// The law is not empty: some set meets all that it asks for.
pub fn law_is_of_some_set()
    ensures { LawIsOfSomeSet }
{}

/// In a loaded set what is assignable to a type is assignable to all that this type is assignable to.
pub fn assignability_is_transitive()
    ensures { AssignabilityIsTransitive }
{}
