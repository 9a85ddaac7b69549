//! Elaborated trees and what they mean.
#![tactic(auto)]

pub mod tree;

ghost use Rattle.kc_core.specs.Room.{RoomIsWithinWeight};
ghost use Rattle.kc_core.specs.Theorems.{MeaningIsLawful, NeverBroken};

/// With more units a program that has ended has the same end, and its output only grows.
pub fn meaning_is_lawful()
    ensures { MeaningIsLawful }
{}

/// A program that starts with a well-formed function breaks no rule of its meaning, on any input.
pub fn formed_is_never_broken()
    ensures { NeverBroken }
{}

/// The code of a function takes no more bytes than the function weighs.
pub fn room_is_within_weight()
    ensures { RoomIsWithinWeight }
{}
