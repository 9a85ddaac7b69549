//! The heads of classes: the parameters of primary constructors, supertypes and the constants of enum classes (Kotlin Language
//! Specification 1.9, "Class declaration", "Constructor declaration" and "Enum class declaration").
#![tactic(auto)]

mod arguments;
mod class_words;
mod constant_lists;
mod constructors;
mod parameters;
mod supertypes;

pub use constant_lists::constants;
pub use constructors::primary_constructor;
pub use supertypes::supers;
