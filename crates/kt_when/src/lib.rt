//! `when` with its branches and their conditions (Kotlin Language Specification 1.9, "When expressions"), over the functions that read an
//! expression and a statement.
#![tactic(auto)]

mod beginnings;
mod entries;
mod heads;
mod nodes;
mod relations;
mod subjects;

pub use entries::{branch, branches};
pub use heads::{condition, conditions};
pub use subjects::{Subject, when_};
