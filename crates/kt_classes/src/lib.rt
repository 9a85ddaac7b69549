//! Classes, interfaces and objects with their bodies (Kotlin Language Specification 1.9, "Classifier declaration").
#![tactic(auto)]

mod bodies;
mod classes;
mod nodes;
mod objects;

pub use classes::class_;
pub use objects::{interface_, object_};
