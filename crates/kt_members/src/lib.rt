//! Properties, and the members of classes (Kotlin Language Specification 1.9, "Property declaration" and "Classifier declaration").
#![tactic(auto)]

mod class_members;
mod getters;
mod member_words;
mod modified;
mod modifier_words;
mod nodes;
mod properties;
mod setters;

pub use class_members::{class_body, member, members};
pub use getters::{AccessorPair, accessors};
pub use modifier_words::eat_modifier;
pub use properties::property;
pub use setters::setter;
