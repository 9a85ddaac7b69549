//! The rows of the grammar from what stands alone to postfix operators: calls, members, indexes and strings (Kotlin Language
//! Specification 1.9, "Postfix operator expressions" and "String interpolation expressions").
#![tactic(auto)]

mod calls;
mod endings;
mod marks;
mod nodes;
mod strings;

pub use calls::{call, trailing};
pub use endings::{suffix, suffixes};
pub use strings::string;
