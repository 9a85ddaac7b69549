//! Elaboration: from a file of the form as it is written to its elaborated program, with scopes, types and numbered locals
//! (Kotlin Language Specification 1.9, "Scopes and identifiers", "Declarations", "Expressions", "Statements").
#![tactic(auto)]

mod expressions;
mod form;
mod nodes;
mod program;
mod scope;
mod statements;
#[cfg(test)]
mod tests;

pub use form::{form_is_determined, programs_are_light, read_form};
pub use program::{elaborate, elaborated_is_formed, elaborated_is_main};
