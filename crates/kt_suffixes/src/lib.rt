//! What follows an operand at each place of a list of tokens, for all places at once in time linear in the tokens (Kotlin Language
//! Specification 1.9, "Syntax grammar": postfix expressions and type arguments).
#![tactic(auto)]

mod endings;
mod moves;
mod table;

pub use table::{suffix_at, suffix_table};

#[cfg(test)]
mod tests;
