//! The words that are names to the lexer and mean something at some places of the grammar (Kotlin Language Specification 1.9, "Syntax
//! grammar", soft keywords).
#![tactic(auto)]

mod reserved;

pub use reserved::reserved_names;

#[cfg(test)]
mod tests;
