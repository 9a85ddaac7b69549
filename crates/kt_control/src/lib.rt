//! Jumps, conditionals, declarations of local variables and loops (Kotlin Language Specification 1.9, "Expressions" and "Statements"),
//! over the functions that read an expression and a statement.
#![tactic(auto)]

mod brackets;
mod conditionals;
mod jumps;
mod labels;
mod locals;
mod looks;
mod loops;
mod nodes;
mod words;

pub use brackets::bracketed;
pub use conditionals::conditional;
pub use jumps::jump;
pub use locals::local;
pub use loops::loop_;
