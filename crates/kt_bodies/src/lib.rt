//! The rows of the grammar that hold statements: blocks, lambdas and `try` (Kotlin Language Specification 1.9, "Statements" and
//! "Expressions"), over the functions that read an expression and a statement.
#![tactic(auto)]

mod beginnings;
mod blocks;
mod bodies;
mod lambdas;
mod looks;
mod nodes;
mod standing;
mod supers;
mod terminals;
mod tries;

pub use beginnings::{
    begins_local, begins_loop, begins_marked_statement, begins_statement, is_marked,
};
pub use blocks::behind_semicolons;
pub use bodies::Bodies;
pub use lambdas::Inside;
pub use standing::as_body;
pub use supers::super_;
pub use terminals::{Terminal, eat_on, expect_name_on, expect_on};
pub use tries::Clauses;
