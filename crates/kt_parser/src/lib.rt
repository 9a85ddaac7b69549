//! Expressions and statements (Kotlin Language Specification 1.9, "Expressions" and "Statements").
#![tactic(auto)]

mod descent;
mod nodes;
mod over;
mod primary;
mod readers;
mod statements;

pub use descent::{expression, statement};
pub use readers::{DEPTH, arguments_at, block_at, expression_at, parse_expr};
