//! Trees of expressions and statements as lines, and what small texts are read as.
#![tactic(auto)]

mod expressions;
mod lists;
mod parts;
mod print;
mod sources;
mod types;

pub use expressions::{block, choice};
pub use lists::{args, dotted};
pub use parts::{Node, Part, Parts, around, expr, sign, type_};
pub use print::{line_of, line_of_parts};
pub use sources::{cut, with_lines};
pub use types::colon_type;

#[cfg(test)]
mod call_tests;
#[cfg(test)]
mod control_tests;
#[cfg(test)]
mod depth_tests;
#[cfg(test)]
mod lambda_tests;
#[cfg(test)]
mod line_tests;
#[cfg(test)]
mod name_tests;
#[cfg(test)]
mod operator_tests;
#[cfg(test)]
mod readings;
#[cfg(test)]
mod statement_tests;
#[cfg(test)]
mod string_tests;
#[cfg(test)]
mod type_tests;
