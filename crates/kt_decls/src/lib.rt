//! Files of declarations, and how deep their tokens are nested (Kotlin Language Specification 1.9, "Syntax grammar").
#![tactic(auto)]

mod files;
mod kinds;
mod levels;

pub use files::{ParseFault, parse_file};
pub use levels::{MOST_LEVEL, TooDeep, first_too_deep};

#[cfg(test)]
mod file_tests;
#[cfg(test)]
mod list_tests;
#[cfg(test)]
mod operator_tests;
#[cfg(test)]
mod tests;
#[cfg(test)]
mod type_tests;
