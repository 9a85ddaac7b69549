//! Source files of the form that the compiler takes so far: their tokens, and their trees as they are written (Kotlin Language
//! Specification 1.9, "Syntax and grammar").
#![tactic(auto)]

mod expressions;
mod form;
mod operators;
mod parser;
pub mod surface;
mod tokens;

pub use form::{read_source, size_is_within_bytes, source_is_determined};
pub use parser::parse;
pub use tokens::{NotBuilt, Place, Token, TokenKind, tokens_of};
