//! The one cut of a Kotlin source into tokens (Kotlin Language Specification 1.9, "Lexical grammar").
#![tactic(auto)]

mod characters;
mod comments;
mod cutting;
mod kinds;
mod laws;
mod numbers;
mod openings;
mod operators;
mod pieces;
mod places;
mod strings;
mod token;
mod words;

pub use cutting::tokens;
pub use laws::{
    ascii_is_by_category, cut_excludes_fault, cut_gives_text_back, cut_is_unique, fault_is_unique,
    operator_is_longest, word_is_longest,
};
pub use token::{Keyword, LexFault, Operator, Token, TokenKind};
