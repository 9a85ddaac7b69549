//! Texts as lists of UTF-16 units, their encodings, and numbered names.
#![tactic(auto)]

mod errors;
mod modified;
mod name_list;
mod texts;
mod utf8;

pub use errors::{BadModified, BadUtf8, Fail, Memory};
pub use name_list::Names;
pub use texts::Text;

#[cfg(test)]
mod tests;
