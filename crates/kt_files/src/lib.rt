//! Files, with their package, imports and declarations (Kotlin Language Specification 1.9, "Packages and imports" and
//! "Declarations").
#![tactic(auto)]

mod files;
mod heads;
mod lists;
mod modified;
mod modifier_words;
mod nodes;
mod words;

pub use files::file;
pub use heads::{import_path, imports, package_name};
pub use lists::declarations;
pub use modified::declaration;
