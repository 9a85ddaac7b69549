//! Types: the table of different types, types as trees, the heads of classes, and what subtyping means.
#![tactic(auto)]

mod acyclic;
mod heads;
mod ids;
pub mod laws;
mod shared;
mod substitution;
mod table;
mod trees;
mod types;

pub use heads::{Head, HeadParam, Heads, Variance};
pub use ids::{ClassId, TypeId, VarId};
pub use shared::Shared;
pub use table::{TypeTable, TypeTooDeep};
pub use trees::{ArgTree, TypeTree};
pub use types::{Parts, Ty, TyArg};

#[cfg(test)]
mod tests;
