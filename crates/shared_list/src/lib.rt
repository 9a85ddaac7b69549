//! Lists that share the front that they have in common.
#![tactic(auto)]

mod chain;
mod list;

pub use list::SharedList;

#[cfg(test)]
mod tests;
