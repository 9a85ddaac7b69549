//! Class files as bytes (Java Virtual Machine Specification SE 8, chapter 4).
#![tactic(auto)]

mod attributes;
mod class;
mod code;
mod frames;
mod instrs;
mod members;
mod names;
mod numbers;
mod pool;
mod start;
mod types;

pub use class::write_class;

#[cfg(test)]
mod tests;
