//! Class files from bytes (Java Virtual Machine Specification SE 8, chapter 4).
#![tactic(auto)]

mod attributes;
mod class;
mod code;
mod descriptors;
mod frames;
mod input;
mod instructions;
mod locals;
mod members;
mod names;
mod opcodes;
mod pool;
mod seen;
mod uses;

pub use class::read_class;
