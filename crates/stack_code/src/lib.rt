//! Code for the stack machine.
#![tactic(auto)]

pub mod constants;
pub mod depth;
pub mod emit;
pub mod entries;
pub mod frames;
pub mod instructions;
pub mod measures;
pub mod method;
pub mod operations;
pub mod walk;
