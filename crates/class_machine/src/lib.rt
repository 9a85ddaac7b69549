//! A machine that runs class files: code linked by byte offset, steps, and runs over a source and a sink.
#![tactic(auto)]

mod building;
mod calls;
mod faults;
mod frame;
mod frames;
mod heap;
mod laws;
mod linking;
mod links;
mod machine;
mod natives;
mod rows;
mod run;
mod steps;
mod throws;

pub use building::is_built;
pub use laws::{first_lot_is_built, output_grows, runs_add};
pub use machine::{LoadFault, Machine, RunEnd};
