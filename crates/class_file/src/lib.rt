//! Class files: their values and what they mean.
#![tactic(auto)]

pub mod class;
pub mod format_fault;
pub mod frames;
pub mod instr;
pub mod pool;
pub mod row;
pub mod table;
pub mod value;
pub mod verify_code;
