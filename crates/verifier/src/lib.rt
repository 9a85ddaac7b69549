//! The verifier: which sets of class files verify, and which instruction is the first that does not.
#![tactic(auto)]

mod carried;
mod flow;
mod frames;
mod given;
mod handlers;
mod loading;
mod lot;
mod scan;
mod sweep;
mod tabled;
mod tables;
mod verified;

pub use loading::{has_code_at, is_loaded, is_reserved, static_named};
pub use lot::is_first_lot;
pub use verified::{Verified, verify};
