//! What a program reads and writes: folders, sources and sinks of bytes. Each is a trait, with an object in
//! memory that tells all it holds and one over the running system that tells nothing.
#![tactic(auto)]

mod disk;
mod failing;
mod faults;
mod folders;
mod memory;
mod memory_folder;
mod sinks;
mod sources;
mod standard;
#[cfg(test)]
mod tests;

pub use disk::DiskFolder;
pub use folders::{Folder, FolderRead};
pub use memory::{MemorySink, MemorySource};
pub use memory_folder::MemoryFolder;
pub use sinks::{OutFault, Sink, write_all};
pub use sources::{ReadFailed, Source};
pub use standard::{StdSink, StdSource};
