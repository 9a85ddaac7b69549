//! Reads the class files that its words name, and writes each again in the bytes that are written for its class, into a file with
//! `.copy` behind its name.
#![tactic(auto)]

mod copy;
#[cfg(test)]
mod reader_tests;
#[cfg(test)]
mod tests;

pub use copy::copy_of;
use kc_text::Fail;
use std::alloc::Global;
use std::{env, fs, io};

fn copy_file(rt: &HostRuntime, alloc: Global, name: &str) -> io::Result<()> {
    let bytes = fs::read(rt, name)?;
    match copy_of(alloc, bytes.as_slice()) {
        Ok(copy) => {
            let target = format!(in alloc; "{name}.copy")?;
            fs::write(rt, target.as_str(), copy.as_slice())?;
            if copy.as_slice() == bytes.as_slice() {
                return println!(rt; "{name}: {} bytes, and the same are written", bytes.len());
            }
            println!(rt;
                "{name}: {} bytes, and {} are written",
                bytes.len(),
                copy.len()
            )
        }
        Err(Fail::Found(fault)) => println!(rt; "{name}: {:?} at byte {}", fault.code, fault.at),
        Err(Fail::Memory) => println!(rt; "{name}: want of memory"),
    }
}

fn main(rt: HostRuntime) -> io::Result<()> {
    for name in env::args(&rt)?.skip(1) {
        copy_file(&rt, rt.alloc(), name.as_str())?;
    }
    Ok(())
}
