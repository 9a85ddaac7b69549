// The files below the current folder, which tell nothing of what they hold.
ghost use Rattle.std.specs.Prelude.{◌≡◌};

use crate::faults::FaultCount;
use crate::folders::{Folder, FolderRead};
use crate::sinks::OutFault;
use std::alloc::Global;
use std::io::{ErrorKind, Read};
use std::path::Path;
use std::rt::Files;
use std::{fs, io};

/// The greatest length of a file that is read, in bytes: 64 MiB.
const MOST_BYTES: u64 = 64 * 1024 * 1024;

/// The files of the running system; a name is a path from the current folder. It tells no contents.
///
/// Each error of the system is a failure, but for want of memory; so is a file that is missing, and one that is
/// longer than 64 MiB. After 2^64 - 1 failures the system is asked no more, and each call answers want of memory.
#[derive(Debug, Drop)]
pub struct DiskFolder<R> {
    runtime: R,
    faults: FaultCount,
}

impl<R: Files> DiskFolder<R> {
    /// The files of a runtime, as `DiskFolder::new(&rt)`.
    pub fn new(runtime: R) -> DiskFolder<R>
        ensures { ⟦<DiskFolder<R> as Folder>⟧.faults result ≡ 0 }
    {
        DiskFolder {
            runtime,
            faults: FaultCount::new(),
        }
    }

    /// How often a call failed.
    pub fn faults(&self) -> u64
        ensures { result ≡ ⟦<DiskFolder<R> as Folder>⟧.faults self.now }
    {
        self.faults.count
    }
}

// The bytes of a file, or too many of them: one more than the limit.
fn read_file(files: &impl Files, alloc: Global, name: &str) -> io::Result<Vec<u8>> {
    let mut bytes = Vec::new(alloc);
    fs::open(files, name)?
        .take(MOST_BYTES + 1)
        .read_to_end(&mut bytes)?;
    Ok(bytes)
}

// Writes a file, and makes the folders that it lies in.
fn write_file(files: &impl Files, name: &str, bytes: &[u8]) -> io::Result<()> {
    if let Some(parent) = Path::new(name).parent() {
        fs::create_dir_all(files, parent)?;
    }
    fs::write(files, name, bytes)
}

impl<R: Files> Folder for DiskFolder<R> {
    ghost use Rattle.std.specs.Prelude.{None};

    ghost files = { λ _. None };

    ghost faults = { λ f. f.faults.count };

    fn read(&mut self, alloc: Global, name: &str) -> FolderRead {
        if !self.faults.has_room() {
            return FolderRead::Memory;
        }
        let answer = match read_file(&self.runtime, alloc, name) {
            Ok(bytes) if bytes.len() as u64 <= MOST_BYTES => return FolderRead::Bytes(bytes),
            Ok(_) => FolderRead::Failed,
            Err(error) => match error.kind() {
                ErrorKind::OutOfMemory => return FolderRead::Memory,
                ErrorKind::NotFound => FolderRead::Missing,
                _ => FolderRead::Failed,
            },
        };
        self.faults.raise();
        answer
    }

    fn write(&mut self, _alloc: Global, name: &str, bytes: &[u8]) -> Result<(), OutFault> {
        if !self.faults.has_room() {
            return Err(OutFault::Memory);
        }
        match write_file(&self.runtime, name, bytes) {
            Ok(()) => Ok(()),
            Err(_) => {
                self.faults.raise();
                Err(OutFault::Failed)
            }
        }
    }
}
