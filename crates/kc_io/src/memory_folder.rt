// A folder in memory, which tells all that it holds.
ghost use Rattle.std.specs.Prelude.{◌≡◌, ℕ, ◌+◌, [], Some, IfOk, OnOk, OnErr, IsTrue, IsErrOf, ◌↔◌, position};
ghost use Rattle.std.specs.Str.{bytes_eq};
ghost use Rattle.std.specs.String.{string_bytes};
ghost use Rattle.std.specs.FinMap.{get, insert};
ghost use Rattle.std.specs.Option.{option_copied};
ghost use Rattle.kc_io.specs.Memory.{is_due, next_calls};
ghost use Rattle.kc_io.specs.Entries.{entries_of, files_of, with_entry};
ghost use Rattle.kc_io.specs.Files.{Answers};

use crate::failing::FailingCalls;
use crate::folders::{Folder, FolderRead};
use crate::sinks::OutFault;
use std::alloc::{AllocError, Global};
use std::marker::Model;

/// A folder that keeps its files.
#[derive(Debug, Drop)]
pub struct MemoryFolder {
    files: Vec<(String, Vec<u8>)>,
    calls: FailingCalls,
}

impl Model for MemoryFolder {
    ghost use Rattle.kc_io.specs.Memory.{FolderInMemory};
    ghost use Rattle.kc_io.specs.Entries.{entries_of};

    ghost Value = { FolderInMemory };

    ghost view = { λ f. record { entries = entries_of f.files.items; calls = f.calls } };
}

impl MemoryFolder {
    /// A folder of these files; of a name that stands twice the first entry counts. The calls with the
    /// numbers `failing`, from 1, fail.
    pub fn new(_alloc: Global, files: Vec<(String, Vec<u8>)>, failing: Vec<u64>) -> MemoryFolder
        ensures entries { result.entries ≡ entries_of files.items }
        ensures calls { result.calls ≡ record { failing = failing.items; made = 0; failed = 0 } }
    {
        MemoryFolder {
            files,
            calls: FailingCalls::new(failing),
        }
    }

    /// The files, in the order in which they were first written.
    pub fn files(&self) -> &[(String, Vec<u8>)]
        ensures { entries_of result.now ≡ self.now.entries }
    {
        &self.files
    }
}

// The place of the first file with this name.
fn place_of(files: &[(String, Vec<u8>)], name: &str) -> Option<usize>
    ensures { result ≡ position (λ file. bytes_eq name.now (string_bytes file.0)) files.now }
{
    files.iter().position(|file| name == file.0.as_str())
}

// The contents of the first file with this name.
fn contents_of<'a>(files: &'a [(String, Vec<u8>)], name: &str) -> Option<&'a [u8]>
    ensures { option_copied result ≡ get (files_of (entries_of files.now)) name.now }
{
    let place = place_of(files, name)?;
    Some(&files[place].1)
}

// Sets a file. After an error all files are as they were.
fn set_file(
    files: &mut Vec<(String, Vec<u8>)>,
    alloc: Global,
    name: &str,
    bytes: &[u8],
) -> Result<(), AllocError>
    ensures ok { OnOk result
        (files_of (entries_of files.new.items) ≡ insert (files_of (entries_of files.old.items)) name.now bytes.now) }
    ensures order { OnOk result (entries_of files.new.items ≡ with_entry (entries_of files.old.items) name.now bytes.now) }
    ensures err { OnErr result (entries_of files.new.items ≡ entries_of files.old.items) }
{
    let contents = Vec::from_slice(alloc, bytes)?;
    match place_of(files, name) {
        Some(place) => files[place].1 = contents,
        None => files.push((String::from_str(alloc, name)?, contents))?,
    }
    Ok(())
}

impl Folder for MemoryFolder {
    ghost files = { λ f. Some (files_of f.entries) };

    ghost faults = { λ f. f.calls.failed };

    fn read(&mut self, alloc: Global, name: &str) -> FolderRead
        ensures due { result ≡ FolderRead.Failed ↔ IsTrue (is_due self.old.calls) }
        ensures answers { Answers (Some (files_of self.old.entries)) self.old.calls.failed self.new.calls.failed name.now result }
        ensures entries { self.new.entries ≡ self.old.entries }
        ensures calls { self.new.calls ≡ next_calls self.old.calls }
    {
        if self.calls.count() {
            return FolderRead::Failed;
        }
        let Some(contents) = contents_of(&self.files, name) else {
            return FolderRead::Missing;
        };
        match Vec::from_slice(alloc, contents) {
            Ok(bytes) => FolderRead::Bytes(bytes),
            Err(_) => FolderRead::Memory,
        }
    }

    fn write(&mut self, alloc: Global, name: &str, bytes: &[u8]) -> Result<(), OutFault>
        ensures due { IsErrOf result OutFault.Failed ↔ IsTrue (is_due self.old.calls) }
        ensures ok { OnOk result (files_of self.new.entries ≡ insert (files_of self.old.entries) name.now bytes.now) }
        ensures order { OnOk result (self.new.entries ≡ with_entry self.old.entries name.now bytes.now) }
        ensures err { OnErr result (self.new.entries ≡ self.old.entries) }
        ensures calls { self.new.calls ≡ next_calls self.old.calls }
    {
        if self.calls.count() {
            return Err(OutFault::Failed);
        }
        match set_file(&mut self.files, alloc, name, bytes) {
            Ok(()) => Ok(()),
            Err(_) => Err(OutFault::Memory),
        }
    }
}
