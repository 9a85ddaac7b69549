// Folders: files that are read and written whole, by name.
ghost use Rattle.std.specs.Prelude.{◌≡◌, ℕ, ◌≤◌, Option, OnOk, OnErr};
ghost use Rattle.kc_io.specs.Causes.{HasCause};

use crate::sinks::OutFault;
use std::alloc::Global;

/// What a read of a file answers.
#[derive(Debug, Drop)]
pub enum FolderRead {
    /// All bytes of the file.
    Bytes(Vec<u8>),
    /// There is no file of this name. The folder's count of faults stays.
    Missing,
    /// The file could not be read. The folder's count of faults has risen.
    Failed,
    /// There was not enough memory for the bytes.
    Memory,
}

/// Files by name, each read and written whole.
pub trait Folder {
    ghost use Rattle.kc_io.specs.Files.{Files, Answers, with_file, without_file};

    /// The files, if the folder tells them.
    ghost files: { Self → Option Files };

    /// How often a call has failed.
    ghost faults: { Self → ℕ };

    /// The bytes of the file with this name.
    fn read(&mut self, alloc: Global, name: &str) -> FolderRead
        ensures answers { Answers (files self.old) (faults self.old) (faults self.new) name.now result }
        ensures files { files self.new ≡ files self.old }
        ensures faults { faults self.old ≤ faults self.new };

    /// Sets the bytes of the file with this name. After an error only that file is open.
    fn write(&mut self, alloc: Global, name: &str, bytes: &[u8]) -> Result<(), OutFault>
        ensures ok { OnOk result (files self.new ≡ with_file (files self.old) name.now bytes.now) }
        ensures err { OnErr result
            (without_file (files self.new) name.now ≡ without_file (files self.old) name.now) }
        ensures cause { HasCause (faults self.old) (faults self.new) result }
        ensures faults { faults self.old ≤ faults self.new };
}
