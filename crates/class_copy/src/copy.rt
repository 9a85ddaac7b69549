//! Class files read and written again.
ghost use Rattle.std.specs.Prelude.{◌≡◌, ◌≤◌, Err, IfOk, length};
ghost use Rattle.kc_text.specs.Fail.{IfFound};
ghost use Rattle.class_file.specs.FormatFaults.{class_of};

use class_file::format_fault::FormatFault;
use class_reader::read_class;
use class_writer::write_class;
use kc_text::Fail;
use std::alloc::Global;

/// The bytes that are written for the class that these bytes spell: they are read as the same class, and are no longer. Bytes that
/// spell none are refused for their first fault.
pub fn copy_of(alloc: Global, bytes: &[u8]) -> Result<Vec<u8>, Fail<FormatFault>>
    ensures same { IfOk result (λ copy. class_of copy.items ≡ class_of bytes.now) }
    ensures shortest { IfOk result (λ copy. length copy.items ≤ length bytes.now) }
    ensures refused { IfFound result (λ fault. class_of bytes.now ≡ Err fault) }
{
    let class = read_class(alloc, bytes)?;
    let copy = write_class(alloc, &class)?;
    Ok(copy)
}
