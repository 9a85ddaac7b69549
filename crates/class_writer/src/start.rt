//! The types of the local variables that a method starts with.
ghost use Rattle.std.specs.Prelude.{◌≡◌, IfOk};
ghost use Rattle.std.specs.List.{AllByRecursion};
ghost use Rattle.class_file.specs.ClassBytes.{at_start};
ghost use Rattle.class_writer.specs.Fits.{IsSmall};

use class_file::class::{Method, VType};
use kc_text::{Memory, Text};
use shared_list::SharedList;
use std::alloc::Global;

/// The types of the local variables that a method of this class starts with.
pub fn start_locals(
    alloc: Global,
    this: &Text,
    method: &Method,
) -> Result<SharedList<VType>, Memory>
    ensures locals { IfOk result (λ locals. locals ≡ (at_start this.now method.now).locals) }
    ensures small { IfOk result (λ locals. AllByRecursion IsSmall locals) }
{
    let locals = verifier_types::start_locals(
        alloc,
        this,
        method.flags,
        &method.name,
        &method.descriptor,
    )?;
    Ok(locals)
}
