//! The form of a source file, from its bytes to its elaborated program.

ghost use Rattle.std.specs.Prelude.{IfOk};
ghost use Rattle.kc_core.specs.Formed.{MainFormed};
ghost use Rattle.form_elaboration.specs.Laws.{IsMainAlone};
ghost use Rattle.form_elaboration.specs.Form.{ReadsForm, FormIsDetermined};
ghost use Rattle.form_elaboration.specs.Light.{ProgramsAreLight};

use crate::program::elaborate;
use form_parser::{NotBuilt, read_source};
use kc_core::tree::Program;
use kc_text::Fail;
use std::alloc::Global;

/// The program of a file with this number that has these bytes. A file that is not of the form, as one with a fault of scopes or
/// types, is `NotBuilt`.
pub fn read_form(alloc: Global, file: usize, bytes: &[u8]) -> Result<Program, Fail<NotBuilt>>
    ensures reads { ReadsForm file bytes.now result }
    ensures formed { IfOk result (λ program. MainFormed program 0) }
    ensures main { IfOk result (λ program. IsMainAlone program) }
{
    let source = read_source(alloc, bytes)?;
    elaborate(alloc, file, bytes, &source)
}

/// A file has one program at most.
pub fn form_is_determined()
    ensures { FormIsDetermined }
{}

/// The function of every program of the form is light: its weight, its nodes, its locals and the units of its texts are bounded,
/// since a file has at most 256 bytes.
pub fn programs_are_light()
    ensures { ProgramsAreLight }
{}
