//! The form of a source file, from its bytes to its tree.

ghost use Rattle.form_parser.specs.Form.{ReadsForm, SourceIsDetermined};
ghost use Rattle.form_parser.specs.Sizes.{SizeIsWithinBytes};

use crate::parser::parse;
use crate::surface::Source;
use crate::tokens::{NotBuilt, tokens_of};
use kc_text::Fail;
use std::alloc::Global;

/// The tree of a file that has these bytes. A file that is not of the form, or has more than 256 bytes, is `NotBuilt`.
pub fn read_source(alloc: Global, bytes: &[u8]) -> Result<Source, Fail<NotBuilt>>
    ensures reads { ReadsForm bytes.now result }
{
    if bytes.len() > 256 {
        return Err(Fail::Found(NotBuilt));
    }
    let tokens = tokens_of(alloc, bytes)?;
    parse(alloc, tokens.as_slice())
}

/// A file has one tree at most.
pub fn source_is_determined()
    ensures { SourceIsDetermined }
{}

/// A file's tree takes no more tokens than the file has bytes.
pub fn size_is_within_bytes()
    ensures { SizeIsWithinBytes }
{}
