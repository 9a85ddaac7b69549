// A method with tables of its code.
ghost use Rattle.std.specs.Prelude.{◌≡◌, ◌<◌, ◌^◌, length, IfOk};
ghost use Rattle.std.specs.Option.{option_copied};
ghost use Rattle.class_file.specs.Verification.{needs_frame, starts, code_length};
ghost use Rattle.verifier.specs.Flags.{frame_for};

use crate::tables::{
    flag_at, flags_of, frame_numbered, frames_of, is_handler, is_target, marks_of,
};
use class_file::class::{Frame, Method};
use kc_text::Memory;
use std::alloc::Global;
use std::marker::Model;

/// A method, with what is looked up in it by places in bytes.
#[derive(Drop)]
pub struct TabledMethod<'a> {
    method: &'a Method,
    // For each byte whether an instruction starts there.
    starts: Vec<bool>,
    // For each byte whether a frame must be given there.
    marks: Vec<bool>,
    // For each byte the number of the first frame that is given there.
    frames: Vec<Option<usize>>,
}

impl<'a> Model for TabledMethod<'a> {
    ghost use Rattle.class_file.specs.declared.class.Method.{Method as MethodValue};
    ghost use Rattle.verifier.specs.Flags.{IsTabled};

    ghost Value = { MethodValue };

    ghost view = { λ c. c.method.now };

    ghost invariant = { λ c. IsTabled c.starts.items c.marks.items c.frames.items c.method.now };
}

impl<'a> TabledMethod<'a> {
    /// The tables of a method's code.
    pub fn new(alloc: Global, method: &'a Method) -> Result<TabledMethod<'a>, Memory>
        requires { length method.now.code < 2 ^ 28 }
        ensures { IfOk result (λ tabled. tabled ≡ method.now) }
    {
        let starts = flags_of(alloc, method.code.as_slice())?;
        let marks = marks_of(alloc, method, starts.len())?;
        let frames = frames_of(alloc, method.frames.as_slice(), starts.len())?;
        Ok(TabledMethod {
            method,
            starts,
            marks,
            frames,
        })
    }

    /// The method alone.
    pub fn as_method(&self) -> &'a Method
        ensures { result.now ≡ self.now }
    {
        self.method
    }

    /// How many places the local variables take.
    pub fn max_locals(&self) -> usize
        ensures { result ≡ self.now.max_locals }
    {
        self.method.max_locals as usize
    }

    /// How many bytes the code has.
    pub fn code_length(&self) -> usize
        ensures { result ≡ code_length self.now.code }
    {
        self.starts.len()
    }

    /// Does an instruction start at a place?
    pub fn starts(&self, pc: usize) -> bool
        ensures { result ≡ starts self.now pc }
    {
        flag_at(&self.starts, pc)
    }

    /// Must a frame be given for a place?
    pub fn needs_frame(&self, pc: usize) -> bool
        ensures { result ≡ needs_frame self.now pc }
    {
        if pc < self.marks.len() {
            return self.marks[pc];
        }
        is_target(self.method.code.as_slice(), pc)
            || is_handler(self.method.handlers.as_slice(), pc)
    }

    /// The first frame that is given for a place.
    pub fn frame_at(&self, pc: usize) -> Option<&'a Frame>
        ensures { option_copied result ≡ frame_for self.now.frames pc }
    {
        let frames = self.method.frames.as_slice();
        if pc < self.frames.len() {
            return match self.frames[pc] {
                None => None,
                Some(number) => frame_numbered(frames, number),
            };
        }
        frames.iter().find(|frame| frame.at == pc)
    }
}
