//! What is known of a frame.

use crate::locals::Locals;
use crate::stack::Stack;

/// What is known of a frame before or after an instruction.
#[derive(Drop)]
pub struct Known<'a> {
    pub locals: Locals<'a>,
    pub stack: Stack<'a>,
    /// This is a constructor that has not called another yet.
    pub unset: bool,
}
