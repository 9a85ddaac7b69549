//! Why a set of class files does not verify.

/// Why an instruction does not verify (Java Virtual Machine Specification SE 8, 4.10.1). Of several causes at one instruction the
/// one that stands first here counts.
#[derive(Clone, Copy, Debug, PartialEq, Eq)]
pub enum VerifyCode {
    /// No frame is given at the target of a jump, at a handler, or after an instruction that never goes on to the next one.
    MissingFrame,
    /// What the instruction leaves, or what a method starts with, is not assignable to the frame that is given where it flows to.
    WrongFrame,
    /// A local variable beyond `max_locals`.
    LocalRange,
    /// An operand is missing.
    StackUnderflow,
    /// The operand stack goes beyond `max_stack`.
    StackOverflow,
    /// An operand, a local variable or a named entry of the pool is of another kind.
    WrongType,
    /// A value is used before its constructor is called, or a constructor returns before it has called another.
    Uninitialised,
    /// A return of another kind than the method's descriptor says.
    ReturnType,
    /// A jump to a place where no instruction starts.
    BadTarget,
    /// A row of the exception table is wrong, or what may be thrown to its handler is not assignable to the frame there.
    BadHandler,
    /// The code can run past its end.
    FallsOff,
    /// `new` of a class of which no object can be made.
    AbstractNew,
}

/// The first instruction that does not verify: the numbers of its class in the set and of its method in the class, and its place
/// in bytes.
#[derive(Clone, Copy, Debug, PartialEq, Eq)]
pub struct VerifyFault {
    pub class: usize,
    pub method: usize,
    pub at: usize,
    pub code: VerifyCode,
}
