//! The rows of the table of instructions: what an instruction does, whatever its spelling.

use crate::value::Kind;

/// An operator on two numbers of one kind.
#[derive(Clone, Copy)]
pub enum Operator {
    Add,
    Sub,
    Mul,
    Div,
    Rem,
    And,
    Or,
    Xor,
}

/// A shift of a number by the low 5 or 6 bits of an `Int`: to the left, to the right with copies of the sign, or with zeros.
#[derive(Clone, Copy)]
pub enum Shift {
    Left,
    Right,
    UnsignedRight,
}

/// A test of a number against zero, or of two numbers.
#[derive(Clone, Copy)]
pub enum Test {
    Eq,
    Ne,
    Lt,
    Ge,
    Gt,
    Le,
}

/// What an instruction does. Places are byte offsets from the code's start; indexes are those of the constant pool.
#[derive(Clone, Copy)]
pub enum Row {
    Nop,
    PushInt(i32),
    PushLong(i64),
    PushNull,
    /// An `Int` or a text of the pool.
    PushConstant(usize),
    /// A `Long` of the pool.
    PushLongConstant(usize),
    Load(Kind, usize),
    Store(Kind, usize),
    /// An `Int` is added to a local variable.
    Increment(usize, i32),
    Pop,
    Pop2,
    Dup,
    DupX1,
    Dup2,
    IntBinary(Operator),
    LongBinary(Operator),
    IntShift(Shift),
    LongShift(Shift),
    IntNeg,
    LongNeg,
    IntToLong,
    LongToInt,
    IntToChar,
    LongCompare,
    IfZero(Test, usize),
    IfCompare(Test, usize),
    /// A jump where two references are the same, or, with `false`, where they are not.
    IfSame(bool, usize),
    /// A jump where a reference is null, or, with `false`, where it is not.
    IfNull(bool, usize),
    Goto(usize),
    Return,
    ReturnValue(Kind),
    GetStatic(usize),
    PutStatic(usize),
    GetField(usize),
    PutField(usize),
    InvokeVirtual(usize),
    InvokeSpecial(usize),
    InvokeStatic(usize),
    InvokeInterface(usize),
    New(usize),
    NewArray(usize),
    CheckCast(usize),
    InstanceOf(usize),
    ArrayLength,
    ArrayLoad,
    ArrayStore,
    Throw,
}
