//! Elaborated trees: every node with its place and its static type.

use kc_text::Text;
use sqlite_items::{Boxed, Items};

/// A stretch of a source: from `start` to `end` (excluded), counted in UTF-16 units of the file with number `file`.
#[derive(Clone, Copy, PartialEq, Eq)]
pub struct Span {
    pub file: usize,
    pub start: usize,
    pub end: usize,
}

/// A static type (Kotlin Language Specification 1.9, "Built-in classifier types").
#[derive(Clone, Copy, PartialEq, Eq)]
pub enum TypeTree {
    Int,
    Boolean,
    String,
    Unit,
}

/// An operator on two numbers (Kotlin Language Specification 1.9, "Additive expression" and "Multiplicative expression").
#[derive(Clone, Copy, PartialEq, Eq)]
pub enum BinaryOp {
    Plus,
    Minus,
    Times,
    Div,
    Rem,
}

/// An operator on one number.
#[derive(Clone, Copy, PartialEq, Eq)]
pub enum UnaryOp {
    Minus,
}

/// A comparison of two numbers (Kotlin Language Specification 1.9, "Comparison expressions").
#[derive(Clone, Copy, PartialEq, Eq)]
pub enum Order {
    Less,
    LessEqual,
    Greater,
    GreaterEqual,
}

/// A function that the run-time system provides.
#[derive(Clone, Copy, PartialEq, Eq)]
pub enum Native {
    /// Writes a text to the standard output.
    ConsoleWrite,
}

/// A node: its place in the source, the static type of its value, and what it is.
#[cycle(core)]
#[derive(Drop)]
pub struct Core {
    pub span: Span,
    pub ty: TypeTree,
    pub kind: Kind,
}

/// What a node is. Children stand in the order in which they are evaluated.
#[cycle(core)]
#[derive(Drop)]
pub enum Kind {
    IntLit(i32),
    StrLit(Text),
    BoolLit(bool),
    /// The value of the local with this number.
    LocalRead(usize),
    /// An assignment to the local with this number.
    LocalWrite {
        local: usize,
        value: Boxed<Core>,
    },
    /// A new variable under this number, unset or with a value.
    Declare {
        local: usize,
        value: Option<Boxed<Core>>,
    },
    NumBinary {
        op: BinaryOp,
        left: Boxed<Core>,
        right: Boxed<Core>,
    },
    NumUnary {
        op: UnaryOp,
        value: Boxed<Core>,
    },
    NumCompare {
        order: Order,
        left: Boxed<Core>,
        right: Boxed<Core>,
    },
    /// Whether two values are equal.
    Equal {
        left: Boxed<Core>,
        right: Boxed<Core>,
    },
    Not(Boxed<Core>),
    /// The right side is evaluated only where the left one is true.
    And {
        left: Boxed<Core>,
        right: Boxed<Core>,
    },
    /// The right side is evaluated only where the left one is false.
    Or {
        left: Boxed<Core>,
        right: Boxed<Core>,
    },
    /// The texts of the parts, one behind the other.
    Concat(Items<Core>),
    CallNative {
        native: Native,
        values: Items<Core>,
    },
    /// The parts in order; all values but the last one's are dropped.
    Block(Items<Core>),
    If {
        test: Boxed<Core>,
        held: Boxed<Core>,
        failed: Option<Boxed<Core>>,
    },
    /// A loop with its test at the top, under a number of its own.
    While {
        label: usize,
        test: Boxed<Core>,
        body: Boxed<Core>,
    },
}

/// A local variable: the number of its name, its type, and whether it may be assigned again.
#[derive(Clone, Copy)]
pub struct Local {
    pub name: usize,
    pub ty: TypeTree,
    pub is_var: bool,
}

/// A function. `span` is its name's; its locals are numbered from 0, its parameters first.
#[derive(Drop)]
pub struct Function {
    pub name: Text,
    pub span: Span,
    pub params: usize,
    pub result: TypeTree,
    pub locals: Items<Local>,
    pub body: Core,
}

/// The functions of a program, each named by its place.
#[derive(Drop)]
pub struct Program {
    pub functions: Items<Function>,
}
