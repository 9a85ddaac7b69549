//! Expressions and statements. Both are nodes of one type, since a body is either.

use crate::{Span, Type, TypeArg, Word};
use kc_text::Text;
use sqlite_items::{Boxed, Items};

/// An operator before its operand (Kotlin Language Specification 1.9, "Prefix expressions").
#[derive(Clone, Copy, Debug, PartialEq, Eq)]
pub enum PrefixOp {
    Minus,
    Plus,
    Not,
    Inc,
    Dec,
}

/// An operator behind its operand (Kotlin Language Specification 1.9, "Postfix operator expressions").
#[derive(Clone, Copy, Debug, PartialEq, Eq)]
pub enum PostfixOp {
    Inc,
    Dec,
    /// `!!`
    NotNull,
}

/// An operator between two operands. Those that take a type or a range on the right have nodes of their own.
#[derive(Clone, Copy, Debug, PartialEq, Eq)]
pub enum BinaryOp {
    Or,
    And,
    Equal,
    NotEqual,
    /// `===`
    Same,
    /// `!==`
    NotSame,
    Less,
    Greater,
    LessEqual,
    GreaterEqual,
    Elvis,
    /// `..`
    RangeTo,
    /// `..<`
    RangeUntil,
    Plus,
    Minus,
    Times,
    Div,
    Rem,
}

/// An operator that assigns (Kotlin Language Specification 1.9, "Assignments").
#[derive(Clone, Copy, Debug, PartialEq, Eq)]
pub enum AssignOp {
    Set,
    Plus,
    Minus,
    Times,
    Div,
    Rem,
}

/// A variable of a local declaration, a loop, a lambda or a `when`, with its type where one is written.
#[derive(Drop)]
pub struct LocalName {
    pub name: Word,
    pub ty: Option<Type>,
}

/// An expression or a statement.
#[cycle(tree)]
#[derive(Drop)]
pub struct Expr {
    pub span: Span,
    pub kind: ExprKind,
}

/// What an expression or a statement is (Kotlin Language Specification 1.9, "Expressions" and "Statements").
/// Operands stand in written order. Where a node may call a function whose name is not written, `token` is the place of the token
/// that stands for the name: the operator, `[` of an index, `in` of a loop, or, behind a callee and its type arguments, the `(` of
/// the arguments, or the label or the `{` of a lambda that is the only argument.
/// A prefix operator begins its node, and a postfix operator is the last two units of it.
#[cycle(tree)]
#[derive(Drop)]
pub enum ExprKind {
    /// An integer literal up to the greatest `Long`, or one more where a `-` is the token before it. `long` says that it ends in `L`.
    Number {
        value: u64,
        long: bool,
    },
    /// A character literal, which is one UTF-16 unit.
    Char(u16),
    Truth(bool),
    Null,
    /// A string with its pieces in order.
    Text(Items<Piece>),
    /// A name alone, by its number in the list of names.
    Name(usize),
    This,
    /// An expression in round brackets.
    Paren(Boxed<Expr>),
    /// A member of the superclass. A call of it is a `Call` round this node.
    Super {
        of: Option<Type>,
        name: Word,
    },
    Prefix {
        op: PrefixOp,
        of: Boxed<Expr>,
    },
    Postfix {
        op: PostfixOp,
        of: Boxed<Expr>,
    },
    Binary {
        op: BinaryOp,
        token: Span,
        left: Boxed<Expr>,
        right: Boxed<Expr>,
    },
    /// A named function between its operands.
    Infix {
        left: Boxed<Expr>,
        name: Word,
        right: Boxed<Expr>,
    },
    /// `in` or, negated, `!in`.
    In {
        negated: bool,
        token: Span,
        value: Boxed<Expr>,
        range: Boxed<Expr>,
    },
    /// `is` or, negated, `!is`.
    Is {
        negated: bool,
        value: Boxed<Expr>,
        ty: Type,
    },
    /// `as` or, safe, `as?`.
    As {
        safe: bool,
        value: Boxed<Expr>,
        ty: Type,
    },
    /// A member behind `.` or, safe, `?.`.
    Member {
        of: Boxed<Expr>,
        safe: bool,
        name: Word,
    },
    /// A call. A lambda behind the brackets is the last argument. There are no `types` where none are written.
    Call {
        of: Boxed<Expr>,
        token: Span,
        types: Items<TypeArg>,
        args: Items<Arg>,
    },
    Index {
        of: Boxed<Expr>,
        token: Span,
        at: Items<Expr>,
    },
    If {
        test: Boxed<Expr>,
        held: Boxed<Expr>,
        failed: Option<Boxed<Expr>>,
    },
    /// A `when`. `bound` is the variable that holds the subject.
    When {
        bound: Option<LocalName>,
        subject: Option<Boxed<Expr>>,
        branches: Items<Branch>,
    },
    /// A `try` with the statements of its block. `last` is the block of its `finally`.
    Try {
        body: Items<Expr>,
        catches: Items<CatchPart>,
        last: Option<Boxed<Expr>>,
    },
    /// A lambda, from `{` to `}`. `arrow` says that `->` is written, also behind no parameter.
    Lambda {
        label: Option<Word>,
        params: Items<LocalName>,
        arrow: bool,
        body: Items<Expr>,
    },
    Return {
        label: Option<Word>,
        value: Option<Boxed<Expr>>,
    },
    Break(Option<Word>),
    Continue(Option<Word>),
    Throw(Boxed<Expr>),
    /// Statements in braces.
    Block(Items<Expr>),
    /// A `val` or `var` in a body. `brackets` says that its names stand in round brackets.
    Local {
        is_var: bool,
        names: Items<LocalName>,
        brackets: bool,
        value: Option<Boxed<Expr>>,
    },
    Assign {
        op: AssignOp,
        token: Span,
        place: Boxed<Expr>,
        value: Boxed<Expr>,
    },
    /// A `for`. `brackets` says that its names stand in round brackets of their own.
    For {
        label: Option<Word>,
        names: Items<LocalName>,
        brackets: bool,
        token: Span,
        range: Boxed<Expr>,
        body: Boxed<Expr>,
    },
    While {
        label: Option<Word>,
        test: Boxed<Expr>,
        body: Boxed<Expr>,
    },
    DoWhile {
        label: Option<Word>,
        body: Boxed<Expr>,
        test: Boxed<Expr>,
    },
}

/// A piece of a string (Kotlin Language Specification 1.9, "String interpolation expressions").
#[cycle(tree)]
#[derive(Drop)]
pub enum Piece {
    /// Text, with the escapes replaced by what they stand for.
    Text(Text),
    /// `$name`
    Name(Word),
    /// `${expression}`
    Hole(Expr),
}

/// An argument of a call (Kotlin Language Specification 1.9, "Call and property access expressions").
#[cycle(tree)]
#[derive(Drop)]
pub struct Arg {
    pub span: Span,
    pub name: Option<Word>,
    /// Whether `*` stands before the value.
    pub spread: bool,
    /// Whether it is a lambda behind the brackets.
    pub trailing: bool,
    pub value: Expr,
}

/// A condition of a `when`'s branch (Kotlin Language Specification 1.9, "When expressions").
#[cycle(tree)]
#[derive(Drop)]
pub enum Cond {
    In {
        span: Span,
        negated: bool,
        range: Expr,
    },
    Is {
        span: Span,
        negated: bool,
        ty: Type,
    },
    Value(Expr),
}

/// A branch of a `when`. The branch of `else` has no conditions.
#[cycle(tree)]
#[derive(Drop)]
pub struct Branch {
    pub span: Span,
    pub conds: Items<Cond>,
    pub body: Expr,
}

/// A `catch` with its variable and its block (Kotlin Language Specification 1.9, "Try-expressions").
#[cycle(tree)]
#[derive(Drop)]
pub struct CatchPart {
    pub span: Span,
    pub name: Word,
    pub ty: Type,
    pub body: Expr,
}
