//! Tokens (Kotlin Language Specification 1.9, "Lexical grammar").

use kc_text::Text;
use kc_tree::{Code, Span};

/// A token, where it stands, and whether it begins a line in a way that counts.
#[derive(Debug, PartialEq, Drop)]
pub struct Token {
    pub kind: TokenKind,
    pub span: Span,
    /// A line ends between the token before, or the start of the text, and this one. Not so within round and square brackets
    /// and before a token that carries on the line before.
    pub marked: bool,
}

/// What a token is. Names are their numbers.
#[derive(Debug, PartialEq, Drop)]
pub enum TokenKind {
    Word(Keyword),
    Name(usize),
    /// A name with `@` directly behind it.
    Label(usize),
    /// `@` and a name directly behind `break`, `continue` or `return`.
    LabelUse(usize),
    /// At most 9223372036854775807, and one more for a decimal number behind a `-`.
    Number {
        value: u64,
        /// It ends in `L`.
        long: bool,
    },
    /// A character literal's UTF-16 unit.
    CharLiteral(u16),
    StringOpen,
    /// The units that a stretch of a string stands for, escapes replaced.
    StringText(Text),
    /// `$` and a name.
    StringName(usize),
    /// `${`
    HoleOpen,
    /// The `}` of a `${`.
    HoleClose,
    StringClose,
    Op(Operator),
}

/// Keywords, with `as?`, `!in` and `!is`.
#[derive(Clone, Copy, Debug, PartialEq, Eq)]
pub enum Keyword {
    As,
    /// `as?`
    AsSafe,
    Break,
    Class,
    Continue,
    Do,
    Else,
    False,
    For,
    Fun,
    If,
    In,
    /// `!in`
    NotIn,
    Interface,
    Is,
    /// `!is`
    NotIs,
    Null,
    Object,
    Package,
    Return,
    Super,
    This,
    Throw,
    True,
    Try,
    Typealias,
    Typeof,
    Val,
    Var,
    When,
    While,
}

/// Operators and other signs.
#[derive(Clone, Copy, Debug, PartialEq, Eq)]
pub enum Operator {
    /// `===`
    Identical,
    /// `!==`
    NotIdentical,
    /// `..<`
    RangeUntil,
    /// `==`
    EqualEqual,
    /// `!=`
    NotEqual,
    /// `<=`
    LessEqual,
    /// `>=`
    GreaterEqual,
    /// `&&`
    And,
    /// `||`
    Or,
    /// `++`
    Increment,
    /// `--`
    Decrement,
    /// `+=`
    PlusAssign,
    /// `-=`
    MinusAssign,
    /// `*=`
    TimesAssign,
    /// `/=`
    DivideAssign,
    /// `%=`
    RemainderAssign,
    /// `!!`
    NotNull,
    /// `?.`
    SafeDot,
    /// `?:`
    Elvis,
    /// `->`
    Arrow,
    /// `..`
    Range,
    /// `+`
    Plus,
    /// `-`
    Minus,
    /// `*` that has no `.` as the token before it.
    Times,
    /// `*` that has `.` as the token before it.
    TimesBehindDot,
    /// `/`
    Divide,
    /// `%`
    Remainder,
    /// `=`
    Assign,
    /// `<`
    Less,
    /// `>`
    Greater,
    /// `!`
    Not,
    /// `?`
    Question,
    /// `:`
    Colon,
    /// `.`
    Dot,
    /// `,`
    Comma,
    /// `;`
    Semicolon,
    /// `@`
    At,
    /// `(`
    OpenRound,
    /// `)`
    CloseRound,
    /// `[`
    OpenSquare,
    /// `]`
    CloseSquare,
    /// `{`
    OpenBrace,
    /// `}`
    CloseBrace,
}

/// Why a text has no cut into tokens.
#[derive(Clone, Copy, Debug, PartialEq, Eq)]
pub struct LexFault {
    /// The UTF-16 unit that begins no token, comment or white space, or the opening that stays unclosed.
    pub at: usize,
    pub code: Code,
}
