//! What the machine computes with.

/// A value of a local variable or of the operand stack. A `Long` is one item of the stack; as a local variable it is followed by
/// `Nothing`, which is also what a local variable holds before its first store.
#[derive(Clone, Copy)]
pub enum Value {
    Nothing,
    Int(i32),
    Long(i64),
    Null,
    /// An object, by its number in the heap.
    Ref(usize),
}

/// The kinds of value that an instruction names.
#[derive(Clone, Copy)]
pub enum Kind {
    Int,
    Long,
    Ref,
}

/// A class of exceptions or errors that the run-time system provides.
#[derive(Clone, Copy)]
pub enum BuiltIn {
    Throwable,
    Exception,
    Error,
    RuntimeException,
    IllegalArgumentException,
    NumberFormatException,
    IllegalStateException,
    UnsupportedOperationException,
    ArithmeticException,
    NullPointerException,
    ClassCastException,
    IndexOutOfBoundsException,
    ArrayIndexOutOfBoundsException,
    ArrayStoreException,
    NegativeArraySizeException,
    IncompatibleClassChangeError,
    AbstractMethodError,
    NoSuchElementException,
}

/// A method that the run-time system provides, by its class and its name.
#[derive(Clone, Copy)]
pub enum NativeId {
    ObjectInit,
    /// Are the two one object?
    ObjectEquals,
    /// Always 0.
    ObjectHashCode,
    /// The class's name with dots, and `@0`; `kotlin.Array@0` of an array.
    ObjectToString,
    StringEquals,
    StringHashCode,
    StringToString,
    StringCompareTo,
    IntegerValueOf,
    IntegerIntValue,
    IntegerEquals,
    IntegerHashCode,
    IntegerToString,
    IntegerCompareTo,
    LongValueOf,
    LongLongValue,
    LongEquals,
    LongHashCode,
    LongToString,
    LongCompareTo,
    CharacterValueOf,
    CharacterCharValue,
    CharacterEquals,
    CharacterHashCode,
    CharacterToString,
    CharacterCompareTo,
    BooleanValueOf,
    BooleanBooleanValue,
    BooleanEquals,
    BooleanHashCode,
    BooleanToString,
    BooleanCompareTo,
    /// The constructor without message, of `Throwable` and of each class of exceptions.
    ThrowableInit,
    /// The constructor with a message.
    ThrowableInitMessage,
    ThrowableGetMessage,
    /// The class's name with dots, and `: ` with the message if it has one.
    ThrowableToString,
    /// Writes the text's UTF-8 to the standard output.
    ConsoleWrite,
    /// The next line of the standard input, or null at its end.
    ConsoleReadLine,
    TextsLength,
    TextsCharAt,
    /// The second text behind the first.
    TextsConcat,
    TextsSubstring,
    /// -1, 0 or 1 by the first unit that differs, or by length.
    TextsCompare,
    /// The number in decimal.
    TextsOfInt,
    TextsOfLong,
    TextsOfChar,
    TextsOfBoolean,
    UnitToString,
}
