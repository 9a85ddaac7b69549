//! Why bytes are no class file.

/// Why bytes are no class file of the profile (Java Virtual Machine Specification SE 8, chapter 4). Of several causes at one field
/// the one that stands first here counts.
#[derive(Clone, Copy, Debug, PartialEq, Eq)]
pub enum FormatCode {
    /// A field goes on behind the end of the file, or of the attribute or code that it stands in.
    Truncated,
    /// The first four bytes are not `CAFEBABE`.
    BadMagic,
    /// The version is not 52.0.
    Version,
    /// The pool's count is 0, or a `Long` has no second index.
    BadPool,
    /// A text is not modified UTF-8.
    BadName,
    /// An index of no entry, or of an entry of another kind.
    BadIndex,
    /// A text that is no descriptor stands in place of one.
    BadDescriptor,
    /// An instruction that is not in the table, an operand of a wrong kind, a code of a wrong length, a method that has code and may
    /// not, or that has none and must, or an attribute with a meaning that comes twice.
    BadCode,
    /// A frame's form or a verification type that is not there, or fewer locals than a frame takes away.
    BadFrame,
    /// What class files have and the profile leaves out.
    OutOfProfile,
    /// A second member of one name and descriptor.
    Doubled,
    /// Bytes behind the end.
    Trailing,
}

/// What is wrong with bytes that are no class file: the first fault by the offset of its field, in bytes from the file's start.
#[derive(Clone, Copy, Debug, PartialEq, Eq)]
pub struct FormatFault {
    pub at: usize,
    pub code: FormatCode,
}
