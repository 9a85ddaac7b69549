//! Where functions and properties stand.

/// Where a function or a property stands (Kotlin Language Specification 1.9, "Declarations").
#[derive(Clone, Copy, Debug, PartialEq, Eq)]
pub enum Site {
    /// At the top of a file.
    TopLevel,
    InClass,
    InInterface,
}
