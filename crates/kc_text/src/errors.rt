//! Why a call gives no answer.
ghost use Rattle.std.specs.Prelude.{◌≡◌};
ghost use Rattle.kc_text.specs.declared.errors.Fail.TheVariants as fail;

use std::alloc::{AllocError, AllocFailed};
use thiserror::Error;

/// An allocation failed.
#[derive(Clone, Copy, Debug, PartialEq, Eq, Error)]
#[error("out of memory")]
pub struct Memory;

impl From<AllocError> for Memory {
    fn from(_refused: AllocError) -> Memory {
        Memory
    }
}

impl<T: Drop> From<AllocFailed<T>> for Memory {
    fn from(_refused: AllocFailed<T>) -> Memory {
        Memory
    }
}

impl From<Memory> for AllocError {
    fn from(_refused: Memory) -> AllocError {
        AllocError
    }
}

/// Why a call gives no answer, where it can also fail by what it found.
#[derive(Debug, PartialEq, Eq, Drop)]
pub enum Fail<F> {
    /// The cause that the call reports.
    Found(F),
    /// An allocation failed.
    Memory,
}

impl<F> From<Memory> for Fail<F> {
    ghost from_gives = { λ _ cause. cause ≡ fail.Memory };

    fn from(_refused: Memory) -> Fail<F> {
        Fail::Memory
    }
}

impl<F> From<AllocError> for Fail<F> {
    ghost from_gives = { λ _ cause. cause ≡ fail.Memory };

    fn from(_refused: AllocError) -> Fail<F> {
        Fail::Memory
    }
}

impl<F, T: Drop> From<AllocFailed<T>> for Fail<F> {
    ghost from_gives = { λ _ cause. cause ≡ fail.Memory };

    fn from(_refused: AllocFailed<T>) -> Fail<F> {
        Fail::Memory
    }
}

/// The bytes are not UTF-8 (RFC 3629; The Unicode Standard, table 3-7).
#[derive(Clone, Copy, Debug, PartialEq, Eq, Error)]
#[error("not UTF-8 from byte {at} on")]
pub struct BadUtf8 {
    /// The length in bytes of the longest prefix that is UTF-8.
    pub at: usize,
}

/// The bytes are not modified UTF-8 (JVM Specification SE 8, 4.4.7).
#[derive(Clone, Copy, Debug, PartialEq, Eq, Error)]
#[error("not modified UTF-8 from byte {at} on")]
pub struct BadModified {
    /// The length in bytes of the longest prefix that is modified UTF-8.
    pub at: usize,
}
