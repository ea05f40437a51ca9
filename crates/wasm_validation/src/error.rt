//! The errors of validating a body.

use thiserror::Error;
use wasm_numbers::ReadFault;

/// Why a body isn't valid (WebAssembly core specification 3.0, validation of expressions, and binary format of
/// instructions).
#[derive(Clone, Copy, Debug, PartialEq, Eq, Error)]
pub enum ValidationError {
    /// Out of memory.
    #[error("out of memory")]
    Memory,
    /// An operator can't be read.
    #[error(transparent)]
    Read(ReadFault),
    /// The algorithm refuses an operator.
    #[error("invalid operator")]
    Invalid,
    /// There are bytes after the last `end`.
    #[error("there are bytes after the last `end`")]
    Trailing,
    /// The bytes end before the last `end`.
    #[error("an `end` is missing")]
    MissingEnd,
}

/// Why a body isn't valid, and the place where that is: a byte offset. For `Memory` it is the place that was reached.
#[derive(Clone, Copy, Debug, PartialEq, Eq, Error)]
#[error("{error} at {at}")]
pub struct ValidationFailure {
    /// What is wrong.
    pub error: ValidationError,
    /// The place: the byte offset of the operator that is refused, or at which reading stopped.
    pub at: usize,
}
