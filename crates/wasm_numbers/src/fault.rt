//! The reasons why an operator can't be read.

use thiserror::Error;

/// What is wrong with the bytes of an operator (WebAssembly core specification 3.0, binary format):
/// the fault of the first part, from left to right, that can't be read.
#[derive(Clone, Copy, Debug, PartialEq, Eq, Error)]
pub enum ReadFault {
    /// The bytes end inside an operator.
    #[error("the bytes end inside an operator")]
    Truncated,
    /// A LEB128 number has too many bytes for its type, or its last byte has bits that don't fit.
    #[error("a number is too long or too great for its type")]
    BadNumber,
    /// No operator has this opcode.
    #[error("no operator is spelt so")]
    UnknownOperator,
    /// The flags of a memory argument are not allowed: they are 32 to 63, or more than 95.
    #[error("the flags of a memory access are not allowed")]
    BadMemArg,
    /// A byte where a value type is required isn't one, or a type index is negative.
    #[error("no type that is allowed here is spelt so")]
    BadType,
    /// The kind of a clause of `try_table` is more than 3.
    #[error("no clause of `try_table` is of this kind")]
    BadCatchKind,
    /// The flags of `br_on_cast` or `br_on_cast_fail` are more than 3.
    #[error("the flags of a cast are not allowed")]
    BadCastFlags,
    /// The byte after `atomic.fence` is not zero.
    #[error("a fence is not followed by a zero byte")]
    BadFence,
    /// The number of types of a `select` with types is not 1.
    #[error("`select` does not name exactly one type")]
    BadSelect,
}

/// An operator can't be read.
#[derive(Clone, Copy, Debug, PartialEq, Eq, Error)]
#[error("{fault} at {at}")]
pub struct ReadError {
    /// The reason.
    pub fault: ReadFault,
    /// The place of the operator: the byte offset of its first byte.
    pub at: usize,
}
