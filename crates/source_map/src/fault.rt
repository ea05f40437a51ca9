//! Why mappings can't be read.

ghost use Rattle.std.specs.Prelude.{◌≡◌};
ghost use Rattle.source_map.specs.declared.fault.MappingsError.TheVariants.{Memory, Fault};

use std::alloc::{AllocError, AllocFailed};
use thiserror::Error;

/// What is wrong with the text of mappings: the first part, from left to right, that can't be read.
#[derive(Clone, Copy, Debug, PartialEq, Eq, Error)]
pub enum MappingsFault {
    /// A character isn't a digit of base64 (RFC 4648, section 4), a comma or a semicolon.
    #[error("a character of the mappings is no digit of base64")]
    BadDigit,
    /// The text or a segment ends after a digit that says that another follows.
    #[error("the mappings end inside a number")]
    CutNumber,
    /// A number has more than seven digits.
    #[error("a number of the mappings is too long")]
    LongNumber,
    /// A segment doesn't have one, four or five fields.
    #[error("a mapping has neither one nor four nor five fields")]
    FieldCount,
    /// A field is below 0, or doesn't fit 32 bits.
    #[error("a field of a mapping is out of range")]
    FieldOutOfRange,
    /// A column is less than the one before it.
    #[error("the mappings are not sorted by their offsets")]
    UnsortedColumn,
    /// The generated program has more than one line.
    #[error("the mappings have more than one line")]
    SecondLine,
}

/// Why mappings aren't read.
#[derive(Clone, Copy, Debug, PartialEq, Eq, Drop)]
pub enum MappingsError {
    /// Memory ran out.
    Memory,
    /// What is wrong with their text.
    Fault(MappingsFault),
}

impl From<MappingsFault> for MappingsError {
    ghost from_gives = { λ fault e. e ≡ Fault fault };

    fn from(fault: MappingsFault) -> MappingsError {
        MappingsError::Fault(fault)
    }
}

impl From<AllocError> for MappingsError {
    ghost from_gives = { λ _ e. e ≡ Memory };

    fn from(_: AllocError) -> MappingsError {
        MappingsError::Memory
    }
}

impl<T: Drop> From<AllocFailed<T>> for MappingsError {
    ghost from_gives = { λ _ e. e ≡ Memory };

    fn from(_: AllocFailed<T>) -> MappingsError {
        MappingsError::Memory
    }
}
