//! Why a section of DWARF can't be read or moved.

ghost use Rattle.std.specs.Prelude.{◌≡◌};
ghost use Rattle.dwarf_bytes.specs.declared.fault.DebugError.TheVariants.{Memory, Fault};
ghost use Rattle.dwarf_bytes.specs.Faults.{debug_fault_of};

use std::alloc::{AllocError, AllocFailed};
use thiserror::Error;
use wasm_numbers::ReadFault;

/// What is wrong with a section of DWARF, or why it can't follow the code that it describes.
#[derive(Clone, Copy, Debug, PartialEq, Eq, Error)]
pub enum DebugFault {
    /// The section ends inside a value.
    #[error("the section ends inside a value")]
    Truncated,
    /// A LEB128 number has too many bytes, or is too great for 64 bits.
    #[error("a number is too long or too great")]
    BadNumber,
    /// A length leads beyond what contains it, or is one of those that the standard reserves.
    #[error("a length leads beyond what contains it")]
    BadLength,
    /// An offset leads outside of its section.
    #[error("an offset leads outside of its section")]
    BadOffset,
    /// The version isn't one of those that are known.
    #[error("the version is unknown")]
    UnknownVersion,
    /// No attribute form that is known has this code.
    #[error("a form is unknown")]
    UnknownForm,
    /// No operation of expressions that is known has this code.
    #[error("an operation is unknown")]
    UnknownOperation,
    /// The section uses something that is known but can't be moved.
    #[error("the section uses something that can't be moved")]
    Unsupported,
    /// Lists or tables overlap.
    #[error("lists or tables overlap")]
    Overlap,
    /// A number doesn't fit its field.
    #[error("a number doesn't fit its field")]
    DoesNotFit,
}

/// Why a section of DWARF isn't moved.
#[derive(Clone, Copy, Debug, PartialEq, Eq, Error)]
pub enum DebugError {
    /// What is wrong with the section.
    #[error("{0}")]
    Fault(DebugFault),
    /// Out of memory.
    #[error("out of memory")]
    Memory,
}

impl From<ReadFault> for DebugFault {
    ghost from_gives = { λ fault d. d ≡ debug_fault_of fault };

    fn from(fault: ReadFault) -> DebugFault {
        match fault {
            ReadFault::Truncated => DebugFault::Truncated,
            _ => DebugFault::BadNumber,
        }
    }
}

impl From<DebugFault> for DebugError {
    ghost from_gives = { λ fault e. e ≡ Fault fault };

    fn from(fault: DebugFault) -> DebugError {
        DebugError::Fault(fault)
    }
}

impl From<ReadFault> for DebugError {
    ghost from_gives = { λ fault e. e ≡ Fault (debug_fault_of fault) };

    fn from(fault: ReadFault) -> DebugError {
        DebugError::Fault(DebugFault::from(fault))
    }
}

impl From<AllocError> for DebugError {
    ghost from_gives = { λ _ e. e ≡ Memory };

    fn from(_: AllocError) -> DebugError {
        DebugError::Memory
    }
}

impl<T: Drop> From<AllocFailed<T>> for DebugError {
    ghost from_gives = { λ _ e. e ≡ Memory };

    fn from(_: AllocFailed<T>) -> DebugError {
        DebugError::Memory
    }
}
