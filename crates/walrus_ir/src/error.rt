//! The errors of a walk.
ghost use Rattle.std.specs.Prelude.{◌≡◌};
ghost use Rattle.walrus_ir.specs.declared.error.WalkError.TheVariants.{Memory};

use std::alloc::{AllocError, AllocFailed};
use thiserror::Error;

/// The reason why a walk over a function's sequences was not made, or not finished.
#[derive(Clone, Copy, Debug, PartialEq, Eq, Error)]
pub enum WalkError {
    /// An instruction names a sequence that the function's builder doesn't have.
    #[error("an instruction names a sequence that is not there")]
    UnknownSequence,
    /// A sequence would be entered twice.
    #[error("a sequence is reached twice")]
    SharedSequence,
    /// Memory ran out.
    #[error("out of memory")]
    Memory,
    /// A visitor's count doesn't fit its type. The walk itself never returns this error.
    #[error("a count is too large")]
    TooLarge,
}

impl From<AllocError> for WalkError {
    ghost from_gives = { λ _ e. e ≡ Memory };

    fn from(_error: AllocError) -> WalkError {
        WalkError::Memory
    }
}

impl<T: Drop> From<AllocFailed<T>> for WalkError {
    ghost from_gives = { λ _ e. e ≡ Memory };

    fn from(_error: AllocFailed<T>) -> WalkError {
        WalkError::from(AllocError)
    }
}
