//! Why addresses can't be followed.

ghost use Rattle.std.specs.Prelude.{◌≡◌};
ghost use Rattle.code_moves.specs.declared.fault.MoveError.TheVariants.{Memory};

use std::alloc::{AllocError, AllocFailed};
use thiserror::Error;

/// Why addresses can't be followed.
#[derive(Clone, Copy, Debug, PartialEq, Eq, Drop, Error)]
pub enum MoveError {
    /// Bodies, operators or locals aren't in order.
    #[error("bodies, operators or locals aren't in order")]
    Disordered,
    /// Out of memory.
    #[error("out of memory")]
    Memory,
}

impl From<AllocError> for MoveError {
    ghost from_gives = { λ _ e. e ≡ Memory };

    fn from(_: AllocError) -> MoveError {
        MoveError::Memory
    }
}

impl<T: Drop> From<AllocFailed<T>> for MoveError {
    ghost from_gives = { λ _ e. e ≡ Memory };

    fn from(_: AllocFailed<T>) -> MoveError {
        MoveError::Memory
    }
}
