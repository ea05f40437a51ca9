//! Why a body isn't rewritten.
ghost use Rattle.std.specs.Prelude.{◌≡◌};
ghost use Rattle.walrus_rewrite.specs.Errors.{name_of_rewrite_error};

use std::alloc::AllocError;
use thiserror::Error;
use walrus_body::{EmitError, IndexError, ParseFailure};
use walrus_ir::WalkError;

/// Why a body isn't rewritten.
#[derive(Clone, Copy, Debug, PartialEq, Eq, Error)]
pub enum RewriteError {
    /// The body isn't accepted: its first fault, and the place.
    #[error(transparent)]
    Parse(ParseFailure),
    /// The tree of the function can't be walked over, so no facts about it are found.
    #[error(transparent)]
    Walk(WalkError),
    /// The function can't be written.
    #[error(transparent)]
    Emit(EmitError),
}

impl RewriteError {
    /// The error's name: that of its innermost variant.
    pub fn name(self) -> &'static str
        ensures { result.now ≡ name_of_rewrite_error self }
    {
        match self {
            RewriteError::Parse(failure) => failure.error.name(),
            RewriteError::Walk(error) => EmitError::from(error).name(),
            RewriteError::Emit(error) => error.name(),
        }
    }
}

impl From<AllocError> for RewriteError {
    ghost use Rattle.wasm_body.specs.declared.error.EmitError.TheVariants.{Memory};
    ghost use Rattle.walrus_rewrite.specs.declared.error.RewriteError.TheVariants.{Emit};

    ghost from_gives = { λ _ error. error ≡ Emit Memory };

    fn from(_failed: AllocError) -> RewriteError {
        RewriteError::Emit(EmitError::Memory)
    }
}

/// As `Parse`.
impl From<ParseFailure> for RewriteError {
    ghost use Rattle.walrus_rewrite.specs.declared.error.RewriteError.TheVariants.{Parse};

    ghost from_gives = { λ failure error. error ≡ Parse failure };

    fn from(failure: ParseFailure) -> RewriteError {
        RewriteError::Parse(failure)
    }
}

/// As `Walk`.
impl From<WalkError> for RewriteError {
    ghost use Rattle.walrus_rewrite.specs.declared.error.RewriteError.TheVariants.{Walk};

    ghost from_gives = { λ walk error. error ≡ Walk walk };

    fn from(error: WalkError) -> RewriteError {
        RewriteError::Walk(error)
    }
}

/// As `Emit`.
impl From<EmitError> for RewriteError {
    ghost use Rattle.walrus_rewrite.specs.declared.error.RewriteError.TheVariants.{Emit};

    ghost from_gives = { λ emit error. error ≡ Emit emit };

    fn from(error: EmitError) -> RewriteError {
        RewriteError::Emit(error)
    }
}

/// As `Emit`, with `EmitError::Index`.
impl From<IndexError> for RewriteError {
    ghost use Rattle.wasm_body.specs.declared.error.EmitError.TheVariants.{Index};
    ghost use Rattle.walrus_rewrite.specs.declared.error.RewriteError.TheVariants.{Emit};

    ghost from_gives = { λ index error. error ≡ Emit (Index index) };

    fn from(error: IndexError) -> RewriteError {
        RewriteError::Emit(EmitError::Index(error))
    }
}
