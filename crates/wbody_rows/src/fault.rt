//! What can be wrong with a body.

use std::alloc::AllocError;
use thiserror::Error;
use walrus_body::{EmitError, IndexError, ParseError, ParseFailure};
use walrus_ir::WalkError;
use walrus_run::RewriteError;

/// What is wrong with a body or with the bytes written for it, or that memory ran out.
#[derive(Clone, Copy, Debug, PartialEq, Eq, Error)]
pub(crate) enum Fault {
    /// Memory ran out.
    #[error("out of memory")]
    Memory,
    /// The argument isn't hexadecimal.
    #[error("it isn't hexadecimal")]
    NotHexadecimal,
    /// The body isn't accepted.
    #[error("it isn't read")]
    Unread,
    /// The parsed function isn't written.
    #[error("it isn't written")]
    Unwritten,
    /// The bytes that are written for the body aren't accepted.
    #[error("what is written isn't read back")]
    NotReadBack,
    /// Read back, they are written as other bytes.
    #[error("what is read back is written otherwise")]
    WrittenOtherwise,
    /// `rewrite_body` refuses the body.
    #[error("`rewrite_body` refuses it")]
    NotRewritten,
    /// `rewrite_body` appends other bytes than parsing and writing do.
    #[error("`rewrite_body` appends other bytes")]
    AppendsOthers,
    /// `rewrite_flat` appends other bytes or pairs than `rewrite_body`, or has another fault.
    #[error("`rewrite_flat` differs from `rewrite_body`")]
    FlatDiffers,
    /// A proper prefix of the body's operators is accepted as a body.
    #[error("a front of it is accepted")]
    FrontAccepted,
    /// A run of the written bytes executes other operators.
    #[error("a run shows other operators")]
    OtherEvents,
    /// A run of the written bytes ends in another way.
    #[error("a run ends otherwise")]
    OtherEnding,
}

impl Fault {
    /// This fault, unless memory ran out.
    pub(crate) fn unless(self, no_memory: bool) -> Fault {
        if no_memory { Fault::Memory } else { self }
    }
}

impl From<AllocError> for Fault {
    fn from(_: AllocError) -> Fault {
        Fault::Memory
    }
}

// The maps of the demo module are refused only if memory runs out.
impl From<IndexError> for Fault {
    fn from(_: IndexError) -> Fault {
        Fault::Memory
    }
}

impl From<hex::FromHexError> for Fault {
    fn from(error: hex::FromHexError) -> Fault {
        match error {
            hex::FromHexError::OutOfMemory => Fault::Memory,
            _ => Fault::NotHexadecimal,
        }
    }
}

impl From<ParseFailure> for Fault {
    fn from(failure: ParseFailure) -> Fault {
        Fault::Unread.unless(failure.error == ParseError::Memory)
    }
}

impl From<WalkError> for Fault {
    fn from(error: WalkError) -> Fault {
        Fault::Unwritten.unless(error == WalkError::Memory)
    }
}

impl From<EmitError> for Fault {
    fn from(error: EmitError) -> Fault {
        Fault::Unwritten.unless(error == EmitError::Memory)
    }
}

impl From<RewriteError> for Fault {
    fn from(error: RewriteError) -> Fault {
        let no_memory = match error {
            RewriteError::Parse(failure) => failure.error == ParseError::Memory,
            RewriteError::Walk(error) => error == WalkError::Memory,
            RewriteError::Emit(error) => error == EmitError::Memory,
        };
        Fault::NotRewritten.unless(no_memory)
    }
}
