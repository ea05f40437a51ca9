//! The errors of index maps, of parsing a body, and of writing a tree.

use std::alloc::{AllocError, AllocFailed};
use thiserror::Error;
use walrus_ir::{FunctionId, WalkError};
use wasm_numbers::ReadError;
use wasm_operators::Space;

/// The errors of an index map: a look-up fails, or the map can't grow. Indices are those of the
/// index spaces of a module (WebAssembly core specification 3.0, indices).
#[derive(Clone, Copy, Debug, PartialEq, Eq, Error)]
pub enum IndexError {
    /// No id has this old index.
    #[error("index `{index}` is out of bounds for {space}")]
    OutOfRange { space: Space, index: u32 },
    /// The function has no locals.
    #[error("function index `{}` is out of bounds for local", function.index())]
    NoLocals { function: FunctionId },
    /// The id has no new index.
    #[error("an id has no index among {space}")]
    Unnumbered { space: Space },
    /// There are already 2^32 ids.
    #[error("there are too many ids for another index")]
    TooMany,
    /// Out of memory.
    #[error("out of memory")]
    Memory,
    /// The function has no local with this old index.
    #[error("index `{index}` in function `{}` is out of bounds for local", function.index())]
    LocalOutOfRange { function: FunctionId, index: u32 },
}

impl<T: Drop> From<AllocFailed<T>> for IndexError {
    ghost use Rattle.std.specs.Prelude.{◌≡◌};
    ghost use Rattle.wasm_body.specs.declared.error.IndexError.TheVariants.{Memory};

    ghost from_gives = { λ _ error. error ≡ Memory };

    fn from(_failed: AllocFailed<T>) -> IndexError {
        IndexError::Memory
    }
}

/// The errors of parsing a body (WebAssembly core specification 3.0, control instructions and
/// binary format; legacy exception handling).
#[derive(Clone, Copy, Debug, PartialEq, Eq, Error)]
pub enum ParseError {
    /// An operator can't be decoded.
    #[error(transparent)]
    Read(ReadError),
    /// The place of an operator is too great to be a location.
    #[error("the place of an operator is too great")]
    PlaceTooGreat,
    /// The validator refused an operator, with this number.
    #[error("the validator refused an operator: {0}")]
    Checked(u32),
    /// An index has no id.
    #[error(transparent)]
    Index(IndexError),
    /// A label names no sequence around the operator.
    #[error("a label is not open")]
    NoSuchLabel,
    /// A type is not a function type.
    #[error("a type is not a function type")]
    NotAFunctionType,
    /// The module has no type for a sequence with these parameters and results.
    #[error("the module has no type with these parameters and results")]
    TypeMissing,
    /// The module has no entry type for the function's results.
    #[error("the module has no entry type with these results")]
    EntryTypeMissing,
    /// An `else` that isn't after the consequent of an `if`.
    #[error("`else` outside of `if`")]
    ElseOutsideIf,
    /// A `catch` or `catch_all` that isn't after the body of a `try` or the handler of a `catch`.
    #[error("`catch` outside of `try`")]
    CatchOutsideTry,
    /// A `delegate` that isn't after the body of a `try`.
    #[error("`delegate` outside of `try`")]
    DelegateOutsideTry,
    /// The label of a `rethrow` is not that of a handler.
    #[error("`rethrow` does not name a handler")]
    RethrowOutsideHandler,
    /// There are bytes after the last `end`.
    #[error("there are bytes after the last `end`")]
    Trailing,
    /// The bytes end before the last `end`.
    #[error("an `end` is missing")]
    MissingEnd,
    /// The sequence around the innermost one doesn't end with a legacy `try`. No parse returns this
    /// error.
    #[error("the sequence around does not end with a `try`")]
    NoTry,
    /// No sequence is open. No parse returns this error.
    #[error("no sequence is open")]
    NoFrame,
    /// The module doesn't have a tag with this id.
    #[error("the module does not hold a tag")]
    UnknownId,
    /// Out of memory.
    #[error("out of memory")]
    Memory,
}

impl From<AllocError> for ParseError {
    ghost use Rattle.std.specs.Prelude.{◌≡◌};
    ghost use Rattle.wasm_body.specs.declared.error.ParseError.TheVariants.{Memory};

    ghost from_gives = { λ _ error. error ≡ Memory };

    fn from(_failed: AllocError) -> ParseError {
        ParseError::Memory
    }
}

impl<T: Drop> From<AllocFailed<T>> for ParseError {
    ghost use Rattle.std.specs.Prelude.{◌≡◌};
    ghost use Rattle.wasm_body.specs.declared.error.ParseError.TheVariants.{Memory};

    ghost from_gives = { λ _ error. error ≡ Memory };

    fn from(_failed: AllocFailed<T>) -> ParseError {
        ParseError::Memory
    }
}

impl From<IndexError> for ParseError {
    ghost use Rattle.std.specs.Prelude.{◌≡◌};
    ghost use Rattle.wasm_body.specs.declared.error.ParseError.TheVariants.{Index};

    ghost from_gives = { λ fault error. error ≡ Index fault };

    fn from(fault: IndexError) -> ParseError {
        ParseError::Index(fault)
    }
}

/// The error of parsing a body, and the place where it is: a byte offset. For `Memory` the place is
/// not specified.
#[derive(Clone, Copy, Debug, PartialEq, Eq, Error)]
#[error("{error} at {at}")]
pub struct ParseFailure {
    /// What is wrong.
    pub error: ParseError,
    /// The place: the byte offset of the operator that is refused, or at which reading stopped.
    pub at: usize,
}

/// The errors of writing a tree.
#[derive(Clone, Copy, Debug, PartialEq, Eq, Error)]
pub enum EmitError {
    /// An id has no new index.
    #[error(transparent)]
    Index(IndexError),
    /// A local has no number.
    #[error("a local has no number")]
    UnnumberedLocal,
    /// The builder doesn't have a sequence.
    #[error("a sequence is not in the builder")]
    UnknownSequence,
    /// A sequence is reached twice.
    #[error("a sequence is reached twice")]
    SharedSequence,
    /// The target of a branch is not a sequence around it.
    #[error("a branch goes outside of the sequences around it")]
    BranchOutside,
    /// The clauses of a legacy `try` are not in an allowed order: any number of `catch`, then at
    /// most one `catch_all`; or one `delegate` alone.
    #[error("the clauses of a `try` are not lawful")]
    BadClauses,
    /// The module doesn't have a local that is used.
    #[error("the module does not hold a local")]
    UnknownLocal,
    /// A count or a depth doesn't fit 32 bits.
    #[error("a count or a depth is too large")]
    TooLarge,
    /// Out of memory.
    #[error("out of memory")]
    Memory,
}

impl From<AllocError> for EmitError {
    ghost use Rattle.std.specs.Prelude.{◌≡◌};
    ghost use Rattle.wasm_body.specs.declared.error.EmitError.TheVariants.{Memory};

    ghost from_gives = { λ _ error. error ≡ Memory };

    fn from(_failed: AllocError) -> EmitError {
        EmitError::Memory
    }
}

impl<T: Drop> From<AllocFailed<T>> for EmitError {
    ghost use Rattle.std.specs.Prelude.{◌≡◌};
    ghost use Rattle.wasm_body.specs.declared.error.EmitError.TheVariants.{Memory};

    ghost from_gives = { λ _ error. error ≡ Memory };

    fn from(_failed: AllocFailed<T>) -> EmitError {
        EmitError::Memory
    }
}

impl From<IndexError> for EmitError {
    ghost use Rattle.std.specs.Prelude.{◌≡◌};
    ghost use Rattle.wasm_body.specs.declared.error.EmitError.TheVariants.{Index};

    ghost from_gives = { λ fault error. error ≡ Index fault };

    fn from(fault: IndexError) -> EmitError {
        EmitError::Index(fault)
    }
}

impl From<WalkError> for EmitError {
    ghost use Rattle.std.specs.Prelude.{◌≡◌};
    ghost use Rattle.wasm_body.specs.TreeOfFunction.{fault_of_walk};

    ghost from_gives = { λ walk error. error ≡ fault_of_walk walk };

    fn from(error: WalkError) -> EmitError {
        match error {
            WalkError::UnknownSequence => EmitError::UnknownSequence,
            WalkError::SharedSequence => EmitError::SharedSequence,
            WalkError::Memory => EmitError::Memory,
            WalkError::TooLarge => EmitError::TooLarge,
        }
    }
}
