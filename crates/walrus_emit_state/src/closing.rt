//! The sequences of a tree that is written, each with what closes it.

use walrus_ir::{InstrLocId, InstrSeqId, TagId};

/// The operator that closes a sequence (WebAssembly core specification 3.0, instructions; the last
/// three of the legacy exception handling proposal).
#[derive(Clone, Copy)]
pub enum Closer {
    /// `end`
    End,
    /// `else`, where the alternative begins
    Else,
    /// `catch`, where the handler for a tag begins
    Catch { tag: TagId },
    /// `catch_all`, where the handler for all exceptions begins
    CatchAll,
    /// `delegate`, with the number of constructs between its own and the one that it names
    Delegate { relative_depth: u32 },
}

/// A sequence that is to come or is open, by its slot in the builder.
#[derive(Clone, Copy)]
pub struct SequenceScope {
    /// Its slot.
    pub place: InstrSeqId,
    /// The operator that closes it, if any, and its location.
    pub closer: Option<(Closer, InstrLocId)>,
}
