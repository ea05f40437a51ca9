//! The open sequences of a body that is checked.

use walrus_ir::{BlockKind, InstrSeqType};

/// An open sequence.
#[derive(Clone, Copy)]
pub(crate) struct OpenSequence {
    /// The kind of the sequence in its construct.
    pub kind: BlockKind,
    /// A type with the parameters and results of the construct's block type, as the block type names
    /// it.
    pub ty: InstrSeqType,
    /// Whether code was unreachable where the construct began.
    pub before: bool,
}
