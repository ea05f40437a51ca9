//! Open sequences.

use walrus_ir::{BlockKind, InstrLocId, InstrSeqId, ValType};

/// An open sequence (WebAssembly core specification 3.0, appendix, validation algorithm).
#[derive(Drop)]
pub struct ControlFrame {
    /// The types of its parameters.
    pub start_types: Vec<ValType>,
    /// The types of its results.
    pub end_types: Vec<ValType>,
    /// Whether it is unreachable: the instructions that follow in it are dropped.
    pub unreachable: bool,
    /// Its sequence.
    pub block: InstrSeqId,
    /// The kind of the sequence in its construct.
    pub kind: BlockKind,
    /// The position of its first instruction in the list of the instructions of all open frames.
    pub start: usize,
}

/// The open sequences, the innermost last.
pub type ControlStack = Vec<ControlFrame>;

/// An `if` whose `end` has not been read yet.
#[derive(Clone, Copy)]
pub struct IfElseState {
    /// The location of the `if`.
    pub start: InstrLocId,
    /// The sequence after the `if`.
    pub consequent: InstrSeqId,
    /// The sequence after the `else`, if there is one.
    pub alternative: Option<InstrSeqId>,
}
