//! Frames of open sequences.

use wasm_context::TypeList;

/// Which operator opened a sequence ("opcode").
#[derive(Clone, Copy)]
pub enum Opened {
    /// The function.
    Function,
    /// `block`
    Block,
    /// `loop`
    Loop,
    /// `if`
    If,
    /// `else`
    Else,
    /// `try_table`
    TryTable,
    /// `try`
    Try,
    /// `catch`
    Catch,
    /// `catch_all`
    CatchAll,
}

/// An open sequence ("ctrl_frame").
#[derive(Clone, Copy)]
pub struct Frame {
    /// Which operator opened it.
    pub opened: Opened,
    /// The types of the operands at its begin.
    pub starts: TypeList,
    /// The types of the operands at its end.
    pub ends: TypeList,
    /// The number of operands below it.
    pub height: usize,
    /// The number of locals that were set before it.
    pub locals_height: usize,
    /// Whether its end can't be reached.
    pub unreachable: bool,
}
