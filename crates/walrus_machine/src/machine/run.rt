//! The outcomes that a run takes, and the events that it records.

use std::collections::BTreeSet;
use walrus_ir::TagId;

/// The part of an operator's execution that its operands, the store, a callee or the host decide.
/// The machine has no values, so outcomes are its input.
#[derive(Drop)]
pub enum Outcome {
    /// The operator goes on.
    Go,
    /// The operator traps.
    Trap,
    /// The operator throws an exception, which a clause with any of these tags catches.
    Raise(BTreeSet<TagId>),
    /// Whether the condition of an `if` is true, or a conditional branch is taken.
    Way(bool),
    /// The operand of a `br_table`, counted from 0. It means the default if the table has no such
    /// entry.
    Entry(u32),
}

/// An event of a run. Operators are given by their positions in the list that runs, from 0 on.
#[derive(Clone, Copy, Debug, PartialEq, Eq)]
pub enum Event {
    /// The operator at this position was executed.
    Op(usize),
    /// A construct caught an exception.
    Taken {
        /// The position of the construct's opener.
        i: usize,
        /// The number of the clause that caught it, counted from 0 among the construct's clauses.
        clause: usize,
        /// The clause's tag; none if it catches all.
        tag: Option<TagId>,
    },
}

/// How a run ends.
#[derive(Drop)]
pub enum Ending {
    /// The function returned.
    Returned,
    /// A tail call left the function.
    TailCalled,
    /// An operator trapped.
    Trapped,
    /// An exception with these tags left the function.
    Escaped(BTreeSet<TagId>),
    /// An operator needed an outcome, and none was left.
    OutcomesOut,
    /// A branch went to a loop, and no turn was left.
    TurnsOut,
    /// An operator got an outcome of a kind that it can't have.
    Mismatch,
}

/// A run: its events, in order, and how it ended.
#[derive(Drop)]
pub struct Run {
    /// The events, in order.
    pub events: Vec<Event>,
    /// How it ended.
    pub ending: Ending,
}
