//! Runs of operators that are written as they were, one after the other.

/// Operators of the source that are written one after the other, with nothing left out or added between them, each but the
/// last in as many bytes as it had.
#[derive(Clone, Copy, Debug, PartialEq, Eq)]
pub struct Run {
    /// The address of the first operator in the source.
    pub old: u32,
    /// The address in the source of the byte after the last operator.
    pub end: u32,
    /// The address where what is added in front of the first operator begins: the end of what is written for the operator
    /// before it that is written, or of the declarations of locals.
    pub gap: u32,
    /// The address of the first operator in what is written.
    pub own: u32,
}
