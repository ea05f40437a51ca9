//! Sequences of rows, as they are in a program.

/// The operations of a sequence.
#[derive(Clone, Copy)]
pub(crate) struct Sequence<'a> {
    /// The address of its first row.
    pub first: u64,
    /// The bytes of its operations.
    pub bytes: &'a [u8],
    /// The bytes that follow them.
    pub rest: &'a [u8],
}
