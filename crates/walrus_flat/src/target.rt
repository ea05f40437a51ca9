//! What a body is written with.

use walrus_ir::LocalId;
use walrus_maps::IdsToIndices;

/// The numbers that a body is written with: the new indices, and the arguments of its function, whose
/// numbers are the first.
#[derive(Clone, Copy)]
pub(crate) struct Target<'a> {
    /// The new indices of ids.
    pub out: &'a IdsToIndices,
    /// The function's arguments, in order.
    pub args: &'a [LocalId],
}
