//! What is lent to one body after the other.

use crate::open_sequence::OpenSequence;
use crate::sequences::Written;
use crate::used_locals::UsedLocals;
use std::alloc::Global;

/// The lists that `rewrite_flat` needs, lent to one body after the other, so that they keep their
/// memory. Their contents don't matter.
#[derive(Drop)]
pub struct FlatScratch {
    pub(crate) open: Vec<OpenSequence>,
    pub(crate) sequences: Vec<Written>,
    pub(crate) used: UsedLocals,
}

impl FlatScratch {
    /// Empty lists. It takes no memory.
    pub fn new(alloc: Global) -> FlatScratch {
        FlatScratch {
            open: Vec::new(alloc),
            sequences: Vec::new(alloc),
            used: UsedLocals::new(alloc),
        }
    }
}
