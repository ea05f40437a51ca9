//! The lists of an operator that is written.

use std::alloc::Global;
use wasm_operators::RawCatch;

/// The labels of a `br_table` and the clauses of a `try_table` while they are written. Otherwise
/// both are empty.
#[derive(Drop)]
pub struct Lists {
    /// The depths of the labels.
    pub labels: Vec<u32>,
    /// The clauses, with their depths.
    pub clauses: Vec<RawCatch>,
}

impl Lists {
    /// Empty lists.
    pub fn new(alloc: Global) -> Lists {
        Lists {
            labels: Vec::new(alloc),
            clauses: Vec::new(alloc),
        }
    }
}
