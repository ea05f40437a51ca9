//! What is kept from one body to the next.

use crate::locals::CountedLocals;
use std::alloc::Global;
use wasm_validation::ValidationScratch;

/// Lists that one body after the other is validated with, so that their memory is used again.
#[derive(Drop)]
pub(crate) struct Scratch {
    /// Those of the validator.
    pub(crate) validation: ValidationScratch,
    /// The locals that a body declares.
    pub(crate) locals: CountedLocals,
}

impl Scratch {
    /// Empty lists. This allocates nothing.
    pub(crate) fn new(alloc: Global) -> Scratch {
        Scratch {
            validation: ValidationScratch::new(alloc),
            locals: CountedLocals::new(alloc),
        }
    }
}
