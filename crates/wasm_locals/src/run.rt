//! Runs of locals.

use wasm_operators::RawValType;

/// Locals of one type, one after the other.
#[derive(Clone, Copy)]
pub struct LocalRun {
    /// The type of each.
    pub ty: RawValType,
    /// The number of declared locals up to the end of the run, those before it included.
    pub end: u32,
}
