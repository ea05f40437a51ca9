//! Writing a function: the operators of its tree, and the numbers and declarations of its locals.
#![tactic(auto)]

mod emit;

pub use emit::{emit_with_map, emit_without_map};
pub use walrus_numbering::{NumberMaps, emit_locals};
