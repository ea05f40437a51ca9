//! The numbers that are written: those of ids and of types, the exponents of alignments, and the
//! numbers and declarations of a function's locals.
#![tactic(auto)]

mod balance;
mod laws;
mod listed_locals;
mod local_numbers;
mod local_table;
mod memory_arguments;
mod number_maps;
mod written_types;

pub use balance::is_balanced;
pub use laws::law_numbers_fit;
pub use listed_locals::emit_listed_locals;
pub use local_numbers::emit_locals;
pub use local_table::{number_at, number_table};
pub use memory_arguments::memory_argument;
pub use number_maps::NumberMaps;
pub use written_types::{block_type, heap_type, value_type};
