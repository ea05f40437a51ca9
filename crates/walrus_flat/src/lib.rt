//! Checking and rewriting bodies without their trees: a body is checked, and then written while it is read again.
#![tactic(auto)]

mod body_indices;
mod byte_sink;
mod check_body;
mod checker;
mod checking;
mod control;
mod cursor;
mod declarations;
mod flat_check;
mod laws;
mod local_numbers;
mod open_sequence;
mod place_limit;
mod renumbering;
mod rewriting;
mod scratch;
mod sequences;
mod target;
mod used_locals;
mod write_body;
mod writer;
mod writer_at_once;

pub use byte_sink::ByteSink;
pub use flat_check::check_flat;
pub use laws::{law_append_alike, law_raw_body, law_renumbered};
pub use rewriting::{rewrite_flat, rewrite_flat_to};
pub use scratch::FlatScratch;
