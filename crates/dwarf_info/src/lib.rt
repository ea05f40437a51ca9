//! Entries of DWARF, and what of them follows the code of a WebAssembly module whose function bodies are written anew:
//! addresses, lengths, line tables, and the locals of expressions (DWARF 5, sections 2 and 7.5).
#![tactic(auto)]

mod abbreviations;
mod attribute;
mod context;
mod effect;
mod entries;
mod following;
mod form;
mod law;
mod moved;
mod scope;
mod unit;
mod values;

pub use abbreviations::Abbreviations;
pub use entries::move_units;
pub use following::{
    Shifts, follow_length, follow_number, follow_units, moved_distance, moved_offset,
};
pub use law::law_other_bytes;
pub use moved::{CodeRange, ListPlace, ListUse, MovedEntries};
pub use unit::UnitSection;
