//! The debug information of a WebAssembly module whose function bodies are written anew: sections of DWARF 2 to 5 follow the
//! code, all of them or none (DWARF for WebAssembly).
#![tactic(auto)]

mod address_ranges;
mod failure;
mod index_abbreviations;
mod law;
mod list_tables;
mod lists;
mod macros;
mod moved_entries;
mod moved_lists;
mod moved_units;
mod moving;
mod name_index;
mod names;
mod replacing;
mod sections;

pub use address_ranges::move_address_ranges;
pub use failure::DebugFailure;
pub use law::law_new_fields;
pub use list_tables::follow_list_tables;
pub use macros::follow_macros;
pub use moving::{MovedSections, move_sections};
pub use names::follow_names;
pub use sections::{DebugSections, SectionName};
