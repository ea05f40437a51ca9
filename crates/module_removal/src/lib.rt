//! Items of a module removed: functions, globals, tables, memories, tags, segments, types and imports that nothing reaches,
//! or that a caller names. What is left is written under new indices (WebAssembly core specification 3.0, structure,
//! modules). Bodies are written by a layer above, under the numbers of what is left.
#![tactic(auto)]

mod alike;
mod bounds;
mod code;
mod constants;
mod copier;
mod counting;
mod declared;
mod entries;
mod followed;
mod gathering;
mod item;
mod laws;
mod left;
mod names;
mod operators;
mod parts;
mod references;
mod remainder;
mod vectors;
mod writing;

pub use code::LeftCode;
pub use gathering::references_of;
pub use item::{Item, ItemCounts, MODULE, SPACES};
pub use laws::{
    law_items_are_copied, law_left_is_copied, law_references_are_left, law_taken_are_declared,
};
pub use left::LeftItems;
pub use references::References;
pub use remainder::Remainder;
pub use writing::remove;
