//! Lists of ranges and of locations of DWARF 2 to 4 (`.debug_ranges` and `.debug_loc`), when the code that they describe moves.
#![tactic(auto)]

mod entry;
mod list;
mod moving;
mod writing;

pub use list::{List, move_locations, move_ranges};
