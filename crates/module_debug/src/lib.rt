//! The debug information of a module that is written: sections of DWARF follow its code.
#![tactic(auto)]

mod moves;
mod places;
mod sections;

pub use dwarf::{DebugFailure, MovedSections};
pub use places::OperatorPlaces;
pub use sections::{DebugSection, debug_sections, move_debug, write_debug};
