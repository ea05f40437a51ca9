//! What programs do with a module that they write: which custom sections are left out, what follows its operators, its files, and
//! warnings of what isn't true any more.
#![tactic(auto)]

mod code_changes;
mod omitting;
mod source_maps;
mod warnings;
mod writing;

pub use code_changes::CodeChange;
pub use omitting::{following_debug, omit};
pub use source_maps::{Moves, MovesAndLines, given_source_map, write_source_map};
pub use warnings::{DebugOutcome, Notes, warn, warn_of};
pub use writing::{create_target, write_module};
