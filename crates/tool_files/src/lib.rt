//! Files that programs read and write, whole or not at all, and the line that says how much was read and written.
#![tactic(auto)]

mod cost_files;
mod files;
mod in_place;
mod locks;
mod places;
mod reporting;
mod source_map_places;
mod unfinished;

pub use cost_files::read_costs;
pub use files::{Target, read_file};
pub use locks::LockFiles;
pub use places::check_files;
pub use reporting::{Done, Outcome, print_done, status_of_done};
pub use source_map_places::check_source_maps;
