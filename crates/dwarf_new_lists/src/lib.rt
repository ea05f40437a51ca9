//! The lists of DWARF 5: of ranges of addresses, in `.debug_rnglists` (sections 2.17.3 and 7.25), and of locations, in
//! `.debug_loclists` (sections 2.6.2 and 7.29), when the addresses of code move.
#![tactic(auto)]

mod entry;
mod kind;
mod law;
mod list;
mod moving;
mod saying;
mod writing;

pub use law::law_moved_list;
pub use list::{NewList, move_location_list, move_range_list};
