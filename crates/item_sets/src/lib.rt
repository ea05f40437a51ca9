//! Items of an index space that are left when others are removed, and the new index of each.
#![tactic(auto)]

mod items_left;
mod laws;

pub use items_left::ItemsLeft;
pub use laws::{law_left_in_order, law_left_without_gaps};
