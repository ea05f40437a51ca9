//! What is left of a module without what nothing reaches: its bytes, its debug information, its location map and its source map.
#![tactic(auto)]

mod followers;
mod left_bodies;
mod left_debug;
mod left_sections;
mod left_writing;
mod origins;
mod removing;

pub use followers::{Followers, made_of_left, push_followers};
pub use left_bodies::LeftModule;
pub use left_writing::write_left;
pub use origins::{Origins, Recording};
pub use removing::{module_of_left, reached};
