//! Rewriting bodies: raw bodies, a body rewritten as one call, locations looked up by places, and
//! entries of the code section.
#![tactic(auto)]

mod code_entry;
mod error;
mod locating;
mod raw_body;
mod whole_body;

pub use code_entry::CodeEntry;
pub use error::RewriteError;
pub use locating::locate;
pub use raw_body::begin_body;
pub use whole_body::{append_lists, append_raw_body, append_raw_body_with_map, rewrite_body};
