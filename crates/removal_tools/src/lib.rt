//! Programs that leave out what nothing reaches.
#![tactic(auto)]

mod collecting;
mod snipped_modules;

pub use collecting::run_collecting;
