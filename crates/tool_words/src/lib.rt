//! What the words of a program ask for, its errors, and how it ends.
#![tactic(auto)]

mod arguments;
mod ending;
mod escaped;
mod not_a_module;
mod options;
mod program;
mod task;
mod usage_error;

pub use arguments::read_arguments;
pub use ending::{Attempt, FileFault, Item, ProgramFailure, exit_code, page_code, words};
pub use escaped::Escaped;
pub use program::Program;
pub use task::{Asked, ChargeBy, Charging, MapPaths, Request, SectionChoice, Task};
pub use usage_error::UsageError;
