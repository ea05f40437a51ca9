//! The context of a parse: the sequences of a function that is read, some of which are open.
#![tactic(auto)]

mod context;
mod frame;
mod frame_stack;
mod types;

pub use context::ValidationContext;
pub use frame::{ControlFrame, ControlStack, IfElseState};
pub use frame_stack::{push_or_fail, try_push};
pub use types::{heap_type_of, value_type};
