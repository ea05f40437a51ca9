//! What programs do with a module that they read: the names of its functions, which of them are asked for, lists of them, bodies that
//! are checked, whether it is valid, and how far a run is.
#![tactic(auto)]

mod checking;
mod choosing;
mod demangling;
mod listing;
mod names;
mod progress;
mod validating;

pub use checking::{check_bodies, refused};
pub use choosing::{check_input, functions_of};
pub use listing::{list_functions, list_removed};
pub use names::{Found, FunctionNames, function_at};
pub use progress::{Progress, Watched, WatchedChange};
pub use validating::{check_validity, validate_module, validate_module_within_limits};
