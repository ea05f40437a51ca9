//! Tools that change whole modules, and how they are run. What the crates below have of words, files and names is here too.
#![tactic(auto)]

mod charging;
mod counting;
mod edits;
mod filtering;
mod running;
mod snipping;
mod version;

pub use charging::{ChargeCode, charger};
pub use counting::{CALLS, CountCalls, call_counter, call_counter_named, count_calls};
pub use filtering::filter;
pub use module_validator::refusal_text;
pub use running::{NoChange, Terminals, Tool, check_task, run};
pub use snipping::{Snipping, snip};
pub use tool_files::{LockFiles, Target, read_file};
pub use tool_reading::{
    Found, FunctionNames, Progress, Watched, WatchedChange, function_at, validate_module,
    validate_module_within_limits,
};
pub use tool_words::{
    Asked, Attempt, ChargeBy, Charging, Escaped, FileFault, Item, MapPaths, Program,
    ProgramFailure, Request, SectionChoice, Task, UsageError, exit_code, page_code, read_arguments,
    words,
};
pub use version::{BUILD, VERSION};
