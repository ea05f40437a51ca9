//! Rewriting function bodies: the program `wbody` from its arguments to its output, and
//! runs of bodies.
#![tactic(auto)]

pub mod demo;
mod execution;
mod named_body;
mod naming;
mod program;
mod rewriting;
mod trace_text;
mod trace_words;

pub use execution::execute;
pub use named_body::NamedBody;
pub use program::run_arguments;
pub use rewriting::rewrite_demo;
pub use walrus_body::{
    law_accepted_again, law_any_locations, law_emission_faults, law_empty_continues,
    law_executions, law_inverse_undoes, law_locations, law_read_back, law_validity,
};
pub use walrus_flat::{FlatScratch, check_flat, law_append_alike, rewrite_flat};
pub use walrus_machine::{
    Ending, Event, NamedBlockType, NamedCast, NamedCatch, NamedImmediates, NamedIndex, NamedMemArg,
    NamedOp, Outcome, Run,
};
pub use walrus_rewrite::{
    CodeEntry, RewriteError, append_raw_body, append_raw_body_with_map, locate, rewrite_body,
};
