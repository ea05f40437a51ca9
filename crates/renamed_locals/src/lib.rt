//! Validity doesn't depend on the numbers of locals: definitions that compute, and their laws.
#![tactic(auto)]

mod laws;

pub use laws::{law_renamed_locals, law_written_locals};
