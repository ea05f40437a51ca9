//! What is written of a valid body is valid, as bytes: definitions that compute, and their laws.
#![tactic(auto)]

mod laws;

pub use laws::{law_validated_bodies, law_written_validity};
