//! What the body of a function is (WebAssembly core specification 3.0): the bytes that are accepted
//! as one, the tree that represents it, the text and the bytes of a tree, and what a body executes;
//! and what is written of a body, operator by operator, without its tree. This crate has definitions
//! and laws, and the errors that the definitions name.
#![tactic(auto)]

mod error;
mod flat_laws;
mod laws;
mod names;

pub use error::{EmitError, IndexError, ParseError, ParseFailure};
pub use flat_laws::law_flat;
pub use laws::{
    law_accepted_again, law_any_locations, law_emission_faults, law_empty_continues,
    law_executions, law_inverse_undoes, law_local_numbers, law_locations, law_normal_again,
    law_normal_form_texts, law_one_result, law_read_back, law_same_texts, law_unique_reading,
    law_validity,
};
pub use wasm_operators::Space;
