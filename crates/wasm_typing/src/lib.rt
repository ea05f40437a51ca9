//! The types of operators by the standard (WebAssembly core specification 3.0, validation), as the
//! parameter of the validation algorithm of `wasm_body`: definitions that compute, and their laws.
#![tactic(auto)]

mod laws;

pub use laws::{
    law_matching, law_operand_numbers, law_rules, law_standard_validity, law_typed_operators,
};
