//! Bodies of a module into which a tool inserts instructions: what is written for them. This crate has
//! definitions and laws, which say of what `change_all` of `wasm_module` keeps what `wasm_insertion`,
//! `walrus_insertion` and `walrus_metering` say of one body.
#![tactic(auto)]

mod laws;

pub use laws::{law_begun_code, law_charge_types, law_charged_code, law_inserted_code};
