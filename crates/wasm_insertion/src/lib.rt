//! Operators that a tool inserts into the body of a function (WebAssembly core specification 3.0): what
//! is inserted changes nothing else of a run and keeps a valid body valid; and a body that is metered
//! charges what it runs. This crate has definitions and laws.
#![tactic(auto)]

mod laws;

pub use laws::{
    law_inserted, law_inserted_texts, law_inserted_trees, law_inserted_valid, law_metered,
};
