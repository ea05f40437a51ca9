//! Functions with a body: parsing, facts and writing. The parts are in the crates below, whose
//! public names this crate re-exports.
#![tactic(auto)]

mod emit;
mod laws;
mod local_function;

pub use emit::{Emit, EmitContext};
pub use laws::law_emitted_faults;
pub use local_function::LocalFunction;
pub use walrus_context::{
    ControlFrame, ControlStack, IfElseState, ValidationContext, heap_type_of, value_type,
};
pub use walrus_facts::{DataSegmentsVisitor, EmitFacts, FactsVisitor, SizeVisitor, law_facts};
pub use walrus_maps::{IdsToIndices, IndicesToIds, law_numbers_of_pushes};
pub use walrus_numbering::law_numbers_fit;
pub use walrus_parser::{AcceptAll, CheckError, FunctionBody, OpCheck};
pub use wasm_body::{
    EmitError, IndexError, ParseError, ParseFailure, Space, law_accepted_again, law_any_locations,
    law_emission_faults, law_empty_continues, law_executions, law_inverse_undoes,
    law_local_numbers, law_locations, law_normal_again, law_normal_form_texts, law_one_result,
    law_read_back, law_same_texts, law_unique_reading, law_validity,
};
