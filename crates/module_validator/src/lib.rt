//! Whole modules of WebAssembly are validated, from their bytes (WebAssembly core specification 3.0, validation,
//! modules): the types of what a module declares, constant expressions, segments, exports, the start function, and
//! the bodies of functions. The result is success, or the first fault and its place.
#![tactic(auto)]

mod bodies;
mod code;
mod constant;
mod engine_limits;
mod exports;
mod faults;
mod globals;
mod laws;
mod limited_bodies;
mod limited_types;
mod limits;
mod locals;
mod refusals;
mod refused_operand;
mod scratch;
mod sections;
mod segments;
mod start;
mod tables;
mod types;
mod validation;

pub use engine_limits::{check_engine_limits, is_engine_limit, validate_within_limits};
pub use laws::law_code_validity;
pub use module_context::validity_words;
pub use refusals::{FaultText, refusal_text};
pub use refused_operand::mismatch;
pub use validation::validate;
pub use wasm_validation::{Mismatch, OperandKind};
