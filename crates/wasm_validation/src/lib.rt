//! The bodies of functions, as bytes, are validated (WebAssembly core specification 3.0, validation of expressions, and
//! appendix, validation algorithm).
#![tactic(auto)]

mod body_validator;
mod code;
mod error;
mod laws;
mod mismatch;
mod scratch;

pub use body_validator::BodyValidator;
pub use code::validate_code;
pub use error::{ValidationError, ValidationFailure};
pub use laws::{law_one_verdict, law_same_steps};
pub use mismatch::{Mismatch, OperandKind, RefusedCode};
pub use scratch::ValidationScratch;
