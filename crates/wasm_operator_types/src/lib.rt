//! What numeric and vector operators and accesses to memory take and give, in code: each function is
//! proved against the table of rules (WebAssembly core specification 3.0, validation, instructions).
#![tactic(auto)]

mod access;
mod atomic;
mod binary;
mod lane;
mod ternary;
mod unary;
mod vector_access;

pub use access::{AccessType, Operands, load_type, store_type};
pub use atomic::atomic_type;
pub use binary::binary_types;
pub use ternary::ternary_type;
pub use unary::unary_types;
pub use vector_access::vector_access_type;
