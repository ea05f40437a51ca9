//! The validation algorithm of WebAssembly (core specification 3.0, appendix): the state, and its step
//! for each operator.
#![tactic(auto)]

mod access;
mod aggregates;
mod branch;
mod calls;
mod construct;
mod fault;
mod fixed;
mod frame;
mod globals;
mod null_branch;
mod operand;
mod parametric;
mod plain;
mod popped_references;
mod pops;
mod references;
mod state;
mod step;
mod step_reference;
mod table;
mod table_operators;
mod types;
mod validator;
mod variables;

pub use fault::Fault;
pub use frame::{Frame, Opened};
pub use operand::{Operand, Reference, operand_of};
pub use state::Validator;
