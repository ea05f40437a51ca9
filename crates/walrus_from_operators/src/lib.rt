//! The instructions of operators by themselves: old indices become ids, and labels the sequences
//! that they name.
#![tactic(auto)]

mod instructions;
mod references;
mod rethrow;

pub use instructions::{branch_target, constant, instruction, memory_argument};
