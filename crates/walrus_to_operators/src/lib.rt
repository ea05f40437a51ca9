//! The operators of instructions, with the numbers of ids and the depths of labels.
#![tactic(auto)]

mod lists;
mod operators;
mod references;

pub use lists::Lists;
pub use operators::{closing_operator, operator_of};
