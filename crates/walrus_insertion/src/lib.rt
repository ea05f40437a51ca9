//! Instructions inserted into the body of a function: a call that gives its caller each place, and
//! takes what is to be inserted there.
#![tactic(auto)]

mod inserting;
mod kinds;
mod laws;
mod merging;
mod place;
mod plain_instr;
mod probe;
mod script;

pub use inserting::{insert, insert_before};
pub use laws::law_prepended;
pub use merging::merge;
pub use place::Place;
pub use plain_instr::PlainInstr;
pub use probe::{Edit, Probe};
