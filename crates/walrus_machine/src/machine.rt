//! The trace machine: which operators of a body are executed, for given outcomes and a bound on the
//! turns of loops.

mod control;
mod execution;
mod label;
mod operator;
mod respond;
mod run;
mod state;
mod step;
mod table;

pub use execution::execute_operators;
pub use run::{Ending, Event, Outcome, Run};
