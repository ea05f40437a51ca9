//! The trace machine: which operators of a body are executed, over operators with the names that
//! their module gives them.
#![tactic(auto)]

mod machine;
mod named_op;

pub use machine::{Ending, Event, Outcome, Run, execute_operators};
pub use named_op::{
    NamedBlockType, NamedCast, NamedCatch, NamedImmediates, NamedIndex, NamedMemArg, NamedOp,
};
