//! Validators of operators: how one is called for the next operator of a body, and which location the
//! operator has.
#![tactic(auto)]

mod check;
mod locating;
mod next;

pub use check::{AcceptAll, CheckError, OpCheck};
pub use locating::location_at;
pub use next::{Refusal, accepted_at, check_common, checked, failure, read_other, refused};
