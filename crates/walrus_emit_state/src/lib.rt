//! The state while a function's tree is written: the sequences that are to come and those that are
//! open, with the depths of labels, and the bytes and location pairs so far.
#![tactic(auto)]

mod announcing;
mod clauses;
mod closing;
mod draft;
mod labels;
mod open_scopes;
mod try_tables;

pub use announcing::announce;
pub use clauses::are_lawful;
pub use closing::{Closer, SequenceScope};
pub use draft::Draft;
pub use labels::branch_table;
pub use open_scopes::Scopes;
pub use try_tables::table_clauses;
