//! Operators as they are read become operators that are written, each part by a translation.
#![tactic(auto)]

mod lists;
mod operators;
mod references;
mod translate;
mod types;

pub use lists::Lists;
pub use operators::translated;
pub use translate::Translate;
