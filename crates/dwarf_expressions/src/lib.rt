//! DWARF expressions (DWARF 5, sections 2.5 and 7.7), when the locals of a function have new indices.
#![tactic(auto)]

mod encoding;
mod facts;
mod law;
mod moving;
mod operand;
mod reading;

pub use encoding::Encoding;
pub use law::law_one_reading;
pub use moving::moved_expression;
