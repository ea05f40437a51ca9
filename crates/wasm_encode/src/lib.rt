//! Writes WebAssembly operators, each with its shortest spelling, and numbers.
#![tactic(auto)]

mod encoder;
mod immediates;
mod law;
mod number;
mod operation;
mod out_operator;
mod putting;
mod type_writer;

pub use encoder::FunctionEncoder;
pub use law::law_written;
pub use number::write_number;
pub use operation::write_op;
pub use out_operator::{OutClauses, OutOp, OutTable};
pub use putting::{put_bits, put_byte, put_integer, put_memarg, put_number};
pub use type_writer::write_value_type;
