//! WebAssembly operators as they are encoded: types, opcodes and immediates, with one row for each
//! operator, and the laws of encodings.
#![tactic(auto)]

mod access_rows;
mod atomic_rows;
mod binary_rows;
mod branch_table;
mod catch_list;
mod immediates;
mod law;
mod operator;
mod operator_parts;
mod operator_rows;
mod reference_operator;
mod reference_rows;
mod ternary_rows;
mod types;
mod unary_rows;
mod vector_access_rows;

pub use access_rows::{load_opcode, store_opcode};
pub use atomic_rows::atomic_opcode;
pub use binary_rows::{binary_opcode, replace_lane};
pub use branch_table::{BrTable, Targets, read_table};
pub use catch_list::{CatchList, Catches, read_clauses};
pub use immediates::{Immediates, ReferenceImmediates};
pub use law::{
    law_one_list, law_one_spelling, law_operator_equality, law_reading, law_shortest,
    law_shortest_number,
};
pub use operator::{Op, Operator};
pub use reference_operator::ReferenceOp;
pub use reference_rows::{reference_immediates, reference_opcode};
pub use ternary_rows::ternary_opcode;
pub use types::{
    AtomicKind, BlockType, Opcode, RawCast, RawCatch, RawHeapType, RawMemArg, RawValType, Space,
};
pub use unary_rows::{extract_lane, unary_opcode};
pub use vector_access_rows::{access_lane, vector_access_opcode};
