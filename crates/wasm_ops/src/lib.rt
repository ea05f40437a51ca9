//! Reading WebAssembly operators, and the numbers and types that other parts of a module contain
//! too. The values that are read are defined in the crates below this one, which exports their
//! names too.
#![tactic(auto)]

mod access_reader;
mod atomic_reader;
mod byte_reader;
mod common;
mod numeric_reader;
mod prefix_reader;
mod reader;
mod reference_reader;
mod row;
mod type_reader;
mod vector_access_reader;
mod vector_reader;

pub use common::CommonOperator;
pub use reader::{Reader, law_front};
pub use type_reader::read_value_type;
pub use wasm_numbers::{ReadError, ReadFault, read_u32, read_u64};
pub use wasm_operators::{
    AtomicKind, BlockType, BrTable, CatchList, Catches, Immediates, Op, Opcode, Operator, RawCast,
    RawCatch, RawHeapType, RawMemArg, RawValType, ReferenceImmediates, ReferenceOp, Space, Targets,
    access_lane, atomic_opcode, binary_opcode, extract_lane, law_one_list, law_one_spelling,
    law_operator_equality, law_reading, law_shortest, law_shortest_number, load_opcode,
    reference_immediates, reference_opcode, replace_lane, store_opcode, ternary_opcode,
    unary_opcode, vector_access_opcode,
};
