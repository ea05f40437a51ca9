//! The types that modules and operators are made of: ids, value types, and the names of plain
//! operators and accesses.
#![tactic(auto)]

mod binary;
mod id;
mod laws;
mod memory;
mod ternary;
mod unary;
mod val_type;

pub use binary::BinaryOp;
pub use id::{
    DataId, ElementId, FunctionId, GlobalId, Id, IdHashMap, IdHashSet, InstrSeqId, LocalId,
    MemoryId, TableId, TagId, TypeId, kind,
};
pub use laws::{law_ids, law_type_order};
pub use memory::{AtomicOp, AtomicWidth, ExtendedLoad, LoadKind, LoadSimdKind, MemArg, StoreKind};
pub use ternary::TernaryOp;
pub use unary::UnaryOp;
pub use val_type::{AbstractHeapType, HeapType, RefType, ValType};
