//! Operators with the names that a module gives them: with ids in place of indices, and with the
//! parameters and results of block types.

use walrus_ir::{
    DataId, ElementId, FunctionId, GlobalId, HeapType, LocalId, MemoryId, TableId, TagId, TypeId,
    ValType,
};
use wasm_operators::Opcode;

/// A named operator. Two operators of different bodies are the same if these are, whatever their
/// old indices, the numbers of their block types and their encodings.
#[derive(Debug, Drop, PartialEq, Eq)]
pub struct NamedOp {
    /// Its opcode.
    pub opcode: Opcode,
    /// Its immediates, with ids.
    pub immediates: NamedImmediates,
}

/// The id of an index, with the space of the index.
#[derive(Clone, Copy, Debug, PartialEq, Eq)]
pub enum NamedIndex {
    /// A table.
    Table(TableId),
    /// A type.
    Type(TypeId),
    /// A function.
    Func(FunctionId),
    /// A global.
    Global(GlobalId),
    /// A memory.
    Memory(MemoryId),
    /// An element segment.
    Element(ElementId),
    /// A data segment.
    Data(DataId),
    /// A tag.
    Tag(TagId),
}

/// A memory argument (WebAssembly core specification 3.0, binary format, memory instructions).
#[derive(Clone, Copy, Debug, PartialEq, Eq)]
pub struct NamedMemArg {
    /// The exponent of two of the alignment in bytes; at most 31.
    pub exponent: u32,
    /// The memory.
    pub memory: MemoryId,
    /// The number of bytes that is added to the address.
    pub offset: u64,
}

/// The type of a block.
#[derive(Debug, Drop, PartialEq, Eq)]
pub struct NamedBlockType {
    /// The types of its parameters.
    pub params: Vec<ValType>,
    /// The types of its results.
    pub results: Vec<ValType>,
}

/// A clause of `try_table`.
#[derive(Clone, Copy, Debug, PartialEq, Eq)]
pub struct NamedCatch {
    /// Whether it passes a reference to the exception, as `catch_ref` and `catch_all_ref` do.
    pub by_reference: bool,
    /// Its tag; none if it catches all.
    pub tag: Option<TagId>,
    /// Its label, as a depth from outside the `try_table`.
    pub label: u32,
}

/// The immediates of a branch on a cast.
#[derive(Clone, Copy, Debug, PartialEq, Eq)]
pub struct NamedCast {
    /// Whether the source type of the cast is nullable.
    pub from_nullable: bool,
    /// Whether the target type of the cast is nullable.
    pub to_nullable: bool,
    /// The label, as a depth.
    pub label: u32,
    /// The heap type of the source.
    pub source: HeapType,
    /// The heap type of the target.
    pub target: HeapType,
}

/// The immediates after an opcode.
#[derive(Debug, Drop, PartialEq, Eq)]
pub enum NamedImmediates {
    /// No immediates.
    Nothing,
    /// The id of an index.
    Index(NamedIndex),
    /// The ids of two indices.
    Pair(NamedIndex, NamedIndex),
    /// The id of an index, and a number: a field of a struct, or the length of an array.
    IndexNumber(NamedIndex, u32),
    /// A local.
    Local(LocalId),
    /// A label, as a depth.
    Label(u32),
    /// The depth of an enclosing handler, of a `rethrow`.
    Handler(u32),
    /// A label of a `delegate`, as a depth from outside its construct.
    Outer(u32),
    /// The labels of a `br_table`, as depths, and the default.
    Table(Vec<u32>, u32),
    /// A memory argument.
    Access(NamedMemArg),
    /// A memory argument, and the index of a lane.
    LaneAccess(NamedMemArg, u8),
    /// The type of a block.
    Block(NamedBlockType),
    /// The type of a `try_table`, and its clauses.
    Clauses(NamedBlockType, Vec<NamedCatch>),
    /// A heap type.
    Heap(HeapType),
    /// The type of a `select`.
    Value(ValType),
    /// The immediates of a branch on a cast.
    Cast(NamedCast),
    /// The value of `i32.const`.
    I32(i32),
    /// The value of `i64.const`.
    I64(i64),
    /// The bits of the value of `f32.const`.
    F32(u32),
    /// The bits of the value of `f64.const`.
    F64(u64),
    /// The bits of the value of `v128.const`.
    V128(u128),
    /// The index of a lane.
    Lane(u8),
    /// The lanes of a shuffle.
    Lanes([u8; 16]),
    /// The byte after `atomic.fence`, which is 0.
    ZeroByte,
}
