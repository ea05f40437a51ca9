//! The immediates after an opcode.

use crate::types::{BlockType, RawCast, RawHeapType, RawMemArg, RawValType, Space};

/// The immediates after an opcode (WebAssembly core specification 3.0, binary format,
/// instructions). `T` is the type of a `br_table`'s labels, and `C` that of a `try_table`'s
/// clauses.
#[derive(Debug, Drop, PartialEq, Eq)]
pub enum Immediates<T, C> {
    /// No immediates.
    Nothing,
    /// A raw index in a space.
    Index(Space, u32),
    /// Two raw indices, each in a space.
    Pair(Space, u32, Space, u32),
    /// A raw index in a space, and a number: a field of a struct, or the length of an array.
    IndexNumber(Space, u32, u32),
    /// A raw index of a local.
    Local(u32),
    /// A label, as a depth.
    Label(u32),
    /// The depth of the handler that a `rethrow` is in.
    Handler(u32),
    /// The label of a `delegate`, as a depth counted from outside its own `try`.
    Outer(u32),
    /// The labels of a `br_table`.
    Table(T),
    /// A memory argument.
    Access(RawMemArg),
    /// A memory argument, and the index of a lane.
    LaneAccess(RawMemArg, u8),
    /// A block type.
    Block(BlockType),
    /// A block type, and the clauses of a `try_table`.
    Clauses(BlockType, C),
    /// A heap type.
    Heap(RawHeapType),
    /// The type of a `select`.
    Value(RawValType),
    /// The immediates of a branch on a cast.
    Cast(RawCast),
    /// The value of `i32.const`.
    I32(i32),
    /// The value of `i64.const`.
    I64(i64),
    /// The bits of the value of `f32.const`.
    F32(u32),
    /// The bits of the value of `f64.const`.
    F64(u64),
    /// The bits of the value of `v128.const`.
    V128(u128),
    /// The index of a lane.
    Lane(u8),
    /// The lanes of `i8x16.shuffle`.
    Lanes([u8; 16]),
    /// The byte after `atomic.fence`, which is 0.
    ZeroByte,
}

/// The immediates of an operator on references, structs or arrays.
#[derive(Clone, Copy)]
pub enum ReferenceImmediates {
    /// No immediates.
    Nothing,
    /// A raw index in a space.
    Index(Space, u32),
    /// Two raw indices, each in a space.
    Pair(Space, u32, Space, u32),
    /// A raw index in a space, and a number: a field of a struct, or the length of an array.
    IndexNumber(Space, u32, u32),
    /// A label, as a depth.
    Label(u32),
    /// A heap type.
    Heap(RawHeapType),
    /// The immediates of a branch on a cast.
    Cast(RawCast),
}
