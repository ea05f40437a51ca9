//! Instructions on memories.

use wasm_types::{
    AtomicOp, AtomicWidth, DataId, LoadKind, LoadSimdKind, MemArg, MemoryId, StoreKind,
};

/// A load; narrow and atomic loads too.
#[derive(Clone, Copy)]
pub struct Load {
    /// The memory that is read.
    pub memory: MemoryId,
    /// The type of the result, and how much is read.
    pub kind: LoadKind,
    /// The alignment and the offset.
    pub arg: MemArg,
}

/// A store; narrow and atomic stores too.
#[derive(Clone, Copy)]
pub struct Store {
    /// The memory that is written.
    pub memory: MemoryId,
    /// The type of the operand, and how much is written.
    pub kind: StoreKind,
    /// The alignment and the offset.
    pub arg: MemArg,
}

/// A vector access that is not a plain load or store, such as the load or store of one lane.
#[derive(Clone, Copy)]
pub struct LoadSimd {
    /// The memory that is read or written.
    pub memory: MemoryId,
    /// Which access it is.
    pub kind: LoadSimdKind,
    /// The alignment and the offset.
    pub arg: MemArg,
}

/// An atomic read-modify-write.
#[derive(Clone, Copy)]
pub struct AtomicRmw {
    /// The memory that is changed.
    pub memory: MemoryId,
    /// What is computed.
    pub op: AtomicOp,
    /// The type of the operands, and how much is accessed.
    pub width: AtomicWidth,
    /// The alignment and the offset.
    pub arg: MemArg,
}

/// An atomic compare and exchange.
#[derive(Clone, Copy)]
pub struct Cmpxchg {
    /// The memory that is changed.
    pub memory: MemoryId,
    /// The type of the operands, and how much is accessed.
    pub width: AtomicWidth,
    /// The alignment and the offset.
    pub arg: MemArg,
}

/// `memory.atomic.notify`.
#[derive(Clone, Copy)]
pub struct AtomicNotify {
    /// The memory of the address.
    pub memory: MemoryId,
    /// The alignment and the offset.
    pub arg: MemArg,
}

/// `memory.atomic.wait32`, or `memory.atomic.wait64` if `sixty_four` is set.
#[derive(Clone, Copy)]
pub struct AtomicWait {
    /// The memory of the address.
    pub memory: MemoryId,
    /// The alignment and the offset.
    pub arg: MemArg,
    /// Whether the expected value has 64 bits, not 32.
    pub sixty_four: bool,
}

/// `memory.size`.
#[derive(Clone, Copy)]
pub struct MemorySize {
    /// The memory whose size is the result.
    pub memory: MemoryId,
}

/// `memory.grow`.
#[derive(Clone, Copy)]
pub struct MemoryGrow {
    /// The memory that grows.
    pub memory: MemoryId,
}

/// `memory.fill`.
#[derive(Clone, Copy)]
pub struct MemoryFill {
    /// The memory that is filled.
    pub memory: MemoryId,
}

/// `memory.init`: copies from a data segment.
#[derive(Clone, Copy)]
pub struct MemoryInit {
    /// The memory that is copied to.
    pub memory: MemoryId,
    /// The data segment that is copied from.
    pub data_id: DataId,
}

/// `data.drop`.
#[derive(Clone, Copy)]
pub struct DataDrop {
    /// The data segment that is dropped.
    pub data_id: DataId,
}

/// `memory.copy`.
#[derive(Clone, Copy)]
pub struct MemoryCopy {
    /// The memory that is copied from.
    pub src: MemoryId,
    /// The memory that is copied to.
    pub dst: MemoryId,
}
