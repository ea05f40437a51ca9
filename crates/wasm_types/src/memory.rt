//! The immediates and kinds of memory instructions.

/// The alignment and the offset of an access (WebAssembly core specification 3.0, memory
/// instructions).
#[derive(Clone, Copy)]
pub struct MemArg {
    /// The alignment in bytes: a power of two if it comes from a module.
    pub align: u32,
    /// The number of bytes that is added to the address.
    pub offset: u64,
}

/// How the value of a narrow load is extended to its type.
#[derive(Clone, Copy, Debug, PartialEq, Eq)]
pub enum ExtendedLoad {
    /// With the sign bit (`_s`).
    SignExtend,
    /// With zeros (`_u`).
    ZeroExtend,
    /// With zeros, by an atomic load (`_u`).
    ZeroExtendAtomic,
}

/// What a load reads: the type of its result, and for a narrow load the number of bits that are
/// read. `atomic` says whether the load is atomic.
#[derive(Clone, Copy, Debug, PartialEq, Eq)]
pub enum LoadKind {
    /// `i32.load` or `i32.atomic.load`.
    I32 { atomic: bool },
    /// `i64.load` or `i64.atomic.load`.
    I64 { atomic: bool },
    /// `f32.load`.
    F32,
    /// `f64.load`.
    F64,
    /// `v128.load`.
    V128,
    /// `i32.load8_s`, `i32.load8_u` or `i32.atomic.load8_u`.
    I32_8 { kind: ExtendedLoad },
    /// `i32.load16_s`, `i32.load16_u` or `i32.atomic.load16_u`.
    I32_16 { kind: ExtendedLoad },
    /// `i64.load8_s`, `i64.load8_u` or `i64.atomic.load8_u`.
    I64_8 { kind: ExtendedLoad },
    /// `i64.load16_s`, `i64.load16_u` or `i64.atomic.load16_u`.
    I64_16 { kind: ExtendedLoad },
    /// `i64.load32_s`, `i64.load32_u` or `i64.atomic.load32_u`.
    I64_32 { kind: ExtendedLoad },
}

/// What a store writes: the type of its operand, and for a narrow store the number of bits that are
/// written. `atomic` says whether the store is atomic.
#[derive(Clone, Copy, Debug, PartialEq, Eq)]
pub enum StoreKind {
    /// `i32.store` or `i32.atomic.store`.
    I32 { atomic: bool },
    /// `i64.store` or `i64.atomic.store`.
    I64 { atomic: bool },
    /// `f32.store`.
    F32,
    /// `f64.store`.
    F64,
    /// `v128.store`.
    V128,
    /// `i32.store8` or `i32.atomic.store8`.
    I32_8 { atomic: bool },
    /// `i32.store16` or `i32.atomic.store16`.
    I32_16 { atomic: bool },
    /// `i64.store8` or `i64.atomic.store8`.
    I64_8 { atomic: bool },
    /// `i64.store16` or `i64.atomic.store16`.
    I64_16 { atomic: bool },
    /// `i64.store32` or `i64.atomic.store32`.
    I64_32 { atomic: bool },
}

/// A vector access that is not a plain load or store of a `v128`: a load that splats, extends or
/// pads with zeros, or a load or store of one lane, whose index the variant contains.
#[derive(Clone, Copy, Debug)]
pub enum LoadSimdKind {
    /// `v128.load8_splat`.
    Splat8,
    /// `v128.load16_splat`.
    Splat16,
    /// `v128.load32_splat`.
    Splat32,
    /// `v128.load64_splat`.
    Splat64,
    /// `v128.load8x8_s`.
    V128Load8x8S,
    /// `v128.load8x8_u`.
    V128Load8x8U,
    /// `v128.load16x4_s`.
    V128Load16x4S,
    /// `v128.load16x4_u`.
    V128Load16x4U,
    /// `v128.load32x2_s`.
    V128Load32x2S,
    /// `v128.load32x2_u`.
    V128Load32x2U,
    /// `v128.load32_zero`.
    V128Load32Zero,
    /// `v128.load64_zero`.
    V128Load64Zero,
    /// `v128.load8_lane`, with the index of the lane.
    V128Load8Lane(u8),
    /// `v128.load16_lane`, with the index of the lane.
    V128Load16Lane(u8),
    /// `v128.load32_lane`, with the index of the lane.
    V128Load32Lane(u8),
    /// `v128.load64_lane`, with the index of the lane.
    V128Load64Lane(u8),
    /// `v128.store8_lane`, with the index of the lane.
    V128Store8Lane(u8),
    /// `v128.store16_lane`, with the index of the lane.
    V128Store16Lane(u8),
    /// `v128.store32_lane`, with the index of the lane.
    V128Store32Lane(u8),
    /// `v128.store64_lane`, with the index of the lane.
    V128Store64Lane(u8),
}

/// What an atomic read-modify-write does to the value that it reads.
#[derive(Clone, Copy, Debug)]
pub enum AtomicOp {
    /// `rmw.add`: adds the operand.
    Add,
    /// `rmw.sub`: subtracts the operand.
    Sub,
    /// `rmw.and`: bitwise "and" with the operand.
    And,
    /// `rmw.or`: bitwise "or" with the operand.
    Or,
    /// `rmw.xor`: bitwise "exclusive or" with the operand.
    Xor,
    /// `rmw.xchg`: replaces it by the operand.
    Xchg,
}

/// The type of an atomic read-modify-write, and for a narrow one the number of bits that it
/// accesses in memory.
#[derive(Clone, Copy, Debug)]
pub enum AtomicWidth {
    /// `i32`, all 32 bits.
    I32,
    /// `i32`, 8 bits.
    I32_8,
    /// `i32`, 16 bits.
    I32_16,
    /// `i64`, all 64 bits.
    I64,
    /// `i64`, 8 bits.
    I64_8,
    /// `i64`, 16 bits.
    I64_16,
    /// `i64`, 32 bits.
    I64_32,
}
