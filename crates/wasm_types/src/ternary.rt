//! Operators of three operands.

/// A vector operator of three operands. The names are those of the WebAssembly core specification
/// in camel case.
#[derive(Clone, Copy, Debug, PartialEq, Eq)]
pub enum TernaryOp {
    /// `f32x4.relaxed_madd`.
    F32x4RelaxedMadd,
    /// `f32x4.relaxed_nmadd`.
    F32x4RelaxedNmadd,
    /// `f64x2.relaxed_madd`.
    F64x2RelaxedMadd,
    /// `f64x2.relaxed_nmadd`.
    F64x2RelaxedNmadd,
    /// `i8x16.relaxed_laneselect`.
    I8x16RelaxedLaneselect,
    /// `i16x8.relaxed_laneselect`.
    I16x8RelaxedLaneselect,
    /// `i32x4.relaxed_laneselect`.
    I32x4RelaxedLaneselect,
    /// `i64x2.relaxed_laneselect`.
    I64x2RelaxedLaneselect,
    /// `i32x4.relaxed_dot_i8x16_i7x16_add_s`.
    I32x4RelaxedDotI8x16I7x16AddS,
}
