//! Operators of one operand.

/// A numeric or vector operator of one operand: among them tests, conversions, splats and the
/// extraction of a lane. The names are those of the WebAssembly core specification in camel case
/// (`i32.clz` is `I32Clz`), with two exceptions: the sign of a conversion comes before its source
/// type (`I32TruncSF32`, `I32TruncSSatF32`), and the extension of a vector to `i16x8` or `i32x4` is
/// called `Widen`. `idx` is the index of a lane.
#[derive(Clone, Copy)]
pub enum UnaryOp {
    /// `i32.eqz`.
    I32Eqz,
    /// `i64.eqz`.
    I64Eqz,
    /// `i32.clz`.
    I32Clz,
    /// `i32.ctz`.
    I32Ctz,
    /// `i32.popcnt`.
    I32Popcnt,
    /// `i64.clz`.
    I64Clz,
    /// `i64.ctz`.
    I64Ctz,
    /// `i64.popcnt`.
    I64Popcnt,
    /// `f32.abs`.
    F32Abs,
    /// `f32.neg`.
    F32Neg,
    /// `f32.ceil`.
    F32Ceil,
    /// `f32.floor`.
    F32Floor,
    /// `f32.trunc`.
    F32Trunc,
    /// `f32.nearest`.
    F32Nearest,
    /// `f32.sqrt`.
    F32Sqrt,
    /// `f64.abs`.
    F64Abs,
    /// `f64.neg`.
    F64Neg,
    /// `f64.ceil`.
    F64Ceil,
    /// `f64.floor`.
    F64Floor,
    /// `f64.trunc`.
    F64Trunc,
    /// `f64.nearest`.
    F64Nearest,
    /// `f64.sqrt`.
    F64Sqrt,
    /// `i32.wrap_i64`.
    I32WrapI64,
    /// `i32.trunc_f32_s`.
    I32TruncSF32,
    /// `i32.trunc_f32_u`.
    I32TruncUF32,
    /// `i32.trunc_f64_s`.
    I32TruncSF64,
    /// `i32.trunc_f64_u`.
    I32TruncUF64,
    /// `i64.extend_i32_s`.
    I64ExtendSI32,
    /// `i64.extend_i32_u`.
    I64ExtendUI32,
    /// `i64.trunc_f32_s`.
    I64TruncSF32,
    /// `i64.trunc_f32_u`.
    I64TruncUF32,
    /// `i64.trunc_f64_s`.
    I64TruncSF64,
    /// `i64.trunc_f64_u`.
    I64TruncUF64,
    /// `f32.convert_i32_s`.
    F32ConvertSI32,
    /// `f32.convert_i32_u`.
    F32ConvertUI32,
    /// `f32.convert_i64_s`.
    F32ConvertSI64,
    /// `f32.convert_i64_u`.
    F32ConvertUI64,
    /// `f32.demote_f64`.
    F32DemoteF64,
    /// `f64.convert_i32_s`.
    F64ConvertSI32,
    /// `f64.convert_i32_u`.
    F64ConvertUI32,
    /// `f64.convert_i64_s`.
    F64ConvertSI64,
    /// `f64.convert_i64_u`.
    F64ConvertUI64,
    /// `f64.promote_f32`.
    F64PromoteF32,
    /// `i32.reinterpret_f32`.
    I32ReinterpretF32,
    /// `i64.reinterpret_f64`.
    I64ReinterpretF64,
    /// `f32.reinterpret_i32`.
    F32ReinterpretI32,
    /// `f64.reinterpret_i64`.
    F64ReinterpretI64,
    /// `i32.extend8_s`.
    I32Extend8S,
    /// `i32.extend16_s`.
    I32Extend16S,
    /// `i64.extend8_s`.
    I64Extend8S,
    /// `i64.extend16_s`.
    I64Extend16S,
    /// `i64.extend32_s`.
    I64Extend32S,
    /// `i32.trunc_sat_f32_s`.
    I32TruncSSatF32,
    /// `i32.trunc_sat_f32_u`.
    I32TruncUSatF32,
    /// `i32.trunc_sat_f64_s`.
    I32TruncSSatF64,
    /// `i32.trunc_sat_f64_u`.
    I32TruncUSatF64,
    /// `i64.trunc_sat_f32_s`.
    I64TruncSSatF32,
    /// `i64.trunc_sat_f32_u`.
    I64TruncUSatF32,
    /// `i64.trunc_sat_f64_s`.
    I64TruncSSatF64,
    /// `i64.trunc_sat_f64_u`.
    I64TruncUSatF64,
    /// `i8x16.splat`.
    I8x16Splat,
    /// `i16x8.splat`.
    I16x8Splat,
    /// `i32x4.splat`.
    I32x4Splat,
    /// `i64x2.splat`.
    I64x2Splat,
    /// `f32x4.splat`.
    F32x4Splat,
    /// `f64x2.splat`.
    F64x2Splat,
    /// `v128.not`.
    V128Not,
    /// `v128.any_true`.
    V128AnyTrue,
    /// `f32x4.demote_f64x2_zero`.
    F32x4DemoteF64x2Zero,
    /// `f64x2.promote_low_f32x4`.
    F64x2PromoteLowF32x4,
    /// `i8x16.abs`.
    I8x16Abs,
    /// `i8x16.neg`.
    I8x16Neg,
    /// `i8x16.popcnt`.
    I8x16Popcnt,
    /// `i8x16.all_true`.
    I8x16AllTrue,
    /// `i8x16.bitmask`.
    I8x16Bitmask,
    /// `f32x4.ceil`.
    F32x4Ceil,
    /// `f32x4.floor`.
    F32x4Floor,
    /// `f32x4.trunc`.
    F32x4Trunc,
    /// `f32x4.nearest`.
    F32x4Nearest,
    /// `f64x2.ceil`.
    F64x2Ceil,
    /// `f64x2.floor`.
    F64x2Floor,
    /// `f64x2.trunc`.
    F64x2Trunc,
    /// `f64x2.nearest`.
    F64x2Nearest,
    /// `i16x8.extadd_pairwise_i8x16_s`.
    I16x8ExtAddPairwiseI8x16S,
    /// `i16x8.extadd_pairwise_i8x16_u`.
    I16x8ExtAddPairwiseI8x16U,
    /// `i32x4.extadd_pairwise_i16x8_s`.
    I32x4ExtAddPairwiseI16x8S,
    /// `i32x4.extadd_pairwise_i16x8_u`.
    I32x4ExtAddPairwiseI16x8U,
    /// `i16x8.abs`.
    I16x8Abs,
    /// `i16x8.neg`.
    I16x8Neg,
    /// `i16x8.all_true`.
    I16x8AllTrue,
    /// `i16x8.bitmask`.
    I16x8Bitmask,
    /// `i16x8.extend_low_i8x16_s`.
    I16x8WidenLowI8x16S,
    /// `i16x8.extend_high_i8x16_s`.
    I16x8WidenHighI8x16S,
    /// `i16x8.extend_low_i8x16_u`.
    I16x8WidenLowI8x16U,
    /// `i16x8.extend_high_i8x16_u`.
    I16x8WidenHighI8x16U,
    /// `i32x4.abs`.
    I32x4Abs,
    /// `i32x4.neg`.
    I32x4Neg,
    /// `i32x4.all_true`.
    I32x4AllTrue,
    /// `i32x4.bitmask`.
    I32x4Bitmask,
    /// `i32x4.extend_low_i16x8_s`.
    I32x4WidenLowI16x8S,
    /// `i32x4.extend_high_i16x8_s`.
    I32x4WidenHighI16x8S,
    /// `i32x4.extend_low_i16x8_u`.
    I32x4WidenLowI16x8U,
    /// `i32x4.extend_high_i16x8_u`.
    I32x4WidenHighI16x8U,
    /// `i64x2.abs`.
    I64x2Abs,
    /// `i64x2.neg`.
    I64x2Neg,
    /// `i64x2.all_true`.
    I64x2AllTrue,
    /// `i64x2.bitmask`.
    I64x2Bitmask,
    /// `i64x2.extend_low_i32x4_s`.
    I64x2ExtendLowI32x4S,
    /// `i64x2.extend_high_i32x4_s`.
    I64x2ExtendHighI32x4S,
    /// `i64x2.extend_low_i32x4_u`.
    I64x2ExtendLowI32x4U,
    /// `i64x2.extend_high_i32x4_u`.
    I64x2ExtendHighI32x4U,
    /// `f32x4.abs`.
    F32x4Abs,
    /// `f32x4.neg`.
    F32x4Neg,
    /// `f32x4.sqrt`.
    F32x4Sqrt,
    /// `f64x2.abs`.
    F64x2Abs,
    /// `f64x2.neg`.
    F64x2Neg,
    /// `f64x2.sqrt`.
    F64x2Sqrt,
    /// `i32x4.trunc_sat_f32x4_s`.
    I32x4TruncSatF32x4S,
    /// `i32x4.trunc_sat_f32x4_u`.
    I32x4TruncSatF32x4U,
    /// `f32x4.convert_i32x4_s`.
    F32x4ConvertI32x4S,
    /// `f32x4.convert_i32x4_u`.
    F32x4ConvertI32x4U,
    /// `i32x4.trunc_sat_f64x2_s_zero`.
    I32x4TruncSatF64x2SZero,
    /// `i32x4.trunc_sat_f64x2_u_zero`.
    I32x4TruncSatF64x2UZero,
    /// `f64x2.convert_low_i32x4_s`.
    F64x2ConvertLowI32x4S,
    /// `f64x2.convert_low_i32x4_u`.
    F64x2ConvertLowI32x4U,
    /// `i32x4.relaxed_trunc_f32x4_s`.
    I32x4RelaxedTruncF32x4S,
    /// `i32x4.relaxed_trunc_f32x4_u`.
    I32x4RelaxedTruncF32x4U,
    /// `i32x4.relaxed_trunc_f64x2_s_zero`.
    I32x4RelaxedTruncF64x2SZero,
    /// `i32x4.relaxed_trunc_f64x2_u_zero`.
    I32x4RelaxedTruncF64x2UZero,
    /// `i8x16.extract_lane_s`.
    I8x16ExtractLaneS { idx: u8 },
    /// `i8x16.extract_lane_u`.
    I8x16ExtractLaneU { idx: u8 },
    /// `i16x8.extract_lane_s`.
    I16x8ExtractLaneS { idx: u8 },
    /// `i16x8.extract_lane_u`.
    I16x8ExtractLaneU { idx: u8 },
    /// `i32x4.extract_lane`.
    I32x4ExtractLane { idx: u8 },
    /// `i64x2.extract_lane`.
    I64x2ExtractLane { idx: u8 },
    /// `f32x4.extract_lane`.
    F32x4ExtractLane { idx: u8 },
    /// `f64x2.extract_lane`.
    F64x2ExtractLane { idx: u8 },
}
