//! Operators of two operands.

/// A numeric or vector operator of two operands, among them shifts and the replacement of a lane.
/// The names are those of the WebAssembly core specification in camel case (`i32.div_s` is
/// `I32DivS`); `PMin`, `PMax`, `AndNot`, `ExtMul` and `Q15Mulr` have capitals inside. `idx` is the
/// index of a lane.
#[derive(Clone, Copy)]
pub enum BinaryOp {
    /// `i32.eq`.
    I32Eq,
    /// `i32.ne`.
    I32Ne,
    /// `i32.lt_s`.
    I32LtS,
    /// `i32.lt_u`.
    I32LtU,
    /// `i32.gt_s`.
    I32GtS,
    /// `i32.gt_u`.
    I32GtU,
    /// `i32.le_s`.
    I32LeS,
    /// `i32.le_u`.
    I32LeU,
    /// `i32.ge_s`.
    I32GeS,
    /// `i32.ge_u`.
    I32GeU,
    /// `i64.eq`.
    I64Eq,
    /// `i64.ne`.
    I64Ne,
    /// `i64.lt_s`.
    I64LtS,
    /// `i64.lt_u`.
    I64LtU,
    /// `i64.gt_s`.
    I64GtS,
    /// `i64.gt_u`.
    I64GtU,
    /// `i64.le_s`.
    I64LeS,
    /// `i64.le_u`.
    I64LeU,
    /// `i64.ge_s`.
    I64GeS,
    /// `i64.ge_u`.
    I64GeU,
    /// `f32.eq`.
    F32Eq,
    /// `f32.ne`.
    F32Ne,
    /// `f32.lt`.
    F32Lt,
    /// `f32.gt`.
    F32Gt,
    /// `f32.le`.
    F32Le,
    /// `f32.ge`.
    F32Ge,
    /// `f64.eq`.
    F64Eq,
    /// `f64.ne`.
    F64Ne,
    /// `f64.lt`.
    F64Lt,
    /// `f64.gt`.
    F64Gt,
    /// `f64.le`.
    F64Le,
    /// `f64.ge`.
    F64Ge,
    /// `i32.add`.
    I32Add,
    /// `i32.sub`.
    I32Sub,
    /// `i32.mul`.
    I32Mul,
    /// `i32.div_s`.
    I32DivS,
    /// `i32.div_u`.
    I32DivU,
    /// `i32.rem_s`.
    I32RemS,
    /// `i32.rem_u`.
    I32RemU,
    /// `i32.and`.
    I32And,
    /// `i32.or`.
    I32Or,
    /// `i32.xor`.
    I32Xor,
    /// `i32.shl`.
    I32Shl,
    /// `i32.shr_s`.
    I32ShrS,
    /// `i32.shr_u`.
    I32ShrU,
    /// `i32.rotl`.
    I32Rotl,
    /// `i32.rotr`.
    I32Rotr,
    /// `i64.add`.
    I64Add,
    /// `i64.sub`.
    I64Sub,
    /// `i64.mul`.
    I64Mul,
    /// `i64.div_s`.
    I64DivS,
    /// `i64.div_u`.
    I64DivU,
    /// `i64.rem_s`.
    I64RemS,
    /// `i64.rem_u`.
    I64RemU,
    /// `i64.and`.
    I64And,
    /// `i64.or`.
    I64Or,
    /// `i64.xor`.
    I64Xor,
    /// `i64.shl`.
    I64Shl,
    /// `i64.shr_s`.
    I64ShrS,
    /// `i64.shr_u`.
    I64ShrU,
    /// `i64.rotl`.
    I64Rotl,
    /// `i64.rotr`.
    I64Rotr,
    /// `f32.add`.
    F32Add,
    /// `f32.sub`.
    F32Sub,
    /// `f32.mul`.
    F32Mul,
    /// `f32.div`.
    F32Div,
    /// `f32.min`.
    F32Min,
    /// `f32.max`.
    F32Max,
    /// `f32.copysign`.
    F32Copysign,
    /// `f64.add`.
    F64Add,
    /// `f64.sub`.
    F64Sub,
    /// `f64.mul`.
    F64Mul,
    /// `f64.div`.
    F64Div,
    /// `f64.min`.
    F64Min,
    /// `f64.max`.
    F64Max,
    /// `f64.copysign`.
    F64Copysign,
    /// `i8x16.eq`.
    I8x16Eq,
    /// `i8x16.ne`.
    I8x16Ne,
    /// `i8x16.lt_s`.
    I8x16LtS,
    /// `i8x16.lt_u`.
    I8x16LtU,
    /// `i8x16.gt_s`.
    I8x16GtS,
    /// `i8x16.gt_u`.
    I8x16GtU,
    /// `i8x16.le_s`.
    I8x16LeS,
    /// `i8x16.le_u`.
    I8x16LeU,
    /// `i8x16.ge_s`.
    I8x16GeS,
    /// `i8x16.ge_u`.
    I8x16GeU,
    /// `i16x8.eq`.
    I16x8Eq,
    /// `i16x8.ne`.
    I16x8Ne,
    /// `i16x8.lt_s`.
    I16x8LtS,
    /// `i16x8.lt_u`.
    I16x8LtU,
    /// `i16x8.gt_s`.
    I16x8GtS,
    /// `i16x8.gt_u`.
    I16x8GtU,
    /// `i16x8.le_s`.
    I16x8LeS,
    /// `i16x8.le_u`.
    I16x8LeU,
    /// `i16x8.ge_s`.
    I16x8GeS,
    /// `i16x8.ge_u`.
    I16x8GeU,
    /// `i32x4.eq`.
    I32x4Eq,
    /// `i32x4.ne`.
    I32x4Ne,
    /// `i32x4.lt_s`.
    I32x4LtS,
    /// `i32x4.lt_u`.
    I32x4LtU,
    /// `i32x4.gt_s`.
    I32x4GtS,
    /// `i32x4.gt_u`.
    I32x4GtU,
    /// `i32x4.le_s`.
    I32x4LeS,
    /// `i32x4.le_u`.
    I32x4LeU,
    /// `i32x4.ge_s`.
    I32x4GeS,
    /// `i32x4.ge_u`.
    I32x4GeU,
    /// `f32x4.eq`.
    F32x4Eq,
    /// `f32x4.ne`.
    F32x4Ne,
    /// `f32x4.lt`.
    F32x4Lt,
    /// `f32x4.gt`.
    F32x4Gt,
    /// `f32x4.le`.
    F32x4Le,
    /// `f32x4.ge`.
    F32x4Ge,
    /// `f64x2.eq`.
    F64x2Eq,
    /// `f64x2.ne`.
    F64x2Ne,
    /// `f64x2.lt`.
    F64x2Lt,
    /// `f64x2.gt`.
    F64x2Gt,
    /// `f64x2.le`.
    F64x2Le,
    /// `f64x2.ge`.
    F64x2Ge,
    /// `v128.and`.
    V128And,
    /// `v128.andnot`.
    V128AndNot,
    /// `v128.or`.
    V128Or,
    /// `v128.xor`.
    V128Xor,
    /// `i8x16.narrow_i16x8_s`.
    I8x16NarrowI16x8S,
    /// `i8x16.narrow_i16x8_u`.
    I8x16NarrowI16x8U,
    /// `i8x16.shl`.
    I8x16Shl,
    /// `i8x16.shr_s`.
    I8x16ShrS,
    /// `i8x16.shr_u`.
    I8x16ShrU,
    /// `i8x16.add`.
    I8x16Add,
    /// `i8x16.add_sat_s`.
    I8x16AddSatS,
    /// `i8x16.add_sat_u`.
    I8x16AddSatU,
    /// `i8x16.sub`.
    I8x16Sub,
    /// `i8x16.sub_sat_s`.
    I8x16SubSatS,
    /// `i8x16.sub_sat_u`.
    I8x16SubSatU,
    /// `i8x16.min_s`.
    I8x16MinS,
    /// `i8x16.min_u`.
    I8x16MinU,
    /// `i8x16.max_s`.
    I8x16MaxS,
    /// `i8x16.max_u`.
    I8x16MaxU,
    /// `i8x16.avgr_u`.
    I8x16AvgrU,
    /// `i16x8.q15mulr_sat_s`.
    I16x8Q15MulrSatS,
    /// `i16x8.narrow_i32x4_s`.
    I16x8NarrowI32x4S,
    /// `i16x8.narrow_i32x4_u`.
    I16x8NarrowI32x4U,
    /// `i16x8.shl`.
    I16x8Shl,
    /// `i16x8.shr_s`.
    I16x8ShrS,
    /// `i16x8.shr_u`.
    I16x8ShrU,
    /// `i16x8.add`.
    I16x8Add,
    /// `i16x8.add_sat_s`.
    I16x8AddSatS,
    /// `i16x8.add_sat_u`.
    I16x8AddSatU,
    /// `i16x8.sub`.
    I16x8Sub,
    /// `i16x8.sub_sat_s`.
    I16x8SubSatS,
    /// `i16x8.sub_sat_u`.
    I16x8SubSatU,
    /// `i16x8.mul`.
    I16x8Mul,
    /// `i16x8.min_s`.
    I16x8MinS,
    /// `i16x8.min_u`.
    I16x8MinU,
    /// `i16x8.max_s`.
    I16x8MaxS,
    /// `i16x8.max_u`.
    I16x8MaxU,
    /// `i16x8.avgr_u`.
    I16x8AvgrU,
    /// `i16x8.extmul_low_i8x16_s`.
    I16x8ExtMulLowI8x16S,
    /// `i16x8.extmul_high_i8x16_s`.
    I16x8ExtMulHighI8x16S,
    /// `i16x8.extmul_low_i8x16_u`.
    I16x8ExtMulLowI8x16U,
    /// `i16x8.extmul_high_i8x16_u`.
    I16x8ExtMulHighI8x16U,
    /// `i32x4.shl`.
    I32x4Shl,
    /// `i32x4.shr_s`.
    I32x4ShrS,
    /// `i32x4.shr_u`.
    I32x4ShrU,
    /// `i32x4.add`.
    I32x4Add,
    /// `i32x4.sub`.
    I32x4Sub,
    /// `i32x4.mul`.
    I32x4Mul,
    /// `i32x4.min_s`.
    I32x4MinS,
    /// `i32x4.min_u`.
    I32x4MinU,
    /// `i32x4.max_s`.
    I32x4MaxS,
    /// `i32x4.max_u`.
    I32x4MaxU,
    /// `i32x4.dot_i16x8_s`.
    I32x4DotI16x8S,
    /// `i32x4.extmul_low_i16x8_s`.
    I32x4ExtMulLowI16x8S,
    /// `i32x4.extmul_high_i16x8_s`.
    I32x4ExtMulHighI16x8S,
    /// `i32x4.extmul_low_i16x8_u`.
    I32x4ExtMulLowI16x8U,
    /// `i32x4.extmul_high_i16x8_u`.
    I32x4ExtMulHighI16x8U,
    /// `i64x2.shl`.
    I64x2Shl,
    /// `i64x2.shr_s`.
    I64x2ShrS,
    /// `i64x2.shr_u`.
    I64x2ShrU,
    /// `i64x2.add`.
    I64x2Add,
    /// `i64x2.sub`.
    I64x2Sub,
    /// `i64x2.mul`.
    I64x2Mul,
    /// `i64x2.eq`.
    I64x2Eq,
    /// `i64x2.ne`.
    I64x2Ne,
    /// `i64x2.lt_s`.
    I64x2LtS,
    /// `i64x2.gt_s`.
    I64x2GtS,
    /// `i64x2.le_s`.
    I64x2LeS,
    /// `i64x2.ge_s`.
    I64x2GeS,
    /// `i64x2.extmul_low_i32x4_s`.
    I64x2ExtMulLowI32x4S,
    /// `i64x2.extmul_high_i32x4_s`.
    I64x2ExtMulHighI32x4S,
    /// `i64x2.extmul_low_i32x4_u`.
    I64x2ExtMulLowI32x4U,
    /// `i64x2.extmul_high_i32x4_u`.
    I64x2ExtMulHighI32x4U,
    /// `f32x4.add`.
    F32x4Add,
    /// `f32x4.sub`.
    F32x4Sub,
    /// `f32x4.mul`.
    F32x4Mul,
    /// `f32x4.div`.
    F32x4Div,
    /// `f32x4.min`.
    F32x4Min,
    /// `f32x4.max`.
    F32x4Max,
    /// `f32x4.pmin`.
    F32x4PMin,
    /// `f32x4.pmax`.
    F32x4PMax,
    /// `f64x2.add`.
    F64x2Add,
    /// `f64x2.sub`.
    F64x2Sub,
    /// `f64x2.mul`.
    F64x2Mul,
    /// `f64x2.div`.
    F64x2Div,
    /// `f64x2.min`.
    F64x2Min,
    /// `f64x2.max`.
    F64x2Max,
    /// `f64x2.pmin`.
    F64x2PMin,
    /// `f64x2.pmax`.
    F64x2PMax,
    /// `i8x16.relaxed_swizzle`.
    I8x16RelaxedSwizzle,
    /// `f32x4.relaxed_min`.
    F32x4RelaxedMin,
    /// `f32x4.relaxed_max`.
    F32x4RelaxedMax,
    /// `f64x2.relaxed_min`.
    F64x2RelaxedMin,
    /// `f64x2.relaxed_max`.
    F64x2RelaxedMax,
    /// `i16x8.relaxed_q15mulr_s`.
    I16x8RelaxedQ15mulrS,
    /// `i16x8.relaxed_dot_i8x16_i7x16_s`.
    I16x8RelaxedDotI8x16I7x16S,
    /// `i8x16.replace_lane`.
    I8x16ReplaceLane { idx: u8 },
    /// `i16x8.replace_lane`.
    I16x8ReplaceLane { idx: u8 },
    /// `i32x4.replace_lane`.
    I32x4ReplaceLane { idx: u8 },
    /// `i64x2.replace_lane`.
    I64x2ReplaceLane { idx: u8 },
    /// `f32x4.replace_lane`.
    F32x4ReplaceLane { idx: u8 },
    /// `f64x2.replace_lane`.
    F64x2ReplaceLane { idx: u8 },
}
