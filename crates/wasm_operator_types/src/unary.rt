//! The types of operators of one operand.
ghost use Rattle.wasm_operator_types.specs.NumericTypes.{UnaryIs};

use crate::lane::laned;
use wasm_operators::RawValType;
use wasm_types::UnaryOp;
use wasm_types::ValType::{F32, F64, I32, I64, V128};

/// What the operator takes, and what it gives; `None` if its lane is not one of the vector.
pub fn unary_types(op: UnaryOp) -> Option<(RawValType, RawValType)>
    ensures { UnaryIs op result }
{
    match op {
        UnaryOp::I8x16ExtractLaneS { idx } | UnaryOp::I8x16ExtractLaneU { idx } => laned(
            idx,
            16,
            (V128, I32),
        ),
        UnaryOp::I16x8ExtractLaneS { idx } | UnaryOp::I16x8ExtractLaneU { idx } => laned(
            idx,
            8,
            (V128, I32),
        ),
        UnaryOp::I32x4ExtractLane { idx } => laned(idx, 4, (V128, I32)),
        UnaryOp::I64x2ExtractLane { idx } => laned(idx, 2, (V128, I64)),
        UnaryOp::F32x4ExtractLane { idx } => laned(idx, 4, (V128, F32)),
        UnaryOp::F64x2ExtractLane { idx } => laned(idx, 2, (V128, F64)),
        UnaryOp::I16x8Abs
        | UnaryOp::I16x8Neg
        | UnaryOp::I16x8WidenLowI8x16S
        | UnaryOp::I16x8WidenHighI8x16S
        | UnaryOp::I16x8WidenLowI8x16U
        | UnaryOp::I16x8WidenHighI8x16U
        | UnaryOp::F64x2Nearest
        | UnaryOp::I32x4Abs
        | UnaryOp::I32x4Neg
        | UnaryOp::I32x4WidenLowI16x8S
        | UnaryOp::I32x4WidenHighI16x8S
        | UnaryOp::I32x4WidenLowI16x8U
        | UnaryOp::I32x4WidenHighI16x8U
        | UnaryOp::I64x2Abs
        | UnaryOp::I64x2Neg
        | UnaryOp::I64x2ExtendLowI32x4S
        | UnaryOp::I64x2ExtendHighI32x4S
        | UnaryOp::I64x2ExtendLowI32x4U
        | UnaryOp::I64x2ExtendHighI32x4U
        | UnaryOp::F32x4Abs => Some((V128, V128)),
        UnaryOp::F32x4Neg
        | UnaryOp::F32x4Sqrt
        | UnaryOp::F64x2Abs
        | UnaryOp::F64x2Neg
        | UnaryOp::F64x2Sqrt
        | UnaryOp::I32x4TruncSatF32x4S
        | UnaryOp::I32x4TruncSatF32x4U
        | UnaryOp::F32x4ConvertI32x4S
        | UnaryOp::F32x4ConvertI32x4U
        | UnaryOp::I32x4TruncSatF64x2SZero
        | UnaryOp::I32x4TruncSatF64x2UZero
        | UnaryOp::F64x2ConvertLowI32x4S
        | UnaryOp::F64x2ConvertLowI32x4U
        | UnaryOp::I32x4RelaxedTruncF32x4S
        | UnaryOp::I32x4RelaxedTruncF32x4U
        | UnaryOp::I32x4RelaxedTruncF64x2SZero
        | UnaryOp::I32x4RelaxedTruncF64x2UZero
        | UnaryOp::V128Not
        | UnaryOp::F32x4DemoteF64x2Zero
        | UnaryOp::F64x2PromoteLowF32x4 => Some((V128, V128)),
        UnaryOp::I8x16Abs
        | UnaryOp::I8x16Neg
        | UnaryOp::I8x16Popcnt
        | UnaryOp::F32x4Ceil
        | UnaryOp::F32x4Floor
        | UnaryOp::F32x4Trunc
        | UnaryOp::F32x4Nearest
        | UnaryOp::F64x2Ceil
        | UnaryOp::F64x2Floor
        | UnaryOp::F64x2Trunc
        | UnaryOp::I16x8ExtAddPairwiseI8x16S
        | UnaryOp::I16x8ExtAddPairwiseI8x16U
        | UnaryOp::I32x4ExtAddPairwiseI16x8S
        | UnaryOp::I32x4ExtAddPairwiseI16x8U => Some((V128, V128)),
        UnaryOp::I16x8AllTrue
        | UnaryOp::I16x8Bitmask
        | UnaryOp::I32x4AllTrue
        | UnaryOp::I32x4Bitmask
        | UnaryOp::I64x2AllTrue
        | UnaryOp::I64x2Bitmask
        | UnaryOp::V128AnyTrue
        | UnaryOp::I8x16AllTrue
        | UnaryOp::I8x16Bitmask => Some((V128, I32)),
        UnaryOp::I8x16Splat | UnaryOp::I16x8Splat | UnaryOp::I32x4Splat => Some((I32, V128)),
        UnaryOp::I64x2Splat => Some((I64, V128)),
        UnaryOp::F32x4Splat => Some((F32, V128)),
        UnaryOp::F64x2Splat => Some((F64, V128)),
        UnaryOp::I32Eqz
        | UnaryOp::I32Clz
        | UnaryOp::I32Ctz
        | UnaryOp::I32Popcnt
        | UnaryOp::I32Extend8S
        | UnaryOp::I32Extend16S => Some((I32, I32)),
        UnaryOp::I64Eqz | UnaryOp::I32WrapI64 => Some((I64, I32)),
        UnaryOp::I64Clz
        | UnaryOp::I64Ctz
        | UnaryOp::I64Popcnt
        | UnaryOp::I64Extend8S
        | UnaryOp::I64Extend16S
        | UnaryOp::I64Extend32S => Some((I64, I64)),
        UnaryOp::F32Abs
        | UnaryOp::F32Neg
        | UnaryOp::F32Ceil
        | UnaryOp::F32Floor
        | UnaryOp::F32Trunc
        | UnaryOp::F32Nearest
        | UnaryOp::F32Sqrt => Some((F32, F32)),
        UnaryOp::F64Abs
        | UnaryOp::F64Neg
        | UnaryOp::F64Ceil
        | UnaryOp::F64Floor
        | UnaryOp::F64Trunc
        | UnaryOp::F64Nearest
        | UnaryOp::F64Sqrt => Some((F64, F64)),
        UnaryOp::I32TruncSF32
        | UnaryOp::I32TruncUF32
        | UnaryOp::I32ReinterpretF32
        | UnaryOp::I32TruncSSatF32
        | UnaryOp::I32TruncUSatF32 => Some((F32, I32)),
        UnaryOp::I32TruncSF64
        | UnaryOp::I32TruncUF64
        | UnaryOp::I32TruncSSatF64
        | UnaryOp::I32TruncUSatF64 => Some((F64, I32)),
        UnaryOp::I64ExtendSI32 | UnaryOp::I64ExtendUI32 => Some((I32, I64)),
        UnaryOp::I64TruncSF32
        | UnaryOp::I64TruncUF32
        | UnaryOp::I64TruncSSatF32
        | UnaryOp::I64TruncUSatF32 => Some((F32, I64)),
        UnaryOp::I64TruncSF64
        | UnaryOp::I64TruncUF64
        | UnaryOp::I64ReinterpretF64
        | UnaryOp::I64TruncSSatF64
        | UnaryOp::I64TruncUSatF64 => Some((F64, I64)),
        UnaryOp::F32ConvertSI32 | UnaryOp::F32ConvertUI32 | UnaryOp::F32ReinterpretI32 => Some((
            I32, F32,
        )),
        UnaryOp::F32ConvertSI64 | UnaryOp::F32ConvertUI64 => Some((I64, F32)),
        UnaryOp::F32DemoteF64 => Some((F64, F32)),
        UnaryOp::F64ConvertSI32 | UnaryOp::F64ConvertUI32 => Some((I32, F64)),
        UnaryOp::F64ConvertSI64 | UnaryOp::F64ConvertUI64 | UnaryOp::F64ReinterpretI64 => Some((
            I64, F64,
        )),
        UnaryOp::F64PromoteF32 => Some((F32, F64)),
    }
}
