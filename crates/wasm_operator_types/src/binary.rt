//! The types of operators of two operands.
ghost use Rattle.wasm_operator_types.specs.NumericTypes.{BinaryIs};

use crate::lane::laned;
use wasm_operators::RawValType;
use wasm_types::BinaryOp;
use wasm_types::ValType::{F32, F64, I32, I64, V128};

/// What the operator takes, and what it gives; `None` if its lane is not one of the vector.
pub fn binary_types(op: BinaryOp) -> Option<(RawValType, RawValType, RawValType)>
    ensures { BinaryIs op result }
{
    match op {
        BinaryOp::I8x16ReplaceLane { idx } => laned(idx, 16, (V128, I32, V128)),
        BinaryOp::I16x8ReplaceLane { idx } => laned(idx, 8, (V128, I32, V128)),
        BinaryOp::I32x4ReplaceLane { idx } => laned(idx, 4, (V128, I32, V128)),
        BinaryOp::I64x2ReplaceLane { idx } => laned(idx, 2, (V128, I64, V128)),
        BinaryOp::F32x4ReplaceLane { idx } => laned(idx, 4, (V128, F32, V128)),
        BinaryOp::F64x2ReplaceLane { idx } => laned(idx, 2, (V128, F64, V128)),
        BinaryOp::I32x4Shl
        | BinaryOp::I32x4ShrS
        | BinaryOp::I32x4ShrU
        | BinaryOp::I64x2Shl
        | BinaryOp::I64x2ShrS
        | BinaryOp::I64x2ShrU
        | BinaryOp::I8x16Shl
        | BinaryOp::I8x16ShrS
        | BinaryOp::I8x16ShrU
        | BinaryOp::I16x8Shl
        | BinaryOp::I16x8ShrS
        | BinaryOp::I16x8ShrU => Some((V128, I32, V128)),
        BinaryOp::I32x4Add
        | BinaryOp::I32x4Sub
        | BinaryOp::I32x4Mul
        | BinaryOp::I32x4MinS
        | BinaryOp::I32x4MinU
        | BinaryOp::I32x4MaxS
        | BinaryOp::I32x4MaxU
        | BinaryOp::I32x4DotI16x8S
        | BinaryOp::I32x4ExtMulLowI16x8S
        | BinaryOp::I32x4ExtMulHighI16x8S
        | BinaryOp::I32x4ExtMulLowI16x8U
        | BinaryOp::I32x4ExtMulHighI16x8U
        | BinaryOp::I64x2Add
        | BinaryOp::I64x2Sub
        | BinaryOp::I64x2Mul
        | BinaryOp::I64x2Eq
        | BinaryOp::I64x2Ne
        | BinaryOp::I64x2LtS => Some((V128, V128, V128)),
        BinaryOp::I64x2GtS
        | BinaryOp::I64x2LeS
        | BinaryOp::I64x2GeS
        | BinaryOp::I64x2ExtMulLowI32x4S
        | BinaryOp::I64x2ExtMulHighI32x4S
        | BinaryOp::I64x2ExtMulLowI32x4U
        | BinaryOp::I64x2ExtMulHighI32x4U
        | BinaryOp::F32x4Add
        | BinaryOp::F32x4Sub
        | BinaryOp::F32x4Mul
        | BinaryOp::F32x4Div
        | BinaryOp::F32x4Min
        | BinaryOp::F32x4Max
        | BinaryOp::F32x4PMin
        | BinaryOp::F32x4PMax
        | BinaryOp::F64x2Add
        | BinaryOp::F64x2Sub
        | BinaryOp::F64x2Mul => Some((V128, V128, V128)),
        BinaryOp::F64x2Div
        | BinaryOp::F64x2Min
        | BinaryOp::F64x2Max
        | BinaryOp::F64x2PMin
        | BinaryOp::F64x2PMax
        | BinaryOp::I8x16RelaxedSwizzle
        | BinaryOp::F32x4RelaxedMin
        | BinaryOp::F32x4RelaxedMax
        | BinaryOp::F64x2RelaxedMin
        | BinaryOp::F64x2RelaxedMax
        | BinaryOp::I16x8RelaxedQ15mulrS
        | BinaryOp::I16x8RelaxedDotI8x16I7x16S
        | BinaryOp::I8x16NarrowI16x8S
        | BinaryOp::I8x16NarrowI16x8U
        | BinaryOp::I8x16Add
        | BinaryOp::I8x16AddSatS
        | BinaryOp::I8x16AddSatU
        | BinaryOp::I8x16Sub => Some((V128, V128, V128)),
        BinaryOp::I8x16SubSatS
        | BinaryOp::I8x16SubSatU
        | BinaryOp::I8x16MinS
        | BinaryOp::I8x16MinU
        | BinaryOp::I8x16MaxS
        | BinaryOp::I8x16MaxU
        | BinaryOp::I8x16AvgrU
        | BinaryOp::I16x8Q15MulrSatS
        | BinaryOp::I16x8NarrowI32x4S
        | BinaryOp::I16x8NarrowI32x4U
        | BinaryOp::I16x8Add
        | BinaryOp::I16x8AddSatS
        | BinaryOp::I16x8AddSatU
        | BinaryOp::I16x8Sub
        | BinaryOp::I16x8SubSatS
        | BinaryOp::I16x8SubSatU
        | BinaryOp::I16x8Mul
        | BinaryOp::I16x8MinS => Some((V128, V128, V128)),
        BinaryOp::I16x8MinU
        | BinaryOp::I16x8MaxS
        | BinaryOp::I16x8MaxU
        | BinaryOp::I16x8AvgrU
        | BinaryOp::I16x8ExtMulLowI8x16S
        | BinaryOp::I16x8ExtMulHighI8x16S
        | BinaryOp::I16x8ExtMulLowI8x16U
        | BinaryOp::I16x8ExtMulHighI8x16U
        | BinaryOp::I8x16Eq
        | BinaryOp::I8x16Ne
        | BinaryOp::I8x16LtS
        | BinaryOp::I8x16LtU
        | BinaryOp::I8x16GtS
        | BinaryOp::I8x16GtU
        | BinaryOp::I8x16LeS
        | BinaryOp::I8x16LeU
        | BinaryOp::I8x16GeS
        | BinaryOp::I8x16GeU => Some((V128, V128, V128)),
        BinaryOp::I16x8Eq
        | BinaryOp::I16x8Ne
        | BinaryOp::I16x8LtS
        | BinaryOp::I16x8LtU
        | BinaryOp::I16x8GtS
        | BinaryOp::I16x8GtU
        | BinaryOp::I16x8LeS
        | BinaryOp::I16x8LeU
        | BinaryOp::I16x8GeS
        | BinaryOp::I16x8GeU
        | BinaryOp::I32x4Eq
        | BinaryOp::I32x4Ne
        | BinaryOp::I32x4LtS
        | BinaryOp::I32x4LtU
        | BinaryOp::I32x4GtS
        | BinaryOp::I32x4GtU
        | BinaryOp::I32x4LeS
        | BinaryOp::I32x4LeU => Some((V128, V128, V128)),
        BinaryOp::I32x4GeS
        | BinaryOp::I32x4GeU
        | BinaryOp::F32x4Eq
        | BinaryOp::F32x4Ne
        | BinaryOp::F32x4Lt
        | BinaryOp::F32x4Gt
        | BinaryOp::F32x4Le
        | BinaryOp::F32x4Ge
        | BinaryOp::F64x2Eq
        | BinaryOp::F64x2Ne
        | BinaryOp::F64x2Lt
        | BinaryOp::F64x2Gt
        | BinaryOp::F64x2Le
        | BinaryOp::F64x2Ge
        | BinaryOp::V128And
        | BinaryOp::V128AndNot
        | BinaryOp::V128Or
        | BinaryOp::V128Xor => Some((V128, V128, V128)),
        BinaryOp::F32Eq
        | BinaryOp::F32Ne
        | BinaryOp::F32Lt
        | BinaryOp::F32Gt
        | BinaryOp::F32Le
        | BinaryOp::F32Ge => Some((F32, F32, I32)),
        BinaryOp::F64Eq
        | BinaryOp::F64Ne
        | BinaryOp::F64Lt
        | BinaryOp::F64Gt
        | BinaryOp::F64Le
        | BinaryOp::F64Ge => Some((F64, F64, I32)),
        BinaryOp::F32Add
        | BinaryOp::F32Sub
        | BinaryOp::F32Mul
        | BinaryOp::F32Div
        | BinaryOp::F32Min
        | BinaryOp::F32Max
        | BinaryOp::F32Copysign => Some((F32, F32, F32)),
        BinaryOp::F64Add
        | BinaryOp::F64Sub
        | BinaryOp::F64Mul
        | BinaryOp::F64Div
        | BinaryOp::F64Min
        | BinaryOp::F64Max
        | BinaryOp::F64Copysign => Some((F64, F64, F64)),
        BinaryOp::I32Eq
        | BinaryOp::I32Ne
        | BinaryOp::I32LtS
        | BinaryOp::I32LtU
        | BinaryOp::I32GtS
        | BinaryOp::I32GtU
        | BinaryOp::I32LeS
        | BinaryOp::I32LeU
        | BinaryOp::I32GeS
        | BinaryOp::I32GeU
        | BinaryOp::I32Add
        | BinaryOp::I32Sub
        | BinaryOp::I32Mul => Some((I32, I32, I32)),
        BinaryOp::I32DivS
        | BinaryOp::I32DivU
        | BinaryOp::I32RemS
        | BinaryOp::I32RemU
        | BinaryOp::I32And
        | BinaryOp::I32Or
        | BinaryOp::I32Xor
        | BinaryOp::I32Shl
        | BinaryOp::I32ShrS
        | BinaryOp::I32ShrU
        | BinaryOp::I32Rotl
        | BinaryOp::I32Rotr => Some((I32, I32, I32)),
        BinaryOp::I64Eq
        | BinaryOp::I64Ne
        | BinaryOp::I64LtS
        | BinaryOp::I64LtU
        | BinaryOp::I64GtS
        | BinaryOp::I64GtU
        | BinaryOp::I64LeS
        | BinaryOp::I64LeU
        | BinaryOp::I64GeS
        | BinaryOp::I64GeU => Some((I64, I64, I32)),
        BinaryOp::I64Add
        | BinaryOp::I64Sub
        | BinaryOp::I64Mul
        | BinaryOp::I64DivS
        | BinaryOp::I64DivU
        | BinaryOp::I64RemS
        | BinaryOp::I64RemU
        | BinaryOp::I64And
        | BinaryOp::I64Or
        | BinaryOp::I64Xor
        | BinaryOp::I64Shl
        | BinaryOp::I64ShrS
        | BinaryOp::I64ShrU
        | BinaryOp::I64Rotl
        | BinaryOp::I64Rotr => Some((I64, I64, I64)),
    }
}
