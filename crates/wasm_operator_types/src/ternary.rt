//! The types of operators of three operands.
ghost use Rattle.wasm_operator_types.specs.NumericTypes.{TernaryIs};

use wasm_operators::RawValType;
use wasm_types::TernaryOp;
use wasm_types::ValType::V128;

/// The type of all three operands, and of what the operator gives.
pub fn ternary_type(op: TernaryOp) -> RawValType
    ensures { TernaryIs op result }
{
    match op {
        TernaryOp::F32x4RelaxedMadd
        | TernaryOp::F32x4RelaxedNmadd
        | TernaryOp::F64x2RelaxedMadd
        | TernaryOp::F64x2RelaxedNmadd
        | TernaryOp::I8x16RelaxedLaneselect
        | TernaryOp::I16x8RelaxedLaneselect
        | TernaryOp::I32x4RelaxedLaneselect
        | TernaryOp::I64x2RelaxedLaneselect
        | TernaryOp::I32x4RelaxedDotI8x16I7x16AddS => V128,
    }
}
