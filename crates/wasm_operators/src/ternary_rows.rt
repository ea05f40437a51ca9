//! The opcodes of operators of three operands: one row for each operator.

ghost use Rattle.std.specs.Prelude.{◌≡◌};
ghost use Rattle.wasm_operators.specs.TernaryOperations.{ternary_opcode as the_ternary_opcode};

use crate::types::Opcode;
use crate::types::Opcode::Prefixed;
use wasm_types::TernaryOp;

/// The opcode of an operator of three operands, from 0xfd 261 to 0xfd 275 (WebAssembly core
/// specification 3.0, binary format, vector instructions).
pub fn ternary_opcode(op: TernaryOp) -> Opcode
    ensures { result ≡ the_ternary_opcode op }
{
    match op {
        TernaryOp::F32x4RelaxedMadd => Prefixed(0xfd, 261),
        TernaryOp::F32x4RelaxedNmadd => Prefixed(0xfd, 262),
        TernaryOp::F64x2RelaxedMadd => Prefixed(0xfd, 263),
        TernaryOp::F64x2RelaxedNmadd => Prefixed(0xfd, 264),
        TernaryOp::I8x16RelaxedLaneselect => Prefixed(0xfd, 265),
        TernaryOp::I16x8RelaxedLaneselect => Prefixed(0xfd, 266),
        TernaryOp::I32x4RelaxedLaneselect => Prefixed(0xfd, 267),
        TernaryOp::I64x2RelaxedLaneselect => Prefixed(0xfd, 268),
        TernaryOp::I32x4RelaxedDotI8x16I7x16AddS => Prefixed(0xfd, 275),
    }
}
