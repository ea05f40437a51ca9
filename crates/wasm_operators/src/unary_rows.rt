//! The opcodes of operators of one operand: one row for each operator.

ghost use Rattle.std.specs.Prelude.{◌≡◌};
ghost use Rattle.wasm_operators.specs.UnaryOperations.{unary_opcode as the_unary_opcode, scalar_unary_opcode as the_scalar_unary_opcode, low_vector_unary_opcode as the_low_vector_unary_opcode, high_vector_unary_opcode as the_high_vector_unary_opcode, extract_opcode as the_extract_opcode, extract_lane as the_extract_lane};
ghost use Rattle.wasm_operators.specs.Parts.{lane_immediates};

use crate::types::Opcode;
use crate::types::Opcode::{Byte, Prefixed};
use wasm_types::UnaryOp;

/// Opcodes of one byte, and 0xfc 0 to 7.
fn scalar_unary_opcode(op: UnaryOp) -> Option<Opcode>
    ensures { result ≡ the_scalar_unary_opcode op }
{
    match op {
        UnaryOp::I32Eqz => Some(Byte(0x45)),
        UnaryOp::I64Eqz => Some(Byte(0x50)),
        UnaryOp::I32Clz => Some(Byte(0x67)),
        UnaryOp::I32Ctz => Some(Byte(0x68)),
        UnaryOp::I32Popcnt => Some(Byte(0x69)),
        UnaryOp::I64Clz => Some(Byte(0x79)),
        UnaryOp::I64Ctz => Some(Byte(0x7a)),
        UnaryOp::I64Popcnt => Some(Byte(0x7b)),
        UnaryOp::F32Abs => Some(Byte(0x8b)),
        UnaryOp::F32Neg => Some(Byte(0x8c)),
        UnaryOp::F32Ceil => Some(Byte(0x8d)),
        UnaryOp::F32Floor => Some(Byte(0x8e)),
        UnaryOp::F32Trunc => Some(Byte(0x8f)),
        UnaryOp::F32Nearest => Some(Byte(0x90)),
        UnaryOp::F32Sqrt => Some(Byte(0x91)),
        UnaryOp::F64Abs => Some(Byte(0x99)),
        UnaryOp::F64Neg => Some(Byte(0x9a)),
        UnaryOp::F64Ceil => Some(Byte(0x9b)),
        UnaryOp::F64Floor => Some(Byte(0x9c)),
        UnaryOp::F64Trunc => Some(Byte(0x9d)),
        UnaryOp::F64Nearest => Some(Byte(0x9e)),
        UnaryOp::F64Sqrt => Some(Byte(0x9f)),
        UnaryOp::I32WrapI64 => Some(Byte(0xa7)),
        UnaryOp::I32TruncSF32 => Some(Byte(0xa8)),
        UnaryOp::I32TruncUF32 => Some(Byte(0xa9)),
        UnaryOp::I32TruncSF64 => Some(Byte(0xaa)),
        UnaryOp::I32TruncUF64 => Some(Byte(0xab)),
        UnaryOp::I64ExtendSI32 => Some(Byte(0xac)),
        UnaryOp::I64ExtendUI32 => Some(Byte(0xad)),
        UnaryOp::I64TruncSF32 => Some(Byte(0xae)),
        UnaryOp::I64TruncUF32 => Some(Byte(0xaf)),
        UnaryOp::I64TruncSF64 => Some(Byte(0xb0)),
        UnaryOp::I64TruncUF64 => Some(Byte(0xb1)),
        UnaryOp::F32ConvertSI32 => Some(Byte(0xb2)),
        UnaryOp::F32ConvertUI32 => Some(Byte(0xb3)),
        UnaryOp::F32ConvertSI64 => Some(Byte(0xb4)),
        UnaryOp::F32ConvertUI64 => Some(Byte(0xb5)),
        UnaryOp::F32DemoteF64 => Some(Byte(0xb6)),
        UnaryOp::F64ConvertSI32 => Some(Byte(0xb7)),
        UnaryOp::F64ConvertUI32 => Some(Byte(0xb8)),
        UnaryOp::F64ConvertSI64 => Some(Byte(0xb9)),
        UnaryOp::F64ConvertUI64 => Some(Byte(0xba)),
        UnaryOp::F64PromoteF32 => Some(Byte(0xbb)),
        UnaryOp::I32ReinterpretF32 => Some(Byte(0xbc)),
        UnaryOp::I64ReinterpretF64 => Some(Byte(0xbd)),
        UnaryOp::F32ReinterpretI32 => Some(Byte(0xbe)),
        UnaryOp::F64ReinterpretI64 => Some(Byte(0xbf)),
        UnaryOp::I32Extend8S => Some(Byte(0xc0)),
        UnaryOp::I32Extend16S => Some(Byte(0xc1)),
        UnaryOp::I64Extend8S => Some(Byte(0xc2)),
        UnaryOp::I64Extend16S => Some(Byte(0xc3)),
        UnaryOp::I64Extend32S => Some(Byte(0xc4)),
        UnaryOp::I32TruncSSatF32 => Some(Prefixed(0xfc, 0)),
        UnaryOp::I32TruncUSatF32 => Some(Prefixed(0xfc, 1)),
        UnaryOp::I32TruncSSatF64 => Some(Prefixed(0xfc, 2)),
        UnaryOp::I32TruncUSatF64 => Some(Prefixed(0xfc, 3)),
        UnaryOp::I64TruncSSatF32 => Some(Prefixed(0xfc, 4)),
        UnaryOp::I64TruncUSatF32 => Some(Prefixed(0xfc, 5)),
        UnaryOp::I64TruncSSatF64 => Some(Prefixed(0xfc, 6)),
        UnaryOp::I64TruncUSatF64 => Some(Prefixed(0xfc, 7)),
        _ => None,
    }
}

/// 0xfd 15 to 127.
fn low_vector_unary_opcode(op: UnaryOp) -> Option<Opcode>
    ensures { result ≡ the_low_vector_unary_opcode op }
{
    match op {
        UnaryOp::I8x16Splat => Some(Prefixed(0xfd, 15)),
        UnaryOp::I16x8Splat => Some(Prefixed(0xfd, 16)),
        UnaryOp::I32x4Splat => Some(Prefixed(0xfd, 17)),
        UnaryOp::I64x2Splat => Some(Prefixed(0xfd, 18)),
        UnaryOp::F32x4Splat => Some(Prefixed(0xfd, 19)),
        UnaryOp::F64x2Splat => Some(Prefixed(0xfd, 20)),
        UnaryOp::V128Not => Some(Prefixed(0xfd, 77)),
        UnaryOp::V128AnyTrue => Some(Prefixed(0xfd, 83)),
        UnaryOp::F32x4DemoteF64x2Zero => Some(Prefixed(0xfd, 94)),
        UnaryOp::F64x2PromoteLowF32x4 => Some(Prefixed(0xfd, 95)),
        UnaryOp::I8x16Abs => Some(Prefixed(0xfd, 96)),
        UnaryOp::I8x16Neg => Some(Prefixed(0xfd, 97)),
        UnaryOp::I8x16Popcnt => Some(Prefixed(0xfd, 98)),
        UnaryOp::I8x16AllTrue => Some(Prefixed(0xfd, 99)),
        UnaryOp::I8x16Bitmask => Some(Prefixed(0xfd, 100)),
        UnaryOp::F32x4Ceil => Some(Prefixed(0xfd, 103)),
        UnaryOp::F32x4Floor => Some(Prefixed(0xfd, 104)),
        UnaryOp::F32x4Trunc => Some(Prefixed(0xfd, 105)),
        UnaryOp::F32x4Nearest => Some(Prefixed(0xfd, 106)),
        UnaryOp::F64x2Ceil => Some(Prefixed(0xfd, 116)),
        UnaryOp::F64x2Floor => Some(Prefixed(0xfd, 117)),
        UnaryOp::F64x2Trunc => Some(Prefixed(0xfd, 122)),
        UnaryOp::I16x8ExtAddPairwiseI8x16S => Some(Prefixed(0xfd, 124)),
        UnaryOp::I16x8ExtAddPairwiseI8x16U => Some(Prefixed(0xfd, 125)),
        UnaryOp::I32x4ExtAddPairwiseI16x8S => Some(Prefixed(0xfd, 126)),
        UnaryOp::I32x4ExtAddPairwiseI16x8U => Some(Prefixed(0xfd, 127)),
        _ => None,
    }
}

/// 0xfd from 128 on.
fn high_vector_unary_opcode(op: UnaryOp) -> Option<Opcode>
    ensures { result ≡ the_high_vector_unary_opcode op }
{
    match op {
        UnaryOp::I16x8Abs => Some(Prefixed(0xfd, 128)),
        UnaryOp::I16x8Neg => Some(Prefixed(0xfd, 129)),
        UnaryOp::I16x8AllTrue => Some(Prefixed(0xfd, 131)),
        UnaryOp::I16x8Bitmask => Some(Prefixed(0xfd, 132)),
        UnaryOp::I16x8WidenLowI8x16S => Some(Prefixed(0xfd, 135)),
        UnaryOp::I16x8WidenHighI8x16S => Some(Prefixed(0xfd, 136)),
        UnaryOp::I16x8WidenLowI8x16U => Some(Prefixed(0xfd, 137)),
        UnaryOp::I16x8WidenHighI8x16U => Some(Prefixed(0xfd, 138)),
        UnaryOp::F64x2Nearest => Some(Prefixed(0xfd, 148)),
        UnaryOp::I32x4Abs => Some(Prefixed(0xfd, 160)),
        UnaryOp::I32x4Neg => Some(Prefixed(0xfd, 161)),
        UnaryOp::I32x4AllTrue => Some(Prefixed(0xfd, 163)),
        UnaryOp::I32x4Bitmask => Some(Prefixed(0xfd, 164)),
        UnaryOp::I32x4WidenLowI16x8S => Some(Prefixed(0xfd, 167)),
        UnaryOp::I32x4WidenHighI16x8S => Some(Prefixed(0xfd, 168)),
        UnaryOp::I32x4WidenLowI16x8U => Some(Prefixed(0xfd, 169)),
        UnaryOp::I32x4WidenHighI16x8U => Some(Prefixed(0xfd, 170)),
        UnaryOp::I64x2Abs => Some(Prefixed(0xfd, 192)),
        UnaryOp::I64x2Neg => Some(Prefixed(0xfd, 193)),
        UnaryOp::I64x2AllTrue => Some(Prefixed(0xfd, 195)),
        UnaryOp::I64x2Bitmask => Some(Prefixed(0xfd, 196)),
        UnaryOp::I64x2ExtendLowI32x4S => Some(Prefixed(0xfd, 199)),
        UnaryOp::I64x2ExtendHighI32x4S => Some(Prefixed(0xfd, 200)),
        UnaryOp::I64x2ExtendLowI32x4U => Some(Prefixed(0xfd, 201)),
        UnaryOp::I64x2ExtendHighI32x4U => Some(Prefixed(0xfd, 202)),
        UnaryOp::F32x4Abs => Some(Prefixed(0xfd, 224)),
        UnaryOp::F32x4Neg => Some(Prefixed(0xfd, 225)),
        UnaryOp::F32x4Sqrt => Some(Prefixed(0xfd, 227)),
        UnaryOp::F64x2Abs => Some(Prefixed(0xfd, 236)),
        UnaryOp::F64x2Neg => Some(Prefixed(0xfd, 237)),
        UnaryOp::F64x2Sqrt => Some(Prefixed(0xfd, 239)),
        UnaryOp::I32x4TruncSatF32x4S => Some(Prefixed(0xfd, 248)),
        UnaryOp::I32x4TruncSatF32x4U => Some(Prefixed(0xfd, 249)),
        UnaryOp::F32x4ConvertI32x4S => Some(Prefixed(0xfd, 250)),
        UnaryOp::F32x4ConvertI32x4U => Some(Prefixed(0xfd, 251)),
        UnaryOp::I32x4TruncSatF64x2SZero => Some(Prefixed(0xfd, 252)),
        UnaryOp::I32x4TruncSatF64x2UZero => Some(Prefixed(0xfd, 253)),
        UnaryOp::F64x2ConvertLowI32x4S => Some(Prefixed(0xfd, 254)),
        UnaryOp::F64x2ConvertLowI32x4U => Some(Prefixed(0xfd, 255)),
        UnaryOp::I32x4RelaxedTruncF32x4S => Some(Prefixed(0xfd, 257)),
        UnaryOp::I32x4RelaxedTruncF32x4U => Some(Prefixed(0xfd, 258)),
        UnaryOp::I32x4RelaxedTruncF64x2SZero => Some(Prefixed(0xfd, 259)),
        UnaryOp::I32x4RelaxedTruncF64x2UZero => Some(Prefixed(0xfd, 260)),
        _ => None,
    }
}

/// Operators that extract a lane.
fn extract_opcode(op: UnaryOp) -> Option<Opcode>
    ensures { result ≡ the_extract_opcode op }
{
    match op {
        UnaryOp::I8x16ExtractLaneS { .. } => Some(Prefixed(0xfd, 21)),
        UnaryOp::I8x16ExtractLaneU { .. } => Some(Prefixed(0xfd, 22)),
        UnaryOp::I16x8ExtractLaneS { .. } => Some(Prefixed(0xfd, 24)),
        UnaryOp::I16x8ExtractLaneU { .. } => Some(Prefixed(0xfd, 25)),
        UnaryOp::I32x4ExtractLane { .. } => Some(Prefixed(0xfd, 27)),
        UnaryOp::I64x2ExtractLane { .. } => Some(Prefixed(0xfd, 29)),
        UnaryOp::F32x4ExtractLane { .. } => Some(Prefixed(0xfd, 31)),
        UnaryOp::F64x2ExtractLane { .. } => Some(Prefixed(0xfd, 33)),
        _ => None,
    }
}

/// The opcode of an operator of one operand (WebAssembly core specification 3.0, binary format,
/// numeric and vector instructions).
#[tactic(auto, using(crate::proofs::Rows::unary_has_row))]
pub fn unary_opcode(op: UnaryOp) -> Opcode
    ensures { result ≡ the_unary_opcode op }
{
    if let Some(opcode) = scalar_unary_opcode(op) {
        return opcode;
    }
    if let Some(opcode) = low_vector_unary_opcode(op) {
        return opcode;
    }
    if let Some(opcode) = high_vector_unary_opcode(op) {
        return opcode;
    }
    match extract_opcode(op) {
        Some(opcode) => opcode,
        None => unreachable!(),
    }
}

/// The index of the lane that an operator extracts, if it extracts one.
pub fn extract_lane(op: UnaryOp) -> Option<u8>
    ensures { lane_immediates result ≡ the_extract_lane op }
{
    match op {
        UnaryOp::I8x16ExtractLaneS { idx } => Some(idx),
        UnaryOp::I8x16ExtractLaneU { idx } => Some(idx),
        UnaryOp::I16x8ExtractLaneS { idx } => Some(idx),
        UnaryOp::I16x8ExtractLaneU { idx } => Some(idx),
        UnaryOp::I32x4ExtractLane { idx } => Some(idx),
        UnaryOp::I64x2ExtractLane { idx } => Some(idx),
        UnaryOp::F32x4ExtractLane { idx } => Some(idx),
        UnaryOp::F64x2ExtractLane { idx } => Some(idx),
        _ => None,
    }
}
