//! The opcodes of operators of two operands: one row for each operator.

ghost use Rattle.std.specs.Prelude.{◌≡◌};
ghost use Rattle.wasm_operators.specs.BinaryOperations.{binary_opcode as the_binary_opcode, integer_binary_opcode as the_integer_binary_opcode, float_binary_opcode as the_float_binary_opcode, vector_comparison_opcode as the_vector_comparison_opcode, low_vector_binary_opcode as the_low_vector_binary_opcode, high_vector_binary_opcode as the_high_vector_binary_opcode, replace_opcode as the_replace_opcode, replace_lane as the_replace_lane};
ghost use Rattle.wasm_operators.specs.Parts.{lane_immediates};

use crate::types::Opcode;
use crate::types::Opcode::{Byte, Prefixed};
use wasm_types::BinaryOp;

/// Integers: opcodes of one byte.
fn integer_binary_opcode(op: BinaryOp) -> Option<Opcode>
    ensures { result ≡ the_integer_binary_opcode op }
{
    match op {
        BinaryOp::I32Eq => Some(Byte(0x46)),
        BinaryOp::I32Ne => Some(Byte(0x47)),
        BinaryOp::I32LtS => Some(Byte(0x48)),
        BinaryOp::I32LtU => Some(Byte(0x49)),
        BinaryOp::I32GtS => Some(Byte(0x4a)),
        BinaryOp::I32GtU => Some(Byte(0x4b)),
        BinaryOp::I32LeS => Some(Byte(0x4c)),
        BinaryOp::I32LeU => Some(Byte(0x4d)),
        BinaryOp::I32GeS => Some(Byte(0x4e)),
        BinaryOp::I32GeU => Some(Byte(0x4f)),
        BinaryOp::I64Eq => Some(Byte(0x51)),
        BinaryOp::I64Ne => Some(Byte(0x52)),
        BinaryOp::I64LtS => Some(Byte(0x53)),
        BinaryOp::I64LtU => Some(Byte(0x54)),
        BinaryOp::I64GtS => Some(Byte(0x55)),
        BinaryOp::I64GtU => Some(Byte(0x56)),
        BinaryOp::I64LeS => Some(Byte(0x57)),
        BinaryOp::I64LeU => Some(Byte(0x58)),
        BinaryOp::I64GeS => Some(Byte(0x59)),
        BinaryOp::I64GeU => Some(Byte(0x5a)),
        BinaryOp::I32Add => Some(Byte(0x6a)),
        BinaryOp::I32Sub => Some(Byte(0x6b)),
        BinaryOp::I32Mul => Some(Byte(0x6c)),
        BinaryOp::I32DivS => Some(Byte(0x6d)),
        BinaryOp::I32DivU => Some(Byte(0x6e)),
        BinaryOp::I32RemS => Some(Byte(0x6f)),
        BinaryOp::I32RemU => Some(Byte(0x70)),
        BinaryOp::I32And => Some(Byte(0x71)),
        BinaryOp::I32Or => Some(Byte(0x72)),
        BinaryOp::I32Xor => Some(Byte(0x73)),
        BinaryOp::I32Shl => Some(Byte(0x74)),
        BinaryOp::I32ShrS => Some(Byte(0x75)),
        BinaryOp::I32ShrU => Some(Byte(0x76)),
        BinaryOp::I32Rotl => Some(Byte(0x77)),
        BinaryOp::I32Rotr => Some(Byte(0x78)),
        BinaryOp::I64Add => Some(Byte(0x7c)),
        BinaryOp::I64Sub => Some(Byte(0x7d)),
        BinaryOp::I64Mul => Some(Byte(0x7e)),
        BinaryOp::I64DivS => Some(Byte(0x7f)),
        BinaryOp::I64DivU => Some(Byte(0x80)),
        BinaryOp::I64RemS => Some(Byte(0x81)),
        BinaryOp::I64RemU => Some(Byte(0x82)),
        BinaryOp::I64And => Some(Byte(0x83)),
        BinaryOp::I64Or => Some(Byte(0x84)),
        BinaryOp::I64Xor => Some(Byte(0x85)),
        BinaryOp::I64Shl => Some(Byte(0x86)),
        BinaryOp::I64ShrS => Some(Byte(0x87)),
        BinaryOp::I64ShrU => Some(Byte(0x88)),
        BinaryOp::I64Rotl => Some(Byte(0x89)),
        BinaryOp::I64Rotr => Some(Byte(0x8a)),
        _ => None,
    }
}

/// Floating-point: opcodes of one byte.
fn float_binary_opcode(op: BinaryOp) -> Option<Opcode>
    ensures { result ≡ the_float_binary_opcode op }
{
    match op {
        BinaryOp::F32Eq => Some(Byte(0x5b)),
        BinaryOp::F32Ne => Some(Byte(0x5c)),
        BinaryOp::F32Lt => Some(Byte(0x5d)),
        BinaryOp::F32Gt => Some(Byte(0x5e)),
        BinaryOp::F32Le => Some(Byte(0x5f)),
        BinaryOp::F32Ge => Some(Byte(0x60)),
        BinaryOp::F64Eq => Some(Byte(0x61)),
        BinaryOp::F64Ne => Some(Byte(0x62)),
        BinaryOp::F64Lt => Some(Byte(0x63)),
        BinaryOp::F64Gt => Some(Byte(0x64)),
        BinaryOp::F64Le => Some(Byte(0x65)),
        BinaryOp::F64Ge => Some(Byte(0x66)),
        BinaryOp::F32Add => Some(Byte(0x92)),
        BinaryOp::F32Sub => Some(Byte(0x93)),
        BinaryOp::F32Mul => Some(Byte(0x94)),
        BinaryOp::F32Div => Some(Byte(0x95)),
        BinaryOp::F32Min => Some(Byte(0x96)),
        BinaryOp::F32Max => Some(Byte(0x97)),
        BinaryOp::F32Copysign => Some(Byte(0x98)),
        BinaryOp::F64Add => Some(Byte(0xa0)),
        BinaryOp::F64Sub => Some(Byte(0xa1)),
        BinaryOp::F64Mul => Some(Byte(0xa2)),
        BinaryOp::F64Div => Some(Byte(0xa3)),
        BinaryOp::F64Min => Some(Byte(0xa4)),
        BinaryOp::F64Max => Some(Byte(0xa5)),
        BinaryOp::F64Copysign => Some(Byte(0xa6)),
        _ => None,
    }
}

/// 0xfd 35 to 81.
fn vector_comparison_opcode(op: BinaryOp) -> Option<Opcode>
    ensures { result ≡ the_vector_comparison_opcode op }
{
    match op {
        BinaryOp::I8x16Eq => Some(Prefixed(0xfd, 35)),
        BinaryOp::I8x16Ne => Some(Prefixed(0xfd, 36)),
        BinaryOp::I8x16LtS => Some(Prefixed(0xfd, 37)),
        BinaryOp::I8x16LtU => Some(Prefixed(0xfd, 38)),
        BinaryOp::I8x16GtS => Some(Prefixed(0xfd, 39)),
        BinaryOp::I8x16GtU => Some(Prefixed(0xfd, 40)),
        BinaryOp::I8x16LeS => Some(Prefixed(0xfd, 41)),
        BinaryOp::I8x16LeU => Some(Prefixed(0xfd, 42)),
        BinaryOp::I8x16GeS => Some(Prefixed(0xfd, 43)),
        BinaryOp::I8x16GeU => Some(Prefixed(0xfd, 44)),
        BinaryOp::I16x8Eq => Some(Prefixed(0xfd, 45)),
        BinaryOp::I16x8Ne => Some(Prefixed(0xfd, 46)),
        BinaryOp::I16x8LtS => Some(Prefixed(0xfd, 47)),
        BinaryOp::I16x8LtU => Some(Prefixed(0xfd, 48)),
        BinaryOp::I16x8GtS => Some(Prefixed(0xfd, 49)),
        BinaryOp::I16x8GtU => Some(Prefixed(0xfd, 50)),
        BinaryOp::I16x8LeS => Some(Prefixed(0xfd, 51)),
        BinaryOp::I16x8LeU => Some(Prefixed(0xfd, 52)),
        BinaryOp::I16x8GeS => Some(Prefixed(0xfd, 53)),
        BinaryOp::I16x8GeU => Some(Prefixed(0xfd, 54)),
        BinaryOp::I32x4Eq => Some(Prefixed(0xfd, 55)),
        BinaryOp::I32x4Ne => Some(Prefixed(0xfd, 56)),
        BinaryOp::I32x4LtS => Some(Prefixed(0xfd, 57)),
        BinaryOp::I32x4LtU => Some(Prefixed(0xfd, 58)),
        BinaryOp::I32x4GtS => Some(Prefixed(0xfd, 59)),
        BinaryOp::I32x4GtU => Some(Prefixed(0xfd, 60)),
        BinaryOp::I32x4LeS => Some(Prefixed(0xfd, 61)),
        BinaryOp::I32x4LeU => Some(Prefixed(0xfd, 62)),
        BinaryOp::I32x4GeS => Some(Prefixed(0xfd, 63)),
        BinaryOp::I32x4GeU => Some(Prefixed(0xfd, 64)),
        BinaryOp::F32x4Eq => Some(Prefixed(0xfd, 65)),
        BinaryOp::F32x4Ne => Some(Prefixed(0xfd, 66)),
        BinaryOp::F32x4Lt => Some(Prefixed(0xfd, 67)),
        BinaryOp::F32x4Gt => Some(Prefixed(0xfd, 68)),
        BinaryOp::F32x4Le => Some(Prefixed(0xfd, 69)),
        BinaryOp::F32x4Ge => Some(Prefixed(0xfd, 70)),
        BinaryOp::F64x2Eq => Some(Prefixed(0xfd, 71)),
        BinaryOp::F64x2Ne => Some(Prefixed(0xfd, 72)),
        BinaryOp::F64x2Lt => Some(Prefixed(0xfd, 73)),
        BinaryOp::F64x2Gt => Some(Prefixed(0xfd, 74)),
        BinaryOp::F64x2Le => Some(Prefixed(0xfd, 75)),
        BinaryOp::F64x2Ge => Some(Prefixed(0xfd, 76)),
        BinaryOp::V128And => Some(Prefixed(0xfd, 78)),
        BinaryOp::V128AndNot => Some(Prefixed(0xfd, 79)),
        BinaryOp::V128Or => Some(Prefixed(0xfd, 80)),
        BinaryOp::V128Xor => Some(Prefixed(0xfd, 81)),
        _ => None,
    }
}

/// 0xfd 101 to 159.
fn low_vector_binary_opcode(op: BinaryOp) -> Option<Opcode>
    ensures { result ≡ the_low_vector_binary_opcode op }
{
    match op {
        BinaryOp::I8x16NarrowI16x8S => Some(Prefixed(0xfd, 101)),
        BinaryOp::I8x16NarrowI16x8U => Some(Prefixed(0xfd, 102)),
        BinaryOp::I8x16Shl => Some(Prefixed(0xfd, 107)),
        BinaryOp::I8x16ShrS => Some(Prefixed(0xfd, 108)),
        BinaryOp::I8x16ShrU => Some(Prefixed(0xfd, 109)),
        BinaryOp::I8x16Add => Some(Prefixed(0xfd, 110)),
        BinaryOp::I8x16AddSatS => Some(Prefixed(0xfd, 111)),
        BinaryOp::I8x16AddSatU => Some(Prefixed(0xfd, 112)),
        BinaryOp::I8x16Sub => Some(Prefixed(0xfd, 113)),
        BinaryOp::I8x16SubSatS => Some(Prefixed(0xfd, 114)),
        BinaryOp::I8x16SubSatU => Some(Prefixed(0xfd, 115)),
        BinaryOp::I8x16MinS => Some(Prefixed(0xfd, 118)),
        BinaryOp::I8x16MinU => Some(Prefixed(0xfd, 119)),
        BinaryOp::I8x16MaxS => Some(Prefixed(0xfd, 120)),
        BinaryOp::I8x16MaxU => Some(Prefixed(0xfd, 121)),
        BinaryOp::I8x16AvgrU => Some(Prefixed(0xfd, 123)),
        BinaryOp::I16x8Q15MulrSatS => Some(Prefixed(0xfd, 130)),
        BinaryOp::I16x8NarrowI32x4S => Some(Prefixed(0xfd, 133)),
        BinaryOp::I16x8NarrowI32x4U => Some(Prefixed(0xfd, 134)),
        BinaryOp::I16x8Shl => Some(Prefixed(0xfd, 139)),
        BinaryOp::I16x8ShrS => Some(Prefixed(0xfd, 140)),
        BinaryOp::I16x8ShrU => Some(Prefixed(0xfd, 141)),
        BinaryOp::I16x8Add => Some(Prefixed(0xfd, 142)),
        BinaryOp::I16x8AddSatS => Some(Prefixed(0xfd, 143)),
        BinaryOp::I16x8AddSatU => Some(Prefixed(0xfd, 144)),
        BinaryOp::I16x8Sub => Some(Prefixed(0xfd, 145)),
        BinaryOp::I16x8SubSatS => Some(Prefixed(0xfd, 146)),
        BinaryOp::I16x8SubSatU => Some(Prefixed(0xfd, 147)),
        BinaryOp::I16x8Mul => Some(Prefixed(0xfd, 149)),
        BinaryOp::I16x8MinS => Some(Prefixed(0xfd, 150)),
        BinaryOp::I16x8MinU => Some(Prefixed(0xfd, 151)),
        BinaryOp::I16x8MaxS => Some(Prefixed(0xfd, 152)),
        BinaryOp::I16x8MaxU => Some(Prefixed(0xfd, 153)),
        BinaryOp::I16x8AvgrU => Some(Prefixed(0xfd, 155)),
        BinaryOp::I16x8ExtMulLowI8x16S => Some(Prefixed(0xfd, 156)),
        BinaryOp::I16x8ExtMulHighI8x16S => Some(Prefixed(0xfd, 157)),
        BinaryOp::I16x8ExtMulLowI8x16U => Some(Prefixed(0xfd, 158)),
        BinaryOp::I16x8ExtMulHighI8x16U => Some(Prefixed(0xfd, 159)),
        _ => None,
    }
}

/// 0xfd from 171 on.
fn high_vector_binary_opcode(op: BinaryOp) -> Option<Opcode>
    ensures { result ≡ the_high_vector_binary_opcode op }
{
    match op {
        BinaryOp::I32x4Shl => Some(Prefixed(0xfd, 171)),
        BinaryOp::I32x4ShrS => Some(Prefixed(0xfd, 172)),
        BinaryOp::I32x4ShrU => Some(Prefixed(0xfd, 173)),
        BinaryOp::I32x4Add => Some(Prefixed(0xfd, 174)),
        BinaryOp::I32x4Sub => Some(Prefixed(0xfd, 177)),
        BinaryOp::I32x4Mul => Some(Prefixed(0xfd, 181)),
        BinaryOp::I32x4MinS => Some(Prefixed(0xfd, 182)),
        BinaryOp::I32x4MinU => Some(Prefixed(0xfd, 183)),
        BinaryOp::I32x4MaxS => Some(Prefixed(0xfd, 184)),
        BinaryOp::I32x4MaxU => Some(Prefixed(0xfd, 185)),
        BinaryOp::I32x4DotI16x8S => Some(Prefixed(0xfd, 186)),
        BinaryOp::I32x4ExtMulLowI16x8S => Some(Prefixed(0xfd, 188)),
        BinaryOp::I32x4ExtMulHighI16x8S => Some(Prefixed(0xfd, 189)),
        BinaryOp::I32x4ExtMulLowI16x8U => Some(Prefixed(0xfd, 190)),
        BinaryOp::I32x4ExtMulHighI16x8U => Some(Prefixed(0xfd, 191)),
        BinaryOp::I64x2Shl => Some(Prefixed(0xfd, 203)),
        BinaryOp::I64x2ShrS => Some(Prefixed(0xfd, 204)),
        BinaryOp::I64x2ShrU => Some(Prefixed(0xfd, 205)),
        BinaryOp::I64x2Add => Some(Prefixed(0xfd, 206)),
        BinaryOp::I64x2Sub => Some(Prefixed(0xfd, 209)),
        BinaryOp::I64x2Mul => Some(Prefixed(0xfd, 213)),
        BinaryOp::I64x2Eq => Some(Prefixed(0xfd, 214)),
        BinaryOp::I64x2Ne => Some(Prefixed(0xfd, 215)),
        BinaryOp::I64x2LtS => Some(Prefixed(0xfd, 216)),
        BinaryOp::I64x2GtS => Some(Prefixed(0xfd, 217)),
        BinaryOp::I64x2LeS => Some(Prefixed(0xfd, 218)),
        BinaryOp::I64x2GeS => Some(Prefixed(0xfd, 219)),
        BinaryOp::I64x2ExtMulLowI32x4S => Some(Prefixed(0xfd, 220)),
        BinaryOp::I64x2ExtMulHighI32x4S => Some(Prefixed(0xfd, 221)),
        BinaryOp::I64x2ExtMulLowI32x4U => Some(Prefixed(0xfd, 222)),
        BinaryOp::I64x2ExtMulHighI32x4U => Some(Prefixed(0xfd, 223)),
        BinaryOp::F32x4Add => Some(Prefixed(0xfd, 228)),
        BinaryOp::F32x4Sub => Some(Prefixed(0xfd, 229)),
        BinaryOp::F32x4Mul => Some(Prefixed(0xfd, 230)),
        BinaryOp::F32x4Div => Some(Prefixed(0xfd, 231)),
        BinaryOp::F32x4Min => Some(Prefixed(0xfd, 232)),
        BinaryOp::F32x4Max => Some(Prefixed(0xfd, 233)),
        BinaryOp::F32x4PMin => Some(Prefixed(0xfd, 234)),
        BinaryOp::F32x4PMax => Some(Prefixed(0xfd, 235)),
        BinaryOp::F64x2Add => Some(Prefixed(0xfd, 240)),
        BinaryOp::F64x2Sub => Some(Prefixed(0xfd, 241)),
        BinaryOp::F64x2Mul => Some(Prefixed(0xfd, 242)),
        BinaryOp::F64x2Div => Some(Prefixed(0xfd, 243)),
        BinaryOp::F64x2Min => Some(Prefixed(0xfd, 244)),
        BinaryOp::F64x2Max => Some(Prefixed(0xfd, 245)),
        BinaryOp::F64x2PMin => Some(Prefixed(0xfd, 246)),
        BinaryOp::F64x2PMax => Some(Prefixed(0xfd, 247)),
        BinaryOp::I8x16RelaxedSwizzle => Some(Prefixed(0xfd, 256)),
        BinaryOp::F32x4RelaxedMin => Some(Prefixed(0xfd, 269)),
        BinaryOp::F32x4RelaxedMax => Some(Prefixed(0xfd, 270)),
        BinaryOp::F64x2RelaxedMin => Some(Prefixed(0xfd, 271)),
        BinaryOp::F64x2RelaxedMax => Some(Prefixed(0xfd, 272)),
        BinaryOp::I16x8RelaxedQ15mulrS => Some(Prefixed(0xfd, 273)),
        BinaryOp::I16x8RelaxedDotI8x16I7x16S => Some(Prefixed(0xfd, 274)),
        _ => None,
    }
}

/// Operators that replace a lane.
fn replace_opcode(op: BinaryOp) -> Option<Opcode>
    ensures { result ≡ the_replace_opcode op }
{
    match op {
        BinaryOp::I8x16ReplaceLane { .. } => Some(Prefixed(0xfd, 23)),
        BinaryOp::I16x8ReplaceLane { .. } => Some(Prefixed(0xfd, 26)),
        BinaryOp::I32x4ReplaceLane { .. } => Some(Prefixed(0xfd, 28)),
        BinaryOp::I64x2ReplaceLane { .. } => Some(Prefixed(0xfd, 30)),
        BinaryOp::F32x4ReplaceLane { .. } => Some(Prefixed(0xfd, 32)),
        BinaryOp::F64x2ReplaceLane { .. } => Some(Prefixed(0xfd, 34)),
        _ => None,
    }
}

/// The opcode of an operator of two operands (WebAssembly core specification 3.0, binary format,
/// numeric and vector instructions).
#[tactic(auto, using(crate::proofs::Rows::binary_has_row))]
pub fn binary_opcode(op: BinaryOp) -> Opcode
    ensures { result ≡ the_binary_opcode op }
{
    if let Some(opcode) = integer_binary_opcode(op) {
        return opcode;
    }
    if let Some(opcode) = float_binary_opcode(op) {
        return opcode;
    }
    if let Some(opcode) = vector_comparison_opcode(op) {
        return opcode;
    }
    if let Some(opcode) = low_vector_binary_opcode(op) {
        return opcode;
    }
    if let Some(opcode) = high_vector_binary_opcode(op) {
        return opcode;
    }
    match replace_opcode(op) {
        Some(opcode) => opcode,
        None => unreachable!(),
    }
}

/// The index of the lane that an operator replaces, if it replaces one.
pub fn replace_lane(op: BinaryOp) -> Option<u8>
    ensures { lane_immediates result ≡ the_replace_lane op }
{
    match op {
        BinaryOp::I8x16ReplaceLane { idx } => Some(idx),
        BinaryOp::I16x8ReplaceLane { idx } => Some(idx),
        BinaryOp::I32x4ReplaceLane { idx } => Some(idx),
        BinaryOp::I64x2ReplaceLane { idx } => Some(idx),
        BinaryOp::F32x4ReplaceLane { idx } => Some(idx),
        BinaryOp::F64x2ReplaceLane { idx } => Some(idx),
        _ => None,
    }
}
