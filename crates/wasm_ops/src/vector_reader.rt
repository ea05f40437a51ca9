//! The vector operators that access no memory, which follow 0xfd: one row for each operator.

ghost use Rattle.std.specs.Prelude.{◌≡◌, ◌≤◌, [], ◌∷◌};
ghost use Rattle.wasm_numbers.specs.Results.{Gives};
ghost use Rattle.wasm_operators.specs.Operations.{lane as a_lane, operation};
ghost use Rattle.wasm_operators.specs.Spelling.{operands};
ghost use Rattle.wasm_operators.specs.Meaning.{meaning};

use crate::row::made;
use wasm_numbers::{ReadFault, read_byte};
use wasm_operators::{Opcode, Operator};
use wasm_types::{BinaryOp, TernaryOp, UnaryOp};

/// Reads the rest of an operator with 0xfd and a number from 14 to 20: `i8x16.swizzle` and splats.
#[tactic(auto, unfolding(wasm_operators::specs::Opcodes::kinds_after))]
pub(crate) fn read_splat(number: u32, bytes: &[u8]) -> Result<(Operator<'_>, &[u8]), ReadFault>
    requires low { 14 ≤ number }
    requires high { number ≤ 20 }
    ensures { Gives (λ x. (meaning x.0, x.1.now)) result
        (operands (Opcode.Prefixed 0xfd number) bytes.now) }
{
    match number {
        14 => Ok((Operator::I8x16Swizzle, bytes)),
        15 => Ok((Operator::Unop(UnaryOp::I8x16Splat), bytes)),
        16 => Ok((Operator::Unop(UnaryOp::I16x8Splat), bytes)),
        17 => Ok((Operator::Unop(UnaryOp::I32x4Splat), bytes)),
        18 => Ok((Operator::Unop(UnaryOp::I64x2Splat), bytes)),
        19 => Ok((Operator::Unop(UnaryOp::F32x4Splat), bytes)),
        _ => Ok((Operator::Unop(UnaryOp::F64x2Splat), bytes)),
    }
}

/// The operator with 0xfd and a number from 21 to 34, which extracts or replaces a lane.
fn lane(number: u32, idx: u8) -> Operator<'static>
    requires low { 21 ≤ number }
    requires high { number ≤ 34 }
    ensures { meaning result ≡ operation (Opcode.Prefixed 0xfd number) (a_lane idx ∷ []) }
{
    match number {
        21 => Operator::Unop(UnaryOp::I8x16ExtractLaneS { idx }),
        22 => Operator::Unop(UnaryOp::I8x16ExtractLaneU { idx }),
        23 => Operator::Binop(BinaryOp::I8x16ReplaceLane { idx }),
        24 => Operator::Unop(UnaryOp::I16x8ExtractLaneS { idx }),
        25 => Operator::Unop(UnaryOp::I16x8ExtractLaneU { idx }),
        26 => Operator::Binop(BinaryOp::I16x8ReplaceLane { idx }),
        27 => Operator::Unop(UnaryOp::I32x4ExtractLane { idx }),
        28 => Operator::Binop(BinaryOp::I32x4ReplaceLane { idx }),
        29 => Operator::Unop(UnaryOp::I64x2ExtractLane { idx }),
        30 => Operator::Binop(BinaryOp::I64x2ReplaceLane { idx }),
        31 => Operator::Unop(UnaryOp::F32x4ExtractLane { idx }),
        32 => Operator::Binop(BinaryOp::F32x4ReplaceLane { idx }),
        33 => Operator::Unop(UnaryOp::F64x2ExtractLane { idx }),
        _ => Operator::Binop(BinaryOp::F64x2ReplaceLane { idx }),
    }
}

/// Reads the rest of an operator with 0xfd and a number from 21 to 34: operators that extract or
/// replace a lane.
#[tactic(auto, unfolding(wasm_operators::specs::Opcodes::kinds_after))]
pub(crate) fn read_lane(number: u32, bytes: &[u8]) -> Result<(Operator<'_>, &[u8]), ReadFault>
    requires low { 21 ≤ number }
    requires high { number ≤ 34 }
    ensures { Gives (λ x. (meaning x.0, x.1.now)) result
        (operands (Opcode.Prefixed 0xfd number) bytes.now) }
{
    made!(read_byte(bytes), idx => lane(number, idx))
}

/// The operator with 0xfd and a number from 35 to 44: a comparison of lanes of one byte.
fn i8x16_comparison(number: u32) -> Operator<'static>
    requires low { 35 ≤ number }
    requires high { number ≤ 44 }
    ensures { meaning result ≡ operation (Opcode.Prefixed 0xfd number) [] }
{
    match number {
        35 => Operator::Binop(BinaryOp::I8x16Eq),
        36 => Operator::Binop(BinaryOp::I8x16Ne),
        37 => Operator::Binop(BinaryOp::I8x16LtS),
        38 => Operator::Binop(BinaryOp::I8x16LtU),
        39 => Operator::Binop(BinaryOp::I8x16GtS),
        40 => Operator::Binop(BinaryOp::I8x16GtU),
        41 => Operator::Binop(BinaryOp::I8x16LeS),
        42 => Operator::Binop(BinaryOp::I8x16LeU),
        43 => Operator::Binop(BinaryOp::I8x16GeS),
        _ => Operator::Binop(BinaryOp::I8x16GeU),
    }
}

/// The operator with 0xfd and a number from 45 to 54: a comparison of lanes of two bytes.
fn i16x8_comparison(number: u32) -> Operator<'static>
    requires low { 45 ≤ number }
    requires high { number ≤ 54 }
    ensures { meaning result ≡ operation (Opcode.Prefixed 0xfd number) [] }
{
    match number {
        45 => Operator::Binop(BinaryOp::I16x8Eq),
        46 => Operator::Binop(BinaryOp::I16x8Ne),
        47 => Operator::Binop(BinaryOp::I16x8LtS),
        48 => Operator::Binop(BinaryOp::I16x8LtU),
        49 => Operator::Binop(BinaryOp::I16x8GtS),
        50 => Operator::Binop(BinaryOp::I16x8GtU),
        51 => Operator::Binop(BinaryOp::I16x8LeS),
        52 => Operator::Binop(BinaryOp::I16x8LeU),
        53 => Operator::Binop(BinaryOp::I16x8GeS),
        _ => Operator::Binop(BinaryOp::I16x8GeU),
    }
}

/// The operator with 0xfd and a number from 55 to 64: a comparison of lanes of four bytes.
fn i32x4_comparison(number: u32) -> Operator<'static>
    requires low { 55 ≤ number }
    requires high { number ≤ 64 }
    ensures { meaning result ≡ operation (Opcode.Prefixed 0xfd number) [] }
{
    match number {
        55 => Operator::Binop(BinaryOp::I32x4Eq),
        56 => Operator::Binop(BinaryOp::I32x4Ne),
        57 => Operator::Binop(BinaryOp::I32x4LtS),
        58 => Operator::Binop(BinaryOp::I32x4LtU),
        59 => Operator::Binop(BinaryOp::I32x4GtS),
        60 => Operator::Binop(BinaryOp::I32x4GtU),
        61 => Operator::Binop(BinaryOp::I32x4LeS),
        62 => Operator::Binop(BinaryOp::I32x4LeU),
        63 => Operator::Binop(BinaryOp::I32x4GeS),
        _ => Operator::Binop(BinaryOp::I32x4GeU),
    }
}

/// The operator with 0xfd and a number from 65 to 76: a comparison of floating-point lanes.
fn float_comparison(number: u32) -> Operator<'static>
    requires low { 65 ≤ number }
    requires high { number ≤ 76 }
    ensures { meaning result ≡ operation (Opcode.Prefixed 0xfd number) [] }
{
    match number {
        65 => Operator::Binop(BinaryOp::F32x4Eq),
        66 => Operator::Binop(BinaryOp::F32x4Ne),
        67 => Operator::Binop(BinaryOp::F32x4Lt),
        68 => Operator::Binop(BinaryOp::F32x4Gt),
        69 => Operator::Binop(BinaryOp::F32x4Le),
        70 => Operator::Binop(BinaryOp::F32x4Ge),
        71 => Operator::Binop(BinaryOp::F64x2Eq),
        72 => Operator::Binop(BinaryOp::F64x2Ne),
        73 => Operator::Binop(BinaryOp::F64x2Lt),
        74 => Operator::Binop(BinaryOp::F64x2Gt),
        75 => Operator::Binop(BinaryOp::F64x2Le),
        _ => Operator::Binop(BinaryOp::F64x2Ge),
    }
}

/// The operator with 0xfd and a number from 35 to 76: a comparison.
fn vector_comparison(number: u32) -> Operator<'static>
    requires low { 35 ≤ number }
    requires high { number ≤ 76 }
    ensures { meaning result ≡ operation (Opcode.Prefixed 0xfd number) [] }
{
    match number {
        35..=44 => i8x16_comparison(number),
        45..=54 => i16x8_comparison(number),
        55..=64 => i32x4_comparison(number),
        _ => float_comparison(number),
    }
}

/// Reads the rest of an operator with 0xfd and a number from 35 to 76: comparisons.
#[tactic(auto, unfolding(wasm_operators::specs::Opcodes::kinds_after))]
pub(crate) fn read_vector_comparison(
    number: u32,
    bytes: &[u8],
) -> Result<(Operator<'_>, &[u8]), ReadFault>
    requires low { 35 ≤ number }
    requires high { number ≤ 76 }
    ensures { Gives (λ x. (meaning x.0, x.1.now)) result
        (operands (Opcode.Prefixed 0xfd number) bytes.now) }
{
    Ok((vector_comparison(number), bytes))
}

/// Reads the rest of an operator with 0xfd and a number from 77 to 83: operators on all bits.
#[tactic(auto, unfolding(wasm_operators::specs::Opcodes::kinds_after))]
pub(crate) fn read_bitwise(number: u32, bytes: &[u8]) -> Result<(Operator<'_>, &[u8]), ReadFault>
    requires low { 77 ≤ number }
    requires high { number ≤ 83 }
    ensures { Gives (λ x. (meaning x.0, x.1.now)) result
        (operands (Opcode.Prefixed 0xfd number) bytes.now) }
{
    match number {
        77 => Ok((Operator::Unop(UnaryOp::V128Not), bytes)),
        78 => Ok((Operator::Binop(BinaryOp::V128And), bytes)),
        79 => Ok((Operator::Binop(BinaryOp::V128AndNot), bytes)),
        80 => Ok((Operator::Binop(BinaryOp::V128Or), bytes)),
        81 => Ok((Operator::Binop(BinaryOp::V128Xor), bytes)),
        82 => Ok((Operator::V128Bitselect, bytes)),
        _ => Ok((Operator::Unop(UnaryOp::V128AnyTrue), bytes)),
    }
}

/// The operator with 0xfd and a number from 94 to 102: a floating-point conversion, or an operator
/// on lanes of one byte.
fn i8x16_by_lane(number: u32) -> Operator<'static>
    requires low { 94 ≤ number }
    requires high { number ≤ 102 }
    ensures { meaning result ≡ operation (Opcode.Prefixed 0xfd number) [] }
{
    match number {
        94 => Operator::Unop(UnaryOp::F32x4DemoteF64x2Zero),
        95 => Operator::Unop(UnaryOp::F64x2PromoteLowF32x4),
        96 => Operator::Unop(UnaryOp::I8x16Abs),
        97 => Operator::Unop(UnaryOp::I8x16Neg),
        98 => Operator::Unop(UnaryOp::I8x16Popcnt),
        99 => Operator::Unop(UnaryOp::I8x16AllTrue),
        100 => Operator::Unop(UnaryOp::I8x16Bitmask),
        101 => Operator::Binop(BinaryOp::I8x16NarrowI16x8S),
        _ => Operator::Binop(BinaryOp::I8x16NarrowI16x8U),
    }
}

/// The operator with 0xfd and a number from 103 to 115: floating-point rounding, or a shift, sum or
/// difference of lanes of one byte.
fn i8x16_sum(number: u32) -> Operator<'static>
    requires low { 103 ≤ number }
    requires high { number ≤ 115 }
    ensures { meaning result ≡ operation (Opcode.Prefixed 0xfd number) [] }
{
    match number {
        103 => Operator::Unop(UnaryOp::F32x4Ceil),
        104 => Operator::Unop(UnaryOp::F32x4Floor),
        105 => Operator::Unop(UnaryOp::F32x4Trunc),
        106 => Operator::Unop(UnaryOp::F32x4Nearest),
        107 => Operator::Binop(BinaryOp::I8x16Shl),
        108 => Operator::Binop(BinaryOp::I8x16ShrS),
        109 => Operator::Binop(BinaryOp::I8x16ShrU),
        110 => Operator::Binop(BinaryOp::I8x16Add),
        111 => Operator::Binop(BinaryOp::I8x16AddSatS),
        112 => Operator::Binop(BinaryOp::I8x16AddSatU),
        113 => Operator::Binop(BinaryOp::I8x16Sub),
        114 => Operator::Binop(BinaryOp::I8x16SubSatS),
        _ => Operator::Binop(BinaryOp::I8x16SubSatU),
    }
}

/// The operator with 0xfd and a number from 116 to 127: floating-point rounding, a minimum, maximum
/// or average of lanes of one byte, or a sum of neighbours.
fn i8x16_bound(number: u32) -> Operator<'static>
    requires low { 116 ≤ number }
    requires high { number ≤ 127 }
    ensures { meaning result ≡ operation (Opcode.Prefixed 0xfd number) [] }
{
    match number {
        116 => Operator::Unop(UnaryOp::F64x2Ceil),
        117 => Operator::Unop(UnaryOp::F64x2Floor),
        118 => Operator::Binop(BinaryOp::I8x16MinS),
        119 => Operator::Binop(BinaryOp::I8x16MinU),
        120 => Operator::Binop(BinaryOp::I8x16MaxS),
        121 => Operator::Binop(BinaryOp::I8x16MaxU),
        122 => Operator::Unop(UnaryOp::F64x2Trunc),
        123 => Operator::Binop(BinaryOp::I8x16AvgrU),
        124 => Operator::Unop(UnaryOp::I16x8ExtAddPairwiseI8x16S),
        125 => Operator::Unop(UnaryOp::I16x8ExtAddPairwiseI8x16U),
        126 => Operator::Unop(UnaryOp::I32x4ExtAddPairwiseI16x8S),
        _ => Operator::Unop(UnaryOp::I32x4ExtAddPairwiseI16x8U),
    }
}

/// The operator with 0xfd and a number from 128 to 138: one on lanes of two bytes, or one that
/// narrows or extends to them.
fn i16x8_by_lane(number: u32) -> Operator<'static>
    requires low { 128 ≤ number }
    requires high { number ≤ 138 }
    ensures { meaning result ≡ operation (Opcode.Prefixed 0xfd number) [] }
{
    match number {
        128 => Operator::Unop(UnaryOp::I16x8Abs),
        129 => Operator::Unop(UnaryOp::I16x8Neg),
        130 => Operator::Binop(BinaryOp::I16x8Q15MulrSatS),
        131 => Operator::Unop(UnaryOp::I16x8AllTrue),
        132 => Operator::Unop(UnaryOp::I16x8Bitmask),
        133 => Operator::Binop(BinaryOp::I16x8NarrowI32x4S),
        134 => Operator::Binop(BinaryOp::I16x8NarrowI32x4U),
        135 => Operator::Unop(UnaryOp::I16x8WidenLowI8x16S),
        136 => Operator::Unop(UnaryOp::I16x8WidenHighI8x16S),
        137 => Operator::Unop(UnaryOp::I16x8WidenLowI8x16U),
        _ => Operator::Unop(UnaryOp::I16x8WidenHighI8x16U),
    }
}

/// The operator with 0xfd and a number from 139 to 153: a shift, arithmetic, a minimum or a maximum
/// of lanes of two bytes, or floating-point rounding.
fn i16x8_arithmetic(number: u32) -> Operator<'static>
    requires low { 139 ≤ number }
    requires high { number ≤ 153 }
    ensures { meaning result ≡ operation (Opcode.Prefixed 0xfd number) [] }
{
    match number {
        139 => Operator::Binop(BinaryOp::I16x8Shl),
        140 => Operator::Binop(BinaryOp::I16x8ShrS),
        141 => Operator::Binop(BinaryOp::I16x8ShrU),
        142 => Operator::Binop(BinaryOp::I16x8Add),
        143 => Operator::Binop(BinaryOp::I16x8AddSatS),
        144 => Operator::Binop(BinaryOp::I16x8AddSatU),
        145 => Operator::Binop(BinaryOp::I16x8Sub),
        146 => Operator::Binop(BinaryOp::I16x8SubSatS),
        147 => Operator::Binop(BinaryOp::I16x8SubSatU),
        148 => Operator::Unop(UnaryOp::F64x2Nearest),
        149 => Operator::Binop(BinaryOp::I16x8Mul),
        150 => Operator::Binop(BinaryOp::I16x8MinS),
        151 => Operator::Binop(BinaryOp::I16x8MinU),
        152 => Operator::Binop(BinaryOp::I16x8MaxS),
        _ => Operator::Binop(BinaryOp::I16x8MaxU),
    }
}

/// The operator with 0xfd and a number from 94 to 153: one on lanes of one or two bytes, and
/// others.
fn narrow_vector(number: u32) -> Operator<'static>
    requires low { 94 ≤ number }
    requires high { number ≤ 153 }
    ensures { meaning result ≡ operation (Opcode.Prefixed 0xfd number) [] }
{
    match number {
        94..=102 => i8x16_by_lane(number),
        103..=115 => i8x16_sum(number),
        116..=127 => i8x16_bound(number),
        128..=138 => i16x8_by_lane(number),
        _ => i16x8_arithmetic(number),
    }
}

/// Reads the rest of an operator with 0xfd and a number from 94 to 153: floating-point conversions,
/// operators on lanes of one or two bytes, and others.
#[tactic(auto, unfolding(wasm_operators::specs::Opcodes::kinds_after))]
pub(crate) fn read_narrow_vector(
    number: u32,
    bytes: &[u8],
) -> Result<(Operator<'_>, &[u8]), ReadFault>
    requires low { 94 ≤ number }
    requires high { number ≤ 153 }
    ensures { Gives (λ x. (meaning x.0, x.1.now)) result
        (operands (Opcode.Prefixed 0xfd number) bytes.now) }
{
    Ok((narrow_vector(number), bytes))
}

/// Reads the rest of an operator with 0xfd and a number from 155 to 159: averages and extended
/// products of lanes of two bytes.
#[tactic(auto, unfolding(wasm_operators::specs::Opcodes::kinds_after))]
pub(crate) fn read_i16x8_product(
    number: u32,
    bytes: &[u8],
) -> Result<(Operator<'_>, &[u8]), ReadFault>
    requires low { 155 ≤ number }
    requires high { number ≤ 159 }
    ensures { Gives (λ x. (meaning x.0, x.1.now)) result
        (operands (Opcode.Prefixed 0xfd number) bytes.now) }
{
    match number {
        155 => Ok((Operator::Binop(BinaryOp::I16x8AvgrU), bytes)),
        156 => Ok((Operator::Binop(BinaryOp::I16x8ExtMulLowI8x16S), bytes)),
        157 => Ok((Operator::Binop(BinaryOp::I16x8ExtMulHighI8x16S), bytes)),
        158 => Ok((Operator::Binop(BinaryOp::I16x8ExtMulLowI8x16U), bytes)),
        _ => Ok((Operator::Binop(BinaryOp::I16x8ExtMulHighI8x16U), bytes)),
    }
}

/// Reads the rest of an operator with 0xfd and a number from 160 to 191: operators on lanes of four
/// bytes.
#[tactic(auto, unfolding(wasm_operators::specs::Opcodes::kinds_after))]
pub(crate) fn read_i32x4(number: u32, bytes: &[u8]) -> Result<(Operator<'_>, &[u8]), ReadFault>
    requires low { 160 ≤ number }
    requires high { number ≤ 191 }
    ensures { Gives (λ x. (meaning x.0, x.1.now)) result
        (operands (Opcode.Prefixed 0xfd number) bytes.now) }
{
    match number {
        162 | 165 | 166 | 175 | 176 | 178 | 179 | 180 | 187 => Err(ReadFault::UnknownOperator),
        160 => Ok((Operator::Unop(UnaryOp::I32x4Abs), bytes)),
        161 => Ok((Operator::Unop(UnaryOp::I32x4Neg), bytes)),
        163 => Ok((Operator::Unop(UnaryOp::I32x4AllTrue), bytes)),
        164 => Ok((Operator::Unop(UnaryOp::I32x4Bitmask), bytes)),
        167 => Ok((Operator::Unop(UnaryOp::I32x4WidenLowI16x8S), bytes)),
        168 => Ok((Operator::Unop(UnaryOp::I32x4WidenHighI16x8S), bytes)),
        169 => Ok((Operator::Unop(UnaryOp::I32x4WidenLowI16x8U), bytes)),
        170 => Ok((Operator::Unop(UnaryOp::I32x4WidenHighI16x8U), bytes)),
        171 => Ok((Operator::Binop(BinaryOp::I32x4Shl), bytes)),
        172 => Ok((Operator::Binop(BinaryOp::I32x4ShrS), bytes)),
        173 => Ok((Operator::Binop(BinaryOp::I32x4ShrU), bytes)),
        174 => Ok((Operator::Binop(BinaryOp::I32x4Add), bytes)),
        177 => Ok((Operator::Binop(BinaryOp::I32x4Sub), bytes)),
        181 => Ok((Operator::Binop(BinaryOp::I32x4Mul), bytes)),
        182 => Ok((Operator::Binop(BinaryOp::I32x4MinS), bytes)),
        183 => Ok((Operator::Binop(BinaryOp::I32x4MinU), bytes)),
        184 => Ok((Operator::Binop(BinaryOp::I32x4MaxS), bytes)),
        185 => Ok((Operator::Binop(BinaryOp::I32x4MaxU), bytes)),
        186 => Ok((Operator::Binop(BinaryOp::I32x4DotI16x8S), bytes)),
        188 => Ok((Operator::Binop(BinaryOp::I32x4ExtMulLowI16x8S), bytes)),
        189 => Ok((Operator::Binop(BinaryOp::I32x4ExtMulHighI16x8S), bytes)),
        190 => Ok((Operator::Binop(BinaryOp::I32x4ExtMulLowI16x8U), bytes)),
        _ => Ok((Operator::Binop(BinaryOp::I32x4ExtMulHighI16x8U), bytes)),
    }
}

/// Reads the rest of an operator with 0xfd and a number from 192 to 223: operators on lanes of
/// eight bytes.
#[tactic(auto, unfolding(wasm_operators::specs::Opcodes::kinds_after))]
pub(crate) fn read_i64x2(number: u32, bytes: &[u8]) -> Result<(Operator<'_>, &[u8]), ReadFault>
    requires low { 192 ≤ number }
    requires high { number ≤ 223 }
    ensures { Gives (λ x. (meaning x.0, x.1.now)) result
        (operands (Opcode.Prefixed 0xfd number) bytes.now) }
{
    match number {
        194 | 197 | 198 | 207 | 208 | 210 | 211 | 212 => Err(ReadFault::UnknownOperator),
        192 => Ok((Operator::Unop(UnaryOp::I64x2Abs), bytes)),
        193 => Ok((Operator::Unop(UnaryOp::I64x2Neg), bytes)),
        195 => Ok((Operator::Unop(UnaryOp::I64x2AllTrue), bytes)),
        196 => Ok((Operator::Unop(UnaryOp::I64x2Bitmask), bytes)),
        199 => Ok((Operator::Unop(UnaryOp::I64x2ExtendLowI32x4S), bytes)),
        200 => Ok((Operator::Unop(UnaryOp::I64x2ExtendHighI32x4S), bytes)),
        201 => Ok((Operator::Unop(UnaryOp::I64x2ExtendLowI32x4U), bytes)),
        202 => Ok((Operator::Unop(UnaryOp::I64x2ExtendHighI32x4U), bytes)),
        203 => Ok((Operator::Binop(BinaryOp::I64x2Shl), bytes)),
        204 => Ok((Operator::Binop(BinaryOp::I64x2ShrS), bytes)),
        205 => Ok((Operator::Binop(BinaryOp::I64x2ShrU), bytes)),
        206 => Ok((Operator::Binop(BinaryOp::I64x2Add), bytes)),
        209 => Ok((Operator::Binop(BinaryOp::I64x2Sub), bytes)),
        213 => Ok((Operator::Binop(BinaryOp::I64x2Mul), bytes)),
        214 => Ok((Operator::Binop(BinaryOp::I64x2Eq), bytes)),
        215 => Ok((Operator::Binop(BinaryOp::I64x2Ne), bytes)),
        216 => Ok((Operator::Binop(BinaryOp::I64x2LtS), bytes)),
        217 => Ok((Operator::Binop(BinaryOp::I64x2GtS), bytes)),
        218 => Ok((Operator::Binop(BinaryOp::I64x2LeS), bytes)),
        219 => Ok((Operator::Binop(BinaryOp::I64x2GeS), bytes)),
        220 => Ok((Operator::Binop(BinaryOp::I64x2ExtMulLowI32x4S), bytes)),
        221 => Ok((Operator::Binop(BinaryOp::I64x2ExtMulHighI32x4S), bytes)),
        222 => Ok((Operator::Binop(BinaryOp::I64x2ExtMulLowI32x4U), bytes)),
        _ => Ok((Operator::Binop(BinaryOp::I64x2ExtMulHighI32x4U), bytes)),
    }
}

/// Reads the rest of an operator with 0xfd and a number from 224 to 237: operators on
/// floating-point lanes of four bytes, `f64x2.abs` and `f64x2.neg`.
#[tactic(auto, unfolding(wasm_operators::specs::Opcodes::kinds_after))]
pub(crate) fn read_f32x4(number: u32, bytes: &[u8]) -> Result<(Operator<'_>, &[u8]), ReadFault>
    requires low { 224 ≤ number }
    requires high { number ≤ 237 }
    ensures { Gives (λ x. (meaning x.0, x.1.now)) result
        (operands (Opcode.Prefixed 0xfd number) bytes.now) }
{
    match number {
        226 => Err(ReadFault::UnknownOperator),
        224 => Ok((Operator::Unop(UnaryOp::F32x4Abs), bytes)),
        225 => Ok((Operator::Unop(UnaryOp::F32x4Neg), bytes)),
        227 => Ok((Operator::Unop(UnaryOp::F32x4Sqrt), bytes)),
        228 => Ok((Operator::Binop(BinaryOp::F32x4Add), bytes)),
        229 => Ok((Operator::Binop(BinaryOp::F32x4Sub), bytes)),
        230 => Ok((Operator::Binop(BinaryOp::F32x4Mul), bytes)),
        231 => Ok((Operator::Binop(BinaryOp::F32x4Div), bytes)),
        232 => Ok((Operator::Binop(BinaryOp::F32x4Min), bytes)),
        233 => Ok((Operator::Binop(BinaryOp::F32x4Max), bytes)),
        234 => Ok((Operator::Binop(BinaryOp::F32x4PMin), bytes)),
        235 => Ok((Operator::Binop(BinaryOp::F32x4PMax), bytes)),
        236 => Ok((Operator::Unop(UnaryOp::F64x2Abs), bytes)),
        _ => Ok((Operator::Unop(UnaryOp::F64x2Neg), bytes)),
    }
}

/// The operator with 0xfd and a number from 239 to 247: arithmetic on floating-point lanes of eight
/// bytes.
fn f64x2_arithmetic(number: u32) -> Operator<'static>
    requires low { 239 ≤ number }
    requires high { number ≤ 247 }
    ensures { meaning result ≡ operation (Opcode.Prefixed 0xfd number) [] }
{
    match number {
        239 => Operator::Unop(UnaryOp::F64x2Sqrt),
        240 => Operator::Binop(BinaryOp::F64x2Add),
        241 => Operator::Binop(BinaryOp::F64x2Sub),
        242 => Operator::Binop(BinaryOp::F64x2Mul),
        243 => Operator::Binop(BinaryOp::F64x2Div),
        244 => Operator::Binop(BinaryOp::F64x2Min),
        245 => Operator::Binop(BinaryOp::F64x2Max),
        246 => Operator::Binop(BinaryOp::F64x2PMin),
        _ => Operator::Binop(BinaryOp::F64x2PMax),
    }
}

/// The operator with 0xfd and a number from 248 to 255: a conversion of lanes to or from
/// floating-point.
fn float_conversion(number: u32) -> Operator<'static>
    requires low { 248 ≤ number }
    requires high { number ≤ 255 }
    ensures { meaning result ≡ operation (Opcode.Prefixed 0xfd number) [] }
{
    match number {
        248 => Operator::Unop(UnaryOp::I32x4TruncSatF32x4S),
        249 => Operator::Unop(UnaryOp::I32x4TruncSatF32x4U),
        250 => Operator::Unop(UnaryOp::F32x4ConvertI32x4S),
        251 => Operator::Unop(UnaryOp::F32x4ConvertI32x4U),
        252 => Operator::Unop(UnaryOp::I32x4TruncSatF64x2SZero),
        253 => Operator::Unop(UnaryOp::I32x4TruncSatF64x2UZero),
        254 => Operator::Unop(UnaryOp::F64x2ConvertLowI32x4S),
        _ => Operator::Unop(UnaryOp::F64x2ConvertLowI32x4U),
    }
}

/// The operator with 0xfd and a number from 256 to 268: a relaxed operator with one or three
/// operands, or `i8x16.relaxed_swizzle`.
fn relaxed_lanes(number: u32) -> Operator<'static>
    requires low { 256 ≤ number }
    requires high { number ≤ 268 }
    ensures { meaning result ≡ operation (Opcode.Prefixed 0xfd number) [] }
{
    match number {
        256 => Operator::Binop(BinaryOp::I8x16RelaxedSwizzle),
        257 => Operator::Unop(UnaryOp::I32x4RelaxedTruncF32x4S),
        258 => Operator::Unop(UnaryOp::I32x4RelaxedTruncF32x4U),
        259 => Operator::Unop(UnaryOp::I32x4RelaxedTruncF64x2SZero),
        260 => Operator::Unop(UnaryOp::I32x4RelaxedTruncF64x2UZero),
        261 => Operator::TernOp(TernaryOp::F32x4RelaxedMadd),
        262 => Operator::TernOp(TernaryOp::F32x4RelaxedNmadd),
        263 => Operator::TernOp(TernaryOp::F64x2RelaxedMadd),
        264 => Operator::TernOp(TernaryOp::F64x2RelaxedNmadd),
        265 => Operator::TernOp(TernaryOp::I8x16RelaxedLaneselect),
        266 => Operator::TernOp(TernaryOp::I16x8RelaxedLaneselect),
        267 => Operator::TernOp(TernaryOp::I32x4RelaxedLaneselect),
        _ => Operator::TernOp(TernaryOp::I64x2RelaxedLaneselect),
    }
}

/// The operator with 0xfd and a number from 269 to 275: relaxed arithmetic.
fn relaxed_arithmetic(number: u32) -> Operator<'static>
    requires low { 269 ≤ number }
    requires high { number ≤ 275 }
    ensures { meaning result ≡ operation (Opcode.Prefixed 0xfd number) [] }
{
    match number {
        269 => Operator::Binop(BinaryOp::F32x4RelaxedMin),
        270 => Operator::Binop(BinaryOp::F32x4RelaxedMax),
        271 => Operator::Binop(BinaryOp::F64x2RelaxedMin),
        272 => Operator::Binop(BinaryOp::F64x2RelaxedMax),
        273 => Operator::Binop(BinaryOp::I16x8RelaxedQ15mulrS),
        274 => Operator::Binop(BinaryOp::I16x8RelaxedDotI8x16I7x16S),
        _ => Operator::TernOp(TernaryOp::I32x4RelaxedDotI8x16I7x16AddS),
    }
}

/// The operator with 0xfd and a number from 239 to 275: one on floating-point lanes of eight bytes,
/// a conversion, or a relaxed one.
fn f64x2_or_relaxed(number: u32) -> Operator<'static>
    requires low { 239 ≤ number }
    requires high { number ≤ 275 }
    ensures { meaning result ≡ operation (Opcode.Prefixed 0xfd number) [] }
{
    match number {
        239..=247 => f64x2_arithmetic(number),
        248..=255 => float_conversion(number),
        256..=268 => relaxed_lanes(number),
        _ => relaxed_arithmetic(number),
    }
}

/// Reads the rest of an operator with 0xfd and a number from 239 to 275: operators on
/// floating-point lanes of eight bytes, conversions, and relaxed operators.
#[tactic(auto, unfolding(wasm_operators::specs::Opcodes::kinds_after))]
pub(crate) fn read_f64x2_or_relaxed(
    number: u32,
    bytes: &[u8],
) -> Result<(Operator<'_>, &[u8]), ReadFault>
    requires low { 239 ≤ number }
    requires high { number ≤ 275 }
    ensures { Gives (λ x. (meaning x.0, x.1.now)) result
        (operands (Opcode.Prefixed 0xfd number) bytes.now) }
{
    Ok((f64x2_or_relaxed(number), bytes))
}
