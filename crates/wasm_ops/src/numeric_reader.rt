//! The numeric operators, which have no immediates: one row for each operator.

ghost use Rattle.std.specs.Prelude.{◌≡◌, ◌≤◌, []};
ghost use Rattle.wasm_operators.specs.Operations.{operation};
ghost use Rattle.wasm_operators.specs.Meaning.{meaning};
ghost use Rattle.wasm_ops.specs.CommonOperators.{common_listed};

use crate::common::CommonOperator;
use wasm_operators::{Opcode, Operator};
use wasm_types::{BinaryOp, UnaryOp};

/// The operator with an opcode from 0x45 to 0x66: a test or a comparison.
#[inline(always)]
fn comparison(byte: u8) -> CommonOperator
    requires low { 0x45 ≤ byte }
    requires high { byte ≤ 0x66 }
    ensures { meaning (common_listed result) ≡ operation (Opcode.Byte byte) [] }
{
    match byte {
        0x45 => CommonOperator::Unop(UnaryOp::I32Eqz),
        0x46 => CommonOperator::Binop(BinaryOp::I32Eq),
        0x47 => CommonOperator::Binop(BinaryOp::I32Ne),
        0x48 => CommonOperator::Binop(BinaryOp::I32LtS),
        0x49 => CommonOperator::Binop(BinaryOp::I32LtU),
        0x4a => CommonOperator::Binop(BinaryOp::I32GtS),
        0x4b => CommonOperator::Binop(BinaryOp::I32GtU),
        0x4c => CommonOperator::Binop(BinaryOp::I32LeS),
        0x4d => CommonOperator::Binop(BinaryOp::I32LeU),
        0x4e => CommonOperator::Binop(BinaryOp::I32GeS),
        0x4f => CommonOperator::Binop(BinaryOp::I32GeU),
        0x50 => CommonOperator::Unop(UnaryOp::I64Eqz),
        0x51 => CommonOperator::Binop(BinaryOp::I64Eq),
        0x52 => CommonOperator::Binop(BinaryOp::I64Ne),
        0x53 => CommonOperator::Binop(BinaryOp::I64LtS),
        0x54 => CommonOperator::Binop(BinaryOp::I64LtU),
        0x55 => CommonOperator::Binop(BinaryOp::I64GtS),
        0x56 => CommonOperator::Binop(BinaryOp::I64GtU),
        0x57 => CommonOperator::Binop(BinaryOp::I64LeS),
        0x58 => CommonOperator::Binop(BinaryOp::I64LeU),
        0x59 => CommonOperator::Binop(BinaryOp::I64GeS),
        0x5a => CommonOperator::Binop(BinaryOp::I64GeU),
        0x5b => CommonOperator::Binop(BinaryOp::F32Eq),
        0x5c => CommonOperator::Binop(BinaryOp::F32Ne),
        0x5d => CommonOperator::Binop(BinaryOp::F32Lt),
        0x5e => CommonOperator::Binop(BinaryOp::F32Gt),
        0x5f => CommonOperator::Binop(BinaryOp::F32Le),
        0x60 => CommonOperator::Binop(BinaryOp::F32Ge),
        0x61 => CommonOperator::Binop(BinaryOp::F64Eq),
        0x62 => CommonOperator::Binop(BinaryOp::F64Ne),
        0x63 => CommonOperator::Binop(BinaryOp::F64Lt),
        0x64 => CommonOperator::Binop(BinaryOp::F64Gt),
        0x65 => CommonOperator::Binop(BinaryOp::F64Le),
        _ => CommonOperator::Binop(BinaryOp::F64Ge),
    }
}

/// The operator with an opcode from 0x67 to 0x8a: integer arithmetic.
#[inline(always)]
fn integer_arithmetic(byte: u8) -> CommonOperator
    requires low { 0x67 ≤ byte }
    requires high { byte ≤ 0x8a }
    ensures { meaning (common_listed result) ≡ operation (Opcode.Byte byte) [] }
{
    match byte {
        0x67 => CommonOperator::Unop(UnaryOp::I32Clz),
        0x68 => CommonOperator::Unop(UnaryOp::I32Ctz),
        0x69 => CommonOperator::Unop(UnaryOp::I32Popcnt),
        0x6a => CommonOperator::Binop(BinaryOp::I32Add),
        0x6b => CommonOperator::Binop(BinaryOp::I32Sub),
        0x6c => CommonOperator::Binop(BinaryOp::I32Mul),
        0x6d => CommonOperator::Binop(BinaryOp::I32DivS),
        0x6e => CommonOperator::Binop(BinaryOp::I32DivU),
        0x6f => CommonOperator::Binop(BinaryOp::I32RemS),
        0x70 => CommonOperator::Binop(BinaryOp::I32RemU),
        0x71 => CommonOperator::Binop(BinaryOp::I32And),
        0x72 => CommonOperator::Binop(BinaryOp::I32Or),
        0x73 => CommonOperator::Binop(BinaryOp::I32Xor),
        0x74 => CommonOperator::Binop(BinaryOp::I32Shl),
        0x75 => CommonOperator::Binop(BinaryOp::I32ShrS),
        0x76 => CommonOperator::Binop(BinaryOp::I32ShrU),
        0x77 => CommonOperator::Binop(BinaryOp::I32Rotl),
        0x78 => CommonOperator::Binop(BinaryOp::I32Rotr),
        0x79 => CommonOperator::Unop(UnaryOp::I64Clz),
        0x7a => CommonOperator::Unop(UnaryOp::I64Ctz),
        0x7b => CommonOperator::Unop(UnaryOp::I64Popcnt),
        0x7c => CommonOperator::Binop(BinaryOp::I64Add),
        0x7d => CommonOperator::Binop(BinaryOp::I64Sub),
        0x7e => CommonOperator::Binop(BinaryOp::I64Mul),
        0x7f => CommonOperator::Binop(BinaryOp::I64DivS),
        0x80 => CommonOperator::Binop(BinaryOp::I64DivU),
        0x81 => CommonOperator::Binop(BinaryOp::I64RemS),
        0x82 => CommonOperator::Binop(BinaryOp::I64RemU),
        0x83 => CommonOperator::Binop(BinaryOp::I64And),
        0x84 => CommonOperator::Binop(BinaryOp::I64Or),
        0x85 => CommonOperator::Binop(BinaryOp::I64Xor),
        0x86 => CommonOperator::Binop(BinaryOp::I64Shl),
        0x87 => CommonOperator::Binop(BinaryOp::I64ShrS),
        0x88 => CommonOperator::Binop(BinaryOp::I64ShrU),
        0x89 => CommonOperator::Binop(BinaryOp::I64Rotl),
        _ => CommonOperator::Binop(BinaryOp::I64Rotr),
    }
}

/// The operator with an opcode from 0x8b to 0xa6: floating-point arithmetic.
#[inline(always)]
fn float_arithmetic(byte: u8) -> CommonOperator
    requires low { 0x8b ≤ byte }
    requires high { byte ≤ 0xa6 }
    ensures { meaning (common_listed result) ≡ operation (Opcode.Byte byte) [] }
{
    match byte {
        0x8b => CommonOperator::Unop(UnaryOp::F32Abs),
        0x8c => CommonOperator::Unop(UnaryOp::F32Neg),
        0x8d => CommonOperator::Unop(UnaryOp::F32Ceil),
        0x8e => CommonOperator::Unop(UnaryOp::F32Floor),
        0x8f => CommonOperator::Unop(UnaryOp::F32Trunc),
        0x90 => CommonOperator::Unop(UnaryOp::F32Nearest),
        0x91 => CommonOperator::Unop(UnaryOp::F32Sqrt),
        0x92 => CommonOperator::Binop(BinaryOp::F32Add),
        0x93 => CommonOperator::Binop(BinaryOp::F32Sub),
        0x94 => CommonOperator::Binop(BinaryOp::F32Mul),
        0x95 => CommonOperator::Binop(BinaryOp::F32Div),
        0x96 => CommonOperator::Binop(BinaryOp::F32Min),
        0x97 => CommonOperator::Binop(BinaryOp::F32Max),
        0x98 => CommonOperator::Binop(BinaryOp::F32Copysign),
        0x99 => CommonOperator::Unop(UnaryOp::F64Abs),
        0x9a => CommonOperator::Unop(UnaryOp::F64Neg),
        0x9b => CommonOperator::Unop(UnaryOp::F64Ceil),
        0x9c => CommonOperator::Unop(UnaryOp::F64Floor),
        0x9d => CommonOperator::Unop(UnaryOp::F64Trunc),
        0x9e => CommonOperator::Unop(UnaryOp::F64Nearest),
        0x9f => CommonOperator::Unop(UnaryOp::F64Sqrt),
        0xa0 => CommonOperator::Binop(BinaryOp::F64Add),
        0xa1 => CommonOperator::Binop(BinaryOp::F64Sub),
        0xa2 => CommonOperator::Binop(BinaryOp::F64Mul),
        0xa3 => CommonOperator::Binop(BinaryOp::F64Div),
        0xa4 => CommonOperator::Binop(BinaryOp::F64Min),
        0xa5 => CommonOperator::Binop(BinaryOp::F64Max),
        _ => CommonOperator::Binop(BinaryOp::F64Copysign),
    }
}

/// The operator with an opcode from 0xa7 to 0xc4: a conversion.
#[inline(always)]
fn conversion(byte: u8) -> CommonOperator
    requires low { 0xa7 ≤ byte }
    requires high { byte ≤ 0xc4 }
    ensures { meaning (common_listed result) ≡ operation (Opcode.Byte byte) [] }
{
    match byte {
        0xa7 => CommonOperator::Unop(UnaryOp::I32WrapI64),
        0xa8 => CommonOperator::Unop(UnaryOp::I32TruncSF32),
        0xa9 => CommonOperator::Unop(UnaryOp::I32TruncUF32),
        0xaa => CommonOperator::Unop(UnaryOp::I32TruncSF64),
        0xab => CommonOperator::Unop(UnaryOp::I32TruncUF64),
        0xac => CommonOperator::Unop(UnaryOp::I64ExtendSI32),
        0xad => CommonOperator::Unop(UnaryOp::I64ExtendUI32),
        0xae => CommonOperator::Unop(UnaryOp::I64TruncSF32),
        0xaf => CommonOperator::Unop(UnaryOp::I64TruncUF32),
        0xb0 => CommonOperator::Unop(UnaryOp::I64TruncSF64),
        0xb1 => CommonOperator::Unop(UnaryOp::I64TruncUF64),
        0xb2 => CommonOperator::Unop(UnaryOp::F32ConvertSI32),
        0xb3 => CommonOperator::Unop(UnaryOp::F32ConvertUI32),
        0xb4 => CommonOperator::Unop(UnaryOp::F32ConvertSI64),
        0xb5 => CommonOperator::Unop(UnaryOp::F32ConvertUI64),
        0xb6 => CommonOperator::Unop(UnaryOp::F32DemoteF64),
        0xb7 => CommonOperator::Unop(UnaryOp::F64ConvertSI32),
        0xb8 => CommonOperator::Unop(UnaryOp::F64ConvertUI32),
        0xb9 => CommonOperator::Unop(UnaryOp::F64ConvertSI64),
        0xba => CommonOperator::Unop(UnaryOp::F64ConvertUI64),
        0xbb => CommonOperator::Unop(UnaryOp::F64PromoteF32),
        0xbc => CommonOperator::Unop(UnaryOp::I32ReinterpretF32),
        0xbd => CommonOperator::Unop(UnaryOp::I64ReinterpretF64),
        0xbe => CommonOperator::Unop(UnaryOp::F32ReinterpretI32),
        0xbf => CommonOperator::Unop(UnaryOp::F64ReinterpretI64),
        0xc0 => CommonOperator::Unop(UnaryOp::I32Extend8S),
        0xc1 => CommonOperator::Unop(UnaryOp::I32Extend16S),
        0xc2 => CommonOperator::Unop(UnaryOp::I64Extend8S),
        0xc3 => CommonOperator::Unop(UnaryOp::I64Extend16S),
        _ => CommonOperator::Unop(UnaryOp::I64Extend32S),
    }
}

/// The operator with an opcode from 0x45 to 0xc4: a numeric operator.
#[inline(never)]
pub(crate) fn numeric(byte: u8) -> CommonOperator
    requires low { 0x45 ≤ byte }
    requires high { byte ≤ 0xc4 }
    ensures { meaning (common_listed result) ≡ operation (Opcode.Byte byte) [] }
{
    match byte {
        0x45..=0x66 => comparison(byte),
        0x67..=0x8a => integer_arithmetic(byte),
        0x8b..=0xa6 => float_arithmetic(byte),
        _ => conversion(byte),
    }
}

/// As `numeric`. It is inlined, so that room for the result is made where it is called, and not on the
/// way of each operator.
#[inline(always)]
pub(crate) fn numeric_here(byte: u8) -> CommonOperator
    requires low { 0x45 ≤ byte }
    requires high { byte ≤ 0xc4 }
    ensures { meaning (common_listed result) ≡ operation (Opcode.Byte byte) [] }
{
    numeric(byte)
}

/// The operator with 0xfc and a number up to 7: a saturating conversion.
pub(crate) fn saturating_conversion(number: u32) -> Operator<'static>
    requires { number ≤ 7 }
    ensures { meaning result ≡ operation (Opcode.Prefixed 0xfc number) [] }
{
    match number {
        0 => Operator::Unop(UnaryOp::I32TruncSSatF32),
        1 => Operator::Unop(UnaryOp::I32TruncUSatF32),
        2 => Operator::Unop(UnaryOp::I32TruncSSatF64),
        3 => Operator::Unop(UnaryOp::I32TruncUSatF64),
        4 => Operator::Unop(UnaryOp::I64TruncSSatF32),
        5 => Operator::Unop(UnaryOp::I64TruncUSatF32),
        6 => Operator::Unop(UnaryOp::I64TruncSSatF64),
        _ => Operator::Unop(UnaryOp::I64TruncUSatF64),
    }
}
