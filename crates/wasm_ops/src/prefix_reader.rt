//! Reading an operator whose opcode is a prefix byte and a number: one row for each operator.

ghost use Rattle.wasm_numbers.specs.Results.{Gives};
ghost use Rattle.wasm_operators.specs.Spelling.{operands};
ghost use Rattle.wasm_operators.specs.Meaning.{meaning};

use crate::access_reader::read_memarg;
use crate::numeric_reader::saturating_conversion;
use crate::row::{made, read_indices, read_pair};
use crate::vector_access_reader::{read_lane_access, read_wide_load};
use crate::vector_reader::{
    read_bitwise, read_f32x4, read_f64x2_or_relaxed, read_i16x8_product, read_i32x4, read_i64x2,
    read_lane, read_narrow_vector, read_splat, read_vector_comparison,
};
use wasm_numbers::{ReadFault, read_lanes, read_u32, read_v128};
use wasm_operators::{Opcode, Operator, index_rows};
use wasm_types::{LoadKind, LoadSimdKind, StoreKind};

/// Reads the operator with this number after 0xfc: those of the rows, and the others.
macro_rules! read_number {
    (
        ($number:ident $bytes:ident)
        $calls:tt $call_rows:tt
        $variables:tt $variable_rows:tt
        $memories:tt $memory_rows:tt
        (Prefixed 0xfc) {
            $($row:literal $name:ident { $($field:ident $id:ident $space:ident),* })*
        }
    ) => {
        match $number {
            0..=7 => Ok((saturating_conversion($number), $bytes)),
            $($row => read_indices!($bytes $name $($field)*),)*
            19 => Ok((Operator::I64Add128, $bytes)),
            20 => Ok((Operator::I64Sub128, $bytes)),
            21 => Ok((Operator::I64MulWideS, $bytes)),
            22 => Ok((Operator::I64MulWideU, $bytes)),
            _ => Err(ReadFault::UnknownOperator),
        }
    };
}

/// Reads the rest of an operator with 0xfc and a number.
#[tactic(auto, unfolding(wasm_operators::specs::Opcodes::kinds_after))]
pub(crate) fn read_after_fc(number: u32, bytes: &[u8]) -> Result<(Operator<'_>, &[u8]), ReadFault>
    ensures { Gives (λ x. (meaning x.0, x.1.now)) result
        (operands (Opcode.Prefixed 0xfc number) bytes.now) }
{
    index_rows!(read_number, number bytes)
}

/// Reads the rest of an operator with 0xfd and a number.
#[tactic(auto, unfolding(wasm_operators::specs::Opcodes::kinds_after))]
pub(crate) fn read_after_fd(number: u32, bytes: &[u8]) -> Result<(Operator<'_>, &[u8]), ReadFault>
    ensures { Gives (λ x. (meaning x.0, x.1.now)) result
        (operands (Opcode.Prefixed 0xfd number) bytes.now) }
{
    match number {
        0 => made!(
            read_memarg(bytes), memarg => Operator::Load { kind: LoadKind::V128, memarg }
        ),
        1..=10 => read_wide_load(number, bytes),
        11 => made!(
            read_memarg(bytes), memarg => Operator::Store { kind: StoreKind::V128, memarg }
        ),
        12 => made!(read_v128(bytes), bits => Operator::V128Const { bits }),
        13 => made!(read_lanes(bytes), lanes => Operator::I8x16Shuffle { indices: *lanes }),
        14..=20 => read_splat(number, bytes),
        21..=34 => read_lane(number, bytes),
        35..=76 => read_vector_comparison(number, bytes),
        77..=83 => read_bitwise(number, bytes),
        84..=91 => read_lane_access(number, bytes),
        92 => made!(
            read_memarg(bytes),
            memarg => Operator::LoadSimd { kind: LoadSimdKind::V128Load32Zero, memarg }
        ),
        93 => made!(
            read_memarg(bytes),
            memarg => Operator::LoadSimd { kind: LoadSimdKind::V128Load64Zero, memarg }
        ),
        94..=153 => read_narrow_vector(number, bytes),
        155..=159 => read_i16x8_product(number, bytes),
        160..=191 => read_i32x4(number, bytes),
        192..=223 => read_i64x2(number, bytes),
        224..=237 => read_f32x4(number, bytes),
        239..=275 => read_f64x2_or_relaxed(number, bytes),
        154 | 238 => Err(ReadFault::UnknownOperator),
        _ => Err(ReadFault::UnknownOperator),
    }
}
