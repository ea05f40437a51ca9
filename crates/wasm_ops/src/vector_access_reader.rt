//! Reading vector accesses other than plain loads and stores, by ranges of their numbers.

ghost use Rattle.std.specs.Prelude.{◌≡◌, ◌≤◌, Some, None};
ghost use Rattle.wasm_numbers.specs.Results.{Gives};
ghost use Rattle.wasm_operators.specs.Spelling.{operands};
ghost use Rattle.wasm_operators.specs.Meaning.{meaning};
ghost use Rattle.wasm_operators.specs.Parts.{lane_immediates};
ghost use Rattle.wasm_operators.specs.VectorAccessOpcodes.{vector_access_opcode as the_vector_access_opcode, access_lane as the_access_lane};

use crate::access_reader::read_memarg;
use wasm_numbers::{ReadFault, read_byte};
use wasm_operators::{Opcode, Operator};
use wasm_types::LoadSimdKind;

/// The kind of the load with a number from 1 to 10: it extends or splats.
fn wide_load_kind(number: u32) -> LoadSimdKind
    requires low { 1 ≤ number }
    requires high { number ≤ 10 }
    ensures opcode { the_vector_access_opcode result ≡ Opcode.Prefixed 0xfd number }
    ensures lane { the_access_lane result ≡ lane_immediates None }
{
    match number {
        1 => LoadSimdKind::V128Load8x8S,
        2 => LoadSimdKind::V128Load8x8U,
        3 => LoadSimdKind::V128Load16x4S,
        4 => LoadSimdKind::V128Load16x4U,
        5 => LoadSimdKind::V128Load32x2S,
        6 => LoadSimdKind::V128Load32x2U,
        7 => LoadSimdKind::Splat8,
        8 => LoadSimdKind::Splat16,
        9 => LoadSimdKind::Splat32,
        _ => LoadSimdKind::Splat64,
    }
}

/// The kind of the access of this lane with a number from 84 to 91.
fn lane_kind(number: u32, lane: u8) -> LoadSimdKind
    requires low { 84 ≤ number }
    requires high { number ≤ 91 }
    ensures opcode { the_vector_access_opcode result ≡ Opcode.Prefixed 0xfd number }
    ensures lane { the_access_lane result ≡ lane_immediates (Some lane) }
{
    match number {
        84 => LoadSimdKind::V128Load8Lane(lane),
        85 => LoadSimdKind::V128Load16Lane(lane),
        86 => LoadSimdKind::V128Load32Lane(lane),
        87 => LoadSimdKind::V128Load64Lane(lane),
        88 => LoadSimdKind::V128Store8Lane(lane),
        89 => LoadSimdKind::V128Store16Lane(lane),
        90 => LoadSimdKind::V128Store32Lane(lane),
        _ => LoadSimdKind::V128Store64Lane(lane),
    }
}

/// Reads the rest of an operator with 0xfd and a number from 1 to 10.
#[tactic(auto, unfolding(wasm_operators::specs::Opcodes::kinds_after))]
pub(crate) fn read_wide_load(number: u32, bytes: &[u8]) -> Result<(Operator<'_>, &[u8]), ReadFault>
    requires low { 1 ≤ number }
    requires high { number ≤ 10 }
    ensures { Gives (λ x. (meaning x.0, x.1.now)) result
        (operands (Opcode.Prefixed 0xfd number) bytes.now) }
{
    let kind = wide_load_kind(number);
    let (memarg, rest) = read_memarg(bytes)?;
    Ok((Operator::LoadSimd { kind, memarg }, rest))
}

/// Reads the rest of an operator with 0xfd and a number from 84 to 91.
#[tactic(auto, unfolding(wasm_operators::specs::Opcodes::kinds_after))]
pub(crate) fn read_lane_access(
    number: u32,
    bytes: &[u8],
) -> Result<(Operator<'_>, &[u8]), ReadFault>
    requires low { 84 ≤ number }
    requires high { number ≤ 91 }
    ensures { Gives (λ x. (meaning x.0, x.1.now)) result
        (operands (Opcode.Prefixed 0xfd number) bytes.now) }
{
    let (memarg, rest) = read_memarg(bytes)?;
    let (lane, rest) = read_byte(rest)?;
    let kind = lane_kind(number, lane);
    Ok((Operator::LoadSimd { kind, memarg }, rest))
}
