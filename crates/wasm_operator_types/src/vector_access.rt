//! The types of vector accesses other than plain loads and stores.
ghost use Rattle.std.specs.Prelude.{◌≡◌, nat_lt};
ghost use Rattle.wasm_operator_types.specs.AccessTypes.{loads_lane, stores_lane, VectorAccessIs};

use crate::access::{AccessType, Operands, load};
use wasm_types::LoadSimdKind;
use wasm_types::ValType::V128;

/// A load of one lane of a vector of so many.
fn load_lane(exponent: u32, lane: u8, lanes: u8) -> AccessType
    ensures { result ≡ loads_lane exponent (nat_lt lane lanes) }
{
    AccessType {
        exponent,
        exact: false,
        has_lane: lane < lanes,
        takes: Operands::One(V128),
        gives: Some(V128),
    }
}

/// A store of one lane of a vector of so many.
fn store_lane(exponent: u32, lane: u8, lanes: u8) -> AccessType
    ensures { result ≡ stores_lane exponent (nat_lt lane lanes) }
{
    AccessType {
        exponent,
        exact: false,
        has_lane: lane < lanes,
        takes: Operands::One(V128),
        gives: None,
    }
}

/// What the access asks for, takes and gives.
pub fn vector_access_type(kind: LoadSimdKind) -> AccessType
    ensures { VectorAccessIs kind result }
{
    match kind {
        LoadSimdKind::Splat8 => load(false, 0, V128),
        LoadSimdKind::Splat16 => load(false, 1, V128),
        LoadSimdKind::Splat32 | LoadSimdKind::V128Load32Zero => load(false, 2, V128),
        LoadSimdKind::Splat64
        | LoadSimdKind::V128Load8x8S
        | LoadSimdKind::V128Load8x8U
        | LoadSimdKind::V128Load16x4S
        | LoadSimdKind::V128Load16x4U
        | LoadSimdKind::V128Load32x2S
        | LoadSimdKind::V128Load32x2U
        | LoadSimdKind::V128Load64Zero => load(false, 3, V128),
        LoadSimdKind::V128Load8Lane(lane) => load_lane(0, lane, 16),
        LoadSimdKind::V128Load16Lane(lane) => load_lane(1, lane, 8),
        LoadSimdKind::V128Load32Lane(lane) => load_lane(2, lane, 4),
        LoadSimdKind::V128Load64Lane(lane) => load_lane(3, lane, 2),
        LoadSimdKind::V128Store8Lane(lane) => store_lane(0, lane, 16),
        LoadSimdKind::V128Store16Lane(lane) => store_lane(1, lane, 8),
        LoadSimdKind::V128Store32Lane(lane) => store_lane(2, lane, 4),
        LoadSimdKind::V128Store64Lane(lane) => store_lane(3, lane, 2),
    }
}
