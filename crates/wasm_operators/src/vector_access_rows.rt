//! Vector accesses other than plain loads and stores: their opcodes, one row for each operator.

ghost use Rattle.std.specs.Prelude.{◌≡◌};
ghost use Rattle.wasm_operators.specs.Parts.{lane_immediates};
ghost use Rattle.wasm_operators.specs.VectorAccessOpcodes.{vector_access_opcode as the_vector_access_opcode, access_lane as the_access_lane};

use crate::types::Opcode;
use crate::types::Opcode::Prefixed;
use wasm_types::LoadSimdKind;

/// The opcode of a vector access other than a plain load or store (WebAssembly core specification
/// 3.0, binary format, vector instructions).
pub fn vector_access_opcode(kind: LoadSimdKind) -> Opcode
    ensures { result ≡ the_vector_access_opcode kind }
{
    match kind {
        LoadSimdKind::V128Load8x8S => Prefixed(0xfd, 1),
        LoadSimdKind::V128Load8x8U => Prefixed(0xfd, 2),
        LoadSimdKind::V128Load16x4S => Prefixed(0xfd, 3),
        LoadSimdKind::V128Load16x4U => Prefixed(0xfd, 4),
        LoadSimdKind::V128Load32x2S => Prefixed(0xfd, 5),
        LoadSimdKind::V128Load32x2U => Prefixed(0xfd, 6),
        LoadSimdKind::Splat8 => Prefixed(0xfd, 7),
        LoadSimdKind::Splat16 => Prefixed(0xfd, 8),
        LoadSimdKind::Splat32 => Prefixed(0xfd, 9),
        LoadSimdKind::Splat64 => Prefixed(0xfd, 10),
        LoadSimdKind::V128Load8Lane(_) => Prefixed(0xfd, 84),
        LoadSimdKind::V128Load16Lane(_) => Prefixed(0xfd, 85),
        LoadSimdKind::V128Load32Lane(_) => Prefixed(0xfd, 86),
        LoadSimdKind::V128Load64Lane(_) => Prefixed(0xfd, 87),
        LoadSimdKind::V128Store8Lane(_) => Prefixed(0xfd, 88),
        LoadSimdKind::V128Store16Lane(_) => Prefixed(0xfd, 89),
        LoadSimdKind::V128Store32Lane(_) => Prefixed(0xfd, 90),
        LoadSimdKind::V128Store64Lane(_) => Prefixed(0xfd, 91),
        LoadSimdKind::V128Load32Zero => Prefixed(0xfd, 92),
        LoadSimdKind::V128Load64Zero => Prefixed(0xfd, 93),
    }
}

/// The index of the lane of a vector access, if it accesses one lane.
pub fn access_lane(kind: LoadSimdKind) -> Option<u8>
    ensures { lane_immediates result ≡ the_access_lane kind }
{
    match kind {
        LoadSimdKind::V128Load8Lane(lane) => Some(lane),
        LoadSimdKind::V128Load16Lane(lane) => Some(lane),
        LoadSimdKind::V128Load32Lane(lane) => Some(lane),
        LoadSimdKind::V128Load64Lane(lane) => Some(lane),
        LoadSimdKind::V128Store8Lane(lane) => Some(lane),
        LoadSimdKind::V128Store16Lane(lane) => Some(lane),
        LoadSimdKind::V128Store32Lane(lane) => Some(lane),
        LoadSimdKind::V128Store64Lane(lane) => Some(lane),
        _ => None,
    }
}
