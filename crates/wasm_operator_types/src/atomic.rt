//! The types of atomic accesses other than loads and stores.
ghost use Rattle.std.specs.Prelude.{◌≡◌};
ghost use Rattle.wasm_operator_types.specs.AccessTypes.{width_of, AtomicIs};

use crate::access::{AccessType, Operands};
use wasm_operators::{AtomicKind, RawValType};
use wasm_types::AtomicWidth;
use wasm_types::ValType::{I32, I64};

/// The exponent of two of the number of bytes that are accessed, and the type of the values.
fn width_of(width: AtomicWidth) -> (u32, RawValType)
    ensures { result ≡ width_of width }
{
    match width {
        AtomicWidth::I32 => (2, I32),
        AtomicWidth::I32_8 => (0, I32),
        AtomicWidth::I32_16 => (1, I32),
        AtomicWidth::I64 => (3, I64),
        AtomicWidth::I64_8 => (0, I64),
        AtomicWidth::I64_16 => (1, I64),
        AtomicWidth::I64_32 => (2, I64),
    }
}

/// What the access asks for, takes and gives.
#[tactic(auto, using(crate::proofs::Widths::update_is, crate::proofs::Widths::exchange_is))]
pub fn atomic_type(kind: AtomicKind) -> AccessType
    ensures { AtomicIs kind result }
{
    let (exponent, takes, gives) = match kind {
        AtomicKind::Notify => (2, Operands::One(I32), I32),
        AtomicKind::Wait32 => (2, Operands::Two(I32, I64), I32),
        AtomicKind::Wait64 => (3, Operands::Two(I64, I64), I32),
        AtomicKind::Rmw(_, width) => {
            let (exponent, ty) = width_of(width);
            (exponent, Operands::One(ty), ty)
        }
        AtomicKind::Cmpxchg(width) => {
            let (exponent, ty) = width_of(width);
            (exponent, Operands::Two(ty, ty), ty)
        }
    };
    AccessType {
        exponent,
        exact: true,
        has_lane: true,
        takes,
        gives: Some(gives),
    }
}
