//! Atomic accesses: their opcodes, one row for each operator.

ghost use Rattle.std.specs.Prelude.{◌≡◌, ◌≤◌, ◌+◌};
ghost use Rattle.wasm_operators.specs.AtomicOpcodes.{width_number as the_width_number, first_atomic as the_first_atomic, atomic_opcode as the_atomic_opcode};

use crate::types::Opcode::Prefixed;
use crate::types::{AtomicKind, Opcode};
use wasm_types::{AtomicOp, AtomicWidth};

/// The position of a width in the order of the seven opcodes of an operator.
fn width_number(width: AtomicWidth) -> u32
    ensures gives { result ≡ the_width_number width }
    ensures small { result ≤ 6 }
{
    match width {
        AtomicWidth::I32 => 0,
        AtomicWidth::I64 => 1,
        AtomicWidth::I32_8 => 2,
        AtomicWidth::I32_16 => 3,
        AtomicWidth::I64_8 => 4,
        AtomicWidth::I64_16 => 5,
        AtomicWidth::I64_32 => 6,
    }
}

/// The number after 0xfe of the first of the seven opcodes of an operator.
fn first_atomic(op: AtomicOp) -> u32
    ensures gives { result ≡ the_first_atomic op }
    ensures small { result ≤ 0x41 }
{
    match op {
        AtomicOp::Add => 0x1e,
        AtomicOp::Sub => 0x25,
        AtomicOp::And => 0x2c,
        AtomicOp::Or => 0x33,
        AtomicOp::Xor => 0x3a,
        AtomicOp::Xchg => 0x41,
    }
}

/// The opcode of an atomic access other than a plain load or store (the proposal for threads).
pub fn atomic_opcode(kind: AtomicKind) -> Opcode
    ensures { result ≡ the_atomic_opcode kind }
{
    match kind {
        AtomicKind::Notify => Prefixed(0xfe, 0),
        AtomicKind::Wait32 => Prefixed(0xfe, 1),
        AtomicKind::Wait64 => Prefixed(0xfe, 2),
        AtomicKind::Rmw(op, width) => Prefixed(0xfe, first_atomic(op) + width_number(width)),
        AtomicKind::Cmpxchg(width) => Prefixed(0xfe, 0x48 + width_number(width)),
    }
}
