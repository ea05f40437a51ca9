//! The opcodes of loads and stores: one row for each operator.

ghost use Rattle.std.specs.Prelude.{◌≡◌};
ghost use Rattle.wasm_operators.specs.AccessOperations.{load_opcode as the_load_opcode, store_opcode as the_store_opcode};

use crate::types::Opcode;
use crate::types::Opcode::{Byte, Prefixed};
use wasm_types::ExtendedLoad::{SignExtend, ZeroExtend, ZeroExtendAtomic};
use wasm_types::{LoadKind, StoreKind};

/// The opcode of a load (WebAssembly core specification 3.0, binary format, memory instructions;
/// the proposal for threads).
pub fn load_opcode(kind: LoadKind) -> Opcode
    ensures { result ≡ the_load_opcode kind }
{
    match kind {
        LoadKind::I32 { atomic: false } => Byte(0x28),
        LoadKind::I64 { atomic: false } => Byte(0x29),
        LoadKind::F32 => Byte(0x2a),
        LoadKind::F64 => Byte(0x2b),
        LoadKind::I32_8 { kind: SignExtend } => Byte(0x2c),
        LoadKind::I32_8 { kind: ZeroExtend } => Byte(0x2d),
        LoadKind::I32_16 { kind: SignExtend } => Byte(0x2e),
        LoadKind::I32_16 { kind: ZeroExtend } => Byte(0x2f),
        LoadKind::I64_8 { kind: SignExtend } => Byte(0x30),
        LoadKind::I64_8 { kind: ZeroExtend } => Byte(0x31),
        LoadKind::I64_16 { kind: SignExtend } => Byte(0x32),
        LoadKind::I64_16 { kind: ZeroExtend } => Byte(0x33),
        LoadKind::I64_32 { kind: SignExtend } => Byte(0x34),
        LoadKind::I64_32 { kind: ZeroExtend } => Byte(0x35),
        LoadKind::V128 => Prefixed(0xfd, 0),
        LoadKind::I32 { atomic: true } => Prefixed(0xfe, 0x10),
        LoadKind::I64 { atomic: true } => Prefixed(0xfe, 0x11),
        LoadKind::I32_8 {
            kind: ZeroExtendAtomic,
        } => Prefixed(0xfe, 0x12),
        LoadKind::I32_16 {
            kind: ZeroExtendAtomic,
        } => Prefixed(0xfe, 0x13),
        LoadKind::I64_8 {
            kind: ZeroExtendAtomic,
        } => Prefixed(0xfe, 0x14),
        LoadKind::I64_16 {
            kind: ZeroExtendAtomic,
        } => Prefixed(0xfe, 0x15),
        LoadKind::I64_32 {
            kind: ZeroExtendAtomic,
        } => Prefixed(0xfe, 0x16),
    }
}

/// The opcode of a store (WebAssembly core specification 3.0, binary format, memory instructions;
/// the proposal for threads).
pub fn store_opcode(kind: StoreKind) -> Opcode
    ensures { result ≡ the_store_opcode kind }
{
    match kind {
        StoreKind::I32 { atomic: false } => Byte(0x36),
        StoreKind::I64 { atomic: false } => Byte(0x37),
        StoreKind::F32 => Byte(0x38),
        StoreKind::F64 => Byte(0x39),
        StoreKind::I32_8 { atomic: false } => Byte(0x3a),
        StoreKind::I32_16 { atomic: false } => Byte(0x3b),
        StoreKind::I64_8 { atomic: false } => Byte(0x3c),
        StoreKind::I64_16 { atomic: false } => Byte(0x3d),
        StoreKind::I64_32 { atomic: false } => Byte(0x3e),
        StoreKind::V128 => Prefixed(0xfd, 11),
        StoreKind::I32 { atomic: true } => Prefixed(0xfe, 0x17),
        StoreKind::I64 { atomic: true } => Prefixed(0xfe, 0x18),
        StoreKind::I32_8 { atomic: true } => Prefixed(0xfe, 0x19),
        StoreKind::I32_16 { atomic: true } => Prefixed(0xfe, 0x1a),
        StoreKind::I64_8 { atomic: true } => Prefixed(0xfe, 0x1b),
        StoreKind::I64_16 { atomic: true } => Prefixed(0xfe, 0x1c),
        StoreKind::I64_32 { atomic: true } => Prefixed(0xfe, 0x1d),
    }
}
