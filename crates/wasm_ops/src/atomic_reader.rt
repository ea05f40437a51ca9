//! Reading the rest of an operator after 0xfe: atomic accesses, by ranges of their numbers, and the
//! fence.

ghost use Rattle.std.specs.Prelude.{◌≡◌, ◌≤◌};
ghost use Rattle.wasm_numbers.specs.Results.{Gives};
ghost use Rattle.wasm_operators.specs.Spelling.{operands};
ghost use Rattle.wasm_operators.specs.Meaning.{meaning};
ghost use Rattle.wasm_operators.specs.AccessOperations.{load_opcode, store_opcode};
ghost use Rattle.wasm_operators.specs.AtomicOpcodes.{width_number as the_width_number, atomic_opcode as the_atomic_opcode};

use crate::access_reader::read_memarg;
use crate::row::made;
use wasm_numbers::ReadFault;
use wasm_operators::{AtomicKind, Opcode, Operator};
use wasm_types::ExtendedLoad::ZeroExtendAtomic;
use wasm_types::{AtomicOp, AtomicWidth, LoadKind, StoreKind};

/// The width at this position in the order of the seven opcodes of an operator.
fn width_at(place: u32) -> AtomicWidth
    requires { place ≤ 6 }
    ensures { the_width_number result ≡ place }
{
    match place {
        0 => AtomicWidth::I32,
        1 => AtomicWidth::I64,
        2 => AtomicWidth::I32_8,
        3 => AtomicWidth::I32_16,
        4 => AtomicWidth::I64_8,
        5 => AtomicWidth::I64_16,
        _ => AtomicWidth::I64_32,
    }
}

/// The kind of the access with a number from 0x1e to 0x4e after 0xfe.
fn rmw_kind(number: u32) -> AtomicKind
    requires low { 0x1e ≤ number }
    requires high { number ≤ 0x4e }
    ensures { the_atomic_opcode result ≡ Opcode.Prefixed 0xfe number }
{
    match number {
        0x1e..=0x24 => AtomicKind::Rmw(AtomicOp::Add, width_at(number - 0x1e)),
        0x25..=0x2b => AtomicKind::Rmw(AtomicOp::Sub, width_at(number - 0x25)),
        0x2c..=0x32 => AtomicKind::Rmw(AtomicOp::And, width_at(number - 0x2c)),
        0x33..=0x39 => AtomicKind::Rmw(AtomicOp::Or, width_at(number - 0x33)),
        0x3a..=0x40 => AtomicKind::Rmw(AtomicOp::Xor, width_at(number - 0x3a)),
        0x41..=0x47 => AtomicKind::Rmw(AtomicOp::Xchg, width_at(number - 0x41)),
        _ => AtomicKind::Cmpxchg(width_at(number - 0x48)),
    }
}

/// The kind of the atomic load with a number from 0x10 to 0x16 after 0xfe.
fn atomic_load_kind(number: u32) -> LoadKind
    requires low { 0x10 ≤ number }
    requires high { number ≤ 0x16 }
    ensures { load_opcode result ≡ Opcode.Prefixed 0xfe number }
{
    match number {
        0x10 => LoadKind::I32 { atomic: true },
        0x11 => LoadKind::I64 { atomic: true },
        0x12 => LoadKind::I32_8 {
            kind: ZeroExtendAtomic,
        },
        0x13 => LoadKind::I32_16 {
            kind: ZeroExtendAtomic,
        },
        0x14 => LoadKind::I64_8 {
            kind: ZeroExtendAtomic,
        },
        0x15 => LoadKind::I64_16 {
            kind: ZeroExtendAtomic,
        },
        _ => LoadKind::I64_32 {
            kind: ZeroExtendAtomic,
        },
    }
}

/// The kind of the atomic store with a number from 0x17 to 0x1d after 0xfe.
fn atomic_store_kind(number: u32) -> StoreKind
    requires low { 0x17 ≤ number }
    requires high { number ≤ 0x1d }
    ensures { store_opcode result ≡ Opcode.Prefixed 0xfe number }
{
    match number {
        0x17 => StoreKind::I32 { atomic: true },
        0x18 => StoreKind::I64 { atomic: true },
        0x19 => StoreKind::I32_8 { atomic: true },
        0x1a => StoreKind::I32_16 { atomic: true },
        0x1b => StoreKind::I64_8 { atomic: true },
        0x1c => StoreKind::I64_16 { atomic: true },
        _ => StoreKind::I64_32 { atomic: true },
    }
}

/// Reads the rest of an operator with 0xfe and a number from 0x10 to 0x16.
#[tactic(auto, unfolding(wasm_operators::specs::Opcodes::kinds_after))]
fn read_atomic_load(number: u32, bytes: &[u8]) -> Result<(Operator<'_>, &[u8]), ReadFault>
    requires low { 0x10 ≤ number }
    requires high { number ≤ 0x16 }
    ensures { Gives (λ x. (meaning x.0, x.1.now)) result
        (operands (Opcode.Prefixed 0xfe number) bytes.now) }
{
    let kind = atomic_load_kind(number);
    let (memarg, rest) = read_memarg(bytes)?;
    Ok((Operator::Load { kind, memarg }, rest))
}

/// Reads the rest of an operator with 0xfe and a number from 0x17 to 0x1d.
#[tactic(auto, unfolding(wasm_operators::specs::Opcodes::kinds_after))]
fn read_atomic_store(number: u32, bytes: &[u8]) -> Result<(Operator<'_>, &[u8]), ReadFault>
    requires low { 0x17 ≤ number }
    requires high { number ≤ 0x1d }
    ensures { Gives (λ x. (meaning x.0, x.1.now)) result
        (operands (Opcode.Prefixed 0xfe number) bytes.now) }
{
    let kind = atomic_store_kind(number);
    let (memarg, rest) = read_memarg(bytes)?;
    Ok((Operator::Store { kind, memarg }, rest))
}

/// Reads the rest of an operator with 0xfe and a number from 0x1e to 0x4e.
#[tactic(auto, unfolding(wasm_operators::specs::Opcodes::kinds_after))]
fn read_rmw(number: u32, bytes: &[u8]) -> Result<(Operator<'_>, &[u8]), ReadFault>
    requires low { 0x1e ≤ number }
    requires high { number ≤ 0x4e }
    ensures { Gives (λ x. (meaning x.0, x.1.now)) result
        (operands (Opcode.Prefixed 0xfe number) bytes.now) }
{
    let kind = rmw_kind(number);
    let (memarg, rest) = read_memarg(bytes)?;
    Ok((Operator::Atomic { kind, memarg }, rest))
}

/// Reads the rest of an `atomic.fence`: a zero byte.
#[tactic(auto, unfolding(wasm_operators::specs::Opcodes::kinds_after))]
fn read_fence(bytes: &[u8]) -> Result<(Operator<'_>, &[u8]), ReadFault>
    ensures { Gives (λ x. (meaning x.0, x.1.now)) result
        (operands (Opcode.Prefixed 0xfe 3) bytes.now) }
{
    match bytes {
        [] => Err(ReadFault::Truncated),
        [byte, rest @ ..] => {
            if *byte == 0 {
                Ok((Operator::AtomicFence, rest))
            } else {
                Err(ReadFault::BadFence)
            }
        }
    }
}

/// Reads the rest of an operator with 0xfe and a number.
#[tactic(auto, unfolding(wasm_operators::specs::Opcodes::kinds_after))]
pub(crate) fn read_after_fe(number: u32, bytes: &[u8]) -> Result<(Operator<'_>, &[u8]), ReadFault>
    ensures { Gives (λ x. (meaning x.0, x.1.now)) result
        (operands (Opcode.Prefixed 0xfe number) bytes.now) }
{
    match number {
        0 => made!(
            read_memarg(bytes), memarg => Operator::Atomic { kind: AtomicKind::Notify, memarg }
        ),
        1 => made!(
            read_memarg(bytes), memarg => Operator::Atomic { kind: AtomicKind::Wait32, memarg }
        ),
        2 => made!(
            read_memarg(bytes), memarg => Operator::Atomic { kind: AtomicKind::Wait64, memarg }
        ),
        3 => read_fence(bytes),
        4..=0xf => Err(ReadFault::UnknownOperator),
        0x10..=0x16 => read_atomic_load(number, bytes),
        0x17..=0x1d => read_atomic_store(number, bytes),
        0x1e..=0x4e => read_rmw(number, bytes),
        _ => Err(ReadFault::UnknownOperator),
    }
}
