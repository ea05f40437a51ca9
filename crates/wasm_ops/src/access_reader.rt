//! Reading loads and stores: their memory arguments, and the kinds of their opcodes.

ghost use Rattle.std.specs.Prelude.{◌≡◌, ◌≤◌, IfSome, Ok};
ghost use Rattle.wasm_numbers.specs.Results.{Gives};
ghost use Rattle.wasm_operators.specs.Immediates.{memory_flags, memory as memory_after, memory_access};
ghost use Rattle.wasm_operators.specs.AccessOperations.{load_opcode, store_opcode, access_of};

use wasm_numbers::{ReadFault, read_u32, read_u64, u64_at_front};
use wasm_operators::{Opcode, RawMemArg};
use wasm_types::ExtendedLoad::{SignExtend, ZeroExtend};
use wasm_types::{LoadKind, StoreKind};

/// The exponent that flags contain, and whether the index of a memory follows.
fn exponent(flags: u32) -> Result<(u32, bool), ReadFault>
    ensures { Gives (λ x. x) result (memory_flags flags) }
{
    if flags < 32 {
        Ok((flags, false))
    } else if flags < 64 {
        Err(ReadFault::BadMemArg)
    } else if flags < 96 {
        Ok((flags - 64, true))
    } else {
        Err(ReadFault::BadMemArg)
    }
}

/// Reads the index of the memory if one follows; otherwise it is 0. Returns it and the bytes that
/// follow.
fn read_memory(flags: (u32, bool), bytes: &[u8]) -> Result<(u32, &[u8]), ReadFault>
    ensures { Gives (λ x. (x.0, x.1.now)) result (memory_after flags bytes.now) }
{
    if flags.1 {
        read_u32(bytes)
    } else {
        Ok((0, bytes))
    }
}

/// Reads a memory argument at the front if its memory is 0 and its flags have one byte. Returns it
/// and the bytes that follow.
#[inline(always)]
#[tactic(auto, using(wasm_numbers::proofs::Powers::powers), unfolding(wasm_operators::specs::Immediates::memory_access, wasm_numbers::specs::Numbers::integer))]
pub(crate) fn read_short_memarg(bytes: &[u8]) -> Option<(RawMemArg, &[u8])>
    ensures reads { IfSome result (λ x. memory_access bytes.now ≡ Ok (access_of x.0, x.1.now)) }
{
    let [flags, rest @ ..] = bytes else {
        return None;
    };
    if *flags >= 32 {
        return None;
    }
    let (offset, rest) = u64_at_front(rest)?;
    let memarg = RawMemArg {
        exponent: *flags as u32,
        memory: 0,
        offset,
    };
    Some((memarg, rest))
}

/// Reads a memory argument at the front. Returns it and the bytes that follow.
#[tactic(auto, unfolding(wasm_operators::specs::Immediates::memory_access))]
pub(crate) fn read_memarg(bytes: &[u8]) -> Result<(RawMemArg, &[u8]), ReadFault>
    ensures { Gives (λ x. (access_of x.0, x.1.now)) result (memory_access bytes.now) }
{
    let (flags, rest) = read_u32(bytes)?;
    let flags = exponent(flags)?;
    let (memory, rest) = read_memory(flags, rest)?;
    let (offset, rest) = read_u64(rest)?;
    Ok((
        RawMemArg {
            exponent: flags.0,
            memory,
            offset,
        },
        rest,
    ))
}

/// The kind of the load with an opcode from 0x28 to 0x35.
#[inline(always)]
pub(crate) fn load_kind(byte: u8) -> LoadKind
    requires low { 0x28 ≤ byte }
    requires high { byte ≤ 0x35 }
    ensures { load_opcode result ≡ Opcode.Byte byte }
{
    match byte {
        0x28 => LoadKind::I32 { atomic: false },
        0x29 => LoadKind::I64 { atomic: false },
        0x2a => LoadKind::F32,
        0x2b => LoadKind::F64,
        0x2c => LoadKind::I32_8 { kind: SignExtend },
        0x2d => LoadKind::I32_8 { kind: ZeroExtend },
        0x2e => LoadKind::I32_16 { kind: SignExtend },
        0x2f => LoadKind::I32_16 { kind: ZeroExtend },
        0x30 => LoadKind::I64_8 { kind: SignExtend },
        0x31 => LoadKind::I64_8 { kind: ZeroExtend },
        0x32 => LoadKind::I64_16 { kind: SignExtend },
        0x33 => LoadKind::I64_16 { kind: ZeroExtend },
        0x34 => LoadKind::I64_32 { kind: SignExtend },
        _ => LoadKind::I64_32 { kind: ZeroExtend },
    }
}

/// The kind of the store with an opcode from 0x36 to 0x3e.
#[inline(always)]
pub(crate) fn store_kind(byte: u8) -> StoreKind
    requires low { 0x36 ≤ byte }
    requires high { byte ≤ 0x3e }
    ensures { store_opcode result ≡ Opcode.Byte byte }
{
    match byte {
        0x36 => StoreKind::I32 { atomic: false },
        0x37 => StoreKind::I64 { atomic: false },
        0x38 => StoreKind::F32,
        0x39 => StoreKind::F64,
        0x3a => StoreKind::I32_8 { atomic: false },
        0x3b => StoreKind::I32_16 { atomic: false },
        0x3c => StoreKind::I64_8 { atomic: false },
        0x3d => StoreKind::I64_16 { atomic: false },
        _ => StoreKind::I64_32 { atomic: false },
    }
}
