//! Writing the immediates that follow an opcode.

ghost use Rattle.std.specs.Prelude.{◌≡◌, ◌++◌, ◌∷◌, OnOk, take, length};
ghost use Rattle.wasm_operators.specs.AccessOperations.{access_of};
ghost use Rattle.wasm_operators.specs.ReferenceOperations.{cast_of};
ghost use Rattle.wasm_operators.specs.Shortest.{short_number, short_vector, short_heap, short_value, short_flags, short_cast, short_access, short_table, short_clause, short_clauses, short_immediates};
ghost use Rattle.wasm_operators.specs.Parts.{immediates_of};

use crate::number::{write_bits, write_byte, write_integer, write_number};
use crate::out_operator::{OutClauses, OutImmediates, OutTable};
use crate::type_writer::{write_block_type, write_heap_type, write_value_type};
use std::alloc::AllocError;
use wasm_operators::{Immediates, RawCast, RawCatch, RawMemArg, RawValType};

/// Appends two indices.
#[tactic(auto, using(crate::proofs::Appending::appending))]
fn write_pair(out: &mut Vec<u8>, first: u32, second: u32) -> Result<(), AllocError>
    ensures ok { OnOk result
        (out.new.items ≡ out.old.items ++ (short_number first ++ short_number second)) }
    ensures unchanged { take (length out.old.items) out.new.items ≡ out.old.items }
{
    write_number(out, first as u64)?;
    write_number(out, second as u64)
}

/// Appends a memory argument. Memory 0 has the short form of the flags.
#[tactic(auto, using(crate::proofs::Appending::appending), unfolding(wasm_operators::specs::Shortest::short_access))]
fn write_memarg(out: &mut Vec<u8>, memarg: RawMemArg) -> Result<(), AllocError>
    ensures ok { OnOk result (out.new.items ≡ out.old.items ++ short_access (access_of memarg)) }
    ensures unchanged { take (length out.old.items) out.new.items ≡ out.old.items }
{
    if memarg.memory == 0 {
        write_number(out, memarg.exponent as u64)?;
    } else {
        write_number(out, memarg.exponent as u64 + 64)?;
        write_number(out, memarg.memory as u64)?;
    }
    write_number(out, memarg.offset)
}

/// Appends the type of a `select`, after the number of types, which is 1.
#[tactic(auto, using(crate::proofs::Appending::appending))]
fn write_selected(out: &mut Vec<u8>, ty: RawValType) -> Result<(), AllocError>
    ensures ok { OnOk result (out.new.items ≡ out.old.items ++ 1 ∷ short_value ty) }
    ensures unchanged { take (length out.old.items) out.new.items ≡ out.old.items }
{
    write_byte(out, 1)?;
    write_value_type(out, ty)
}

/// The flags of a cast.
fn cast_flags(from_nullable: bool, to_nullable: bool) -> u8
    ensures { result ≡ short_flags from_nullable to_nullable }
{
    match (from_nullable, to_nullable) {
        (false, false) => 0,
        (true, false) => 1,
        (false, true) => 2,
        (true, true) => 3,
    }
}

/// Appends the immediates of a branch on a cast.
#[tactic(auto, using(crate::proofs::Appending::appending), unfolding(wasm_operators::specs::Shortest::short_cast))]
fn write_cast(out: &mut Vec<u8>, cast: RawCast) -> Result<(), AllocError>
    ensures ok { OnOk result (out.new.items ≡ out.old.items ++ short_cast (cast_of cast)) }
    ensures unchanged { take (length out.old.items) out.new.items ≡ out.old.items }
{
    write_byte(out, cast_flags(cast.from_nullable, cast.to_nullable))?;
    write_number(out, cast.label as u64)?;
    write_heap_type(out, cast.source)?;
    write_heap_type(out, cast.target)
}

/// Appends lanes.
#[tactic(auto, using(crate::proofs::Appending::appending))]
fn write_lanes(out: &mut Vec<u8>, lanes: &[u8]) -> Result<(), AllocError>
    ensures ok { OnOk result (out.new.items ≡ out.old.items ++ lanes.now) }
    ensures unchanged { take (length out.old.items) out.new.items ≡ out.old.items }
{
    out.extend_from_slice(lanes)
}

/// Appends the bits of a vector.
#[tactic(auto, using(crate::proofs::Appending::appending), unfolding(wasm_operators::specs::Shortest::short_vector))]
fn write_vector(out: &mut Vec<u8>, bits: u128) -> Result<(), AllocError>
    ensures ok { OnOk result (out.new.items ≡ out.old.items ++ short_vector bits) }
    ensures unchanged { take (length out.old.items) out.new.items ≡ out.old.items }
{
    write_bits(out, 16, bits)
}

/// Appends the labels of a `br_table`.
#[tactic(auto, using(crate::proofs::Appending::appending), unfolding(wasm_operators::specs::Shortest::short_table))]
fn write_table(out: &mut Vec<u8>, targets: &[u32], default: u32) -> Result<(), AllocError>
    ensures ok { OnOk result (out.new.items ≡ out.old.items ++ short_table targets.now default) }
    ensures unchanged { take (length out.old.items) out.new.items ≡ out.old.items }
{
    write_number(out, targets.len() as u64)?;
    for label in targets {
        write_number(out, *label as u64)?;
    }
    write_number(out, default as u64)
}

/// Appends a clause of a `try_table`.
#[tactic(auto, using(crate::proofs::Appending::appending))]
fn write_clause(out: &mut Vec<u8>, clause: RawCatch) -> Result<(), AllocError>
    ensures ok { OnOk result (out.new.items ≡ out.old.items ++ short_clause clause) }
    ensures unchanged { take (length out.old.items) out.new.items ≡ out.old.items }
{
    match clause.tag {
        Some(tag) => {
            write_byte(out, if clause.by_reference { 1 } else { 0 })?;
            write_number(out, tag as u64)?;
        }
        None => write_byte(out, if clause.by_reference { 3 } else { 2 })?,
    }
    write_number(out, clause.label as u64)
}

/// Appends the clauses of a `try_table`.
#[tactic(auto, using(crate::proofs::Appending::appending), unfolding(wasm_operators::specs::Shortest::short_clauses))]
fn write_clauses(out: &mut Vec<u8>, clauses: &[RawCatch]) -> Result<(), AllocError>
    ensures ok { OnOk result (out.new.items ≡ out.old.items ++ short_clauses clauses.now) }
    ensures unchanged { take (length out.old.items) out.new.items ≡ out.old.items }
{
    write_number(out, clauses.len() as u64)?;
    for clause in clauses {
        write_clause(out, *clause)?;
    }
    Ok(())
}

/// Appends the immediates that follow an opcode.
#[inline(always)]
#[tactic(auto, using(crate::proofs::Appending::appending))]
pub(crate) fn write_immediates(
    out: &mut Vec<u8>,
    immediates: &OutImmediates<'_>,
) -> Result<(), AllocError>
    ensures ok { OnOk result
        (out.new.items ≡ out.old.items ++ short_immediates (immediates_of immediates.now)) }
    ensures unchanged { take (length out.old.items) out.new.items ≡ out.old.items }
{
    match immediates {
        Immediates::Nothing => Ok(()),
        Immediates::Index(_, index) => write_number(out, *index as u64),
        Immediates::Pair(_, first, _, second) => write_pair(out, *first, *second),
        Immediates::IndexNumber(_, index, number) => write_pair(out, *index, *number),
        Immediates::Local(index) => write_number(out, *index as u64),
        Immediates::Label(depth) => write_number(out, *depth as u64),
        Immediates::Handler(depth) => write_number(out, *depth as u64),
        Immediates::Outer(depth) => write_number(out, *depth as u64),
        Immediates::Table(OutTable { targets, default }) => write_table(out, targets, *default),
        Immediates::Access(memarg) => write_memarg(out, *memarg),
        Immediates::LaneAccess(memarg, idx) => {
            write_memarg(out, *memarg)?;
            write_byte(out, *idx)
        }
        Immediates::Block(ty) => write_block_type(out, *ty),
        Immediates::Clauses(ty, OutClauses { clauses }) => {
            write_block_type(out, *ty)?;
            write_clauses(out, clauses)
        }
        Immediates::Heap(heap_type) => write_heap_type(out, *heap_type),
        Immediates::Value(ty) => write_selected(out, *ty),
        Immediates::Cast(cast) => write_cast(out, *cast),
        Immediates::I32(value) => write_integer(out, *value as i64),
        Immediates::I64(value) => write_integer(out, *value),
        Immediates::F32(bits) => write_bits(out, 4, *bits as u128),
        Immediates::F64(bits) => write_bits(out, 8, *bits as u128),
        Immediates::V128(bits) => write_vector(out, *bits),
        Immediates::Lane(idx) => write_byte(out, *idx),
        Immediates::Lanes(lanes) => write_lanes(out, lanes),
        Immediates::ZeroByte => write_byte(out, 0),
    }
}
