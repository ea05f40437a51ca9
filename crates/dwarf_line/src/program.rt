//! Line number programs, written anew.

ghost use Rattle.std.specs.Prelude.{◌≡◌, ◌≤◌, List, ◌∷◌, [], OnOk, IfOk, IfErr, map};
ghost use Rattle.dwarf_line.specs.Kept.{line_kept};
ghost use Rattle.dwarf_line.specs.LineProgram.{Parameters, initial, all_appended};
ghost use Rattle.dwarf_line.specs.MovedRows.{moved_row, moved_sequence};
ghost use Rattle.dwarf_line.specs.Operations.{line_operation};
ghost use Rattle.dwarf_line.specs.Refusals.{IsOfWritingOfLines, IsProgramRefusal};
ghost use Rattle.dwarf_line.specs.Repeated.{Begin, ReadsAs};
ghost use Rattle.dwarf_line.specs.Views.{parameters};
ghost use Rattle.dwarf_line.specs.Written.{AddsLead, IsSound, FollowsOfLines, line_start, IsEnded, IsSequence, AddsRows, AddsProgram};
ghost use Rattle.dwarf_line.specs.declared.operation.Operation.{Operation as AnOperation};
ghost use Rattle.dwarf_line.specs.declared.operation.Operation.TheVariants.{SetAddress, Special, EndSequence};
ghost use Rattle.dwarf_line.specs.declared.place.Place.{Place as APlace};

use crate::header::Header;
use crate::moved::Moved;
use crate::operation::{AddressSize, Operation};
use crate::place::{Place, moved};
use crate::reading::read_operation;
use crate::sequence::Sequence;
use crate::sequences::read_sequence;
use crate::writing::{write_advance, write_set_address, write_special};
use code_moves::Moves;
use dwarf_bytes::DebugError;

/// If the address that is written is after this one, it is set to this one. Returns the address then.
fn set_back(out: &mut Vec<u8>, place: Place, target: u64) -> Result<u64, DebugError>
    ensures leads { IfOk result (λ from. (p : Parameters)
        → AddsLead p out.old.items out.new.items place.new from) }
    ensures below { IfOk result (λ from. from ≤ target) }
    ensures stays { place.new ≤ target → IfOk result (λ from. from ≡ place.new) }
    ensures errors { IfErr result IsOfWritingOfLines }
{
    if place.new <= target {
        return Ok(place.new);
    }
    write_set_address(out, place.size, target)?;
    Ok(target)
}

/// Writes what leads to this address.
fn lead(out: &mut Vec<u8>, header: &Header<'_>, place: Place, target: u64) -> Result<(), DebugError>
    ensures leads { OnOk result
        (AddsLead (parameters header.now) out.old.items out.new.items place.new target) }
    ensures errors { IfErr result IsOfWritingOfLines }
{
    let from = set_back(out, place, target)?;
    write_advance(out, header, target - from)?;
    Ok(())
}

/// Writes the operation of the source that sets the address, which these bytes are.
fn move_address(
    out: &mut Vec<u8>,
    moves: &Moves,
    size: AddressSize,
    address: u64,
    bytes: &[u8],
) -> Result<Place, DebugError>
    ensures errors { IfErr result IsOfWritingOfLines }
    ensures follows { (p : Parameters) (from : APlace)
        → ReadsAs (line_operation p) (SetAddress size address ∷ []) bytes.now
        → IfOk result (λ to. FollowsOfLines moves.now.bodies.items p (SetAddress size address ∷ []) from to
        out.old.items out.new.items []) }
{
    match moves.address(address) {
        Some(new) => {
            write_set_address(out, size, new)?;
            Ok(Place {
                old: address,
                new,
                size,
            })
        }
        None => {
            out.extend_from_slice(bytes)?;
            Ok(Place {
                old: address,
                new: address,
                size,
            })
        }
    }
}

/// Writes a special opcode of the source.
fn move_special(
    out: &mut Vec<u8>,
    header: &Header<'_>,
    moves: &Moves,
    place: Place,
    opcode: u8,
) -> Result<Place, DebugError>
    requires { header.now.opcode_base ≤ opcode }
    ensures errors { IfErr result IsOfWritingOfLines }
    ensures follows { IfOk result (λ to. FollowsOfLines moves.now.bodies.items (parameters header.now)
        (Special opcode ∷ []) place to out.old.items out.new.items
        (line_kept (parameters header.now) (Special opcode) [])) }
{
    let old = place.old.wrapping_add(header.address_advance(opcode));
    let new = moved(moves, old);
    let from = set_back(out, place, new)?;
    write_special(out, header, header.line_step(opcode), new - from)?;
    Ok(Place {
        old,
        new,
        size: place.size,
    })
}

/// Writes an operation of the source, which these bytes are.
fn move_operation(
    out: &mut Vec<u8>,
    header: &Header<'_>,
    moves: &Moves,
    place: Place,
    operation: Operation,
    bytes: &[u8],
) -> Result<Place, DebugError>
    requires { IsSound (parameters header.now) operation }
    ensures follows { ReadsAs (line_operation (parameters header.now)) (operation ∷ []) bytes.now
        → IfOk result (λ to. FollowsOfLines moves.now.bodies.items (parameters header.now) (operation ∷ [])
        place to out.old.items out.new.items (line_kept (parameters header.now) operation bytes.now)) }
    ensures ended { operation ≡ EndSequence → IfOk result (λ to. to ≡ line_start) }
    ensures errors { IfErr result IsOfWritingOfLines }
{
    match operation {
        Operation::Advance(distance) => Ok(Place {
            old: place.old.wrapping_add(distance),
            new: place.new,
            size: place.size,
        }),
        Operation::SetAddress(size, address) => move_address(out, moves, size, address, bytes),
        Operation::Special(opcode) => move_special(out, header, moves, place, opcode),
        Operation::AppendRow => {
            let new = moved(moves, place.old);
            lead(out, header, place, new)?;
            out.extend_from_slice(bytes)?;
            Ok(Place {
                old: place.old,
                new,
                size: place.size,
            })
        }
        Operation::EndSequence => {
            lead(out, header, place, moved(moves, place.old))?;
            out.extend_from_slice(bytes)?;
            Ok(Place::start())
        }
        Operation::Changes(_) => {
            out.extend_from_slice(bytes)?;
            Ok(place)
        }
    }
}

/// Writes the operations of a sequence.
fn move_operations(
    out: &mut Vec<u8>,
    header: &Header<'_>,
    moves: &Moves,
    bytes: &[u8],
) -> Result<(), DebugError>
    ensures errors { (os : List AnOperation)
        → Begin (line_operation (parameters header.now)) os bytes.now [] → IfErr result IsOfWritingOfLines }
    ensures adds { OnOk result ((os : List AnOperation)
        → Begin (line_operation (parameters header.now)) os bytes.now [] → IsEnded os
        → AddsRows (parameters header.now) bytes.now out.old.items out.new.items
        (map (moved_row moves.now.bodies.items) (all_appended (parameters header.now) os
        (initial (parameters header.now))))) }
{
    let mut place = Place::start();
    let mut rest = bytes;
    'operations: while !rest.is_empty() {
        let (operation, following) = read_operation(header, rest)?;
        let (front, _) = rest.split_at(rest.len() - following.len());
        place = move_operation(out, header, moves, place, operation, front)?;
        rest = following;
    }
    Ok(())
}

/// Writes a sequence of the source: with its addresses moved if the first one is of a body.
fn move_sequence(
    out: &mut Vec<u8>,
    header: &Header<'_>,
    moves: &Moves,
    sequence: Sequence<'_>,
) -> Result<(), DebugError>
    ensures errors { (os : List AnOperation)
        → Begin (line_operation (parameters header.now)) os sequence.entry.bytes.now []
        → IfErr result IsOfWritingOfLines }
    ensures adds { OnOk result ((os : List AnOperation)
        → Begin (line_operation (parameters header.now)) os sequence.entry.bytes.now []
        → IsSequence (parameters header.now) os sequence.entry.first
        → AddsRows (parameters header.now) sequence.entry.bytes.now out.old.items out.new.items
        (moved_sequence moves.now.bodies.items (all_appended (parameters header.now) os
        (initial (parameters header.now))))) }
{
    if moves.address(sequence.first).is_some() {
        return move_operations(out, header, moves, sequence.bytes);
    }
    out.extend_from_slice(sequence.bytes)?;
    Ok(())
}

/// Writes a program, which is at this place of the section, and tells where its sequences went.
pub(crate) fn move_program(
    out: &mut Vec<u8>,
    sequences: &mut Vec<Moved>,
    header: &Header<'_>,
    moves: &Moves,
    program: &[u8],
    place: Moved,
) -> Result<(), DebugError>
    ensures errors { IfErr result (IsProgramRefusal (parameters header.now) program.now) }
    ensures adds { OnOk result (AddsProgram moves.now.bodies.items (parameters header.now) place
        program.now out.old.items out.new.items sequences.old.items sequences.new.items) }
{
    let start = out.len();
    let mut rest = program;
    'sequences: while !rest.is_empty() {
        let sequence = read_sequence(header, rest)?;
        let moved = place.further(program.len() - rest.len(), out.len() - start)?;
        sequences.push(moved)?;
        move_sequence(out, header, moves, sequence)?;
        rest = sequence.rest;
    }
    Ok(())
}
