//! The section `.debug_line`.

ghost use Rattle.std.specs.Prelude.{◌≡◌, ◌+◌, ◌^◌, ◌≤◌, ◌⊎◌, IfOk, IfErr};
ghost use Rattle.dwarf_bytes.specs.declared.fault.DebugFault.TheVariants.{DoesNotFit};
ghost use Rattle.dwarf_line.specs.LineTables.{IsMovedSection, AreTablesAt, program_offset};
ghost use Rattle.dwarf_line.specs.Refusals.{IsRefusal};
ghost use Rattle.dwarf_line.specs.Views.{line_table};

use crate::moved::Moved;
use crate::program::move_program;
use crate::table::Table;
use crate::tables::{read_table, write_table};
use code_moves::Moves;
use dwarf_bytes::{DebugError, DebugFault, Format};
use std::alloc::Global;

/// What is written for `.debug_line`.
#[derive(Debug, Drop)]
pub struct MovedLines {
    /// The bytes of the section.
    pub bytes: Vec<u8>,
    /// Where the tables went, by ascending offsets.
    pub tables: Vec<Moved>,
    /// Where the sequences went, by ascending offsets.
    pub sequences: Vec<Moved>,
}

/// The place of the program of a table that is at this one.
fn program_place(place: Moved, table: &Table<'_>) -> Result<Moved, DebugFault>
    ensures old { IfOk result (λ m. m.old ≡ place.old + program_offset (line_table table.now)) }
    ensures new { IfOk result (λ m. m.new ≡ place.new + program_offset (line_table table.now)) }
    ensures errors { IfErr result (λ f. (f ≡ DoesNotFit)
        × ((2 ^ 64 ≤ place.old + program_offset (line_table table.now))
        ⊎ (2 ^ 64 ≤ place.new + program_offset (line_table table.now)))) }
{
    let size: usize = match table.format {
        Format::Dwarf32 => 4,
        Format::Dwarf64 => 12,
    };
    match table.front.len().checked_add(size) {
        Some(distance) => place.further(distance, distance),
        None => Err(DebugFault::DoesNotFit),
    }
}

/// Writes the line tables of a module whose code moves: their rows are those of the source, with their addresses moved.
/// Headers are kept, but for the lengths of the tables, and so are the rows of code that the linker has removed.
///
/// # Errors
///
/// - `Truncated` if the section ends inside a table, or a program inside a sequence;
/// - `BadNumber` for a number that is too long or too great;
/// - `BadLength` if a length leads too far, or isn't that of what it counts;
/// - `UnknownVersion` if the version isn't 2 to 5;
/// - `Unsupported` for instructions of several bytes or operations, segments, special opcodes without line advances, fewer
///   standard opcodes than DWARF 2 has, or one that isn't followed by as many numbers as the standard says;
/// - `DoesNotFit` if an address or the length of a table doesn't fit its field;
/// - out of memory.
pub fn move_lines(alloc: Global, section: &[u8], moves: &Moves) -> Result<MovedLines, DebugError>
    ensures moved { IfOk result (λ lines. IsMovedSection moves.now.bodies.items section.now
        lines.bytes.items) }
    ensures refused { IfErr result (IsRefusal section.now) }
    ensures places { IfOk result (λ lines. AreTablesAt moves.now.bodies.items 0 0
        lines.tables.items lines.sequences.items section.now lines.bytes.items) }
{
    let mut lines = MovedLines {
        bytes: Vec::new(alloc),
        tables: Vec::new(alloc),
        sequences: Vec::new(alloc),
    };
    let mut program = Vec::new(alloc);
    let mut rest = section;
    'tables: while !rest.is_empty() {
        let (table, following) = read_table(rest)?;
        let place = Moved {
            old: section.len() as u64 - rest.len() as u64,
            new: lines.bytes.len() as u64,
        };
        let program_place = program_place(place, &table)?;
        lines.tables.push(place)?;
        program.clear();
        move_program(
            &mut program,
            &mut lines.sequences,
            &table.header,
            moves,
            table.program,
            program_place,
        )?;
        write_table(
            &mut lines.bytes,
            table.format,
            table.front,
            program.as_slice(),
        )?;
        rest = following;
    }
    Ok(lines)
}
