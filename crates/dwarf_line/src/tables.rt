//! Reading and writing line tables (DWARF 5, section 6.2.4).

ghost use Rattle.std.specs.Prelude.{◌≡◌, ◌≤◌, ◌++◌, length, IfErr, OnOk, Err, ◌+◌};
ghost use Rattle.dwarf_bytes.specs.declared.fault.DebugError.TheVariants.{Fault};
ghost use Rattle.dwarf_bytes.specs.declared.fault.DebugFault.TheVariants.{DoesNotFit};
ghost use Rattle.dwarf_bytes.specs.declared.size.Format.TheVariants.{Dwarf32};
ghost use Rattle.wasm_numbers.specs.Results.{Gives};
ghost use Rattle.dwarf_line.specs.LineTables.{no_segments, version as a_version, operations_per_instruction, instruction_sizes, agree, known_counts, signed_byte, opcodes, fields, header as a_header, unit, table as a_table};
ghost use Rattle.dwarf_line.specs.Refusals.{IsOfWritingOfLines};
ghost use Rattle.dwarf_line.specs.Views.{parameters, line_table};
ghost use Rattle.dwarf_line.specs.Written.{AddsLength, AddsUnit};

use crate::header::Header;
use crate::table::Table;
use crate::writing::write_fixed;
use dwarf_bytes::{
    DebugError, DebugFault, Format, Size, read_initial_length, read_offset, read_u8, read_u16,
    split,
};

/// How many numbers follow each standard opcode that is known, from `DW_LNS_copy` on.
const KNOWN_COUNTS: [u8; 12] = [0, 1, 1, 1, 1, 0, 0, 0, 1, 0, 0, 1];

/// Reads the sizes of an address and of a segment selector, which follow the version 5.
fn read_no_segments(version: u16, bytes: &[u8]) -> Result<(u16, &[u8]), DebugFault>
    ensures { Gives (λ x. (x.0, x.1.now)) result (no_segments version bytes.now) }
{
    let (_address_size, rest) = read_u8(bytes)?;
    let (selector_size, rest) = read_u8(rest)?;
    if selector_size == 0 {
        Ok((version, rest))
    } else {
        Err(DebugFault::Unsupported)
    }
}

/// Reads the version, and what follows it from version 5 on.
fn read_version(bytes: &[u8]) -> Result<(u16, &[u8]), DebugFault>
    ensures { Gives (λ x. (x.0, x.1.now)) result (a_version bytes.now) }
{
    let (version, rest) = read_u16(bytes)?;
    if version < 2 || 5 < version {
        Err(DebugFault::UnknownVersion)
    } else if version < 5 {
        Ok((version, rest))
    } else {
        read_no_segments(version, rest)
    }
}

/// Reads how many operations an instruction has at most.
fn read_operations_per_instruction(version: u16, bytes: &[u8]) -> Result<(u8, &[u8]), DebugFault>
    ensures { Gives (λ x. (x.0, x.1.now)) result (operations_per_instruction version bytes.now) }
{
    if version < 4 {
        Ok((1, bytes))
    } else {
        read_u8(bytes)
    }
}

/// Reads the sizes of instructions: all are of one byte, and have one operation.
fn read_instruction_sizes(version: u16, bytes: &[u8]) -> Result<&[u8], DebugFault>
    ensures { Gives (λ x. (tt, x.now)) result (instruction_sizes version bytes.now) }
{
    let (size, rest) = read_u8(bytes)?;
    let (operations, rest) = read_operations_per_instruction(version, rest)?;
    if size == 1 && operations == 1 {
        Ok(rest)
    } else {
        Err(DebugFault::Unsupported)
    }
}

/// Whether the standard opcodes that are known are followed by as many numbers as the standard says.
fn are_known(operand_counts: &[u8]) -> bool
    ensures { result ≡ agree operand_counts.now known_counts }
{
    operand_counts
        .iter()
        .zip(KNOWN_COUNTS.iter())
        .all(|(count, known)| count == known)
}

/// The signed number of a byte.
fn signed(byte: u8) -> i64
    ensures { result ≡ signed_byte byte }
{
    if byte < 128 {
        byte as i64
    } else {
        byte as i64 - 256
    }
}

/// What the header says to the machine: these numbers, and how many numbers follow each standard opcode.
fn read_opcodes(
    default_is_stmt: u8,
    line_base: u8,
    line_range: u8,
    opcode_base: u8,
    bytes: &[u8],
) -> Result<Header<'_>, DebugFault>
    ensures { Gives parameters result (opcodes default_is_stmt line_base line_range opcode_base
        bytes.now) }
{
    if line_range == 0 || opcode_base < 10 {
        return Err(DebugFault::Unsupported);
    }
    let (operand_counts, _) = split(bytes, opcode_base as u64 - 1)?;
    if are_known(operand_counts) {
        Ok(Header {
            default_is_stmt: default_is_stmt != 0,
            line_base: signed(line_base),
            line_range,
            opcode_base,
            operand_counts,
        })
    } else {
        Err(DebugFault::Unsupported)
    }
}

/// Reads the fields of a header from the sizes of instructions on.
fn read_fields(version: u16, bytes: &[u8]) -> Result<Header<'_>, DebugFault>
    ensures { Gives parameters result (fields version bytes.now) }
{
    let rest = read_instruction_sizes(version, bytes)?;
    let (default_is_stmt, rest) = read_u8(rest)?;
    let (line_base, rest) = read_u8(rest)?;
    let (line_range, rest) = read_u8(rest)?;
    let (opcode_base, rest) = read_u8(rest)?;
    read_opcodes(default_is_stmt, line_base, line_range, opcode_base, rest)
}

/// Reads a header after the length of its table. Returns it and the program.
#[tactic(auto, unfolding(crate::specs::LineTables::header))]
fn read_header(format: Format, bytes: &[u8]) -> Result<(Header<'_>, &[u8]), DebugFault>
    ensures { Gives (λ x. (parameters x.0, x.1.now)) result (a_header format bytes.now) }
{
    let (version, rest) = read_version(bytes)?;
    let (size, rest) = read_offset(format, rest)?;
    let (part, program) = split(rest, size)?;
    let header = read_fields(version, part)?;
    Ok((header, program))
}

/// The table whose bytes after the length these are.
fn read_unit(format: Format, bytes: &[u8]) -> Result<Table<'_>, DebugFault>
    ensures { Gives line_table result (unit format bytes.now) }
{
    let (header, program) = read_header(format, bytes)?;
    let (front, _) = bytes.split_at(bytes.len().saturating_sub(program.len()));
    Ok(Table {
        format,
        front,
        header,
        program,
    })
}

/// Reads a table at the front. Returns it and the bytes that follow.
#[tactic(auto, unfolding(crate::specs::LineTables::table))]
pub(crate) fn read_table(bytes: &[u8]) -> Result<(Table<'_>, &[u8]), DebugFault>
    ensures { Gives (λ x. (line_table x.0, x.1.now)) result (a_table bytes.now) }
{
    let ((format, length), rest) = read_initial_length(bytes)?;
    let (part, rest) = split(rest, length)?;
    let table = read_unit(format, part)?;
    Ok((table, rest))
}

/// Appends a length in this format.
fn write_length(out: &mut Vec<u8>, format: Format, length: u64) -> Result<(), DebugError>
    ensures adds { OnOk result (AddsLength format length out.old.items out.new.items) }
    ensures errors { IfErr result IsOfWritingOfLines }
    ensures unfit { result ≡ Err (Fault DoesNotFit) → (format ≡ Dwarf32) × (0xffff_fff0 ≤ length) }
{
    match format {
        Format::Dwarf32 => {
            if 0xffff_fff0 <= length {
                return Err(DebugError::Fault(DebugFault::DoesNotFit));
            }
            write_fixed(out, Size::Four, length)?;
            Ok(())
        }
        Format::Dwarf64 => {
            write_fixed(out, Size::Four, 0xffff_ffff)?;
            write_fixed(out, Size::Eight, length)?;
            Ok(())
        }
    }
}

/// Appends a table of this format with these bytes in front of the program.
///
/// # Errors
///
/// `DoesNotFit` if the length is too great for the format; or out of memory.
pub(crate) fn write_table(
    out: &mut Vec<u8>,
    format: Format,
    front: &[u8],
    program: &[u8],
) -> Result<(), DebugError>
    ensures adds { OnOk result
        (AddsUnit format (front.now ++ program.now) out.old.items out.new.items) }
    ensures errors { IfErr result IsOfWritingOfLines }
    ensures unfit { result ≡ Err (Fault DoesNotFit)
        → 0xffff_fff0 ≤ (length front.now + length program.now) }
{
    let Some(length) = front.len().checked_add(program.len()) else {
        return Err(DebugError::Fault(DebugFault::DoesNotFit));
    };
    write_length(out, format, length as u64)?;
    out.extend_from_slice(front)?;
    out.extend_from_slice(program)?;
    Ok(())
}
