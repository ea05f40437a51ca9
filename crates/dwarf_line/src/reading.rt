//! Reading operations (DWARF 5, sections 6.2.5 and 7.22).

ghost use Rattle.std.specs.Prelude.{◌≡◌, ◌<◌, ◌≤◌, length, IfOk};
ghost use Rattle.wasm_numbers.specs.Results.{Gives};
ghost use Rattle.dwarf_line.specs.Operations.{numbers, standard, is_all, set_address, extended, extended_operation, line_operation as an_operation};
ghost use Rattle.dwarf_line.specs.Views.{parameters};
ghost use Rattle.dwarf_line.specs.Written.{IsSound};

use crate::header::Header;
use crate::opcodes::{
    DW_LNE_END_SEQUENCE, DW_LNE_SET_ADDRESS, DW_LNE_SET_DISCRIMINATOR, DW_LNS_ADVANCE_LINE,
    DW_LNS_ADVANCE_PC, DW_LNS_CONST_ADD_PC, DW_LNS_COPY, DW_LNS_FIXED_ADVANCE_PC,
    DW_LNS_NEGATE_STMT, DW_LNS_SET_BASIC_BLOCK, DW_LNS_SET_COLUMN, DW_LNS_SET_EPILOGUE_BEGIN,
    DW_LNS_SET_FILE, DW_LNS_SET_ISA, DW_LNS_SET_PROLOGUE_END, EXTENDED,
};
use crate::operation::{AddressSize, Change, Operation};
use dwarf_bytes::{
    DebugFault, read_signed, read_u8, read_u16, read_u32, read_u64, read_unsigned, split,
};

/// The bytes after this many numbers.
#[tactic(auto, using(crate::proofs::NumberLemmas::number_steps))]
fn skip_numbers(count: u8, bytes: &[u8]) -> Result<&[u8], DebugFault>
    ensures { Gives (λ x. (tt, x.now)) result (numbers count bytes.now) }
{
    let mut rest = bytes;
    for _ in 0..count {
        let (_, following) = read_unsigned(rest)?;
        rest = following;
    }
    Ok(rest)
}

/// Reads what follows a standard opcode.
fn read_standard<'a>(
    header: &Header<'_>,
    opcode: u8,
    bytes: &'a [u8],
) -> Result<(Operation, &'a [u8]), DebugFault>
    requires some { 0 < opcode }
    requires below { opcode < header.now.opcode_base }
    ensures { Gives (λ x. (x.0, x.1.now)) result (standard (parameters header.now) opcode bytes.now) }
{
    match opcode {
        DW_LNS_COPY => Ok((Operation::AppendRow, bytes)),
        DW_LNS_ADVANCE_PC => {
            let (distance, rest) = read_unsigned(bytes)?;
            Ok((Operation::Advance(distance), rest))
        }
        DW_LNS_ADVANCE_LINE => {
            let (lines, rest) = read_signed(bytes)?;
            Ok((Operation::Changes(Change::AdvanceLine(lines)), rest))
        }
        DW_LNS_SET_FILE => {
            let (file, rest) = read_unsigned(bytes)?;
            Ok((Operation::Changes(Change::File(file)), rest))
        }
        DW_LNS_SET_COLUMN => {
            let (column, rest) = read_unsigned(bytes)?;
            Ok((Operation::Changes(Change::Column(column)), rest))
        }
        DW_LNS_NEGATE_STMT => Ok((Operation::Changes(Change::NegateStatement), bytes)),
        DW_LNS_SET_BASIC_BLOCK => Ok((Operation::Changes(Change::BasicBlock), bytes)),
        DW_LNS_CONST_ADD_PC => Ok((Operation::Advance(header.widest_advance()), bytes)),
        DW_LNS_FIXED_ADVANCE_PC => {
            let (distance, rest) = read_u16(bytes)?;
            Ok((Operation::Advance(distance as u64), rest))
        }
        DW_LNS_SET_PROLOGUE_END => Ok((Operation::Changes(Change::PrologueEnd), bytes)),
        DW_LNS_SET_EPILOGUE_BEGIN => Ok((Operation::Changes(Change::EpilogueBegin), bytes)),
        DW_LNS_SET_ISA => {
            let (set, rest) = read_unsigned(bytes)?;
            Ok((Operation::Changes(Change::InstructionSet(set)), rest))
        }
        _ => {
            let count = header.operand_counts[opcode as usize - 1];
            let rest = skip_numbers(count, bytes)?;
            Ok((Operation::Changes(Change::Nothing), rest))
        }
    }
}

/// The operation, if no bytes follow it.
fn whole(operation: Operation, rest: &[u8]) -> Result<Operation, DebugFault>
    ensures { Gives (λ x. x) result (is_all (operation, rest.now)) }
{
    match rest {
        [] => Ok(operation),
        _ => Err(DebugFault::BadLength),
    }
}

/// The operation that sets the address to the one that the bytes are.
fn read_set_address(bytes: &[u8]) -> Result<Operation, DebugFault>
    ensures { Gives (λ x. x) result (set_address bytes.now) }
{
    match bytes.len() {
        4 => {
            let (address, rest) = read_u32(bytes)?;
            whole(
                Operation::SetAddress(AddressSize::Four, address as u64),
                rest,
            )
        }
        8 => {
            let (address, rest) = read_u64(bytes)?;
            whole(Operation::SetAddress(AddressSize::Eight, address), rest)
        }
        _ => Err(DebugFault::BadLength),
    }
}

/// The extended operation that all of the bytes are.
fn read_extended(bytes: &[u8]) -> Result<Operation, DebugFault>
    ensures { Gives (λ x. x) result (extended bytes.now) }
{
    let [opcode, operands @ ..] = bytes else {
        return Err(DebugFault::BadLength);
    };
    match *opcode {
        DW_LNE_END_SEQUENCE => whole(Operation::EndSequence, operands),
        DW_LNE_SET_ADDRESS => read_set_address(operands),
        DW_LNE_SET_DISCRIMINATOR => {
            let (discriminator, rest) = read_unsigned(operands)?;
            whole(
                Operation::Changes(Change::Discriminator(discriminator)),
                rest,
            )
        }
        _ => Ok(Operation::Changes(Change::Nothing)),
    }
}

/// Reads an extended operation after its first byte.
fn read_extended_operation(bytes: &[u8]) -> Result<(Operation, &[u8]), DebugFault>
    ensures { Gives (λ x. (x.0, x.1.now)) result (extended_operation bytes.now) }
{
    let (size, rest) = read_unsigned(bytes)?;
    let (part, rest) = split(rest, size)?;
    let operation = read_extended(part)?;
    Ok((operation, rest))
}

/// Reads an operation at the front. Returns it and the bytes that follow.
#[tactic(auto, unfolding(crate::specs::Operations::line_operation))]
fn read_any<'a>(header: &Header<'_>, bytes: &'a [u8]) -> Result<(Operation, &'a [u8]), DebugFault>
    ensures gives { Gives (λ x. (x.0, x.1.now)) result (an_operation (parameters header.now)
        bytes.now) }
    ensures sound { IfOk result (λ x. IsSound (parameters header.now) x.0) }
{
    let (opcode, rest) = read_u8(bytes)?;
    if opcode == EXTENDED {
        read_extended_operation(rest)
    } else if header.opcode_base <= opcode {
        Ok((Operation::Special(opcode), rest))
    } else {
        read_standard(header, opcode, rest)
    }
}

/// Reads an operation at the front. Returns it and the bytes that follow.
///
/// # Errors
///
/// `Truncated` or `BadNumber` for a number that can't be read; `BadLength` if an extended operation is longer than the
/// program, or isn't as long as its operands.
pub(crate) fn read_operation<'a>(
    header: &Header<'_>,
    bytes: &'a [u8],
) -> Result<(Operation, &'a [u8]), DebugFault>
    ensures gives { Gives (λ x. (x.0, x.1.now)) result (an_operation (parameters header.now)
        bytes.now) }
    ensures sound { IfOk result (λ x. IsSound (parameters header.now) x.0) }
    ensures shorter { IfOk result (λ x. length x.1.now < length bytes.now) }
{
    read_any(header, bytes)
}
