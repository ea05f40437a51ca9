//! Writing operations that move the address.

ghost use Rattle.std.specs.Prelude.{◌≡◌, ◌+◌, ◌*◌, ◌^◌, ◌<◌, ◌≤◌, ◌∷◌, ◌++◌, [], OnOk, IfErr, IfSome, IfNone, Err};
ghost use Rattle.dwarf_bytes.specs.declared.fault.DebugError.TheVariants.{Fault};
ghost use Rattle.dwarf_bytes.specs.declared.fault.DebugFault.TheVariants.{DoesNotFit};
ghost use Rattle.dwarf_bytes.specs.Numbers.{size_in_bytes};
ghost use Rattle.dwarf_bytes.specs.Writing.{fixed_bytes};
ghost use Rattle.dwarf_line.specs.LineProgram.{Parameters};
ghost use Rattle.dwarf_line.specs.Refusals.{IsOfWritingOfLines};
ghost use Rattle.dwarf_line.specs.Views.{parameters};
ghost use Rattle.dwarf_line.specs.Written.{AddsOfLines, AddsAdvance, Is, AddsSpecial};
ghost use Rattle.dwarf_line.specs.declared.operation.Operation.TheVariants.{SetAddress};

use crate::header::Header;
use crate::opcodes::{DW_LNE_SET_ADDRESS, DW_LNS_ADVANCE_PC, DW_LNS_CONST_ADD_PC, EXTENDED};
use crate::operation::AddressSize;
use dwarf_bytes::{DebugError, DebugFault, Size, write_padded, write_sized};
use std::alloc::AllocError;

/// Appends a number of this size.
///
/// # Errors
///
/// `DoesNotFit` if it is too great; or out of memory.
pub(crate) fn write_fixed(out: &mut Vec<u8>, size: Size, number: u64) -> Result<(), DebugError>
    ensures written { OnOk result (out.new.items
        ≡ out.old.items ++ fixed_bytes (size_in_bytes size) number) }
    ensures fits { OnOk result (number < 256 ^ size_in_bytes size) }
    ensures errors { IfErr result IsOfWritingOfLines }
    ensures unfit { result ≡ Err (Fault DoesNotFit) → 256 ^ size_in_bytes size ≤ number }
{
    match write_sized(out, size, number) {
        Ok(()) => Ok(()),
        Err(DebugError::Fault(DebugFault::DoesNotFit)) => {
            Err(DebugError::Fault(DebugFault::DoesNotFit))
        }
        Err(_) => Err(DebugError::Memory),
    }
}

/// Appends `DW_LNE_set_address`.
pub(crate) fn write_set_address(
    out: &mut Vec<u8>,
    size: AddressSize,
    address: u64,
) -> Result<(), DebugError>
    ensures adds { OnOk result ((p : Parameters)
        → AddsOfLines p out.old.items out.new.items (SetAddress size address ∷ []) []) }
    ensures errors { IfErr result IsOfWritingOfLines }
{
    out.extend_from_slice(&[EXTENDED, size.bytes() + 1, DW_LNE_SET_ADDRESS])?;
    write_fixed(out, size.size(), address)?;
    Ok(())
}

/// Appends what advances the address by this distance.
pub(crate) fn write_advance(
    out: &mut Vec<u8>,
    header: &Header<'_>,
    distance: u64,
) -> Result<(), AllocError>
    ensures { OnOk result
        (AddsAdvance (parameters header.now) out.old.items out.new.items distance) }
{
    if distance == 0 {
        return Ok(());
    }
    if distance == header.widest_advance() {
        out.push(DW_LNS_CONST_ADD_PC)?;
        return Ok(());
    }
    out.push(DW_LNS_ADVANCE_PC)?;
    write_padded(out, distance, 1)?;
    Ok(())
}

/// The special opcode with these advances, if there is one.
fn special_opcode(header: &Header<'_>, line: u8, distance: u64) -> Option<u8>
    requires { line < header.now.line_range }
    ensures some { IfSome result (Is (parameters header.now) line distance) }
    ensures none { IfNone result
        (255 < header.now.opcode_base + line + distance * header.now.line_range) }
{
    if distance > header.widest_advance() {
        return None;
    }
    let opcode = header.opcode_base as u64 + line as u64 + distance * header.line_range as u64;
    if opcode < 256 {
        Some(opcode as u8)
    } else {
        None
    }
}

/// Appends a special opcode with this line advance that advances the address by this distance, and operations in front of
/// it where it needs them.
pub(crate) fn write_special(
    out: &mut Vec<u8>,
    header: &Header<'_>,
    line: u8,
    distance: u64,
) -> Result<(), AllocError>
    requires least { line < header.now.line_range }
    requires fits { line + header.now.opcode_base < 256 }
    ensures { OnOk result
        (AddsSpecial (parameters header.now) out.old.items out.new.items line distance) }
{
    if let Some(opcode) = special_opcode(header, line, distance) {
        out.push(opcode)?;
        return Ok(());
    }
    let widest = header.widest_advance();
    if distance >= widest {
        if let Some(opcode) = special_opcode(header, line, distance - widest) {
            out.extend_from_slice(&[DW_LNS_CONST_ADD_PC, opcode])?;
            return Ok(());
        }
    }
    out.push(DW_LNS_ADVANCE_PC)?;
    write_padded(out, distance, 1)?;
    out.push(header.opcode_base + line)?;
    Ok(())
}
