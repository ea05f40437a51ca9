//! Writing numbers.

ghost use Rattle.std.specs.Prelude.{◌≡◌, ◌≢◌, ◌<◌, ◌^◌, ◌≤◌, ◌⊎◌, ◌++◌, OnOk, IfErr};
ghost use Rattle.dwarf_bytes.specs.Numbers.{size_in_bytes};
ghost use Rattle.dwarf_bytes.specs.Writing.{fixed_bytes, leb, padded};
ghost use Rattle.dwarf_bytes.specs.declared.fault.DebugFault.TheVariants as faults;
ghost use Rattle.dwarf_bytes.specs.declared.fault.DebugError.TheVariants.{Memory, Fault};

use crate::fault::{DebugError, DebugFault};
use crate::size::Size;
use std::alloc::AllocError;

/// Appends a number as this many bytes.
#[tactic(auto, using(crate::proofs::Appending::appending))]
fn write_bytes(out: &mut Vec<u8>, count: usize, value: u64) -> Result<(), AllocError>
    ensures { OnOk result (out.new.items ≡ out.old.items ++ fixed_bytes count value) }
{
    if count == 0 {
        return Ok(());
    }
    out.push((value % 256) as u8)?;
    write_bytes(out, count - 1, value / 256)
}

/// Appends a number in this size.
///
/// # Errors
///
/// `DoesNotFit` if it is too great, and then nothing is appended; or out of memory.
pub fn write_sized(out: &mut Vec<u8>, size: Size, value: u64) -> Result<(), DebugError>
    ensures written { OnOk result (out.new.items
        ≡ out.old.items ++ fixed_bytes (size_in_bytes size) value) }
    ensures fits { OnOk result (value < 256 ^ size_in_bytes size) }
    ensures refused { IfErr result (λ e. (e ≡ Memory)
        ⊎ ((e ≡ Fault faults.DoesNotFit) × (256 ^ size_in_bytes size ≤ value)
        × (out.new.items ≡ out.old.items))) }
{
    if value > size.greatest() {
        return Err(DebugError::Fault(DebugFault::DoesNotFit));
    }
    write_bytes(out, size.bytes(), value)?;
    Ok(())
}

/// Appends a number in LEB128, of at most this many bytes in front of the last one.
#[tactic(auto, using(crate::proofs::Appending::appending), unfolding(crate::specs::Writing::leb))]
fn write_leb(out: &mut Vec<u8>, more: usize, width: usize, value: u64) -> Result<(), AllocError>
    ensures { OnOk result (out.new.items ≡ out.old.items ++ leb more width value) }
{
    if more == 0 {
        out.push((value % 128) as u8)?;
        return Ok(());
    }
    if value < 128 && width <= 1 {
        out.push(value as u8)?;
        return Ok(());
    }
    out.push((value % 128) as u8 + 128)?;
    write_leb(out, more - 1, width.saturating_sub(1), value / 128)
}

/// Appends a number in LEB128 (DWARF 5, section 7.6), in this many bytes, but in at most ten; or in as many as it needs, if
/// these are more. It is read as this number, whatever follows.
///
/// # Errors
///
/// Out of memory.
pub fn write_padded(out: &mut Vec<u8>, value: u64, width: usize) -> Result<(), AllocError>
    ensures { OnOk result (out.new.items ≡ out.old.items ++ padded width value) }
{
    write_leb(out, 9, width, value)
}
