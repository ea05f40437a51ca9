//! Numbers that are replaced where they are.

ghost use Rattle.std.specs.Prelude.{◌≡◌, ◌⊎◌, Ok, Err, IfOk, IfErr, OnOk, ◌<◌, ◌≤◌, ◌+◌, ◌-◌, length};
ghost use Rattle.dwarf_bytes.specs.Numbers.{size_in_bytes, fixed_number};
ghost use Rattle.wasm_numbers.specs.Results.{Gives};
ghost use Rattle.dwarf_bytes.specs.declared.fault.DebugFault.{DebugFault as AFault};
ghost use Rattle.dwarf_bytes.specs.declared.fault.DebugError.TheVariants.{Memory, Fault};
ghost use Rattle.dwarf_bytes.specs.Patches.{changes};
ghost use Rattle.dwarf.specs.Replacing.{number_replaced, distance_replaced, section_with, unit_followed};

use dwarf_bytes::{Cursor, DebugError, DebugFault, Patches, Size, write_sized};
use dwarf_info::{moved_distance, moved_offset};
use std::alloc::Global;

/// Reads the number of this size at the front. Returns its place, too.
///
/// # Errors
///
/// `Truncated`.
pub(crate) fn read_placed(input: &mut Cursor<'_>, size: Size) -> Result<(usize, u64), DebugFault>
    ensures gives { Gives (λ x. (x.1, input.new.rest.now)) result (fixed_number (size_in_bytes size) input.old.rest.now) }
    ensures place { IfOk result (λ x. x.0 ≡ input.old.end - length input.old.rest.now) }
    ensures fits { IfOk result (λ x. x.0 + size_in_bytes size ≤ usize.MAX) }
    ensures end { input.new.end ≡ input.old.end }
    ensures shorter { OnOk result (length input.new.rest.now < length input.old.rest.now) }
{
    let _end = input.end();
    let at = input.at();
    let number = input.sized(size)?;
    Ok((at, number))
}

/// Replaces a number of this size at this place, if it changes.
///
/// # Errors
///
/// `DoesNotFit` if the new number is too great; those of `push`.
pub(crate) fn replace_number(
    at: usize,
    size: Size,
    old: u64,
    new: u64,
    scratch: &mut Vec<u8>,
    out: &mut Patches,
) -> Result<(), DebugError>
    requires { at + size_in_bytes size ≤ usize.MAX }
    ensures replaced { OnOk result (number_replaced at size old new (changes out.old) ≡ Ok (changes out.new)) }
    ensures refused { IfErr result (λ e. (e ≡ Memory) ⊎ ((fault : AFault) × (e ≡ Fault fault)
        × (number_replaced at size old new (changes out.old) ≡ Err fault))) }
{
    if old == new {
        return Ok(());
    }
    scratch.clear();
    write_sized(scratch, size, new)?;
    out.push(at, size.bytes(), scratch)
}

/// Replaces a distance from a place of `.debug_info`, of which these parts are replaced, by the new one.
///
/// # Errors
///
/// `BadOffset` if it is of no place; those of `replace_number`.
pub(crate) fn replace_distance(
    info: &Patches,
    start: usize,
    place: (usize, Size),
    distance: u64,
    scratch: &mut Vec<u8>,
    out: &mut Patches,
) -> Result<(), DebugError>
    requires { place.0 + size_in_bytes place.1 ≤ usize.MAX }
    ensures replaced { OnOk result (distance_replaced (changes info.now) start place.0 place.1 distance (changes out.old) ≡ Ok (changes out.new)) }
    ensures refused { IfErr result (λ e. (e ≡ Memory) ⊎ ((fault : AFault) × (e ≡ Fault fault)
        × (distance_replaced (changes info.now) start place.0 place.1 distance (changes out.old) ≡ Err fault))) }
{
    let (at, size) = place;
    let new = moved_distance(info, start, distance)?;
    replace_number(at, size, distance, new, scratch, out)
}

/// The section in which these parts are replaced.
pub(crate) fn replaced(alloc: Global, section: &[u8], out: &Patches) -> Result<Vec<u8>, DebugError>
    ensures replaced { IfOk result (λ bytes. section_with (changes out.now) section.now ≡ Ok bytes.items) }
    ensures refused { IfErr result (λ e. (e ≡ Memory) ⊎ ((fault : AFault) × (e ≡ Fault fault)
        × (section_with (changes out.now) section.now ≡ Err fault))) }
{
    out.apply(alloc, section)
}

/// Moves the offset of a unit at the front, where these parts of `.debug_info` are replaced. Returns the old one.
pub(crate) fn follow_unit_offset(
    input: &mut Cursor<'_>,
    size: Size,
    info: &Patches,
    scratch: &mut Vec<u8>,
    out: &mut Patches,
) -> Result<u64, DebugError>
    ensures followed { IfOk result (λ unit. unit_followed (changes info.now) size input.old.end input.old.rest.now (changes out.old)
        ≡ Ok ((unit, changes out.new), input.new.rest.now)) }
    ensures refused { IfErr result (λ e. (e ≡ Memory) ⊎ ((fault : AFault) × (e ≡ Fault fault)
        × (unit_followed (changes info.now) size input.old.end input.old.rest.now (changes out.old) ≡ Err fault))) }
    ensures end { input.new.end ≡ input.old.end }
    ensures shorter { OnOk result (length input.new.rest.now < length input.old.rest.now) }
{
    let (at, unit) = read_placed(input, size)?;
    replace_number(at, size, unit, moved_offset(info, unit), scratch, out)?;
    Ok(unit)
}
