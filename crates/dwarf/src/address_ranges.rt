//! The addresses that units have (DWARF 4, section 6.1.2). Memory is in the same tables, under the same numbers: an
//! address is one of code where a function of the unit begins there, and has as many bytes.

ghost use Rattle.std.specs.Prelude.{◌≡◌, ◌<◌, ◌≤◌, ◌⊎◌, ◌+◌, ◌-◌, ◌*◌, Bool, length, Ok, Err, IfOk, IfErr, OnOk};
ghost use Rattle.std.specs.List.{list_any, AllWithin};
ghost use Rattle.std.specs.List.Sorted.{IsNonDecreasingBy};
ghost use Rattle.wasm_numbers.specs.Results.{Gives};
ghost use Rattle.dwarf_bytes.specs.declared.fault.DebugFault.{DebugFault as AFault};
ghost use Rattle.dwarf_bytes.specs.declared.fault.DebugError.TheVariants.{Memory, Fault};
ghost use Rattle.dwarf_bytes.specs.Numbers.{size_in_bytes, offset_size};
ghost use Rattle.dwarf_bytes.specs.Patches.{changes};
ghost use Rattle.dwarf_info.specs.declared.moved.CodeRange.{CodeRange as ARange};
ghost use Rattle.dwarf.specs.AddressRanges.{is_range_of, has_code, range_moved, range_replaced, unit_range_replaced, range_followed, padding_of_ranges, size_of_ranges, ranges_of_part_followed, ranges_table_followed, address_ranges_followed, code_followed};
ghost use Rattle.dwarf.specs.RangesViews.{ranges_following};
ghost use Rattle.dwarf.specs.Replacing.{each_replaced};

use crate::replacing::{follow_unit_offset, read_placed, replaced};
use code_moves::Moves;
use dwarf_bytes::{Cursor, DebugError, DebugFault, Format, Patches, Size, write_sized};
use dwarf_info::CodeRange;
use std::alloc::{AllocError, Global};

/// What the ranges of units follow.
#[derive(Clone, Copy)]
struct Ranges<'a> {
    /// The code that functions and units have, by ascending addresses.
    code: &'a [CodeRange],
    /// What is replaced in `.debug_info`.
    info: &'a Patches,
    /// Where the code goes.
    moves: &'a Moves,
}

/// The code of functions and units, by ascending addresses.
fn sorted_code(alloc: Global, code: &[CodeRange]) -> Result<Vec<CodeRange>, AllocError>
    ensures sorted { IfOk result (λ v. IsNonDecreasingBy (λ (r : ARange). r.begin) v.items) }
    ensures same { IfOk result (λ v. (p : ARange → Bool) → list_any p v.items ≡ list_any p code.now) }
{
    let mut sorted = Vec::new(alloc);
    sorted.extend_from_slice(code)?;
    sorted.sort_by_key(|range: &CodeRange| range.begin)?;
    Ok(sorted)
}

// whether this is the same range
fn is_same(range: &CodeRange, other: &CodeRange) -> bool
    ensures { result ≡ is_range_of range.now.unit range.now.begin range.now.length other.now }
{
    other.unit == range.unit && (other.begin == range.begin && other.length == range.length)
}

// the place of the first code that begins there, or after it
fn first_from(code: &[CodeRange], begin: u64) -> usize
    requires { IsNonDecreasingBy (λ (r : ARange). r.begin) code.now }
    ensures before { AllWithin (λ (r : ARange). r.begin < begin) code.now 0 result }
    ensures others { AllWithin (λ (r : ARange). begin ≤ r.begin) code.now result (length code.now) }
{
    code.partition_point(|range| range.begin < begin)
}

/// Whether a range is one of this code, by ascending addresses.
fn has_code(code: &[CodeRange], range: &CodeRange) -> bool
    requires { IsNonDecreasingBy (λ (r : ARange). r.begin) code.now }
    ensures { result ≡ has_code code.now range.now.unit range.now.begin range.now.length }
{
    let mut at = first_from(code, range.begin);
    'same: while at < code.len() && code[at].begin == range.begin {
        if is_same(range, &code[at]) {
            return true;
        }
        at += 1;
    }
    false
}

/// Where code goes: its new first address and its new length. None if it begins in no body.
fn moved_range(moves: &Moves, begin: u64, length: u64) -> Result<Option<(u64, u64)>, DebugFault>
    ensures { result ≡ range_moved moves.now.bodies.items begin length }
{
    let Some(new_begin) = moves.address(begin) else {
        return Ok(None);
    };
    let Some(end) = begin.checked_add(length) else {
        return Err(DebugFault::Unsupported);
    };
    let Some(new_end) = moves.address(end) else {
        return Err(DebugFault::Unsupported);
    };
    match new_end.checked_sub(new_begin) {
        Some(length) => Ok(Some((new_begin, length))),
        None => Err(DebugFault::Unsupported),
    }
}

/// Replaces a range at this place.
fn replace_range(
    at: usize,
    size: Size,
    range: (u64, u64),
    scratch: &mut Vec<u8>,
    out: &mut Patches,
) -> Result<(), DebugError>
    requires { at + 2 * size_in_bytes size ≤ usize.MAX }
    ensures replaced { OnOk result (range_replaced at size (Some range) (changes out.old) ≡ Ok (changes out.new)) }
    ensures refused { IfErr result (λ e. (e ≡ Memory) ⊎ ((fault : AFault) × (e ≡ Fault fault)
        × (range_replaced at size (Some range) (changes out.old) ≡ Err fault))) }
{
    let (begin, length) = range;
    scratch.clear();
    write_sized(scratch, size, begin)?;
    write_sized(scratch, size, length)?;
    out.push(at, 2 * size.bytes(), scratch)
}

/// How many bytes are between the header of a table and its first range, which begins at a multiple of a range's size.
fn padding(format: Format, size: Size) -> u64
    ensures { result ≡ padding_of_ranges format size }
{
    let header: u64 = match format {
        Format::Dwarf32 => 12,
        Format::Dwarf64 => 24,
    };
    let range = 2 * size.bytes() as u64;
    (range - header % range) % range
}

/// Reads the size of an address, and what else is in front of the ranges of a table.
///
/// # Errors
///
/// `Truncated` or `BadLength`; `Unsupported` if addresses have neither four nor eight bytes, or if there are segments.
fn read_size(input: &mut Cursor<'_>, format: Format) -> Result<Size, DebugFault>
    ensures gives { Gives (λ x. (x, input.new.rest.now)) result (size_of_ranges format input.old.rest.now) }
    ensures end { input.new.end ≡ input.old.end }
{
    let size = match input.sized(Size::One)? {
        4 => Size::Four,
        8 => Size::Eight,
        _ => return Err(DebugFault::Unsupported),
    };
    if input.sized(Size::One)? != 0 {
        return Err(DebugFault::Unsupported);
    }
    input.part(padding(format, size))?;
    Ok(size)
}

impl Ranges<'_> {
    /// Moves a range of the unit that is at this place, if it is one of its code.
    fn follow_unit_range(
        &self,
        place: (usize, Size),
        range: &CodeRange,
        scratch: &mut Vec<u8>,
        out: &mut Patches,
    ) -> Result<(), DebugError>
        requires sorted { IsNonDecreasingBy (λ (r : ARange). r.begin) self.now.code.now }
        requires fits { place.0 + 2 * size_in_bytes place.1 ≤ usize.MAX }
        ensures followed { OnOk result (unit_range_replaced (ranges_following self.now) range.now.unit place.0 place.1 range.now.begin range.now.length
            (changes out.old) ≡ Ok (changes out.new)) }
        ensures refused { IfErr result (λ e. (e ≡ Memory) ⊎ ((fault : AFault) × (e ≡ Fault fault)
            × (unit_range_replaced (ranges_following self.now) range.now.unit place.0 place.1 range.now.begin range.now.length
            (changes out.old) ≡ Err fault))) }
    {
        if !has_code(self.code, range) {
            return Ok(());
        }
        let (at, size) = place;
        let Some(new) = moved_range(self.moves, range.begin, range.length)? else {
            return Ok(());
        };
        replace_range(at, size, new, scratch, out)
    }

    /// Moves the next range of a table of this unit.
    fn follow_range(
        &self,
        unit: u64,
        size: Size,
        input: &mut Cursor<'_>,
        scratch: &mut Vec<u8>,
        out: &mut Patches,
    ) -> Result<(), DebugError>
        requires { IsNonDecreasingBy (λ (r : ARange). r.begin) self.now.code.now }
        ensures followed { OnOk result (range_followed (ranges_following self.now) unit size input.old.end input.old.rest.now (changes out.old)
            ≡ Ok (changes out.new, input.new.rest.now)) }
        ensures refused { IfErr result (λ e. (e ≡ Memory) ⊎ ((fault : AFault) × (e ≡ Fault fault)
            × (range_followed (ranges_following self.now) unit size input.old.end input.old.rest.now (changes out.old) ≡ Err fault))) }
        ensures end { input.new.end ≡ input.old.end }
        ensures shorter { OnOk result (length input.new.rest.now < length input.old.rest.now) }
    {
        let _end = input.end();
        let at = input.at();
        let begin = input.sized(size)?;
        let length = input.sized(size)?;
        let range = CodeRange {
            unit,
            begin,
            length,
        };
        self.follow_unit_range((at, size), &range, scratch, out)
    }

    /// Moves the ranges of a table of this unit.
    fn follow_ranges(
        &self,
        unit: u64,
        size: Size,
        input: &mut Cursor<'_>,
        scratch: &mut Vec<u8>,
        out: &mut Patches,
    ) -> Result<(), DebugError>
        requires { IsNonDecreasingBy (λ (r : ARange). r.begin) self.now.code.now }
        ensures followed { OnOk result (each_replaced (range_followed (ranges_following self.now) unit size input.old.end) input.old.rest.now
            (changes out.old) ≡ Ok (changes out.new)) }
        ensures refused { IfErr result (λ e. (e ≡ Memory) ⊎ ((fault : AFault) × (e ≡ Fault fault)
            × (each_replaced (range_followed (ranges_following self.now) unit size input.old.end) input.old.rest.now
            (changes out.old) ≡ Err fault))) }
    {
        'each: while !input.is_empty() {
            self.follow_range(unit, size, input, scratch, out)?;
        }
        Ok(())
    }

    /// Moves the offset of the unit and the ranges of a table, from its version on.
    fn follow_part(
        &self,
        format: Format,
        input: &mut Cursor<'_>,
        scratch: &mut Vec<u8>,
        out: &mut Patches,
    ) -> Result<(), DebugError>
        requires { IsNonDecreasingBy (λ (r : ARange). r.begin) self.now.code.now }
        ensures followed { OnOk result (ranges_of_part_followed (ranges_following self.now) format input.old.end input.old.rest.now (changes out.old)
            ≡ Ok (changes out.new)) }
        ensures refused { IfErr result (λ e. (e ≡ Memory) ⊎ ((fault : AFault) × (e ≡ Fault fault)
            × (ranges_of_part_followed (ranges_following self.now) format input.old.end input.old.rest.now (changes out.old) ≡ Err fault))) }
    {
        if input.sized(Size::Two)? != 2 {
            return Err(DebugError::Fault(DebugFault::UnknownVersion));
        }
        let unit = follow_unit_offset(input, format.offset_size(), self.info, scratch, out)?;
        let size = read_size(input, format)?;
        self.follow_ranges(unit, size, input, scratch, out)
    }

    /// Moves the next table.
    fn follow_table(
        &self,
        input: &mut Cursor<'_>,
        scratch: &mut Vec<u8>,
        out: &mut Patches,
    ) -> Result<(), DebugError>
        requires { IsNonDecreasingBy (λ (r : ARange). r.begin) self.now.code.now }
        ensures followed { OnOk result (ranges_table_followed (ranges_following self.now) input.old.end input.old.rest.now (changes out.old)
            ≡ Ok (changes out.new, input.new.rest.now)) }
        ensures refused { IfErr result (λ e. (e ≡ Memory) ⊎ ((fault : AFault) × (e ≡ Fault fault)
            × (ranges_table_followed (ranges_following self.now) input.old.end input.old.rest.now (changes out.old) ≡ Err fault))) }
        ensures end { input.new.end ≡ input.old.end }
        ensures shorter { OnOk result (length input.new.rest.now < length input.old.rest.now) }
    {
        let (format, length) = input.initial_length()?;
        let mut part = input.part(length)?;
        self.follow_part(format, &mut part, scratch, out)
    }

    /// Moves all tables of the section.
    fn follow_tables(&self, alloc: Global, section: &[u8]) -> Result<Vec<u8>, DebugError>
        requires { IsNonDecreasingBy (λ (r : ARange). r.begin) self.now.code.now }
        ensures followed { IfOk result (λ bytes. address_ranges_followed (ranges_following self.now) section.now ≡ Ok bytes.items) }
        ensures refused { IfErr result (λ e. (e ≡ Memory) ⊎ ((fault : AFault) × (e ≡ Fault fault)
            × (address_ranges_followed (ranges_following self.now) section.now ≡ Err fault))) }
    {
        let mut out = Patches::new(alloc);
        let mut scratch = Vec::new(alloc);
        let mut input = Cursor::new(section);
        'tables: while !input.is_empty() {
            self.follow_table(&mut input, &mut scratch, &mut out)?;
        }
        replaced(alloc, section, &out)
    }
}

/// What becomes of the section, where units have this code, and these parts of `.debug_info` are replaced.
///
/// # Errors
///
/// The first fault of a table: `Truncated`, `BadLength`, `UnknownVersion`; `Unsupported` for addresses of neither four nor eight bytes, for
/// segments, and for code that begins in a body and doesn't end in one; `DoesNotFit` if a new number is too great. Out of memory.
pub fn move_address_ranges(
    alloc: Global,
    section: &[u8],
    code: &[CodeRange],
    info: &Patches,
    moves: &Moves,
) -> Result<Vec<u8>, DebugError>
    ensures followed { IfOk result (λ bytes. code_followed moves.now.bodies.items code.now (changes info.now) section.now ≡ Ok bytes.items) }
    ensures refused { IfErr result (λ e. (e ≡ Memory) ⊎ ((fault : AFault) × (e ≡ Fault fault)
        × (code_followed moves.now.bodies.items code.now (changes info.now) section.now ≡ Err fault))) }
{
    let sorted = sorted_code(alloc, code)?;
    let ranges = Ranges {
        code: &sorted,
        info,
        moves,
    };
    ranges.follow_tables(alloc, section)
}
