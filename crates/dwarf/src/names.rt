//! Where the entries of names are (DWARF 4, section 6.1.1).

ghost use Rattle.std.specs.Prelude.{◌≡◌, ◌<◌, ◌≤◌, ◌⊎◌, [], length, Ok, Err, IfOk, IfErr, OnOk, if◌then◌else◌};
ghost use Rattle.wasm_numbers.specs.Results.{Gives};
ghost use Rattle.dwarf_bytes.specs.declared.fault.DebugFault.{DebugFault as AFault};
ghost use Rattle.dwarf_bytes.specs.declared.fault.DebugError.TheVariants.{Memory, Fault};
ghost use Rattle.dwarf_bytes.specs.Patches.{changes};
ghost use Rattle.dwarf.specs.Names.{name_of_entry, name_followed, names_of_unit_followed, names_of_part_followed, names_table_followed, names_followed};
ghost use Rattle.dwarf.specs.NamesViews.{names_of_unit};
ghost use Rattle.dwarf.specs.Replacing.{each_replaced};

use crate::replacing::{follow_unit_offset, read_placed, replace_distance, replaced};
use dwarf_bytes::{Cursor, DebugError, DebugFault, Patches, Size};
use std::alloc::Global;

/// How the names of a unit follow.
#[derive(Clone, Copy)]
struct Names<'p> {
    /// What is replaced in `.debug_info`.
    info: &'p Patches,
    /// The offset of the unit.
    unit: usize,
    /// The size of offsets.
    size: Size,
    /// Whether a byte is between the offset of an entry and its name.
    is_gnu: bool,
}

/// Reads what follows the offset of an entry, and returns its name.
fn read_name<'a>(input: &mut Cursor<'a>, is_gnu: bool) -> Result<&'a [u8], DebugFault>
    ensures gives { Gives (λ x. (x.now, input.new.rest.now)) result (name_of_entry is_gnu input.old.rest.now) }
    ensures end { input.new.end ≡ input.old.end }
    ensures shorter { length input.new.rest.now ≤ length input.old.rest.now }
{
    if is_gnu {
        input.byte()?;
    }
    input.terminated()
}

impl Names<'_> {
    /// Moves the offset of an entry. Returns whether there is one: a zero in its place ends them.
    fn follow_entry(
        &self,
        input: &mut Cursor<'_>,
        scratch: &mut Vec<u8>,
        out: &mut Patches,
    ) -> Result<bool, DebugError>
        ensures followed { IfOk result (λ more. name_followed (names_of_unit self.now input.old.end) input.old.rest.now (changes out.old)
            ≡ Ok (changes out.new, if more then input.new.rest.now else [])) }
        ensures refused { IfErr result (λ e. (e ≡ Memory) ⊎ ((fault : AFault) × (e ≡ Fault fault)
            × (name_followed (names_of_unit self.now input.old.end) input.old.rest.now (changes out.old) ≡ Err fault))) }
        ensures end { input.new.end ≡ input.old.end }
        ensures shorter { OnOk result (length input.new.rest.now < length input.old.rest.now) }
    {
        let (at, distance) = read_placed(input, self.size)?;
        if distance == 0 {
            return Ok(false);
        }
        replace_distance(
            self.info,
            self.unit,
            (at, self.size),
            distance,
            scratch,
            out,
        )?;
        read_name(input, self.is_gnu)?;
        Ok(true)
    }

    /// Moves the offsets of the entries, up to the zero that ends them.
    fn follow_entries(
        &self,
        input: &mut Cursor<'_>,
        scratch: &mut Vec<u8>,
        out: &mut Patches,
    ) -> Result<(), DebugError>
        ensures followed { OnOk result (each_replaced (name_followed (names_of_unit self.now input.old.end)) input.old.rest.now (changes out.old)
            ≡ Ok (changes out.new)) }
        ensures refused { IfErr result (λ e. (e ≡ Memory) ⊎ ((fault : AFault) × (e ≡ Fault fault)
            × (each_replaced (name_followed (names_of_unit self.now input.old.end)) input.old.rest.now (changes out.old) ≡ Err fault))) }
    {
        'entries: while !input.is_empty() {
            if !self.follow_entry(input, scratch, out)? {
                return Ok(());
            }
        }
        Ok(())
    }

    /// Moves the length of the unit, and the offsets of the entries.
    fn follow_unit(
        &self,
        input: &mut Cursor<'_>,
        scratch: &mut Vec<u8>,
        out: &mut Patches,
    ) -> Result<(), DebugError>
        ensures followed { OnOk result (names_of_unit_followed (names_of_unit self.now input.old.end) input.old.rest.now (changes out.old)
            ≡ Ok (changes out.new)) }
        ensures refused { IfErr result (λ e. (e ≡ Memory) ⊎ ((fault : AFault) × (e ≡ Fault fault)
            × (names_of_unit_followed (names_of_unit self.now input.old.end) input.old.rest.now (changes out.old) ≡ Err fault))) }
    {
        let (at, length) = read_placed(input, self.size)?;
        replace_distance(self.info, self.unit, (at, self.size), length, scratch, out)?;
        self.follow_entries(input, scratch, out)
    }
}

/// Moves the offsets of a table, from its version on.
fn follow_part(
    input: &mut Cursor<'_>,
    size: Size,
    is_gnu: bool,
    info: &Patches,
    scratch: &mut Vec<u8>,
    out: &mut Patches,
) -> Result<(), DebugError>
    ensures followed { OnOk result (names_of_part_followed (changes info.now) is_gnu size input.old.end input.old.rest.now (changes out.old)
        ≡ Ok (changes out.new)) }
    ensures refused { IfErr result (λ e. (e ≡ Memory) ⊎ ((fault : AFault) × (e ≡ Fault fault)
        × (names_of_part_followed (changes info.now) is_gnu size input.old.end input.old.rest.now (changes out.old) ≡ Err fault))) }
{
    if input.sized(Size::Two)? != 2 {
        return Err(DebugError::Fault(DebugFault::UnknownVersion));
    }
    let unit = follow_unit_offset(input, size, info, scratch, out)?;
    let names = Names {
        info,
        unit: unit as usize,
        size,
        is_gnu,
    };
    names.follow_unit(input, scratch, out)
}

/// Moves the offsets of the next table.
fn follow_table(
    input: &mut Cursor<'_>,
    is_gnu: bool,
    info: &Patches,
    scratch: &mut Vec<u8>,
    out: &mut Patches,
) -> Result<(), DebugError>
    ensures followed { OnOk result (names_table_followed (changes info.now) is_gnu input.old.end input.old.rest.now (changes out.old)
        ≡ Ok (changes out.new, input.new.rest.now)) }
    ensures refused { IfErr result (λ e. (e ≡ Memory) ⊎ ((fault : AFault) × (e ≡ Fault fault)
        × (names_table_followed (changes info.now) is_gnu input.old.end input.old.rest.now (changes out.old) ≡ Err fault))) }
    ensures end { input.new.end ≡ input.old.end }
    ensures shorter { OnOk result (length input.new.rest.now < length input.old.rest.now) }
{
    let (format, length) = input.initial_length()?;
    let mut part = input.part(length)?;
    let size = format.offset_size();
    follow_part(&mut part, size, is_gnu, info, scratch, out)
}

/// What becomes of a section of names, where these parts of `.debug_info` are replaced: the offsets and lengths of units and the offsets
/// of entries follow.
///
/// # Errors
///
/// The first fault of a table: `Truncated`, `BadLength`, `UnknownVersion`; `BadOffset` if an offset is of no place, or `DoesNotFit` if the
/// new one is too great. Out of memory.
pub fn follow_names(
    alloc: Global,
    section: &[u8],
    is_gnu: bool,
    info: &Patches,
) -> Result<Vec<u8>, DebugError>
    ensures followed { IfOk result (λ bytes. names_followed (changes info.now) is_gnu section.now ≡ Ok bytes.items) }
    ensures refused { IfErr result (λ e. (e ≡ Memory) ⊎ ((fault : AFault) × (e ≡ Fault fault)
        × (names_followed (changes info.now) is_gnu section.now ≡ Err fault))) }
{
    let mut out = Patches::new(alloc);
    let mut scratch = Vec::new(alloc);
    let mut input = Cursor::new(section);
    'tables: while !input.is_empty() {
        follow_table(&mut input, is_gnu, info, &mut scratch, &mut out)?;
    }
    replaced(alloc, section, &out)
}
