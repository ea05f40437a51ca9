//! Macros (DWARF 5, section 6.3; the form of GNU for DWARF 4 is the same), where line tables are at other places.

ghost use Rattle.std.specs.Prelude.{◌≡◌, ◌<◌, ◌≤◌, ◌⊎◌, length, Ok, Err, IfOk, IfErr, OnOk};
ghost use Rattle.wasm_numbers.specs.Results.{Gives};
ghost use Rattle.dwarf_bytes.specs.declared.fault.DebugFault.{DebugFault as AFault};
ghost use Rattle.dwarf_bytes.specs.declared.fault.DebugError.TheVariants.{Memory, Fault};
ghost use Rattle.dwarf_bytes.specs.Patches.{changes};
ghost use Rattle.dwarf_line.specs.declared.moved.Moved.{Moved as AMoved};
ghost use Rattle.dwarf_info.specs.Sound.{Ascend};
ghost use Rattle.dwarf.specs.Macros.{macro_operands, macro_entry, macro_entries, macro_flags, macro_header, table_moved, line_table_followed, macros_followed, macro_section_followed};
ghost use Rattle.dwarf.specs.MacrosViews.{macro_flags_of};

use crate::replacing::{read_placed, replace_number, replaced};
use dwarf_bytes::{Cursor, DebugError, DebugFault, Patches, Size};
use dwarf_line::Moved;
use std::alloc::Global;

/// What the flags of a unit of macros say (DWARF 5, section 6.3.1).
#[derive(Clone, Copy)]
struct Flags {
    /// The size of offsets.
    size: Size,
    /// Whether the offset of a line table follows.
    has_table: bool,
}

impl Flags {
    /// What these flags say.
    ///
    /// # Errors
    ///
    /// `Unsupported` if a unit has operands of its own, or another flag that isn't known.
    fn of(flags: u8) -> Result<Flags, DebugFault>
        ensures { Gives macro_flags_of result (macro_flags flags) }
    {
        let (size, has_table) = match flags {
            0 => (Size::Four, false),
            1 => (Size::Eight, false),
            2 => (Size::Four, true),
            3 => (Size::Eight, true),
            _ => return Err(DebugFault::Unsupported),
        };
        Ok(Flags { size, has_table })
    }

    /// Reads the header of a unit.
    ///
    /// # Errors
    ///
    /// `Truncated`, `UnknownVersion`; `Unsupported`.
    fn read(input: &mut Cursor<'_>) -> Result<Flags, DebugFault>
        ensures gives { Gives (λ f. (macro_flags_of f, input.new.rest.now)) result (macro_header input.old.rest.now) }
        ensures end { input.new.end ≡ input.old.end }
        ensures shorter { OnOk result (length input.new.rest.now < length input.old.rest.now) }
    {
        let version = input.sized(Size::Two)?;
        if version != 4 && version != 5 {
            return Err(DebugFault::UnknownVersion);
        }
        let flags = input.byte()?;
        Flags::of(flags)
    }
}

/// Moves past the operands of an entry of this kind (DWARF 5, section 7.23). They are numbers, strings, offsets of strings and of other
/// units of macros, which all stay.
///
/// # Errors
///
/// `Truncated` or `BadNumber`; `UnknownOperation`.
fn skip_operands(kind: u64, size: Size, input: &mut Cursor<'_>) -> Result<(), DebugFault>
    ensures gives { Gives (λ u. (tt, input.new.rest.now)) result (macro_operands kind size input.old.rest.now) }
    ensures end { input.new.end ≡ input.old.end }
    ensures shorter { length input.new.rest.now ≤ length input.old.rest.now }
{
    match kind {
        // define, undef
        0x01 | 0x02 => {
            input.unsigned()?;
            input.terminated()?;
            Ok(())
        }
        // start_file, define_strx, undef_strx
        0x03 | 0x0b | 0x0c => {
            input.unsigned()?;
            input.unsigned()?;
            Ok(())
        }
        // end_file
        0x04 => Ok(()),
        // define_strp, undef_strp, define_sup, undef_sup
        0x05 | 0x06 | 0x08 | 0x09 => {
            input.unsigned()?;
            input.sized(size)?;
            Ok(())
        }
        // import, import_sup
        0x07 | 0x0a => {
            input.sized(size)?;
            Ok(())
        }
        _ => Err(DebugFault::UnknownOperation),
    }
}

/// Moves past an entry. Returns whether there is one: a zero in its place ends them.
fn skip_entry(size: Size, input: &mut Cursor<'_>) -> Result<bool, DebugFault>
    ensures gives { Gives (λ more. (more, input.new.rest.now)) result (macro_entry size input.old.rest.now) }
    ensures end { input.new.end ≡ input.old.end }
    ensures shorter { OnOk result (length input.new.rest.now < length input.old.rest.now) }
{
    let kind = input.sized(Size::One)?;
    if kind == 0 {
        return Ok(false);
    }
    skip_operands(kind, size, input)?;
    Ok(true)
}

/// Moves past the entries of a unit, up to the zero that ends them.
fn skip_entries(size: Size, input: &mut Cursor<'_>) -> Result<(), DebugFault>
    ensures gives { Gives (λ u. (tt, input.new.rest.now)) result (macro_entries size input.old.rest.now) }
    ensures end { input.new.end ≡ input.old.end }
    ensures shorter { OnOk result (length input.new.rest.now ≤ length input.old.rest.now) }
{
    'entries: while !input.is_empty() {
        if !skip_entry(size, input)? {
            return Ok(());
        }
    }
    Err(DebugFault::Truncated)
}

/// Where the line table at this offset goes.
///
/// # Errors
///
/// `BadOffset` if none begins there.
fn moved_table(tables: &[Moved], offset: u64) -> Result<u64, DebugFault>
    requires { Ascend (λ (t : AMoved). t.old) 0 tables.now }
    ensures { result ≡ table_moved tables.now offset }
{
    let place = tables.partition_point(|table| table.old < offset);
    let Some(table) = tables.get(place) else {
        return Err(DebugFault::BadOffset);
    };
    if table.old != offset {
        return Err(DebugFault::BadOffset);
    }
    Ok(table.new)
}

/// Moves the offset of the line table of a unit, if it has one.
fn follow_line_table(
    input: &mut Cursor<'_>,
    flags: Flags,
    tables: &[Moved],
    scratch: &mut Vec<u8>,
    out: &mut Patches,
) -> Result<(), DebugError>
    requires { Ascend (λ (t : AMoved). t.old) 0 tables.now }
    ensures followed { OnOk result (line_table_followed tables.now (macro_flags_of flags) input.old.end input.old.rest.now (changes out.old)
        ≡ Ok (changes out.new, input.new.rest.now)) }
    ensures refused { IfErr result (λ e. (e ≡ Memory) ⊎ ((fault : AFault) × (e ≡ Fault fault)
        × (line_table_followed tables.now (macro_flags_of flags) input.old.end input.old.rest.now (changes out.old) ≡ Err fault))) }
    ensures end { input.new.end ≡ input.old.end }
    ensures shorter { OnOk result (length input.new.rest.now ≤ length input.old.rest.now) }
{
    if !flags.has_table {
        return Ok(());
    }
    let (at, old) = read_placed(input, flags.size)?;
    let new = moved_table(tables, old)?;
    replace_number(at, flags.size, old, new, scratch, out)
}

/// Moves the offset of the line table of the next unit.
fn follow_unit(
    input: &mut Cursor<'_>,
    tables: &[Moved],
    scratch: &mut Vec<u8>,
    out: &mut Patches,
) -> Result<(), DebugError>
    requires { Ascend (λ (t : AMoved). t.old) 0 tables.now }
    ensures followed { OnOk result (macros_followed tables.now input.old.end input.old.rest.now (changes out.old)
        ≡ Ok (changes out.new, input.new.rest.now)) }
    ensures refused { IfErr result (λ e. (e ≡ Memory) ⊎ ((fault : AFault) × (e ≡ Fault fault)
        × (macros_followed tables.now input.old.end input.old.rest.now (changes out.old) ≡ Err fault))) }
    ensures end { input.new.end ≡ input.old.end }
    ensures shorter { OnOk result (length input.new.rest.now < length input.old.rest.now) }
{
    let flags = Flags::read(input)?;
    follow_line_table(input, flags, tables, scratch, out)?;
    skip_entries(flags.size, input)?;
    Ok(())
}

/// What becomes of the section, where line tables, by ascending offsets, go there: the offsets of line tables follow.
///
/// # Errors
///
/// The first fault of a unit: `Truncated`, `BadNumber`, `UnknownVersion`, `UnknownOperation`; `BadOffset` if no line table begins at an
/// offset of one; `Unsupported` if a unit has operands of its own or another flag that isn't known; `DoesNotFit` if a new offset is too
/// great. Out of memory.
pub fn follow_macros(alloc: Global, section: &[u8], tables: &[Moved]) -> Result<Vec<u8>, DebugError>
    requires { Ascend (λ (t : AMoved). t.old) 0 tables.now }
    ensures followed { IfOk result (λ bytes. macro_section_followed tables.now section.now ≡ Ok bytes.items) }
    ensures refused { IfErr result (λ e. (e ≡ Memory) ⊎ ((fault : AFault) × (e ≡ Fault fault)
        × (macro_section_followed tables.now section.now ≡ Err fault))) }
{
    let mut out = Patches::new(alloc);
    let mut scratch = Vec::new(alloc);
    let mut input = Cursor::new(section);
    'units: while !input.is_empty() {
        follow_unit(&mut input, tables, &mut scratch, &mut out)?;
    }
    replaced(alloc, section, &out)
}
