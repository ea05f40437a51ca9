//! Tables of lists, where lists change their sizes (DWARF 5, sections 7.28 and 7.29).

ghost use Rattle.std.specs.Prelude.{◌≡◌, ◌<◌, ◌⊎◌, length, Ok, IfOk, IfErr, OnOk};
ghost use Rattle.wasm_numbers.specs.Results.{Gives};
ghost use Rattle.dwarf_bytes.specs.declared.fault.DebugFault.{DebugFault as AFault};
ghost use Rattle.dwarf_bytes.specs.declared.fault.DebugError.TheVariants.{Memory, Fault};
ghost use Rattle.dwarf_bytes.specs.Merging.{merging, AreMerged, IsFaultOfMerging, AreAllMerged, IsFaultOfAll};
ghost use Rattle.dwarf_bytes.specs.Patches.{changes};
ghost use Rattle.dwarf.specs.ListTables.{spelled_list_table, list_offset_steps, list_offsets_steps, table_offsets_steps, list_table_steps, list_section_steps};
ghost use Rattle.dwarf.specs.ListTablesViews.{list_table_of, offsets_of};

use crate::replacing::read_placed;
use dwarf_bytes::{Cursor, DebugError, DebugFault, Format, MergedPatches, Patches, Size};
use dwarf_info::{follow_length, follow_number, moved_distance};
use std::alloc::Global;

/// A table of lists.
#[derive(Clone, Copy)]
struct ListTable<'a> {
    /// The format that its length shows.
    format: Format,
    /// The place of its first byte.
    start: usize,
    /// What follows its length.
    contents: Cursor<'a>,
}

/// How the offsets of a table follow.
#[derive(Clone, Copy)]
struct Offsets<'p> {
    /// What is replaced in the section.
    own: &'p Patches,
    /// The place from which they are counted.
    base: usize,
    /// Their size.
    size: Size,
}

/// Reads the next table.
///
/// # Errors
///
/// `Truncated` or `BadLength`.
fn read_table<'a>(input: &mut Cursor<'a>) -> Result<ListTable<'a>, DebugFault>
    ensures gives { Gives (λ t. (list_table_of t, input.new.rest.now)) result (spelled_list_table input.old.end input.old.rest.now) }
    ensures end { input.new.end ≡ input.old.end }
    ensures shorter { OnOk result (length input.new.rest.now < length input.old.rest.now) }
{
    let start = input.at();
    let (format, length) = input.initial_length()?;
    let contents = input.part(length)?;
    Ok(ListTable {
        format,
        start,
        contents,
    })
}

impl Offsets<'_> {
    /// Moves an offset at this place.
    fn follow_offset(
        &self,
        at: usize,
        offset: u64,
        end: usize,
        scratch: &mut Vec<u8>,
        out: &mut MergedPatches<'_>,
    ) -> Result<(), DebugError>
        ensures merged { OnOk result (AreMerged (list_offset_steps (offsets_of self.now end) at offset) (merging out.old) (merging out.new)) }
        ensures refused { IfErr result (λ e. (e ≡ Memory) ⊎ ((fault : AFault) × (e ≡ Fault fault)
            × IsFaultOfMerging (list_offset_steps (offsets_of self.now end) at offset) (merging out.old) fault)) }
    {
        let new = moved_distance(self.own, self.base, offset)?;
        follow_number((at, self.size), offset, new, scratch, out)
    }

    /// Moves the next offsets, of this number.
    fn follow_offsets(
        &self,
        count: u64,
        input: &mut Cursor<'_>,
        scratch: &mut Vec<u8>,
        out: &mut MergedPatches<'_>,
    ) -> Result<(), DebugError>
        ensures merged { OnOk result (AreMerged (list_offsets_steps (offsets_of self.now input.old.end) count input.old.rest.now)
            (merging out.old) (merging out.new)) }
        ensures refused { IfErr result (λ e. (e ≡ Memory) ⊎ ((fault : AFault) × (e ≡ Fault fault)
            × IsFaultOfMerging (list_offsets_steps (offsets_of self.now input.old.end) count input.old.rest.now) (merging out.old) fault)) }
    {
        let end = input.end();
        for number in 0..count {
            let (at, offset) = read_placed(input, self.size)?;
            self.follow_offset(at, offset, end, scratch, out)?;
        }
        Ok(())
    }
}

/// Moves the offsets of a table.
fn follow_offsets(
    table: &ListTable<'_>,
    own: &Patches,
    scratch: &mut Vec<u8>,
    out: &mut MergedPatches<'_>,
) -> Result<(), DebugError>
    ensures merged { OnOk result (AreMerged (table_offsets_steps (changes own.now) (list_table_of table.now)) (merging out.old) (merging out.new)) }
    ensures refused { IfErr result (λ e. (e ≡ Memory) ⊎ ((fault : AFault) × (e ≡ Fault fault)
        × IsFaultOfMerging (table_offsets_steps (changes own.now) (list_table_of table.now)) (merging out.old) fault)) }
{
    let mut contents = table.contents;
    // the version, and the sizes of an address and of a segment selector
    contents.sized(Size::Four)?;
    let count = contents.sized(Size::Four)?;
    let offsets = Offsets {
        own,
        base: contents.at(),
        size: table.format.offset_size(),
    };
    offsets.follow_offsets(count, &mut contents, scratch, out)
}

/// Moves the length and the offsets of a table.
fn follow_table(
    table: &ListTable<'_>,
    own: &Patches,
    scratch: &mut Vec<u8>,
    out: &mut MergedPatches<'_>,
) -> Result<(), DebugError>
    ensures merged { OnOk result (AreMerged (list_table_steps (changes own.now) (list_table_of table.now)) (merging out.old) (merging out.new)) }
    ensures refused { IfErr result (λ e. (e ≡ Memory) ⊎ ((fault : AFault) × (e ≡ Fault fault)
        × IsFaultOfMerging (list_table_steps (changes own.now) (list_table_of table.now)) (merging out.old) fault)) }
{
    let bounds = (table.start, table.contents.end());
    follow_length(own, table.format, bounds, scratch, out)?;
    follow_offsets(table, own, scratch, out)
}

/// What is replaced in a section of tables of lists, in whose lists these parts are replaced: the lengths of tables and the offsets of
/// lists follow.
///
/// # Errors
///
/// The first fault of a table: `Truncated`, `BadLength`; `BadOffset` if an offset is of no place; `DoesNotFit` if a new number is too
/// great; `Overlap` if a field is also replaced before. Out of memory.
pub fn follow_list_tables(
    alloc: Global,
    section: &[u8],
    own: &Patches,
) -> Result<Patches, DebugError>
    ensures followed { IfOk result (λ p. AreAllMerged (changes own.now) (list_section_steps (changes own.now) section.now) (changes p)) }
    ensures refused { IfErr result (λ e. (e ≡ Memory) ⊎ ((fault : AFault) × (e ≡ Fault fault)
        × IsFaultOfAll (changes own.now) (list_section_steps (changes own.now) section.now) fault)) }
{
    let mut out = MergedPatches::new(alloc, own);
    let mut scratch = Vec::new(alloc);
    let mut input = Cursor::new(section);
    'tables: while !input.is_empty() {
        let table = read_table(&mut input)?;
        follow_table(&table, own, &mut scratch, &mut out)?;
    }
    out.finish()
}
