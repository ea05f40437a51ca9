//! The index of names (DWARF 5, section 6.1.1), where entries are at other places.

ghost use Rattle.std.specs.Prelude.{ℕ, ◌≡◌, ◌+◌, ◌-◌, ◌<◌, ◌≤◌, ◌⊎◌, ◌==◌, List, length, None, Ok, Err, IfSome, IfOk, IfErr, OnOk};
ghost use Rattle.wasm_numbers.specs.Results.{Gives};
ghost use Rattle.dwarf_bytes.specs.declared.fault.DebugFault.{DebugFault as AFault};
ghost use Rattle.dwarf_bytes.specs.declared.fault.DebugError.TheVariants.{Memory, Fault};
ghost use Rattle.dwarf_bytes.specs.Numbers.{size_in_bytes, fixed_number};
ghost use Rattle.dwarf_bytes.specs.Patches.{changes};
ghost use Rattle.dwarf_line.specs.Repeated.{all_values};
ghost use Rattle.dwarf.specs.IndexEntries.{placed_value, target_with, target_from, no_target, number_of_list, compile_unit_of, unit_with, offset_written, offset_in_unit_followed, target_followed, entry_followed, from_offset, name_entries_followed, once, all_names_followed, unit_offsets_followed, spelled_index_followed, index_followed, name_index_followed};
ghost use Rattle.dwarf.specs.NameIndex.{augmentation_passed, index_counts, numbers_part, hashes_passed, index_parts, spelled_index};
ghost use Rattle.dwarf.specs.NameIndexViews.{counts_of, placed_bytes, index_spelled, index_following};
ghost use Rattle.dwarf_bytes.specs.Sorting.{sorted_by};

use crate::index_abbreviations::{
    IndexAbbreviations, IndexAttribute, IndexForm, IndexMeaning, repeats_number,
};
use crate::replacing::{follow_unit_offset, replaced};
use dwarf_bytes::{Cursor, DebugError, DebugFault, Patches, Size, write_padded, write_sized};
use dwarf_info::moved_distance;
use std::alloc::Global;

/// An index of names: the parts that lead to entries.
#[derive(Clone, Copy)]
struct NameIndex<'a> {
    /// The size of offsets.
    size: Size,
    /// The offsets of compile units.
    compile_units: Cursor<'a>,
    /// The offsets of type units, and how many there are.
    type_units: Cursor<'a>,
    type_unit_count: u64,
    /// How many type units are in other files, after these.
    foreign: u64,
    /// Where the entries of each name are in the pool.
    names: Cursor<'a>,
    /// The abbreviations.
    abbreviations: Cursor<'a>,
    /// The entries.
    pool: Cursor<'a>,
}

/// How many there are of each part of an index, as its header says.
#[derive(Clone, Copy)]
struct Counts {
    compile_units: u64,
    type_units: u64,
    foreign: u64,
    buckets: u64,
    names: u64,
    // bytes
    abbreviations: u64,
}

/// A number, with its place and how many bytes it takes.
#[derive(Clone, Copy)]
struct PlacedNumber {
    at: usize,
    width: usize,
    form: IndexForm,
    number: u64,
}

/// What an entry of an index says of the entry that it leads to.
#[derive(Clone, Copy)]
struct Target {
    compile_unit: Option<u64>,
    type_unit: Option<u64>,
    /// Its offset from its unit's first byte.
    offset: Option<PlacedNumber>,
}

/// The next `count` numbers of this size, as a part of their own.
///
/// # Errors
///
/// `BadLength` if there are fewer.
fn numbers<'a>(table: &mut Cursor<'a>, count: u64, size: Size) -> Result<Cursor<'a>, DebugFault>
    ensures gives { Gives (λ x. (x.rest.now, table.new.rest.now)) result (numbers_part count size table.old.rest.now) }
    ensures end { table.new.end ≡ table.old.end }
    ensures part_end { IfOk result (λ x. x.end ≡ table.old.end - length table.new.rest.now) }
    ensures shorter { length table.new.rest.now ≤ length table.old.rest.now }
{
    let bytes = count
        .checked_mul(size.bytes() as u64)
        .ok_or(DebugFault::BadLength)?;
    table.part(bytes)
}

/// The number at this place of the list.
///
/// # Errors
///
/// `BadOffset` if the list has fewer.
fn number_at(list: Cursor<'_>, index: u64, size: Size) -> Result<u64, DebugFault>
    ensures { result ≡ number_of_list list.entry.rest.now index size }
{
    let mut left = list;
    if numbers(&mut left, index, size).is_err() {
        return Err(DebugFault::BadOffset);
    }
    match left.sized(size) {
        Ok(number) => Ok(number),
        Err(_) => Err(DebugFault::BadOffset),
    }
}

/// Reads the augmentation of an index, up to a multiple of four bytes.
fn skip_augmentation(table: &mut Cursor<'_>) -> Result<(), DebugFault>
    ensures gives { Gives (λ u. (tt, table.new.rest.now)) result (augmentation_passed table.old.rest.now) }
    ensures end { table.new.end ≡ table.old.end }
{
    let size = table.sized(Size::Four)?;
    table.part(size)?;
    table.part((4 - size % 4) % 4)?;
    Ok(())
}

/// Reads the header of an index, from its version on (DWARF 5, section 6.1.1.4.1).
fn read_counts(table: &mut Cursor<'_>) -> Result<Counts, DebugFault>
    ensures gives { Gives (λ c. (counts_of c, table.new.rest.now)) result (index_counts table.old.rest.now) }
    ensures end { table.new.end ≡ table.old.end }
{
    if table.sized(Size::Two)? != 5 {
        return Err(DebugFault::UnknownVersion);
    }
    // padding
    table.sized(Size::Two)?;
    let compile_units = table.sized(Size::Four)?;
    let type_units = table.sized(Size::Four)?;
    let foreign = table.sized(Size::Four)?;
    let buckets = table.sized(Size::Four)?;
    let names = table.sized(Size::Four)?;
    let abbreviations = table.sized(Size::Four)?;
    skip_augmentation(table)?;
    Ok(Counts {
        compile_units,
        type_units,
        foreign,
        buckets,
        names,
        abbreviations,
    })
}

/// Reads the hash table of an index: without buckets there are no hashes of names.
fn skip_hashes(counts: &Counts, table: &mut Cursor<'_>) -> Result<(), DebugFault>
    ensures gives { Gives (λ u. (tt, table.new.rest.now)) result (hashes_passed (counts_of counts.now) table.old.rest.now) }
    ensures end { table.new.end ≡ table.old.end }
{
    if counts.buckets > 0 {
        numbers(table, counts.buckets, Size::Four)?;
        numbers(table, counts.names, Size::Four)?;
    }
    Ok(())
}

impl<'a> NameIndex<'a> {
    /// Reads the parts of an index after its header, up to its pool.
    fn read_parts(
        size: Size,
        counts: &Counts,
        input: Cursor<'a>,
    ) -> Result<NameIndex<'a>, DebugFault>
        ensures { Gives index_spelled result (index_parts size input.entry.end (counts_of counts.now) input.entry.rest.now) }
    {
        let mut table = input;
        let compile_units = numbers(&mut table, counts.compile_units, size)?;
        let type_units = numbers(&mut table, counts.type_units, size)?;
        // signatures of type units
        numbers(&mut table, counts.foreign, Size::Eight)?;
        skip_hashes(counts, &mut table)?;
        // the offsets of names in `.debug_str`
        numbers(&mut table, counts.names, size)?;
        let names = numbers(&mut table, counts.names, size)?;
        let abbreviations = table.part(counts.abbreviations)?;
        Ok(NameIndex {
            size,
            compile_units,
            type_units,
            type_unit_count: counts.type_units,
            foreign: counts.foreign,
            names,
            abbreviations,
            pool: table,
        })
    }

    /// Reads the next index up to its pool.
    ///
    /// # Errors
    ///
    /// `Truncated` or `BadLength`; `UnknownVersion`.
    fn read(input: &mut Cursor<'a>) -> Result<NameIndex<'a>, DebugFault>
        ensures gives { Gives (λ i. (index_spelled i, input.new.rest.now)) result (spelled_index input.old.end input.old.rest.now) }
        ensures end { input.new.end ≡ input.old.end }
        ensures shorter { OnOk result (length input.new.rest.now < length input.old.rest.now) }
    {
        let (format, length) = input.initial_length()?;
        let mut table = input.part(length)?;
        let counts = read_counts(&mut table)?;
        NameIndex::read_parts(format.offset_size(), &counts, table)
    }

    /// Whether all entries are in one compile unit, so that none has to say which.
    fn has_one_compile_unit(&self) -> bool
        ensures { result ≡ (length self.now.compile_units.rest.now == size_in_bytes self.now.size) }
    {
        self.compile_units.rest().len() == self.size.bytes()
    }

    /// The offset of the compile unit that an entry is in, which names it or not.
    ///
    /// # Errors
    ///
    /// `BadOffset` if there is no such unit; `Unsupported` if the entry doesn't say in which of several it is.
    fn compile_unit(&self, index: Option<u64>) -> Result<Option<u64>, DebugFault>
        ensures { result ≡ compile_unit_of (index_spelled self.now) index }
    {
        let index = match index {
            Some(index) => index,
            None if self.has_one_compile_unit() => 0,
            None => return Err(DebugFault::Unsupported),
        };
        let unit = number_at(self.compile_units, index, self.size)?;
        Ok(Some(unit))
    }

    /// The offset of the unit that an entry is in; None if that is in another file.
    ///
    /// # Errors
    ///
    /// `BadOffset` if there is no such unit; `Unsupported` if the entry doesn't say in which of several it is.
    fn unit_of(&self, target: &Target) -> Result<Option<u64>, DebugFault>
        ensures { result ≡ unit_with (index_spelled self.now) target.now.type_unit target.now.compile_unit }
    {
        let Some(index) = target.type_unit else {
            return self.compile_unit(target.compile_unit);
        };
        if index < self.type_unit_count {
            let unit = number_at(self.type_units, index, self.size)?;
            return Ok(Some(unit));
        }
        if index - self.type_unit_count < self.foreign {
            return Ok(None);
        }
        Err(DebugFault::BadOffset)
    }

    /// Where the entries of each name begin in the pool.
    fn read_names(&self, alloc: Global) -> Result<Vec<u64>, DebugError>
        ensures read { IfOk result (λ v. all_values (fixed_number (size_in_bytes self.now.size)) self.now.names.rest.now ≡ Ok v.items) }
        ensures refused { IfErr result (λ e. (e ≡ Memory) ⊎ ((fault : AFault) × (e ≡ Fault fault)
            × (all_values (fixed_number (size_in_bytes self.now.size)) self.now.names.rest.now ≡ Err fault))) }
    {
        let mut offsets = Vec::new(alloc);
        let mut left = self.names;
        'names: while !left.is_empty() {
            let offset = left.sized(self.size)?;
            offsets.push(offset)?;
        }
        Ok(offsets)
    }

    /// The same, ascending.
    fn sorted_names(&self, alloc: Global) -> Result<Vec<u64>, DebugError>
        ensures read { IfOk result (λ v. (os : List ℕ)
            × (all_values (fixed_number (size_in_bytes self.now.size)) self.now.names.rest.now ≡ Ok os) × (v.items ≡ sorted_by (λ n. n) os)) }
        ensures refused { IfErr result (λ e. (e ≡ Memory) ⊎ ((fault : AFault) × (e ≡ Fault fault)
            × (all_values (fixed_number (size_in_bytes self.now.size)) self.now.names.rest.now ≡ Err fault))) }
    {
        let mut offsets = self.read_names(alloc)?;
        offsets.sort()?;
        Ok(offsets)
    }
}

/// Reads a value.
///
/// # Errors
///
/// `Truncated` or `BadNumber`.
fn read_value(form: IndexForm, input: &mut Cursor<'_>) -> Result<PlacedNumber, DebugFault>
    ensures gives { Gives (λ n. (n, input.new.rest.now)) result (placed_value input.old.end form input.old.rest.now) }
    ensures fits { IfOk result (λ n. n.at + n.width ≤ usize.MAX) }
    ensures end { input.new.end ≡ input.old.end }
    ensures shorter { length input.new.rest.now ≤ length input.old.rest.now }
{
    let at = input.at();
    let number = form.read(input)?;
    let width = input.at().saturating_sub(at);
    Ok(PlacedNumber {
        at,
        width,
        form,
        number,
    })
}

/// What an entry says, with one more value.
///
/// # Errors
///
/// `Unsupported` if it has two offsets.
fn with_value(
    target: Target,
    meaning: IndexMeaning,
    value: PlacedNumber,
) -> Result<Target, DebugFault>
    ensures { result ≡ target_with target meaning value }
{
    let mut target = target;
    match meaning {
        IndexMeaning::CompileUnit => target.compile_unit = Some(value.number),
        IndexMeaning::TypeUnit => target.type_unit = Some(value.number),
        IndexMeaning::Entry if target.offset.is_some() => return Err(DebugFault::Unsupported),
        IndexMeaning::Entry => target.offset = Some(value),
        IndexMeaning::Other => {}
    }
    Ok(target)
}

/// Reads what an entry of an index says of the entry that it leads to.
///
/// # Errors
///
/// `Truncated` or `BadNumber`; `Unsupported` if it has two offsets.
fn read_target(attributes: &[IndexAttribute], input: &mut Cursor<'_>) -> Result<Target, DebugFault>
    ensures gives { Gives (λ t. (t, input.new.rest.now)) result (target_from input.old.end attributes.now no_target input.old.rest.now) }
    ensures fits { IfOk result (λ t. IfSome t.offset (λ n. n.at + n.width ≤ usize.MAX)) }
    ensures end { input.new.end ≡ input.old.end }
    ensures shorter { length input.new.rest.now ≤ length input.old.rest.now }
{
    let mut target = Target {
        compile_unit: None,
        type_unit: None,
        offset: None,
    };
    'attributes: for attribute in attributes {
        let value = read_value(attribute.form, input)?;
        target = with_value(target, attribute.meaning, value)?;
    }
    Ok(target)
}

/// Writes an offset in the form that it has.
///
/// # Errors
///
/// `DoesNotFit` if it is too great; out of memory.
fn write_offset(scratch: &mut Vec<u8>, offset: PlacedNumber, new: u64) -> Result<(), DebugError>
    ensures written { OnOk result (offset_written offset.form offset.width new ≡ Ok scratch.new.items) }
    ensures refused { IfErr result (λ e. (e ≡ Memory) ⊎ ((fault : AFault) × (e ≡ Fault fault)
        × (offset_written offset.form offset.width new ≡ Err fault))) }
{
    scratch.clear();
    match offset.form {
        IndexForm::Sized(size) => write_sized(scratch, size, new),
        IndexForm::Unsigned => {
            write_padded(scratch, new, offset.width)?;
            Ok(())
        }
    }
}

/// An index, and what its offsets follow.
#[derive(Clone, Copy)]
struct Following<'a> {
    index: NameIndex<'a>,
    abbreviations: &'a IndexAbbreviations,
    /// What is replaced in `.debug_info`.
    info: &'a Patches,
}

impl<'a> Following<'a> {
    /// Moves the offset of an entry, counted from its unit.
    fn follow_offset(
        &self,
        unit: u64,
        offset: PlacedNumber,
        scratch: &mut Vec<u8>,
        out: &mut Patches,
    ) -> Result<(), DebugError>
        requires { offset.at + offset.width ≤ usize.MAX }
        ensures followed { OnOk result (offset_in_unit_followed (changes self.now.info.now) unit offset (changes out.old) ≡ Ok (changes out.new)) }
        ensures refused { IfErr result (λ e. (e ≡ Memory) ⊎ ((fault : AFault) × (e ≡ Fault fault)
            × (offset_in_unit_followed (changes self.now.info.now) unit offset (changes out.old) ≡ Err fault))) }
    {
        let new = moved_distance(self.info, unit as usize, offset.number)?;
        if new == offset.number {
            return Ok(());
        }
        write_offset(scratch, offset, new)?;
        if scratch.len() != offset.width {
            return Err(DebugError::Fault(DebugFault::DoesNotFit));
        }
        out.push(offset.at, offset.width, scratch)
    }

    /// Moves the offset of an entry that an entry of the pool leads to.
    fn follow_entry(
        &self,
        attributes: &[IndexAttribute],
        input: &mut Cursor<'_>,
        scratch: &mut Vec<u8>,
        out: &mut Patches,
    ) -> Result<(), DebugError>
        requires { input.old.end ≡ self.now.index.pool.end }
        ensures followed { OnOk result (entry_followed (index_following self.now) attributes.now input.old.rest.now (changes out.old)
            ≡ Ok (changes out.new, input.new.rest.now)) }
        ensures refused { IfErr result (λ e. (e ≡ Memory) ⊎ ((fault : AFault) × (e ≡ Fault fault)
            × (entry_followed (index_following self.now) attributes.now input.old.rest.now (changes out.old) ≡ Err fault))) }
        ensures end { input.new.end ≡ input.old.end }
        ensures shorter { length input.new.rest.now ≤ length input.old.rest.now }
    {
        let target = read_target(attributes, input)?;
        let unit = self.index.unit_of(&target)?;
        match (target.offset, unit) {
            (Some(offset), Some(unit)) => self.follow_offset(unit, offset, scratch, out),
            _ => Ok(()),
        }
    }

    /// The pool from this offset on.
    ///
    /// # Errors
    ///
    /// `BadOffset` if it ends before.
    fn from_offset(&self, offset: u64) -> Result<Cursor<'a>, DebugFault>
        ensures gives { Gives (λ x. x.rest.now) result (from_offset (index_spelled self.now.index) offset) }
        ensures end { IfOk result (λ x. x.end ≡ self.now.index.pool.end) }
    {
        let mut left = self.index.pool;
        if left.part(offset).is_err() {
            return Err(DebugFault::BadOffset);
        }
        Ok(left)
    }

    /// Moves the offsets of the entries of a name, which begin at this offset in the pool. Returns the offset at which they end.
    fn follow_name(
        &self,
        offset: u64,
        scratch: &mut Vec<u8>,
        out: &mut Patches,
    ) -> Result<u64, DebugError>
        ensures followed { IfOk result (λ end. name_entries_followed (index_following self.now) offset (changes out.old) ≡ Ok (changes out.new, end)) }
        ensures refused { IfErr result (λ e. (e ≡ Memory) ⊎ ((fault : AFault) × (e ≡ Fault fault)
            × (name_entries_followed (index_following self.now) offset (changes out.old) ≡ Err fault))) }
    {
        let mut left = self.from_offset(offset)?;
        'entries: while !left.is_empty() {
            let code = left.unsigned()?;
            if code == 0 {
                let size = self.index.pool.rest().len();
                return Ok(size.saturating_sub(left.rest().len()) as u64);
            }
            let attributes = self.abbreviations.get(code)?;
            self.follow_entry(attributes, &mut left, scratch, out)?;
        }
        Err(DebugError::Fault(DebugFault::Truncated))
    }

    /// Moves the offsets of the entries of all names, which begin at these offsets in the pool.
    fn follow_names(
        &self,
        names: &[u64],
        scratch: &mut Vec<u8>,
        out: &mut Patches,
    ) -> Result<(), DebugError>
        ensures followed { OnOk result (all_names_followed (index_following self.now) 0 (once None names.now) (changes out.old) ≡ Ok (changes out.new)) }
        ensures refused { IfErr result (λ e. (e ≡ Memory) ⊎ ((fault : AFault) × (e ≡ Fault fault)
            × (all_names_followed (index_following self.now) 0 (once None names.now) (changes out.old) ≡ Err fault))) }
    {
        let mut before = None;
        let mut end = 0;
        'names: for offset in names {
            if !repeats_number(before, *offset) {
                if *offset < end {
                    return Err(DebugError::Fault(DebugFault::Overlap));
                }
                end = self.follow_name(*offset, scratch, out)?;
            }
            before = Some(*offset);
        }
        Ok(())
    }
}

/// Moves the offsets of units in a list.
fn follow_units(
    list: Cursor<'_>,
    size: Size,
    info: &Patches,
    scratch: &mut Vec<u8>,
    out: &mut Patches,
) -> Result<(), DebugError>
    ensures followed { OnOk result (unit_offsets_followed (changes info.now) size (placed_bytes list.entry) (changes out.old) ≡ Ok (changes out.new)) }
    ensures refused { IfErr result (λ e. (e ≡ Memory) ⊎ ((fault : AFault) × (e ≡ Fault fault)
        × (unit_offsets_followed (changes info.now) size (placed_bytes list.entry) (changes out.old) ≡ Err fault))) }
{
    let mut left = list;
    'units: while !left.is_empty() {
        follow_unit_offset(&mut left, size, info, scratch, out)?;
    }
    Ok(())
}

/// Moves the offsets of an index.
fn follow_parts(
    alloc: Global,
    index: NameIndex<'_>,
    info: &Patches,
    scratch: &mut Vec<u8>,
    out: &mut Patches,
) -> Result<(), DebugError>
    ensures followed { OnOk result (spelled_index_followed (changes info.now) (index_spelled index.entry) (changes out.old) ≡ Ok (changes out.new)) }
    ensures refused { IfErr result (λ e. (e ≡ Memory) ⊎ ((fault : AFault) × (e ≡ Fault fault)
        × (spelled_index_followed (changes info.now) (index_spelled index.entry) (changes out.old) ≡ Err fault))) }
{
    let abbreviations = IndexAbbreviations::read(alloc, index.abbreviations)?;
    let names = index.sorted_names(alloc)?;
    follow_units(index.compile_units, index.size, info, scratch, out)?;
    follow_units(index.type_units, index.size, info, scratch, out)?;
    let following = Following {
        index,
        abbreviations: &abbreviations,
        info,
    };
    following.follow_names(&names, scratch, out)
}

/// Moves the offsets of the next index.
fn follow_index(
    alloc: Global,
    input: &mut Cursor<'_>,
    info: &Patches,
    scratch: &mut Vec<u8>,
    out: &mut Patches,
) -> Result<(), DebugError>
    ensures followed { OnOk result (index_followed (changes info.now) input.old.end input.old.rest.now (changes out.old)
        ≡ Ok (changes out.new, input.new.rest.now)) }
    ensures refused { IfErr result (λ e. (e ≡ Memory) ⊎ ((fault : AFault) × (e ≡ Fault fault)
        × (index_followed (changes info.now) input.old.end input.old.rest.now (changes out.old) ≡ Err fault))) }
    ensures end { input.new.end ≡ input.old.end }
    ensures shorter { OnOk result (length input.new.rest.now < length input.old.rest.now) }
{
    let index = NameIndex::read(input)?;
    follow_parts(alloc, index, info, scratch, out)
}

/// What becomes of the section, where these parts of `.debug_info` are replaced: the offsets of units and of entries follow. The lists of
/// entries of two names are one or don't overlap, so that the section is read once.
///
/// # Errors
///
/// `Truncated`, `BadNumber`, `BadLength`, `BadOffset`, `UnknownVersion`, `UnknownForm`; `Overlap`; `Unsupported` if something isn't
/// known; `DoesNotFit`; out of memory.
pub(crate) fn follow_name_index(
    alloc: Global,
    section: &[u8],
    info: &Patches,
) -> Result<Vec<u8>, DebugError>
    ensures followed { IfOk result (λ bytes. name_index_followed (changes info.now) section.now ≡ Ok bytes.items) }
    ensures refused { IfErr result (λ e. (e ≡ Memory) ⊎ ((fault : AFault) × (e ≡ Fault fault)
        × (name_index_followed (changes info.now) section.now ≡ Err fault))) }
{
    let mut out = Patches::new(alloc);
    let mut scratch = Vec::new(alloc);
    let mut input = Cursor::new(section);
    'indices: while !input.is_empty() {
        follow_index(alloc, &mut input, info, &mut scratch, &mut out)?;
    }
    replaced(alloc, section, &out)
}
