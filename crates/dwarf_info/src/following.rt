//! Offsets that follow the entries and lists that they lead to, where values of other sizes are written (DWARF 5, sections 7.5.1,
//! 7.5.5 and 7.26).

ghost use Rattle.std.specs.Prelude.{◌≡◌, ◌⊎◌, ◌∷◌, [], length, map, option_map, IfOk, IfErr, OnOk};
ghost use Rattle.dwarf_bytes.specs.declared.fault.DebugFault.{DebugFault as AFault};
ghost use Rattle.dwarf_bytes.specs.declared.fault.DebugError.TheVariants.{Memory, Fault};
ghost use Rattle.dwarf_bytes.specs.Merging.{merging, AreMerged, IsFaultOfMerging, AreAllMerged, IsFaultOfAll};
ghost use Rattle.dwarf_bytes.specs.Patches.{changes};
ghost use Rattle.dwarf_info.specs.EntryViews.{attribute_spelled};
ghost use Rattle.dwarf_info.specs.Following.{offset_followed, distance_followed, shifts_of, length_at, after_unit_length, sized_steps, length_steps, type_steps, shifted_offset, value_followed, number_part, follow_attribute, follow_attributes, follow_entries, follow_unit, follow_section};
ghost use Rattle.dwarf_info.specs.FollowViews.{section_shifts, follow_setting};
ghost use Rattle.dwarf_info.specs.Views.{tables_of, value_spelled};

use crate::abbreviations::Abbreviations;
use crate::attribute::Meaning;
use crate::form::{FormClass, Layout, Value, write_number};
use crate::unit::{Unit, UnitSection};
use crate::values::{AttributeValue, read_entry};
use dwarf_bytes::{
    Cursor, DebugError, DebugFault, Format, MergedPatches, Patches, Size, write_sized,
};
use dwarf_expressions::Encoding;
use std::alloc::Global;

/// What is replaced in the sections that offsets lead into.
#[derive(Clone, Copy)]
pub struct Shifts<'p> {
    /// In `.debug_info`.
    pub info: &'p Patches,
    /// In `.debug_ranges`.
    pub ranges: &'p Patches,
    /// In `.debug_loc`.
    pub locations: &'p Patches,
    /// In `.debug_rnglists`.
    pub range_lists: &'p Patches,
    /// In `.debug_loclists`.
    pub location_lists: &'p Patches,
    /// In `.debug_addr`.
    pub addresses: &'p Patches,
}

impl<'p> Shifts<'p> {
    /// What is replaced in the section that the value of an attribute leads into, in a unit of this version; None if no value of it leads
    /// into one that changes its size.
    fn of(&self, meaning: Meaning, version: u16) -> Option<&'p Patches>
        ensures { option_map (λ p. changes p.now) result ≡ shifts_of (section_shifts self.now) meaning version }
    {
        match meaning {
            Meaning::Ranges if version < 5 => Some(self.ranges),
            Meaning::Location if version < 5 => Some(self.locations),
            Meaning::Ranges | Meaning::RangeListBase => Some(self.range_lists),
            Meaning::Location | Meaning::LocationListBase => Some(self.location_lists),
            Meaning::AddressBase => Some(self.addresses),
            _ => None,
        }
    }
}

/// Where an offset goes, or the greatest number if it is that great.
pub fn moved_offset(patches: &Patches, offset: u64) -> u64
    ensures { result ≡ offset_followed (changes patches.now) offset }
{
    patches.moved(offset as usize) as u64
}

/// What an offset becomes that is counted from the place `start`.
///
/// # Errors
///
/// `BadOffset` if it is of no place, or of one that goes in front of where `start` goes.
pub fn moved_distance(patches: &Patches, start: usize, distance: u64) -> Result<u64, DebugFault>
    ensures { result ≡ distance_followed (changes patches.now) start distance }
{
    let Some(target) = distance.checked_add(start as u64) else {
        return Err(DebugFault::BadOffset);
    };
    let new = moved_offset(patches, target);
    match new.checked_sub(moved_offset(patches, start as u64)) {
        Some(distance) => Ok(distance),
        None => Err(DebugFault::BadOffset),
    }
}

/// Writes a number of this size at this place, if it changes.
///
/// # Errors
///
/// `DoesNotFit` if the new number is too great; those of `MergedPatches::push`.
pub fn follow_number(
    place: (usize, Size),
    old: u64,
    new: u64,
    scratch: &mut Vec<u8>,
    out: &mut MergedPatches<'_>,
) -> Result<(), DebugError>
    ensures merged { OnOk result (AreMerged (sized_steps place.0 place.1 old new) (merging out.old) (merging out.new)) }
    ensures refused { IfErr result (λ e. (e ≡ Memory) ⊎ ((fault : AFault) × (e ≡ Fault fault)
        × IsFaultOfMerging (sized_steps place.0 place.1 old new) (merging out.old) fault)) }
{
    if new == old {
        return Ok(());
    }
    let (at, size) = place;
    scratch.clear();
    write_sized(scratch, size, new)?;
    out.push(at, size.bytes(), scratch)
}

// the place of the length of a unit or a table that begins there
fn length_at(format: Format, start: usize) -> usize
    ensures { result ≡ length_at format start }
{
    match format {
        Format::Dwarf32 => start,
        Format::Dwarf64 => start.saturating_add(4),
    }
}

// the place after that length, from which it counts
fn after_unit_length(format: Format, start: usize) -> usize
    ensures { result ≡ after_unit_length format start }
{
    match format {
        Format::Dwarf32 => start.saturating_add(4),
        Format::Dwarf64 => start.saturating_add(12),
    }
}

/// Writes the new length of a unit or a table between these places, of which the length itself is no part.
///
/// # Errors
///
/// Those of `follow_number`.
pub fn follow_length(
    own: &Patches,
    format: Format,
    bounds: (usize, usize),
    scratch: &mut Vec<u8>,
    out: &mut MergedPatches<'_>,
) -> Result<(), DebugError>
    ensures merged { OnOk result (AreMerged (length_steps (changes own.now) format bounds.0 bounds.1) (merging out.old) (merging out.new)) }
    ensures refused { IfErr result (λ e. (e ≡ Memory) ⊎ ((fault : AFault) × (e ≡ Fault fault)
        × IsFaultOfMerging (length_steps (changes own.now) format bounds.0 bounds.1) (merging out.old) fault)) }
{
    let (start, end) = bounds;
    let contents = after_unit_length(format, start);
    let old = end.saturating_sub(contents);
    let new = own.moved(end).saturating_sub(own.moved(contents));
    let place = (length_at(format, start), format.offset_size());
    follow_number(place, old as u64, new as u64, scratch, out)
}

/// The units of a section whose offsets follow.
#[derive(Clone, Copy)]
struct Following<'p, 'u> {
    shifts: Shifts<'p>,
    /// What is replaced in the section of the units.
    own: &'p Patches,
    unit: Unit<'u>,
}

// Writes a number in the bytes that the value has.
fn write_in_place(
    layout: Layout,
    encoding: Encoding,
    value: &Value<'_>,
    number: u64,
    scratch: &mut Vec<u8>,
    out: &mut MergedPatches<'_>,
) -> Result<(), DebugError>
    ensures merged { OnOk result (AreMerged (number_part encoding layout (value_spelled value.now) number ∷ []) (merging out.old) (merging out.new)) }
    ensures refused { IfErr result (λ e. (e ≡ Memory) ⊎ ((fault : AFault) × (e ≡ Fault fault)
        × IsFaultOfMerging (number_part encoding layout (value_spelled value.now) number ∷ []) (merging out.old) fault)) }
{
    scratch.clear();
    write_number(scratch, layout, encoding, value.size, number)?;
    if scratch.len() != value.size {
        return Err(DebugError::Fault(DebugFault::DoesNotFit));
    }
    out.push(value.at, value.size, scratch)
}

impl<'u> Following<'_, 'u> {
    // What becomes of the value of an attribute, if it is an offset into another section that follows.
    fn new_offset(&self, meaning: Meaning, offset: u64) -> Option<u64>
        ensures { result ≡ shifted_offset (shifts_of (follow_setting self.now).shifts meaning self.now.unit.encoding.version) offset }
    {
        let patches = self.shifts.of(meaning, self.unit.encoding.version)?;
        Some(moved_offset(patches, offset))
    }

    // What becomes of the value of an attribute, if it is an offset that follows.
    fn new_value(&self, attribute: &AttributeValue<'_>) -> Result<Option<u64>, DebugFault>
        ensures { result ≡ value_followed (follow_setting self.now) (attribute_spelled attribute.now) attribute.now.form.class }
    {
        let number = attribute.value.number;
        match attribute.form.class {
            FormClass::Reference => {
                let new = moved_distance(self.own, self.unit.start, number)?;
                Ok(Some(new))
            }
            FormClass::SectionReference => Ok(Some(moved_offset(self.shifts.info, number))),
            _ if attribute.form.is_offset(self.unit.encoding.version) => {
                Ok(self.new_offset(attribute.meaning, number))
            }
            _ => Ok(None),
        }
    }

    // Writes the new value of an attribute.
    fn follow_attribute(
        &self,
        attribute: &AttributeValue<'_>,
        scratch: &mut Vec<u8>,
        out: &mut MergedPatches<'_>,
    ) -> Result<(), DebugError>
        ensures merged { OnOk result (AreMerged (follow_attribute (follow_setting self.now) (attribute_spelled attribute.now)) (merging out.old) (merging out.new)) }
        ensures refused { IfErr result (λ e. (e ≡ Memory) ⊎ ((fault : AFault) × (e ≡ Fault fault)
            × IsFaultOfMerging (follow_attribute (follow_setting self.now) (attribute_spelled attribute.now)) (merging out.old) fault)) }
    {
        let (layout, encoding) = (attribute.form.layout, self.unit.encoding);
        let value = &attribute.value;
        match self.new_value(attribute)? {
            Some(number) if number != value.number => {
                write_in_place(layout, encoding, value, number, scratch, out)
            }
            _ => Ok(()),
        }
    }

    // Writes the new values of the attributes of an entry.
    fn follow_attributes(
        &self,
        attributes: &[AttributeValue<'_>],
        scratch: &mut Vec<u8>,
        out: &mut MergedPatches<'_>,
    ) -> Result<(), DebugError>
        ensures merged { OnOk result (AreMerged (follow_attributes (follow_setting self.now) (map attribute_spelled attributes.now)) (merging out.old) (merging out.new)) }
        ensures refused { IfErr result (λ e. (e ≡ Memory) ⊎ ((fault : AFault) × (e ≡ Fault fault)
            × IsFaultOfMerging (follow_attributes (follow_setting self.now) (map attribute_spelled attributes.now)) (merging out.old) fault)) }
    {
        for attribute in attributes {
            self.follow_attribute(attribute, scratch, out)?;
        }
        Ok(())
    }

    // Writes the place of the unit's type, if it has one.
    fn follow_type(
        &self,
        scratch: &mut Vec<u8>,
        out: &mut MergedPatches<'_>,
    ) -> Result<(), DebugError>
        ensures merged { OnOk result (AreMerged (type_steps (follow_setting self.now) self.now.unit.type_offset) (merging out.old) (merging out.new)) }
        ensures refused { IfErr result (λ e. (e ≡ Memory) ⊎ ((fault : AFault) × (e ≡ Fault fault)
            × IsFaultOfMerging (type_steps (follow_setting self.now) self.now.unit.type_offset) (merging out.old) fault)) }
    {
        let Some((at, offset)) = self.unit.type_offset else {
            return Ok(());
        };
        let new = moved_distance(self.own, self.unit.start, offset)?;
        let place = (at, self.unit.encoding.offset_size());
        follow_number(place, offset, new, scratch, out)
    }

    // Writes the new values of the entries of the unit.
    fn follow_entries(
        &self,
        values: &mut Vec<AttributeValue<'u>>,
        scratch: &mut Vec<u8>,
        out: &mut MergedPatches<'_>,
    ) -> Result<(), DebugError>
        ensures merged { OnOk result (AreMerged (follow_entries (follow_setting self.now) (length self.now.unit.entries.rest.now) self.now.unit.entries.rest.now)
            (merging out.old) (merging out.new)) }
        ensures refused { IfErr result (λ e. (e ≡ Memory) ⊎ ((fault : AFault) × (e ≡ Fault fault)
            × IsFaultOfMerging (follow_entries (follow_setting self.now) (length self.now.unit.entries.rest.now) self.now.unit.entries.rest.now)
            (merging out.old) fault)) }
    {
        let mut input = self.unit.entries;
        'entries: while !input.is_empty() {
            match read_entry(&self.unit, &mut input, values)? {
                None => {}
                Some(_) => self.follow_attributes(values.as_slice(), scratch, out)?,
            }
        }
        Ok(())
    }

    // Writes the new offsets of the unit.
    fn follow_unit(
        &self,
        values: &mut Vec<AttributeValue<'u>>,
        scratch: &mut Vec<u8>,
        out: &mut MergedPatches<'_>,
    ) -> Result<(), DebugError>
        ensures merged { OnOk result (AreMerged (follow_unit (follow_setting self.now)) (merging out.old) (merging out.new)) }
        ensures refused { IfErr result (λ e. (e ≡ Memory) ⊎ ((fault : AFault) × (e ≡ Fault fault)
            × IsFaultOfMerging (follow_unit (follow_setting self.now)) (merging out.old) fault)) }
    {
        let bounds = (self.unit.start, self.unit.entries.end());
        follow_length(self.own, self.unit.encoding.format, bounds, scratch, out)?;
        self.follow_type(scratch, out)?;
        self.follow_entries(values, scratch, out)
    }
}

/// What is replaced in a section of units, of which these parts were replaced before: offsets follow what they lead to.
///
/// # Errors
///
/// The first fault of a unit; `DoesNotFit` if a new offset needs more or fewer bytes than its field has; `Overlap` if a field is also
/// replaced before; out of memory.
pub fn follow_units(
    alloc: Global,
    abbreviations: &Abbreviations,
    section: &[u8],
    kind: UnitSection,
    own: &Patches,
    shifts: &Shifts<'_>,
) -> Result<Patches, DebugError>
    ensures followed { IfOk result (λ p. AreAllMerged (changes own.now)
        (follow_section kind (tables_of abbreviations.now) (section_shifts shifts.now) (changes own.now) section.now) (changes p)) }
    ensures refused { IfErr result (λ e. (e ≡ Memory) ⊎ ((fault : AFault) × (e ≡ Fault fault) × IsFaultOfAll (changes own.now)
        (follow_section kind (tables_of abbreviations.now) (section_shifts shifts.now) (changes own.now) section.now) fault)) }
{
    let mut out = MergedPatches::new(alloc, own);
    let mut scratch = Vec::new(alloc);
    let mut values = Vec::new(alloc);
    let mut input = Cursor::new(section);
    'units: while !input.is_empty() {
        let unit = Unit::read(&mut input, kind, abbreviations)?;
        let following = Following {
            shifts: *shifts,
            own,
            unit,
        };
        following.follow_unit(&mut values, &mut scratch, &mut out)?;
    }
    out.finish()
}
