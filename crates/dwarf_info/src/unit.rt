//! Units: what an entry belongs to, and how it is spelt (DWARF 5, section 7.5.1).

ghost use Rattle.std.specs.Prelude.{◌≡◌, ◌<◌, ◌≤◌, ◌-◌, length, OnOk};
ghost use Rattle.wasm_numbers.specs.Results.{Gives};
ghost use Rattle.dwarf_info.specs.Units.{size_of_address, type_offset_at, old_type_offset, old_header, new_type_offset, new_header, header_of_version, unit_of_part, spelled_unit};
ghost use Rattle.dwarf_info.specs.Views.{tables_of};
ghost use Rattle.dwarf_info.specs.UnitViews.{header_of, unit_of};

use crate::abbreviations::{AbbreviationTable, Abbreviations};
use dwarf_bytes::{Cursor, DebugFault, Format, Size};
use dwarf_expressions::Encoding;

/// The section that a unit is in.
#[derive(Clone, Copy, Debug, PartialEq, Eq)]
pub enum UnitSection {
    /// `.debug_info`.
    Info,
    /// `.debug_types`, of DWARF 4.
    Types,
}

/// A unit.
#[derive(Clone, Copy)]
pub struct Unit<'a> {
    /// The place of its first byte.
    pub start: usize,
    /// How it is spelt.
    pub encoding: Encoding,
    /// Its abbreviations.
    pub abbreviations: AbbreviationTable<'a>,
    /// Of a type unit, where its header says where the type is, and what it says: an offset from the unit's first byte.
    pub type_offset: Option<(usize, u64)>,
    /// Its entries.
    pub entries: Cursor<'a>,
}

/// What the header of a unit says after its version.
#[derive(Clone, Copy)]
struct Header {
    address_size: Size,
    /// The offset of its abbreviations.
    abbreviations: u64,
    type_offset: Option<(usize, u64)>,
}

/// The size of an address, if it is four or eight bytes.
fn address_size(size: u8) -> Result<Size, DebugFault>
    ensures { result ≡ size_of_address size }
{
    match size {
        4 => Ok(Size::Four),
        8 => Ok(Size::Eight),
        _ => Err(DebugFault::Unsupported),
    }
}

/// Reads what the header of a type unit has at its end: its signature, and the place of the type.
fn read_type(input: &mut Cursor<'_>, format: Format) -> Result<Option<(usize, u64)>, DebugFault>
    ensures gives { Gives (λ x. (x, input.new.rest.now)) result (type_offset_at format input.old.end input.old.rest.now) }
    ensures end { input.new.end ≡ input.old.end }
{
    input.sized(Size::Eight)?;
    let at = input.at();
    let offset = input.sized(format.offset_size())?;
    Ok(Some((at, offset)))
}

/// Reads what the header of a unit of this type of DWARF 5 has after the offset of its abbreviations.
fn read_new_type(
    unit_type: u8,
    input: &mut Cursor<'_>,
    format: Format,
) -> Result<Option<(usize, u64)>, DebugFault>
    ensures gives { Gives (λ x. (x, input.new.rest.now)) result (new_type_offset unit_type format input.old.end input.old.rest.now) }
    ensures end { input.new.end ≡ input.old.end }
{
    match unit_type {
        // DW_UT_compile, DW_UT_partial
        1 | 3 => Ok(None),
        // DW_UT_type
        2 => read_type(input, format),
        _ => Err(DebugFault::Unsupported),
    }
}

/// Reads what the header of a unit of DWARF 5 has from its type on: the size of an address, the offset of its abbreviations,
/// and what a type unit has more.
fn read_new_header(input: &mut Cursor<'_>, format: Format) -> Result<Header, DebugFault>
    ensures gives { Gives (λ h. (header_of h, input.new.rest.now)) result (new_header format input.old.end input.old.rest.now) }
    ensures end { input.new.end ≡ input.old.end }
{
    let unit_type = input.byte()?;
    let address_size = address_size(input.byte()?)?;
    let abbreviations = input.sized(format.offset_size())?;
    let type_offset = read_new_type(unit_type, input, format)?;
    Ok(Header {
        address_size,
        abbreviations,
        type_offset,
    })
}

/// Reads what the header of a unit of DWARF 2 to 4 has after the size of an address.
fn read_old_type(
    section: UnitSection,
    input: &mut Cursor<'_>,
    format: Format,
) -> Result<Option<(usize, u64)>, DebugFault>
    ensures gives { Gives (λ x. (x, input.new.rest.now)) result (old_type_offset section format input.old.end input.old.rest.now) }
    ensures end { input.new.end ≡ input.old.end }
{
    match section {
        UnitSection::Info => Ok(None),
        UnitSection::Types => read_type(input, format),
    }
}

/// Reads what the header of a unit of DWARF 2 to 4 has after its version.
fn read_old_header(
    input: &mut Cursor<'_>,
    format: Format,
    section: UnitSection,
) -> Result<Header, DebugFault>
    ensures gives { Gives (λ h. (header_of h, input.new.rest.now)) result (old_header section format input.old.end input.old.rest.now) }
    ensures end { input.new.end ≡ input.old.end }
{
    let abbreviations = input.sized(format.offset_size())?;
    let address_size = address_size(input.byte()?)?;
    let type_offset = read_old_type(section, input, format)?;
    Ok(Header {
        address_size,
        abbreviations,
        type_offset,
    })
}

/// Reads what the header of a unit of this version has after it.
fn read_header(
    version: u64,
    input: &mut Cursor<'_>,
    format: Format,
    section: UnitSection,
) -> Result<Header, DebugFault>
    ensures gives { Gives (λ h. (header_of h, input.new.rest.now)) result (header_of_version version section format input.old.end input.old.rest.now) }
    ensures end { input.new.end ≡ input.old.end }
{
    match version {
        2..=4 => read_old_header(input, format, section),
        5 => read_new_header(input, format),
        _ => Err(DebugFault::UnknownVersion),
    }
}

impl<'a> Unit<'a> {
    /// The unit at this place, whose bytes after its length are these.
    #[tactic(auto, unfolding(crate::specs::Units::unit_of_part))]
    fn of_part(
        start: usize,
        format: Format,
        mut part: Cursor<'a>,
        section: UnitSection,
        abbreviations: &'a Abbreviations,
    ) -> Result<Unit<'a>, DebugFault>
        ensures { Gives unit_of result (unit_of_part section (tables_of abbreviations.now) format start part.entry.end part.entry.rest.now) }
    {
        let version = part.sized(Size::Two)?;
        let header = read_header(version, &mut part, format, section)?;
        Ok(Unit {
            start,
            encoding: Encoding {
                version: version as u16,
                format,
                address_size: header.address_size,
            },
            abbreviations: abbreviations.table(header.abbreviations)?,
            type_offset: header.type_offset,
            entries: part,
        })
    }

    /// Reads the header of the next unit, and moves past the unit.
    ///
    /// # Errors
    ///
    /// `Truncated`, `BadLength`, `UnknownVersion`; `BadOffset` if no abbreviations are where they should be; `Unsupported` if
    /// an address has neither four nor eight bytes, or if the lists of the unit are in another file.
    #[tactic(auto, unfolding(crate::specs::Units::spelled_unit))]
    pub fn read(
        input: &mut Cursor<'a>,
        section: UnitSection,
        abbreviations: &'a Abbreviations,
    ) -> Result<Unit<'a>, DebugFault>
        ensures gives { Gives (λ u. (unit_of u, input.new.rest.now)) result
            (spelled_unit section (tables_of abbreviations.now) input.old.end input.old.rest.now) }
        ensures end { input.new.end ≡ input.old.end }
        ensures shorter { OnOk result (length input.new.rest.now < length input.old.rest.now) }
    {
        let start = input.at();
        let (format, length) = input.initial_length()?;
        let part = input.part(length)?;
        Unit::of_part(start, format, part, section, abbreviations)
    }
}
