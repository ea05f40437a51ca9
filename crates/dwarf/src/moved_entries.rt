//! What becomes of the entries of a module, and of what they use.

ghost use Rattle.std.specs.Prelude.{◌≡◌, ◌⊎◌, [], nat_lt, length, true, false, Ok, Err, IfOk, IfErr, OnOk};
ghost use Rattle.dwarf_bytes.specs.declared.fault.DebugFault.{DebugFault as AFault};
ghost use Rattle.dwarf_bytes.specs.declared.fault.DebugFault.TheVariants as faults;
ghost use Rattle.dwarf_bytes.specs.declared.fault.DebugError.TheVariants.{Memory, Fault};
ghost use Rattle.dwarf_bytes.specs.Patches.{changes};
ghost use Rattle.dwarf_bytes.specs.Uses.{told, lengthened, AreAddressesReplaced, IsFaultOfAddresses};
ghost use Rattle.dwarf_info.specs.Abbreviations.{abbreviation_tables};
ghost use Rattle.dwarf_info.specs.EntryViews.{entries_moved};
ghost use Rattle.dwarf_info.specs.Views.{tables_of};
ghost use Rattle.dwarf.specs.declared.sections.SectionName.TheVariants as names;
ghost use Rattle.dwarf.specs.Sections.{contents_by_name, contents_named};
ghost use Rattle.dwarf.specs.MovedDebug.{section_of_units, keeps_code_of, IsFailureOf, AreUnitsMoved, AreUnitsNotMoved, AreEntriesMoved, AreEntriesNotMoved, names_moved_entries, all_told, all_longer};
ghost use Rattle.dwarf.specs.MovedDebugViews.{debug_setting, entries_of_module};

use crate::failure::{DebugFailure, within};
use crate::lists::ListKind;
use crate::sections::{DebugSections, SectionName};
use code_moves::Moves;
use dwarf_bytes::{AddressUses, DebugError, DebugFault, Patches};
use dwarf_info::{Abbreviations, ListUse, MovedEntries, UnitSection, move_units};
use dwarf_line::Moved;
use std::alloc::Global;

/// The entries of two sections.
#[derive(Drop)]
pub(crate) struct AllEntries<'t> {
    pub abbreviations: Abbreviations,
    pub info: MovedEntries<'t>,
    pub types: MovedEntries<'t>,
}

/// The section of these units.
fn section_of(kind: UnitSection) -> SectionName
    ensures { result ≡ section_of_units kind }
{
    match kind {
        UnitSection::Info => SectionName::Info,
        UnitSection::Types => SectionName::Types,
    }
}

/// Whether there are bytes.
fn has_bytes(bytes: &[u8]) -> bool
    ensures { result ≡ nat_lt 0 (length bytes.now) }
{
    0 < bytes.len()
}

/// Whether the code of functions and of units is noted: where there are address ranges.
fn keeps_code(sections: &DebugSections<'_>, kind: UnitSection) -> bool
    ensures { result ≡ keeps_code_of (contents_by_name sections.now.sections.items) kind }
{
    match kind {
        UnitSection::Info => has_bytes(sections.get(SectionName::AddressRanges)),
        UnitSection::Types => false,
    }
}

/// Reads the abbreviations of the module.
fn read_abbreviations(
    alloc: Global,
    sections: &DebugSections<'_>,
) -> Result<Abbreviations, DebugFailure>
    ensures read { IfOk result (λ a. abbreviation_tables (contents_named (contents_by_name sections.now.sections.items) names.Abbreviations) ≡ Ok (tables_of a)) }
    ensures refused { IfErr result (IsFailureOf (λ section fault. (section ≡ names.Abbreviations)
        × (abbreviation_tables (contents_named (contents_by_name sections.now.sections.items) names.Abbreviations) ≡ Err fault))) }
{
    let name = SectionName::Abbreviations;
    within(name, Abbreviations::read(alloc, sections.get(name)))
}

/// Moves the entries of a section of the module, of which line tables go there.
fn moved_units<'t>(
    alloc: Global,
    sections: &DebugSections<'_>,
    moves: &Moves,
    tables: &'t [Moved],
    abbreviations: &Abbreviations,
    kind: UnitSection,
) -> Result<MovedEntries<'t>, DebugFailure>
    ensures moved { IfOk result (λ e. AreUnitsMoved (debug_setting sections.now moves.now) tables.entry.now (tables_of abbreviations.now) kind (entries_moved e)) }
    ensures refused { IfErr result (IsFailureOf (AreUnitsNotMoved (debug_setting sections.now moves.now) tables.entry.now (tables_of abbreviations.now) kind)) }
{
    let mut entries = MovedEntries::new(alloc, tables, keeps_code(sections, kind));
    let name = section_of(kind);
    let section = sections.get(name);
    let addresses = sections.get(SectionName::Addresses);
    let moved = move_units(
        alloc,
        moves,
        abbreviations,
        section,
        kind,
        addresses,
        &mut entries,
    );
    within(name, moved)?;
    Ok(entries)
}

impl<'t> AllEntries<'t> {
    ghost use Rattle.std.specs.Prelude.{◌≡◌, IfOk, IfErr};
    ghost use Rattle.dwarf_info.specs.EntryViews.{entries_moved};
    ghost use Rattle.dwarf.specs.MovedDebug.{lists_used, IsFailureOf, AreEntriesMoved, AreEntriesNotMoved};
    ghost use Rattle.dwarf.specs.MovedDebugViews.{debug_setting, entries_of_module};

    /// Moves the entries of the module, of which line tables go there.
    pub(crate) fn moved(
        alloc: Global,
        sections: &DebugSections<'_>,
        moves: &Moves,
        tables: &'t [Moved],
    ) -> Result<AllEntries<'t>, DebugFailure>
        ensures moved { IfOk result (λ e. AreEntriesMoved (debug_setting sections.now moves.now) tables.entry.now (entries_of_module e)) }
        ensures refused { IfErr result (IsFailureOf (AreEntriesNotMoved (debug_setting sections.now moves.now) tables.entry.now)) }
    {
        let abbreviations = read_abbreviations(alloc, sections)?;
        let kind = UnitSection::Info;
        let info = moved_units(alloc, sections, moves, tables, &abbreviations, kind)?;
        let kind = UnitSection::Types;
        let types = moved_units(alloc, sections, moves, tables, &abbreviations, kind)?;
        Ok(AllEntries {
            abbreviations,
            info,
            types,
        })
    }

    /// The lists of this kind that they use, among others.
    pub(crate) fn lists(&self, kind: ListKind) -> (&[ListUse], &[ListUse])
        ensures info { result.0.now ≡ lists_used kind (entries_moved self.now.info) }
        ensures types { result.1.now ≡ lists_used kind (entries_moved self.now.types) }
    {
        match kind {
            ListKind::Ranges | ListKind::RangeLists => (self.info.ranges(), self.types.ranges()),
            ListKind::Locations | ListKind::LocationLists => {
                (self.info.locations(), self.types.locations())
            }
        }
    }
}

/// Whether an expression names an entry that is at another place.
fn names_moved_entries(entries: &AllEntries<'_>) -> bool
    ensures { result ≡ names_moved_entries (entries_of_module entries.now) }
{
    (entries.info.names_entries() || entries.types.names_entries())
        && (entries.info.patches().resizes() || entries.types.patches().resizes())
}

/// Checks that no expression names an entry that is at another place.
pub(crate) fn check_names_in_expressions(entries: &AllEntries<'_>) -> Result<(), DebugFailure>
    ensures none { OnOk result (names_moved_entries (entries_of_module entries.now) ≡ false) }
    ensures refused { IfErr result (λ f. (f.section ≡ names.Info) × (f.error ≡ Fault faults.Unsupported)
        × (names_moved_entries (entries_of_module entries.now) ≡ true)) }
{
    if names_moved_entries(entries) {
        return Err(DebugFailure::fault(SectionName::Info, DebugFault::Unsupported));
    }
    Ok(())
}

/// What is replaced among the addresses that are named by index, which lists and entries of two sections use so.
pub(crate) fn move_addresses(
    alloc: Global,
    mut uses: AddressUses,
    entries: &AllEntries<'_>,
) -> Result<Patches, DebugError>
    requires { lengthened uses ≡ [] }
    ensures replaced { IfOk result (λ p. AreAddressesReplaced (all_told (entries_of_module entries.now) (told uses))
        (all_longer (entries_of_module entries.now)) (changes p)) }
    ensures refused { IfErr result (λ e. (e ≡ Memory) ⊎ ((fault : AFault) × (e ≡ Fault fault)
        × IsFaultOfAddresses (all_told (entries_of_module entries.now) (told uses)) (all_longer (entries_of_module entries.now)) fault)) }
{
    uses.add_all(entries.info.addresses())?;
    uses.add_all(entries.types.addresses())?;
    uses.patches(alloc)
}
