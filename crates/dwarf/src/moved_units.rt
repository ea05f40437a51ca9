//! What becomes of the sections of units of a module.

ghost use Rattle.std.specs.Prelude.{◌≡◌, ◌⊎◌, ◌++◌, List as AList, Ok, Err, OnOk, IfOk, IfErr};
ghost use Rattle.dwarf_bytes.specs.declared.fault.DebugFault.{DebugFault as AFault};
ghost use Rattle.dwarf_bytes.specs.declared.fault.DebugError.TheVariants.{Memory, Fault};
ghost use Rattle.dwarf_bytes.specs.Changes.{SectionChange as AChange};
ghost use Rattle.dwarf_bytes.specs.Merging.{AreAllMerged, IsFaultOfAll};
ghost use Rattle.dwarf_bytes.specs.Patches.{changes};
ghost use Rattle.dwarf_info.specs.Following.{follow_section};
ghost use Rattle.dwarf_info.specs.FollowViews.{section_shifts};
ghost use Rattle.dwarf_info.specs.Views.{tables_of};
ghost use Rattle.dwarf.specs.Replacing.{section_with};
ghost use Rattle.dwarf.specs.Sections.{NamedContents, contents_by_name, moved_contents};
ghost use Rattle.dwarf.specs.MovedDebug.{module_resizes, IsUnitsSection, IsUnitsSectionRefused, IsFailureOf, AreUnitSectionsMoved, AreUnitSectionsNotMoved};
ghost use Rattle.dwarf.specs.MovedDebugViews.{entries_of_module, list_shifts};

use crate::failure::{DebugFailure, within};
use crate::moved_entries::AllEntries;
use crate::moved_lists::MovedLists;
use crate::moving::MovedSections;
use crate::replacing::replaced;
use crate::sections::{DebugSections, SectionName};
use dwarf_bytes::{DebugError, Patches};
use dwarf_info::{Abbreviations, Shifts, UnitSection, follow_units};
use std::alloc::Global;

/// What becomes of a section of units, in which these parts are replaced; and offsets follow what they lead to.
fn followed_units(
    alloc: Global,
    abbreviations: &Abbreviations,
    section: &[u8],
    kind: UnitSection,
    own: &Patches,
    shifts: &Shifts<'_>,
) -> Result<Vec<u8>, DebugError>
    ensures followed { IfOk result (λ bytes. (all : AList AChange) × AreAllMerged (changes own.now)
        (follow_section kind (tables_of abbreviations.now) (section_shifts shifts.now) (changes own.now) section.now) all
        × (section_with all section.now ≡ Ok bytes.items)) }
    ensures refused { IfErr result (λ e. (e ≡ Memory) ⊎ ((fault : AFault) × (e ≡ Fault fault)
        × (IsFaultOfAll (changes own.now)
        (follow_section kind (tables_of abbreviations.now) (section_shifts shifts.now) (changes own.now) section.now) fault
        ⊎ ((all : AList AChange) × AreAllMerged (changes own.now)
        (follow_section kind (tables_of abbreviations.now) (section_shifts shifts.now) (changes own.now) section.now) all
        × (section_with all section.now ≡ Err fault))))) }
{
    let all = follow_units(alloc, abbreviations, section, kind, own, shifts)?;
    replaced(alloc, section, &all)
}

/// What becomes of a section of units, in which these parts are replaced; and offsets follow what they lead to, if anything changes its
/// size.
fn applied_units(
    alloc: Global,
    abbreviations: &Abbreviations,
    section: &[u8],
    kind: UnitSection,
    own: &Patches,
    shifts: &Shifts<'_>,
    resizes: bool,
) -> Result<Vec<u8>, DebugError>
    ensures written { IfOk result (λ bytes. IsUnitsSection section.now kind (tables_of abbreviations.now) (section_shifts shifts.now)
        resizes (changes own.now) bytes.items) }
    ensures refused { IfErr result (λ e. (e ≡ Memory) ⊎ ((fault : AFault) × (e ≡ Fault fault)
        × IsUnitsSectionRefused section.now kind (tables_of abbreviations.now) (section_shifts shifts.now) resizes (changes own.now) fault)) }
{
    if resizes {
        return followed_units(alloc, abbreviations, section, kind, own, shifts);
    }
    replaced(alloc, section, own)
}

/// Whether anything changes its size.
fn resizes(entries: &AllEntries<'_>, lists: &MovedLists, addresses: &Patches) -> bool
    ensures { result ≡ module_resizes (entries_of_module entries.now) (list_shifts lists.now) (changes addresses.now) }
{
    entries.info.patches().resizes()
        || (entries.types.patches().resizes() || (lists.resizes() || addresses.resizes()))
}

/// Adds the sections of units.
pub(crate) fn add_units(
    alloc: Global,
    sections: &DebugSections<'_>,
    entries: &AllEntries<'_>,
    lists: &MovedLists,
    addresses: &Patches,
    out: &mut MovedSections,
) -> Result<(), DebugFailure>
    ensures moved { OnOk result ((news : AList NamedContents)
        × AreUnitSectionsMoved (contents_by_name sections.now.sections.items) (entries_of_module entries.now) (list_shifts lists.now) (changes addresses.now) news
        × (moved_contents out.new.sections.items ≡ moved_contents out.old.sections.items ++ news)) }
    ensures refused { IfErr result (IsFailureOf (AreUnitSectionsNotMoved (contents_by_name sections.now.sections.items)
        (entries_of_module entries.now) (list_shifts lists.now) (changes addresses.now))) }
{
    let info = entries.info.patches();
    let types = entries.types.patches();
    let shifts = Shifts {
        info,
        ranges: &lists.ranges,
        locations: &lists.locations,
        range_lists: &lists.range_lists,
        location_lists: &lists.location_lists,
        addresses,
    };
    let resizes = resizes(entries, lists, addresses);
    let tables = &entries.abbreviations;
    let name = SectionName::Info;
    let kind = UnitSection::Info;
    let section = sections.get(name);
    let one = within(
        name,
        applied_units(alloc, tables, section, kind, info, &shifts, resizes),
    )?;
    out.add(name, one)?;
    let name = SectionName::Types;
    let kind = UnitSection::Types;
    let other = within(
        name,
        applied_units(
            alloc,
            tables,
            sections.get(name),
            kind,
            types,
            &shifts,
            resizes,
        ),
    )?;
    out.add(name, other)?;
    Ok(())
}
