//! What becomes of the sections of lists of a module.

ghost use Rattle.std.specs.Prelude.{◌≡◌, ◌++◌, ◌∷◌, [], ℕ, List as AList, IfOk, IfErr};
ghost use Rattle.dwarf_bytes.specs.Patches.{changes};
ghost use Rattle.dwarf_bytes.specs.Uses.{told, lengthened};
ghost use Rattle.dwarf.specs.Sections.{moved_contents, section_of_lists};
ghost use Rattle.dwarf.specs.MovedDebug.{shifting_changes, IsFailureOf, IsListSectionMoved, IsListSectionNotMoved};
ghost use Rattle.dwarf.specs.MovedDebugViews.{debug_setting, entries_of_module};

use crate::failure::{DebugFailure, within};
use crate::lists::{ListKind, ListSection};
use crate::moved_entries::AllEntries;
use crate::moving::MovedSections;
use crate::sections::DebugSections;
use code_moves::Moves;
use dwarf_bytes::{AddressUses, Patches};
use std::alloc::Global;

/// What is replaced in those sections of lists where something changes its size.
#[derive(Drop)]
pub(crate) struct MovedLists {
    pub ranges: Patches,
    pub locations: Patches,
    pub range_lists: Patches,
    pub location_lists: Patches,
}

/// What is replaced if something changes its size, and nothing otherwise: no offset into the section changes then, so what is replaced needn't
/// be in memory any longer.
fn shifting(alloc: Global, patches: Patches) -> Patches
    ensures { changes result ≡ shifting_changes (changes patches) }
{
    match patches.resizes() {
        true => patches,
        false => Patches::new(alloc),
    }
}

/// Adds a section of lists, as its lists become. Returns what is replaced in it if something changes its size.
fn add_lists(
    alloc: Global,
    sections: &DebugSections<'_>,
    kind: ListKind,
    entries: &AllEntries<'_>,
    moves: &Moves,
    addresses: &mut AddressUses,
    out: &mut MovedSections,
) -> Result<Patches, DebugFailure>
    ensures moved { IfOk result (λ p. (new : AList ℕ)
        × IsListSectionMoved (debug_setting sections.now moves.now) (entries_of_module entries.now) kind
        (told addresses.old) (changes p) new (told addresses.new)
        × (moved_contents out.new.sections.items ≡ moved_contents out.old.sections.items ++ (section_of_lists kind, new) ∷ [])) }
    ensures refused { IfErr result (IsFailureOf (IsListSectionNotMoved (debug_setting sections.now moves.now)
        (entries_of_module entries.now) kind (told addresses.old))) }
    ensures tables { lengthened addresses.new ≡ lengthened addresses.old }
{
    let section = ListSection::of(sections, kind);
    let uses = entries.lists(kind);
    let name = kind.section();
    let patches = within(name, section.patches(alloc, uses, moves, addresses))?;
    let contents = within(name, section.applied(alloc, &patches))?;
    out.add(name, contents)?;
    Ok(shifting(alloc, patches))
}

impl MovedLists {
    ghost use Rattle.std.specs.Prelude.{◌≡◌, ◌++◌, List as AList, IfOk, IfErr};
    ghost use Rattle.dwarf_bytes.specs.Uses.{told, lengthened};
    ghost use Rattle.dwarf.specs.Sections.{NamedContents, moved_contents};
    ghost use Rattle.dwarf.specs.MovedDebug.{each_shift, list_kinds, lists_resize, IsFailureOf, AreListSectionsMoved, AreListSectionsNotMoved};
    ghost use Rattle.dwarf.specs.MovedDebugViews.{debug_setting, entries_of_module, list_shifts};

    /// Moves all lists, and adds their sections.
    pub(crate) fn moved(
        alloc: Global,
        sections: &DebugSections<'_>,
        entries: &AllEntries<'_>,
        moves: &Moves,
        uses: &mut AddressUses,
        out: &mut MovedSections,
    ) -> Result<MovedLists, DebugFailure>
        ensures moved { IfOk result (λ l. (news : AList NamedContents)
            × AreListSectionsMoved (debug_setting sections.now moves.now) (entries_of_module entries.now) list_kinds
            (told uses.old) (each_shift (list_shifts l)) news (told uses.new)
            × (moved_contents out.new.sections.items ≡ moved_contents out.old.sections.items ++ news)) }
        ensures refused { IfErr result (IsFailureOf (AreListSectionsNotMoved (debug_setting sections.now moves.now)
            (entries_of_module entries.now) list_kinds (told uses.old))) }
        ensures tables { lengthened uses.new ≡ lengthened uses.old }
    {
        let kind = ListKind::Ranges;
        let ranges = add_lists(alloc, sections, kind, entries, moves, uses, out)?;
        let kind = ListKind::Locations;
        let locations = add_lists(alloc, sections, kind, entries, moves, uses, out)?;
        let kind = ListKind::RangeLists;
        let range_lists = add_lists(alloc, sections, kind, entries, moves, uses, out)?;
        let kind = ListKind::LocationLists;
        let location_lists = add_lists(alloc, sections, kind, entries, moves, uses, out)?;
        Ok(MovedLists {
            ranges,
            locations,
            range_lists,
            location_lists,
        })
    }

    /// Whether a list changes its size.
    pub(crate) fn resizes(&self) -> bool
        ensures { result ≡ lists_resize (list_shifts self.now) }
    {
        self.ranges.resizes()
            || (self.locations.resizes()
                || (self.range_lists.resizes() || self.location_lists.resizes()))
    }
}
