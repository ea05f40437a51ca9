//! Lists of ranges and of locations, each moved once.

ghost use Rattle.std.specs.Prelude.{◌≡◌, ◌<◌, ◌+◌, ◌*◌, IfSome, IfNone};
ghost use Rattle.dwarf_bytes.specs.Numbers.{size_in_bytes, offset_size};
ghost use Rattle.dwarf.specs.PlacedLists.{offset_by_index, offset_of_place, list_placed, is_same_encoding, is_same_list};

use crate::list_tables::follow_list_tables;
use crate::replacing::replaced;
use crate::sections::{DebugSections, SectionName};
use code_moves::Moves;
use dwarf_bytes::{
    AddressTable, AddressUses, DebugError, DebugFault, Format, Patches, read_offset,
};
use dwarf_expressions::Encoding;
use dwarf_info::{ListPlace, ListUse};
use dwarf_lists::{List, move_locations, move_ranges};
use dwarf_new_lists::{NewList, move_location_list, move_range_list};
use std::alloc::Global;

/// What the lists of a section are.
#[derive(Clone, Copy, Debug, PartialEq, Eq)]
pub(crate) enum ListKind {
    /// Lists of ranges, up to DWARF 4: `.debug_ranges`.
    Ranges,
    /// Lists of locations, up to DWARF 4: `.debug_loc`.
    Locations,
    /// Lists of ranges, from DWARF 5 on: `.debug_rnglists`.
    RangeLists,
    /// Lists of locations, from DWARF 5 on: `.debug_loclists`.
    LocationLists,
}

impl ListKind {
    ghost use Rattle.std.specs.Prelude.{◌≡◌};
    ghost use Rattle.dwarf.specs.PlacedLists.{has_lists, has_list_tables};
    ghost use Rattle.dwarf.specs.Sections.{section_of_lists};

    /// The section of these lists.
    pub(crate) fn section(self) -> SectionName
        ensures { result ≡ section_of_lists self }
    {
        match self {
            ListKind::Ranges => SectionName::Ranges,
            ListKind::Locations => SectionName::Locations,
            ListKind::RangeLists => SectionName::RangeLists,
            ListKind::LocationLists => SectionName::LocationLists,
        }
    }

    /// Whether units of this version have lists of this kind.
    fn is_of(self, version: u16) -> bool
        ensures { result ≡ has_lists self version }
    {
        match self {
            ListKind::Ranges | ListKind::Locations => version < 5,
            ListKind::RangeLists | ListKind::LocationLists => version >= 5,
        }
    }

    /// Whether the section has tables of the offsets of lists.
    fn has_tables(self) -> bool
        ensures { result ≡ has_list_tables self }
    {
        match self {
            ListKind::Ranges | ListKind::Locations => false,
            ListKind::RangeLists | ListKind::LocationLists => true,
        }
    }
}

/// The lists of a section, and what else is read for them.
#[derive(Clone, Copy)]
pub(crate) struct ListSection<'a> {
    /// What they are.
    pub kind: ListKind,
    /// The section.
    pub contents: &'a [u8],
    /// The contents of `.debug_addr`.
    pub addresses: &'a [u8],
}

/// A list at an offset.
#[derive(Clone, Copy, Debug, PartialEq, Eq)]
struct PlacedList {
    list: List,
    /// The offset of its unit's addresses in `.debug_addr`.
    addresses: u64,
}

/// The last list that was moved, if there is one, and where it ends.
#[derive(Clone, Copy)]
struct LastList {
    list: Option<PlacedList>,
    end: usize,
}

/// Where the offset of this index is, in a table of which this is the first offset.
fn place_of_offset(format: Format, base: u64, index: u64) -> Option<usize>
    ensures some { IfSome result (λ at. at ≡ index * size_in_bytes (offset_size format) + base) }
    ensures none { IfNone result (usize.MAX < index * size_in_bytes (offset_size format) + base) }
{
    let size = format.offset_size().bytes() as u64;
    let at = index.checked_mul(size)?.checked_add(base)?;
    usize::try_from(at).ok()
}

/// The offset of a list into its section, by its index.
fn offset_by_index(
    section: &[u8],
    format: Format,
    base: u64,
    index: u64,
) -> Result<usize, DebugFault>
    ensures { result ≡ offset_by_index section.now format base index }
{
    let at = place_of_offset(format, base, index).ok_or(DebugFault::BadOffset)?;
    let rest = section.get(at..).ok_or(DebugFault::BadOffset)?;
    let (distance, _) = read_offset(format, rest)?;
    match distance.checked_add(base) {
        Some(offset) => Ok(offset as usize),
        None => Err(DebugFault::BadOffset),
    }
}

/// The offset of a list into its section.
fn offset_of(section: &[u8], format: Format, place: ListPlace) -> Result<usize, DebugFault>
    ensures { result ≡ offset_of_place section.now format place }
{
    match place {
        ListPlace::Offset(offset) => Ok(offset as usize),
        ListPlace::Index(base, index) => offset_by_index(section, format, base, index),
    }
}

/// A list with its offset.
fn placed(section: &[u8], list: &ListUse) -> Result<PlacedList, DebugFault>
    ensures { result ≡ list_placed section.now list.now }
{
    let offset = offset_of(section, list.encoding.format, list.place)?;
    Ok(PlacedList {
        list: List {
            offset,
            base: list.base,
            encoding: list.encoding,
        },
        addresses: list.addresses,
    })
}

/// Whether the numbers of two units are written in one way.
fn is_same_encoding(one: Encoding, other: Encoding) -> bool
    ensures { result ≡ is_same_encoding one other }
{
    one.version == other.version
        && (one.offset_size().bytes() == other.offset_size().bytes()
            && one.address_size.bytes() == other.address_size.bytes())
}

/// Whether two lists are the same.
fn is_same_list(one: &PlacedList, other: &PlacedList) -> bool
    ensures { result ≡ is_same_list one.now other.now }
{
    one.list.offset == other.list.offset
        && (one.list.base == other.list.base
            && (one.addresses == other.addresses
                && is_same_encoding(one.list.encoding, other.list.encoding)))
}

impl LastList {
    ghost use Rattle.std.specs.Prelude.{◌≡◌};
    ghost use Rattle.dwarf.specs.PlacedLists.{is_last_list};

    /// Whether it is this one.
    fn is_again(&self, list: &PlacedList) -> bool
        ensures { result ≡ is_last_list self.now.list list.now }
    {
        match &self.list {
            Some(last) => is_same_list(last, list),
            None => false,
        }
    }
}

impl<'a> ListSection<'a> {
    ghost use Rattle.std.specs.Prelude.{◌≡◌, ◌⊎◌, ◌++◌, List as AList, None, Ok, Err, IfOk, IfErr, OnOk};
    ghost use Rattle.dwarf_bytes.specs.declared.fault.DebugFault.{DebugFault as AFault};
    ghost use Rattle.dwarf_bytes.specs.declared.fault.DebugError.TheVariants.{Memory, Fault};
    ghost use Rattle.dwarf_bytes.specs.Changes.{SectionChange as AChange};
    ghost use Rattle.dwarf_bytes.specs.Merging.{AreAllMerged, IsFaultOfAll};
    ghost use Rattle.dwarf_bytes.specs.Patches.{changes};
    ghost use Rattle.dwarf_bytes.specs.Uses.{told, lengthened};
    ghost use Rattle.dwarf.specs.Sections.{contents_by_name, contents_named, section_of_lists};
    ghost use Rattle.dwarf.specs.declared.lists.PlacedList.{PlacedList as APlacedList};
    ghost use Rattle.dwarf.specs.declared.sections.SectionName.TheVariants.{Addresses};
    ghost use Rattle.dwarf.specs.PlacedLists.{list_of_kind, placed_lists, lists_by_offset, IsListMoved, IsListRefused, IsNextListMoved, IsNextListRefused, AreListsMoved, IsFaultOfLists, AreListsReplaced, AreListsRefused, IsListSection, IsListSectionRefused};
    ghost use Rattle.dwarf.specs.ListTables.{list_section_steps};
    ghost use Rattle.dwarf.specs.Replacing.{section_with};
    ghost use Rattle.dwarf.specs.PlacedListsViews.{lists_setting, lists_moved};

    /// The section with lists of this kind.
    pub(crate) fn of(sections: &DebugSections<'a>, kind: ListKind) -> ListSection<'a>
        ensures kind { result.kind ≡ kind }
        ensures contents { result.contents.now ≡ contents_named (contents_by_name sections.now.sections.items) (section_of_lists kind) }
        ensures addresses { result.addresses.now ≡ contents_named (contents_by_name sections.now.sections.items) Addresses }
    {
        ListSection {
            kind,
            contents: sections.get(kind.section()),
            addresses: sections.get(SectionName::Addresses),
        }
    }

    /// Adds a list, if it is in this section.
    fn add_list(&self, list: &ListUse, lists: &mut Vec<PlacedList>) -> Result<(), DebugError>
        ensures added { OnOk result ((added : AList APlacedList) × (list_of_kind self.now.kind self.now.contents.now list.now ≡ Ok added)
            × (lists.new.items ≡ lists.old.items ++ added)) }
        ensures refused { IfErr result (λ e. (e ≡ Memory) ⊎ ((fault : AFault) × (e ≡ Fault fault)
            × (list_of_kind self.now.kind self.now.contents.now list.now ≡ Err fault))) }
    {
        if !self.kind.is_of(list.encoding.version) {
            return Ok(());
        }
        let placed = placed(self.contents, list)?;
        lists.push(placed)?;
        Ok(())
    }

    /// Adds those of the lists that are in this section.
    fn add_lists(&self, uses: &[ListUse], lists: &mut Vec<PlacedList>) -> Result<(), DebugError>
        ensures added { OnOk result ((added : AList APlacedList) × (placed_lists self.now.kind self.now.contents.now uses.now ≡ Ok added)
            × (lists.new.items ≡ lists.old.items ++ added)) }
        ensures refused { IfErr result (λ e. (e ≡ Memory) ⊎ ((fault : AFault) × (e ≡ Fault fault)
            × (placed_lists self.now.kind self.now.contents.now uses.now ≡ Err fault))) }
    {
        'each: for list in uses {
            self.add_list(list, lists)?;
        }
        Ok(())
    }

    /// Those of the lists that are in this section, by ascending offsets.
    fn sorted_lists(
        &self,
        alloc: Global,
        uses: (&[ListUse], &[ListUse]),
    ) -> Result<Vec<PlacedList>, DebugError>
        ensures sorted { IfOk result (λ lists. lists_by_offset self.now.kind self.now.contents.now uses.entry.0.now uses.entry.1.now ≡ Ok lists.items) }
        ensures refused { IfErr result (λ e. (e ≡ Memory) ⊎ ((fault : AFault) × (e ≡ Fault fault)
            × (lists_by_offset self.now.kind self.now.contents.now uses.entry.0.now uses.entry.1.now ≡ Err fault))) }
    {
        let mut lists = Vec::new(alloc);
        self.add_lists(uses.0, &mut lists)?;
        self.add_lists(uses.1, &mut lists)?;
        lists.sort_by_key(|list: &PlacedList| list.list.offset)?;
        Ok(lists)
    }

    /// Moves a list, and returns where it ends.
    fn move_list(
        &self,
        list: &PlacedList,
        moves: &Moves,
        uses: &mut AddressUses,
        patches: &mut Patches,
    ) -> Result<usize, DebugError>
        ensures moved { IfOk result (λ end. IsListMoved self.now.kind (lists_setting self.now moves.now) list.now end
            (changes patches.old) (changes patches.new) (told uses.old) (told uses.new)) }
        ensures refused { IfErr result (λ e. (e ≡ Memory) ⊎ ((fault : AFault) × (e ≡ Fault fault)
            × IsListRefused self.now.kind (lists_setting self.now moves.now) list.now (changes patches.old) fault)) }
        ensures tables { lengthened uses.new ≡ lengthened uses.old }
    {
        let addresses = AddressTable {
            section: self.addresses,
            base: list.addresses,
            size: list.list.encoding.address_size,
        };
        let (section, list) = (self.contents, &list.list);
        let new = NewList {
            offset: list.offset,
            base: list.base,
            encoding: list.encoding,
        };
        match self.kind {
            ListKind::Ranges => move_ranges(section, list, moves, patches),
            ListKind::Locations => move_locations(section, list, moves, patches),
            ListKind::RangeLists => {
                move_range_list(section, &new, &addresses, moves, uses, patches)
            }
            ListKind::LocationLists => {
                move_location_list(section, &new, &addresses, moves, uses, patches)
            }
        }
    }

    /// Moves the next list, unless it is the last one again. Returns the last one then.
    fn move_next(
        &self,
        last: LastList,
        list: &PlacedList,
        moves: &Moves,
        uses: &mut AddressUses,
        patches: &mut Patches,
    ) -> Result<LastList, DebugError>
        ensures moved { IfOk result (λ next. IsNextListMoved (lists_setting self.now moves.now) list.now
            (lists_moved last patches.old uses.old) (lists_moved next patches.new uses.new)) }
        ensures refused { IfErr result (λ e. (e ≡ Memory) ⊎ ((fault : AFault) × (e ≡ Fault fault)
            × IsNextListRefused (lists_setting self.now moves.now) list.now (lists_moved last patches.old uses.old) fault)) }
        ensures tables { lengthened uses.new ≡ lengthened uses.old }
    {
        if last.is_again(list) {
            return Ok(last);
        }
        if list.list.offset < last.end {
            return Err(DebugError::Fault(DebugFault::Overlap));
        }
        let end = self.move_list(list, moves, uses, patches)?;
        Ok(LastList {
            list: Some(*list),
            end,
        })
    }

    /// Moves lists, which are by ascending offsets.
    fn move_lists(
        &self,
        lists: &[PlacedList],
        moves: &Moves,
        uses: &mut AddressUses,
        patches: &mut Patches,
    ) -> Result<LastList, DebugError>
        ensures moved { IfOk result (λ last. AreListsMoved (lists_setting self.now moves.now) lists.now
            (record { last = None; end = 0; changes = changes patches.old; told = told uses.old }) (lists_moved last patches.new uses.new)) }
        ensures refused { IfErr result (λ e. (e ≡ Memory) ⊎ ((fault : AFault) × (e ≡ Fault fault)
            × IsFaultOfLists (lists_setting self.now moves.now) lists.now
            (record { last = None; end = 0; changes = changes patches.old; told = told uses.old }) fault)) }
        ensures tables { lengthened uses.new ≡ lengthened uses.old }
    {
        let mut last = LastList { list: None, end: 0 };
        'each: for list in lists {
            last = self.move_next(last, list, moves, uses, patches)?;
        }
        Ok(last)
    }

    /// What is replaced in the section, of which entries of two sections use these lists.
    ///
    /// # Errors
    ///
    /// `Overlap` if lists overlap, or if entries count one list from different addresses; those of the calls that move a list.
    pub(crate) fn patches(
        &self,
        alloc: Global,
        uses: (&[ListUse], &[ListUse]),
        moves: &Moves,
        addresses: &mut AddressUses,
    ) -> Result<Patches, DebugError>
        ensures replaced { IfOk result (λ p. AreListsReplaced (lists_setting self.now moves.now) uses.entry.0.now uses.entry.1.now
            (told addresses.old) (changes p) (told addresses.new)) }
        ensures refused { IfErr result (λ e. (e ≡ Memory) ⊎ ((fault : AFault) × (e ≡ Fault fault)
            × AreListsRefused (lists_setting self.now moves.now) uses.entry.0.now uses.entry.1.now (told addresses.old) fault)) }
        ensures tables { lengthened addresses.new ≡ lengthened addresses.old }
    {
        let lists = self.sorted_lists(alloc, uses)?;
        let mut patches = Patches::new(alloc);
        self.move_lists(&lists, moves, addresses, &mut patches)?;
        Ok(patches)
    }

    /// The section in whose lists these parts are replaced, and whose tables follow.
    fn followed(&self, alloc: Global, patches: &Patches) -> Result<Vec<u8>, DebugError>
        ensures followed { IfOk result (λ bytes. (all : AList AChange) × AreAllMerged (changes patches.now)
            (list_section_steps (changes patches.now) self.now.contents.now) all × (section_with all self.now.contents.now ≡ Ok bytes.items)) }
        ensures refused { IfErr result (λ e. (e ≡ Memory) ⊎ ((fault : AFault) × (e ≡ Fault fault)
            × (IsFaultOfAll (changes patches.now) (list_section_steps (changes patches.now) self.now.contents.now) fault
            ⊎ ((all : AList AChange) × AreAllMerged (changes patches.now) (list_section_steps (changes patches.now) self.now.contents.now) all
            × (section_with all self.now.contents.now ≡ Err fault))))) }
    {
        let all = follow_list_tables(alloc, self.contents, patches)?;
        replaced(alloc, self.contents, &all)
    }

    /// What becomes of the section, in whose lists these parts are replaced.
    pub(crate) fn applied(&self, alloc: Global, patches: &Patches) -> Result<Vec<u8>, DebugError>
        ensures written { IfOk result (λ bytes. IsListSection self.now.kind self.now.contents.now (changes patches.now) bytes.items) }
        ensures refused { IfErr result (λ e. (e ≡ Memory) ⊎ ((fault : AFault) × (e ≡ Fault fault)
            × IsListSectionRefused self.now.kind self.now.contents.now (changes patches.now) fault)) }
    {
        if self.kind.has_tables() && patches.resizes() {
            return self.followed(alloc, patches);
        }
        replaced(alloc, self.contents, patches)
    }
}
