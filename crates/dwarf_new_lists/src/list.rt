//! Lists.

ghost use Rattle.std.specs.Prelude.{◌≡◌, ◌<◌, ◌≤◌, ◌⊎◌, length, drop, IfOk, OnOk, IfErr, OnErr};
ghost use Rattle.dwarf_bytes.specs.declared.fault.DebugError.TheVariants.{Memory, Fault};
ghost use Rattle.dwarf_bytes.specs.declared.fault.DebugFault.{DebugFault as AFault};
ghost use Rattle.dwarf_bytes.specs.declared.fault.DebugFault.TheVariants.{BadOffset};
ghost use Rattle.dwarf_bytes.specs.Uses.{told, lengthened};
ghost use Rattle.dwarf_bytes.specs.Patches.{changes};
ghost use Rattle.dwarf_new_lists.specs.declared.kind.Lists.TheVariants as lists;
ghost use Rattle.dwarf_new_lists.specs.NewLists.{IsMovedListOfNewList};
ghost use Rattle.dwarf_new_lists.specs.Refusals.{IsRefusedListOfNewList};

use crate::entry::read_entry;
use crate::kind::Lists;
use crate::moving::{Base, Context};
use crate::saying::says;
use crate::writing::write_entry;
use code_moves::Moves;
use dwarf_bytes::{AddressTable, AddressUses, DebugError, DebugFault, Patches};
use dwarf_expressions::Encoding;
use std::alloc::Global;

/// A list at an offset.
#[derive(Clone, Copy, Debug, PartialEq, Eq)]
pub struct NewList {
    /// The offset into its section.
    pub offset: usize,
    /// The address that its entries are counted from, until one says another: that of the unit (DWARF 5, section 3.1.1).
    pub base: u64,
    /// How the numbers of the unit are written.
    pub encoding: Encoding,
}

// the bytes of a section from this offset on
fn bytes_from(section: &[u8], offset: usize) -> Result<&[u8], DebugFault>
    ensures bytes { IfOk result (λ bytes. bytes.now ≡ drop offset section.now) }
    ensures within { OnOk result (offset ≤ length section.now) }
    ensures refused { IfErr result (λ fault. (fault ≡ BadOffset) × (length section.now < offset)) }
{
    section.get(offset..).ok_or(DebugFault::BadOffset)
}

// what follows an entry
#[derive(Clone, Copy)]
struct Step<'a> {
    /// The bytes that follow.
    rest: &'a [u8],
    /// The base of what follows.
    base: Base,
    /// Whether the entry is the end of its list.
    is_end: bool,
}

impl Context<'_> {
    ghost use Rattle.std.specs.Prelude.{◌≡◌, ◌⊎◌, ◌++◌, ℕ, List, IfOk, IfErr, OnErr};
    ghost use Rattle.dwarf_bytes.specs.declared.fault.DebugError.TheVariants.{Memory, Fault};
    ghost use Rattle.dwarf_bytes.specs.declared.fault.DebugFault.{DebugFault as AFault};
    ghost use Rattle.code_moves.specs.Moves.{new_address};
    ghost use Rattle.dwarf_new_lists.specs.Entries.{AnEntry, an_entry};
    ghost use Rattle.dwarf_new_lists.specs.Kinds.{new_list_is_end};
    ghost use Rattle.dwarf_new_lists.specs.Writing.{AppendsOfNewList};
    ghost use Rattle.dwarf_new_lists.specs.Sayings.{says_entry, next_base, IsMovedOfNewList, AreMovedOfNewList};
    ghost use Rattle.dwarf_new_lists.specs.Contexts.{bodies, addresses};
    ghost use Rattle.dwarf_new_lists.specs.NewLists.{BeginsEntry, IsList, IsListText, IsMovedListOfNewList};
    ghost use Rattle.dwarf_new_lists.specs.Refusals.{IsPassedEntry, ArePassedEntries, IsRefusedNextOfNewList, IsRefusedAfter, IsRefusedListOfNewList};
    ghost use Rattle.dwarf_bytes.specs.Patches.{changes};
    ghost use Rattle.dwarf_bytes.specs.Uses.{told, lengthened};
    ghost use Rattle.dwarf_new_lists.specs.Tellings.{Tells, indices_of_code, code_indices};

    // Appends the entry at the front.
    fn append_entry<'b>(
        &self,
        bytes: &'b [u8],
        base: Base,
        uses: &mut AddressUses,
        alloc: Global,
        out: &mut Vec<u8>,
    ) -> Result<Step<'b>, DebugError>
        ensures moved { IfOk result (λ step. (old new : AnEntry)
            × BeginsEntry self.now.lists self.now.encoding.address_size bytes.now old step.rest.now
            × AppendsOfNewList (an_entry self.now.lists self.now.encoding.address_size) out.old.items
            out.new.items new
            × IsMovedOfNewList self.now.encoding (bodies self.now) (addresses self.now) base.old base.new
            old new
            × (step.base.old ≡ next_base base.old (says_entry (addresses self.now) base.old old))
            × (step.is_end ≡ new_list_is_end old.kind)
            × Tells (bodies self.now) self.now.addresses.now (told uses.old) (told uses.new)
            (indices_of_code (bodies self.now) (says_entry (addresses self.now) base.old old)
            old.kind old.one old.two)
            × IsPassedEntry self.now.encoding (bodies self.now) self.now.addresses.now base.old base.new old) }
        ensures tables { lengthened uses.new ≡ lengthened uses.old }
        ensures refused { IfErr result (λ e. (e ≡ Memory) ⊎ ((fault : AFault) × (e ≡ Fault fault)
            × IsRefusedNextOfNewList self.now.lists self.now.encoding (bodies self.now) self.now.addresses.now
            base.old base.new bytes.now fault)) }
        ensures base { base.new ≡ new_address (bodies self.now) base.old → IfOk result
            (λ step. step.base.new ≡ new_address (bodies self.now) step.base.old) }
    {
        let (entry, rest) = read_entry(self.lists, self.encoding.address_size, bytes)?;
        if entry.kind.is_default() {
            // its locals are those of a function that the list doesn't name
            return Err(DebugError::Fault(DebugFault::Unsupported));
        }
        let said = says(self.addresses, base.old, &entry)?;
        let (moved, body) = self.moved_entry(base, &entry, said, uses)?;
        write_entry(out, alloc, &moved, self.encoding, body)?;
        Ok(Step {
            rest,
            base: self.base_after(base, said),
            is_end: entry.kind.is_end(),
        })
    }

    // Appends the entries at the front, up to the end of their list. Returns the bytes that follow.
    fn append_list<'b>(
        &self,
        bytes: &'b [u8],
        base: u64,
        uses: &mut AddressUses,
        alloc: Global,
        out: &mut Vec<u8>,
    ) -> Result<&'b [u8], DebugError>
        ensures moved { IfOk result (λ rest. (olds news : List AnEntry) × (text : List ℕ)
            × IsList self.now.lists self.now.encoding.address_size bytes.now olds rest.now
            × (out.new.items ≡ out.old.items ++ text)
            × IsListText self.now.lists self.now.encoding.address_size text news
            × AreMovedOfNewList self.now.encoding (bodies self.now) (addresses self.now) base
            (new_address (bodies self.now) base) olds news
            × Tells (bodies self.now) self.now.addresses.now (told uses.old) (told uses.new)
            (code_indices (bodies self.now) (addresses self.now) base olds)
            × ArePassedEntries self.now.encoding (bodies self.now) self.now.addresses.now base olds) }
        ensures tables { lengthened uses.new ≡ lengthened uses.old }
        ensures refused { IfErr result (λ e. (e ≡ Memory) ⊎ ((fault : AFault) × (e ≡ Fault fault)
            × IsRefusedAfter self.now.lists self.now.encoding (bodies self.now) self.now.addresses.now
            base bytes.now fault)) }
    {
        let mut rest = bytes;
        let mut base = self.base_at(base);
        loop {
            let step = self.append_entry(rest, base, uses, alloc, out)?;
            rest = step.rest;
            base = step.base;
            if step.is_end {
                return Ok(rest);
            }
        }
    }

    // Moves a list. Returns its end.
    fn move_list(
        &self,
        section: &[u8],
        list: &NewList,
        uses: &mut AddressUses,
        patches: &mut Patches,
    ) -> Result<usize, DebugError>
        ensures moved { IfOk result (λ end. IsMovedListOfNewList self.now.lists self.now.encoding
            (bodies self.now) self.now.addresses.now list.now.base section.now list.now.offset end
            (changes patches.old) (changes patches.new) (told uses.old) (told uses.new)) }
        ensures refused { IfErr result (λ e. (e ≡ Memory) ⊎ ((fault : AFault) × (e ≡ Fault fault)
            × IsRefusedListOfNewList self.now.lists self.now.encoding (bodies self.now) self.now.addresses.now
            list.now.base section.now list.now.offset (changes patches.old) fault)) }
        ensures tables { lengthened uses.new ≡ lengthened uses.old }
        ensures unchanged { OnErr result (changes patches.new ≡ changes patches.old) }
    {
        let bytes = bytes_from(section, list.offset)?;
        let alloc = patches.allocator();
        let mut out = Vec::new(alloc);
        let rest = self.append_list(bytes, list.base, uses, alloc, &mut out)?;
        let size = bytes.len().saturating_sub(rest.len());
        patches.push(list.offset, size, &out)?;
        Ok(list.offset + size)
    }
}

/// Moves a list of `.debug_rnglists`, which is after those that were moved before. Returns its end. Takes time linear in the list,
/// but logarithmic in the numbers of bodies and runs for each entry.
///
/// # Errors
///
/// `BadOffset` if the list, or an address that it names, isn't in its section; `Overlap` if the list begins before the end of the
/// last one; `UnknownForm` if an entry is of a kind that isn't known; `Truncated` or `BadNumber` if an entry isn't all in the section;
/// `Unsupported` if a number would be negative, if an entry with a length ends in no body, or if an entry is a default location; `DoesNotFit` if an address doesn't fit
/// its size; out of memory. Nothing of the section is replaced then, and some of the addresses may be told.
pub fn move_range_list(
    section: &[u8],
    list: &NewList,
    addresses: &AddressTable<'_>,
    moves: &Moves,
    uses: &mut AddressUses,
    patches: &mut Patches,
) -> Result<usize, DebugError>
    ensures moved { IfOk result (λ end. IsMovedListOfNewList lists.Ranges list.now.encoding moves.now.bodies.items
        addresses.now list.now.base section.now list.now.offset end
        (changes patches.old) (changes patches.new) (told uses.old) (told uses.new)) }
    ensures refused { IfErr result (λ e. (e ≡ Memory) ⊎ ((fault : AFault) × (e ≡ Fault fault)
        × IsRefusedListOfNewList lists.Ranges list.now.encoding moves.now.bodies.items addresses.now
        list.now.base section.now list.now.offset (changes patches.old) fault)) }
    ensures tables { lengthened uses.new ≡ lengthened uses.old }
    ensures unchanged { OnErr result (changes patches.new ≡ changes patches.old) }
{
    let context = Context {
        lists: Lists::Ranges,
        encoding: list.encoding,
        addresses,
        moves,
    };
    context.move_list(section, list, uses, patches)
}

/// Moves a list of `.debug_loclists`, as `move_range_list` does one of ranges. The locals that its expressions name have their new
/// indices.
///
/// # Errors
///
/// Those of `move_range_list`; and `BadLength`, `UnknownOperation` or `Unsupported` if an expression can't be moved.
pub fn move_location_list(
    section: &[u8],
    list: &NewList,
    addresses: &AddressTable<'_>,
    moves: &Moves,
    uses: &mut AddressUses,
    patches: &mut Patches,
) -> Result<usize, DebugError>
    ensures moved { IfOk result (λ end. IsMovedListOfNewList lists.Locations list.now.encoding moves.now.bodies.items
        addresses.now list.now.base section.now list.now.offset end
        (changes patches.old) (changes patches.new) (told uses.old) (told uses.new)) }
    ensures refused { IfErr result (λ e. (e ≡ Memory) ⊎ ((fault : AFault) × (e ≡ Fault fault)
        × IsRefusedListOfNewList lists.Locations list.now.encoding moves.now.bodies.items addresses.now
        list.now.base section.now list.now.offset (changes patches.old) fault)) }
    ensures tables { lengthened uses.new ≡ lengthened uses.old }
    ensures unchanged { OnErr result (changes patches.new ≡ changes patches.old) }
{
    let context = Context {
        lists: Lists::Locations,
        encoding: list.encoding,
        addresses,
        moves,
    };
    context.move_list(section, list, uses, patches)
}
