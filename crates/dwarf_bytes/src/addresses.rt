//! The addresses that units name by index (DWARF 5, sections 7.27 and 2.17).

ghost use Rattle.std.specs.Prelude.{◌≡◌, ◌+◌, ◌^◌, ◌⊎◌, nat_lt, [], ◌∷◌, map, option_map, None, Ok, Err, IfOk, OnOk, IfErr, OnErr};
ghost use Rattle.wasm_numbers.specs.Results.{unless};
ghost use Rattle.dwarf_bytes.specs.declared.fault.DebugFault.{DebugFault as AFault};
ghost use Rattle.dwarf_bytes.specs.declared.fault.DebugFault.TheVariants.{BadOffset};
ghost use Rattle.dwarf_bytes.specs.declared.fault.DebugError.TheVariants.{Memory, Fault};
ghost use Rattle.dwarf_bytes.specs.Merging.{merging, AreMerged, IsFaultOfMerging, AreAllMerged, IsFaultOfAll};
ghost use Rattle.dwarf_bytes.specs.Numbers.{size_in_bytes};
ghost use Rattle.dwarf_bytes.specs.Patches.{changes, sized_part_of};
ghost use Rattle.dwarf_bytes.specs.Uses.{told_address, is_same_address, number_at_replaced, address_replaced, addresses_replaced, is_same_table, longer_table_steps, longer_steps_after, longer_steps};

use crate::fault::{DebugError, DebugFault};
use crate::merging::MergedPatches;
use crate::number::read_sized;
use crate::patches::Patches;
use crate::size::{Format, Size};
use crate::writing::write_sized;
use std::alloc::Global;

/// The addresses of a unit: a part of `.debug_addr`.
#[derive(Clone, Copy)]
pub struct AddressTable<'a> {
    /// The section.
    pub section: &'a [u8],
    /// The offset of the unit's first address (DW_AT_addr_base).
    pub base: u64,
    /// The size of an address.
    pub size: Size,
}

/// An address of `.debug_addr`.
#[derive(Clone, Copy, Debug, PartialEq, Eq)]
pub struct Address {
    /// Its offset into the section.
    pub at: usize,
    /// Its value.
    pub value: u64,
    /// Its size.
    pub size: Size,
}

impl AddressTable<'_> {
    ghost use Rattle.std.specs.Prelude.{◌≡◌, ◌<◌, Some, IfOk, IfSome, IfNone};
    ghost use Rattle.dwarf_bytes.specs.Addresses.{place_of_address, address_at, addresses_of_table, indexed_address};

    // where the address of this index is
    fn place(&self, index: u64) -> Option<usize>
        ensures some { IfSome result (λ at. at ≡ place_of_address self.now index) }
        ensures none { IfNone result (usize.MAX < place_of_address self.now index) }
    {
        let size = self.size.bytes() as u64;
        let at = index.checked_mul(size)?.checked_add(self.base)?;
        usize::try_from(at).ok()
    }

    /// The address of this index.
    ///
    /// # Errors
    ///
    /// `BadOffset` if it is after the end of the section; `Truncated` if the section ends inside it.
    pub fn get(&self, index: u64) -> Result<Address, DebugFault>
        ensures value { IfOk result (λ a. address_at self.now index ≡ Some a.value) }
        ensures place { IfOk result (λ a. a.at ≡ place_of_address self.now index) }
        ensures size { IfOk result (λ a. a.size ≡ self.now.size) }
        ensures gives { result ≡ indexed_address (addresses_of_table self.now) index }
    {
        let at = self.place(index).ok_or(DebugFault::BadOffset)?;
        let rest = self.section.get(at..).ok_or(DebugFault::BadOffset)?;
        let (value, _) = read_sized(self.size, rest)?;
        Ok(Address {
            at,
            value,
            size: self.size,
        })
    }
}

/// An address that is used as one of code, and what it becomes.
#[derive(Clone, Copy, Debug, PartialEq, Eq)]
struct AddressUse {
    address: Address,
    new: u64,
}

/// A table of addresses that gets one more, which is no address.
#[derive(Clone, Copy, Debug, PartialEq, Eq)]
struct LongerTable {
    // where the number of its bytes is, and of which size that is
    length_at: usize,
    length_size: Size,
    length: u64,
    // where it ends, and the size of an address
    end: usize,
    size: Size,
}

/// The addresses of `.debug_addr` that are used as those of code, and what each becomes.
#[derive(Debug, Drop)]
pub struct AddressUses {
    uses: Vec<AddressUse>,
    longer: Vec<LongerTable>,
}

impl LongerTable {
    ghost use Rattle.std.specs.Prelude.{◌≡◌, ◌-◌, ◌≤◌, length};
    ghost use Rattle.dwarf_bytes.specs.Numbers.{offset_size};
    ghost use Rattle.dwarf_bytes.specs.Addresses.{addresses_of_table};
    ghost use Rattle.dwarf_bytes.specs.Uses.{distance_of_length, longer_by_length, longer_table};

    // The table of these addresses whose length is this number, at this place.
    fn by_length(
        table: &AddressTable<'_>,
        length_at: usize,
        length_size: Size,
        count: u64,
    ) -> Result<LongerTable, DebugFault>
        requires { table.now.base ≤ length table.now.section.now }
        ensures { result ≡ longer_by_length (addresses_of_table table.now) length_at length_size count }
    {
        let base = table.base as usize;
        let Some(entries) = count.checked_sub(4) else {
            return Err(DebugFault::BadLength);
        };
        if entries > (table.section.len() - base) as u64 {
            return Err(DebugFault::BadLength);
        }
        Ok(LongerTable {
            length_at,
            length_size,
            length: count,
            end: base + entries as usize,
            size: table.size,
        })
    }

    /// The table of these addresses, in front of which is its header: its length, its version and two sizes (DWARF 5, section 7.27).
    #[tactic(auto, unfolding(crate::specs::Uses::longer_table))]
    fn of(table: &AddressTable<'_>, format: Format) -> Result<LongerTable, DebugFault>
        ensures { result ≡ longer_table (addresses_of_table table.now) format }
    {
        let length_size = format.offset_size();
        let distance = length_size.bytes() as u64 + 4;
        if table.base < distance || table.base > table.section.len() as u64 {
            return Err(DebugFault::BadOffset);
        }
        let length_at = (table.base - distance) as usize;
        let (length, _) = read_sized(length_size, &table.section[length_at..])?;
        LongerTable::by_length(table, length_at, length_size, length)
    }
}

impl AddressUses {
    ghost use Rattle.std.specs.Prelude.{◌≡◌, ◌++◌, ◌∷◌, ◌⊎◌, [], Ok, Err, IfOk, IfErr, OnOk, OnErr};
    ghost use Rattle.dwarf_bytes.specs.Addresses.{addresses_of_table};
    ghost use Rattle.dwarf_bytes.specs.Patches.{changes};
    ghost use Rattle.dwarf_bytes.specs.Uses.{told, lengthened, none_added, AreAddressesReplaced, IsFaultOfAddresses};
    ghost use Rattle.dwarf_bytes.specs.declared.fault.DebugFault.{DebugFault as AFault};
    ghost use Rattle.dwarf_bytes.specs.declared.fault.DebugError.TheVariants.{Memory, Fault};

    /// None is used.
    pub fn new(alloc: Global) -> AddressUses
        ensures told { told result ≡ [] }
        ensures tables { lengthened result ≡ [] }
    {
        AddressUses {
            uses: Vec::new(alloc),
            longer: Vec::new(alloc),
        }
    }

    /// This address becomes that one, where it is used.
    pub fn push(&mut self, address: Address, new: u64) -> Result<(), DebugError>
        ensures ok { OnOk result (told self.new ≡ told self.old ++ (address, new) ∷ []) }
        ensures err { OnErr result (told self.new ≡ told self.old) }
        ensures tables { lengthened self.new ≡ lengthened self.old }
        ensures memory { IfErr result (λ e. e ≡ Memory) }
    {
        self.uses.push(AddressUse { address, new })?;
        Ok(())
    }

    /// The table gets one more address at its end, which is no address: the same one, each time. Returns the index of that.
    ///
    /// # Errors
    ///
    /// `BadOffset` or `BadLength` if the table has no header; out of memory.
    pub fn push_none(&mut self, table: &AddressTable<'_>, format: Format) -> Result<u64, DebugError>
        ensures added { IfOk result (λ index. none_added (addresses_of_table table.now) format (lengthened self.old)
            ≡ Ok (index, lengthened self.new)) }
        ensures told { told self.new ≡ told self.old }
        ensures refused { IfErr result (λ e. (e ≡ Memory) ⊎ ((fault : AFault) × (e ≡ Fault fault)
            × (none_added (addresses_of_table table.now) format (lengthened self.old) ≡ Err fault))) }
    {
        let longer = LongerTable::of(table, format)?;
        self.longer.push(longer)?;
        let bytes = (longer.end as u64).saturating_sub(table.base);
        match table.size {
            Size::Eight => Ok(bytes / 8),
            _ => Ok(bytes / 4),
        }
    }

    /// The addresses that others use become what they say.
    pub fn add_all(&mut self, others: &AddressUses) -> Result<(), DebugError>
        ensures told { OnOk result (told self.new ≡ told self.old ++ told others.now) }
        ensures tables { OnOk result (lengthened self.new ≡ lengthened self.old ++ lengthened others.now) }
        ensures memory { IfErr result (λ e. e ≡ Memory) }
    {
        self.uses.extend_from_slice(&others.uses)?;
        self.longer.extend_from_slice(&others.longer)?;
        Ok(())
    }

    /// What is replaced in the section.
    ///
    /// # Errors
    ///
    /// `Unsupported` if one address becomes different ones in different uses; `Overlap` if two addresses overlap; `DoesNotFit`; out of
    /// memory.
    pub fn patches(&mut self, alloc: Global) -> Result<Patches, DebugError>
        ensures replaced { IfOk result (λ p. AreAddressesReplaced (told self.old) (lengthened self.old) (changes p)) }
        ensures refused { IfErr result (λ e. (e ≡ Memory) ⊎ ((fault : AFault) × (e ≡ Fault fault)
            × IsFaultOfAddresses (told self.old) (lengthened self.old) fault)) }
    {
        self.uses.sort_by_key(|one: &AddressUse| one.address.at)?;
        self.longer.sort_by_key(|table: &LongerTable| table.end)?;
        let first = replaced(alloc, &self.uses)?;
        if self.longer.is_empty() {
            return Ok(first);
        }
        lengthened(alloc, &self.longer, &first)
    }
}

/// Whether two addresses are the same.
fn is_same_address(address: &Address, other: &Address) -> bool
    ensures { result ≡ is_same_address address.now other.now }
{
    address.at == other.at
        && (address.value == other.value && address.size.bytes() == other.size.bytes())
}

/// Checks that the place after a number of this size is one of 64 bits.
fn check_place(at: usize, size: Size) -> Result<(), DebugFault>
    ensures { result ≡ unless (nat_lt (at + size_in_bytes size) (2 ^ 64)) BadOffset }
{
    match at.checked_add(size.bytes()) {
        Some(_) => Ok(()),
        None => Err(DebugFault::BadOffset),
    }
}

/// A number of this size at this place becomes this one.
fn push_number(at: usize, size: Size, number: u64, patches: &mut Patches) -> Result<(), DebugError>
    ensures replaced { OnOk result (number_at_replaced at size number (changes patches.old) ≡ Ok (changes patches.new)) }
    ensures refused { IfErr result (λ e. (e ≡ Memory) ⊎ ((fault : AFault) × (e ≡ Fault fault)
        × (number_at_replaced at size number (changes patches.old) ≡ Err fault))) }
{
    let mut scratch = Vec::new(patches.allocator());
    write_sized(&mut scratch, size, number)?;
    check_place(at, size)?;
    patches.push(at, size.bytes(), &scratch)
}

/// An address becomes what it is told, where this one was before it.
fn replace_address(
    before: Option<AddressUse>,
    one: &AddressUse,
    patches: &mut Patches,
) -> Result<(), DebugError>
    ensures replaced { OnOk result (address_replaced (option_map told_address before) (told_address one.now) (changes patches.old)
        ≡ Ok (changes patches.new)) }
    ensures refused { IfErr result (λ e. (e ≡ Memory) ⊎ ((fault : AFault) × (e ≡ Fault fault)
        × (address_replaced (option_map told_address before) (told_address one.now) (changes patches.old) ≡ Err fault))) }
{
    match before {
        Some(other) if is_same_address(&other.address, &one.address) => {
            if other.new == one.new {
                Ok(())
            } else {
                Err(DebugError::Fault(DebugFault::Unsupported))
            }
        }
        _ => push_number(one.address.at, one.address.size, one.new, patches),
    }
}

/// What is replaced by these addresses, by ascending places.
fn replaced(alloc: Global, uses: &[AddressUse]) -> Result<Patches, DebugError>
    ensures replaced { IfOk result (λ p. addresses_replaced None (map told_address uses.now) [] ≡ Ok (changes p)) }
    ensures refused { IfErr result (λ e. (e ≡ Memory) ⊎ ((fault : AFault) × (e ≡ Fault fault)
        × (addresses_replaced None (map told_address uses.now) [] ≡ Err fault))) }
{
    let mut patches = Patches::new(alloc);
    let mut before = None;
    'each: for one in uses {
        replace_address(before, one, &mut patches)?;
        before = Some(*one);
    }
    Ok(patches)
}

/// Whether two tables are the same.
fn is_same_table(table: &LongerTable, other: &LongerTable) -> bool
    ensures { result ≡ is_same_table table.now other.now }
{
    table.length_at == other.length_at
        && (table.length_size.bytes() == other.length_size.bytes()
            && (table.length == other.length
                && (table.end == other.end && table.size.bytes() == other.size.bytes())))
}

/// So many bytes become a number of this size.
fn merge_number(
    place: (usize, usize),
    size: Size,
    number: u64,
    scratch: &mut Vec<u8>,
    all: &mut MergedPatches<'_>,
) -> Result<(), DebugError>
    ensures merged { OnOk result (AreMerged (sized_part_of place.0 place.1 size number ∷ []) (merging all.old) (merging all.new)) }
    ensures refused { IfErr result (λ e. (e ≡ Memory) ⊎ ((fault : AFault) × (e ≡ Fault fault)
        × IsFaultOfMerging (sized_part_of place.0 place.1 size number ∷ []) (merging all.old) fault)) }
{
    let (at, old) = place;
    scratch.clear();
    write_sized(scratch, size, number)?;
    all.push(at, old, scratch)
}

/// A table gets one more address.
fn lengthen(
    table: &LongerTable,
    scratch: &mut Vec<u8>,
    all: &mut MergedPatches<'_>,
) -> Result<(), DebugError>
    ensures merged { OnOk result (AreMerged (longer_table_steps table.now) (merging all.old) (merging all.new)) }
    ensures refused { IfErr result (λ e. (e ≡ Memory) ⊎ ((fault : AFault) × (e ≡ Fault fault)
        × IsFaultOfMerging (longer_table_steps table.now) (merging all.old) fault)) }
{
    let length = table.length.saturating_add(table.size.bytes() as u64);
    let place = (table.length_at, table.length_size.bytes());
    merge_number(place, table.length_size, length, scratch, all)?;
    let none = table.size.greatest();
    merge_number((table.end, 0), table.size, none, scratch, all)
}

/// A table gets one more address, where this one was before it.
fn lengthen_after(
    before: Option<LongerTable>,
    table: &LongerTable,
    scratch: &mut Vec<u8>,
    all: &mut MergedPatches<'_>,
) -> Result<(), DebugError>
    ensures merged { OnOk result (AreMerged (longer_steps_after before table.now) (merging all.old) (merging all.new)) }
    ensures refused { IfErr result (λ e. (e ≡ Memory) ⊎ ((fault : AFault) × (e ≡ Fault fault)
        × IsFaultOfMerging (longer_steps_after before table.now) (merging all.old) fault)) }
{
    match before {
        Some(other) if is_same_table(&other, table) => Ok(()),
        _ => lengthen(table, scratch, all),
    }
}

/// The same with the tables that get one more address, by ascending ends.
fn lengthened(alloc: Global, tables: &[LongerTable], first: &Patches) -> Result<Patches, DebugError>
    ensures replaced { IfOk result (λ p. AreAllMerged (changes first.now) (longer_steps None tables.now) (changes p)) }
    ensures refused { IfErr result (λ e. (e ≡ Memory) ⊎ ((fault : AFault) × (e ≡ Fault fault)
        × IsFaultOfAll (changes first.now) (longer_steps None tables.now) fault)) }
{
    let mut all = MergedPatches::new(alloc, first);
    let mut scratch = Vec::new(alloc);
    let mut before = None;
    'each: for table in tables {
        lengthen_after(before, table, &mut scratch, &mut all)?;
        before = Some(*table);
    }
    all.finish()
}
