//! What becomes of an entry.

ghost use Rattle.std.specs.Prelude.{◌≡◌, ◌<◌, ◌+◌, IfOk, IfErr};
ghost use Rattle.dwarf_bytes.specs.declared.fault.DebugFault.TheVariants.{Unsupported};
ghost use Rattle.dwarf_new_lists.specs.Contexts.{IsSameEntry};

use crate::entry::{Entry, Number};
use crate::kind::{Kind, Lists};
use crate::saying::Saying;
use code_moves::{Body, Moves};
use dwarf_bytes::{AddressTable, AddressUses, DebugError, DebugFault};
use dwarf_expressions::Encoding;

/// What the lists of a unit are moved by.
#[derive(Clone, Copy)]
pub(crate) struct Context<'a> {
    pub lists: Lists,
    pub encoding: Encoding,
    pub addresses: &'a AddressTable<'a>,
    pub moves: &'a Moves,
}

/// The address that entries are counted from, in the source and in what is written.
#[derive(Clone, Copy, Debug, PartialEq, Eq)]
pub(crate) struct Base {
    pub old: u64,
    pub new: u64,
}

// how many addresses are from the first one to the one before the second one
fn difference(low: u64, high: u64) -> Result<u64, DebugFault>
    ensures ok { IfOk result (λ n. low + n ≡ high) }
    ensures err { IfErr result (λ fault. (fault ≡ Unsupported) × (high < low)) }
{
    high.checked_sub(low).ok_or(DebugFault::Unsupported)
}

// the entry with other operands, in the widths that they have
fn with_operands<'b>(entry: &Entry<'b>, operands: (u64, u64)) -> Entry<'b>
    ensures same { IsSameEntry entry.now result }
    ensures one { result.one.value ≡ operands.0 }
    ensures two { result.two.value ≡ operands.1 }
{
    let (one, two) = operands;
    Entry {
        one: Number {
            value: one,
            width: entry.one.width,
        },
        two: Number {
            value: two,
            width: entry.two.width,
        },
        ..*entry
    }
}

impl<'a> Context<'a> {
    ghost use Rattle.std.specs.Prelude.{◌≡◌, ◌⊎◌, ◌+◌, ◌&&◌, ◌∷◌, [], ℕ, true, false, nat_le, is_some, IfOk, OnOk, IfErr, option_map, Ok, Err};
    ghost use Rattle.wasm_numbers.specs.Results.{each};
    ghost use Rattle.dwarf_bytes.specs.declared.fault.DebugError.TheVariants.{Memory, Fault};
    ghost use Rattle.dwarf_bytes.specs.declared.fault.DebugFault.{DebugFault as AFault};
    ghost use Rattle.dwarf_bytes.specs.declared.fault.DebugFault.TheVariants.{Unsupported};
    ghost use Rattle.dwarf_bytes.specs.Addresses.{addresses_of_table, indexed_address};
    ghost use Rattle.dwarf_bytes.specs.declared.addresses.Address.{Address as AnAddress};
    ghost use Rattle.dwarf_bytes.specs.Uses.{told, lengthened};
    ghost use Rattle.dwarf_new_lists.specs.Refusals.{has_numbers, numbers_said};
    ghost use Rattle.dwarf_new_lists.specs.Tellings.{Tells, indices, indices_of_code};
    ghost use Rattle.code_moves.specs.Moves.{new_address, address_moved};
    ghost use Rattle.dwarf_new_lists.specs.declared.saying.Saying.TheVariants as saying;
    ghost use Rattle.dwarf_new_lists.specs.Sayings.{new_list_body_of, next_base};
    ghost use Rattle.dwarf_new_lists.specs.Contexts.{bodies, addresses, says_old, says_new, EntrySaysMoved, IsSameEntry};

    // where an address goes; one that is of no body stays
    fn new_address(&self, address: u64) -> u64
        ensures { result ≡ new_address (bodies self.now) address }
    {
        match self.moves.address(address) {
            Some(new) => new,
            None => address,
        }
    }

    /// The base at this address.
    pub(crate) fn base_at(&self, address: u64) -> Base
        ensures old { result.old ≡ address }
        ensures new { result.new ≡ new_address (bodies self.now) address }
    {
        Base {
            old: address,
            new: self.new_address(address),
        }
    }

    // Tells where the address of this index goes, if it is of a body.
    fn tell(&self, index: u64, uses: &mut AddressUses) -> Result<(), DebugError>
        ensures told { OnOk result (Tells (bodies self.now) self.now.addresses.now (told uses.old)
            (told uses.new) (index ∷ [])) }
        ensures named { OnOk result ((a : AnAddress)
            × (indexed_address (addresses_of_table self.now.addresses.now) index ≡ Ok a)) }
        ensures tables { lengthened uses.new ≡ lengthened uses.old }
        ensures refused { IfErr result (λ e. (e ≡ Memory) ⊎ ((fault : AFault) × (e ≡ Fault fault)
            × (indexed_address (addresses_of_table self.now.addresses.now) index ≡ Err fault))) }
    {
        let address = self.addresses.get(index)?;
        if let Some(new) = self.moves.address(address.value) {
            uses.push(address, new)?;
        }
        Ok(())
    }

    // Tells where the addresses go whose indices are operands of the entry.
    fn tell_all(&self, entry: &Entry<'_>, uses: &mut AddressUses) -> Result<(), DebugError>
        ensures told { OnOk result (Tells (bodies self.now) self.now.addresses.now (told uses.old)
            (told uses.new) (indices entry.now.kind entry.now.one.value entry.now.two.value)) }
        ensures tables { lengthened uses.new ≡ lengthened uses.old }
        ensures refused { IfErr result (λ e. (e ≡ Memory) ⊎ ((fault : AFault) × (e ≡ Fault fault)
            × (each (indexed_address (addresses_of_table self.now.addresses.now))
            (indices entry.now.kind entry.now.one.value entry.now.two.value) ≡ Err fault))) }
    {
        match entry.kind {
            Kind::BaseIndex | Kind::IndexLength => self.tell(entry.one.value, uses)?,
            Kind::IndexPair => {
                self.tell(entry.one.value, uses)?;
                self.tell(entry.two.value, uses)?;
            }
            _ => {}
        }
        Ok(())
    }

    // the length of addresses up to the one before this one, where they go
    fn new_length(&self, high: u64, new_low: u64, new_high: u64) -> Result<u64, DebugFault>
        ensures length { IfOk result (λ n. new_low + n ≡ new_high) }
        ensures ok { OnOk result ((is_some (address_moved (bodies self.now) high) && nat_le new_low new_high) ≡ true) }
        ensures err { IfErr result (λ fault. (fault ≡ Unsupported)
            × ((is_some (address_moved (bodies self.now) high) && nat_le new_low new_high) ≡ false)) }
    {
        if self.moves.address(high).is_none() {
            return Err(DebugFault::Unsupported);
        }
        difference(new_low, new_high)
    }

    // the operands of an entry that is of these addresses, where they go
    fn new_operands(
        &self,
        base: u64,
        entry: &Entry<'_>,
        low: u64,
        high: u64,
    ) -> Result<(u64, u64), DebugFault>
        ensures says { (old_base : ℕ) → says_old self.now old_base entry.now ≡ saying.Range low high
            → IfOk result (λ x. says_new self.now base entry.now x.0 x.1 ≡ saying.Range
            (new_address (bodies self.now) low) (new_address (bodies self.now) high)) }
        ensures ok { OnOk result (has_numbers (bodies self.now) base entry.now.kind low high ≡ true) }
        ensures err { IfErr result (λ fault. (fault ≡ Unsupported)
            × (has_numbers (bodies self.now) base entry.now.kind low high ≡ false)) }
    {
        let new_low = self.new_address(low);
        let new_high = self.new_address(high);
        let one = entry.one.value;
        let operands = match entry.kind {
            Kind::IndexLength => (one, self.new_length(high, new_low, new_high)?),
            Kind::OffsetPair => (difference(base, new_low)?, difference(base, new_high)?),
            Kind::Pair => (new_low, new_high),
            Kind::Length => (new_low, self.new_length(high, new_low, new_high)?),
            _ => (one, entry.two.value),
        };
        Ok(operands)
    }

    // The operands of an entry that says this base, where it goes.
    fn new_base_operands(&self, entry: &Entry<'_>, address: u64) -> (u64, u64)
        ensures { (base new_base : ℕ) → says_old self.now base entry.now ≡ saying.Base address
            → says_new self.now new_base entry.now result.0 result.1
            ≡ saying.Base (new_address (bodies self.now) address) }
    {
        match entry.kind {
            Kind::Base => (self.new_address(address), entry.two.value),
            _ => (entry.one.value, entry.two.value),
        }
    }

    /// The base of what follows an entry that says this.
    pub(crate) fn base_after(&self, base: Base, said: Saying) -> Base
        ensures old { result.old ≡ next_base base.old said }
        ensures new { base.new ≡ new_address (bodies self.now) base.old
            → result.new ≡ new_address (bodies self.now) result.old }
    {
        match said {
            Saying::Base(address) => self.base_at(address),
            _ => base,
        }
    }

    /// The entry where its addresses go, and the body that it is of. An entry of a range that begins in no body stays.
    ///
    /// # Errors
    ///
    /// `BadOffset` if an address isn't in its table; `Unsupported` if a number would be negative, or if an entry with a length
    /// ends in no body; out of memory.
    pub(crate) fn moved_entry<'b>(
        &self,
        base: Base,
        entry: &Entry<'b>,
        said: Saying,
        uses: &mut AddressUses,
    ) -> Result<(Entry<'b>, Option<&'a Body>), DebugError>
        ensures same { IfOk result (λ x. IsSameEntry entry.now x.0) }
        ensures says { says_old self.now base.old entry.now ≡ said
            → IfOk result (λ x. EntrySaysMoved self.now base.old base.new entry.now x.0) }
        ensures body { IfOk result (λ x. option_map (λ b. b.now) x.1
            ≡ new_list_body_of (bodies self.now) said) }
        ensures told { OnOk result (Tells (bodies self.now) self.now.addresses.now
            (told uses.old) (told uses.new) (indices_of_code (bodies self.now) said
            entry.now.kind entry.now.one.value entry.now.two.value)) }
        ensures tables { lengthened uses.new ≡ lengthened uses.old }
        ensures passes { OnOk result (numbers_said (bodies self.now) base.new entry.now.kind said ≡ true) }
        ensures refused { IfErr result (λ e. (e ≡ Memory) ⊎ ((fault : AFault) × (e ≡ Fault fault)
            × ((each (indexed_address (addresses_of_table self.now.addresses.now))
            (indices entry.now.kind entry.now.one.value entry.now.two.value) ≡ Err fault)
            ⊎ ((fault ≡ Unsupported) × (numbers_said (bodies self.now) base.new entry.now.kind said ≡ false))))) }
    {
        match said {
            Saying::Nothing => Ok((*entry, None)),
            Saying::Base(address) => {
                self.tell_all(entry, uses)?;
                let operands = self.new_base_operands(entry, address);
                Ok((with_operands(entry, operands), None))
            }
            Saying::Range(low, high) => {
                let Some(body) = self.moves.body(low) else {
                    return Ok((*entry, None));
                };
                self.tell_all(entry, uses)?;
                let operands = self.new_operands(base.new, entry, low, high)?;
                Ok((with_operands(entry, operands), Some(body)))
            }
        }
    }
}
