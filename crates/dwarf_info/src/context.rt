//! What the attributes of an entry are read with.

ghost use Rattle.std.specs.Prelude.{◌≡◌, option_map};
ghost use Rattle.wasm_numbers.specs.Results.{Gives};
ghost use Rattle.dwarf_bytes.specs.Addresses.{addresses_of_table};
ghost use Rattle.dwarf_info.specs.Steps.{address_of_class, low_address, bases_said, bases_known};
ghost use Rattle.dwarf_info.specs.Contexts.{unit_bases};

use crate::attribute::Meaning;
use crate::form::{Form, FormClass};
use crate::moved::{ListPlace, ListUse};
use crate::scope::Scope;
use crate::values::AttributeValue;
use code_moves::{Body, Moves};
use dwarf_bytes::{AddressTable, DebugFault};
use dwarf_expressions::Encoding;

/// What the entries of a unit are counted from, as the attributes of its first entry say.
#[derive(Clone, Copy)]
pub struct Bases<'a> {
    /// The addresses that are named by index.
    pub addresses: AddressTable<'a>,
    /// The offset of its lists of ranges (DW_AT_rnglists_base).
    pub ranges: u64,
    /// The offset of its lists of locations (DW_AT_loclists_base).
    pub locations: u64,
    /// The address that its lists are counted from.
    pub low: u64,
}

/// What the attributes of an entry are read with.
#[derive(Clone, Copy)]
pub struct Context<'m> {
    /// Where the code goes.
    pub moves: &'m Moves,
    /// How the unit is spelt.
    pub encoding: Encoding,
    /// The offset of the unit.
    pub unit: u64,
    /// What the unit's entries are counted from.
    pub bases: Bases<'m>,
    /// What the entry belongs to.
    pub scope: Scope,
    /// The tag of the entry.
    pub tag: u64,
    /// The first address of the entry's code.
    pub low: Option<u64>,
}

impl Context<'_> {
    ghost use Rattle.std.specs.Prelude.{◌≡◌};
    ghost use Rattle.std.specs.Option.{option_copied};
    ghost use Rattle.dwarf_info.specs.Effects.{list_used};
    ghost use Rattle.dwarf_info.specs.Taken.{body_of_scope};
    ghost use Rattle.dwarf_info.specs.Contexts.{context_of_entry};

    /// The body whose locals an expression of the entry names, if it is known.
    pub fn body(&self) -> Option<&Body>
        ensures { option_copied result ≡ body_of_scope self.now.moves.now.bodies.items self.now.scope }
    {
        match self.scope {
            Scope::Body(address) => self.moves.body(address),
            _ => None,
        }
    }

    /// The list at this place, in the unit of the entry.
    pub fn list(&self, place: ListPlace) -> ListUse
        ensures { result ≡ list_used (context_of_entry self.now) place }
    {
        ListUse {
            place,
            base: self.bases.low,
            addresses: self.bases.addresses.base,
            encoding: self.encoding,
        }
    }
}

/// What the attributes of an entry say of where its code is, and of what the entries of its unit are counted from.
#[derive(Clone, Copy, Debug, PartialEq, Eq)]
pub struct EntryPlaces {
    /// The form and the number of the first address of its code (DW_AT_low_pc).
    pub low: Option<(Form, u64)>,
    /// Whether its code is given by a list of ranges.
    pub has_ranges: bool,
    /// Where the unit's addresses are in `.debug_addr` (DW_AT_addr_base), or 0.
    pub addresses: u64,
    /// Where the unit's lists of ranges are (DW_AT_rnglists_base), or 0.
    pub range_lists: u64,
    /// Where the unit's lists of locations are (DW_AT_loclists_base), or 0.
    pub location_lists: u64,
}

impl EntryPlaces {
    ghost use Rattle.std.specs.Prelude.{◌≡◌, map};
    ghost use Rattle.dwarf_info.specs.Steps.{no_places, places_after, entry_places};
    ghost use Rattle.dwarf_info.specs.EntryViews.{attribute_spelled};

    // Nothing is said.
    fn none() -> EntryPlaces
        ensures { result ≡ no_places }
    {
        EntryPlaces {
            low: None,
            has_ranges: false,
            addresses: 0,
            range_lists: 0,
            location_lists: 0,
        }
    }

    // This attribute is another one of the entry.
    fn and(self, attribute: &AttributeValue<'_>) -> EntryPlaces
        ensures { result ≡ places_after self (attribute_spelled attribute.now) }
    {
        let number = attribute.value.number;
        let mut places = self;
        match attribute.meaning {
            Meaning::LowPc => places.low = Some((attribute.form, number)),
            Meaning::Ranges => places.has_ranges = true,
            Meaning::AddressBase => places.addresses = number,
            Meaning::RangeListBase => places.range_lists = number,
            Meaning::LocationListBase => places.location_lists = number,
            _ => {}
        }
        places
    }

    /// What these attributes say.
    pub fn of(attributes: &[AttributeValue<'_>]) -> EntryPlaces
        ensures { result ≡ entry_places (map attribute_spelled attributes.now) }
    {
        let mut places = EntryPlaces::none();
        for attribute in attributes {
            places = places.and(attribute);
        }
        places
    }
}

/// The address that is the value of an attribute; None if the value isn't an address.
pub fn address_of(
    form: Form,
    number: u64,
    addresses: &AddressTable<'_>,
) -> Result<Option<u64>, DebugFault>
    ensures { result ≡ address_of_class (addresses_of_table addresses.now) form.class number }
{
    match form.class {
        FormClass::Address => Ok(Some(number)),
        FormClass::AddressIndex => Ok(Some(addresses.get(number)?.value)),
        _ => Ok(None),
    }
}

/// The first address of an entry's code, of which its attributes say this.
pub fn first_address(
    low: Option<(Form, u64)>,
    addresses: &AddressTable<'_>,
) -> Result<Option<u64>, DebugFault>
    ensures { result ≡ low_address (addresses_of_table addresses.now) low }
{
    match low {
        Some((form, number)) => address_of(form, number, addresses),
        None => Ok(None),
    }
}

/// What the entries of a unit are counted from, of which its first entry says this.
fn bases_of<'a>(
    encoding: Encoding,
    addresses: &'a [u8],
    places: &EntryPlaces,
) -> Result<Bases<'a>, DebugFault>
    ensures { Gives unit_bases result (bases_said encoding addresses.now places.now) }
{
    let addresses = AddressTable {
        section: addresses,
        base: places.addresses,
        size: encoding.address_size,
    };
    let low = first_address(places.low, &addresses)?;
    Ok(Bases {
        addresses,
        ranges: places.range_lists,
        locations: places.location_lists,
        low: low.unwrap_or(0),
    })
}

/// What the entries of a unit are counted from: what is known, or what this entry says, which is the first one then.
pub fn bases_known<'a>(
    known: Option<Bases<'a>>,
    encoding: Encoding,
    addresses: &'a [u8],
    places: &EntryPlaces,
) -> Result<Bases<'a>, DebugFault>
    ensures { Gives unit_bases result (bases_known (option_map unit_bases known.entry) encoding addresses.now places.now) }
{
    match known {
        Some(bases) => Ok(bases),
        None => bases_of(encoding, addresses, places),
    }
}
