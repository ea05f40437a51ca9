//! What entries say of addresses (DWARF 5, sections 2.17.3 and 2.6.2).

ghost use Rattle.std.specs.Prelude.{◌≡◌, ◌+◌};
ghost use Rattle.wasm_numbers.specs.Results.{Gives};
ghost use Rattle.dwarf_new_lists.specs.Sayings.{range};
ghost use Rattle.dwarf_new_lists.specs.Refusals.{said_or_fault};

use crate::entry::Entry;
use crate::kind::Kind;
use dwarf_bytes::{AddressTable, DebugFault};

/// What an entry says of addresses.
#[derive(Clone, Copy, Debug, PartialEq, Eq)]
pub(crate) enum Saying {
    /// Nothing that is an address.
    Nothing,
    /// What follows is counted from this address.
    Base(u64),
    /// The entry is of the addresses from the first one to the one before the second one.
    Range(u64, u64),
}

// what an entry says of as many addresses, from the first one on
fn with_length(low: u64, length: u64) -> Saying
    ensures { result ≡ range low (low + length) }
{
    match low.checked_add(length) {
        Some(high) => Saying::Range(low, high),
        None => Saying::Nothing,
    }
}

// what an entry says that is counted from a base
fn from_base(base: u64, low: u64, high: u64) -> Saying
    ensures { result ≡ range (base + low) (base + high) }
{
    match (base.checked_add(low), base.checked_add(high)) {
        (Some(low), Some(high)) => Saying::Range(low, high),
        _ => Saying::Nothing,
    }
}

/// What an entry says that is counted from this base.
///
/// # Errors
///
/// `BadOffset` or `Truncated` if an address that it names isn't in its table.
pub(crate) fn says(
    addresses: &AddressTable<'_>,
    base: u64,
    entry: &Entry<'_>,
) -> Result<Saying, DebugFault>
    ensures { Gives (λ s. s) result (said_or_fault addresses.now base entry.now.kind
        entry.now.one.value entry.now.two.value) }
{
    let one = entry.one.value;
    let two = entry.two.value;
    match entry.kind {
        Kind::BaseIndex => {
            let address = addresses.get(one)?;
            Ok(Saying::Base(address.value))
        }
        Kind::IndexPair => {
            let low = addresses.get(one)?;
            let high = addresses.get(two)?;
            Ok(Saying::Range(low.value, high.value))
        }
        Kind::IndexLength => {
            let low = addresses.get(one)?;
            Ok(with_length(low.value, two))
        }
        Kind::OffsetPair => Ok(from_base(base, one, two)),
        Kind::Base => Ok(Saying::Base(one)),
        Kind::Pair => Ok(Saying::Range(one, two)),
        Kind::Length => Ok(with_length(one, two)),
        Kind::End | Kind::Default | Kind::Views => Ok(Saying::Nothing),
    }
}
