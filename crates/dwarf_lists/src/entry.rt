//! The entries of lists (DWARF 4, sections 2.17.3 and 2.6.2).

ghost use Rattle.std.specs.Prelude.{◌≡◌, IfOk};
ghost use Rattle.wasm_numbers.specs.Results.{Gives};
ghost use Rattle.dwarf_lists.specs.Entries.{expression_of, list_entry as entry};
ghost use Rattle.dwarf_lists.specs.Moving.{HasExpression, HasItsExpression};
ghost use Rattle.dwarf_lists.specs.Reading.{list_entry_of};

use dwarf_bytes::{DebugFault, Size, read_sized, read_u16, split};

/// What a list has.
#[derive(Clone, Copy, Debug, PartialEq, Eq)]
pub(crate) enum Kind {
    /// Ranges.
    Ranges,
    /// Locations: ranges with expressions.
    Locations,
}

/// An entry of a list.
#[derive(Clone, Copy)]
pub(crate) enum Entry<'a> {
    /// Its end.
    End,
    /// The address that the entries after it are counted from.
    Base(u64),
    /// A range.
    Range {
        /// Where it begins.
        low: u64,
        /// The address after its end.
        high: u64,
        /// Where a value is there.
        expression: &'a [u8],
    },
}

impl Entry<'_> {
    ghost use Rattle.std.specs.Prelude.{◌≡◌, MatchBool};
    ghost use Rattle.dwarf_lists.specs.Entries.{end, IsItem};
    ghost use Rattle.dwarf_lists.specs.Moving.{from_after};
    ghost use Rattle.dwarf_lists.specs.Reading.{list_entry_of};

    /// Whether it is the end of a list.
    pub fn is_end(self) -> bool
        ensures { MatchBool result (list_entry_of self.entry ≡ end) (IsItem (list_entry_of self.entry)) }
    {
        match self {
            Entry::End => true,
            _ => false,
        }
    }

    /// The address from which entries are counted after it, of which it is counted from this one.
    pub fn from_after(self, from: u64) -> u64
        ensures { result ≡ from_after from (list_entry_of self.entry) }
    {
        match self {
            Entry::Base(address) => address,
            _ => from,
        }
    }
}

// the expression of a location; a range has none
fn read_expression(kind: Kind, bytes: &[u8]) -> Result<(&[u8], &[u8]), DebugFault>
    ensures gives { Gives (λ x. (x.0.now, x.1.now)) result (expression_of kind bytes.now) }
    ensures expression { IfOk result (λ x. HasExpression kind x.0.now) }
{
    match kind {
        Kind::Ranges => Ok((&[], bytes)),
        Kind::Locations => {
            let (count, rest) = read_u16(bytes)?;
            split(rest, u64::from(count))
        }
    }
}

/// The entry at the front, and the bytes that follow.
///
/// # Errors
///
/// `Truncated`, or `BadLength` for the expression.
#[tactic(auto, unfolding(crate::specs::Entries::list_entry))]
pub(crate) fn read_entry(
    kind: Kind,
    size: Size,
    bytes: &[u8],
) -> Result<(Entry<'_>, &[u8]), DebugFault>
    ensures gives { Gives (λ x. (list_entry_of x.0, x.1.now)) result (entry kind size bytes.now) }
    ensures expression { IfOk result (λ x. HasItsExpression kind (list_entry_of x.0)) }
{
    let (low, rest) = read_sized(size, bytes)?;
    let (high, rest) = read_sized(size, rest)?;
    if low == size.greatest() {
        return Ok((Entry::Base(high), rest));
    }
    if low == 0 && high == 0 {
        return Ok((Entry::End, rest));
    }
    let (expression, rest) = read_expression(kind, rest)?;
    let range = Entry::Range {
        low,
        high,
        expression,
    };
    Ok((range, rest))
}
