//! How far a sequence has come: its addresses.

ghost use Rattle.std.specs.Prelude.{◌≡◌};
ghost use Rattle.code_moves.specs.Moves.{new_address};

use crate::operation::AddressSize;
use code_moves::Moves;

/// Where the machine is in a sequence.
#[derive(Clone, Copy)]
pub(crate) struct Place {
    /// The address in the source.
    pub old: u64,
    /// The address that the operations lead to that are written.
    pub new: u64,
    /// The size of the address that was set last.
    pub size: AddressSize,
}

impl Place {
    ghost use Rattle.dwarf_line.specs.Written.{line_start};

    /// The beginning of a sequence.
    pub(crate) fn start() -> Place
        ensures { result ≡ line_start }
    {
        Place {
            old: 0,
            new: 0,
            size: AddressSize::Four,
        }
    }
}

/// Where an address goes; one that is of no body stays.
pub(crate) fn moved(moves: &Moves, address: u64) -> u64
    ensures { result ≡ new_address moves.now.bodies.items address }
{
    moves.address(address).unwrap_or(address)
}
