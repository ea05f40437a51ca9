//! What the code and the locals of an entry belong to (DWARF 5, section 3.3).

ghost use Rattle.std.specs.Prelude.{◌≡◌};
ghost use Rattle.dwarf_info.specs.Effects.{scope_of_function, scope_of_entry};

use code_moves::Moves;

/// The tag of a function.
pub(crate) const SUBPROGRAM: u64 = 0x2e;

/// What the code and the locals of an entry belong to.
#[derive(Clone, Copy, Debug, PartialEq, Eq)]
pub enum Scope {
    /// No function.
    Unit,
    /// A function whose code is given by ranges alone: they may be of several bodies.
    Ranges,
    /// A function that isn't in the module: what its addresses are counted from is of no body.
    Dropped,
    /// The function whose body has this address.
    Body(u64),
}

impl Scope {
    ghost use Rattle.dwarf_info.specs.Steps.{is_dropped};
    ghost use Rattle.dwarf_info.specs.Taken.{is_ranges};

    /// Whether it is a function that isn't in the module.
    pub fn is_dropped(self) -> bool
        ensures { result ≡ is_dropped self }
    {
        matches!(self, Scope::Dropped)
    }

    /// Whether it is a function whose code is given by ranges alone.
    pub fn is_ranges(self) -> bool
        ensures { result ≡ is_ranges self }
    {
        matches!(self, Scope::Ranges)
    }

    // of a function
    fn of_function(moves: &Moves, low: Option<u64>, has_ranges: bool) -> Scope
        ensures { result ≡ scope_of_function moves.now.bodies.items low has_ranges }
    {
        match low {
            Some(address) if moves.address(address).is_some() => Scope::Body(address),
            Some(_) => Scope::Dropped,
            None if has_ranges => Scope::Ranges,
            None => Scope::Unit,
        }
    }

    /// The scope of an entry in this one. `low`: the first address of its code. `has_ranges`: whether its code is given by ranges.
    pub fn of_entry(self, moves: &Moves, tag: u64, low: Option<u64>, has_ranges: bool) -> Scope
        ensures { result ≡ scope_of_entry moves.now.bodies.items self tag low has_ranges }
    {
        match self {
            Scope::Dropped => Scope::Dropped,
            _ if tag == SUBPROGRAM => Scope::of_function(moves, low, has_ranges),
            _ => self,
        }
    }
}
