//! Locations of instructions.
ghost use Rattle.std.specs.Prelude.{◌≡◌, ◌≢◌, ◌↔◌, ℕ, IsTrue};
ghost use Rattle.walrus_ir.specs.Locations.{default_location};

use std::marker::Model;

/// The location of an instruction in its source, as a number whose meaning the reader of the source
/// chooses. In a contract, it is the number.
#[derive(Clone, Copy, Debug, PartialEq, Eq, PartialOrd, Ord, Hash)]
pub struct InstrLocId {
    number: u32,
}

impl Model for InstrLocId {
    ghost Value = { ℕ };

    ghost view = { λ location. location.number };

    ghost inverse = { λ n. record { number = n } };
}

impl InstrLocId {
    /// The location with this number. It must not be the number of the default location.
    pub fn new(number: u32) -> InstrLocId
        requires { number ≢ default_location }
        ensures { result ≡ number }
    {
        InstrLocId { number }
    }

    /// The number. The default location has one too.
    pub fn data(self) -> u32
        ensures { result ≡ self }
    {
        self.number
    }

    /// Whether it is the default location, which says nothing.
    pub fn is_default(self) -> bool
        ensures { IsTrue result ↔ (self ≡ default_location) }
    {
        self == InstrLocId::default()
    }
}

/// The location that says nothing. Its number is the greatest.
impl Default for InstrLocId {
    ghost is_default = { λ location. location ≡ default_location };

    fn default() -> InstrLocId {
        InstrLocId { number: u32::MAX }
    }
}
