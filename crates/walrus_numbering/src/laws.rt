//! A law of the numbers that are written, stated as the contract of a function that does nothing.
ghost use Rattle.walrus_numbering.specs.NumberMaps.{NumbersFit};

/// The numbers that index maps and a map of a function's locals give fit 32 bits: an id or a local has such a number,
/// or none.
pub fn law_numbers_fit()
    ensures { NumbersFit }
{}
