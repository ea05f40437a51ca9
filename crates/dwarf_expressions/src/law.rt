//! Laws of expressions.

ghost use Rattle.dwarf_expressions.specs.Expressions.{OneReading};

/// Bytes are an expression in one way at most.
pub fn law_one_reading()
    ensures { OneReading }
{}
