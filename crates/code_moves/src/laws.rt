//! Laws of addresses.

ghost use Rattle.code_moves.specs.Laws.{Sorted, Ranges, Rows, Places, Operators, Calls};

/// The order of addresses of code stays.
pub fn law_sorted()
    ensures { Sorted }
{}

/// A range of addresses contains an operator that is written exactly if it did.
pub fn law_ranges()
    ensures { Ranges }
{}

/// The row of a line table that an operator has is the one that it had, if it is written.
pub fn law_rows()
    ensures { Rows }
{}

/// An address of code goes to an operator that is written, to code that is added in front of one, or to the beginning or end of its body.
pub fn law_places()
    ensures { Places }
{}

/// The place of an operator is told exactly if it is written, and is where it is written.
pub fn law_operators()
    ensures { Operators }
{}

/// The address to which a call returns that is written goes to the end of what is written for the call.
pub fn law_calls()
    ensures { Calls }
{}
