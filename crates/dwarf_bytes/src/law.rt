//! Laws of numbers that are written, and of sections that are patched.

ghost use Rattle.dwarf_bytes.specs.Changes.{FollowsMoved, KeepsOthers, KeepsOffsets};
ghost use Rattle.dwarf_bytes.specs.Writing.{Sized, Padded, KeepsWidth};

/// What `write_sized` writes of a number is read as this number.
pub fn law_sized()
    ensures { Sized }
{}

/// What `write_padded` writes of a number is read as this number, and has the width that is given if the number fits it.
pub fn law_padded()
    ensures read { Padded }
    ensures width { KeepsWidth }
{}

/// What follows an offset into a section follows where the offset goes; so each byte that isn't replaced stays, in order.
pub fn law_patched()
    ensures follows { FollowsMoved }
    ensures others { KeepsOthers }
{}

/// Where no part of a section changes its size, each offset into it stays.
pub fn law_same_sizes()
    ensures { KeepsOffsets }
{}
