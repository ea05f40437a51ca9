//! A law of what becomes of a section of entries.

ghost use Rattle.dwarf_info.specs.OtherBytes.{OtherBytesStay};

/// Where the parts of a section are replaced that the steps of its entries say, every byte that is in no value that a step may replace is
/// copied, and is where its offset goes.
pub fn law_other_bytes()
    ensures { OtherBytesStay }
{}
