//! A law of sections whose fields follow where they are.

ghost use Rattle.dwarf.specs.NewFields.{NamesHaveNewFields, RangesHaveNewFields, MacrosHaveNewFields};

/// What becomes of a section of names, address ranges or macros is the section in which fields, in order, have new values of as many bytes;
/// and every byte that is in none of them stays.
pub fn law_new_fields()
    ensures names { NamesHaveNewFields }
    ensures ranges { RangesHaveNewFields }
    ensures macros { MacrosHaveNewFields }
{}
