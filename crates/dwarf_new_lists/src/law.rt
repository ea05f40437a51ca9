//! A law of sections in which lists are moved.

ghost use Rattle.dwarf_new_lists.specs.Laws.{IsFoundOfNewList};

/// Where the offset of a list goes, the section that is written has the list with the moved entries.
pub fn law_moved_list()
    ensures { IsFoundOfNewList }
{}
