//! Laws of what is left.

ghost use Rattle.module_removal.specs.LeftLaws.{ReferencesAreLeft, ItemsAreCopied, LeftIsCopied, TakenAreDeclared};

/// What an item that is reached refers to is left.
pub fn law_references_are_left()
    ensures { ReferencesAreLeft }
{}

/// An item of a section that refers only to what is left is copied, under new indices.
pub fn law_items_are_copied()
    ensures { ItemsAreCopied }
{}

/// Where the module itself and all that it reaches is left, each item of the module that is left is copied.
pub fn law_left_is_copied()
    ensures { LeftIsCopied }
{}

/// Where the body of a function is left that takes a reference of another, an item that is left declares that one, or it has
/// to be declared.
pub fn law_taken_are_declared()
    ensures { TakenAreDeclared }
{}
