//! Laws of the text of mappings.

ghost use Rattle.std.specs.Prelude.{◌≡◌, ℕ, List};
ghost use Rattle.std.specs.List.{AllByRecursion};
ghost use Rattle.source_map.specs.Spelling.{SpellsMappings, AscendFrom, FitsMapping};
ghost use Rattle.source_map.specs.Shortest.{spelling};
ghost use Rattle.source_map.specs.declared.mapping.Mapping.{Mapping};

/// A text encodes at most one list of mappings.
pub fn law_one_reading()
    ensures { (text : List ℕ) (ms others : List Mapping) → SpellsMappings ms text → SpellsMappings others text → ms ≡ others }
{}

/// The text that `encode` returns for sorted mappings encodes them, so `decode` reads them back.
pub fn law_spelt()
    ensures { (ms : List Mapping) → AllByRecursion FitsMapping ms → AscendFrom 0 ms → SpellsMappings ms (spelling ms) }
{}
