//! A source map that was read.

ghost use Rattle.std.specs.Prelude.{List, Ok};
ghost use Rattle.source_map.specs.declared.mapping.Mapping.{Mapping};
ghost use Rattle.source_map.specs.Reading.{ReadsOrMemory};
ghost use Rattle.source_map.specs.Spelling.{SpellsMappings};

use crate::fault::MappingsError;
use crate::mapping::Mapping;
use crate::reading::decode;
use std::alloc::Global;

/// A source map that was read. Of its JSON text, it keeps what is written again.
#[derive(Drop)]
pub struct SourceMap {
    /// The text that is written before that of the mappings, up to the quotation mark.
    pub(crate) front: Vec<u8>,
    /// The text that is written after that of the mappings, from the quotation mark on.
    pub(crate) back: Vec<u8>,
    /// The text of the mappings, which can be read.
    pub(crate) mappings: Vec<u8>,
}

impl SourceMap {
    /// Its mappings, sorted by their generated columns.
    ///
    /// # Errors
    ///
    /// `Memory`. No other error comes of a source map that was read.
    pub fn mappings(&self, alloc: Global) -> Result<Vec<Mapping>, MappingsError>
        ensures { (all : List Mapping) → SpellsMappings all self.now.mappings.items
            → ReadsOrMemory (λ v. v.items) result (Ok all) }
    {
        decode(alloc, &self.mappings)
    }
}
