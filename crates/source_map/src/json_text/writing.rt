//! Writing source maps.

ghost use Rattle.std.specs.Prelude.{ℕ, List, IfOk};
ghost use Rattle.json.specs.Json.{Members};
ghost use Rattle.source_map.specs.Shortest.{spelling};
ghost use Rattle.source_map.specs.WrittenSourceMaps.{IsReadFrom, IsTextWith};

use crate::json_text::source_map::SourceMap;
use crate::mapping::Mapping;
use crate::writing::write_mappings;
use std::alloc::{AllocError, Global};

impl SourceMap {
    /// The JSON text of the source map with other mappings, which have to be sorted by their
    /// generated columns. All other members are copied: those that the specification names in the
    /// order `version`, `file`, `sourceRoot`, `sources`, `sourcesContent`, `names`, `mappings`, the
    /// only order that some programs read, and then the others, in the order that they had.
    ///
    /// # Errors
    ///
    /// Out of memory.
    pub fn text_with(&self, alloc: Global, mappings: &[Mapping]) -> Result<Vec<u8>, AllocError>
        ensures { IfOk result (λ text. (source : List ℕ) (members : Members)
            → IsReadFrom source members self.now
            → IsTextWith members (spelling mappings.now) text.items) }
    {
        let mut out = Vec::new(alloc);
        out.extend_from_slice(&self.front)?;
        write_mappings(&mut out, mappings)?;
        out.extend_from_slice(&self.back)?;
        Ok(out)
    }
}
