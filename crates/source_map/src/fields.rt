//! The fields that the next mapping is relative to.

ghost use Rattle.std.specs.Prelude.{◌≡◌};
ghost use Rattle.source_map.specs.Spelling.{no_fields, fields_after as fields_after};

use crate::mapping::Mapping;

/// The fields of the mappings so far: the last value of each. All are 0 at first.
#[derive(Clone, Copy)]
pub(crate) struct Fields {
    /// The column of the generated program.
    pub generated: u32,
    /// The index of the source.
    pub source: u32,
    /// The line in the source, from 0 on.
    pub line: u32,
    /// The column in the source, from 0 on.
    pub column: u32,
    /// The index of the name.
    pub name: u32,
}

impl Fields {
    /// The fields before the first mapping.
    pub fn start() -> Fields
        ensures { result ≡ no_fields }
    {
        Fields {
            generated: 0,
            source: 0,
            line: 0,
            column: 0,
            name: 0,
        }
    }

    /// The fields after a mapping.
    pub fn after(self, mapping: Mapping) -> Fields
        ensures { result ≡ fields_after self mapping }
    {
        let generated = mapping.generated;
        match mapping.original {
            None => Fields { generated, ..self },
            Some(original) => Fields {
                generated,
                source: original.source,
                line: original.line,
                column: original.column,
                name: original.name.unwrap_or(self.name),
            },
        }
    }
}
