//! Mappings (ECMA-426, Source map format specification, mappings structure).

/// A position in a source. Lines and columns are counted from 0.
#[derive(Clone, Copy, Debug, PartialEq, Eq)]
pub struct Original {
    /// The index of the source.
    pub source: u32,
    /// The line, from 0 on.
    pub line: u32,
    /// The column, from 0 on.
    pub column: u32,
    /// The index of the name at this position, if the source map gives one.
    pub name: Option<u32>,
}

/// A mapping from a column of the generated program to a position in a source. In a WebAssembly
/// module, a column is the offset of an operator from the start of the module.
#[derive(Clone, Copy, Debug, PartialEq, Eq)]
pub struct Mapping {
    /// The column of the generated program, from 0 on.
    pub generated: u32,
    /// The position in the source. None if nothing from this column on comes from a source.
    pub original: Option<Original>,
}
