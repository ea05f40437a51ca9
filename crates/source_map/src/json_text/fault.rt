//! Why a source map can't be read.

ghost use Rattle.std.specs.Prelude.{◌≡◌, ℕ};
ghost use Rattle.source_map.specs.declared.json_text.fault.SourceMapError.TheVariants.{Memory, Fault};
ghost use Rattle.source_map.specs.declared.json_text.fault.SourceMapFault.TheVariants.{NotJson};
ghost use Rattle.source_map.specs.Errors.{error_of_mappings};

use crate::fault::{MappingsError, MappingsFault};
use std::alloc::{AllocError, AllocFailed};
use std::fmt;
use thiserror::Error;

/// What is wrong with a source map.
#[derive(Clone, Copy, Debug, PartialEq, Eq, Error)]
pub enum SourceMapFault {
    /// Lines and columns count from 1.
    #[error("line {line}, column {column}: this is no JSON text")]
    NotJson { line: usize, column: usize },
    /// The JSON text isn't an object.
    #[error("this is no source map")]
    NotASourceMap,
    /// The member `version` isn't the number 3.
    #[error("the version of the source map is not 3")]
    BadSourceMapVersion,
    /// The object has no text `mappings`. With `sections` instead, it is an index map.
    #[error("the source map has no mappings of its own")]
    NoMappings,
    /// What is wrong with the text of its mappings.
    #[error("{0}")]
    Mappings(MappingsFault),
}

/// The name of a fault: that of its innermost variant.
#[derive(Clone, Copy, Debug, PartialEq, Eq)]
pub struct SourceMapFaultName(SourceMapFault);

impl fmt::Display for SourceMapFaultName {
    fn fmt<W: fmt::Write>(&self, f: &mut fmt::Formatter<W>) -> fmt::Result {
        match self.0 {
            SourceMapFault::NotJson { .. } => f.write_str("NotJson"),
            SourceMapFault::Mappings(fault) => write!(f, "{fault:?}"),
            fault => write!(f, "{fault:?}"),
        }
    }
}

impl SourceMapFault {
    /// The fault's name.
    pub fn name(self) -> SourceMapFaultName {
        SourceMapFaultName(self)
    }
}

/// Why a source map isn't read.
#[derive(Clone, Copy, Debug, PartialEq, Eq, Drop)]
pub enum SourceMapError {
    /// Memory ran out.
    Memory,
    /// What is wrong with the source map.
    Fault(SourceMapFault),
}

impl SourceMapError {
    /// The error of a text that is no JSON text from this offset on: its line and its column, or at
    /// the end of the text that of the byte before it.
    pub(crate) fn not_json(text: &[u8], offset: usize) -> SourceMapError
        ensures { (line : ℕ) × (column : ℕ) × (result ≡ Fault (NotJson line column)) }
    {
        let mut line = 1usize;
        let first = if offset < text.len() { 1usize } else { 0 };
        let mut column = first;
        for byte in text.iter().take(offset) {
            if *byte == b'\n' {
                line = line.saturating_add(1);
                column = first;
            } else {
                column = column.saturating_add(1);
            }
        }
        SourceMapError::Fault(SourceMapFault::NotJson { line, column })
    }
}

impl From<MappingsError> for SourceMapError {
    ghost from_gives = { λ error e. e ≡ error_of_mappings error };

    fn from(error: MappingsError) -> SourceMapError {
        match error {
            MappingsError::Memory => SourceMapError::Memory,
            MappingsError::Fault(fault) => SourceMapError::Fault(SourceMapFault::Mappings(fault)),
        }
    }
}

impl From<SourceMapFault> for SourceMapError {
    ghost from_gives = { λ fault e. e ≡ Fault fault };

    fn from(fault: SourceMapFault) -> SourceMapError {
        SourceMapError::Fault(fault)
    }
}

impl From<AllocError> for SourceMapError {
    ghost from_gives = { λ _ e. e ≡ Memory };

    fn from(_: AllocError) -> SourceMapError {
        SourceMapError::Memory
    }
}

impl<T: Drop> From<AllocFailed<T>> for SourceMapError {
    ghost from_gives = { λ _ e. e ≡ Memory };

    fn from(_: AllocFailed<T>) -> SourceMapError {
        SourceMapError::Memory
    }
}
