//! Source maps as files (ECMA-426, Source map format specification): JSON texts, whose mappings are
//! read and written, and whose other members are copied.

mod fault;
mod parts;
mod reading;
mod source_map;
mod writing;

pub use fault::{SourceMapError, SourceMapFault, SourceMapFaultName};
pub use source_map::SourceMap;
