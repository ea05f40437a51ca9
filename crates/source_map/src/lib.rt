//! Source maps (ECMA-426, Source map format specification) of programs of one line, such as
//! WebAssembly modules. The text of `mappings` is read and written, and mappings are moved when the
//! operators of a program move. Source maps as files are JSON texts, whose mappings are read and
//! written, and whose other members are copied.
#![tactic(auto)]

mod digit;
mod fault;
mod fields;
mod json_text;
mod law;
mod mapping;
mod moving;
mod moving_text;
mod number;
mod reading;
mod unread_segments;
mod writing;

pub use fault::{MappingsError, MappingsFault};
pub use json_text::{SourceMap, SourceMapError, SourceMapFault, SourceMapFaultName};
pub use law::{law_one_reading, law_spelt};
pub use mapping::{Mapping, Original};
pub use moving::{Move, moved};
pub use moving_text::MovingSourceMap;
pub use reading::decode;
pub use writing::encode;
