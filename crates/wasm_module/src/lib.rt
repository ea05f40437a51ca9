//! Whole modules of WebAssembly: their sections are read, the body of each function is rewritten,
//! and a module is written that has everything else unchanged.
#![tactic(auto)]

mod adding;
mod bodies;
mod body_context;
mod body_errors;
mod body_writer;
mod changing;
mod checking;
mod custom;
mod functions;
mod importing;
mod keeping;
mod keeping_pairs;
mod large_bodies;
mod laws;
mod laws_again;
mod laws_sections;
mod map_sink;
mod missing;
mod numbers;
mod parsed;
mod references;
mod rewriting;
mod source_map_url;
mod views;
mod writing;

pub use bodies::Scratch;
pub use body_writer::{BodyWriter, ChangeFunction, Measured, Needed, Rewriting};
pub use changing::kept_bodies::KeptBodies;
pub use custom::{Note, NoteKind};
pub use keeping::{Keeping, Kept};
pub use keeping_pairs::KeptWithPairs;
pub use laws::{law_changed_code, law_changed_module, law_kept_module, law_rewritten_before};
pub use map_sink::{MapLines, MapSink, WrittenBody};
pub use parsed::ParsedModule;
pub use rewriting::RewrittenModule;
pub use source_map_url::write_source_map_url;
pub use walrus_flat::ByteSink;
pub use wasm_sections::{
    Bodies, Body, Changes, DefinedGlobal, DefinedMemory, DefinedTable, DefinedTag, Export, Exports,
    FaultName, Function, Functions, GlobalType, Globals, Import, Imported, Imports, Limits,
    Memories, ModuleError, ModuleFault, NamedFunction, NamedFunctions, OmittedSections, Section,
    SectionKind, Sections, TableType, Tables, Tags,
};
pub use writing::WriteError;
