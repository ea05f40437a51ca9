//! The sections of a module of WebAssembly: how they are read, what is in them, and the new contents
//! that they are given. `wasm_module`, which changes modules, has the names that its users need.
#![tactic(auto)]

mod added_bodies;
mod appending;
mod changes;
mod code;
mod constant;
mod constants;
mod defined_items;
mod exports;
mod fault;
mod function_items;
mod functions;
mod globals;
mod imports;
mod input;
mod items;
mod limits;
mod locals;
mod memories;
mod moved_functions;
mod names;
mod omissions;
mod output;
mod references;
mod renumbering;
mod sections;
mod segments;
mod spaces;
mod tables;
mod tags;
mod types;

pub use changes::{Changes, NewContents};
pub use code::{Bodies, Body, PIECE};
pub use constants::{write_constant, write_global};
pub use exports::{Export, Exports, export_kind};
pub use fault::{FaultName, ModuleError, ModuleFault};
pub use function_items::{FunctionItems, Item};
pub use functions::{Function, Functions};
pub use globals::{DefinedGlobal, GlobalType, Globals};
pub use imports::{Import, Imported, Imports};
pub use input::Input;
pub use items::Items;
pub use limits::Limits;
pub use locals::{Locals, LocalsBelow, MAX_LOCALS, arguments};
pub use memories::{DefinedMemory, Memories};
pub use moved_functions::FunctionNumbers;
pub use names::{NamedFunction, NamedFunctions};
pub use omissions::{OmittedSections, names_debug, names_object, names_source_map};
pub use output::{number_len, write_bytes, write_number};
pub use sections::{PREAMBLE, RANKS, Section, SectionKind, Sections};
pub use spaces::{Counts, Spaces};
pub use tables::{DefinedTable, TableType, Tables};
pub use tags::{DefinedTag, Tags};
pub use types::{TypeKind, TypeReader, count_types};
