//! What the types of a module's operators depend on (WebAssembly core specification 3.0, validation,
//! contexts): the types and index spaces of the module, and which types match. The definitions are those
//! of `wasm_typing`; this crate has them in code.
#![tactic(auto)]

mod blocks;
mod context;
mod declared_type;
mod definitions;
mod keys;
mod laws;
mod lookups;
mod matching;
mod types;

pub use blocks::{BlockTypes, TypeList};
pub use context::{AddressType, Context, GlobalType, TableType};
pub use declared_type::{DeclaredType, are_below};
pub use definitions::Definitions;
pub use laws::law_raw_validity;
pub use matching::{difference, matches_abstract};
pub use types::{
    CompositeType, DefinedType, FieldType, RawRefType, StorageType, has_default, is_number,
};
