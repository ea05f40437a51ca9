//! The context of a module, read from its bytes (WebAssembly core specification 3.0, validation, modules): its
//! types, its index spaces, and the functions that something other than a body or the start section names. The
//! types are validated; what else a valid module requires isn't looked at.
#![tactic(auto)]

mod composite_types;
mod declarations;
pub mod faults;
mod groups;
mod items;
mod reading;
mod references;

pub use faults::validity_words;
pub use items::{ImportType, element_reference, import_type};
pub use reading::ModuleContext;
