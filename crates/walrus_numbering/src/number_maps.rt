//! The numbers that are written for ids.

use walrus_ir::{IdHashMap, LocalId, ModuleTypes};
use walrus_maps::IdsToIndices;

/// The numbers of a function's ids, in a module.
#[derive(Clone, Copy)]
pub struct NumberMaps<'a> {
    /// The module's types, which say where an `else` may be left out.
    pub types: &'a ModuleTypes,
    /// The new indices of the module's ids.
    pub ids: &'a IdsToIndices,
    /// The numbers of the function's locals.
    pub locals: &'a IdHashMap<LocalId, u32>,
}
