//! The context of a module, from its bytes.

ghost use Rattle.wasm_sections.specs.Parts.{GivesUnlessMemory};
ghost use Rattle.module_context.specs.ModuleContexts.{module_setting};
ghost use Rattle.module_context.specs.ReadContexts.{read_setting};

use crate::declarations::Declarations;
use std::alloc::Global;
use wasm_context::Context;
use wasm_sections::ModuleError;

/// The context of a module.
#[derive(Drop)]
pub struct ModuleContext {
    /// What the types of its operators depend on.
    pub context: Context,
    /// The number of its imported globals, which are the first ones.
    pub imported_globals: usize,
}

impl ModuleContext {
    /// The context of a module with these bytes. Its types are valid; its other indices and types aren't looked up.
    ///
    /// # Errors
    ///
    /// The first fault of its sections, with its place, or `Memory`.
    pub fn read(alloc: Global, bytes: &[u8]) -> Result<ModuleContext, ModuleError>
        ensures is { GivesUnlessMemory read_setting result (module_setting bytes.now) }
    {
        let mut declarations = Declarations::new(alloc);
        match declarations.read(alloc, bytes) {
            Ok(()) => Ok(ModuleContext {
                context: declarations.context,
                imported_globals: declarations.imported_globals,
            }),
            Err(error) => Err(error),
        }
    }
}
