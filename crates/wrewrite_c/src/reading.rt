//! The module that a call is made on.

ghost use Rattle.std.specs.Prelude.{ℕ, List, IfOk, IfErr};
ghost use Rattle.wasm_module.specs.ReadFrom.{IsModuleOf};
ghost use Rattle.wrewrite_c.specs.Outcomes.{IsNotRead, IsOfModule, LacksFunction};

use crate::outcome::{RefusedModule, Stop};
use std::alloc::Global;
use wasm_module::ParsedModule;

/// Reads a module.
pub(crate) fn read(alloc: Global, source: &[u8]) -> Result<Box<ParsedModule<'_>>, Stop>
    ensures read { IfOk result (λ parsed. IsModuleOf source.now parsed.value) }
    ensures not_read { IfErr result (IsNotRead source.now) }
    ensures of_module { IfErr result IsOfModule }
    ensures of_functions { (indices : List ℕ) → IfErr result (LacksFunction indices source.now) }
{
    match ParsedModule::read_in_box(alloc, source) {
        Ok(parsed) => Ok(parsed),
        Err(error) => Err(Stop::Refused(RefusedModule {
            error,
            function: None,
        })),
    }
}
