//! `wgrow`: lets a module tell its host of each growth of a memory, before it grows.
//!
//! It is run as `examples wgrow IN.wasm >OUT.wasm`. The module that it writes imports one function
//! more, `host.grow`, which takes and returns nothing, and calls it before each `memory.grow`.
ghost use Rattle.wasm_module.specs.RewrittenCode.{keeps_locals};
ghost use Rattle.inserted_code.specs.InsertedCode.{Inserts};

use module_tools::Tool;
use std::alloc::Global;
use walrus_body::LocalFunction;
use walrus_insertion::{Probe, insert_before};
use walrus_ir::{FunctionId, IdHashSet, Instr, ModuleLocals};
use wasm_module::{ChangeFunction, Changes, ModuleError, ParsedModule};

/// Lets each function call this one before each `memory.grow`.
#[derive(Clone, Copy, Drop)]
pub(crate) struct Grows(FunctionId);

impl ChangeFunction for Grows {
    ghost State = { Unit {0} };

    ghost state = { λ _. tt };

    // Instructions are inserted, so what is written is that of `law_inserted_code`.
    ghost changes = { λ _ _. keeps_locals (λ _ old new. Inserts old new) };

    fn change(
        &mut self,
        _index: usize,
        function: &mut LocalFunction,
        _locals: &mut ModuleLocals,
    ) -> Result<(), ModuleError> {
        let hook = self.0;
        let grows = |instr: &Instr| matches!(instr, Instr::MemoryGrow(_));
        insert_before(
            function.builder_mut(),
            grows,
            |probe: &mut Probe| probe.call(hook),
        )?;
        Ok(())
    }
}

/// Imports the function that is called, of a type that is added if the module doesn't have it.
fn import_grow(
    parsed: &mut ParsedModule<'_>,
    changes: &mut Changes,
) -> Result<FunctionId, ModuleError> {
    match parsed.function_type(changes, &[], &[]) {
        Ok(ty) => parsed.import_function(changes, "host", "grow", ty),
        Err(error) => Err(error),
    }
}

/// Tells of the growths of a module.
#[derive(Clone, Copy)]
pub(crate) struct Telling;

impl Tool for Telling {
    type Change = Grows;

    fn changes(
        &self,
        alloc: Global,
        parsed: &mut ParsedModule<'_>,
        _functions: IdHashSet<FunctionId>,
    ) -> Result<(Option<Grows>, Changes), ModuleError> {
        let mut changes = Changes::new(alloc);
        match import_grow(parsed, &mut changes) {
            Ok(func) => Ok((Some(Grows(func)), changes)),
            Err(error) => Err(error),
        }
    }
}
