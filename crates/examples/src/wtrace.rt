//! `wtrace`: lets the functions of a module tell their host of each call.
//!
//! It is run as `examples wtrace IN.wasm >OUT.wasm`. The module that it writes imports one function more,
//! `host.trace`, which takes an i32 and returns nothing. Each function with a body calls it before
//! all else, with its own index in IN.wasm. Since an imported function comes before those with a
//! body, these have other indices in OUT.wasm, and all that names them follows.
ghost use Rattle.wasm_module.specs.RewrittenCode.{keeps_locals};
ghost use Rattle.inserted_code.specs.InsertedCode.{Inserts};

use module_tools::Tool;
use std::alloc::Global;
use walrus_body::LocalFunction;
use walrus_insertion::{Place, Probe, insert};
use walrus_ir::{BlockKind, FunctionId, IdHashSet, ModuleLocals, ValType};
use wasm_module::{ChangeFunction, Changes, ModuleError, ModuleFault, ParsedModule};

/// Lets each function call this one, with its index.
#[derive(Clone, Copy, Drop)]
pub(crate) struct Trace(FunctionId);

impl ChangeFunction for Trace {
    ghost State = { Unit {0} };

    ghost state = { λ _. tt };

    // Instructions are inserted, so what is written is that of `law_inserted_code`.
    ghost changes = { λ _ _. keeps_locals (λ _ old new. Inserts old new) };

    fn change(
        &mut self,
        index: usize,
        function: &mut LocalFunction,
        _locals: &mut ModuleLocals,
    ) -> Result<(), ModuleError> {
        let Ok(number) = i32::try_from(index) else {
            let fault = ModuleFault::TooGreat;
            return Err(ModuleError { fault, at: 0 });
        };
        let hook = self.0;
        insert(
            function.builder_mut(),
            |place: &Place<'_>, probe: &mut Probe| {
                if !place.is_start() || !matches!(place.kind, BlockKind::FunctionEntry) {
                    return Ok(());
                }
                probe.i32_const(number)?;
                probe.call(hook)
            },
        )?;
        Ok(())
    }
}

/// Imports the function that is called, of a type that is added if the module doesn't have it.
fn import_trace(
    parsed: &mut ParsedModule<'_>,
    changes: &mut Changes,
) -> Result<FunctionId, ModuleError> {
    match parsed.function_type(changes, &[ValType::I32], &[]) {
        Ok(ty) => parsed.import_function(changes, "host", "trace", ty),
        Err(error) => Err(error),
    }
}

/// Traces the calls of a module.
#[derive(Clone, Copy)]
pub(crate) struct Tracing;

impl Tool for Tracing {
    type Change = Trace;

    fn changes(
        &self,
        alloc: Global,
        parsed: &mut ParsedModule<'_>,
        _functions: IdHashSet<FunctionId>,
    ) -> Result<(Option<Trace>, Changes), ModuleError> {
        let mut changes = Changes::new(alloc);
        match import_trace(parsed, &mut changes) {
            Ok(func) => Ok((Some(Trace(func)), changes)),
            Err(error) => Err(error),
        }
    }
}
