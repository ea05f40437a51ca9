//! The functions that are named, as marks (WebAssembly core specification 3.0, validation, contexts, "C.refs").

ghost use Rattle.std.specs.Prelude.{◌≡◌, IfOk};
ghost use Rattle.wasm_context.specs.Contexts.{marked_from};
ghost use Rattle.module_context.specs.ModuleContexts.{referenced_in};

use std::alloc::{AllocError, Global};
use walrus_ir::FunctionId;

/// For each of so many functions, whether it is named.
pub(crate) fn marks_of(
    alloc: Global,
    named: &[FunctionId],
    count: usize,
) -> Result<Vec<bool>, AllocError>
    ensures { IfOk result (λ marks. marked_from 0 marks.items ≡ referenced_in named.now count) }
{
    let mut marks = vec![in alloc; false; count]?;
    'named: for function in named {
        let index = function.index();
        if index < marks.len() {
            marks[index] = true;
        }
    }
    Ok(marks)
}
