//! Why a body isn't rewritten.

ghost use Rattle.std.specs.Prelude.{◌≡◌};
ghost use Rattle.wasm_module.specs.Refusals.{rewriting_fault, place_in_file};

use walrus_rewrite::RewriteError;
use wasm_sections::{ModuleError, ModuleFault};

/// The error of a body that isn't rewritten; the body begins at this place.
pub(crate) fn body_error(error: RewriteError, start: usize) -> ModuleError
    ensures fault { result.fault ≡ rewriting_fault error }
    ensures place { result.at ≡ place_in_file start error }
{
    let fault = match error {
        RewriteError::Parse(failure) => return ModuleError::of_parse(failure),
        RewriteError::Walk(error) => ModuleFault::of_walk(error),
        RewriteError::Emit(error) => ModuleFault::of_emit(error),
    };
    ModuleError { fault, at: start }
}
