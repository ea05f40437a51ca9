//! Code is validated.
ghost use Rattle.std.specs.Prelude.{◌≡◌, ◌+◌, ◌<◌, ◌^◌, length};
ghost use Rattle.wasm_context.specs.Contexts.{context_of};
ghost use Rattle.wasm_context.specs.TypeLists.{types_in};
ghost use Rattle.wasm_locals.specs.LocalTypes.{types_of_locals};
ghost use Rattle.wasm_sections.specs.Parts.{GivesUnlessMemory};
ghost use Rattle.module_validator.specs.CodeValidity.{code_validity};
ghost use Rattle.module_validator.specs.CodeVerdicts.{error_of_body};

use module_context::faults::INVALID_OPERATOR;
use wasm_body::ParseError;
use wasm_context::{Context, TypeList};
use wasm_locals::LocalTypes;
use wasm_sections::{ModuleError, ModuleFault};
use wasm_validation::{ValidationError, ValidationFailure, ValidationScratch, validate_code};

/// The error of a body that isn't valid, as one of its module.
fn error_of_body(failure: ValidationFailure) -> ModuleError
    ensures { result ≡ error_of_body failure }
{
    let fault = match failure.error {
        ValidationError::Memory => ModuleFault::Memory,
        ValidationError::Read(fault) => ModuleFault::Read(fault),
        ValidationError::Invalid => INVALID_OPERATOR,
        ValidationError::Trailing => ModuleFault::Parse(ParseError::Trailing),
        ValidationError::MissingEnd => ModuleFault::Parse(ParseError::MissingEnd),
    };
    ModuleError {
        fault,
        at: failure.at,
    }
}

/// Checks that these bytes, the first of which is at the place `start`, are valid code with these locals and
/// results.
pub(crate) fn check_code<'a>(
    context: &'a Context,
    locals: LocalTypes<'a>,
    results: TypeList,
    code: &[u8],
    start: usize,
    scratch: &mut ValidationScratch,
) -> Result<(), ModuleError>
    requires { start + length code.now < 2 ^ 64 }
    ensures { GivesUnlessMemory (λ u. u) result (code_validity (record {
      context = context_of context.now (types_of_locals locals.entry);
      parameters = length locals.entry.params.now;
      results = types_in context.now results;
    }) start code.now) }
{
    match validate_code(context, locals, results, code, start, scratch) {
        Ok(()) => Ok(()),
        Err(failure) => Err(error_of_body(failure)),
    }
}
