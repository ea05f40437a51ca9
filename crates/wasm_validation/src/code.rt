//! A body is validated, from its bytes.
ghost use Rattle.std.specs.Prelude.{◌≡◌, ◌+◌, ◌<◌, ◌^◌, length, OnOk};
ghost use Rattle.wasm_context.specs.TypeLists.{types_in};
ghost use Rattle.wasm_context.specs.Contexts.{context_of};
ghost use Rattle.wasm_locals.specs.LocalTypes.{types_of_locals};
ghost use Rattle.wasm_validator.specs.WellFormed.{IsWellFormed};
ghost use Rattle.wasm_validator.specs.Steps.{setting_of, whole_state_of};
ghost use Rattle.wasm_validation.specs.BodyValidation.{Validates};
ghost use Rattle.wasm_validation.specs.Taking.{TakesNextOperator, TakesAll};

use crate::error::{ValidationError, ValidationFailure};
use crate::scratch::ValidationScratch;
use wasm_context::{Context, TypeList};
use wasm_locals::LocalTypes;
use wasm_ops::Reader;
use wasm_validator::{Fault, Validator};

/// The failure with this error at this place.
fn failure(error: ValidationError, at: usize) -> ValidationFailure
    ensures { result ≡ record { error = error; at = at } }
{
    ValidationFailure { error, at }
}

/// Reads the next operator, and takes it.
#[inline(always)]
fn take_next(validator: &mut Validator<'_>, reader: &mut Reader<'_>) -> Result<(), ValidationError>
    requires { IsWellFormed (whole_state_of validator.old) }
    ensures takes { TakesNextOperator (setting_of validator.old) (whole_state_of validator.old)
        (whole_state_of validator.new) reader.old reader.new result }
    ensures well_formed { OnOk result (IsWellFormed (whole_state_of validator.new)) }
    ensures setting { OnOk result (setting_of validator.new ≡ setting_of validator.old) }
{
    if let Some((common, rest)) = reader.peek_common() {
        return match validator.step_common(common) {
            Ok(()) => {
                reader.pass_common(common, rest);
                Ok(())
            }
            Err(Fault::Refused) => Err(ValidationError::Invalid),
            Err(Fault::Memory) => Err(ValidationError::Memory),
        };
    }
    let read = reader.read_other();
    let operator = match &read {
        Ok(operator) => operator,
        Err(error) => return Err(ValidationError::Read(error.fault)),
    };
    match validator.step(operator) {
        Ok(()) => Ok(()),
        Err(Fault::Refused) => Err(ValidationError::Invalid),
        Err(Fault::Memory) => Err(ValidationError::Memory),
    }
}

/// Takes all operators. It isn't inlined, so that what it calls may be.
#[inline(never)]
fn take_all(validator: &mut Validator<'_>, reader: &mut Reader<'_>) -> Result<(), ValidationFailure>
    requires { IsWellFormed (whole_state_of validator.old) }
    ensures { TakesAll (setting_of validator.old) (whole_state_of validator.old) reader.old result }
{
    while !reader.eof() {
        let at = reader.original_position();
        if validator.ended {
            return Err(failure(ValidationError::Trailing, at));
        }
        match take_next(validator, reader) {
            Ok(()) => {}
            Err(error) => return Err(failure(error, at)),
        }
    }
    if validator.ended {
        Ok(())
    } else {
        Err(failure(ValidationError::MissingEnd, reader.original_position()))
    }
}

/// Validates the body of a function with these locals and results, from the bytes of its operators. `start` is the
/// place of the first byte. The lists of the scratch are used, and given back empty.
///
/// # Errors
///
/// Out of memory, or the first fault of the bytes, with its place.
pub fn validate_code<'a>(
    context: &'a Context,
    locals: LocalTypes<'a>,
    results: TypeList,
    code: &[u8],
    start: usize,
    scratch: &mut ValidationScratch,
) -> Result<(), ValidationFailure>
    requires { start + length code.now < 2 ^ 64 }
    ensures { Validates (record {
      context = context_of context.now (types_of_locals locals.entry);
      parameters = length locals.entry.params.now;
      results = types_in context.now results;
    }) start code.now result }
{
    let mut validator = scratch.begin(context, locals, results);
    let mut reader = Reader::new(code, start);
    let result = take_all(&mut validator, &mut reader);
    scratch.keep(validator);
    result
}
