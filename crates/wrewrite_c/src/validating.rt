//! Modules that are validated: nothing is made of them, and nothing is written.

ghost use Rattle.std.specs.Prelude.{IfErr, OnOk};
ghost use Rattle.wrewrite_c.specs.Outcomes.{HasSizes, IsOfRefused, IsStopped, IsValidModule, IsOfValidation};

use crate::outcome::{Outcome, RefusedModule, Stop, TEXT_SIZE, text_of};
use crate::reading::read;
use module_tools::function_at;
use module_validator::refusal_text;
use std::alloc::Global;

/// Validates a module.
pub(crate) fn validate(alloc: Global, source: &[u8]) -> Result<(), Stop>
    ensures valid { OnOk result (IsValidModule source.now) }
    ensures refused { IfErr result (IsOfValidation source.now) }
{
    let parsed = match read(alloc, source) {
        Ok(parsed) => parsed,
        Err(stop) => return Err(stop),
    };
    match module_validator::validate(alloc, source) {
        Ok(()) => Ok(()),
        Err(error) => Err(Stop::Refused(RefusedModule {
            error,
            function: function_at(&parsed, error.at),
        })),
    }
}

/// The text of a refusal, as the programs print it; without an operand if there is no memory for it.
fn text_of_refusal(alloc: Global, source: &[u8], refused: &RefusedModule) -> [u8; TEXT_SIZE] {
    match refusal_text(alloc, source, &refused.error) {
        Ok(text) => text_of(text),
        Err(_) => refused.text(),
    }
}

/// The outcome of a validation that is refused so.
fn outcome_of_refused(alloc: Global, source: &[u8], refused: RefusedModule) -> Outcome
    ensures refused { IsOfRefused refused result }
    ensures sizes { HasSizes 0 0 result }
{
    let text = text_of_refusal(alloc, source, &refused);
    Outcome::of_refused(refused, text)
}

/// The outcome of a validation that stopped so.
pub(crate) fn outcome_of(alloc: Global, source: &[u8], stop: Stop) -> Outcome
    ensures stopped { IsStopped stop result }
    ensures sizes { HasSizes 0 0 result }
{
    match stop {
        Stop::Refused(refused) => outcome_of_refused(alloc, source, refused),
        Stop::NoFunction(index) => Outcome::of_missing(index),
    }
}
