//! A validator of operators, for those who read a body themselves.
ghost use Rattle.std.specs.Prelude.{◌≡◌, length, Some};
ghost use Rattle.wasm_context.specs.TypeLists.{types_in};
ghost use Rattle.wasm_context.specs.Contexts.{context_of};
ghost use Rattle.wasm_context.specs.Validation.{body_start};
ghost use Rattle.wasm_locals.specs.LocalTypes.{types_of_locals};

use crate::scratch::ValidationScratch;
use std::alloc::Global;
use std::marker::Model;
use walrus_validators::{CheckError, OpCheck};
use wasm_context::{Context, TypeList};
use wasm_locals::LocalTypes;
use wasm_ops::Operator;
use wasm_validator::{Fault, Operand, Validator};

/// The number of a refusal, which has no other reason than that the algorithm refuses the operator.
const REFUSAL: u32 = 0;

/// A validator that takes the operators of a body as the validation algorithm does, and refuses all once it has
/// refused one, or memory ran out. That the last operator closes the function's frame is left to the reader.
#[derive(Drop)]
pub struct BodyValidator<'a> {
    validator: Validator<'a>,
    refused: bool,
}

impl<'a> Model for BodyValidator<'a> {
    ghost use Rattle.std.specs.Prelude.{◌≡◌, false};
    ghost use Rattle.wasm_validator.specs.WellFormed.{IsWellFormed};
    ghost use Rattle.wasm_validator.specs.Steps.{whole_state_of};
    ghost use Rattle.wasm_validation.specs.BodyChecks.{ReachedState, reached_state};

    ghost Value = { ReachedState };

    ghost view = { λ v. reached_state v.refused v.validator };

    ghost invariant = { λ v. v.refused ≡ false → IsWellFormed (whole_state_of v.validator) };
}

impl<'a> BodyValidator<'a> {
    /// A validator of the body of a function with these locals and results. This allocates nothing.
    pub fn new(
        context: &'a Context,
        locals: LocalTypes<'a>,
        results: TypeList,
        alloc: Global,
    ) -> Self
        ensures { result ≡ Some (
          context_of context.now (types_of_locals locals.entry),
          body_start (context_of context.now (types_of_locals locals.entry)) (length locals.entry.params.now)
              (types_in context.now results),
        ) }
    {
        let mut scratch = ValidationScratch::new(alloc);
        let validator = scratch.begin(context, locals, results);
        BodyValidator {
            validator,
            refused: false,
        }
    }

    /// The operands, the topmost last.
    pub(crate) fn operands(&self) -> &[Operand] {
        &self.validator.operands
    }

    /// The number of operands below the innermost sequence.
    pub(crate) fn height(&self) -> usize {
        self.validator.inner.height
    }

    /// Puts these operands in the place of its own, if they are no fewer.
    pub(crate) fn set_operands(&mut self, operands: Vec<Operand>) {
        if operands.len() >= self.validator.operands.len() {
            self.validator.operands = operands;
        }
    }
}

impl OpCheck for BodyValidator<'_> {
    ghost use Rattle.wasm_validation.specs.BodyChecks.{ReachedState, check_body};

    ghost State = { ReachedState };

    ghost state = { λ s. s };

    ghost check = { check_body };

    fn op(&mut self, _pos: usize, op: &Operator<'_>) -> Result<(), CheckError> {
        if self.refused {
            return Err(CheckError::Refused(REFUSAL));
        }
        match self.validator.step(op) {
            Ok(()) => Ok(()),
            Err(fault) => {
                self.refused = true;
                match fault {
                    Fault::Refused => Err(CheckError::Refused(REFUSAL)),
                    Fault::Memory => Err(CheckError::Memory),
                }
            }
        }
    }
}
