//! Calls.
ghost use Rattle.std.specs.Prelude.{◌≡◌, ◌∷◌, [], ◌++◌, Ok};
ghost use Rattle.wasm_typing.specs.Operands.{◌⟶◌};
ghost use Rattle.wasm_typing.specs.Rules.{call, call_ref, call_indirect};
ghost use Rattle.wasm_validator.specs.Steps.{ResultsIn};

use crate::fault::Fault;
use crate::references::reference;
use crate::state::Validator;
use wasm_context::RawRefType;
use wasm_operators::RawValType;
use wasm_types::{AbstractHeapType, HeapType};

/// "(ref null func)"
const FUNCTIONS: RawRefType = RawRefType {
    nullable: true,
    heap_type: HeapType::Abstract(AbstractHeapType::Func),
};

impl Validator<'_> {
    ghost use Rattle.wasm_validator.specs.Steps.{setting_of, open_state};
    ghost use Rattle.wasm_validator.specs.Plain.{plain_in};

    /// Pops an operand of the last type and operands of the others, and pushes some of those.
    fn typed_last(
        &mut self,
        takes: &[RawValType],
        last: RawValType,
        gives: &[RawValType],
    ) -> Result<(), Fault>
        ensures plain { ResultsIn (plain_in self.old (Ok (takes.now ++ last ∷ [] ⟶ gives.now))) result
            (open_state self.new) }
        ensures open { self.new.ended ≡ self.old.ended }
        ensures setting { setting_of self.new ≡ setting_of self.old }
    {
        match self.pop(last) {
            Ok(()) => self.apply(takes, gives),
            Err(fault) => Err(fault),
        }
    }

    /// `call`
    pub(crate) fn call(&mut self, func: u32) -> Result<(), Fault>
        ensures plain { ResultsIn (plain_in self.old (call (setting_of self.old).operands func)) result
            (open_state self.new) }
        ensures open { self.new.ended ≡ self.old.ended }
        ensures setting { setting_of self.new ≡ setting_of self.old }
    {
        let context = self.context;
        let Some(ty) = context.function_of(func) else {
            return Err(Fault::Refused);
        };
        match context.function_type(ty) {
            Some((params, results)) => self.typed(params, results),
            None => Err(Fault::Refused),
        }
    }

    /// `call_ref`
    pub(crate) fn call_ref(&mut self, ty: u32) -> Result<(), Fault>
        ensures plain { ResultsIn (plain_in self.old (call_ref (setting_of self.old).operands ty)) result
            (open_state self.new) }
        ensures open { self.new.ended ≡ self.old.ended }
        ensures setting { setting_of self.new ≡ setting_of self.old }
    {
        let context = self.context;
        match context.function_type(ty) {
            Some((params, results)) => {
                let callee = reference(true, HeapType::Concrete(ty));
                self.typed_last(params, callee, results)
            }
            None => Err(Fault::Refused),
        }
    }

    /// `call_indirect`
    pub(crate) fn call_indirect(&mut self, ty: u32, table: u32) -> Result<(), Fault>
        ensures plain { ResultsIn (plain_in self.old
            (call_indirect (setting_of self.old).operands ty table)) result (open_state self.new) }
        ensures open { self.new.ended ≡ self.old.ended }
        ensures setting { setting_of self.new ≡ setting_of self.old }
    {
        let context = self.context;
        let Some(table) = context.table(table) else {
            return Err(Fault::Refused);
        };
        if !context.matches_reference(table.element, FUNCTIONS) {
            return Err(Fault::Refused);
        }
        match context.function_type(ty) {
            Some((params, results)) => self.typed_last(params, table.address.value(), results),
            None => Err(Fault::Refused),
        }
    }
}
