//! Operators on references, by their types.
ghost use Rattle.std.specs.Prelude.{◌≡◌};
ghost use Rattle.wasm_typing.specs.Rules.{reference_to, null_reference, function_reference, reference_test, reference_cast};
ghost use Rattle.wasm_validator.specs.Steps.{ResultsIn};

use crate::fault::Fault;
use crate::state::Validator;
use wasm_context::RawRefType;
use wasm_operators::{RawHeapType, RawValType};
use wasm_types::{HeapType, ValType};

/// A reference type.
pub(crate) fn reference(nullable: bool, heap_type: RawHeapType) -> RawValType
    ensures { result ≡ reference_to nullable heap_type }
{
    ValType::Ref(RawRefType {
        nullable,
        heap_type,
    })
}

impl Validator<'_> {
    ghost use Rattle.wasm_validator.specs.Steps.{setting_of, open_state};
    ghost use Rattle.wasm_validator.specs.Plain.{plain_in};

    /// `ref.null`
    pub(crate) fn null_reference(&mut self, heap: RawHeapType) -> Result<(), Fault>
        ensures plain { ResultsIn (plain_in self.old (null_reference (setting_of self.old).operands heap)) result (open_state self.new) }
        ensures open { self.new.ended ≡ self.old.ended }
        ensures setting { setting_of self.new ≡ setting_of self.old }
    {
        if !self.context.is_valid_heap(heap) {
            return Err(Fault::Refused);
        }
        self.typed(&[], &[reference(true, heap)])
    }

    /// `ref.func`
    pub(crate) fn function_reference(&mut self, func: u32) -> Result<(), Fault>
        ensures plain { ResultsIn (plain_in self.old (function_reference (setting_of self.old).operands func)) result (open_state self.new) }
        ensures open { self.new.ended ≡ self.old.ended }
        ensures setting { setting_of self.new ≡ setting_of self.old }
    {
        let Some(ty) = self.context.function_of(func) else {
            return Err(Fault::Refused);
        };
        if !self.context.is_referenced(func) {
            return Err(Fault::Refused);
        }
        self.typed(&[], &[reference(false, HeapType::Concrete(ty))])
    }

    /// `ref.test`
    pub(crate) fn reference_test(&mut self, heap: RawHeapType) -> Result<(), Fault>
        ensures plain { ResultsIn (plain_in self.old (reference_test (setting_of self.old).operands heap)) result (open_state self.new) }
        ensures open { self.new.ended ≡ self.old.ended }
        ensures setting { setting_of self.new ≡ setting_of self.old }
    {
        match self.context.top_heap(heap) {
            Some(top) => self.typed(&[reference(true, HeapType::Abstract(top))], &[ValType::I32]),
            None => Err(Fault::Refused),
        }
    }

    /// `ref.cast`
    pub(crate) fn reference_cast(&mut self, nullable: bool, heap: RawHeapType) -> Result<(), Fault>
        ensures plain { ResultsIn (plain_in self.old (reference_cast nullable (setting_of self.old).operands heap)) result (open_state self.new) }
        ensures open { self.new.ended ≡ self.old.ended }
        ensures setting { setting_of self.new ≡ setting_of self.old }
    {
        match self.context.top_heap(heap) {
            Some(top) => self.typed(
                &[reference(true, HeapType::Abstract(top))],
                &[reference(nullable, heap)],
            ),
            None => Err(Fault::Refused),
        }
    }
}
