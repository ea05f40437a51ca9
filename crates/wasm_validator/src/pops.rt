//! Operators that take many operands, which are popped without a list of their types.
ghost use Rattle.std.specs.Prelude.{◌≡◌, replicate, Ok};
ghost use Rattle.wasm_typing.specs.Operands.{◌⟶◌};
ghost use Rattle.wasm_typing.specs.Rules.{struct_new, array_new_fixed};
ghost use Rattle.wasm_validator.specs.Plain.{field_types};
ghost use Rattle.wasm_validator.specs.Steps.{ResultsIn};

use crate::fault::Fault;
use crate::references::reference;
use crate::state::Validator;
use wasm_context::FieldType;
use wasm_operators::RawValType;
use wasm_types::HeapType;

impl Validator<'_> {
    ghost use Rattle.wasm_validator.specs.Steps.{setting_of, operand_stack, inner_of, open_state, pop_all_in, typed_in};
    ghost use Rattle.wasm_validator.specs.Plain.{plain_in};

    /// "pop_vals" of the types of fields.
    pub(crate) fn pop_fields(&mut self, fields: &[FieldType]) -> Result<(), Fault>
        ensures pops { ResultsIn (pop_all_in (setting_of self.old) (inner_of self.old) (field_types fields.now)
            (operand_stack self.old)) result (operand_stack self.new) }
        ensures same { self.new ≡ record self.old { operands = self.new.operands } }
    {
        let mut left = fields.len();
        while left > 0 {
            left -= 1;
            match self.pop(fields[left].storage.unpacked()) {
                Ok(()) => {}
                Err(fault) => return Err(fault),
            }
        }
        Ok(())
    }

    /// "pop_vals" of one type, so many times. Once nothing is left above the height of an unreachable
    /// frame, it ends.
    pub(crate) fn pop_same(&mut self, ty: RawValType, count: u32) -> Result<(), Fault>
        ensures pops { ResultsIn (pop_all_in (setting_of self.old) (inner_of self.old) (replicate count ty)
            (operand_stack self.old)) result (operand_stack self.new) }
        ensures same { self.new ≡ record self.old { operands = self.new.operands } }
    {
        let mut left = count;
        while left > 0 {
            if self.inner.unreachable && self.operands.len() == self.inner.height {
                return Ok(());
            }
            left -= 1;
            match self.pop(ty) {
                Ok(()) => {}
                Err(fault) => return Err(fault),
            }
        }
        Ok(())
    }

    /// Pops operands of the types of fields, and pushes some of those.
    fn apply_fields(&mut self, fields: &[FieldType], gives: &[RawValType]) -> Result<(), Fault>
        ensures typed { ResultsIn (typed_in (setting_of self.old) (inner_of self.old) (field_types fields.now)
            gives.now (operand_stack self.old)) result (operand_stack self.new) }
        ensures same { self.new ≡ record self.old { operands = self.new.operands } }
    {
        match self.pop_fields(fields) {
            Ok(()) => self.push_all(gives),
            Err(fault) => Err(fault),
        }
    }

    /// Pops operands of one type, so many, and pushes some of those.
    fn apply_same(&mut self, ty: RawValType, count: u32, gives: &[RawValType]) -> Result<(), Fault>
        ensures typed { ResultsIn (typed_in (setting_of self.old) (inner_of self.old) (replicate count ty)
            gives.now (operand_stack self.old)) result (operand_stack self.new) }
        ensures same { self.new ≡ record self.old { operands = self.new.operands } }
    {
        match self.pop_same(ty, count) {
            Ok(()) => self.push_all(gives),
            Err(fault) => Err(fault),
        }
    }

    /// The same as what the algorithm does.
    #[tactic(auto, using(crate::proofs::PlainOperators::typed_done))]
    fn typed_fields(&mut self, fields: &[FieldType], gives: &[RawValType]) -> Result<(), Fault>
        ensures plain { ResultsIn (plain_in self.old (Ok (field_types fields.now ⟶ gives.now))) result
            (open_state self.new) }
        ensures open { self.new.ended ≡ self.old.ended }
        ensures setting { setting_of self.new ≡ setting_of self.old }
    {
        self.apply_fields(fields, gives)
    }

    /// The same as what the algorithm does.
    #[tactic(auto, using(crate::proofs::PlainOperators::typed_done))]
    fn typed_same(&mut self, ty: RawValType, count: u32, gives: &[RawValType]) -> Result<(), Fault>
        ensures plain { ResultsIn (plain_in self.old (Ok (replicate count ty ⟶ gives.now))) result
            (open_state self.new) }
        ensures open { self.new.ended ≡ self.old.ended }
        ensures setting { setting_of self.new ≡ setting_of self.old }
    {
        self.apply_same(ty, count, gives)
    }

    /// `struct.new`
    pub(crate) fn struct_new(&mut self, ty: u32) -> Result<(), Fault>
        ensures plain { ResultsIn (plain_in self.old (struct_new (setting_of self.old).operands ty)) result
            (open_state self.new) }
        ensures open { self.new.ended ≡ self.old.ended }
        ensures setting { setting_of self.new ≡ setting_of self.old }
    {
        let context = self.context;
        match context.struct_fields(ty) {
            Some(fields) => self.typed_fields(fields, &[reference(false, HeapType::Concrete(ty))]),
            None => Err(Fault::Refused),
        }
    }

    /// `array.new_fixed`
    pub(crate) fn array_new_fixed(&mut self, ty: u32, count: u32) -> Result<(), Fault>
        ensures plain { ResultsIn (plain_in self.old
            (array_new_fixed (setting_of self.old).operands ty count)) result (open_state self.new) }
        ensures open { self.new.ended ≡ self.old.ended }
        ensures setting { setting_of self.new ≡ setting_of self.old }
    {
        let Some(element) = self.context.array_element(ty) else {
            return Err(Fault::Refused);
        };
        let gives = reference(false, HeapType::Concrete(ty));
        self.typed_same(element.storage.unpacked(), count, &[gives])
    }
}
