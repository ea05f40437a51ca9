//! Branches, and other operators that leave a sequence.
ghost use Rattle.std.specs.Prelude.{◌≡◌, ◌++◌, ◌∷◌, [], option_map, Ok};
ghost use Rattle.std.specs.Option.{option_to_list};
ghost use Rattle.wasm_body.specs.Validity.{required, demand, results, exnref};
ghost use Rattle.wasm_typing.specs.Operands.{◌⟶◌};
ghost use Rattle.wasm_typing.specs.Rules.{call, call_ref, call_indirect};
ghost use Rattle.wasm_typing.specs.StandardRules.{label_parts, reference_type, is_cast};
ghost use Rattle.wasm_validator.specs.WellFormed.{IsWellFormed};
ghost use Rattle.wasm_context.specs.TypeLists.{types_in};
ghost use Rattle.wasm_validator.specs.Steps.{ResultsIn};
ghost use Rattle.wasm_validator.specs.Core.{last_and_before};

use crate::fault::Fault;
use crate::frame::Opened;
use crate::operand::operand_of;
use crate::state::Validator;
use crate::types::{last_type, types_of};
use wasm_context::{RawRefType, TypeList, difference};
use wasm_operators::{RawCast, RawValType};
use wasm_types::{AbstractHeapType, HeapType, RefType, ValType};

/// "exnref"
const EXNREF: RawValType = ValType::Ref(RefType {
    nullable: true,
    heap_type: HeapType::Abstract(AbstractHeapType::Exn),
});

/// "(ref null func)"
const FUNCREF: RawRefType = RawRefType {
    nullable: true,
    heap_type: HeapType::Abstract(AbstractHeapType::Func),
};

/// The last type of a label, which has to be a reference, and those before it.
fn label_parts(types: &[RawValType]) -> Option<(&[RawValType], RawRefType)>
    ensures { label_parts types.now ≡ required (option_map (λ p. last_and_before p.0.now p.1) result) }
{
    match last_type(types) {
        Some(found) => match found.0 {
            ValType::Ref(last) => Some((found.1, last)),
            _ => None,
        },
        None => None,
    }
}

/// The types of a cast: from the first to the second.
fn cast_types(cast: RawCast) -> (RawRefType, RawRefType)
    ensures from { result.0 ≡ reference_type cast.from_nullable cast.source }
    ensures to { result.1 ≡ reference_type cast.to_nullable cast.target }
{
    let from = RawRefType {
        nullable: cast.from_nullable,
        heap_type: cast.source,
    };
    let to = RawRefType {
        nullable: cast.to_nullable,
        heap_type: cast.target,
    };
    (from, to)
}

impl Validator<'_> {
    ghost use Rattle.wasm_validator.specs.Steps.{setting_of, operand_stack, inner_of, open_state, typed_in, ReachesHeight};
    ghost use Rattle.wasm_validator.specs.Core.{open_frames, branch_in, conditional_in, if_rule, non_null_rule, reference_rule, cast_in, cast_fail_in, leaves_with, throws_in, rethrows_in, tail_in};

    /// "pop_vals" of these types, after which code can't be reached.
    pub(crate) fn leave_with(&mut self, types: &[RawValType]) -> Result<(), Fault>
        ensures leaves { ResultsIn (leaves_with self.old types.now) result (open_state self.new) }
        ensures open { self.new.ended ≡ self.old.ended }
        ensures setting { setting_of self.new ≡ setting_of self.old }
    {
        match self.pop_all(types) {
            Ok(()) => {
                self.set_unreachable();
                Ok(())
            }
            Err(fault) => Err(fault),
        }
    }

    /// `br`
    pub(crate) fn branch(&mut self, label: u32) -> Result<(), Fault>
        ensures branches { ResultsIn (branch_in self.old label) result (open_state self.new) }
        ensures open { self.new.ended ≡ self.old.ended }
        ensures setting { setting_of self.new ≡ setting_of self.old }
    {
        let Some(list) = self.label(label) else {
            return Err(Fault::Refused);
        };
        self.leave_with(types_of(self.context, &list))
    }

    /// Pops operands of these types, the last one first, and pushes these, and another, if there is one.
    fn exchange(
        &mut self,
        types: &[RawValType],
        last: RawValType,
        left: Option<RawValType>,
    ) -> Result<(), Fault>
        ensures typed { ResultsIn (typed_in (setting_of self.old) (inner_of self.old)
            (types.now ++ last ∷ []) (types.now ++ option_to_list left) (operand_stack self.old))
            result (operand_stack self.new) }
        ensures same { self.new ≡ record self.old { operands = self.new.operands } }
    {
        match self.pop(last) {
            Ok(()) => {}
            Err(fault) => return Err(fault),
        }
        match self.apply(types, types) {
            Ok(()) => {}
            Err(fault) => return Err(fault),
        }
        match left {
            Some(ty) => self.push(operand_of(ty)),
            None => Ok(()),
        }
    }

    /// `br_if`
    pub(crate) fn branch_if(&mut self, label: u32) -> Result<(), Fault>
        requires { ReachesHeight self.old }
        ensures branches { ResultsIn (conditional_in self.old label if_rule) result (open_state self.new) }
        ensures open { self.new.ended ≡ self.old.ended }
        ensures setting { setting_of self.new ≡ setting_of self.old }
    {
        let Some(list) = self.label(label) else {
            return Err(Fault::Refused);
        };
        self.exchange(types_of(self.context, &list), ValType::I32, None)
    }

    /// `br_on_non_null`
    pub(crate) fn branch_on_non_null(&mut self, label: u32) -> Result<(), Fault>
        requires { ReachesHeight self.old }
        ensures branches { ResultsIn (conditional_in self.old label non_null_rule) result
            (open_state self.new) }
        ensures open { self.new.ended ≡ self.old.ended }
        ensures setting { setting_of self.new ≡ setting_of self.old }
    {
        let Some(list) = self.label(label) else {
            return Err(Fault::Refused);
        };
        let Some(found) = label_parts(types_of(self.context, &list)) else {
            return Err(Fault::Refused);
        };
        let nullable = RawRefType {
            nullable: true,
            heap_type: found.1.heap_type,
        };
        self.exchange(found.0, ValType::Ref(nullable), None)
    }

    /// Whether a type can be cast to another.
    fn is_cast(&self, from: RawRefType, to: RawRefType) -> bool
        ensures { is_cast (setting_of self.now).operands from to ≡ demand result }
    {
        self.context.is_valid_heap(from.heap_type)
            && self.context.is_valid_heap(to.heap_type)
            && self.context.matches_reference(to, from)
    }

    /// `br_on_cast` and `br_on_cast_fail`: a cast from one type to another, where a reference of the
    /// type `branches` goes to the label, and one of the type `stays` is left.
    fn branch_on_reference(
        &mut self,
        label: u32,
        from: RawRefType,
        to: RawRefType,
        branches: RawRefType,
        stays: RawRefType,
    ) -> Result<(), Fault>
        requires { ReachesHeight self.old }
        ensures branches { ResultsIn (conditional_in self.old label
            (reference_rule (setting_of self.old).operands from to branches stays)) result
            (open_state self.new) }
        ensures open { self.new.ended ≡ self.old.ended }
        ensures setting { setting_of self.new ≡ setting_of self.old }
    {
        let Some(list) = self.label(label) else {
            return Err(Fault::Refused);
        };
        if !self.is_cast(from, to) {
            return Err(Fault::Refused);
        }
        let Some(found) = label_parts(types_of(self.context, &list)) else {
            return Err(Fault::Refused);
        };
        if !self.context.matches_reference(branches, found.1) {
            return Err(Fault::Refused);
        }
        self.exchange(found.0, ValType::Ref(from), Some(ValType::Ref(stays)))
    }

    /// `br_on_cast`
    pub(crate) fn branch_on_cast(&mut self, cast: RawCast) -> Result<(), Fault>
        requires { ReachesHeight self.old }
        ensures branches { ResultsIn (cast_in self.old cast) result (open_state self.new) }
        ensures open { self.new.ended ≡ self.old.ended }
        ensures setting { setting_of self.new ≡ setting_of self.old }
    {
        let (from, to) = cast_types(cast);
        self.branch_on_reference(cast.label, from, to, to, difference(from, to))
    }

    /// `br_on_cast_fail`
    pub(crate) fn branch_on_cast_fail(&mut self, cast: RawCast) -> Result<(), Fault>
        requires { ReachesHeight self.old }
        ensures branches { ResultsIn (cast_fail_in self.old cast) result (open_state self.new) }
        ensures open { self.new.ended ≡ self.old.ended }
        ensures setting { setting_of self.new ≡ setting_of self.old }
    {
        let (from, to) = cast_types(cast);
        self.branch_on_reference(cast.label, from, to, difference(from, to), to)
    }

    /// The results of the function, whose frame is the outermost.
    fn results(&self) -> TypeList
        ensures { results (open_frames self.now) ≡ types_in self.now.context.now result }
    {
        match self.outer.first() {
            Some(frame) => frame.ends,
            None => self.inner.ends,
        }
    }

    /// `return`
    pub(crate) fn return_results(&mut self) -> Result<(), Fault>
        ensures leaves { ResultsIn (leaves_with self.old (results (open_frames self.old))) result
            (open_state self.new) }
        ensures open { self.new.ended ≡ self.old.ended }
        ensures setting { setting_of self.new ≡ setting_of self.old }
    {
        let list = self.results();
        self.leave_with(types_of(self.context, &list))
    }

    /// `throw`
    pub(crate) fn throw(&mut self, tag: u32) -> Result<(), Fault>
        ensures leaves { ResultsIn (throws_in self.old tag) result (open_state self.new) }
        ensures open { self.new.ended ≡ self.old.ended }
        ensures setting { setting_of self.new ≡ setting_of self.old }
    {
        match self.context.tag_type(tag) {
            Some(ty) => self.leave_with(self.context.params_at(ty)),
            None => Err(Fault::Refused),
        }
    }

    /// `throw_ref`
    pub(crate) fn throw_ref(&mut self) -> Result<(), Fault>
        ensures leaves { ResultsIn (leaves_with self.old (exnref ∷ [])) result (open_state self.new) }
        ensures open { self.new.ended ≡ self.old.ended }
        ensures setting { setting_of self.new ≡ setting_of self.old }
    {
        self.leave_with(&[EXNREF])
    }

    /// `rethrow`
    pub(crate) fn rethrow(&mut self, depth: u32) -> Result<(), Fault>
        ensures leaves { ResultsIn (rethrows_in self.old depth) result (open_state self.new) }
        ensures open { self.new.ended ≡ self.old.ended }
        ensures setting { setting_of self.new ≡ setting_of self.old }
    {
        let Some(frame) = self.frame(depth) else {
            return Err(Fault::Refused);
        };
        if !matches!(frame.opened, Opened::Catch | Opened::CatchAll) {
            return Err(Fault::Refused);
        }
        self.set_unreachable();
        Ok(())
    }

    /// A tail call, which takes operands of these types, and another, if there is one, and gives those.
    fn tail_call(
        &mut self,
        params: &[RawValType],
        last: Option<RawValType>,
        gives: &[RawValType],
    ) -> Result<(), Fault>
        ensures leaves { ResultsIn (tail_in self.old
            (Ok (params.now ++ option_to_list last ⟶ gives.now))) result (open_state self.new) }
        ensures open { self.new.ended ≡ self.old.ended }
        ensures setting { setting_of self.new ≡ setting_of self.old }
    {
        let list = self.results();
        if !self
            .context
            .matches_values(gives, types_of(self.context, &list))
        {
            return Err(Fault::Refused);
        }
        match last {
            Some(ty) => match self.pop(ty) {
                Ok(()) => self.leave_with(params),
                Err(fault) => Err(fault),
            },
            None => self.leave_with(params),
        }
    }

    /// `return_call`
    pub(crate) fn return_call(&mut self, func: u32) -> Result<(), Fault>
        ensures leaves { ResultsIn (tail_in self.old (call (setting_of self.old).operands func)) result
            (open_state self.new) }
        ensures open { self.new.ended ≡ self.old.ended }
        ensures setting { setting_of self.new ≡ setting_of self.old }
    {
        let Some(ty) = self.context.function_of(func) else {
            return Err(Fault::Refused);
        };
        match self.context.function_type(ty) {
            Some((params, gives)) => self.tail_call(params, None, gives),
            None => Err(Fault::Refused),
        }
    }

    /// `return_call_ref`
    pub(crate) fn return_call_ref(&mut self, ty: u32) -> Result<(), Fault>
        ensures leaves { ResultsIn (tail_in self.old (call_ref (setting_of self.old).operands ty)) result
            (open_state self.new) }
        ensures open { self.new.ended ≡ self.old.ended }
        ensures setting { setting_of self.new ≡ setting_of self.old }
    {
        let callee = ValType::Ref(RawRefType {
            nullable: true,
            heap_type: HeapType::Concrete(ty),
        });
        match self.context.function_type(ty) {
            Some((params, gives)) => self.tail_call(params, Some(callee), gives),
            None => Err(Fault::Refused),
        }
    }

    /// `return_call_indirect`
    pub(crate) fn return_call_indirect(&mut self, ty: u32, table: u32) -> Result<(), Fault>
        ensures leaves { ResultsIn (tail_in self.old
            (call_indirect (setting_of self.old).operands ty table)) result (open_state self.new) }
        ensures open { self.new.ended ≡ self.old.ended }
        ensures setting { setting_of self.new ≡ setting_of self.old }
    {
        let Some(table) = self.context.table(table) else {
            return Err(Fault::Refused);
        };
        if !self.context.matches_reference(table.element, FUNCREF) {
            return Err(Fault::Refused);
        }
        match self.context.function_type(ty) {
            Some((params, gives)) => self.tail_call(params, Some(table.address.value()), gives),
            None => Err(Fault::Refused),
        }
    }
}
