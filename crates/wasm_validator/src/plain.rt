//! Plain operators of a type: those for numbers and vectors.
ghost use Rattle.std.specs.Prelude.{◌≡◌, ◌∷◌, [], ◌<◌, nat_lt, Ok};
ghost use Rattle.std.specs.List.{list_all};
ghost use Rattle.wasm_operators.specs.UnaryOperations.{unary_operation};
ghost use Rattle.wasm_operators.specs.BinaryOperations.{binary_operation};
ghost use Rattle.wasm_operators.specs.TernaryOperations.{ternary_operation};
ghost use Rattle.wasm_operators.specs.Operations.{lanes};
ghost use Rattle.wasm_typing.specs.Operands.{◌⟶◌};
ghost use Rattle.wasm_typing.specs.Rules.{at_lanes};
ghost use Rattle.wasm_typing.specs.RuleLaws.{type_of_operator};
ghost use Rattle.wasm_types.specs.declared.val_type.ValType.TheVariants as value;
ghost use Rattle.wasm_validator.specs.Steps.{ResultsIn};

use crate::fault::Fault;
use crate::state::Validator;
use wasm_operator_types::{binary_types, ternary_type, unary_types};
use wasm_operators::RawValType;
use wasm_types::{BinaryOp, TernaryOp, UnaryOp, ValType};

/// Whether each is a lane of one of two vectors of sixteen.
fn are_lanes(indices: &[u8]) -> bool
    ensures { list_all (λ n. nat_lt n 32) indices.now ≡ result }
{
    indices.iter().all(|lane| *lane < 32)
}

impl Validator<'_> {
    ghost use Rattle.wasm_validator.specs.Steps.{setting_of, open_state};
    ghost use Rattle.wasm_validator.specs.Plain.{plain_in};

    /// Pops operands of these types, and pushes some of those.
    #[inline(always)]
    #[tactic(auto, using(crate::proofs::PlainOperators::typed_done))]
    pub(crate) fn typed(&mut self, takes: &[RawValType], gives: &[RawValType]) -> Result<(), Fault>
        ensures plain { ResultsIn (plain_in self.old (Ok (takes.now ⟶ gives.now))) result (open_state self.new) }
        ensures open { self.new.ended ≡ self.old.ended }
        ensures setting { setting_of self.new ≡ setting_of self.old }
    {
        self.apply(takes, gives)
    }

    /// An operator of one operand.
    pub(crate) fn unary(&mut self, op: UnaryOp) -> Result<(), Fault>
        ensures plain { ResultsIn (plain_in self.old
            (type_of_operator (setting_of self.old).operands (unary_operation op))) result (open_state self.new) }
        ensures open { self.new.ended ≡ self.old.ended }
        ensures setting { setting_of self.new ≡ setting_of self.old }
    {
        match unary_types(op) {
            Some((takes, gives)) => self.typed(&[takes], &[gives]),
            None => Err(Fault::Refused),
        }
    }

    /// An operator of two operands.
    pub(crate) fn binary(&mut self, op: BinaryOp) -> Result<(), Fault>
        ensures plain { ResultsIn (plain_in self.old
            (type_of_operator (setting_of self.old).operands (binary_operation op))) result (open_state self.new) }
        ensures open { self.new.ended ≡ self.old.ended }
        ensures setting { setting_of self.new ≡ setting_of self.old }
    {
        match binary_types(op) {
            Some((first, second, gives)) => self.typed(&[first, second], &[gives]),
            None => Err(Fault::Refused),
        }
    }

    /// An operator of three operands.
    pub(crate) fn ternary(&mut self, op: TernaryOp) -> Result<(), Fault>
        ensures plain { ResultsIn (plain_in self.old
            (type_of_operator (setting_of self.old).operands (ternary_operation op))) result (open_state self.new) }
        ensures open { self.new.ended ≡ self.old.ended }
        ensures setting { setting_of self.new ≡ setting_of self.old }
    {
        let ty = ternary_type(op);
        self.typed(&[ty, ty, ty], &[ty])
    }

    /// `i8x16.shuffle`
    pub(crate) fn shuffle(&mut self, indices: &[u8; 16]) -> Result<(), Fault>
        ensures plain { ResultsIn (plain_in self.old
            (at_lanes (value.V128 ∷ value.V128 ∷ []) (value.V128 ∷ []) (setting_of self.old).operands
            (lanes indices.now ∷ []))) result (open_state self.new) }
        ensures open { self.new.ended ≡ self.old.ended }
        ensures setting { setting_of self.new ≡ setting_of self.old }
    {
        if !are_lanes(indices) {
            return Err(Fault::Refused);
        }
        self.typed(&[ValType::V128, ValType::V128], &[ValType::V128])
    }
}
