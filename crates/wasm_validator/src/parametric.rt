//! Operators on operands whose types they don't name.
ghost use Rattle.std.specs.Prelude.{◌≡◌, ◌∷◌, [], option_map, if◌then◌else◌, Some, None, true};
ghost use Rattle.wasm_operators.specs.Operations.{value};
ghost use Rattle.wasm_body.specs.Validity.{required};
ghost use Rattle.wasm_typing.specs.Operands.{may_be_number, one_of};
ghost use Rattle.wasm_typing.specs.Rules.{selected_of};
ghost use Rattle.wasm_validator.specs.States.{known_of};
ghost use Rattle.wasm_validator.specs.Steps.{ResultsIn};

use crate::fault::Fault;
use crate::operand::Operand;
use crate::state::Validator;
use wasm_operators::RawValType;
use wasm_types::ValType;

/// Whether an operand may be of a number type or a vector type.
fn may_be_number(operand: Operand) -> bool
    ensures { may_be_number (known_of operand) ≡ result }
{
    !matches!(operand, Operand::Ref(_) | Operand::Reference(_))
}

/// The one of two operands that is known, if both are of one type that isn't a reference type.
fn one_of(first: Operand, second: Operand) -> Option<Operand>
    requires first { may_be_number (known_of first) ≡ true }
    requires second { may_be_number (known_of second) ≡ true }
    ensures { one_of (known_of first) (known_of second) ≡ required (option_map known_of result) }
{
    match first {
        Operand::Unknown => Some(second),
        Operand::I32 => alike(matches!(second, Operand::I32 | Operand::Unknown), first),
        Operand::I64 => alike(matches!(second, Operand::I64 | Operand::Unknown), first),
        Operand::F32 => alike(matches!(second, Operand::F32 | Operand::Unknown), first),
        Operand::F64 => alike(matches!(second, Operand::F64 | Operand::Unknown), first),
        Operand::V128 => alike(matches!(second, Operand::V128 | Operand::Unknown), first),
        _ => None,
    }
}

/// The operand, if it is allowed.
fn alike(allowed: bool, operand: Operand) -> Option<Operand>
    ensures { result ≡ (if allowed then Some operand else None) }
{
    if allowed { Some(operand) } else { None }
}

impl Validator<'_> {
    ghost use Rattle.wasm_validator.specs.Steps.{setting_of, operand_stack, inner_of, open_state, ReachesHeight};
    ghost use Rattle.wasm_validator.specs.Plain.{plain_in};
    ghost use Rattle.wasm_validator.specs.Popped.{PopsOperand, any_in, drops_in, selects_in};

    /// "pop_val()"
    pub(crate) fn pop_any(&mut self) -> Result<Operand, Fault>
        ensures pops { PopsOperand (any_in (inner_of self.old) (operand_stack self.old)) result
            (operand_stack self.new) }
        ensures same { self.new ≡ record self.old { operands = self.new.operands } }
        ensures reach { ReachesHeight self.old → ReachesHeight self.new }
    {
        if self.operands.len() == self.inner.height {
            return if self.inner.unreachable {
                Ok(Operand::Unknown)
            } else {
                Err(Fault::Refused)
            };
        }
        match self.operands.pop() {
            Some(operand) => Ok(operand),
            None => Err(Fault::Refused),
        }
    }

    /// `drop`
    pub(crate) fn drop_operand(&mut self) -> Result<(), Fault>
        ensures plain { ResultsIn (drops_in self.old) result (open_state self.new) }
        ensures open { self.new.ended ≡ self.old.ended }
        ensures setting { setting_of self.new ≡ setting_of self.old }
    {
        match self.pop_any() {
            Ok(_) => Ok(()),
            Err(fault) => Err(fault),
        }
    }

    /// `select` of a type
    pub(crate) fn select_typed(&mut self, ty: RawValType) -> Result<(), Fault>
        ensures plain { ResultsIn (plain_in self.old
            (selected_of (setting_of self.old).operands (value ty ∷ []))) result (open_state self.new) }
        ensures open { self.new.ended ≡ self.old.ended }
        ensures setting { setting_of self.new ≡ setting_of self.old }
    {
        if !self.context.is_valid_value(ty) {
            return Err(Fault::Refused);
        }
        self.typed(&[ty, ty, ValType::I32], &[ty])
    }

    /// `select`
    pub(crate) fn select(&mut self) -> Result<(), Fault>
        ensures plain { ResultsIn (selects_in self.old) result (open_state self.new) }
        ensures open { self.new.ended ≡ self.old.ended }
        ensures setting { setting_of self.new ≡ setting_of self.old }
    {
        match self.pop(ValType::I32) {
            Ok(()) => {}
            Err(fault) => return Err(fault),
        }
        let first = match self.pop_any() {
            Ok(operand) => operand,
            Err(fault) => return Err(fault),
        };
        let second = match self.pop_any() {
            Ok(operand) => operand,
            Err(fault) => return Err(fault),
        };
        if !may_be_number(first) || !may_be_number(second) {
            return Err(Fault::Refused);
        }
        match one_of(first, second) {
            Some(operand) => self.push(operand),
            None => Err(Fault::Refused),
        }
    }
}
