//! `br_table`.
ghost use Rattle.std.specs.Prelude.{◌≡◌};
ghost use Rattle.wasm_validator.specs.Steps.{ResultsIn};

use crate::fault::Fault;
use crate::state::Validator;
use crate::types::types_of;
use crate::validator::demand;
use wasm_operators::{BrTable, RawValType, Targets};
use wasm_types::ValType;

impl Validator<'_> {
    ghost use Rattle.wasm_validator.specs.Steps.{setting_of, open_state, ReachesHeight};
    ghost use Rattle.wasm_validator.specs.Core.{holds_in, target_step, targets_in, table_in};

    /// Whether operands of these types are on the stack, so that "pop_vals" would pop them.
    fn holds(&self, types: &[RawValType]) -> Result<(), Fault>
        requires { ReachesHeight self.now }
        ensures { ResultsIn (holds_in self.now types.now) result tt }
    {
        let mut left = types.len();
        let mut height = self.operands.len();
        while left > 0 {
            if height == self.inner.height {
                return demand(self.inner.unreachable);
            }
            left -= 1;
            height -= 1;
            let operand = self.operands[height];
            let expected = types[left];
            match self.fits(operand, expected) {
                Ok(()) => {}
                Err(fault) => return Err(fault),
            }
        }
        Ok(())
    }

    /// Whether the label has so many types, and operands of these types are on the stack.
    fn may_go(&self, label: u32, arity: usize) -> Result<(), Fault>
        requires { ReachesHeight self.now }
        ensures { ResultsIn (target_step self.now arity label) result tt }
    {
        let Some(list) = self.label(label) else {
            return Err(Fault::Refused);
        };
        let types = types_of(self.context, &list);
        if types.len() != arity {
            return Err(Fault::Refused);
        }
        self.holds(types)
    }

    /// Whether that holds of each of these labels.
    fn may_go_to_each(&self, targets: Targets<'_>, arity: usize) -> Result<(), Fault>
        requires { ReachesHeight self.now }
        ensures { ResultsIn (targets_in self.now arity targets.entry) result tt }
    {
        let mut left = targets;
        while let Some(label) = left.next() {
            match self.may_go(label, arity) {
                Ok(()) => {}
                Err(fault) => return Err(fault),
            }
        }
        Ok(())
    }

    /// `br_table`
    pub(crate) fn branch_table(&mut self, table: &BrTable<'_>) -> Result<(), Fault>
        requires { ReachesHeight self.old }
        ensures branches { ResultsIn (table_in self.old table.now) result (open_state self.new) }
        ensures open { self.new.ended ≡ self.old.ended }
        ensures setting { setting_of self.new ≡ setting_of self.old }
    {
        match self.pop(ValType::I32) {
            Ok(()) => {}
            Err(fault) => return Err(fault),
        }
        let Some(list) = self.label(table.default()) else {
            return Err(Fault::Refused);
        };
        let types = types_of(self.context, &list);
        match self.may_go_to_each(table.targets(), types.len()) {
            Ok(()) => self.leave_with(types),
            Err(fault) => Err(fault),
        }
    }
}
