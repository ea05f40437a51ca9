//! `br_on_null`.
ghost use Rattle.std.specs.Prelude.{◌≡◌};
ghost use Rattle.wasm_validator.specs.Steps.{ResultsIn};

use crate::fault::Fault;
use crate::popped_references::{not_null, operand_of_reference};
use crate::state::Validator;
use crate::types::types_of;

impl Validator<'_> {
    ghost use Rattle.wasm_validator.specs.Steps.{setting_of, open_state, ReachesHeight};
    ghost use Rattle.wasm_validator.specs.NullBranches.{null_branch_in};

    /// `br_on_null`
    pub(crate) fn branch_on_null(&mut self, label: u32) -> Result<(), Fault>
        requires { ReachesHeight self.old }
        ensures branches { ResultsIn (null_branch_in self.old label) result (open_state self.new) }
        ensures open { self.new.ended ≡ self.old.ended }
        ensures setting { setting_of self.new ≡ setting_of self.old }
    {
        let Some(list) = self.label(label) else {
            return Err(Fault::Refused);
        };
        let found = match self.pop_reference() {
            Ok(found) => found,
            Err(fault) => return Err(fault),
        };
        let types = types_of(self.context, &list);
        match self.apply(types, types) {
            Ok(()) => self.push(operand_of_reference(not_null(found))),
            Err(fault) => Err(fault),
        }
    }
}
