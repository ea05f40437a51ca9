//! Operators for globals.
ghost use Rattle.std.specs.Prelude.{◌≡◌};
ghost use Rattle.wasm_typing.specs.Rules.{global_get, global_set};
ghost use Rattle.wasm_validator.specs.Steps.{ResultsIn};

use crate::fault::Fault;
use crate::state::Validator;

impl Validator<'_> {
    ghost use Rattle.wasm_validator.specs.Steps.{setting_of, open_state};
    ghost use Rattle.wasm_validator.specs.Plain.{plain_in};

    /// `global.get`
    pub(crate) fn global_get(&mut self, global: u32) -> Result<(), Fault>
        ensures plain { ResultsIn (plain_in self.old (global_get (setting_of self.old).operands global)) result (open_state self.new) }
        ensures open { self.new.ended ≡ self.old.ended }
        ensures setting { setting_of self.new ≡ setting_of self.old }
    {
        match self.context.global(global) {
            Some(global) => self.typed(&[], &[global.ty]),
            None => Err(Fault::Refused),
        }
    }

    /// `global.set`
    pub(crate) fn global_set(&mut self, global: u32) -> Result<(), Fault>
        ensures plain { ResultsIn (plain_in self.old (global_set (setting_of self.old).operands global)) result (open_state self.new) }
        ensures open { self.new.ended ≡ self.old.ended }
        ensures setting { setting_of self.new ≡ setting_of self.old }
    {
        let Some(global) = self.context.global(global) else {
            return Err(Fault::Refused);
        };
        if !global.mutable {
            return Err(Fault::Refused);
        }
        self.typed(&[global.ty], &[])
    }
}
