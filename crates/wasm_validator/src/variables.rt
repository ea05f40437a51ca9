//! Operators for locals.
ghost use Rattle.std.specs.Prelude.{◌≡◌, ◌∷◌, [], ◌++◌, slice_get, Some, OnOk, IfErr};
ghost use Rattle.wasm_body.specs.Validity.{set_locals};
ghost use Rattle.wasm_typing.specs.Contexts.{contains};
ghost use Rattle.wasm_typing.specs.Rules.{local_set, local_tee};
ghost use Rattle.wasm_locals.specs.LocalTypes.{types_of_locals};
ghost use Rattle.wasm_validator.specs.declared.fault.Fault.TheVariants.{Memory as MemoryFault};
ghost use Rattle.wasm_validator.specs.Steps.{ResultsIn};

use crate::fault::Fault;
use crate::state::Validator;
use wasm_operators::RawValType;

impl Validator<'_> {
    ghost use Rattle.wasm_validator.specs.Steps.{setting_of, stacks_of, arguments_of, open_state};
    ghost use Rattle.wasm_validator.specs.Plain.{plain_in, local_get_in};

    /// Whether the local with this number and type is initialised.
    #[inline(always)]
    fn is_initialised(&self, local: u32, ty: RawValType) -> bool
        requires { slice_get (types_of_locals self.now.locals) local ≡ Some ty }
        ensures { contains local (stacks_of self.now).initialised ≡ result }
    {
        self.locals.starts_set(local, ty) || self.set.contains(local)
    }

    /// "set_local(x)", of the local with this number and type.
    fn initialise(&mut self, local: u32, ty: RawValType) -> Result<(), Fault>
        requires { slice_get (types_of_locals self.old.locals) local ≡ Some ty }
        ensures ok { OnOk result (self.new.set ++ arguments_of self.old
            ≡ set_locals (local ∷ []) (self.old.set ++ arguments_of self.old)) }
        ensures err { IfErr result (λ e. e ≡ MemoryFault) }
        ensures same { self.new ≡ record self.old { set = self.new.set } }
    {
        if self.locals.starts_set(local, ty) {
            return Ok(());
        }
        match self.set.insert(local) {
            Ok(()) => Ok(()),
            Err(_) => Err(Fault::Memory),
        }
    }

    /// `local.get`
    pub(crate) fn local_get(&mut self, local: u32) -> Result<(), Fault>
        ensures plain { ResultsIn (local_get_in self.old local) result (open_state self.new) }
        ensures open { self.new.ended ≡ self.old.ended }
        ensures setting { setting_of self.new ≡ setting_of self.old }
    {
        let Some(ty) = self.locals.get(local) else {
            return Err(Fault::Refused);
        };
        if !self.is_initialised(local, ty) {
            return Err(Fault::Refused);
        }
        self.typed(&[], &[ty])
    }

    /// `local.set`
    pub(crate) fn local_set(&mut self, local: u32) -> Result<(), Fault>
        ensures plain { ResultsIn (plain_in self.old (local_set (setting_of self.old).operands local)) result
            (open_state self.new) }
        ensures open { self.new.ended ≡ self.old.ended }
        ensures setting { setting_of self.new ≡ setting_of self.old }
    {
        let Some(ty) = self.locals.get(local) else {
            return Err(Fault::Refused);
        };
        match self.pop(ty) {
            Ok(()) => self.initialise(local, ty),
            Err(fault) => Err(fault),
        }
    }

    /// `local.tee`
    pub(crate) fn local_tee(&mut self, local: u32) -> Result<(), Fault>
        ensures plain { ResultsIn (plain_in self.old (local_tee (setting_of self.old).operands local)) result
            (open_state self.new) }
        ensures open { self.new.ended ≡ self.old.ended }
        ensures setting { setting_of self.new ≡ setting_of self.old }
    {
        let Some(ty) = self.locals.get(local) else {
            return Err(Fault::Refused);
        };
        match self.apply(&[ty], &[ty]) {
            Ok(()) => self.initialise(local, ty),
            Err(fault) => Err(fault),
        }
    }
}
