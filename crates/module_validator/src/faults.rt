//! Rules that hold or give a fault.
ghost use Rattle.std.specs.Prelude.{◌≡◌};
ghost use Rattle.wasm_numbers.specs.Results.{with_fault};
ghost use Rattle.wasm_sections.specs.Parts.{fault_here};
ghost use Rattle.module_validator.specs.ConstantRules.{only_if};

use wasm_sections::{Input, ModuleError, ModuleFault};

/// Success if the rule holds, and else this fault.
pub(crate) fn only_if(holds: bool, fault: ModuleFault) -> Result<(), ModuleFault>
    ensures { result ≡ only_if holds fault }
{
    if holds { Ok(()) } else { Err(fault) }
}

/// The same result, with the fault at the first byte of this input.
pub(crate) fn placed(begin: &Input<'_>, checked: Result<(), ModuleFault>) -> Result<(), ModuleError>
    ensures { result ≡ with_fault (fault_here begin.now.end begin.now.rest.now) checked }
{
    match checked {
        Ok(()) => Ok(()),
        Err(fault) => Err(begin.fault(fault)),
    }
}
