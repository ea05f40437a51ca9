//! Functions that charge what they execute.

use crate::counting::add_counter;
use crate::edits::charge_code;
use std::alloc::Global;
use tool_words::ChargeBy;
use walrus_body::LocalFunction;
use walrus_ir::{ModuleLocals, ValType};
use walrus_metering::{Charge, Costs};
use wasm_module::{ChangeFunction, Changes, ModuleError, ParsedModule};

/// Lets each function charge what it executes, each in the same way.
#[derive(Drop)]
pub struct ChargeCode {
    costs: Costs,
    charge: Charge,
}

impl ChangeFunction for ChargeCode {
    ghost use Rattle.module_tools.specs.declared.charging.ChargeCode.{ChargeCode};
    ghost use Rattle.inserted_code.specs.InsertedCode.{Charges};
    ghost use Rattle.wasm_module.specs.RewrittenCode.{alike};

    ghost State = { ChargeCode };

    ghost state = { λ self. self };

    // What is written is that of `law_charged_code`.
    ghost changes = { alike (λ code function. Charges code.costs code.charge) };

    fn change(
        &mut self,
        _index: usize,
        function: &mut LocalFunction,
        _locals: &mut ModuleLocals,
    ) -> Result<(), ModuleError> {
        charge_code(function, &self.costs, &self.charge)?;
        Ok(())
    }
}

/// Imports the function that is called with each charge, of a type that is added if the module
/// doesn't have it.
fn import_charge(
    parsed: &mut ParsedModule<'_>,
    changes: &mut Changes,
    from: &str,
    name: &str,
) -> Result<Charge, ModuleError> {
    let ty = match parsed.function_type(changes, &[ValType::I64], &[]) {
        Ok(ty) => ty,
        Err(error) => return Err(error),
    };
    match parsed.import_function(changes, from, name, ty) {
        Ok(func) => Ok(Charge::Call(func)),
        Err(error) => Err(error),
    }
}

/// Adds what code is charged by.
fn add_charge(
    parsed: &mut ParsedModule<'_>,
    changes: &mut Changes,
    by: ChargeBy<'_>,
) -> Result<Charge, ModuleError> {
    match by {
        ChargeBy::Import(from, name) => import_charge(parsed, changes, from, name),
        ChargeBy::Global(name) => match add_counter(parsed, changes, name) {
            Ok(global) => Ok(Charge::Add(global)),
            Err(error) => Err(error),
        },
    }
}

/// What lets each function of a module charge what it executes, at these costs, and the sections that
/// change: a function is imported, or a global is added and exported.
///
/// # Errors
///
/// `ExportTaken` where the module exports something else under the name of the global; what
/// `import_function` refuses; or `Memory`.
pub fn charger(
    alloc: Global,
    parsed: &mut ParsedModule<'_>,
    costs: Costs,
    by: ChargeBy<'_>,
) -> Result<(ChargeCode, Changes), ModuleError> {
    let mut changes = Changes::new(alloc);
    match add_charge(parsed, &mut changes, by) {
        Ok(charge) => Ok((ChargeCode { costs, charge }, changes)),
        Err(error) => Err(error),
    }
}
