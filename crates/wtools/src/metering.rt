//! `wmeter`: lets the functions of a module charge what they execute.

use module_tools::{ChargeBy, ChargeCode, Program, Tool, charger};
use std::alloc::Global;
use walrus_ir::{FunctionId, IdHashSet};
use walrus_metering::Costs;
use wasm_module::{Changes, ModuleError, ParsedModule};

/// How it is called, and what it takes.
pub const PROGRAM: Program = Program {
    name: "wmeter",
    about: "usage: wmeter [OPTION].. IN.wasm [OUT.wasm]

Lets the functions of a WebAssembly module charge what they execute: before
each straight piece of code comes a charge of what its operators cost, and
then all of them are executed, unless one traps or throws. The functions are
rewritten as `wrewrite` does, and nothing is charged for `nop`, `else`, `end`,
`catch`, `catch_all` and `delegate`. A path of `-` is standard input or output,
and without OUT.wasm the module goes to standard output. OUT.wasm may be
IN.wasm.",
    ending: "Status: 0 written; 1 refused, or a file can't be read or written; 2 wrong use.

example: wmeter --costs costs.json --global used in.wasm metered.wasm",
    takes_check: false,
    takes_functions: false,
    collects: false,
    takes_export: false,
    takes_costs: true,
};

/// Lets each function charge what it executes.
#[derive(Clone, Copy)]
pub struct Meter;

/// What lets each function of a module charge what it executes.
fn changes_by(
    alloc: Global,
    parsed: &mut ParsedModule<'_>,
    costs: Costs,
    by: ChargeBy<'_>,
) -> Result<(Option<ChargeCode>, Changes), ModuleError> {
    match charger(alloc, parsed, costs, by) {
        Ok((code, changes)) => Ok((Some(code), changes)),
        Err(error) => Err(error),
    }
}

impl Tool for Meter {
    type Change = ChargeCode;

    fn changes(
        &self,
        alloc: Global,
        parsed: &mut ParsedModule<'_>,
        _functions: IdHashSet<FunctionId>,
    ) -> Result<(Option<ChargeCode>, Changes), ModuleError> {
        let costs = Costs::new(alloc)?;
        changes_by(alloc, parsed, costs, ChargeBy::Import("wmeter", "charge"))
    }

    fn changes_with_costs(
        &self,
        alloc: Global,
        parsed: &mut ParsedModule<'_>,
        _functions: IdHashSet<FunctionId>,
        costs: Costs,
        by: ChargeBy<'_>,
    ) -> Result<(Option<ChargeCode>, Changes), ModuleError> {
        changes_by(alloc, parsed, costs, by)
    }
}
