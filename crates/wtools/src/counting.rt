//! `wcount`: lets the functions of a module count their calls.

use module_tools::{CALLS, CountCalls, Program, Tool, call_counter_named};
use std::alloc::Global;
use walrus_ir::{FunctionId, IdHashSet};
use wasm_module::{Changes, ModuleError, ParsedModule};

/// How it is called, and what it takes.
pub const PROGRAM: Program = Program {
    name: "wcount",
    about: "usage: wcount [OPTION].. IN.wasm [OUT.wasm]

Lets each function of a WebAssembly module count its calls, all in one global
of type i64, which is exported as `calls`; and rewrites the functions as
`wrewrite` does. A path of `-` is standard input or output, and without
OUT.wasm the module goes to standard output. OUT.wasm may be IN.wasm.",
    ending: "Status: 0 written; 1 refused, or a file can't be read or written; 2 wrong use.

example: wcount in.wasm counted.wasm",
    takes_check: false,
    takes_functions: false,
    collects: false,
    takes_export: true,
    takes_costs: false,
};

/// Lets each function count its calls.
#[derive(Clone, Copy)]
pub struct Count;

impl Tool for Count {
    type Change = CountCalls;

    fn changes(
        &self,
        alloc: Global,
        parsed: &mut ParsedModule<'_>,
        functions: IdHashSet<FunctionId>,
    ) -> Result<(Option<CountCalls>, Changes), ModuleError> {
        self.changes_with_export(alloc, parsed, functions, CALLS)
    }

    fn changes_with_export(
        &self,
        alloc: Global,
        parsed: &mut ParsedModule<'_>,
        _functions: IdHashSet<FunctionId>,
        export: &str,
    ) -> Result<(Option<CountCalls>, Changes), ModuleError> {
        match call_counter_named(alloc, parsed, export) {
            Ok((counter, changes)) => Ok((Some(counter), changes)),
            Err(error) => Err(error),
        }
    }
}
