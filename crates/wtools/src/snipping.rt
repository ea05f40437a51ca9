//! `wsnip`: takes away the bodies of functions of a module.

use module_tools::{Program, Snipping, Tool};
use std::alloc::Global;
use walrus_ir::{FunctionId, IdHashSet};
use wasm_module::{Changes, ModuleError, ParsedModule};

/// How it is called, and what it takes.
pub const PROGRAM: Program = Program {
    name: "wsnip",
    about: "usage: wsnip [OPTION].. IN.wasm OUT.wasm FUNCTION..
       wsnip [OPTION].. -o OUT.wasm IN.wasm FUNCTION..
       wsnip --list IN.wasm

Leaves nothing but `unreachable` of functions of a WebAssembly module, and
rewrites all others as `wrewrite` does. FUNCTION is an index, which counts
imported functions too, or a name: of the `name` section, or else of an export.
Options can choose functions too. A path of `-` is standard input or output,
and without OUT.wasm the module goes to standard output. OUT.wasm may be
IN.wasm.",
    ending: "Status: 0 written or listed; 1 refused, or a file can't be read or written; 2
wrong use.

example: wsnip in.wasm out.wasm 12 unused_function",
    takes_check: false,
    takes_functions: true,
    collects: false,
    takes_export: false,
    takes_costs: false,
};

/// Takes away the bodies of functions.
#[derive(Clone, Copy)]
pub struct Snip;

impl Tool for Snip {
    type Change = Snipping;

    fn changes(
        &self,
        alloc: Global,
        _parsed: &mut ParsedModule<'_>,
        functions: IdHashSet<FunctionId>,
    ) -> Result<(Option<Snipping>, Changes), ModuleError> {
        Ok((Some(Snipping::new(functions)), Changes::new(alloc)))
    }
}
