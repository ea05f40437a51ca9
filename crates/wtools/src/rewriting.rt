//! `wrewrite`: rewrites the bodies of a module's functions.

use module_tools::{NoChange, Program, Tool};
use std::alloc::Global;
use walrus_ir::{FunctionId, IdHashSet};
use wasm_module::{Changes, ModuleError, ParsedModule};

/// How it is called, and what it takes.
pub const PROGRAM: Program = Program {
    name: "wrewrite",
    about: "usage: wrewrite [OPTION].. IN.wasm [OUT.wasm]
       wrewrite [OPTION].. --check IN.wasm

Rewrites each function of a WebAssembly module: in the shortest encodings,
without `nop`, without what can't be reached after a branch, and without unused
locals. Names of locals and of labels, and branch hints, follow the code. A
path of `-` is standard input or output, and without OUT.wasm the module goes
to standard output. OUT.wasm may be IN.wasm.",
    ending: "Status: 0 written, or nothing is refused; 1 refused, or a file can't be read or
written; 2 wrong use.

example: wrewrite --map out.map in.wasm out.wasm",
    takes_check: true,
    takes_functions: false,
    collects: false,
    takes_export: false,
    takes_costs: false,
};

/// Rewrites each body as it is.
#[derive(Clone, Copy)]
pub struct RewriteAll;

impl Tool for RewriteAll {
    type Change = NoChange;

    fn changes(
        &self,
        alloc: Global,
        _parsed: &mut ParsedModule<'_>,
        _functions: IdHashSet<FunctionId>,
    ) -> Result<(Option<NoChange>, Changes), ModuleError> {
        Ok((None, Changes::new(alloc)))
    }
}
