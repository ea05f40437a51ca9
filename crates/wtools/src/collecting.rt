//! `wgc`: leaves out what nothing reaches.

use module_tools::Program;

/// How it is called, and what it takes.
pub const PROGRAM: Program = Program {
    name: "wgc",
    about: "usage: wgc [OPTION].. IN.wasm [OUT.wasm]
       wgc [OPTION].. --list IN.wasm

Leaves out what nothing reaches of a WebAssembly module: functions, imports,
globals, tables, memories, tags, types and segments. Reached is what is
exported, what the start function and segments need, and what these name in
turn. What is left has new indices, and each body is rewritten as `wrewrite`
does. Names but those of labels, branch hints and debug information follow. A
path of `-` is standard input or output, and without OUT.wasm the module goes
to standard output. OUT.wasm may be IN.wasm.",
    ending: "Status: 0 written or listed; 1 refused, or a file can't be read or written; 2
wrong use.

example: wgc --keep my_function in.wasm out.wasm",
    takes_check: false,
    takes_functions: false,
    collects: true,
    takes_export: false,
    takes_costs: false,
};
