//! Modules without what nothing reaches.

use module_removal::{Item, LeftCode, References, Remainder, references_of, remove};
use std::alloc::Global;
use walrus_ir::{FunctionId, IdHashSet, Instr, InstrLocId};
use wasm_module::{Body, ModuleError, ParsedModule, Scratch};
use wasm_ops::Space;

/// What is left of a module without what nothing reaches: neither an export, the start function, a segment that is seen
/// outside of the module or may fail, nor one of these functions.
///
/// # Errors
///
/// The first fault of a body, or `Memory`.
pub fn reached(
    alloc: Global,
    parsed: &ParsedModule<'_>,
    functions: &IdHashSet<FunctionId>,
) -> Result<Remainder, ModuleError> {
    let mut roots = Vec::new(alloc);
    for function in functions {
        if let Ok(index) = u32::try_from(function.index()) {
            roots.push(Item {
                space: Space::Funcs,
                index,
            })?;
        }
    }
    let references: References = match references_of(alloc, parsed.bytes()) {
        Ok(references) => references,
        Err(error) => return Err(error),
    };
    references.reached(alloc, &roots)
}

/// Rewrites the body of a function with names of locals by its tree, and sets their new indices.
fn rewrite_named<'a>(
    parsed: &mut ParsedModule<'a>,
    body: Body<'a>,
    code: &mut LeftCode,
    instrs: &mut Vec<(Instr, InstrLocId)>,
    scratch: &mut Scratch,
) -> Result<(), ModuleError> {
    let function = match parsed.rewrite_with_pairs(body, instrs, scratch) {
        Ok(function) => function,
        Err(error) => return Err(error),
    };
    match parsed.local_numbers(&function, body.start()) {
        Ok(numbers) => {
            code.set_locals(&body, &numbers);
            Ok(())
        }
        Err(error) => Err(error),
    }
}

/// Adds the body of a function that is left, as the module writes it.
fn add_body<'a>(
    parsed: &mut ParsedModule<'a>,
    body: Body<'a>,
    code: &mut LeftCode,
    instrs: &mut Vec<(Instr, InstrLocId)>,
    scratch: &mut Scratch,
) -> Result<(), ModuleError> {
    let rewritten = match (code.needs_locals(&body), code.needs_pairs(&body)) {
        (true, _) => rewrite_named(parsed, body, code, instrs, scratch),
        (false, true) => parsed.rewrite_flat_with_pairs(body, scratch),
        (false, false) => parsed.rewrite_flat(body, scratch),
    };
    match rewritten {
        Ok(()) => code.add(&body, &scratch.raw, &scratch.pairs),
        Err(error) => Err(error),
    }
}

/// The bodies of the functions that are left, as the module writes them under the numbers of what is left.
fn code_of(
    alloc: Global,
    parsed: &mut ParsedModule<'_>,
    remainder: &Remainder,
) -> Result<LeftCode, ModuleError> {
    let mut code = match LeftCode::new(alloc, parsed.bytes()) {
        Ok(code) => code,
        Err(error) => return Err(error),
    };
    let mut instrs = Vec::new(alloc);
    let mut scratch = Scratch::new(alloc);
    for body in parsed.bodies() {
        if remainder.left.has_function(body.func) {
            match add_body(parsed, body, &mut code, &mut instrs, &mut scratch) {
                Ok(()) => {}
                Err(error) => return Err(error),
            }
        }
    }
    Ok(code)
}

/// The module of which this is left. Its bodies are rewritten, under new indices.
///
/// # Errors
///
/// The first fault of a body, `ObjectFile`, `Unnumbered` for an item that is named and isn't left, or `Memory`.
pub fn module_of_left(
    alloc: Global,
    parsed: &mut ParsedModule<'_>,
    remainder: &Remainder,
) -> Result<Vec<u8>, ModuleError> {
    let numbers = match remainder.left.numbers(alloc) {
        Ok(numbers) => numbers,
        Err(error) => return Err(ModuleError::from(error)),
    };
    let _before = parsed.replace_numbers(numbers);
    match code_of(alloc, parsed, remainder) {
        Ok(code) => remove(alloc, parsed.bytes(), remainder, &code),
        Err(error) => Err(error),
    }
}
