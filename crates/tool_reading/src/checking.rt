//! Checking the bodies of a module, and saying which are refused.

ghost use Rattle.std.specs.Prelude.{◌≡◌, ℕ, List, IfNone, IfOk};
ghost use Rattle.wasm_sections.specs.CodeSections.{body_at};
ghost use Rattle.wasm_module.specs.AcceptedModules.{AcceptsBodies};
ghost use Rattle.wasm_module.specs.ReadFrom.{IsModuleOf};
ghost use Rattle.wasm_module.specs.RewrittenCode.{Extends, IsAccepted};

use crate::names::{Bytes, FunctionNames, function_at};
use crate::progress::Progress;
use std::alloc::{AllocError, Global};
use std::rt::Clock;
use tool_words::{Attempt, FileFault, Item, ProgramFailure};
use wasm_module::{Body, ModuleError, ModuleFault, ParsedModule, Scratch};

/// A function with its name.
fn function_item(
    alloc: Global,
    names: &FunctionNames<'_>,
    index: usize,
) -> Result<Item, AllocError> {
    let name = match names.name_of(index) {
        Some(name) => Some(String::from_str(alloc, name)?),
        None => None,
    };
    Ok(Item::Function(index, name))
}

/// The export at this place.
fn export_at(
    alloc: Global,
    parsed: &ParsedModule<'_>,
    place: usize,
) -> Result<Option<Item>, AllocError> {
    let bytes = parsed.bytes();
    let (_, exports) = bytes.split_at(place.min(bytes.len()));
    match Bytes(exports).text() {
        Some(name) => Ok(Some(Item::Export(String::from_str(alloc, name)?))),
        None => Ok(None),
    }
}

/// What a fault of a module that was read is in: a function, or an export.
fn item_of(
    alloc: Global,
    parsed: &ParsedModule<'_>,
    error: &ModuleError,
) -> Result<Option<Item>, AllocError> {
    match error.fault {
        ModuleFault::ExportTaken => return export_at(alloc, parsed, error.at),
        // its place is that of a section, which may be where the last body ends
        ModuleFault::ObjectFile => return Ok(None),
        _ => {}
    }
    let Some(index) = function_at(parsed, error.at) else {
        return Ok(None);
    };
    let names = FunctionNames::read(alloc, parsed)?;
    match function_item(alloc, &names, index) {
        Ok(item) => Ok(Some(item)),
        Err(error) => Err(error),
    }
}

/// Why a module that was read is refused.
pub fn refused<'w>(
    alloc: Global,
    parsed: &ParsedModule<'_>,
    path: &'w str,
    error: &ModuleError,
) -> ProgramFailure<'w> {
    match item_of(alloc, parsed, error) {
        Ok(item) => ProgramFailure::refused(alloc, path, item, error),
        Err(_) => ProgramFailure::Memory,
    }
}

/// Prints that a body is refused.
fn print_fault<'w>(
    rt: &impl Print,
    program: &str,
    fault: FileFault<'_>,
) -> Result<(), ProgramFailure<'w>> {
    match println!(rt; "{program}: {fault}") {
        Ok(()) => Ok(()),
        Err(error) => Err(ProgramFailure::file("-", Attempt::Write, error)),
    }
}

/// Why the body of this function is refused.
fn body_fault<'w>(
    alloc: Global,
    names: &FunctionNames<'_>,
    path: &'w str,
    index: usize,
    error: &ModuleError,
) -> Result<FileFault<'w>, AllocError> {
    match function_item(alloc, names, index) {
        Ok(item) => FileFault::new(alloc, path, Some(item), error),
        Err(error) => Err(error),
    }
}

/// Prints that the body of this function is refused.
fn print_refused<'w, R: Print + AllocGlobal>(
    rt: &R,
    program: &str,
    names: &FunctionNames<'_>,
    path: &'w str,
    index: usize,
    error: &ModuleError,
) -> Result<(), ProgramFailure<'w>> {
    match body_fault(rt.alloc(), names, path, index, error) {
        Ok(fault) => print_fault(rt, program, fault),
        Err(_) => Err(ProgramFailure::Memory),
    }
}

/// Why a body is refused, if it is.
fn fault_of<'a>(
    parsed: &mut ParsedModule<'a>,
    body: Body<'a>,
    scratch: &mut Scratch,
) -> Option<ModuleError>
    ensures extends { Extends parsed.old parsed.new }
    ensures accepted { IfNone result
        (IsAccepted parsed.old body.entry.func (body_at body.entry) parsed.new) }
{
    match parsed.check(body, scratch) {
        Ok(()) => None,
        Err(error) => Some(error),
    }
}

/// Prints a line for each body that is refused, and returns how many are.
fn check_each<'w, R: Clock + Print + Eprint + AllocGlobal>(
    rt: &R,
    program: &str,
    parsed: &mut ParsedModule<'_>,
    names: &FunctionNames<'_>,
    path: &'w str,
    progress: &Progress<'_, R>,
) -> Result<usize, ProgramFailure<'w>>
    ensures { (source : List ℕ) → IsModuleOf source parsed.old
        → IfOk result (λ count. count ≡ 0 → AcceptsBodies parsed.old 0) }
{
    let mut scratch = Scratch::new(rt.alloc());
    let mut count = 0usize;
    'bodies: for body in parsed.bodies() {
        progress.step();
        if let Some(error) = fault_of(parsed, body, &mut scratch) {
            if matches!(error.fault, ModuleFault::Memory) {
                return Err(ProgramFailure::Memory);
            }
            progress.clear();
            match print_refused(rt, program, names, path, body.func, &error) {
                Ok(()) => count = count.saturating_add(1),
                Err(failure) => return Err(failure),
            }
        }
    }
    Ok(count)
}

/// Prints a line for each body that is refused, and returns how many are.
pub fn check_bodies<'w, R: Clock + Print + Eprint + AllocGlobal>(
    rt: &R,
    program: &str,
    parsed: &mut ParsedModule<'_>,
    path: &'w str,
    progress: &Progress<'_, R>,
) -> Result<usize, ProgramFailure<'w>>
    ensures { (source : List ℕ) → IsModuleOf source parsed.old
        → IfOk result (λ count. count ≡ 0 → AcceptsBodies parsed.old 0) }
{
    let names = FunctionNames::read(rt.alloc(), parsed)?;
    check_each(rt, program, parsed, &names, path, progress)
}
