//! Why an operator of a module is refused, where that is an operand of another type than it takes.

use crate::bodies::body;
use crate::scratch::Scratch;
use module_context::ModuleContext;
use module_context::faults::INVALID_OPERATOR;
use std::alloc::Global;
use wasm_context::TypeList;
use wasm_sections::{Input, ModuleError, ModuleFault, SectionKind, Sections};
use wasm_validation::{Mismatch, RefusedCode};

/// The operand that the operator at this place refuses, in the body with these bytes of a function of the type with this index.
fn mismatch_in(
    alloc: Global,
    setting: &ModuleContext,
    ty: u32,
    mut input: Input<'_>,
    at: usize,
) -> Result<Option<Mismatch>, ModuleError> {
    let mut scratch = Scratch::new(alloc);
    let context = &setting.context;
    let Some((params, _)) = context.function_type(ty) else {
        return Ok(None);
    };
    scratch.locals.clear();
    match scratch.locals.add_all(context, params.len(), &mut input) {
        Ok(()) => {}
        Err(error) => return Err(error),
    }
    let refused = RefusedCode {
        context,
        locals: scratch.locals.after(params),
        results: TypeList::Results(ty),
        code: input.rest(),
        start: input.at(),
        at,
    };
    match refused.mismatch(alloc) {
        Ok(mismatch) => Ok(mismatch),
        Err(_) => Err(input.fault(ModuleFault::Memory)),
    }
}

/// The operand that the operator at this place refuses, in a code section with these contents.
fn mismatch_among(
    alloc: Global,
    setting: &ModuleContext,
    mut input: Input<'_>,
    at: usize,
) -> Result<Option<Mismatch>, ModuleError> {
    let functions = &setting.context.functions;
    let count = match input.number() {
        Ok(count) => count as usize,
        Err(error) => return Err(error),
    };
    for place in functions.len().saturating_sub(count)..functions.len() {
        let body = match body(&mut input) {
            Ok(body) => body,
            Err(error) => return Err(error),
        };
        if body.at() <= at && at < input.at() {
            return match functions.get(place) {
                Some(ty) => mismatch_in(alloc, setting, *ty, body, at),
                None => Ok(None),
            };
        }
    }
    Ok(None)
}

/// The operand that an operator refuses, of a module with these bytes for which `validate` returns this error; `None` if
/// the error is another one, or if the operator is refused for another reason. This takes some ten times the time of validating
/// the operator's body.
///
/// # Errors
///
/// Out of memory; or the fault of a module that isn't read.
pub fn mismatch(
    alloc: Global,
    bytes: &[u8],
    error: &ModuleError,
) -> Result<Option<Mismatch>, ModuleError> {
    if error.fault != INVALID_OPERATOR {
        return Ok(None);
    }
    let setting = ModuleContext::read(alloc, bytes)?;
    for section in Sections::new(bytes)? {
        let section = section?;
        if section.kind == SectionKind::Code {
            return mismatch_among(alloc, &setting, section.contents, error.at);
        }
    }
    Ok(None)
}
