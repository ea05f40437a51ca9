//! Limits that engines have for the bodies of functions (WebAssembly JavaScript interface, implementation-defined limits).
ghost use Rattle.std.specs.Prelude.{◌≡◌, ◌+◌, ◌≤◌, ◌<◌, ◌^◌, vec_len, nat_le};
ghost use Rattle.wasm_sections.specs.Parts.{GivesUnlessMemory};
ghost use Rattle.module_context.specs.ReadContexts.{read_setting};
ghost use Rattle.module_validator.specs.EngineLimits.{locals_limit, body_limits, next_body_limits, bodies_limits};

use crate::bodies::{body, type_of};
use crate::faults::{only_if, placed};
use crate::locals::CountedLocals;
use module_context::ModuleContext;
use module_context::faults::{INVALID_TYPE, LARGE_BODY, MANY_LOCALS};
use std::alloc::Global;
use wasm_sections::{Input, ModuleError};

/// The most bytes of a body.
const BODY_BYTES: usize = 7_654_321;
/// The most locals of a function, its parameters among them.
const LOCALS: u64 = 50_000;

/// Whether there are no more locals than engines accept, with the parameters.
fn are_few(params: usize, declared: u64) -> bool
    ensures { result ≡ nat_le (params + declared) 50000 }
{
    match (params as u64).checked_add(declared) {
        Some(count) => count <= LOCALS,
        None => false,
    }
}

/// Checks the locals of the body with these bytes, of a function of the type with this index.
fn check_locals(
    setting: &ModuleContext,
    ty: u32,
    mut input: Input<'_>,
    locals: &mut CountedLocals,
) -> Result<(), ModuleError>
    ensures { GivesUnlessMemory (λ _. tt) result (locals_limit (read_setting setting.now) ty
        input.entry.end input.entry.rest.now) }
{
    let (begin, context) = (input, &setting.context);
    let Some((params, _)) = context.function_type(ty) else {
        return Err(input.fault(INVALID_TYPE));
    };
    locals.clear();
    match locals.add_all(context, params.len(), &mut input) {
        Ok(()) => placed(
            &begin,
            only_if(are_few(params.len(), locals.count()), MANY_LOCALS),
        ),
        Err(error) => Err(error),
    }
}

/// Checks these bytes as the body of a function.
fn check_function(
    setting: &ModuleContext,
    function: usize,
    input: Input<'_>,
    locals: &mut CountedLocals,
) -> Result<(), ModuleError>
    requires { vec_len setting.now.context.functions ≤ function → function < 2 ^ 32 }
    ensures { GivesUnlessMemory (λ _. tt) result (body_limits (read_setting setting.now) function
        input.entry.end input.entry.rest.now) }
{
    if input.rest().len() > BODY_BYTES {
        return Err(input.fault(LARGE_BODY));
    }
    match type_of(&setting.context, function) {
        Ok(ty) => check_locals(setting, ty, input, locals),
        Err(fault) => Err(input.fault(fault)),
    }
}

/// Checks the next body, which is that of this function.
fn check_body(
    setting: &ModuleContext,
    function: usize,
    input: &mut Input<'_>,
    locals: &mut CountedLocals,
) -> Result<(), ModuleError>
    requires { vec_len setting.now.context.functions ≤ function → function < 2 ^ 32 }
    ensures same_end { input.new.end ≡ input.old.end }
    ensures is { GivesUnlessMemory (λ _. (function + 1, input.new.rest.now)) result
        (next_body_limits (read_setting setting.now) function input.old.end input.old.rest.now) }
{
    match body(input) {
        Ok(body) => check_function(setting, function, body, locals),
        Err(error) => Err(error),
    }
}

/// Checks the bodies of a code section with these contents.
pub(crate) fn check_bodies(
    alloc: Global,
    setting: &ModuleContext,
    mut input: Input<'_>,
) -> Result<(), ModuleError>
    ensures { GivesUnlessMemory (λ _. tt) result (bodies_limits (read_setting setting.now)
        input.entry.end input.entry.rest.now) }
{
    let count = match input.number() {
        Ok(count) => count,
        Err(error) => return Err(error),
    };
    let mut locals = CountedLocals::new(alloc);
    let first = setting
        .context
        .functions
        .len()
        .saturating_sub(count as usize);
    'bodies: for index in 0..count {
        match check_body(setting, first + index as usize, &mut input, &mut locals) {
            Ok(()) => {}
            Err(error) => return Err(error),
        }
    }
    input.finish()
}
