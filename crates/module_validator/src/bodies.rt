//! The bodies of functions (WebAssembly core specification 3.0, validation, modules, functions).
ghost use Rattle.std.specs.Prelude.{◌≡◌, ◌+◌, ◌-◌, ◌<◌, ◌≤◌, ◌^◌, length, vec_len, slice_get, IfOk};
ghost use Rattle.wasm_numbers.specs.Results.{Gives, some_or};
ghost use Rattle.wasm_operators.specs.declared.types.Space.TheVariants.{Funcs};
ghost use Rattle.wasm_context.specs.Contexts.{without_locals};
ghost use Rattle.wasm_sections.specs.declared.fault.ModuleFault.TheVariants.{IndexOutOfRange};
ghost use Rattle.wasm_sections.specs.Components.{body_part};
ghost use Rattle.wasm_sections.specs.Parts.{GivesUnlessMemory};
ghost use Rattle.module_context.specs.ReadContexts.{read_setting};
ghost use Rattle.module_validator.specs.Checks.{typed_body_validity, bodies_contents};
ghost use Rattle.module_validator.specs.ModuleRules.{body_validity, body_rule};

use crate::code::check_code;
use crate::scratch::Scratch;
use module_context::ModuleContext;
use module_context::faults::INVALID_TYPE;
use wasm_context::{Context, TypeList};
use wasm_ops::Space;
use wasm_sections::{Input, ModuleError, ModuleFault};

/// The index of the type of a function.
pub(crate) fn type_of(context: &Context, function: usize) -> Result<u32, ModuleFault>
    requires { vec_len context.now.functions ≤ function → function < 2 ^ 32 }
    ensures { Gives (λ ty. ty) result (some_or (slice_get (without_locals context.now).functions
        function) (IndexOutOfRange Funcs function)) }
{
    match context.functions.get(function) {
        Some(ty) => Ok(*ty),
        None => Err(ModuleFault::IndexOutOfRange {
            space: Space::Funcs,
            index: function as u32,
        }),
    }
}

/// Checks these bytes as the body of a function of the type with this index.
fn check_typed_body(
    setting: &ModuleContext,
    ty: u32,
    mut input: Input<'_>,
    scratch: &mut Scratch,
) -> Result<(), ModuleError>
    ensures { GivesUnlessMemory (λ u. u) result (typed_body_validity (read_setting setting.now) ty
        input.entry.end input.entry.rest.now) }
{
    let context = &setting.context;
    let Some((params, _)) = context.function_type(ty) else {
        return Err(input.fault(INVALID_TYPE));
    };
    scratch.locals.clear();
    match scratch.locals.add_all(context, params.len(), &mut input) {
        Ok(()) => {}
        Err(error) => return Err(error),
    }
    check_code(
        context,
        scratch.locals.after(params),
        TypeList::Results(ty),
        input.rest(),
        input.at(),
        &mut scratch.validation,
    )
}

/// Checks these bytes as the body of a function.
fn check_function(
    setting: &ModuleContext,
    function: usize,
    input: Input<'_>,
    scratch: &mut Scratch,
) -> Result<(), ModuleError>
    requires { vec_len setting.now.context.functions ≤ function → function < 2 ^ 32 }
    ensures { GivesUnlessMemory (λ u. u) result (body_validity (read_setting setting.now) function
        input.entry.end input.entry.rest.now) }
{
    match type_of(&setting.context, function) {
        Ok(ty) => check_typed_body(setting, ty, input, scratch),
        Err(fault) => Err(input.fault(fault)),
    }
}

/// A body: its size, and so many bytes.
pub(crate) fn body<'a>(input: &mut Input<'a>) -> Result<Input<'a>, ModuleError>
    ensures same_end { input.new.end ≡ input.old.end }
    ensures ends { IfOk result (λ body. body.end ≡ input.old.end - length input.new.rest.now) }
    ensures is { Gives (λ body. (body.rest.now, input.new.rest.now)) result
        (body_part input.old.end input.old.rest.now) }
{
    match input.number() {
        Ok(len) => input.part(len as usize),
        Err(error) => Err(error),
    }
}

/// Checks the next body, which is that of this function.
fn check_body(
    setting: &ModuleContext,
    function: usize,
    input: &mut Input<'_>,
    scratch: &mut Scratch,
) -> Result<(), ModuleError>
    requires { vec_len setting.now.context.functions ≤ function → function < 2 ^ 32 }
    ensures same_end { input.new.end ≡ input.old.end }
    ensures is { GivesUnlessMemory (λ _. (function + 1, input.new.rest.now)) result
        (body_rule (read_setting setting.now) function input.old.end input.old.rest.now) }
{
    match body(input) {
        Ok(body) => check_function(setting, function, body, scratch),
        Err(error) => Err(error),
    }
}

/// Checks the bodies of a code section with these contents.
pub(crate) fn check_bodies(
    setting: &ModuleContext,
    mut input: Input<'_>,
    scratch: &mut Scratch,
) -> Result<(), ModuleError>
    ensures { GivesUnlessMemory (λ _. tt) result (bodies_contents (read_setting setting.now)
        input.entry.end input.entry.rest.now) }
{
    let count = match input.number() {
        Ok(count) => count,
        Err(error) => return Err(error),
    };
    let first = setting
        .context
        .functions
        .len()
        .saturating_sub(count as usize);
    'bodies: for index in 0..count {
        match check_body(setting, first + index as usize, &mut input, scratch) {
            Ok(()) => {}
            Err(error) => return Err(error),
        }
    }
    input.finish()
}
