//! Constant expressions (WebAssembly core specification 3.0, validation, constant expressions).
ghost use Rattle.std.specs.Prelude.{◌≡◌, ◌+◌, ◌<◌, ◌^◌, length, OnOk};
ghost use Rattle.wasm_numbers.specs.Results.{Gives};
ghost use Rattle.wasm_context.specs.Contexts.{without_locals};
ghost use Rattle.wasm_operators.specs.Meaning.{meaning};
ghost use Rattle.wasm_ops.specs.Position.{IsAfter};
ghost use Rattle.wasm_sections.specs.Parts.{GivesUnlessMemory};
ghost use Rattle.module_context.specs.ReadContexts.{read_setting};
ghost use Rattle.module_validator.specs.ConstantRules.{is_constant_opcode, is_global_get, is_constant_global, is_constant, constant_from, constant_validity, constant_rule};
ghost use Rattle.module_validator.specs.Checks.{after_constant};
ghost use Rattle.module_validator.specs.ModuleRules.{segment_constant_rule};

use crate::code::check_code;
use crate::scratch::Scratch;
use module_context::ModuleContext;
use wasm_context::{Context, TypeList};
use wasm_locals::LocalTypes;
use wasm_ops::{Immediates, Opcode, Operator, RawValType, Reader};
use wasm_sections::{Input, ModuleError, ModuleFault};
use wasm_validation::ValidationScratch;

/// Whether each operator with this opcode is constant.
fn is_constant_opcode(opcode: Opcode) -> bool
    ensures { result ≡ is_constant_opcode opcode }
{
    match opcode {
        Opcode::Byte(byte) => matches!(
            byte,
            0x0b | 0x41..=0x44 | 0x6a..=0x6c | 0x7c..=0x7e | 0xd0 | 0xd2
        ),
        Opcode::Prefixed(0xfb, number) => matches!(number, 0 | 1 | 6 | 7 | 8 | 26 | 27 | 28),
        Opcode::Prefixed(0xfd, number) => number == 12,
        Opcode::Prefixed(..) => false,
    }
}

/// Whether this is the opcode of `global.get`.
fn is_global_get(opcode: Opcode) -> bool
    ensures { result ≡ is_global_get opcode }
{
    match opcode {
        Opcode::Byte(byte) => byte == 0x23,
        Opcode::Prefixed(..) => false,
    }
}

/// Whether this is one of the first so many globals, and can't be changed.
fn is_constant_global(context: &Context, globals: usize, index: u32) -> bool
    ensures { result ≡ is_constant_global (without_locals context.now) globals index }
{
    if (index as usize) < globals {
        match context.global(index) {
            Some(global) => !global.mutable,
            None => false,
        }
    } else {
        false
    }
}

/// Whether an operator may be in a constant expression that may get the first so many globals.
fn is_constant(context: &Context, globals: usize, operator: &Operator<'_>) -> bool
    ensures { result ≡ is_constant (without_locals context.now) globals (meaning operator.now) }
{
    let (opcode, immediates) = operator.parts();
    if is_constant_opcode(opcode) {
        return true;
    }
    if !is_global_get(opcode) {
        return false;
    }
    match immediates {
        Immediates::Index(_, index) => is_constant_global(context, globals, index),
        _ => true,
    }
}

/// Reads the next operator. `BadConstant` if it isn't constant.
fn next_constant(
    context: &Context,
    globals: usize,
    reader: &mut Reader<'_>,
) -> Result<(), ModuleFault>
    ensures after { OnOk result (IsAfter reader.old reader.new) }
    ensures is { Gives (λ _. reader.new.rest) result
        (after_constant (without_locals context.now) globals reader.old.rest) }
{
    match reader.read() {
        Ok(operator) => {
            if is_constant(context, globals, &operator) {
                Ok(())
            } else {
                Err(ModuleFault::BadConstant)
            }
        }
        Err(error) => Err(ModuleFault::Read(error.fault)),
    }
}

/// Checks that the operators of these bytes are constant, where the first so many globals may be got.
fn check_operators(
    context: &Context,
    globals: usize,
    code: &[u8],
    start: usize,
) -> Result<(), ModuleError>
    requires { start + length code.now < 2 ^ 64 }
    ensures { Gives (λ u. u) result
        (constant_from (length code.now) (without_locals context.now) globals start code.now) }
{
    let mut reader = Reader::new(code, start);
    'operators: while !reader.eof() {
        let at = reader.original_position();
        match next_constant(context, globals, &mut reader) {
            Ok(()) => {}
            Err(fault) => return Err(ModuleError { fault, at }),
        }
    }
    Ok(())
}

/// Checks that these bytes, the first of which is at the place `start`, are a constant expression of this type, which
/// may get the first so many globals.
fn check_expression(
    setting: &ModuleContext,
    globals: usize,
    ty: RawValType,
    code: &[u8],
    start: usize,
    scratch: &mut ValidationScratch,
) -> Result<(), ModuleError>
    requires { start + length code.now < 2 ^ 64 }
    ensures { GivesUnlessMemory (λ u. u) result
        (constant_validity (read_setting setting.now) globals ty start code.now) }
{
    match check_operators(&setting.context, globals, code, start) {
        Ok(()) => {}
        Err(error) => return Err(error),
    }
    let locals = LocalTypes {
        params: &[],
        declared: &[],
    };
    check_code(
        &setting.context,
        locals,
        TypeList::One(ty),
        code,
        start,
        scratch,
    )
}

/// Checks a constant expression of this type, which may get the first so many globals.
pub(crate) fn check_constant(
    setting: &ModuleContext,
    globals: usize,
    ty: RawValType,
    input: &mut Input<'_>,
    scratch: &mut Scratch,
) -> Result<(), ModuleError>
    ensures same_end { input.new.end ≡ input.old.end }
    ensures is { GivesUnlessMemory (λ _. (tt, input.new.rest.now)) result
        (constant_rule (read_setting setting.now) globals ty input.old.end input.old.rest.now) }
{
    let start = input.at();
    match input.constant() {
        Ok(code) => check_expression(setting, globals, ty, code, start, &mut scratch.validation),
        Err(error) => Err(error),
    }
}

/// The same where each global may be got.
pub(crate) fn check_segment_constant(
    setting: &ModuleContext,
    ty: RawValType,
    input: &mut Input<'_>,
    scratch: &mut Scratch,
) -> Result<(), ModuleError>
    ensures same_end { input.new.end ≡ input.old.end }
    ensures is { GivesUnlessMemory (λ _. (tt, input.new.rest.now)) result
        (segment_constant_rule (read_setting setting.now) ty input.old.end input.old.rest.now) }
{
    check_constant(setting, setting.context.globals.len(), ty, input, scratch)
}
