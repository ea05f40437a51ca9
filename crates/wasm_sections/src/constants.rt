//! Constants that are written (WebAssembly core specification 3.0, binary format, expressions and
//! globals).
ghost use Rattle.std.specs.Prelude.{◌≡◌, ◌++◌, OnOk};
ghost use Rattle.wasm_operators.specs.Shortest.{short};
ghost use Rattle.wasm_sections.specs.Constants.{constant_operation, constant_of, type_byte as byte_of_type, mutability as byte_of_mutability, global_of};

use crate::fault::ModuleError;
use std::alloc::AllocError;
use walrus_ir::Value;
use wasm_encode as encoded;
use wasm_encode::OutOp;

/// The `end` of an expression.
const END: u8 = 0x0b;

/// The byte of the type of a value.
fn type_byte(value: Value) -> u8
    ensures { result ≡ byte_of_type value }
{
    match value {
        Value::I32(_) => 0x7f,
        Value::I64(_) => 0x7e,
        Value::F32(_) => 0x7d,
        Value::F64(_) => 0x7c,
        Value::V128(_) => 0x7b,
    }
}

/// Appends the operator whose result is this value.
fn write_value(out: &mut Vec<u8>, value: Value) -> Result<(), AllocError>
    ensures { OnOk result (out.new.items ≡ out.old.items ++ short (constant_operation value)) }
{
    let op = match value {
        Value::I32(value) => OutOp::I32Const { value },
        Value::I64(value) => OutOp::I64Const { value },
        Value::F32(bits) => OutOp::F32Const { bits },
        Value::F64(bits) => OutOp::F64Const { bits },
        Value::V128(bits) => OutOp::V128Const { bits },
    };
    encoded::write_op(&op, out)
}

/// Appends a constant expression with this value.
pub fn write_constant(out: &mut Vec<u8>, value: Value) -> Result<(), ModuleError>
    ensures { OnOk result (out.new.items ≡ out.old.items ++ constant_of value) }
{
    write_value(out, value)?;
    out.push(END)?;
    Ok(())
}

/// The byte of a mutability.
fn mutability(is_mutable: bool) -> u8
    ensures { result ≡ byte_of_mutability is_mutable }
{
    match is_mutable {
        false => 0,
        true => 1,
    }
}

/// Appends a global with this initial value.
#[tactic(auto, using(wasm_encode::proofs::Appending::appending))]
pub fn write_global(out: &mut Vec<u8>, value: Value, is_mutable: bool) -> Result<(), ModuleError>
    ensures { OnOk result (out.new.items ≡ out.old.items ++ global_of value is_mutable) }
{
    out.push(type_byte(value))?;
    out.push(mutability(is_mutable))?;
    write_constant(out, value)
}
