//! Reading an operator whose opcode is one byte: one row for each operator.

ghost use Rattle.std.specs.Prelude.{◌≡◌, ◌≤◌};
ghost use Rattle.wasm_numbers.specs.Results.{Gives};
ghost use Rattle.wasm_operators.specs.Spelling.{operands};
ghost use Rattle.wasm_operators.specs.Meaning.{meaning};

use crate::access_reader::{load_kind, read_memarg, store_kind};
use crate::numeric_reader::numeric;
use crate::reference_reader::read_reference;
use crate::row::{made, read_indices, read_pair};
use crate::type_reader::{read_block_type, read_selected};
use wasm_numbers::{ReadFault, read_f32, read_f64, read_s32, read_s64, read_u32};
use wasm_operators::{Opcode, Operator, index_rows, read_clauses, read_table};

/// Reads the rest of a `try_table`: its block type and its clauses.
#[tactic(auto, unfolding(wasm_operators::specs::Opcodes::kinds_of_byte))]
fn read_try_table(bytes: &[u8]) -> Result<(Operator<'_>, &[u8]), ReadFault>
    ensures { Gives (λ x. (meaning x.0, x.1.now)) result (operands (Opcode.Byte 0x1f) bytes.now) }
{
    let (ty, rest) = read_block_type(bytes)?;
    let (catches, rest) = read_clauses(rest)?;
    Ok((Operator::TryTable { ty, catches }, rest))
}

/// Reads the control operator with this opcode: calls, and others.
macro_rules! read_control_byte {
    (
        ($byte:ident $bytes:ident)
        (Byte) {
            $($row:literal $name:ident { $($field:ident $id:ident $space:ident),* })*
        }
        $($others:tt)*
    ) => {
        match $byte {
            0x00 => Ok((Operator::Unreachable, $bytes)),
            0x01 => Ok((Operator::Nop, $bytes)),
            0x02 => made!(read_block_type($bytes), ty => Operator::Block { ty }),
            0x03 => made!(read_block_type($bytes), ty => Operator::Loop { ty }),
            0x04 => made!(read_block_type($bytes), ty => Operator::If { ty }),
            0x05 => Ok((Operator::Else, $bytes)),
            0x06 => made!(read_block_type($bytes), ty => Operator::Try { ty }),
            0x07 => made!(read_u32($bytes), tag => Operator::Catch { tag }),
            0x09 => made!(read_u32($bytes), depth => Operator::Rethrow { depth }),
            0x0a => Ok((Operator::ThrowRef, $bytes)),
            0x0b => Ok((Operator::End, $bytes)),
            0x0c => made!(read_u32($bytes), label => Operator::Br { label }),
            0x0d => made!(read_u32($bytes), label => Operator::BrIf { label }),
            0x0e => made!(read_table($bytes), table => Operator::BrTable(table)),
            0x0f => Ok((Operator::Return, $bytes)),
            $($row => read_indices!($bytes $name $($field)*),)*
            0x18 => made!(read_u32($bytes), depth => Operator::Delegate { depth }),
            0x19 => Ok((Operator::CatchAll, $bytes)),
            0x1a => Ok((Operator::Drop, $bytes)),
            0x1b => Ok((Operator::Select, $bytes)),
            0x1c => made!(read_selected($bytes), ty => Operator::TypedSelect { ty }),
            0x1f => read_try_table($bytes),
            _ => Err(ReadFault::UnknownOperator),
        }
    };
}

/// Reads the rest of an operator with an opcode from 0x00 to 0x1f.
#[tactic(auto, unfolding(wasm_operators::specs::Opcodes::kinds_of_byte))]
fn read_control(byte: u8, bytes: &[u8]) -> Result<(Operator<'_>, &[u8]), ReadFault>
    requires { byte ≤ 0x1f }
    ensures { Gives (λ x. (meaning x.0, x.1.now)) result (operands (Opcode.Byte byte) bytes.now) }
{
    index_rows!(read_control_byte, byte bytes)
}

/// Reads the operator with this opcode, on locals, globals or tables.
macro_rules! read_variable_byte {
    (
        ($byte:ident $bytes:ident)
        $calls:tt $call_rows:tt
        (Byte) { $($row:literal $name:ident { $field:ident $id:ident $space:ident })* }
        $($others:tt)*
    ) => {
        match $byte {
            0x20 => made!(read_u32($bytes), local => Operator::LocalGet { local }),
            0x21 => made!(read_u32($bytes), local => Operator::LocalSet { local }),
            0x22 => made!(read_u32($bytes), local => Operator::LocalTee { local }),
            $($row => made!(read_u32($bytes), $field => Operator::$name { $field }),)*
            _ => Err(ReadFault::UnknownOperator),
        }
    };
}

/// Reads the rest of an operator with an opcode from 0x20 to 0x27.
#[tactic(auto, unfolding(wasm_operators::specs::Opcodes::kinds_of_byte))]
fn read_variable(byte: u8, bytes: &[u8]) -> Result<(Operator<'_>, &[u8]), ReadFault>
    requires low { 0x20 ≤ byte }
    requires high { byte ≤ 0x27 }
    ensures { Gives (λ x. (meaning x.0, x.1.now)) result (operands (Opcode.Byte byte) bytes.now) }
{
    index_rows!(read_variable_byte, byte bytes)
}

/// Reads the rest of a load with an opcode from 0x28 to 0x35.
#[tactic(auto, unfolding(wasm_operators::specs::Opcodes::kinds_of_byte))]
fn read_load(byte: u8, bytes: &[u8]) -> Result<(Operator<'_>, &[u8]), ReadFault>
    requires low { 0x28 ≤ byte }
    requires high { byte ≤ 0x35 }
    ensures { Gives (λ x. (meaning x.0, x.1.now)) result (operands (Opcode.Byte byte) bytes.now) }
{
    let kind = load_kind(byte);
    let (memarg, rest) = read_memarg(bytes)?;
    Ok((Operator::Load { kind, memarg }, rest))
}

/// Reads the rest of a store with an opcode from 0x36 to 0x3e.
#[tactic(auto, unfolding(wasm_operators::specs::Opcodes::kinds_of_byte))]
fn read_store(byte: u8, bytes: &[u8]) -> Result<(Operator<'_>, &[u8]), ReadFault>
    requires low { 0x36 ≤ byte }
    requires high { byte ≤ 0x3e }
    ensures { Gives (λ x. (meaning x.0, x.1.now)) result (operands (Opcode.Byte byte) bytes.now) }
{
    let kind = store_kind(byte);
    let (memarg, rest) = read_memarg(bytes)?;
    Ok((Operator::Store { kind, memarg }, rest))
}

/// Reads the operator with this opcode: `memory.size`, `memory.grow` or a constant.
macro_rules! read_constant_byte {
    (
        ($byte:ident $bytes:ident)
        $calls:tt $call_rows:tt
        $variables:tt $variable_rows:tt
        (Byte) { $($row:literal $name:ident { $field:ident $id:ident $space:ident })* }
        $($others:tt)*
    ) => {
        match $byte {
            $($row => made!(read_u32($bytes), $field => Operator::$name { $field }),)*
            0x41 => made!(read_s32($bytes), value => Operator::I32Const { value }),
            0x42 => made!(read_s64($bytes), value => Operator::I64Const { value }),
            0x43 => made!(read_f32($bytes), bits => Operator::F32Const { bits }),
            _ => made!(read_f64($bytes), bits => Operator::F64Const { bits }),
        }
    };
}

/// Reads the rest of an operator with an opcode from 0x3f to 0x44.
#[tactic(auto, unfolding(wasm_operators::specs::Opcodes::kinds_of_byte))]
fn read_constant(byte: u8, bytes: &[u8]) -> Result<(Operator<'_>, &[u8]), ReadFault>
    requires low { 0x3f ≤ byte }
    requires high { byte ≤ 0x44 }
    ensures { Gives (λ x. (meaning x.0, x.1.now)) result (operands (Opcode.Byte byte) bytes.now) }
{
    index_rows!(read_constant_byte, byte bytes)
}

/// Reads the rest of an operator with an opcode of one byte.
#[tactic(auto, unfolding(wasm_operators::specs::Opcodes::kinds_of_byte))]
pub(crate) fn read_after_byte(byte: u8, bytes: &[u8]) -> Result<(Operator<'_>, &[u8]), ReadFault>
    ensures { Gives (λ x. (meaning x.0, x.1.now)) result (operands (Opcode.Byte byte) bytes.now) }
{
    match byte {
        0x00..=0x1f => read_control(byte, bytes),
        0x20..=0x27 => read_variable(byte, bytes),
        0x28..=0x35 => read_load(byte, bytes),
        0x36..=0x3e => read_store(byte, bytes),
        0x3f..=0x44 => read_constant(byte, bytes),
        0x45..=0xc4 => Ok((numeric(byte).operator(), bytes)),
        0xc5..=0xcf => Err(ReadFault::UnknownOperator),
        0xd0..=0xd6 => read_reference(byte, bytes),
        _ => Err(ReadFault::UnknownOperator),
    }
}
