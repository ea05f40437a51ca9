//! Writing operators.

ghost use Rattle.std.specs.Prelude.{◌≡◌, ◌++◌, OnOk, OnErr, take, length};
ghost use Rattle.wasm_operators.specs.Operations.{operation};
ghost use Rattle.wasm_operators.specs.Meaning.{meaning};
ghost use Rattle.wasm_operators.specs.Parts.{immediates_of};
ghost use Rattle.wasm_operators.specs.Shortest.{short_opcode, short};
ghost use Rattle.wasm_encode.specs.Writable.{IsWritable};

use crate::immediates::write_immediates;
use crate::number::{write_byte, write_number};
use crate::out_operator::{OutImmediates, OutOp, parts};
use std::alloc::AllocError;
use wasm_operators::Opcode;
use wasm_operators::Opcode::{Byte, Prefixed};

/// Appends an opcode.
#[inline(always)]
#[tactic(auto, using(crate::proofs::Appending::appending))]
fn write_opcode(out: &mut Vec<u8>, opcode: Opcode) -> Result<(), AllocError>
    ensures ok { OnOk result (out.new.items ≡ out.old.items ++ short_opcode opcode) }
    ensures unchanged { take (length out.old.items) out.new.items ≡ out.old.items }
{
    match opcode {
        Byte(byte) => write_byte(out, byte),
        Prefixed(prefix, number) => {
            write_byte(out, prefix)?;
            write_number(out, number as u64)
        }
    }
}

/// Appends an opcode, and the immediates that follow it.
#[inline(always)]
#[tactic(auto, using(crate::proofs::Appending::appending))]
fn write_parts(
    out: &mut Vec<u8>,
    opcode: Opcode,
    immediates: &OutImmediates<'_>,
) -> Result<(), AllocError>
    ensures ok { OnOk result (out.new.items
        ≡ out.old.items ++ short (operation opcode (immediates_of immediates.now))) }
    ensures unchanged { take (length out.old.items) out.new.items ≡ out.old.items }
{
    write_opcode(out, opcode)?;
    write_immediates(out, immediates)
}

/// Appends the bytes of an operator. If memory runs out, only some of the first bytes are appended.
#[inline(always)]
fn write_whole(out: &mut Vec<u8>, op: &OutOp<'_>) -> Result<(), AllocError>
    ensures ok { OnOk result (out.new.items ≡ out.old.items ++ short (meaning op.now)) }
    ensures unchanged { take (length out.old.items) out.new.items ≡ out.old.items }
{
    let (opcode, immediates) = parts(op);
    write_parts(out, opcode, &immediates)
}

/// Appends the shortest spelling of an operator (WebAssembly core specification 3.0, binary format,
/// instructions). Requires that the exponent of the alignment in a memory argument is at most 31.
///
/// # Errors
///
/// Out of memory; `out` is unchanged.
#[inline(always)]
pub fn write_op(op: &OutOp<'_>, out: &mut Vec<u8>) -> Result<(), AllocError>
    requires { IsWritable (meaning op.now) }
    ensures ok { OnOk result (out.new.items ≡ out.old.items ++ short (meaning op.now)) }
    ensures err { OnErr result (out.new.items ≡ out.old.items) }
{
    let len = out.len();
    let written = write_whole(out, op);
    if written.is_err() {
        out.truncate(len);
    }
    written
}
