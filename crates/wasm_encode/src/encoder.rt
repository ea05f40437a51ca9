//! The bytes of a function's body that is written.

ghost use Rattle.std.specs.Prelude.{◌≡◌, ◌++◌, OnOk, take, length};
ghost use Rattle.std.specs.List.{flat_map};
ghost use Rattle.wasm_encode.specs.Declarations.{short_declaration};

use crate::number::write_number;
use crate::operation::write_op;
use crate::out_operator::OutOp;
use crate::type_writer::write_value_type;
use std::alloc::{AllocError, Global};
use std::marker::Model;
use wasm_operators::RawValType;

/// Appends the declaration of a number of locals of one type.
#[tactic(auto, using(crate::proofs::Appending::appending))]
fn write_declaration(out: &mut Vec<u8>, count: u32, ty: RawValType) -> Result<(), AllocError>
    ensures ok { OnOk result (out.new.items ≡ out.old.items ++ short_declaration (count, ty)) }
    ensures unchanged { take (length out.old.items) out.new.items ≡ out.old.items }
{
    write_number(out, count as u64)?;
    write_value_type(out, ty)
}

/// Appends declarations of locals, each a count and a type.
#[tactic(auto, using(crate::proofs::Appending::appending))]
fn write_declarations(out: &mut Vec<u8>, locals: &[(u32, RawValType)]) -> Result<(), AllocError>
    ensures ok { OnOk result
        (out.new.items ≡ out.old.items ++ flat_map short_declaration locals.now) }
    ensures unchanged { take (length out.old.items) out.new.items ≡ out.old.items }
{
    for (count, ty) in locals {
        write_declaration(out, *count, *ty)?;
    }
    Ok(())
}

/// The bytes of a function's body: its declarations of locals, and the operators written so far. In
/// a contract, it is the list of the bytes.
#[derive(Drop)]
pub struct FunctionEncoder {
    bytes: Vec<u8>,
}

impl Model for FunctionEncoder {
    ghost use Rattle.std.specs.Prelude.{List, ℕ};

    ghost Value = { List ℕ };

    ghost view = { λ e. e.bytes.items };
}

impl FunctionEncoder {
    ghost use Rattle.std.specs.Prelude.{◌≡◌, ◌++◌, ◌<◌, ◌^◌, OnOk, OnErr, IfOk, length};
    ghost use Rattle.wasm_operators.specs.Meaning.{meaning};
    ghost use Rattle.wasm_operators.specs.Shortest.{short};
    ghost use Rattle.wasm_encode.specs.Declarations.{declaration_bytes};
    ghost use Rattle.wasm_encode.specs.Writable.{IsWritable};

    /// An encoder that contains the declarations of these locals (WebAssembly core specification
    /// 3.0, binary format, code section): the number of pairs, and each pair of a count and a type.
    ///
    /// # Errors
    ///
    /// Out of memory.
    pub fn new(alloc: Global, locals: &[(u32, RawValType)]) -> Result<Self, AllocError>
        requires { length locals.now < 2 ^ 32 }
        ensures { IfOk result (λ e. e ≡ declaration_bytes locals.now) }
    {
        let mut bytes = Vec::new(alloc);
        write_number(&mut bytes, locals.len() as u64)?;
        write_declarations(&mut bytes, locals)?;
        Ok(FunctionEncoder { bytes })
    }

    /// The number of bytes. They are in memory, so there are fewer than 2^63.
    pub fn byte_len(&self) -> usize
        ensures len { result ≡ length self.now }
        ensures fits { result < 2 ^ 63 }
    {
        self.bytes.len()
    }

    /// Appends the shortest spelling of an operator. Requires that the exponent of the alignment in
    /// a memory argument is at most 31.
    ///
    /// # Errors
    ///
    /// Out of memory; the encoder is unchanged.
    pub fn instruction(&mut self, op: &OutOp<'_>) -> Result<(), AllocError>
        requires { IsWritable (meaning op.now) }
        ensures ok { OnOk result (self.new ≡ self.old ++ short (meaning op.now)) }
        ensures err { OnErr result (self.new ≡ self.old) }
    {
        write_op(op, &mut self.bytes)
    }

    /// Appends bytes without a change.
    ///
    /// # Errors
    ///
    /// Out of memory; the encoder is unchanged.
    pub fn raw(&mut self, bytes: &[u8]) -> Result<(), AllocError>
        ensures ok { OnOk result (self.new ≡ self.old ++ bytes.now) }
        ensures err { OnErr result (self.new ≡ self.old) }
    {
        self.bytes.extend_from_slice(bytes)
    }

    /// The bytes: declarations and operators, without the size of the body before them.
    pub fn bytes(&self) -> &[u8]
        ensures { result.now ≡ self.now }
    {
        self.bytes.as_slice()
    }

    /// The same bytes as `bytes`, which the encoder gives away.
    pub fn into_raw_body(self) -> Vec<u8>
        ensures { result.items ≡ self }
    {
        self.bytes
    }
}
