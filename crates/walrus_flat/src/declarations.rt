//! The declarations of a body's locals, written to a list of bytes.
ghost use Rattle.std.specs.Prelude.{◌≡◌, ◌++◌, ◌<◌, ◌^◌, OnOk, length};
ghost use Rattle.std.specs.List.{flat_map};
ghost use Rattle.wasm_encode.specs.Declarations.{short_declaration, declaration_bytes};

use std::alloc::AllocError;
use wasm_encode::{write_number, write_value_type};
use wasm_operators::RawValType;

/// Appends the declaration of a number of locals of one type.
#[tactic(auto, using(wasm_encode::proofs::Appending::appending))]
fn write_declaration(out: &mut Vec<u8>, count: u32, ty: RawValType) -> Result<(), AllocError>
    ensures { OnOk result (out.new.items ≡ out.old.items ++ short_declaration (count, ty)) }
{
    write_number(out, count as u64)?;
    write_value_type(out, ty)
}

/// Appends declarations of locals, each a count and a type.
#[tactic(auto, using(wasm_encode::proofs::Appending::appending))]
fn write_each(out: &mut Vec<u8>, locals: &[(u32, RawValType)]) -> Result<(), AllocError>
    ensures { OnOk result
        (out.new.items ≡ out.old.items ++ flat_map short_declaration locals.now) }
{
    for (count, ty) in locals {
        write_declaration(out, *count, *ty)?;
    }
    Ok(())
}

/// Appends the declarations of these locals (WebAssembly core specification 3.0, binary format, code
/// section): the number of pairs, and each pair of a count and a type.
#[tactic(auto, using(wasm_encode::proofs::Appending::appending))]
pub(crate) fn write_declarations(
    out: &mut Vec<u8>,
    locals: &[(u32, RawValType)],
) -> Result<(), AllocError>
    requires { length locals.now < 2 ^ 32 }
    ensures { OnOk result (out.new.items ≡ out.old.items ++ declaration_bytes locals.now) }
{
    write_number(out, locals.len() as u64)?;
    write_each(out, locals)
}
