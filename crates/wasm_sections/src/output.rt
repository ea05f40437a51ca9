//! Numbers and vectors of bytes, as they are written (WebAssembly core specification 3.0, binary
//! format, values).
ghost use Rattle.std.specs.Prelude.{◌≡◌, ◌++◌, ◌≤◌, ◌<◌, ◌^◌, OnOk, IfErr};
ghost use Rattle.wasm_operators.specs.Shortest.{short_number};
ghost use Rattle.wasm_sections.specs.Additions.{IsTooMuch};
ghost use Rattle.wasm_sections.specs.CodeSections.{entry};

use crate::fault::{ModuleError, ModuleFault};
use wasm_encode as encoded;

/// The number of bytes in the shortest encoding of an unsigned number of 32 bits.
pub fn number_len(number: usize) -> usize
    ensures { result ≤ 5 }
{
    match number {
        0..0x80 => 1,
        0x80..0x4000 => 2,
        0x4000..0x20_0000 => 3,
        0x20_0000..0x1000_0000 => 4,
        _ => 5,
    }
}

/// Appends an unsigned number in LEB128, with as few bytes as possible.
///
/// # Errors
///
/// `TooGreat` if it doesn't fit 32 bits; or `Memory`.
pub fn write_number(out: &mut Vec<u8>, number: usize) -> Result<(), ModuleError>
    ensures written { OnOk result (out.new.items ≡ out.old.items ++ short_number number) }
    ensures fits { OnOk result (number < 2 ^ 32) }
    ensures refused { IfErr result IsTooMuch }
{
    if number > u32::MAX as usize {
        return Err(ModuleError {
            fault: ModuleFault::TooGreat,
            at: 0,
        });
    }
    encoded::write_number(out, number as u64)?;
    Ok(())
}

/// Appends a vector of bytes: their number, and the bytes.
///
/// # Errors
///
/// Those of `write_number`.
#[tactic(auto, using(wasm_encode::proofs::Appending::appending))]
pub fn write_bytes(out: &mut Vec<u8>, bytes: &[u8]) -> Result<(), ModuleError>
    ensures written { OnOk result (out.new.items ≡ out.old.items ++ entry bytes.now) }
    ensures refused { IfErr result IsTooMuch }
{
    match write_number(out, bytes.len()) {
        Ok(()) => {}
        Err(error) => return Err(error),
    }
    out.extend_from_slice(bytes)?;
    Ok(())
}
