//! Memory arguments, with alignments as exponents.
ghost use Rattle.std.specs.Prelude.{◌≡◌, ◌<◌};
ghost use Rattle.wasm_body.specs.FlatText.{exponent_of};

use walrus_ir::MemArg;
use wasm_operators::RawMemArg;

/// The exponent of the greatest power of two that is at most the alignment; 0 if there is none.
fn exponent_of(align: u32) -> u32
    ensures { (result ≡ exponent_of align) × (result < 32) }
{
    align.checked_ilog2().unwrap_or(0)
}

/// A memory argument for the memory with this number, with the alignment as an exponent.
pub fn memory_argument(arg: MemArg, memory: u32) -> RawMemArg
    ensures { (result.exponent ≡ exponent_of arg.align) × (result.exponent < 32)
        × (result.memory ≡ memory) × (result.offset ≡ arg.offset) }
{
    RawMemArg {
        exponent: exponent_of(arg.align),
        memory,
        offset: arg.offset,
    }
}
