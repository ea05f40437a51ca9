//! Writing numbers: integers in LEB128 (WebAssembly core specification 3.0, binary format, values),
//! with as few bytes as possible.

ghost use Rattle.std.specs.Prelude.{◌≡◌, ◌<◌, ◌^◌, ◌++◌, ◌∷◌, [], OnOk, take, length, ◌<ℤ◌, pos, negsuc};
ghost use Rattle.wasm_operators.specs.Shortest.{short_unsigned, short_number, low_bits, high_bits, short_signed, short_integer, short_bits};

use std::alloc::AllocError;

/// Appends a byte.
#[inline(always)]
pub(crate) fn write_byte(out: &mut Vec<u8>, byte: u8) -> Result<(), AllocError>
    ensures ok { OnOk result (out.new.items ≡ out.old.items ++ byte ∷ []) }
    ensures unchanged { take (length out.old.items) out.new.items ≡ out.old.items }
{
    out.push(byte)?;
    Ok(())
}

/// Appends the shortest spelling of a number, with at most `more` bytes before the last.
#[tactic(auto, using(crate::proofs::Appending::appending), unfolding(wasm_operators::specs::Shortest::short_unsigned))]
fn write_unsigned(out: &mut Vec<u8>, more: u32, n: u64) -> Result<(), AllocError>
    ensures ok { OnOk result (out.new.items ≡ out.old.items ++ short_unsigned more n) }
    ensures unchanged { take (length out.old.items) out.new.items ≡ out.old.items }
{
    if more == 0 {
        return write_byte(out, (n % 128) as u8);
    }
    if n < 128 {
        return write_byte(out, n as u8);
    }
    write_byte(out, (n % 128) as u8 + 128)?;
    write_unsigned(out, more - 1, n / 128)
}

/// Appends the shortest spelling of an unsigned number in LEB128 (WebAssembly core specification
/// 3.0, binary format, values).
///
/// # Errors
///
/// Out of memory. The bytes that were in `out` before are unchanged, and some bytes of the number
/// may follow them.
#[inline(always)]
#[tactic(auto, unfolding(wasm_operators::specs::Shortest::short_unsigned))]
pub fn write_number(out: &mut Vec<u8>, n: u64) -> Result<(), AllocError>
    ensures ok { OnOk result (out.new.items ≡ out.old.items ++ short_number n) }
    ensures unchanged { take (length out.old.items) out.new.items ≡ out.old.items }
{
    if n <= 127 {
        return write_byte(out, n as u8);
    }
    write_unsigned(out, 9, n)
}

/// The distance of a negative number from -1.
#[inline(always)]
fn flip(z: i64) -> u64
    requires { z <ℤ pos 0 }
    ensures flipped { z ≡ negsuc result }
    ensures small { result < 2 ^ 63 }
{
    (-(z + 1)) as u64
}

/// The number at this distance below -1.
#[inline(always)]
fn below(n: u64) -> i64
    requires { n < 2 ^ 63 }
    ensures { result ≡ negsuc n }
{
    -(n as i64) - 1
}

/// The low seven bits of a number, and the number of the other bits.
#[inline(always)]
pub(crate) fn split_digit(z: i64) -> (u8, i64)
    ensures low { result.0 ≡ low_bits z }
    ensures bits { result.0 < 128 }
    ensures high { result.1 ≡ high_bits z }
{
    if z >= 0 {
        ((z % 128) as u8, z / 128)
    } else {
        let flipped = flip(z);
        (127 - (flipped % 128) as u8, below(flipped / 128))
    }
}

/// Appends the shortest spelling of a signed number, with at most `more` bytes before the last.
#[tactic(auto, using(crate::proofs::Appending::appending), unfolding(wasm_operators::specs::Shortest::short_signed))]
fn write_signed(out: &mut Vec<u8>, more: u32, z: i64) -> Result<(), AllocError>
    ensures ok { OnOk result (out.new.items ≡ out.old.items ++ short_signed more z) }
    ensures unchanged { take (length out.old.items) out.new.items ≡ out.old.items }
{
    let (low, high) = split_digit(z);
    if more == 0 {
        return write_byte(out, low);
    }
    if z >= -64 && z < 64 {
        return write_byte(out, low);
    }
    write_byte(out, low + 128)?;
    write_signed(out, more - 1, high)
}

/// Appends the shortest spelling of a signed number.
pub(crate) fn write_integer(out: &mut Vec<u8>, z: i64) -> Result<(), AllocError>
    ensures ok { OnOk result (out.new.items ≡ out.old.items ++ short_integer z) }
    ensures unchanged { take (length out.old.items) out.new.items ≡ out.old.items }
{
    write_signed(out, 9, z)
}

/// Appends a number as `count` bytes, the least significant first.
#[tactic(auto, using(crate::proofs::Appending::appending))]
pub(crate) fn write_bits(out: &mut Vec<u8>, count: u32, bits: u128) -> Result<(), AllocError>
    ensures ok { OnOk result (out.new.items ≡ out.old.items ++ short_bits count bits) }
    ensures unchanged { take (length out.old.items) out.new.items ≡ out.old.items }
{
    if count == 0 {
        return Ok(());
    }
    write_byte(out, (bits % 256) as u8)?;
    write_bits(out, count - 1, bits / 256)
}
