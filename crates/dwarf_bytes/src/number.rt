//! Reading numbers.

ghost use Rattle.std.specs.Prelude.{◌≡◌, ◌<◌, ◌^◌, ◌*◌, IfOk};
ghost use Rattle.wasm_numbers.specs.Results.{Gives};
ghost use Rattle.dwarf_bytes.specs.Numbers.{size_in_bytes, fixed_number, unsigned_leb, signed_leb, offset, initial_length, part_and_rest};

use crate::fault::DebugFault;
use crate::size::{Format, Size};

/// Reads a byte at the front. Returns it and the bytes that follow.
///
/// # Errors
///
/// `Truncated` if there is none.
#[tactic(auto, unfolding(wasm_numbers::specs::Reading::many))]
pub fn read_u8(bytes: &[u8]) -> Result<(u8, &[u8]), DebugFault>
    ensures { Gives (λ x. (x.0, x.1.now)) result (fixed_number 1 bytes.now) }
{
    let [byte, rest @ ..] = bytes else {
        return Err(DebugFault::Truncated);
    };
    Ok((*byte, rest))
}

/// Reads a number of two bytes at the front. Returns it and the bytes that follow.
///
/// # Errors
///
/// `Truncated` if there are fewer bytes.
#[tactic(auto, unfolding(wasm_numbers::specs::Reading::many))]
pub fn read_u16(bytes: &[u8]) -> Result<(u16, &[u8]), DebugFault>
    ensures { Gives (λ x. (x.0, x.1.now)) result (fixed_number 2 bytes.now) }
{
    let [low, high, rest @ ..] = bytes else {
        return Err(DebugFault::Truncated);
    };
    Ok((*low as u16 + 256 * *high as u16, rest))
}

/// Reads a number of three bytes at the front. Returns it and the bytes that follow.
#[tactic(auto, unfolding(wasm_numbers::specs::Reading::many))]
fn read_u24(bytes: &[u8]) -> Result<(u32, &[u8]), DebugFault>
    ensures { Gives (λ x. (x.0, x.1.now)) result (fixed_number 3 bytes.now) }
{
    let [low, middle, high, rest @ ..] = bytes else {
        return Err(DebugFault::Truncated);
    };
    Ok((
        *low as u32 + 256 * (*middle as u32 + 256 * *high as u32),
        rest,
    ))
}

/// Reads a number of four bytes at the front. Returns it and the bytes that follow.
///
/// # Errors
///
/// `Truncated` if there are fewer bytes.
pub fn read_u32(bytes: &[u8]) -> Result<(u32, &[u8]), DebugFault>
    ensures { Gives (λ x. (x.0, x.1.now)) result (fixed_number 4 bytes.now) }
{
    let (number, rest) = wasm_numbers::read_f32(bytes)?;
    Ok((number, rest))
}

/// Reads a number of eight bytes at the front. Returns it and the bytes that follow.
///
/// # Errors
///
/// `Truncated` if there are fewer bytes.
pub fn read_u64(bytes: &[u8]) -> Result<(u64, &[u8]), DebugFault>
    ensures { Gives (λ x. (x.0, x.1.now)) result (fixed_number 8 bytes.now) }
{
    let (number, rest) = wasm_numbers::read_f64(bytes)?;
    Ok((number, rest))
}

/// Reads a number of this size at the front. Returns it and the bytes that follow.
///
/// # Errors
///
/// `Truncated` if there are fewer bytes.
pub fn read_sized(size: Size, bytes: &[u8]) -> Result<(u64, &[u8]), DebugFault>
    ensures { Gives (λ x. (x.0, x.1.now)) result (fixed_number (size_in_bytes size) bytes.now) }
{
    match size {
        Size::One => {
            let (number, rest) = read_u8(bytes)?;
            Ok((number as u64, rest))
        }
        Size::Two => {
            let (number, rest) = read_u16(bytes)?;
            Ok((number as u64, rest))
        }
        Size::Three => {
            let (number, rest) = read_u24(bytes)?;
            Ok((number as u64, rest))
        }
        Size::Four => {
            let (number, rest) = read_u32(bytes)?;
            Ok((number as u64, rest))
        }
        Size::Eight => read_u64(bytes),
    }
}

/// Reads an unsigned LEB128 number of at most 64 bits at the front (DWARF 5, section 7.6). Returns it and the bytes that
/// follow.
///
/// # Errors
///
/// `BadNumber` if the number is too long or too great; otherwise `Truncated` if the bytes end inside it.
pub fn read_unsigned(bytes: &[u8]) -> Result<(u64, &[u8]), DebugFault>
    ensures { Gives (λ x. (x.0, x.1.now)) result (unsigned_leb bytes.now) }
{
    let (number, rest) = wasm_numbers::read_u64(bytes)?;
    Ok((number, rest))
}

/// Reads a signed LEB128 number of at most 64 bits at the front (DWARF 5, section 7.6). Returns it and the bytes that
/// follow.
///
/// # Errors
///
/// Those of `read_unsigned`.
pub fn read_signed(bytes: &[u8]) -> Result<(i64, &[u8]), DebugFault>
    ensures { Gives (λ x. (x.0, x.1.now)) result (signed_leb bytes.now) }
{
    let (number, rest) = wasm_numbers::read_s64(bytes)?;
    Ok((number, rest))
}

/// Reads an offset of this format at the front (DWARF 5, section 7.4). Returns it and the bytes that follow.
///
/// # Errors
///
/// `Truncated` if there are fewer bytes.
pub fn read_offset(format: Format, bytes: &[u8]) -> Result<(u64, &[u8]), DebugFault>
    ensures { Gives (λ x. (x.0, x.1.now)) result (offset format bytes.now) }
{
    read_sized(format.offset_size(), bytes)
}

/// Reads the length at the beginning of a unit or a table (DWARF 5, section 7.4). Returns the format that it shows, the
/// length, and the bytes that follow.
///
/// # Errors
///
/// `BadLength` if the standard reserves the length; `Truncated` if the bytes end inside it.
pub fn read_initial_length(bytes: &[u8]) -> Result<((Format, u64), &[u8]), DebugFault>
    ensures { Gives (λ x. (x.0, x.1.now)) result (initial_length bytes.now) }
{
    let (short, rest) = read_u32(bytes)?;
    if short < 0xffff_fff0 {
        return Ok(((Format::Dwarf32, short as u64), rest));
    }
    if short != 0xffff_ffff {
        return Err(DebugFault::BadLength);
    }
    let (long, rest) = read_u64(rest)?;
    Ok(((Format::Dwarf64, long), rest))
}

/// The first bytes, of this number, and those that follow.
///
/// # Errors
///
/// `BadLength` if there are fewer.
pub fn split(bytes: &[u8], count: u64) -> Result<(&[u8], &[u8]), DebugFault>
    ensures { Gives (λ x. (x.0.now, x.1.now)) result (part_and_rest count bytes.now) }
{
    if count <= bytes.len() as u64 {
        Ok(bytes.split_at(count as usize))
    } else {
        Err(DebugFault::BadLength)
    }
}
