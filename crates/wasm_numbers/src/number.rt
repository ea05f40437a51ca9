//! Reading numbers: integers in LEB128 (WebAssembly core specification 3.0, binary format, values).

ghost use Rattle.std.specs.Prelude.{◌≡◌, ◌<◌, ◌≤◌, ◌+◌, ◌-◌, ◌*◌, ◌^◌, ℕ, IfOk, IfSome, Some, Ok};
ghost use Rattle.std.specs.Prelude.{pos, ◌≤ℤ◌, ◌<ℤ◌, ◌+ℤ◌, ◌*ℤ◌};
ghost use Rattle.wasm_numbers.specs.Results.{Gives};
ghost use Rattle.wasm_numbers.specs.Reading.{many};
ghost use Rattle.wasm_numbers.specs.Numbers.{unsigned, signed, unsigned_last, signed_last, integer, u32 as a_u32, u64 as a_u64, s32 as an_s32, s64 as an_s64, byte as byte_at, bits as some_bits};

use crate::fault::ReadFault;

/// The value of the last byte of an unsigned number, with this many bits left.
#[inline(always)]
#[tactic(auto, using(crate::proofs::Powers::powers))]
fn last_unsigned(bits: u32, byte: u8) -> Option<u64>
    requires { byte < 128 }
    ensures gives { result ≡ unsigned_last bits byte }
    ensures fits { IfSome result (λ v. v < 2 ^ bits) }
{
    if bits >= 7 {
        Some(byte as u64)
    } else if byte < 1 << bits {
        Some(byte as u64)
    } else {
        None
    }
}

/// The value of the last byte of a signed number, with this many bits left.
#[inline(always)]
#[tactic(auto, using(crate::proofs::Powers::powers))]
fn last_signed(bits: u32, byte: u8) -> Option<i64>
    requires some { 0 < bits }
    requires low { byte < 128 }
    ensures gives { result ≡ signed_last bits byte }
    ensures low { IfSome result (λ v. pos 0 ≤ℤ (v +ℤ pos (2 ^ (bits - 1)))) }
    ensures high { IfSome result (λ v. v <ℤ pos (2 ^ (bits - 1))) }
{
    let half: u8 = if bits >= 7 { 64 } else { 1 << (bits - 1) };
    if byte < 64 {
        if byte < half { Some(byte as i64) } else { None }
    } else if 128 <= byte + half {
        Some(byte as i64 - 128)
    } else {
        None
    }
}

/// The number of `bits` bits with these low seven bits and this number above them.
#[inline(always)]
fn join_unsigned(bits: u32, low: u8, high: u64) -> u64
    requires long { 7 < bits }
    requires wide { bits ≤ 64 }
    requires low { low < 128 }
    requires high { high < 2 ^ (bits - 7) }
    ensures value { result ≡ low + 128 * high }
    ensures fits { result < 2 ^ bits }
{
    low as u64 + 128 * high
}

/// The signed number of `bits` bits with these low seven bits and this number above them.
#[inline(always)]
fn join_signed(bits: u32, low: u8, high: i64) -> i64
    requires long { 7 < bits }
    requires wide { bits ≤ 64 }
    requires low { low < 128 }
    requires least { pos 0 ≤ℤ (high +ℤ pos (2 ^ (bits - 7 - 1))) }
    requires most { high <ℤ pos (2 ^ (bits - 7 - 1)) }
    ensures value { result ≡ pos low +ℤ (pos 128 *ℤ high) }
    ensures low { pos 0 ≤ℤ (result +ℤ pos (2 ^ (bits - 1))) }
    ensures high { result <ℤ pos (2 ^ (bits - 1)) }
{
    let shifted = 128 * high;
    low as i64 + shifted
}

/// Reads an unsigned number of `bits` bits at the front. Returns it and the bytes that follow.
#[tactic(auto, using(crate::proofs::Powers::powers), unfolding(crate::specs::Numbers::integer))]
fn read_unsigned(bits: u32, bytes: &[u8]) -> Result<(u64, &[u8]), ReadFault>
    requires { bits ≤ 64 }
    ensures gives { Gives (λ x. (x.0, x.1.now)) result (integer unsigned bits bytes.now) }
    ensures fits { IfOk result (λ x. x.0 < 2 ^ bits) }
{
    match bytes {
        [] => Err(ReadFault::Truncated),
        [byte, rest @ ..] => {
            if *byte < 128 {
                match last_unsigned(bits, *byte) {
                    Some(value) => Ok((value, rest)),
                    None => Err(ReadFault::BadNumber),
                }
            } else if bits <= 7 {
                Err(ReadFault::BadNumber)
            } else {
                let (high, rest) = read_unsigned(bits - 7, rest)?;
                Ok((join_unsigned(bits, *byte - 128, high), rest))
            }
        }
    }
}

/// Reads a signed number of `bits` bits at the front (WebAssembly core specification 3.0, binary
/// format, values). Returns it and the bytes that follow.
///
/// # Errors
///
/// Those of `read_u32`.
pub fn read_signed(bits: u32, bytes: &[u8]) -> Result<(i64, &[u8]), ReadFault>
    requires some { 0 < bits }
    requires wide { bits ≤ 64 }
    ensures gives { Gives (λ x. (x.0, x.1.now)) result (integer signed bits bytes.now) }
    ensures low { IfOk result (λ x. pos 0 ≤ℤ (x.0 +ℤ pos (2 ^ (bits - 1)))) }
    ensures high { IfOk result (λ x. x.0 <ℤ pos (2 ^ (bits - 1))) }
{
    match bytes {
        [] => Err(ReadFault::Truncated),
        [byte, rest @ ..] => {
            if *byte < 128 {
                match last_signed(bits, *byte) {
                    Some(value) => Ok((value, rest)),
                    None => Err(ReadFault::BadNumber),
                }
            } else if bits <= 7 {
                Err(ReadFault::BadNumber)
            } else {
                let (high, rest) = read_signed(bits - 7, rest)?;
                Ok((join_signed(bits, *byte - 128, high), rest))
            }
        }
    }
}

/// Reads a `u32` at the front, of any number of bytes. Returns it and the bytes that follow.
#[inline(never)]
fn read_u32_of_any_length(bytes: &[u8]) -> Result<(u32, &[u8]), ReadFault>
    ensures { Gives (λ x. (x.0, x.1.now)) result (a_u32 bytes.now) }
{
    if let Some((value, rest)) = read_short_unsigned(bytes) {
        return Ok((value, rest));
    }
    if let Some((value, rest)) = read_longer_unsigned(32, bytes) {
        return Ok((value as u32, rest));
    }
    let (value, rest) = read_unsigned(32, bytes)?;
    Ok((value as u32, rest))
}

/// Reads a `u32` at the front (WebAssembly core specification 3.0, binary format, values). Returns
/// it and the bytes that follow. Fastest for one byte. Allocates nothing.
///
/// # Errors
///
/// `BadNumber` if the number is too long or too great; otherwise `Truncated` if the bytes end
/// inside it.
#[inline(always)]
#[tactic(auto, using(crate::proofs::Powers::powers), unfolding(crate::specs::Numbers::integer))]
pub fn read_u32(bytes: &[u8]) -> Result<(u32, &[u8]), ReadFault>
    ensures { Gives (λ x. (x.0, x.1.now)) result (a_u32 bytes.now) }
{
    if let [byte, rest @ ..] = bytes {
        if *byte < 128 {
            return Ok((*byte as u32, rest));
        }
    }
    read_u32_of_any_length(bytes)
}

/// Reads a `u64` at the front, of any number of bytes. Returns it and the bytes that follow.
#[inline(never)]
fn read_u64_of_any_length(bytes: &[u8]) -> Result<(u64, &[u8]), ReadFault>
    ensures { Gives (λ x. (x.0, x.1.now)) result (a_u64 bytes.now) }
{
    if let Some((value, rest)) = read_short_unsigned(bytes) {
        return Ok((value as u64, rest));
    }
    if let Some((value, rest)) = read_longer_unsigned(64, bytes) {
        return Ok((value, rest));
    }
    read_unsigned(64, bytes)
}

/// Reads a `u64` at the front (WebAssembly core specification 3.0, binary format, values). Returns
/// it and the bytes that follow. Fastest for one byte. Allocates nothing.
///
/// # Errors
///
/// Those of `read_u32`.
#[inline(always)]
#[tactic(auto, using(crate::proofs::Powers::powers), unfolding(crate::specs::Numbers::integer))]
pub fn read_u64(bytes: &[u8]) -> Result<(u64, &[u8]), ReadFault>
    ensures { Gives (λ x. (x.0, x.1.now)) result (a_u64 bytes.now) }
{
    if let [byte, rest @ ..] = bytes {
        if *byte < 128 {
            return Ok((*byte as u64, rest));
        }
    }
    read_u64_of_any_length(bytes)
}

/// Reads an `s32` at the front, of any number of bytes. Returns it and the bytes that follow.
#[inline(never)]
fn read_s32_of_any_length(bytes: &[u8]) -> Result<(i32, &[u8]), ReadFault>
    ensures { Gives (λ x. (x.0, x.1.now)) result (an_s32 bytes.now) }
{
    if let Some((value, rest)) = read_short_s32(bytes) {
        return Ok((value, rest));
    }
    if let Some((value, rest)) = read_longer_signed(32, bytes) {
        return Ok((value as i32, rest));
    }
    let (value, rest) = read_signed(32, bytes)?;
    Ok((value as i32, rest))
}

/// Reads an `s32` at the front (WebAssembly core specification 3.0, binary format, values). Returns
/// it and the bytes that follow. Fastest for one byte. Allocates nothing.
///
/// # Errors
///
/// Those of `read_u32`.
#[inline(always)]
#[tactic(auto, using(crate::proofs::Powers::powers), unfolding(crate::specs::Numbers::integer))]
pub fn read_s32(bytes: &[u8]) -> Result<(i32, &[u8]), ReadFault>
    ensures { Gives (λ x. (x.0, x.1.now)) result (an_s32 bytes.now) }
{
    if let [byte, rest @ ..] = bytes {
        if *byte < 64 {
            return Ok((*byte as i32, rest));
        }
        if *byte < 128 {
            return Ok((*byte as i32 - 128, rest));
        }
    }
    read_s32_of_any_length(bytes)
}

/// Reads an `s64` at the front, of any number of bytes. Returns it and the bytes that follow.
#[inline(never)]
fn read_s64_of_any_length(bytes: &[u8]) -> Result<(i64, &[u8]), ReadFault>
    ensures { Gives (λ x. (x.0, x.1.now)) result (an_s64 bytes.now) }
{
    if let Some((value, rest)) = read_short_s64(bytes) {
        return Ok((value, rest));
    }
    if let Some((value, rest)) = read_longer_signed(64, bytes) {
        return Ok((value, rest));
    }
    read_signed(64, bytes)
}

/// Reads an `s64` at the front (WebAssembly core specification 3.0, binary format, values). Returns
/// it and the bytes that follow. Fastest for one byte. Allocates nothing.
///
/// # Errors
///
/// Those of `read_u32`.
#[inline(always)]
#[tactic(auto, using(crate::proofs::Powers::powers), unfolding(crate::specs::Numbers::integer))]
pub fn read_s64(bytes: &[u8]) -> Result<(i64, &[u8]), ReadFault>
    ensures { Gives (λ x. (x.0, x.1.now)) result (an_s64 bytes.now) }
{
    if let [byte, rest @ ..] = bytes {
        if *byte < 64 {
            return Ok((*byte as i64, rest));
        }
        if *byte < 128 {
            return Ok((*byte as i64 - 128, rest));
        }
    }
    read_s64_of_any_length(bytes)
}

/// Reads an unsigned number of up to three bytes at the front, if there is one (WebAssembly core
/// specification 3.0, binary format, values). Returns it and the bytes that follow. The number is
/// the same as a `u32` and as a `u64`.
#[inline(always)]
fn read_short_unsigned(bytes: &[u8]) -> Option<(u32, &[u8])>
    ensures short { IfSome result (λ x. a_u32 bytes.now ≡ Ok (x.0, x.1.now)) }
    ensures long { IfSome result (λ x. a_u64 bytes.now ≡ Ok (x.0, x.1.now)) }
{
    let [first, rest @ ..] = bytes else {
        return None;
    };
    if *first < 128 {
        return Some((*first as u32, rest));
    }
    let low = *first as u32 - 128;
    let [second, rest @ ..] = rest else {
        return None;
    };
    if *second < 128 {
        return Some((low + 128 * *second as u32, rest));
    }
    let middle = *second as u32 - 128;
    let [third, rest @ ..] = rest else {
        return None;
    };
    if *third < 128 {
        return Some((low + 128 * (middle + 128 * *third as u32), rest));
    }
    None
}

/// The value of the last byte of a signed number, with seven bits or more left.
#[inline(always)]
fn wide_last_signed(byte: u8) -> i64
    requires { byte < 128 }
    ensures gives { (bits : ℕ) → 7 ≤ bits → signed_last bits byte ≡ Some result }
    ensures low { pos 0 ≤ℤ (result +ℤ pos 64) }
    ensures high { result <ℤ pos 64 }
{
    if byte < 64 {
        byte as i64
    } else {
        byte as i64 - 128
    }
}

/// Reads a signed number of up to three bytes at the front, if there is one. Returns it and the
/// bytes that follow.
#[inline(always)]
fn read_short_signed(bytes: &[u8]) -> Option<(i64, &[u8])>
    ensures short { IfSome result (λ x. an_s32 bytes.now ≡ Ok (x.0, x.1.now)) }
    ensures long { IfSome result (λ x. an_s64 bytes.now ≡ Ok (x.0, x.1.now)) }
    ensures low { IfSome result (λ x. pos 0 ≤ℤ (x.0 +ℤ pos (2 ^ 31))) }
    ensures high { IfSome result (λ x. x.0 <ℤ pos (2 ^ 31)) }
{
    let [first, rest @ ..] = bytes else {
        return None;
    };
    if *first < 128 {
        return Some((wide_last_signed(*first), rest));
    }
    let [second, rest @ ..] = rest else {
        return None;
    };
    if *second < 128 {
        let high = wide_last_signed(*second);
        return Some((join_signed(14, *first - 128, high), rest));
    }
    let [third, rest @ ..] = rest else {
        return None;
    };
    if *third < 128 {
        let high = join_signed(14, *second - 128, wide_last_signed(*third));
        return Some((join_signed(21, *first - 128, high), rest));
    }
    None
}

/// Reads an `s32` of up to three bytes at the front, if there is one (WebAssembly core
/// specification 3.0, binary format, values). Returns it and the bytes that follow.
#[inline(always)]
fn read_short_s32(bytes: &[u8]) -> Option<(i32, &[u8])>
    ensures { IfSome result (λ x. an_s32 bytes.now ≡ Ok (x.0, x.1.now)) }
{
    let (value, rest) = read_short_signed(bytes)?;
    Some((value as i32, rest))
}

/// Reads an `s64` of up to three bytes at the front, if there is one (WebAssembly core
/// specification 3.0, binary format, values). Returns it and the bytes that follow.
#[inline(always)]
fn read_short_s64(bytes: &[u8]) -> Option<(i64, &[u8])>
    ensures { IfSome result (λ x. an_s64 bytes.now ≡ Ok (x.0, x.1.now)) }
{
    read_short_signed(bytes)
}

/// Reads an unsigned number of one or two bytes at the front, if there is one of this many bits.
/// Returns it and the bytes that follow.
#[inline(always)]
fn read_pair_unsigned(bits: u32, bytes: &[u8]) -> Option<(u64, &[u8])>
    requires long { 7 < bits }
    requires wide { bits ≤ 64 }
    ensures gives { IfSome result (λ x. integer unsigned bits bytes.now ≡ Ok (x.0, x.1.now)) }
    ensures fits { IfSome result (λ x. x.0 < 2 ^ bits) }
{
    let [first, rest @ ..] = bytes else {
        return None;
    };
    if *first < 128 {
        let value = last_unsigned(bits, *first)?;
        return Some((value, rest));
    }
    let [second, rest @ ..] = rest else {
        return None;
    };
    if *second < 128 {
        let high = last_unsigned(bits - 7, *second)?;
        return Some((join_unsigned(bits, *first - 128, high), rest));
    }
    None
}

/// Reads an unsigned number of four or five bytes at the front, if there is one of this many bits.
/// Returns it and the bytes that follow.
#[inline(always)]
fn read_longer_unsigned(bits: u32, bytes: &[u8]) -> Option<(u64, &[u8])>
    requires long { 28 < bits }
    requires wide { bits ≤ 64 }
    ensures gives { IfSome result (λ x. integer unsigned bits bytes.now ≡ Ok (x.0, x.1.now)) }
    ensures fits { IfSome result (λ x. x.0 < 2 ^ bits) }
{
    let [first, rest @ ..] = bytes else {
        return None;
    };
    let [second, rest @ ..] = rest else {
        return None;
    };
    let [third, rest @ ..] = rest else {
        return None;
    };
    if *first < 128 || *second < 128 || *third < 128 {
        return None;
    }
    let (high, rest) = read_pair_unsigned(bits - 7 - 7 - 7, rest)?;
    let high = join_unsigned(bits - 7 - 7, *third - 128, high);
    let high = join_unsigned(bits - 7, *second - 128, high);
    Some((join_unsigned(bits, *first - 128, high), rest))
}

/// Reads a signed number of one or two bytes at the front, if there is one of this many bits.
/// Returns it and the bytes that follow.
#[inline(always)]
fn read_pair_signed(bits: u32, bytes: &[u8]) -> Option<(i64, &[u8])>
    requires long { 7 < bits }
    requires wide { bits ≤ 64 }
    ensures gives { IfSome result (λ x. integer signed bits bytes.now ≡ Ok (x.0, x.1.now)) }
    ensures low { IfSome result (λ x. pos 0 ≤ℤ (x.0 +ℤ pos (2 ^ (bits - 1)))) }
    ensures high { IfSome result (λ x. x.0 <ℤ pos (2 ^ (bits - 1))) }
{
    let [first, rest @ ..] = bytes else {
        return None;
    };
    if *first < 128 {
        let value = last_signed(bits, *first)?;
        return Some((value, rest));
    }
    let [second, rest @ ..] = rest else {
        return None;
    };
    if *second < 128 {
        let high = last_signed(bits - 7, *second)?;
        return Some((join_signed(bits, *first - 128, high), rest));
    }
    None
}

/// Reads a signed number of four or five bytes at the front, if there is one of this many bits.
/// Returns it and the bytes that follow.
#[inline(always)]
fn read_longer_signed(bits: u32, bytes: &[u8]) -> Option<(i64, &[u8])>
    requires long { 28 < bits }
    requires wide { bits ≤ 64 }
    ensures gives { IfSome result (λ x. integer signed bits bytes.now ≡ Ok (x.0, x.1.now)) }
    ensures low { IfSome result (λ x. pos 0 ≤ℤ (x.0 +ℤ pos (2 ^ (bits - 1)))) }
    ensures high { IfSome result (λ x. x.0 <ℤ pos (2 ^ (bits - 1))) }
{
    let [first, rest @ ..] = bytes else {
        return None;
    };
    let [second, rest @ ..] = rest else {
        return None;
    };
    let [third, rest @ ..] = rest else {
        return None;
    };
    if *first < 128 || *second < 128 || *third < 128 {
        return None;
    }
    let (high, rest) = read_pair_signed(bits - 7 - 7 - 7, rest)?;
    let high = join_signed(bits - 7 - 7, *third - 128, high);
    let high = join_signed(bits - 7, *second - 128, high);
    Some((join_signed(bits, *first - 128, high), rest))
}

#[inline(never)]
fn long_u32_at_front(bytes: &[u8]) -> Option<(u32, &[u8])>
    ensures { IfSome result (λ x. a_u32 bytes.now ≡ Ok (x.0, x.1.now)) }
{
    if let Some((value, rest)) = read_longer_unsigned(32, bytes) {
        return Some((value as u32, rest));
    }
    match read_unsigned(32, bytes) {
        Ok((value, rest)) => Some((value as u32, rest)),
        Err(_) => None,
    }
}

/// The `u32` at the front, if there is one, and the bytes that follow (WebAssembly core
/// specification 3.0, binary format, values). Fastest for up to three bytes.
#[inline(always)]
pub fn u32_at_front(bytes: &[u8]) -> Option<(u32, &[u8])>
    ensures { IfSome result (λ x. a_u32 bytes.now ≡ Ok (x.0, x.1.now)) }
{
    match read_short_unsigned(bytes) {
        Some((value, rest)) => Some((value, rest)),
        None => long_u32_at_front(bytes),
    }
}

#[inline(never)]
fn long_u64_at_front(bytes: &[u8]) -> Option<(u64, &[u8])>
    ensures { IfSome result (λ x. a_u64 bytes.now ≡ Ok (x.0, x.1.now)) }
{
    if let Some((value, rest)) = read_longer_unsigned(64, bytes) {
        return Some((value, rest));
    }
    match read_unsigned(64, bytes) {
        Ok((value, rest)) => Some((value, rest)),
        Err(_) => None,
    }
}

/// The `u64` at the front, if there is one, and the bytes that follow (WebAssembly core
/// specification 3.0, binary format, values). Fastest for up to three bytes.
#[inline(always)]
pub fn u64_at_front(bytes: &[u8]) -> Option<(u64, &[u8])>
    ensures { IfSome result (λ x. a_u64 bytes.now ≡ Ok (x.0, x.1.now)) }
{
    match read_short_unsigned(bytes) {
        Some((value, rest)) => Some((value as u64, rest)),
        None => long_u64_at_front(bytes),
    }
}

#[inline(never)]
fn long_s32_at_front(bytes: &[u8]) -> Option<(i32, &[u8])>
    ensures { IfSome result (λ x. an_s32 bytes.now ≡ Ok (x.0, x.1.now)) }
{
    if let Some((value, rest)) = read_longer_signed(32, bytes) {
        return Some((value as i32, rest));
    }
    match read_signed(32, bytes) {
        Ok((value, rest)) => Some((value as i32, rest)),
        Err(_) => None,
    }
}

/// The `s32` at the front, if there is one, and the bytes that follow (WebAssembly core
/// specification 3.0, binary format, values). Fastest for up to three bytes.
#[inline(always)]
pub fn s32_at_front(bytes: &[u8]) -> Option<(i32, &[u8])>
    ensures { IfSome result (λ x. an_s32 bytes.now ≡ Ok (x.0, x.1.now)) }
{
    match read_short_s32(bytes) {
        Some((value, rest)) => Some((value, rest)),
        None => long_s32_at_front(bytes),
    }
}

#[inline(never)]
fn long_s64_at_front(bytes: &[u8]) -> Option<(i64, &[u8])>
    ensures { IfSome result (λ x. an_s64 bytes.now ≡ Ok (x.0, x.1.now)) }
{
    if let Some((value, rest)) = read_longer_signed(64, bytes) {
        return Some((value, rest));
    }
    match read_signed(64, bytes) {
        Ok((value, rest)) => Some((value, rest)),
        Err(_) => None,
    }
}

/// The `s64` at the front, if there is one, and the bytes that follow (WebAssembly core
/// specification 3.0, binary format, values). Fastest for up to three bytes.
#[inline(always)]
pub fn s64_at_front(bytes: &[u8]) -> Option<(i64, &[u8])>
    ensures { IfSome result (λ x. an_s64 bytes.now ≡ Ok (x.0, x.1.now)) }
{
    match read_short_s64(bytes) {
        Some((value, rest)) => Some((value, rest)),
        None => long_s64_at_front(bytes),
    }
}

/// Reads a byte at the front. Returns it and the bytes that follow.
///
/// # Errors
///
/// `Truncated` if there is no byte.
pub fn read_byte(bytes: &[u8]) -> Result<(u8, &[u8]), ReadFault>
    ensures { Gives (λ x. (x.0, x.1.now)) result (byte_at bytes.now) }
{
    match bytes {
        [] => Err(ReadFault::Truncated),
        [byte, rest @ ..] => Ok((*byte, rest)),
    }
}

/// The number of `count` bytes with this low byte and this number above it.
fn join_bytes(count: u32, low: u8, high: u128) -> u128
    requires some { 0 < count }
    requires few { count ≤ 16 }
    requires high { high < 2 ^ (8 * (count - 1)) }
    ensures value { result ≡ low + 256 * high }
    ensures fits { result < 2 ^ (8 * count) }
{
    low as u128 + 256 * high
}

/// Reads `count` bytes at the front as one number, the least significant byte first. Returns it and
/// the bytes that follow.
#[tactic(auto, using(crate::proofs::BitsLaws::reading))]
fn read_bits(count: u32, bytes: &[u8]) -> Result<(u128, &[u8]), ReadFault>
    requires { count ≤ 16 }
    ensures gives { Gives (λ x. (x.0, x.1.now)) result (some_bits count bytes.now) }
    ensures fits { IfOk result (λ x. x.0 < 2 ^ (8 * count)) }
{
    if count == 0 {
        return Ok((0, bytes));
    }
    let (low, rest) = read_byte(bytes)?;
    let (high, rest) = read_bits(count - 1, rest)?;
    Ok((join_bytes(count, low, high), rest))
}

/// The number of four bytes, the least significant one first.
#[inline(always)]
fn number_of_four(a: u8, b: u8, c: u8, d: u8) -> u32
    ensures { result ≡ a + 256 * (b + 256 * (c + 256 * d)) }
{
    a as u32 + 256 * (b as u32 + 256 * (c as u32 + 256 * d as u32))
}

/// Reads the bits of an `f32` at the front (WebAssembly core specification 3.0, binary format,
/// values). Returns them and the bytes that follow.
///
/// # Errors
///
/// `Truncated` if there are fewer than 4 bytes.
#[tactic(auto, unfolding(crate::specs::Reading::many))]
pub fn read_f32(bytes: &[u8]) -> Result<(u32, &[u8]), ReadFault>
    ensures { Gives (λ x. (x.0, x.1.now)) result (some_bits 4 bytes.now) }
{
    match bytes {
        [a, b, c, d, rest @ ..] => Ok((number_of_four(*a, *b, *c, *d), rest)),
        _ => Err(ReadFault::Truncated),
    }
}

/// Reads the bits of an `f64` at the front (WebAssembly core specification 3.0, binary format,
/// values). Returns them and the bytes that follow.
///
/// # Errors
///
/// `Truncated` if there are fewer than 8 bytes.
#[tactic(auto, unfolding(crate::specs::Reading::many))]
pub fn read_f64(bytes: &[u8]) -> Result<(u64, &[u8]), ReadFault>
    ensures { Gives (λ x. (x.0, x.1.now)) result (some_bits 8 bytes.now) }
{
    match bytes {
        [a, b, c, d, e, f, g, h, rest @ ..] => {
            let low = number_of_four(*a, *b, *c, *d) as u64;
            let high = number_of_four(*e, *f, *g, *h) as u64;
            Ok((low + (1 << 32) * high, rest))
        }
        _ => Err(ReadFault::Truncated),
    }
}

/// Reads the bits of a `v128` at the front, the least significant byte first. Returns them and the
/// bytes that follow.
///
/// # Errors
///
/// `Truncated` if there are fewer than 16 bytes.
pub fn read_v128(bytes: &[u8]) -> Result<(u128, &[u8]), ReadFault>
    ensures { Gives (λ x. (x.0, x.1.now)) result (some_bits 16 bytes.now) }
{
    read_bits(16, bytes)
}

/// Reads the sixteen lanes of `i8x16.shuffle` at the front, one byte each. Returns them and the
/// bytes that follow.
///
/// # Errors
///
/// `Truncated` if there are fewer than 16 bytes.
#[tactic(auto, using(crate::proofs::Lanes::reading_lanes))]
pub fn read_lanes(bytes: &[u8]) -> Result<(&[u8; 16], &[u8]), ReadFault>
    ensures { Gives (λ x. (x.0.now, x.1.now)) result (many byte_at 16 bytes.now) }
{
    match bytes.split_first_chunk::<16>() {
        Some((lanes, rest)) => Ok((lanes, rest)),
        None => Err(ReadFault::Truncated),
    }
}
