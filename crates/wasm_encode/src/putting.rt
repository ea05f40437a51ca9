//! Appending bytes to a list that has room for them: integers in LEB128 (WebAssembly core
//! specification 3.0, binary format, values), with as few bytes as possible.
ghost use Rattle.std.specs.Prelude.{◌≡◌, ◌<◌, ◌≤◌, ◌+◌, ◌++◌, ◌∷◌, [], vec_len, vec_capacity};
ghost use Rattle.wasm_operators.specs.AccessOperations.{access_of};
ghost use Rattle.wasm_operators.specs.Shortest.{short_unsigned, short_number, short_signed, short_integer, short_access, short_bits};

use crate::number::split_digit;
use wasm_operators::RawMemArg;

/// Appends a byte. Requires room for it.
#[inline(always)]
pub fn put_byte(out: &mut Vec<u8>, byte: u8)
    requires { vec_len out.old < vec_capacity out.old }
    ensures items { out.new.items ≡ out.old.items ++ byte ∷ [] }
    ensures len { vec_len out.new ≡ vec_len out.old + 1 }
    ensures capacity { vec_capacity out.new ≡ vec_capacity out.old }
{
    out.push_reserved(byte);
}

/// Appends the shortest spelling of a number, with at most `more` bytes before the last. Requires
/// room for them.
#[tactic(auto, using(crate::proofs::Appending::appending), unfolding(wasm_operators::specs::Shortest::short_unsigned))]
fn put_unsigned(out: &mut Vec<u8>, more: u32, n: u64)
    requires { vec_len out.old + more < vec_capacity out.old }
    ensures items { out.new.items ≡ out.old.items ++ short_unsigned more n }
    ensures len { vec_len out.new ≤ vec_len out.old + more + 1 }
    ensures capacity { vec_capacity out.new ≡ vec_capacity out.old }
{
    if more == 0 {
        return put_byte(out, (n % 128) as u8);
    }
    if n < 128 {
        return put_byte(out, n as u8);
    }
    put_byte(out, (n % 128) as u8 + 128);
    put_unsigned(out, more - 1, n / 128)
}

/// Appends the shortest spelling of an unsigned number in LEB128 (WebAssembly core specification
/// 3.0, binary format, values). Requires room for ten bytes.
#[inline(always)]
#[tactic(auto, unfolding(wasm_operators::specs::Shortest::short_unsigned))]
pub fn put_number(out: &mut Vec<u8>, n: u64)
    requires { vec_len out.old + 10 ≤ vec_capacity out.old }
    ensures items { out.new.items ≡ out.old.items ++ short_number n }
    ensures len { vec_len out.new ≤ vec_len out.old + 10 }
    ensures capacity { vec_capacity out.new ≡ vec_capacity out.old }
{
    if n <= 127 {
        return put_byte(out, n as u8);
    }
    put_unsigned(out, 9, n)
}

/// Appends the shortest spelling of a signed number, with at most `more` bytes before the last.
/// Requires room for them.
#[tactic(auto, using(crate::proofs::Appending::appending), unfolding(wasm_operators::specs::Shortest::short_signed))]
fn put_signed(out: &mut Vec<u8>, more: u32, z: i64)
    requires { vec_len out.old + more < vec_capacity out.old }
    ensures items { out.new.items ≡ out.old.items ++ short_signed more z }
    ensures len { vec_len out.new ≤ vec_len out.old + more + 1 }
    ensures capacity { vec_capacity out.new ≡ vec_capacity out.old }
{
    let (low, high) = split_digit(z);
    if more == 0 {
        return put_byte(out, low);
    }
    if z >= -64 && z < 64 {
        return put_byte(out, low);
    }
    put_byte(out, low + 128);
    put_signed(out, more - 1, high)
}

/// Appends the shortest spelling of a signed number in LEB128 (WebAssembly core specification 3.0,
/// binary format, values). Requires room for ten bytes.
#[inline(always)]
#[tactic(auto, using(crate::proofs::Appending::appending), unfolding(wasm_operators::specs::Shortest::short_signed))]
pub fn put_integer(out: &mut Vec<u8>, z: i64)
    requires { vec_len out.old + 10 ≤ vec_capacity out.old }
    ensures items { out.new.items ≡ out.old.items ++ short_integer z }
    ensures len { vec_len out.new ≤ vec_len out.old + 10 }
    ensures capacity { vec_capacity out.new ≡ vec_capacity out.old }
{
    if z >= -64 && z < 64 {
        let (low, _high) = split_digit(z);
        return put_byte(out, low);
    }
    put_signed(out, 9, z)
}

/// Appends a memory argument. Memory 0 has the short form of the flags. Requires room for 30 bytes.
#[inline(always)]
#[tactic(auto, using(crate::proofs::Appending::appending), unfolding(wasm_operators::specs::Shortest::short_access))]
pub fn put_memarg(out: &mut Vec<u8>, memarg: RawMemArg)
    requires { vec_len out.old + 30 ≤ vec_capacity out.old }
    ensures items { out.new.items ≡ out.old.items ++ short_access (access_of memarg) }
    ensures len { vec_len out.new ≤ vec_len out.old + 30 }
    ensures capacity { vec_capacity out.new ≡ vec_capacity out.old }
{
    if memarg.memory == 0 {
        put_number(out, memarg.exponent as u64);
        return put_number(out, memarg.offset);
    }
    put_number(out, memarg.exponent as u64 + 64);
    put_number(out, memarg.memory as u64);
    put_number(out, memarg.offset)
}

/// Appends a number as `count` bytes, the least significant first. Requires room for them.
#[tactic(auto, using(crate::proofs::Appending::appending))]
pub fn put_bits(out: &mut Vec<u8>, count: u32, bits: u64)
    requires { vec_len out.old + count ≤ vec_capacity out.old }
    ensures items { out.new.items ≡ out.old.items ++ short_bits count bits }
    ensures len { vec_len out.new ≤ vec_len out.old + count }
    ensures capacity { vec_capacity out.new ≡ vec_capacity out.old }
{
    if count == 0 {
        return;
    }
    put_byte(out, (bits % 256) as u8);
    put_bits(out, count - 1, bits / 256)
}
