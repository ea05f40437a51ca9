//! Unpacking: all pairs at once, or some after others.
ghost use Rattle.std.specs.Prelude.{◌≡◌, ◌<◌, ◌+◌, ◌-◌, ◌%◌, ◌^◌, ℕ, List, ◌++◌, length, take, drop, OnOk};
ghost use Rattle.std.specs.List.{AllByRecursion};
ghost use Rattle.wasm_operators.specs.Shortest.{short_number};
ghost use Rattle.location_pairs.specs.PackedPairs.{step_to, FitPair, ArePackable, packed_pairs};
ghost use Rattle.location_pairs.specs.PackedPieces.{HasLeft};

use crate::packing::Last;
use std::alloc::AllocError;
use walrus_ir::InstrLocId;
use wasm_numbers::read_u64;

/// The location with this number.
#[inline(always)]
fn location_of(number: u32) -> InstrLocId
    ensures { result ≡ number }
{
    if number == u32::MAX {
        return InstrLocId::default();
    }
    InstrLocId::new(number)
}

/// The number at the front of these bytes, and the bytes after it; 0 and none where there is no number.
#[inline(always)]
fn number_at(packed: &[u8]) -> (u64, &[u8])
    ensures { (n : ℕ) → n < 2 ^ 64 → (rest : List ℕ) → packed.now ≡ short_number n ++ rest
        → (result.0 ≡ n) × (result.1.now ≡ rest) }
{
    match read_u64(packed) {
        Ok(read) => read,
        Err(_) => (0, &[]),
    }
}

/// The pair after this one, at this distance of places and at this step of locations.
#[inline(always)]
fn pair_after(last: Last, distance: u64, step: u64) -> Last
    ensures location { result.location ≡ (last.location + step % 2 ^ 32) % 2 ^ 32 }
    ensures place { result.place ≡ (last.place + distance) % 2 ^ 64 }
{
    Last {
        location: last.location.wrapping_add((step % 0x1_0000_0000) as u32),
        place: last.place.wrapping_add(distance as usize),
    }
}

/// The pair after this one, from how far it is from it.
#[inline(never)]
fn unpack_far(last: Last, packed: &[u8]) -> (Last, &[u8])
    ensures { (location place : ℕ) → location < 2 ^ 32 → place < 2 ^ 64 → (rest : List ℕ)
        → packed.now ≡ short_number (step_to 64 last.place place)
        ++ short_number (step_to 32 last.location location) ++ rest
        → (result.0.location ≡ location) × (result.0.place ≡ place) × (result.1.now ≡ rest) }
{
    let (distance, following) = number_at(packed);
    let (step, rest) = number_at(following);
    (pair_after(last, distance, step), rest)
}

/// The same. Fastest where both numbers take a byte.
#[inline(always)]
fn unpack_one(last: Last, packed: &[u8]) -> (Last, &[u8])
    ensures { (location place : ℕ) → location < 2 ^ 32 → place < 2 ^ 64 → (rest : List ℕ)
        → packed.now ≡ short_number (step_to 64 last.place place)
        ++ short_number (step_to 32 last.location location) ++ rest
        → (result.0.location ≡ location) × (result.0.place ≡ place) × (result.1.now ≡ rest) }
{
    match packed {
        [distance, step, rest @ ..] if *distance < 128 && *step < 128 => {
            (pair_after(last, *distance as u64, *step as u64), rest)
        }
        _ => unpack_far(last, packed),
    }
}

/// Location pairs that are unpacked some at a time.
#[derive(Clone, Copy)]
pub struct Unpacker<'p> {
    /// How many are left.
    count: u64,
    /// The last one that was unpacked.
    last: Last,
    /// The bytes that are left.
    left: &'p [u8],
}

impl<'p> Unpacker<'p> {
    /// The pairs that `pack` appended to no bytes. Other bytes give any pairs.
    pub fn new(packed: &'p [u8]) -> Unpacker<'p>
        ensures { (pairs : List (ℕ × ℕ)) → ArePackable pairs → packed.now ≡ packed_pairs pairs
            → HasLeft result pairs }
    {
        let (count, left) = number_at(packed);
        Unpacker {
            count,
            last: Last::NONE,
            left,
        }
    }

    /// How many pairs are left.
    pub fn len(&self) -> u64
        ensures { result ≡ self.now.count }
    {
        self.count
    }

    /// Puts the next pairs into a list, in place of what it contains: so many, or all that are left.
    ///
    /// # Errors
    ///
    /// Out of memory.
    pub fn unpack_some(
        &mut self,
        most: u64,
        pairs: &mut Vec<(InstrLocId, usize)>,
    ) -> Result<(), AllocError>
        ensures some { (ps : List (ℕ × ℕ)) → HasLeft self.old ps
            → OnOk result (pairs.new.items ≡ take most ps) }
        ensures others { (ps : List (ℕ × ℕ)) → HasLeft self.old ps
            → OnOk result (HasLeft self.new (drop most ps)) }
        ensures fit { OnOk result (AllByRecursion FitPair pairs.new.items) }
        ensures count { OnOk result (length pairs.new.items + self.new.count ≡ self.old.count) }
        ensures left { OnOk result (self.new.count ≡ self.old.count - most) }
    {
        pairs.clear();
        let (mut last, mut left) = (self.last, self.left);
        let some = self.count.min(most);
        for _ in 0..some {
            let (next, rest) = unpack_one(last, left);
            pairs.push((location_of(next.location), next.place))?;
            last = next;
            left = rest;
        }
        self.last = last;
        self.left = left;
        self.count -= some;
        Ok(())
    }
}

/// Puts location pairs that `pack` appended to no bytes into a list, in place of what it contains. Other
/// bytes give any pairs.
///
/// # Errors
///
/// Out of memory.
pub fn unpack(packed: &[u8], pairs: &mut Vec<(InstrLocId, usize)>) -> Result<(), AllocError>
    ensures pairs { (ps : List (ℕ × ℕ)) → ArePackable ps → packed.now ≡ packed_pairs ps
        → OnOk result (pairs.new.items ≡ ps) }
    ensures fit { OnOk result (ArePackable pairs.new.items) }
{
    Unpacker::new(packed).unpack_some(u64::MAX, pairs)
}
