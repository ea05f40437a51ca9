//! Packing: all pairs at once, or some after others.
ghost use Rattle.std.specs.Prelude.{◌≡◌, ◌≤◌, ◌-◌, ℕ, List, [], ◌++◌, length, take, drop, OnOk, IfOk};
ghost use Rattle.std.specs.List.{AllByRecursion};
ghost use Rattle.wasm_operators.specs.Shortest.{short_number};
ghost use Rattle.location_pairs.specs.PackedPairs.{step_to, FitPair, ArePackable, packed_after, packed_pairs, last_after};
ghost use Rattle.location_pairs.specs.PackedPieces.{HasPacked};

use std::alloc::{AllocError, Global};
use walrus_ir::InstrLocId;
use wasm_encode::write_number;

/// A location and a place.
#[derive(Clone, Copy)]
pub(crate) struct Last {
    pub location: u32,
    pub place: usize,
}

impl Last {
    /// Those before the first pair.
    pub const NONE: Last = Last {
        location: 0,
        place: 0,
    };

    /// Those of a pair.
    fn of(pair: (InstrLocId, usize)) -> Last
        ensures location { result.location ≡ pair.0 }
        ensures place { result.place ≡ pair.1 }
    {
        let (location, place) = pair;
        Last {
            location: location.data(),
            place,
        }
    }
}

/// Appends a pair, as how far it is from the one before.
#[inline(always)]
fn pack_one(last: Last, pair: (InstrLocId, usize), packed: &mut Vec<u8>) -> Result<(), AllocError>
    ensures packed { OnOk result (packed.new.items ≡ packed.old.items
        ++ short_number (step_to 64 last.place pair.1)
        ++ short_number (step_to 32 last.location pair.0)) }
    ensures unchanged { take (length packed.old.items) packed.new.items ≡ packed.old.items }
{
    let (location, place) = pair;
    let distance = place.wrapping_sub(last.place) as u64;
    let step = location.data().wrapping_sub(last.location) as u64;
    if distance < 128 && step < 128 {
        return packed.extend_from_slice(&[distance as u8, step as u8]);
    }
    write_number(packed, distance)?;
    write_number(packed, step)
}

/// Appends pairs, each as how far it is from the one before; the first from this one. Returns the
/// last.
fn pack_after(
    before: Last,
    pairs: &[(InstrLocId, usize)],
    packed: &mut Vec<u8>,
) -> Result<Last, AllocError>
    ensures packed { OnOk result (packed.new.items ≡ packed.old.items
        ++ packed_after before.location before.place pairs.now) }
    ensures location { IfOk result (λ last. last.location
        ≡ (last_after (before.location, before.place) pairs.now).0) }
    ensures place { IfOk result (λ last. last.place
        ≡ (last_after (before.location, before.place) pairs.now).1) }
    ensures fit { OnOk result (AllByRecursion FitPair pairs.now) }
    ensures unchanged { take (length packed.old.items) packed.new.items ≡ packed.old.items }
{
    let mut last = before;
    for pair in pairs {
        pack_one(last, *pair, packed)?;
        last = Last::of(*pair);
    }
    Ok(last)
}

/// Appends location pairs in few bytes: their number, and then of each how far its place is from the
/// one before, and how far its location is. A pair of the next operator takes two bytes, mostly.
///
/// # Errors
///
/// Out of memory. The bytes that were in `packed` before are unchanged, and others may follow them.
pub fn pack(pairs: &[(InstrLocId, usize)], packed: &mut Vec<u8>) -> Result<(), AllocError>
    ensures packed { OnOk result (packed.new.items ≡ packed.old.items ++ packed_pairs pairs.now) }
    ensures fit { OnOk result (ArePackable pairs.now) }
    ensures unchanged { take (length packed.old.items) packed.new.items ≡ packed.old.items }
{
    write_number(packed, pairs.len() as u64)?;
    pack_after(Last::NONE, pairs, packed)?;
    Ok(())
}

/// How many bytes the number of pairs may take.
const NUMBER_ROOM: usize = 10;

/// Location pairs that are packed at the end of a list of bytes, some at a time. Their number, which
/// comes first, is known at the end, so that room is left for it.
#[derive(Clone, Copy)]
pub struct Packer {
    /// Where this room begins.
    begin: usize,
    /// How many pairs there are.
    count: usize,
    /// The last of them.
    last: Last,
}

/// A number in its shortest encoding.
fn encoded(alloc: Global, number: u64) -> Result<Vec<u8>, AllocError>
    ensures { IfOk result (λ made. made.items ≡ short_number number) }
{
    let mut made = Vec::new(alloc);
    write_number(&mut made, number)?;
    Ok(made)
}

/// Puts a number over the bytes that end at this place.
fn put_before(bytes: &mut Vec<u8>, end: usize, number: &[u8])
    requires room { length number.now ≤ end }
    requires within { end ≤ length bytes.old.items }
    ensures len { length bytes.new.items ≡ length bytes.old.items }
    ensures before { take (end - length number.now) bytes.new.items
        ≡ take (end - length number.now) bytes.old.items }
    ensures after { drop (end - length number.now) bytes.new.items
        ≡ number.now ++ drop end bytes.old.items }
{
    bytes[end - number.len()..end].copy_from_slice(number);
}

impl Packer {
    /// Begins after what a list contains, with no pairs.
    ///
    /// # Errors
    ///
    /// Out of memory. The list is unchanged.
    pub fn new(packed: &mut Vec<u8>) -> Result<Packer, AllocError>
        ensures none { IfOk result (λ packer. HasPacked packer packed.new.items []) }
        ensures begin { IfOk result (λ packer. packer.begin ≡ length packed.old.items) }
        ensures unchanged { take (length packed.old.items) packed.new.items ≡ packed.old.items }
    {
        let begin = packed.len();
        packed.extend_from_slice(&[0; NUMBER_ROOM])?;
        Ok(Packer {
            begin,
            count: 0,
            last: Last::NONE,
        })
    }

    /// Packs pairs that follow the others.
    ///
    /// # Errors
    ///
    /// Out of memory. The bytes that were in `packed` before are unchanged, and others may follow them.
    pub fn add(
        &mut self,
        pairs: &[(InstrLocId, usize)],
        packed: &mut Vec<u8>,
    ) -> Result<(), AllocError>
        ensures packed { (before : List (ℕ × ℕ)) → HasPacked self.old packed.old.items before
            → OnOk result (HasPacked self.new packed.new.items (before ++ pairs.now)) }
        ensures begin { self.new.begin ≡ self.old.begin }
        ensures unchanged { take (length packed.old.items) packed.new.items ≡ packed.old.items }
    {
        let Some(count) = self.count.checked_add(pairs.len()) else {
            return Err(AllocError);
        };
        self.last = pack_after(self.last, pairs, packed)?;
        self.count = count;
        Ok(())
    }

    /// Ends the list, so that its last bytes are what `pack` appends for all of these pairs. Returns
    /// where these begin.
    ///
    /// # Errors
    ///
    /// Out of memory. The list is unchanged.
    pub fn end(self, packed: &mut Vec<u8>) -> Result<usize, AllocError>
        requires { (pairs : List (ℕ × ℕ)) × HasPacked self packed.old.items pairs }
        ensures packed { (pairs : List (ℕ × ℕ)) → HasPacked self packed.old.items pairs
            → IfOk result (λ from. drop from packed.new.items ≡ packed_pairs pairs) }
        ensures fit { (pairs : List (ℕ × ℕ)) → HasPacked self packed.old.items pairs
            → ArePackable pairs }
        ensures from { IfOk result (λ from. (self.begin ≤ from) × (from ≤ length packed.new.items)) }
        ensures len { length packed.new.items ≡ length packed.old.items }
        ensures unchanged { take self.begin packed.new.items ≡ take self.begin packed.old.items }
    {
        let number = encoded(*packed.allocator(), self.count as u64)?;
        let end = self.begin + NUMBER_ROOM;
        put_before(packed, end, &number);
        Ok(end - number.len())
    }
}
