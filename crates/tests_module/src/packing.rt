//! Location pairs, packed and unpacked all at once and some at a time. The bytes were worked out by
//! hand: how many pairs there are, and of each how far its place and its location are from those
//! before, in LEB128.

use location_pairs::{Packer, Unpacker, pack, unpack};
use std::test::*;
use walrus_ir::InstrLocId;

/// 4; 2 and 16; 1 and 2; 297 and 2^32 - 19; 2 and 21.
const PACKED: [u8; 14] = [4, 2, 16, 1, 2, 0xa9, 2, 0xed, 0xff, 0xff, 0xff, 15, 2, 21];

/// The pairs of these bytes. The third operator comes from none of the source.
fn pairs() -> [(InstrLocId, usize); 4] {
    [
        (InstrLocId::new(16), 2),
        (InstrLocId::new(18), 3),
        (InstrLocId::default(), 300),
        (InstrLocId::new(20), 302),
    ]
}

#[test]
fn pairs_are_packed(rt: HostRuntime) -> Result<(), Fail> {
    let pairs = pairs();
    let mut packed = Vec::new(rt.alloc());
    pack(&pairs, &mut packed)?;
    assert_eq!(rt; packed.as_slice(), PACKED.as_slice());
    let (first, others) = pairs.as_slice().split_at(1);
    // After what the list contains, and room for their number.
    let mut packer = Packer::new(&mut packed)?;
    packer.add(first, &mut packed)?;
    packer.add(others, &mut packed)?;
    let from = packer.end(&mut packed)?;
    let (before, after) = packed.as_slice().split_at(from);
    assert!(rt; before.starts_with(&PACKED));
    assert_eq!(rt; after, PACKED.as_slice());
    Ok(())
}

#[test]
fn pairs_are_unpacked(rt: HostRuntime) -> Result<(), Fail> {
    let pairs = pairs();
    let mut unpacked = Vec::new(rt.alloc());
    unpack(&PACKED, &mut unpacked)?;
    assert_eq!(rt; unpacked.as_slice(), pairs.as_slice());
    let (first, last) = pairs.as_slice().split_at(3);
    let mut unpacker = Unpacker::new(&PACKED);
    unpacker.unpack_some(3, &mut unpacked)?;
    assert_eq!(rt; unpacked.as_slice(), first);
    assert_eq!(rt; unpacker.len(), 1);
    unpacker.unpack_some(3, &mut unpacked)?;
    assert_eq!(rt; unpacked.as_slice(), last);
    assert_eq!(rt; unpacker.len(), 0);
    Ok(())
}
