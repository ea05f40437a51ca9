//! Tests of lists. The bytes are written by hand, from DWARF 4, sections 2.17.3 and 2.6.2, and moved by hand.

use code_moves::{Body, LocalMove, MoveError, Moves, Runs};
use dwarf_bytes::{DebugError, DebugFault, Format, Patches, Size};
use dwarf_expressions::Encoding;
use dwarf_lists::{List, move_locations, move_ranges};
use std::alloc::Global;
use std::test::Fail;

// Declarations at 10, and operators from 11 to 20, all of them five bytes before. Local 2 is now 200, and local 4 is now 2.
fn first_body(alloc: Global) -> Result<Body, MoveError> {
    let mut runs = Runs::new(alloc, 10, 5);
    runs.push(11, 20, 6)?;
    let mut locals = Vec::new(alloc);
    locals.push(LocalMove { old: 2, new: 200 })?;
    locals.push(LocalMove { old: 4, new: 2 })?;
    runs.into_body(20, 15, 1, locals)
}

// Declarations at 30, now at 40, and operators from 31 to 40, of which those from 33 to 35 are dropped.
fn second_body(alloc: Global) -> Result<Body, MoveError> {
    let mut runs = Runs::new(alloc, 30, 40);
    runs.push(31, 33, 41)?;
    runs.push(35, 40, 43)?;
    runs.into_body(40, 48, 0, Vec::new(alloc))
}

fn moves(alloc: Global) -> Result<Moves, MoveError> {
    let mut moves = Moves::new(alloc);
    moves.push(first_body(alloc)?)?;
    moves.push(second_body(alloc)?)?;
    Ok(moves)
}

fn list(offset: usize, address_size: Size) -> List {
    List {
        offset,
        base: 0,
        encoding: Encoding {
            version: 4,
            format: Format::Dwarf32,
            address_size,
        },
    }
}

// pairs of addresses of four bytes
fn pairs(alloc: Global, pairs: &[(u32, u32)]) -> Result<Vec<u8>, Fail> {
    let mut out = Vec::new(alloc);
    for (low, high) in pairs.iter() {
        out.extend_from_slice(&low.to_le_bytes())?;
        out.extend_from_slice(&high.to_le_bytes())?;
    }
    Ok(out)
}

const RANGES: [(u32, u32); 10] = [
    (11, 20),
    (31, 40),
    // of no body
    (21, 25),
    (0xffff_fffe, 0xffff_fffe),
    // counted from 30: over the operators that are dropped, of only those, and one that isn't of the code
    (0xffff_ffff, 30),
    (1, 10),
    (3, 5),
    (0xffff_fffe, 0xffff_fffe),
    // counted from an operator that is dropped
    (0xffff_ffff, 33),
    (0, 2),
];

const MOVED_RANGES: [(u32, u32); 10] = [
    (6, 15),
    (41, 48),
    (21, 25),
    (0xffff_fffe, 0xffff_fffe),
    (0xffff_ffff, 40),
    (1, 8),
    (3, 3),
    (0xffff_fffe, 0xffff_fffe),
    (0xffff_ffff, 43),
    // two zeros would be the end
    (1, 1),
];

#[test]
fn ranges(rt: HostRuntime) -> Result<(), Fail> {
    let moves = moves(rt.alloc())?;
    let mut section = pairs(rt.alloc(), &RANGES)?;
    section.extend_from_slice(&[0; 8])?;
    // another list
    section.extend_from_slice(&[12, 0, 0, 0, 13, 0, 0, 0, 0, 0, 0, 0, 0, 0, 0, 0, 7])?;
    let mut patches = Patches::new(rt.alloc());
    assert_eq!(rt;
        move_ranges(&section, &list(0, Size::Four), &moves, &mut patches)?,
        88
    );
    assert_eq!(rt;
        move_ranges(&section, &list(88, Size::Four), &moves, &mut patches)?,
        104
    );
    let mut wanted = pairs(rt.alloc(), &MOVED_RANGES)?;
    wanted.extend_from_slice(&[0; 8])?;
    wanted.extend_from_slice(&[7, 0, 0, 0, 8, 0, 0, 0, 0, 0, 0, 0, 0, 0, 0, 0, 7])?;
    let moved = patches.apply(rt.alloc(), &section)?;
    assert_eq!(rt; moved.as_slice(), wanted.as_slice());
    Ok(())
}

#[test]
fn ranges_of_a_unit(rt: HostRuntime) -> Result<(), Fail> {
    // addresses of eight bytes, counted from 30
    let section = [
        1, 0, 0, 0, 0, 0, 0, 0, 6, 0, 0, 0, 0, 0, 0, 0, 0, 0, 0, 0, 0, 0, 0, 0, 0, 0, 0, 0, 0, 0,
        0, 0,
    ];
    let list = List {
        base: 30,
        ..list(0, Size::Eight)
    };
    let moves = moves(rt.alloc())?;
    let mut patches = Patches::new(rt.alloc());
    assert_eq!(rt; move_ranges(&section, &list, &moves, &mut patches)?, 32);
    let moved = patches.apply(rt.alloc(), &section)?;
    assert_eq!(rt;
        moved.as_slice(),
        [
            1, 0, 0, 0, 0, 0, 0, 0, 4, 0, 0, 0, 0, 0, 0, 0, 0, 0, 0, 0, 0, 0, 0, 0, 0, 0, 0, 0, 0,
            0, 0, 0
        ]
        .as_slice()
    );
    Ok(())
}

const LOCATIONS: [u8; 71] = [
    11, 0, 0, 0, 15, 0, 0, 0, 4, 0, 0xed, 0, 2, 0x9f, // a local
    15, 0, 0, 0, 20, 0, 0, 0, 3, 0, 0xed, 0, 3, // one that isn't kept
    0xff, 0xff, 0xff, 0xff, 30, 0, 0, 0, // the base
    1, 0, 0, 0, 9, 0, 0, 0, 2, 0, 0x30, 0x9f, // a constant
    0xfe, 0xff, 0xff, 0xff, 0xfe, 0xff, 0xff, 0xff, 6, 0, 0xed, 0, 5, 0xed, 0, 2, // no code
    0, 0, 0, 0, 0, 0, 0, 0,
];

const MOVED_LOCATIONS: [u8; 69] = [
    6, 0, 0, 0, 10, 0, 0, 0, 5, 0, 0xed, 0, 0xc8, 1, 0x9f, // a byte more
    10, 0, 0, 0, 15, 0, 0, 0, 0, 0, // no location
    0xff, 0xff, 0xff, 0xff, 40, 0, 0, 0, //
    1, 0, 0, 0, 7, 0, 0, 0, 2, 0, 0x30, 0x9f, //
    0xfe, 0xff, 0xff, 0xff, 0xfe, 0xff, 0xff, 0xff, 6, 0, 0xed, 0, 5, 0xed, 0, 2, //
    0, 0, 0, 0, 0, 0, 0, 0,
];

#[test]
fn locations(rt: HostRuntime) -> Result<(), Fail> {
    let moves = moves(rt.alloc())?;
    let mut patches = Patches::new(rt.alloc());
    assert_eq!(rt;
        move_locations(&LOCATIONS, &list(0, Size::Four), &moves, &mut patches)?,
        71
    );
    let moved = patches.apply(rt.alloc(), &LOCATIONS)?;
    assert_eq!(rt; moved.as_slice(), MOVED_LOCATIONS.as_slice());
    Ok(())
}

// the fault of a list of locations that is refused
fn fault(alloc: Global, section: &[u8], offset: usize) -> Result<Option<DebugFault>, Fail> {
    let moves = moves(alloc)?;
    let mut patches = Patches::new(alloc);
    // another list is before it
    patches.push(0, 1, &[])?;
    match move_locations(section, &list(offset, Size::Four), &moves, &mut patches) {
        Err(DebugError::Fault(fault)) => Ok(Some(fault)),
        _ => Ok(None),
    }
}

#[test]
fn refused(rt: HostRuntime) -> Result<(), Fail> {
    let section = [[7].as_slice(), &LOCATIONS].concat(rt.alloc())?;
    assert_eq!(rt; fault(rt.alloc(), &section, 1)?, None);
    for end in 1..section.len() {
        let fault = fault(rt.alloc(), &section[..end], 1)?;
        assert!(rt;
            [Some(DebugFault::Truncated), Some(DebugFault::BadLength)].contains(&fault),
            "up to {end}"
        );
    }
    assert_eq!(rt;
        fault(rt.alloc(), &section, section.len() + 1)?,
        Some(DebugFault::BadOffset)
    );
    // over the other list
    assert_eq!(rt;
        fault(rt.alloc(), &LOCATIONS, 0)?,
        Some(DebugFault::Overlap)
    );
    // the code is before its base
    let before = [
        7, 0xff, 0xff, 0xff, 0xff, 8, 0, 0, 0, 3, 0, 0, 0, 5, 0, 0, 0, 0, 0,
    ];
    assert_eq!(rt;
        fault(rt.alloc(), &before, 1)?,
        Some(DebugFault::DoesNotFit)
    );
    Ok(())
}
