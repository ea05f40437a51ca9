//! Tests of lists. The bytes are written by hand, from the tables of DWARF 5, sections 7.25 and 7.7.3.

use code_moves::{Body, LocalMove, MoveError, Moves, Runs};
use dwarf_bytes::{AddressTable, AddressUses, DebugError, DebugFault, Format, Patches, Size};
use dwarf_expressions::Encoding;
use dwarf_new_lists::{NewList, move_location_list, move_range_list};
use std::alloc::Global;
use std::test::Fail;

// Addresses 10 to 21. That of the first operator, 11, goes to 6, and 16 to 9; the operator at 13 isn't written, and 21 goes to 13. Two
// parameters; local 3 is now 2, local 4 isn't kept.
fn first_body(alloc: Global) -> Result<Body, MoveError> {
    let mut runs = Runs::new(alloc, 10, 5);
    runs.push(11, 13, 6)?;
    runs.push(16, 20, 9)?;
    runs.push(20, 21, 12)?;
    let mut locals = Vec::new(alloc);
    locals.push(LocalMove { old: 3, new: 2 })?;
    runs.into_body(21, 13, 2, locals)
}

// Addresses 25 to 31, which go to 20 to 29.
fn second_body(alloc: Global) -> Result<Body, MoveError> {
    let mut runs = Runs::new(alloc, 25, 20);
    runs.push(26, 29, 21)?;
    runs.push(29, 31, 27)?;
    runs.into_body(31, 29, 0, Vec::new(alloc))
}

fn module(alloc: Global) -> Result<Moves, MoveError> {
    let mut moves = Moves::new(alloc);
    moves.push(first_body(alloc)?)?;
    moves.push(second_body(alloc)?)?;
    Ok(moves)
}

// 10, 21, 25 and 0, after a header
const ADDRESSES: [u8; 24] = [
    20, 0, 0, 0, 5, 0, 4, 0, 10, 0, 0, 0, 21, 0, 0, 0, 25, 0, 0, 0, 0, 0, 0, 0,
];

fn table(section: &[u8]) -> AddressTable<'_> {
    AddressTable {
        section,
        base: 8,
        size: Size::Four,
    }
}

fn list_at(offset: usize) -> NewList {
    NewList {
        offset,
        base: 10,
        encoding: Encoding {
            version: 5,
            format: Format::Dwarf32,
            address_size: Size::Four,
        },
    }
}

const RANGES: [u8; 52] = [
    0xff, // no list
    4, 3, 11, // 13 to 21
    1, 2, // from 25 on
    4, 0x81, 0, 6, // 26 to 31
    2, 0, 1, // 10 to 21
    3, 0, 11, // 10 to 21
    5, 10, 0, 0, 0, // from 10 on
    4, 1, 11, // 11 to 21
    6, 25, 0, 0, 0, 31, 0, 0, 0, // 25 to 31
    7, 25, 0, 0, 0, 6, // 25 to 31
    7, 0, 0, 0, 0, 6, // of no code
    3, 3, 5, // of no code
    4, 12, 14, // between two bodies
    0,
];

const NEW_RANGES: [u8; 52] = [
    0xff, 4, 4, 8, 1, 2, 4, 0x81, 0, 9, 2, 0, 1, 3, 0, 8, 5, 5, 0, 0, 0, 4, 1, 8, 6, 20, 0, 0, 0,
    29, 0, 0, 0, 7, 20, 0, 0, 0, 9, 7, 0, 0, 0, 0, 6, 3, 3, 5, 4, 12, 14, 0,
];

#[test]
fn ranges(rt: HostRuntime) -> Result<(), Fail> {
    let moves = module(rt.alloc())?;
    let mut uses = AddressUses::new(rt.alloc());
    let mut patches = Patches::new(rt.alloc());
    let table = table(&ADDRESSES);
    let end = move_range_list(
        &RANGES,
        &list_at(1),
        &table,
        &moves,
        &mut uses,
        &mut patches,
    )?;
    assert_eq!(rt; end, 52);
    let out = patches.apply(rt.alloc(), &RANGES)?;
    assert_eq!(rt; out.as_slice(), NEW_RANGES.as_slice());
    let addresses = uses.patches(rt.alloc())?.apply(rt.alloc(), &ADDRESSES)?;
    assert_eq!(rt;
        addresses.as_slice(),
        [
            20, 0, 0, 0, 5, 0, 4, 0, 5, 0, 0, 0, 13, 0, 0, 0, 20, 0, 0, 0, 0, 0, 0, 0,
        ]
        .as_slice()
    );
    let again = move_range_list(
        &RANGES,
        &list_at(1),
        &table,
        &moves,
        &mut uses,
        &mut patches,
    );
    assert_eq!(rt; again, Err(DebugError::Fault(DebugFault::Overlap)));
    Ok(())
}

#[test]
fn locations(rt: HostRuntime) -> Result<(), Fail> {
    let moves = module(rt.alloc())?;
    let mut uses = AddressUses::new(rt.alloc());
    let mut patches = Patches::new(rt.alloc());
    let section: [u8; 28] = [
        9, 1, 2, // views
        8, 10, 0, 0, 0, 11, 4, 0xed, 0, 3, 0x9f, // local 3, from 10 to 21
        4, 15, 21, 2, 0xed, 0, // of 25 to 31, but the expression ends inside of an operation
        5, 3, 0xed, 0, 3, // local 3 of no body
        0, 0, 0,
    ];
    let cut = move_location_list(
        &section,
        &list_at(0),
        &table(&ADDRESSES),
        &moves,
        &mut uses,
        &mut patches,
    );
    assert_eq!(rt; cut, Err(DebugError::Fault(DebugFault::Truncated)));
    let section: [u8; 21] = [
        9, 1, 2, 8, 10, 0, 0, 0, 11, 4, 0xed, 0, 3, 0x9f, 4, 15, 21, 1, 0x30, 0, 7,
    ];
    let end = move_location_list(
        &section,
        &list_at(0),
        &table(&ADDRESSES),
        &moves,
        &mut uses,
        &mut patches,
    )?;
    assert_eq!(rt; end, 20);
    let out = patches.apply(rt.alloc(), &section)?;
    assert_eq!(rt;
        out.as_slice(),
        [
            9, 1, 2, 8, 5, 0, 0, 0, 8, 4, 0xed, 0, 2, 0x9f, 4, 15, 24, 1, 0x30, 0, 7,
        ]
        .as_slice()
    );
    Ok(())
}

#[test]
fn faults(rt: HostRuntime) -> Result<(), Fail> {
    let moves = module(rt.alloc())?;
    let mut uses = AddressUses::new(rt.alloc());
    let mut patches = Patches::new(rt.alloc());
    let cases: [(&[u8], DebugFault); 7] = [
        (&[10], DebugFault::UnknownForm),
        // a default location
        (&[5, 3, 0xed, 0, 3, 0], DebugFault::Unsupported),
        (&[1, 5, 0], DebugFault::BadOffset),
        (&[8, 25, 0, 0, 0, 7, 1, 0x30, 0], DebugFault::Unsupported),
        // what is at 25 goes to 20, and the base of no body stays 22
        (&[6, 22, 0, 0, 0, 4, 3, 9, 0, 0], DebugFault::Unsupported),
        (&[4, 1, 11, 2, 0x30], DebugFault::BadLength),
        (
            &[4, 0x80, 0x80, 0x80, 0x80, 0x80, 0x80, 0x80, 0x80, 0x80, 2],
            DebugFault::BadNumber,
        ),
    ];
    for (section, fault) in cases {
        let result = move_location_list(
            section,
            &list_at(0),
            &table(&ADDRESSES),
            &moves,
            &mut uses,
            &mut patches,
        );
        assert_eq!(rt; result, Err(DebugError::Fault(fault)));
    }
    assert_eq!(rt; patches.is_empty(), true);
    Ok(())
}

#[test]
fn cut_lists(rt: HostRuntime) -> Result<(), Fail> {
    let moves = module(rt.alloc())?;
    let mut uses = AddressUses::new(rt.alloc());
    let mut patches = Patches::new(rt.alloc());
    for len in 0..RANGES.len() {
        let result = move_range_list(
            &RANGES[..len],
            &list_at(1),
            &table(&ADDRESSES),
            &moves,
            &mut uses,
            &mut patches,
        );
        assert_eq!(rt; result.is_err(), true);
    }
    Ok(())
}
