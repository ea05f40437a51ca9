//! Tests of sections that follow the code, entries and line tables. The bytes are written by hand, from DWARF 4, sections 6.1.1 and 6.1.2,
//! and DWARF 5, section 6.3, and moved by hand.

use code_moves::{Body, MoveError, Moves, Runs};
use dwarf::{follow_macros, follow_names, move_address_ranges};
use dwarf_bytes::{DebugError, DebugFault, Patches};
use dwarf_info::CodeRange;
use dwarf_line::Moved;
use std::alloc::Global;
use std::test::Fail;

// From 10 to 20, five bytes before; and from 30 to 40, at 40, where the operators from 33 to 35 are dropped.
fn moves(alloc: Global) -> Result<Moves, MoveError> {
    let mut moves = Moves::new(alloc);
    let mut runs = Runs::new(alloc, 10, 5);
    runs.push(11, 20, 6)?;
    let body: Body = runs.into_body(20, 15, 0, Vec::new(alloc))?;
    moves.push(body)?;
    let mut runs = Runs::new(alloc, 30, 40);
    runs.push(31, 33, 41)?;
    runs.push(35, 40, 43)?;
    let body: Body = runs.into_body(40, 48, 0, Vec::new(alloc))?;
    moves.push(body)?;
    Ok(moves)
}

// The whole unit is in front of its functions, as in the order of entries.
#[test]
fn address_ranges(rt: HostRuntime) -> Result<(), Fail> {
    let moves = moves(rt.alloc())?;
    let info = Patches::new(rt.alloc());
    let code = [(10, 30), (10, 10), (30, 10)].map(|(begin, length)| CodeRange {
        unit: 0,
        begin,
        length,
    });
    let header = [0x2c, 0, 0, 0, 2, 0, 0, 0, 0, 0, 4, 0, 0, 0, 0, 0];
    // the unit, its second function, memory, and the end
    let old = [
        10, 0, 0, 0, 30, 0, 0, 0, 30, 0, 0, 0, 10, 0, 0, 0, 11, 0, 0, 0, 5, 0, 0, 0, 0, 0, 0, 0, 0,
        0, 0, 0,
    ];
    let new = [
        5, 0, 0, 0, 43, 0, 0, 0, 40, 0, 0, 0, 8, 0, 0, 0, 11, 0, 0, 0, 5, 0, 0, 0, 0, 0, 0, 0, 0,
        0, 0, 0,
    ];
    let mut section = Vec::new(rt.alloc());
    section.extend_from_slice(&header)?;
    section.extend_from_slice(&old)?;
    let mut expected = Vec::new(rt.alloc());
    expected.extend_from_slice(&header)?;
    expected.extend_from_slice(&new)?;
    let moved = move_address_ranges(rt.alloc(), &section, &code, &info, &moves)?;
    assert_eq!(rt; moved.as_slice(), expected.as_slice());
    Ok(())
}

// The byte at 20 of `.debug_info` becomes three.
#[test]
fn names(rt: HostRuntime) -> Result<(), Fail> {
    let mut info = Patches::new(rt.alloc());
    info.push(20, 1, b"xyz")?;
    // of the unit from 16 to 40: entries at 20 and at 24
    let old = b"\x1b\0\0\0\x02\0\x10\0\0\0\x18\0\0\0\x04\0\0\0ab\0\x08\0\0\0c\0\0\0\0\0";
    let new = b"\x1b\0\0\0\x02\0\x10\0\0\0\x1a\0\0\0\x04\0\0\0ab\0\x0a\0\0\0c\0\0\0\0\0";
    let followed = follow_names(rt.alloc(), old, false, &info)?;
    assert_eq!(rt; followed.as_slice(), new.as_slice());
    // of the unit from 40 to 48: an entry at 44, with what it is
    let old = b"\x15\0\0\0\x02\0\x28\0\0\0\x08\0\0\0\x04\0\0\0\x30v\0\0\0\0\0";
    let new = b"\x15\0\0\0\x02\0\x2a\0\0\0\x08\0\0\0\x04\0\0\0\x30v\0\0\0\0\0";
    let followed = follow_names(rt.alloc(), old, true, &info)?;
    assert_eq!(rt; followed.as_slice(), new.as_slice());
    for end in 1..old.len() {
        let cut = follow_names(rt.alloc(), &old[..end], true, &info);
        assert!(rt; cut.is_err(), "cut off at {end}");
    }
    Ok(())
}

// The line table at 7 is now at 9.
#[test]
fn macros(rt: HostRuntime) -> Result<(), Fail> {
    let tables = [Moved { old: 0, new: 0 }, Moved { old: 7, new: 9 }];
    // define at line 3, start_file, end_file, and the end
    let old = b"\x05\0\x02\x07\0\0\0\x01\x03A 1\0\x03\0\x01\x04\0";
    let new = b"\x05\0\x02\x09\0\0\0\x01\x03A 1\0\x03\0\x01\x04\0";
    let followed = follow_macros(rt.alloc(), old, &tables)?;
    assert_eq!(rt; followed.as_slice(), new.as_slice());
    let elsewhere = b"\x05\0\x02\x08\0\0\0\0";
    assert_eq!(rt;
        follow_macros(rt.alloc(), elsewhere, &tables).err(),
        Some(DebugError::Fault(DebugFault::BadOffset))
    );
    let operands = b"\x05\0\x04\0\0";
    assert_eq!(rt;
        follow_macros(rt.alloc(), operands, &tables).err(),
        Some(DebugError::Fault(DebugFault::Unsupported))
    );
    Ok(())
}
