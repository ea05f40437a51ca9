//! Line tables in bytes, and what is written for them, worked out by hand.

use code_moves::{Body, Moves, Run};
use dwarf_bytes::{DebugError, DebugFault};
use dwarf_line::{Moved, move_lines};
use std::alloc::Global;
use std::test::Fail;

/// The sizes of instructions, and how many numbers follow each standard opcode, for DWARF 4 and 5: statements are
/// recommended breakpoints, a special opcode advances the line by -5 to 8, and 13 is the first one. So 255 advances the
/// address by 17.
const MACHINE: [u8; 18] = [1, 1, 1, 0xfb, 14, 13, 0, 1, 1, 1, 1, 0, 0, 0, 1, 0, 0, 1];

/// A sequence of live code: rows at 16, 18, 20, 22 and 23, and the end at 32.
const LIVE: [u8; 26] = [
    0, 5, 2, 16, 0, 0, 0, // DW_LNE_set_address 16
    3, 4, // DW_LNS_advance_line 4
    1, // DW_LNS_copy
    5, 7, // DW_LNS_set_column 7
    10, // DW_LNS_set_prologue_end
    47, // 2 further, line + 1
    48, // 2 further, line + 2
    46, // 2 further, the same line
    0, 2, 4, 3, // DW_LNE_set_discriminator 3
    31, // 1 further, line - 1
    2, 9, // DW_LNS_advance_pc 9
    0, 1, 1, // DW_LNE_end_sequence
];

/// The same with rows at 12, 13, 15, 15 and 41, and the end at 50.
const LIVE_MOVED: [u8; 27] = [
    0, 5, 2, 12, 0, 0, 0, // DW_LNE_set_address 12
    3, 4, // DW_LNS_advance_line 4
    1, // DW_LNS_copy
    5, 7, // DW_LNS_set_column 7
    10, // DW_LNS_set_prologue_end
    33, // 1 further, line + 1
    48, // 2 further, line + 2
    18, // no further, the same line
    0, 2, 4, 3, // DW_LNE_set_discriminator 3
    8, 143, // 17 and 9 further, line - 1
    2, 9, // DW_LNS_advance_pc 9
    0, 1, 1, // DW_LNE_end_sequence
];

/// A sequence of code that the linker has removed.
const DEAD: [u8; 14] = [0, 5, 2, 0xff, 0xff, 0xff, 0xff, 1, 47, 2, 2, 0, 1, 1];

/// From address 16 on two bytes of locals, which become one; then an operator at 18, one at 20 that isn't written, and
/// operators from 22 on, in front of which 25 bytes are added. And a body whose addresses become less.
fn moves(alloc: Global) -> Result<Moves, Fail> {
    let mut moves = Moves::new(alloc);
    let runs = vec![in alloc;
        Run {
            old: 18,
            end: 20,
            gap: 13,
            own: 13
        },
        Run {
            old: 22,
            end: 32,
            gap: 15,
            own: 40
        },
    ]?;
    moves.push(Body {
        begin: 16,
        end: 32,
        new_begin: 12,
        new_end: 50,
        runs,
        parameters: 0,
        locals: vec![in alloc]?,
    })?;
    moves.push(Body {
        begin: 1000,
        end: 2000,
        new_begin: 60,
        new_end: 1059,
        runs: vec![in alloc;
            Run {
                old: 1002,
                end: 2000,
                gap: 61,
                own: 61
            },
        ]?,
        parameters: 0,
        locals: vec![in alloc]?,
    })?;
    Ok(moves)
}

/// The programs one after the other.
fn joined(alloc: Global, programs: &[&[u8]]) -> Result<Vec<u8>, Fail> {
    let mut bytes = vec![in alloc]?;
    for program in programs {
        bytes.extend_from_slice(program)?;
    }
    Ok(bytes)
}

/// A table of version 4 with these sequences, which are short.
fn table(alloc: Global, sequences: &[&[u8]]) -> Result<Vec<u8>, Fail> {
    let program = joined(alloc, sequences)?;
    let length = program.len().wrapping_add(26).to_le_bytes()[0];
    let start = [length, 0, 0, 0, 4, 0, 20, 0, 0, 0];
    joined(alloc, &[&start, &MACHINE, &[0, 0], &program])
}

/// The program that is written for this one, of a table of version 4.
fn moved(alloc: Global, program: &[u8]) -> Result<Vec<u8>, Fail> {
    let source = table(alloc, &[program])?;
    let lines = move_lines(alloc, &source, &moves(alloc)?)?;
    let (_, program) = lines.bytes.split_at(lines.bytes.len().min(30));
    Ok(program.to_vec(alloc)?)
}

#[test]
fn rows_follow_the_code(rt: HostRuntime) -> Result<(), Fail> {
    let alloc = rt.alloc();
    let source = joined(
        alloc,
        &[
            &table(alloc, &[&LIVE, &DEAD, &LIVE])?,
            &table(alloc, &[])?,
            &table(alloc, &[&LIVE])?,
        ],
    )?;
    let lines = move_lines(alloc, &source, &moves(alloc)?)?;
    let written = joined(
        alloc,
        &[
            &table(alloc, &[&LIVE_MOVED, &DEAD, &LIVE_MOVED])?,
            &table(alloc, &[])?,
            &table(alloc, &[&LIVE_MOVED])?,
        ],
    )?;
    assert_eq!(rt; lines.bytes, written);
    let tables = [
        Moved { old: 0, new: 0 },
        Moved { old: 96, new: 98 },
        Moved { old: 126, new: 128 },
    ];
    assert_eq!(rt; lines.tables.as_slice(), tables.as_slice());
    let sequences = [
        Moved { old: 30, new: 30 },
        Moved { old: 56, new: 57 },
        Moved { old: 70, new: 71 },
        Moved { old: 156, new: 158 },
    ];
    assert_eq!(rt; lines.sequences.as_slice(), sequences.as_slice());
    Ok(())
}

#[test]
fn far_rows(rt: HostRuntime) -> Result<(), Fail> {
    let alloc = rt.alloc();
    let source = [
        0, 5, 2, 0xe8, 3, 0, 0, 1, // 1000
        46, 5, 1, // 1002
        242, // 1018
        8, 8, 242, // 1068
        8, 255, // 1102
        2, 0xac, 2, 1, // 1402
        0, 1, 1,
    ];
    let written = [
        0, 5, 2, 60, 0, 0, 0, 1, // 60
        32, 5, 1, // 61
        242, // 77
        2, 50, 18, // 127
        8, 255, // 161
        2, 0xac, 2, 1, // 461
        0, 1, 1,
    ];
    assert_eq!(rt; moved(alloc, &source)?, written.to_vec(alloc)?);
    Ok(())
}

#[test]
fn rows_that_go_back(rt: HostRuntime) -> Result<(), Fail> {
    let alloc = rt.alloc();
    let source = [
        0, 5, 2, 16, 0, 0, 0, 1, // 16
        2, 0xe4, 3, 1, // 500, which is of no body
        2, 0xf2, 3, 46, // 1000
        0, 1, 1,
    ];
    let written = [
        0, 5, 2, 12, 0, 0, 0, 1, // 12
        2, 0xe8, 3, 1, // 500
        0, 5, 2, 60, 0, 0, 0, 18, // 60
        0, 1, 1,
    ];
    assert_eq!(rt; moved(alloc, &source)?, written.to_vec(alloc)?);
    Ok(())
}

#[test]
fn other_operations_stay(rt: HostRuntime) -> Result<(), Fail> {
    let alloc = rt.alloc();
    let source = [
        3, 0x7f, 4, 0x82, 0, 5, 1, 6, 7, 10, 11, 12, 3, // all that change a register
        0, 3, 0x80, 9, 9, // one that isn't the standard's
        0, 6, 3, 97, 0, 0, 0, 0, // DW_LNE_define_file
        0, 5, 2, 18, 0, 0, 0, 1, 0, 1, 1,
    ];
    let mut written = source;
    written[29] = 13;
    assert_eq!(rt; moved(alloc, &source)?, written.to_vec(alloc)?);
    // a sequence from address 0 on is of no body
    let source = [1, 2, 16, 1, 0, 1, 1];
    assert_eq!(rt; moved(alloc, &source)?, source.to_vec(alloc)?);
    Ok(())
}

#[test]
fn version_2(rt: HostRuntime) -> Result<(), Fail> {
    let alloc = rt.alloc();
    let front = [
        36, 0, 0, 0, 2, 0, 16, 0, 0, 0, 1, 1, 0xfb, 14, 10, 0, 1, 1, 1, 1, 0, 0, 0, 1, 0, 0,
    ];
    let source = joined(
        alloc,
        &[&front, &[0, 5, 2, 16, 0, 0, 0, 1, 44, 2, 14, 0, 1, 1]],
    )?;
    let written = joined(
        alloc,
        &[&front, &[0, 5, 2, 12, 0, 0, 0, 1, 30, 2, 37, 0, 1, 1]],
    )?;
    let lines = move_lines(alloc, &source, &moves(alloc)?)?;
    assert_eq!(rt; lines.bytes, written);
    Ok(())
}

#[test]
fn version_5_in_64_bits(rt: HostRuntime) -> Result<(), Fail> {
    let alloc = rt.alloc();
    let length = [0xff, 0xff, 0xff, 0xff, 56, 0, 0, 0, 0, 0, 0, 0];
    let start = [5, 0, 8, 0, 22, 0, 0, 0, 0, 0, 0, 0];
    let front = joined(alloc, &[&length, &start, &MACHINE, &[0, 0, 0, 0]])?;
    let program = [
        0, 9, 2, 0xe8, 3, 0, 0, 0, 0, 0, 0, 1, // 1000
        8, 1, // 1017
        8, 1, // 1034
        9, 6, 0, 0, 1, 1, // 1040
    ];
    let written = [
        0, 9, 2, 60, 0, 0, 0, 0, 0, 0, 0, 1, // 60
        2, 16, 1, // 76
        8, 1, // 93
        2, 6, 0, 1, 1, // 99
    ];
    let source = joined(alloc, &[&front, &program])?;
    let lines = move_lines(alloc, &source, &moves(alloc)?)?;
    assert_eq!(rt; lines.bytes, joined(alloc, &[&front, &written])?);
    Ok(())
}

#[test]
fn what_is_cut_off_is_refused(rt: HostRuntime) -> Result<(), Fail> {
    let alloc = rt.alloc();
    let moves = moves(alloc)?;
    let source = table(alloc, &[&LIVE, &DEAD])?;
    for end in 1..source.len() {
        let (cut, _) = source.split_at(end.min(source.len()));
        assert!(rt; move_lines(alloc, cut, &moves).is_err(), "cut off at {end}");
    }
    Ok(())
}

/// Why a program of a table of version 4 is refused, or one with another byte in its header.
fn fault(alloc: Global, at: usize, byte: u8, program: &[u8]) -> Result<Option<DebugFault>, Fail> {
    let mut source = table(alloc, &[program])?;
    if at < source.len() {
        source[at] = byte;
    }
    match move_lines(alloc, &source, &moves(alloc)?) {
        Err(DebugError::Fault(fault)) => Ok(Some(fault)),
        _ => Ok(None),
    }
}

#[test]
fn faults(rt: HostRuntime) -> Result<(), Fail> {
    let alloc = rt.alloc();
    assert_eq!(rt;
        fault(alloc, 4, 6, &LIVE)?,
        Some(DebugFault::UnknownVersion)
    );
    assert_eq!(rt;
        fault(alloc, 4, 1, &LIVE)?,
        Some(DebugFault::UnknownVersion)
    );
    // the length of the table, and of the header
    assert_eq!(rt; fault(alloc, 0, 53, &LIVE)?, Some(DebugFault::BadLength));
    assert_eq!(rt; fault(alloc, 6, 47, &LIVE)?, Some(DebugFault::BadLength));
    // the sizes of instructions, the line advances, the first special opcode, and what follows DW_LNS_copy
    for (at, byte) in [(10, 2), (11, 2), (14, 0), (15, 9), (16, 1)] {
        assert_eq!(rt;
            fault(alloc, at, byte, &LIVE)?,
            Some(DebugFault::Unsupported),
            "at {at}"
        );
    }
    // a sequence without an end, extended operations of a wrong length, and numbers that are too long
    let programs: [(&[u8], DebugFault); 7] = [
        (&[1], DebugFault::Truncated),
        (&[0, 0], DebugFault::BadLength),
        (&[0, 2, 1, 0], DebugFault::BadLength),
        (&[0, 4, 2, 0, 0, 0], DebugFault::BadLength),
        (&[0, 3, 4, 1, 1], DebugFault::BadLength),
        (&[0, 9, 1], DebugFault::BadLength),
        (
            &[2, 255, 255, 255, 255, 255, 255, 255, 255, 255, 2],
            DebugFault::BadNumber,
        ),
    ];
    for (program, expected) in programs {
        assert_eq!(rt;
            fault(alloc, 99, 0, program)?,
            Some(expected),
            "{program:?}"
        );
    }
    // an address beyond four bytes: 2 ^ 32, from the one before it, in a sequence that began in a body
    let far = [
        0, 5, 2, 16, 0, 0, 0, 1, 2, 0xf0, 0xff, 0xff, 0xff, 0x0f, 1, 2, 1, 1, 0, 1, 1,
    ];
    assert_eq!(rt; fault(alloc, 99, 0, &far)?, None);
    Ok(())
}
