//! Functions that are parsed: their trees, their mappings, and the places of their bodies.
use crate::cases::{About, check};
use crate::function_text::push_parsed_function;
use crate::small_module::{Setting, parse_lent};
use std::test::Fail;
use walrus_body::{AcceptAll, LocalFunction};
use walrus_ir::{Instr, InstrLocId};

// Trees of bodies that begin at the place 0, with the location of each operator.
const TREES: [(&str, &str); 13] = [
    ("010b", "0..2 0:0 1:1 type4[ ]1"),
    ("0f41071a0b", "0..5 0:0 1:1 3:3 4:4 type4[ return@0 ]4"),
    ("00000b", "0..3 0:0 1:1 2:2 type4[ unreachable@0 ]2"),
    (
        "41000e00001a0b",
        "0..7 0:0 2:2 5:5 6:6 type4[ i32.const 0@0 br_table 0@2 ]6",
    ),
    // A block in a dead sequence isn't in the tree, but the builder has its sequence.
    (
        "0c000240010b0b",
        "0..7 0:0 2:2 4:4 5:5 6:6 type4[ br 0@0 ]6 ()[ ]5",
    ),
    (
        "02400c0041071a0b41051a0b",
        "0..12 0:0 2:2 4:4 6:6 7:7 8:8 10:10 11:11 \
            type4[ block 1@0 i32.const 5@8 drop@10 ]11 ()[ br 1@2 ]7",
    ),
    // The alternative that is added has no end location.
    (
        "410104400b0b",
        "0..6 0:0 2:2 4:4 5:5 type4[ i32.const 1@0 if 1 2@2 ]5 ()[ ]4 ()[ ]-",
    ),
    (
        "4101044041021a050103400b0b0b",
        "0..14 0:0 2:2 4:4 6:6 7:7 8:8 9:9 11:11 12:12 13:13 \
            type4[ i32.const 1@0 if 1 2@2 ]13 ()[ i32.const 2@4 drop@6 ]7 ()[ loop 3@9 ]12 ()[ ]11",
    ),
    // Of equal types the first is picked.
    (
        "02000b027e42000b1a410003010b1a0b",
        "0..16 0:0 2:2 3:3 5:5 7:7 8:8 9:9 11:11 13:13 14:14 15:15 \
            type4[ block 1@0 block 2@3 drop@8 i32.const 0@9 loop 3@11 drop@14 ]15 ()[ ]2 \
            I64[ i64.const 0@5 ]7 type1[ ]13",
    ),
    (
        "024003400d000d010d020e03010002010b0b0b",
        "0..19 0:0 2:2 4:4 6:6 8:8 10:10 16:16 17:17 18:18 type4[ block 1@0 ]18 \
            ()[ loop 2@2 ]17 \
            ()[ br_if 2@4 br_if 1@6 br_if 0@8 br_table 1 2 0 1@10 ]16",
    ),
    // Clauses of a legacy `try`.
    (
        "064007000b0b",
        "0..6 0:0 2:2 4:4 5:5 type4[ try 1 1@0 ]5 ()[ ]2 ()[ ]4",
    ),
    (
        "06400700190b0b",
        "0..7 0:0 2:2 4:4 5:5 6:6 type4[ try 1 2@0 ]6 ()[ ]2 ()[ ]4 ()[ ]5",
    ),
    // The body of a `try` that `delegate` closes has no end location.
    ("064018000b", "0..5 0:0 2:2 4:4 type4[ try 1 1@0 ]4 ()[ ]-"),
];

/// The tree of each body.
#[test]
fn gives_trees_and_mappings(rt: HostRuntime) -> Result<(), Fail> {
    check(&rt, rt.alloc(), About::Function(Setting::PLAIN), &TREES)
}

// The instructions of operators, with the ids of their old indices; and constants, numeric operators,
// and accesses with their alignments and offsets.
const INSTRUCTIONS: [(&str, &str); 10] = [
    (
        "1001110100110001000b",
        " type4[ call 11@0 call_indirect 2 22@2 call_indirect 0 21@5 unreachable@8 ]9",
    ),
    (
        "230024001a0b",
        " type4[ global.get 31@0 global.set 31@2 drop@4 ]5",
    ),
    (
        "25012600fc0f01fc1000fc11010b",
        " type4[ table.get 21@0 table.set 22@2 table.grow 21@4 table.size 22@7 \
            table.fill 21@10 ]13",
    ),
    (
        "fc0c0001fc0d00fc0e00010b",
        " type4[ table.init 51 21@0 elem.drop 51@4 table.copy 22 21@7 ]11",
    ),
    (
        "3f004000fc080100fc0900fc0a0000fc0b000b",
        " type4[ memory.size 41@0 memory.grow 41@2 memory.init 61 41@4 data.drop 62@8 \
            memory.copy 41 41@11 memory.fill 41@15 ]18",
    ),
    (
        "417f4181004240430000c07f0b",
        " type4[ i32.const -1@0 i32.const 1@2 i64.const -64@5 f32.const 2143289344@7 ]12",
    ),
    (
        "44010000000000f07f4180808080780b",
        " type4[ f64.const 9218868437227405313@0 i32.const -2147483648@9 ]15",
    ),
    (
        "456aa7c01b1c017efc87000b",
        " type4[ 45@0 6a@1 a7@2 c0@3 select None@4 select Some(I64)@5 fc.7@8 ]11",
    ),
    (
        "2802002842000029038001280280808080100b",
        " type4[ load I32 { atomic: false } 41 4 0@0 load I32 { atomic: false } 41 4 0@3 \
            load I64 { atomic: false } 41 8 128@7 \
            load I32 { atomic: false } 41 4 4294967296@11 ]18",
    ),
    (
        "2a00052b1f052c00003a00070b",
        " type4[ load F32 41 1 5@0 load F64 41 2147483648 5@3 \
            load I32_8 { kind: SignExtend } 41 1 0@6 store I32_8 { atomic: false } 41 1 7@9 ]12",
    ),
];

/// The instructions of each body.
#[test]
fn gives_instructions(rt: HostRuntime) -> Result<(), Fail> {
    check(&rt, rt.alloc(), About::Entry, &INSTRUCTIONS)
}

// A body that is `before` bytes after the beginning of the code, and whose operators begin `ops`
// bytes after that.
fn at(offset: u32, before: u32, ops: usize) -> About {
    About::Function(Setting {
        ty: 0,
        offset,
        before,
        ops,
        located: false,
    })
}

/// The places of a mapping are less the code offset, and locations are places. Places from 2^32 - 1
/// on are too great for a location.
#[test]
fn counts_places(rt: HostRuntime) -> Result<(), Fail> {
    let refused = "PlaceTooGreat at 4294967295";
    for (about, body, expected) in [
        (at(90, 10, 1), "00010b", "10..13 11:101 12:102 type4[ ]102"),
        (
            at(0, 0, 1),
            "00410104400b0b",
            "0..7 1:1 3:3 5:5 6:6 type4[ i32.const 1@1 if 1 2@3 ]6 ()[ ]5 ()[ ]-",
        ),
        (
            at(4, 6, 2),
            "0000410104400b0b",
            "6..14 8:12 10:14 12:16 13:17 type4[ i32.const 1@12 if 1 2@14 ]17 ()[ ]16 ()[ ]-",
        ),
        (
            at(0, 4294967292, 1),
            "00010b",
            "4294967292..4294967295 4294967293:4294967293 4294967294:4294967294 \
            type4[ ]4294967294",
        ),
        (at(0, 4294967293, 1), "00010b", refused),
        (at(0, 4294967293, 2), "00010b", refused),
        (at(0, 4294967294, 1), "00010b", refused),
        (
            at(0, 4294967295, 1),
            "00010b",
            "PlaceTooGreat at 4294967296",
        ),
    ] {
        check(&rt, rt.alloc(), about, &[(body, expected)])?;
    }
    Ok(())
}

/// Locations are those that the caller's function returns, also at places that would be too great
/// without it.
#[test]
fn asks_for_locations(rt: HostRuntime) -> Result<(), Fail> {
    for (before, body, expected) in [
        (
            20,
            "00410104400b0b",
            "20..27 21:42 23:46 25:50 26:52 type4[ i32.const 1@42 if 1 2@46 ]52 ()[ ]50 ()[ ]-",
        ),
        (
            4294967293,
            "00010b",
            "4294967293..4294967296 4294967294:589934588 4294967295:589934590 type4[ ]589934590",
        ),
    ] {
        let setting = Setting {
            ty: 0,
            offset: 0,
            before,
            ops: 1,
            located: true,
        };
        check(
            &rt,
            rt.alloc(),
            About::Function(setting),
            &[(body, expected)],
        )?;
    }
    Ok(())
}

fn push_whole(text: &mut String, function: &LocalFunction) -> Result<(), Fail> {
    Ok(push_parsed_function(text, function)?)
}

// Appends the function that is parsed from an `if` with this list.
fn push_lent(text: &mut String, instrs: &mut Vec<(Instr, InstrLocId)>) -> Result<(), Fail> {
    let alloc = *instrs.allocator();
    let function = parse_lent(alloc, Setting::PLAIN, "410104400b0b", AcceptAll, instrs)?;
    push_whole(text, &function)
}

/// The contents of the caller's list make no difference.
#[test]
fn clears_the_lent_list(rt: HostRuntime) -> Result<(), Fail> {
    let mut found = String::new(rt.alloc());
    let mut instrs = Vec::new(rt.alloc());
    instrs.push((Instr::Return, InstrLocId::new(70)))?;
    push_lent(&mut found, &mut instrs)?;
    assert_eq!(rt;
        found.as_str(),
        "0..6 0:0 2:2 4:4 5:5 type4[ i32.const 1@0 if 1 2@2 ]5 ()[ ]4 ()[ ]-"
    );
    assert!(rt; instrs.is_empty());
    Ok(())
}

// Parses a body with the caller's list, and drops its function.
fn parse_away(body: &str, instrs: &mut Vec<(Instr, InstrLocId)>) -> Result<(), Fail> {
    let alloc = *instrs.allocator();
    drop(parse_lent(alloc, Setting::PLAIN, body, AcceptAll, instrs)?);
    Ok(())
}

/// After a body is accepted the caller's list is empty, and has room for as many instructions. 20
/// instructions are copied out of it; 64 take the list, and another takes its place.
#[test]
fn keeps_the_room_of_the_lent_list(rt: HostRuntime) -> Result<(), Fail> {
    let short = "1a1a1a1a1a1a1a1a1a1a1a1a1a1a1a1a1a1a1a1a0b";
    let long =
        "1a1a1a1a1a1a1a1a1a1a1a1a1a1a1a1a1a1a1a1a1a1a1a1a1a1a1a1a1a1a1a1a1a1a1a1a1a1a1a1a1a1a1a1a1a1a1a1a1a1a1a1a1a1a1a1a1a1a1a1a1a1a1a1a0b";
    for (body, count) in [(short, 20usize), (long, 64)] {
        let mut instrs = Vec::new(rt.alloc());
        parse_away(body, &mut instrs)?;
        let reserved = instrs.capacity();
        assert!(rt; reserved >= count);
        for body in ["0b", body] {
            parse_away(body, &mut instrs)?;
            assert_eq!(rt; instrs.capacity(), reserved);
            assert!(rt; instrs.is_empty());
        }
    }
    Ok(())
}
