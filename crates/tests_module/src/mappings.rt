//! The text of mappings, and mappings whose operators move. Expected values were worked out by
//! hand, from the digits of ECMA-426, and compared with those of a script in Python.

use source_map::{
    Mapping, MappingsError, MappingsFault, Move, MovingSourceMap, Original, SourceMap, decode,
    encode, moved,
};
use std::test::*;

/// A mapping of one field.
fn unmapped(generated: u32) -> Mapping {
    Mapping {
        generated,
        original: None,
    }
}

/// A mapping of four fields, or of five.
fn mapped(generated: u32, place: (u32, u32, u32), name: Option<u32>) -> Mapping {
    let (source, line, column) = place;
    Mapping {
        generated,
        original: Some(Original {
            source,
            line,
            column,
            name,
        }),
    }
}

#[test]
fn mappings_are_read_and_written(rt: HostRuntime) -> Result<(), Fail> {
    let text = b"2HwcqxBA,CDFEC,gB";
    let rows = [
        mapped(123, (456, 789, 0), None),
        mapped(124, (455, 787, 2), Some(1)),
        unmapped(140),
    ];
    let read = decode(rt.alloc(), text).ok().ok_or("it is not read")?;
    assert_eq!(rt; read.as_slice(), rows.as_slice());
    let written = encode(rt.alloc(), &rows)?;
    assert_eq!(rt; written.as_slice(), text.as_slice());
    Ok(())
}

#[test]
fn the_greatest_fields(rt: HostRuntime) -> Result<(), Fail> {
    let text = b"+/////HAAA,AA+/////HA";
    let rows = [
        mapped(u32::MAX, (0, 0, 0), None),
        mapped(u32::MAX, (0, u32::MAX, 0), None),
    ];
    let read = decode(rt.alloc(), text).ok().ok_or("it is not read")?;
    assert_eq!(rt; read.as_slice(), rows.as_slice());
    let written = encode(rt.alloc(), &rows)?;
    assert_eq!(rt; written.as_slice(), text.as_slice());
    Ok(())
}

/// Tests that a text is refused, with this fault.
fn refuses(rt: &HostRuntime, text: &str, fault: MappingsFault) -> bool {
    match decode(rt.alloc(), text.as_bytes()) {
        Err(MappingsError::Fault(found)) => found == fault,
        _ => false,
    }
}

#[test]
fn texts_that_are_refused(rt: HostRuntime) {
    for (text, fault) in [
        ("A!", MappingsFault::BadDigit),
        ("Ag", MappingsFault::CutNumber),
        ("g,A", MappingsFault::CutNumber),
        ("gggggggA", MappingsFault::LongNumber),
        ("AA", MappingsFault::FieldCount),
        ("AAA", MappingsFault::FieldCount),
        ("AAAAAA", MappingsFault::FieldCount),
        ("A,", MappingsFault::FieldCount),
        (",A", MappingsFault::FieldCount),
        ("AAAD", MappingsFault::FieldOutOfRange),
        ("AABA", MappingsFault::FieldOutOfRange),
        ("ggggggI", MappingsFault::FieldOutOfRange),
        ("A,D", MappingsFault::UnsortedColumn),
        ("A;A", MappingsFault::SecondLine),
    ] {
        assert!(rt; refuses(&rt, text, fault), "at {text}");
    }
}

/// An operator of a body that begins at 10 or at 20.
fn step(old: u32, new: u32) -> Move {
    let body = if old < 20 { 10 } else { 20 };
    Move { old, new, body }
}

#[test]
fn mappings_follow_operators(rt: HostRuntime) -> Result<(), Fail> {
    // The operators at 11, 14 and 18 are dropped, in a body that ends at 19; nothing after 26
    // remains.
    let moves = [step(12, 12), step(16, 14), step(22, 18), step(26, 22)];
    let places = [9, 10, 11, 12, 14, 16, 18, 19, 20, 22, 26, 27].map(unmapped);
    let expected_places = [12, 12, 12, 14, 14, 18, 18, 22].map(unmapped);
    let found = moved(rt.alloc(), &moves, &places)?;
    assert_eq!(rt; found.as_slice(), expected_places.as_slice());
    Ok(())
}

#[test]
fn a_source_map_follows_operators(rt: HostRuntime) -> Result<(), Fail> {
    // Columns 9, 11, 12, 16, 18 and 27. No operator that remains follows the first and the last two in their bodies.
    let source =
        b"{\"version\":3,\"sources\":[\"a\"],\"names\":[],\"mappings\":\"SAAA,EACA,CACA,IACA,E,SACA\",\"x\":1}";
    let wanted =
        b"{\"version\":3,\"sources\":[\"a\"],\"names\":[],\"mappings\":\"YACA,AACA,EACA\",\"x\":1}";
    let map = SourceMap::read(rt.alloc(), source)
        .ok()
        .ok_or("it is not read")?;
    let mut moving = MovingSourceMap::new(rt.alloc(), &map)
        .ok()
        .ok_or("no memory")?;
    for operator in [step(12, 12), step(16, 14), step(22, 18), step(26, 22)] {
        moving.add(operator).ok().ok_or("no memory")?;
    }
    let text = moving.finish()?;
    assert_eq!(rt; text.as_slice(), wanted.as_slice());
    Ok(())
}
