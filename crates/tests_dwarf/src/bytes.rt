//! Tests of numbers and patches. Expected bytes are worked out by hand, from the examples of DWARF 5, section 7.6, and its
//! section 7.4.

use dwarf_bytes::{
    DebugError, DebugFault, Format, Patches, Size, read_initial_length, read_sized, read_unsigned,
    write_padded, write_sized,
};
use std::test::*;

#[test]
fn lengths(rt: HostRuntime) {
    let short = [0x10, 0x20, 0, 0, 7];
    assert_eq!(rt;
        read_initial_length(&short) == Ok(((Format::Dwarf32, 0x2010), &short[4..])),
        true
    );
    let long = [0xff, 0xff, 0xff, 0xff, 1, 0, 0, 0, 0, 0, 0, 2, 7];
    assert_eq!(rt;
        read_initial_length(&long) == Ok(((Format::Dwarf64, 0x0200_0000_0000_0001), &long[12..])),
        true
    );
    let reserved = [0xf0, 0xff, 0xff, 0xff];
    assert_eq!(rt;
        read_initial_length(&reserved) == Err(DebugFault::BadLength),
        true
    );
    for end in 0..12 {
        assert_eq!(rt;
            read_initial_length(&long[..end]) == Err(DebugFault::Truncated),
            true
        );
    }
}

#[test]
fn numbers_of_each_size(rt: HostRuntime) -> Result<(), Fail> {
    for size in [Size::One, Size::Two, Size::Three, Size::Four, Size::Eight] {
        let mut out = Vec::new(rt.alloc());
        write_sized(&mut out, size, 0x81)?;
        assert_eq!(rt; out.len(), size.bytes());
        assert_eq!(rt; read_sized(size, &out) == Ok((0x81, &[])), true);
    }
    let mut out = Vec::new(rt.alloc());
    write_sized(&mut out, Size::Three, 0x01_0203)?;
    assert_eq!(rt; out.as_slice(), [3, 2, 1].as_slice());
    let refused = write_sized(&mut out, Size::Three, 0x100_0000);
    assert_eq!(rt; refused, Err(DebugError::Fault(DebugFault::DoesNotFit)));
    assert_eq!(rt; out.len(), 3);
    Ok(())
}

#[test]
fn padded_numbers(rt: HostRuntime) -> Result<(), Fail> {
    let cases: [(u64, usize, &[u8]); 5] = [
        (2, 0, &[2]),
        (2, 3, &[0x82, 0x80, 0]),
        (128, 1, &[0x80, 1]),
        (12857, 2, &[57 + 0x80, 100]),
        (
            0,
            10,
            &[0x80, 0x80, 0x80, 0x80, 0x80, 0x80, 0x80, 0x80, 0x80, 0],
        ),
    ];
    for (value, width, bytes) in cases {
        let mut out = Vec::new(rt.alloc());
        write_padded(&mut out, value, width)?;
        assert_eq!(rt; out.as_slice(), bytes);
        assert_eq!(rt; read_unsigned(&out) == Ok((value, &[])), true);
    }
    Ok(())
}

#[test]
fn patches(rt: HostRuntime) -> Result<(), Fail> {
    let mut patches = Patches::new(rt.alloc());
    assert!(rt; patches.is_empty());
    patches.push(1, 2, b"xyz")?;
    patches.push(3, 0, b"-")?;
    patches.push(5, 1, b"")?;
    assert_eq!(rt;
        patches.push(5, 1, b"!"),
        Err(DebugError::Fault(DebugFault::Overlap))
    );
    let out = patches.apply(rt.alloc(), b"abcdefg")?;
    assert_eq!(rt; out.as_slice(), b"axyz-deg".as_slice());
    for (offset, moved) in [(0, 0), (1, 1), (3, 5), (4, 6), (5, 7), (6, 7), (7, 8)] {
        assert_eq!(rt; patches.moved(offset), moved);
    }
    assert_eq!(rt;
        patches.apply(rt.alloc(), b"abcde").err(),
        Some(DebugError::Fault(DebugFault::BadOffset))
    );
    Ok(())
}
