//! Tests of expressions. The bytes are written by hand, from the tables of DWARF 5, section 7.7.1, and of DWARF for WebAssembly.

use code_moves::{Body, LocalMove, MoveError, Runs};
use dwarf_bytes::{DebugError, DebugFault, Format, Size};
use dwarf_expressions::{Encoding, moved_expression};
use std::alloc::Global;
use std::test::Fail;

// a body with two parameters; local 2 is now 200, local 3 isn't kept, and local 150 is now 2
fn body(alloc: Global) -> Result<Body, MoveError> {
    let mut locals = Vec::new(alloc);
    locals.push(LocalMove { old: 2, new: 200 })?;
    locals.push(LocalMove { old: 150, new: 2 })?;
    Runs::new(alloc, 0, 0).into_body(1, 1, 2, locals)
}

fn encoding() -> Encoding {
    Encoding {
        version: 4,
        format: Format::Dwarf32,
        address_size: Size::Four,
    }
}

#[test]
fn locals(rt: HostRuntime) -> Result<(), Fail> {
    let body = body(rt.alloc())?;
    let cases: [(&[u8], &[u8]); 7] = [
        // a parameter, and the value of it
        (&[0xed, 0, 1, 0x9f], &[0xed, 0, 1, 0x9f]),
        // a number that needs a byte more
        (&[0xed, 0, 2, 0x9f], &[0xed, 0, 0xc8, 1, 0x9f]),
        // one in the bytes that it has
        (&[0xed, 0, 0x82, 0x80, 0], &[0xed, 0, 0xc8, 0x81, 0]),
        (&[0xed, 0, 0x96, 1], &[0xed, 0, 0x82, 0]),
        // a local that isn't kept
        (&[0x31, 0xed, 0, 3, 0x22, 0x9f], &[]),
        // globals and the operand stack
        (
            &[0xed, 1, 2, 0xed, 2, 3, 0xed, 3, 2, 0, 0, 0],
            &[0xed, 1, 2, 0xed, 2, 3, 0xed, 3, 2, 0, 0, 0],
        ),
        // on entry to the function
        (
            &[0xa3, 3, 0xed, 0, 2, 0x9f],
            &[0xa3, 4, 0xed, 0, 0xc8, 1, 0x9f],
        ),
    ];
    for (source, wanted) in cases {
        let mut out = Vec::new(rt.alloc());
        let names = moved_expression(source, encoding(), Some(&body), &mut out)?;
        assert_eq!(rt; out.as_slice(), wanted);
        assert_eq!(rt; names, false);
        out.clear();
        moved_expression(source, encoding(), None, &mut out)?;
        assert_eq!(rt; out.as_slice(), source);
    }
    Ok(())
}

#[test]
fn jumps(rt: HostRuntime) -> Result<(), Fail> {
    let body = body(rt.alloc())?;
    let mut out = Vec::new(rt.alloc());
    // dup, bra over nop, local 150 in two bytes
    let kept = [0x12, 0x28, 1, 0, 0x96, 0xed, 0, 0x96, 1];
    moved_expression(&kept, encoding(), Some(&body), &mut out)?;
    assert_eq!(rt;
        out.as_slice(),
        [0x12, 0x28, 1, 0, 0x96, 0xed, 0, 0x82, 0].as_slice()
    );
    out.clear();
    let longer = [0x12, 0x2f, 1, 0, 0x96, 0xed, 0, 2];
    assert_eq!(rt;
        moved_expression(&longer, encoding(), Some(&body), &mut out),
        Err(DebugError::Fault(DebugFault::Unsupported))
    );
    Ok(())
}

// operations that name an entry
const NAMING: [&[u8]; 8] = [
    &[0x98, 1, 2],
    &[0x99, 1, 2, 3, 4],
    &[0x9a, 1, 2, 3, 4],
    &[0xa0, 1, 2, 3, 4, 0x7f],
    &[0xa4, 0x80, 1, 2, 3, 4],
    &[0xa5, 1, 0x2a],
    &[0xf6, 4, 0x2a],
    &[0xa8, 0],
];

// and others that have operands
const OTHERS: [&[u8]; 12] = [
    &[0x03, 1, 2, 3, 4],
    &[0x08, 1],
    &[0x0b, 1, 2],
    &[0x0c, 1, 2, 3, 4],
    &[0x0f, 1, 2, 3, 4, 5, 6, 7, 8],
    &[0x10, 0x80, 1],
    &[0x11, 0xff, 0x7f],
    &[0x7f, 0x80, 0x7f],
    &[0x92, 0x80, 1, 0x7f],
    &[0x9d, 8, 0x80, 1],
    &[0x9e, 2, 1, 2],
    &[0xa3, 2, 0x90, 1],
];

// the fault of an expression that is refused
fn fault(alloc: Global, expression: &[u8], encoding: Encoding) -> Option<DebugFault> {
    let mut out = Vec::new(alloc);
    match moved_expression(expression, encoding, None, &mut out) {
        Err(DebugError::Fault(fault)) => Some(fault),
        _ => None,
    }
}

#[test]
fn operands(rt: HostRuntime) -> Result<(), Fail> {
    let mut out = Vec::new(rt.alloc());
    for operation in NAMING {
        assert_eq!(rt;
            moved_expression(operation, encoding(), None, &mut out),
            Ok(true)
        );
    }
    for operation in OTHERS {
        assert_eq!(rt;
            moved_expression(operation, encoding(), None, &mut out),
            Ok(false)
        );
    }
    for operation in [NAMING.as_slice(), OTHERS.as_slice()].concat(rt.alloc())? {
        for end in 1..operation.len() {
            assert!(rt; fault(rt.alloc(), &operation[..end], encoding()).is_some());
        }
    }
    Ok(())
}

#[test]
fn faults(rt: HostRuntime) {
    let cases: [(&[u8], DebugFault); 6] = [
        (&[0x96, 0x01], DebugFault::UnknownOperation),
        (&[0xed, 4, 0], DebugFault::UnknownOperation),
        (&[0x9e, 3, 1, 2], DebugFault::BadLength),
        (&[0x08], DebugFault::Truncated),
        (
            &[
                0x10, 0xff, 0xff, 0xff, 0xff, 0xff, 0xff, 0xff, 0xff, 0xff, 2,
            ],
            DebugFault::BadNumber,
        ),
        // an expression in an expression in an expression
        (&[0xa3, 4, 0xa3, 2, 0x90, 1], DebugFault::Unsupported),
    ];
    for (expression, wanted) in cases {
        assert_eq!(rt; fault(rt.alloc(), expression, encoding()), Some(wanted));
    }
}

#[test]
fn sizes(rt: HostRuntime) -> Result<(), Fail> {
    // the address of four bytes and two operations; of eight bytes
    let address = [0x03, 1, 2, 3, 4, 0x96, 0x96, 0x96, 0x01];
    assert_eq!(rt;
        fault(rt.alloc(), &address, encoding()),
        Some(DebugFault::UnknownOperation)
    );
    let mut long = encoding();
    long.address_size = Size::Eight;
    assert_eq!(rt; fault(rt.alloc(), &address, long), None);
    // the offset of an entry has the size of an address in version 2
    let call = [0x9a, 1, 2, 3, 4, 0x96, 0x96, 0x96, 0x01];
    assert_eq!(rt;
        fault(rt.alloc(), &call, long),
        Some(DebugFault::UnknownOperation)
    );
    long.version = 2;
    assert_eq!(rt; fault(rt.alloc(), &call, long), None);
    long.version = 5;
    long.format = Format::Dwarf64;
    assert_eq!(rt; fault(rt.alloc(), &call, long), None);
    Ok(())
}
