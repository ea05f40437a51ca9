//! A module of two bodies with operators that are dropped, added, shorter and longer, and where its addresses go, worked
//! out by hand.
use code_moves::{Body, LocalMove, MoveError, Moves, Runs};
use std::alloc::Global;
use std::test::Fail;

// Declarations at 10, operators at 11, 13, 16 and 20. The one at 13 is dropped, one of a byte is added at 8, and the one at 16 is
// shorter by a byte.
fn first_body(alloc: Global) -> Result<Body, MoveError> {
    let mut runs = Runs::new(alloc, 10, 5);
    runs.push(11, 13, 6)?;
    runs.push_added(8)?;
    runs.push(16, 20, 9)?;
    runs.push(20, 21, 12)?;
    let mut locals = Vec::new(alloc);
    locals.push(LocalMove { old: 3, new: 2 })?;
    locals.push(LocalMove { old: 5, new: 3 })?;
    runs.into_body(21, 13, 2, locals)
}

// Declarations at 25, operators at 26, 27, 28 and 29. The one at 26 is written after the one at 27, which is longer by two bytes, and
// so counts as added at 24.
fn second_body(alloc: Global) -> Result<Body, MoveError> {
    let mut runs = Runs::new(alloc, 25, 20);
    runs.push(27, 28, 21)?;
    runs.push(26, 27, 24)?;
    runs.push(28, 29, 26)?;
    runs.push(29, 31, 27)?;
    runs.into_body(31, 29, 0, Vec::new(alloc))
}

fn module(alloc: Global) -> Result<Moves, MoveError> {
    let mut moves = Moves::new(alloc);
    moves.push(first_body(alloc)?)?;
    moves.push(second_body(alloc)?)?;
    Ok(moves)
}

#[test]
fn addresses(rt: HostRuntime) -> Result<(), Fail> {
    let moves = module(rt.alloc())?;
    let expected = [
        (9, None),
        (10, Some(5)),
        (11, Some(6)),
        (12, Some(7)),
        (13, Some(8)),
        (15, Some(8)),
        (16, Some(8)),
        (17, Some(10)),
        (18, Some(11)),
        (19, Some(12)),
        (20, Some(12)),
        (21, Some(13)),
        (22, None),
        (24, None),
        (25, Some(20)),
        (26, Some(21)),
        (27, Some(21)),
        (28, Some(24)),
        (29, Some(27)),
        (30, Some(28)),
        (31, Some(29)),
        (32, None),
        (u64::MAX, None),
    ];
    for (address, new) in expected {
        assert_eq!(rt; moves.address(address), new, "at {address}");
    }
    Ok(())
}

#[test]
fn operators(rt: HostRuntime) -> Result<(), Fail> {
    let moves = module(rt.alloc())?;
    let expected = [
        (10, None),
        (11, Some(6)),
        (13, None),
        (16, Some(9)),
        (20, Some(12)),
        (21, None),
        (22, None),
        (25, None),
        (26, None),
        (27, Some(21)),
        (28, Some(26)),
        (29, Some(27)),
        (31, None),
        (u64::MAX, None),
    ];
    for (address, own) in expected {
        assert_eq!(rt; moves.operator(address), own, "at {address}");
    }
    Ok(())
}

#[test]
fn ends(rt: HostRuntime) -> Result<(), Fail> {
    let moves = module(rt.alloc())?;
    let expected = [
        (10, false),
        (11, false),
        (13, true),
        (16, false),
        (20, true),
        (21, true),
        (27, false),
        (28, true),
        (29, true),
        (31, true),
        (32, false),
    ];
    for (address, is_written) in expected {
        assert_eq!(rt; moves.ends_written(address), is_written, "at {address}");
    }
    Ok(())
}

#[test]
fn locals(rt: HostRuntime) -> Result<(), Fail> {
    let body = first_body(rt.alloc())?;
    let expected = [Some(0), Some(1), None, Some(2), None, Some(3), None];
    for (local, new) in expected.iter().enumerate() {
        assert_eq!(rt; body.local(local as u64), *new, "at {local}");
    }
    Ok(())
}

#[test]
fn disorder(rt: HostRuntime) -> Result<(), Fail> {
    let mut moves = module(rt.alloc())?;
    assert_eq!(rt;
        moves.push(first_body(rt.alloc())?),
        Err(MoveError::Disordered)
    );
    let mut runs = Runs::new(rt.alloc(), 10, 5);
    runs.push(11, 13, 6)?;
    assert_eq!(rt; runs.push(13, 14, 6), Err(MoveError::Disordered));
    assert_eq!(rt; runs.push(13, 13, 8), Err(MoveError::Disordered));
    Ok(())
}
