//! Modules: their locals, and locations.
use std::alloc::AllocError;
use std::test::Fail;
use walrus_ir::{InstrLocId, LocalId, ModuleLocals, ValType};

// Adds runs and one local alone, and returns the number of the first local of each.
fn add_runs(locals: &mut ModuleLocals) -> Result<[usize; 4], AllocError> {
    let first = locals.add_run(ValType::I32, 2)?;
    let none = locals.add_run(ValType::F32, 0)?;
    let one = locals.add(ValType::V128)?;
    let many = locals.add_run(ValType::I64, 50_000)?;
    Ok([first.index(), none.index(), one.index(), many.index()])
}

/// Locals that are added together have the numbers after the others, and each has the type of its
/// run.
#[test]
fn keeps_runs_of_locals(rt: HostRuntime) -> Result<(), Fail> {
    let mut locals = ModuleLocals::new(rt.alloc());
    assert_eq!(rt; add_runs(&mut locals)?, [0, 2, 2, 3]);
    for (id, ty) in [
        (0, Some(ValType::I32)),
        (1, Some(ValType::I32)),
        (2, Some(ValType::V128)),
        (3, Some(ValType::I64)),
        (50_002, Some(ValType::I64)),
        (50_003, None),
    ] {
        assert_eq!(rt; locals.get(LocalId::new(id)), ty, "at {id}");
    }
    Ok(())
}

/// The default location has the greatest number.
#[test]
fn tells_locations_apart(rt: HostRuntime) {
    for (location, number, default) in [
        (InstrLocId::new(5), 5, false),
        (InstrLocId::default(), 0xffff_ffff, true),
    ] {
        assert_eq!(rt; location.data(), number);
        assert_eq!(rt; location.is_default(), default);
    }
}
