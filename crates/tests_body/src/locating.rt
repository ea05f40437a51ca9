//! Locations of operators that are written, looked up by their places.
ghost use Rattle.std.specs.Prelude.{◌≡◌, ◌≤◌, ◌<◌, ◌+◌, ◌^◌, length};

#[cfg(test)]
use std::alloc::Global;
#[cfg(test)]
use std::test::Fail;
use walrus_body::{AcceptAll, FunctionBody, IdsToIndices, IndicesToIds};
use walrus_ir::{FunctionId, InstrLocId, LocalId, Module, TypeId};
#[cfg(test)]
use walrus_run::demo;
use walrus_run::{RewriteError, locate, rewrite_body};

/// Rewrites the body of the function 0, and looks up the location of the operator at this place of
/// its raw body.
pub(crate) fn rewritten_location(
    module: &Module,
    indices: &IndicesToIds,
    args: Vec<LocalId>,
    body: FunctionBody<'_>,
    out: &IdsToIndices,
    place: usize,
) -> Result<Option<InstrLocId>, RewriteError>
    requires offset { «module».now.code_section_offset ≤ body.start }
    requires ops { body.ops ≤ length body.bytes.now }
    requires fits { body.start + length body.bytes.now < 2 ^ 64 }
{
    let alloc = *args.allocator();
    let mut instrs = Vec::new(alloc);
    let mut raw = Vec::new(alloc);
    let mut pairs = Vec::new(alloc);
    match rewrite_body(
        module,
        indices,
        FunctionId::new(0),
        TypeId::new(1),
        args,
        body,
        None::<&fn(&usize) -> InstrLocId>,
        AcceptAll,
        &mut instrs,
        out,
        &mut raw,
        Some(&mut pairs),
    ) {
        Ok(_) => Ok(locate(&pairs, place)),
        Err(error) => Err(error),
    }
}

// The number of the location at this place of the bytes written for the body, which begins at 100.
#[cfg(test)]
fn located_by(
    module: &Module,
    indices: &IndicesToIds,
    out: &IdsToIndices,
    args: Vec<LocalId>,
    bytes: &[u8],
    place: usize,
) -> Result<Option<u32>, Fail>
    requires { «module».now.code_section_offset ≡ 90 }
{
    let body = FunctionBody {
        bytes,
        start: 100,
        ops: 1.min(bytes.len()),
    };
    match rewritten_location(module, indices, args, body, out, place) {
        Ok(Some(location)) => Ok(Some(location.data())),
        Ok(None) => Ok(None),
        Err(error) => Err(Fail::from(error)),
    }
}

#[cfg(test)]
fn located_with(
    alloc: Global,
    module: &Module,
    indices: &IndicesToIds,
    bytes: &[u8],
    place: usize,
) -> Result<Option<u32>, Fail>
    requires { «module».now.code_section_offset ≡ 90 }
{
    let args = vec![in alloc; LocalId::new(0)]?;
    let out = demo::numbers(alloc)?;
    located_by(module, indices, &out, args, bytes, place)
}

#[cfg(test)]
fn located_in(
    alloc: Global,
    module: &Module,
    bytes: &[u8],
    place: usize,
) -> Result<Option<u32>, Fail>
    requires { «module».now.code_section_offset ≡ 90 }
{
    let indices = demo::indices(alloc)?;
    located_with(alloc, module, &indices, bytes, place)
}

// The same with the demo module.
#[cfg(test)]
fn located(alloc: Global, bytes: &[u8], place: usize) -> Result<Option<u32>, Fail> {
    let mut module = demo::module(alloc)?;
    module.code_section_offset = 90;
    located_in(alloc, &module, bytes, place)
}

/// 00 01 41 81 00 1a 0b is at the place 100 and is written as 00 41 01 1a 0b: the constant was at
/// 102, the `drop` at 105, the `end` at 106. No operator begins at the places 0 and 2.
#[test]
fn looks_up_locations(rt: HostRuntime) -> Result<(), Fail> {
    let bytes = [0x00, 0x01, 0x41, 0x81, 0x00, 0x1a, 0x0b];
    for (place, expected) in [
        (0, None),
        (1, Some(102)),
        (2, None),
        (3, Some(105)),
        (4, Some(106)),
        (5, None),
    ] {
        assert_eq!(rt; located(rt.alloc(), &bytes, place)?, expected, "at {place}");
    }
    Ok(())
}

/// 00 06 40 18 00 0b is written as it is: the `try` was at 101 and the `end` at 105. The `delegate`
/// has no location of its own.
#[test]
fn looks_up_a_delegate(rt: HostRuntime) -> Result<(), Fail> {
    let bytes = [0x00, 0x06, 0x40, 0x18, 0x00, 0x0b];
    let none = InstrLocId::default().data();
    for (place, expected) in [(1, Some(101)), (3, Some(none)), (5, Some(105))] {
        assert_eq!(rt; located(rt.alloc(), &bytes, place)?, expected, "at {place}");
    }
    Ok(())
}
