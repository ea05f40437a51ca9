//! Operators that are read and written, read again with maps that undo the numbers, and written
//! unchanged.
ghost use Rattle.std.specs.Prelude.{◌≡◌};

use crate::read_back::rewritten_twice;
use std::alloc::Global;
use std::test::Fail;
use walrus_body::{IdsToIndices, IndicesToIds};
use walrus_ir::{FunctionId, IdHashMap, Module, TypeId};
use walrus_run::{RewriteError, demo};

// Rewrites operators twice with a module; there are no ids, so no number has to be undone.
fn twice_over(
    alloc: Global,
    module: &Module,
    ops: &[u8],
) -> Result<(Vec<u8>, Vec<u8>), RewriteError>
    requires { «module».now.code_section_offset ≡ 0 }
{
    let (ids, out) = (IndicesToIds::new(alloc), IdsToIndices::new(alloc));
    let locals = IdHashMap::new(alloc);
    let (id, ty) = (FunctionId::new(0), TypeId::new(1));
    rewritten_twice(alloc, module, &ids, &ids, id, ty, ops, &out, &locals)
}

// The same with the demo module.
fn twice_without_ids(alloc: Global, ops: &[u8]) -> Result<(Vec<u8>, Vec<u8>), RewriteError> {
    let module = demo::module(alloc)?;
    twice_over(alloc, &module, ops)
}

fn without_ids(alloc: Global, ops: &[u8]) -> Result<String, Fail> {
    let (first, second) = twice_without_ids(alloc, ops)?;
    Ok(format!(in alloc; "{first:?} {second:?}")?)
}

/// The proved chain of calls; its premise holds since there are no ids.
#[test]
fn rewrites_twice(rt: HostRuntime) -> Result<(), Fail> {
    let found = without_ids(
        rt.alloc(),
        &[0x01, 0x02, 0x40, 0x01, 0x0b, 0x00, 0x01, 0x0b],
    )?;
    assert_eq!(rt; found.as_str(), "[2, 64, 11, 0, 11] [2, 64, 11, 0, 11]");
    Ok(())
}
