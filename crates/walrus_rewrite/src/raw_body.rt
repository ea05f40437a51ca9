//! Raw bodies: the declarations of a function's locals, and its operators.
ghost use Rattle.std.specs.Prelude.{◌==◌, Some, None, IfOk, IfErr};
ghost use Rattle.std.specs.HashSet.{contains};
ghost use Rattle.walrus_body.specs.LocalFunctions.{HasEntry};
ghost use Rattle.walrus_rewrite.specs.RawBodies.{emit_input, BeginsRawBody, IsNotBegun, WritesRawBody, DeclinesRawBody};

use std::alloc::Global;
use walrus_body::{EmitError, IdsToIndices, LocalFunction};
use walrus_ir::{IdHashMap, IdHashSet, InstrLocId, LocalId, Module};
use wasm_encode::FunctionEncoder;

/// An encoder with the declarations of the locals of a function that uses these, and the number of
/// each local: its new index in the function.
///
/// # Errors
///
/// Those of `LocalFunction::emit_locals`.
pub fn begin_body(
    alloc: Global,
    function: &LocalFunction,
    used: &IdHashSet<LocalId>,
    module: &Module,
    indices: &IdsToIndices,
) -> Result<(FunctionEncoder, IdHashMap<LocalId, u32>), EmitError>
    ensures ok { IfOk result (λ made. BeginsRawBody (emit_input indices.now «module».now function.now)
        (contains (λ x y. x == y) used.now) made.0 made.1.entries) }
    ensures err { IfErr result (IsNotBegun (emit_input indices.now «module».now function.now)
        (contains (λ x y. x == y) used.now)) }
{
    let (declarations, numbers) = match function.emit_locals(module, indices, used) {
        Ok(made) => made,
        Err(fault) => return Err(fault),
    };
    match FunctionEncoder::new(alloc, declarations.as_slice()) {
        Ok(encoder) => Ok((encoder, numbers)),
        Err(_) => Err(EmitError::Memory),
    }
}

/// The raw body of a function that uses these locals.
///
/// # Errors
///
/// Those of `LocalFunction::emit_locals`, then those of `LocalFunction::emit_instructions`.
pub(crate) fn raw_body(
    alloc: Global,
    function: &LocalFunction,
    used: &IdHashSet<LocalId>,
    module: &Module,
    indices: &IdsToIndices,
) -> Result<Vec<u8>, EmitError>
    requires { HasEntry function.now.builder }
    ensures ok { IfOk result (λ raw. WritesRawBody (emit_input indices.now «module».now function.now)
        (contains (λ x y. x == y) used.now) function.now.builder raw.items None) }
    ensures err { IfErr result (DeclinesRawBody (emit_input indices.now «module».now function.now)
        (contains (λ x y. x == y) used.now) function.now.builder) }
{
    let (mut encoder, numbers) = match begin_body(alloc, function, used, module, indices) {
        Ok(made) => made,
        Err(fault) => return Err(fault),
    };
    match function.emit_instructions(&module.types, indices, &numbers, &mut encoder, None) {
        Ok(()) => Ok(encoder.into_raw_body()),
        Err(fault) => Err(fault),
    }
}

/// The same with the location pairs: each operator's location and its place in the raw body are
/// appended to the list.
///
/// # Errors
///
/// Those of `raw_body`.
pub(crate) fn raw_body_with_map(
    alloc: Global,
    function: &LocalFunction,
    used: &IdHashSet<LocalId>,
    module: &Module,
    indices: &IdsToIndices,
    map: &mut Vec<(InstrLocId, usize)>,
) -> Result<Vec<u8>, EmitError>
    requires { HasEntry function.now.builder }
    ensures ok { IfOk result (λ raw. WritesRawBody (emit_input indices.now «module».now function.now)
        (contains (λ x y. x == y) used.now) function.now.builder raw.items
        (Some (map.old.items, map.new.items))) }
    ensures err { IfErr result (DeclinesRawBody (emit_input indices.now «module».now function.now)
        (contains (λ x y. x == y) used.now) function.now.builder) }
{
    let (mut encoder, numbers) = match begin_body(alloc, function, used, module, indices) {
        Ok(made) => made,
        Err(fault) => return Err(fault),
    };
    match function.emit_instructions(&module.types, indices, &numbers, &mut encoder, Some(map)) {
        Ok(()) => Ok(encoder.into_raw_body()),
        Err(fault) => Err(fault),
    }
}
