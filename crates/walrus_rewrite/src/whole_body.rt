//! Rewriting whole bodies, and writing those of functions.
ghost use Rattle.std.specs.Prelude.{◌≡◌, ◌⊎◌, ◌++◌, ◌≤◌, ◌<◌, ◌+◌, ◌^◌, [], length, Some, None, Ok, OnOk, OnErr, IfOk, IfErr, IsErr};
ghost use Rattle.walrus_parser.specs.Ranges.{range_of};
ghost use Rattle.walrus_body.specs.LocalFunctions.{HasEntry};
ghost use Rattle.walrus_parser.specs.Bodies.{body_input, IfAccepted, IfFirstFault};
ghost use Rattle.walrus_validators.specs.Locating.{MayCall};
ghost use Rattle.walrus_body.specs.EmittedInstructions.{KeepsPairs};
ghost use Rattle.walrus_rewrite.specs.declared.error.RewriteError.TheVariants.{Parse};
ghost use Rattle.walrus_rewrite.specs.Errors.{IsOutOfMemory};
ghost use Rattle.walrus_rewrite.specs.RawBodies.{emit_input, input_for, AppendsRawBody, IsNotAppended, IsNotFinished};
ghost use Rattle.walrus_rewrite.specs.RewrittenBodies.{Rewrites, RefusesRewriting, IsOfWriting};

use crate::error::RewriteError;
use crate::raw_body::{raw_body, raw_body_with_map};
use std::alloc::AllocError;
use walrus_body::{FunctionBody, IdsToIndices, IndicesToIds, LocalFunction, OpCheck, ParseFailure};
use walrus_ir::{FunctionId, Instr, InstrLocId, LocalId, Module, TypeId};

/// Appends the bytes and the pairs, or neither if memory runs out.
pub(crate) fn append_both(
    dst: &mut Vec<u8>,
    map: &mut Vec<(InstrLocId, usize)>,
    bytes: &[u8],
    pairs: &[(InstrLocId, usize)],
) -> Result<(), AllocError>
    ensures bytes { OnOk result (dst.new.items ≡ dst.old.items ++ bytes.now) }
    ensures pairs { OnOk result (map.new.items ≡ map.old.items ++ pairs.now) }
    ensures same_bytes { OnErr result (dst.new.items ≡ dst.old.items) }
    ensures same_pairs { OnErr result (map.new.items ≡ map.old.items) }
{
    map.reserve(pairs.len())?;
    dst.extend_from_slice(bytes)?;
    map.extend_from_slice(pairs).unwrap();
    Ok(())
}

/// Appends the bytes and the pairs of a body. If both lists are empty they become these.
///
/// # Errors
///
/// If memory runs out; both lists are then unchanged.
pub fn append_lists(
    dst: &mut Vec<u8>,
    map: &mut Vec<(InstrLocId, usize)>,
    bytes: Vec<u8>,
    pairs: Vec<(InstrLocId, usize)>,
) -> Result<(), AllocError>
    ensures bytes { OnOk result (dst.new.items ≡ dst.old.items ++ bytes.items) }
    ensures pairs { OnOk result (map.new.items ≡ map.old.items ++ pairs.items) }
    ensures same_bytes { OnErr result (dst.new.items ≡ dst.old.items) }
    ensures same_pairs { OnErr result (map.new.items ≡ map.old.items) }
{
    if dst.is_empty() && map.is_empty() {
        *dst = bytes;
        *map = pairs;
        return Ok(());
    }
    append_both(dst, map, &bytes, &pairs)
}

/// Gives the memory of two empty lists back, so that it isn't held while those are made that take their
/// place.
fn free_if_empty(dst: &mut Vec<u8>, map: &mut Vec<(InstrLocId, usize)>)
    ensures bytes { dst.new.items ≡ dst.old.items }
    ensures pairs { map.new.items ≡ map.old.items }
{
    if dst.is_empty() && map.is_empty() {
        *dst = Vec::new(*dst.allocator());
        *map = Vec::new(*map.allocator());
    }
}

/// Appends the raw body of a function.
///
/// # Errors
///
/// `Walk` if the tree of the function can't be walked over, else `Emit` if it can't be written.
/// `dst` is then unchanged.
pub fn append_raw_body(
    function: &LocalFunction,
    module: &Module,
    indices: &IdsToIndices,
    dst: &mut Vec<u8>,
) -> Result<(), RewriteError>
    requires { HasEntry function.now.builder }
    ensures ok { OnOk result (AppendsRawBody (emit_input indices.now «module».now function.now)
        function.now.builder dst.old.items dst.new.items None) }
    ensures err { IfErr result (IsNotAppended (emit_input indices.now «module».now function.now)
        function.now.builder) }
    ensures same_bytes { OnErr result (dst.new.items ≡ dst.old.items) }
{
    let facts = match function.emit_facts() {
        Ok(facts) => facts,
        Err(fault) => return Err(RewriteError::Walk(fault)),
    };
    match raw_body(
        *dst.allocator(),
        function,
        &facts.used_locals,
        module,
        indices,
    ) {
        Ok(bytes) => Ok(dst.extend_from_slice(&bytes)?),
        Err(fault) => Err(RewriteError::Emit(fault)),
    }
}

/// The same with the location pairs of the function, which are appended to `map`. Their places
/// count from the first byte that is appended.
///
/// # Errors
///
/// Those of `append_raw_body`. `dst` and `map` are then unchanged.
pub fn append_raw_body_with_map(
    function: &LocalFunction,
    module: &Module,
    indices: &IdsToIndices,
    dst: &mut Vec<u8>,
    map: &mut Vec<(InstrLocId, usize)>,
) -> Result<(), RewriteError>
    requires { HasEntry function.now.builder }
    ensures ok { OnOk result (AppendsRawBody (emit_input indices.now «module».now function.now)
        function.now.builder dst.old.items dst.new.items
        (Some (map.old.items, map.new.items))) }
    ensures err { IfErr result (IsNotAppended (emit_input indices.now «module».now function.now)
        function.now.builder) }
    ensures same_bytes { OnErr result (dst.new.items ≡ dst.old.items) }
    ensures same_pairs { OnErr result (map.new.items ≡ map.old.items) }
{
    let facts = match function.emit_facts() {
        Ok(facts) => facts,
        Err(fault) => return Err(RewriteError::Walk(fault)),
    };
    free_if_empty(dst, map);
    let alloc = *dst.allocator();
    let mut pairs = Vec::new(alloc);
    let used = &facts.used_locals;
    match raw_body_with_map(alloc, function, used, module, indices, &mut pairs) {
        Ok(bytes) => Ok(append_lists(dst, map, bytes, pairs)?),
        Err(fault) => Err(RewriteError::Emit(fault)),
    }
}

/// Appends the raw body of the function that a parse returned.
///
/// # Errors
///
/// `Parse` if the parse failed, else those of `append_raw_body`.
fn finish(
    parsed: Result<LocalFunction, ParseFailure>,
    module: &Module,
    indices: &IdsToIndices,
    dst: &mut Vec<u8>,
) -> Result<LocalFunction, RewriteError>
    requires { IfOk parsed (λ made. HasEntry made.builder) }
    ensures ok { IfOk result (λ made. (parsed ≡ Ok made)
        × AppendsRawBody (emit_input indices.now «module».now made) made.builder dst.old.items
        dst.new.items None) }
    ensures err { IfErr result (IsNotFinished (emit_input indices.now «module».now) parsed) }
    ensures same_bytes { OnErr result (dst.new.items ≡ dst.old.items) }
{
    match parsed {
        Ok(function) => match append_raw_body(&function, module, indices, dst) {
            Ok(()) => Ok(function),
            Err(error) => Err(error),
        },
        Err(failure) => Err(RewriteError::Parse(failure)),
    }
}

/// The same with the location pairs of the function.
///
/// # Errors
///
/// `Parse` if the parse failed, else those of `append_raw_body_with_map`.
fn finish_with_map(
    parsed: Result<LocalFunction, ParseFailure>,
    module: &Module,
    indices: &IdsToIndices,
    dst: &mut Vec<u8>,
    map: &mut Vec<(InstrLocId, usize)>,
) -> Result<LocalFunction, RewriteError>
    requires { IfOk parsed (λ made. HasEntry made.builder) }
    ensures ok { IfOk result (λ made. (parsed ≡ Ok made)
        × AppendsRawBody (emit_input indices.now «module».now made) made.builder dst.old.items
        dst.new.items (Some (map.old.items, map.new.items))) }
    ensures err { IfErr result (IsNotFinished (emit_input indices.now «module».now) parsed) }
    ensures same_bytes { OnErr result (dst.new.items ≡ dst.old.items) }
    ensures same_pairs { OnErr result (map.new.items ≡ map.old.items) }
{
    match parsed {
        Ok(function) => match append_raw_body_with_map(&function, module, indices, dst, map) {
            Ok(()) => Ok(function),
            Err(error) => Err(error),
        },
        Err(failure) => Err(RewriteError::Parse(failure)),
    }
}

/// Rewrites a function's body: parses it as `LocalFunction::parse` does, and appends to `dst` the
/// declarations of the function's locals and the operators of the normal form, in their shortest
/// encodings, with the new indices of `out`. If there is a list `map`, each operator's location is
/// appended to it, with its place, counted from the first byte that is appended. Returns the
/// function.
///
/// # Errors
///
/// `Parse` with the body's first fault and its place; else `Emit` if a used local or a new index is
/// missing, or a count is too large; or `Memory` of these or of `Walk`. `dst` and `map` are then
/// unchanged.
///
/// # Example
///
/// The location of the operator at `place` of the new body, as in `tests_body/src/locating.rt`:
///
/// ```text
/// let mut instrs = Vec::new(alloc);
/// let mut raw = Vec::new(alloc);
/// let mut pairs = Vec::new(alloc);
/// rewrite_body(
///     module,
///     indices,
///     FunctionId::new(0),
///     TypeId::new(1),
///     args,
///     body,
///     None::<&fn(&usize) -> InstrLocId>,
///     AcceptAll,
///     &mut instrs,
///     out,
///     &mut raw,
///     Some(&mut pairs),
/// )?;
/// locate(&pairs, place)
/// ```
pub fn rewrite_body<V: OpCheck, F: Fn(&usize) -> InstrLocId>(
    module: &Module,
    indices: &IndicesToIds,
    id: FunctionId,
    ty: TypeId,
    args: Vec<LocalId>,
    body: FunctionBody<'_>,
    on_instr_pos: Option<&F>,
    validator: V,
    instrs: &mut Vec<(Instr, InstrLocId)>,
    out: &IdsToIndices,
    dst: &mut Vec<u8>,
    map: Option<&mut Vec<(InstrLocId, usize)>>,
) -> Result<LocalFunction, RewriteError>
    requires offset { «module».now.code_section_offset ≤ body.start }
    requires ops { body.ops ≤ length body.bytes.now }
    requires fits { body.start + length body.bytes.now < 2 ^ 64 }
    requires may_call { MayCall F.pre on_instr_pos (body.start + body.ops)
        (body.start + length body.bytes.now) }
    // The appended bytes are the raw body of the accepted body's normal form: for every list of
    // outcomes and bound on turns it executes the operators of the source and ends alike, and its
    // pairs contain their locations. A refusal is for the first reason.
    ensures rewritten { IfOk result (λ made. Rewrites F.Fn (body_input «module».now indices.now
        id ty body.entry on_instr_pos.entry V.check (V.state validator))
        (input_for out.now «module».now args.items) made.builder made.instruction_mapping
        dst.old.items dst.new.items map.entry map.exit) }
    ensures refused { IfErr result (RefusesRewriting F.Fn (body_input «module».now indices.now
        id ty body.entry on_instr_pos.entry V.check (V.state validator))
        (input_for out.now «module».now args.items)) }
    // Unless memory runs out, the parse refuses no accepted body, and each first fault is returned.
    ensures each_body { IfAccepted (body_input «module».now indices.now id ty body.entry
        on_instr_pos.entry V.check (V.state validator)) (IfErr result IsOfWriting) }
    ensures each_fault { IfFirstFault (body_input «module».now indices.now id ty body.entry
        on_instr_pos.entry V.check (V.state validator))
        (λ f. IsErr result × IfErr result (λ e. IsOutOfMemory e ⊎ (e ≡ Parse f))) }
    ensures same_bytes { OnErr result (dst.new.items ≡ dst.old.items) }
    ensures same_pairs { OnErr result (KeepsPairs map.entry map.exit) }
    // The arguments of the function are these.
    ensures args { IfOk result (λ made. made.args ≡ args.items) }
    ensures range { IfOk result (λ made. made.original_range
        ≡ Some (range_of body.entry «module».now.code_section_offset)) }
    ensures instrs { instrs.new.items ≡ [] }
{
    let parsed = LocalFunction::parse(
        module,
        indices,
        id,
        ty,
        args,
        body,
        on_instr_pos,
        validator,
        instrs,
    );
    match map {
        Some(list) => finish_with_map(parsed, module, out, dst, list),
        None => finish(parsed, module, out, dst),
    }
}
