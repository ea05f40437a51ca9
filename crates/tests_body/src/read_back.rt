//! The bytes written for a body are read again and written unchanged: by the contracts of parsing
//! and writing, by the laws of reading back, and because a function has one tree.
ghost use Rattle.std.specs.Prelude.{◌≡◌, ◌⊎◌, ◌≤◌, ℕ, List, drop, length, IfOk, IfErr, IsErr};
ghost use Rattle.wasm_body.specs.declared.error.ParseError.TheVariants as parse;
ghost use Rattle.wasm_body.specs.declared.error.ParseFailure.{ParseFailure as Failure};
ghost use Rattle.wasm_body.specs.SourceTree.{Body};
ghost use Rattle.wasm_body.specs.Naming.{Occurrence};
ghost use Rattle.wasm_body.specs.Parsing.Accepted.{Accepted, FirstFault};
ghost use Rattle.wasm_body.specs.Bytes.{tree_bytes};
ghost use Rattle.wasm_body.specs.FunctionTree.{FunctionTree};
ghost use Rattle.wasm_body.specs.ReadBack.{IsInverse};
ghost use Rattle.wasm_body.specs.TreeOfFunction.{HasTree};
ghost use Rattle.walrus_maps.specs.Environments.{environment_of};
ghost use Rattle.walrus_body.specs.LocalFunctions.{HasEntry, first_slot};
ghost use Rattle.walrus_body.specs.EmittedInstructions.{IsNotEmitted};
ghost use Rattle.walrus_numbering.specs.NumberMaps.{numbers_by};
ghost use Rattle.walrus_rewrite.specs.declared.error.RewriteError.{RewriteError as Refusal};
ghost use Rattle.walrus_rewrite.specs.Errors.{IsOutOfMemory};
ghost use Rattle.tests_body.specs.ReadBack.{reading_by, IsReadAs, IsWrittenAs, HasBytes, HasFault, IsFirstFault, IsRefusedAs};

use std::alloc::{AllocError, Global};
use walrus_body::{
    AcceptAll, EmitError, FunctionBody, IdsToIndices, IndicesToIds, LocalFunction, ParseFailure,
};
use walrus_ir::{FunctionId, IdHashMap, InstrLocId, LocalId, Module, ModuleTypes, TypeId};
use walrus_run::{RewriteError, law_accepted_again, law_inverse_undoes};
use wasm_encode::FunctionEncoder;

/// Reads operators at place 0 as the body of a function of this type.
pub fn read(
    alloc: Global,
    module: &Module,
    indices: &IndicesToIds,
    id: FunctionId,
    ty: TypeId,
    ops: &[u8],
) -> Result<LocalFunction, ParseFailure>
    requires begins { «module».now.code_section_offset ≡ 0 }
    ensures accepted { IfOk result (λ made. IsReadAs (environment_of «module».now indices.now id ty)
        ops.now made.builder) }
    // A refusal is for the first fault.
    ensures refused { IfErr result (λ f. (f.error ≡ parse.Memory)
        ⊎ IsFirstFault (environment_of «module».now indices.now id ty) ops.now f) }
    // Unless memory runs out, each accepted body is returned and each first fault is reported.
    ensures each_body { (locate : ℕ → ℕ) (b : Body Occurrence)
        → Accepted (reading_by (environment_of «module».now indices.now id ty) locate) ops.now b
        → IfErr result (λ f. f.error ≡ parse.Memory) }
    ensures each_fault { (locate : ℕ → ℕ) (f : Failure)
        → FirstFault (reading_by (environment_of «module».now indices.now id ty) locate) ops.now f
        → IsErr result × IfErr result (λ e. (e.error ≡ parse.Memory) ⊎ (e ≡ f)) }
{
    let nowhere = |_: &usize| InstrLocId::default();
    let body = FunctionBody {
        bytes: ops,
        start: 0,
        ops: 0,
    };
    let mut instrs = Vec::new(alloc);
    LocalFunction::parse(
        module,
        indices,
        id,
        ty,
        Vec::new(alloc),
        body,
        Some(&nowhere),
        AcceptAll,
        &mut instrs,
    )
}

/// The bytes in an encoder after the first `count`.
fn bytes_after(
    alloc: Global,
    encoder: &FunctionEncoder,
    count: usize,
) -> Result<Vec<u8>, AllocError>
    requires { count ≤ length encoder.now }
    ensures { IfOk result (λ out. out.items ≡ drop count encoder.now) }
{
    let mut bytes = Vec::new(alloc);
    bytes.extend_from_slice(&encoder.bytes()[count..])?;
    Ok(bytes)
}

/// The bytes of a function's operators, with these numbers, in a module with these types.
pub fn written(
    alloc: Global,
    function: &LocalFunction,
    types: &ModuleTypes,
    out: &IdsToIndices,
    locals: &IdHashMap<LocalId, u32>,
) -> Result<Vec<u8>, EmitError>
    requires { HasEntry function.now.builder }
    ensures ok { IfOk result (λ bytes. (t : FunctionTree)
        × HasTree function.now.builder.sequences (first_slot function.now.builder) t
        × (tree_bytes (numbers_by types.now out.now locals.now.entries) t ≡ Ok bytes.items)) }
    ensures err { IfErr result (IsNotEmitted function.now.builder
        (numbers_by types.now out.now locals.now.entries)) }
{
    let Ok(mut encoder) = FunctionEncoder::new(alloc, &[]) else {
        return Err(EmitError::Memory);
    };
    let declared = encoder.byte_len();
    match function.emit_instructions(types, out, locals, &mut encoder, None) {
        Ok(()) => match bytes_after(alloc, &encoder, declared) {
            Ok(bytes) => Ok(bytes),
            Err(_) => Err(EmitError::Memory),
        },
        Err(fault) => Err(fault),
    }
}

/// Reads operators and writes them. Returns the bytes.
pub fn rewritten(
    alloc: Global,
    module: &Module,
    indices: &IndicesToIds,
    id: FunctionId,
    ty: TypeId,
    ops: &[u8],
    out: &IdsToIndices,
    locals: &IdHashMap<LocalId, u32>,
) -> Result<Vec<u8>, RewriteError>
    requires begins { «module».now.code_section_offset ≡ 0 }
    ensures written { IfOk result (λ bytes. IsWrittenAs
        (environment_of «module».now indices.now id ty) (numbers_by «module».now.types out.now locals.now.entries)
        ops.now bytes.items) }
    // A refusal is for the first fault of reading, or else of writing.
    ensures refused { IfErr result (λ e. IsOutOfMemory e
        ⊎ IsRefusedAs (environment_of «module».now indices.now id ty)
        (numbers_by «module».now.types out.now locals.now.entries) ops.now e) }
    // Unless memory runs out, the operators of an accepted body that has bytes are written with
    // these bytes, and each fault is reported.
    ensures each_body { (bytes : List ℕ) → HasBytes (environment_of «module».now indices.now id ty)
        (numbers_by «module».now.types out.now locals.now.entries) ops.now bytes
        → IfErr result IsOutOfMemory × IfOk result (λ made. made.items ≡ bytes) }
    ensures each_fault { (e : Refusal) → HasFault (environment_of «module».now indices.now id ty)
        (numbers_by «module».now.types out.now locals.now.entries) ops.now e
        → IsErr result × IfErr result (λ r. IsOutOfMemory r ⊎ (r ≡ e)) }
{
    match read(alloc, module, indices, id, ty, ops) {
        Ok(function) => match written(alloc, &function, &module.types, out, locals) {
            Ok(bytes) => Ok(bytes),
            Err(fault) => Err(RewriteError::Emit(fault)),
        },
        Err(failure) => Err(RewriteError::Parse(failure)),
    }
}

/// Reads operators and writes them, reads the written bytes with maps that undo the numbers, and
/// writes them again. Returns the bytes of both, which are the same.
pub fn rewritten_twice(
    alloc: Global,
    module: &Module,
    indices: &IndicesToIds,
    again: &IndicesToIds,
    id: FunctionId,
    ty: TypeId,
    ops: &[u8],
    out: &IdsToIndices,
    locals: &IdHashMap<LocalId, u32>,
) -> Result<(Vec<u8>, Vec<u8>), RewriteError>
    requires begins { «module».now.code_section_offset ≡ 0 }
    requires undone { IsInverse (numbers_by «module».now.types out.now locals.now.entries)
        (environment_of «module».now again.now id ty) }
    ensures written { IfOk result (λ both. IsWrittenAs
        (environment_of «module».now indices.now id ty) (numbers_by «module».now.types out.now locals.now.entries)
        ops.now both.0.items) }
    // The written bytes are read again and written unchanged.
    ensures unchanged { IfOk result (λ both. both.1.items ≡ both.0.items) }
    // And they aren't refused: a refusal is for the first fault of the operators that were passed.
    // Unless memory runs out, the operators of an accepted body that has bytes are written twice,
    // and each fault is reported.
    ensures refused { IfErr result (λ e. IsOutOfMemory e
        ⊎ IsRefusedAs (environment_of «module».now indices.now id ty)
        (numbers_by «module».now.types out.now locals.now.entries) ops.now e) }
    ensures each_body { (bytes : List ℕ) → HasBytes (environment_of «module».now indices.now id ty)
        (numbers_by «module».now.types out.now locals.now.entries) ops.now bytes → IfErr result IsOutOfMemory }
    ensures each_fault { (e : Refusal) → HasFault (environment_of «module».now indices.now id ty)
        (numbers_by «module».now.types out.now locals.now.entries) ops.now e
        → IsErr result × IfErr result (λ r. IsOutOfMemory r ⊎ (r ≡ e)) }
{
    law_inverse_undoes();
    law_accepted_again::<(), ()>();
    let first = match rewritten(alloc, module, indices, id, ty, ops, out, locals) {
        Ok(bytes) => bytes,
        Err(fault) => return Err(fault),
    };
    match rewritten(alloc, module, again, id, ty, &first, out, locals) {
        Ok(second) => Ok((first, second)),
        Err(fault) => Err(fault),
    }
}
