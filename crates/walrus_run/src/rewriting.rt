//! Rewriting a body.
ghost use Rattle.std.specs.Prelude.{◌≡◌, ◌⊎◌, ◌≤◌, [], length, drop, IfOk, IfErr, IsErr};
ghost use Rattle.wasm_body.specs.declared.error.ParseFailure.{ParseFailure as Failure};
ghost use Rattle.wasm_body.specs.SourceTree.{Body};
ghost use Rattle.wasm_body.specs.Naming.{Occurrence};
ghost use Rattle.wasm_body.specs.NormalForm.{body_tree};
ghost use Rattle.wasm_body.specs.Parsing.Accepted.{Accepted, FirstFault};
ghost use Rattle.walrus_parser.specs.Bodies.{IsFunction};
ghost use Rattle.walrus_numbering.specs.NumberMaps.{numbers_by};
ghost use Rattle.walrus_rewrite.specs.declared.error.RewriteError.TheVariants.{Parse};
ghost use Rattle.walrus_run.specs.Demo.{demo, demo_module, demo_types, demo_indices, demo_args, demo_environment, demo_numbers};
ghost use Rattle.walrus_run.specs.Rewriting.{IsNormalBytes, IsRewrittenDemo, IsParsedDemo, IsFaulty};
ghost use Rattle.walrus_rewrite.specs.Errors.{IsOutOfMemory};

use crate::demo;
use std::alloc::{AllocError, Global};
use walrus_body::{AcceptAll, EmitError, FunctionBody, IdsToIndices, IndicesToIds, LocalFunction};
use walrus_ir::{FunctionId, InstrLocId, LocalId, Module, TypeId};
use walrus_rewrite::{RewriteError, begin_body};
use wasm_encode::FunctionEncoder;

/// The bytes of an encoder after the first `count`.
fn bytes_after(
    alloc: Global,
    encoder: &FunctionEncoder,
    count: usize,
) -> Result<Vec<u8>, AllocError>
    requires { count ≤ length encoder.now }
    ensures { IfOk result (λ out. out.items ≡ drop count encoder.now) }
{
    let mut bytes = Vec::new(alloc);
    bytes.extend_from_slice(&encoder.bytes()[count..])?;
    Ok(bytes)
}

/// The operators of a function that was parsed in the demo module, with the locals numbered by
/// their use.
fn written_operators(
    alloc: Global,
    function: &LocalFunction,
    module: &Module,
    numbers: &IdsToIndices,
) -> Result<Vec<u8>, RewriteError>
    requires module_is { «module».now ≡ demo_module }
    requires numbers_are { numbers_by demo_types numbers.now [] ≡ demo_numbers }
    requires args_are { function.now.args ≡ demo_args }
    requires is_parsed { IsParsedDemo function.now.builder }
    ensures ok { IfOk result (λ out. (b : Body Occurrence)
        → IsFunction function.now.builder (body_tree demo_environment b)
        → IsNormalBytes b out.items) }
    ensures err { IfErr result IsOutOfMemory }
{
    let facts = match function.emit_facts() {
        Ok(facts) => facts,
        Err(fault) => return Err(RewriteError::Walk(fault)),
    };
    let used = &facts.used_locals;
    let (mut encoder, locals) = match begin_body(alloc, function, used, module, numbers) {
        Ok(made) => made,
        Err(fault) => return Err(RewriteError::Emit(fault)),
    };
    let declared = encoder.byte_len();
    match function.emit_instructions(&module.types, numbers, &locals, &mut encoder, None) {
        Ok(()) => Ok(bytes_after(alloc, &encoder, declared)?),
        Err(fault) => Err(RewriteError::Emit(fault)),
    }
}

/// Rewrites operators with a module and index maps, which must be those of the demo module.
fn rewrite(
    alloc: Global,
    module: &Module,
    indices: &IndicesToIds,
    numbers: &IdsToIndices,
    ops: &[u8],
) -> Result<Vec<u8>, RewriteError>
    requires module_is { «module».now ≡ demo_module }
    requires indices_are { indices.now ≡ demo_indices }
    requires numbers_are { numbers_by demo_types numbers.now [] ≡ demo_numbers }
    ensures ok { IfOk result (λ out. IsRewrittenDemo ops.now out.items) }
    ensures err { IfErr result (λ e. IsOutOfMemory e ⊎ IsFaulty ops.now e) }
{
    let body = FunctionBody {
        bytes: ops,
        start: 0,
        ops: 0,
    };
    let mut args = Vec::new(alloc);
    if args.push(LocalId::new(0)).is_err() {
        return Err(RewriteError::Emit(EmitError::Memory));
    }
    let mut instrs = Vec::new(alloc);
    let parsed = LocalFunction::parse(
        module,
        indices,
        FunctionId::new(0),
        TypeId::new(1),
        args,
        body,
        None::<&fn(&usize) -> InstrLocId>,
        AcceptAll,
        &mut instrs,
    );
    match parsed {
        Ok(function) => written_operators(alloc, &function, module, numbers),
        Err(failure) => Err(RewriteError::Parse(failure)),
    }
}

/// Rewrites the operators of a body in the demo module: they are parsed as the body of its function
/// 0, which begins at place 0, and the tree is written with the same indices and with the locals
/// numbered by their use. Returns the bytes of `rewrite_body` without the declarations of locals.
///
/// # Errors
///
/// `Parse` with the first fault and its place if the operators are not accepted; the `Memory` of
/// any variant if memory runs out.
pub fn rewrite_demo(alloc: Global, ops: &[u8]) -> Result<Vec<u8>, RewriteError>
    // The result is the bytes of an accepted body's normal form, and a refusal is for the first
    // fault.
    ensures written { IfOk result (λ out. IsRewrittenDemo ops.now out.items) }
    ensures refused { IfErr result (λ e. IsOutOfMemory e ⊎ IsFaulty ops.now e) }

    // Unless memory runs out, each accepted body is rewritten and each first fault is reported.
    ensures each_body { (b : Body Occurrence) → Accepted demo ops.now b → IfErr result IsOutOfMemory × IfOk result (λ out. IsNormalBytes b out.items) }
    ensures each_fault { (f : Failure) → FirstFault demo ops.now f → IsErr result × IfErr result (λ e. IsOutOfMemory e ⊎ (e ≡ Parse f)) }
{
    let module = demo::module(alloc)?;
    let (Ok(indices), Ok(numbers)) = (demo::indices(alloc), demo::numbers(alloc)) else {
        return Err(RewriteError::Emit(EmitError::Memory));
    };
    rewrite(alloc, &module, &indices, &numbers, ops)
}
