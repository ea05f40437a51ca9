//! The bytes written for a body, read back and written again.
ghost use Rattle.walrus_body.specs.LocalFunctions.{HasEntry};

use crate::demo::{Body, Demo, LOCALS, arguments, function, function_type, indices};
use crate::fault::Fault;
use std::alloc::{AllocError, Global};
use walrus_body::{AcceptAll, IndicesToIds, LocalFunction};
use walrus_ir::{IdHashMap, IdHashSet, InstrLocId, LocalId};
use walrus_run::rewrite_body;
use wasm_encode::FunctionEncoder;

/// The bytes written for a body: the declarations of its locals, and then its operators.
#[derive(Drop)]
pub(crate) struct Written {
    bytes: Vec<u8>,
    /// The place of the first operator.
    operators: usize,
    /// The ids of the numbers that are written.
    undoing: Box<IndicesToIds>,
}

impl Written {
    /// The written bytes as a body under the written numbers.
    pub(crate) fn body(&self) -> Body<'_> {
        Body {
            indices: &self.undoing,
            bytes: &self.bytes,
            operators: self.operators,
        }
    }
}

/// The locals that have numbers, in the order of their numbers, from 0 on.
fn by_number(alloc: Global, numbers: &IdHashMap<LocalId, u32>) -> Result<Vec<LocalId>, AllocError> {
    let mut locals = Vec::new(alloc);
    for number in 0..LOCALS as u32 {
        for local in 0..LOCALS {
            let local = LocalId::new(local);
            if numbers.get(&local).copied() == Some(number) {
                locals.push(local)?;
            }
        }
    }
    Ok(locals)
}

/// Appends a function's operators to its declarations. Returns their place.
fn append_operators(
    demo: &Demo,
    function: &LocalFunction,
    locals: &IdHashMap<LocalId, u32>,
    encoder: &mut FunctionEncoder,
) -> Result<usize, Fault>
    requires { HasEntry function.now.builder }
{
    let operators = encoder.byte_len();
    match function.emit_instructions(&demo.module.types, &demo.numbers, locals, encoder, None) {
        Ok(()) => Ok(operators),
        Err(error) => Err(Fault::from(error)),
    }
}

/// An encoder that begins with the declarations of the locals that a function uses, and the numbers
/// that they have.
fn begin(
    alloc: Global,
    demo: &Demo,
    function: &LocalFunction,
    used: &IdHashSet<LocalId>,
) -> Result<(FunctionEncoder, IdHashMap<LocalId, u32>), Fault> {
    let (declarations, locals) = match function.emit_locals(&demo.module, &demo.numbers, used) {
        Ok(made) => made,
        Err(error) => return Err(Fault::from(error)),
    };
    if declarations.len() > LOCALS {
        return Err(Fault::Unwritten);
    }
    Ok((FunctionEncoder::new(alloc, &declarations)?, locals))
}

/// The bytes of a body that begins with the declarations in this encoder.
fn finish(
    alloc: Global,
    demo: &Demo,
    function: &LocalFunction,
    mut encoder: FunctionEncoder,
    locals: &IdHashMap<LocalId, u32>,
) -> Result<Written, Fault>
    requires { HasEntry function.now.builder }
{
    let operators = append_operators(demo, function, locals, &mut encoder)?;
    let undoing = indices(alloc, &by_number(alloc, locals)?)?;
    Ok(Written {
        bytes: encoder.into_raw_body(),
        operators,
        undoing,
    })
}

/// The bytes written for a function that uses these locals.
fn write_using(
    alloc: Global,
    demo: &Demo,
    function: &LocalFunction,
    used: &IdHashSet<LocalId>,
) -> Result<Written, Fault>
    requires { HasEntry function.now.builder }
{
    let (encoder, locals) = begin(alloc, demo, function, used)?;
    finish(alloc, demo, function, encoder, &locals)
}

/// The bytes written for a function.
fn write(alloc: Global, demo: &Demo, function: &LocalFunction) -> Result<Written, Fault> {
    if !function.has_entry() {
        return Err(Fault::Unwritten);
    }
    match function.emit_facts() {
        Ok(facts) => write_using(alloc, demo, function, &facts.used_locals),
        Err(error) => Err(Fault::from(error)),
    }
}

/// The bytes that `rewrite_body` appends for a body.
fn append(alloc: Global, demo: &Demo, body: Body<'_>) -> Result<Vec<u8>, Fault> {
    let (mut instrs, mut pairs) = (Vec::new(alloc), Vec::new(alloc));
    let mut bytes = Vec::new(alloc);
    let rewritten = rewrite_body(
        &demo.module,
        body.indices,
        function(),
        function_type(),
        arguments(alloc)?,
        body.at_zero(),
        None::<&fn(&usize) -> InstrLocId>,
        AcceptAll,
        &mut instrs,
        &demo.numbers,
        &mut bytes,
        Some(&mut pairs),
    );
    match rewritten.err() {
        None => Ok(bytes),
        Some(error) => Err(Fault::from(error)),
    }
}

/// The bytes written for a body.
fn written_of(alloc: Global, demo: &Demo, source: Body<'_>) -> Result<Written, Fault> {
    match demo.parse(alloc, source) {
        Ok(function) => write(alloc, demo, &function),
        Err(fault) => Err(fault),
    }
}

/// The fault, unless both are the same.
fn compare(found: &[u8], written: &[u8], fault: Fault) -> Result<(), Fault> {
    if found == written { Ok(()) } else { Err(fault) }
}

/// Checks that these are the bytes written for a function.
fn is_written(
    alloc: Global,
    demo: &Demo,
    function: &LocalFunction,
    written: &[u8],
) -> Result<(), Fault> {
    match write(alloc, demo, function) {
        Ok(again) => compare(&again.bytes, written, Fault::WrittenOtherwise),
        Err(fault) => Err(fault),
    }
}

/// Checks that the written bytes are read back, and that the same bytes are written for them.
fn is_written_again(alloc: Global, demo: &Demo, written: &Written) -> Result<(), Fault> {
    match demo.parse(alloc, written.body()) {
        Ok(function) => is_written(alloc, demo, &function, &written.bytes),
        Err(fault) => Err(Fault::NotReadBack.unless(fault == Fault::Memory)),
    }
}

/// Checks that `rewrite_body` appends these bytes for a body.
fn is_appended(alloc: Global, demo: &Demo, source: Body<'_>, written: &[u8]) -> Result<(), Fault> {
    match append(alloc, demo, source) {
        Ok(found) => compare(&found, written, Fault::AppendsOthers),
        Err(fault) => Err(fault),
    }
}

/// Checks that the bytes written for a body are written again when they are read back, and that
/// `rewrite_body` appends them.
fn holds(alloc: Global, demo: &Demo, source: Body<'_>, written: &Written) -> Result<(), Fault> {
    is_written_again(alloc, demo, written)?;
    is_appended(alloc, demo, source, &written.bytes)
}

/// The bytes written for a body, after checking that they are written again when they are read back
/// and that `rewrite_body` appends them.
pub(crate) fn read_back(alloc: Global, demo: &Demo, source: Body<'_>) -> Result<Written, Fault> {
    let written = written_of(alloc, demo, source)?;
    match holds(alloc, demo, source, &written) {
        Ok(()) => Ok(written),
        Err(fault) => Err(fault),
    }
}
