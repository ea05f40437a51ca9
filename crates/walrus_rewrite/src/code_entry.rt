//! Functions as parts of a module.
ghost use Rattle.std.specs.Prelude.{◌≡◌, ◌+◌, ◌<◌, ◌≤◌, length, map, OnOk, OnErr, IfOk, IfErr};
ghost use Rattle.std.specs.List.{AllByRecursion};
ghost use Rattle.walrus_body.specs.LocalFunctions.{HasEntry};
ghost use Rattle.walrus_rewrite.specs.RawBodies.{emit_input, moved_pair, WritesEntry, RefusesEntry, AppendsEntry};

use crate::raw_body::raw_body_with_map;
use crate::whole_body::append_both;
use std::alloc::{AllocError, Global};
use walrus_body::{Emit, EmitContext, EmitError, IdsToIndices, LocalFunction};
use walrus_ir::{InstrLocId, Module};

/// Pairs whose places are moved up by `base`. None of them is then greater than the end.
fn moved_pairs(
    alloc: Global,
    pairs: &[(InstrLocId, usize)],
    base: usize,
    end: usize,
) -> Result<Vec<(InstrLocId, usize)>, AllocError>
    requires { AllByRecursion (λ p. base + p.1 ≤ end) pairs.now }
    ensures { IfOk result (λ made. made.items ≡ map (moved_pair base) pairs.now) }
{
    let mut made = Vec::new(alloc);
    let mut left = pairs;
    'left: while let Some(((location, place), following)) = left.split_first() {
        made.push((*location, base + *place))?;
        left = following;
    }
    Ok(made)
}

/// Appends the raw body of a function to the bytes, and its location pairs to the list. Their
/// places count from the first of all bytes.
///
/// # Errors
///
/// Those of `CodeEntry`. Both lists are then unchanged.
fn append_entry(
    function: &LocalFunction,
    module: &Module,
    indices: &IdsToIndices,
    bytes: &mut Vec<u8>,
    map: &mut Vec<(InstrLocId, usize)>,
) -> Result<(), EmitError>
    requires { HasEntry function.now.builder }
    ensures ok { OnOk result (AppendsEntry (emit_input indices.now «module».now function.now)
        function.now.builder bytes.old.items bytes.new.items map.old.items map.new.items) }
    ensures err { IfErr result (RefusesEntry (emit_input indices.now «module».now function.now)
        function.now.builder) }
    ensures same_bytes { OnErr result (bytes.new.items ≡ bytes.old.items) }
    ensures same_pairs { OnErr result (map.new.items ≡ map.old.items) }
{
    let facts = match function.emit_facts() {
        Ok(facts) => facts,
        Err(fault) => return Err(EmitError::from(fault)),
    };
    let alloc = *bytes.allocator();
    let mut pairs = Vec::new(alloc);
    let used = &facts.used_locals;
    let raw = match raw_body_with_map(alloc, function, used, module, indices, &mut pairs) {
        Ok(raw) => raw,
        Err(fault) => return Err(fault),
    };
    bytes.reserve(raw.len())?;
    let pairs = moved_pairs(alloc, &pairs, bytes.len(), bytes.capacity())?;
    append_both(bytes, map, &raw, &pairs)?;
    Ok(())
}

/// A function's entry in the code section, without its size: the declarations of its locals, and
/// its operators. It appends the raw body to the bytes of the context, and to its `code_transform`
/// the location of each operator with its place among these bytes; nothing else of the context
/// changes.
///
/// # Errors
///
/// `UnknownSequence` if the function has no entry; else the first fault of its sequences in walk
/// order; `TooLarge` if the number of instructions doesn't fit 64 bits; else the errors of
/// `LocalFunction::emit_locals` and then of `LocalFunction::emit_instructions`; or `Memory`.
#[derive(Clone, Copy)]
pub struct CodeEntry<'a> {
    /// The function.
    pub func: &'a LocalFunction,
}

impl Emit for CodeEntry<'_> {
    ghost use Rattle.std.specs.Prelude.{length};
    ghost use Rattle.walrus_body.specs.Emitting.{ChangesNothingElse};
    ghost use Rattle.walrus_rewrite.specs.RawBodies.{emit_input, WritesEntry, RefusesAnyEntry};

    ghost writes = { λ entry cx. WritesEntry (emit_input cx.indices.now cx.module.now entry.func.now)
        entry.func.now.builder (length cx.bytes.items) };

    ghost changes = { λ _. ChangesNothingElse };

    ghost refuses = { λ entry cx. RefusesAnyEntry (emit_input cx.indices.now cx.module.now
        entry.func.now) entry.func.now.builder };

    fn emit(&self, cx: &mut EmitContext<'_>) -> Result<(), EmitError> {
        if !self.func.has_entry() {
            return Err(EmitError::UnknownSequence);
        }
        append_entry(
            self.func,
            cx.module,
            cx.indices,
            &mut cx.bytes,
            &mut cx.code_transform,
        )
    }
}
