ghost use Rattle.std.specs.Prelude.{◌≡◌, ◌⊎◌, [], ◌∷◌, length, OnOk, OnErr, IfErr};
ghost use Rattle.wasm_body.specs.declared.error.EmitError.TheVariants.{Memory, TooLarge};
ghost use Rattle.walrus_body.specs.Emitting.{AppendsSome, IsUnchanged, ChangesNothingElse};

use crate::function_text::At;
use crate::small_module::Example;
use std::alloc::{AllocError, Global};
use std::test::Fail;
use walrus_body::{Emit, EmitContext, EmitError, IdsToIndices};
use walrus_ir::{IdHashMap, InstrLocId, Module};

// A `nop` with its location.
#[derive(Drop)]
struct Nop {
    location: InstrLocId,
}

impl Emit for Nop {
    ghost writes = { λ nop cx written. written ≡ record {
      bytes = 1 ∷ [];
      code_transform = (nop.location, length cx.bytes.items) ∷ [];
    } };

    ghost changes = { λ _. ChangesNothingElse };

    ghost refuses = { λ _ _ error. error ≡ Memory };

    fn emit(&self, cx: &mut EmitContext<'_>) -> Result<(), EmitError> {
        let place = cx.bytes.len();
        if cx.bytes.push(0x01).is_err() {
            return Err(EmitError::Memory);
        }
        if cx.code_transform.push((self.location, place)).is_err() {
            let _ = cx.bytes.pop();
            return Err(EmitError::Memory);
        }
        Ok(())
    }
}

// An operator that turns out to be too large after room for it is made.
#[derive(Drop)]
struct Oversized;

impl Emit for Oversized {
    ghost writes = { λ _ _ _. ⊥ };

    ghost changes = { λ _ _ _. ⊥ };

    ghost refuses = { λ _ _ error. (error ≡ Memory) ⊎ (error ≡ TooLarge) };

    fn emit(&self, cx: &mut EmitContext<'_>) -> Result<(), EmitError> {
        match cx.bytes.reserve(1) {
            Ok(()) => Err(EmitError::TooLarge),
            Err(_) => Err(EmitError::Memory),
        }
    }
}

// Writes a part through a reference, which has the same meaning as the part.
fn emit_through_reference<T: Emit>(part: &T, cx: &mut EmitContext<'_>) -> Result<(), EmitError>
    ensures ok { OnOk result (AppendsSome (T.writes part.now cx.old) cx.old cx.new) }
    ensures changes { OnOk result (T.changes part.now cx.old cx.new) }
    ensures refused { IfErr result (T.refuses part.now cx.old) }
    ensures err { OnErr result (IsUnchanged cx.old cx.new) }
    ensures same_indices { cx.new.indices.ghost_name ≡ cx.old.indices.ghost_name }
{
    <&T as Emit>::emit(&part, cx)
}

// Writes a part, one that is refused, and the part again. Returns how many were written.
fn emit_three(nop: &Nop, cx: &mut EmitContext<'_>) -> usize {
    let mut count = 0;
    if emit_through_reference(nop, cx) == Ok(()) {
        count += 1;
    }
    if emit_through_reference(&Oversized, cx) == Ok(()) {
        count += 10;
    }
    if emit_through_reference(nop, cx) == Ok(()) {
        count += 1;
    }
    count
}

// How many of three parts were written, the bytes, and the pairs.
fn emitted_text(alloc: Global, cx: &mut EmitContext<'_>) -> Result<String, AllocError> {
    let location = InstrLocId::new(7);
    let count = emit_three(&Nop { location }, cx);
    let mut text = format!(in alloc; "{count} {:?}", cx.bytes.as_slice())?;
    for (location, place) in &cx.code_transform {
        write!(text, " {}@{place}", At(*location))?;
    }
    Ok(text)
}

fn emitted_in(alloc: Global, module: &Module) -> Result<String, AllocError> {
    let mut indices = Box::new(alloc, IdsToIndices::new(alloc))?;
    let mut cx = EmitContext {
        module,
        indices: &mut indices,
        bytes: Vec::new(alloc),
        func_facts: IdHashMap::new(alloc),
        code_transform: Vec::new(alloc),
    };
    emitted_text(alloc, &mut cx)
}

fn emitted(alloc: Global) -> Result<String, Fail> {
    let example = Example::new(alloc, 0)?;
    Ok(emitted_in(alloc, &example.module)?)
}

/// A refused part leaves the bytes before it unchanged.
#[test]
fn a_refused_part_leaves_what_was_written(rt: HostRuntime) -> Result<(), Fail> {
    let found = emitted(rt.alloc())?;
    assert_eq!(rt; found.as_str(), "2 [1, 1] 7@0 7@1");
    Ok(())
}
