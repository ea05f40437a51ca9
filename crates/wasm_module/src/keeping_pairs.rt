//! Writing the bodies of a module of which some are kept with their location pairs.

ghost use Rattle.std.specs.Prelude.{◌≡◌, List, [], true, OnOk, IfOk, IfSome};
ghost use Rattle.location_pairs.specs.PackedPairs.{ArePackable, packed_pairs};
ghost use Rattle.walrus_emit_state.specs.Emission.{Output};
ghost use Rattle.wasm_body.specs.Pairs.{Pair};
ghost use Rattle.wasm_module.specs.declared.parsed.ParsedModule.{ParsedModule as Parsed};
ghost use Rattle.wasm_module.specs.KeptCode.{IsKeptWith, kept_with_or};
ghost use Rattle.wasm_sections.specs.CodeSections.{body_at};

use crate::bodies::Scratch;
use crate::body_writer::{BodyWriter, Measured, Needed};
use crate::changing::kept_bodies::{KeptBodies, KeptBytes};
use crate::keeping::{Kept, give_in_pieces};
use crate::parsed::ParsedModule;
use location_pairs::Unpacker;
use walrus_body::LocalFunction;
use walrus_flat::ByteSink;
use wasm_sections::{Body, ModuleError, ModuleFault};

/// How the bodies of a module are written of which some are kept with their location pairs: these as
/// they were written, and all others by `B`.
#[derive(Drop)]
pub struct KeptWithPairs<'a, B> {
    kept: KeptBodies<'a>,
    bodies: B,
}

impl<'a, B: Drop> Kept<'a, B> {
    /// The same bodies are kept. Those that are kept with their location pairs are written as they are
    /// kept, and all others as `B` writes them.
    pub fn with_pairs(self) -> KeptWithPairs<'a, B>
        ensures kept { result.kept ≡ self.entry.kept }
        ensures bodies { result.bodies ≡ self.entry.bodies }
    {
        let Kept { kept, bodies } = self;
        KeptWithPairs { kept, bodies }
    }
}

/// The most location pairs that are given to a sink at once.
const SOME_PAIRS: u64 = 4096;

/// Gives location pairs that are kept, packed, of a body that begins at this place of the source, to a
/// sink, some at a time.
fn give_pairs<S: ByteSink>(
    packed: &[u8],
    at: usize,
    scratch: &mut Scratch,
    sink: &mut S,
) -> Result<(), ModuleError>
    ensures { (ps : List Pair) → ArePackable ps → packed.now ≡ packed_pairs ps
        → OnOk result (S.takes sink.old sink.new (record { bytes = []; pairs = ps })) }
{
    let Scratch { raw, pairs, .. } = scratch;
    let mut unpacker = Unpacker::new(packed);
    'left: while unpacker.len() > 0 {
        unpacker.unpack_some(SOME_PAIRS, pairs)?;
        raw.clear();
        if !sink.take(raw, pairs) {
            return Err(ModuleError {
                fault: ModuleFault::Memory,
                at,
            });
        }
    }
    Ok(())
}

/// Gives what is kept of a body that begins at this place of the source to a sink: its location pairs,
/// if they are needed, and then its bytes, in pieces.
fn give_kept<S: ByteSink>(
    kept: KeptBytes<'_>,
    needs_pairs: bool,
    at: usize,
    scratch: &mut Scratch,
    sink: &mut S,
) -> Result<(), ModuleError>
    ensures { (ps : List Pair) → ArePackable ps → kept.entry.pairs.now ≡ packed_pairs ps
        → OnOk result ((took : Output) × (took.bytes ≡ kept.entry.raw.now)
        × (needs_pairs ≡ true → took.pairs ≡ ps) × S.takes sink.old sink.new took) }
{
    if !needs_pairs {
        return give_in_pieces(kept.raw, at, scratch, sink);
    }
    give_pairs(kept.pairs, at, scratch, sink)?;
    give_in_pieces(kept.raw, at, scratch, sink)
}

impl<B> KeptWithPairs<'_, B> {
    /// What is kept for a body, if it is kept with its location pairs.
    fn kept_for(&self, body: Body<'_>) -> Option<KeptBytes<'_>>
        ensures { (source : Parsed) → IfSome result (λ kept. (ps : List Pair) × ArePackable ps
            × (kept.pairs.now ≡ packed_pairs ps)
            × IsKeptWith self.now.kept source body.entry.func (body_at body.entry) kept.raw.now ps) }
    {
        let kept = self.kept.kept_for(body)?;
        if kept.pairs.is_empty() {
            return None;
        }
        Some(kept)
    }

    /// Puts what is kept for a body into the scratch, if its function isn't needed. Returns whether it
    /// did.
    fn put(
        &self,
        body: Body<'_>,
        needed: Needed,
        scratch: &mut Scratch,
    ) -> Result<bool, ModuleError>
        ensures { (source : Parsed) → IfOk result (λ is_put. is_put ≡ true
            → IsKeptWith self.now.kept source body.entry.func (body_at body.entry)
            scratch.new.raw.items scratch.new.pairs.items) }
    {
        match needed {
            Needed::Nothing | Needed::Pairs => self.kept.put_with_pairs(body, scratch),
            Needed::Function => Ok(false),
        }
    }
}

impl<B: BodyWriter> BodyWriter for KeptWithPairs<'_, B> {
    ghost writes = { λ self. kept_with_or self.kept (B.writes self.bodies) };

    ghost returns = { λ self. B.returns self.bodies };

    fn write_body<'a>(
        &self,
        parsed: &mut ParsedModule<'a>,
        body: Body<'a>,
        needed: Needed,
        scratch: &mut Scratch,
    ) -> Result<Option<LocalFunction>, ModuleError> {
        match self.put(body, needed, scratch) {
            Ok(true) => Ok(None),
            Ok(false) => self.bodies.write_body(parsed, body, needed, scratch),
            Err(error) => Err(error),
        }
    }

    fn measure_large_body<'a>(
        &self,
        parsed: &mut ParsedModule<'a>,
        body: Body<'a>,
        scratch: &mut Scratch,
    ) -> Result<Measured, ModuleError> {
        match self.kept_for(body) {
            Some(kept) => Ok(Measured {
                len: kept.raw.len(),
                is_same: kept.raw == body.bytes(),
            }),
            None => self.bodies.measure_large_body(parsed, body, scratch),
        }
    }

    fn write_large_body<'a, S: ByteSink>(
        &self,
        parsed: &mut ParsedModule<'a>,
        body: Body<'a>,
        needs_pairs: bool,
        scratch: &mut Scratch,
        sink: &mut S,
    ) -> Result<(), ModuleError> {
        match self.kept_for(body) {
            Some(kept) => give_kept(kept, needs_pairs, body.start(), scratch, sink),
            None => self
                .bodies
                .write_large_body(parsed, body, needs_pairs, scratch, sink),
        }
    }
}
