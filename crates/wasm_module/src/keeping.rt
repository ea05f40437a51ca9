//! Keeping the bodies of a module as they are written in the first pass over it, so that the second
//! needn't write them again.

ghost use Rattle.std.specs.Prelude.{◌≡◌, ℕ, List, [], true, refl, is_some, OnOk, IfOk};
ghost use Rattle.std.proofs.Common.{◌∙◌};
ghost use Rattle.wasm_body.specs.Pairs.{Pair};
ghost use Rattle.wasm_module.specs.declared.parsed.ParsedModule.{ParsedModule as Parsed};
ghost use Rattle.wasm_module.specs.declared.changing.kept_bodies.KeptBodies.{KeptBodies as KeptBefore};
ghost use Rattle.wasm_module.specs.KeptCode.{IsKept, kept_or, KeepsAtMost, KeepsAtMostWith};
ghost use Rattle.wasm_module.specs.KeptPieces.{HasTaken, TakesPairs, TakesMore, takes_nothing, takes_both};
ghost use Rattle.wasm_module.specs.WantedPairs.{wants_pairs};
ghost use Rattle.wasm_sections.specs.CodeSections.{body_at};

use crate::bodies::Scratch;
use crate::body_writer::{BodyWriter, Measured, Needed};
use crate::changing::kept_bodies::KeptBodies;
use crate::large_bodies::Counter;
use crate::parsed::ParsedModule;
use location_pairs::Packer;
use std::alloc::Global;
use std::mem;
use walrus_body::LocalFunction;
use walrus_flat::ByteSink;
use walrus_ir::InstrLocId;
use wasm_sections::{Body, ModuleError, ModuleFault, PIECE};

/// How much is kept of what the first pass over a module writes. What isn't kept is written again in
/// the second, which takes as long as the first.
#[derive(Clone, Copy, Debug)]
pub struct Keeping {
    /// The most bytes of code that are kept. Of a module with more none are.
    pub most: usize,
    /// Whether location pairs are kept as well, for a second pass with a listener that needs them.
    /// They take some two bytes for each operator. `Kept::with_pairs` writes them.
    pub pairs: bool,
}

impl Keeping {
    /// Nothing.
    pub const NOTHING: Keeping = Keeping {
        most: 0,
        pairs: false,
    };

    /// Up to 64 MB of code, without location pairs.
    pub const CODE: Keeping = Keeping {
        most: 64 << 20,
        pairs: false,
    };

    /// The same, with location pairs.
    pub const CODE_WITH_PAIRS: Keeping = Keeping {
        most: 64 << 20,
        pairs: true,
    };
}

/// Keeps bodies in order, as they are written. From the first one on that can't be kept none are.
#[derive(Drop)]
pub(crate) struct Keeper<'a> {
    alloc: Global,
    keeping: Keeping,
    pub kept: KeptBodies<'a>,
}

impl<'a> Keeper<'a> {
    /// Keeps bodies of a module with so many, whose first function with a body has this index, and
    /// whose code section has so many bytes.
    pub fn new(
        alloc: Global,
        first: usize,
        count: usize,
        code_len: usize,
        keeping: Keeping,
    ) -> Keeper<'a>
        ensures { result.kept.bodies.items ≡ [] }
    {
        if code_len <= keeping.most
            && let Ok(kept) = KeptBodies::with_room(alloc, first, count, code_len)
        {
            return Keeper {
                alloc,
                keeping,
                kept,
            };
        }
        Keeper {
            alloc,
            keeping: Keeping::NOTHING,
            kept: KeptBodies::none(alloc, first),
        }
    }

    /// What is needed of a body that is written, where this is needed anyway.
    pub fn needed(&self, needed: Needed) -> Needed
        ensures { self.now.keeping.pairs ≡ true → wants_pairs result ≡ true }
    {
        match needed {
            Needed::Nothing => Needed::if_pairs(self.keeping.pairs),
            more => more,
        }
    }

    /// Keeps nothing, and frees what was kept.
    pub fn give_up(&mut self)
        ensures { self.new.kept.bodies.items ≡ [] }
    {
        self.keeping = Keeping::NOTHING;
        self.kept = KeptBodies::none(self.alloc, 0);
    }

    /// How many bytes more can be kept.
    fn room(&self) -> usize {
        self.keeping.most.saturating_sub(self.kept.byte_len())
    }

    /// Whether a body can be kept, if it has no more bytes than there is room for.
    pub fn takes(&self, body: Body<'a>) -> bool {
        self.keeping.most != 0 && self.kept.is_next(body.func)
    }

    /// Keeps what was written for a body, if it can.
    pub fn keep(&mut self, body: Body<'a>, scratch: &Scratch)
        ensures raws { KeepsAtMost body.entry scratch.now.raw.items self.old.kept self.new.kept }
        ensures pairs { KeepsAtMostWith self.old.keeping.pairs body.entry scratch.now.raw.items
            scratch.now.pairs.items self.old.kept self.new.kept }
    {
        if !self.kept.is_next(body.func) || scratch.raw.len() > self.room() {
            self.give_up();
            return;
        }
        match self.kept.keep_with(body, scratch, self.keeping.pairs) {
            Ok(()) => {}
            Err(_) => self.give_up(),
        }
    }

    /// A sink that takes a large body to be kept after the others, which it has until `keep_large`.
    pub fn large(&mut self, body: Body<'a>) -> LargeBody<'a>
        ensures taken { result.is_whole ≡ true
            → HasTaken self.old.kept result.kept result.from result.packer [] [] }
    {
        let (alloc, room) = (self.alloc, self.room());
        let mut kept = mem::replace(&mut self.kept, KeptBodies::none(alloc, 0));
        let from = kept.byte_len();
        let (packer, is_whole) = match self.keeping.pairs {
            true => match kept.begin_pairs() {
                Ok(packer) => (Some(packer), true),
                Err(_) => (None, false),
            },
            false => (None, true),
        };
        LargeBody {
            kept,
            from,
            packer,
            room,
            is_whole,
            counter: Counter {
                len: 0,
                left: body.bytes(),
                is_same: true,
            },
        }
    }

    /// Keeps a large body that a sink took, if it can, and takes back those before it. Returns what it
    /// takes.
    pub fn keep_large(&mut self, body: Body<'a>, large: LargeBody<'a>) -> Measured
        requires taken { large.is_whole ≡ true → (was : KeptBefore) × (raw : List ℕ)
            × (ps : List Pair) × HasTaken was large.kept large.from large.packer raw ps }
        ensures raws { (was : KeptBefore) (raw : List ℕ) (ps : List Pair) → (large.entry.is_whole ≡ true
            → HasTaken was large.entry.kept large.entry.from large.entry.packer raw ps)
            → KeepsAtMost body.entry raw was self.new.kept }
        ensures pairs { (was : KeptBefore) (raw : List ℕ) (ps : List Pair) → (large.entry.is_whole ≡ true
            → HasTaken was large.entry.kept large.entry.from large.entry.packer raw ps)
            → KeepsAtMostWith (is_some large.entry.packer) body.entry raw ps was self.new.kept }
    {
        let LargeBody {
            kept,
            from,
            packer,
            is_whole,
            counter,
            ..
        } = large;
        self.kept = kept;
        if !is_whole || !self.kept.is_next(body.func) {
            self.give_up();
            return counter.measured();
        }
        match self.kept.keep_pushed(body, from, packer) {
            Ok(()) => {}
            Err(_) => self.give_up(),
        }
        counter.measured()
    }
}

/// Takes a large body to be kept after others, and its location pairs if they are kept, if there is
/// room for it; and counts and compares its bytes in any case.
#[derive(Drop)]
pub(crate) struct LargeBody<'a> {
    /// The others, with its bytes and its packed pairs so far at the end of theirs, while `is_whole`.
    kept: KeptBodies<'a>,
    /// Where its bytes begin.
    from: usize,
    /// What packs its location pairs, if they are kept.
    packer: Option<Packer>,
    /// How many bytes more can be kept.
    room: usize,
    is_whole: bool,
    counter: Counter<'a>,
}

impl<'a> LargeBody<'a> {
    /// Whether its location pairs are kept.
    pub fn has_pairs(&self) -> bool
        ensures { result ≡ is_some self.now.packer }
    {
        self.packer.is_some()
    }

    /// Packs the next location pairs, if they are kept. Returns whether it could.
    fn pack(&mut self, pairs: &[(InstrLocId, usize)]) -> bool
        ensures takes { result ≡ true → TakesPairs self.old self.new pairs.now }
        ensures is_whole { self.new.is_whole ≡ self.old.is_whole }
        ensures from { self.new.from ≡ self.old.from }
        ensures has_pairs { is_some self.new.packer ≡ is_some self.old.packer }
    {
        match &mut self.packer {
            Some(packer) => self.kept.push_pairs(packer, pairs).is_ok(),
            None => true,
        }
    }

    /// Keeps the next bytes and the next location pairs, if there is room for them.
    fn keep(&mut self, bytes: &[u8], pairs: &[(InstrLocId, usize)])
        ensures takes { TakesMore self.old self.new bytes.now pairs.now }
        ensures has_pairs { is_some self.new.packer ≡ is_some self.old.packer }
    {
        if !self.is_whole {
            return;
        }
        match self.room.checked_sub(bytes.len()) {
            Some(room) if self.kept.push_bytes(bytes).is_ok() && self.pack(pairs) => {
                self.room = room
            }
            _ => self.is_whole = false,
        }
    }
}

impl<'a> ByteSink for LargeBody<'a> {
    ghost takes = { λ a b o. TakesMore a b o.bytes o.pairs
        × (is_some b.packer ≡ is_some a.packer) };

    const MOST: usize = PIECE;

    fn take(&mut self, bytes: &mut Vec<u8>, pairs: &mut Vec<(InstrLocId, usize)>) -> bool {
        self.keep(bytes, pairs);
        self.counter.take(bytes, pairs)
    }

    ghost nothing = { λ s. (takes_nothing s, refl) };

    ghost one_by_one = { λ a b c first second p q. (
      takes_both a b c first.bytes second.bytes first.pairs second.pairs p.0 q.0,
      q.1 ∙ p.1,
    ) };
}

/// How the bodies of a module are written of which some are kept: these as they were written, and all
/// others, and those of which more than their bytes is needed, by `B`.
#[derive(Drop)]
pub struct Kept<'a, B> {
    pub(crate) kept: KeptBodies<'a>,
    pub(crate) bodies: B,
}

impl<'a, B: Drop> Kept<'a, B> {
    /// The same bodies are kept, and all others are written in this way.
    pub fn with_bodies<C>(self, bodies: C) -> Kept<'a, C>
        ensures kept { result.kept ≡ self.entry.kept }
        ensures bodies { result.bodies ≡ bodies }
    {
        let Kept { kept, .. } = self;
        Kept { kept, bodies }
    }
}

/// Gives the next bytes of a body to a sink.
fn give<S: ByteSink>(
    bytes: &[u8],
    at: usize,
    scratch: &mut Scratch,
    sink: &mut S,
) -> Result<(), ModuleError>
    ensures { OnOk result (S.takes sink.old sink.new (record { bytes = bytes.now; pairs = [] })) }
{
    let Scratch { raw, pairs, .. } = scratch;
    raw.clear();
    pairs.clear();
    raw.extend_from_slice(bytes)?;
    match sink.take(raw, pairs) {
        true => Ok(()),
        false => Err(ModuleError {
            fault: ModuleFault::Memory,
            at,
        }),
    }
}

/// Gives the bytes of a body that begins at this place of the source to a sink, in pieces.
pub(crate) fn give_in_pieces<S: ByteSink>(
    bytes: &[u8],
    at: usize,
    scratch: &mut Scratch,
    sink: &mut S,
) -> Result<(), ModuleError>
    ensures { OnOk result (S.takes sink.old sink.new (record { bytes = bytes.now; pairs = [] })) }
{
    let mut left = bytes;
    'left: while !left.is_empty() {
        let (piece, following) = left.split_at(left.len().min(PIECE));
        give(piece, at, scratch, sink)?;
        left = following;
    }
    Ok(())
}

impl<B> Kept<'_, B> {
    /// Puts what is kept for a body into the scratch, if nothing else is needed of it. Returns whether
    /// it did.
    fn put(
        &self,
        body: Body<'_>,
        needed: Needed,
        scratch: &mut Scratch,
    ) -> Result<bool, ModuleError>
        ensures { (source : Parsed) → IfOk result (λ is_put. is_put ≡ true
            → IsKept self.now.kept source body.entry.func (body_at body.entry)
            scratch.new.raw.items) }
    {
        match needed {
            Needed::Nothing => self.kept.put(body, scratch),
            Needed::Pairs | Needed::Function => Ok(false),
        }
    }
}

impl<B: BodyWriter> BodyWriter for Kept<'_, B> {
    ghost writes = { λ self. kept_or self.kept (B.writes self.bodies) };

    ghost returns = { λ self. B.returns self.bodies };

    fn write_body<'a>(
        &self,
        parsed: &mut ParsedModule<'a>,
        body: Body<'a>,
        needed: Needed,
        scratch: &mut Scratch,
    ) -> Result<Option<LocalFunction>, ModuleError> {
        match self.put(body, needed, scratch) {
            Ok(true) => Ok(None),
            Ok(false) => self.bodies.write_body(parsed, body, needed, scratch),
            Err(error) => Err(error),
        }
    }

    fn measure_large_body<'a>(
        &self,
        parsed: &mut ParsedModule<'a>,
        body: Body<'a>,
        scratch: &mut Scratch,
    ) -> Result<Measured, ModuleError> {
        match self.kept.kept_for(body) {
            Some(kept) => Ok(Measured {
                len: kept.raw.len(),
                is_same: kept.raw == body.bytes(),
            }),
            None => self.bodies.measure_large_body(parsed, body, scratch),
        }
    }

    fn write_large_body<'a, S: ByteSink>(
        &self,
        parsed: &mut ParsedModule<'a>,
        body: Body<'a>,
        needs_pairs: bool,
        scratch: &mut Scratch,
        sink: &mut S,
    ) -> Result<(), ModuleError> {
        match self.kept.kept_for(body) {
            Some(kept) if !needs_pairs => give_in_pieces(kept.raw, body.start(), scratch, sink),
            _ => self
                .bodies
                .write_large_body(parsed, body, needs_pairs, scratch, sink),
        }
    }
}
