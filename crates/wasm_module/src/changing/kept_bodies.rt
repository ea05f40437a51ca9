//! Bodies that are kept from the first pass over a module to the second, as they are written.

ghost use Rattle.std.specs.Prelude.{◌≡◌, ◌+◌, ◌≤◌, length};
ghost use Rattle.wasm_module.specs.KeptParts.{AreWithin, ArePacks};

mod pieces;

use crate::bodies::Scratch;
use crate::body_writer::{BodyWriter, Needed};
use crate::parsed::ParsedModule;
use location_pairs::{pack, unpack};
use std::alloc::{AllocError, Global};
use walrus_body::LocalFunction;
use wasm_sections::{Body, ModuleError, ModuleFault};

/// A part of a list of bytes: from this place up to that one.
#[derive(Clone, Copy)]
struct Part {
    from: usize,
    to: usize,
}

/// Where that is which is kept for a body of the source.
#[derive(Clone, Copy)]
struct KeptBody<'a> {
    /// The place of its first byte in the source.
    start: usize,
    /// Its bytes in the source.
    bytes: &'a [u8],
    /// The raw body that is written for it, in the list of all.
    raw: Part,
    /// The location pairs of that, packed, in the list of all; nothing if they aren't kept.
    pairs: Part,
}

/// What is kept for a body.
#[derive(Clone, Copy)]
pub(crate) struct KeptBytes<'k> {
    /// The raw body.
    pub raw: &'k [u8],
    /// Its location pairs, packed; nothing if they aren't kept.
    pub pairs: &'k [u8],
}

/// The bodies of a module as they are written, each with its location pairs, if these are kept. They
/// take the memory of their bytes, some two bytes more for each operator with pairs, and 56 bytes for
/// each body.
#[derive(Drop)]
pub struct KeptBodies<'a> {
    /// The index of the first function with a body.
    first: usize,
    /// That of each function from there on.
    bodies: Vec<KeptBody<'a>>,
    /// The raw bodies, one after the other.
    raws: Vec<u8>,
    /// Their packed location pairs, likewise.
    pairs: Vec<u8>,
    ghost within: { AreWithin (length raws.items) bodies.items },
    ghost packs: { ArePacks pairs.items bodies.items },
}

impl<'a> KeptBodies<'a> {
    ghost use Rattle.std.specs.Prelude.{◌∷◌, ◌++◌, [], true, List, OnOk, IfOk, IfSome};
    ghost use Rattle.std.specs.List.{between};
    ghost use Rattle.location_pairs.specs.PackedPairs.{ArePackable, packed_pairs};
    ghost use Rattle.wasm_body.specs.Pairs.{Pair};
    ghost use Rattle.wasm_module.specs.declared.parsed.ParsedModule.{ParsedModule as Parsed};
    ghost use Rattle.wasm_sections.specs.CodeSections.{body_at};
    ghost use Rattle.wasm_module.specs.KeptCode.{bodies_in, raws_in, raw_in, packs_in, packed_in, pack_if, IsKept, IsKeptWith, IsPackOf};
    ghost use Rattle.wasm_module.specs.KeptParts.{IsPackAt};
    ghost use Rattle.wasm_module.specs.WantedPairs.{wants_pairs};

    /// None, of a module whose first function with a body has this index. It allocates nothing.
    pub(crate) fn none(alloc: Global, first: usize) -> KeptBodies<'a>
        ensures first { result.first ≡ first }
        ensures none { result.bodies.items ≡ [] }
    {
        KeptBodies {
            first,
            bodies: Vec::new(alloc),
            raws: Vec::new(alloc),
            pairs: Vec::new(alloc),
        }
    }

    /// The same, with room for so many bodies and so many bytes of them.
    ///
    /// # Errors
    ///
    /// Out of memory.
    pub(crate) fn with_room(
        alloc: Global,
        first: usize,
        count: usize,
        len: usize,
    ) -> Result<KeptBodies<'a>, AllocError>
        ensures first { IfOk result (λ kept. kept.first ≡ first) }
        ensures none { IfOk result (λ kept. kept.bodies.items ≡ []) }
    {
        let bodies = Vec::with_capacity(alloc, count)?;
        let raws = Vec::with_capacity(alloc, len)?;
        Ok(KeptBodies {
            first,
            bodies,
            raws,
            pairs: Vec::new(alloc),
        })
    }

    /// How many there are.
    pub(crate) fn len(&self) -> usize
        ensures { result ≡ length self.now.bodies.items }
    {
        self.bodies.len()
    }

    /// How many bytes the raw bodies have.
    pub(crate) fn byte_len(&self) -> usize
        ensures { result ≡ length self.now.raws.items }
    {
        self.raws.len()
    }

    /// Whether the next body that is kept is that of this function.
    pub(crate) fn is_next(&self, func: usize) -> bool
        ensures { result ≡ true → func ≡ self.now.first + length self.now.bodies.items }
    {
        self.first.checked_add(self.bodies.len()) == Some(func)
    }

    /// Keeps what is written for a body, the next one: these parts of the raw bodies and of the location
    /// pairs.
    fn keep_parts(&mut self, source: Body<'a>, raw: Part, pairs: Part) -> Result<(), AllocError>
        requires within { raw.to ≤ length self.old.raws.items }
        requires pack { IsPackAt self.old.pairs.items pairs }
        ensures packs { OnOk result (packs_in self.old.pairs.items self.new.bodies.items
            ≡ packs_in self.old.pairs.items self.old.bodies.items
            ++ between pairs.from pairs.to self.old.pairs.items ∷ []) }
        ensures bodies { OnOk result (bodies_in self.new.bodies.items
            ≡ bodies_in self.old.bodies.items ++ body_at source.entry ∷ []) }
        ensures raws { OnOk result (raws_in self.old.raws.items self.new.bodies.items
            ≡ raws_in self.old.raws.items self.old.bodies.items
            ++ between raw.from raw.to self.old.raws.items ∷ []) }
        ensures len { OnOk result (length self.new.bodies.items
            ≡ length self.old.bodies.items + 1) }
        ensures first { self.new.first ≡ self.old.first }
        ensures raws_stay { self.new.raws ≡ self.old.raws }
        ensures pairs_stay { self.new.pairs ≡ self.old.pairs }
    {
        self.bodies.push(KeptBody {
            start: source.start(),
            bytes: source.bytes(),
            raw,
            pairs,
        })?;
        Ok(())
    }

    /// Keeps what is written for a body, the next one: this raw body, and this part of the location pairs.
    fn keep_raw(&mut self, source: Body<'a>, raw: &[u8], pairs: Part) -> Result<(), AllocError>
        requires pack { IsPackAt self.old.pairs.items pairs }
        ensures packs { OnOk result (packs_in self.new.pairs.items self.new.bodies.items
            ≡ packs_in self.old.pairs.items self.old.bodies.items
            ++ between pairs.from pairs.to self.old.pairs.items ∷ []) }
        ensures first { OnOk result (self.new.first ≡ self.old.first) }
        ensures bodies { OnOk result (bodies_in self.new.bodies.items
            ≡ bodies_in self.old.bodies.items ++ body_at source.entry ∷ []) }
        ensures raws { OnOk result (raws_in self.new.raws.items self.new.bodies.items
            ≡ raws_in self.old.raws.items self.old.bodies.items ++ raw.now ∷ []) }
        ensures len { OnOk result (length self.new.bodies.items
            ≡ length self.old.bodies.items + 1) }
    {
        let from = self.raws.len();
        self.push_bytes(raw)?;
        let to = self.raws.len();
        self.keep_parts(source, Part { from, to }, pairs)
    }

    /// Keeps the raw body that is written for a body, the next one, without its location pairs.
    ///
    /// # Errors
    ///
    /// Out of memory.
    pub(crate) fn keep_bytes(&mut self, source: Body<'a>, raw: &[u8]) -> Result<(), AllocError>
        ensures packs { OnOk result (packs_in self.new.pairs.items self.new.bodies.items
            ≡ packs_in self.old.pairs.items self.old.bodies.items ++ [] ∷ []) }
        ensures first { OnOk result (self.new.first ≡ self.old.first) }
        ensures bodies { OnOk result (bodies_in self.new.bodies.items
            ≡ bodies_in self.old.bodies.items ++ body_at source.entry ∷ []) }
        ensures raws { OnOk result (raws_in self.new.raws.items self.new.bodies.items
            ≡ raws_in self.old.raws.items self.old.bodies.items ++ raw.now ∷ []) }
        ensures len { OnOk result (length self.new.bodies.items
            ≡ length self.old.bodies.items + 1) }
    {
        let end = self.pairs.len();
        self.keep_raw(source, raw, Part { from: end, to: end })
    }

    /// Keeps what was written for a body, the next one, with its location pairs.
    ///
    /// # Errors
    ///
    /// Out of memory.
    pub(crate) fn keep(&mut self, source: Body<'a>, scratch: &Scratch) -> Result<(), AllocError>
        ensures packs { OnOk result (packs_in self.new.pairs.items self.new.bodies.items
            ≡ packs_in self.old.pairs.items self.old.bodies.items
            ++ packed_pairs scratch.now.pairs.items ∷ []) }
        ensures fit { OnOk result (ArePackable scratch.now.pairs.items) }
        ensures first { OnOk result (self.new.first ≡ self.old.first) }
        ensures bodies { OnOk result (bodies_in self.new.bodies.items
            ≡ bodies_in self.old.bodies.items ++ body_at source.entry ∷ []) }
        ensures raws { OnOk result (raws_in self.new.raws.items self.new.bodies.items
            ≡ raws_in self.old.raws.items self.old.bodies.items ++ scratch.now.raw.items ∷ []) }
        ensures len { OnOk result (length self.new.bodies.items
            ≡ length self.old.bodies.items + 1) }
    {
        let from = self.pairs.len();
        pack(&scratch.pairs, &mut self.pairs)?;
        let to = self.pairs.len();
        self.keep_raw(source, &scratch.raw, Part { from, to })
    }

    /// The same; the location pairs only if they are wanted.
    ///
    /// # Errors
    ///
    /// Out of memory.
    pub(crate) fn keep_with(
        &mut self,
        source: Body<'a>,
        scratch: &Scratch,
        has_pairs: bool,
    ) -> Result<(), AllocError>
        ensures packs { OnOk result (packs_in self.new.pairs.items self.new.bodies.items
            ≡ packs_in self.old.pairs.items self.old.bodies.items
            ++ pack_if has_pairs scratch.now.pairs.items ∷ []) }
        ensures fit { has_pairs ≡ true → OnOk result (ArePackable scratch.now.pairs.items) }
        ensures first { OnOk result (self.new.first ≡ self.old.first) }
        ensures bodies { OnOk result (bodies_in self.new.bodies.items
            ≡ bodies_in self.old.bodies.items ++ body_at source.entry ∷ []) }
        ensures raws { OnOk result (raws_in self.new.raws.items self.new.bodies.items
            ≡ raws_in self.old.raws.items self.old.bodies.items ++ scratch.now.raw.items ∷ []) }
    {
        match has_pairs {
            true => self.keep(source, scratch),
            false => self.keep_bytes(source, &scratch.raw),
        }
    }

    /// Where that is which is kept for this body, if something is.
    fn find(&self, body: Body<'_>) -> Option<KeptBody<'a>>
        ensures kept { (source : Parsed) → IfSome result (λ kept. IsKept self.now source
            body.entry.func (body_at body.entry) (raw_in self.now.raws.items kept)) }
        ensures pack { (source : Parsed) → IfSome result (λ kept. IsPackOf self.now source
            body.entry.func (body_at body.entry) (raw_in self.now.raws.items kept)
            (packed_in self.now.pairs.items kept)) }
    {
        let Some(at) = body.func.checked_sub(self.first) else {
            return None;
        };
        let Some(kept) = self.bodies.get(at) else {
            return None;
        };
        if kept.start != body.start() {
            return None;
        }
        if kept.bytes != body.bytes() {
            return None;
        }
        Some(*kept)
    }

    /// What is kept for this body, if something is.
    pub(crate) fn kept_for(&self, body: Body<'_>) -> Option<KeptBytes<'_>>
        ensures kept { (source : Parsed) → IfSome result (λ kept. IsKept self.now source
            body.entry.func (body_at body.entry) kept.raw.now) }
        ensures pack { (source : Parsed) → IfSome result (λ kept. IsPackOf self.now source
            body.entry.func (body_at body.entry) kept.raw.now kept.pairs.now) }
    {
        let kept = self.find(body)?;
        let raw = self.raws.get(kept.raw.from..kept.raw.to)?;
        let pairs = self.pairs.get(kept.pairs.from..kept.pairs.to)?;
        Some(KeptBytes { raw, pairs })
    }

    /// Puts the raw body that is kept for a body into the scratch. Returns whether one is kept.
    ///
    /// # Errors
    ///
    /// `Memory`.
    pub(crate) fn put(&self, body: Body<'_>, scratch: &mut Scratch) -> Result<bool, ModuleError>
        ensures { (source : Parsed) → IfOk result (λ is_put. is_put ≡ true → IsKept self.now source
            body.entry.func (body_at body.entry) scratch.new.raw.items) }
    {
        let Some(kept) = self.kept_for(body) else {
            return Ok(false);
        };
        scratch.raw.clear();
        scratch.raw.extend_from_slice(kept.raw)?;
        Ok(true)
    }

    /// The same of a body that is kept with its location pairs, which are put there too. Returns
    /// whether it is.
    ///
    /// # Errors
    ///
    /// `Memory`.
    pub(crate) fn put_with_pairs(
        &self,
        body: Body<'_>,
        scratch: &mut Scratch,
    ) -> Result<bool, ModuleError>
        ensures { (source : Parsed) → IfOk result (λ is_put. is_put ≡ true
            → IsKeptWith self.now source body.entry.func (body_at body.entry)
            scratch.new.raw.items scratch.new.pairs.items) }
    {
        let Some(kept) = self.kept_for(body) else {
            return Ok(false);
        };
        if kept.pairs.is_empty() {
            return Ok(false);
        }
        let Scratch { raw, pairs, .. } = scratch;
        unpack(kept.pairs, pairs)?;
        raw.clear();
        raw.extend_from_slice(kept.raw)?;
        Ok(true)
    }

    /// Puts the raw body alone of a body that is kept with its location pairs into the scratch. Returns
    /// whether it is.
    fn put_raw(&self, body: Body<'_>, scratch: &mut Scratch) -> Result<bool, ModuleError>
        ensures { (source : Parsed) → IfOk result (λ is_put. is_put ≡ true → (pairs : List Pair)
            × IsKeptWith self.now source body.entry.func (body_at body.entry)
            scratch.new.raw.items pairs) }
    {
        let Some(kept) = self.kept_for(body) else {
            return Ok(false);
        };
        if kept.pairs.is_empty() {
            return Ok(false);
        }
        scratch.raw.clear();
        scratch.raw.extend_from_slice(kept.raw)?;
        Ok(true)
    }

    /// The same, with its location pairs if they are needed.
    fn put_needed(
        &self,
        body: Body<'_>,
        needed: Needed,
        scratch: &mut Scratch,
    ) -> Result<bool, ModuleError>
        ensures { (source : Parsed) → IfOk result (λ is_put. is_put ≡ true → (pairs : List Pair)
            × IsKeptWith self.now source body.entry.func (body_at body.entry)
            scratch.new.raw.items pairs
            × (wants_pairs needed ≡ true → scratch.new.pairs.items ≡ pairs)) }
    {
        match needed {
            Needed::Nothing => self.put_raw(body, scratch),
            Needed::Pairs | Needed::Function => self.put_with_pairs(body, scratch),
        }
    }
}

/// Each body is written as it is kept, with the location pairs that are kept for it. One that isn't
/// kept, of another module than the one that was changed, or is kept without them has the fault
/// `BodyCount`.
impl BodyWriter for KeptBodies<'_> {
    ghost use Rattle.wasm_module.specs.KeptCode.{IsKeptWith};

    ghost writes = { IsKeptWith };

    ghost returns = { λ kept source function b made. ⊥ };

    fn write_body<'a>(
        &self,
        parsed: &mut ParsedModule<'a>,
        body: Body<'a>,
        needed: Needed,
        scratch: &mut Scratch,
    ) -> Result<Option<LocalFunction>, ModuleError> {
        let _ = parsed;
        match self.put_needed(body, needed, scratch)? {
            true => Ok(None),
            false => Err(ModuleError {
                fault: ModuleFault::BodyCount,
                at: body.start(),
            }),
        }
    }
}
