//! Keeping a body that is written in pieces: its bytes and its location pairs are appended to those of
//! all as they come, and then it is kept.

ghost use Rattle.std.specs.Prelude.{◌≡◌, ◌+◌, ◌++◌, [], List, ℕ, take, length, OnOk, IfOk, is_some, true};
ghost use Rattle.std.specs.List.{between};
ghost use Rattle.location_pairs.specs.PackedPairs.{ArePackable};
ghost use Rattle.location_pairs.specs.PackedPieces.{HasPacked};
ghost use Rattle.wasm_body.specs.Pairs.{Pair};
ghost use Rattle.wasm_module.specs.declared.changing.kept_bodies.KeptBodies.{KeptBodies as Kept};
ghost use Rattle.wasm_module.specs.KeptCode.{packs_in, pack_if, KeepsAtMost, KeepsAtMostWith};
ghost use Rattle.wasm_module.specs.KeptParts.{IsPackAt};
ghost use Rattle.wasm_module.specs.KeptPieces.{HasTaken};

use crate::changing::kept_bodies::{KeptBodies, Part};
use location_pairs::Packer;
use std::alloc::AllocError;
use walrus_ir::InstrLocId;
use wasm_sections::Body;

impl<'a> KeptBodies<'a> {
    /// Appends bytes of the next body to those of all.
    ///
    /// # Errors
    ///
    /// Out of memory.
    pub(crate) fn push_bytes(&mut self, bytes: &[u8]) -> Result<(), AllocError>
        ensures raws { OnOk result (self.new.raws.items ≡ self.old.raws.items ++ bytes.now) }
        ensures first { self.new.first ≡ self.old.first }
        ensures bodies { self.new.bodies ≡ self.old.bodies }
        ensures pairs { self.new.pairs ≡ self.old.pairs }
    {
        self.raws.extend_from_slice(bytes)?;
        Ok(())
    }

    /// Begins to pack the location pairs of the next body, after those of all.
    ///
    /// # Errors
    ///
    /// Out of memory.
    pub(crate) fn begin_pairs(&mut self) -> Result<Packer, AllocError>
        ensures none { IfOk result (λ packer. HasPacked packer self.new.pairs.items []) }
        ensures begin { IfOk result (λ packer. packer.begin ≡ length self.old.pairs.items) }
        ensures front { take (length self.old.pairs.items) self.new.pairs.items
            ≡ self.old.pairs.items }
        ensures first { self.new.first ≡ self.old.first }
        ensures bodies { self.new.bodies ≡ self.old.bodies }
        ensures raws { self.new.raws ≡ self.old.raws }
    {
        Packer::new(&mut self.pairs)
    }

    /// Packs location pairs of the next body, after those that are packed.
    ///
    /// # Errors
    ///
    /// Out of memory.
    pub(crate) fn push_pairs(
        &mut self,
        packer: &mut Packer,
        pairs: &[(InstrLocId, usize)],
    ) -> Result<(), AllocError>
        ensures packed { (before : List Pair) → HasPacked packer.old self.old.pairs.items before
            → OnOk result (HasPacked packer.new self.new.pairs.items (before ++ pairs.now)) }
        ensures begin { packer.new.begin ≡ packer.old.begin }
        ensures front { take (length self.old.pairs.items) self.new.pairs.items
            ≡ self.old.pairs.items }
        ensures first { self.new.first ≡ self.old.first }
        ensures bodies { self.new.bodies ≡ self.old.bodies }
        ensures raws { self.new.raws ≡ self.old.raws }
    {
        packer.add(pairs, &mut self.pairs)
    }

    /// Ends the location pairs of the next body, if they are packed. Returns what part of those of all
    /// they are.
    ///
    /// # Errors
    ///
    /// Out of memory.
    fn end_pairs(&mut self, packer: Option<Packer>) -> Result<Part, AllocError>
        requires taken { (was : Kept) × (raw : List ℕ) × (ps : List Pair) × (from : ℕ)
            × HasTaken was self.old from packer raw ps }
        ensures packs { (was : Kept) (raw : List ℕ) (ps : List Pair) (from : ℕ)
            → HasTaken was self.old from packer raw ps → IfOk result (λ part.
            (packs_in self.new.pairs.items self.new.bodies.items
            ≡ packs_in was.pairs.items was.bodies.items)
            × (between part.from part.to self.new.pairs.items ≡ pack_if (is_some packer) ps)
            × (is_some packer ≡ true → ArePackable ps)) }
        ensures pack { IfOk result (IsPackAt self.new.pairs.items) }
        ensures first { self.new.first ≡ self.old.first }
        ensures bodies { self.new.bodies ≡ self.old.bodies }
        ensures raws { self.new.raws ≡ self.old.raws }
    {
        let Some(packer) = packer else {
            let end = self.pairs.len();
            return Ok(Part { from: end, to: end });
        };
        let from = packer.end(&mut self.pairs)?;
        let to = self.pairs.len();
        Ok(Part { from, to })
    }

    /// Keeps the next body: the bytes from this place on, and the location pairs that are packed last,
    /// if they are packed.
    ///
    /// # Errors
    ///
    /// Out of memory.
    pub(crate) fn keep_pushed(
        &mut self,
        source: Body<'a>,
        from: usize,
        packer: Option<Packer>,
    ) -> Result<(), AllocError>
        requires taken { (was : Kept) × (raw : List ℕ) × (ps : List Pair)
            × HasTaken was self.old from packer raw ps }
        requires next { source.func ≡ self.old.first + length self.old.bodies.items }
        ensures raws { (was : Kept) (raw : List ℕ) (ps : List Pair)
            → HasTaken was self.old from packer raw ps
            → OnOk result (KeepsAtMost source.entry raw was self.new) }
        ensures pairs { (was : Kept) (raw : List ℕ) (ps : List Pair)
            → HasTaken was self.old from packer raw ps
            → OnOk result (KeepsAtMostWith (is_some packer) source.entry raw ps was self.new) }
    {
        let to = self.raws.len();
        let pairs = self.end_pairs(packer)?;
        self.keep_parts(source, Part { from, to }, pairs)?;
        Ok(())
    }
}
