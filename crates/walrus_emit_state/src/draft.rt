//! Bytes and location pairs that are written aside.
ghost use Rattle.std.specs.Prelude.{◌≡◌, ◌<◌, ◌≤◌, ◌+◌, ◌^◌, ◌++◌, ◌∷◌, [], vec_len, vec_capacity, OnOk, OnErr, IfErr, IfSome, IfNone, length};
ghost use Rattle.std.specs.Bool.{OnTrue, OnFalse};
ghost use Rattle.wasm_operators.specs.AccessOperations.{access_of};
ghost use Rattle.wasm_operators.specs.Meaning.{meaning};
ghost use Rattle.wasm_operators.specs.Shortest.{short_number, short_integer, short_access, short_bits};
ghost use Rattle.wasm_encode.specs.Writable.{IsWritable};
ghost use Rattle.wasm_body.specs.Translation.{at_location};
ghost use Rattle.wasm_body.specs.declared.error.EmitError.TheVariants.{Memory};
ghost use Rattle.walrus_emit_state.specs.Emission.{pairs_after};
ghost use Rattle.walrus_emit_state.specs.TreeWriting.Drafts.{with_written, with_bytes, with_output, moved_on};

use std::alloc::{AllocError, Global};
use std::marker::Model;
use std::mem;
use walrus_ir::InstrLocId;
use walrus_maps::{list_with_room, make_room};
use wasm_body::EmitError;
use wasm_encode::{
    FunctionEncoder, OutOp, put_bits, put_byte, put_integer, put_memarg, put_number, write_op,
};
use wasm_operators::RawMemArg;

/// How many bytes an operator takes at most that is an opcode of one byte and a number, an integer
/// or a memory argument.
const ROOM: usize = 31;

/// How many bytes an operator takes on average, at most, in code of compilers.
const BYTES: usize = 3;

/// Reserves room for such an operator, and appends its pair if pairs are kept. Returns whether it
/// did. Otherwise both lists are unchanged.
#[inline(always)]
fn begin(
    bytes: &mut Vec<u8>,
    pairs: &mut Vec<(InstrLocId, usize)>,
    has_map: bool,
    base: usize,
    location: InstrLocId,
) -> bool
    requires { base < 2 ^ 63 }
    ensures bytes { bytes.new.items ≡ bytes.old.items }
    ensures room { OnTrue result (vec_len bytes.new + 31 ≤ vec_capacity bytes.new) }
    ensures pair { OnTrue result (pairs.new.items ≡ pairs_after has_map base
        (record { bytes = bytes.old.items; pairs = pairs.old.items }) location) }
    ensures unchanged { OnFalse result (pairs.new.items ≡ pairs.old.items) }
{
    if bytes.capacity() - bytes.len() < ROOM && !make_room(bytes, ROOM) {
        return false;
    }
    if !has_map {
        return true;
    }
    if pairs.len() == pairs.capacity() && !make_room(pairs, 1) {
        return false;
    }
    let place = base + bytes.len();
    pairs.push_reserved((location, place));
    true
}

/// What is written after so many bytes of others, fewer than 2^63: bytes, and for each operator its
/// location and its place, where these are asked for. A contract sees both lists.
#[derive(Drop)]
pub struct Draft {
    base: usize,
    has_map: bool,
    bytes: Vec<u8>,
    pairs: Vec<(InstrLocId, usize)>,
}

impl Model for Draft {
    ghost use Rattle.std.specs.Prelude.{◌<◌, ◌^◌};
    ghost use Rattle.walrus_emit_state.specs.TreeWriting.Drafts.{Drafted};

    ghost Value = { Drafted };

    ghost view = { λ d. record {
      base = d.base;
      has_map = d.has_map;
      output = record { bytes = d.bytes.items; pairs = d.pairs.items };
    } };

    ghost invariant = { λ d. d.base < 2 ^ 63 };
}

impl Draft {
    /// Nothing is written. There is room for about so many operators, if there is memory for it.
    pub fn new(alloc: Global, base: usize, has_map: bool, operators: usize) -> Draft
        requires { base < 2 ^ 63 }
        ensures { result ≡ record {
          base = base;
          has_map = has_map;
          output = record { bytes = []; pairs = [] };
        } }
    {
        Draft {
            base,
            has_map,
            bytes: list_with_room(alloc, operators.saturating_mul(BYTES)),
            pairs: list_with_room(alloc, if has_map { operators } else { 0 }),
        }
    }

    /// These bytes and these pairs are written, from the first byte of a body on.
    pub fn of_lists(bytes: Vec<u8>, pairs: Vec<(InstrLocId, usize)>, has_map: bool) -> Draft
        ensures { result ≡ record {
          base = 0;
          has_map = has_map;
          output = record { bytes = bytes.items; pairs = pairs.items };
        } }
    {
        Draft {
            base: 0,
            has_map,
            bytes,
            pairs,
        }
    }

    /// Whether pairs are kept.
    pub fn has_map(&self) -> bool
        ensures { result ≡ self.now.has_map }
    {
        self.has_map
    }

    /// Takes out what is written, so that nothing is left, and what is written next comes after it. If
    /// places could then be 2^63 and more, it does nothing.
    pub fn take_lists(&mut self) -> Option<(Vec<u8>, Vec<(InstrLocId, usize)>)>
        ensures some { IfSome result (λ lists. (record { bytes = lists.0.items; pairs = lists.1.items }
            ≡ self.old.output) × (self.new ≡ moved_on self.old)) }
        ensures none { IfNone result ((self.new ≡ self.old)
            × (2 ^ 63 ≤ self.old.base + length self.old.output.bytes)) }
    {
        let Some(base) = self.base.checked_add(self.bytes.len()) else {
            return None;
        };
        if base >= 1 << 63 {
            return None;
        }
        self.base = base;
        let alloc = *self.bytes.allocator();
        let bytes = mem::replace(&mut self.bytes, Vec::new(alloc));
        let pairs = mem::replace(&mut self.pairs, Vec::new(alloc));
        Some((bytes, pairs))
    }

    /// Replaces the bytes and the pairs.
    pub fn set_lists(&mut self, bytes: Vec<u8>, pairs: Vec<(InstrLocId, usize)>)
        ensures { self.new ≡ with_output self.old
            (record { bytes = bytes.items; pairs = pairs.items }) }
    {
        self.bytes = bytes;
        self.pairs = pairs;
    }

    /// Writes an operator that is one byte, at a location. Returns whether it did; if not, memory ran
    /// out, and the draft is unchanged.
    #[inline(always)]
    pub fn write_byte(&mut self, byte: u8, location: InstrLocId) -> bool
        ensures done { OnTrue result (self.new ≡ with_bytes self.old (byte ∷ []) location) }
        ensures unchanged { OnFalse result (self.new ≡ self.old) }
    {
        if !begin(
            &mut self.bytes,
            &mut self.pairs,
            self.has_map,
            self.base,
            location,
        ) {
            return false;
        }
        put_byte(&mut self.bytes, byte);
        true
    }

    /// Writes an operator that is a byte and a number, as `write_byte`.
    #[inline(always)]
    #[tactic(auto, using(std::proofs::Common::append_assoc))]
    pub fn write_number(&mut self, byte: u8, number: u32, location: InstrLocId) -> bool
        ensures done { OnTrue result
            (self.new ≡ with_bytes self.old (byte ∷ short_number number) location) }
        ensures unchanged { OnFalse result (self.new ≡ self.old) }
    {
        if !begin(
            &mut self.bytes,
            &mut self.pairs,
            self.has_map,
            self.base,
            location,
        ) {
            return false;
        }
        put_byte(&mut self.bytes, byte);
        put_number(&mut self.bytes, number as u64);
        true
    }

    /// Writes an operator that is a byte and an integer, as `write_byte`.
    #[inline(always)]
    #[tactic(auto, using(std::proofs::Common::append_assoc))]
    pub fn write_integer(&mut self, byte: u8, value: i64, location: InstrLocId) -> bool
        ensures done { OnTrue result
            (self.new ≡ with_bytes self.old (byte ∷ short_integer value) location) }
        ensures unchanged { OnFalse result (self.new ≡ self.old) }
    {
        if !begin(
            &mut self.bytes,
            &mut self.pairs,
            self.has_map,
            self.base,
            location,
        ) {
            return false;
        }
        put_byte(&mut self.bytes, byte);
        put_integer(&mut self.bytes, value);
        true
    }

    /// Writes an operator that is a byte and a memory argument, as `write_byte`.
    #[inline(always)]
    #[tactic(auto, using(std::proofs::Common::append_assoc))]
    pub fn write_access(&mut self, byte: u8, memarg: RawMemArg, location: InstrLocId) -> bool
        ensures done { OnTrue result
            (self.new ≡ with_bytes self.old (byte ∷ short_access (access_of memarg)) location) }
        ensures unchanged { OnFalse result (self.new ≡ self.old) }
    {
        if !begin(
            &mut self.bytes,
            &mut self.pairs,
            self.has_map,
            self.base,
            location,
        ) {
            return false;
        }
        put_byte(&mut self.bytes, byte);
        put_memarg(&mut self.bytes, memarg);
        true
    }

    /// Writes an operator that is a byte and at most eight bytes of bits, as `write_byte`.
    #[tactic(auto, using(std::proofs::Common::append_assoc))]
    pub fn write_bits(&mut self, byte: u8, count: u32, bits: u64, location: InstrLocId) -> bool
        requires { count ≤ 8 }
        ensures done { OnTrue result
            (self.new ≡ with_bytes self.old (byte ∷ short_bits count bits) location) }
        ensures unchanged { OnFalse result (self.new ≡ self.old) }
    {
        if !begin(
            &mut self.bytes,
            &mut self.pairs,
            self.has_map,
            self.base,
            location,
        ) {
            return false;
        }
        put_byte(&mut self.bytes, byte);
        put_bits(&mut self.bytes, count, bits);
        true
    }

    /// Writes an operator of any kind, at a location. Where memory runs out all is as before.
    #[inline(never)]
    pub fn write_any(&mut self, op: &OutOp, location: InstrLocId) -> Result<(), EmitError>
        requires { IsWritable (meaning op.now) }
        ensures ok { OnOk result
            (self.new ≡ with_written self.old (at_location (meaning op.now) location)) }
        ensures err { IfErr result (λ e. e ≡ Memory) }
        ensures unchanged { OnErr result (self.new ≡ self.old) }
    {
        if !self.has_map {
            write_op(op, &mut self.bytes)?;
            return Ok(());
        }
        let place = self.base + self.bytes.len();
        self.pairs.reserve(1)?;
        write_op(op, &mut self.bytes)?;
        self.pairs.push((location, place)).unwrap();
        Ok(())
    }

    /// Appends what is written, the pairs where they are asked for; an empty list of pairs becomes
    /// theirs. Where memory runs out both are as before.
    pub fn append_to(
        self,
        encoder: &mut FunctionEncoder,
        map: &mut Vec<(InstrLocId, usize)>,
    ) -> Result<(), AllocError>
        ensures bytes { OnOk result (encoder.new ≡ encoder.old ++ self.output.bytes) }
        ensures pairs { OnOk result (map.new.items ≡ map.old.items ++ self.output.pairs) }
        ensures err { OnErr result (encoder.new ≡ encoder.old) }
        ensures unchanged { OnErr result (map.new.items ≡ map.old.items) }
    {
        let Draft { bytes, pairs, .. } = self;
        if map.is_empty() {
            encoder.raw(bytes.as_slice())?;
            *map = pairs;
            return Ok(());
        }
        map.reserve(pairs.len())?;
        encoder.raw(&bytes)?;
        map.extend_from_slice(&pairs).unwrap();
        Ok(())
    }

    /// Appends the bytes that are written. Where memory runs out the encoder is as before.
    pub fn append_bytes_to(self, encoder: &mut FunctionEncoder) -> Result<(), AllocError>
        ensures ok { OnOk result (encoder.new ≡ encoder.old ++ self.output.bytes) }
        ensures err { OnErr result (encoder.new ≡ encoder.old) }
    {
        encoder.raw(&self.bytes)
    }

    /// The bytes and the pairs.
    pub fn into_lists(self) -> (Vec<u8>, Vec<(InstrLocId, usize)>)
        ensures bytes { result.0.items ≡ self.output.bytes }
        ensures pairs { result.1.items ≡ self.output.pairs }
    {
        (self.bytes, self.pairs)
    }
}
