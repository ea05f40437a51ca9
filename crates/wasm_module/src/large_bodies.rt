//! Where the bytes of a large body go while it is rewritten, and its location pairs: the bytes are
//! counted and compared with the source's, or they are written after a listener is told of the pairs.

ghost use Rattle.std.specs.Prelude.{◌≡◌, ◌+◌, [], length, refl, OnOk};
ghost use Rattle.std.proofs.Common.{◌∙◌};
ghost use Rattle.std.specs.Io.KnownBytes.{Appends};
ghost use Rattle.wasm_module.specs.Pieces.{counts_nothing, counts_both, appends_nothing, appends_then, tells_nothing, tells_both};
ghost use Rattle.wasm_module.specs.ToldBodies.{if_needed, TellsMore};

use crate::body_writer::Measured;
use crate::map_sink::{MapSink, WrittenBody};
use std::io;
use std::io::Write;
use walrus_flat::ByteSink;
use walrus_ir::InstrLocId;
use wasm_sections::PIECE;

/// Counts the bytes of a body, and compares them with those of the source.
#[derive(Drop)]
pub(crate) struct Counter<'a> {
    pub len: usize,
    /// The bytes of the source that are not compared yet.
    pub left: &'a [u8],
    /// Whether those that were compared are the same.
    pub is_same: bool,
}

impl<'a> Counter<'a> {
    /// Compares the next bytes with those of the source.
    fn compare(&mut self, bytes: &[u8])
        ensures { self.new.len ≡ self.old.len }
    {
        match self.left.split_at_checked(bytes.len()) {
            Some((front, left)) => {
                self.left = left;
                self.is_same = self.is_same && front == bytes;
            }
            None => self.is_same = false,
        }
    }

    /// What was counted.
    pub fn measured(&self) -> Measured
        ensures { result.len ≡ self.now.len }
    {
        Measured {
            len: self.len,
            is_same: self.is_same && self.left.is_empty(),
        }
    }
}

impl<'a> ByteSink for Counter<'a> {
    ghost takes = { λ a b o. b.len ≡ a.len + length o.bytes };

    const MOST: usize = PIECE;

    fn take(&mut self, bytes: &mut Vec<u8>, pairs: &mut Vec<(InstrLocId, usize)>) -> bool {
        let Some(len) = self.len.checked_add(bytes.len()) else {
            return false;
        };
        self.compare(bytes);
        self.len = len;
        bytes.clear();
        pairs.clear();
        true
    }

    ghost nothing = { λ s. counts_nothing s.len };

    ghost one_by_one = { λ a b c first second. counts_both a.len b.len c.len first.bytes
        second.bytes };
}

/// Tells a listener of the pairs of a body, writes its bytes, and counts them.
#[derive(Drop)]
pub(crate) struct BodyOutput<'w, T, W> {
    pub listener: &'w mut T,
    pub out: &'w mut W,
    /// The place of the body in the source, and in the module that is written.
    pub places: (usize, usize),
    /// Whether the listener needs the body's pairs.
    pub needs_pairs: bool,
    pub len: usize,
    /// The error of the listener or of the writer, if there was one.
    pub error: Option<io::Error>,
}

/// Tells a listener of some pairs of a body, if there are any and it needs them.
fn tell_piece<T: MapSink>(
    listener: &mut T,
    places: (usize, usize),
    needs_pairs: bool,
    pairs: &[(InstrLocId, usize)],
) -> io::Result<()>
    ensures { OnOk result (TellsMore T.records listener.old listener.new places.0 places.1
        (if_needed needs_pairs pairs.now)) }
{
    if !needs_pairs || pairs.is_empty() {
        return Ok(());
    }
    let (old_start, start) = places;
    listener.record_body(WrittenBody {
        old_start,
        start,
        pairs,
    })
}

/// Tells a listener of some pairs of a body, and writes some of its bytes.
fn write_piece<T: MapSink, W: Write>(
    listener: &mut T,
    places: (usize, usize),
    needs_pairs: bool,
    pairs: &[(InstrLocId, usize)],
    bytes: &[u8],
    out: &mut W,
) -> io::Result<()>
    ensures written { OnOk result (Appends (W.contents out.old) (W.contents out.new) bytes.now) }
    ensures told { OnOk result (TellsMore T.records listener.old listener.new places.0 places.1
        (if_needed needs_pairs pairs.now)) }
{
    tell_piece(listener, places, needs_pairs, pairs)?;
    out.write_all(bytes)
}

impl<'w, T: MapSink, W: Write> ByteSink for BodyOutput<'w, T, W> {
    ghost takes = { λ a b o. (b.out.ghost_name ≡ a.out.ghost_name)
        × Appends (W.contents a.out.now) (W.contents b.out.now) o.bytes
        × (b.len ≡ a.len + length o.bytes)
        × (b.listener.ghost_name ≡ a.listener.ghost_name)
        × (b.places ≡ a.places)
        × (b.needs_pairs ≡ a.needs_pairs)
        × TellsMore T.records a.listener.now b.listener.now a.places.0 a.places.1
        (if_needed a.needs_pairs o.pairs) };

    const MOST: usize = PIECE;

    fn take(&mut self, bytes: &mut Vec<u8>, pairs: &mut Vec<(InstrLocId, usize)>) -> bool {
        let Some(len) = self.len.checked_add(bytes.len()) else {
            return false;
        };
        let (places, needs_pairs) = (self.places, self.needs_pairs);
        match write_piece(self.listener, places, needs_pairs, pairs, bytes, self.out) {
            Ok(()) => {}
            Err(error) => {
                self.error = Some(error);
                return false;
            }
        }
        self.len = len;
        bytes.clear();
        pairs.clear();
        true
    }

    ghost nothing = { λ s. (
      refl,
      appends_nothing (W.contents s.out.now),
      counts_nothing s.len,
      refl,
      refl,
      refl,
      tells_nothing T.records s.places s.listener.now s.needs_pairs,
    ) };

    ghost one_by_one = { λ a b c first second p q. (
      q.0 ∙ p.0,
      appends_then (W.contents a.out.now) (W.contents b.out.now) (W.contents c.out.now)
          first.bytes second.bytes p.1 q.1,
      counts_both a.len b.len c.len first.bytes second.bytes p.2 q.2,
      q.3 ∙ p.3,
      q.4 ∙ p.4,
      q.5 ∙ p.5,
      tells_both T.records a.listener.now b.listener.now c.listener.now a.places b.places
          a.needs_pairs b.needs_pairs first.pairs second.pairs p.4 p.5 p.6 q.6,
    ) };
}
