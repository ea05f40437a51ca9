//! Listeners, which are told of each body while a module is written: none, the writer of a location
//! map, or a caller's own.

ghost use Rattle.std.specs.Prelude.{◌≡◌, ◌≤◌, ◌+◌, ◌++◌, Bool, true, false, List, take, OnOk, IfOk};
ghost use Rattle.std.proofs.Common.{◌∙◌};
ghost use Rattle.std.specs.Io.KnownBytes.{Appends};
ghost use Rattle.wasm_body.specs.Pairs.{Pair};
ghost use Rattle.wasm_module.specs.MapText.{map_line, pair_line, body_lines};
ghost use Rattle.wasm_module.specs.Pieces.{lines_then};
ghost use Rattle.wasm_module.specs.ToldBodies.{ToldBody, told_by};

mod digits;

use crate::map_sink::digits::{Front, LINES, put_number};
use std::io;
use std::io::Write;
use walrus_ir::InstrLocId;

/// A body that is written.
#[derive(Clone, Copy)]
pub struct WrittenBody<'b> {
    /// The place of the body's first byte in the source.
    pub old_start: usize,
    /// The place of its first byte in the module that is written.
    pub start: usize,
    /// The location pairs of its operators, in the order in which they are written: the place in
    /// the source of the operator that each comes from, or the default location if it comes from
    /// none; and its place in the written body, counted from `start`. Empty if `needs_pairs` is
    /// false. Of a large body these are some of them.
    pub pairs: &'b [(InstrLocId, usize)],
}

/// A listener, which is told of each body that is written, in order.
///
/// A listener says what being told means: `needs` is whether it needs pairs in a state, and `records`
/// relates its states before and after it is told of a body.
pub trait MapSink {
    // In this state it was told of this body, and is in that one.
    ghost records: { Self → Self → ToldBody → Type 0 };

    // In this state it needs the location pairs of bodies.
    ghost needs: { Self → Bool };

    /// Whether the location pairs of the next body are wanted.
    fn needs_pairs(&self) -> bool
        ensures { result ≡ needs self.now };

    /// Tells of a body, before it is written. Of a large body it first tells with no pairs, and then
    /// with its pairs, some at a time, those of each operator before the operator is written.
    ///
    /// # Errors
    ///
    /// Why the module isn't written to its end.
    fn record_body(&mut self, body: WrittenBody<'_>) -> io::Result<()>
        ensures { OnOk result (records self.old self.new (told_by body.entry)) };

    // Told of a body with some pairs, and then with more of them, it is told of the body with all of
    // these.
    ghost joins: { (a b c : Self) (body : ToldBody) (more : List Pair) → records a b body
        → records b c (record body { pairs = more })
        → records a c (record body { pairs = body.pairs ++ more }) };
}

/// The listener that ignores everything.
#[derive(Clone, Copy, Drop)]
pub(crate) struct NoMap;

impl MapSink for NoMap {
    ghost records = { λ a b body. Unit {0} };

    ghost needs = { λ _. false };

    fn needs_pairs(&self) -> bool {
        false
    }

    fn record_body(&mut self, _body: WrittenBody<'_>) -> io::Result<()> {
        Ok(())
    }

    ghost joins = { λ a b c body more p q. tt };
}

/// The most bytes of a line: two numbers of at most 16 digits, a space and the end of the line.
const LONGEST_LINE: usize = 34;

/// The fronts of the two numbers of a line.
#[derive(Clone, Copy)]
struct Fronts {
    old: Front,
    new: Front,
}

/// Puts a line of a location map at a place of a buffer that has room for it. Returns the place after
/// it.
#[inline(always)]
fn put_line(buffer: &mut [u8; LINES], at: usize, old: u32, new: usize, fronts: &mut Fronts) -> usize
    requires { at + 34 ≤ 512 }
    ensures fits { result ≤ at + 34 }
    ensures written { take result buffer.new ≡ take at buffer.old ++ map_line old new }
{
    let space = put_number(buffer, at, old as u64, &mut fronts.old);
    buffer[space] = b' ';
    let end = put_number(buffer, space + 1, new as u64, &mut fronts.new);
    buffer[end] = b'\n';
    end + 1
}

/// Puts the line of an operator, if it is one of the source, at a place of a buffer that has room for
/// it. Returns the place after it. The operator's body is written at the place `start`.
///
/// # Errors
///
/// `FileTooLarge` where the operator's place is too great for a `usize`.
#[inline(always)]
fn put_pair(
    buffer: &mut [u8; LINES],
    at: usize,
    start: usize,
    pair: (InstrLocId, usize),
    fronts: &mut Fronts,
) -> io::Result<usize>
    requires { at + 34 ≤ 512 }
    ensures fits { IfOk result (λ end. end ≤ at + 34) }
    ensures written { IfOk result
        (λ end. take end buffer.new ≡ take at buffer.old ++ pair_line start pair) }
{
    let (location, place) = pair;
    if location.is_default() {
        return Ok(at);
    }
    match start.checked_add(place) {
        Some(new) => Ok(put_line(buffer, at, location.data(), new, fronts)),
        None => Err(io::Error::from(io::ErrorKind::FileTooLarge)),
    }
}

/// Writes the lines of a body, many at a time.
fn write_lines<M: Write>(body: WrittenBody<'_>, map: &mut M) -> io::Result<()>
    ensures { OnOk result (Appends (M.contents map.old) (M.contents map.new)
        (body_lines (told_by body.entry))) }
{
    let mut buffer = [0u8; LINES];
    let mut fronts = Fronts {
        old: Front::one(),
        new: Front::one(),
    };
    let mut end = 0;
    for pair in body.pairs {
        end = put_pair(&mut buffer, end, body.start, *pair, &mut fronts)?;
        if end > LINES - LONGEST_LINE {
            map.write_all(&buffer[..end])?;
            end = 0;
        }
    }
    map.write_all(&buffer[..end])
}

/// The writer of a location map: a line goes to it for each operator that is one of the source,
/// with its old and its new offset from the start of the file, in hexadecimal.
#[derive(Drop)]
pub struct MapLines<'m, M>(pub &'m mut M);

/// The error is that of the writer, or `FileTooLarge` where an offset is too great for a `usize`.
impl<M: Write> MapSink for MapLines<'_, M> {
    ghost records = { λ a b body. (b.0.ghost_name ≡ a.0.ghost_name)
        × Appends (M.contents a.0.now) (M.contents b.0.now) (body_lines body) };

    ghost needs = { λ _. true };

    fn needs_pairs(&self) -> bool {
        true
    }

    fn record_body(&mut self, body: WrittenBody<'_>) -> io::Result<()> {
        write_lines(body, self.0)
    }

    ghost joins = { λ a b c body more p q. (
      q.0 ∙ p.0,
      lines_then (M.contents a.0.now) (M.contents b.0.now) (M.contents c.0.now) body more p.1 q.1,
    ) };
}
