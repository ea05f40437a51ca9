//! Where the addresses of a module's code go, from the places of its operators.

use crate::places::{OperatorPlaces, PlacedPiece};
use code_moves::{Body, LocalMove, MoveError, Moves, Runs};
use dwarf_bytes::{DebugError, DebugFault};
use std::alloc::Global;
use walrus_ir::InstrLocId;
use wasm_module::{Bodies, ModuleError, ParsedModule, SectionKind, Sections};
use wasm_numbers::read_u32;
use wasm_ops::Reader;

/// Why the addresses of a module's code aren't known.
fn unknown() -> DebugError {
    DebugError::Fault(DebugFault::Unsupported)
}

/// The error of moves.
fn of_moves(error: MoveError) -> DebugError {
    match error {
        MoveError::Memory => DebugError::Memory,
        MoveError::Disordered => unknown(),
    }
}

/// A module that was read or written, and the place of the contents of its code section, from which addresses are counted.
#[derive(Clone, Copy)]
struct CodeBytes<'a> {
    bytes: &'a [u8],
    base: usize,
}

impl CodeBytes<'_> {
    /// The address of this place.
    fn address(&self, place: usize) -> Result<u32, DebugError> {
        let address = place.checked_sub(self.base).ok_or(unknown())?;
        u32::try_from(address).map_err(|_| unknown())
    }

    /// The place after the operator at this place.
    fn end_of(&self, place: usize) -> Result<usize, DebugError> {
        let rest = self.bytes.get(place..).ok_or(unknown())?;
        let mut reader = Reader::new(rest, 0);
        match reader.read() {
            Ok(_) => Ok(place.saturating_add(reader.original_position())),
            Err(_) => Err(unknown()),
        }
    }

    /// The local that the operator at this place names, if it is `local.get`, `local.set` or `local.tee`.
    fn local_of(&self, place: usize) -> Option<u32> {
        match self.bytes.get(place..)? {
            [0x20..=0x22, rest @ ..] => match read_u32(rest) {
                Ok((local, _)) => Some(local),
                Err(_) => None,
            },
            _ => None,
        }
    }
}

/// The code section of a module: where its contents are, and its bodies.
fn code_of(bytes: &[u8]) -> Result<(CodeBytes<'_>, Bodies<'_>), ModuleError> {
    for section in Sections::new(bytes)? {
        let section = section?;
        if section.kind == SectionKind::Code {
            let base = section.contents.at();
            let (_, bodies) = Bodies::of_section(section.contents, 0)?;
            return Ok((CodeBytes { bytes, base }, bodies));
        }
    }
    Ok((CodeBytes { bytes, base: 0 }, Bodies::none()))
}

/// The two modules.
#[derive(Clone, Copy)]
struct Both<'a> {
    source: CodeBytes<'a>,
    written: CodeBytes<'a>,
}

/// Where the first byte of a body and its end are, in both modules, and how many parameters its function has.
#[derive(Clone, Copy)]
struct BodyPlaces {
    begin: usize,
    end: usize,
    new_begin: usize,
    new_end: usize,
    parameters: u32,
}

/// Adds the operator that was at this location and is written at this place to the runs of its body.
fn push_operator(
    both: &Both<'_>,
    old: InstrLocId,
    new: usize,
    runs: &mut Runs,
) -> Result<(), DebugError> {
    let own = both.written.address(new)?;
    if old.is_default() {
        return runs.push_added(own).map_err(of_moves);
    }
    let place = old.data() as usize;
    let begin = both.source.address(place)?;
    let end = both.source.address(both.source.end_of(place)?)?;
    runs.push(begin, end, own).map_err(of_moves)
}

/// The declared local that this operator names, with its new index, if it is one of the source that names one.
fn local_of(both: &Both<'_>, old: InstrLocId, new: usize, parameters: u32) -> Option<LocalMove> {
    if old.is_default() {
        return None;
    }
    let old = both.source.local_of(old.data() as usize)?;
    let new = both.written.local_of(new)?;
    match old >= parameters {
        true => Some(LocalMove { old, new }),
        false => None,
    }
}

/// What is known of a body from its operators, as far as they were told.
#[derive(Drop)]
struct ToldOperators {
    runs: Runs,
    /// The declared locals that they name, each with its new index.
    locals: Vec<LocalMove>,
}

impl ToldOperators {
    /// Adds the operators of a piece.
    fn push_piece(
        &mut self,
        both: &Both<'_>,
        start: usize,
        pairs: &[(InstrLocId, usize)],
        parameters: u32,
    ) -> Result<(), DebugError> {
        for (old, place) in pairs {
            let new = start.saturating_add(*place);
            push_operator(both, *old, new, &mut self.runs)?;
            if let Some(local) = local_of(both, *old, new, parameters) {
                self.locals.push(local)?;
            }
        }
        Ok(())
    }
}

/// Where the addresses of a body go whose operators are in these pieces. The list of pairs is memory that is lent.
fn body_of(
    both: &Both<'_>,
    places: &OperatorPlaces,
    pieces: &[PlacedPiece],
    body: &BodyPlaces,
    pairs: &mut Vec<(InstrLocId, usize)>,
) -> Result<Body, DebugError> {
    let alloc = *pairs.allocator();
    let begin = both.source.address(body.begin)?;
    let new_begin = both.written.address(body.new_begin)?;
    let mut told = ToldOperators {
        runs: Runs::new(alloc, begin, new_begin),
        locals: Vec::new(alloc),
    };
    for piece in pieces {
        places.pairs_of(piece, pairs)?;
        told.push_piece(both, piece.start, pairs, body.parameters)?;
    }
    let ToldOperators { runs, mut locals } = told;
    locals.sort_by_key(|local: &LocalMove| local.old)?;
    locals.dedup_by_key(|local| local.old);
    let end = both.source.address(body.end)?;
    let new_end = both.written.address(body.new_end)?;
    runs.into_body(end, new_end, body.parameters, locals)
        .map_err(of_moves)
}

/// The first of these pieces, those of the body that begins at this place of the source; and the others.
fn parted(pieces: &[PlacedPiece], old_start: usize) -> (&[PlacedPiece], &[PlacedPiece]) {
    let count = pieces
        .iter()
        .position(|piece| piece.old_start != old_start)
        .unwrap_or(pieces.len());
    let own = pieces.get(..count).unwrap_or(&[]);
    (own, pieces.get(count..).unwrap_or(&[]))
}

/// The bodies of a module, in order: how many parameters each function has, and where its body is.
fn add_bodies(
    alloc: Global,
    parsed: &ParsedModule<'_>,
    both: &Both<'_>,
    written: Bodies<'_>,
    places: &OperatorPlaces,
    moves: &mut Moves,
) -> Result<(), DebugError> {
    let mut written = written;
    let mut left = places.pieces.as_slice();
    let mut pairs = Vec::new(alloc);
    let Ok(functions) = parsed.functions() else {
        return Err(unknown());
    };
    for function in functions {
        let Some(body) = function.body else {
            continue;
        };
        let (pieces, following) = parted(left, body.start());
        left = following;
        let Some(new) = written.next() else {
            return Err(unknown());
        };
        if pieces.is_empty() {
            return Err(unknown());
        }
        let parameters = parsed.params(function.ty).len();
        let place = BodyPlaces {
            begin: body.start(),
            end: body.start().saturating_add(body.bytes().len()),
            new_begin: new.start(),
            new_end: new.start().saturating_add(new.bytes().len()),
            parameters: u32::try_from(parameters).map_err(|_| unknown())?,
        };
        let moved = body_of(both, places, pieces, &place, &mut pairs)?;
        moves.push(moved).map_err(of_moves)?;
    }
    Ok(())
}

/// Where the addresses of a module's code go that was written so, with its operators at these places.
///
/// # Errors
///
/// `Unsupported` if the places aren't those of all bodies; out of memory.
pub(crate) fn moves_of(
    alloc: Global,
    parsed: &ParsedModule<'_>,
    written: &[u8],
    places: &OperatorPlaces,
) -> Result<Moves, DebugError> {
    let (Ok((source, _)), Ok((made, bodies))) = (code_of(parsed.bytes()), code_of(written)) else {
        return Err(unknown());
    };
    let both = Both {
        source,
        written: made,
    };
    let mut moves = Moves::new(alloc);
    add_bodies(alloc, parsed, &both, bodies, places, &mut moves)?;
    Ok(moves)
}
