//! Where operators were and are, as a module is written.

ghost use Rattle.std.specs.Prelude.{◌≡◌};
ghost use Rattle.module_debug.specs.Places.{wants_places};

use location_pairs::{pack, unpack};
use std::alloc::{AllocError, Global};
use std::io;
use walrus_ir::InstrLocId;
use wasm_module::WrittenBody;

/// Operators of a body that was written, one after the other: all of them, or of a large body some.
#[derive(Clone, Copy)]
pub(crate) struct PlacedPiece {
    /// The place of the body's first byte in the source.
    pub old_start: usize,
    /// Its place in the module that was written.
    pub start: usize,
    /// Where the location pairs of the operators begin among those of all pieces, packed.
    from: usize,
    /// Where they end there.
    to: usize,
}

/// The operators of a module that is written, each with its places. A listener is told of bodies and passes them on to
/// `record`. They take some two bytes for each operator, and 32 for each body.
#[derive(Drop)]
pub struct OperatorPlaces {
    pub(crate) pieces: Vec<PlacedPiece>,
    packed: Vec<u8>,
    is_wanted: bool,
}

impl OperatorPlaces {
    /// No operators yet. If they aren't wanted, none are recorded.
    pub fn new(alloc: Global, is_wanted: bool) -> OperatorPlaces {
        OperatorPlaces {
            pieces: Vec::new(alloc),
            packed: Vec::new(alloc),
            is_wanted,
        }
    }

    /// Whether they are recorded.
    pub fn is_wanted(&self) -> bool
        ensures { result ≡ wants_places self.now }
    {
        self.is_wanted
    }

    /// Adds the operators of a body, or of a piece of one.
    fn push(&mut self, body: WrittenBody<'_>) -> Result<(), AllocError> {
        let from = self.packed.len();
        pack(body.pairs, &mut self.packed)?;
        let to = self.packed.len();
        self.pieces.push(PlacedPiece {
            old_start: body.old_start,
            start: body.start,
            from,
            to,
        })?;
        Ok(())
    }

    /// Records the operators of a body, if they are wanted.
    ///
    /// # Errors
    ///
    /// `OutOfMemory`.
    pub fn record(&mut self, body: WrittenBody<'_>) -> io::Result<()> {
        if !self.is_wanted {
            return Ok(());
        }
        match self.push(body) {
            Ok(()) => Ok(()),
            Err(_) => Err(io::Error::from(io::ErrorKind::OutOfMemory)),
        }
    }

    /// Puts the location pairs of the operators of a piece into a list that is lent. The places are counted
    /// from the first byte of the body.
    pub(crate) fn pairs_of(
        &self,
        piece: &PlacedPiece,
        pairs: &mut Vec<(InstrLocId, usize)>,
    ) -> Result<(), AllocError> {
        let packed = self.packed.get(piece.from..piece.to).unwrap_or(&[]);
        unpack(packed, pairs)
    }
}
