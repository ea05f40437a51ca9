//! Where the operators of a module that was made from another one come from.

ghost use Rattle.std.specs.Prelude.{true};

use module_debug::OperatorPlaces;
use std::alloc::{AllocError, Global};
use std::io;
use walrus_ir::InstrLocId;
use wasm_module::{MapSink, WrittenBody};

/// A place of a module, and the place of the same operator or body in its source.
#[derive(Clone, Copy)]
struct Origin {
    place: usize,
    old: usize,
}

/// The place in the source of the one at this place.
fn old_place(origins: &[Origin], place: usize) -> Option<usize> {
    let index = origins.partition_point(|origin| origin.place < place);
    match origins.get(index) {
        Some(origin) if origin.place == place => Some(origin.old),
        _ => None,
    }
}

/// Where the operators and the bodies of a module that was written come from.
#[derive(Drop)]
pub struct Origins {
    /// The operators that are ones of the source, by their places.
    operators: Vec<Origin>,
    /// The first bytes of the bodies, by their places.
    bodies: Vec<Origin>,
}

impl Origins {
    /// None yet.
    pub fn new(alloc: Global) -> Origins {
        Origins {
            operators: Vec::new(alloc),
            bodies: Vec::new(alloc),
        }
    }

    /// Adds a body and its operators.
    fn push(&mut self, body: WrittenBody<'_>) -> Result<(), AllocError> {
        if self
            .bodies
            .last()
            .is_none_or(|last| last.place != body.start)
        {
            self.bodies.push(Origin {
                place: body.start,
                old: body.old_start,
            })?;
        }
        for (location, place) in body.pairs {
            if !location.is_default() {
                self.operators.push(Origin {
                    place: body.start.saturating_add(*place),
                    old: location.data() as usize,
                })?;
            }
        }
        Ok(())
    }

    /// The place in the source of the body that begins at this place; the same place if there is none.
    pub fn body(&self, place: usize) -> usize {
        old_place(&self.bodies, place).unwrap_or(place)
    }

    /// The location in the source of the operator at this one; the default location if it isn't one of the source.
    fn operator(&self, location: InstrLocId) -> InstrLocId {
        if location.is_default() {
            return location;
        }
        match old_place(&self.operators, location.data() as usize) {
            Some(old) => match u32::try_from(old) {
                Ok(old) if old != u32::MAX => InstrLocId::new(old),
                _ => InstrLocId::default(),
            },
            None => InstrLocId::default(),
        }
    }

    /// Puts the location in the source in the place of each of these locations.
    pub fn trace(&self, pairs: &mut [(InstrLocId, usize)]) {
        for pair in pairs.iter_mut() {
            let (location, place) = *pair;
            *pair = (self.operator(location), place);
        }
    }
}

/// The listener of a module that is written and read again: it records where its operators come from.
#[derive(Drop)]
pub struct Recording {
    pub origins: Origins,
    /// The same for what moves debug information.
    pub places: OperatorPlaces,
}

impl MapSink for Recording {
    ghost records = { λ a b body. Unit {0} };

    ghost needs = { λ _. true };

    fn needs_pairs(&self) -> bool {
        true
    }

    fn record_body(&mut self, body: WrittenBody<'_>) -> io::Result<()> {
        self.places.record(body)?;
        match self.origins.push(body) {
            Ok(()) => Ok(()),
            Err(_) => Err(io::Error::from(io::ErrorKind::OutOfMemory)),
        }
    }

    ghost joins = { λ a b c body more p q. tt };
}
