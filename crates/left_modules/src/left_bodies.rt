//! The bodies that are left of a module without what nothing reaches, each where it was and where it is.

use crate::origins::Origins;
use module_removal::Remainder;
use std::alloc::Global;
use walrus_ir::InstrLocId;
use wasm_module::{
    Bodies, MapSink, ModuleError, ModuleFault, ParsedModule, Scratch, SectionKind, Sections,
    WriteError, WrittenBody,
};

/// The bodies of a module that was written.
pub fn written_bodies(made: &[u8]) -> Result<Bodies<'_>, ModuleError> {
    for section in Sections::new(made)? {
        let section = section?;
        if section.kind == SectionKind::Code {
            let (_, bodies) = Bodies::of_section(section.contents, 0)?;
            return Ok(bodies);
        }
    }
    Ok(Bodies::none())
}

/// A module that is written: what is left of the one that was read.
#[derive(Clone, Copy)]
pub struct LeftModule<'m> {
    /// What is left.
    pub remainder: &'m Remainder,
    /// Its bytes.
    pub made: &'m [u8],
    /// Where the operators of the module that was read come from, if that was made of another one.
    pub origins: Option<&'m Origins>,
}

impl LeftModule<'_> {
    /// Tells of a body, whose location pairs are lent, where it comes from.
    fn tell_body<T: MapSink>(
        &self,
        old_start: usize,
        start: usize,
        pairs: &mut Vec<(InstrLocId, usize)>,
        told: &mut T,
    ) -> Result<(), WriteError> {
        let mut old_start = old_start;
        if let Some(origins) = self.origins {
            origins.trace(pairs);
            old_start = origins.body(old_start);
        }
        let body = WrittenBody {
            old_start,
            start,
            pairs: pairs.as_slice(),
        };
        match told.record_body(body) {
            Ok(()) => Ok(()),
            Err(error) => Err(WriteError::Io(error)),
        }
    }

    /// Tells a listener of each body, in order.
    ///
    /// # Errors
    ///
    /// `BodyCount` if the module that was made has fewer bodies; those of the listener; or `Memory`.
    pub fn tell<T: MapSink>(
        &self,
        alloc: Global,
        parsed: &mut ParsedModule<'_>,
        told: &mut T,
    ) -> Result<(), WriteError> {
        let mut written = written_bodies(self.made)?;
        let mut scratch = Scratch::new(alloc);
        for old in parsed.bodies() {
            if !self.remainder.left.has_function(old.func) {
                continue;
            }
            let Some(new) = written.next() else {
                return Err(WriteError::from(old.input.fault(ModuleFault::BodyCount)));
            };
            parsed.rewrite_flat_with_pairs(old, &mut scratch)?;
            self.tell_body(old.start(), new.start(), &mut scratch.pairs, told)?;
        }
        Ok(())
    }
}
