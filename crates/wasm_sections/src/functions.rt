//! The functions of a module, imported ones first.

use crate::code::{Bodies, Body};
use walrus_ir::TypeId;

/// A function of a module that was read.
#[derive(Clone, Copy)]
pub struct Function<'a> {
    /// Its index.
    pub index: usize,
    /// Its type, for `ParsedModule::params` and `ParsedModule::results`.
    pub ty: TypeId,
    /// Its body; `None` if it is imported.
    pub body: Option<Body<'a>>,
}

/// The functions of a module by index, each with its type and its body.
#[derive(Clone, Copy)]
pub struct Functions<'p, 'a> {
    /// The types of the functions that are left.
    pub types: &'p [TypeId],
    /// The number of functions.
    pub total: usize,
    /// The number of imported functions.
    pub imported: usize,
    /// The bodies of the functions that are left.
    pub bodies: Bodies<'a>,
}

impl<'p, 'a> Iterator for Functions<'p, 'a> {
    ghost use Rattle.std.specs.Prelude.{length};
    ghost use Rattle.std.specs.Iterator.{at_most};
    ghost use Rattle.wasm_sections.specs.Views.{TakesFunction};

    type Item = Function<'a>;

    ghost next_gives = { TakesFunction };

    ghost remaining = { λ s. at_most (length s.types.now) };

    fn next(&mut self) -> Option<Function<'a>> {
        let index = self.total.saturating_sub(self.types.len());
        let (ty, types) = self.types.split_first()?;
        let ty = *ty;
        self.types = types;
        let body = if index < self.imported {
            None
        } else {
            self.bodies.next()
        };
        Some(Function { index, ty, body })
    }
}
