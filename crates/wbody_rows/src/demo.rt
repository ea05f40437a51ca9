//! The demo module: the index maps that `wbody` uses with it, and the bodies that are read in it.
ghost use Rattle.std.specs.Prelude.{◌≡◌, ◌≤◌, ◌<◌, ◌+◌, ◌^◌, length};

use crate::fault::Fault;
use std::alloc::{AllocError, Global};
use walrus_body::{AcceptAll, FunctionBody, IdsToIndices, IndicesToIds, LocalFunction};
use walrus_ir::{FunctionId, InstrLocId, LocalId, Module, TypeId};
use walrus_run::{NamedBody, demo};

/// The number of the module's locals. All of them are locals of function 0.
pub(crate) const LOCALS: usize = 4;

/// The function whose bodies are read.
pub(crate) fn function() -> FunctionId {
    FunctionId::new(0)
}

/// The type of that function.
pub(crate) fn function_type() -> TypeId {
    TypeId::new(1)
}

/// Its arguments.
pub(crate) fn arguments(alloc: Global) -> Result<Vec<LocalId>, AllocError> {
    Ok(vec![in alloc; LocalId::new(0)]?)
}

/// The module, whose code begins at the place 0, with the ids of its old indices and its new
/// indices. Each is in a box, which is dropped in one step: a function that owns one of them itself
/// takes long to prove.
#[derive(Drop)]
pub(crate) struct Demo {
    /// The module.
    pub module: Box<Module>,
    /// The ids of its old indices.
    pub indices: Box<IndicesToIds>,
    /// The new indices of its ids.
    pub numbers: Box<IdsToIndices>,
    ghost begins_at_zero: { «module».value.code_section_offset ≡ 0 },
}

/// The ids of the old indices, with these as function 0's locals, in order.
pub(crate) fn indices(alloc: Global, locals: &[LocalId]) -> Result<Box<IndicesToIds>, Fault> {
    let mut indices = demo::indices_of_items(alloc)?;
    for local in locals {
        indices.push_local(function(), *local)?;
    }
    Ok(indices)
}

/// A body of the function: its bytes, the place of its first operator, and the ids of its indices.
#[derive(Clone, Copy)]
pub(crate) struct Body<'a> {
    /// The ids of its indices.
    pub indices: &'a IndicesToIds,
    /// Its bytes, declarations included.
    pub bytes: &'a [u8],
    /// The place of the first operator among these bytes.
    pub operators: usize,
}

impl<'a> Body<'a> {
    /// The bytes, starting at the place 0.
    pub(crate) fn at_zero(&self) -> FunctionBody<'a>
        ensures start { result.start ≡ 0 }
        ensures ops { result.ops ≤ length result.bytes.now }
        ensures fits { result.start + length result.bytes.now < 2 ^ 64 }
    {
        FunctionBody {
            bytes: self.bytes,
            start: 0,
            ops: self.operators.min(self.bytes.len()),
        }
    }
}

/// The ids of the module's old indices, and its new indices.
fn maps(alloc: Global) -> Result<(Box<IndicesToIds>, Box<IdsToIndices>), Fault> {
    Ok((demo::indices(alloc)?, demo::numbers(alloc)?))
}

impl Demo {
    pub(crate) fn new(alloc: Global) -> Result<Demo, AllocError> {
        let module = demo::module(alloc)?;
        match maps(alloc) {
            Ok((indices, numbers)) => Ok(Demo {
                module,
                indices,
                numbers,
            }),
            Err(_) => Err(AllocError),
        }
    }

    /// The body with these bytes as its operators, no declarations, and the old indices.
    pub(crate) fn source<'a>(&'a self, bytes: &'a [u8]) -> Body<'a> {
        Body {
            indices: &self.indices,
            bytes,
            operators: 0,
        }
    }

    /// The function that has this body.
    pub(crate) fn parse(&self, alloc: Global, body: Body<'_>) -> Result<LocalFunction, Fault> {
        let mut instrs = Vec::new(alloc);
        let parsed = LocalFunction::parse(
            &self.module,
            body.indices,
            function(),
            function_type(),
            arguments(alloc)?,
            body.at_zero(),
            None::<&fn(&usize) -> InstrLocId>,
            AcceptAll,
            &mut instrs,
        );
        match parsed {
            Ok(function) => Ok(function),
            Err(failure) => Err(Fault::from(failure)),
        }
    }

    /// A body's operators, with the names that the module gives them.
    pub(crate) fn named(&self, alloc: Global, body: Body<'_>) -> Result<NamedBody, Fault> {
        let named = NamedBody::read(
            alloc,
            &self.module,
            body.indices,
            function(),
            function_type(),
            body.at_zero(),
        );
        match named {
            Ok(named) => Ok(named),
            Err(failure) => Err(Fault::from(failure)),
        }
    }
}
