//! Bodies of a module: how they are parsed, rewritten and written.

ghost use Rattle.std.specs.Prelude.{◌≡◌, ℕ, true, List, [], length, bytes_eq, OnOk, IfOk, IfErr};
ghost use Rattle.wasm_body.specs.Pairs.{Pair};
ghost use Rattle.walrus_emit_state.specs.Emission.{Output};
ghost use Rattle.walrus_rewrite.specs.RawBodies.{emit_input, IsRawBodyOf};
ghost use Rattle.wasm_sections.specs.CodeSections.{body_at, body_bytes};
ghost use Rattle.wasm_module.specs.RewrittenCode.{Extends, IsRewritten, IsRewrittenWith, IsParsed};
ghost use Rattle.wasm_module.specs.ToldBodies.{if_needed};
ghost use Rattle.wasm_module.specs.Refusals.{IsRefusedBody, IsNotRewritten};

use crate::body_context::BodyContext;
use crate::body_errors::body_error;
use crate::body_writer::Measured;
use crate::large_bodies::Counter;
use crate::missing::with_types;
use crate::parsed::ParsedModule;
use std::alloc::Global;
use walrus_body::{EmitError, LocalFunction};
use walrus_flat::{ByteSink, FlatScratch, rewrite_flat, rewrite_flat_to};
use walrus_ir::{Instr, InstrLocId};
use walrus_rewrite::{RewriteError, append_raw_body_with_map, rewrite_body};
use wasm_sections::{Body, LocalsBelow, ModuleError, ModuleFault};

/// Memory that is lent to one body after the other, and the result of the last.
#[derive(Drop)]
pub struct Scratch {
    pub(crate) flat: FlatScratch,
    /// The raw body that was written last.
    pub raw: Vec<u8>,
    /// Its location pairs, if they were requested: for each operator that was written its location,
    /// which is its old place in the file, and its new place, counted from the first byte of the
    /// body.
    pub pairs: Vec<(InstrLocId, usize)>,
}

impl Scratch {
    /// An empty one. It allocates nothing.
    pub fn new(alloc: Global) -> Scratch {
        Scratch {
            flat: FlatScratch::new(alloc),
            raw: Vec::new(alloc),
            pairs: Vec::new(alloc),
        }
    }

    /// Its location pairs, if they are needed.
    pub(crate) fn pairs_if(&self, are_needed: bool) -> &[(InstrLocId, usize)]
        ensures { result.now ≡ if_needed are_needed self.now.pairs.items }
    {
        match are_needed {
            true => self.pairs.as_slice(),
            false => &[],
        }
    }

    /// What the raw body takes that was written last, for this body of the source.
    pub(crate) fn measured(&self, source: Body<'_>) -> Measured
        ensures len { result.len ≡ length self.now.raw.items }
        ensures same { result.is_same ≡ bytes_eq self.now.raw.items (body_bytes source.entry) }
    {
        Measured {
            len: self.raw.len(),
            is_same: self.raw.as_slice() == source.bytes(),
        }
    }
}

/// Rewrites a body without its tree, in the module as it is. Its location pairs go to this list, if
/// there is one; the scratch's own has the name that is given for it.
macro_rules! rewritten_flat {
    ($parsed:ident, $body:ident, $scratch:ident, $pairs:ident, $map:expr) => {{
        let Scratch {
            flat,
            raw,
            pairs: $pairs,
            ..
        } = $scratch;
        raw.clear();
        $pairs.clear();
        let BodyContext {
            ty,
            args,
            body: source,
            locals,
        } = $parsed.enter($body)?;
        let lists = $parsed.spaces.local_lists();
        let rewritten = rewrite_flat(
            &$parsed.module,
            &$parsed.spaces.indices,
            lists,
            ty,
            args.as_slice(),
            source,
            // A location is the operator's place in the file.
            None::<&fn(&usize) -> InstrLocId>,
            LocalsBelow(locals),
            &$parsed.spaces.numbers,
            flat,
            raw,
            $map,
        );
        match rewritten {
            Ok(()) => Ok(()),
            Err(error) => Err(body_error(error, $body.start())),
        }
    }};
}

/// The same by its tree, with the list of instructions that is lent.
macro_rules! rewritten {
    ($parsed:ident, $body:ident, $instrs:ident, $scratch:ident, $pairs:ident, $map:expr) => {{
        let Scratch {
            raw,
            pairs: $pairs,
            ..
        } = $scratch;
        raw.clear();
        $pairs.clear();
        $instrs.clear();
        let BodyContext {
            ty,
            args,
            body: source,
            locals,
        } = $parsed.enter($body)?;
        let lists = $parsed.spaces.local_lists();
        let rewritten = rewrite_body(
            &$parsed.module,
            &$parsed.spaces.indices,
            lists,
            ty,
            args,
            source,
            // A location is the operator's place in the file.
            None::<&fn(&usize) -> InstrLocId>,
            LocalsBelow(locals),
            $instrs,
            &$parsed.spaces.numbers,
            raw,
            $map,
        );
        match rewritten {
            Ok(function) => Ok(function),
            Err(error) => Err(body_error(error, $body.start())),
        }
    }};
}

impl<'a> ParsedModule<'a> {
    /// Rewrites a body without its tree, in the module as it is.
    fn rewrite_flat_once(
        &mut self,
        body: Body<'a>,
        scratch: &mut Scratch,
    ) -> Result<(), ModuleError>
        ensures extends { Extends self.old self.new }
        ensures rewritten { OnOk result
            (IsRewritten self.old body.entry.func (body_at body.entry) scratch.new.raw.items) }
        ensures refused { IfErr result
            (IsNotRewritten self.old body.entry.func (body_at body.entry) self.new) }
    {
        rewritten_flat!(
            self,
            body,
            scratch,
            pairs,
            None::<&mut Vec<(InstrLocId, usize)>>
        )
    }

    /// The same, with its location pairs.
    fn rewrite_flat_once_with_pairs(
        &mut self,
        body: Body<'a>,
        scratch: &mut Scratch,
    ) -> Result<(), ModuleError>
        ensures extends { Extends self.old self.new }
        ensures rewritten { OnOk result (IsRewrittenWith self.old body.entry.func
            (body_at body.entry) scratch.new.raw.items scratch.new.pairs.items) }
        ensures refused { IfErr result
            (IsNotRewritten self.old body.entry.func (body_at body.entry) self.new) }
    {
        rewritten_flat!(self, body, scratch, pairs, Some(pairs))
    }

    /// Rewrites a body as `rewrite` does, without its tree: the same bytes, at less cost.
    ///
    /// # Errors
    ///
    /// Those of `rewrite`.
    pub fn rewrite_flat(&mut self, body: Body<'a>, scratch: &mut Scratch) -> Result<(), ModuleError>
        ensures extends { Extends self.old self.new }
        ensures rewritten { OnOk result
            (IsRewritten self.old body.entry.func (body_at body.entry) scratch.new.raw.items) }
        ensures refused { IfErr result
            (IsNotRewritten self.old body.entry.func (body_at body.entry) self.new) }
    {
        with_types!(self, body, self.rewrite_flat_once(body, scratch))
    }

    /// The same as `rewrite_flat`, with its location pairs.
    ///
    /// # Errors
    ///
    /// Those of `rewrite`.
    pub fn rewrite_flat_with_pairs(
        &mut self,
        body: Body<'a>,
        scratch: &mut Scratch,
    ) -> Result<(), ModuleError>
        ensures extends { Extends self.old self.new }
        ensures rewritten { OnOk result (IsRewrittenWith self.old body.entry.func
            (body_at body.entry) scratch.new.raw.items scratch.new.pairs.items) }
        ensures refused { IfErr result
            (IsNotRewritten self.old body.entry.func (body_at body.entry) self.new) }
    {
        with_types!(self, body, self.rewrite_flat_once_with_pairs(body, scratch))
    }

    /// Rewrites a body without its tree, as `rewrite_flat`, to a sink, which takes its bytes, and its
    /// pairs if they are wanted. Types that only one of its handlers needs aren't added: `measure_flat`
    /// adds them.
    ///
    /// # Errors
    ///
    /// Those of `rewrite_flat`, and `Memory` where the sink couldn't take bytes. The sink may then have
    /// taken a part of the body.
    pub(crate) fn rewrite_flat_to<S: ByteSink>(
        &mut self,
        body: Body<'a>,
        needs_pairs: bool,
        scratch: &mut Scratch,
        sink: &mut S,
    ) -> Result<(), ModuleError>
        ensures extends { Extends self.old self.new }
        ensures rewritten { OnOk result ((took : Output) × (pairs : List Pair)
            × IsRewrittenWith self.old body.entry.func (body_at body.entry) took.bytes pairs
            × (needs_pairs ≡ true → took.pairs ≡ pairs)
            × S.takes sink.old sink.new took) }
        ensures refused { IfErr result
            (IsNotRewritten self.old body.entry.func (body_at body.entry) self.new) }
    {
        let BodyContext {
            ty,
            args,
            body: source,
            locals,
        } = self.enter(body)?;
        let lists = self.spaces.local_lists();
        let Scratch { flat, raw, .. } = scratch;
        let rewritten = rewrite_flat_to(
            &self.module,
            &self.spaces.indices,
            lists,
            ty,
            args.as_slice(),
            source,
            // A location is the operator's place in the file.
            None::<&fn(&usize) -> InstrLocId>,
            LocalsBelow(locals),
            &self.spaces.numbers,
            flat,
            raw,
            needs_pairs,
            sink,
        );
        match rewritten {
            Ok(()) => Ok(()),
            Err(error) => Err(body_error(error, body.start())),
        }
    }

    fn measure_flat_once(
        &mut self,
        body: Body<'a>,
        scratch: &mut Scratch,
    ) -> Result<Measured, ModuleError>
        ensures extends { Extends self.old self.new }
        ensures measured { IfOk result (λ measured. (raw : List ℕ) × (pairs : List Pair)
            × IsRewrittenWith self.old body.entry.func (body_at body.entry) raw pairs
            × (measured.len ≡ length raw)) }
        ensures refused { IfErr result
            (IsNotRewritten self.old body.entry.func (body_at body.entry) self.new) }
    {
        let mut counter = Counter {
            len: 0,
            left: body.bytes(),
            is_same: true,
        };
        match self.rewrite_flat_to(body, false, scratch, &mut counter) {
            Ok(()) => Ok(counter.measured()),
            Err(error) => Err(error),
        }
    }

    /// The number of bytes of the raw body that `rewrite_flat` makes, which isn't in memory all at once,
    /// and whether it is the source's.
    ///
    /// # Errors
    ///
    /// Those of `rewrite`.
    pub(crate) fn measure_flat(
        &mut self,
        body: Body<'a>,
        scratch: &mut Scratch,
    ) -> Result<Measured, ModuleError>
        ensures extends { Extends self.old self.new }
        ensures measured { IfOk result (λ measured. (raw : List ℕ) × (pairs : List Pair)
            × IsRewrittenWith self.old body.entry.func (body_at body.entry) raw pairs
            × (measured.len ≡ length raw)) }
        ensures refused { IfErr result
            (IsNotRewritten self.old body.entry.func (body_at body.entry) self.new) }
    {
        with_types!(self, body, self.measure_flat_once(body, scratch))
    }

    /// Rewrites a body by its tree, in the module as it is.
    fn rewrite_once(
        &mut self,
        body: Body<'a>,
        instrs: &mut Vec<(Instr, InstrLocId)>,
        scratch: &mut Scratch,
    ) -> Result<LocalFunction, ModuleError>
        ensures extends { Extends self.old self.new }
        ensures rewritten { OnOk result
            (IsRewritten self.old body.entry.func (body_at body.entry) scratch.new.raw.items) }
        // The function that is returned is the parsed one.
        ensures parsed { IfOk result
            (IsParsed self.old body.entry.func (body_at body.entry) self.new) }
        ensures refused { IfErr result
            (IsNotRewritten self.old body.entry.func (body_at body.entry) self.new) }
        ensures instrs { instrs.new.items ≡ [] }
    {
        rewritten!(
            self,
            body,
            instrs,
            scratch,
            pairs,
            None::<&mut Vec<(InstrLocId, usize)>>
        )
    }

    /// The same, with its location pairs.
    fn rewrite_once_with_pairs(
        &mut self,
        body: Body<'a>,
        instrs: &mut Vec<(Instr, InstrLocId)>,
        scratch: &mut Scratch,
    ) -> Result<LocalFunction, ModuleError>
        ensures extends { Extends self.old self.new }
        ensures rewritten { OnOk result (IsRewrittenWith self.old body.entry.func
            (body_at body.entry) scratch.new.raw.items scratch.new.pairs.items) }
        // The function that is returned is the parsed one.
        ensures parsed { IfOk result
            (IsParsed self.old body.entry.func (body_at body.entry) self.new) }
        ensures refused { IfErr result
            (IsNotRewritten self.old body.entry.func (body_at body.entry) self.new) }
        ensures instrs { instrs.new.items ≡ [] }
    {
        rewritten!(self, body, instrs, scratch, pairs, Some(pairs))
    }

    /// Rewrites a body: its declarations of locals and its operators, as
    /// `walrus_rewrite::rewrite_body` does. Types that only one of its handlers needs, and that the
    /// module lacks, are added after the others; they are not written. The list of instructions is
    /// memory that is lent: it is empty afterwards.
    ///
    /// # Errors
    ///
    /// The first fault of its declarations or of its operators, or why it can't be written, or
    /// `Memory`. The module is then unchanged, except for added types and the locals, which are
    /// those of one body at a time.
    pub fn rewrite(
        &mut self,
        body: Body<'a>,
        instrs: &mut Vec<(Instr, InstrLocId)>,
        scratch: &mut Scratch,
    ) -> Result<LocalFunction, ModuleError>
        ensures extends { Extends self.old self.new }
        ensures rewritten { OnOk result
            (IsRewritten self.old body.entry.func (body_at body.entry) scratch.new.raw.items) }
        // The function that is returned is the parsed one.
        ensures parsed { IfOk result
            (IsParsed self.old body.entry.func (body_at body.entry) self.new) }
        ensures refused { IfErr result
            (IsNotRewritten self.old body.entry.func (body_at body.entry) self.new) }
        ensures instrs { instrs.new.items ≡ [] }
    {
        with_types!(self, body, self.rewrite_once(body, instrs, scratch))
    }

    /// The same as `rewrite`, with its location pairs.
    ///
    /// # Errors
    ///
    /// Those of `rewrite`.
    pub fn rewrite_with_pairs(
        &mut self,
        body: Body<'a>,
        instrs: &mut Vec<(Instr, InstrLocId)>,
        scratch: &mut Scratch,
    ) -> Result<LocalFunction, ModuleError>
        ensures extends { Extends self.old self.new }
        ensures rewritten { OnOk result (IsRewrittenWith self.old body.entry.func
            (body_at body.entry) scratch.new.raw.items scratch.new.pairs.items) }
        // The function that is returned is the parsed one.
        ensures parsed { IfOk result
            (IsParsed self.old body.entry.func (body_at body.entry) self.new) }
        ensures refused { IfErr result
            (IsNotRewritten self.old body.entry.func (body_at body.entry) self.new) }
        ensures instrs { instrs.new.items ≡ [] }
    {
        with_types!(
            self,
            body,
            self.rewrite_once_with_pairs(body, instrs, scratch)
        )
    }

    fn parse_once(
        &mut self,
        body: Body<'a>,
        instrs: &mut Vec<(Instr, InstrLocId)>,
    ) -> Result<LocalFunction, ModuleError>
        ensures extends { Extends self.old self.new }
        ensures parsed { IfOk result
            (IsParsed self.old body.entry.func (body_at body.entry) self.new) }
        ensures refused { IfErr result
            (IsRefusedBody self.old body.entry.func (body_at body.entry) self.new) }
        ensures instrs { instrs.new.items ≡ [] }
    {
        instrs.clear();
        let BodyContext {
            ty,
            args,
            body: source,
            locals,
        } = self.enter(body)?;
        let lists = self.spaces.local_lists();
        let parsed = LocalFunction::parse(
            &self.module,
            &self.spaces.indices,
            lists,
            ty,
            args,
            source,
            // A location is the operator's place in the file.
            None::<&fn(&usize) -> InstrLocId>,
            LocalsBelow(locals),
            instrs,
        );
        match parsed {
            Ok(function) => Ok(function),
            Err(failure) => Err(body_error(RewriteError::Parse(failure), body.start())),
        }
    }

    /// Parses a body. The id of a local is its index in the function, and the location of an
    /// operator its place in the file.
    ///
    /// # Errors
    ///
    /// The first fault of its declarations or of its operators, or `Memory`. The module is then
    /// unchanged, except for added types and the locals, which are those of one body at a time.
    pub fn parse(
        &mut self,
        body: Body<'a>,
        instrs: &mut Vec<(Instr, InstrLocId)>,
    ) -> Result<LocalFunction, ModuleError>
        ensures extends { Extends self.old self.new }
        ensures parsed { IfOk result
            (IsParsed self.old body.entry.func (body_at body.entry) self.new) }
        ensures refused { IfErr result
            (IsRefusedBody self.old body.entry.func (body_at body.entry) self.new) }
        ensures instrs { instrs.new.items ≡ [] }
    {
        with_types!(self, body, self.parse_once(body, instrs))
    }

    /// Writes the raw body of a function and its location pairs. The function has to be the one
    /// that was parsed last, since the module has the locals of one body at a time; it may have
    /// been changed since.
    ///
    /// # Errors
    ///
    /// Why it can't be written, at the place `start`, where its body began; or `Memory`.
    pub fn write(
        &self,
        function: &LocalFunction,
        start: usize,
        scratch: &mut Scratch,
    ) -> Result<(), ModuleError>
        ensures { OnOk result (IsRawBodyOf (emit_input self.now.spaces.numbers self.now.«module»
            function.now) function.now.builder scratch.new.raw.items scratch.new.pairs.items) }
    {
        let Scratch { raw, pairs, .. } = scratch;
        raw.clear();
        pairs.clear();
        if !function.has_entry() {
            return Err(ModuleError {
                fault: ModuleFault::Emit(EmitError::UnknownSequence),
                at: start,
            });
        }
        let numbers = &self.spaces.numbers;
        match append_raw_body_with_map(function, &self.module, numbers, raw, pairs) {
            Ok(()) => Ok(()),
            Err(error) => Err(body_error(error, start)),
        }
    }
}
