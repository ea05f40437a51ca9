//! The sequences of a function during its parse, some of which are open.
ghost use Rattle.std.specs.Prelude.{reverse, ◌≡◌, ◌⊎◌, ◌≤◌, ◌<◌, [], length, IsSomeAnd, None, Ok, Err, true, false, IfSome, IfOk, IfErr, OnOk, OnErr, MatchOption, MatchResult};
ghost use Rattle.walrus_ir.specs.Types.{existing, signature_of};
ghost use Rattle.walrus_ir.specs.declared.val_type.InstrSeqType.TheVariants.{MultiValue, Simple};
ghost use Rattle.wasm_body.specs.declared.error.ParseError.{ParseError as Fault};
ghost use Rattle.walrus_context.specs.OpenFrames.{AreShown, ShowsAt, marked_unreachable, with_instr, HasNoFrame, HasNoFrameAt, InnerAreEmpty, with_clause_around};
ghost use Rattle.wasm_operators.specs.declared.types.BlockType.TheVariants.{Value, FuncType};
ghost use Rattle.wasm_numbers.specs.Results.{with_fault};
ghost use Rattle.wasm_body.specs.declared.error.ParseError.TheVariants.{Index};
ghost use Rattle.walrus_maps.specs.IndexMaps.{local_of};
ghost use Rattle.walrus_context.specs.Placing.{block_found, kind_at, place_at};
ghost use Rattle.walrus_context.specs.OpenTrees.{env_of, opened_type, Opens, OpensBlock, Pops, ChangesFrame, AddsClauseAround, EndsAt, AddsEmpty};

use crate::frame::{ControlFrame, ControlStack};
use crate::frame_stack::FrameStack;
use crate::types::value_type;
use std::alloc::Global;
use std::marker::Model;
use walrus_ir::{
    BlockKind, FunctionBuilder, FunctionId, Instr, InstrLocId, InstrSeqId, InstrSeqType,
    LegacyCatch, LocalId, Module, TypeId, ValType,
};
use walrus_maps::IndicesToIds;
use wasm_body::ParseError;
use wasm_operators::{BlockType, RawValType};

/// The sequences of a function during its parse, some of which are open. In a contract, it is the
/// module, its maps, the function, its builder, and the open frames with their instructions,
/// innermost first.
#[derive(Drop)]
pub struct ValidationContext<'a> {
    module: &'a Module,
    indices: &'a IndicesToIds,
    func_id: FunctionId,
    func: FunctionBuilder,
    stack: FrameStack,
    // The locals of the function, by old index, which are fetched from the maps once.
    locals: &'a [LocalId],
}

impl<'a> Model for ValidationContext<'a> {
    ghost use Rattle.walrus_context.specs.OpenTrees.{OpenTrees, AreInArena};
    ghost use Rattle.std.specs.Coded.{codes};
    ghost use Rattle.walrus_maps.specs.contracts.indices_to_ids.IndicesToIds as indices_to_ids;

    ghost Value = { OpenTrees };

    ghost coded = { Prim.hlevel (codes, indices_to_ids.the_row.coded) };

    ghost view = { λ c. record {
      «module» = c.module.now;
      indices = c.indices.now;
      function = c.func_id;
      builder = c.func;
      frames = c.stack;
    } };

    ghost use Rattle.std.specs.Prelude.{◌≡◌};
    ghost use Rattle.walrus_maps.specs.IndexMaps.{locals_in};

    ghost invariant = { λ c. AreInArena c.func.sequences c.stack
        × (c.locals.now ≡ locals_in c.indices.now c.func_id) };
}

fn copied(alloc: Global, types: &[ValType]) -> Result<Vec<ValType>, ParseError>
    ensures ok { IfOk result (λ v. v.items ≡ types.now) }
    ensures err { IfErr result (λ e. e ≡ Fault.Memory) }
{
    match Vec::from_slice(alloc, types) {
        Ok(types) => Ok(types),
        Err(_) => Err(ParseError::Memory),
    }
}

impl<'a> ValidationContext<'a> {
    /// A context without an open frame. Requires that both lists are empty.
    pub fn new(
        module: &'a Module,
        indices: &'a IndicesToIds,
        func_id: FunctionId,
        func: FunctionBuilder,
        controls: ControlStack,
        instrs: Vec<(Instr, InstrLocId)>,
    ) -> ValidationContext<'a>
        requires none { controls.items ≡ [] }
        requires empty { instrs.items ≡ [] }
        ensures { result ≡ record {
          «module» = «module».now;
          indices = indices.now;
          function = func_id;
          builder = func;
          frames = [];
        } }
    {
        ValidationContext {
            module,
            indices,
            func_id,
            func,
            stack: FrameStack::new(controls, instrs),
            locals: indices.locals_of(func_id),
        }
    }

    /// The ids of old indices.
    pub fn indices(&self) -> &'a IndicesToIds
        ensures { result.now ≡ self.now.indices }
    {
        self.indices
    }

    /// The local of the function with this old index. The error is `Index` if there is none.
    pub fn local(&self, index: u32) -> Result<LocalId, ParseError>
        ensures { result
            ≡ with_fault Index (local_of self.now.indices self.now.function index) }
    {
        match self.indices.get_local(self.func_id, index) {
            Ok(local) => Ok(local),
            Err(error) => Err(ParseError::Index(error)),
        }
    }

    /// The local of the function with this old index, if there is one.
    #[inline(always)]
    #[tactic(auto, using(crate::proofs::FoundLocals::found_local))]
    pub fn local_at(&self, index: u32) -> Option<LocalId>
        ensures { IfSome result (λ local.
            local_of self.now.indices self.now.function index ≡ Ok local) }
    {
        self.locals.get(index as usize).copied()
    }

    /// The module of the function.
    pub fn module(&self) -> &'a Module
        ensures { result.now ≡ self.now.«module» }
    {
        self.module
    }

    /// Checks that the types in a block type exist, and that a type that it names by its old index
    /// is a function type. Allocates nothing.
    ///
    /// # Errors
    ///
    /// `Index` if an old index has no id; `NotAFunctionType` if the type is not a function type.
    pub fn has_block_type(&self, ty: BlockType) -> Result<(), ParseError>
        ensures { result ≡ block_found (env_of self.now) ty }
    {
        match ty {
            BlockType::Empty => Ok(()),
            BlockType::Value(ty) => match value_type(self.indices, ty) {
                Ok(_) => Ok(()),
                Err(error) => Err(error),
            },
            BlockType::FuncType(index) => {
                let id = self.indices.get_type(index)?;
                if self.module.types.is_func(id) {
                    Ok(())
                } else {
                    Err(ParseError::NotAFunctionType)
                }
            }
        }
    }

    /// The kind of the sequence of the n-th frame. Frames count from the innermost, which is 0. The
    /// error is `NoSuchLabel` if at most `n` frames are open.
    pub fn kind_at(&self, n: usize) -> Result<BlockKind, ParseError>
        ensures { result ≡ kind_at self.now.frames n }
    {
        match self.control(n) {
            Ok(frame) => Ok(frame.kind),
            Err(error) => Err(error),
        }
    }

    /// Sets the location of a sequence's end. Requires that the builder has the sequence.
    pub fn end_sequence(&mut self, sequence: InstrSeqId, location: InstrLocId)
        requires { sequence < length self.old.builder.sequences }
        ensures { EndsAt self.old self.new sequence location }
    {
        let seq = self.func.seq_mut(sequence);
        seq.end = location;
    }

    // Opens a frame whose sequence has this type.
    fn enter(
        &mut self,
        kind: BlockKind,
        ty: InstrSeqType,
        start_types: &[ValType],
        end_types: &[ValType],
    ) -> Result<InstrSeqId, ParseError>
        ensures ok { IfOk result
            (λ id. Opens self.old self.new kind ty start_types.now end_types.now id) }
        ensures err { IfErr result (λ e. e ≡ Fault.Memory) }
        ensures same { OnErr result (self.new ≡ self.old) }
    {
        let alloc = self.func.allocator();
        let start_types = copied(alloc, start_types)?;
        let end_types = copied(alloc, end_types)?;
        let block = InstrSeqId::new(self.func.count());
        if !self.stack.push(kind, start_types, end_types, block) {
            return Err(ParseError::Memory);
        }
        match self.func.alloc(ty) {
            Ok(_) => Ok(block),
            Err(_) => {
                self.stack.discard();
                Err(ParseError::Memory)
            }
        }
    }

    // Opens a frame without parameters and results. Allocates nothing for their lists.
    fn enter_simple(&mut self, kind: BlockKind) -> Option<InstrSeqId>
        ensures { IfSome result (λ id. Opens self.old self.new kind (Simple None) [] [] id) }
    {
        let block = InstrSeqId::new(self.func.count());
        let alloc = self.func.allocator();
        match self.func.alloc(InstrSeqType::Simple(None)) {
            Ok(_) => {}
            Err(_) => return None,
        }
        if !self
            .stack
            .push(kind, Vec::new(alloc), Vec::new(alloc), block)
        {
            return None;
        }
        Some(block)
    }

    /// Opens a frame with these parameters and results, and returns its sequence. The type of the
    /// sequence is the one that is picked for them in the module.
    ///
    /// # Errors
    ///
    /// `TypeMissing` if the module has no such type; `Memory` if memory runs out.
    pub fn push_control(
        &mut self,
        kind: BlockKind,
        start_types: &[ValType],
        end_types: &[ValType],
    ) -> Result<InstrSeqId, ParseError>
        ensures ok { IfOk result (λ id. IsSomeAnd
            (existing self.old.module.types start_types.now end_types.now)
            (λ ty. Opens self.old self.new kind ty start_types.now end_types.now id)) }
        ensures err { IfErr result (λ e. (e ≡ Fault.Memory) ⊎ ((e ≡ Fault.TypeMissing)
            × (existing self.old.module.types start_types.now end_types.now ≡ None))) }
        ensures same { OnErr result (self.new ≡ self.old) }
    {
        match InstrSeqType::existing(&self.module.types, start_types, end_types) {
            Some(ty) => self.enter(kind, ty, start_types, end_types),
            None => Err(ParseError::TypeMissing),
        }
    }

    /// Adds an empty sequence with these parameters and results, which no frame has, and returns it.
    /// Its type is the one that is picked for them in the module.
    ///
    /// # Errors
    ///
    /// `TypeMissing` if the module has no such type; `Memory` if memory runs out.
    pub fn add_empty(
        &mut self,
        start_types: &[ValType],
        end_types: &[ValType],
    ) -> Result<InstrSeqId, ParseError>
        ensures ok { IfOk result (λ id. IsSomeAnd
            (existing self.old.module.types start_types.now end_types.now)
            (λ ty. AddsEmpty self.old self.new ty id)) }
        ensures err { IfErr result (λ e. (e ≡ Fault.Memory) ⊎ ((e ≡ Fault.TypeMissing)
            × (existing self.old.module.types start_types.now end_types.now ≡ None))) }
        ensures same { OnErr result (self.new ≡ self.old) }
    {
        match InstrSeqType::existing(&self.module.types, start_types, end_types) {
            Some(ty) => match self.func.alloc(ty) {
                Ok(id) => Ok(id),
                Err(_) => Err(ParseError::Memory),
            },
            None => Err(ParseError::TypeMissing),
        }
    }

    /// Opens a frame with the parameters and results of a function type, which is the type of its
    /// sequence, and returns the sequence.
    ///
    /// # Errors
    ///
    /// `NotAFunctionType` if the id isn't that of a function type; `Memory` if memory runs out.
    pub fn push_control_with_ty(
        &mut self,
        kind: BlockKind,
        ty: TypeId,
    ) -> Result<InstrSeqId, ParseError>
        ensures ok { IfOk result (λ id. IsSomeAnd (signature_of self.old.module.types ty)
            (λ s. Opens self.old self.new kind (MultiValue ty) s.parameters s.results id)) }
        ensures err { IfErr result (λ e. (e ≡ Fault.Memory) ⊎ ((e ≡ Fault.NotAFunctionType)
            × (signature_of self.old.module.types ty ≡ None))) }
        ensures same { OnErr result (self.new ≡ self.old) }
    {
        let module = self.module;
        if !module.types.is_func(ty) {
            return Err(ParseError::NotAFunctionType);
        }
        let (start_types, end_types) = module.types.params_results(ty);
        self.enter(kind, InstrSeqType::MultiValue(ty), start_types, end_types)
    }

    // Opens a frame with the parameters and results of the function type with this old index.
    fn push_function_type(&mut self, kind: BlockKind, index: u32) -> Result<InstrSeqId, ParseError>
        ensures ok { IfOk result (λ id. OpensBlock self.old self.new kind (FuncType index) id) }
        ensures err { IfErr result (λ e. (e ≡ Fault.Memory)
            ⊎ (opened_type (env_of self.old) (FuncType index) ≡ Err e)) }
    {
        let module = self.module;
        let id = self.indices.get_type(index)?;
        if !module.types.is_func(id) {
            return Err(ParseError::NotAFunctionType);
        }
        let (start_types, end_types) = module.types.params_results(id);
        match InstrSeqType::picked(&module.types, id) {
            Some(ty) => self.enter(kind, ty, start_types, end_types),
            None => Err(ParseError::TypeMissing),
        }
    }

    // Opens a frame without parameters and with one result of this type.
    fn push_value_type(&mut self, kind: BlockKind, ty: RawValType) -> Result<InstrSeqId, ParseError>
        ensures ok { IfOk result (λ id. OpensBlock self.old self.new kind (Value ty) id) }
        ensures err { IfErr result (λ e. (e ≡ Fault.Memory)
            ⊎ (opened_type (env_of self.old) (Value ty) ≡ Err e)) }
    {
        match value_type(self.indices, ty) {
            Ok(ty) => self.push_control(kind, &[], &[ty]),
            Err(error) => Err(error),
        }
    }

    /// Opens a frame with the parameters and results of a block type (WebAssembly core
    /// specification 3.0, binary format, control instructions), whose old indices are looked up.
    /// Returns its sequence.
    ///
    /// # Errors
    ///
    /// `Index` if an old index has no id; `NotAFunctionType` if the type is not a function type;
    /// `TypeMissing` if the module has no type that can be picked; `Memory` if memory runs out.
    pub fn push_block(&mut self, kind: BlockKind, ty: BlockType) -> Result<InstrSeqId, ParseError>
        ensures ok { IfOk result (λ id. OpensBlock self.old self.new kind ty id) }
        ensures err { IfErr result (λ e. (e ≡ Fault.Memory)
            ⊎ (opened_type (env_of self.old) ty ≡ Err e)) }
    {
        match ty {
            BlockType::Empty => match self.enter_simple(kind) {
                Some(block) => Ok(block),
                None => Err(ParseError::Memory),
            },
            BlockType::Value(ty) => self.push_value_type(kind, ty),
            BlockType::FuncType(index) => self.push_function_type(kind, index),
        }
    }

    /// Closes the innermost frame, and returns it and its sequence. The sequence then has the
    /// frame's instructions.
    ///
    /// # Errors
    ///
    /// `NoFrame` if no frame is open; `Memory` if memory runs out. Nothing is changed.
    pub fn pop_control(&mut self) -> Result<(ControlFrame, InstrSeqId), ParseError>
        ensures ok { IfOk result (λ x. Pops self.old self.new x.0 x.1) }
        ensures err { IfErr result (λ e. (e ≡ Fault.Memory) ⊎ HasNoFrame self.old.frames e) }
        ensures same { OnErr result (self.new ≡ self.old) }
    {
        match self.stack.pop() {
            Ok((frame, instrs)) => {
                let block = frame.block;
                let seq = self.func.seq_mut(block);
                seq.instrs = instrs;
                Ok((frame, block))
            }
            Err(error) => Err(error),
        }
    }

    /// Marks the innermost frame as unreachable: the instructions that follow in it are dropped. The error
    /// is `NoFrame` if no frame is open; nothing is changed.
    pub fn unreachable(&mut self) -> Result<(), ParseError>
        ensures ok { OnOk result (ChangesFrame 0 marked_unreachable self.old self.new) }
        ensures err { IfErr result (HasNoFrame self.old.frames) }
        ensures same { OnErr result (self.new ≡ self.old) }
    {
        self.stack.mark_unreachable()
    }

    /// The n-th frame. Frames count from the innermost, which is 0. The error is `NoSuchLabel` if
    /// at most `n` frames are open.
    pub fn control(&self, n: usize) -> Result<&ControlFrame, ParseError>
        ensures { MatchResult result (λ f. ShowsAt self.now.frames n f.now)
            (HasNoFrameAt self.now.frames n) }
    {
        match self.stack.get(n) {
            Some(frame) => Ok(frame),
            None => Err(ParseError::NoSuchLabel),
        }
    }

    /// The number of open frames.
    #[inline(always)]
    pub fn frame_count(&self) -> usize
        ensures { result ≡ length self.now.frames }
    {
        self.stack.count()
    }

    /// The sequence of the n-th frame, if more than `n` frames are open. Frames count from the
    /// innermost, which is 0.
    #[inline(always)]
    pub fn block_at(&self, n: usize) -> Option<InstrSeqId>
        ensures { MatchOption result (length self.now.frames ≤ n)
            (λ block. place_at self.now.frames n ≡ Ok block) }
    {
        match self.stack.get(n) {
            Some(frame) => Some(frame.block),
            None => None,
        }
    }

    /// Marks the innermost frame as unreachable: the instructions that follow in it are dropped. Requires
    /// that a frame is open.
    #[inline(always)]
    pub fn mark_innermost_unreachable(&mut self)
        requires { 0 < length self.old.frames }
        ensures { ChangesFrame 0 marked_unreachable self.old self.new }
    {
        self.stack.mark_innermost_unreachable();
    }

    /// Appends an instruction to the innermost frame, or drops it if that frame is unreachable, and returns
    /// whether it could. If no frame is open or memory runs out nothing is changed.
    #[inline(always)]
    pub fn append_innermost(&mut self, instr: Instr, loc: InstrLocId) -> bool
        ensures done { result ≡ true
            → ChangesFrame 0 (with_instr (instr, loc)) self.old self.new }
        ensures same { result ≡ false → self.new ≡ self.old }
    {
        self.stack.append_innermost(instr, loc)
    }

    /// Appends an instruction to the n-th frame, or drops it if that frame is unreachable. Frames count
    /// from the innermost, which is 0. Requires that the frames inside the n-th have no
    /// instructions.
    ///
    /// # Errors
    ///
    /// `NoSuchLabel` if at most `n` frames are open; `Memory` if memory runs out. Nothing is
    /// changed.
    pub fn alloc_instr_in_control(
        &mut self,
        n: usize,
        instr: Instr,
        loc: InstrLocId,
    ) -> Result<(), ParseError>
        requires { InnerAreEmpty n self.old.frames }
        ensures ok { OnOk result (ChangesFrame n (with_instr (instr, loc)) self.old self.new) }
        ensures err { IfErr result (λ e. (e ≡ Fault.Memory) ⊎ HasNoFrameAt self.old.frames n e) }
        ensures same { OnErr result (self.new ≡ self.old) }
    {
        self.stack.append(n, instr, loc)
    }

    /// Appends an instruction to the innermost frame, or drops it if that frame is unreachable.
    ///
    /// # Errors
    ///
    /// `NoFrame` if no frame is open; `Memory` if memory runs out. Nothing is changed.
    #[inline(always)]
    pub fn alloc_instr(&mut self, instr: Instr, loc: InstrLocId) -> Result<(), ParseError>
        ensures ok { OnOk result (ChangesFrame 0 (with_instr (instr, loc)) self.old self.new) }
        ensures err { IfErr result (λ e. (e ≡ Fault.Memory)
            ⊎ ((e ≡ Fault.NoFrame) × (length self.old.frames ≤ 0))) }
        ensures same { OnErr result (self.new ≡ self.old) }
    {
        match self.stack.append(0, instr, loc) {
            Ok(()) => Ok(()),
            Err(ParseError::NoSuchLabel) => Err(ParseError::NoFrame),
            Err(error) => Err(error),
        }
    }

    /// Adds a clause to the legacy `try` at the end of the frame around the innermost, or drops it
    /// if that frame is unreachable. The innermost frame is the body of the `try` for a `delegate`, and
    /// the clause's own handler for a `catch` or `catch_all`.
    ///
    /// # Errors
    ///
    /// `NoSuchLabel` if there is no frame around the innermost; `NoTry` if that frame doesn't end
    /// in a `try`; `Memory` if memory runs out. Nothing is changed.
    pub fn add_legacy_catch(&mut self, catch: LegacyCatch) -> Result<(), ParseError>
        ensures ok { OnOk result (AddsClauseAround catch self.old self.new) }
        ensures err { IfErr result (λ e. (e ≡ Fault.Memory)
            ⊎ (with_clause_around catch self.old.frames ≡ Err e)) }
        ensures same { OnErr result (self.new ≡ self.old) }
    {
        self.stack.add_clause(catch)
    }

    /// The parts of the context: the function; the open frames, the innermost last; and the list of
    /// instructions, which is empty if no frame is open.
    pub fn into_parts(self) -> (FunctionBuilder, ControlStack, Vec<(Instr, InstrLocId)>)
        ensures function { result.0 ≡ self.entry.builder }
        ensures frames { AreShown (reverse result.1.items) self.entry.frames }
        ensures empty { self.entry.frames ≡ [] → result.2.items ≡ [] }
    {
        let ValidationContext { func, stack, .. } = self;
        let (controls, instrs) = stack.into_parts();
        (func, controls, instrs)
    }
}
