//! Functions of a module that have a body: parsing and writing the body.
ghost use Rattle.std.specs.Prelude.{◌≡◌, ◌⊎◌, ◌≤◌, ◌<◌, ◌+◌, ◌^◌, ◌==◌, ◌↔◌, IsTrue, ℕ, [], length, slice_get, Some, None, IfOk, IfErr, IsErr, OnOk, OnErr};
ghost use Rattle.std.specs.Borrow.{sem};
ghost use Rattle.std.specs.HashSet.{contains};
ghost use Rattle.std.specs.List.{list_all};
ghost use Rattle.walrus_ir.specs.Unfolding.{among};
ghost use Rattle.walrus_ir.specs.Walk.{HasNoWalk};
ghost use Rattle.wasm_body.specs.declared.error.ParseError.{ParseError as ParseFault};
ghost use Rattle.walrus_parser.specs.Ranges.{range_of};
ghost use Rattle.walrus_body.specs.LocalFunctions.{HasEntry, first_slot, first_instrs, is_const, LendsBuilder, LendsBlock};
ghost use Rattle.walrus_parser.specs.Bodies.{body_input, AcceptsBody, RefusesBody, IfAccepted, IfFirstFault};
ghost use Rattle.walrus_validators.specs.Locating.{MayCall};
ghost use Rattle.walrus_facts.specs.Facts.{count, segments, AreFacts, TreeHas};
ghost use Rattle.walrus_facts.specs.Sizes.{IsTooLarge};
ghost use Rattle.walrus_numbering.specs.EmittedLocals.{Declares, IsNotDeclared};
ghost use Rattle.walrus_body.specs.EmittedInstructions.{Emits, IsNotEmitted, KeepsPairs};
ghost use Rattle.walrus_numbering.specs.NumberMaps.{numbers_by};

use std::marker::Model;
use std::ops::Range;
use walrus_emitter::{NumberMaps, emit_locals, emit_with_map, emit_without_map};
use walrus_facts::{EmitFacts, emit_facts, size, used_data_segments};
use walrus_ir::{
    DataId, FunctionBuilder, FunctionId, IdHashMap, IdHashSet, Instr, InstrLocId, InstrSeq,
    InstrSeqId, LocalId, Module, ModuleTypes, TypeId, WalkError,
};
use walrus_maps::{IdsToIndices, IndicesToIds};
use walrus_parser::{BodySource, FunctionBody, OpCheck, parse_function};
use wasm_body::{EmitError, ParseFailure};
use wasm_encode::FunctionEncoder;
use wasm_ops::RawValType;

/// A function of a module that has a body (WebAssembly core specification 3.0, functions): its
/// arguments and the tree of its instructions. In a contract, it is the values of its lists and of
/// its builder.
#[derive(Drop)]
pub struct LocalFunction {
    builder: FunctionBuilder,
    /// The function's arguments, in order.
    pub args: Vec<LocalId>,
    /// For each operator that was read, in order: its place, which is a byte offset, minus the
    /// module's `code_section_offset`; and its location.
    pub instruction_mapping: Vec<(usize, InstrLocId)>,
    /// The range of places of the body that was read, minus the module's `code_section_offset`.
    pub original_range: Option<Range<usize>>,
}

impl Model for LocalFunction {
    ghost use Rattle.walrus_body.specs.FunctionParts.{FunctionParts};

    ghost Value = { FunctionParts };

    ghost view = { λ f. record {
      builder = f.builder;
      args = f.args.items;
      instruction_mapping = f.instruction_mapping.items;
      original_range = f.original_range;
    } };
}

impl LocalFunction {
    /// The function with these arguments and sequences, which was not read from a module.
    pub fn new(args: Vec<LocalId>, builder: FunctionBuilder) -> LocalFunction
        ensures { result ≡ record {
          builder = builder;
          args = args.items;
          instruction_mapping = [];
          original_range = None;
        } }
    {
        let instruction_mapping = Vec::new(*args.allocator());
        LocalFunction {
            builder,
            args,
            instruction_mapping,
            original_range: None,
        }
    }

    /// Parses a function's body (WebAssembly core specification 3.0, binary format, code section).
    /// The location of an operator is the result of `on_instr_pos` for its place, which is a byte
    /// offset; without such a function it is the place itself. The validator is called for each
    /// operator. The list `instrs` is used for the instructions of open sequences; its items before
    /// the call make no difference. After the call it is empty, and if the body was accepted it
    /// keeps its memory.
    ///
    /// # Errors
    ///
    /// The body's first fault, with its place. For an operator it is the fault of decoding it, then
    /// `PlaceTooGreat`, then the validator's refusal, then the first rule that it breaks. Or
    /// `Memory`, if a list can't grow or the validator returns that.
    ///
    /// # Example
    ///
    /// As in `tests_body/src/small_module.rt`; the location of an operator is twice its place:
    ///
    /// ```text
    /// let body = FunctionBody { bytes: &bytes, start, ops };
    /// let locate = |place: &usize| doubled(*place);
    /// let function = LocalFunction::parse(
    ///     &module,
    ///     &indices,
    ///     id,
    ///     ty,
    ///     args,
    ///     body,
    ///     Some(&locate),
    ///     AcceptAll,
    ///     &mut instrs,
    /// )?;
    /// ```
    pub fn parse<V: OpCheck, F: Fn(&usize) -> InstrLocId>(
        module: &Module,
        indices: &IndicesToIds,
        id: FunctionId,
        ty: TypeId,
        args: Vec<LocalId>,
        body: FunctionBody<'_>,
        on_instr_pos: Option<&F>,
        validator: V,
        instrs: &mut Vec<(Instr, InstrLocId)>,
    ) -> Result<LocalFunction, ParseFailure>
        requires offset { «module».now.code_section_offset ≤ body.start }
        requires ops { body.ops ≤ length body.bytes.now }
        requires fits { body.start + length body.bytes.now < 2 ^ 64 }
        requires may_call { MayCall F.pre on_instr_pos (body.start + body.ops)
            (body.start + length body.bytes.now) }
        // A function that is returned has the normal form of the accepted body, and an error is the
        // first fault.
        ensures accepted { IfOk result (λ made. AcceptsBody F.Fn (body_input «module».now
            indices.now id ty body.entry on_instr_pos.entry V.check (V.state validator))
            made.builder made.instruction_mapping) }
        ensures refused { IfErr result (RefusesBody F.Fn (body_input «module».now indices.now
            id ty body.entry on_instr_pos.entry V.check (V.state validator))) }
        // Unless memory runs out, each accepted body and each first fault is returned.
        ensures each_body { IfAccepted (body_input «module».now indices.now id ty body.entry
            on_instr_pos.entry V.check (V.state validator))
            (IfErr result (λ f. f.error ≡ ParseFault.Memory)) }
        ensures each_fault { IfFirstFault (body_input «module».now indices.now id ty body.entry
            on_instr_pos.entry V.check (V.state validator)) (λ f. IsErr result
            × IfErr result (λ e. (e.error ≡ ParseFault.Memory) ⊎ (e ≡ f))) }
        // The arguments are those that were passed, and the range is that of the body.
        ensures args { IfOk result (λ made. made.args ≡ args.items) }
        ensures range { IfOk result (λ made. made.original_range
            ≡ Some (range_of body.entry «module».now.code_section_offset)) }
        ensures instrs { instrs.new.items ≡ [] }
    {
        let source = BodySource {
            module,
            indices,
            function: id,
            ty,
            ops: body.operators(),
            start: body.start + body.ops,
            on_instr_pos,
        };
        let parsed = parse_function(*instrs.allocator(), &source, validator, instrs);
        instrs.clear();
        match parsed {
            Ok(parsed) => Ok(LocalFunction {
                builder: parsed.builder,
                args,
                instruction_mapping: parsed.instruction_mapping,
                original_range: Some(body.range(module.code_section_offset)),
            }),
            Err(failure) => Err(failure),
        }
    }

    /// The function's type.
    pub fn ty(&self) -> TypeId
        ensures { result ≡ self.now.builder.type }
    {
        self.builder.ty()
    }

    /// The function's sequences.
    pub fn builder(&self) -> &FunctionBuilder
        ensures { result.now ≡ self.now.builder }
    {
        &self.builder
    }

    /// The function's sequences, to be changed.
    pub fn builder_mut(&mut self) -> &mut FunctionBuilder
        ensures* writes_back { sem 𝓛 (LendsBuilder self.entry result) }
        ensures value { result.now ≡ self.old.builder }
    {
        &mut self.builder
    }

    /// Whether an entry is set, and the builder has that sequence.
    pub fn has_entry(&self) -> bool
        ensures { IsTrue result ↔ HasEntry self.now.builder }
    {
        match self.builder.entry() {
            Some(entry) => self.builder.has(entry),
            None => false,
        }
    }

    /// Whether there is a sequence at this slot.
    pub fn has_block(&self, id: InstrSeqId) -> bool
        ensures { IsTrue result ↔ (id < length self.now.builder.sequences) }
    {
        self.builder.has(id)
    }

    /// The slot of the sequence that the function begins with.
    pub fn entry_block(&self) -> InstrSeqId
        requires { HasEntry self.now.builder }
        ensures { self.now.builder.entry ≡ Some result }
    {
        self.builder.entry().unwrap()
    }

    /// The sequence at this slot.
    pub fn block(&self, id: InstrSeqId) -> &InstrSeq
        requires { id < length self.now.builder.sequences }
        ensures { slice_get self.now.builder.sequences id ≡ Some result.now }
    {
        self.builder.seq(id)
    }

    /// The sequence at this slot, to be changed. All other sequences stay unchanged.
    pub fn block_mut(&mut self, id: InstrSeqId) -> &mut InstrSeq
        requires { id < length self.old.builder.sequences }
        ensures* writes_back { sem 𝓛 (LendsBlock self.entry id result) }
        ensures value { slice_get self.old.builder.sequences id ≡ Some result.now }
    {
        self.builder.seq_mut(id)
    }

    /// Whether each instruction of the sequence that the function begins with is a `Const`.
    /// Sequences inside that one aren't looked at.
    pub fn is_const(&self) -> bool
        requires { HasEntry self.now.builder }
        ensures { result ≡ list_all is_const (first_instrs self.now.builder) }
    {
        self.block(self.entry_block())
            .instrs
            .iter()
            .all(|(instr, _)| matches!(instr, Instr::Const(_)))
    }

    /// Appends the operators of the function's tree to an encoder, each in its shortest encoding
    /// (WebAssembly core specification 3.0, binary format, instructions). If there is a list, each
    /// operator's location and its place, a byte offset in the encoder, are appended to it. Ids are
    /// written as their indices in `indices`, and locals as their numbers in `local_indices`. An
    /// `if` whose alternative has no instruction is written without `else` if its results are its
    /// parameters, by the module's `types`.
    ///
    /// # Errors
    ///
    /// `UnknownSequence` or `SharedSequence` if the sequences are not a tree, the first in walk
    /// order; otherwise the first fault in the order of writing; or `Memory`. The encoder and the
    /// list are then unchanged.
    ///
    /// # Example
    ///
    /// A raw body, as `walrus_rewrite` makes it:
    ///
    /// ```text
    /// let used = function.emit_facts()?.used_locals;
    /// let (declarations, numbers) = function.emit_locals(module, indices, &used)?;
    /// let mut encoder = FunctionEncoder::new(alloc, declarations.as_slice())?;
    /// function.emit_instructions(&module.types, indices, &numbers, &mut encoder, None)?;
    /// let raw = encoder.into_raw_body();
    /// ```
    pub fn emit_instructions(
        &self,
        types: &ModuleTypes,
        indices: &IdsToIndices,
        local_indices: &IdHashMap<LocalId, u32>,
        dst: &mut FunctionEncoder,
        map: Option<&mut Vec<(InstrLocId, usize)>>,
    ) -> Result<(), EmitError>
        requires { HasEntry self.now.builder }
        ensures ok { OnOk result (Emits self.now.builder
            (numbers_by types.now indices.now local_indices.now.entries) dst.old dst.new map.entry
            map.exit) }
        ensures err { IfErr result (IsNotEmitted self.now.builder
            (numbers_by types.now indices.now local_indices.now.entries)) }
        ensures same_bytes { OnErr result (dst.new ≡ dst.old) }
        ensures same_pairs { OnErr result (KeepsPairs map.entry map.exit) }
    {
        let numbers = NumberMaps {
            types,
            ids: indices,
            locals: local_indices,
        };
        let entry = self.entry_block();
        match map {
            Some(list) => emit_with_map(&self.builder, entry, &numbers, dst, list),
            None => emit_without_map(&self.builder, entry, &numbers, dst),
        }
    }

    /// The declarations of the function's locals (WebAssembly core specification 3.0, binary
    /// format, code section), and the number of each local. Arguments have the numbers from 0 on;
    /// one that is listed twice has the number of its last position. The used locals that are not
    /// arguments follow, by type, and by id among those of one type. A declaration is the length of
    /// a run of locals of one type, and that type with the new indices of `indices`.
    ///
    /// # Errors
    ///
    /// `UnknownLocal` if the module doesn't have a used local that is not an argument; otherwise
    /// `TooLarge` if a number, a count or the number of declarations doesn't fit 32 bits; otherwise
    /// `Index` for the first type in the declarations that has no new index; or `Memory`.
    pub fn emit_locals(
        &self,
        module: &Module,
        indices: &IdsToIndices,
        used: &IdHashSet<LocalId>,
    ) -> Result<(Vec<(u32, RawValType)>, IdHashMap<LocalId, u32>), EmitError>
        ensures ok { IfOk result (λ made. Declares
            (numbers_by «module».now.types indices.now []) «module».now.locals self.now.args
            (contains (λ x y. x == y) used.now) made.0.items made.1.entries) }
        ensures err { IfErr result (IsNotDeclared (numbers_by «module».now.types indices.now [])
            «module».now.locals self.now.args (contains (λ x y. x == y) used.now)) }
    {
        emit_locals(
            self.builder.allocator(),
            self.args.as_slice(),
            module,
            indices,
            used,
        )
    }

    /// The number of instructions in the sequences that are reached from the entry.
    ///
    /// # Errors
    ///
    /// `UnknownSequence` or `SharedSequence` if the sequences are not a tree, the first in walk
    /// order; `TooLarge` if the number doesn't fit 64 bits; `Memory`.
    pub fn size(&self) -> Result<u64, WalkError>
        requires { HasEntry self.now.builder }
        ensures ok { IfOk result (λ n. TreeHas self.now.builder.sequences
            (first_slot self.now.builder) (λ t. n ≡ count t.items)) }
        ensures err { IfErr result (λ e. HasNoWalk self.now.builder.sequences
            (first_slot self.now.builder) e ⊎ IsTooLarge self.now.builder.sequences
            (first_slot self.now.builder) e) }
    {
        size(&self.builder, self.entry_block())
    }

    /// The data segments that instructions name in the sequences that are reached from the entry.
    ///
    /// # Errors
    ///
    /// `UnknownSequence` or `SharedSequence` if the sequences are not a tree, the first in walk
    /// order; `Memory`.
    pub fn used_data_segments(&self) -> Result<IdHashSet<DataId>, WalkError>
        requires { HasEntry self.now.builder }
        ensures ok { IfOk result (λ found. TreeHas self.now.builder.sequences
            (first_slot self.now.builder)
            (λ t. (d : ℕ) → contains (λ x y. x == y) found d ≡ among d (segments t.items))) }
        ensures err { IfErr result (HasNoWalk self.now.builder.sequences
            (first_slot self.now.builder)) }
    {
        used_data_segments(&self.builder, self.entry_block())
    }

    /// The facts of the instructions in the sequences that are reached from the entry.
    ///
    /// # Errors
    ///
    /// `UnknownSequence` or `SharedSequence` if the sequences are not a tree, the first in walk
    /// order; `TooLarge` if the number of instructions doesn't fit 64 bits; `Memory`.
    pub fn emit_facts(&self) -> Result<EmitFacts, WalkError>
        requires { HasEntry self.now.builder }
        ensures ok { IfOk result (λ f. TreeHas self.now.builder.sequences
            (first_slot self.now.builder) (λ t. AreFacts t.items f)) }
        ensures err { IfErr result (λ e. HasNoWalk self.now.builder.sequences
            (first_slot self.now.builder) e ⊎ IsTooLarge self.now.builder.sequences
            (first_slot self.now.builder) e) }
    {
        emit_facts(&self.builder, self.entry_block())
    }
}
