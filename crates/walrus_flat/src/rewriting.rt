//! Rewriting a body without its tree.
ghost use Rattle.std.specs.Prelude.{◌≡◌, ◌⊎◌, ◌++◌, ◌≤◌, ◌<◌, ◌+◌, ◌^◌, ℕ, List, [], length, Option, Some, OnOk, OnErr, IfOk, IfErr, IsErr, false};
ghost use Rattle.wasm_body.specs.declared.error.EmitError.TheVariants.{Memory};
ghost use Rattle.wasm_body.specs.Flat.{first_state};
ghost use Rattle.walrus_rewrite.specs.RawBodies.{input_for, BeginsRawBody, IsNotBegun};
ghost use Rattle.walrus_parser.specs.Bodies.{body_input, IfAccepted, IfFirstFault};
ghost use Rattle.walrus_parser.specs.BodySources.{source_input, IsReadable};
ghost use Rattle.walrus_validators.specs.Locating.{MayCall};
ghost use Rattle.walrus_body.specs.EmittedInstructions.{KeepsPairs};
ghost use Rattle.walrus_numbering.specs.NumberMaps.{numbers_by};
ghost use Rattle.walrus_emit_state.specs.Emission.{Output};
ghost use Rattle.walrus_rewrite.specs.declared.error.RewriteError.TheVariants.{Parse, Emit as EmitFault};
ghost use Rattle.walrus_rewrite.specs.Errors.{IsOutOfMemory};
ghost use Rattle.walrus_rewrite.specs.RewrittenBodies.{RefusesRewriting, IsOfWriting};
ghost use Rattle.walrus_flat.specs.UsedLocals.{is_used, entries_of};
ghost use Rattle.walrus_flat.specs.Written.{flat_state_of};
ghost use Rattle.walrus_flat.specs.WrittenBody.{source_again, IsAcceptedBody, WritesBody, WritesFirst, RefusesWriting};
ghost use Rattle.walrus_flat.specs.Sinks.{OfWhole, TookFront};
ghost use Rattle.walrus_flat.specs.RewrittenFlat.{target_input, Composes, WritesAll, WritesPart, IsNotAllWritten, FinishesTo, EndsAlike, LeavesSink, FinishesBytes, FinishesBoth, RewritesFlat, RewritesTo};

use crate::body_indices::BodyIndices;
use crate::byte_sink::{ByteSink, InMemory};
use crate::cursor::Cursor;
use crate::declarations::write_declarations;
use crate::flat_check::check;
use crate::local_numbers::{LocalNumbers, NumberedLocals, declare_locals};
use crate::scratch::FlatScratch;
use crate::sequences::{Next, OpenSequences, Written};
use crate::target::Target;
use crate::used_locals::UsedLocals;
use crate::write_body::write_operators;
use crate::writer::Writer;
use std::alloc::Global;
use std::mem;
use walrus_emit_state::Draft;
use walrus_ir::{FunctionId, InstrLocId, LocalId, Module, TypeId};
use walrus_maps::{IdsToIndices, IndicesToIds, make_room};
use walrus_parser::{BodySource, FunctionBody, OpCheck, law_bytes};
use walrus_rewrite::{RewriteError, append_lists};
use wasm_body::EmitError;
use wasm_renumber::Lists;

/// The sequences of a body of which nothing is written. They take the list of the scratch.
fn begin_sequences(alloc: Global, scratch: &mut FlatScratch) -> Result<OpenSequences, EmitError>
    ensures ok { IfOk result (λ open_sequences. flat_state_of open_sequences ≡ first_state) }
    ensures err { IfErr result (λ e. e ≡ Memory) }
{
    let mut sequences = mem::replace(&mut scratch.sequences, Vec::new(alloc));
    sequences.clear();
    match sequences.push(Written::Kept(false)) {
        Ok(()) => Ok(OpenSequences {
            next: Next::Live,
            sequences,
        }),
        Err(_) => Err(EmitError::Memory),
    }
}

/// The second pass over the operators of a body, after its declarations, which are written.
fn write<'a, F: Fn(&usize) -> InstrLocId, S: ByteSink>(
    source: BodySource<'a, F>,
    target: Target<'a>,
    locals: &'a NumberedLocals,
    draft: Draft,
    scratch: &mut FlatScratch,
    sink: &mut S,
) -> Result<Draft, EmitError>
    requires readable { IsReadable F.pre source }
    requires accepted { IsAcceptedBody (source_again source) }
    ensures ok { IfOk result (OfWhole S.takes sink.old sink.new (WritesBody F.Fn
        (source_again source.entry) (numbers_by source.entry.«module».now.types
        target.entry.out.now (entries_of locals.now)) draft)) }
    ensures err { IfErr result (λ e. (e ≡ Memory) ⊎ RefusesWriting F.Fn
        (source_again source.entry) (numbers_by source.entry.«module».now.types
        target.entry.out.now (entries_of locals.now)) e) }
    ensures leaves { IfErr result (TookFront S.takes S.refuses sink.old sink.new (WritesFirst F.Fn
        (source_again source.entry) (numbers_by source.entry.«module».now.types
        target.entry.out.now (entries_of locals.now)) draft)) }
{
    let alloc = *scratch.sequences.allocator();
    let open = match begin_sequences(alloc, scratch) {
        Ok(open) => open,
        Err(fault) => return Err(fault),
    };
    let mut writer = Writer {
        module: source.module,
        indices: BodyIndices {
            ids: source.indices,
            function: source.function,
            locals: source.indices.locals_of(source.function),
        },
        ty: source.ty,
        out: target.out,
        locals: LocalNumbers {
            numbered: locals,
            table: &locals.table,
        },
        open,
        lists: Lists::new(alloc),
        draft,
    };
    let mut reader = Cursor::new(source.ops, source.start);
    match write_operators(&mut writer, &mut reader, source.on_instr_pos, sink) {
        Ok(()) => {
            let Writer { open, draft, .. } = writer;
            scratch.sequences = open.sequences;
            Ok(draft)
        }
        Err(fault) => Err(fault),
    }
}

/// Writes the declarations of the locals that a body uses, and returns the number of each local.
fn begin_body(
    module: &Module,
    target: &Target<'_>,
    used: &UsedLocals,
    bytes: &mut Vec<u8>,
) -> Result<NumberedLocals, EmitError>
    requires { bytes.old.items ≡ [] }
    ensures ok { IfOk result (λ numbers. BeginsRawBody (target_input «module».now target.now)
        (is_used used.now) bytes.new.items (entries_of numbers)) }
    ensures err { IfErr result (IsNotBegun (target_input «module».now target.now)
        (is_used used.now)) }
{
    let alloc = *bytes.allocator();
    let declared = declare_locals(alloc, target.args, module, target.out, used);
    let (declarations, numbers) = match declared {
        Ok(made) => made,
        Err(fault) => return Err(fault),
    };
    match write_declarations(bytes, declarations.as_slice()) {
        Ok(()) => Ok(numbers),
        Err(_) => Err(EmitError::Memory),
    }
}

/// Room for more bytes than are read, so that the list of a body that stays as it is doesn't grow: its
/// declarations, and the room that is made before each operator is written.
const SPARE: usize = 64;

/// Makes room for a body that is read from so many bytes, if there is memory for it, or for what is
/// written of as many as are read before a sink takes it. Eight bytes of code contain at most five
/// operators as a rule.
fn make_room_for(
    bytes: &mut Vec<u8>,
    pairs: &mut Vec<(InstrLocId, usize)>,
    len: usize,
    has_map: bool,
    most: usize,
)
    ensures bytes { bytes.new.items ≡ bytes.old.items }
    ensures pairs { pairs.new.items ≡ pairs.old.items }
{
    let room = len.min(most).saturating_add(SPARE);
    if bytes.capacity() < room {
        let _ = make_room(bytes, room);
    }
    let operators = len.min(most) / 8 * 5;
    if has_map && pairs.capacity() < operators {
        let _ = make_room(pairs, operators);
    }
}

/// The declarations of a body, and what is written after them, of one that was checked. The scratch
/// has the locals that live operators name, and the draft is empty.
fn write_checked<F: Fn(&usize) -> InstrLocId, S: ByteSink>(
    source: &BodySource<'_, F>,
    target: &Target<'_>,
    draft: Draft,
    scratch: &mut FlatScratch,
    sink: &mut S,
) -> Result<Draft, EmitError>
    requires readable { IsReadable F.pre source.now }
    requires accepted { IsAcceptedBody (source_again source.now) }
    requires no_bytes { draft.output.bytes ≡ [] }
    requires no_pairs { draft.output.pairs ≡ [] }
    ensures ok { IfOk result (OfWhole S.takes sink.old sink.new (WritesAll F.Fn
        (source_again source.now) (target_input source.now.«module».now target.now)
        draft.has_map (numbers_by source.now.«module».now.types target.now.out.now)
        (is_used scratch.old.used))) }
    ensures err { IfErr result (IsNotAllWritten F.Fn (source_again source.now)
        (target_input source.now.«module».now target.now)
        (numbers_by source.now.«module».now.types target.now.out.now)
        (is_used scratch.old.used)) }
    ensures leaves { IfErr result (λ e. (sink.new ≡ sink.old) ⊎ TookFront S.takes S.refuses
        sink.old sink.new (WritesPart F.Fn (source_again source.now)
        (target_input source.now.«module».now target.now) draft.has_map
        (numbers_by source.now.«module».now.types target.now.out.now) (is_used scratch.old.used)) e) }
{
    let has_map = draft.has_map();
    let (mut bytes, mut pairs) = draft.into_lists();
    make_room_for(&mut bytes, &mut pairs, source.ops.len(), has_map, S::MOST);
    let numbers = match begin_body(source.module, target, &scratch.used, &mut bytes) {
        Ok(numbers) => numbers,
        Err(fault) => return Err(fault),
    };
    let begun = Draft::of_lists(bytes, pairs, has_map);
    // A copy, which is lent no longer than the numbers are.
    let source = BodySource { ..*source };
    match write(source, *target, &numbers, begun, scratch, sink) {
        Ok(written) => Ok(written),
        Err(fault) => Err(fault),
    }
}

/// Both passes: the declarations of a body, and what is written after them, in this draft, which is
/// empty.
fn write_body<V: OpCheck, F: Fn(&usize) -> InstrLocId, S: ByteSink>(
    source: &BodySource<'_, F>,
    validator: V,
    target: &Target<'_>,
    draft: Draft,
    scratch: &mut FlatScratch,
    sink: &mut S,
) -> Result<Draft, RewriteError>
    requires readable { IsReadable F.pre source.now }
    requires no_bytes { draft.output.bytes ≡ [] }
    requires no_pairs { draft.output.pairs ≡ [] }
    ensures ok { IfOk result (OfWhole S.takes sink.old sink.new (Composes F.Fn (source_input
        source.now V.check (V.state validator)) (target_input source.now.«module».now target.now)
        draft.has_map)) }
    ensures err { IfErr result (RefusesRewriting F.Fn (source_input source.now V.check
        (V.state validator)) (target_input source.now.«module».now target.now)) }
    ensures leaves { IfErr result (LeavesSink F.Fn (source_input source.now V.check
        (V.state validator)) (target_input source.now.«module».now target.now) S.takes S.refuses
        sink.old sink.new draft.has_map) }
{
    law_bytes(source.ops);
    match check(source, validator, scratch) {
        Ok(()) => {}
        Err(failure) => return Err(RewriteError::Parse(failure)),
    }
    match write_checked(source, target, draft, scratch, sink) {
        Ok(draft) => Ok(draft),
        Err(fault) => Err(RewriteError::Emit(fault)),
    }
}

/// An empty list to write to: with the memory of the caller's, if that is empty, which this one then
/// becomes.
fn list_to_write<T>(list: &mut Vec<T>, alloc: Global) -> Vec<T>
    ensures empty { result.items ≡ [] }
    ensures same { list.new.items ≡ list.old.items }
{
    if list.is_empty() {
        mem::replace(list, Vec::new(alloc))
    } else {
        Vec::new(alloc)
    }
}

/// Appends a body to `dst`. If that is empty it becomes the list of the body's bytes.
fn append(draft: Draft, dst: &mut Vec<u8>) -> Result<(), RewriteError>
    ensures ok { OnOk result (dst.new.items ≡ dst.old.items ++ draft.output.bytes) }
    ensures err { IfErr result (λ e. e ≡ EmitFault Memory) }
    ensures same { OnErr result (dst.new.items ≡ dst.old.items) }
{
    let (bytes, _pairs) = draft.into_lists();
    if dst.is_empty() {
        *dst = bytes;
        return Ok(());
    }
    dst.extend_from_slice(&bytes)?;
    Ok(())
}

/// Appends a body to `dst`, and its pairs to the list. If both are empty they become its lists.
fn append_with_map(
    draft: Draft,
    dst: &mut Vec<u8>,
    map: &mut Vec<(InstrLocId, usize)>,
) -> Result<(), RewriteError>
    ensures ok { OnOk result (dst.new.items ≡ dst.old.items ++ draft.output.bytes) }
    ensures pairs { OnOk result (map.new.items ≡ map.old.items ++ draft.output.pairs) }
    ensures err { IfErr result (λ e. e ≡ EmitFault Memory) }
    ensures same { OnErr result (dst.new.items ≡ dst.old.items) }
    ensures same_pairs { OnErr result (map.new.items ≡ map.old.items) }
{
    let (bytes, pairs) = draft.into_lists();
    append_lists(dst, map, bytes, pairs)?;
    Ok(())
}

/// Appends a body to `dst`, if it was written.
fn finish(made: Result<Draft, RewriteError>, dst: &mut Vec<u8>) -> Result<(), RewriteError>
    ensures finishes { FinishesBytes made dst.old.items dst.new.items result }
    ensures same_bytes { OnErr result (dst.new.items ≡ dst.old.items) }
{
    match made {
        Ok(draft) => append(draft, dst),
        Err(error) => Err(error),
    }
}

/// The same, and its pairs to the list.
fn finish_with_map(
    made: Result<Draft, RewriteError>,
    dst: &mut Vec<u8>,
    map: &mut Vec<(InstrLocId, usize)>,
) -> Result<(), RewriteError>
    ensures finishes { FinishesBoth made dst.old.items dst.new.items map.old.items map.new.items
        result }
    ensures same_bytes { OnErr result (dst.new.items ≡ dst.old.items) }
    ensures same_pairs { OnErr result (map.new.items ≡ map.old.items) }
{
    match made {
        Ok(draft) => append_with_map(draft, dst, map),
        Err(error) => Err(error),
    }
}

/// Rewrites a function's body as `rewrite_body` does, without its tree: what is written is written
/// while the body is read a second time. The caller's location function is called once for each
/// operator, in the second pass.
///
/// # Errors
///
/// Those of `rewrite_body`. `dst` and `map` are then as before.
pub fn rewrite_flat<V: OpCheck, F: Fn(&usize) -> InstrLocId>(
    module: &Module,
    indices: &IndicesToIds,
    id: FunctionId,
    ty: TypeId,
    args: &[LocalId],
    body: FunctionBody<'_>,
    on_instr_pos: Option<&F>,
    validator: V,
    out: &IdsToIndices,
    scratch: &mut FlatScratch,
    dst: &mut Vec<u8>,
    map: Option<&mut Vec<(InstrLocId, usize)>>,
) -> Result<(), RewriteError>
    requires offset { «module».now.code_section_offset ≤ body.start }
    requires ops { body.ops ≤ length body.bytes.now }
    requires fits { body.start + length body.bytes.now < 2 ^ 64 }
    requires may_call { MayCall F.pre on_instr_pos (body.start + body.ops)
        (body.start + length body.bytes.now) }
    // What is appended is the raw body of the normal form of the accepted body: for every list of
    // outcomes and bound on turns it executes the operators of the source and ends alike, and its
    // pairs hold their locations. What is refused is so for the first reason.
    ensures rewritten { OnOk result (RewritesFlat F.Fn (body_input «module».now indices.now
        id ty body.entry on_instr_pos.entry V.check (V.state validator)) (input_for out.now «module».now args.now) dst.old.items dst.new.items map.entry map.exit) }
    ensures refused { IfErr result (RefusesRewriting F.Fn (body_input «module».now indices.now
        id ty body.entry on_instr_pos.entry V.check (V.state validator)) (input_for out.now «module».now args.now)) }
    // No accepted body is refused by the parse unless memory runs out, and each first fault is
    // returned.
    ensures each_body { IfAccepted (body_input «module».now indices.now id ty body.entry
        on_instr_pos.entry V.check (V.state validator)) (IfErr result IsOfWriting) }
    ensures each_fault { IfFirstFault (body_input «module».now indices.now id ty body.entry
        on_instr_pos.entry V.check (V.state validator))
        (λ f. IsErr result × IfErr result (λ e. IsOutOfMemory e ⊎ (e ≡ Parse f))) }
    ensures same_bytes { OnErr result (dst.new.items ≡ dst.old.items) }
    ensures same_pairs { OnErr result (KeepsPairs map.entry map.exit) }
{
    let alloc = *dst.allocator();
    let start = body.start + body.ops;
    let ops = body.operators();
    let source = BodySource {
        module,
        indices,
        function: id,
        ty,
        ops,
        start,
        on_instr_pos,
    };
    let target = Target { out, args };
    match map {
        Some(list) => {
            let bytes = list_to_write(dst, alloc);
            let pairs = list_to_write(list, alloc);
            let draft = Draft::of_lists(bytes, pairs, true);
            let with_pairs = write_body(&source, validator, &target, draft, scratch, &mut InMemory);
            finish_with_map(with_pairs, dst, list)
        }
        None => {
            let alone = list_to_write(dst, alloc);
            let draft = Draft::of_lists(alone, Vec::new(alloc), false);
            let without = write_body(&source, validator, &target, draft, scratch, &mut InMemory);
            finish(without, dst)
        }
    }
}

/// Lets a sink take the last bytes and pairs of a body, if it was written. The buffer gets the list of
/// the bytes, empty.
fn finish_to<S: ByteSink>(
    made: Result<Draft, RewriteError>,
    buffer: &mut Vec<u8>,
    sink: &mut S,
) -> Result<(), RewriteError>
    ensures finishes { FinishesTo (S.takes sink.old sink.new) made result }
    ensures ends { EndsAlike S.refuses sink.old sink.new made result }
    ensures buffer { buffer.old.items ≡ [] → buffer.new.items ≡ [] }
{
    match made {
        Ok(draft) => {
            let (mut bytes, mut pairs) = draft.into_lists();
            if !sink.take(&mut bytes, &mut pairs) {
                return Err(RewriteError::Emit(EmitError::Memory));
            }
            *buffer = bytes;
            Ok(())
        }
        Err(error) => Err(error),
    }
}

/// Rewrites a function's body as `rewrite_flat` does, to a sink, which takes the bytes, and the pairs if
/// they are wanted, while they are written. The buffer is a list for bytes, whose contents don't matter;
/// it is empty afterwards.
///
/// # Errors
///
/// Those of `rewrite_flat`, and `Memory` also where the sink couldn't take bytes. If the body isn't
/// accepted the sink takes nothing; after another error it has taken nothing, or a front of the bytes
/// and of the pairs that are written of the body, or of its operators up to the fault.
pub fn rewrite_flat_to<V: OpCheck, F: Fn(&usize) -> InstrLocId, S: ByteSink>(
    module: &Module,
    indices: &IndicesToIds,
    id: FunctionId,
    ty: TypeId,
    args: &[LocalId],
    body: FunctionBody<'_>,
    on_instr_pos: Option<&F>,
    validator: V,
    out: &IdsToIndices,
    scratch: &mut FlatScratch,
    buffer: &mut Vec<u8>,
    needs_pairs: bool,
    sink: &mut S,
) -> Result<(), RewriteError>
    requires offset { «module».now.code_section_offset ≤ body.start }
    requires ops { body.ops ≤ length body.bytes.now }
    requires fits { body.start + length body.bytes.now < 2 ^ 64 }
    requires may_call { MayCall F.pre on_instr_pos (body.start + body.ops)
        (body.start + length body.bytes.now) }
    // The sink took what `rewrite_flat` appends to empty lists.
    ensures rewritten { OnOk result ((took : Output) × S.takes sink.old sink.new took
        × RewritesTo F.Fn (body_input «module».now indices.now id ty body.entry
        on_instr_pos.entry V.check (V.state validator)) (input_for out.now «module».now args.now) needs_pairs took) }
    ensures refused { IfErr result (RefusesRewriting F.Fn (body_input «module».now indices.now
        id ty body.entry on_instr_pos.entry V.check (V.state validator)) (input_for out.now «module».now args.now)) }
    ensures each_body { IfAccepted (body_input «module».now indices.now id ty body.entry
        on_instr_pos.entry V.check (V.state validator)) (IfErr result IsOfWriting) }
    ensures each_fault { IfFirstFault (body_input «module».now indices.now id ty body.entry
        on_instr_pos.entry V.check (V.state validator))
        (λ f. IsErr result × IfErr result (λ e. IsOutOfMemory e ⊎ (e ≡ Parse f))) }
    // If the body isn't accepted the sink took nothing; else it took a front of what would be
    // written, or nothing.
    ensures leaves { IfErr result (LeavesSink F.Fn (body_input «module».now indices.now id ty
        body.entry on_instr_pos.entry V.check (V.state validator)) (input_for out.now «module».now args.now) S.takes S.refuses sink.old sink.new needs_pairs) }
    ensures buffer { buffer.new.items ≡ [] }
{
    let alloc = *buffer.allocator();
    let start = body.start + body.ops;
    let ops = body.operators();
    let source = BodySource {
        module,
        indices,
        function: id,
        ty,
        ops,
        start,
        on_instr_pos,
    };
    let target = Target { out, args };
    buffer.clear();
    let bytes = list_to_write(buffer, alloc);
    let draft = Draft::of_lists(bytes, Vec::new(alloc), needs_pairs);
    let made = write_body(&source, validator, &target, draft, scratch, sink);
    finish_to(made, buffer, sink)
}
