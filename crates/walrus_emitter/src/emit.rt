//! Writing a function's tree.
ghost use Rattle.std.specs.Prelude.{◌≡◌, ◌∷◌, [], ◌<◌, ◌^◌, length, true, None, Some, Ok, OnOk, OnErr, IfOk, IfErr};
ghost use Rattle.walrus_ir.specs.declared.val_type.InstrSeqType.TheVariants.{Simple};
ghost use Rattle.std.specs.Bool.{OnTrue, OnFalse};
ghost use Rattle.walrus_ir.specs.declared.instr.Instr.TheVariants as instruction;
ghost use Rattle.walrus_ir.specs.Unfolding.{slots_in};
ghost use Rattle.wasm_operators.specs.declared.types.Opcode.TheVariants as opcodes;
ghost use Rattle.wasm_operators.specs.declared.types.Space.TheVariants.{Funcs, Globals};
ghost use Rattle.wasm_operators.specs.Operations.{operation, index as index_immediate, local as local_immediate, label as label_immediate, access as access_immediate};
ghost use Rattle.walrus_emit_state.specs.Emission.{first_type_at};
ghost use Rattle.wasm_body.specs.Bytes.{Numbers};
ghost use Rattle.wasm_body.specs.InstructionTable.{operation_of, access_at, block_immediate, clauses_of_try};
ghost use Rattle.wasm_body.specs.FlatText.{are_lawful as lawful_clauses};
ghost use Rattle.walrus_numbering.specs.NumberMaps.{numbers_of};
ghost use Rattle.walrus_numbering.specs.NumberTables.{HasNumbers};
ghost use Rattle.walrus_emitter.specs.TreeWriting.Trees.{IsFirstScope, IsDraftOf, IsNotWritten, Appends};
ghost use Rattle.walrus_emitter.specs.TreeWriting.Emitters.{ClosesWith, IsFaultOfCloser};

use std::alloc::AllocError;
use walrus_emit_state::{Closer, Draft, Scopes, announce, are_lawful};
use walrus_ir::{
    Binop, Const, DataId, FunctionBuilder, FunctionId, GlobalId, Instr, InstrLocId, InstrSeq,
    InstrSeqId, InstrSeqType, LocalId, MemArg, MemoryId, RefFunc, Unop, Value, Visitor,
    dfs_in_order,
};
use walrus_numbering::{NumberMaps, memory_argument, number_at, number_table};
use walrus_to_operators::{Lists, closing_operator, operator_of};
use wasm_body::EmitError;
use wasm_encode::{FunctionEncoder, OutOp};
use wasm_operators::{Opcode, binary_opcode, load_opcode, store_opcode, unary_opcode};

/// The byte of a block type without parameters and results.
const NO_TYPE: u32 = 0x40;

/// Writes the operators of the events that it visits, aside.
#[derive(Drop)]
pub(crate) struct EmitVisitor<'a> {
    builder: &'a FunctionBuilder,
    numbers: NumberMaps<'a>,
    /// The numbers of the locals with the first ids, by id.
    locals: Vec<Option<u32>>,
    scopes: Scopes,
    draft: Draft,
    ghost as_many: { scopes.count ≡ length builder.now.sequences },
    ghost has_numbers: { HasNumbers numbers.locals.now.entries locals.items },
}

/// The type of the sequence in a slot.
fn type_at(builder: &FunctionBuilder, place: InstrSeqId) -> Result<InstrSeqType, EmitError>
    ensures { result ≡ first_type_at builder.now.sequences (place ∷ []) }
{
    if !builder.has(place) {
        return Err(EmitError::UnknownSequence);
    }
    Ok(builder.seq(place).ty)
}

/// The type of the first sequence in an instruction. Without one, that of a block without
/// parameters and results.
fn first_type(builder: &FunctionBuilder, instr: &Instr) -> Result<InstrSeqType, EmitError>
    ensures { result ≡ first_type_at builder.now.sequences (slots_in instr.now) }
{
    match instr {
        Instr::Block(x) => type_at(builder, x.seq),
        Instr::Loop(x) => type_at(builder, x.seq),
        Instr::IfElse(x) => type_at(builder, x.consequent),
        Instr::TryTable(x) => type_at(builder, x.seq),
        Instr::Try(x) => type_at(builder, x.seq),
        _ => Ok(InstrSeqType::Simple(None)),
    }
}

/// Whether the first sequence in an instruction has no parameters and no results.
#[inline(always)]
fn is_untyped(builder: &FunctionBuilder, instr: &Instr) -> bool
    ensures { OnTrue result
        (first_type_at builder.now.sequences (slots_in instr.now) ≡ Ok (Simple None)) }
{
    matches!(first_type(builder, instr), Ok(InstrSeqType::Simple(None)))
}

/// Whether the clauses of an instruction are lawful, if it has some.
fn has_lawful_clauses(instr: &Instr) -> bool
    ensures { result ≡ lawful_clauses (clauses_of_try instr.now) }
{
    match instr {
        Instr::Try(x) => are_lawful(x.catches.as_slice()),
        _ => true,
    }
}

/// Writes an `end` or an `else` that closes a sequence, and returns whether it did. Otherwise nothing
/// is changed.
#[inline(always)]
fn write_common_closer(draft: &mut Draft, closer: &Option<(Closer, InstrLocId)>) -> bool
    ensures done { OnTrue result ((to : Numbers) → ClosesWith to closer.now draft.old draft.new) }
    ensures unchanged { OnFalse result (draft.new ≡ draft.old) }
{
    match closer {
        Some((Closer::End, location)) => draft.write_byte(0x0b, *location),
        Some((Closer::Else, location)) => draft.write_byte(0x05, *location),
        _ => false,
    }
}

/// Writes the operator that closes a sequence, if there is one, of any kind.
#[inline(never)]
fn write_any_closer(
    draft: &mut Draft,
    closer: Option<(Closer, InstrLocId)>,
    numbers: &NumberMaps<'_>,
) -> Result<(), EmitError>
    ensures ok { OnOk result (ClosesWith (numbers_of numbers.now) closer draft.old draft.new) }
    ensures err { IfErr result (IsFaultOfCloser (numbers_of numbers.now) closer draft.old) }
    ensures unchanged { OnErr result (draft.new ≡ draft.old) }
{
    let Some((closer, location)) = closer else {
        return Ok(());
    };
    match closing_operator(closer, numbers) {
        Ok(op) => draft.write_any(&op, location),
        Err(fault) => Err(fault),
    }
}

/// Writes the operator that closes a sequence, if there is one.
#[inline(always)]
fn write_closer(
    draft: &mut Draft,
    closer: Option<(Closer, InstrLocId)>,
    numbers: &NumberMaps<'_>,
) -> Result<(), EmitError>
    ensures ok { OnOk result (ClosesWith (numbers_of numbers.now) closer draft.old draft.new) }
    ensures err { IfErr result (IsFaultOfCloser (numbers_of numbers.now) closer draft.old) }
    ensures unchanged { OnErr result (draft.new ≡ draft.old) }
{
    if write_common_closer(draft, &closer) {
        return Ok(());
    }
    write_any_closer(draft, closer, numbers)
}

impl<'a> EmitVisitor<'a> {
    ghost use Rattle.walrus_ir.specs.Events.{VisitInstruction};
    ghost use Rattle.walrus_emitter.specs.TreeWriting.Visiting.{Steps, Refuses, Same, HasOnlyMore};

    /// Writes an instruction that is one byte, and returns whether it did. If not, memory ran out,
    /// and nothing is changed.
    #[inline(always)]
    fn write_byte(&mut self, instr: &Instr, byte: u8, location: InstrLocId) -> bool
        requires plain { slots_in instr.now ≡ [] }
        requires row { operation_of instr.now ≡ operation (opcodes.Byte byte) [] }
        ensures done { OnTrue result (Steps self.old (VisitInstruction instr.now location) self.new) }
        ensures unchanged { OnFalse result (Same self.old self.new) }
    {
        self.draft.write_byte(byte, location)
    }

    /// Writes an operator of one operand if it is one byte, as `write_byte`.
    #[inline(always)]
    fn write_unary(&mut self, instr: &Instr, unop: &Unop, location: InstrLocId) -> bool
        requires { instr.now ≡ instruction.Unop unop.now }
        ensures done { OnTrue result (Steps self.old (VisitInstruction instr.now location) self.new) }
        ensures unchanged { OnFalse result (Same self.old self.new) }
    {
        match unary_opcode(unop.op) {
            Opcode::Byte(byte) => self.write_byte(instr, byte, location),
            Opcode::Prefixed(_, _) => false,
        }
    }

    /// Writes an operator of two operands if it is one byte, as `write_byte`.
    #[inline(always)]
    fn write_binary(&mut self, instr: &Instr, binop: &Binop, location: InstrLocId) -> bool
        requires { instr.now ≡ instruction.Binop binop.now }
        ensures done { OnTrue result (Steps self.old (VisitInstruction instr.now location) self.new) }
        ensures unchanged { OnFalse result (Same self.old self.new) }
    {
        match binary_opcode(binop.op) {
            Opcode::Byte(byte) => self.write_byte(instr, byte, location),
            Opcode::Prefixed(_, _) => false,
        }
    }

    /// Writes a constant if it is an integer, as `write_byte`.
    #[inline(always)]
    fn write_constant(&mut self, instr: &Instr, constant: &Const, location: InstrLocId) -> bool
        requires { instr.now ≡ instruction.Const constant.now }
        ensures done { OnTrue result (Steps self.old (VisitInstruction instr.now location) self.new) }
        ensures unchanged { OnFalse result (Same self.old self.new) }
    {
        match constant.value {
            Value::I32(value) => {
                let wide = i64::from(value);
                self.draft.write_integer(0x41, wide, location)
            }
            Value::I64(value) => self.draft.write_integer(0x42, value, location),
            _ => false,
        }
    }

    /// Writes an instruction that is a byte and a local, and returns whether it did. Otherwise
    /// nothing is changed: the table has no number for the local, or memory ran out.
    #[inline(always)]
    fn write_local(&mut self, instr: &Instr, byte: u8, local: LocalId, location: InstrLocId) -> bool
        requires plain { slots_in instr.now ≡ [] }
        requires row { operation_of instr.now
            ≡ operation (opcodes.Byte byte) (local_immediate local ∷ []) }
        ensures done { OnTrue result (Steps self.old (VisitInstruction instr.now location) self.new) }
        ensures unchanged { OnFalse result (Same self.old self.new) }
    {
        match number_at(&self.locals, local) {
            Some(number) => self.draft.write_number(byte, number, location),
            None => false,
        }
    }

    /// Writes an instruction that is a byte and a function, and returns whether it did. Otherwise
    /// nothing is changed: the function has no number, or memory ran out.
    #[inline(always)]
    fn write_func(
        &mut self,
        instr: &Instr,
        byte: u8,
        func: FunctionId,
        location: InstrLocId,
    ) -> bool
        requires plain { slots_in instr.now ≡ [] }
        requires row { operation_of instr.now
            ≡ operation (opcodes.Byte byte) (index_immediate Funcs func ∷ []) }
        ensures done { OnTrue result (Steps self.old (VisitInstruction instr.now location) self.new) }
        ensures unchanged { OnFalse result (Same self.old self.new) }
    {
        match self.numbers.ids.get_func_index(func) {
            Ok(number) => self.draft.write_number(byte, number, location),
            Err(_) => false,
        }
    }

    /// Writes an instruction that is a byte and a global, as `write_func`.
    #[inline(always)]
    fn write_global(
        &mut self,
        instr: &Instr,
        byte: u8,
        global: GlobalId,
        location: InstrLocId,
    ) -> bool
        requires plain { slots_in instr.now ≡ [] }
        requires row { operation_of instr.now
            ≡ operation (opcodes.Byte byte) (index_immediate Globals global ∷ []) }
        ensures done { OnTrue result (Steps self.old (VisitInstruction instr.now location) self.new) }
        ensures unchanged { OnFalse result (Same self.old self.new) }
    {
        match self.numbers.ids.get_global_index(global) {
            Ok(number) => self.draft.write_number(byte, number, location),
            Err(_) => false,
        }
    }

    /// Writes an instruction that is a byte and a label, and returns whether it did. Otherwise
    /// nothing is changed: the label has no depth, or memory ran out.
    #[inline(always)]
    fn write_branch(
        &mut self,
        instr: &Instr,
        byte: u8,
        block: InstrSeqId,
        location: InstrLocId,
    ) -> bool
        requires plain { slots_in instr.now ≡ [] }
        requires row { operation_of instr.now
            ≡ operation (opcodes.Byte byte) (label_immediate block ∷ []) }
        ensures done { OnTrue result (Steps self.old (VisitInstruction instr.now location) self.new) }
        ensures unchanged { OnFalse result (Same self.old self.new) }
    {
        match self.scopes.depth(block) {
            Ok(depth) => self.draft.write_number(byte, depth, location),
            Err(_) => false,
        }
    }

    /// Writes an instruction that is an opcode and an access to memory, and returns whether it did.
    /// Otherwise nothing is changed: the opcode isn't one byte, the memory has no number, or memory
    /// ran out.
    #[inline(always)]
    fn write_access(
        &mut self,
        instr: &Instr,
        opcode: Opcode,
        arg: MemArg,
        memory: MemoryId,
        location: InstrLocId,
    ) -> bool
        requires plain { slots_in instr.now ≡ [] }
        requires row { operation_of instr.now
            ≡ operation opcode (access_immediate (access_at memory arg) ∷ []) }
        ensures done { OnTrue result (Steps self.old (VisitInstruction instr.now location) self.new) }
        ensures unchanged { OnFalse result (Same self.old self.new) }
    {
        let Opcode::Byte(byte) = opcode else {
            return false;
        };
        match self.numbers.ids.get_memory_index(memory) {
            Ok(number) => {
                let memarg = memory_argument(arg, number);
                self.draft.write_access(byte, memarg, location)
            }
            Err(_) => false,
        }
    }

    /// Writes an instruction of a common kind, and returns whether it did. Otherwise nothing is
    /// changed, and `visit_at_length` finds out why.
    #[inline(always)]
    fn write_common(&mut self, instr: &Instr, location: InstrLocId) -> bool
        ensures done { OnTrue result (Steps self.old (VisitInstruction instr.now location) self.new) }
        ensures unchanged { OnFalse result (Same self.old self.new) }
    {
        match instr {
            Instr::LocalGet(x) => self.write_local(instr, 0x20, x.local, location),
            Instr::LocalSet(x) => self.write_local(instr, 0x21, x.local, location),
            Instr::LocalTee(x) => self.write_local(instr, 0x22, x.local, location),
            Instr::Const(x) => self.write_constant(instr, x, location),
            Instr::Unop(x) => self.write_unary(instr, x, location),
            Instr::Binop(x) => self.write_binary(instr, x, location),
            Instr::Load(x) => {
                self.write_access(instr, load_opcode(x.kind), x.arg, x.memory, location)
            }
            Instr::Store(x) => {
                self.write_access(instr, store_opcode(x.kind), x.arg, x.memory, location)
            }
            Instr::Call(x) => self.write_func(instr, 0x10, x.func, location),
            Instr::GlobalGet(x) => self.write_global(instr, 0x23, x.global, location),
            Instr::GlobalSet(x) => self.write_global(instr, 0x24, x.global, location),
            Instr::Br(x) => self.write_branch(instr, 0x0c, x.block, location),
            Instr::BrIf(x) => self.write_branch(instr, 0x0d, x.block, location),
            Instr::Drop => self.write_byte(instr, 0x1a, location),
            Instr::Return => self.write_byte(instr, 0x0f, location),
            Instr::Unreachable => self.write_byte(instr, 0x00, location),
            _ => false,
        }
    }

    /// Writes an instruction without sequences, of any kind.
    #[inline(never)]
    fn visit_plain(&mut self, instr: &Instr, location: InstrLocId) -> Result<(), EmitError>
        requires { slots_in instr.now ≡ [] }
        ensures ok { OnOk result (Steps self.old (VisitInstruction instr.now location) self.new) }
        ensures err { IfErr result (Refuses self.old (VisitInstruction instr.now location)) }
        ensures unchanged { OnErr result (Same self.old self.new) }
    {
        let ty = InstrSeqType::Simple(None);
        let mut lists = Lists::new(self.builder.allocator());
        match operator_of(instr, ty, &self.scopes, &self.numbers, &mut lists) {
            Ok(op) => self.draft.write_any(&op, location),
            Err(fault) => Err(fault),
        }
    }

    /// Writes a constant of any type.
    #[inline(never)]
    fn visit_constant(
        &mut self,
        instr: &Instr,
        constant: &Const,
        location: InstrLocId,
    ) -> Result<(), EmitError>
        requires { instr.now ≡ instruction.Const constant.now }
        ensures ok { OnOk result (Steps self.old (VisitInstruction instr.now location) self.new) }
        ensures err { IfErr result (Refuses self.old (VisitInstruction instr.now location)) }
        ensures unchanged { OnErr result (Same self.old self.new) }
    {
        match constant.value {
            Value::F32(bits) => self.draft.write_any(&OutOp::F32Const { bits }, location),
            Value::F64(bits) => self.draft.write_any(&OutOp::F64Const { bits }, location),
            _ => self.visit_plain(instr, location),
        }
    }

    /// Writes the operator of an instruction and announces its sequences. If it fails, some of them
    /// may be announced.
    fn begin_construct(&mut self, instr: &Instr, location: InstrLocId) -> Result<(), EmitError>
        ensures ok { OnOk result (Steps self.old (VisitInstruction instr.now location) self.new) }
        ensures err { IfErr result (Refuses self.old (VisitInstruction instr.now location)) }
        ensures unchanged { OnErr result (HasOnlyMore self.old self.new) }
    {
        let ty = match first_type(self.builder, instr) {
            Ok(ty) => ty,
            Err(fault) => return Err(fault),
        };
        if !has_lawful_clauses(instr) {
            return Err(EmitError::BadClauses);
        }
        let mut lists = Lists::new(self.builder.allocator());
        match operator_of(instr, ty, &self.scopes, &self.numbers, &mut lists) {
            Ok(op) => match announce(&mut self.scopes, self.builder, self.numbers.types, instr) {
                Ok(()) => self.draft.write_any(&op, location),
                Err(fault) => Err(fault),
            },
            Err(fault) => Err(fault),
        }
    }

    /// Writes the operator of an instruction with sequences.
    #[inline(never)]
    fn visit_construct(&mut self, instr: &Instr, location: InstrLocId) -> Result<(), EmitError>
        ensures ok { OnOk result (Steps self.old (VisitInstruction instr.now location) self.new) }
        ensures err { IfErr result (Refuses self.old (VisitInstruction instr.now location)) }
        ensures unchanged { OnErr result (Same self.old self.new) }
    {
        let count = self.scopes.coming_count();
        match self.begin_construct(instr, location) {
            Ok(()) => Ok(()),
            Err(fault) => {
                self.scopes.keep_last(count);
                Err(fault)
            }
        }
    }

    /// Writes an instruction of a byte and a block type, if its first sequence has no parameters and
    /// no results, and announces its sequences. Returns whether it did; if not, some of them may be
    /// announced.
    #[inline(always)]
    fn begin_opener(&mut self, instr: &Instr, byte: u8, location: InstrLocId) -> bool
        requires row { operation_of instr.now
            ≡ operation (opcodes.Byte byte) (block_immediate ∷ []) }
        requires lawful { lawful_clauses (clauses_of_try instr.now) ≡ true }
        ensures done { OnTrue result (Steps self.old (VisitInstruction instr.now location) self.new) }
        ensures unchanged { OnFalse result (HasOnlyMore self.old self.new) }
    {
        if !is_untyped(self.builder, instr) {
            return false;
        }
        match announce(&mut self.scopes, self.builder, self.numbers.types, instr) {
            Ok(()) => self.draft.write_number(byte, NO_TYPE, location),
            Err(_) => false,
        }
    }

    /// The same, and if it returns that it didn't, nothing is changed.
    #[inline(always)]
    fn write_opener(&mut self, instr: &Instr, byte: u8, location: InstrLocId) -> bool
        requires row { operation_of instr.now
            ≡ operation (opcodes.Byte byte) (block_immediate ∷ []) }
        requires lawful { lawful_clauses (clauses_of_try instr.now) ≡ true }
        ensures done { OnTrue result (Steps self.old (VisitInstruction instr.now location) self.new) }
        ensures unchanged { OnFalse result (Same self.old self.new) }
    {
        let count = self.scopes.coming_count();
        if self.begin_opener(instr, byte, location) {
            return true;
        }
        self.scopes.keep_last(count);
        false
    }

    /// Writes a `block`, a `loop` or an `if`, whose opcode is this byte, and announces its sequences.
    #[inline(never)]
    fn visit_opener(
        &mut self,
        instr: &Instr,
        byte: u8,
        location: InstrLocId,
    ) -> Result<(), EmitError>
        requires row { operation_of instr.now
            ≡ operation (opcodes.Byte byte) (block_immediate ∷ []) }
        requires lawful { lawful_clauses (clauses_of_try instr.now) ≡ true }
        ensures ok { OnOk result (Steps self.old (VisitInstruction instr.now location) self.new) }
        ensures err { IfErr result (Refuses self.old (VisitInstruction instr.now location)) }
        ensures unchanged { OnErr result (Same self.old self.new) }
    {
        if self.write_opener(instr, byte, location) {
            return Ok(());
        }
        self.visit_construct(instr, location)
    }

    /// Writes the operator of an instruction of any kind, and announces its sequences.
    #[inline(never)]
    fn visit_at_length(&mut self, instr: &Instr, location: InstrLocId) -> Result<(), EmitError>
        ensures ok { OnOk result (Steps self.old (VisitInstruction instr.now location) self.new) }
        ensures err { IfErr result (Refuses self.old (VisitInstruction instr.now location)) }
        ensures unchanged { OnErr result (Same self.old self.new) }
    {
        match instr {
            Instr::Block(_) => self.visit_opener(instr, 0x02, location),
            Instr::Loop(_) => self.visit_opener(instr, 0x03, location),
            Instr::IfElse(_) => self.visit_opener(instr, 0x04, location),
            Instr::TryTable(_) | Instr::Try(_) => self.visit_construct(instr, location),
            Instr::Const(x) => self.visit_constant(instr, x, location),
            _ => self.visit_plain(instr, location),
        }
    }
}

impl Visitor for EmitVisitor<'_> {
    type Fault = EmitError;

    ghost use Rattle.walrus_emitter.specs.TreeWriting.Visiting.{Steps, Refuses, Same};

    ghost steps = { Steps };

    ghost refuses = { Refuses };

    ghost same = { Same };

    ghost use Rattle.std.proofs.Common.{refl, sym, ◌∙◌};
    ghost use Rattle.walrus_emitter.specs.TreeWriting.Visiting.{same_steps, same_refusals};

    ghost reflexive = { λ v. refl };

    ghost symmetric = { λ v w. sym };

    ghost transitive = { λ u v w h k. h ∙ k };

    ghost steps_alike = { same_steps };

    ghost refuses_alike = { same_refusals };

    fn start_instr_seq(&mut self, _seq: &InstrSeq) -> Result<(), EmitError> {
        self.scopes.begin()
    }

    fn end_instr_seq(&mut self, _seq: &InstrSeq) -> Result<(), EmitError> {
        let Some(scope) = self.scopes.innermost() else {
            return Err(EmitError::UnknownSequence);
        };
        match write_closer(&mut self.draft, scope.closer, &self.numbers) {
            Ok(()) => {
                self.scopes.leave();
                Ok(())
            }
            Err(fault) => Err(fault),
        }
    }

    #[inline(always)]
    fn visit_instr(&mut self, instr: &Instr, location: &InstrLocId) -> Result<(), EmitError> {
        if self.write_common(instr, *location) {
            return Ok(());
        }
        self.visit_at_length(instr, *location)
    }

    fn visit_ref_func(&mut self, _instr: &RefFunc) -> Result<(), EmitError> {
        Ok(())
    }

    fn visit_local_id(&mut self, _local: &LocalId) -> Result<(), EmitError> {
        Ok(())
    }

    fn visit_data_id(&mut self, _data_id: &DataId) -> Result<(), EmitError> {
        Ok(())
    }
}

/// The sequences of a builder. None is open, and only the one at the entry is to come.
fn first_scopes(builder: &FunctionBuilder, entry: InstrSeqId) -> Result<Scopes, AllocError>
    requires { entry < length builder.now.sequences }
    ensures { IfOk result (IsFirstScope builder.now.sequences entry) }
{
    let mut scopes = Scopes::new(builder.allocator(), builder.count())?;
    scopes.announce(entry, Closer::End, builder.seq(entry).end)?;
    Ok(scopes)
}

/// How many operators are written at most: one for each instruction, and one for the end of each
/// sequence.
fn operator_count(builder: &FunctionBuilder) -> usize {
    let mut count = builder.count();
    for slot in 0..builder.count() {
        count = count.saturating_add(builder.seq(InstrSeqId::new(slot)).len());
    }
    count
}

/// Writes the tree of the function from a sequence on, aside. `base` is the number of bytes before
/// it.
///
/// # Errors
///
/// If the sequences are not a tree, the first fault in walk order; otherwise the first fault in the
/// order of writing. Or `Memory` if memory runs out.
fn draft_tree(
    builder: &FunctionBuilder,
    entry: InstrSeqId,
    numbers: &NumberMaps<'_>,
    base: usize,
    has_map: bool,
) -> Result<Draft, EmitError>
    requires { base < 2 ^ 63 }
    ensures ok { IfOk result (IsDraftOf builder.now.sequences entry (numbers_of numbers.now)
        base has_map) }
    ensures err { IfErr result (IsNotWritten builder.now.sequences entry (numbers_of numbers.now)) }
{
    if !builder.has(entry) {
        return Err(EmitError::UnknownSequence);
    }
    let scopes = match first_scopes(builder, entry) {
        Ok(scopes) => scopes,
        Err(_) => return Err(EmitError::Memory),
    };
    let locals = match number_table(builder.allocator(), numbers.locals) {
        Ok(locals) => locals,
        Err(_) => return Err(EmitError::Memory),
    };
    let mut visitor = EmitVisitor {
        builder,
        numbers: *numbers,
        locals,
        scopes,
        draft: Draft::new(builder.allocator(), base, has_map, operator_count(builder)),
    };
    match dfs_in_order(&mut visitor, builder, entry) {
        Ok(()) => {
            let EmitVisitor { draft, .. } = visitor;
            Ok(draft)
        }
        Err(fault) => Err(fault),
    }
}

/// Appends the tree of the function from the sequence `entry` on to an encoder, and its location
/// pairs to a list. A pair is the location of an operator and the place of its first byte in the
/// encoder, a byte offset.
///
/// # Errors
///
/// If the sequences are not a tree, the first fault in walk order; otherwise the first fault in the
/// order of writing. Or `Memory` if memory runs out. The encoder and the list are then unchanged.
pub fn emit_with_map(
    builder: &FunctionBuilder,
    entry: InstrSeqId,
    numbers: &NumberMaps<'_>,
    encoder: &mut FunctionEncoder,
    map: &mut Vec<(InstrLocId, usize)>,
) -> Result<(), EmitError>
    ensures ok { OnOk result (Appends builder.now.sequences entry (numbers_of numbers.now)
        encoder.old encoder.new (Some (map.old.items, map.new.items))) }
    ensures err { IfErr result (IsNotWritten builder.now.sequences entry (numbers_of numbers.now)) }
    ensures same_bytes { OnErr result (encoder.new ≡ encoder.old) }
    ensures same_pairs { OnErr result (map.new.items ≡ map.old.items) }
{
    match draft_tree(builder, entry, numbers, encoder.byte_len(), true) {
        Ok(draft) => match draft.append_to(encoder, map) {
            Ok(()) => Ok(()),
            Err(_) => Err(EmitError::Memory),
        },
        Err(fault) => Err(fault),
    }
}

/// Appends the tree of the function from the sequence `entry` on to an encoder.
///
/// # Errors
///
/// Those of `emit_with_map`. The encoder is then unchanged.
pub fn emit_without_map(
    builder: &FunctionBuilder,
    entry: InstrSeqId,
    numbers: &NumberMaps<'_>,
    encoder: &mut FunctionEncoder,
) -> Result<(), EmitError>
    ensures ok { OnOk result (Appends builder.now.sequences entry (numbers_of numbers.now)
        encoder.old encoder.new None) }
    ensures err { IfErr result (IsNotWritten builder.now.sequences entry (numbers_of numbers.now)) }
    ensures same_bytes { OnErr result (encoder.new ≡ encoder.old) }
{
    match draft_tree(builder, entry, numbers, encoder.byte_len(), false) {
        Ok(draft) => match draft.append_bytes_to(encoder) {
            Ok(()) => Ok(()),
            Err(_) => Err(EmitError::Memory),
        },
        Err(fault) => Err(fault),
    }
}
