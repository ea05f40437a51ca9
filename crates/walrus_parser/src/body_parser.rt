//! How a body is parsed: each operator advances the state of the open sequences.
ghost use Rattle.std.specs.Prelude.{IsTrue, ◌↔◌, reverse, ◌≡◌, ◌⊎◌, ◌<◌, ◌≤◌, length, IfOk, IfErr, OnOk, Some, [], ◌∷◌, Ok, Err, IsSomeAnd, None, true};
ghost use Rattle.walrus_ir.specs.Types.{existing};
ghost use Rattle.wasm_operators.specs.declared.types.Opcode.TheVariants.{Byte};
ghost use Rattle.wasm_operators.specs.Operations.{operation, block};
ghost use Rattle.wasm_operators.specs.declared.operator.Op.TheVariants as op;
ghost use Rattle.wasm_operators.specs.Meaning.{meaning};
ghost use Rattle.wasm_encode.specs.Writable.{IsWritable};
ghost use Rattle.walrus_from_operators.specs.OperatorKinds.{is_instruction};
ghost use Rattle.walrus_parser.specs.OperatorKinds.{makes_unreachable};
ghost use Rattle.wasm_body.specs.declared.error.ParseError.{ParseError as ParseFault};
ghost use Rattle.wasm_body.specs.Control.{end_operation, else_operation};
ghost use Rattle.walrus_ir.specs.Unfolding.{slots_in};
ghost use Rattle.wasm_body.specs.InstructionTable.{operation_of, clauses_of_try};
ghost use Rattle.wasm_body.specs.Naming.{entry_type_id as entry_type_of};
ghost use Rattle.walrus_context.specs.OpenFrames.{changed_at};
ghost use Rattle.walrus_context.specs.OpenTrees.{env_of, AddsEmpty};
ghost use Rattle.walrus_parser.specs.BodySources.{source_environment};
ghost use Rattle.walrus_parser.specs.BodyParsers.{BeginsParse, IsSameBody, ParsesStep, with_alternative, AppendsIf, HasNoIf, FinishesParse, with_appended, placed_in};

use crate::body_source::BodySource;
use std::alloc::Global;
use std::mem;
use walrus_context::{IfElseState, ValidationContext, push_or_fail};
use walrus_from_operators::instruction;
use walrus_ir::{
    Block, BlockKind, FunctionBuilder, IfElse, Instr, InstrLocId, InstrSeqId, Loop, TypeId, ValType,
};
use wasm_body::ParseError;
use wasm_ops::{BlockType, Operator};

/// The state while a body is parsed.
#[derive(Drop)]
pub(crate) struct BodyParser<'a> {
    /// The function's sequences, and which of them are open.
    pub context: ValidationContext<'a>,
    /// The `if`s whose `end` isn't read yet, the innermost last.
    pub if_else: Vec<IfElseState>,
}

/// Takes the caller's list, cleared, and puts a new one in its place.
fn cleared(alloc: Global, lent: &mut Vec<(Instr, InstrLocId)>) -> Vec<(Instr, InstrLocId)>
    ensures { result.items ≡ [] }
{
    let mut instrs = mem::replace(lent, Vec::new(alloc));
    instrs.clear();
    instrs
}

impl<'a> BodyParser<'a> {
    /// A parser of this body, which has read nothing. `entry` is the type of the function's entry.
    /// The caller's list is that of the open sequences until `finish` gives it back.
    pub fn new<F>(
        alloc: Global,
        source: &BodySource<'a, F>,
        entry: TypeId,
        sequences: usize,
        lent: &mut Vec<(Instr, InstrLocId)>,
    ) -> Result<BodyParser<'a>, ParseError>
        requires { entry_type_of (source_environment source.now) ≡ Ok entry }
        ensures env { IfOk result (λ p. env_of p.context ≡ source_environment source.now) }
        ensures ok { IfOk result BeginsParse }
        ensures err { IfErr result (λ e. e ≡ ParseFault.Memory) }
    {
        let mut builder = FunctionBuilder::without_entry(alloc, source.ty);
        builder.set_entry(InstrSeqId::new(0));
        builder.make_room(sequences);
        let controls = Vec::new(alloc);
        let instrs = cleared(alloc, lent);
        let mut context = ValidationContext::new(
            source.module,
            source.indices,
            source.function,
            builder,
            controls,
            instrs,
        );
        match context.push_control_with_ty(BlockKind::FunctionEntry, entry) {
            Ok(_entry) => Ok(BodyParser {
                context,
                if_else: Vec::new(alloc),
            }),
            Err(error) => Err(error),
        }
    }
}

impl BodyParser<'_> {
    /// Whether only the function's own sequence is open.
    pub fn is_outermost(&self) -> bool
        ensures { IsTrue result ↔ (length self.now.context.frames ≤ 1) }
    {
        self.context.frame_count() <= 1
    }

    /// Takes a `block`.
    fn open_block(&mut self, ty: BlockType, location: InstrLocId) -> Result<(), ParseError>
        ensures step { ParsesStep self.old self.new (operation (Byte 0x02) (block ty ∷ []))
            location result }
        ensures rest { OnOk result (IsSameBody self.old.context self.new.context) }
    {
        match self.context.push_block(BlockKind::Block, ty) {
            Ok(seq) => {
                self.context
                    .alloc_instr_in_control(1, Instr::Block(Block { seq }), location)
            }
            Err(error) => Err(error),
        }
    }

    /// Takes a `loop`.
    fn open_loop(&mut self, ty: BlockType, location: InstrLocId) -> Result<(), ParseError>
        ensures step { ParsesStep self.old self.new (operation (Byte 0x03) (block ty ∷ []))
            location result }
        ensures rest { OnOk result (IsSameBody self.old.context self.new.context) }
    {
        match self.context.push_block(BlockKind::Loop, ty) {
            Ok(seq) => {
                self.context
                    .alloc_instr_in_control(1, Instr::Loop(Loop { seq }), location)
            }
            Err(error) => Err(error),
        }
    }

    /// Takes an `if`, whose instruction is appended at its `end`.
    fn open_if(&mut self, ty: BlockType, start: InstrLocId) -> Result<(), ParseError>
        ensures step { ParsesStep self.old self.new (operation (Byte 0x04) (block ty ∷ []))
            start result }
        ensures rest { OnOk result (IsSameBody self.old.context self.new.context) }
    {
        match self.context.push_block(BlockKind::If, ty) {
            Ok(consequent) => push_or_fail(
                &mut self.if_else,
                IfElseState {
                    start,
                    consequent,
                    alternative: None,
                },
            ),
            Err(error) => Err(error),
        }
    }

    /// Gives the innermost `if` this alternative.
    fn begin_alternative(&mut self, alternative: InstrSeqId)
        ensures context { self.new.context ≡ self.old.context }
        ensures ifs { reverse self.new.if_else.items
            ≡ with_alternative alternative (reverse self.old.if_else.items) }
    {
        if let Some(index) = self.if_else.len().checked_sub(1) {
            self.if_else[index].alternative = Some(alternative);
        }
    }

    /// Takes an `else`.
    fn begin_else(&mut self, location: InstrLocId) -> Result<(), ParseError>
        ensures step { ParsesStep self.old self.new else_operation location result }
        ensures rest { OnOk result (IsSameBody self.old.context self.new.context) }
    {
        let (frame, consequent) = match self.context.pop_control() {
            Ok(popped) => popped,
            Err(error) => return Err(error),
        };
        let BlockKind::If = frame.kind else {
            return Err(ParseError::ElseOutsideIf);
        };
        self.context.end_sequence(consequent, location);
        let pushed = self
            .context
            .push_control(BlockKind::Else, &frame.start_types, &frame.end_types);
        match pushed {
            Ok(alternative) => {
                self.begin_alternative(alternative);
                Ok(())
            }
            Err(error) => Err(error),
        }
    }

    /// Appends the instruction of the innermost `if`, whose sequences are closed.
    fn append_if(&mut self, alternative: Option<InstrSeqId>) -> Result<(), ParseError>
        ensures ok { OnOk result (AppendsIf self.old self.new alternative) }
        ensures err { IfErr result (λ e. (e ≡ ParseFault.Memory) ⊎ HasNoIf self.old alternative) }
    {
        let Some(top) = self.if_else.pop() else {
            return Err(ParseError::NoFrame);
        };
        let Some(alternative) = alternative.or(top.alternative) else {
            return Err(ParseError::NoFrame);
        };
        let consequent = top.consequent;
        let instr = Instr::IfElse(IfElse {
            consequent,
            alternative,
        });
        self.context.alloc_instr(instr, top.start)
    }

    /// Makes an empty alternative for an `if` that has none.
    fn empty_alternative(
        &mut self,
        start_types: &[ValType],
        end_types: &[ValType],
    ) -> Result<InstrSeqId, ParseError>
        ensures ok { IfOk result (λ id. IsSomeAnd
            (existing self.old.context.module.types start_types.now end_types.now)
            (λ ty. AddsEmpty self.old.context self.new.context ty id)) }
        ensures err { IfErr result (λ e. (e ≡ ParseFault.Memory)
            ⊎ ((e ≡ ParseFault.TypeMissing)
            × (existing self.old.context.module.types start_types.now end_types.now ≡ None))) }
        ensures ifs { self.new.if_else ≡ self.old.if_else }
    {
        self.context.add_empty(start_types, end_types)
    }

    /// Takes an `end` that closes a construct.
    fn end_construct(&mut self, location: InstrLocId) -> Result<(), ParseError>
        requires inside { 1 < length self.old.context.frames }
        ensures step { ParsesStep self.old self.new end_operation location result }
        ensures rest { OnOk result (IsSameBody self.old.context self.new.context) }
    {
        let (frame, block) = match self.context.pop_control() {
            Ok(popped) => popped,
            Err(error) => return Err(error),
        };
        self.context.end_sequence(block, location);
        match frame.kind {
            BlockKind::If => {
                match self.empty_alternative(&frame.start_types, &frame.end_types) {
                    Ok(alternative) => self.append_if(Some(alternative)),
                    Err(error) => Err(error),
                }
            }
            BlockKind::Else => self.append_if(None),
            _ => Ok(()),
        }
    }

    /// Appends an instruction to the innermost frame. What follows it there may be unreachable: then it is
    /// dropped.
    #[inline(always)]
    fn append_instr(
        &mut self,
        instr: Instr,
        location: InstrLocId,
        unreachable_after: bool,
    ) -> Result<(), ParseError>
        ensures ok { OnOk result ((0 < length self.old.context.frames)
            × (self.new.context ≡ record self.old.context {
              frames = changed_at 0 (with_appended (instr, location) unreachable_after) self.old.context.frames;
            })) }
        ensures err { IfErr result (λ e. (e ≡ ParseFault.Memory)
            ⊎ ((e ≡ ParseFault.NoFrame) × (length self.old.context.frames ≤ 0))) }
        ensures ifs { self.new.if_else ≡ self.old.if_else }
    {
        match self.context.alloc_instr(instr, location) {
            Ok(()) if unreachable_after => self.context.unreachable(),
            result => result,
        }
    }

    /// Takes an operator that makes an instruction by itself, which is this one.
    #[inline(always)]
    fn push_instr(
        &mut self,
        operator: &Operator<'_>,
        instr: Instr,
        location: InstrLocId,
        unreachable_after: bool,
    ) -> Result<(), ParseError>
        requires kind { is_instruction operator.now ≡ true }
        requires unreachable_after { unreachable_after ≡ makes_unreachable operator.now }
        requires placed { placed_in self.old (meaning operator.now) ≡ Ok (operation_of instr) }
        requires plain { (slots_in instr ≡ []) × (clauses_of_try instr ≡ []) }
        ensures step { ParsesStep self.old self.new (meaning operator.now) location result }
        ensures rest { OnOk result (IsSameBody self.old.context self.new.context) }
    {
        self.append_instr(instr, location, unreachable_after)
    }

    /// Takes an operator, other than `nop`, that makes an instruction by itself.
    #[inline(never)]
    fn push_any(&mut self, operator: &Operator<'_>, location: InstrLocId) -> Result<(), ParseError>
        requires kind { is_instruction operator.now ≡ true }
        requires writable { IsWritable (meaning operator.now) }
        ensures step { ParsesStep self.old self.new (meaning operator.now) location result }
        ensures rest { OnOk result (IsSameBody self.old.context self.new.context) }
    {
        match instruction(*self.if_else.allocator(), &self.context, operator) {
            Ok(instr) => self.push_instr(operator, instr, location, makes_unreachable(operator)),
            Err(error) => Err(error),
        }
    }

    /// Takes the next operator, other than the function's own `end`.
    #[inline(never)]
    pub fn step(&mut self, operator: &Operator<'_>, location: InstrLocId) -> Result<(), ParseError>
        requires inside { operator.now ≡ op.End → 1 < length self.old.context.frames }
        requires writable { IsWritable (meaning operator.now) }
        ensures step { ParsesStep self.old self.new (meaning operator.now) location result }
        ensures rest { OnOk result (IsSameBody self.old.context self.new.context) }
    {
        match operator {
            Operator::Nop => Ok(()),
            Operator::Block { ty } => self.open_block(*ty, location),
            Operator::Loop { ty } => self.open_loop(*ty, location),
            Operator::If { ty } => self.open_if(*ty, location),
            Operator::Else => self.begin_else(location),
            Operator::Try { ty } => self.open_try(*ty, location),
            Operator::Catch { tag } => self.begin_clause(Some(*tag), location),
            Operator::CatchAll => self.begin_clause(None, location),
            Operator::Delegate { depth } => self.close_delegate(*depth),
            Operator::TryTable { ty, catches } => self.open_try_table(*ty, catches, location),
            Operator::End => self.end_construct(location),
            _ => self.push_any(operator, location),
        }
    }

    /// Takes the function's own `end`. Returns the function's sequences, and gives the caller's
    /// list back.
    pub fn finish(
        mut self,
        location: InstrLocId,
        lent: &mut Vec<(Instr, InstrLocId)>,
    ) -> Result<FunctionBuilder, ParseError>
        ensures ok { IfOk result (FinishesParse self.entry location) }
        ensures err { IfErr result (λ e. (e ≡ ParseFault.Memory)
            ⊎ ((e ≡ ParseFault.NoFrame) × (self.entry.context.frames ≡ []))) }
    {
        let (_frame, block) = match self.context.pop_control() {
            Ok(popped) => popped,
            Err(error) => return Err(error),
        };
        self.context.end_sequence(block, location);
        let (mut builder, _controls, instrs) = self.context.into_parts();
        builder.shrink_to_fit();
        *lent = instrs;
        Ok(builder)
    }
}

/// Whether what follows the operator in its sequence is dropped.
pub fn makes_unreachable(operator: &Operator<'_>) -> bool
    ensures { result ≡ makes_unreachable operator.now }
{
    matches!(
        operator,
        Operator::Unreachable
            | Operator::Br { .. }
            | Operator::BrTable(_)
            | Operator::Return
            | Operator::Throw { .. }
            | Operator::Rethrow { .. }
            | Operator::ThrowRef
    )
}
