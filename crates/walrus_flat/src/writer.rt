//! The operators of a body, written one by one.
ghost use Rattle.std.specs.Prelude.{◌≡◌, ◌≤◌, ◌∷◌, [], OnOk, IfErr, IfSome, false, None};
ghost use Rattle.walrus_ir.specs.Locations.{default_location};
ghost use Rattle.walrus_ir.specs.declared.val_type.InstrSeqType.TheVariants.{Simple as SimpleType};
ghost use Rattle.wasm_operators.specs.Meaning.{meaning};
ghost use Rattle.wasm_encode.specs.Writable.{IsWritable};
ghost use Rattle.wasm_body.specs.declared.error.EmitError.TheVariants.{Memory};
ghost use Rattle.wasm_body.specs.Flat.{Kept as KeptOpen, Live as LiveMode, Unreachable as UnreachableMode, innermost, around, mode_of_else, flat_state};
ghost use Rattle.walrus_parser.specs.OperatorKinds.{makes_unreachable};
ghost use Rattle.walrus_flat.specs.Written.{drafted, waiting_else, awake, opens_of, flat_state_of, mode_of, is_unreachable_next, ends_dropped, else_if, end_if, end_location, else_pieces, end_pieces, state_after_else, state_after_end, mode_if};
ghost use Rattle.wasm_operators.specs.declared.types.Opcode.TheVariants as opcodes;
ghost use Rattle.wasm_operators.specs.Operations.{operation};
ghost use Rattle.wasm_body.specs.Translation.{at_location};
ghost use Rattle.wasm_operators.specs.Shortest.{short_number, short_bits};
ghost use Rattle.walrus_emit_state.specs.TreeWriting.Drafts.{with_bytes};
ghost use Rattle.walrus_flat.specs.Writers.{IsOpenerByte, IsTypeByte, IsShortOpener};

use crate::body_indices::{BodyIndices, show_ids};
use crate::checker::plain_byte;
use crate::local_numbers::LocalNumbers;
use crate::renumbering::Renumbering;
use crate::sequences::{Next, OpenSequences, Written};
use walrus_context::value_type;
use walrus_emit_state::Draft;
use walrus_ir::{InstrLocId, InstrSeqType, Module, TypeId, ValType};
use walrus_maps::IdsToIndices;
use walrus_numbering::is_balanced;
use walrus_parser::makes_unreachable;
use wasm_body::EmitError;
use wasm_operators::{BlockType, Operator};
use wasm_renumber::{Lists, translated};

/// The state while a body is written.
#[derive(Drop)]
pub(crate) struct Writer<'a> {
    pub module: &'a Module,
    pub indices: BodyIndices<'a>,
    /// The function's type.
    pub ty: TypeId,
    /// The new indices.
    pub out: &'a IdsToIndices,
    /// The numbers of the function's locals.
    pub locals: LocalNumbers<'a>,
    pub open: OpenSequences,
    pub lists: Lists,
    pub draft: Draft,
}

/// The byte of the opener of a construct that has a block type and no other part.
#[inline(always)]
fn opener_byte(operator: &Operator<'_>) -> Option<u8>
    ensures { IfSome result (IsOpenerByte (meaning operator.now)) }
{
    match operator {
        Operator::Block { .. } => Some(0x02),
        Operator::Loop { .. } => Some(0x03),
        Operator::If { .. } => Some(0x04),
        Operator::Try { .. } => Some(0x06),
        _ => None,
    }
}

/// The byte that is written for a type of sequences, unless it needs a number.
fn type_byte(ty: InstrSeqType) -> Option<u32>
    ensures { IfSome result (IsTypeByte ty) }
{
    match ty {
        InstrSeqType::Simple(None) => Some(0x40),
        InstrSeqType::Simple(Some(value)) => match value {
            ValType::I32 => Some(0x7f),
            ValType::I64 => Some(0x7e),
            ValType::F32 => Some(0x7d),
            ValType::F64 => Some(0x7c),
            ValType::V128 => Some(0x7b),
            ValType::Ref(_) => None,
        },
        InstrSeqType::MultiValue(_) => None,
    }
}

/// The two bytes of an opener, if it is two bytes and needs no number.
#[inline(always)]
fn opener_bytes(operator: &Operator<'_>, ty: &InstrSeqType) -> Option<(u8, u32)>
    ensures { IfSome result (IsShortOpener (meaning operator.now) ty.now) }
{
    match opener_byte(operator) {
        Some(byte) => match type_byte(*ty) {
            Some(code) => Some((byte, code)),
            None => None,
        },
        None => None,
    }
}

impl Writer<'_> {
    ghost use Rattle.walrus_flat.specs.Writers.{PutsAsIs, Goes, WritesUnless, OpensUnless, Picks, needs_one, numbers_of_writer, StepsWriter};

    /// Writes an operator that is one byte.
    fn put_byte(&mut self, byte: u8, location: InstrLocId) -> Result<(), EmitError>
        ensures ok { OnOk result (self.new ≡ record self.old {
          draft = drafted self.old.draft
              (at_location (operation (opcodes.Byte byte) []) location ∷ []);
        }) }
        ensures err { IfErr result (λ e. e ≡ Memory) }
    {
        if self.draft.write_byte(byte, location) {
            Ok(())
        } else {
            Err(EmitError::Memory)
        }
    }

    /// Writes the `else` that waits, if one does.
    fn write_else(&mut self) -> Result<(), EmitError>
        ensures ok { OnOk result (self.new ≡ record self.old {
          draft = drafted self.old.draft (waiting_else self.old.open.next);
          «open» = awake self.old.open;
        }) }
        ensures err { IfErr result (λ e. e ≡ Memory) }
    {
        show_ids!(self);
        match self.open.waiting() {
            Some(location) => match self.put_byte(0x05, location) {
                Ok(()) => {
                    self.open.wake();
                    Ok(())
                }
                Err(fault) => Err(fault),
            },
            None => Ok(()),
        }
    }

    /// Writes an operator as it is, with its numbers. If it opens a construct, this is the type of its
    /// sequences.
    fn write_as_is(
        &mut self,
        operator: &Operator<'_>,
        ty: InstrSeqType,
        location: InstrLocId,
    ) -> Result<(), EmitError>
        requires { IsWritable (meaning operator.now) }
        ensures { PutsAsIs self.old self.new (meaning operator.now) ty location result }
    {
        match self.write_else() {
            Ok(()) => {}
            Err(fault) => return Err(fault),
        }
        let with = Renumbering {
            indices: self.indices.ids,
            function: self.indices.function,
            types: &self.module.types,
            ids: self.out,
            locals: self.locals.numbered,
            ty,
        };
        match translated(operator, &with, &mut self.lists) {
            Ok(op) => self.draft.write_any(&op, location),
            Err(fault) => Err(fault),
        }
    }

    /// Writes an operator that is a byte and a number.
    fn put_number(&mut self, byte: u8, number: u32, location: InstrLocId) -> Result<(), EmitError>
        ensures ok { OnOk result (self.new ≡ record self.old {
          draft = with_bytes self.old.draft (byte ∷ short_number number) location;
        }) }
        ensures err { IfErr result (λ e. e ≡ Memory) }
    {
        if self.draft.write_number(byte, number, location) {
            Ok(())
        } else {
            Err(EmitError::Memory)
        }
    }

    /// Writes the opener of a construct, as `write_as_is`.
    fn write_block(
        &mut self,
        operator: &Operator<'_>,
        ty: InstrSeqType,
        location: InstrLocId,
    ) -> Result<(), EmitError>
        requires { IsWritable (meaning operator.now) }
        ensures { PutsAsIs self.old self.new (meaning operator.now) ty location result }
    {
        let Some((byte, code)) = opener_bytes(operator, &ty) else {
            return self.write_as_is(operator, ty, location);
        };
        match self.write_else() {
            Ok(()) => self.put_number(byte, code, location),
            Err(fault) => Err(fault),
        }
    }

    /// Writes a constant of floating point, which is a byte and its bits.
    fn write_float(
        &mut self,
        byte: u8,
        count: u32,
        bits: u64,
        location: InstrLocId,
    ) -> Result<(), EmitError>
        requires { count ≤ 8 }
        ensures ok { OnOk result (self.new ≡ record self.old {
          draft = with_bytes (drafted self.old.draft (waiting_else self.old.open.next))
              (byte ∷ short_bits count bits) location;
          «open» = awake self.old.open;
        }) }
        ensures err { IfErr result (λ e. e ≡ Memory) }
    {
        match self.write_else() {
            Ok(()) => {}
            Err(fault) => return Err(fault),
        }
        if self.draft.write_bits(byte, count, bits, location) {
            Ok(())
        } else {
            Err(EmitError::Memory)
        }
    }

    /// Writes an operator by itself as it is, as `write_as_is`.
    fn write_alone(
        &mut self,
        operator: &Operator<'_>,
        location: InstrLocId,
    ) -> Result<(), EmitError>
        requires { IsWritable (meaning operator.now) }
        ensures { PutsAsIs self.old self.new (meaning operator.now) (SimpleType None) location
            result }
    {
        match operator {
            Operator::F32Const { bits } => {
                return self.write_float(0x43, 4, u64::from(*bits), location);
            }
            Operator::F64Const { bits } => return self.write_float(0x44, 8, *bits, location),
            _ => {}
        }
        let Some(byte) = plain_byte(operator) else {
            return self.write_as_is(operator, InstrSeqType::Simple(None), location);
        };
        match self.write_else() {
            Ok(()) => self.put_byte(byte, location),
            Err(fault) => Err(fault),
        }
    }

    /// Writes an operator by itself.
    fn write_plain(
        &mut self,
        operator: &Operator<'_>,
        location: InstrLocId,
    ) -> Result<(), EmitError>
        requires { IsWritable (meaning operator.now) }
        ensures { WritesUnless (is_unreachable_next self.old.open.next) self.old self.new
            (meaning operator.now) (SimpleType None) location (flat_state_of self.old.open)
            (flat_state (mode_if (makes_unreachable operator.now)) (opens_of self.old.open)) result }
    {
        show_ids!(self);
        if self.open.is_unreachable() {
            return Ok(());
        }
        match self.write_alone(operator, location) {
            Ok(()) => {
                self.open.next = next_after(makes_unreachable(operator));
                Ok(())
            }
            Err(fault) => Err(fault),
        }
    }

    /// The type of a sequence with the parameters and results of a block type.
    fn picked(&self, ty: BlockType) -> Result<InstrSeqType, EmitError>
        ensures { Picks self.now ty result }
    {
        let types = &self.module.types;
        match ty {
            BlockType::Empty => Ok(InstrSeqType::Simple(None)),
            BlockType::Value(value) => match value_type(self.indices.ids, value) {
                Ok(value) => Ok(InstrSeqType::Simple(Some(value))),
                Err(_) => Err(EmitError::UnknownSequence),
            },
            BlockType::FuncType(index) => {
                let Ok(id) = self.indices.ids.get_type(index) else {
                    return Err(EmitError::UnknownSequence);
                };
                if !types.is_func(id) {
                    return Err(EmitError::UnknownSequence);
                }
                match InstrSeqType::picked(types, id) {
                    Some(ty) => Ok(ty),
                    None => Err(EmitError::UnknownSequence),
                }
            }
        }
    }

    /// Whether the first sequence of an `if`, or of another construct, needs an `else`.
    fn needs_else(&self, is_if: bool, ty: &InstrSeqType) -> bool
        ensures { result ≡ needs_one is_if ((numbers_of_writer self.now).balanced ty.now) }
    {
        if is_if {
            let balanced = is_balanced(&self.module.types, *ty);
            !balanced
        } else {
            false
        }
    }

    /// Writes the opener of a construct, whose sequences have this type.
    fn write_opener(
        &mut self,
        operator: &Operator<'_>,
        ty: InstrSeqType,
        is_if: bool,
        location: InstrLocId,
    ) -> Result<(), EmitError>
        requires { IsWritable (meaning operator.now) }
        ensures { WritesUnless false self.old self.new (meaning operator.now) ty location
            (flat_state_of self.old.open) (flat_state LiveMode (KeptOpen (needs_one is_if
            ((numbers_of_writer self.old).balanced ty)) ∷ opens_of self.old.open)) result }
    {
        show_ids!(self);
        let needs_else = self.needs_else(is_if, &ty);
        match self.write_block(operator, ty, location) {
            Ok(()) => {}
            Err(fault) => return Err(fault),
        }
        self.open.next = Next::Live;
        self.open.enter(Written::Kept(needs_else))
    }

    /// Takes the opener of a construct.
    fn begin(
        &mut self,
        operator: &Operator<'_>,
        ty: BlockType,
        is_if: bool,
        location: InstrLocId,
    ) -> Result<(), EmitError>
        requires { IsWritable (meaning operator.now) }
        ensures { OpensUnless (is_unreachable_next self.old.open.next) self.old self.new
            (meaning operator.now) ty is_if location result }
    {
        show_ids!(self);
        if self.open.is_unreachable() {
            return self.open.enter(Written::Dropped);
        }
        match self.picked(ty) {
            Ok(ty) => self.write_opener(operator, ty, is_if, location),
            Err(fault) => Err(fault),
        }
    }

    /// Writes an `else`, if it is needed.
    fn write_needed_else(&mut self, needed: bool, location: InstrLocId) -> Result<(), EmitError>
        ensures ok { OnOk result (self.new ≡ record self.old {
          draft = drafted self.old.draft (else_if needed location);
        }) }
        ensures err { IfErr result (λ e. e ≡ Memory) }
    {
        if needed {
            self.put_byte(0x05, location)
        } else {
            Ok(())
        }
    }

    /// Takes an `else`.
    fn part_if(&mut self, location: InstrLocId) -> Result<(), EmitError>
        ensures ok { OnOk result (Goes self.old self.new
            (state_after_else (mode_of self.old.open.next) (opens_of self.old.open) location)
            (else_pieces (mode_of self.old.open.next) (innermost (opens_of self.old.open))
            location)) }
        ensures err { IfErr result (λ e. e ≡ Memory) }
    {
        show_ids!(self);
        if self.open.ends_dropped() {
            return Ok(());
        }
        let needs_else = self.open.needs_else();
        let waited = self.open.waits();
        match self.write_else() {
            Ok(()) => {}
            Err(fault) => return Err(fault),
        }
        match self.write_needed_else(needs_else && !waited, location) {
            Ok(()) => {}
            Err(fault) => return Err(fault),
        }
        self.open.next = next_in_alternative(needs_else, location);
        self.open.leave();
        self.open.enter(Written::Kept(false))
    }

    /// Takes a clause of a legacy `try`.
    fn begin_clause(
        &mut self,
        operator: &Operator<'_>,
        location: InstrLocId,
    ) -> Result<(), EmitError>
        requires { IsWritable (meaning operator.now) }
        ensures { WritesUnless (ends_dropped (flat_state_of self.old.open)) self.old self.new
            (meaning operator.now) (SimpleType None) location (flat_state_of self.old.open)
            (flat_state LiveMode (opens_of self.old.open)) result }
    {
        show_ids!(self);
        if self.open.ends_dropped() {
            return Ok(());
        }
        match self.write_as_is(operator, InstrSeqType::Simple(None), location) {
            Ok(()) => {
                self.open.next = Next::Live;
                Ok(())
            }
            Err(fault) => Err(fault),
        }
    }

    /// Takes a `delegate`.
    fn close_try(&mut self, operator: &Operator<'_>) -> Result<(), EmitError>
        requires { IsWritable (meaning operator.now) }
        ensures { WritesUnless (ends_dropped (flat_state_of self.old.open)) self.old self.new
            (meaning operator.now) (SimpleType None) default_location
            (flat_state UnreachableMode (around (opens_of self.old.open)))
            (flat_state LiveMode (around (opens_of self.old.open))) result }
    {
        show_ids!(self);
        if self.open.ends_dropped() {
            self.open.leave();
            return Ok(());
        }
        let none = InstrSeqType::Simple(None);
        match self.write_as_is(operator, none, InstrLocId::default()) {
            Ok(()) => {
                self.open.next = Next::Live;
                self.open.leave();
                Ok(())
            }
            Err(fault) => Err(fault),
        }
    }

    /// Writes the `end` of a sequence that is written. One that needs an `else` gets it before.
    fn write_end(&mut self, needs_else: bool, location: InstrLocId) -> Result<(), EmitError>
        ensures ok { OnOk result (self.new ≡ record self.old {
          draft = drafted self.old.draft (end_if needs_else location);
        }) }
        ensures err { IfErr result (λ e. e ≡ Memory) }
    {
        if !needs_else {
            return self.put_byte(0x0b, location);
        }
        match self.put_byte(0x05, location) {
            Ok(()) => self.put_byte(0x0b, InstrLocId::default()),
            Err(fault) => Err(fault),
        }
    }

    /// Takes an `end`.
    fn close(&mut self, location: InstrLocId) -> Result<(), EmitError>
        ensures ok { OnOk result (Goes self.old self.new
            (state_after_end (mode_of self.old.open.next) (opens_of self.old.open))
            (end_pieces (mode_of self.old.open.next) (innermost (opens_of self.old.open))
            location)) }
        ensures err { IfErr result (λ e. e ≡ Memory) }
    {
        show_ids!(self);
        if self.open.ends_dropped() {
            self.open.leave();
            return Ok(());
        }
        let needs_else = self.open.needs_else() && !self.open.waits();
        let location = last_location(self.open.next, location);
        match self.write_end(needs_else, location) {
            Ok(()) => {
                self.open.next = Next::Live;
                self.open.leave();
                Ok(())
            }
            Err(fault) => Err(fault),
        }
    }

    /// Takes the next operator.
    #[inline(always)]
    pub fn step(&mut self, operator: &Operator<'_>, location: InstrLocId) -> Result<(), EmitError>
        requires { IsWritable (meaning operator.now) }
        ensures { StepsWriter self.old self.new (meaning operator.now) location result }
    {
        match operator {
            Operator::Nop => Ok(()),
            Operator::Block { ty } => self.begin(operator, *ty, false, location),
            Operator::Loop { ty } => self.begin(operator, *ty, false, location),
            Operator::Try { ty } => self.begin(operator, *ty, false, location),
            Operator::TryTable { ty, .. } => self.begin(operator, *ty, false, location),
            Operator::If { ty } => self.begin(operator, *ty, true, location),
            Operator::Else => self.part_if(location),
            Operator::Catch { .. } => self.begin_clause(operator, location),
            Operator::CatchAll => self.begin_clause(operator, location),
            Operator::Delegate { .. } => self.close_try(operator),
            Operator::End => self.close(location),
            _ => self.write_plain(operator, location),
        }
    }
}

/// What becomes of the operators after one by itself.
fn next_after(unreachable_after: bool) -> Next
    ensures { mode_of result ≡ mode_if unreachable_after }
{
    if unreachable_after {
        Next::Unreachable
    } else {
        Next::Live
    }
}

/// What becomes of the operators after an `else` at this location.
fn next_in_alternative(was_needed: bool, location: InstrLocId) -> Next
    ensures { mode_of result ≡ mode_of_else was_needed location }
{
    if was_needed {
        Next::Live
    } else {
        Next::Waits(location)
    }
}

/// The location of an `end`: its own, or else that of the `else` that waits.
fn last_location(next: Next, location: InstrLocId) -> InstrLocId
    ensures { result ≡ end_location next location }
{
    match next {
        Next::Waits(first) if location.is_default() => first,
        _ => location,
    }
}
