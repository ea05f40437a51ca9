//! Frequent operators of a body, which are written at once: common ones and control operators,
//! where what follows is written and no `else` waits. In unreachable code such a control operator is
//! skipped. Each function that takes an operator returns whether it did. If not, nothing is changed,
//! and the operator is taken at length, by `Writer::step`. So no error, which is large, is made for
//! an operator that is taken.
ghost use Rattle.std.specs.Prelude.{◌≡◌, ◌∷◌, [], ℕ, true, Ok};
ghost use Rattle.std.specs.Bool.{OnTrue, OnFalse};
ghost use Rattle.wasm_operators.specs.Meaning.{meaning};
ghost use Rattle.wasm_operators.specs.AccessOperations.{access_of};
ghost use Rattle.wasm_operators.specs.declared.operator.Op.TheVariants as listing;
ghost use Rattle.wasm_operators.specs.declared.types.Opcode.TheVariants as opcodes;
ghost use Rattle.wasm_operators.specs.declared.types.Space.TheVariants.{Funcs, Globals};
ghost use Rattle.wasm_operators.specs.Operations.{operation, index as index_immediate, local as local_immediate, label as label_immediate, access as access_immediate};
ghost use Rattle.wasm_ops.specs.CommonOperators.{common_listed};
ghost use Rattle.wasm_body.specs.Flat.{Dropped as DroppedOpen, Unreachable as UnreachableMode, innermost, flat_state};
ghost use Rattle.walrus_parser.specs.OperatorKinds.{makes_unreachable};
ghost use Rattle.walrus_flat.specs.declared.sequences.Next.TheVariants.{Live as LiveNext};
ghost use Rattle.walrus_flat.specs.Controls.{control_listed};
ghost use Rattle.walrus_flat.specs.Written.{opens_of, mode_of, is_unreachable_next, end_pieces, state_after_end};
ghost use Rattle.walrus_flat.specs.Writers.{Goes, StepsWriter, WritesCommon, WritesAtOnce, OpensEmpty, ClosesShort};

use crate::body_indices::show_ids;
use crate::control::Control;
use crate::sequences::{Next, Written};
use crate::writer::Writer;
use walrus_ir::{BinaryOp, InstrLocId, UnaryOp};
use wasm_operators::{Opcode, RawMemArg, binary_opcode, load_opcode, store_opcode, unary_opcode};
use wasm_ops::CommonOperator;

impl Writer<'_> {
    /// Writes an operator that is a byte and a local, as `write_common`.
    #[inline(always)]
    fn write_local(&mut self, byte: u8, index: u32, location: InstrLocId) -> bool
        ensures { WritesCommon self.old self.new (operation (opcodes.Byte byte)
            (local_immediate index ∷ [])) location result }
    {
        let Some(local) = self.indices.local_at(index) else {
            return false;
        };
        match self.locals.at(local) {
            Some(number) => self.draft.write_number(byte, number, location),
            None => false,
        }
    }

    /// Writes an operator that is a byte and a function, as `write_common`.
    #[inline(always)]
    fn write_func(&mut self, byte: u8, index: u32, location: InstrLocId) -> bool
        ensures { WritesCommon self.old self.new (operation (opcodes.Byte byte)
            (index_immediate Funcs index ∷ [])) location result }
    {
        let Ok(id) = self.indices.ids.get_func(index) else {
            return false;
        };
        match self.out.get_func_index(id) {
            Ok(number) => self.draft.write_number(byte, number, location),
            Err(_) => false,
        }
    }

    /// Writes an operator that is a byte and a global, as `write_common`.
    #[inline(always)]
    fn write_global(&mut self, byte: u8, index: u32, location: InstrLocId) -> bool
        ensures { WritesCommon self.old self.new (operation (opcodes.Byte byte)
            (index_immediate Globals index ∷ [])) location result }
    {
        let Ok(id) = self.indices.ids.get_global(index) else {
            return false;
        };
        match self.out.get_global_index(id) {
            Ok(number) => self.draft.write_number(byte, number, location),
            Err(_) => false,
        }
    }

    /// Writes an operator that is an opcode and an access to memory, as `write_common`; not if the
    /// opcode isn't one byte.
    #[inline(always)]
    fn write_access(&mut self, opcode: Opcode, memarg: RawMemArg, location: InstrLocId) -> bool
        ensures { WritesCommon self.old self.new (operation opcode
            (access_immediate (access_of memarg) ∷ [])) location result }
    {
        let Opcode::Byte(byte) = opcode else {
            return false;
        };
        let Ok(id) = self.indices.ids.get_memory(memarg.memory) else {
            return false;
        };
        match self.out.get_memory_index(id) {
            Ok(memory) => {
                let memarg = RawMemArg { memory, ..memarg };
                self.draft.write_access(byte, memarg, location)
            }
            Err(_) => false,
        }
    }

    /// Writes an operator that is a byte and a label, as `write_common`.
    #[inline(always)]
    fn write_label(&mut self, byte: u8, label: u32, location: InstrLocId) -> bool
        ensures { WritesCommon self.old self.new (operation (opcodes.Byte byte)
            (label_immediate label ∷ [])) location result }
    {
        self.draft.write_number(byte, label, location)
    }

    /// Writes an operator of one operand, as `write_common`; not if its opcode isn't one byte.
    #[inline(always)]
    fn write_unary(&mut self, op: UnaryOp, location: InstrLocId) -> bool
        ensures { WritesCommon self.old self.new (meaning (listing.Unop op)) location result }
    {
        match unary_opcode(op) {
            Opcode::Byte(byte) => self.draft.write_byte(byte, location),
            Opcode::Prefixed(_, _) => false,
        }
    }

    /// Writes an operator of two operands, as `write_unary`.
    #[inline(always)]
    fn write_binary(&mut self, op: BinaryOp, location: InstrLocId) -> bool
        ensures { WritesCommon self.old self.new (meaning (listing.Binop op)) location result }
    {
        match binary_opcode(op) {
            Opcode::Byte(byte) => self.draft.write_byte(byte, location),
            Opcode::Prefixed(_, _) => false,
        }
    }

    /// Writes an `i32.const`, as `write_common`.
    #[inline(always)]
    fn write_i32(&mut self, value: i32, location: InstrLocId) -> bool
        ensures { WritesCommon self.old self.new (meaning (listing.I32Const value)) location result }
    {
        let wide = i64::from(value);
        self.draft.write_integer(0x41, wide, location)
    }

    /// Writes an `i64.const`, as `write_common`.
    #[inline(always)]
    fn write_i64(&mut self, value: i64, location: InstrLocId) -> bool
        ensures { WritesCommon self.old self.new (meaning (listing.I64Const value)) location result }
    {
        self.draft.write_integer(0x42, value, location)
    }

    /// Writes a `drop`, as `write_common`.
    #[inline(always)]
    fn write_drop(&mut self, location: InstrLocId) -> bool
        ensures { WritesCommon self.old self.new (meaning listing.Drop) location result }
    {
        self.draft.write_byte(0x1a, location)
    }

    /// Writes a common operator where no `else` waits, and returns whether it did. Otherwise nothing
    /// is changed: a part of it has no number, or memory ran out.
    #[inline(always)]
    fn write_common(&mut self, common: CommonOperator, location: InstrLocId) -> bool
        ensures { WritesCommon self.old self.new (meaning (common_listed common)) location result }
    {
        match common {
            CommonOperator::LocalGet { local } => self.write_local(0x20, local, location),
            CommonOperator::LocalSet { local } => self.write_local(0x21, local, location),
            CommonOperator::LocalTee { local } => self.write_local(0x22, local, location),
            CommonOperator::I32Const { value } => self.write_i32(value, location),
            CommonOperator::I64Const { value } => self.write_i64(value, location),
            CommonOperator::Unop(op) => self.write_unary(op, location),
            CommonOperator::Binop(op) => self.write_binary(op, location),
            CommonOperator::Load { kind, memarg } => {
                self.write_access(load_opcode(kind), memarg, location)
            }
            CommonOperator::Store { kind, memarg } => {
                self.write_access(store_opcode(kind), memarg, location)
            }
            CommonOperator::Call { func } => self.write_func(0x10, func, location),
            CommonOperator::GlobalGet { global } => self.write_global(0x23, global, location),
            CommonOperator::GlobalSet { global } => self.write_global(0x24, global, location),
            CommonOperator::Br { label } => self.write_label(0x0c, label, location),
            CommonOperator::BrIf { label } => self.write_label(0x0d, label, location),
            CommonOperator::Drop => self.write_drop(location),
        }
    }

    /// Whether what follows is written, and no `else` waits.
    #[inline(always)]
    pub fn is_live(&self) -> bool
        ensures { OnTrue result (self.now.open.next ≡ LiveNext) }
    {
        self.open.is_live()
    }

    /// Whether what follows isn't written.
    pub fn is_unreachable(&self) -> bool
        ensures { OnTrue result (is_unreachable_next self.now.open.next ≡ true) }
    {
        self.open.is_unreachable()
    }

    /// Takes a common operator where what follows is written and no `else` waits, and returns whether it
    /// did. Otherwise nothing is changed: a part of the operator has no number, or memory ran out.
    #[inline(always)]
    pub fn step_live(&mut self, common: CommonOperator, location: InstrLocId) -> bool
        requires { self.old.open.next ≡ LiveNext }
        ensures { WritesAtOnce self.old self.new (common_listed common) location result }
    {
        if !self.write_common(common, location) {
            return false;
        }
        if is_unreachable_after_common(common) {
            self.open.next = Next::Unreachable;
        }
        true
    }

    /// Writes the opener of a construct of the empty type, and opens its first sequence. Returns whether
    /// it did; if not, nothing is changed: there is no room for it.
    #[inline(always)]
    fn open_empty(&mut self, byte: u8, location: InstrLocId) -> bool
        ensures done { OnTrue result (OpensEmpty self.old self.new byte location) }
        ensures unchanged { OnFalse result (self.new ≡ self.old) }
    {
        show_ids!(self);
        if !self.open.has_room() {
            return false;
        }
        if !self.draft.write_number(byte, 0x40, location) {
            return false;
        }
        self.open.enter_reserved(Written::Kept(false));
        true
    }

    /// Writes the `end` of a sequence that is written and needs no `else`, and closes the sequence.
    /// Returns whether it did; if not, nothing is changed.
    #[inline(always)]
    fn close_short(&mut self, location: InstrLocId) -> bool
        ensures done { OnTrue result (ClosesShort self.old self.new location) }
        ensures unchanged { OnFalse result (self.new ≡ self.old) }
    {
        show_ids!(self);
        if self.open.needs_else() {
            return false;
        }
        if !self.draft.write_byte(0x0b, location) {
            return false;
        }
        self.open.leave();
        true
    }

    /// Takes one of the frequent control operators where what follows is written and no `else` waits.
    /// Returns whether it did; if not, nothing is changed.
    #[inline(always)]
    pub fn step_control(&mut self, control: Control, location: InstrLocId) -> bool
        requires { self.old.open.next ≡ LiveNext }
        ensures done { OnTrue result (StepsWriter self.old self.new
            (meaning (control_listed control)) location (Ok tt)) }
        ensures unchanged { OnFalse result (self.new ≡ self.old) }
    {
        match control {
            Control::Block => self.open_empty(0x02, location),
            Control::Loop => self.open_empty(0x03, location),
            Control::If => self.open_empty(0x04, location),
            Control::End => self.close_short(location),
            Control::Nop => true,
        }
    }

    /// Opens the first sequence of a construct in unreachable code. Returns whether it did; if not,
    /// nothing is changed: there is no room for it.
    fn open_dropped(&mut self) -> bool
        requires { is_unreachable_next self.old.open.next ≡ true }
        ensures done { OnTrue result (Goes self.old self.new
            (flat_state UnreachableMode (DroppedOpen ∷ opens_of self.old.open)) []) }
        ensures unchanged { OnFalse result (self.new ≡ self.old) }
    {
        show_ids!(self);
        if !self.open.has_room() {
            return false;
        }
        self.open.enter_reserved(Written::Dropped);
        true
    }

    /// Closes a sequence of a construct in unreachable code. Returns whether the innermost one is such a
    /// sequence; if not, nothing is changed.
    fn close_dropped(&mut self) -> bool
        ensures done { (location : ℕ) → OnTrue result (Goes self.old self.new
            (state_after_end (mode_of self.old.open.next) (opens_of self.old.open))
            (end_pieces (mode_of self.old.open.next) (innermost (opens_of self.old.open))
            location)) }
        ensures unchanged { OnFalse result (self.new ≡ self.old) }
    {
        show_ids!(self);
        if !self.open.ends_dropped() {
            return false;
        }
        self.open.leave();
        true
    }

    /// Takes one of the frequent control operators in unreachable code, where nothing is written of it.
    /// Returns whether it did; if not, nothing is changed.
    pub fn skip_control(&mut self, control: Control) -> bool
        requires { is_unreachable_next self.old.open.next ≡ true }
        ensures done { (location : ℕ) → OnTrue result (StepsWriter self.old self.new
            (meaning (control_listed control)) location (Ok tt)) }
        ensures unchanged { OnFalse result (self.new ≡ self.old) }
    {
        match control {
            Control::Block => self.open_dropped(),
            Control::Loop => self.open_dropped(),
            Control::If => self.open_dropped(),
            Control::End => self.close_dropped(),
            Control::Nop => true,
        }
    }
}

/// Whether what follows a common operator in its sequence is unreachable, as `makes_unreachable`.
#[inline(always)]
fn is_unreachable_after_common(common: CommonOperator) -> bool
    ensures { result ≡ makes_unreachable (common_listed common) }
{
    matches!(common, CommonOperator::Br { .. })
}
