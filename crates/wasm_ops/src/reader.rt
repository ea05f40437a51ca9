//! Reading operators one after the other.

ghost use Rattle.std.specs.Prelude.{◌≡◌, List, ℕ, ◌++◌, IfOk, IfErr, IsOkAnd, Ok, Err};
ghost use Rattle.wasm_operators.specs.Operations.{RawOperation};
ghost use Rattle.wasm_numbers.specs.Results.{Gives};
ghost use Rattle.wasm_operators.specs.Spelling.{Spells, read_operation};
ghost use Rattle.wasm_operators.specs.Meaning.{meaning};

use crate::access_reader::{load_kind, read_short_memarg, store_kind};
use crate::atomic_reader::read_after_fe;
use crate::byte_reader::read_after_byte;
use crate::common::CommonOperator;
use crate::numeric_reader::numeric_here;
use crate::prefix_reader::{read_after_fc, read_after_fd};
use crate::reference_reader::read_after_fb;
use crate::type_reader::read_empty_block_type;
use std::marker::Model;
use wasm_numbers::{
    ReadError, ReadFault, read_f32, read_f64, read_u32, s32_at_front, s64_at_front, u32_at_front,
};
use wasm_operators::Operator;

/// Reads the operator at the front. Returns it and the bytes that follow.
#[tactic(auto, unfolding(wasm_operators::specs::Spelling::read_operation, wasm_operators::specs::Opcodes::opcode))]
fn read_operator(bytes: &[u8]) -> Result<(Operator<'_>, &[u8]), ReadFault>
    ensures { Gives (λ x. (meaning x.0, x.1.now)) result (read_operation bytes.now) }
{
    match bytes {
        [] => Err(ReadFault::Truncated),
        [0xfb, rest @ ..] => {
            let (number, rest) = read_u32(rest)?;
            read_after_fb(number, rest)
        }
        [0xfc, rest @ ..] => {
            let (number, rest) = read_u32(rest)?;
            read_after_fc(number, rest)
        }
        [0xfd, rest @ ..] => {
            let (number, rest) = read_u32(rest)?;
            read_after_fd(number, rest)
        }
        [0xfe, rest @ ..] => {
            let (number, rest) = read_u32(rest)?;
            read_after_fe(number, rest)
        }
        [byte, rest @ ..] => read_after_byte(*byte, rest),
    }
}

/// Reads the operator at the front. Returns it and the bytes that follow.
fn read_front(bytes: &[u8]) -> Result<(Operator<'_>, &[u8]), ReadFault>
    // The operator that is read is spelt by the bytes that were taken.
    ensures found { IfOk result (λ x. (text : List ℕ) × (bytes.now ≡ text ++ x.1.now) × Spells (meaning x.0) text) }
    // An operator that is spelt at the front is read.
    ensures only { (o : RawOperation) (text rest : List ℕ) → Spells o text → bytes.now ≡ text ++ rest
        → IsOkAnd result (λ x. (meaning x.0 ≡ o) × (x.1.now ≡ rest)) }
    // The result, as a function of the bytes.
    ensures is_read { IfOk result (λ x. read_operation bytes.now ≡ Ok (meaning x.0, x.1.now)) }
    // The fault.
    ensures fault { IfErr result (λ e. read_operation bytes.now ≡ Err e) }
{
    read_operator(bytes)
}

/// An operator that is read at the front is spelt by the bytes that are taken.
#[inline(always)]
pub fn law_front(bytes: &[u8])
    ensures { (o : RawOperation) (rest : List ℕ) → read_operation bytes.now ≡ Ok (o, rest)
        → (text : List ℕ) × (bytes.now ≡ text ++ rest) × Spells o text }
{}

/// Returns the operator that is spelt at the front, and moves past it.
macro_rules! return_operator {
    ($reader:expr, $operator:expr, $rest:expr) => {{
        let operator = $operator;
        $reader.pass(&operator, $rest);
        return Ok(operator);
    }};
}

/// Returns the construct that is opened with the block type that was read, if one was, and moves
/// past it.
macro_rules! return_opened {
    ($reader:expr, $rest:expr, $name:ident) => {
        if let Some((ty, rest)) = read_empty_block_type($rest) {
            return_operator!($reader, Operator::$name { ty }, rest)
        }
    };
}

/// Returns the operator that is made from the immediate that was read, if it was, and moves past it.
macro_rules! return_read {
    ($reader:expr, $read:expr, $part:pat => $operator:expr) => {
        if let Ok(($part, rest)) = $read {
            return_operator!($reader, $operator, rest)
        }
    };
}

/// Returns the common operator that is made from the immediates that were read, if any were, and
/// the bytes that follow.
macro_rules! return_made {
    ($read:expr, $part:pat => $operator:expr) => {
        if let Some(($part, rest)) = $read {
            return Some(($operator, rest));
        }
    };
}

/// Reads operators one after the other (WebAssembly core specification 3.0, binary format,
/// instructions). In a contract, it is the remaining bytes and the place of the first of them.
#[derive(Drop)]
pub struct Reader<'a> {
    rest: &'a [u8],
    position: usize,
}

impl<'a> Model for Reader<'a> {
    ghost use Rattle.std.specs.Prelude.{◌+◌, ◌<◌, ◌^◌, length};
    ghost use Rattle.wasm_ops.specs.Position.{Position};

    ghost Value = { Position };

    ghost view = { λ r. record { rest = r.rest.now; place = r.position } };

    ghost invariant = { λ r. r.position + length r.rest.now < 2 ^ 64 };
}

impl<'a> Reader<'a> {
    ghost use Rattle.std.specs.Prelude.{◌≡◌, List, ℕ, ◌+◌, ◌++◌, ◌<◌, ◌≤◌, ◌^◌, ◌==◌, length, IfOk, IfErr, IsOkAnd, OnErr, IfSome, None, Ok, Err};
    ghost use Rattle.wasm_operators.specs.Operations.{RawOperation};
    ghost use Rattle.wasm_operators.specs.Spelling.{Spells, read_operation};
    ghost use Rattle.wasm_ops.specs.Position.{Position, Moves};
    ghost use Rattle.wasm_operators.specs.Meaning.{meaning};
    ghost use Rattle.wasm_ops.specs.CommonOperators.{common_listed};

    /// A reader of these bytes. `start` is the place of the first byte: its byte offset.
    pub fn new(bytes: &'a [u8], start: usize) -> Self
        requires { start + length bytes.now < 2 ^ 64 }
        ensures { result ≡ record { rest = bytes.now; place = start } }
    {
        Reader {
            rest: bytes,
            position: start,
        }
    }

    /// Whether no bytes remain.
    pub fn eof(&self) -> bool
        ensures { result ≡ (length self.now.rest == 0) }
    {
        self.rest.is_empty()
    }

    /// The number of the remaining bytes.
    pub fn bytes_remaining(&self) -> usize
        ensures { result ≡ length self.now.rest }
    {
        self.rest.len()
    }

    /// The place of the first remaining byte.
    pub fn original_position(&self) -> usize
        ensures { result ≡ self.now.place }
    {
        self.position
    }

    /// Moves past an operator that is spelt at the front.
    #[inline(always)]
    fn pass(&mut self, operator: &Operator<'a>, rest: &'a [u8])
        requires { read_operation self.old.rest ≡ Ok (meaning operator.now, rest.now) }
        // It is spelt by the bytes that were passed.
        ensures found { (text : List ℕ) × Moves self.old text self.new
            × Spells (meaning operator.now) text }
        // It is the operator that is spelt at the front.
        ensures only { (o : RawOperation) (text rest : List ℕ) → Spells o text → self.old.rest ≡ text ++ rest
            → (meaning operator.now ≡ o) × Moves self.old text self.new }
        // It is read, as a function of the bytes.
        ensures is_read { read_operation self.old.rest ≡ Ok (meaning operator.now, self.new.rest) }
    {
        law_front(self.rest);
        self.position += self.rest.len() - rest.len();
        self.rest = rest;
    }

    /// Moves past the common operator that is spelt at the front, to the bytes that follow it.
    #[inline(always)]
    pub fn pass_common(&mut self, common: CommonOperator, rest: &'a [u8])
        requires { read_operation self.old.rest ≡ Ok (meaning (common_listed common), rest.now) }
        // It is spelt by the bytes that were passed.
        ensures found { (text : List ℕ) × Moves self.old text self.new
            × Spells (meaning (common_listed common)) text }
        // It is the operator that is spelt at the front.
        ensures only { (o : RawOperation) (text rest : List ℕ) → Spells o text → self.old.rest ≡ text ++ rest
            → (meaning (common_listed common) ≡ o) × Moves self.old text self.new }
        // It is read, as a function of the bytes.
        ensures is_read { read_operation self.old.rest ≡ Ok (meaning (common_listed common), self.new.rest) }
    {
        self.pass(&common.operator(), rest);
    }

    /// Reads the next operator, whatever it is.
    fn read_any(&mut self) -> Result<Operator<'a>, ReadError>
        // The operator that is read is spelt by the bytes that were taken.
        ensures found { IfOk result (λ x. (text : List ℕ) × Moves self.old text self.new × Spells (meaning x) text) }
        // An operator that is spelt at the front is read.
        ensures only { (o : RawOperation) (text rest : List ℕ) → Spells o text → self.old.rest ≡ text ++ rest
            → IsOkAnd result (λ x. (meaning x ≡ o) × Moves self.old text self.new) }
        // The result, as a function of the bytes.
        ensures is_read { IfOk result (λ x. read_operation self.old.rest ≡ Ok (meaning x, self.new.rest)) }
        // The fault, and the place of the operator.
        ensures fault { IfErr result (λ e. (read_operation self.old.rest ≡ Err e.fault) × (e.at ≡ self.old.place)) }
        ensures err { OnErr result (self.new ≡ self.old) }
    {
        match read_front(self.rest) {
            Ok((operator, rest)) => {
                self.position += self.rest.len() - rest.len();
                self.rest = rest;
                Ok(operator)
            }
            Err(fault) => Err(ReadError {
                fault,
                at: self.position,
            }),
        }
    }

    /// The common operator at the front, as a function of the bytes.
    #[inline(always)]
    #[tactic(auto, unfolding(wasm_operators::specs::Spelling::read_operation, wasm_operators::specs::Opcodes::opcode, wasm_operators::specs::Opcodes::kinds_of_byte))]
    fn find_common(&self) -> Option<(CommonOperator, &'a [u8])>
        ensures { IfSome result (λ x. read_operation self.now.rest ≡ Ok (meaning (common_listed x.0), x.1.now)) }
    {
        let [byte, rest @ ..] = self.rest else {
            return None;
        };
        let byte = *byte;
        match byte {
            0x0c => return_made!(u32_at_front(rest), label => CommonOperator::Br { label }),
            0x0d => return_made!(u32_at_front(rest), label => CommonOperator::BrIf { label }),
            0x10 => return_made!(u32_at_front(rest), func => CommonOperator::Call { func }),
            0x1a => return Some((CommonOperator::Drop, rest)),
            0x20 => return_made!(u32_at_front(rest), local => CommonOperator::LocalGet { local }),
            0x21 => return_made!(u32_at_front(rest), local => CommonOperator::LocalSet { local }),
            0x22 => return_made!(u32_at_front(rest), local => CommonOperator::LocalTee { local }),
            0x23 => {
                return_made!(u32_at_front(rest), global => CommonOperator::GlobalGet { global })
            }
            0x24 => {
                return_made!(u32_at_front(rest), global => CommonOperator::GlobalSet { global })
            }
            0x41 => return_made!(s32_at_front(rest), value => CommonOperator::I32Const { value }),
            0x42 => return_made!(s64_at_front(rest), value => CommonOperator::I64Const { value }),
            0x45..=0xc4 => return Some((numeric_here(byte), rest)),
            0x28..=0x35 => return_made!(
                read_short_memarg(rest),
                memarg => CommonOperator::Load { kind: load_kind(byte), memarg }
            ),
            0x36..=0x3e => return_made!(
                read_short_memarg(rest),
                memarg => CommonOperator::Store { kind: store_kind(byte), memarg }
            ),
            _ => {}
        }
        None
    }

    /// The next operator, if it is one of those that most code consists of, and the bytes that follow
    /// it. A memory argument's memory is 0 then. The reader doesn't move; `pass_common` moves it.
    #[inline(always)]
    pub fn peek_common(&self) -> Option<(CommonOperator, &'a [u8])>
        // It is spelt by the bytes before those.
        ensures spelt { IfSome result (λ x. (text : List ℕ) × Spells (meaning (common_listed x.0)) text) }
        // The result, as a function of the bytes.
        ensures is_read { IfSome result (λ x. read_operation self.now.rest ≡ Ok (meaning (common_listed x.0), x.1.now)) }
    {
        law_front(self.rest);
        self.find_common()
    }

    /// Reads the next operator if it is one of those that most code consists of. A memory argument's
    /// memory is 0 then. If there is none, the reader doesn't move.
    #[inline(always)]
    pub fn read_common(&mut self) -> Option<CommonOperator>
        // The operator that is read is spelt by the bytes that were taken.
        ensures found { IfSome result (λ x. (text : List ℕ) × Moves self.old text self.new
            × Spells (meaning (common_listed x)) text) }
        // It is the operator that is spelt at the front.
        ensures only { (o : RawOperation) (text rest : List ℕ) → Spells o text → self.old.rest ≡ text ++ rest
            → IfSome result (λ x. (meaning (common_listed x) ≡ o) × Moves self.old text self.new) }
        // The result, as a function of the bytes.
        ensures is_read { IfSome result (λ x. read_operation self.old.rest ≡ Ok (meaning (common_listed x), self.new.rest)) }
        ensures none { result ≡ None → self.new ≡ self.old }
    {
        match self.peek_common() {
            Some((common, rest)) => {
                self.pass_common(common, rest);
                Some(common)
            }
            None => None,
        }
    }

    /// Reads the next operator, as `read` does. It is the faster one of both where `read_common`
    /// returned none.
    ///
    /// # Errors
    ///
    /// Those of `read`.
    #[inline(never)]
    #[tactic(auto, unfolding(wasm_operators::specs::Spelling::read_operation, wasm_operators::specs::Opcodes::opcode, wasm_operators::specs::Opcodes::kinds_of_byte))]
    pub fn read_other(&mut self) -> Result<Operator<'a>, ReadError>
        // The operator that is read is spelt by the bytes that were taken.
        ensures found { IfOk result (λ x. (text : List ℕ) × Moves self.old text self.new × Spells (meaning x) text) }
        // An operator that is spelt at the front is read.
        ensures only { (o : RawOperation) (text rest : List ℕ) → Spells o text → self.old.rest ≡ text ++ rest
            → IsOkAnd result (λ x. (meaning x ≡ o) × Moves self.old text self.new) }
        // The result, as a function of the bytes.
        ensures is_read { IfOk result (λ x. read_operation self.old.rest ≡ Ok (meaning x, self.new.rest)) }
        // The fault, and the place of the operator.
        ensures fault { IfErr result (λ e. (read_operation self.old.rest ≡ Err e.fault) × (e.at ≡ self.old.place)) }
        ensures err { OnErr result (self.new ≡ self.old) }
    {
        if let [byte, rest @ ..] = self.rest {
            match *byte {
                0x00 => return_operator!(self, Operator::Unreachable, rest),
                0x01 => return_operator!(self, Operator::Nop, rest),
                0x02 => return_opened!(self, rest, Block),
                0x03 => return_opened!(self, rest, Loop),
                0x04 => return_opened!(self, rest, If),
                0x05 => return_operator!(self, Operator::Else, rest),
                0x0b => return_operator!(self, Operator::End, rest),
                0x0f => return_operator!(self, Operator::Return, rest),
                0x1b => return_operator!(self, Operator::Select, rest),
                0x43 => return_read!(self, read_f32(rest), bits => Operator::F32Const { bits }),
                0x44 => return_read!(self, read_f64(rest), bits => Operator::F64Const { bits }),
                _ => {}
            }
        }
        self.read_any()
    }

    /// Reads the next operator. Its parts are read from left to right, and the first that can't be
    /// read decides the fault. Allocates nothing.
    ///
    /// # Errors
    ///
    /// A `ReadError` with the fault and the place of the operator's first byte. The reader doesn't
    /// move.
    pub fn read(&mut self) -> Result<Operator<'a>, ReadError>
        // The operator that is read is spelt by the bytes that were taken.
        ensures found { IfOk result (λ x. (text : List ℕ) × Moves self.old text self.new × Spells (meaning x) text) }
        // An operator that is spelt at the front is read.
        ensures only { (o : RawOperation) (text rest : List ℕ) → Spells o text → self.old.rest ≡ text ++ rest
            → IsOkAnd result (λ x. (meaning x ≡ o) × Moves self.old text self.new) }
        // The result, as a function of the bytes.
        ensures is_read { IfOk result (λ x. read_operation self.old.rest ≡ Ok (meaning x, self.new.rest)) }
        // The fault, and the place of the operator.
        ensures fault { IfErr result (λ e. (read_operation self.old.rest ≡ Err e.fault) × (e.at ≡ self.old.place)) }
        ensures err { OnErr result (self.new ≡ self.old) }
    {
        match self.read_common() {
            Some(common) => Ok(common.operator()),
            None => self.read_other(),
        }
    }
}
