//! The operators of a body, one after the other.
ghost use Rattle.std.specs.Prelude.{◌≡◌, List, ℕ, Ok};
ghost use Rattle.wasm_operators.specs.Spelling.{Spells, read_operation};

use crate::control::{Control, control_at_front};
use std::marker::Model;
use wasm_ops::{CommonOperator, Operator, ReadError, Reader, law_front};

/// The bytes of a body that aren't read yet, as a slice, and the place of the first of them. A `Reader` is
/// made of them where an operator isn't one of the common ones.
#[derive(Drop)]
pub(crate) struct Cursor<'a> {
    rest: &'a [u8],
    place: usize,
}

impl<'a> Model for Cursor<'a> {
    ghost use Rattle.std.specs.Prelude.{◌+◌, ◌<◌, ◌^◌, length};
    ghost use Rattle.wasm_ops.specs.Position.{Position};

    ghost Value = { Position };

    ghost view = { λ c. record { rest = c.rest.now; place = c.place } };

    ghost invariant = { λ c. c.place + length c.rest.now < 2 ^ 64 };
}

impl<'a> Cursor<'a> {
    ghost use Rattle.std.specs.Prelude.{◌+◌, ◌<◌, ◌^◌, ◌==◌, length, IfOk, IfErr, IfSome, Err};
    ghost use Rattle.wasm_operators.specs.Meaning.{meaning};
    ghost use Rattle.wasm_encode.specs.Writable.{IsWritable};
    ghost use Rattle.wasm_ops.specs.CommonOperators.{common_listed};
    ghost use Rattle.wasm_ops.specs.Position.{IsAfter};
    ghost use Rattle.walrus_flat.specs.Controls.{control_listed, HasFront};

    /// All of these bytes. `start` is the place of the first one.
    pub fn new(bytes: &'a [u8], start: usize) -> Self
        requires { start + length bytes.now < 2 ^ 64 }
        ensures { result ≡ record { rest = bytes.now; place = start } }
    {
        Cursor {
            rest: bytes,
            place: start,
        }
    }

    /// Whether no bytes remain.
    #[inline(always)]
    pub fn eof(&self) -> bool
        ensures { result ≡ (length self.now.rest == 0) }
    {
        self.rest.is_empty()
    }

    /// How many bytes remain.
    #[inline(always)]
    pub fn bytes_remaining(&self) -> usize
        ensures { result ≡ length self.now.rest }
    {
        self.rest.len()
    }

    /// The place of the first remaining byte.
    #[inline(always)]
    pub fn original_position(&self) -> usize
        ensures { result ≡ self.now.place }
    {
        self.place
    }

    /// A reader of the remaining bytes.
    #[inline(always)]
    fn reader(&self) -> Reader<'a>
        ensures { result ≡ self.now }
    {
        Reader::new(self.rest, self.place)
    }

    /// The next operator, if it is a common one, and the bytes that follow it, as
    /// `Reader::peek_common`.
    #[inline(always)]
    pub fn peek_common(&self) -> Option<(CommonOperator, &'a [u8])>
        ensures spelt { IfSome result (λ x.
            (text : List ℕ) × Spells (meaning (common_listed x.0)) text) }
        ensures is_read { IfSome result (λ x.
            read_operation self.now.rest ≡ Ok (meaning (common_listed x.0), x.1.now)) }
    {
        self.reader().peek_common()
    }

    /// The next operator, if it is one of these control operators, and the bytes that follow it.
    #[inline(always)]
    pub fn peek_control(&self) -> Option<(Control, &'a [u8])>
        ensures spelt { IfSome result (λ x.
            (text : List ℕ) × Spells (meaning (control_listed x.0)) text) }
        ensures is_read { IfSome result (λ x.
            read_operation self.now.rest ≡ Ok (meaning (control_listed x.0), x.1.now)) }
    {
        law_front(self.rest);
        control_at_front(self.rest)
    }

    /// Moves past the operator at the front, to the bytes that follow it.
    #[inline(always)]
    pub fn pass(&mut self, rest: &'a [u8])
        requires { HasFront self.old.rest rest.now }
        ensures rest { self.new.rest ≡ rest.now }
        ensures moves { IsAfter self.old self.new }
    {
        law_front(self.rest);
        self.place += self.rest.len() - rest.len();
        self.rest = rest;
    }

    /// Reads the next operator.
    pub fn read_other(&mut self) -> Result<Operator<'a>, ReadError>
        ensures is_read { IfOk result (λ x.
            read_operation self.old.rest ≡ Ok (meaning x, self.new.rest)) }
        ensures writable { IfOk result (λ x. IsWritable (meaning x)) }
        ensures spelt { IfOk result (λ x. (text : List ℕ) × Spells (meaning x) text) }
        ensures moves { IfOk result (λ _. IsAfter self.old self.new) }
        ensures err { IfErr result (λ e. (read_operation self.old.rest ≡ Err e.fault)
            × (e.at ≡ self.old.place)) }
    {
        let mut reader = self.reader();
        match reader.read_other() {
            Ok(operator) => {
                let passed = self.rest.len() - reader.bytes_remaining();
                self.rest = &self.rest[passed..];
                self.place += passed;
                Ok(operator)
            }
            Err(error) => Err(error),
        }
    }
}
