//! Constant expressions.

ghost use Rattle.std.specs.Prelude.{◌≡◌, ◌<◌, length, OnOk, option_to_list};
ghost use Rattle.wasm_numbers.specs.Results.{Gives};
ghost use Rattle.wasm_operators.specs.Meaning.{meaning};
ghost use Rattle.wasm_sections.specs.Format.{is_control_opcode, is_end_opcode, ends_constant, operator_part, operators_part, constant_part};
ghost use Rattle.wasm_sections.specs.Parts.{checked};
ghost use Rattle.wasm_sections.specs.References.{is_ref_func, referred_by, constant_reference};

use crate::fault::{ModuleError, ModuleFault};
use crate::input::Input;
use wasm_operators::Opcode;
use wasm_ops::{Immediates, Operator, Reader};

/// Whether an operator with this opcode opens, divides or leaves a construct.
pub(crate) fn is_control(opcode: Opcode) -> bool
    ensures { result ≡ is_control_opcode opcode }
{
    match opcode {
        Opcode::Byte(byte) => matches!(byte, 0x02..=0x07 | 0x18 | 0x19 | 0x1f),
        Opcode::Prefixed(..) => false,
    }
}

/// Whether this is the opcode of `end`.
fn is_end(opcode: Opcode) -> bool
    ensures { result ≡ is_end_opcode opcode }
{
    match opcode {
        Opcode::Byte(byte) => byte == 0x0b,
        Opcode::Prefixed(..) => false,
    }
}

/// Whether this is the opcode of `ref.func`.
fn is_ref_func(opcode: Opcode) -> bool
    ensures { result ≡ is_ref_func opcode }
{
    match opcode {
        Opcode::Byte(byte) => byte == 0xd2,
        Opcode::Prefixed(..) => false,
    }
}

/// The function to which an operator of a constant expression refers: that of `ref.func`.
fn referred(operator: &Operator<'_>) -> Option<u32>
    ensures { referred_by (meaning operator.now) ≡ option_to_list result }
{
    let (opcode, immediates) = operator.parts();
    if !is_ref_func(opcode) {
        return None;
    }
    match immediates {
        Immediates::Index(_, index) => Some(index),
        _ => None,
    }
}

impl<'a> Input<'a> {
    /// The operator at the front.
    fn operator(&mut self) -> Result<Operator<'a>, ModuleError>
        ensures same_end { self.new.end ≡ self.old.end }
        ensures shorter { OnOk result (length self.new.rest.now < length self.old.rest.now) }
        ensures is { Gives (λ operator. (meaning operator, self.new.rest.now)) result
            (operator_part self.old.end self.old.rest.now) }
    {
        let rest = self.rest();
        let mut reader = Reader::new(rest, self.at());
        match reader.read() {
            Ok(operator) => {
                self.pass(rest.len().saturating_sub(reader.bytes_remaining()));
                Ok(operator)
            }
            Err(error) => Err(self.fault(ModuleFault::Read(error.fault))),
        }
    }

    /// Reads past an operator of a constant expression. Returns whether it is the `end`; `BadConstant`
    /// if it opens, divides or leaves a construct.
    fn constant_operator(&mut self) -> Result<bool, ModuleError>
        ensures same_end { self.new.end ≡ self.old.end }
        ensures shorter { OnOk result (length self.new.rest.now < length self.old.rest.now) }
        ensures is { Gives (λ is_end. (is_end, self.new.rest.now)) result
            (checked operator_part ends_constant self.old.end self.old.rest.now) }
    {
        let begin = *self;
        match self.operator() {
            Ok(operator) => {
                let (opcode, _) = operator.parts();
                if is_control(opcode) {
                    return Err(begin.fault(ModuleFault::BadConstant));
                }
                Ok(is_end(opcode))
            }
            Err(error) => Err(error),
        }
    }

    /// Reads past an operator of a constant expression, with the same faults. Returns the function to
    /// which it refers, and whether it is the `end`.
    pub(crate) fn constant_reference(&mut self) -> Result<(Option<u32>, bool), ModuleError>
        ensures same_end { self.new.end ≡ self.old.end }
        ensures shorter { OnOk result (length self.new.rest.now < length self.old.rest.now) }
        ensures is { Gives (λ x. ((option_to_list x.0, x.1), self.new.rest.now)) result
            (checked operator_part constant_reference self.old.end self.old.rest.now) }
    {
        let begin = *self;
        match self.operator() {
            Ok(operator) => {
                let (opcode, _) = operator.parts();
                if is_control(opcode) {
                    return Err(begin.fault(ModuleFault::BadConstant));
                }
                Ok((referred(&operator), is_end(opcode)))
            }
            Err(error) => Err(error),
        }
    }

    /// Reads past a constant expression.
    fn constant_end(&mut self) -> Result<(), ModuleError>
        ensures same_end { self.new.end ≡ self.old.end }
        ensures shorter { OnOk result (length self.new.rest.now < length self.old.rest.now) }
        ensures is { Gives (λ _. (tt, self.new.rest.now)) result (operators_part
            (length self.old.rest.now) self.old.end self.old.rest.now) }
    {
        'operators: loop {
            match self.constant_operator() {
                Ok(true) => return Ok(()),
                Ok(false) => {}
                Err(error) => return Err(error),
            }
        }
    }

    /// A constant expression (WebAssembly core specification 3.0, binary format, expressions): the
    /// bytes of its operators, up to the `end`, which is among them. It isn't checked whether an
    /// operator is constant, but none may open, divide or leave a construct.
    pub fn constant(&mut self) -> Result<&'a [u8], ModuleError>
        ensures same_end { self.new.end ≡ self.old.end }
        ensures is { Gives (λ bytes. (bytes.now, self.new.rest.now)) result
            (constant_part self.old.end self.old.rest.now) }
    {
        let begin = *self;
        match self.constant_end() {
            Ok(()) => Ok(begin.until(self)),
            Err(error) => Err(error),
        }
    }
}
