//! Operands.
ghost use Rattle.std.specs.Prelude.{◌≡◌};
ghost use Rattle.wasm_body.specs.Validity.{Known as KnownAs};
ghost use Rattle.wasm_body.specs.ValidityLaws.{of_type};
ghost use Rattle.wasm_validator.specs.States.{known_of};

use wasm_context::RawRefType;
use wasm_operators::RawValType;
use wasm_types::ValType;

/// What is known of an operand.
#[derive(Clone, Copy)]
pub enum Operand {
    /// Nothing.
    Unknown,
    /// It is an `i32`.
    I32,
    /// It is an `i64`.
    I64,
    /// It is an `f32`.
    F32,
    /// It is an `f64`.
    F64,
    /// It is a `v128`.
    V128,
    /// It is a reference of this type.
    Ref(RawRefType),
    /// It is a reference, which may be null or not, to a heap type that isn't known.
    Reference(bool),
}

/// What is known of an operand that is a reference.
#[derive(Clone, Copy)]
pub enum Reference {
    /// It is of this type.
    Typed(RawRefType),
    /// It may be null or not, and its heap type isn't known.
    Untyped(bool),
}

/// An operand of a type.
#[inline(always)]
pub fn operand_of(ty: RawValType) -> Operand
    ensures { known_of result ≡ KnownAs (of_type ty) }
{
    match ty {
        ValType::I32 => Operand::I32,
        ValType::I64 => Operand::I64,
        ValType::F32 => Operand::F32,
        ValType::F64 => Operand::F64,
        ValType::V128 => Operand::V128,
        ValType::Ref(reference) => Operand::Ref(reference),
    }
}
