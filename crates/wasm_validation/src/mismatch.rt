//! Why the algorithm refuses an operator, where that is an operand of another type than the operator takes. Nothing here
//! decides whether code is valid: the verdict is that of `validate_code`.
ghost use Rattle.std.specs.Prelude.{◌+◌, ◌<◌, ◌^◌, length};

use crate::body_validator::BodyValidator;
use std::alloc::{AllocError, Global};
use std::fmt;
use walrus_validators::OpCheck;
use wasm_context::{Context, TypeList};
use wasm_locals::LocalTypes;
use wasm_ops::{Operator, Reader};
use wasm_validator::Operand;

/// What kind of value an operand is.
#[derive(Clone, Copy, Debug, PartialEq, Eq)]
pub enum OperandKind {
    /// An `i32`.
    I32,
    /// An `i64`.
    I64,
    /// An `f32`.
    F32,
    /// An `f64`.
    F64,
    /// A `v128`.
    V128,
    /// A reference.
    Reference,
    /// A value of any type.
    Value,
}

impl fmt::Display for OperandKind {
    fn fmt<W: fmt::Write>(&self, f: &mut fmt::Formatter<W>) -> fmt::Result {
        f.write_str(match self {
            OperandKind::I32 => "i32",
            OperandKind::I64 => "i64",
            OperandKind::F32 => "f32",
            OperandKind::F64 => "f64",
            OperandKind::V128 => "v128",
            OperandKind::Reference => "a reference",
            OperandKind::Value => "a value",
        })
    }
}

/// An operand that an operator refuses.
#[derive(Clone, Copy, Debug, PartialEq, Eq)]
pub struct Mismatch {
    /// What the operator takes.
    pub expected: OperandKind,
    /// What it finds; `None` if the sequence has no operand left.
    pub found: Option<OperandKind>,
}

impl fmt::Display for Mismatch {
    fn fmt<W: fmt::Write>(&self, f: &mut fmt::Formatter<W>) -> fmt::Result {
        let expected = self.expected;
        match self.found {
            None => write!(f, "expected {expected}, found nothing"),
            Some(found) if found == expected => write!(f, "expected {expected} of another type"),
            Some(found) => write!(f, "expected {expected}, found {found}"),
        }
    }
}

/// An operand of each kind of number, and of vectors.
const KINDS: [(OperandKind, Operand); 5] = [
    (OperandKind::I32, Operand::I32),
    (OperandKind::I64, Operand::I64),
    (OperandKind::F32, Operand::F32),
    (OperandKind::F64, Operand::F64),
    (OperandKind::V128, Operand::V128),
];

/// The kind of an operand; `None` of one of which nothing is known.
fn kind_of(operand: Operand) -> Option<OperandKind> {
    match operand {
        Operand::Unknown => None,
        Operand::I32 => Some(OperandKind::I32),
        Operand::I64 => Some(OperandKind::I64),
        Operand::F32 => Some(OperandKind::F32),
        Operand::F64 => Some(OperandKind::F64),
        Operand::V128 => Some(OperandKind::V128),
        Operand::Ref(_) | Operand::Reference(_) => Some(OperandKind::Reference),
    }
}

/// A body, and the place of the operator that is refused.
#[derive(Clone, Copy)]
pub struct RefusedCode<'a, 'c> {
    /// What the types of operators depend on.
    pub context: &'a Context,
    /// The types of the function's locals.
    pub locals: LocalTypes<'a>,
    /// The results of the function.
    pub results: TypeList,
    /// The operators of the body.
    pub code: &'c [u8],
    /// The place of the first byte of the operators.
    pub start: usize,
    /// The place of the operator that is refused.
    pub at: usize,
    ghost fits: { start + length code.now < 2 ^ 64 },
}

/// Whether an operator goes on past its operand at this place, if it is taken now: it pops the operands from the topmost on.
fn goes_past(mut validator: BodyValidator<'_>, op: &Operator<'_>, place: usize) -> bool {
    validator.op(0, op).is_ok() || validator.operands().len() < place
}

impl<'a, 'c> RefusedCode<'a, 'c> {
    /// A validator that took all operators before the place, and the operator there.
    fn reach(&self, alloc: Global) -> Option<(BodyValidator<'a>, Operator<'c>)> {
        let mut validator = BodyValidator::new(self.context, self.locals, self.results, alloc);
        let mut reader = Reader::new(self.code, self.start);
        for _ in 0..self.code.len() {
            if reader.original_position() >= self.at {
                break;
            }
            let op = reader.read().ok()?;
            validator.op(0, &op).ok()?;
        }
        let op = reader.read().ok()?;
        Some((validator, op))
    }

    /// Whether the operator goes on if it finds this operand at a place.
    fn takes(&self, alloc: Global, place: usize, operand: Operand) -> Result<bool, AllocError> {
        let Some((mut validator, op)) = self.reach(alloc) else {
            return Ok(false);
        };
        let mut operands = Vec::from_slice(alloc, validator.operands())?;
        if let Some(old) = operands.get_mut(place) {
            *old = operand;
        }
        validator.set_operands(operands);
        Ok(goes_past(validator, &op, place))
    }

    /// Whether the operator goes on if the sequence has two such operands below its own.
    fn takes_more(&self, alloc: Global, operand: Operand) -> Result<bool, AllocError> {
        let Some((mut validator, op)) = self.reach(alloc) else {
            return Ok(false);
        };
        let height = validator.height();
        let mut operands = Vec::from_slice(alloc, validator.operands())?;
        if height > operands.len() {
            return Ok(false);
        }
        operands.insert(height, operand)?;
        operands.insert(height, operand)?;
        validator.set_operands(operands);
        Ok(goes_past(validator, &op, height.saturating_add(1)))
    }

    /// What the operator takes where it finds this operand, if it refuses that.
    fn expected_at(&self, alloc: Global, place: usize) -> Result<Option<OperandKind>, AllocError> {
        for (kind, operand) in &KINDS {
            if self.takes(alloc, place, *operand)? {
                return Ok(Some(*kind));
            }
        }
        match self.takes(alloc, place, Operand::Unknown)? {
            true => Ok(Some(OperandKind::Reference)),
            false => Ok(None),
        }
    }

    /// What the operator takes where the sequence has no operand left, if that is why it is refused.
    fn expected_more(&self, alloc: Global) -> Result<Option<OperandKind>, AllocError> {
        let mut expected = None;
        for (kind, operand) in &KINDS {
            if self.takes_more(alloc, *operand)? {
                if expected.is_some() {
                    return Ok(Some(OperandKind::Value));
                }
                expected = Some(*kind);
            }
        }
        if expected.is_none() && self.takes_more(alloc, Operand::Unknown)? {
            return Ok(Some(OperandKind::Reference));
        }
        Ok(expected)
    }

    /// The operand that the operator refuses, if that is why it is refused. This takes some ten times the time of
    /// validating the body.
    ///
    /// # Errors
    ///
    /// Out of memory.
    pub fn mismatch(&self, alloc: Global) -> Result<Option<Mismatch>, AllocError> {
        let Some((mut validator, op)) = self.reach(alloc) else {
            return Ok(None);
        };
        let operands = Vec::from_slice(alloc, validator.operands())?;
        if validator.op(0, &op).is_ok() {
            return Ok(None);
        }
        let place = validator.operands().len();
        if let Some(operand) = operands.get(place) {
            if let Some(expected) = self.expected_at(alloc, place)? {
                return Ok(Some(Mismatch {
                    expected,
                    found: kind_of(*operand),
                }));
            }
        }
        let expected = self.expected_more(alloc)?;
        Ok(expected.map(|expected| Mismatch {
            expected,
            found: None,
        }))
    }
}
