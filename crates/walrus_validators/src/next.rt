//! The next operator, its location, and whether the validator accepts it.
ghost use Rattle.std.specs.Prelude.{◌≡◌, ◌⊎◌, ◌+◌, ◌<◌, IfOk, IfErr, IfSome, MatchOption, Ok, Err};
ghost use Rattle.wasm_operators.specs.Spelling.{read_operation};
ghost use Rattle.wasm_operators.specs.Meaning.{meaning};
ghost use Rattle.wasm_encode.specs.Writable.{IsWritable};
ghost use Rattle.wasm_body.specs.declared.error.ParseError.{ParseError as ParseFault};
ghost use Rattle.wasm_body.specs.Parsing.Lists.{failure};
ghost use Rattle.walrus_validators.specs.Checking.{Checks, placed_at, fault_of, fault_of_refusal};
ghost use Rattle.walrus_validators.specs.Locating.{MayCall, Locates, HasNoLocation};
ghost use Rattle.walrus_validators.specs.Admitting.{AdmitsAs, IsAdmitted};
ghost use Rattle.wasm_ops.specs.CommonOperators.{common_listed};
ghost use Rattle.wasm_ops.specs.Position.{IsAfter};

use crate::check::{CheckError, OpCheck};
use crate::locating::location_at;
use walrus_ir::InstrLocId;
use wasm_body::{ParseError, ParseFailure};
use wasm_ops::{CommonOperator, Operator, ReadError, Reader};

/// The failure of a parse with this error at this place.
pub fn failure(error: ParseError, at: usize) -> ParseFailure
    ensures { result ≡ failure error at }
{
    ParseFailure { error, at }
}

/// The fault of an operator that the validator refuses with this error.
pub fn checked(error: CheckError) -> ParseError
    ensures { result ≡ fault_of error }
{
    match error {
        CheckError::Refused(number) => ParseError::Checked(number),
        CheckError::Memory => ParseError::Memory,
    }
}

/// Why an operator that was read isn't accepted.
#[derive(Clone, Copy)]
pub enum Refusal {
    /// Its place is too great for a location.
    PlaceTooGreat,
    /// The validator refuses it.
    Checked(CheckError),
}

/// The failure of a parse whose operator at this place isn't accepted.
pub fn refused(refusal: Refusal, at: usize) -> ParseFailure
    ensures { result ≡ failure (fault_of_refusal refusal) at }
{
    match refusal {
        Refusal::PlaceTooGreat => failure(ParseError::PlaceTooGreat, at),
        Refusal::Checked(error) => failure(checked(error), at),
    }
}

/// Reads the next operator.
pub fn read_other<'a>(reader: &mut Reader<'a>) -> Result<Operator<'a>, ReadError>
    ensures is_read { IfOk result (λ x.
        read_operation reader.old.rest ≡ Ok (meaning x, reader.new.rest)) }
    ensures writable { IfOk result (λ x. IsWritable (meaning x)) }
    ensures moves { IfOk result (λ _. IsAfter reader.old reader.new) }
    ensures err { IfErr result (λ e. (read_operation reader.old.rest ≡ Err e.fault)
        × (e.at ≡ reader.old.place)) }
{
    reader.read_other()
}

/// The location of the operator at this place: the one that was asked for, or else as `location_at`.
#[inline(always)]
fn location_of<F: Fn(&usize) -> InstrLocId>(
    asked: Option<InstrLocId>,
    on_instr_pos: Option<&F>,
    at: usize,
) -> Option<InstrLocId>
    requires may_call { MayCall F.pre on_instr_pos at (at + 1) }
    requires asked { IfSome asked (λ location. Locates F.Fn on_instr_pos at location) }
    ensures { MatchOption result (HasNoLocation on_instr_pos.entry at)
        (λ location. Locates F.Fn on_instr_pos.entry at location) }
{
    match asked {
        Some(location) => Some(location),
        None => location_at(on_instr_pos, at),
    }
}

/// The location of an operator that was read at this place, if the validator accepts the operator.
/// It may have been asked for before.
#[inline(always)]
pub fn accepted_at<V: OpCheck, F: Fn(&usize) -> InstrLocId>(
    at: usize,
    operator: &Operator<'_>,
    asked: Option<InstrLocId>,
    on_instr_pos: Option<&F>,
    validator: &mut V,
) -> Result<InstrLocId, Refusal>
    requires may_call { MayCall F.pre on_instr_pos at (at + 1) }
    requires asked { IfSome asked (λ location. Locates F.Fn on_instr_pos at location) }
    ensures ok { IfOk result (λ _. IsAdmitted on_instr_pos.entry V.check (V.state validator.old)
        (V.state validator.new) at (meaning operator.now)) }
    ensures located { IfOk result (λ location. Locates F.Fn on_instr_pos.entry at location) }
    ensures err { IfErr result (λ r. (fault_of_refusal r ≡ ParseFault.Memory)
        ⊎ AdmitsAs on_instr_pos.entry V.check (V.state validator.old) at (meaning operator.now)
        (λ rest. Err (fault_of_refusal r))) }
{
    let Some(location) = location_of(asked, on_instr_pos, at) else {
        return Err(Refusal::PlaceTooGreat);
    };
    match validator.op(at, operator) {
        Ok(()) => Ok(location),
        Err(error) => Err(Refusal::Checked(error)),
    }
}

/// Has the validator check a common operator whose first byte is at this place. Each arm makes its
/// own `Operator`, so that none is in memory where the validator is inlined and doesn't look at it.
///
/// # Errors
///
/// Those of the validator.
#[inline(always)]
pub fn check_common<V: OpCheck>(
    validator: &mut V,
    at: usize,
    common: CommonOperator,
) -> Result<(), CheckError>
    ensures { Checks V.check (V.state validator.old) (placed_at (meaning (common_listed common)) at)
        result (V.state validator.new) }
{
    match common {
        CommonOperator::LocalGet { local } => validator.op(at, &Operator::LocalGet { local }),
        CommonOperator::LocalSet { local } => validator.op(at, &Operator::LocalSet { local }),
        CommonOperator::LocalTee { local } => validator.op(at, &Operator::LocalTee { local }),
        CommonOperator::I32Const { value } => validator.op(at, &Operator::I32Const { value }),
        CommonOperator::I64Const { value } => validator.op(at, &Operator::I64Const { value }),
        CommonOperator::Unop(op) => validator.op(at, &Operator::Unop(op)),
        CommonOperator::Binop(op) => validator.op(at, &Operator::Binop(op)),
        CommonOperator::Load { kind, memarg } => {
            validator.op(at, &Operator::Load { kind, memarg })
        }
        CommonOperator::Store { kind, memarg } => {
            validator.op(at, &Operator::Store { kind, memarg })
        }
        CommonOperator::Call { func } => validator.op(at, &Operator::Call { func }),
        CommonOperator::GlobalGet { global } => validator.op(at, &Operator::GlobalGet { global }),
        CommonOperator::GlobalSet { global } => validator.op(at, &Operator::GlobalSet { global }),
        CommonOperator::Br { label } => validator.op(at, &Operator::Br { label }),
        CommonOperator::BrIf { label } => validator.op(at, &Operator::BrIf { label }),
        CommonOperator::Drop => validator.op(at, &Operator::Drop),
    }
}
