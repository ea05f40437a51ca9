//! The first pass: a body is checked, and the locals that its live operators name are gathered.
ghost use Rattle.std.specs.Prelude.{◌≢◌, ◌<◌, [], IfErr, OnOk, Ok, Err, true, false};
ghost use Rattle.wasm_operators.specs.Meaning.{meaning};
ghost use Rattle.wasm_ops.specs.CommonOperators.{common_listed};
ghost use Rattle.walrus_validators.specs.Checking.{Checks, placed_at};
ghost use Rattle.walrus_flat.specs.Controls.{control_listed};
ghost use Rattle.walrus_flat.specs.Checked.{env_of_checker};
ghost use Rattle.walrus_flat.specs.CheckedBody.{BeginsBody, setting_at, ChecksOperators, ChecksNextAtOnce, RefusesTaking, IsValidated};

use crate::body_indices::show_ids;
use crate::checker::Checker;
use crate::control::Control;
use crate::cursor::Cursor;
use crate::place_limit::PlaceLimit;
use walrus_parser::{CheckError, OpCheck, check_common, checked, failure};
use wasm_body::{ParseError, ParseFailure};
use wasm_operators::BlockType;
use wasm_ops::{CommonOperator, Operator};

/// Whether an operator that was read at this place is taken.
fn accepts<V: OpCheck>(
    at: usize,
    operator: &Operator<'_>,
    limit: PlaceLimit,
    validator: &mut V,
) -> Result<(), ParseError>
    ensures ok { OnOk result (IsValidated V.check (V.state validator.old) (V.state validator.new)
        (meaning operator.now) limit.has_limit at) }
    ensures err { IfErr result (RefusesTaking V.check (V.state validator.old)
        (meaning operator.now) limit.has_limit at) }
{
    if !limit.fits(at) {
        return Err(ParseError::PlaceTooGreat);
    }
    match validator.op(at, operator) {
        Ok(()) => Ok(()),
        Err(error) => Err(checked(error)),
    }
}

/// Whether a common operator that was read at this place is taken.
#[inline(always)]
fn accepts_common<V: OpCheck>(
    at: usize,
    common: CommonOperator,
    limit: PlaceLimit,
    validator: &mut V,
) -> Result<(), ParseError>
    ensures ok { OnOk result (IsValidated V.check (V.state validator.old) (V.state validator.new)
        (meaning (common_listed common)) limit.has_limit at) }
    ensures err { IfErr result (RefusesTaking V.check (V.state validator.old)
        (meaning (common_listed common)) limit.has_limit at) }
{
    if !limit.fits(at) {
        return Err(ParseError::PlaceTooGreat);
    }
    match check_common(validator, at, common) {
        Ok(()) => Ok(()),
        Err(error) => Err(checked(error)),
    }
}

/// Has the validator check a control operator, as `check_common`.
#[inline(always)]
fn check_operator<V: OpCheck>(
    validator: &mut V,
    at: usize,
    control: Control,
) -> Result<(), CheckError>
    ensures { Checks V.check (V.state validator.old)
        (placed_at (meaning (control_listed control)) at) result (V.state validator.new) }
{
    let ty = BlockType::Empty;
    match control {
        Control::Block => validator.op(at, &Operator::Block { ty }),
        Control::Loop => validator.op(at, &Operator::Loop { ty }),
        Control::If => validator.op(at, &Operator::If { ty }),
        Control::End => validator.op(at, &Operator::End),
        Control::Nop => validator.op(at, &Operator::Nop),
    }
}

/// Whether a control operator that was read at this place is taken.
#[inline(always)]
fn accepts_control<V: OpCheck>(
    at: usize,
    control: Control,
    limit: PlaceLimit,
    validator: &mut V,
) -> Result<(), ParseError>
    ensures ok { OnOk result (IsValidated V.check (V.state validator.old) (V.state validator.new)
        (meaning (control_listed control)) limit.has_limit at) }
    ensures err { IfErr result (RefusesTaking V.check (V.state validator.old)
        (meaning (control_listed control)) limit.has_limit at) }
{
    if !limit.fits(at) {
        return Err(ParseError::PlaceTooGreat);
    }
    match check_operator(validator, at, control) {
        Ok(()) => Ok(()),
        Err(error) => Err(checked(error)),
    }
}

/// Checks the next operator at once if it is one of the frequent control operators, as
/// `check_at_once`.
#[inline(never)]
fn check_control<V: OpCheck>(
    checker: &mut Checker<'_>,
    reader: &mut Cursor<'_>,
    at: usize,
    limit: PlaceLimit,
    validator: &mut V,
) -> Result<bool, ParseError>
    requires inside { checker.old.open.items ≢ [] }
    ensures { ChecksNextAtOnce V.check (V.state validator.old) (V.state validator.new)
        limit.has_limit at reader.old reader.new checker.old checker.new result }
{
    let Some((control, rest)) = reader.peek_control() else {
        return Ok(false);
    };
    if !checker.step_control(control) {
        return Ok(false);
    }
    match accepts_control(at, control, limit, validator) {
        Ok(()) => {
            reader.pass(rest);
            Ok(true)
        }
        Err(error) => Err(error),
    }
}

/// Checks the next operator at once if it is a common one, and returns whether it did. It doesn't if
/// a part of it isn't found or memory runs out; then nothing is changed, and the operator is checked
/// as any other. The validator is called after the operator was taken, so that what was read is in
/// no memory: each kind of operator has a way of its own until then.
#[inline(always)]
fn check_at_once<V: OpCheck>(
    checker: &mut Checker<'_>,
    reader: &mut Cursor<'_>,
    at: usize,
    limit: PlaceLimit,
    validator: &mut V,
) -> Result<bool, ParseError>
    requires inside { checker.old.open.items ≢ [] }
    ensures { ChecksNextAtOnce V.check (V.state validator.old) (V.state validator.new)
        limit.has_limit at reader.old reader.new checker.old checker.new result }
{
    let Some((common, rest)) = reader.peek_common() else {
        return Ok(false);
    };
    if !checker.step_common(common) {
        return Ok(false);
    }
    match accepts_common(at, common, limit, validator) {
        Ok(()) => {
            reader.pass(rest);
            Ok(true)
        }
        Err(error) => Err(error),
    }
}

/// Checks the operators of a body, of which none is checked yet. Places have a limit where there is
/// no location function. It isn't inlined, so that what it calls may be.
#[inline(never)]
pub(crate) fn check_operators<V: OpCheck>(
    checker: &mut Checker<'_>,
    reader: &mut Cursor<'_>,
    limit: PlaceLimit,
    mut validator: V,
) -> Result<(), ParseFailure>
    requires { BeginsBody checker.old }
    ensures { ChecksOperators (setting_at (env_of_checker checker.old) reader.old.place V.check
        (V.state validator)) limit.has_limit reader.old.rest checker.old checker.new result }
{
    show_ids!(checker);
    while !reader.eof() {
        let at = reader.original_position();
        match check_at_once(checker, reader, at, limit, &mut validator) {
            Ok(true) => continue,
            Ok(false) => {}
            Err(error) => return Err(failure(error, at)),
        }
        // This isn't in `check_at_once`, so that the way of a common operator stays short.
        match check_control(checker, reader, at, limit, &mut validator) {
            Ok(true) => continue,
            Ok(false) => {}
            Err(error) => return Err(failure(error, at)),
        }
        let read = reader.read_other();
        let operator = match &read {
            Ok(operator) => operator,
            Err(error) => return Err(failure(ParseError::Read(*error), at)),
        };
        match accepts(at, operator, limit, &mut validator) {
            Ok(()) => {}
            Err(error) => return Err(failure(error, at)),
        }
        match checker.step(operator) {
            Ok(()) => {}
            Err(error) => return Err(failure(error, at)),
        }
        if checker.open.is_empty() {
            if !reader.eof() {
                return Err(failure(ParseError::Trailing, reader.original_position()));
            }
            return Ok(());
        }
    }
    Err(failure(ParseError::MissingEnd, reader.original_position()))
}
