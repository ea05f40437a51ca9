//! The second pass: a body that was checked is read again, and written.
ghost use Rattle.std.specs.Prelude.{◌≡◌, ◌≤◌, ◌<◌, ◌+◌, ℕ, length, true};
ghost use Rattle.walrus_validators.specs.Locating.{MayCall};
ghost use Rattle.wasm_body.specs.Flat.{first_state};
ghost use Rattle.walrus_flat.specs.Written.{flat_state_of, is_unreachable_next};
ghost use Rattle.walrus_flat.specs.declared.sequences.Next.TheVariants.{Live as LiveNext};
ghost use Rattle.walrus_flat.specs.Writers.{env_at, numbers_of_writer};
ghost use Rattle.walrus_flat.specs.WrittenBody.{again, IsAcceptedBody, WritesOperators, WritesNextAtOnce, WritesSome};

use crate::body_indices::show_ids;
use crate::byte_sink::{ByteSink, pass_to};
use crate::cursor::Cursor;
use crate::writer::Writer;
use walrus_ir::InstrLocId;
use walrus_validators::location_at;
use wasm_body::EmitError;

/// Writes the next operator at once if it is one of the frequent control operators, as
/// `write_at_once`, where what follows is written and no `else` waits.
#[inline(always)]
fn write_control(writer: &mut Writer<'_>, reader: &mut Cursor<'_>, location: InstrLocId) -> bool
    requires { writer.old.open.next ≡ LiveNext }
    ensures { WritesNextAtOnce reader.old reader.new writer.old writer.new location result }
{
    let Some((control, rest)) = reader.peek_control() else {
        return false;
    };
    if !writer.step_control(control, location) {
        return false;
    }
    reader.pass(rest);
    true
}

/// Skips the next operator at once if it is one of the frequent control operators, as
/// `write_at_once`, in unreachable code.
fn skip_control(writer: &mut Writer<'_>, reader: &mut Cursor<'_>) -> bool
    requires { is_unreachable_next writer.old.open.next ≡ true }
    ensures { (location : ℕ) → WritesNextAtOnce reader.old reader.new writer.old writer.new
        location result }
{
    let Some((control, rest)) = reader.peek_control() else {
        return false;
    };
    if !writer.skip_control(control) {
        return false;
    }
    reader.pass(rest);
    true
}

/// Skips the next operator at once if it is a common one or a frequent control operator in unreachable
/// code, as `write_at_once`. It isn't inlined, so that the way of an operator that is written stays
/// short.
#[inline(never)]
fn skip_at_once(writer: &mut Writer<'_>, reader: &mut Cursor<'_>) -> bool
    ensures { (location : ℕ) → WritesNextAtOnce reader.old reader.new writer.old writer.new
        location result }
{
    show_ids!(writer);
    if !writer.is_unreachable() {
        return false;
    }
    let Some((_common, rest)) = reader.peek_common() else {
        return skip_control(writer, reader);
    };
    reader.pass(rest);
    true
}

/// Writes the next operator at once if it is a frequent one, or skips it in unreachable code, and
/// returns whether it did. It doesn't if an `else` waits, a part of the operator has no number or
/// memory runs out; then nothing is changed, and the operator is written as any other.
#[inline(always)]
fn write_at_once(writer: &mut Writer<'_>, reader: &mut Cursor<'_>, location: InstrLocId) -> bool
    ensures { WritesNextAtOnce reader.old reader.new writer.old writer.new location result }
{
    show_ids!(writer);
    // This is tested before the operator is read, so that each kind of operator has a way of its own
    // from there.
    if !writer.is_live() {
        return skip_at_once(writer, reader);
    }
    let Some((common, rest)) = reader.peek_common() else {
        return write_control(writer, reader, location);
    };
    if !writer.step_live(common, location) {
        return false;
    }
    reader.pass(rest);
    true
}

/// Writes the next operators of a checked body, until at most so many of its bytes remain. It isn't
/// inlined and knows no sink, so that there is one for each location function and what it calls is
/// inlined into it.
#[inline(never)]
fn write_some<F: Fn(&usize) -> InstrLocId>(
    writer: &mut Writer<'_>,
    reader: &mut Cursor<'_>,
    on_instr_pos: Option<&F>,
    remaining: usize,
) -> Result<(), EmitError>
    requires some { remaining < length reader.old.rest }
    requires may_call { MayCall F.pre on_instr_pos reader.old.place
        (reader.old.place + length reader.old.rest) }
    ensures { WritesSome F.Fn on_instr_pos.entry reader.old reader.new writer.old writer.new result }
{
    while reader.bytes_remaining() > remaining {
        let at = reader.original_position();
        let Some(location) = location_at(on_instr_pos, at) else {
            return Err(EmitError::UnknownSequence);
        };
        if write_at_once(writer, reader, location) {
            continue;
        }
        let read = reader.read_other();
        let operator = match &read {
            Ok(operator) => operator,
            Err(_) => return Err(EmitError::UnknownSequence),
        };
        match writer.step(operator, location) {
            Ok(()) => {}
            Err(fault) => return Err(fault),
        }
    }
    Ok(())
}

/// Writes the operators of a checked body, of which none is written yet. The sink takes the bytes
/// while it does, but for the last ones.
pub(crate) fn write_operators<F: Fn(&usize) -> InstrLocId, S: ByteSink>(
    writer: &mut Writer<'_>,
    reader: &mut Cursor<'_>,
    on_instr_pos: Option<&F>,
    sink: &mut S,
) -> Result<(), EmitError>
    requires begins { flat_state_of writer.old.open ≡ first_state }
    requires offset { writer.old.«module».now.code_section_offset ≤ reader.old.place }
    requires may_call { MayCall F.pre on_instr_pos reader.old.place
        (reader.old.place + length reader.old.rest) }
    requires accepted { IsAcceptedBody (again (env_at writer.old writer.old.ty) reader.old
        writer.old.«module».now.code_section_offset on_instr_pos) }
    ensures { WritesOperators F.Fn (again (env_at writer.old writer.old.ty) reader.old
        writer.old.«module».now.code_section_offset on_instr_pos.entry) (numbers_of_writer writer.old)
        S.takes S.refuses sink.old sink.new writer.old.draft writer.new.draft result }
{
    while !reader.eof() {
        if !pass_to(&mut writer.draft, sink) {
            return Err(EmitError::Memory);
        }
        let others = reader.bytes_remaining().saturating_sub(1);
        match write_some(writer, reader, on_instr_pos, others.saturating_sub(S::MOST)) {
            Ok(()) => {}
            Err(fault) => return Err(fault),
        }
    }
    Ok(())
}
