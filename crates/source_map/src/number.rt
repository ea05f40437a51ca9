//! Numbers in the text of mappings (ECMA-426, Source map format specification, base64 VLQ).

ghost use Rattle.std.specs.Prelude.{◌≡◌, ◌<◌, ◌≤◌, ◌*◌, ◌^◌, ◌++◌, ◌∷◌, [], IfOk, OnOk};
ghost use Rattle.source_map.specs.Shortest.{digit, shortest_digits, short_field};
ghost use Rattle.wasm_numbers.specs.Results.{Gives, some_or};
ghost use Rattle.source_map.specs.Reading.{number_at, next_at, field_at, column_at, column_after};
ghost use Rattle.source_map.specs.Vlq.{moved_by};
ghost use Rattle.source_map.specs.declared.fault.MappingsFault.TheVariants as faults;

use crate::digit::{digit_of, read_digit};
use crate::fault::MappingsFault;
use std::alloc::AllocError;

/// A number with at most `most` digits at the front of the text, and the text after it.
#[tactic(auto, using(crate::proofs::Powers::powers), unfolding(crate::specs::Reading::number_at))]
fn read_number(most: u32, text: &[u8]) -> Result<(u64, &[u8]), MappingsFault>
    requires some { 0 < most }
    requires few { most ≤ 7 }
    ensures gives { Gives (λ x. (x.0, x.1.now)) result (number_at most text.now) }
    ensures fits { IfOk result (λ x. x.0 < 2 ^ (5 * most)) }
{
    match text {
        [] => Err(MappingsFault::CutNumber),
        [byte, rest @ ..] => {
            let digit = read_digit(*byte)?;
            if digit < 32 {
                Ok((digit as u64, rest))
            } else if most <= 1 {
                Err(MappingsFault::LongNumber)
            } else {
                let (high, rest) = read_number(most - 1, rest)?;
                Ok((digit as u64 - 32 + 32 * high, rest))
            }
        }
    }
}

/// The next number of a segment.
#[tactic(auto, unfolding(crate::specs::Reading::next_at))]
fn read_next(text: &[u8]) -> Result<(u64, &[u8]), MappingsFault>
    ensures gives { Gives (λ x. (x.0, x.1.now)) result (next_at text.now) }
    ensures fits { IfOk result (λ x. x.0 < 2 ^ 35) }
{
    match text {
        [] => Err(MappingsFault::FieldCount),
        _ => read_number(7, text),
    }
}

/// The field that a number moves `before` to.
fn moved_field(number: u64, before: u32) -> Result<u32, MappingsFault>
    requires { number < 2 ^ 35 }
    ensures { Gives (λ x. x) result (some_or (moved_by number before) faults.FieldOutOfRange) }
{
    let before = before as u64;
    let distance = if number == 1 { 0x8000_0000 } else { number / 2 };
    let field = if number % 2 == 0 {
        before + distance
    } else if before < distance {
        return Err(MappingsFault::FieldOutOfRange);
    } else {
        before - distance
    };
    if field < 0x1_0000_0000 {
        Ok(field as u32)
    } else {
        Err(MappingsFault::FieldOutOfRange)
    }
}

/// The column that a number moves `before` to; it may not be less.
fn moved_column(number: u64, before: u32) -> Result<u32, MappingsFault>
    requires { number < 2 ^ 35 }
    ensures { Gives (λ x. x) result (column_after number before) }
{
    if number % 2 != 0 {
        return Err(MappingsFault::UnsortedColumn);
    }
    let column = before as u64 + number / 2;
    if column < 0x1_0000_0000 {
        Ok(column as u32)
    } else {
        Err(MappingsFault::FieldOutOfRange)
    }
}

/// The next field of a segment, which is relative to `before`, and the text after it.
#[tactic(auto, unfolding(crate::specs::Reading::field_at))]
pub(crate) fn read_field(before: u32, text: &[u8]) -> Result<(u32, &[u8]), MappingsFault>
    ensures { Gives (λ x. (x.0, x.1.now)) result (field_at before text.now) }
{
    let (number, rest) = read_next(text)?;
    let field = moved_field(number, before)?;
    Ok((field, rest))
}

/// The first field of a segment, which is relative to `before`, and the text after it.
#[tactic(auto, unfolding(crate::specs::Reading::column_at))]
pub(crate) fn read_column(before: u32, text: &[u8]) -> Result<(u32, &[u8]), MappingsFault>
    ensures { Gives (λ x. (x.0, x.1.now)) result (column_at before text.now) }
{
    let (number, rest) = read_next(text)?;
    let column = moved_column(number, before)?;
    Ok((column, rest))
}

/// Appends a digit.
fn write_digit(out: &mut Vec<u8>, value: u8) -> Result<(), AllocError>
    requires { value < 64 }
    ensures { OnOk result (out.new.items ≡ out.old.items ++ (digit value ∷ [])) }
{
    out.push(digit_of(value))?;
    Ok(())
}

/// Appends a number, with at most `more` digits before the last.
#[tactic(auto, using(crate::proofs::Appending::appending), unfolding(crate::specs::Shortest::shortest_digits))]
fn write_number(out: &mut Vec<u8>, more: u32, number: u64) -> Result<(), AllocError>
    ensures { OnOk result (out.new.items ≡ out.old.items ++ shortest_digits more number) }
{
    if more == 0 {
        return write_digit(out, (number % 32) as u8);
    }
    if number < 32 {
        return write_digit(out, number as u8);
    }
    write_digit(out, (number % 32) as u8 + 32)?;
    write_number(out, more - 1, number / 32)
}

/// Appends a field, relative to `before`.
pub(crate) fn write_field(out: &mut Vec<u8>, before: u32, field: u32) -> Result<(), AllocError>
    ensures { OnOk result (out.new.items ≡ out.old.items ++ short_field before field) }
{
    let number = if field < before {
        2 * (before as u64 - field as u64) + 1
    } else {
        2 * (field as u64 - before as u64)
    };
    write_number(out, 6, number)
}
