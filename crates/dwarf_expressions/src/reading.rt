//! Reading operations (DWARF 5, section 2.5).

ghost use Rattle.std.specs.Prelude.{◌≡◌, ◌≤◌, ◌<◌, ◌-◌, ◌+◌, length, take, IfOk};
ghost use Rattle.wasm_numbers.specs.Results.{Gives};
ghost use Rattle.dwarf_bytes.specs.Numbers.{size_in_bytes, fixed_number, unsigned_leb, signed_leb};
ghost use Rattle.dwarf_expressions.specs.Expressions.{skipped, sized, expression_place, expression_operand as operand, both_operands, before, other_operation, simple_operation, is_entry_value, entry_value_parts, expression_operands_of};
ghost use Rattle.dwarf_expressions.specs.Reading.{simple_of};

use crate::encoding::Encoding;
use crate::operand::{Operand, operands};
use dwarf_bytes::{DebugFault, Size, read_signed, read_sized, read_u8, read_unsigned, split};

/// An operation that contains no expression.
#[derive(Clone, Copy)]
pub(crate) struct Simple<'a> {
    /// Its code.
    pub code: u8,
    /// The bytes of its operands.
    pub bytes: &'a [u8],
    /// The local that it names.
    pub local: Option<u64>,
    /// What its operands are.
    pub operands: (Operand, Operand),
}

// after a number of this size
fn after_sized(size: Size, bytes: &[u8]) -> Result<&[u8], DebugFault>
    ensures { Gives (λ rest. (tt, rest.now)) result (skipped (fixed_number (size_in_bytes size)) bytes.now) }
{
    let (_, rest) = read_sized(size, bytes)?;
    Ok(rest)
}

// after an unsigned number
fn after_unsigned(bytes: &[u8]) -> Result<&[u8], DebugFault>
    ensures { Gives (λ rest. (tt, rest.now)) result (skipped unsigned_leb bytes.now) }
{
    let (_, rest) = read_unsigned(bytes)?;
    Ok(rest)
}

// after a signed number
fn after_signed(bytes: &[u8]) -> Result<&[u8], DebugFault>
    ensures { Gives (λ rest. (tt, rest.now)) result (skipped signed_leb bytes.now) }
{
    let (_, rest) = read_signed(bytes)?;
    Ok(rest)
}

// a number, and as many bytes
fn read_block(bytes: &[u8]) -> Result<(&[u8], &[u8]), DebugFault>
    ensures { Gives (λ x. (x.0.now, x.1.now)) result (sized unsigned_leb bytes.now) }
{
    let (count, rest) = read_unsigned(bytes)?;
    split(rest, count)
}

// after a number, and as many bytes
fn after_block(bytes: &[u8]) -> Result<&[u8], DebugFault>
    ensures { Gives (λ rest. (tt, rest.now)) result (skipped (sized unsigned_leb) bytes.now) }
{
    let (_, rest) = read_block(bytes)?;
    Ok(rest)
}

// after a byte, and as many bytes as it says
fn after_short_block(bytes: &[u8]) -> Result<&[u8], DebugFault>
    ensures { Gives (λ rest. (tt, rest.now)) result (skipped (sized (fixed_number 1)) bytes.now) }
{
    let (count, rest) = read_u8(bytes)?;
    let (_, rest) = split(rest, u64::from(count))?;
    Ok(rest)
}

// after a place of WebAssembly
fn after_place(bytes: &[u8]) -> Result<&[u8], DebugFault>
    ensures { Gives (λ rest. (tt, rest.now)) result (expression_place bytes.now) }
{
    let (kind, rest) = read_u8(bytes)?;
    if kind <= 2 {
        return after_unsigned(rest);
    }
    if kind == 3 {
        return after_sized(Size::Four, rest);
    }
    Err(DebugFault::UnknownOperation)
}

// after an operand of this kind
#[tactic(auto, unfolding(crate::specs::Expressions::expression_operand))]
fn after_operand<'a>(
    encoding: Encoding,
    kind: Operand,
    bytes: &'a [u8],
) -> Result<&'a [u8], DebugFault>
    ensures { Gives (λ rest. (tt, rest.now)) result (operand encoding kind bytes.now) }
{
    match kind {
        Operand::Nothing => Ok(bytes),
        Operand::Address => after_sized(encoding.address_size, bytes),
        Operand::Fixed(size) | Operand::EntryAt(size) => after_sized(size, bytes),
        Operand::Unsigned | Operand::Entry => after_unsigned(bytes),
        Operand::Signed => after_signed(bytes),
        Operand::Branch => after_sized(Size::Two, bytes),
        Operand::Block => after_block(bytes),
        Operand::ShortBlock => after_short_block(bytes),
        Operand::Expression => Err(DebugFault::Unsupported),
        Operand::Place => after_place(bytes),
        Operand::EntryOfAnyUnit => after_sized(encoding.reference_size(), bytes),
    }
}

// after two operands
fn after_operands<'a>(
    encoding: Encoding,
    kinds: (Operand, Operand),
    bytes: &'a [u8],
) -> Result<&'a [u8], DebugFault>
    ensures { Gives (λ rest. (tt, rest.now)) result (both_operands encoding kinds bytes.now) }
{
    let (one, two) = kinds;
    let rest = after_operand(encoding, one, bytes)?;
    after_operand(encoding, two, rest)
}

// the bytes in front of those at their end
fn before<'a>(bytes: &'a [u8], rest: &[u8]) -> &'a [u8]
    ensures { result.now ≡ before bytes.now rest.now }
{
    &bytes[..bytes.len().saturating_sub(rest.len())]
}

// an operation that doesn't name a local
fn read_other<'a>(encoding: Encoding, bytes: &'a [u8]) -> Result<(Simple<'a>, &'a [u8]), DebugFault>
    ensures gives { Gives (λ x. (simple_of x.0, x.1.now)) result
        (other_operation encoding bytes.now) }
    ensures operands { IfOk result (λ x. x.0.operands ≡ expression_operands_of (simple_of x.0)) }
{
    let [code, after @ ..] = bytes else {
        return Err(DebugFault::Truncated);
    };
    let Some(kinds) = operands(*code) else {
        return Err(DebugFault::UnknownOperation);
    };
    let rest = after_operands(encoding, kinds, after)?;
    let simple = Simple {
        code: *code,
        bytes: before(after, rest),
        local: None,
        operands: kinds,
    };
    Ok((simple, rest))
}

/// The operation at the front, and the bytes that follow.
///
/// # Errors
///
/// `UnknownOperation` if no operation that is known has its code, or if it is a place of WebAssembly of a kind that isn't known;
/// `Unsupported` if it contains an expression; `Truncated`, `BadNumber` or `BadLength` if its operands can't be read.
#[tactic(auto, unfolding(crate::specs::Expressions::simple_operation))]
pub(crate) fn read_simple<'a>(
    encoding: Encoding,
    bytes: &'a [u8],
) -> Result<(Simple<'a>, &'a [u8]), DebugFault>
    ensures gives { Gives (λ x. (simple_of x.0, x.1.now)) result
        (simple_operation encoding bytes.now) }
    ensures operands { IfOk result (λ x. x.0.operands ≡ expression_operands_of (simple_of x.0)) }
{
    let [0xed, 0, number @ ..] = bytes else {
        return read_other(encoding, bytes);
    };
    let (index, rest) = read_unsigned(number)?;
    let simple = Simple {
        code: 0xed,
        bytes: before(&bytes[1..], rest),
        local: Some(index),
        operands: (Operand::Place, Operand::Nothing),
    };
    Ok((simple, rest))
}

/// The value that an expression had on entry to the function.
#[derive(Clone, Copy)]
pub(crate) struct EntryValue<'a> {
    /// The code of the operation.
    pub code: u8,
    /// How many bytes the size of the expression has.
    pub width: usize,
    /// The bytes of the expression.
    pub expression: &'a [u8],
}

/// Whether the bytes begin with `DW_OP_entry_value`.
pub(crate) fn is_entry_value(bytes: &[u8]) -> bool
    ensures { result ≡ is_entry_value bytes.now }
{
    matches!(bytes, [0xa3 | 0xf3, ..])
}

/// The `DW_OP_entry_value` at the front, and the bytes that follow.
///
/// # Errors
///
/// `Truncated`, `BadNumber` or `BadLength` if its expression isn't in the bytes.
#[tactic(auto, unfolding(crate::specs::Expressions::entry_value_parts))]
pub(crate) fn read_entry_value(bytes: &[u8]) -> Result<(EntryValue<'_>, &[u8]), DebugFault>
    ensures { Gives (λ x. ((x.0.code, x.0.expression.now), x.1.now)) result
        (entry_value_parts bytes.now) }
{
    let [code, after @ ..] = bytes else {
        return Err(DebugFault::Truncated);
    };
    let (expression, rest) = read_block(after)?;
    let value = EntryValue {
        code: *code,
        width: after
            .len()
            .saturating_sub(expression.len())
            .saturating_sub(rest.len()),
        expression,
    };
    Ok((value, rest))
}
