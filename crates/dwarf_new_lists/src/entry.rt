//! Reading entries.

ghost use Rattle.std.specs.Prelude.{◌≡◌, Some, IfOk};
ghost use Rattle.wasm_numbers.specs.Results.{Gives};
ghost use Rattle.dwarf_new_lists.specs.Entries.{new_list_operand as operand, an_expression, an_entry};
ghost use Rattle.dwarf_new_lists.specs.Reading.{new_list_entry_of};
ghost use Rattle.dwarf_new_lists.specs.Writing.{as_operand, IsOf, HasOperands};

use crate::kind::{Kind, Lists, Operand};
use dwarf_bytes::{DebugFault, Size, read_sized, read_u8, read_unsigned, split};

/// An operand of an entry, and how many bytes it has.
#[derive(Clone, Copy, Debug, PartialEq, Eq)]
pub(crate) struct Number {
    pub value: u64,
    pub width: usize,
}

/// The expression of an entry, and how many bytes the number of its bytes has.
#[derive(Clone, Copy)]
pub(crate) struct Expression<'a> {
    pub bytes: &'a [u8],
    pub width: usize,
}

/// An entry of a list.
#[derive(Clone, Copy)]
pub(crate) struct Entry<'a> {
    pub code: u8,
    pub kind: Kind,
    pub one: Number,
    pub two: Number,
    pub expression: Option<Expression<'a>>,
}

// how many bytes are in front of those at their end
fn width(bytes: &[u8], rest: &[u8]) -> usize {
    bytes.len().saturating_sub(rest.len())
}

#[tactic(auto, unfolding(crate::specs::Entries::new_list_operand))]
// an operand of this kind at the front, and the bytes that follow
fn read_operand(size: Size, kind: Operand, bytes: &[u8]) -> Result<(Number, &[u8]), DebugFault>
    ensures gives { Gives (λ x. (x.0.value, x.1.now)) result (operand size kind bytes.now) }
    ensures none { IfOk result (λ x. as_operand kind x.0.value ≡ x.0.value) }
{
    let (value, rest) = match kind {
        Operand::Nothing => (0, bytes),
        Operand::Address => read_sized(size, bytes)?,
        Operand::Number => read_unsigned(bytes)?,
    };
    let width = width(bytes, rest);
    Ok((Number { value, width }, rest))
}

// the expression at the front, and the bytes that follow
fn read_expression(bytes: &[u8]) -> Result<(Expression<'_>, &[u8]), DebugFault>
    ensures { Gives (λ x. (Some x.0.bytes.now, x.1.now)) result (an_expression bytes.now) }
{
    let (count, rest) = read_unsigned(bytes)?;
    let width = width(bytes, rest);
    let (bytes, rest) = split(rest, count)?;
    Ok((Expression { bytes, width }, rest))
}

#[tactic(auto, unfolding(crate::specs::Entries::an_entry))]
/// The entry at the front, and the bytes that follow.
///
/// # Errors
///
/// `UnknownForm` if its kind isn't known; `Truncated`, `BadNumber` or `BadLength` if it isn't all in the bytes.
pub(crate) fn read_entry(
    lists: Lists,
    size: Size,
    bytes: &[u8],
) -> Result<(Entry<'_>, &[u8]), DebugFault>
    ensures gives { Gives (λ x. (new_list_entry_of x.0, x.1.now)) result
        (an_entry lists size bytes.now) }
    ensures code { IfOk result (λ x. IsOf lists x.0) }
    ensures operands { IfOk result (λ x. HasOperands x.0) }
{
    let (code, rest) = read_u8(bytes)?;
    let kind = lists.kind(code).ok_or(DebugFault::UnknownForm)?;
    let (first, second) = kind.operands();
    let (one, rest) = read_operand(size, first, rest)?;
    let (two, rest) = read_operand(size, second, rest)?;
    let (expression, rest) = if lists.has_expression(kind) {
        let (expression, rest) = read_expression(rest)?;
        (Some(expression), rest)
    } else {
        (None, rest)
    };
    let entry = Entry {
        code,
        kind,
        one,
        two,
        expression,
    };
    Ok((entry, rest))
}
