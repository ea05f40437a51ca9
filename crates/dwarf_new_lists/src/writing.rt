//! Writing entries.

ghost use Rattle.std.specs.Prelude.{◌≡◌, ◌⊎◌, ◌^◌, ◌≤◌, ◌++◌, true, List, ℕ, Some, OnOk, IfErr, option_map};
ghost use Rattle.dwarf_bytes.specs.declared.fault.DebugError.TheVariants.{Memory, Fault};
ghost use Rattle.dwarf_bytes.specs.declared.fault.DebugFault.{DebugFault as AFault};
ghost use Rattle.dwarf_bytes.specs.declared.fault.DebugFault.TheVariants.{DoesNotFit};
ghost use Rattle.dwarf_bytes.specs.Numbers.{size_in_bytes};
ghost use Rattle.dwarf_expressions.specs.Moving.{IsRefusedOfExpression};
ghost use Rattle.dwarf_new_lists.specs.declared.kind.Lists.{Lists};
ghost use Rattle.dwarf_new_lists.specs.declared.kind.Operand.TheVariants.{Address};
ghost use Rattle.dwarf_new_lists.specs.Refusals.{address_operands, addresses_fit};
ghost use Rattle.dwarf_new_lists.specs.WritingRefusals.{IsRefusedWriting};
ghost use Rattle.dwarf_new_lists.specs.Entries.{AnEntry, an_expression, an_entry};
ghost use Rattle.dwarf_new_lists.specs.Writing.{written_operand, FitsOperand, AppendsOfNewList, IsOf, IsMovedExpression, IsWrittenOf};

use crate::entry::{Entry, Expression, Number};
use crate::kind::Operand;
use code_moves::Body;
use dwarf_bytes::{DebugError, Size, write_padded, write_sized};
use dwarf_expressions::{Encoding, moved_expression};
use std::alloc::Global;

// Appends an operand.
fn write_operand(
    out: &mut Vec<u8>,
    size: Size,
    kind: Operand,
    number: Number,
) -> Result<(), DebugError>
    ensures written { OnOk result (out.new.items
        ≡ out.old.items ++ written_operand size kind number.width number.value) }
    ensures fits { OnOk result (FitsOperand size kind number.value) }
    ensures refused { IfErr result (λ e. (e ≡ Memory) ⊎ ((e ≡ Fault DoesNotFit) × (kind ≡ Address)
        × (256 ^ size_in_bytes size ≤ number.value))) }
{
    match kind {
        Operand::Nothing => Ok(()),
        Operand::Address => write_sized(out, size, number.value),
        Operand::Number => {
            write_padded(out, number.value, number.width)?;
            Ok(())
        }
    }
}

// Appends the expression of an entry of this body, in front of it the number of its bytes.
fn write_expression(
    out: &mut Vec<u8>,
    alloc: Global,
    expression: &Expression<'_>,
    encoding: Encoding,
    body: Option<&Body>,
) -> Result<(), DebugError>
    ensures written { OnOk result ((new : List ℕ)
        × AppendsOfNewList an_expression out.old.items out.new.items (Some new)
        × IsMovedExpression encoding (option_map (λ b. b.now) body.entry)
        (Some expression.now.bytes.now) (Some new)) }
    ensures refused { IfErr result (λ e. (e ≡ Memory) ⊎ ((fault : AFault) × (e ≡ Fault fault)
        × IsRefusedOfExpression encoding (option_map (λ b. b.now) body.entry) expression.now.bytes.now fault)) }
{
    let mut moved = Vec::new(alloc);
    moved_expression(expression.bytes, encoding, body, &mut moved)?;
    write_padded(out, moved.len() as u64, expression.width)?;
    out.extend_from_slice(&moved)?;
    Ok(())
}

/// Appends an entry that is of this body.
///
/// # Errors
///
/// `DoesNotFit` if an address is too great for its size; those of `moved_expression`.
pub(crate) fn write_entry(
    out: &mut Vec<u8>,
    alloc: Global,
    entry: &Entry<'_>,
    encoding: Encoding,
    body: Option<&Body>,
) -> Result<(), DebugError>
    ensures written { (lists : Lists) → IsOf lists entry.now → OnOk result ((new : AnEntry)
        × AppendsOfNewList (an_entry lists encoding.address_size) out.old.items out.new.items new
        × IsWrittenOf encoding (option_map (λ b. b.now) body.entry) entry.now new) }
    ensures fits { OnOk result (addresses_fit encoding.address_size
        (address_operands entry.now.kind entry.now.one.value entry.now.two.value) ≡ true) }
    ensures refused { IfErr result (λ e. (e ≡ Memory) ⊎ ((fault : AFault) × (e ≡ Fault fault)
        × IsRefusedWriting encoding (option_map (λ b. b.now) body.entry) entry.now fault)) }
{
    let (first, second) = entry.kind.operands();
    out.push(entry.code)?;
    write_operand(out, encoding.address_size, first, entry.one)?;
    write_operand(out, encoding.address_size, second, entry.two)?;
    match &entry.expression {
        None => Ok(()),
        Some(expression) => {
            write_expression(out, alloc, expression, encoding, body)?;
            Ok(())
        }
    }
}
