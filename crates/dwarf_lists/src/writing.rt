//! Writing entries.

ghost use Rattle.std.specs.Prelude.{◌≡◌, ◌<◌, ◌≤◌, ◌⊎◌, ◌^◌, ◌++◌, ℕ, List, length, OnOk, IfErr, Ok};
ghost use Rattle.dwarf_bytes.specs.declared.fault.DebugError.TheVariants.{Memory, Fault};
ghost use Rattle.dwarf_bytes.specs.declared.fault.DebugFault.TheVariants.{DoesNotFit};
ghost use Rattle.dwarf_bytes.specs.Numbers.{size_in_bytes};
ghost use Rattle.dwarf_bytes.specs.Writing.{fixed_bytes};
ghost use Rattle.dwarf_lists.specs.Entries.{base, range, expression_of, greatest};
ghost use Rattle.dwarf_lists.specs.Moving.{WritesOfList, HasExpression, non_zero};

use crate::entry::Kind;
use dwarf_bytes::{DebugError, DebugFault, Size, write_sized};

// Appends a pair of addresses.
fn write_pair(out: &mut Vec<u8>, size: Size, one: u64, other: u64) -> Result<(), DebugError>
    ensures written { OnOk result (out.new.items ≡ out.old.items
        ++ (fixed_bytes (size_in_bytes size) one ++ fixed_bytes (size_in_bytes size) other)) }
    ensures one { OnOk result (one < 256 ^ size_in_bytes size) }
    ensures other { OnOk result (other < 256 ^ size_in_bytes size) }
    ensures refused { IfErr result (λ e. (e ≡ Memory) ⊎ ((e ≡ Fault DoesNotFit)
        × ((256 ^ size_in_bytes size ≤ one) ⊎ (256 ^ size_in_bytes size ≤ other)))) }
{
    write_sized(out, size, one)?;
    write_sized(out, size, other)
}

/// Appends the choice of a base.
///
/// # Errors
///
/// `DoesNotFit` if the address isn't of this size; or out of memory.
pub(crate) fn write_base(
    out: &mut Vec<u8>,
    kind: Kind,
    size: Size,
    address: u64,
) -> Result<(), DebugError>
    ensures written { OnOk result ((text : List ℕ) × (out.new.items ≡ out.old.items ++ text)
        × WritesOfList kind size text (base address)) }
    ensures refused { IfErr result (λ e. (e ≡ Memory)
        ⊎ ((e ≡ Fault DoesNotFit) × (256 ^ size_in_bytes size ≤ address))) }
{
    write_pair(out, size, size.greatest(), address)?;
    Ok(())
}

// Appends the expression of a location; a range has none.
fn write_expression(out: &mut Vec<u8>, kind: Kind, expression: &[u8]) -> Result<(), DebugError>
    requires { HasExpression kind expression.now }
    ensures written { OnOk result ((text : List ℕ) × (out.new.items ≡ out.old.items ++ text)
        × ((following : List ℕ)
        → expression_of kind (text ++ following) ≡ Ok (expression.now, following))) }
    ensures refused { IfErr result (λ e. (e ≡ Memory)
        ⊎ ((e ≡ Fault DoesNotFit) × (65536 ≤ length expression.now))) }
{
    match kind {
        Kind::Ranges => Ok(()),
        Kind::Locations => {
            write_sized(out, Size::Two, expression.len() as u64)?;
            out.extend_from_slice(expression)?;
            Ok(())
        }
    }
}

// Two zeros would be the end of the list.
fn non_zero(pair: (u64, u64)) -> (u64, u64)
    ensures { result ≡ non_zero pair }
{
    match pair {
        (0, 0) => (1, 1),
        _ => pair,
    }
}

/// Appends a range. One without bytes at the base is written as one without bytes at the address after it, since two zeros
/// would be the end of the list.
///
/// # Errors
///
/// `DoesNotFit` if an address isn't of this size, or if the first one is the greatest of this size; or if the expression has more
/// than 65535 bytes. Out of memory.
pub(crate) fn write_range(
    out: &mut Vec<u8>,
    kind: Kind,
    size: Size,
    pair: (u64, u64),
    expression: &[u8],
) -> Result<(), DebugError>
    requires { HasExpression kind expression.now }
    ensures written { OnOk result ((text : List ℕ) × (out.new.items ≡ out.old.items ++ text)
        × WritesOfList kind size text (let (low, high) = non_zero pair in range low high expression.now)) }
    ensures refused { IfErr result (λ e. (e ≡ Memory) ⊎ ((e ≡ Fault DoesNotFit)
        × ((greatest size ≤ pair.0) ⊎ ((256 ^ size_in_bytes size ≤ pair.1)
        ⊎ (65536 ≤ length expression.now))))) }
{
    let (low, high) = non_zero(pair);
    if low == size.greatest() {
        return Err(DebugError::Fault(DebugFault::DoesNotFit));
    }
    write_pair(out, size, low, high)?;
    write_expression(out, kind, expression)?;
    Ok(())
}
