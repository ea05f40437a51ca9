//! What operations an expression has.

ghost use Rattle.std.specs.Prelude.{◌≡◌, ◌||◌, List, [], IfOk, IfErr, Err};
ghost use Rattle.std.specs.List.{list_any};
ghost use Rattle.dwarf_expressions.specs.Expressions.{Simple, ExpressionOperation, simple_operation, simple_has, expression_has, is_branch, expression_is_entry as is_entry, BeginWith, BeginsSimple, FailAfter, FailsSimple, IsExpression, IsFaultOfOfExpression};

use crate::encoding::Encoding;
use crate::operand::Operand;
use crate::reading::{is_entry_value, read_entry_value, read_simple};
use dwarf_bytes::DebugFault;

/// What operations an expression has.
#[derive(Clone, Copy, Debug, PartialEq, Eq)]
pub(crate) struct Facts {
    /// One that goes forward or back in the expression.
    pub branches: bool,
    /// One that names an entry by its offset.
    pub names_entries: bool,
}

fn is_branch(kind: Operand) -> bool
    ensures { result ≡ is_branch kind }
{
    matches!(kind, Operand::Branch)
}

fn is_entry(kind: Operand) -> bool
    ensures { result ≡ is_entry kind }
{
    matches!(
        kind,
        Operand::EntryAt(_) | Operand::Entry | Operand::EntryOfAnyUnit
    )
}

impl Facts {
    ghost use Rattle.std.specs.Prelude.{◌≡◌, ◌||◌, false};
    ghost use Rattle.dwarf_expressions.specs.Expressions.{is_branch, expression_is_entry as is_entry};

    // those of no operation
    fn none() -> Facts
        ensures branches { result.branches ≡ false }
        ensures entries { result.names_entries ≡ false }
    {
        Facts {
            branches: false,
            names_entries: false,
        }
    }

    // those of an operation with these operands
    fn of(operands: (Operand, Operand)) -> Facts
        ensures branches { result.branches ≡ (is_branch operands.0 || is_branch operands.1) }
        ensures entries { result.names_entries ≡ (is_entry operands.0 || is_entry operands.1) }
    {
        let (one, two) = operands;
        Facts {
            branches: is_branch(one) || is_branch(two),
            names_entries: is_entry(one) || is_entry(two),
        }
    }

    // those of both
    fn with(self, other: Facts) -> Facts
        ensures branches { result.branches ≡ (self.branches || other.branches) }
        ensures entries { result.names_entries ≡ (self.names_entries || other.names_entries) }
    {
        Facts {
            branches: self.branches || other.branches,
            names_entries: self.names_entries || other.names_entries,
        }
    }
}

// the facts of an expression of simple operations
fn simple_facts(encoding: Encoding, expression: &[u8]) -> Result<Facts, DebugFault>
    ensures read { IfOk result (λ facts. (ss : List Simple)
        × BeginWith (BeginsSimple encoding) expression.now ss []
        × (facts.branches ≡ list_any (simple_has is_branch) ss)
        × (facts.names_entries ≡ list_any (simple_has is_entry) ss)) }
    ensures refused { IfErr result (λ fault.
        FailAfter (BeginsSimple encoding) (FailsSimple encoding) expression.now fault) }
{
    let mut facts = Facts::none();
    let mut rest = expression;
    while !rest.is_empty() {
        let (simple, after) = read_simple(encoding, rest)?;
        facts = facts.with(Facts::of(simple.operands));
        rest = after;
    }
    Ok(facts)
}

/// The facts of an expression.
///
/// # Errors
///
/// The fault of its first operation that can't be read; `Unsupported` if an expression in the expression contains another one.
pub(crate) fn expression_facts(encoding: Encoding, expression: &[u8]) -> Result<Facts, DebugFault>
    ensures read { IfOk result (λ facts. (os : List ExpressionOperation)
        × IsExpression encoding expression.now os
        × (facts.branches ≡ list_any (expression_has is_branch) os)
        × (facts.names_entries ≡ list_any (expression_has is_entry) os)) }
    ensures refused { IfErr result (λ fault. IsFaultOfOfExpression encoding expression.now fault) }
{
    let mut facts = Facts::none();
    let mut rest = expression;
    while !rest.is_empty() {
        if is_entry_value(rest) {
            let (value, after) = read_entry_value(rest)?;
            facts = facts.with(simple_facts(encoding, value.expression)?);
            rest = after;
        } else {
            let (simple, after) = read_simple(encoding, rest)?;
            facts = facts.with(Facts::of(simple.operands));
            rest = after;
        }
    }
    Ok(facts)
}
