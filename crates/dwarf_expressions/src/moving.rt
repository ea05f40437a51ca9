//! Expressions of a function whose locals have new indices.

ghost use Rattle.std.specs.Prelude.{◌≡◌, ◌≢◌, ◌⊎◌, ◌-◌, ◌<◌, ◌^◌, ◌+◌, ℕ, List, [], ◌∷◌, ◌++◌, length, IfOk, IfErr, OnOk, Some, None, MatchBool, option_map};
ghost use Rattle.dwarf_bytes.specs.Writing.{padded};
ghost use Rattle.dwarf_bytes.specs.declared.fault.DebugError.TheVariants.{Memory, Fault};
ghost use Rattle.dwarf_bytes.specs.declared.fault.DebugFault.{DebugFault as AFault};
ghost use Rattle.dwarf_expressions.specs.Expressions.{Simple as ASimple, ExpressionOperation, Begins, BeginsSimple, BeginWith, IsExpression};
ghost use Rattle.dwarf_expressions.specs.Moving.{expression_all_of, moved_simple, moved_operation, expression_moved, expression_written, HasIndex, WritesOfExpression, IsAppendedOfExpression, IsRefusedOfExpression};
ghost use Rattle.dwarf_expressions.specs.Reading.{simple_of};

use crate::encoding::Encoding;
use crate::facts::expression_facts;
use crate::reading::{EntryValue, Simple, is_entry_value, read_entry_value, read_simple};
use code_moves::Body;
use dwarf_bytes::{DebugError, DebugFault, write_padded};

// Appends an operation with the new index of its local. Returns whether the local is kept; if it isn't, nothing is appended.
fn move_simple(operation: &Simple<'_>, body: &Body, out: &mut Vec<u8>) -> Result<bool, DebugError>
    ensures moved { IfOk result (λ kept. MatchBool kept
        ((new : ASimple) × (moved_simple body.now (simple_of operation.now) ≡ Some new)
        × HasIndex new
        × (out.new.items ≡ out.old.items ++ expression_written (length operation.now.bytes.now - 1) new))
        ((moved_simple body.now (simple_of operation.now) ≡ None)
        × (out.new.items ≡ out.old.items))) }
    ensures memory { IfErr result (λ e. e ≡ Memory) }
{
    let Some(index) = operation.local else {
        out.push(operation.code)?;
        out.extend_from_slice(operation.bytes)?;
        return Ok(true);
    };
    let Some(new) = body.local(index) else {
        return Ok(false);
    };
    out.extend_from_slice(&[0xed, 0])?;
    let width = operation.bytes.len().saturating_sub(1);
    write_padded(out, u64::from(new), width)?;
    Ok(true)
}

// Appends an expression of simple operations. Returns whether each local is kept.
fn move_simples(
    encoding: Encoding,
    expression: &[u8],
    body: &Body,
    out: &mut Vec<u8>,
) -> Result<bool, DebugError>
    ensures added { OnOk result ((text : List ℕ) × (out.new.items ≡ out.old.items ++ text)) }
    ensures moved { IfOk result (λ kept. MatchBool kept
        ((ss news : List ASimple) × (text : List ℕ)
        × BeginWith (BeginsSimple encoding) expression.now ss []
        × (expression_all_of (moved_simple body.now) ss ≡ Some news)
        × (out.new.items ≡ out.old.items ++ text) × WritesOfExpression (BeginsSimple encoding) text news)
        ((ss : List ASimple) → BeginWith (BeginsSimple encoding) expression.now ss []
        → expression_all_of (moved_simple body.now) ss ≡ None)) }
    ensures memory { (ss : List ASimple) → BeginWith (BeginsSimple encoding) expression.now ss []
        → IfErr result (λ e. e ≡ Memory) }
{
    let mut rest = expression;
    while !rest.is_empty() {
        let (operation, after) = read_simple(encoding, rest)?;
        if !move_simple(&operation, body, out)? {
            return Ok(false);
        }
        rest = after;
    }
    Ok(true)
}

// Appends the value that an expression had on entry. Returns whether each local of the expression is kept; if not, nothing is
// appended.
fn move_entry_value(
    encoding: Encoding,
    value: &EntryValue<'_>,
    body: &Body,
    out: &mut Vec<u8>,
) -> Result<bool, DebugError>
    ensures moved { IfOk result (λ kept. MatchBool kept
        ((ss news : List ASimple) × (inside : List ℕ)
        × BeginWith (BeginsSimple encoding) value.now.expression.now ss []
        × (expression_all_of (moved_simple body.now) ss ≡ Some news)
        × BeginWith (BeginsSimple encoding) inside news []
        × (length inside < 2 ^ 64)
        × (out.new.items ≡ out.old.items
        ++ (value.now.code ∷ (padded value.now.width (length inside) ++ inside))))
        (((ss : List ASimple) → BeginWith (BeginsSimple encoding) value.now.expression.now ss []
        → expression_all_of (moved_simple body.now) ss ≡ None) × (out.new.items ≡ out.old.items))) }
    ensures memory { (ss : List ASimple)
        → BeginWith (BeginsSimple encoding) value.now.expression.now ss []
        → IfErr result (λ e. e ≡ Memory) }
{
    let mut inside = Vec::new(*out.allocator());
    if !move_simples(encoding, value.expression, body, &mut inside)? {
        return Ok(false);
    }
    out.push(value.code)?;
    write_padded(out, inside.len() as u64, value.width)?;
    out.extend_from_slice(&inside)?;
    Ok(true)
}

// Appends an expression. Returns whether each local is kept.
fn move_operations(
    encoding: Encoding,
    expression: &[u8],
    body: &Body,
    out: &mut Vec<u8>,
) -> Result<bool, DebugError>
    ensures added { OnOk result ((text : List ℕ) × (out.new.items ≡ out.old.items ++ text)) }
    ensures moved { IfOk result (λ kept. MatchBool kept
        ((os news : List ExpressionOperation) × (text : List ℕ) × IsExpression encoding expression.now os
        × (expression_moved body.now os ≡ Some news)
        × (out.new.items ≡ out.old.items ++ text) × WritesOfExpression (Begins encoding) text news)
        ((os : List ExpressionOperation) → IsExpression encoding expression.now os
        → expression_moved body.now os ≡ None)) }
    ensures memory { (os : List ExpressionOperation) → IsExpression encoding expression.now os
        → IfErr result (λ e. e ≡ Memory) }
{
    let mut rest = expression;
    while !rest.is_empty() {
        if is_entry_value(rest) {
            let (value, after) = read_entry_value(rest)?;
            if !move_entry_value(encoding, &value, body, out)? {
                return Ok(false);
            }
            rest = after;
        } else {
            let (operation, after) = read_simple(encoding, rest)?;
            if !move_simple(&operation, body, out)? {
                return Ok(false);
            }
            rest = after;
        }
    }
    Ok(true)
}

/// Appends an expression, with the new indices of the locals of this body. If a local isn't kept, nothing is appended: the empty
/// expression says that there is no location. With no body, the expression is appended as it is. Returns whether an operation
/// that is appended names an entry by its offset.
///
/// # Errors
///
/// The fault of the first operation that can't be read; `Unsupported` if an operation goes forward or back in the expression,
/// and an operation has another length with a new index; or out of memory.
pub fn moved_expression(
    expression: &[u8],
    encoding: Encoding,
    body: Option<&Body>,
    out: &mut Vec<u8>,
) -> Result<bool, DebugError>
    ensures moved { IfOk result (λ names_entries. (os : List ExpressionOperation) × (added : List ℕ)
        × IsExpression encoding expression.now os
        × (out.new.items ≡ out.old.items ++ added)
        × IsAppendedOfExpression encoding (option_map (λ b. b.now) body.entry) expression.now os added
        names_entries) }
    ensures refused { IfErr result (λ e. (e ≡ Memory) ⊎ ((fault : AFault) × (e ≡ Fault fault)
        × IsRefusedOfExpression encoding (option_map (λ b. b.now) body.entry) expression.now fault)) }
{
    let facts = expression_facts(encoding, expression)?;
    let Some(body) = body else {
        out.extend_from_slice(expression)?;
        return Ok(facts.names_entries);
    };
    let begin = out.len();
    if !move_operations(encoding, expression, body, out)? {
        out.truncate(begin);
        return Ok(false);
    }
    if facts.branches && out.len() - begin != expression.len() {
        return Err(DebugError::Fault(DebugFault::Unsupported));
    }
    Ok(facts.names_entries)
}
