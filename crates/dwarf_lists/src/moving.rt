//! Entries of which the code moves.

ghost use Rattle.std.specs.Prelude.{◌≡◌, ◌<◌, ◌⊎◌, ◌+◌, ◌++◌, ℕ, List, Bool, Some, None, IfSome, IfOk, IfErr, OnOk};
ghost use Rattle.std.specs.Option.{option_copied};
ghost use Rattle.code_moves.specs.Moves.{new_address};
ghost use Rattle.dwarf_bytes.specs.declared.fault.DebugError.TheVariants.{Memory, Fault};
ghost use Rattle.dwarf_bytes.specs.declared.fault.DebugFault.{DebugFault as AFault};
ghost use Rattle.dwarf_bytes.specs.declared.fault.DebugFault.TheVariants.{DoesNotFit};
ghost use Rattle.dwarf_expressions.specs.Expressions.{ExpressionOperation, IsExpression};
ghost use Rattle.dwarf_expressions.specs.Moving.{IsAppendedOfExpression, IsRefusedOfExpression};
ghost use Rattle.dwarf_lists.specs.Entries.{base, range, greatest};
ghost use Rattle.dwarf_lists.specs.Moving.{list_body_of, IsWrittenIf, IsRefusedEntry, HasExpression, HasItsExpression};
ghost use Rattle.dwarf_lists.specs.declared.entry.Kind.TheVariants.{Locations};
ghost use Rattle.dwarf_lists.specs.Reading.{list_entry_of};

use crate::entry::{Entry, Kind};
use crate::writing::{write_base, write_range};
use code_moves::{Body, Moves};
use dwarf_bytes::{DebugError, DebugFault};
use dwarf_expressions::{Encoding, moved_expression};
use std::alloc::Global;

/// How the entries of a list move.
#[derive(Clone, Copy)]
pub(crate) struct Context<'a> {
    /// What the list has.
    pub kind: Kind,
    /// How the numbers of the unit are written.
    pub encoding: Encoding,
    /// Where the code goes.
    pub moves: &'a Moves,
}

// where an address goes; one of no body stays
fn new_address(moves: &Moves, address: u64) -> u64
    ensures { result ≡ new_address moves.now.bodies.items address }
{
    match moves.address(address) {
        None => address,
        Some(new) => new,
    }
}

// where an address goes, counted from where `from` goes
fn new_distance(moves: &Moves, from: u64, address: u64) -> Result<u64, DebugFault>
    ensures ok { IfOk result (λ distance. new_address moves.now.bodies.items from + distance
        ≡ new_address moves.now.bodies.items address) }
    ensures err { IfErr result (λ fault. (fault ≡ DoesNotFit)
        × (new_address moves.now.bodies.items address < new_address moves.now.bodies.items from)) }
{
    match new_address(moves, address).checked_sub(new_address(moves, from)) {
        None => Err(DebugFault::DoesNotFit),
        Some(distance) => Ok(distance),
    }
}

// the body that a range begins in, and the addresses of the range
fn body_of<'a>(context: &Context<'a>, from: u64, pair: (u64, u64)) -> Option<(&'a Body, u64, u64)>
    ensures none { result ≡ None → list_body_of context.now.moves.now.bodies.items
        (greatest context.now.encoding.address_size) from pair.0 pair.1 ≡ None }
    ensures some { IfSome result (λ x. (list_body_of context.now.moves.now.bodies.items
        (greatest context.now.encoding.address_size) from pair.0 pair.1 ≡ Some x.0.now)
        × (x.1 ≡ from + pair.0) × (x.2 ≡ from + pair.1)) }
{
    let most = context.encoding.greatest_address();
    let (low, high) = pair;
    let begin = from.checked_add(low)?;
    let end = from.checked_add(high)?;
    if begin > most || end > most {
        return None;
    }
    let body = context.moves.body(begin)?;
    Some((body, begin, end))
}

// The expression of a range of this body.
fn move_expression(
    context: &Context<'_>,
    body: &Body,
    expression: &[u8],
    out: &mut Vec<u8>,
) -> Result<(), DebugError>
    requires { HasExpression context.now.kind expression.now }
    ensures moved { OnOk result ((os : List ExpressionOperation) × (names : Bool)
        × IsExpression context.now.encoding expression.now os
        × IsAppendedOfExpression context.now.encoding (Some body.now) expression.now os out.new.items names) }
    ensures expression { OnOk result (HasExpression context.now.kind out.new.items) }
    ensures refused { IfErr result (λ e. (e ≡ Memory) ⊎ ((fault : AFault) × (e ≡ Fault fault)
        × (context.now.kind ≡ Locations)
        × IsRefusedOfExpression context.now.encoding (Some body.now) expression.now fault)) }
{
    out.clear();
    match context.kind {
        Kind::Ranges => Ok(()),
        Kind::Locations => {
            moved_expression(expression, context.encoding, Some(body), out)?;
            Ok(())
        }
    }
}

/// What is written of a list.
#[derive(Drop)]
pub(crate) struct Scratch {
    /// An entry.
    pub entry: Vec<u8>,
    /// The expression of an entry.
    pub expression: Vec<u8>,
}

impl Scratch {
    /// Nothing is written yet. This allocates nothing.
    pub fn new(alloc: Global) -> Scratch {
        Scratch {
            entry: Vec::new(alloc),
            expression: Vec::new(alloc),
        }
    }
}

// The choice of a base. Returns whether it is another one; it is written then.
fn move_base(
    context: &Context<'_>,
    from: u64,
    address: u64,
    scratch: &mut Scratch,
) -> Result<bool, DebugError>
    ensures moved { IfOk result (λ changes. IsWrittenIf context.now.kind context.now.encoding
        context.now.moves.now.bodies.items from (base address) scratch.new.entry.items changes) }
    ensures refused { IfErr result (λ e. (e ≡ Memory) ⊎ ((fault : AFault) × (e ≡ Fault fault)
        × IsRefusedEntry context.now.kind context.now.encoding context.now.moves.now.bodies.items
        from (base address) fault)) }
{
    let new = new_address(context.moves, address);
    if new == address {
        return Ok(false);
    }
    let size = context.encoding.address_size;
    scratch.entry.clear();
    write_base(&mut scratch.entry, context.kind, size, new)?;
    Ok(true)
}

// A range that is counted from this address. Returns whether it is of a body; it is written then.
fn move_range(
    context: &Context<'_>,
    from: u64,
    pair: (u64, u64),
    expression: &[u8],
    scratch: &mut Scratch,
) -> Result<bool, DebugError>
    requires { HasExpression context.now.kind expression.now }
    ensures moved { IfOk result (λ changes. IsWrittenIf context.now.kind context.now.encoding
        context.now.moves.now.bodies.items from (range pair.0 pair.1 expression.now)
        scratch.new.entry.items changes) }
    ensures refused { IfErr result (λ e. (e ≡ Memory) ⊎ ((fault : AFault) × (e ≡ Fault fault)
        × IsRefusedEntry context.now.kind context.now.encoding context.now.moves.now.bodies.items
        from (range pair.0 pair.1 expression.now) fault)) }
{
    let Some((body, begin, end)) = body_of(context, from, pair) else {
        return Ok(false);
    };
    let low = new_distance(context.moves, from, begin)?;
    let high = new_distance(context.moves, from, end)?;
    move_expression(context, body, expression, &mut scratch.expression)?;
    let size = context.encoding.address_size;
    scratch.entry.clear();
    write_range(
        &mut scratch.entry,
        context.kind,
        size,
        (low, high),
        &scratch.expression,
    )?;
    Ok(true)
}

/// An entry that is counted from this address. Returns whether it changes; what it becomes is in `scratch.entry` then.
///
/// # Errors
///
/// `DoesNotFit` if a new address is less than that of the base, or isn't of the size of addresses; those of `moved_expression`.
pub(crate) fn move_entry(
    context: &Context<'_>,
    from: u64,
    entry: Entry<'_>,
    scratch: &mut Scratch,
) -> Result<bool, DebugError>
    requires { HasItsExpression context.now.kind (list_entry_of entry) }
    ensures moved { IfOk result (λ changes. IsWrittenIf context.now.kind context.now.encoding
        context.now.moves.now.bodies.items from (list_entry_of entry.entry) scratch.new.entry.items
        changes) }
    ensures refused { IfErr result (λ e. (e ≡ Memory) ⊎ ((fault : AFault) × (e ≡ Fault fault)
        × IsRefusedEntry context.now.kind context.now.encoding context.now.moves.now.bodies.items
        from (list_entry_of entry.entry) fault)) }
{
    match entry {
        Entry::End => Ok(false),
        Entry::Base(address) => move_base(context, from, address, scratch),
        Entry::Range {
            low,
            high,
            expression,
        } => move_range(context, from, (low, high), expression, scratch),
    }
}
