//! The clauses of a `try_table`, as they are written.
ghost use Rattle.std.specs.Prelude.{◌≡◌, ◌⊎◌, OnOk, IfOk, IfErr, Ok, Err};
ghost use Rattle.wasm_numbers.specs.Results.{each};
ghost use Rattle.wasm_operators.specs.Lists.{clause_of};
ghost use Rattle.wasm_body.specs.declared.error.EmitError.TheVariants.{Memory};
ghost use Rattle.wasm_body.specs.Bytes.{numbers_in_32_bits};
ghost use Rattle.wasm_body.specs.InstructionTable.{table_clause};
ghost use Rattle.wasm_body.specs.Translation.{translate_tag};
ghost use Rattle.walrus_emit_state.specs.TreeWriting.Closers.{places_of};
ghost use Rattle.walrus_numbering.specs.NumberMaps.{numbers_of};
ghost use Rattle.walrus_emit_state.specs.TreeWriting.Labels.{numbered_clause, numbered_clauses};

use crate::open_scopes::{Scopes, in_32_bits};
use walrus_ir::{InstrSeqId, TagId, TryTable, TryTableCatch};
use walrus_numbering::NumberMaps;
use wasm_body::EmitError;
use wasm_encode::OutClauses;
use wasm_operators::RawCatch;

/// Whether a clause passes a reference to the exception, its tag, and the sequence of its label.
fn parts(clause: TryTableCatch) -> (bool, Option<TagId>, InstrSeqId)
    ensures { table_clause clause ≡ clause_of result }
{
    match clause {
        TryTableCatch::Catch { tag, label } => (false, Some(tag), label),
        TryTableCatch::CatchRef { tag, label } => (true, Some(tag), label),
        TryTableCatch::CatchAll { label } => (false, None, label),
        TryTableCatch::CatchAllRef { label } => (true, None, label),
    }
}

/// The number of a clause's tag, if it has one.
fn number_of_tag(tag: Option<TagId>, numbers: &NumberMaps<'_>) -> Result<Option<u32>, EmitError>
    ensures { result ≡ translate_tag (numbers_in_32_bits (numbers_of numbers.now)).number_of tag }
{
    match tag {
        Some(tag) => match numbers.ids.get_tag_index(tag) {
            Ok(number) => Ok(Some(number)),
            Err(fault) => Err(EmitError::Index(fault)),
        },
        None => Ok(None),
    }
}

/// A clause with its numbers: first that of its tag, then its label.
fn number_clause(
    clause: TryTableCatch,
    scopes: &Scopes,
    numbers: &NumberMaps<'_>,
) -> Result<RawCatch, EmitError>
    ensures { result
        ≡ numbered_clause (numbers_of numbers.now) (places_of scopes.now.open_scopes) clause }
{
    let (by_reference, tag, place) = parts(clause);
    let tag = match number_of_tag(tag, numbers) {
        Ok(tag) => tag,
        Err(fault) => return Err(fault),
    };
    match scopes.depth(place) {
        Ok(label) => Ok(RawCatch {
            by_reference,
            tag,
            label,
        }),
        Err(fault) => Err(fault),
    }
}

/// Replaces the contents of the list with the clauses, with their numbers.
///
/// # Errors
///
/// That of the first missing number, or `Memory`.
fn list_clauses(
    catches: &[TryTableCatch],
    scopes: &Scopes,
    numbers: &NumberMaps<'_>,
    clauses: &mut Vec<RawCatch>,
) -> Result<(), EmitError>
    ensures ok { OnOk result
        (each (numbered_clause (numbers_of numbers.now) (places_of scopes.now.open_scopes))
        catches.now ≡ Ok clauses.new.items) }
    ensures err { IfErr result (λ e. (e ≡ Memory)
        ⊎ (each (numbered_clause (numbers_of numbers.now) (places_of scopes.now.open_scopes))
        catches.now ≡ Err e)) }
{
    clauses.clear();
    let mut left = catches;
    'catches: while let Some((catch, following)) = left.split_first() {
        let clause = match number_clause(*catch, scopes, numbers) {
            Ok(clause) => clause,
            Err(fault) => return Err(fault),
        };
        if clauses.push(clause).is_err() {
            return Err(EmitError::Memory);
        }
        left = following;
    }
    Ok(())
}

/// The clauses of a `try_table`. They replace the contents of the list. Their labels count from
/// outside the `try_table`.
///
/// # Errors
///
/// `TooLarge` if their number doesn't fit 32 bits, that of the first missing number, or `Memory`.
pub fn table_clauses<'t>(
    construct: &TryTable,
    scopes: &Scopes,
    numbers: &NumberMaps<'_>,
    clauses: &'t mut Vec<RawCatch>,
) -> Result<OutClauses<'t>, EmitError>
    ensures ok { IfOk result (λ clauses. numbered_clauses (numbers_of numbers.now)
        (places_of scopes.now.open_scopes) construct.now.catches ≡ Ok clauses) }
    ensures err { IfErr result (λ e. (e ≡ Memory) ⊎ (numbered_clauses (numbers_of numbers.now)
        (places_of scopes.now.open_scopes) construct.now.catches ≡ Err e)) }
{
    match in_32_bits(construct.catches.len()) {
        Ok(_) => {}
        Err(fault) => return Err(fault),
    }
    match list_clauses(construct.catches.as_slice(), scopes, numbers, clauses) {
        Ok(()) => Ok(OutClauses {
            clauses: clauses.as_slice(),
        }),
        Err(fault) => Err(fault),
    }
}
