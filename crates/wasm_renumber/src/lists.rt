//! The labels of a `br_table` and the clauses of a `try_table`, translated.
ghost use Rattle.std.specs.Prelude.{◌≡◌, ◌⊎◌, OnOk, IfErr, Ok, Err};
ghost use Rattle.wasm_numbers.specs.Results.{each};
ghost use Rattle.wasm_body.specs.Translation.{translate_tag};
ghost use Rattle.wasm_renumber.specs.Changes.{changed_clause};

use crate::translate::Translate;
use std::alloc::Global;
use wasm_operators::{BrTable, CatchList, RawCatch, Space};

/// The labels of a `br_table` and the clauses of a `try_table` while they are written.
#[derive(Drop)]
pub struct Lists {
    pub labels: Vec<u32>,
    pub clauses: Vec<RawCatch>,
}

impl Lists {
    /// Empty lists. It takes no memory.
    pub fn new(alloc: Global) -> Lists {
        Lists {
            labels: Vec::new(alloc),
            clauses: Vec::new(alloc),
        }
    }
}

/// Replaces the contents of the list with the depths for the labels of a `br_table`, without the
/// default.
pub(crate) fn list_labels<T: Translate>(
    table: &BrTable<'_>,
    with: &T,
    labels: &mut Vec<u32>,
) -> Result<(), T::Fault>
    ensures ok { OnOk result
        (each (T.changes with.now).label table.now.0 ≡ Ok labels.new.items) }
    ensures err { IfErr result (λ e. (e ≡ T.memory)
        ⊎ (each (T.changes with.now).label table.now.0 ≡ Err e)) }
{
    labels.clear();
    let mut targets = table.targets();
    'targets: while let Some(depth) = targets.next() {
        let label = match with.label(depth) {
            Ok(label) => label,
            Err(fault) => return Err(fault),
        };
        if labels.push(label).is_err() {
            return Err(with.out_of_memory());
        }
    }
    Ok(())
}

/// The number for a clause's tag, if it has one.
fn tag_of<T: Translate>(with: &T, tag: Option<u32>) -> Result<Option<u32>, T::Fault>
    ensures { result ≡ translate_tag (T.changes with.now).index tag }
{
    match tag {
        Some(index) => match with.index(Space::Tags, index) {
            Ok(number) => Ok(Some(number)),
            Err(fault) => Err(fault),
        },
        None => Ok(None),
    }
}

/// A clause: first the number for its tag, then the depth for its label.
fn clause_of<T: Translate>(with: &T, clause: RawCatch) -> Result<RawCatch, T::Fault>
    ensures { result ≡ changed_clause (T.changes with.now) clause }
{
    let tag = match tag_of(with, clause.tag) {
        Ok(tag) => tag,
        Err(fault) => return Err(fault),
    };
    match with.label(clause.label) {
        Ok(label) => Ok(RawCatch {
            by_reference: clause.by_reference,
            tag,
            label,
        }),
        Err(fault) => Err(fault),
    }
}

/// Replaces the contents of the list with the clauses of a `try_table`, translated.
pub(crate) fn list_clauses<T: Translate>(
    catches: &CatchList<'_>,
    with: &T,
    clauses: &mut Vec<RawCatch>,
) -> Result<(), T::Fault>
    ensures ok { OnOk result
        (each (changed_clause (T.changes with.now)) catches.now ≡ Ok clauses.new.items) }
    ensures err { IfErr result (λ e. (e ≡ T.memory)
        ⊎ (each (changed_clause (T.changes with.now)) catches.now ≡ Err e)) }
{
    clauses.clear();
    let mut raw = catches.iter();
    'clauses: while let Some(clause) = raw.next() {
        let clause = match clause_of(with, clause) {
            Ok(clause) => clause,
            Err(fault) => return Err(fault),
        };
        if clauses.push(clause).is_err() {
            return Err(with.out_of_memory());
        }
    }
    Ok(())
}
