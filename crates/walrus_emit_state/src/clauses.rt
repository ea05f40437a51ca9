//! The clauses of a legacy `try`.
ghost use Rattle.std.specs.Prelude.{◌≡◌, map};
ghost use Rattle.std.specs.Option.{option_to_list};
ghost use Rattle.walrus_ir.specs.Unfolding.{handler_of};
ghost use Rattle.wasm_body.specs.InstructionTable.{legacy_clause};
ghost use Rattle.wasm_body.specs.FlatText.{are_handlers, are_lawful};
ghost use Rattle.walrus_emit_state.specs.TreeWriting.Closers.{closing, opening_clause};

use crate::closing::Closer;
use walrus_ir::{InstrSeqId, LegacyCatch};

/// The handler of a clause, if it has one.
pub(crate) fn handler_of(clause: &LegacyCatch) -> Option<InstrSeqId>
    ensures { option_to_list result ≡ handler_of clause.now }
{
    match *clause {
        LegacyCatch::Catch { handler, .. } | LegacyCatch::CatchAll { handler } => Some(handler),
        LegacyCatch::Delegate { .. } => None,
    }
}

/// The operator with which a clause begins, which closes the sequence before it.
pub(crate) fn closer_before(clause: &LegacyCatch) -> Closer
    ensures { closing result ≡ opening_clause (legacy_clause clause.now) }
{
    match *clause {
        LegacyCatch::Catch { tag, .. } => Closer::Catch { tag },
        LegacyCatch::CatchAll { .. } => Closer::CatchAll,
        LegacyCatch::Delegate { relative_depth } => Closer::Delegate { relative_depth },
    }
}

/// Whether the clauses are any number of `catch`, and then at most one `catch_all`.
fn are_handlers(clauses: &[LegacyCatch]) -> bool
    ensures { result ≡ are_handlers (map legacy_clause clauses.now) }
{
    let mut left = clauses;
    'clauses: while let Some((clause, following)) = left.split_first() {
        match clause {
            LegacyCatch::Catch { .. } => left = following,
            LegacyCatch::CatchAll { .. } => return following.is_empty(),
            LegacyCatch::Delegate { .. } => return false,
        }
    }
    true
}

/// Whether the clauses are in a lawful order: `catch` clauses and at most one `catch_all` after
/// them, or one `delegate` alone.
pub fn are_lawful(clauses: &[LegacyCatch]) -> bool
    ensures { result ≡ are_lawful (map legacy_clause clauses.now) }
{
    match clauses.split_first() {
        Some((LegacyCatch::Delegate { .. }, following)) => following.is_empty(),
        _ => are_handlers(clauses),
    }
}
