//! The laws that the proofs of both passes rest on, each stated as the contract of a function that
//! does nothing.
ghost use Rattle.walrus_flat.specs.Laws.{RenumbersNamed, HasRawBody, HasNoBodyFor};
ghost use Rattle.walrus_flat.specs.RewrittenFlat.{BothAppendAlike};

use walrus_ir::InstrLocId;

/// An operator that has a spelling and a name, with its indices replaced by the numbers of their
/// ids, is its name with numbers.
pub fn law_renumbered()
    ensures { RenumbersNamed }
{}

/// Of an accepted body, the declarations of the locals that live operators name, and what is
/// written operator by operator with their numbers, are its raw body with its pairs, and keep the
/// source; or else the first fault is why there is none.
pub fn law_raw_body()
    ensures raw_body { HasRawBody }
    ensures none { HasNoBodyFor }
{}

/// What `rewrite_body` and `rewrite_flat` append of a body is the same, byte by byte and pair by
/// pair, where they had the same locations, or there is no location function. `S` is the type of a
/// validator's state, `Z` that of an allocator.
pub fn law_append_alike<S, F: Fn(&usize) -> InstrLocId, Z>()
    ensures { BothAppendAlike S F Z F.Fn }
{}
