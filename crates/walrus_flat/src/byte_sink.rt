//! Where a large body goes while it is written.
ghost use Rattle.std.specs.Prelude.{◌≡◌, []};
ghost use Rattle.std.specs.Bool.{OnTrue, OnFalse};
ghost use Rattle.walrus_emit_state.specs.Emission.{Output};
ghost use Rattle.walrus_flat.specs.Sinks.{IsLeft, IsLast, no_output, joined_outputs};

use walrus_emit_state::Draft;
use walrus_ir::InstrLocId;

/// Takes the bytes of a body, and its location pairs if they are wanted, while it is written, so that
/// they needn't be in memory all at once.
pub trait ByteSink {
    // From this state it took these bytes and these pairs, one piece after the other, and is in that
    // one.
    ghost takes: { Self → Self → Output → Type 0 };

    // In this state it didn't take these bytes and these pairs, and is in that one.
    ghost refuses: { Self → Self → Output → Type 0 } = { λ s t o. Unit {0} };

    /// How many bytes of a source are read before what is written of them is taken, or all.
    const MOST: usize;

    /// Takes the bytes and the pairs of their operators out of two lists, which keep their memory. The
    /// places in the pairs are counted from the first byte of the body. Returns whether it did; if
    /// not, the sink knows why.
    fn take(&mut self, bytes: &mut Vec<u8>, pairs: &mut Vec<(InstrLocId, usize)>) -> bool
        ensures taken { OnTrue result (takes self.old self.new
            (record { bytes = bytes.old.items; pairs = pairs.old.items })) }
        ensures not_taken { OnFalse result (refuses self.old self.new
            (record { bytes = bytes.old.items; pairs = pairs.old.items })) }
        ensures no_bytes { OnTrue result (bytes.new.items ≡ []) }
        ensures no_pairs { OnTrue result (pairs.new.items ≡ []) };

    ghost nothing: { (s : Self) → takes s s no_output };

    ghost one_by_one: { (a b c : Self) (first second : Output) → takes a b first → takes b c second
        → takes a c (joined_outputs first second) };
}

/// The sink that takes nothing: the body stays in its list.
#[derive(Drop)]
pub(crate) struct InMemory;

impl ByteSink for InMemory {
    ghost use Rattle.std.proofs.Common.{ap, ◌∙◌};

    ghost takes = { λ a b o. o ≡ no_output };

    ghost refuses = { λ a b o. b ≡ a };

    const MOST: usize = usize::MAX;

    fn take(&mut self, _bytes: &mut Vec<u8>, _pairs: &mut Vec<(InstrLocId, usize)>) -> bool {
        false
    }

    ghost nothing = { λ s k. no_output };

    ghost one_by_one = { λ a b c first second none no_more. ap (λ (o : Output). joined_outputs o second) none ∙ no_more };
}

/// Lets a sink take what is written of a body, unless it takes it after all of the source is read.
/// Returns whether it did what it should.
#[inline(always)]
pub(crate) fn pass_to<S: ByteSink>(draft: &mut Draft, sink: &mut S) -> bool
    ensures passes { OnTrue result (IsLeft S.takes sink.old sink.new draft.old draft.new) }
    ensures stays { OnFalse result (IsLast S.refuses sink.old sink.new draft.old) }
{
    if S::MOST == usize::MAX {
        return true;
    }
    let Some((mut bytes, mut pairs)) = draft.take_lists() else {
        return false;
    };
    let is_taken = sink.take(&mut bytes, &mut pairs);
    draft.set_lists(bytes, pairs);
    is_taken
}
