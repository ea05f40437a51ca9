//! The sequences that are to come and those that are open, while a tree is written.
ghost use Rattle.std.specs.Prelude.{◌≡◌, ◌<◌, ◌⊎◌, ◌∷◌, ◌++◌, [], List, length, OnOk, OnErr, IfOk, IfErr, MatchOption};
ghost use Rattle.wasm_body.specs.declared.error.EmitError.TheVariants as emit;
ghost use Rattle.wasm_body.specs.Bytes.{in_32_bits};
ghost use Rattle.walrus_emit_state.specs.TreeWriting.Closers.{places_of};
ghost use Rattle.walrus_emit_state.specs.TreeWriting.ScopeLists.{with_more, BeginsScope, ending};

use crate::closing::{Closer, SequenceScope};
use std::alloc::{AllocError, Global};
use std::marker::Model;
use walrus_ir::{InstrLocId, InstrSeqId};
use wasm_body::EmitError;

/// An open sequence.
#[derive(Clone, Copy)]
struct EnteredScope {
    scope: SequenceScope,
    /// The level that the table had for its slot before.
    before: Option<usize>,
}

/// The sequences that are to come and those that are open, with a table of the levels of the open
/// ones. A contract sees both lists, with the next one and the innermost one first.
#[derive(Drop)]
pub struct Scopes {
    /// For each sequence of the builder that is open, how many open sequences are around it.
    levels: Vec<Option<usize>>,
    /// Those that are to come, the next one last.
    coming: Vec<SequenceScope>,
    /// Those that are open, the innermost last.
    entered: Vec<EnteredScope>,
}

impl Model for Scopes {
    ghost use Rattle.std.specs.Prelude.{length, reverse};
    ghost use Rattle.walrus_emit_state.specs.TreeWriting.ScopeLists.{ScopeLists};

    ghost Value = { ScopeLists };

    ghost use Rattle.walrus_emit_state.specs.TreeWriting.ScopeTables.{opened_in, IsScopeTable};

    ghost view = { λ s. record {
      count = length s.levels.items;
      coming = reverse s.coming.items;
      open_scopes = opened_in s.entered.items;
    } };

    ghost invariant = { λ s. IsScopeTable s.levels.items s.coming.items s.entered.items };
}

/// A depth or a number of labels, as it is written. The error is `TooLarge` if it doesn't fit 32
/// bits.
#[inline(always)]
pub(crate) fn in_32_bits(number: usize) -> Result<u32, EmitError>
    ensures { result ≡ in_32_bits number }
{
    u32::try_from(number).map_err(|_| EmitError::TooLarge)
}

impl Scopes {
    ghost use Rattle.walrus_emit_state.specs.TreeWriting.ScopeTables.{depth_in};

    /// None of `count` sequences is open or to come.
    pub fn new(alloc: Global, count: usize) -> Result<Scopes, AllocError>
        ensures { IfOk result (λ s. s ≡ record { count = count; coming = []; open_scopes = [] }) }
    {
        let mut levels = Vec::new(alloc);
        levels.resize(count, None)?;
        Ok(Scopes {
            levels,
            coming: Vec::new(alloc),
            entered: Vec::new(alloc),
        })
    }

    /// The depth of the open sequence in this slot: how many open sequences are inside of it.
    ///
    /// # Errors
    ///
    /// `BranchOutside` if no open sequence is in this slot, and `TooLarge` if the depth doesn't fit
    /// 32 bits.
    #[inline(always)]
    pub fn depth(&self, place: InstrSeqId) -> Result<u32, EmitError>
        ensures { result ≡ depth_in (places_of self.now.open_scopes) place }
    {
        let level = self.levels.get(place.index()).copied().flatten();
        let Some(level) = level else {
            return Err(EmitError::BranchOutside);
        };
        in_32_bits(self.entered.len().saturating_sub(level).saturating_sub(1))
    }

    /// Announces a sequence of the builder with what closes it, if something does, before the
    /// others.
    pub fn announce_closed(
        &mut self,
        place: InstrSeqId,
        closer: Option<(Closer, InstrLocId)>,
    ) -> Result<(), AllocError>
        requires { place < self.old.count }
        ensures ok { OnOk result (self.new
            ≡ with_more self.old (record { place = place; closer = closer } ∷ [])) }
        ensures err { OnErr result (self.new ≡ self.old) }
    {
        self.coming.push(SequenceScope { place, closer })?;
        Ok(())
    }

    /// Announces a sequence of the builder, before the others.
    pub fn announce(
        &mut self,
        place: InstrSeqId,
        closer: Closer,
        end: InstrLocId,
    ) -> Result<(), AllocError>
        requires { place < self.old.count }
        ensures ok { OnOk result (self.new ≡ with_more self.old (ending place closer end ∷ [])) }
        ensures err { OnErr result (self.new ≡ self.old) }
    {
        self.announce_closed(place, Some((closer, end)))
    }

    /// How many sequences are to come.
    pub fn coming_count(&self) -> usize
        ensures { result ≡ length self.now.coming }
    {
        self.coming.len()
    }

    /// Keeps only the last `count` of the sequences that are to come.
    pub fn keep_last(&mut self, count: usize)
        ensures { (more rest : List SequenceScope) → self.old.coming ≡ more ++ rest
            → length rest ≡ count → self.new ≡ record self.old { coming = rest } }
    {
        self.coming.truncate(count);
    }

    /// Opens the next sequence.
    ///
    /// # Errors
    ///
    /// `UnknownSequence` if none is to come, and `Memory`. Nothing is changed then.
    pub fn begin(&mut self) -> Result<(), EmitError>
        ensures ok { OnOk result (BeginsScope self.old self.new) }
        ensures err { IfErr result (λ e. (e ≡ emit.Memory)
            ⊎ ((e ≡ emit.UnknownSequence) × (self.old.coming ≡ []))) }
        ensures unchanged { OnErr result (self.new ≡ self.old) }
    {
        if self.entered.reserve(1).is_err() {
            return Err(EmitError::Memory);
        }
        let Some(scope) = self.coming.pop() else {
            return Err(EmitError::UnknownSequence);
        };
        let index = scope.place.index();
        let before = self.levels[index];
        self.levels[index] = Some(self.entered.len());
        self.entered.push(EnteredScope { scope, before }).unwrap();
        Ok(())
    }

    /// The innermost open sequence, if one is open.
    pub fn innermost(&self) -> Option<SequenceScope>
        ensures { MatchOption result (self.now.open_scopes ≡ [])
            (λ scope. (rest : List SequenceScope) × (self.now.open_scopes ≡ scope ∷ rest)) }
    {
        Some(self.entered.last()?.scope)
    }

    /// Closes the innermost open sequence, if one is open.
    pub fn leave(&mut self)
        ensures { (scope : SequenceScope) (rest : List SequenceScope)
            → self.old.open_scopes ≡ scope ∷ rest
            → self.new ≡ record self.old { open_scopes = rest } }
    {
        let Some(EnteredScope { scope, before }) = self.entered.pop() else {
            return;
        };
        let index = scope.place.index();
        if index < self.levels.len() {
            self.levels[index] = before;
        }
    }
}
