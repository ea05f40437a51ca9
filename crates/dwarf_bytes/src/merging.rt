//! Parts of a section that are replaced, in two steps.

ghost use Rattle.std.specs.Prelude.{◌≡◌};
ghost use Rattle.dwarf_bytes.specs.Merging.{begins_before};

use crate::fault::DebugError;
use crate::patches::Patches;
use std::alloc::Global;

/// The parts of a section that were replaced first, and others between them.
#[derive(Debug, Drop)]
pub struct MergedPatches<'p> {
    first: &'p Patches,
    // how many of the first ones were taken
    taken: usize,
    all: Patches,
}

impl<'p> MergedPatches<'p> {
    ghost use Rattle.std.specs.Prelude.{ℕ, ◌≡◌, ◌⊎◌, Option, None, Some, IfOk, OnOk, IfErr};
    ghost use Rattle.dwarf_bytes.specs.declared.fault.DebugFault.{DebugFault as AFault};
    ghost use Rattle.dwarf_bytes.specs.declared.fault.DebugError.TheVariants.{Memory, Fault};
    ghost use Rattle.dwarf_bytes.specs.Patches.{changes, part_of};
    ghost use Rattle.dwarf_bytes.specs.Merging.{merging, none_merged, first_taken, part_merged, all_merged, IsOverlap, IsNotMerged};

    /// None of the first ones is taken yet.
    pub fn new(alloc: Global, first: &'p Patches) -> MergedPatches<'p>
        ensures { merging result ≡ none_merged (changes first.now) }
    {
        MergedPatches {
            first,
            taken: 0,
            all: Patches::new(alloc),
        }
    }

    /// Takes those of the first ones that begin before this place, or all that are left.
    fn take_before(&mut self, place: Option<usize>) -> Result<(), DebugError>
        ensures taken { OnOk result (merging self.new ≡ first_taken place (merging self.old)) }
        ensures refused { IfErr result (λ e. (e ≡ Memory) ⊎ ((fault : AFault) × (e ≡ Fault fault)
            × IsOverlap (first_taken place (merging self.old)).all fault)) }
    {
        'parts: while let Some((at, old, new)) = self.first.get(self.taken) {
            if !begins_before(at, place) {
                return Ok(());
            }
            self.all.push(at, old, new)?;
            self.taken += 1;
        }
        Ok(())
    }

    /// The `old` bytes at `at` are replaced by these, too.
    ///
    /// # Errors
    ///
    /// `Overlap` if they begin before the end of the last part, or if one of the first ones before them does; `BadOffset` if no section has
    /// so many bytes; out of memory.
    pub fn push(&mut self, at: usize, old: usize, new: &[u8]) -> Result<(), DebugError>
        ensures merged { OnOk result (merging self.new ≡ part_merged (part_of at old new.now) (merging self.old)) }
        ensures refused { IfErr result (λ e. (e ≡ Memory) ⊎ ((fault : AFault) × (e ≡ Fault fault)
            × IsNotMerged (part_of at old new.now) (merging self.old) fault)) }
    {
        self.take_before(Some(at))?;
        self.all.push(at, old, new)
    }

    /// All parts that are replaced.
    ///
    /// # Errors
    ///
    /// `Overlap` if one of the first ones begins before the end of the part in front of it; out of memory.
    pub fn finish(self) -> Result<Patches, DebugError>
        ensures merged { IfOk result (λ p. changes p ≡ all_merged (merging self.entry)) }
        ensures refused { IfErr result (λ e. (e ≡ Memory) ⊎ ((fault : AFault) × (e ≡ Fault fault)
            × IsOverlap (all_merged (merging self.entry)) fault)) }
    {
        let mut merged = self;
        merged.take_before(None)?;
        let MergedPatches { all, .. } = merged;
        Ok(all)
    }
}

// whether a part at this place begins before another place, if there is one
fn begins_before(at: usize, place: Option<usize>) -> bool
    ensures { result ≡ begins_before place at }
{
    match place {
        Some(place) => at < place,
        None => true,
    }
}
