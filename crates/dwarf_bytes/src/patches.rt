//! Parts of a section that are replaced.

ghost use Rattle.std.specs.Prelude.{◌≡◌, ◌+◌, ◌-◌, ◌≤◌, length};
ghost use Rattle.dwarf_bytes.specs.Order.{ArePatches, ArePatches-prop};

use crate::fault::{DebugError, DebugFault};
use std::alloc::Global;

/// A part of a section that is replaced.
#[derive(Clone, Copy, Debug, PartialEq, Eq)]
struct Patch {
    /// Where it begins in the section.
    at: usize,
    /// Where it ends there.
    stop: usize,
    /// Where the bytes that replace it end, which begin where those of the patch before it end.
    end: usize,
    /// How many bytes this patch and those before it replace.
    replaced: usize,
}

impl Patch {
    ghost use Rattle.std.specs.Prelude.{◌≡◌};
    ghost use Rattle.dwarf_bytes.specs.Order.{no_patch};

    // what is in front of the first patch
    fn none() -> Patch
        ensures { result ≡ no_patch }
    {
        Patch {
            at: 0,
            stop: 0,
            end: 0,
            replaced: 0,
        }
    }
}

/// The parts of a section that are replaced, in order, and the bytes that replace them.
#[derive(Debug, Drop)]
pub struct Patches {
    patches: Vec<Patch>,
    /// What replaces the parts, one after the other.
    bytes: Vec<u8>,
    ghost are_patches: { ArePatches 0 0 0 patches.items (length bytes.items) } by { ArePatches-prop 0 0 0 patches.items (length bytes.items) },
}

impl Patches {
    ghost use Rattle.std.specs.Prelude.{◌≡◌, ◌<◌, ◌≤◌, ◌+◌, ◌-◌, ◌++◌, ◌∷◌, [], ◌⊎◌, ◌↔◌, min, length, take, slice_get, option_map, IsTrue, IfSome, IfOk, OnOk, OnErr, IfErr};
    ghost use Rattle.dwarf_bytes.specs.Changes.{AreChangesInOrder, end_from, patched, moved_offset, are_resized};
    ghost use Rattle.dwarf_bytes.specs.Order.{no_patch, last_of, IsCut};
    ghost use Rattle.dwarf_bytes.specs.Patches.{changes, part_of};
    ghost use Rattle.dwarf_bytes.specs.declared.fault.DebugFault.TheVariants as faults;
    ghost use Rattle.dwarf_bytes.specs.declared.fault.DebugError.TheVariants.{Memory, Fault};

    /// Nothing is replaced.
    pub fn new(alloc: Global) -> Patches
        ensures { changes result ≡ [] }
    {
        Patches {
            patches: Vec::new(alloc),
            bytes: Vec::new(alloc),
        }
    }

    /// The allocator.
    pub fn allocator(&self) -> Global {
        *self.bytes.allocator()
    }

    /// Whether nothing is replaced.
    pub fn is_empty(&self) -> bool
        ensures { IsTrue result ↔ (changes self.now ≡ []) }
    {
        self.patches.is_empty()
    }

    // the last patch; before the first one everything is 0
    fn last(&self) -> Patch
        ensures last { result ≡ last_of no_patch self.now.patches.items }
        ensures ended { length self.now.bytes.items ≡ result.end }
        ensures less { result.replaced ≤ result.stop }
    {
        match self.patches.last() {
            None => Patch::none(),
            Some(patch) => *patch,
        }
    }

    /// The end of the last part that is replaced, or 0.
    pub fn end(&self) -> usize
        ensures end { result ≡ end_from 0 (changes self.now) }
        ensures order { AreChangesInOrder 0 (changes self.now) }
    {
        self.last().stop
    }

    /// The `old` bytes at `at` are replaced by these.
    ///
    /// # Errors
    ///
    /// `Overlap` if they begin before the end of the last part; `BadOffset` if no section has so many bytes; or out of
    /// memory. Nothing more is replaced then.
    pub fn push(&mut self, at: usize, old: usize, new: &[u8]) -> Result<(), DebugError>
        ensures pushed { OnOk result (changes self.new
            ≡ changes self.old ++ (record { at = at; old = old; new = new.now }) ∷ []) }
        ensures after { OnOk result (end_from 0 (changes self.old) ≤ at) }
        ensures unchanged { OnErr result (changes self.new ≡ changes self.old) }
        ensures refused { IfErr result (λ e. (e ≡ Memory)
            ⊎ (((e ≡ Fault faults.Overlap) × (at < end_from 0 (changes self.old)))
            ⊎ ((e ≡ Fault faults.BadOffset) × (usize.MAX < at + old)))) }
    {
        let last = self.last();
        if at < last.stop {
            return Err(DebugError::Fault(DebugFault::Overlap));
        }
        let Some(stop) = at.checked_add(old) else {
            return Err(DebugError::Fault(DebugFault::BadOffset));
        };
        self.patches.reserve(1)?;
        self.bytes.extend_from_slice(new)?;
        let end = self.bytes.len();
        let replaced = last.replaced + old;
        self.patches.push(Patch {
            at,
            stop,
            end,
            replaced,
        })?;
        Ok(())
    }

    // where the bytes begin that replace the part at this place of the list
    fn start_of(&self, index: usize) -> usize
        requires { index ≤ length self.now.patches.items }
        ensures { result ≡ (last_of no_patch (take index self.now.patches.items)).end }
    {
        if index == 0 {
            return 0;
        }
        self.patches[index - 1].end
    }

    /// The part at this place of the list: where it begins, how many bytes it has, and what replaces it.
    pub fn get(&self, index: usize) -> Option<(usize, usize, &[u8])>
        ensures part { option_map (λ x. part_of x.0 x.1 x.2.now) result ≡ slice_get (changes self.now) index }
        ensures fits { IfSome result (λ x. x.0 + x.1 ≤ usize.MAX) }
        ensures counted { IfSome result (λ x. index < usize.MAX) }
    {
        let patch = self.patches.get(index)?;
        let old = size_between(patch.at, patch.stop);
        let new = &self.bytes[self.start_of(index)..patch.end];
        Some((patch.at, old, new))
    }

    /// Whether a part is replaced by more or by fewer bytes than it has.
    pub fn resizes(&self) -> bool
        ensures { result ≡ are_resized (changes self.now) }
    {
        let mut start = 0;
        for patch in &self.patches {
            if patch.end - start != patch.stop - patch.at {
                return true;
            }
            start = patch.end;
        }
        false
    }

    /// What becomes of the section.
    ///
    /// # Errors
    ///
    /// `BadOffset` if a part that is replaced isn't in the section; or out of memory.
    pub fn apply(&self, alloc: Global, section: &[u8]) -> Result<Vec<u8>, DebugError>
        ensures applied { IfOk result (λ out. out.items ≡ patched (changes self.now) section.now) }
        ensures fits { OnOk result (end_from 0 (changes self.now) ≤ length section.now) }
        ensures refused { IfErr result (λ e. (e ≡ Memory)
            ⊎ ((e ≡ Fault faults.BadOffset)
            × (length section.now < end_from 0 (changes self.now)))) }
    {
        if section.len() < self.end() {
            return Err(DebugError::Fault(DebugFault::BadOffset));
        }
        let mut out = Vec::with_capacity(alloc, section.len())?;
        let mut from = 0;
        let mut start = 0;
        for patch in &self.patches {
            out.extend_from_slice(&section[from..patch.at])?;
            out.extend_from_slice(&self.bytes[start..patch.end])?;
            from = patch.stop;
            start = patch.end;
        }
        out.extend_from_slice(&section[from..])?;
        Ok(out)
    }

    // how many patches end at this offset or before it
    fn count_before(&self, offset: usize) -> usize
        ensures { IsCut self.now.patches.items offset result }
    {
        self.patches.partition_point(|patch| patch.stop <= offset)
    }

    // the last patch that ends at this offset or before it
    fn before(&self, offset: usize) -> Patch
        ensures less { result.replaced ≤ offset }
        ensures moved { moved_offset (changes self.now) offset
            ≡ (offset - result.replaced) + result.end }
    {
        let count = self.count_before(offset);
        if count == 0 {
            return Patch::none();
        }
        self.patches[count - 1]
    }

    /// Where an offset into the section goes, or the greatest number if it is that great. The parts that end at it or before it
    /// are in front of it. Takes time logarithmic in the number of parts.
    pub fn moved(&self, offset: usize) -> usize
        ensures { result ≡ min (moved_offset (changes self.now) offset) usize.MAX }
    {
        let before = self.before(offset);
        (offset - before.replaced).saturating_add(before.end)
    }
}

// how many bytes are between two places
fn size_between(at: usize, stop: usize) -> usize
    requires { at ≤ stop }
    ensures size { result ≡ stop - at }
    ensures fits { at + result ≤ usize.MAX }
{
    stop - at
}
