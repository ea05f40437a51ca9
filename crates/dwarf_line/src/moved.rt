//! Where something went.

use dwarf_bytes::DebugFault;

/// Where something was in the section, and where it is in what is written.
#[derive(Clone, Copy, Debug, PartialEq, Eq)]
pub struct Moved {
    /// The offset of its first byte in the source.
    pub old: u64,
    /// The offset of its first byte in what is written.
    pub new: u64,
}

impl Moved {
    ghost use Rattle.std.specs.Prelude.{◌≡◌, ◌+◌, ◌^◌, ◌≤◌, ◌⊎◌, IfOk, IfErr};
    ghost use Rattle.dwarf_bytes.specs.declared.fault.DebugFault.TheVariants.{DoesNotFit};

    /// The place that is this far after this one.
    ///
    /// # Errors
    ///
    /// `DoesNotFit` if it is beyond 64 bits.
    pub(crate) fn further(self, old: usize, new: usize) -> Result<Moved, DebugFault>
        ensures old { IfOk result (λ m. m.old ≡ self.old + old) }
        ensures new { IfOk result (λ m. m.new ≡ self.new + new) }
        ensures errors { IfErr result (λ f. (f ≡ DoesNotFit)
            × ((2 ^ 64 ≤ self.old + old) ⊎ (2 ^ 64 ≤ self.new + new))) }
    {
        match (
            self.old.checked_add(old as u64),
            self.new.checked_add(new as u64),
        ) {
            (Some(old), Some(new)) => Ok(Moved { old, new }),
            _ => Err(DebugFault::DoesNotFit),
        }
    }
}
