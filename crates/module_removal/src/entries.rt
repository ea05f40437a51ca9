//! Entries of a vector, as they are written (WebAssembly core specification 3.0, binary format, conventions).

use crate::parts::done;
use std::alloc::Global;
use wasm_sections::{ModuleError, write_number};

/// How many entries are written, and their bytes.
#[derive(Drop)]
pub(crate) struct Entries {
    count: usize,
    bytes: Vec<u8>,
}

impl Entries {
    ghost use Rattle.std.specs.Prelude.{◌≡◌, [], OnOk, IfOk};
    ghost use Rattle.module_removal.specs.Entries.{with_entry, entries_made, counted_bytes};

    /// None. This allocates nothing.
    pub fn new(alloc: Global) -> Entries
        ensures { entries_made result ≡ (0, []) }
    {
        Entries {
            count: 0,
            bytes: Vec::new(alloc),
        }
    }

    /// Adds the entry of an item with this new index, if it has one.
    pub fn add(&mut self, index: Option<u32>, value: &[u8]) -> Result<(), ModuleError>
        ensures { OnOk result (entries_made self.new ≡ with_entry index value.now (entries_made self.old)) }
    {
        let Some(index) = index else {
            return Ok(());
        };
        done!(write_number(&mut self.bytes, index as usize));
        self.bytes.extend_from_slice(value)?;
        self.count = self.count.saturating_add(1);
        Ok(())
    }

    /// The vector of them.
    pub fn whole(&self, alloc: Global) -> Result<Vec<u8>, ModuleError>
        ensures { IfOk result (λ vector. vector.items ≡ counted_bytes (entries_made self.now)) }
    {
        let mut vector = Vec::new(alloc);
        done!(write_number(&mut vector, self.count));
        vector.extend_from_slice(&self.bytes)?;
        Ok(vector)
    }
}
