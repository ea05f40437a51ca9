//! What calls make, and how it is handed out.

ghost use Rattle.std.specs.Prelude.{◌≡◌, ◌≤◌, ◌++◌, [], length, drop};
ghost use Rattle.wrewrite_c.specs.Outcomes.{IsDelivered};

use crate::outcome::{DONE, Outcome, TOO_SMALL};
use std::alloc::Global;

/// A module that was written, and the lines of its location map.
#[derive(Drop)]
pub(crate) struct Made {
    pub bytes: Vec<u8>,
    pub lines: Vec<u8>,
    /// What may no longer be true in it.
    pub warnings: u32,
}

/// Puts bytes at the front of others.
fn put(bytes: &[u8], room: &mut [u8])
    requires { length bytes.now ≤ length room.old }
    ensures { room.new ≡ bytes.now ++ drop (length bytes.now) room.old }
{
    room[..bytes.len()].copy_from_slice(bytes);
}

impl Made {
    /// Nothing was written yet. This takes no memory.
    pub fn new(alloc: Global) -> Made
        ensures bytes { result.bytes.items ≡ [] }
        ensures lines { result.lines.items ≡ [] }
    {
        Made {
            bytes: Vec::new(alloc),
            lines: Vec::new(alloc),
            warnings: 0,
        }
    }

    /// Puts the module and its map at the fronts of these, where both fit.
    pub fn deliver(&self, out: &mut [u8], map: &mut [u8]) -> Outcome
        ensures { IsDelivered self.now.bytes.items self.now.lines.items
            out.old out.new map.old map.new result }
    {
        let size = self.bytes.len();
        let map_size = self.lines.len();
        if out.len() < size || map.len() < map_size {
            return Outcome::of_sizes(TOO_SMALL, size, map_size);
        }
        put(&self.bytes, out);
        put(&self.lines, map);
        Outcome {
            warnings: self.warnings,
            ..Outcome::of_sizes(DONE, size, map_size)
        }
    }
}
