//! Mappings of a program whose operators have moved.

ghost use Rattle.std.specs.Prelude.{◌≡◌, IfOk};
ghost use Rattle.std.specs.List.Sorted.{IsNonDecreasingBy};
ghost use Rattle.source_map.specs.Moving.{moved_to, moved_all};

use crate::mapping::Mapping;
use std::alloc::{AllocError, Global};

/// An operator of the source that still exists.
#[derive(Clone, Copy, Debug, PartialEq, Eq)]
pub struct Move {
    /// Its old place, a byte offset from the start of the old module.
    pub old: u32,
    /// Its new place, a byte offset from the start of the new module.
    pub new: u32,
    /// The old place of the first byte of its function's body.
    pub body: u32,
}

/// The new place of an operator: its own if it still exists, else that of the next one in its
/// function's body that does. None if there is none.
fn new_place(moves: &[Move], place: u32) -> Option<u32>
    ensures { IsNonDecreasingBy (λ m. m.old) moves.now → result ≡ moved_to moves.now place }
{
    let at = moves.partition_point(|step| step.old < place);
    match moves.get(at) {
        Some(step) if step.body <= place => Some(step.new),
        _ => None,
    }
}

/// The mappings, each at the new place of its operator, or else of the next operator of its
/// function's body that still exists. A mapping without such an operator is dropped, and so is one
/// outside of all bodies. The result is as described if `moves` is sorted by old places.
///
/// # Errors
///
/// Out of memory.
pub fn moved(
    alloc: Global,
    moves: &[Move],
    mappings: &[Mapping],
) -> Result<Vec<Mapping>, AllocError>
    ensures { IsNonDecreasingBy (λ m. m.old) moves.now
        → IfOk result (λ v. v.items ≡ moved_all moves.now mappings.now) }
{
    let mut moved = Vec::new(alloc);
    for mapping in mappings {
        if let Some(generated) = new_place(moves, mapping.generated) {
            moved.push(Mapping {
                generated,
                original: mapping.original,
            })?;
        }
    }
    Ok(moved)
}
