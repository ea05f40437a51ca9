//! Room for items in lists.
ghost use Rattle.std.specs.Prelude.{◌≡◌, ◌+◌, ◌≤◌, [], vec_len, vec_capacity};
ghost use Rattle.std.specs.Bool.{OnTrue};

use std::alloc::Global;

/// Makes room for so many more items, and returns whether it could. The items are unchanged. It
/// isn't inlined, so that a caller whose list has room calls nothing.
#[cold]
#[inline(never)]
pub fn make_room<T>(list: &mut Vec<T>, more: usize) -> bool
    ensures room { OnTrue result (vec_len list.new + more ≤ vec_capacity list.new) }
    ensures items { list.new.items ≡ list.old.items }
{
    list.reserve(more).is_ok()
}

/// An empty list with room for so many items, or without room if there isn't so much memory.
pub fn list_with_room<T>(alloc: Global, room: usize) -> Vec<T>
    ensures { result.items ≡ [] }
{
    match Vec::with_capacity(alloc, room) {
        Ok(list) => list,
        Err(_) => Vec::new(alloc),
    }
}
