//! Tests of the new indices of what is left, which are counted by hand.

use item_sets::ItemsLeft;
use std::test::*;

#[test]
fn new_indices(rt: HostRuntime) -> Result<(), Fail> {
    let marks = [true, false, false, true, true, false];
    let left = ItemsLeft::new(rt.alloc(), Vec::from_slice(rt.alloc(), &marks)?)?;
    assert_eq!(rt; left.items(), 6);
    assert_eq!(rt; left.count(), 3);
    let indices = [Some(0), None, None, Some(1), Some(2), None, None];
    for item in 0..7 {
        assert_eq!(rt; left.new_index(item), indices[item as usize]);
        assert_eq!(rt;
            left.is_left(item as usize),
            indices[item as usize].is_some()
        );
    }
    Ok(())
}
