//! Laws of new indices.

ghost use Rattle.item_sets.specs.IndexLaws.{InOrder, WithoutGaps};

/// Items that are left stay in their order.
pub fn law_left_in_order()
    ensures { InOrder }
{}

/// The new indices are the numbers below the count of the items that are left.
pub fn law_left_without_gaps()
    ensures { WithoutGaps }
{}
