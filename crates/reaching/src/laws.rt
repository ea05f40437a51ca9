//! Laws of what is reached.

ghost use Rattle.reaching.specs.Laws.{Roots, Closed, Least};

/// A root is reached.
pub fn law_reached_roots()
    ensures { Roots }
{}

/// Where what is reached has an edge to an item, that item is reached.
pub fn law_reached_closed()
    ensures { Closed }
{}

/// What is reached is in each set that has the roots and is closed under edges.
pub fn law_reached_least()
    ensures { Least }
{}
