//! What is reached in a graph: the items to which a walk along edges leads from a root.
#![tactic(auto)]

mod graph;
mod laws;
mod search;

pub use graph::Graph;
pub use laws::{law_reached_closed, law_reached_least, law_reached_roots};
