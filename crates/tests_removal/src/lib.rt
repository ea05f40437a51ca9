//! Tests of graphs and of new indices.
#![tactic(auto)]

#[cfg(test)]
mod graphs;
#[cfg(test)]
mod indices;
